/// The name of a row (docs/FORMATS.md, "Stable rows"), ordered by station, domain and operator.
///
/// (s, 0, 0) is the boot of station s, (s, d, 0) its domain d and (s, 0, o) its operator o.
#[derive(Clone, Copy, Debug, PartialEq, Eq, PartialOrd, Ord)]
pub struct Key {
    pub station: u16,
    pub domain: u16,
    pub operator: u16,
}

/// What a row is about.
#[derive(Clone, Copy, PartialEq, Eq)]
pub enum RowKind {
    Boot,
    Domain,
    Operator,
}

impl Key {
    ghost use Rattle.std.specs.Prelude.{◌≡◌};
    ghost use Rattle.smi_rows.specs.Key.{kind_of};

    /// Returns what the row of this key is about. No row is about a domain and an operator.
    pub fn kind(self) -> Option<RowKind>
        ensures { result ≡ kind_of self }
    {
        match (self.domain, self.operator) {
            (0, 0) => Some(RowKind::Boot),
            (_, 0) => Some(RowKind::Domain),
            (0, _) => Some(RowKind::Operator),
            _ => None,
        }
    }
}
