use crate::key::RowKind;

/// How a row is written. Later schemas of a kind can say more.
#[derive(Clone, Copy, PartialEq, Eq)]
pub struct Schema {
    pub kind: RowKind,
    /// The first byte of the row.
    pub number: u8,
}

impl RowKind {
    ghost use Rattle.std.specs.Prelude.{◌≡◌};
    ghost use Rattle.smi_rows.specs.Schema.{newest};

    /// Returns the newest schema of such rows, in which they are written.
    pub fn newest_schema(self) -> u8
        ensures { result ≡ newest self }
    {
        match self {
            RowKind::Boot | RowKind::Domain => 2,
            RowKind::Operator => 3,
        }
    }
}

impl Schema {
    ghost use Rattle.std.specs.Prelude.{◌≡◌};
    ghost use Rattle.smi_rows.specs.Schema.{schema_of, has_modes, last_verb, most_pending_in};

    /// Returns the schema of this number, if there is one.
    pub fn of(kind: RowKind, number: u8) -> Option<Schema>
        ensures { result ≡ schema_of kind number }
    {
        if 1 <= number && number <= kind.newest_schema() {
            Some(Schema { kind, number })
        } else {
            None
        }
    }

    /// Returns true if links have modes other than included.
    pub fn has_modes(self) -> bool
        ensures { result ≡ has_modes self }
    {
        self.kind == RowKind::Domain && self.number == 2
    }

    /// Returns the greatest verb of a command.
    pub fn last_verb(self) -> u16
        ensures { result ≡ last_verb self }
    {
        if self.number == 1 { 3 } else { 5 }
    }

    /// Returns how many commands of a link may be pending.
    pub fn most_pending(self) -> usize
        ensures { result ≡ most_pending_in self }
    {
        if self.number == 3 { 8 } else { 1 }
    }
}
