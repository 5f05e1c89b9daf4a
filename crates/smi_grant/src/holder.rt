use smi_base::{MOST_DOMAINS, MOST_OPERATORS};

/// Who holds a domain: nobody, an operator, or the domain above it, each by its number.
#[derive(Clone, Copy, Debug, PartialEq, Eq)]
pub enum Holder {
    Free,
    Operator(u16),
    Domain(u16),
}

impl Holder {
    ghost use Rattle.std.specs.Prelude.{◌≡◌};
    ghost use Rattle.smi_grant.specs.Holder.{is_in_range, kind_of, number_of, holder_of};

    /// Returns true if the number is one that a tree can have: operators 1 to 32, domains 1 to 128.
    pub fn is_in_range(self) -> bool
        ensures { result ≡ is_in_range self }
    {
        match self {
            Holder::Free => true,
            Holder::Operator(number) => 1 <= number && number <= MOST_OPERATORS,
            Holder::Domain(number) => 1 <= number && number <= MOST_DOMAINS,
        }
    }

    /// Returns the number of the kind of holder in datagrams and rows: 0 nobody, 1 an operator, 2 a domain.
    pub fn kind(self) -> u8
        ensures { result ≡ kind_of self }
    {
        match self {
            Holder::Free => 0,
            Holder::Operator(_) => 1,
            Holder::Domain(_) => 2,
        }
    }

    /// Returns the number of the operator or domain, 0 for nobody.
    pub fn number(self) -> u16
        ensures { result ≡ number_of self }
    {
        match self {
            Holder::Free => 0,
            Holder::Operator(number) | Holder::Domain(number) => number,
        }
    }

    /// Returns the holder of this kind and number: nobody has number 0, and there are the three kinds.
    pub fn from_kind(kind: u8, number: u16) -> Option<Holder>
        ensures { result ≡ holder_of kind number }
    {
        match kind {
            0 if number == 0 => Some(Holder::Free),
            1 => Some(Holder::Operator(number)),
            2 => Some(Holder::Domain(number)),
            _ => None,
        }
    }
}
