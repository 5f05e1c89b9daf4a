/// The mode in which a domain holds a child.
#[derive(Clone, Copy, PartialEq, Eq)]
pub enum Mode {
    /// The child gets commands, and its state counts.
    Included,
    /// The child gets no commands, and its state counts.
    Manual,
    /// The child gets commands, and its state does not count.
    Ignored,
}

impl Mode {
    ghost use Rattle.std.specs.Prelude.{◌≡◌};
    ghost use Rattle.smi_rows.specs.Stored.{mode_number, mode_of};

    /// Returns the number of the mode in rows, 0 to 2 in the order of the variants.
    pub fn number(self) -> u8
        ensures { result ≡ mode_number self }
    {
        match self {
            Mode::Included => 0,
            Mode::Manual => 1,
            Mode::Ignored => 2,
        }
    }

    /// Returns the mode of this number, if there is one.
    pub fn from_number(number: u8) -> Option<Mode>
        ensures { result ≡ mode_of number }
    {
        match number {
            0 => Some(Mode::Included),
            1 => Some(Mode::Manual),
            2 => Some(Mode::Ignored),
            _ => None,
        }
    }
}
