use thiserror::Error;

/// Why bytes are no datagram: the first test that they fail, in this order.
#[derive(Clone, Copy, Debug, PartialEq, Eq, Error)]
pub enum Bad {
    /// They are not 44 bytes.
    #[error("1: not 44 bytes")]
    Length = 1,
    /// They do not begin with `SM`.
    #[error("2: does not begin with SM")]
    Magic,
    /// The layout is neither 1 nor 2.
    #[error("3: an unknown layout")]
    Layout,
    /// There is no such kind of datagram, or none in this layout.
    #[error("4: an unknown kind of datagram")]
    Kind,
    /// A field that the kind uses is out of range, or the fields of a told record are no record.
    #[error("5: a field is out of range")]
    Range,
    /// A field that the kind does not use is not zero.
    #[error("6: a field that is not used is not zero")]
    Unused,
}

impl Bad {
    ghost use Rattle.std.specs.Prelude.{◌≡◌};
    ghost use Rattle.smi_message.specs.Bad.{bad_code};

    /// Returns the number of the test, 1 to 6.
    pub fn code(self) -> u16
        ensures { result ≡ bad_code self }
    {
        u16::from(self as u8)
    }
}
