use crate::Bad;
use thiserror::Error;

/// Why a station refuses what it received. It then changes and sends nothing.
#[derive(Clone, Copy, Debug, PartialEq, Eq, Error)]
pub enum DatagramRefusal {
    /// The bytes are no datagram.
    #[error(transparent)]
    Bad(Bad),
    /// The datagram is of another tree.
    #[error("7: a datagram of another tree")]
    OtherTree,
    /// The datagram is for another station.
    #[error("8: a datagram for another station")]
    OtherStation,
    /// The datagram names what is not there, or comes from whom it may not come.
    #[error("9: it names what is not there, or comes from the wrong station")]
    Unknown,
}

impl DatagramRefusal {
    ghost use Rattle.std.specs.Prelude.{◌≡◌};
    ghost use Rattle.smi_message.specs.Bad.{refusal_code};

    /// Returns the number of the refusal, 1 to 9 in the order of the tests.
    pub fn code(self) -> u16
        ensures { result ≡ refusal_code self }
    {
        match self {
            DatagramRefusal::Bad(bad) => bad.code(),
            DatagramRefusal::OtherTree => 7,
            DatagramRefusal::OtherStation => 8,
            DatagramRefusal::Unknown => 9,
        }
    }
}
