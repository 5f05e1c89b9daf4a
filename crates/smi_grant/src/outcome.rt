//! How a command, a take or a drop ended.

use thiserror::Error;

/// How a command, a take or a drop ended. It is a number in records, and is told as one to operators
/// (docs/PROTOCOL.md, "Outcomes"; docs/NUMBERS.md, "How an order ends").
#[derive(Clone, Copy, Debug, PartialEq, Eq, Error)]
pub enum Outcome {
    #[error("0: done")]
    Done,
    #[error("1: a domain on the way does not accept the action")]
    NotAccepted,
    #[error("2: the target is not below the domain")]
    NotBelow,
    #[error("3: the child is held and in that mode already")]
    InThatMode,
    #[error("4: the child is not held")]
    ChildNotHeld,
    #[error("5: another one holds the domain")]
    HeldByAnother,
    #[error("6: a child on the way is not held, or is manual")]
    NotHandedOn,
    #[error("7: a million commands were given to a child under one grant")]
    ChildNumbersUsed,
    /// It is told to operators alone, and is in no record.
    #[error("8: it has ended, and how was not seen")]
    Unseen,
    #[error("9: the epochs of the domain are used up")]
    EpochsUsed,
}

impl Outcome {
    ghost use Rattle.std.specs.Prelude.{◌≡◌};
    ghost use Rattle.smi_grant.specs.Outcome.{outcome_code};

    /// Returns the outcome's number, 0 to 9.
    pub const fn code(self) -> u16
        ensures { result ≡ outcome_code self }
    {
        match self {
            Outcome::Done => 0,
            Outcome::NotAccepted => 1,
            Outcome::NotBelow => 2,
            Outcome::InThatMode => 3,
            Outcome::ChildNotHeld => 4,
            Outcome::HeldByAnother => 5,
            Outcome::NotHandedOn => 6,
            Outcome::ChildNumbersUsed => 7,
            Outcome::Unseen => 8,
            Outcome::EpochsUsed => 9,
        }
    }
}
