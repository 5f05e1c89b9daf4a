//! What may be wrong with a line of a journal.

ghost use Rattle.std.specs.Prelude.{◌≡◌};

use std::alloc::{AllocError, AllocFailed};
use thiserror::Error;

/// What is wrong with a line of a journal (docs/FORMATS.md, "Journals").
#[derive(Clone, Copy, Debug, PartialEq, Eq, Error)]
pub enum LineFault {
    /// The first word after the boot is none that a line has there.
    #[error("1: an unknown first word")]
    UnknownWord,
    /// The line has too few words, or too many.
    #[error("2: too few words, or too many")]
    WordCount,
    /// A time, a number or a name is not well formed, or a word is none that belongs there.
    #[error("3: a time, a number or a name is not well formed")]
    Malformed,
    /// The tree has nothing of that name.
    #[error("5: a name that the tree does not have")]
    UnknownName,
    /// The line has more than 300 bytes.
    #[error("10: a line of more than 300 bytes")]
    LineTooLong,
    /// The line is in the journal of a station that does not tell it.
    #[error("13: the line belongs to another station")]
    OtherStation,
    /// The boot is less than that of a line before, or differs from it without a start.
    #[error("14: a boot goes back")]
    BootGoesBack,
    /// The file is of another tree.
    #[error("15: another tree")]
    OtherTree,
}

impl LineFault {
    ghost use Rattle.std.specs.Prelude.{◌≡◌};
    ghost use Rattle.smi_replay.specs.Fault.{line_fault_code};

    /// Returns the number that stands for the fault.
    pub fn code(self) -> u16
        ensures { result ≡ line_fault_code self }
    {
        match self {
            LineFault::UnknownWord => 1,
            LineFault::WordCount => 2,
            LineFault::Malformed => 3,
            LineFault::UnknownName => 5,
            LineFault::LineTooLong => 10,
            LineFault::OtherStation => 13,
            LineFault::BootGoesBack => 14,
            LineFault::OtherTree => 15,
        }
    }
}

/// Why a line was not read.
#[derive(Clone, Copy, PartialEq, Eq)]
pub enum LineError {
    /// The line is none.
    Fault(LineFault),
    /// Out of memory.
    Memory,
}

impl From<LineFault> for LineError {
    ghost use Rattle.std.specs.Prelude.{◌≡◌};
    ghost use Rattle.smi_replay.specs.declared.fault.LineError.TheVariants as line_error;

    ghost from_gives = { λ fault error. error ≡ line_error.Fault fault };

    fn from(fault: LineFault) -> LineError {
        LineError::Fault(fault)
    }
}

impl From<AllocError> for LineError {
    ghost use Rattle.std.specs.Prelude.{◌≡◌};
    ghost use Rattle.smi_replay.specs.declared.fault.LineError.TheVariants as line_error;

    ghost from_gives = { λ _ error. error ≡ line_error.Memory };

    fn from(_refused: AllocError) -> LineError {
        LineError::Memory
    }
}

impl<T: Drop> From<AllocFailed<T>> for LineError {
    ghost use Rattle.std.specs.Prelude.{◌≡◌};
    ghost use Rattle.smi_replay.specs.declared.fault.LineError.TheVariants as line_error;

    ghost from_gives = { λ _ error. error ≡ line_error.Memory };

    fn from(_refused: AllocFailed<T>) -> LineError {
        LineError::Memory
    }
}
