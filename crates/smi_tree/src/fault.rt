//! What may be wrong with a tree file.

ghost use Rattle.std.specs.Prelude.{◌≡◌};
ghost use Rattle.smi_tree.specs.declared.fault.LineRefusal.TheVariants.{Memory, Faulty};

use std::alloc::{AllocError, AllocFailed};
use thiserror::Error;

/// What is wrong with a line, or with the file.
#[derive(Clone, Copy, Debug, PartialEq, Eq, Error)]
pub enum Fault {
    /// The first word of the line is none that a line may begin with.
    #[error("1: an unknown first word")]
    UnknownWord,
    /// The line has too few words, or too many.
    #[error("2: too few words, or too many")]
    WordCount,
    /// A name or a number is not well formed, or a number is out of its range.
    #[error("3: a name or a number is not well formed")]
    Malformed,
    /// A name is declared twice, or a move or an accepted action of a class is.
    #[error("4: declared twice")]
    Twice,
    /// A name is not declared above as what the line wants there.
    #[error("5: a name that is not declared above")]
    UnknownName,
    /// With this line there would be more of a kind than may be.
    #[error("6: a limit is passed")]
    OverLimit,
    /// The first line is no `tree` line, or a later one is.
    #[error("7: the first line, and no other, is a tree line")]
    TreeLine,
    /// The address of a station is not well formed.
    #[error("8: an address is not well formed")]
    BadAddress,
    /// A device class in place of a unit class, or the other way round.
    #[error("9: a class of the other kind")]
    OtherKind,
    /// The line has more than 200 bytes.
    #[error("10: a line of more than 200 bytes")]
    LineTooLong,
    /// The file has more than 256 KiB.
    #[error("11: more than 256 KiB")]
    FileTooLong,
    /// A station, operator, state, action or domain is missing.
    #[error("12: a station, operator, state, action or domain is missing")]
    Incomplete,
}

impl Fault {
    ghost use Rattle.std.specs.Prelude.{◌≡◌};
    ghost use Rattle.smi_tree.specs.Fault.{fault_code};

    /// Returns the number that stands for the fault.
    pub fn code(self) -> u16
        ensures { result ≡ fault_code self }
    {
        match self {
            Fault::UnknownWord => 1,
            Fault::WordCount => 2,
            Fault::Malformed => 3,
            Fault::Twice => 4,
            Fault::UnknownName => 5,
            Fault::OverLimit => 6,
            Fault::TreeLine => 7,
            Fault::BadAddress => 8,
            Fault::OtherKind => 9,
            Fault::LineTooLong => 10,
            Fault::FileTooLong => 11,
            Fault::Incomplete => 12,
        }
    }
}

/// Why a line was not taken.
#[derive(Drop)]
pub(crate) enum LineRefusal {
    Faulty(Fault),
    Memory,
}

impl From<Fault> for LineRefusal {
    ghost from_gives = { λ fault refusal. refusal ≡ Faulty fault };

    fn from(fault: Fault) -> LineRefusal {
        LineRefusal::Faulty(fault)
    }
}

impl From<AllocError> for LineRefusal {
    ghost from_gives = { λ _ refusal. refusal ≡ Memory };

    fn from(_refused: AllocError) -> LineRefusal {
        LineRefusal::Memory
    }
}

impl<T: Drop> From<AllocFailed<T>> for LineRefusal {
    ghost from_gives = { λ _ refusal. refusal ≡ Memory };

    fn from(_refused: AllocFailed<T>) -> LineRefusal {
        LineRefusal::Memory
    }
}

/// Why a tree file was not read.
#[derive(Clone, Copy, Debug, PartialEq, Eq, Error)]
pub enum TreeFault {
    /// The line of this number, counting all lines from 1, has the [fault](Fault::code) of the second. Line 0 is
    /// the file itself.
    #[error("tree line {0} fault {1}")]
    Line(u64, u16),
    /// Memory ran out.
    #[error("out of memory")]
    Memory,
}

impl From<AllocError> for TreeFault {
    ghost use Rattle.std.specs.Prelude.{◌≡◌};
    ghost use Rattle.smi_tree.specs.declared.fault.TreeFault.TheVariants as tree_fault;

    ghost from_gives = { λ _ fault. fault ≡ tree_fault.Memory };

    fn from(_refused: AllocError) -> TreeFault {
        TreeFault::Memory
    }
}

impl LineRefusal {
    ghost use Rattle.std.specs.Prelude.{◌≡◌};
    ghost use Rattle.smi_tree.specs.File.{refused_at};

    /// Returns the refusal of the line of this number.
    pub(crate) fn at_line(self, number: u64) -> TreeFault
        ensures { result ≡ refused_at number self }
    {
        match self {
            LineRefusal::Faulty(fault) => TreeFault::Line(number, fault.code()),
            LineRefusal::Memory => TreeFault::Memory,
        }
    }
}
