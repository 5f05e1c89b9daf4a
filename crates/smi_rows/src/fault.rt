use std::alloc::{AllocError, AllocFailed};
use thiserror::Error;

/// What is wrong with a row: the first of these tests that it fails.
#[derive(Clone, Copy, Debug, PartialEq, Eq, Error)]
pub enum RowFlaw {
    /// It is empty, or has a byte too few or too many for what it says.
    #[error("1: too few bytes, or too many")]
    Length = 1,
    /// There is no such schema of such rows.
    #[error("2: an unknown schema")]
    Schema,
    /// The bytes encode no row whose values are in range.
    #[error("3: a value is out of range")]
    Range,
    /// It names a domain, an operator, a holder, a link, an action or a target that the tree does
    /// not have there, or its key does.
    #[error("4: it names what the tree does not have")]
    Unknown,
}

impl RowFlaw {
    ghost use Rattle.std.specs.Prelude.{◌≡◌};
    ghost use Rattle.smi_rows.specs.Fault.{fault_code};

    /// Returns the number of the test, 1 to 4.
    pub fn code(self) -> u16
        ensures { result ≡ fault_code self }
    {
        u16::from(self as u8)
    }
}

/// Why a row was not read.
#[derive(Clone, Copy, Debug, PartialEq, Eq, Error)]
pub enum RowFault {
    /// The [code](RowFlaw::code) of the first test that the row fails.
    #[error("a row has fault {0}")]
    Code(u16),
    /// Memory ran out.
    #[error("out of memory")]
    Memory,
}

impl From<RowFlaw> for RowFault {
    ghost use Rattle.std.specs.Prelude.{◌≡◌};
    ghost use Rattle.smi_rows.specs.declared.fault.RowFault.TheVariants as row_fault;
    ghost use Rattle.smi_rows.specs.Fault.{fault_code};

    ghost from_gives = { λ fault row. row ≡ row_fault.Code (fault_code fault) };

    fn from(fault: RowFlaw) -> RowFault {
        RowFault::Code(fault.code())
    }
}

impl From<AllocError> for RowFault {
    ghost use Rattle.std.specs.Prelude.{◌≡◌};
    ghost use Rattle.smi_rows.specs.declared.fault.RowFault.TheVariants as row_fault;

    ghost from_gives = { λ _ row. row ≡ row_fault.Memory };

    fn from(_refused: AllocError) -> RowFault {
        RowFault::Memory
    }
}

impl<T: Drop> From<AllocFailed<T>> for RowFault {
    ghost use Rattle.std.specs.Prelude.{◌≡◌};
    ghost use Rattle.smi_rows.specs.declared.fault.RowFault.TheVariants as row_fault;

    ghost from_gives = { λ _ row. row ≡ row_fault.Memory };

    fn from(_refused: AllocFailed<T>) -> RowFault {
        RowFault::Memory
    }
}
