use smi_rows::{Key, StoreFault};
use thiserror::Error;

/// Why a station did not open. Its store then has the boot as before, or one higher after an unsure save.
#[derive(Clone, Copy, Debug, PartialEq, Eq, Error)]
pub enum OpenFault {
    /// The tree has no station of this number.
    #[error("the tree has no such station")]
    NoSuchStation,
    /// The row of the least key that is refused, and the number of the test that it fails
    /// (docs/FORMATS.md, "Stable rows").
    #[error("row {} {} {} fault {}", .0.station, .0.domain, .0.operator, .1)]
    Row(Key, u16),
    /// The station has started 4,000,000,000 times.
    #[error("the last boot is used")]
    BootsSpent,
    /// The store failed; it never says that memory ran out.
    #[error(transparent)]
    Store(StoreFault),
    /// Memory ran out.
    #[error("out of memory")]
    Memory,
}
