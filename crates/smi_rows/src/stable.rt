//! What a station asks of the store of its rows.

ghost use Rattle.std.specs.Prelude.{◌≡◌, ◌⊎◌, ◌<◌, ◌≤◌, ◌+◌, ℕ, OnOk, IfOk};
ghost use Rattle.smi_rows.specs.Store.{
  Rows,
  IsSame,
  IsListing,
  IfSure,
  IfNotSaved,
  IfUnsure,
  IfFailed,
  IfCalm,
  with_row,
};

use crate::key::Key;
use crate::saved::SavedRow;
use thiserror::Error;

/// Why a store did not do what it was asked.
#[derive(Clone, Copy, Debug, PartialEq, Eq, Error)]
pub enum StoreFault {
    /// Memory ran out. The rows are as before.
    #[error("out of memory")]
    Memory,
    /// The device failed. The rows are as before.
    #[error("the device failed, and the rows are as before")]
    Device,
    /// The device failed, and the row is as before or as saved.
    #[error("the device failed, and it is not known whether the row was saved")]
    Unsure,
}

/// A store of rows by their keys.
///
/// What is said of the rows is said while the store is honest: nobody else writes them, and what is
/// read is what was written.
pub trait Stable {
    // The bytes under each key.
    ghost rows: { Self → Rows };

    // The rows that an open may find, if the process stops now.
    ghost may_find: { Self → Rows → Type 0 };

    // Nobody else wrote so far, and what was read is what was written.
    ghost is_honest: { Self → Type 0 };

    // The store did not fail for good.
    ghost is_open: { Self → Type 0 };

    // How often it failed.
    ghost failures: { Self → ℕ };

    // How often it failed so that nobody knows what it left.
    ghost doubts: { Self → ℕ };

    // How often `save` was called.
    ghost saves: { Self → ℕ };

    /// Saves the bytes under the key, in the place of those that were there.
    ///
    /// After `Memory` and `Device` the rows are as before; after `Unsure` an open finds the row as
    /// before or as saved.
    fn save(&mut self, key: Key, bytes: &[u8]) -> Result<(), StoreFault>
        ensures saved { is_honest self.new
            → OnOk result (is_open self.new × IsSame (rows self.new) (with_row key bytes.now (rows self.old))) }
        ensures kept { is_honest self.new → IfNotSaved result
            (is_open self.old → is_open self.new × IsSame (rows self.new) (rows self.old)) }
        ensures unsure { is_honest self.new → is_open self.new
            → IfUnsure result (IsSame (rows self.new) (rows self.old)
            ⊎ IsSame (rows self.new) (with_row key bytes.now (rows self.old))) }
        // A stop now leaves the rows as before or as saved.
        ensures crash { is_honest self.new → is_open self.old → (r : Rows) → may_find self.new r
            → IsSame r (rows self.old) ⊎ IsSame r (with_row key bytes.now (rows self.old)) }
        ensures honest { is_honest self.new → is_honest self.old }
        ensures saves { saves self.new ≡ saves self.old + 1 }
        ensures failures { failures self.old ≤ failures self.new }
        ensures cause { IfFailed result (failures self.old < failures self.new) }
        ensures calm { IfCalm result (failures self.new ≡ failures self.old) }
        ensures doubt { IfUnsure result (doubts self.old < doubts self.new) }
        ensures sure { IfSure result (doubts self.new ≡ doubts self.old) };

    /// Loads all rows, by rising key. The rows stay, whatever the answer, and a store that failed for good lists
    /// none.
    fn load(&mut self) -> Result<Vec<SavedRow>, StoreFault>
        ensures loaded { is_honest self.new → IfOk
            result (λ list. is_open self.old × IsListing (rows self.old) list.items) }
        ensures open { is_honest self.new → is_open self.old → IfSure result (is_open self.new) }
        ensures kept { is_honest self.new → is_open self.old → is_open self.new
            → IsSame (rows self.new) (rows self.old) }
        ensures crash { is_honest self.new → is_open self.old → (r : Rows) → may_find self.new r
            → IsSame r (rows self.old) }
        ensures honest { is_honest self.new → is_honest self.old }
        ensures saves { saves self.new ≡ saves self.old }
        ensures failures { failures self.old ≤ failures self.new }
        ensures cause { IfFailed result (failures self.old < failures self.new) }
        ensures calm { IfCalm result (failures self.new ≡ failures self.old) }
        ensures doubt { IfUnsure result (doubts self.old < doubts self.new) }
        ensures sure { IfSure result (doubts self.new ≡ doubts self.old) };

    // While the store is honest and open, a stop leaves its rows.
    ghost rests: { (store : Self) → is_honest store → is_open store → (r : Rows) → may_find store r
        → IsSame r (rows store) };
}
