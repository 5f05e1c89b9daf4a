//! The log of a store is copied into its file while the store is open.

ghost use Rattle.std.specs.Prelude.{◌≡◌, ◌<◌, ◌≤◌};
ghost use Rattle.smi_rows.specs.Store.{Rows, IsSame, IfSure, IfUnsure, IfFailed, IfCalm};

use smi_rows::{Stable, StoreFault};
use std::alloc::Global;

/// A store that saves into a log beside its file.
pub trait LoggedStable: Stable {
    /// Copies the log into the file, as far as that can be done, so that the file alone has all rows.
    ///
    /// The rows stay, whatever the answer. After `Unsure` the store has failed for good, and an open finds them. No
    /// clause says that the log is copied: tests/marks_test.py sees that.
    fn copy_log(&mut self, alloc: Global) -> Result<(), StoreFault>
        ensures open { Self.Stable.is_honest self.new → Self.Stable.is_open self.old
            → IfSure result (Self.Stable.is_open self.new) }
        ensures kept { Self.Stable.is_honest self.new → Self.Stable.is_open self.old → Self.Stable.is_open self.new
            → IsSame (Self.Stable.rows self.new) (Self.Stable.rows self.old) }
        ensures crash { Self.Stable.is_honest self.new → Self.Stable.is_open self.old → (r : Rows)
            → Self.Stable.may_find self.new r → IsSame r (Self.Stable.rows self.old) }
        ensures honest { Self.Stable.is_honest self.new → Self.Stable.is_honest self.old }
        ensures saves { Self.Stable.saves self.new ≡ Self.Stable.saves self.old }
        ensures failures { Self.Stable.failures self.old ≤ Self.Stable.failures self.new }
        ensures cause { IfFailed result (Self.Stable.failures self.old < Self.Stable.failures self.new) }
        ensures calm { IfCalm result (Self.Stable.failures self.new ≡ Self.Stable.failures self.old) }
        ensures doubt { IfUnsure result (Self.Stable.doubts self.old < Self.Stable.doubts self.new) }
        ensures sure { IfSure result (Self.Stable.doubts self.new ≡ Self.Stable.doubts self.old) };
}
