//! Decides when an endless node lets its store copy the log into the file of the store.
//!
//! `station_loop` asks it between two rounds of turns. The store counts the looks: it copies at the second look after a
//! save (`LogState` of `smi_disks`), so that no copy holds up saves. docs/DECISIONS.md says why.

use std::time::Instant;

/// How many seconds pass between two looks at the log. The store copies it at the second look after a save, so at
/// least this long after the save.
const LOOK_SECONDS: u64 = 3;

/// Measures the time since the log was looked at.
#[derive(Drop)]
pub(crate) struct LogTimer {
    /// The moment of the last look, by the monotonic clock. None before the first call of [`LogTimer::is_due`].
    since: Option<Instant>,
}

impl LogTimer {
    /// Makes a timer that starts at the first moment that [`LogTimer::is_due`] is given.
    pub(crate) fn new() -> LogTimer {
        LogTimer { since: None }
    }

    /// Returns true if it is time for a look, and then measures from `now` on. Returns false if the clock failed (`now`
    /// is None), or if this is the first call.
    pub(crate) fn is_due(&mut self, now: Option<Instant>) -> bool {
        match (now, self.since) {
            (Some(now), Some(since)) if now.duration_since(since).as_secs() < LOOK_SECONDS => false,
            (Some(_), Some(_)) => {
                self.since = now;
                true
            }
            (Some(_), None) => {
                self.since = now;
                false
            }
            (None, _) => false,
        }
    }
}
