//! How long a link waits before it says that nothing has come.

ghost use Rattle.std.specs.Prelude.{◌≡◌, ◌≤◌, Some};
ghost use Rattle.std.specs.Time.{instant_nanos};
ghost use Rattle.smi_link.specs.Patience.{begun_at, left_at, most_patience};

use std::time::Instant;

/// How long a link waits, in milliseconds, however many datagrams come in the meantime.
pub(crate) const MOST_PATIENCE: u64 = 10;

/// The patience of a link: it begins with the first look after nothing has come, and datagrams do not renew it.
#[derive(Clone, Copy)]
pub(crate) struct Patience {
    /// When it began; nothing if it begins with the next look.
    begun: Option<Instant>,
}

impl Patience {
    /// Returns a patience that begins with the next look.
    pub(crate) fn new() -> Patience
        ensures { result.begun ≡ None }
    {
        Patience { begun: None }
    }

    /// Returns how many whole milliseconds of it are left at this moment, one that has begun counted whole.
    #[tactic(auto, unfolding(crate::specs::Patience::left_at, crate::specs::Patience::begun_at))]
    pub(crate) fn left(&mut self, now: Instant) -> u64
        ensures left { result ≡ left_at self.old.begun now }
        ensures begun { self.new.begun ≡ begun_at self.old.begun now }
        ensures most { result ≤ most_patience }
    {
        match self.begun {
            None => {
                self.begun = Some(now);
                MOST_PATIENCE
            }
            Some(begun) => match u64::try_from(now.duration_since(begun).as_millis()) {
                Ok(passed) => MOST_PATIENCE.saturating_sub(passed),
                Err(_) => 0,
            },
        }
    }
}
