//! Decides when an observer watches an object, asks about a domain, and ticks.
//!
//! `observer` asks it in each turn, and `server` keeps it. specs/Schedule names the numbers: how much a screen sends
//! follows from them (docs/NETWORK.md, "How much it is").

/// The most domains that are asked about in one round of questions. With ten rounds a second these are 200 questions a
/// second at most.
const MOST_ASKED: u16 = 20;

/// How many milliseconds lie between two rounds of questions. The other stations send again only if nothing has come
/// for ten milliseconds, so an observer that asked more often would hold up waiting orders (docs/DECISIONS.md).
const BETWEEN_ROUNDS: u64 = 100;

/// How many milliseconds lie between two ticks. A tick sends up to 64 datagrams. So an observer sends at most 414
/// datagrams a second, however large the tree is: 64 every 300 milliseconds are 214, and 200 are questions.
const BETWEEN_TICKS: u64 = 300;

/// Which objects and domains of an observer come next, and when. Times are in milliseconds since the start of the
/// screen.
#[derive(Clone, Copy, PartialEq, Eq)]
pub struct PollSchedule {
    /// How many objects the tree has.
    objects: u16,
    /// How many domains the tree has.
    domains: u16,
    /// How many objects were given out to be watched: the numbers from 1 to this one.
    watched: u16,
    /// The domain that was asked about last, or 0.
    asked: u16,
    /// When the last round of questions began.
    asked_at: u64,
    /// When the last tick was made.
    ticked_at: u64,
}

impl PollSchedule {
    ghost use Rattle.std.specs.Prelude.{◌≡◌};
    ghost use Rattle.smi_screen.specs.Schedule.{after_domain, after_round, after_tick, after_watch, domain_next};
    ghost use Rattle.smi_screen.specs.Schedule.{is_tick, new_schedule, questions, watch_next};

    /// Makes the schedule of an observer of this many objects and domains that has done nothing yet.
    pub fn new(objects: u16, domains: u16) -> PollSchedule
        ensures { result ≡ new_schedule objects domains }
    {
        PollSchedule {
            objects,
            domains,
            watched: 0,
            asked: 0,
            asked_at: 0,
            ticked_at: 0,
        }
    }

    /// Returns the next object that is to be watched, or None if each was returned once. The observer's station itself
    /// watches an object again if the object's station has started again.
    pub(crate) fn next_watch(&mut self) -> Option<u16>
        ensures next { result ≡ watch_next self.old }
        ensures left { self.new ≡ after_watch self.old }
    {
        if self.watched < self.objects {
            self.watched += 1;
            Some(self.watched)
        } else {
            None
        }
    }

    /// Returns how many domains are to be asked about now: none, or those of a round, which begins then. No domain
    /// comes twice in a round.
    pub(crate) fn questions(&mut self, now: u64) -> u16
        ensures count { result ≡ questions self.old now }
        ensures left { self.new ≡ after_round self.old now }
    {
        if now.saturating_sub(self.asked_at) < BETWEEN_ROUNDS {
            return 0;
        }
        self.asked_at = now;
        self.domains.min(MOST_ASKED)
    }

    /// Returns the next domain that is to be asked about, by number, and after the last one the first.
    pub(crate) fn next_domain(&mut self) -> u16
        ensures next { result ≡ domain_next self.old }
        ensures left { self.new ≡ after_domain self.old }
    {
        self.asked = if self.asked < self.domains {
            self.asked + 1
        } else {
            1
        };
        self.asked
    }

    /// Returns true if it is time for a tick, and counts from `now` on then.
    pub(crate) fn is_tick(&mut self, now: u64) -> bool
        ensures due { result ≡ is_tick self.old now }
        ensures left { self.new ≡ after_tick self.old now }
    {
        if now.saturating_sub(self.ticked_at) < BETWEEN_TICKS {
            return false;
        }
        self.ticked_at = now;
        true
    }
}
