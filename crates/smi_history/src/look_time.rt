//! The time of a look at a picture, by the screen's own count and by the clock, and how a count is told as a time.
//! `history.rt` and `crates/smi_web/src/order_notes.rt` decide by it what is new. If `is_new` took a moment twice or
//! not at all, an entry would be noted twice or be lost.

ghost use Rattle.std.specs.Prelude.{◌≡◌};
ghost use Rattle.smi_history.specs.LookTime as spec;

/// The time of a look at a picture, by both clocks.
#[derive(Clone, Copy)]
pub struct LookTime {
    /// The time in milliseconds since the screen began, by which the picture has its times. It never goes back.
    pub now: u64,
    /// The time in milliseconds since 1970, by the clock of the screen's machine, which may be set.
    pub clock: u64,
}

/// Returns true if something of the time `at` is new: it is from the look before, which was at `from`, or later, and
/// from before this look.
///
/// What has the very time of a look is new at the next one, because more of that time may still come.
pub fn is_new(from: u64, moment: LookTime, at: u64) -> bool
    ensures { result ≡ spec.is_new from moment at }
{
    from <= at && at < moment.now
}

/// Returns a time of the screen as a time of the clock, in milliseconds since 1970.
pub fn clock_at(moment: LookTime, at: u64) -> u64
    ensures { result ≡ spec.clock_at moment at }
{
    moment.clock.saturating_sub(moment.now.saturating_sub(at))
}

/// Returns the day of a look in UTC, counted since 1970.
pub(crate) fn day_of(moment: LookTime) -> u64
    ensures { result ≡ spec.day_of moment }
{
    // The milliseconds of a day.
    moment.clock / 86_400_000
}
