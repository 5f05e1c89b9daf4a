ghost use Rattle.std.specs.Prelude.{◌≡◌, ◌<◌, false};
ghost use Rattle.smi_grant.specs.Holder.{is_free};
ghost use Rattle.smi_grant.specs.Keeper.{take_after, drop_after, admits, started, settled};

use crate::{Holder, LAST_EPOCH, LAST_NUMBER, Phase, Record};

/// What becomes of a record.
#[derive(Clone, Copy, PartialEq, Eq)]
pub enum Verdict {
    New(Record),
    Same,
}

/// Grants a free domain to a holder that has seen its epoch, while epochs are left.
///
/// In every other case nothing changes. `holder` is an operator or a domain.
pub fn take(current: &Record, holder: Holder, seen: u64) -> Verdict
    requires { is_free holder ≡ false }
    ensures { result ≡ take_after current.now holder seen }
{
    if current.holder == Holder::Free && current.epoch == seen && seen < LAST_EPOCH {
        Verdict::New(Record {
            epoch: seen + 1,
            holder,
            last: 0,
            phase: Phase::Settled,
            outcome: 0,
        })
    } else {
        Verdict::Same
    }
}

/// Frees a settled domain if its holder lets go of this epoch.
///
/// In every other case nothing changes. `holder` is an operator or a domain.
pub fn drop_grant(current: &Record, holder: Holder, epoch: u64) -> Verdict
    requires { is_free holder ≡ false }
    ensures { result ≡ drop_after current.now holder epoch }
{
    if current.holder == holder && current.epoch == epoch && current.phase == Phase::Settled {
        Verdict::New(Record {
            epoch: epoch + 1,
            holder: Holder::Free,
            last: 0,
            phase: Phase::Settled,
            outcome: 0,
        })
    } else {
        Verdict::Same
    }
}

/// Returns true if the command of this number may run now: the holder's next one, under the present grant, while the
/// domain is settled. `holder` is an operator or a domain.
pub fn admit(current: &Record, holder: Holder, epoch: u64, number: u32) -> bool
    requires { is_free holder ≡ false }
    ensures { result ≡ admits current.now holder epoch number }
{
    current.holder == holder
        && current.epoch == epoch
        && current.phase == Phase::Settled
        && number == current.last + 1
}

/// Runs the next command. It stays at work if it is `busy`, and else has ended with `outcome`.
pub fn start(current: &Record, busy: bool, outcome: u16) -> Verdict
    requires held { is_free current.now.holder ≡ false }
    requires settled { current.now.phase ≡ Phase.Settled }
    requires room { current.now.last < LAST_NUMBER }
    ensures { result ≡ Verdict.New (started current.now busy outcome) }
{
    let (phase, outcome) = if busy {
        (Phase::Busy, 0)
    } else {
        (Phase::Settled, outcome)
    };
    Verdict::New(Record {
        epoch: current.epoch,
        holder: current.holder,
        last: current.last + 1,
        phase,
        outcome,
    })
}

/// Ends the command at work with `outcome`.
pub fn settle(current: &Record, outcome: u16) -> Verdict
    requires { current.now.phase ≡ Phase.Busy }
    ensures { result ≡ Verdict.New (settled current.now outcome) }
{
    Verdict::New(Record {
        epoch: current.epoch,
        holder: current.holder,
        last: current.last,
        phase: Phase::Settled,
        outcome,
    })
}
