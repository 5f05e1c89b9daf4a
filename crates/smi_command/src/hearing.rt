ghost use Rattle.std.specs.Prelude.{◌≡◌, false};
ghost use Rattle.smi_grant.specs.Holder.{is_free};
ghost use Rattle.smi_command.specs.Hearing.{told_of, told_taking, told_held, newest_settled, code_in, change_settled};

use crate::{Link, Pending, Settlements};
use smi_grant::{Holder, LAST_EPOCH, Outcome, Phase, Record};

/// What a link has learned from a record.
#[derive(Clone, Copy, PartialEq, Eq)]
pub enum LinkHeard {
    /// Nothing: the link is unchanged.
    Unchanged,
    /// The domain is free again at a later epoch, so the take goes on with that one.
    Renewed,
    /// The take, the drop or some commands have settled, each with its code.
    Settled(Settlements),
}

/// Returns what a told record makes of a link, and what the holder learns by it.
///
/// `me` is the link's holder, an operator or a domain. The table of docs/PROTOCOL.md, "Hearing a
/// record", has the rule for each link; if none fits, nothing changes.
pub fn told(link: &Link, me: Holder, heard: &Record) -> (Link, LinkHeard)
    requires { is_free me ≡ false }
    ensures { result ≡ told_of link.now me heard.now }
{
    match *link {
        Link::Taking(seen) => taking_told(seen, me, heard),
        Link::Held {
            epoch,
            number,
            pending,
        } if heard.epoch == epoch => held_told(epoch, number, &pending, heard),
        Link::Dropping(epoch) if heard.epoch > epoch => {
            (Link::Out(heard.epoch), settled(Outcome::Done))
        }
        unchanged => (unchanged, LinkHeard::Unchanged),
    }
}

// A take or a drop has settled.
fn settled(outcome: Outcome) -> LinkHeard
    ensures { result ≡ change_settled (outcome_code outcome) }
{
    LinkHeard::Settled(Settlements::change(outcome.code()))
}

ghost use Rattle.smi_grant.specs.Outcome.{outcome_code};

fn taking_told(seen: u64, me: Holder, heard: &Record) -> (Link, LinkHeard)
    requires { is_free me ≡ false }
    ensures { result ≡ told_taking seen me heard.now }
{
    if heard.holder == me {
        if heard.epoch > seen && heard.epoch - seen == 1 {
            let held = Link::Held {
                epoch: heard.epoch,
                number: 0,
                pending: Pending::new(),
            };
            return (held, settled(Outcome::Done));
        }
    } else if heard.holder == Holder::Free {
        if heard.epoch == LAST_EPOCH {
            return (Link::Out(LAST_EPOCH), settled(Outcome::EpochsUsed));
        }
        if heard.epoch > seen {
            return (Link::Taking(heard.epoch), LinkHeard::Renewed);
        }
    } else if heard.epoch >= seen {
        return (Link::Out(heard.epoch), settled(Outcome::HeldByAnother));
    }
    (Link::Taking(seen), LinkHeard::Unchanged)
}

// The newest number that has settled, as far as a record shows.
fn newest_settled(heard: &Record) -> u32
    ensures { result ≡ newest_settled heard.now }
{
    match heard.phase {
        Phase::Settled => heard.last,
        Phase::Busy => heard.last.saturating_sub(1),
    }
}

// How the command of a number has settled.
fn code_in(heard: &Record, number: u32) -> u16
    ensures { result ≡ code_in heard.now number }
{
    if number == heard.last {
        heard.outcome
    } else {
        Outcome::Unseen.code()
    }
}

// `heard` is a record of the grant.
fn held_told(epoch: u64, number: u32, pending: &Pending, heard: &Record) -> (Link, LinkHeard)
    ensures { result ≡ told_held epoch number pending.now heard.now }
{
    let base = pending.base(number);
    let newest = newest_settled(heard);
    let count = (newest.saturating_sub(base) as usize).min(pending.len());
    let left = Link::Held {
        epoch,
        number,
        pending: pending.without_oldest(count),
    };
    if count == 0 {
        return (left, LinkHeard::Unchanged);
    }
    let code = code_in(heard, base + count as u32);
    let settled = Settlements::run(base + 1, count, code);
    (left, LinkHeard::Settled(settled))
}
