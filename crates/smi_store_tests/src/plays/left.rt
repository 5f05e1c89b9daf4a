//! What an item leaves in the world, beside what a station has handed out and tells of itself.

ghost use Rattle.std.specs.Prelude.{◌≡◌};

use smi_command::Link;
use smi_grant::{Holder, Phase, Record};
use smi_message::encode;
use smi_protocol::{Entry, Line};
use smi_station::Station;
use smi_station_output::Out;

/// How many lines of each kind were seen.
#[derive(Drop)]
struct Seen {
    sent: usize,
    told: usize,
    showed: usize,
}

/// Returns true if the station's record of a domain is like this.
fn stands<S>(station: &Station<'_, S>, domain: u16, epoch: u64, holder: Option<Holder>) -> bool {
    station.record(domain).is_some_and(|record| record.epoch == epoch
        && holder.is_none_or(|it| record.holder == it))
}

/// Returns true if the last command of a domain is this one of this grant.
fn is_last(record: Option<Record>, epoch: u64, number: u32, outcome: Option<u16>) -> bool {
    record.is_some_and(|record| {
        record.epoch == epoch
            && record.last == number
            && outcome.is_none_or(|code| record.outcome == code && record.phase == Phase::Settled)
    })
}

/// Returns the newest number under a holder's grant, if the link to the domain is held at this epoch.
fn held<S>(station: &Station<'_, S>, holder: Holder, domain: u16, epoch: u64) -> Option<u32> {
    match station.link(holder, domain)? {
        Link::Held {
            epoch: here,
            number,
            ..
        } if here == epoch => Some(number),
        _ => None,
    }
}

/// Returns true if the station tells of itself what an entry says of it.
fn is_so<S>(station: &Station<'_, S>, entry: &Entry) -> bool {
    match *entry {
        Entry::Booted { boot, .. } => station.boot() == boot && !station.is_stopped(),
        Entry::Granted {
            domain,
            epoch,
            holder,
        } => stands(station, domain, epoch, Some(holder)),
        Entry::Freed { domain, epoch } => stands(station, domain, epoch, Some(Holder::Free)),
        Entry::Ordered {
            operator,
            domain,
            epoch,
            number,
            ..
        } => held(station, Holder::Operator(operator), domain, epoch) == Some(number),
        Entry::Ran {
            domain,
            epoch,
            number,
            ..
        } => is_last(station.record(domain), epoch, number, None),
        Entry::Learned {
            holder,
            domain,
            epoch,
        } => held(station, holder, domain, epoch) == Some(0),
        Entry::LetGo {
            holder,
            domain,
            epoch,
        } => station.link(holder, domain) == Some(Link::Dropping(epoch)),
        Entry::InMode { domain, mode } => station.mode(domain) == Some(mode),
        Entry::Settled {
            domain,
            epoch,
            number,
            outcome,
        } => is_last(station.record(domain), epoch, number, Some(outcome)),
        Entry::Passed(shown) => station.current(shown.object) == Some(shown),
        Entry::Showed { .. } | Entry::Told { .. } => true,
    }
}

/// Returns true if a line is the next of its kind that the step has handed out; any entry else.
fn is_next(out: &Out, line: &Line, before: usize, seen: &mut Seen) -> bool {
    match line {
        Line::Sent(number, datagram) => {
            let wanted = out.datagrams().get(seen.sent);
            seen.sent = seen.sent.wrapping_add(1);
            *number == before.wrapping_add(seen.sent) as u64
                && wanted.is_some_and(|it| encode(it) == encode(datagram))
        }
        Line::Entry(Entry::Told { operator, told }) => {
            let wanted = out.answers().get(seen.told);
            seen.told = seen.told.wrapping_add(1);
            wanted.is_some_and(|it| it.operator == *operator && it.told == *told)
        }
        Line::Entry(Entry::Showed { shown, .. }) => {
            seen.showed = seen.showed.wrapping_add(1);
            out.shown() == Some(*shown)
        }
        Line::Entry(_) => true,
    }
}

/// Returns true if the station tells of itself what the lines say of it.
pub(super) fn are_so<S>(station: &Station<'_, S>, lines: &[Line]) -> bool {
    lines.iter().all(|line| match line {
        Line::Entry(entry) => is_so(station, entry),
        Line::Sent(_, _) => true,
    })
}

/// Returns true if an item, after this many datagrams were sent, left all that the step has handed out, in its order.
pub(super) fn are_left(out: &Out, lines: &[Line], before: usize) -> bool {
    let mut seen = Seen {
        sent: 0,
        told: 0,
        showed: 0,
    };
    for line in lines {
        if !is_next(out, line, before, &mut seen) {
            return false;
        }
    }
    seen.sent == out.datagrams().len()
        && seen.told == out.answers().len()
        && seen.showed == usize::from(out.shown().is_some())
}
