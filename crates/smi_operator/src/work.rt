//! Orders in work, and when a further one may join them.

ghost use Rattle.std.specs.Prelude.{◌≡◌, ◌<◌, IsTrue, length};
ghost use Rattle.std.specs.List.{list_all};
ghost use Rattle.smi_operator.specs.Working as spec;

use smi_grant::Record;
use smi_protocol::{Mark, Order, Request, Told};

/// How many orders of a seat may be in work at a time.
pub(crate) const MOST_WORK: usize = 8;

/// An order in work: one that the desk gave, and whose answer was not handed out yet.
#[derive(Clone, Copy, PartialEq, Eq)]
pub struct Work {
    pub order: Order,
    /// The command that the order became, if the desk was told of it.
    pub mark: Option<Mark>,
}

/// How an order ended.
#[derive(Clone, Copy, PartialEq, Eq)]
pub(crate) struct Ending {
    pub(crate) code: u16,
    pub(crate) asked: Option<Record>,
}

/// An order in work, and how it ended if its answer waits for those of older orders.
#[derive(Clone, Copy, PartialEq, Eq)]
pub(crate) struct WorkSlot {
    pub(crate) work: Work,
    pub(crate) ending: Option<Ending>,
}

/// What a place without an order in work has.
impl Default for WorkSlot {
    fn default() -> WorkSlot {
        WorkSlot::begun(Order::Ask(0))
    }
}

impl WorkSlot {
    ghost use Rattle.std.specs.Prelude.{◌≡◌, option_map};
    ghost use Rattle.smi_operator.specs.Working.{begun, ended_by, marked_by, told_of};

    /// Puts an order into work.
    pub(crate) fn begun(order: Order) -> WorkSlot
        ensures { result ≡ begun order }
    {
        WorkSlot {
            work: Work { order, mark: None },
            ending: None,
        }
    }

    /// Ends the order. One that had ended before stays so.
    pub(crate) fn ended_by(self, ending: Ending) -> WorkSlot
        ensures { result ≡ ended_by self ending }
    {
        match self.ending {
            Some(_) => self,
            None => WorkSlot {
                work: self.work,
                ending: Some(ending),
            },
        }
    }

    /// Notes which command the order became.
    pub(crate) fn marked_by(self, mark: Mark) -> WorkSlot
        ensures { result ≡ marked_by self mark }
    {
        WorkSlot {
            work: Work {
                order: self.work.order,
                mark: Some(mark),
            },
            ending: self.ending,
        }
    }

    /// Returns what the operator is told, if the order has ended.
    pub(crate) fn told_if_ended(self) -> Option<Told>
        ensures { result ≡ option_map (told_of self.work.order) self.ending }
    {
        let ending = self.ending?;
        Some(Told {
            order: self.work.order,
            code: ending.code,
            asked: ending.asked,
        })
    }
}

/// Ends the order at this place, unless it had ended.
pub(crate) fn end_at(work: &mut [WorkSlot], place: usize, ending: Ending)
    requires { place < length work.old }
    ensures { work.new ≡ spec.ended_at work.old place ending }
{
    work[place] = work[place].ended_by(ending);
}

/// Notes which command the newest order became.
pub(crate) fn mark_newest(work: &mut [WorkSlot], mark: Mark)
    requires { 0 < length work.old }
    ensures { work.new ≡ spec.newest_marked work.old mark }
{
    let newest = work.len() - 1;
    work[newest] = work[newest].marked_by(mark);
}

/// Returns the domain that an order commands, none if it is no command.
fn commanded(order: Order) -> Option<u16>
    ensures { result ≡ spec.commanded order }
{
    match order.request() {
        Request::Command(domain, _) => Some(domain),
        Request::Take(_)
        | Request::Drop(_)
        | Request::Ask(_)
        | Request::Watch(_)
        | Request::Unwatch(_)
        | Request::Report(_, _) => None,
    }
}

/// Returns true if an answer is of an order in work: that of an issued command is of the order that became the
/// command, any other of an order that is the same.
fn is_answered_by(entry: &WorkSlot, order: Order, mark: Option<Mark>) -> bool
    ensures { Decides result (spec.IsAnsweredBy order mark entry.now.work) }
{
    match mark {
        Some(_) => entry.work.mark == mark,
        None => entry.work.order == order,
    }
}

ghost use Rattle.std.specs.Bool.{Decides};

/// Returns the place of the oldest order in work that an answer is of.
pub(crate) fn place_in_work(work: &[WorkSlot], order: Order, mark: Option<Mark>) -> Option<usize>
    ensures { spec.IsPlaceOf order mark work.now result }
{
    for (place, entry) in work.iter().enumerate() {
        if is_answered_by(entry, order, mark) {
            return Some(place);
        }
    }
    None
}

fn is_on(order: Order, domain: u16) -> bool
    ensures { result ≡ spec.is_on domain order }
{
    match commanded(order) {
        Some(other) => other == domain,
        None => false,
    }
}

fn are_on(work: &[WorkSlot], domain: u16) -> bool
    ensures { result ≡ list_all (λ e. spec.is_on domain e.work.order) work.now }
{
    work.iter().all(|entry| is_on(entry.work.order, domain))
}

/// Returns true if a command on this domain may come into work beside these.
fn is_further(domain: Option<u16>, work: &[WorkSlot]) -> bool
    ensures value { result ≡ spec.is_further domain work.now }
    ensures room { IsTrue result → length work.now < spec.most_work }
{
    match domain {
        Some(domain) => work.len() < MOST_WORK && are_on(work, domain),
        None => false,
    }
}

/// Returns true if an order may come into work beside these.
pub(crate) fn may_join(work: &[WorkSlot], order: Order) -> bool
    ensures value { result ≡ spec.may_join work.now order }
    ensures room { IsTrue result → length work.now < spec.most_work }
{
    work.is_empty() || is_further(commanded(order), work)
}
