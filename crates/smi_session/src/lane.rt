//! Says which orders of one operator wait for each other: what a lane takes, what joins the commands in work, and which
//! orders are about the same domain. `seat_queue.rt` and `seat_table.rt` choose the seat of an order by these
//! functions. docs/PROTOCOL.md, "Seats and the desk", and docs/FORMATS.md, "Orders of one operator", promise what
//! follows from them.

ghost use Rattle.std.specs.Prelude.{◌≡◌};
ghost use Rattle.std.specs.List.{list_all};
ghost use Rattle.smi_operator.specs.Working.{commanded, is_on};
ghost use Rattle.smi_session.specs.Lane as spec;

use crate::seat_queue::PendingOrder;
use smi_operator::LANES;
use smi_protocol::{Order, Request};
use std::collections::VecDeque;

/// The most commands on one domain that are in work together at a seat. It has to be `MOST_WORK` of
/// `crates/smi_operator/src/work.rt`. If it were more, the desk would leave some of them in the ring of the seat, and
/// they could not be taken back.
const MOST_WORK: usize = 8;

/// What a seat is for. Each operator has seven seats, its lanes: four for orders, one for `watch` and `unwatch`, and
/// two for questions. The reports of all have one seat, whose lane is `Any`.
#[derive(Clone, Copy)]
pub enum Lane {
    /// Takes any order. Its orders are answered one after the other. Only the seat for reports has it.
    Any,
    /// Takes orders about one domain at a time.
    Orders,
    /// Takes `watch` and `unwatch`, which the station answers at once.
    Watches,
    /// Takes one `ask` at a time.
    Questions,
}

/// Returns the domain that an order is about. None for a question, for `watch` and `unwatch`, and for a report.
fn domain_of(order: Order) -> Option<u16>
    ensures { result ≡ spec.domain_of order }
{
    match order.request() {
        Request::Command(domain, _) | Request::Take(domain) | Request::Drop(domain) => Some(domain),
        Request::Ask(_) | Request::Watch(_) | Request::Unwatch(_) | Request::Report(_, _) => None,
    }
}

/// Returns the domain that an order commands. None if it is no command.
fn commanded(order: Order) -> Option<u16>
    ensures { result ≡ commanded order }
{
    match order.request() {
        Request::Command(domain, _) => Some(domain),
        _ => None,
    }
}

/// Returns true if an order is a command on this domain.
fn is_on(domain: u16, order: Order) -> bool
    ensures { result ≡ is_on domain order }
{
    match commanded(order) {
        Some(other) => other == domain,
        None => false,
    }
}

/// Returns true if all these orders are commands on this domain.
fn are_on(pending: &VecDeque<PendingOrder>, domain: u16) -> bool
    ensures { result ≡ list_all (λ p. is_on domain p.order) pending.now.items }
{
    pending.iter().all(|it| is_on(domain, it.order))
}

/// Returns true if an order is a command that the station takes beside these pending orders: they are fewer than eight,
/// and all of them are commands on its domain.
pub(crate) fn is_further(order: Order, pending: &VecDeque<PendingOrder>) -> bool
    ensures { result ≡ spec.is_further (commanded order) pending.now.items }
{
    match commanded(order) {
        Some(domain) => pending.len() < MOST_WORK && are_on(pending, domain),
        None => false,
    }
}

/// Returns true if both orders are about the same domain. Returns false if one of them is about none.
pub(crate) fn are_of_one_domain(order: Order, other: Order) -> bool
    ensures { result ≡ spec.are_of_one_domain order other }
{
    match (domain_of(order), domain_of(other)) {
        (Some(domain), Some(another)) => domain == another,
        _ => false,
    }
}

/// Returns true if both are the same operator, or both nobody.
pub(crate) fn is_same_operator(operator: Option<u16>, other: Option<u16>) -> bool
    ensures { result ≡ spec.is_same_operator operator other }
{
    match (operator, other) {
        (Some(operator), Some(another)) => operator == another,
        (None, None) => true,
        _ => false,
    }
}

/// Returns true if an order is `watch` or `unwatch`.
fn is_watch(order: Order) -> bool
    ensures { result ≡ spec.is_watch order }
{
    match order {
        Order::Watch(_) | Order::Unwatch(_) => true,
        _ => false,
    }
}

/// Returns true if an order is an `ask`.
fn is_question(order: Order) -> bool
    ensures { result ≡ spec.is_question order }
{
    match order {
        Order::Ask(_) => true,
        _ => false,
    }
}

/// Returns the lane of an operator's seat, by its index from 0 among all seats of operators. Each operator has `LANES`
/// seats in a row (`operators_by_seat` of `smi_operator`).
pub(crate) fn lane_at(seat: usize) -> Lane
    ensures { result ≡ spec.lane_at seat }
{
    match seat % LANES {
        // Two for questions, because a newer question is given while an older one waits. The node then ends the older
        // one as replaced.
        4 => Lane::Watches,
        5 | 6 => Lane::Questions,
        _ => Lane::Orders,
    }
}

impl Lane {
    ghost use Rattle.std.specs.Prelude.{◌≡◌};
    ghost use Rattle.smi_session.specs.Lane as spec;

    /// Returns true if an order belongs on this lane.
    pub(crate) fn takes(self, order: Order) -> bool
        ensures { result ≡ spec.takes self order }
    {
        match self {
            Lane::Any => true,
            Lane::Orders => domain_of(order).is_some(),
            Lane::Watches => is_watch(order),
            Lane::Questions => is_question(order),
        }
    }

    /// Returns true if any orders that this lane takes may be pending together, because the station lets none of them
    /// wait for another station. On `Orders` only commands on one domain may be (`is_further`).
    pub(crate) fn is_shared(self) -> bool
        ensures { result ≡ spec.is_shared self }
    {
        match self {
            Lane::Any | Lane::Watches => true,
            Lane::Orders | Lane::Questions => false,
        }
    }
}
