//! All seats of a station with their queues, and the orders that wait for a seat. `service.rt` gives orders to it and
//! takes answers from it. Which seat is whose, and in which order the orders of an operator go, is decided here:
//! docs/PROTOCOL.md, "Seats and the desk", and docs/FORMATS.md, "Orders of one operator", promise it.

ghost use Rattle.std.specs.Prelude.{◌≡◌, ◌==◌, ◌<◌, ◌++◌, ◌∷◌, [], IfSome, OnOk, drop, length, take};
ghost use Rattle.std.proofs.Common.{deque_capacity};
ghost use Rattle.std.specs.List.{list_all, list_any, position};
ghost use Rattle.smi_session.specs.Lane.{is_about, joins, may_take, takes_of};
ghost use Rattle.smi_session.specs.SeatQueue.{new_queue};
ghost use Rattle.smi_session.specs.SeatTable.{has_earlier};
ghost use Rattle.smi_session.specs.Withdrawal.{is_of, waits_of};

use crate::lane::{Lane, are_of_one_domain, is_same_operator, lane_at};
use crate::seat_queue::{PendingOrder, SeatQueue};
use crate::session::{Deferred, Session};
use crate::tag::Tag;
use crate::will::DeviceWill;
use crate::withdrawal::Withdrawal;
use smi_operator::Seat;
use smi_protocol::{Order, Told};
use std::alloc::{AllocError, Global};
use std::collections::VecDeque;
use std::marker::Model;
use std::time::Instant;

/// The most orders that wait for a seat in the table. A further one is kept by its session, of which then no line is
/// taken (docs/FORMATS.md, "Lines with a tag"). `specs/SeatTable` and the invariant below have the number too.
const MOST_HELD: usize = 256;

/// The queues of a station's seats: seven for each of its operators, in the order of the operators, and last the one
/// for reports, which is nobody's.
///
/// An order goes to an idle seat of its operator, or as a further command to the seat at which commands on its domain
/// are pending. Otherwise it waits. So an order that is not answered for long holds up those about its own domain, and
/// no other as long as fewer than four domains have one. No order overtakes another of its operator about the same
/// domain: it waits while such a one does. After each answer those that wait have their turn, the oldest first. An
/// order that waits can be taken back.
///
/// Contracts see the operators by seat, the queues, the orders that wait for a seat, and whether an order was submitted
/// since that was last asked.
#[derive(Drop)]
pub struct SeatTable {
    /// The operator of each queue but the last, by number. Each operator is in it seven times.
    operators: Vec<u16>,
    /// The queues of the operators' seats, and last the one for reports.
    queues: Vec<SeatQueue>,
    /// The orders that wait for a seat, the oldest first.
    held: VecDeque<Deferred>,
    /// True if an order was submitted since `has_given` was called last.
    has_given: bool,
}

impl Model for SeatTable {
    ghost use Rattle.std.specs.Prelude.{◌≤◌};
    ghost use Rattle.std.proofs.Common.{deque_capacity};
    ghost use Rattle.smi_session.specs.SeatTable.{AreQueuesOf, SeatTableState};

    ghost Value = { SeatTableState };

    ghost view = { λ t. record {
      operators = t.operators.items;
      queues = t.queues.items;
      held = t.held.items;
      has_given = t.has_given;
    } };

    ghost invariant = { λ t. AreQueuesOf t.operators.items t.queues.items × (256 ≤ deque_capacity t.held) };
}

/// An answer of a seat, and the order that it answers.
#[derive(Clone, Copy)]
pub struct SeatAnswer {
    /// The order that is answered, with the number of its session and the tag of its line.
    pub pending: PendingOrder,
    /// The operator who ordered. None for a report.
    pub operator: Option<u16>,
    /// How the order ended, as the station tells it.
    pub told: Told,
}

/// Appends the queue of a seat, at which nothing is pending.
///
/// Fails if memory is refused.
fn add_queue(
    alloc: Global,
    queues: &mut Vec<SeatQueue>,
    operator: Option<u16>,
    lane: Lane,
    seat: Seat,
) -> Result<(), AllocError>
    ensures { OnOk result (queues.new.items ≡ queues.old.items ++ new_queue operator lane seat ∷ []) }
{
    let queue = SeatQueue::new(alloc, operator, lane, seat)?;
    queues.push(queue)?;
    Ok(())
}

/// Returns true if an order of this operator about the same domain is pending at one of these queues.
fn any_about(queues: &[SeatQueue], operator: Option<u16>, order: Order) -> bool
    ensures { result ≡ list_any (is_about operator order) queues.now }
{
    queues.iter().any(|queue| queue.is_about(operator, order))
}

/// Returns the index of the first queue at which an order of this operator about the same domain is pending, and this
/// one may join it. None if there is none.
#[tactic(auto, using(crate::proofs::Seating::within_of))]
fn place_joined(queues: &[SeatQueue], operator: Option<u16>, order: Order) -> Option<usize>
    ensures place { result ≡ position (joins operator order) queues.now }
    ensures within { IfSome result (λ place. place < length queues.now) }
{
    queues.iter().position(|queue| queue.joins(operator, order))
}

/// Returns the index of the first queue that may take an order now. None if it has to wait.
#[tactic(auto, using(crate::proofs::Seating::within_of))]
fn place_free(queues: &[SeatQueue], operator: Option<u16>, order: Order) -> Option<usize>
    ensures place { result ≡ position (may_take operator order) queues.now }
    ensures within { IfSome result (λ place. place < length queues.now) }
{
    queues
        .iter()
        .position(|queue| queue.may_take(operator, order))
}

/// Returns true if one of these queues takes such an order of this operator, now or later.
fn any_takes(queues: &[SeatQueue], operator: Option<u16>, order: Order) -> bool
    ensures { result ≡ list_any (takes_of operator order) queues.now }
{
    queues.iter().any(|queue| queue.takes(operator, order))
}

/// Returns true if no order is pending at these queues.
fn are_idle(queues: &[SeatQueue]) -> bool
    ensures { result ≡ list_all (λ q. length q.pending == 0) queues.now }
{
    queues.iter().all(|queue| queue.is_idle())
}

/// Returns true if an order of this session is pending at these queues.
fn have_pending(queues: &[SeatQueue], session: u64) -> bool
    ensures { result ≡ list_any (λ q. list_any (λ p. p.session == session) q.pending) queues.now }
{
    queues.iter().any(|queue| queue.has_pending(session))
}

/// Returns true if an order of this session and tag is pending at these queues.
fn have_order(queues: &[SeatQueue], session: u64, tag: &[u8]) -> bool
    ensures { result ≡ list_any (λ q. list_any (is_of session tag.now) q.pending) queues.now }
{
    queues.iter().any(|queue| queue.has_order(session, tag))
}

/// Returns the index of the oldest of these orders that is of this session and tag. None if there is none.
#[tactic(auto, using(crate::proofs::Willing::waits_within))]
fn place_of(held: &VecDeque<Deferred>, session: u64, tag: &[u8]) -> Option<usize>
    ensures place { result ≡ position (waits_of session tag.now) held.now.items }
    ensures within { IfSome result (λ place. place < length held.now.items) }
{
    held.iter().position(|it| it.pending.is_of(session, tag))
}

/// Returns true if one of these orders is of this session.
fn are_of(held: &VecDeque<Deferred>, session: u64) -> bool
    ensures { result ≡ list_any (λ x. x.pending.session == session) held.now.items }
{
    held.iter().any(|it| it.pending.session == session)
}

/// Returns true if one of the first `count` of these orders is of the same operator and about the same domain.
fn has_earlier(held: &VecDeque<Deferred>, count: usize, order: Deferred) -> bool
    ensures { result ≡ has_earlier order (take count held.now.items) }
{
    held.iter().take(count).any(|it| {
        is_same_operator(it.operator, order.operator)
            && are_of_one_domain(it.pending.order, order.pending.order)
    })
}

impl SeatTable {
    ghost use Rattle.std.specs.Prelude.{◌≡◌, ◌<◌, None, IfOk, IfSome, IfNone, OnOk, false, length, remove, slice_get};
    ghost use Rattle.smi_session.specs.SeatQueue.{Keeps};
    ghost use Rattle.smi_session.specs.SeatTable.{Attempts, AttemptsAfter, ChangesAt, Gives, GivesDeferred, GivesHeld};
    ghost use Rattle.smi_session.specs.SeatTable.{GivesAtPlace};
    ghost use Rattle.smi_session.specs.SeatTable.{GivesIt, IsOpened, TakesAnswer, TakesNext, WaitsUnless, has_pending};
    ghost use Rattle.smi_session.specs.SeatTable.{Reports, ReportsAll, is_idle, lane_of, report_of};
    ghost use Rattle.smi_session.specs.Withdrawal.{TakesBack, withdrawal_of};
    ghost use Rattle.smi_session.specs.Session.{beginning};

    /// Opens a table over these seats. The seat at an index is that of the operator at the same index of `operators`,
    /// which has each operator seven times in a row; the shorter of both lists counts. `reports` is the seat for
    /// reports, and comes last.
    ///
    /// Fails if memory is refused. No clause names `alloc`, from which memory comes.
    pub fn open(
        alloc: Global,
        operators: &[u16],
        seats: Vec<Seat>,
        reports: Seat,
    ) -> Result<SeatTable, AllocError>
        ensures { IfOk result (IsOpened operators.now seats.items reports) }
    {
        let mut own = Vec::new(alloc);
        let mut queues = Vec::new(alloc);
        let mut left = seats.into_iter();
        for (number, operator) in operators.iter().enumerate() {
            let Some(seat) = left.next() else {
                break;
            };
            own.push(*operator)?;
            add_queue(alloc, &mut queues, Some(*operator), lane_at(number), seat)?;
        }
        add_queue(alloc, &mut queues, None, Lane::Any, reports)?;
        Ok(SeatTable {
            operators: own,
            queues,
            held: VecDeque::with_capacity(alloc, MOST_HELD)?,
            has_given: false,
        })
    }

    /// Returns the operator of each seat but the last one.
    pub fn operators(&self) -> &[u16]
        ensures { result.now ≡ self.now.operators }
    {
        self.operators.as_slice()
    }

    /// Returns the queues: those of the operators, and last the one for reports.
    pub fn queues(&self) -> &[SeatQueue]
        ensures { result.now ≡ self.now.queues }
    {
        self.queues.as_slice()
    }

    /// Returns the orders that wait for a seat, the oldest first.
    pub fn held(&self) -> &VecDeque<Deferred>
        ensures { result.now.items ≡ self.now.held }
    {
        &self.held
    }

    /// Returns true if no order is pending, and none waits for a seat.
    pub fn is_idle(&self) -> bool
        ensures { result ≡ is_idle self.now }
    {
        are_idle(self.queues.as_slice()) && self.held.is_empty()
    }

    /// Returns true if an order of this session is pending, or waits for a seat.
    pub fn has_pending(&self, session: u64) -> bool
        ensures { result ≡ has_pending self.now session }
    {
        have_pending(self.queues.as_slice(), session) || are_of(&self.held, session)
    }

    /// Returns what would become of the order of this session and tag if it were taken back now.
    pub(crate) fn withdrawal_of(&self, session: &Session, tag: &[u8]) -> Withdrawal
        ensures { result ≡ withdrawal_of tag.now self.now session.now }
    {
        let number = session.number();
        if place_of(&self.held, number, tag).is_some() || session.has_deferred(tag) {
            Withdrawal::Withdrawn
        } else if have_order(self.queues.as_slice(), number, tag) {
            Withdrawal::Begun
        } else {
            Withdrawal::Unknown
        }
    }

    /// Takes the oldest order of this session and tag back: out of those that wait for a seat, or from the session if
    /// it keeps it. Changes nothing if there is none.
    pub(crate) fn take_back(&mut self, session: &mut Session, tag: &[u8])
        ensures { TakesBack tag.now self.old session.old self.new session.new }
    {
        match place_of(&self.held, session.number(), tag) {
            Some(place) => self.remove_held(place),
            None if session.has_deferred(tag) => {
                // The order is dropped: it was given to nobody.
                let _ = session.take_deferred();
            }
            None => {}
        }
    }

    /// Returns true if an order was submitted since the last call. Then the caller has to wake the station, which looks
    /// at its seats.
    pub fn has_given(&mut self) -> bool
        ensures asked { result ≡ self.old.has_given }
        ensures told { self.new ≡ record self.old { has_given = false } }
    {
        let has_given = self.has_given;
        self.has_given = false;
        has_given
    }

    /// Returns the index of the queue that takes an order now. None if the order has to wait.
    fn lane_of(&self, order: Deferred) -> Option<usize>
        ensures place { result ≡ lane_of self.now order }
        ensures within { IfSome result (λ place. place < length self.now.queues) }
    {
        let Deferred { operator, pending } = order;
        let queues = self.queues.as_slice();
        if any_about(queues, operator, pending.order) {
            return place_joined(queues, operator, pending.order);
        }
        if let Some(place) = place_free(queues, operator, pending.order) {
            return Some(place);
        }
        if any_takes(queues, operator, pending.order) {
            None
        } else {
            // No seat of an operator takes such an order, as a report: it goes to the last queue.
            Some(self.operators.len())
        }
    }

    /// Submits an order at the seat that takes it now. Returns false if no seat does, or the seat's ring is full.
    fn attempt(&mut self, order: Deferred) -> bool
        ensures { Attempts order self.old self.new result }
    {
        match self.lane_of(order) {
            Some(place) => match self.queues[place].give(order.pending) {
                Ok(()) => {
                    self.has_given = true;
                    true
                }
                // The caller still has the order.
                Err(_) => false,
            },
            None => false,
        }
    }

    /// Puts an order at the end of those that wait for a seat. If too many wait, its session keeps it as deferred.
    fn hold(&mut self, session: &mut Session, order: Deferred)
        ensures { WaitsUnless false order self.old session.old self.new session.new }
    {
        if self.held.len() < MOST_HELD {
            self.held.push_back_reserved(order);
        } else {
            session.defer(order);
        }
    }

    /// Submits an order if a seat takes it now, and none of the first `count` orders that wait is of the same operator
    /// and about the same domain. Returns true if it was submitted.
    #[tactic(auto, using(crate::proofs::Changing::keeps_held))]
    fn attempt_after(&mut self, count: usize, order: Deferred) -> bool
        ensures attempts { AttemptsAfter (take count self.old.held) order self.old self.new result }
        ensures held { self.new.held ≡ self.old.held }
    {
        !has_earlier(&self.held, count, order) && self.attempt(order)
    }

    /// Gives an order: submits it at a seat that takes it now, or has it wait for one.
    fn give(&mut self, session: &mut Session, order: Deferred)
        ensures { GivesIt order self.old session.old self.new session.new }
    {
        let count = self.held.len();
        if !self.attempt_after(count, order) {
            self.hold(session, order);
        }
    }

    /// Returns the order at this index of those that wait, if there is one.
    fn held_at(&self, place: usize) -> Option<Deferred>
        ensures order { result ≡ slice_get self.now.held place }
        ensures within { IfSome result (λ order. place < length self.now.held) }
    {
        self.held.get(place).copied()
    }

    /// Removes the order at this index of those that wait.
    fn remove_held(&mut self, place: usize)
        requires { place < length self.old.held }
        ensures { self.new ≡ record self.old { held = remove self.old.held place } }
    {
        // The caller has a copy, or nobody wants it any more.
        let _ = self.held.remove(place);
    }

    /// Submits the order at this index of those that wait, if a seat takes it now. Returns true if it was submitted.
    fn give_at(&mut self, place: usize) -> bool
        ensures { GivesAtPlace place self.old self.new result }
    {
        let Some(order) = self.held_at(place) else {
            return false;
        };
        if !self.attempt_after(place, order) {
            return false;
        }
        self.remove_held(place);
        true
    }

    /// Submits each order that waits, the oldest first, if a seat takes it now. The others wait on in their order.
    fn give_held(&mut self)
        ensures { GivesHeld (length self.old.held) self.old self.new }
    {
        let mut place: usize = 0;
        // One turn for each order. If an order is submitted, the next one gets its index.
        for _ in 0..self.held.len() {
            if !self.give_at(place) {
                place += 1;
            }
        }
    }

    /// Gives the order that a session keeps as deferred, if any. If there is still no room, the session keeps it again.
    pub fn give_deferred(&mut self, session: &mut Session)
        ensures { GivesDeferred self.old session.old self.new session.new }
    {
        if let Some(order) = session.take_deferred() {
            self.give(session, order);
        }
    }

    /// Gives the order of a line: of an operator, or a report of nobody. If its line has no tag, the session is busy
    /// until the answer.
    pub fn order(
        &mut self,
        now: Option<Instant>,
        session: &mut Session,
        tag: Option<Tag>,
        operator: Option<u16>,
        order: Order,
    )
        ensures { Gives operator (record { session = session.old.number; tag = tag; order = order; since = now })
            self.old (beginning tag session.old) self.new session.new }
    {
        session.begin(tag);
        let pending = PendingOrder {
            session: session.number(),
            tag,
            order,
            since: now,
        };
        self.give(session, Deferred { operator, pending });
    }

    /// Reports a state of a device for a session that ends. The report waits for its seat, however many orders wait:
    /// the session can't keep it, because it ends.
    ///
    /// Fails if memory is refused. Then it was not reported.
    pub fn report(
        &mut self,
        now: Option<Instant>,
        session: u64,
        will: DeviceWill,
    ) -> Result<(), AllocError>
        ensures ok { OnOk result (Reports (report_of now session will) self.old self.new) }
    {
        let pending = PendingOrder {
            session,
            tag: None,
            order: Order::Report(will.device, will.state),
            since: now,
        };
        let order = Deferred {
            operator: None,
            pending,
        };
        if self.attempt(order) {
            return Ok(());
        }
        match self.held.push_back(order) {
            Ok(()) => Ok(()),
            // The error hands the report back, which is dropped here.
            Err(_) => Err(AllocError),
        }
    }

    /// Reports all these states of devices for a session that ends, one after the other.
    ///
    /// Fails if memory is refused. Then some are not reported.
    pub fn report_all(
        &mut self,
        now: Option<Instant>,
        session: u64,
        wills: &[DeviceWill],
    ) -> Result<(), AllocError>
        ensures { OnOk result (ReportsAll now session wills.now self.old self.new) }
    {
        for will in wills {
            self.report(now, session, *will)?;
        }
        Ok(())
    }

    /// Returns the next answer of the seat at an index, from 0. None if there is no answer yet, or no such seat.
    fn take_answer(&mut self, place: usize) -> Option<SeatAnswer>
        ensures some { IfSome result (λ r. ChangesAt place (TakesAnswer r) self.old self.new) }
        ensures none { IfNone result (ChangesAt place Keeps self.old self.new) }
        ensures given { self.new.has_given ≡ self.old.has_given }
    {
        if place >= self.queues.len() {
            return None;
        }
        let queue = &mut self.queues[place];
        let operator = queue.operator();
        let (pending, told) = queue.next_answer()?;
        Some(SeatAnswer {
            pending,
            operator,
            told,
        })
    }

    /// Returns the next answer of the seat at an index, from 0. None if there is no answer yet, or no such seat. After
    /// an answer it submits those of the orders that wait for which a seat is free now.
    pub fn next_answer(&mut self, place: usize) -> Option<SeatAnswer>
        ensures some { IfSome result (λ r. TakesNext place r self.old self.new) }
        ensures none { IfNone result (ChangesAt place Keeps self.old self.new
            × (self.new.has_given ≡ self.old.has_given)) }
    {
        let answer = self.take_answer(place)?;
        self.give_held();
        Some(answer)
    }
}
