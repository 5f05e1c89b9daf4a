//! A seat of an operator with the orders that were submitted there and are not answered yet. `seat_table.rt` has one
//! for each seat. That the oldest of these orders is the one that the next answer is of (`IsInStep`) is what gives each
//! answer to the session that gave its order.

use crate::lane::{Lane, are_of_one_domain, is_further, is_same_operator};
use crate::tag::Tag;
use smi_operator::Seat;
use smi_protocol::{Order, Told};
use std::alloc::{AllocError, Global};
use std::collections::VecDeque;
use std::marker::Model;
use std::time::Instant;

/// The most orders of one seat that are not answered yet. The rings of a seat have room for this many (`RING` in
/// `crates/smi_operator/src/meeting.rt`), so an order that fits here fits there. `smi_console` also takes this many
/// answers of a seat in one round.
pub const MOST_PENDING: usize = 16;

/// An order that is not answered yet.
#[derive(Clone, Copy)]
pub struct PendingOrder {
    /// The number of the session that gave it: 0 for the standard input, from 1000 on for connections.
    pub session: u64,
    /// The tag of its line. None if the line has no tag.
    pub tag: Option<Tag>,
    /// What is ordered.
    pub order: Order,
    /// When the session gave it. None if the clock could not be read. It is only told by `under way`.
    pub since: Option<Instant>,
}

impl PendingOrder {
    ghost use Rattle.std.specs.Prelude.{◌≡◌};
    ghost use Rattle.smi_session.specs.Withdrawal.{is_of};

    /// Returns true if a line of this session with this tag gave it.
    pub(crate) fn is_of(&self, session: u64, tag: &[u8]) -> bool
        ensures { result ≡ is_of session tag.now self.now }
    {
        match &self.tag {
            Some(own) => self.session == session && own.text() == tag,
            None => false,
        }
    }
}

/// A seat with its orders that are not answered yet, the oldest first. The station answers them in this order.
///
/// Contracts see the operator, the lane, the seat and these orders.
#[derive(Drop)]
pub struct SeatQueue {
    /// The operator of the seat, by number. None for the seat of reports, which is nobody's.
    operator: Option<u16>,
    /// Which orders the seat takes.
    lane: Lane,
    seat: Seat,
    pending: VecDeque<PendingOrder>,
}

impl Model for SeatQueue {
    ghost use Rattle.std.specs.Prelude.{◌≤◌};
    ghost use Rattle.std.proofs.Common.{deque_capacity};
    ghost use Rattle.smi_session.specs.SeatQueue.{SeatQueueState};
    ghost use Rattle.smi_session.specs.declared.seat_queue.TheConstants.{MOST_PENDING};

    ghost Value = { SeatQueueState };

    ghost view = { λ q. record { operator = q.operator; lane = q.lane; seat = q.seat; pending = q.pending.items } };

    ghost invariant = { λ q. MOST_PENDING ≤ deque_capacity q.pending };
}

impl SeatQueue {
    ghost use Rattle.std.specs.List.{list_any};
    ghost use Rattle.std.specs.Prelude.{◌≡◌, ◌==◌, ◌<◌, ◌∷◌, [], length, IsOk, IfOk, IfErr, IfNone, IfSome, OnOk};
    ghost use Rattle.smi_operator.specs.Sides.{submitted};
    ghost use Rattle.smi_session.specs.SeatQueue.{IsInStep, IsUnused, Keeps, Submits, TellsOldest, new_queue};
    ghost use Rattle.smi_session.specs.Lane.{are_of_one_domain, is_about, joins, may_take, takes_of};
    ghost use Rattle.smi_session.specs.Withdrawal.{is_of};

    /// Makes the queue of an operator's seat, or of nobody's, at which nothing is pending.
    ///
    /// Fails if memory is refused. No clause names `alloc`, from which memory comes.
    pub fn new(
        alloc: Global,
        operator: Option<u16>,
        lane: Lane,
        seat: Seat,
    ) -> Result<SeatQueue, AllocError>
        ensures new { IfOk result (λ q. q ≡ new_queue operator lane seat) }
        ensures step { IfOk result (λ q. IsUnused seat → IsInStep q) }
    {
        Ok(SeatQueue {
            operator,
            lane,
            seat,
            pending: VecDeque::with_capacity(alloc, MOST_PENDING)?,
        })
    }

    /// Returns the operator of the seat. None for the seat of reports, which is nobody's.
    pub fn operator(&self) -> Option<u16>
        ensures { result ≡ self.now.operator }
    {
        self.operator
    }

    /// Returns the orders that are not answered yet, the oldest first.
    pub fn pending(&self) -> &VecDeque<PendingOrder>
        ensures { result.now.items ≡ self.now.pending }
    {
        &self.pending
    }

    /// Returns true if no order is pending.
    pub(crate) fn is_idle(&self) -> bool
        ensures { result ≡ (length self.now.pending == 0) }
    {
        self.pending.is_empty()
    }

    /// Returns true if an order of this session is pending.
    pub(crate) fn has_pending(&self, session: u64) -> bool
        ensures { result ≡ list_any (λ p. p.session == session) self.now.pending }
    {
        self.pending
            .iter()
            .any(|pending| pending.session == session)
    }

    /// Returns true if an order of this session and tag is pending.
    pub(crate) fn has_order(&self, session: u64, tag: &[u8]) -> bool
        ensures { result ≡ list_any (is_of session tag.now) self.now.pending }
    {
        self.pending
            .iter()
            .any(|pending| pending.is_of(session, tag))
    }

    /// Returns true if an order of this operator about the same domain as this order is pending.
    pub(crate) fn is_about(&self, operator: Option<u16>, order: Order) -> bool
        ensures { result ≡ is_about operator order self.now }
    {
        is_same_operator(self.operator, operator) && self.has_about(order)
    }

    /// Returns true if an order about the same domain as this order is pending.
    fn has_about(&self, order: Order) -> bool
        ensures { result ≡ list_any (λ p. are_of_one_domain p.order order) self.now.pending }
    {
        self.pending
            .iter()
            .any(|pending| are_of_one_domain(pending.order, order))
    }

    /// Returns true if an order of this operator about the same domain is pending, and the station takes this one
    /// beside those that are pending, because all are commands.
    pub(crate) fn joins(&self, operator: Option<u16>, order: Order) -> bool
        ensures { result ≡ joins operator order self.now }
    {
        self.is_about(operator, order) && is_further(order, &self.pending)
    }

    /// Returns true if its lane takes such an order of this operator.
    pub(crate) fn takes(&self, operator: Option<u16>, order: Order) -> bool
        ensures { result ≡ takes_of operator order self.now }
    {
        is_same_operator(self.operator, operator) && self.lane.takes(order)
    }

    /// Returns true if the seat is this operator's, its lane takes the order, and no order is pending that would hold
    /// it up.
    pub(crate) fn may_take(&self, operator: Option<u16>, order: Order) -> bool
        ensures { result ≡ may_take operator order self.now }
    {
        self.takes(operator, order) && (self.lane.is_shared() || self.pending.is_empty())
    }

    /// Submits an order. Returns it if the seat is full, and changes nothing then.
    ///
    /// A seat that was never used has room for sixteen orders.
    pub fn give(&mut self, pending: PendingOrder) -> Result<(), PendingOrder>
        ensures given { OnOk result (Submits pending self.old self.new) }
        ensures back { IfErr result (λ back. back ≡ pending) }
        ensures same { IfErr result (λ back. Keeps self.old self.new) }
        ensures fits { length self.old.pending < MOST_PENDING → length (submitted self.old.seat) < MOST_PENDING
            → IsOk result }
        ensures step { IsInStep self.old → IsInStep self.new }
    {
        if self.pending.len() >= MOST_PENDING {
            return Err(pending);
        }
        match self.seat.submit(pending.order) {
            Ok(()) => {
                self.pending.push_back_reserved(pending);
                Ok(())
            }
            // The ring is full. The order that it hands back has no session, so the pending order is returned.
            Err(_) => Err(pending),
        }
    }

    /// Returns the next answer of the seat, and the oldest pending order, whose answer it is. None if there is no
    /// answer yet.
    pub fn next_answer(&mut self) -> Option<(PendingOrder, Told)>
        ensures some { IfSome result (λ r. TellsOldest r.0 r.1 self.old self.new) }
        ensures none { IfNone result (Keeps self.old self.new) }
        ensures operator { self.new.operator ≡ self.old.operator }
        ensures step { IsInStep self.old → IsInStep self.new }
    {
        // The order is looked for first, because an answer that was taken without one could not be told to anybody.
        let oldest = *self.pending.front()?;
        let told = self.seat.told()?;
        // The same order as `oldest`.
        let _ = self.pending.pop_front();
        Some((oldest, told))
    }
}
