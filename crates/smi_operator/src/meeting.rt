//! Opens seats, and compares them with the desk when they have ended.

ghost use Rattle.std.specs.Prelude.{◌≡◌, ◌≤◌, IsTrue, IfOk, [], length};
ghost use Rattle.smi_operator.specs.Sides.{IsFinishedAt, Met, Stays, SameEnd, IsFresh, IsDeskOf, seat_count};

use crate::ends::{Desk, Finished, Seat, SeatEnd};
use arrayvec::ArrayVec;
use rtrb::RingBuffer;
use std::alloc::{AllocError, Global};

/// How many orders wait for the desk, and how many answers for the seat.
const RING: usize = 16;

impl SeatEnd {
    /// Compares the lists of a seat that has ended with those of its end.
    pub(crate) fn meet(&mut self, finished: &mut Finished) -> bool
        requires { IsFinishedAt finished.old self.old }
        ensures met { Met finished.new self.new }
        ensures is_met { IsTrue result }
        ensures stays { Stays finished.old finished.new self.old self.new }
        ensures ring { SameEnd self.old self.new }
        ensures ended { IsFinishedAt finished.new self.new }
    {
        self.orders.slots_beside(&mut finished.orders);
        finished.answers.slots_beside(&mut self.answers);
        self.answers.slots_beside(&mut finished.answers);
        true
    }
}

fn open_seat(alloc: Global) -> Result<(Seat, SeatEnd), AllocError>
    ensures { IfOk result (λ opened. IsFresh opened.0 opened.1) }
{
    let (asking, orders) = RingBuffer::new(alloc, RING)?;
    let (telling, answers) = RingBuffer::new(alloc, RING)?;
    let seat = Seat {
        orders: asking,
        answers,
    };
    let end = SeatEnd {
        orders,
        answers: telling,
        work: ArrayVec::new(),
    };
    Ok((seat, end))
}

/// Opens this many seats, and their desk. Nothing was submitted, given, answered or told yet.
///
/// It fails only if memory ran out, which tests alone see.
#[tactic(auto, using(crate::proofs::Pushes::seats_push))]
pub fn open_many_seats(alloc: Global, count: usize) -> Result<(Vec<Seat>, Desk), AllocError>
    ensures seats { IfOk result (λ opened. IsDeskOf opened.1 opened.0.items) }
    ensures count { IfOk result (λ opened. length opened.0.items ≡ count) }
    ensures desk { IfOk result (λ opened. seat_count opened.1 ≡ count) }
{
    let mut seats = Vec::with_capacity(alloc, count)?;
    let mut seat_ends = Vec::with_capacity(alloc, count)?;
    for _ in 0..count {
        let (seat, end) = open_seat(alloc)?;
        seats.push(seat)?;
        seat_ends.push(end)?;
    }
    Ok((seats, Desk { seat_ends }))
}

/// Opens this many seats, 1 to 9, and their desk. Nothing was submitted, given, answered or told yet.
///
/// It fails only if memory ran out, which tests alone see.
pub fn open_seats(alloc: Global, count: usize) -> Result<(Vec<Seat>, Desk), AllocError>
    requires least { 1 ≤ count }
    requires most { count ≤ 9 }
    ensures seats { IfOk result (λ opened. IsDeskOf opened.1 opened.0.items) }
    ensures count { IfOk result (λ opened. length opened.0.items ≡ count) }
    ensures desk { IfOk result (λ opened. seat_count opened.1 ≡ count) }
{
    open_many_seats(alloc, count)
}
