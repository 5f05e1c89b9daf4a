//! The ends of the rings between operators and their station.

ghost use Rattle.std.specs.Prelude.{◌≡◌, ◌+◌, ◌≤◌, ◌++◌, map, length};
ghost use Rattle.rtrb.specs.Ring.{sent, received, known_free, producer_capacity};
ghost use Rattle.smi_operator.specs.Working.{most_work, order_told, order_in};

use crate::work::{MOST_WORK, WorkSlot};
use arrayvec::ArrayVec;
use rtrb::{Consumer, Producer};
use smi_protocol::{Order, Told};

/// An operator's seat, for one thread. It never waits.
#[derive(Drop)]
pub struct Seat {
    pub(crate) orders: Producer<Order>,
    pub(crate) answers: Consumer<Told>,
    // There is room for sixteen orders, whatever the desk takes.
    ghost room: { 16 ≤ known_free orders + length (sent orders) },
}

/// The station's end of one seat, and the seat's orders in work.
#[derive(Drop)]
pub struct SeatEnd {
    pub(crate) orders: Consumer<Order>,
    pub(crate) answers: Producer<Told>,
    pub(crate) work: ArrayVec<WorkSlot, MOST_WORK>,
    // The orders of what was answered, and those in work, are those that were given.
    ghost in_order: { map order_told (sent answers) ++ map order_in work.items ≡ received orders },
    ghost size: { producer_capacity answers ≡ 16 },
    ghost few: { length work.items ≤ most_work },
    // Each order in work has a place for its answer.
    ghost place: { length work.items ≤ known_free answers },
}

/// The desk of a station's seats, which have numbers from 0. Its calls take no memory and never wait.
#[derive(Drop)]
pub struct Desk {
    pub(crate) seat_ends: Vec<SeatEnd>,
}

/// A seat that has ended: it takes no more orders, and keeps both ends until it meets the desk.
#[derive(Drop)]
pub struct Finished {
    pub(crate) orders: Producer<Order>,
    pub(crate) answers: Consumer<Told>,
}
