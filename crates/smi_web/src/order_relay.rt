//! Relays the orders of a page to a node's console, and keeps them with their answers. `routing.rt` asks it whether an
//! order may be given, `service.rt` gives it orders, and `crates/smi_screen/src/console.rt` sends its bytes and hands
//! it the console's lines. Each order is sent once, in order, or is lost with its connection: docs/FORMATS.md, "Orders
//! from the page", promises it.

ghost use Rattle.std.specs.Prelude.{◌≡◌, ◌≤◌, ◌<◌, true, length, vec_capacity, IfSome, OnErr, OnOk};
ghost use Rattle.smi_web.specs.RelayedOrder.{answered};
ghost use Rattle.smi_web.specs.OrderRelay as spec;

use crate::mode_list::ModeList;
use crate::order_line::is_order_line;
use crate::relayed_order::RelayedOrder;
use bytes::Bytes;
use smi_history::rest_of;
use smi_tree::Tree;
use std::alloc::{AllocError, Global};
use std::marker::Model;

/// The most orders that are kept: all that wait, and the newest of the others. While this many wait, no further one is
/// taken. docs/FORMATS.md, "Orders from the page", and `specs/OrderRelay` have the number too.
pub const MOST_ORDERS: usize = 64;

/// No order is taken while more bytes than this wait to be sent, so that a console which reads nothing does not make
/// them grow. The answer to a page is `too many orders wait` then.
pub const MOST_UNSENT: usize = 8_192;

/// The line that asks the console for the modes. No order has its tag, because the tags of orders are numbers.
const MODES_LINE: &[u8] = b"@modes modes\n";

/// Whether an order may be given now, and if not, why.
#[derive(Clone, Copy, PartialEq, Eq)]
pub enum Admission {
    /// It may be given.
    Accepted,
    /// It is no order of an operator of the tree, and withdraws none.
    NoOrder,
    /// There is no connection with a console.
    ConsoleDown,
    /// Too many orders wait, or too many bytes are not sent.
    QueueFull,
}

/// The orders that were given from a page, what is to be sent of them, and what became of them.
///
/// Contracts see the orders, the oldest first; the number of the next, and of the first that was given on this
/// connection; the bytes that are to be sent; whether there is a connection; and the modes that were told on it.
#[derive(Drop)]
pub struct OrderRelay {
    alloc: Global,
    /// The orders that are kept, the oldest first.
    orders: Vec<RelayedOrder>,
    /// The number of the next order, from 1 at each start of the screen. No number is used twice.
    next: u64,
    /// The number of the first order that is, or will be, given on this connection. Earlier ones no longer wait.
    first: u64,
    /// The bytes that are to be sent to the console.
    unsent: Vec<u8>,
    /// True while there is a connection with the console.
    is_open: bool,
    /// The modes of the children, as the console told them.
    modes: ModeList,
}

impl Model for OrderRelay {
    ghost use Rattle.std.specs.Prelude.{◌≤◌, length};
    ghost use Rattle.smi_web.specs.OrderRelay.{OrderRelayState, most_orders};

    ghost Value = { OrderRelayState };

    ghost view = { λ r. record {
      orders = r.orders.items;
      next = r.next;
      first = r.first;
      unsent = r.unsent.items;
      is_open = r.is_open;
      modes = r.modes;
    } };

    ghost invariant = { λ r. length r.orders.items ≤ most_orders };
}

/// Returns the index of the oldest order that does not wait. None if all wait.
fn first_over(orders: &[RelayedOrder], first: u64) -> Option<usize>
    ensures place { result ≡ spec.first_over first orders.now }
    ensures within { IfSome result (λ i. i < length orders.now) }
{
    orders.iter().position(|order| !order.is_waiting(first))
}

/// Removes the oldest order that does not wait, if no more can be kept.
fn make_room(orders: &mut Vec<RelayedOrder>, first: u64)
    requires { length orders.old.items ≤ spec.most_orders }
    ensures items { orders.new.items ≡ spec.with_room first orders.old.items }
    ensures room { spec.can_keep first orders.old.items ≡ true → length orders.new.items < spec.most_orders }
    ensures capacity { vec_capacity orders.new ≡ vec_capacity orders.old }
{
    if orders.len() == MOST_ORDERS {
        if let Some(place) = first_over(orders.as_slice(), first) {
            let _over = orders.remove(place);
        }
    }
}

/// Sets the answer of the order at this index to a line that came at the time `now`.
fn answer_at(
    alloc: Global,
    orders: &mut [RelayedOrder],
    place: usize,
    line: &[u8],
    now: u64,
) -> Result<(), AllocError>
    requires { place < length orders.old }
    ensures ok { OnOk result (orders.new ≡ spec.changed_at (answered line.now now) place orders.old) }
    ensures err { OnErr result (orders.new ≡ orders.old) }
{
    let answer = orders[place].answer_by(alloc, line, now)?;
    orders[place].answer = Some(answer);
    Ok(())
}

impl OrderRelay {
    ghost use Rattle.std.specs.Prelude.{◌≡◌, ◌≤◌, ◌<◌, length, IfSome, OnErr, OnOk};
    ghost use Rattle.smi_web.specs.ModeList.{most_modes};
    ghost use Rattle.smi_web.specs.OrderRelay as spec;

    /// Makes a relay without a connection, to which nothing was given.
    ///
    /// No clause names `alloc`, from which memory comes.
    pub fn new(alloc: Global) -> OrderRelay
        ensures { result ≡ spec.nothing }
    {
        OrderRelay {
            alloc,
            orders: Vec::new(alloc),
            next: 1,
            first: 1,
            unsent: Vec::new(alloc),
            is_open: false,
            modes: ModeList::new(alloc),
        }
    }

    /// Returns true if there is a connection with the console.
    pub fn is_open(&self) -> bool
        ensures { result ≡ self.now.is_open }
    {
        self.is_open
    }

    /// Returns the orders, the oldest first.
    pub fn orders(&self) -> &[RelayedOrder]
        ensures items { result.now ≡ self.now.orders }
        ensures most { length result.now ≤ spec.most_orders }
    {
        self.orders.as_slice()
    }

    /// Returns true if an order waits for its answer. An order that does not wait and has no answer was lost with its
    /// connection.
    pub fn is_waiting(&self, order: &RelayedOrder) -> bool
        ensures { result ≡ spec.is_waiting self.now order.now }
    {
        order.is_waiting(self.first)
    }

    /// Returns true if one more order can be taken.
    fn has_room(&self) -> bool
        ensures { result ≡ spec.has_room self.now }
    {
        self.next < u64::MAX
            && self.unsent.len() <= MOST_UNSENT
            && (self.orders.len() < MOST_ORDERS
                || first_over(self.orders.as_slice(), self.first).is_some())
    }

    /// Returns whether a line may be given as an order now, or why not.
    pub fn admission(&self, tree: &Tree, line: &[u8]) -> Admission
        ensures { result ≡ spec.admission_of tree.now self.now line.now }
    {
        if !is_order_line(tree, line) {
            Admission::NoOrder
        } else if !self.is_open {
            Admission::ConsoleDown
        } else if !self.has_room() {
            Admission::QueueFull
        } else {
            Admission::Accepted
        }
    }

    /// Gives an order at the time `now`, in milliseconds since the screen began. Its line is appended to the bytes that
    /// are to be sent, after its tag: `@7 order ANN take TRK`. If a name follows the order in the line, a remark that
    /// tells it is appended before: `# @7 name MARIA`. Changes nothing if there is no room.
    ///
    /// Fails only if memory is refused (tested, not proved), and changes nothing then.
    pub fn give(&mut self, line: &[u8], now: u64) -> Result<(), AllocError>
        ensures ok { OnOk result (self.new ≡ spec.given self.old line.now now) }
        ensures err { OnErr result (self.new ≡ self.old) }
    {
        if !self.has_room() {
            return Ok(());
        }
        let order = RelayedOrder::new(self.alloc, self.next, line, now)?;
        let sent = order.sent(self.alloc)?;
        self.orders.reserve(1)?;
        self.unsent.extend_from_slice(sent.as_slice())?;
        make_room(&mut self.orders, self.first);
        self.next += 1;
        match self.orders.push(order) {
            Ok(()) => Ok(()),
            // `reserve` has made room for one.
            Err(_) => unreachable!(),
        }
    }

    /// Returns the bytes that are to be sent to the console.
    pub fn unsent(&self) -> &[u8]
        ensures { result.now ≡ self.now.unsent }
    {
        self.unsent.as_slice()
    }

    /// Drops the first `count` bytes that are to be sent, or all if there are no more. The caller does so once they
    /// were sent.
    pub fn consume(&mut self, count: usize)
        ensures { self.new ≡ spec.sent count self.old }
    {
        if count >= self.unsent.len() {
            self.unsent.clear();
        } else {
            // The drained bytes are dropped: they were sent.
            let _ = self.unsent.drain(..count);
        }
    }

    /// Returns the index of the order that a line of the console answers, if any.
    fn place_of(&self, line: &[u8]) -> Option<usize>
        ensures place { result ≡ spec.place_of self.now line.now }
        ensures within { IfSome result (λ i. i < length self.now.orders) }
    {
        let first = self.first;
        self.orders
            .iter()
            .position(|order| order.is_answered_by(first, line))
    }

    /// Answers the order with whose tag a line begins, by what follows the tag. A line that answers none changes
    /// nothing.
    fn answer_by(&mut self, line: &[u8], now: u64) -> Result<(), AllocError>
        ensures ok { OnOk result (self.new ≡ spec.answered self.old line.now now) }
        ensures err { OnErr result (self.new ≡ self.old) }
    {
        match self.place_of(line) {
            Some(place) => answer_at(self.alloc, &mut self.orders, place, line, now),
            None => Ok(()),
        }
    }

    /// Handles a line that the console has sent, at the time `now`: modes if its tag is `@modes`, and otherwise the
    /// answer to the order with its tag. Any other line changes nothing.
    ///
    /// Fails only if memory is refused (tested, not proved), and changes nothing then.
    pub fn receive_line(&mut self, line: &[u8], now: u64) -> Result<(), AllocError>
        ensures ok { OnOk result (self.new ≡ spec.heard self.old line.now now) }
        ensures err { OnErr result (self.new ≡ self.old) }
    {
        match rest_of(b"@modes ", line) {
            Some(text) => self.modes.receive(self.alloc, text),
            None => self.answer_by(line, now),
        }
    }

    /// Returns the mode of each child, as `TRK manual`: the last whole answer of the console on this connection.
    pub fn modes(&self) -> &[Bytes]
        ensures items { result.now ≡ self.now.modes.known }
        ensures most { length result.now ≤ most_modes }
    {
        self.modes.known()
    }

    /// Asks the console for the mode of each child, if there is a connection and nothing else is to be sent.
    ///
    /// Fails only if memory is refused (tested, not proved), and changes nothing then.
    pub fn ask_modes(&mut self) -> Result<(), AllocError>
        ensures ok { OnOk result (self.new ≡ spec.asked self.old) }
        ensures err { OnErr result (self.new ≡ self.old) }
    {
        if self.is_open && self.unsent.is_empty() {
            self.unsent.extend_from_slice(MODES_LINE)?;
            self.modes.begin();
        }
        Ok(())
    }

    /// Notes that there is a connection with the console now.
    pub fn open(&mut self)
        ensures { self.new ≡ spec.opened self.old }
    {
        self.is_open = true;
    }

    /// Handles the end of the connection: the answers that have not come are lost, nothing that was given is sent any
    /// more, and no mode is known.
    pub fn close(&mut self)
        ensures { self.new ≡ spec.closed self.old }
    {
        self.is_open = false;
        self.first = self.next;
        self.unsent.clear();
        self.modes.forget();
    }
}
