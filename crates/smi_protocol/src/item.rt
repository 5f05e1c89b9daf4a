//! What a schedule lets happen, and the lines of a trace.

use crate::entry::Entry;
use crate::order::Order;
use smi_message::Datagram;
use smi_rows::Plan;

/// What may reach a station. Stations, operators and devices have their numbers of the tree.
#[derive(Clone, Copy, Debug, PartialEq, Eq)]
pub enum Deed {
    /// The k-th datagram that was sent, from 1, is delivered.
    Deliver(u64),
    /// The datagram that was sent this many before the newest is delivered.
    Recent(u64),
    /// An operator orders.
    Order(u16, Order),
    /// A device is reported in a state.
    Report(u16, u16),
    /// A station ticks.
    Tick(u16),
}

/// The moment at which a station stops.
#[derive(Clone, Copy, Debug, PartialEq, Eq)]
pub enum Moment {
    /// Before the save: it has not landed.
    Before,
    /// After the save.
    After,
}

/// What a schedule lets happen.
#[derive(Clone, Copy, Debug, PartialEq, Eq)]
pub enum Item {
    /// This is done.
    Do(Deed),
    /// The station is started again.
    Restart(u16),
    /// The station stops in the step that this brings about, and is started again.
    Stop(u16, Moment, Deed),
    /// The save of the step that this brings about at the station fails so.
    Fail(u16, Plan, Deed),
}

/// A line of a trace: what an event left in it, or that a datagram was sent, with its number from 1.
#[derive(Clone, Copy, PartialEq, Eq)]
pub enum Line {
    Entry(Entry),
    Sent(u64, Datagram),
}
