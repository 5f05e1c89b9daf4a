use crate::order::Order;
use thiserror::Error;

/// An event of a station.
#[derive(Clone, Copy)]
pub enum Event<'a> {
    /// The bytes of a datagram.
    Datagram(&'a [u8]),
    /// An operator's order. One that holds a report is taken as that report.
    Order(u16, Order),
    /// The device, by its number among the devices, is in this state.
    Report(u16, u16),
    /// Time to send again what is due.
    Tick,
}

/// What a station made of an event.
#[derive(Clone, Copy, PartialEq, Eq)]
pub enum Heard {
    /// A datagram that was refused with 1 to 9, or an order or a report refused with 21 to 26
    /// (docs/PROTOCOL.md, "Refusals" and "Orders").
    Refused(u16),
    /// Nothing had to be saved.
    Same,
    /// A row was saved.
    Done,
}

/// Why a step was not made.
#[derive(Clone, Copy, Debug, PartialEq, Eq, Error)]
pub enum StepFault {
    /// 31: the store did not save the row, and nothing has changed.
    #[error("31: the row was not saved")]
    NotStored,
    /// 32: the station has stopped, or stops now, as nobody knows whether the row was saved.
    #[error("32: the station has stopped")]
    Stopped,
    /// 33: memory was refused, and nothing has changed.
    #[error("33: out of memory")]
    Memory,
}
