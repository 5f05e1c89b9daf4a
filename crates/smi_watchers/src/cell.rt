use std::marker::Send;

/// The place of a cell on the heap. It owns nothing.
#[derive(Clone, Copy)]
pub(crate) struct Spot {
    pub(crate) at: *mut Cell,
}

// A bare number to each thread: what lies there is its owner's.
unsafe impl Send for Spot {}

/// The cells before and after one in a list, none at an end. Of a list's head `after` is the first
/// cell and `before` the last, so that a list with its head is a ring.
#[derive(Clone, Copy)]
pub(crate) struct Sides {
    pub(crate) before: Option<Spot>,
    pub(crate) after: Option<Spot>,
}

/// One station that watches one object: an entry in the list of each.
#[derive(Clone, Copy)]
pub(crate) struct Cell {
    /// The object's number less one, its place among the heads.
    pub(crate) object: u16,
    /// The station's number, its place among the heads.
    pub(crate) station: u16,
    /// The boot of the station that its newest `WATCH` of the object named.
    pub(crate) echo: u32,
    pub(crate) by_object: Sides,
    pub(crate) by_station: Sides,
}
