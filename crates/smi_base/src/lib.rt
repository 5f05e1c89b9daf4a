//! What all layers share: limits, numbers in bytes, bytes written whole, and counts that contracts alone read.
//!
//! The limits of trees, stations, datagrams and rows, one place each (docs/FORMATS.md, docs/PROTOCOL.md):
//! code and definitions of all crates above cite them, and [`law`] says what each is. [`u16_at`], [`u32_at`] and
//! [`u64_at`] read numbers whose most significant byte comes first, as datagrams and stable rows have them
//! (docs/FORMATS.md).
//!
//! `write_all` of the standard library does not say what a failed call has written; [`write_whole`] does. A link and
//! a store say of a fault that they counted it. No code reads such a count, so a [`Tally`] has no bytes, and no last
//! value.
#![tactic(auto)]

mod bytes;
pub mod law;
mod numbers;
mod step;
mod tally;
mod trees;
mod write;

pub use bytes::{u16_at, u32_at, u64_at};
pub use numbers::{LAST_BOOT, LAST_SEQUENCE, MOST_LINKS, MOST_SENT};
pub use tally::Tally;
pub use trees::{
    MOST_ACTIONS, MOST_BYTES_OF_A_FILE, MOST_BYTES_OF_A_LINE, MOST_BYTES_OF_A_NAME, MOST_CHILDREN,
    MOST_CLASSES, MOST_DEVICES, MOST_DEVICES_OF_A_DOMAIN, MOST_DOMAINS, MOST_LEVELS, MOST_OBJECTS,
    MOST_OPERATORS, MOST_OPERATORS_OF_A_STATION, MOST_RULES_OF_A_CLASS, MOST_STATES, MOST_STATIONS,
};
pub use write::{NotWritten, write_whole};
