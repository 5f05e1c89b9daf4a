//! What a step of a station hands out: the datagrams to send, the answers to tell, the command that was issued,
//! the state that was shown, what its save leaves in a trace, and the states that its objects pass through.
//!
//! An [`Out`] is made once, without memory, and used for one step after the other. A step sends at most 64
//! datagrams; what goes beyond that is as if it had been lost. The functions beside it make the datagrams of a
//! station, each of which is in the ranges of its kind (docs/FORMATS.md, "Datagrams").
//!
//! # How it is proved
//!
//! An `Out` is seen as lists and values (`Out` of `smi_protocol`, specs/Step). `send` adds a datagram while there are
//! fewer than 64. That is `sent_after` (`specs/Out`), which from nothing on is the first 64 of what is sent
//! (`proofs/Sending`). The functions beside it make each datagram of a station as the definitions have it.
#![tactic(auto)]

mod datagrams;
mod entries;
mod step_out;

pub use datagrams::{ask, object_home, request, show, tell, unwatch, watch};
pub use entries::{Entries, MOST_ENTRIES};
pub use step_out::{MOST_ANSWERS, Out};
