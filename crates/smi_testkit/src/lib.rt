//! What tests of several crates share: the worked tree of examples/worked.tree, rows of docs/FORMATS.md ("Stable
//! rows"), and readers and writers that are slow or fail.
#![tactic(auto)]

mod rows;
mod streams;
mod trees;

pub use rows::{BOOT, HELD, OLDEST, PENDING, TAKEN, WORKING, are_same, key};
pub use streams::{Narrow, Trickle};
pub use trees::{PAIR, WORKED};
