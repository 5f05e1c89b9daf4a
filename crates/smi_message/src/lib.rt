//! Datagrams between stations, and the 44 bytes that each of them is.
//!
//! [`encode`] writes a [`Datagram`] and [`decode`] reads one. Each datagram has one spelling, and bytes
//! are read as a datagram exactly when they are its spelling; all other bytes are refused by the
//! first test that they fail ([`Bad`]). Neither call takes memory. The layout is in
//! docs/FORMATS.md, "Datagrams".
//!
//! Between bytes and datagram are the numbers at each place, together as they are written and one
//! by one as they are read. What knows their places knows nothing of what they mean, and what knows
//! what they mean knows nothing of bytes.
//!
//! # How it is proved
//!
//! `decode` has three clauses. What is read is spelled so (`found`). What is spelled so is read (`only`). The result
//! is the reading function's, so each refusal is the first test that fails (`exact`). `encode` gives the spelling.
//!
//! Between bytes and datagram is `Fields`, the plain number at each place.
//!
//! - The layout, from bytes to fields and back, is proved once and knows no kinds (`proofs/Bytes`). The kinds are
//!   about numbers alone.
//! - That what fields say has just those fields is proved in one step for all kinds, from the fields that a kind uses
//!   (`proofs/Back`).
//! - The other way is `proofs/Again`, and `proofs/Laws` puts the two together.
#![tactic(auto)]

mod bad;
mod datagram;
mod fields;
mod reading;
mod refusal;
mod writing;

pub use bad::Bad;
pub use datagram::{Body, Datagram};
pub use reading::decode;
pub use refusal::DatagramRefusal;
pub use writing::encode;
