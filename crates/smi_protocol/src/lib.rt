//! The core of a station, what one event makes of it, and what a schedule makes of all stations of a tree.
//!
//! A station keeps domains and serves operators. It is told of one event at a time ([`Event`]): a
//! datagram, an operator's [`Order`], a device's report, or a tick. What each event does is defined
//! under `specs/`, in the words of docs/PROTOCOL.md. An [`Item`] is one thing that a schedule lets happen to the
//! stations of a tree; a schedule makes a trace, which is a list of [`Line`]s (specs/Schedule.antt), and [`examples`]
//! shows the definitions at work. How a schedule is written or drawn and how a trace reads are in crates of their
//! own.
//!
//! # How it is proved
//!
//! The crate has the definitions that the code, the simulator and the law of the whole world cite. Its examples show
//! that they say what docs/PROTOCOL.md says. Cited, and not written again, are the verdicts and tables of
//! `smi_grant`, the look-ups of `smi_tree` and the moves of `smi_publish`. So are the rule of `smi_view`, the lists
//! of `smi_watchers` and the bytes of rows in `smi_rows`.
//!
//! ## Definitions, under `specs/`
//!
//! - `GrantsOf`: what anything that comes does to the grants; it reads nothing of the display.
//! - `Keeping`: takes, drops and runs.
//! - `Children`: what a command does to each child.
//! - `Hearing`, `Ordering`: told records, and orders.
//! - `Watching`, `Showing`, `Ticking`: what anything that comes does to the display.
//! - `Refusals`: all refusals, by the first test that fails.
//! - `Step`: the two halves put together: `after_event`.
//! - `Opening`: a restart, and what a step leaves that is stopped after its save (`saved_only`).
//! - `Loading`: what the rows of a station mean (`grants_in`), also with rows missing and rows of other stations, and
//!   how a station's open on them ends (`Opens`: each fault by its cause).
//! - `Sending`: what a station may send.
//! - `Schedule`: what a list of items makes of all stations of a tree, and which trace it leaves (`trace_of`).
//! - `Played`: what is seen of each item of a worked example.
//!
//! Each worked example is a list of items. Its law says that the trace is that one, line by line (`Makes`): entries,
//! datagrams, answers and rows are computed by the checker. Wrong definitions (edits of files under `specs/`, in
//! `edits/`) are refused by these laws.
//!
//! ## Soundness, of one station
//!
//! No world that was reached is a premise. `IsSound` (`specs/Sound`) says of grants:
//!
//! - Records are those that a datagram can tell, of holders that the tree has.
//! - Each link's requests are in the ranges of their kinds and name what the tree has.
//! - A link to a child has at most one command pending.
//! - A domain waits for children exactly while it is busy.
//! - A child has a mode of its own only while it is held.
//! - An operator has at most sixteen links that are not out.
//!
//! `IsDisplay` (`specs/SoundDisplay`) says of states and watching:
//!
//! - The objects that have a state are the station's own, and states and sequences are in range.
//! - Watchers are stations of the tree, in boots that they can have.
//! - Questions are about the tree's domains, and named objects are the tree's.
//!
//! Each object has to be able to change once more (`MayChange`): a station that has one at its last sequence has
//! stopped.
//!
//! Under `proofs/`:
//!
//! - `SoundLinks` is about one link, `SoundChildren` about what a command does to a child.
//! - `SoundOpening` begins with sound grants. `SoundRuns`, `SoundRecords`, `SoundTells`, `SoundOrders` and
//!   `SoundSteps` keep them, whatever comes.
//! - `SoundDisplay` and `DisplayStays` do the same for states and watching.
//! - `Ranges`, `SendsInRange` and `ShowsInRange` go through what is sent: of grants, and then all of it, with
//!   watches, states and questions.
//! - `RowsRead` and `RowsMean` go through the rows: each reads back, and what is saved means what is kept.
#![tactic(auto)]

mod entry;
mod event;
pub mod examples;
mod fault;
mod item;
pub mod law;
pub mod limits;
mod order;
pub mod refusals;
mod resend_cursor;

pub use entry::Entry;
pub use event::{Event, Heard, StepFault};
pub use fault::OpenFault;
pub use item::{Deed, Item, Line, Moment};
pub use order::{Answer, Mark, Order, OrderCode, Request, Told};
pub use resend_cursor::ResendCursor;
