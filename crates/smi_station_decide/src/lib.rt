//! What a step will make of a station's grants, decided before anything is saved, and what it hands out for it.
//!
//! Each file decides one kind of datagram or order: it makes the [`Change`](smi_station_grants::Change) that is still
//! to be saved and made, and hands out what the station sends and answers with it, and what its save leaves in a
//! trace. [`check_datagram`] and [`decide_order`] say first what is refused. Only a command that runs takes memory,
//! for what it does to the children.
//!
//! # How it is proved
//!
//! `decide_take`, `decide_drop`, `decide_run`, `decide_tell` and `obey` each plan a change (`Plans`, specs/Plans),
//! while the tables are still as before. They hand out what the definition of the same event sends, answers and issues
//! (`with_step`, specs/Handing).
//!
//! - `run_comes` answers the result of a command that the record admits (`Begins`, specs/Begun). The change that is
//!   made of it has `Plans` (`begun_planned`, proofs/Verdicts). It looks at each child once (`command_effect`): for
//!   what becomes of it, for the code with which the command begins, and for whether a child will have to answer.
//! - An order is decided in one place (`decided`, specs/Decided). What is decided is refused as the definition refuses
//!   it, or is the definition's step (`proofs/Decisions`).
//! - That each datagram can be said follows from sound grants (`IsSound`), before the step or after it
//!   (`proofs/Sends`, `Handings`, `Ends`).
//! - A link's settlements are answered by their places in the list (`proofs/Answering`).
//! - What a step leaves in a trace is read off the record of its domain afterwards (`proofs/Left`).
#![tactic(auto)]

mod check;
mod drop;
mod due;
mod order;
mod record;
mod run;
mod take;
mod tell;

pub use check::{check_datagram, is_report_here, speaks_for};
pub use drop::decide_drop;
pub use order::{DecidedOrder, decide_order, obey};
pub use record::answer_ask;
pub use run::decide_run;
pub use take::decide_take;
pub use tell::decide_tell;
