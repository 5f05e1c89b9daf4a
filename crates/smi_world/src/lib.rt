//! A simulated world: the stations of a tree, each over a store in memory, and the traces of schedules.
//!
//! What an item of a schedule makes of the world, and what it leaves, is defined in `smi_protocol` (specs/Schedule). A
//! [`World`] makes one item after the other, and [`run`] makes those of a whole schedule; every trace is safe at every
//! moment.
//!
//! An item concerns one station. Something reaches it (`coming`), and it makes its step, starts again, or stops after
//! its save (`acting`, `failing`); what is left of that is a [`Left`]. Which station that is, and whether the item
//! names what the tree has, is told by `task` and `naming`.
//!
//! # How it is proved
//!
//! - `IsPost` (`specs/Posts`) relates a station in code and a station of the definitions: the same grants, rows that
//!   say so, and, while it runs, the same display. A station that is out of service for the schedule alone is stopped
//!   there.
//! - `Makes` says that an act of the station and what it leaves are the defined ones. `specs/Turning` has the part of
//!   `turn` that is about one station. `specs/Tasks` and `proofs/Turns` put `turn` together of these parts.
//! - `IsAt` relates a world in code and a defined world: each station is that station, and the same datagrams were
//!   sent. Every call takes any defined world that the one in code is, and says which one it is afterwards. The
//!   invariant of `World` keeps that one of them can be reached (`IsReached`). So `run` ends with the defined trace,
//!   and the law speaks of it.
//! - A stream (`proofs/Going`, `Begun`, `Drawing`) keeps which lines are made, which world they have led to, that
//!   what they left is written, and what text is left to be cut. If the reader's bytes are known, and with them
//!   all lines, each way out of it says which part of the text of the whole trace is written.
//! - What a step leaves in the trace is read off what it hands out: what its save leaves, the states that its objects
//!   pass through, what it was shown and what it answers (`proofs/Stepped`).
#![tactic(auto)]

mod acting;
mod coming;
mod drawn;
mod failing;
mod left;
mod naming;
mod opening;
mod post;
mod running;
mod settling;
mod stepping;
mod streaming;
mod task;
mod turning;
mod world;

pub use drawn::stream_drawn;
pub use left::Left;
pub use opening::push_opening;
pub use running::{Trace, WorldFault, run};
pub use settling::{Settled, stream_drawn_settled, stream_settled};
pub use smi_law::law::every_run_is_safe;
pub use smi_schedule::{ScheduleFault, draw_schedule, item_of, read_schedule};
pub use streaming::{Streamed, stream};
pub use world::{ActFault, World};
