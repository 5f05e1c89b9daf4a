//! What a holder of a domain, an operator or the domain above it, knows of the domain and sends to its keeper.
//!
//! A [`Link`] is what a holder knows. [`begin_take`], [`issue`] and [`begin_drop`] are its orders, [`due`] is what the
//! link has to send until it hears of it, and [`told`] is what it makes of a record that the keeper tells. All are pure
//! and take no memory: each looks at one link and answers the new one, or that nothing changes.
//!
//! The layer above may rely on this of a link: a command stays pending until its holder hears that it settled, and up
//! to eight of one grant may be [`Pending`]. Whatever is lost, repeated or reordered, what is sent again is what was
//! due; a link leaves `Taking` only by what it is told; and the link and the keeper's record know of one another as
//! [`laws::one_link_and_its_keeper`] says.
//!
//! # How it is proved
//!
//! `specs/OneLink` has the events and what they lead to, `specs/KnownGrant` what the law says of that. That no event is
//! empty is shown by a worked run, `proofs/Example`, computed from the definitions: a take, a command that stays at
//! work and settles, and a drop.
//!
//! The invariant speaks of one holder `h` at a time, with all others as strangers. So it holds of each of many
//! holders of one record at once. Its parts are in `proofs/Facts`:
//!
//! - `LinkOk r h l`: how the link relates to the record. `Out(k)` and `Taking(s)` are not ahead. A record that is h's
//!   while the link is `Taking` is fresh from the grant, at s + 1 with nothing run. `Held` is the present grant and
//!   in step. A record that is h's while the link is `Dropping` is settled.
//! - `NoLater q r`: q is a record that this keeper had no later than r. It is a preorder. Each of the keeper's steps
//!   leads to a later record, and every record ever told is `NoLater` than the present one.
//! - `TellOk`: every record ever told is so, and the link knows of each of its own grants that is over.
//! - `AskOk`: a `TAKE` of the present epoch of a free domain is still what the link is due, so a grant finds its
//!   holder waiting. A `DROP` was sent by a link that has come further than holding that grant. A `RUN` is spent or
//!   still pending.
//! - `place`: a number that never falls, which orders the forms of a link.
//!
//! Each step keeps each part:
//!
//! | Part | File under `proofs/` |
//! |---|---|
//! | the keeper's steps | `KeeperSteps` and `Asked` |
//! | the told table, row by row | `LinkSteps` |
//! | the told table, as a whole | `Heard` |
//! | which pending commands settle when a record is told | `HeardCommands`, `EndedNumbers`, `SettledRuns` |
//! | orders | `Orders` |
//! | what was issued and what ran, as lists beside the state | `Logs` |
//! | all of it together (`Well`, `after_well`, `reached_well`) | `OneLinkKept` |
//!
//! A link's step is a `Goes r h l l'`: the new form fits, and nothing that was sent loses its ground. A record's step
//! is a `NoLater`.
//!
//! To build on this for many holders, import `Fits`, `asked_fits`, `settled_fits`, `told_goes`, `fits_goes`,
//! `due_ok`, `take_goes`, `command_goes`, `drop_goes`, `Logged`, `RunsOk`, `grant_known`, `grant_in_step` and
//! `run_sent`.
#![tactic(auto)]

mod hearing;
pub mod laws;
mod link;
mod order;
mod pending;
mod sending;
mod settlements;

pub use hearing::{LinkHeard, told};
pub use link::{Due, Link};
pub use order::{Refusal, begin_drop, begin_take, issue};
pub use pending::{MOST_PENDING, Pending};
pub use sending::due;
pub use settlements::{Settlement, Settlements};
