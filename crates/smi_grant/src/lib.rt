//! Who holds a domain: the record that its keeper has of it.
//!
//! A domain has one [`Record`], kept by one station. A holder takes the domain, sends it numbered commands, and drops
//! it again. [`take`], [`drop_grant`], [`admit`], [`start`] and [`settle`] are what the keeper makes of that. All are
//! pure: each looks at one record and answers the new one, or that nothing changes. What a holder knows of the record
//! is a `Link` of `smi_command`.
//!
//! The layer above may rely on this of a record: it is granted only if it is free and its epoch is the one that was
//! seen; a command is admitted once and in its turn; and with each new record the [rank](law::ranks_rise) rises, so no
//! record ever comes back.
//!
//! # How it is proved
//!
//! `take`, `drop_grant`, `admit`, `start` and `settle` answer exactly `take_after`, `drop_after`, `admits`, `started`
//! and `settled` (`specs/Keeper`). Each of these is a sentence of docs/PROTOCOL.md, "The keeper". `law::ranks_rise`
//! has an empty body; its contract is the law.
//!
//! The functions need no proof by hand. `proofs/Records` has the two directions between the test of a lawful record
//! and the facts that it stands for. The crates above use it.
#![tactic(auto)]

mod command;
mod holder;
mod keeper;
pub mod law;
mod outcome;
mod record;
mod state;

pub use command::{Command, LAST_NUMBER};
pub use holder::Holder;
pub use keeper::{Verdict, admit, drop_grant, settle, start, take};
pub use outcome::Outcome;
pub use record::{LAST_EPOCH, Phase, Record, is_outcome};
pub use state::{Shown, Version};
