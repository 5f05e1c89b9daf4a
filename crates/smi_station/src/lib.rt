//! A station of the control hierarchy: [`Station::step`] is one event.
//!
//! A [`Station`] keeps the grants of its domains and the links of its operators and domains (`smi_station_grants`),
//! the states of its objects and of those that it watches (`smi_station_display`), and a store of its rows. What an
//! event makes of it is defined in `smi_protocol`, under `specs/Step.antt`, and a step is what is defined there,
//! whole: the station afterwards, the row that is saved, and what is handed out.
//!
//! A step takes no memory but for the bytes of its row and for a new watcher. It looks at what its event touches: a
//! domain, the one above it, its children and devices, and those who watch what has changed; but an order to take a
//! domain counts its operator's links over all domains, and a tick goes over all that may be due.
//!
//! # How it is proved
//!
//! A step goes through five stages, each a function over references:
//!
//! 1. What the event asks of the grants is planned, and what the grants send and answer is handed out.
//! 2. The members of the domain that may change are listed.
//! 3. The row is saved and the change made. `apply_change` is `save_and_apply` of `smi_station_grants` in the words of
//!    any step that the change plans; if it fails it clears what was to be handed out.
//! 4. The display hears of the event.
//! 5. Devices move, the unit follows, and its watchers are told.
//!
//! Each stage is proved to be the part of the definition that it stands for, and `put_together` of `smi_protocol` is
//! all of them (`proofs/Outcomes`, `Heard`, `Quiet`, `Reported`).
//!
//! - Where devices move first and a unit follows, what is newly shown in the two steps is what the definition shows in
//!   one. For a unit is no device, and a reported device is once among its domain's (`proofs/Passing`, `Stirred`).
//! - While no object has reached its last sequence each may change once more (`MayChange`). A station of which one has
//!   stops.
//! - `Core` joins the halves under an invariant of the type (`specs/Core`), so a step asks nothing of its caller: one
//!   tree, one number and one boot, sound grants, tidy lists of watchers (`IsTidy`), and room for changes while it
//!   runs.
//! - `Station::open` takes all memory and reads all rows before it saves the boot. How it ends is `Opens` of
//!   `smi_protocol`: on `Ok` a restart of what the rows mean.
//! - That a step sends what it may send is the clause `may_send`; its law is `what_is_sent_may_be_sent` of `smi_law`,
//!   of one station alone.
#![tactic(auto)]

mod datagrams;
mod display_update;
pub mod law;
mod object_update;
mod orders;
mod readers;
mod reports;
mod restart;
mod start;
mod station;
mod would_save;

pub use smi_station_grants::migrate;
pub use station::Station;
