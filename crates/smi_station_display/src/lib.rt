//! The display half of a station: the states of its objects and of those that it watches, who watches whom, and the
//! questions of its operators.
//!
//! A [`Displayed`] holds these in tables by number, which only [`Displayed::new`] and a new watcher take memory for.
//! What each event makes of them is defined in `smi_protocol`, under `specs/Watching.antt`, `specs/Showing.antt` and
//! `specs/Ticking.antt`; each function here results in what is defined there.
//!
//! # How it is proved
//!
//! `Displayed` is seen as the `Display` of `smi_protocol` that its tables stand for (`display_of`). Its invariant says
//! that what is in them can be told (`IsDisplay` of `smi_protocol`). `SoundDisplay`, under `proofs/` of that
//! crate, has it of a start and of each change.
//!
//! - `watch_comes`, `unwatch_comes`, `state_comes`, `record_comes` and `order_comes` make of the display what the
//!   definitions of these names make of it, and hand out their notice (`with_notice`). A watch whose watcher finds no
//!   memory changes nothing.
//! - `members` lists a domain's members. `act`, `report` and `follow` move devices and units. `publish_changes` has a
//!   unit follow its members, tells their watchers, and says whether the last sequence was reached.
//! - `tick` goes once over all that is due, in the order of places, and sends from the remembered place on
//!   (`offered`). It looks at every place of the tree, before the remembered one too. `proofs/Sweeps` shows that this
//!   is the list that the definition cuts at 64, and that the place remembered is the definition's.
#![tactic(auto)]

mod ask;
mod displayed;
mod follow;
mod members;
mod publish;
mod resend;
mod tick;
mod watch;

pub use displayed::Displayed;
pub use members::{MOST_MEMBERS, Members};
