//! The states and versions of a station's objects.
//!
//! A [`Publisher`] is made when a station starts: every unit and device that the station keeps is in
//! its class's first state, at sequence 0 of the station's boot. After that an object changes in three
//! ways: a device reports its state ([`Publisher::report`]), the devices of a domain move by an action
//! ([`Publisher::run_action`]), and a unit follows the states of its members
//! ([`Publisher::evaluate`]). The changes of a step are gathered in [`Changes`].
//!
//! The layer above may rely on this: objects move by the tables of the tree and in no other way
//! (docs/PROTOCOL.md, "States and versions"); a changed state adds 1 to the object's sequence and an
//! unchanged one nothing; nothing is shown but what has changed; and only the making of a `Publisher`
//! takes memory.
//!
//! # How it is proved
//!
//! `specs/Published` has what is published: `conditions_of`, `shown_at`, `change_at`, `changes_at`.
//! `specs/Publishing` says how conditions change, as functions of an object's number: `first_condition`, `come_to`,
//! `reported`, `acted`, `evaluated`.
//!
//! Each public function ensures that the conditions afterwards *are* that function of those before, which is an
//! equation of functions. It also ensures that its answer is the changes between the two.
//!
//! - `report` and the readers need no proof by hand.
//! - `run_action` goes over the devices with the invariant `SoFar` (`proofs/Acting`): the devices so far have moved,
//!   the others have not, and the changes so far are those of the whole.
//! - It rests on the numbers of a domain's devices being rising (`proofs/DeviceNumbers`), so that none moves twice,
//!   and on the tree being lawful (at most sixteen devices).
//! - `new` is proved by `proofs/FirstConditions`.
#![tactic(auto)]

mod changes;
mod condition;
mod opening;
mod publisher;

pub use changes::{Changes, MOST_CHANGES};
pub use publisher::Publisher;
