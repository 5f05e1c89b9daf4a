//! What is between operators and their station: a seat for each operator, and the desk at which the station
//! serves them.
//!
//! [`open_seats`] makes seats and their desk, [`open_many_seats`] as many as a node wants whose operators have several
//! each ([`operators_by_seat`]). A [`Seat`] goes to the operator's thread: it submits orders, and
//! is told how they ended. The [`Desk`] stays with the station: it gives each seat's orders in their order, a
//! further one while others are in work only if all are commands on one domain, and hands their answers out
//! in the order in which they were given. Neither end ever waits, and neither takes memory after it was made.
//! A seat that has ended is compared with the desk by [`Desk::meet`].
//!
//! # How it is proved
//!
//! `specs/Working` has the rules: which order may join those in work (`may_join`), that an order ends once
//! (`ended_by`), which answers are handed out and which orders stay (`handed_out`, `still_in_work`). `specs/Sides`
//! names what each side shows: `submitted`, `told_to`, `given`, `answered`, `work_of`. It also says what a call does
//! to one seat of the desk while all others stay unchanged (`Steps`).
//!
//! The desk's end of a seat keeps two things in its type. The orders of what was answered, followed by those in work,
//! are what was given. Each order in work has a place for its answer. So no order is dropped, exchanged with another
//! or answered with another's order, and an answer never has to wait for room. The loop that hands answers out keeps
//! that what was answered and what can still be handed out are together what they were (`proofs/Fronts`). That a
//! changed entry keeps its order is `proofs/Changing`.
//!
//! Two ends of one ring, and an end that has moved through another thread, are the same as far as contracts see
//! (`SameSeat`, `SameDesk`, `Ends`). `proofs/Desks` shows that any number of calls leaves a desk the same, and that a
//! seat that ended elsewhere is still that of its desk (`ended_at_desk`), which is what `meet` asks. The test
//! `two_seats_are_served` is a caller that proves it over three threads.
//!
//! A seat that has ended keeps both ends, so both lists stay whatever the other thread does, and `meet` is always
//! true. It brings both ends together, and from then on the desk has seen every order that is left. `Gives`,
//! `Answers` and `Marks` say what each call leaves of the orders seen and of the places known to be free. So after
//! one meeting the rest is given, marked and answered without another.
//!
//! That `submit` and `told` wait for nobody has no edit. Whatever waits takes a `Wait`, which neither has, so a body
//! with a lock round what they take is refused before the prover sees it.
//!
//! Not said by any contract, and only tested: that an order which another thread submitted is seen before the seat
//! ends. Trusted: the toolchain, and the statements of `rtrb` and `arrayvec`, which are the kit's.
#![tactic(auto)]

mod desk;
mod ends;
mod handing;
mod lanes;
mod meeting;
mod seat;
mod seat_end;
mod work;

pub use ends::{Desk, Finished, Seat};
pub use lanes::{LANES, operators_by_seat};
pub use meeting::{open_many_seats, open_seats};
pub use work::Work;

#[cfg(test)]
mod tests;
