//! A node: a station that is served, over its link, for the seats of its operators, with a board of what it shows.
//!
//! A [`Node`] has them together. [`Node::carry`] takes one event to the station and carries on what follows its step:
//! datagrams are sent, a shown state is published, and answers go to the orders in work that they are of.
//! [`Node::serve`] does nothing but that, turn after turn, with what comes over the link and what the seats give: begin
//! there. [`carry`] and [`serve`] are the same for a station, a link, a desk and a board that are apart. All are for
//! any store, any link and any board. Neither opens or reads anything, and what they wait for is the link and the
//! board's readers.
//!
//! A [`StepObserver`] is told of each step, with the list of its effects, and when a turn is over: the owner of the
//! loop forwards, wakes and notes there. [`NodeStats`] has in numbers what a node has done since it began, which the
//! node's thread raises while others read them. [`step_and_send`] is the part of a carry that needs neither a desk nor
//! a board.
//!
//! What they leave is a relation between the node before and after (`specs/Carried.antt` for one event,
//! `specs/Served.antt` for turns), made of the relations that the layers below have: the station's own step, the link
//! that sends, the desk that answers, the board that publishes. So a turn asks the link once and each seat once, and
//! the observer is told of each step once: each of these is seen in what the link, the desk and the observer show. And
//! one that notes what steps hand out has noted that of each, in order.
//!
//! # How it is proved
//!
//! `Carries` (`specs/Carried`) is the station's step, then `Follows`: what was sent, which command was marked, what
//! was published, which orders were answered. `Serves` (`specs/Served`) is a list of them, turn after turn.
//!
//! - `proofs/Sends`: what is sent, one datagram after the other.
//! - `proofs/Carrying`: what follows a step, and what does not follow one that stopped the station.
//! - `proofs/Edges`: what each carry leaves unchanged, as how many seats there are.
//! - `proofs/Turned` has what the parts of a turn answer, `proofs/Service` turn after turn up to the end.
//! - `proofs/Counted`: what turns leave of the link, so what was received, how often it failed and was asked.
//! - `proofs/Showing`: what a step shows was news to its station. `proofs/Rising`: so a board goes back of no object.
#![tactic(auto)]

mod answers;
mod event;
mod law;
mod node;
mod publish;
mod send;
mod stats;
mod turns;

pub use answers::REPLACED;
pub use event::{NoObserver, StepObserver};
pub use law::blank_boards_are_risen;
pub use node::{CarryFault, Node, NodeInput, ServedBoard, carry, is_stopped_by, step_and_send};
pub use stats::NodeStats;
pub use turns::{ServeFault, serve};
