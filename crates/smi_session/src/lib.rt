//! The sessions of a node: the lines that people and programs type become orders at seats, and each answer goes to the
//! session that gave its order. `smi_console` calls all of it, and has the sockets, threads and clocks. `smi_screen`
//! reads the answers of its console with a [`LineSplitter`].
//!
//! A [`Session`] is a client: a connection, or the standard input. A [`LineSplitter`] cuts its bytes into lines, and
//! [`SessionService`] handles them. The service has all seats of the station in its [`SeatTable`]. No call waits. An
//! order is in the [`SeatQueue`] of its operator, with the number of its session and the tag of its line, until the
//! station answers it. A seat answers its orders in their order, so its next answer is that of its queue's oldest
//! order. If the session of that order has ended by then, the answer is told to nobody.
//!
//! A line without a tag waits until the order of its session before it is answered. A line with a tag waits for
//! nothing. Neither waits for another session, unless the seat of their operator is full.
//!
//! A connection whose first line begins with a word that no line of a node has is refused ([`Session::is_refused`]),
//! because a web page can have a browser send such lines: the head of a request. None of its later lines is read.
//!
//! docs/FORMATS.md, "A node's lines", says what a line may be and what is answered.
//!
//! # How it is proved
//!
//! ## What a line asks, and what it does
//!
//! - `request_of_line` (`specs/Request`) says what a line asks. It is built on `request_in` (`specs/Line`), which says
//!   it by what the same line is in a schedule, over `query_in` (`specs/Query`), and over `tag_of` (`specs/Tag`).
//! - `Receives` (`specs/Handling`) says what a line does to the service and to its session. A line with a tag is
//!   handled at once. Any other waits for those before it, and `Resumes` handles those that wait one after the other,
//!   until one holds up the others or 64 were handled.
//! - `Trust` (`specs/Trust`) is what the lines of a session have shown of it.
//! - `Gives` (`specs/SeatTable`) says what becomes of an order. It is submitted once, after those before it, at a seat
//!   of its operator, and is the newest of that queue. Or it waits for a seat, or its session keeps it as deferred:
//!   then nothing is submitted. Each other queue stays as it is.
//! - `Withdraws` (`specs/Withdrawal`) says what becomes of an order that is taken back. One that waits is given no
//!   more; one that was submitted stays as it is.
//!
//! ## Whose seat it is
//!
//! `IsOpened` says which seat each operator has, and no call exchanges two seats (`SameSeat`). By
//! `law::orders_go_to_their_operators_seat` the node serves that seat as that operator's. So what a line orders for an
//! operator is stepped as that operator's.
//!
//! ## Answers
//!
//! `IsInStep` (`specs/SeatQueue`) says that the orders which a queue has not told yet are those that its seat submitted
//! and was not told of, in their order. Each call keeps it, so no answer is swallowed and none goes to another order.
//! `deliver` compares the number of a session with that of the order: another session is told nothing.
//!
//! ## Lines, however the bytes fall
//!
//! `lines_in` (`specs/LineSplitter`) are the lines of all bytes that have come. By `law::blocks_do_not_matter` they are
//! the same however the bytes were cut into blocks.
//!
//! ## Events
//!
//! `Records` (`specs/Service`) keeps an event unless it is a state that is no newer than one that was recorded before.
//! So the states of one object that a session is told of rise (`law::recorded_states_rise`).
//!
//! ## Answers to queries
//!
//! `Answers` (`specs/Reply`) is the whole text that a query is answered with: the states of the picture, the orders
//! that are pending, how many they are. The numbers of a node and the list of what a line may ask are only tested.
//!
//! What is left to the code that calls this, and only tested: that the bytes of [`Session::output`] are what a socket
//! writes, that each answer is offered to all sessions, that no two of them have one number, and that `next_answer`,
//! `resume` and `receive_line` are called again and again.
#![tactic(auto)]

mod action;
mod boxes;
mod fault_reply;
mod lane;
pub mod law;
mod line;
mod line_splitter;
mod mode;
mod query;
mod reply;
mod request;
mod seat_queue;
mod seat_table;
mod service;
mod session;
mod state_reader;
mod station_event;
mod subscription;
mod tag;
mod trust;
mod unknown_name;
mod will;
mod withdrawal;

pub use action::{StepAction, step_action};
pub use boxes::boxed;
pub use lane::Lane;
pub use line::request_in;
pub use line_splitter::LineSplitter;
pub use mode::{ChildMode, ChildState};
pub use query::{Query, query_in};
pub use request::{SessionRequest, request_of_line};
pub use seat_queue::{MOST_PENDING, PendingOrder, SeatQueue};
pub use seat_table::{SeatAnswer, SeatTable};
pub use service::SessionService;
pub use session::{Deferred, MOST_UNSENT, NumberedLine, ReplyStyle, Session};
pub use state_reader::StateReader;
pub use station_event::{ActionDone, StationEvent};
pub use subscription::Subscription;
pub use tag::{Tag, tagged};
pub use trust::Trust;
pub use will::DeviceWill;
pub use withdrawal::Withdrawal;
