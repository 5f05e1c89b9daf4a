//! Runs a screen: a station that only watches and asks, and a web server of what it has seen.
//!
//! `smi_program` calls [`run`], which does all of it on one thread. It opens the station on its store, as a node does.
//! Then it makes turn after turn. In each turn the station observes ([`Observer::poll`]), and the connections of
//! browsers have their turn, none of which is waited for (`http_listener`). Five times a second it makes a new snapshot
//! of the picture (`web_server`, `smi_web`). So a client can hold up nothing but itself, and there is neither a lock
//! nor a second thread. A request for another host is refused: [`hosts_of`] says which values of `Host` are answered.
//!
//! If the setup names a console ([`NodeConsole`]), orders may be given from the page. They wait in the service's relay
//! (`smi_web`). Each turn sends what is to be sent of them over one connection, and receives what the console says,
//! without waiting. The station of the screen orders nothing: the orders are those of operators of the node whose
//! console it is.
//!
//! Each turn notes what is new in the picture in the service's history (`smi_history`). Five times a second what is new
//! there is appended to a file (`history_file`), if the setup names one. If the file can't be written, the screen goes
//! on, tells pages how much is saved, and tries again each minute.
//!
//! The web server has a listener and its connections, at most `MOST_CONNECTIONS` of them. Each turn accepts the
//! connections that wait. Then each connection reads once, is answered, and writes once, over sockets that never wait.
//! A connection has a deadline, which each answer moves on, and a head and a body of bounded length. If one comes too
//! many, the one with the earliest deadline is closed. The theorem of `http_server` says what goes out over a
//! connection, by what the service answers.
//!
//! Its station is an observer: its operator watches every object and asks about every domain, again and again, and
//! orders nothing. [`Observer::poll`] is a turn of it. The station steps with what comes over the link as that of a
//! node does (`step_and_send` of `smi_node`). Then it watches the next objects, asks about the next domains, and makes
//! a tick, each if it is time ([`PollSchedule`]). What a step hands out is sent, and what it shows and answers is noted
//! in a picture (`picture_update`). So a turn is a list of deeds, each a receive, a watch, a question or a tick, each
//! from where the one before left all, and nothing else (`specs/Looking.antt`). Nothing in the picture ever goes back,
//! and no domain is ordered anything. Each receive asks the link, also if nothing comes.
//!
//! # How it is proved
//!
//! What an observer works with is a `View`: its station, what its link shows, and its picture (`specs/Looking`). It
//! is over any way to step (`Stepping`), so nothing here knows what a station is. A `Deed` is what an observer does,
//! `Does` what it leaves, and `Looks` a list of them. What of an event is noted is in `specs/Noting`. What whole turns
//! do, and how many there are, is in `specs/Turning` (`LooksFor`), and what a screen does to its store in
//! `specs/Running` (`RunsScreen`).
//!
//! - `proofs/Looks` puts deeds together: none, one, some and then others.
//! - `proofs/Turns` puts whole turns together.
//! - `proofs/Turned`: what a turn of the screen adds to its look is nothing that the station or the picture knows of.
//! - `proofs/Keeping`: whatever an observer does, its picture keeps up with what was had in it (`looks_keep`,
//!   `KeepsUp` of `smi_view`).
#![tactic(auto)]

mod console;
mod history_file;
mod hosts;
mod http_connection;
mod http_listener;
mod observer;
mod picture_update;
mod poll_schedule;
mod screen;
mod screen_parts;
mod server;
mod web_server;

pub use console::{ConsoleAddress, NodeConsole};
pub use hosts::hosts_of;
pub use http_connection::HttpConnection;
pub use http_listener::{HttpListener, MOST_CONNECTIONS};
pub use observer::{Observer, ReceiveOutcome, Stopped};
pub use poll_schedule::PollSchedule;
pub use screen::{Ended, OrderSetup, ScreenSetup, run};
