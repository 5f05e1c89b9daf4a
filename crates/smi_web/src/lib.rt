//! What a screen answers over HTTP: a function of a request and a snapshot, without socket or clock. `smi_screen` calls
//! it and has the sockets, the clock, and the connection with a node's console. The page that it serves is in
//! `crates/smi_program/page`.
//!
//! - A [`Snapshot`] has the texts that are served: the page, the tree, and a picture as it was at one moment. It is
//!   made once for many requests ([`Snapshot::renew`]). A copy of a text shares its bytes.
//! - [`WebService`] answers requests from a snapshot. [`route_request`] says which text a request gets. No other bytes
//!   are ever served. Two kinds of requests change something, if orders may be given ([`PageOrders`]) and the request
//!   comes from the page itself, which shows the key that is in it: an order is given to the relay, and an alarm is
//!   acknowledged.
//! - [`OrderRelay`] takes the orders of a page to a node's console, and their answers back. An order that is given
//!   becomes a [`RelayedOrder`], and its line follows a tag of its own among the bytes that are to be sent
//!   ([`OrderRelay::unsent`]). If it came with the name of who gives it, a remark that tells the name is before its
//!   line. A line of the console answers the order whose tag it begins with ([`OrderRelay::receive_line`]). If the
//!   connection ends, answers that have not come are lost, and what was not sent is not sent later
//!   ([`OrderRelay::close`]), so that nobody is commanded by an order of long ago. [`OrderRelay::admission`] says
//!   beforehand whether an order may be given. The relay also asks the console in which mode each child is
//!   ([`OrderRelay::ask_modes`]), and keeps its last whole answer ([`OrderRelay::modes`]).
//! - [`Acknowledgements`] has the alarms that somebody has acknowledged on a page, who, and when.
//! - [`write_tree`], [`write_picture`], [`write_changes`], [`write_orders`] and [`write_metrics`] write JSON, and
//!   Prometheus' text format. The names of a tree have letters, digits and `_` alone, and a relay keeps plain text, so
//!   nothing is escaped.
//!
//! docs/FORMATS.md, "The screen", has the texts.
//!
//! # How it is proved
//!
//! Each text is a definition, put together from what `specs/Json` has: `tree_text` (`specs/TreeJson`), `picture_text`
//! (`specs/PictureJson`), `changes_text` (`specs/ChangesJson`), `metrics_text` (`specs/Metrics`), `orders_text`
//! (`specs/OrdersJson`). So no reader is shown a state, a holder or an answer that tree, picture and relay do not have.
//!
//! `route_request` (`specs/Answers`) goes through the tests of a request in their order. `Answers` says the status, all
//! headers and the body, and `left_by` what a request leaves of the service. What each call leaves of the relay is in
//! `specs/OrderRelay`. An order waits only on the connection on which it was given: `first` is the number of the first
//! order of this one (`is_waiting`, `specs/RelayedOrder`).
#![tactic(auto)]

mod acknowledgements;
mod changes_json;
mod json;
mod json_list;
mod metrics;
mod mode_list;
mod order_line;
mod order_notes;
mod order_relay;
mod orders_json;
mod outcome;
mod page_orders;
mod picture_json;
mod relayed_order;
mod routing;
mod service;
mod snapshot;
mod tree_json;

pub use acknowledgements::{
    Acknowledgement, Acknowledgements, MOST_ACKNOWLEDGED, is_acknowledgement,
};
pub use changes_json::{CHANGES_TOLD, changes_since, write_changes};
pub use metrics::{ScreenFigures, write_metrics};
pub use order_line::is_order_line;
pub use order_relay::{Admission, MOST_ORDERS, MOST_UNSENT, OrderRelay};
pub use orders_json::write_orders;
pub use outcome::{code_of, words_of};
pub use page_orders::PageOrders;
pub use picture_json::write_picture;
pub use relayed_order::{RelayedOrder, Reply};
pub use routing::{RequestParts, Route, route_request};
pub use service::WebService;
pub use snapshot::Snapshot;
pub use tree_json::write_tree;
