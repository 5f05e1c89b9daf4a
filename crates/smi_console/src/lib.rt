//! Runs a node as operators use it: a station on its store, served over UDP, and the consoles at which orders are
//! typed.
//!
//! `smi_program` calls [`run`]. It brings the store's rows into their newest schema and opens the station. Then it
//! makes a board with one glance, seven seats for each operator and one for reports, the station's socket, the
//! listeners and the threads, in this order (`node`, `setup`), and writes the first fault (`faults`, `exit`). The link
//! reaches the stations at their addresses (`peers`). `node_io` has the link and the desk until the threads are
//! started. Then the node serves the station in its own thread (`station_loop`), as a `Node` of `smi_node`, which
//! counts what it does, before an observer; between two rounds of turns it has the store copy its log, if that is due
//! (`log_timer`). What that does to the store is the contract of [`run`].
//!
//! Three threads, which nobody joins, have the consoles (`threads`). One reads the lines of the standard input
//! (`stdin`), and one writes the standard output (`stdout`). The third has the sessions (`console_loop`, over
//! `smi_session`): those of the standard input and of the connections (`connection_set`, `connection`) that come in at
//! the listeners (`listener`). It waits for all of them at once, for none of them alone. The thread that serves the
//! station wakes it (`console_waker`) after a turn that has brought an answer, or a state or an action that a session
//! follows: the node's observer forwards them (`node_observer`, `event_forwarder`, `event_queue`). After the third
//! thread has given orders, it sends a datagram to the node's own socket (`station_waker`). The datagram is empty and
//! every station refuses it, but a station at rest then looks at its seats at once. For `counts` it reads how many
//! datagrams the system has dropped at that socket (`socket_drops`).
//!
//! A node that has a journal notes each step in it, before anything of the step is sent (`node_observer`,
//! `journal_keeper`), and the lines that were typed before the step (`typed_lines`). A fourth thread syncs its files
//! once a second. What it noted is what each step handed out, in order: `Serves` says so of every observer that notes,
//! and this one notes by the list of its journal, which `smi_journal` ties to the bytes of the file.
//!
//! What a line may be and what is printed is in docs/FORMATS.md, "A node's lines"; the exit statuses are in
//! docs/NUMBERS.md, "Statuses of the program".
//!
//! # How it is proved
//!
//! `Runs` (`specs/Running`) is made of what the calls below promise: all of `migrate` (`MigratesOn`), all of
//! `Station::open` (`OpensOn`), and of the service that each round is `Serves` of `smi_node`.
//!
//! - `ServesFor` (`specs/Serving`) says of an endless node that it was served a hundred turns, some number of times,
//!   and then ended with a fault. After each hundred its log may be copied, which leaves its rows. The loop's invariant
//!   counts the rounds.
//! - `IsServed` hides the link, the desk, the board and the observer as "some", so that no caller has to name the
//!   node's own.
//! - If the station is open and no service begins, it is left unchanged.
//!
//! Tests alone see that `run` serves over its own socket and seats (`tests/full_test.py`, `tests/nodes_test.py`), and
//! what the threads do. The channels between them promise no order, so no clause says that a line which is read is
//! heard once and in its turn (`tests/consoles_test.py`).
#![tactic(auto)]

mod connection;
mod connection_set;
mod console_loop;
mod console_waker;
mod event_forwarder;
mod event_queue;
mod exit;
mod faults;
mod journal_keeper;
mod listener;
mod log_timer;
mod node;
mod node_io;
mod node_observer;
mod peers;
mod setup;
mod socket_drops;
mod station_loop;
mod station_waker;
mod stdin;
mod stdout;
mod threads;
mod typed_lines;

pub use faults::{link_fault, opening_fault, print_fault, stopped};
pub use listener::ListenAddress;
pub use node::{NodeSetup, run};
pub use peers::addresses;
pub use smi_link::Sources;
pub use station_loop::Turns;
pub use threads::Console;
