//! How datagrams go from station to station.
//!
//! A [`DatagramLink`] gives what has come and hands on what is to go, whole datagrams in both ways. It
//! may lose, repeat and reorder them, and it may fail; it never cuts two from one nor makes one of two.
//! [`UdpLink`] is the link of a running node, [`MemoryLink`] one whose datagrams a test puts in and
//! reads.
//!
//! The layer above may rely on this: each fault raises the link's count of failures by one, and nothing
//! else does; each call of `receive` raises the count of receives by one, and nothing else does; and where a
//! link tells its datagrams, as `MemoryLink` does, what it received and what it handed on grow by just what
//! the calls gave and took. A caller over any link is proved once, from the trait.
//!
//! # How it is proved
//!
//! `specs/Link` says what any link shows: `Receives` and `Sends`, by cases on the answer. A caller over any link is
//! proved from the trait: the test `pass_on` of `smi_part_tests` receives a datagram, sends it on, and ensures for
//! every link that tells that both lists grow by that one datagram.
//!
//! `specs/Memory` has the state of a link in memory and what each call makes of it: `with_datagram`, `with_nothing`,
//! `with_fault`, `failing_after`, `refused`, `Gives`, `Takes`. `MemoryLink` ensures these beside the trait's clauses,
//! so a caller who knows that it is in memory knows exactly what it gives. What is *received* is the datagrams among
//! what it gave, so it grows by one when a datagram is given (`proofs/Given`).
//!
//! A `MemoryLink` grows its lists by `Growth` alone, whose field is private. `push` and `reserve` raise its count
//! where std's `Vec` refused to grow, and nothing else can. So a `send` that fails without a plan, and a `put` that
//! fails, have raised it (`fails`, `refused`), and a body that gives up by itself is refused. What `Growth` says of
//! the refusal rests on two short bodies, each one `if` over the call of `Vec`.
//!
//! The counts are `Tally` of `smi_base`. A tally remembers its last step as contracts see it (std's `Snapshot`), and
//! a step remembers the one before it in the same way. So it has no bytes, its count has no end, and nothing of it is
//! proved by hand.
//!
//! Of `UdpLink` contracts see the addresses, where datagrams went, and its counts (`specs/Udp`):
//!
//! - `open` and `over` keep the addresses that they are given and begin with no failure. A link is opened only for a
//!   station that has an address.
//! - `receive` and `send` leave the addresses unchanged. A datagram goes to the address of the station that it is for,
//!   and nowhere else: `PeerSocket`, which alone has the socket, remembers the address of its last send, and how often
//!   it sent, as contracts see them. What it remembers rests on one short body, `PeerSocket::send_to`.
//! - What is sent to the link's own station goes to no address and waits in memory (`OwnQueue`, `specs/Own`): a receive
//!   gives the oldest whole, or leaves all. A queue grows by `Growth` too, so a send that refuses one has its cause.
//! - How many milliseconds a call may still wait is `left_at` (`specs/Patience`), of when the link's patience began
//!   and of the moment that its clock gave.
//! - A datagram of a foreign source is counted and received as no bytes (`admitted`, `specs/Sources`): the link
//!   receives what its socket gives through `admitted` alone, in one short line. Contracts see no datagram of a socket.
//! - Not claimed: any byte, that a datagram arrives, what the clock says, that `receive` returns.
#![tactic(auto)]

mod frame;
mod growth;
mod link;
mod memory;
mod own_queue;
mod patience;
mod peer_socket;
mod sources;
mod udp;

pub use link::{DATAGRAM_BYTES, DatagramLink, LinkFault, MOST_BYTES, Reception};
pub use memory::MemoryLink;
pub use sources::Sources;
pub use udp::UdpLink;
