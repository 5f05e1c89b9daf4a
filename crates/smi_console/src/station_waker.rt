//! Wakes the station's thread when the thread of the sessions has given an order.
//!
//! `peers` makes the waker beside the station's link, and `console_loop` calls it. The station's thread waits at its
//! socket alone, so the waker sends a datagram to that socket (docs/DECISIONS.md).

use std::io;
use std::net::{Net, SocketAddr, UdpSocket};

/// A sender of datagrams without bytes to the node's own socket.
///
/// Every station refuses such a datagram, and nothing changes by it. But the turn that receives it looks at the seats,
/// as every turn does.
#[derive(Drop)]
pub(crate) struct StationWaker {
    /// The socket over which it sends, at any free port.
    socket: UdpSocket,
    /// The address of the station's socket, to which it sends.
    own: SocketAddr,
}

impl StationWaker {
    /// Makes a waker of the station whose socket has this address. Its own socket has any free port.
    pub(crate) fn new<R: Net>(rt: &R, own: SocketAddr) -> io::Result<StationWaker> {
        let socket = UdpSocket::bind(rt, "0.0.0.0:0")?;
        Ok(StationWaker { socket, own })
    }

    /// Wakes the station's thread. If that fails, the thread wakes by itself within ten milliseconds, because its link
    /// waits no longer for a datagram.
    pub(crate) fn wake(&self) {
        let _ = self.socket.send_to(&[], self.own);
    }
}
