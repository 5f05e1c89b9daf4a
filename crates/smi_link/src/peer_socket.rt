//! A socket that remembers the address of its last datagram.

use smi_base::Tally;
use std::io;
use std::marker::Model;
use std::net::{SocketAddr, UdpSocket};
use std::snapshot::Snapshot;
use std::time::Duration;

/// A UDP socket. Contracts see how often it was asked to send, and to which address at last.
///
/// That they see the truth rests on the short body of `send_to`, which alone sends.
#[derive(Drop)]
pub(crate) struct PeerSocket {
    socket: UdpSocket,
    sends: Tally,
    /// The address of the last send, which clauses alone read.
    last: Snapshot<Option<SocketAddr>>,
}

impl Model for PeerSocket {
    ghost use Rattle.smi_link.specs.Udp.{Went};

    ghost Value = { Went };

    ghost view = { λ s. record { sends = s.sends.count; last = s.last.value } };
}

impl PeerSocket {
    ghost use Rattle.std.specs.Prelude.{◌≡◌, ◌≤◌, IfOk, Some};
    ghost use Rattle.smi_link.specs.Udp.{unsent, went_to};

    /// Wraps a socket over which nothing was sent.
    pub(crate) fn new(socket: UdpSocket) -> PeerSocket
        ensures { result ≡ unsent }
    {
        PeerSocket {
            socket,
            sends: Tally::zero(),
            last: Snapshot::of(&None),
        }
    }

    /// Sends a datagram to an address, and returns whether the socket took it.
    pub(crate) fn send_to(&mut self, datagram: &[u8; 44], address: SocketAddr) -> bool
        ensures { self.new ≡ went_to (Some address) self.old }
    {
        self.sends.raise();
        self.last = Snapshot::of(&Some(address));
        self.socket.send_to(datagram, address).is_ok()
    }

    /// Receives the next datagram, or as many of its bytes as the buffer has room for, and returns how many they are
    /// and what address they are from.
    pub(crate) fn receive(&self, buffer: &mut [u8; 45]) -> io::Result<(usize, SocketAddr)>
        ensures { IfOk result (λ r. r.0 ≤ 45) }
    {
        self.socket.recv_from(buffer)
    }

    /// Receives the next datagram as [`PeerSocket::receive`] does, and does not wait for one.
    pub(crate) fn receive_at_once(&self, buffer: &mut [u8; 45]) -> io::Result<(usize, SocketAddr)>
        ensures { IfOk result (λ r. r.0 ≤ 45) }
    {
        self.socket.set_nonblocking(true)?;
        let came = self.socket.recv_from(buffer);
        self.socket.set_nonblocking(false)?;
        came
    }

    /// Lets the socket wait no longer than this many milliseconds for a datagram.
    pub(crate) fn wait_at_most(&self, milliseconds: u64) -> io::Result<()> {
        self.socket
            .set_read_timeout(Some(Duration::from_millis(milliseconds)))
    }
}
