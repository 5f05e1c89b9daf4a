//! The sources that a datagram must have to be received.

ghost use Rattle.std.specs.Prelude.{◌≡◌, ◌≤◌};
ghost use Rattle.std.specs.Bool.{Decides};
ghost use Rattle.smi_link.specs.Sources.{IsSource, sender_of};

use smi_base::u16_at;
use std::net::SocketAddr;

/// The sources that a datagram must have to be received.
///
/// Anybody who reaches the port of a station can write any sender into a datagram, but only a network that lets him can
/// give it a false source.
#[derive(Clone, Copy, PartialEq, Eq)]
pub enum Sources {
    /// From the host of the station that it names as its sender, at any port.
    Host,
    /// From the address of that station, port included.
    Exact,
    /// From anywhere.
    Any,
}

/// Returns the station that a datagram names as its sender, if it is long enough to name one (docs/FORMATS.md,
/// "Datagrams").
pub(crate) fn sender_of(datagram: &[u8]) -> Option<u16>
    ensures { result ≡ sender_of datagram.now }
{
    if datagram.len() < 6 {
        None
    } else {
        Some(u16_at(datagram, 4))
    }
}

/// Returns true if a datagram may come from there, whose sender has this address, or none.
pub(crate) fn is_source(sources: Sources, address: Option<SocketAddr>, from: SocketAddr) -> bool
    ensures { Decides result (IsSource sources address from) }
{
    match (sources, address) {
        (Sources::Any, _) => true,
        (Sources::Host, Some(address)) => address.ip() == from.ip(),
        (Sources::Exact, Some(address)) => address == from,
        (Sources::Host | Sources::Exact, None) => false,
    }
}
