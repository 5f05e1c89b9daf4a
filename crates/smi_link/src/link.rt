//! What a link is to its users, which send and receive over it.

ghost use Rattle.std.specs.Prelude.{ℕ, List, Option, ◌≡◌, ◌+◌};
ghost use Rattle.smi_link.specs.Link.{Receives, Sends, CountsReception, CountsSend, CountsForeign};

use thiserror::Error;

/// How many bytes a datagram has (docs/FORMATS.md, "Datagrams").
pub const DATAGRAM_BYTES: usize = 44;

/// How many bytes a call of [`DatagramLink::receive`] has room for: one more than a datagram has, so that
/// a longer one is seen to be too long.
pub const MOST_BYTES: usize = 45;

/// What a call of [`DatagramLink::receive`] gives.
#[derive(Clone, Copy, Debug, PartialEq, Eq)]
pub enum Reception {
    /// A whole datagram of this many bytes, or the first 45 bytes of a longer one.
    Received(usize),
    /// Nothing has come.
    Nothing,
    /// The link failed.
    Fault,
}

/// A datagram could not be sent.
#[derive(Clone, Copy, Debug, PartialEq, Eq, Error)]
#[error("the datagram could not be sent")]
pub struct LinkFault;

/// A way to other stations, which may lose, repeat and reorder datagrams but never cuts or joins them.
///
/// Contracts see four things of a link. *Received* is the list of all that `receive` gave as received,
/// and *handed* the list of the stations and datagrams for which `send` answered `Ok`; a link that does
/// not tell its datagrams has none of the two. *Failures* is a count that has no last value: each fault
/// raises it by one, and nothing else does. *Receives* is another such count: each call of `receive`
/// raises it by one, whatever it answers, and nothing else does. *Foreign* is the number that `foreign`
/// returns.
pub trait DatagramLink {
    ghost received: { Self → Option (List (List ℕ)) };

    ghost handed: { Self → Option (List (ℕ × List ℕ)) };

    ghost failures: { Self → ℕ };

    ghost receives: { Self → ℕ };

    ghost foreign: { Self → ℕ };

    /// Receives the next datagram, in the beginning of the buffer.
    ///
    /// After `Nothing` and `Fault` the rest of the buffer says nothing, and no datagram was taken. A datagram from
    /// a foreign source is received as one without bytes.
    fn receive(&mut self, buffer: &mut [u8; 45]) -> Reception
        ensures received { Receives (received self.old) (received self.new) buffer.new result }
        ensures handed { handed self.new ≡ handed self.old }
        ensures failures { CountsReception result (failures self.old) (failures self.new) }
        ensures receives { receives self.new ≡ receives self.old + 1 }
        ensures foreign { CountsForeign result (foreign self.old) (foreign self.new) };

    /// Hands a datagram on to a station.
    ///
    /// That it was handed on does not say that it arrives. After a fault it is as if it had been lost.
    fn send(&mut self, station: u16, datagram: &[u8; 44]) -> Result<(), LinkFault>
        ensures handed { Sends (handed self.old) (handed self.new) station datagram.now result }
        ensures received { received self.new ≡ received self.old }
        ensures failures { CountsSend result (failures self.old) (failures self.new) }
        ensures receives { receives self.new ≡ receives self.old }
        ensures foreign { foreign self.new ≡ foreign self.old };

    /// Returns how many datagrams from foreign sources have come, 2^64 - 1 at most.
    fn foreign(&self) -> u64
        ensures { result ≡ foreign self.now };
}
