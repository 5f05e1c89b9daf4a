//! What a link in memory holds.

use crate::link::MOST_BYTES;
use std::marker::Model;

/// The bytes of a datagram, as far as they are received. Contracts see their list.
#[derive(Drop)]
pub(crate) struct ReceivedBytes {
    bytes: [u8; 45],
    count: usize,
}

impl Model for ReceivedBytes {
    ghost use Rattle.std.specs.Prelude.{ℕ, List, ◌≡◌, ◌≤◌, take, length};

    ghost Value = { List ℕ };

    ghost view = { λ f. take f.count f.bytes };

    ghost invariant = { λ f. (length f.bytes ≡ 45) × (f.count ≤ 45) };
}

impl ReceivedBytes {
    ghost use Rattle.std.specs.Prelude.{◌≡◌, ◌≤◌, take, length};
    ghost use Rattle.smi_link.specs.Link.{most_bytes};

    /// Returns a datagram as it is received: whole, or the first 45 bytes of a longer one.
    pub(crate) fn of(datagram: &[u8]) -> ReceivedBytes
        ensures { result ≡ take most_bytes datagram.now }
    {
        let mut bytes = [0u8; 45];
        let count = datagram.len().min(MOST_BYTES);
        bytes[..count].copy_from_slice(&datagram[..count]);
        ReceivedBytes { bytes, count }
    }

    /// Puts the bytes into the beginning of a buffer; how many they are.
    pub(crate) fn give(&self, buffer: &mut [u8; 45]) -> usize
        ensures bytes { take result buffer.new ≡ self.now }
        ensures count { result ≡ length self.now }
        ensures few { result ≤ most_bytes }
    {
        *buffer = self.bytes;
        self.count
    }
}

/// What a link is to give.
#[derive(Drop)]
pub(crate) enum ToReceive {
    Datagram(ReceivedBytes),
    Nothing,
    Fault,
}

/// A datagram that was sent to a station.
#[derive(Clone, Copy)]
pub(crate) struct Sent {
    pub(crate) station: u16,
    pub(crate) bytes: [u8; 44],
}
