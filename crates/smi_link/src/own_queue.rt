//! The datagrams that a station sends to itself.

ghost use Rattle.std.specs.Prelude.{◌≡◌, take};

use crate::growth::Growth;
use std::alloc::{AllocError, Global};
use std::collections::VecDeque;
use std::marker::Model;

/// The most datagrams that may wait: some thirty for each domain that a tree can have.
const MOST_WAITING: usize = 4_096;

/// How many are given one after the other before the socket is looked at.
const MOST_IN_A_ROW: u32 = 64;

/// Puts a datagram into the beginning of a buffer.
fn put_whole(buffer: &mut [u8; 45], datagram: &[u8; 44])
    ensures { take 44 buffer.new ≡ datagram.now }
{
    buffer[..44].copy_from_slice(datagram);
}

/// The datagrams that a station sent to itself and has not received yet, the oldest first.
///
/// They stay in memory. The buffer of a socket holds few datagrams, and a station of many domains would lose its own
/// there. Others are heard between them: after 64 in a row none is given once.
#[derive(Drop)]
pub(crate) struct OwnQueue {
    station: u16,
    waiting: VecDeque<[u8; 44]>,
    in_a_row: u32,
    growth: Growth,
}

impl Model for OwnQueue {
    ghost use Rattle.smi_link.specs.Own.{Own};

    ghost Value = { Own };

    ghost view = { λ q. record {
      station = q.station;
      waiting = q.waiting.items;
      in_a_row = q.in_a_row;
      refusals = q.growth.count;
    } };
}

impl OwnQueue {
    ghost use Rattle.std.specs.Prelude.{◌≡◌, ◌≤◌, ◌<◌, ◌==◌, ◌∷◌, take, length, IsTrue, IsFalse, IsErr, OnOk, OnErr};
    ghost use Rattle.smi_link.specs.Own.{nothing_own, is_given, with_own, after_own, refused_own, most_waiting};

    /// Makes the empty queue of a station. Station 0 is none.
    pub(crate) fn new(alloc: Global, station: u16) -> OwnQueue
        ensures { result ≡ nothing_own station }
    {
        OwnQueue {
            station,
            waiting: VecDeque::new(alloc),
            in_a_row: 0,
            growth: Growth::new(),
        }
    }

    /// Returns true if these are the datagrams of this station.
    pub(crate) fn is_of(&self, station: u16) -> bool
        ensures { result ≡ (station == self.now.station) }
    {
        station == self.station
    }

    /// Returns true if none waits.
    pub(crate) fn is_empty(&self) -> bool
        ensures { result ≡ (length self.now.waiting == 0) }
    {
        self.waiting.is_empty()
    }

    /// Puts a datagram after all that wait.
    ///
    /// Its error is that 4,096 wait, or that memory was refused; the same datagrams wait then.
    pub(crate) fn push(&mut self, datagram: &[u8; 44]) -> Result<(), AllocError>
        ensures ok { OnOk result (self.new ≡ with_own self.old datagram.now) }
        ensures full { most_waiting ≤ length self.old.waiting → IsErr result }
        ensures unchanged { most_waiting ≤ length self.old.waiting → self.new ≡ self.old }
        ensures refused { length self.old.waiting < most_waiting → OnErr result (self.new ≡ refused_own self.old) }
        ensures err { OnErr result (self.new.waiting ≡ self.old.waiting) }
    {
        if self.waiting.len() >= MOST_WAITING {
            return Err(AllocError);
        }
        self.growth.push_back(&mut self.waiting, *datagram)
    }

    /// Gives the oldest in the beginning of a buffer, if one waits and fewer than 64 were given in a row. Returns
    /// whether one was given.
    pub(crate) fn give(&mut self, buffer: &mut [u8; 45]) -> bool
        ensures given { result ≡ is_given self.old }
        ensures left { self.new ≡ after_own self.old }
        ensures station { self.new.station ≡ self.old.station }
        ensures kept { IsFalse result → self.new.waiting ≡ self.old.waiting }
        ensures bytes { IsTrue result → self.old.waiting ≡ take 44 buffer.new ∷ self.new.waiting }
    {
        if self.in_a_row >= MOST_IN_A_ROW {
            self.in_a_row = 0;
            return false;
        }
        match self.waiting.pop_front() {
            Some(datagram) => {
                put_whole(buffer, &datagram);
                self.in_a_row += 1;
                true
            }
            None => {
                self.in_a_row = 0;
                false
            }
        }
    }
}
