use crate::frame::{ReceivedBytes, Sent, ToReceive};
use crate::growth::Growth;
use crate::link::{DatagramLink, LinkFault, Reception};
use smi_base::Tally;
use std::alloc::{AllocError, Global};
use std::marker::Model;

/// A link in memory, which tells its datagrams.
///
/// It gives what was put into it, in that order, and at the end `Nothing`. What is sent to its own
/// station comes back to it. It loses nothing but what [`MemoryLink::put_fault`],
/// [`MemoryLink::fail_send`] or a refused allocation make it lose. Contracts see how often memory was
/// refused to it, so that out of memory is told only if that is so.
#[derive(Drop)]
pub struct MemoryLink {
    station: u16,
    coming: Vec<ToReceive>,
    place: usize,
    sent: Vec<Sent>,
    fails_after: Option<u32>,
    faults: Tally,
    receives: Tally,
    growth: Growth,
}

impl Model for MemoryLink {
    ghost use Rattle.std.specs.Prelude.{◌≤◌, vec_len};
    ghost use Rattle.smi_link.specs.Memory.{Memory};

    ghost Value = { Memory };

    ghost view = { λ l. record {
      station = l.station;
      coming = l.coming.items;
      place = l.place;
      sent = l.sent.items;
      fails_after = l.fails_after;
      failures = l.faults.count;
      receives = l.receives.count;
      refusals = l.growth.count;
    } };

    ghost invariant = { λ l. l.place ≤ vec_len l.coming };
}

impl MemoryLink {
    ghost use Rattle.std.specs.Prelude.{◌≡◌, ◌≤◌, ◌-◌, OnOk, OnErr};
    ghost use Rattle.smi_link.specs.Memory.{opened, with_datagram, with_nothing, with_fault, failing_after, refused};

    /// Returns a link of a station, with nothing to give.
    pub fn new(alloc: Global, station: u16) -> MemoryLink
        ensures { result ≡ opened station }
    {
        MemoryLink {
            station,
            coming: Vec::new(alloc),
            place: 0,
            sent: Vec::new(alloc),
            fails_after: None,
            faults: Tally::zero(),
            receives: Tally::zero(),
            growth: Growth::new(),
        }
    }

    /// Puts a datagram after all that is to come already; of one over 44 bytes the first 45 are received.
    pub fn put(&mut self, datagram: &[u8]) -> Result<(), AllocError>
        ensures ok { OnOk result (self.new ≡ with_datagram self.old datagram.now) }
        ensures err { OnErr result (self.new ≡ refused self.old) }
    {
        let coming = ToReceive::Datagram(ReceivedBytes::of(datagram));
        self.growth.push(&mut self.coming, coming)
    }

    /// Has nothing come, once.
    pub fn put_nothing(&mut self) -> Result<(), AllocError>
        ensures ok { OnOk result (self.new ≡ with_nothing self.old) }
        ensures err { OnErr result (self.new ≡ refused self.old) }
    {
        self.growth.push(&mut self.coming, ToReceive::Nothing)
    }

    /// Has the link fail, once.
    pub fn put_fault(&mut self) -> Result<(), AllocError>
        ensures ok { OnOk result (self.new ≡ with_fault self.old) }
        ensures err { OnErr result (self.new ≡ refused self.old) }
    {
        self.growth.push(&mut self.coming, ToReceive::Fault)
    }

    /// Has the `k`-th send from now fail, counted from 1. A later call takes the place of an earlier one.
    pub fn fail_send(&mut self, k: u32)
        requires { 1 ≤ k }
        ensures { self.new ≡ failing_after self.old (k - 1) }
    {
        self.fails_after = Some(k - 1);
    }
}

impl DatagramLink for MemoryLink {
    ghost use Rattle.std.specs.Prelude.{Some, ◌≡◌, ◌+◌, IsErr, IsTrue};
    ghost use Rattle.smi_link.specs.Link.{Receives, Sends, CountsReception, CountsSend, CountsForeign};
    ghost use Rattle.smi_link.specs.Memory.{received_of, handed_of, is_planned, Gives, Takes};

    ghost received = { λ l. Some (received_of l) };

    ghost handed = { λ l. Some (handed_of l) };

    ghost failures = { λ l. l.failures };

    ghost receives = { λ l. l.receives };

    // What is put into it is of no source.
    ghost foreign = { λ _. 0 };

    fn receive(&mut self, buffer: &mut [u8; 45]) -> Reception
        ensures received { Receives (Some (received_of self.old)) (Some (received_of self.new)) buffer.new result }
        ensures handed { Some (handed_of self.new) ≡ Some (handed_of self.old) }
        ensures failures { CountsReception result self.old.failures self.new.failures }
        ensures receives { self.new.receives ≡ self.old.receives + 1 }
        ensures foreign { CountsForeign result 0 0 }
        ensures gives { Gives self.old self.new buffer.new result }
    {
        match self.next() {
            Some(ToReceive::Datagram(frame)) => {
                let count = frame.give(buffer);
                self.place += 1;
                self.receives.raise();
                Reception::Received(count)
            }
            Some(ToReceive::Nothing) => {
                self.place += 1;
                self.receives.raise();
                Reception::Nothing
            }
            Some(ToReceive::Fault) => {
                self.place += 1;
                self.receives.raise();
                self.faults.raise();
                Reception::Fault
            }
            None => {
                self.receives.raise();
                Reception::Nothing
            }
        }
    }

    fn send(&mut self, station: u16, datagram: &[u8; 44]) -> Result<(), LinkFault>
        ensures handed { Sends (Some (handed_of self.old)) (Some (handed_of self.new)) station datagram.now result }
        ensures received { Some (received_of self.new) ≡ Some (received_of self.old) }
        ensures failures { CountsSend result self.old.failures self.new.failures }
        ensures receives { self.new.receives ≡ self.old.receives }
        ensures planned { IsTrue (is_planned self.old) → IsErr result }
        ensures takes { Takes self.old self.new station datagram.now result }
    {
        let planned = self.fails_after == Some(0);
        self.fails_after = match self.fails_after {
            Some(more) => more.checked_sub(1),
            None => None,
        };
        if planned || self.hand_on(station, datagram).is_err() {
            self.faults.raise();
            return Err(LinkFault);
        }
        Ok(())
    }

    fn foreign(&self) -> u64
        ensures { result ≡ 0 }
    {
        0
    }
}

impl MemoryLink {
    ghost use Rattle.std.specs.Prelude.{◌≡◌, OnOk, OnErr, option_copied, slice_get};
    ghost use Rattle.smi_link.specs.Memory.{with_sent, refused};

    /// Returns what is to be given next.
    fn next(&self) -> Option<&ToReceive>
        ensures { option_copied result ≡ slice_get self.now.coming self.now.place }
    {
        self.coming.get(self.place)
    }

    /// Keeps what is sent, and puts what is sent to the link's own station. Both allocations are made first.
    fn hand_on(&mut self, station: u16, datagram: &[u8; 44]) -> Result<(), AllocError>
        ensures ok { OnOk result (self.new ≡ with_sent self.old station datagram.now) }
        ensures err { OnErr result (self.new ≡ refused self.old) }
    {
        let sent = Sent {
            station,
            bytes: *datagram,
        };
        if station == self.station {
            self.growth.reserve(&mut self.sent)?;
            let back = ToReceive::Datagram(ReceivedBytes::of(datagram));
            self.growth.push(&mut self.coming, back)?;
        }
        self.growth.push(&mut self.sent, sent)
    }
}
