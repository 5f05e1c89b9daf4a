use crate::link::{DATAGRAM_BYTES, DatagramLink, LinkFault, Reception};
use crate::own_queue::OwnQueue;
use crate::patience::{MOST_PATIENCE, Patience};
use crate::peer_socket::PeerSocket;
use crate::sources::{Sources, is_source, sender_of};
use smi_base::Tally;
use std::alloc::Global;
use std::io;
use std::io::ErrorKind;
use std::marker::Model;
use std::net::{Net, SocketAddr, UdpSocket};
use std::time::{Clock, Instant};

/// A link over a UDP socket (RFC 768), which tells nothing of its datagrams.
///
/// A call of `receive` waits ten milliseconds at most, and then nothing has come. Nothing has also come once ten
/// milliseconds have passed by the clock since the first call after the last `Nothing`, however many datagrams wait
/// in the socket: they are given by later calls. So a caller that receives again and again is told `Nothing` close to a
/// hundred times a second under load. If the clock can't be read, a call waits as if it were the first. A datagram
/// over 44 bytes is received as its first 45. One of a foreign source ([`Sources`]) is counted and received as one
/// without bytes, which every station refuses; at first no source is foreign. A send to a station without an address
/// is a fault.
///
/// What a station sends to itself waits in memory and not in the socket, whose buffer holds few datagrams. At most
/// 4,096 wait, and a send beyond them is a fault. After 64 of them in a row a call looks at the socket first.
///
/// Contracts see the addresses, by station from 1, from where datagrams have to come, where the last one went, what
/// waits for the station itself, how many datagrams were foreign, and how often the link was asked to receive and
/// failed.
#[derive(Drop)]
pub struct UdpLink<C: Clock + Drop> {
    socket: PeerSocket,
    peers: Vec<SocketAddr>,
    sources: Sources,
    own: OwnQueue,
    /// How many datagrams came from foreign sources.
    foreign: u64,
    faults: Tally,
    receives: Tally,
    clock: C,
    patience: Patience,
    /// How long the socket itself waits, in milliseconds.
    waits: u64,
}

impl<C: Clock + Drop> Model for UdpLink<C> {
    ghost use Rattle.smi_link.specs.Udp.{Peered};

    ghost Value = { Peered };

    ghost view = { λ l. record {
      peers = l.peers.items;
      sources = l.sources;
      went = l.socket;
      own = l.own;
      foreign = l.foreign;
      failures = l.faults.count;
      receives = l.receives.count;
    } };
}

impl<C: Clock + Drop> UdpLink<C> {
    ghost use Rattle.std.specs.Prelude.{None, ◌≡◌, ◌≢◌, ◌≤◌, OnOk, IfOk, IfSome, length, slice_get};
    ghost use Rattle.smi_link.specs.Link.{CountsForeign, Receives};
    ghost use Rattle.smi_link.specs.Own.{nothing_own};
    ghost use Rattle.smi_link.specs.Sources.{IsSource};
    ghost use Rattle.smi_link.specs.Udp.{GivesOwn, HasAddress, address_of, foreign_after, sender_address, unsent};
    ghost use Rattle.smi_link.specs.declared.sources.Sources.TheVariants as sources;

    /// Makes a station's link over a socket. All stations, by number from 1, are reached at these addresses. Station 0
    /// is none, and sends nothing to itself.
    ///
    /// Its error is that of the socket, which then is closed.
    pub fn over(
        alloc: Global,
        socket: UdpSocket,
        clock: C,
        station: u16,
        peers: Vec<SocketAddr>,
    ) -> io::Result<UdpLink<C>>
        ensures peers { IfOk result (λ link. link.peers ≡ peers.items) }
        ensures sources { IfOk result (λ link. link.sources ≡ sources.Any) }
        ensures went { IfOk result (λ link. link.went ≡ unsent) }
        ensures own { IfOk result (λ link. link.own ≡ nothing_own station) }
        ensures foreign { IfOk result (λ link. link.foreign ≡ 0) }
        ensures failures { IfOk result (λ link. link.failures ≡ 0) }
        ensures receives { IfOk result (λ link. link.receives ≡ 0) }
    {
        let socket = PeerSocket::new(socket);
        socket.wait_at_most(MOST_PATIENCE)?;
        Ok(UdpLink {
            socket,
            peers,
            sources: Sources::Any,
            own: OwnQueue::new(alloc, station),
            foreign: 0,
            faults: Tally::zero(),
            receives: Tally::zero(),
            clock,
            patience: Patience::new(),
            waits: MOST_PATIENCE,
        })
    }

    /// Opens a link of a station at its own address, the `station`-th of these from 1.
    ///
    /// Its error is that the station has no address, or that it could not be had.
    pub fn open<R: Net + AllocGlobal>(
        rt: &R,
        clock: C,
        station: u16,
        peers: Vec<SocketAddr>,
    ) -> io::Result<UdpLink<C>>
        ensures known { OnOk result (HasAddress peers.items station) }
        ensures peers { IfOk result (λ link. link.peers ≡ peers.items) }
        ensures sources { IfOk result (λ link. link.sources ≡ sources.Any) }
        ensures went { IfOk result (λ link. link.went ≡ unsent) }
        ensures own { IfOk result (λ link. link.own ≡ nothing_own station) }
        ensures foreign { IfOk result (λ link. link.foreign ≡ 0) }
        ensures failures { IfOk result (λ link. link.failures ≡ 0) }
        ensures receives { IfOk result (λ link. link.receives ≡ 0) }
    {
        let own = usize::from(station).checked_sub(1);
        let Some(address) = own.and_then(|place| peers.get(place)) else {
            return Err(io::Error::from(ErrorKind::InvalidInput));
        };
        let socket = UdpSocket::bind(rt, *address)?;
        UdpLink::over(rt.alloc(), socket, clock, station, peers)
    }

    /// Returns the address of a station.
    fn address_of(&self, station: u16) -> Option<SocketAddr>
        ensures { result ≡ address_of self.now.peers station }
    {
        let place = usize::from(station).checked_sub(1)?;
        self.peers.get(place).copied()
    }

    /// Receives from now on only what comes from there, whatever it names as its sender.
    pub fn accept_from(&mut self, sources: Sources)
        ensures { self.new ≡ record self.old { sources = sources } }
    {
        self.sources = sources;
    }

    /// Returns how many bytes of a datagram from there are received: all, or none. One that has bytes is counted then;
    /// one that has none says nothing, and a node wakes itself by it.
    fn admitted(&mut self, datagram: &[u8], from: SocketAddr) -> usize
        ensures own { IsSource self.old.sources (sender_address self.old.peers datagram.now) from
            → (result ≡ length datagram.now) × (self.new.foreign ≡ self.old.foreign) }
        ensures foreign { ¬ (IsSource self.old.sources (sender_address self.old.peers datagram.now) from)
            → (result ≡ 0) × (self.new.foreign ≡ foreign_after datagram.now self.old.foreign) }
        ensures counts { CountsForeign (Reception.Received result) self.old.foreign self.new.foreign }
        ensures most { result ≤ length datagram.now }
        ensures rest { self.new ≡ record self.old { foreign = self.new.foreign } }
    {
        let address = match sender_of(datagram) {
            Some(sender) => self.address_of(sender),
            None => None,
        };
        if is_source(self.sources, address, from) {
            return datagram.len();
        }
        if !datagram.is_empty() {
            self.foreign = self.foreign.saturating_add(1);
        }
        0
    }

    /// Returns how long this call may wait, in milliseconds.
    fn patience(&mut self) -> u64
        ensures { self.new ≡ self.old }
    {
        match Instant::now(&self.clock) {
            Ok(now) => self.patience.left(now),
            Err(_) => MOST_PATIENCE,
        }
    }

    /// Has the socket wait no longer than this many milliseconds from now on, or as long as before if that fails.
    fn wait_at_most(&mut self, waits: u64)
        ensures { self.new ≡ self.old }
    {
        if self.waits != waits && self.socket.wait_at_most(waits).is_ok() {
            self.waits = waits;
        }
    }

    /// Receives the next datagram of the socket. Waits for it this many milliseconds at most, and not at all if one of
    /// the station's own waits.
    fn receive_from_socket(
        &mut self,
        buffer: &mut [u8; 45],
        patience: u64,
    ) -> io::Result<(usize, SocketAddr)>
        ensures same { self.new ≡ self.old }
        ensures most { IfOk result (λ r. r.0 ≤ 45) }
    {
        if self.own.is_empty() {
            self.wait_at_most(patience);
            self.socket.receive(buffer)
        } else {
            self.socket.receive_at_once(buffer)
        }
    }

    /// Gives the oldest of the station's own datagrams. If none waits, nothing has come, and the patience begins again.
    fn own_or_nothing(&mut self, buffer: &mut [u8; 45]) -> Reception
        ensures own { GivesOwn self.old.own.waiting self.new.own.waiting buffer.new result }
        ensures came { Receives None None buffer.new result }
        ensures faultless { result ≢ Reception.Fault }
        ensures station { self.new.own.station ≡ self.old.own.station }
        ensures rest { self.new ≡ record self.old { own = self.new.own } }
    {
        if self.own.give(buffer) {
            Reception::Received(DATAGRAM_BYTES)
        } else {
            self.nothing()
        }
    }

    /// Begins the patience again, because nothing has come.
    fn nothing(&mut self) -> Reception
        ensures nothing { result ≡ Reception.Nothing }
        ensures same { self.new ≡ self.old }
    {
        self.patience = Patience::new();
        Reception::Nothing
    }
}

impl<C: Clock + Drop> DatagramLink for UdpLink<C> {
    ghost use Rattle.std.specs.Prelude.{None, ℕ, List, ◌≡◌, ◌⊎◌, ◌<◌, ◌+◌, length, OnOk, OnErr, IsTrue};
    ghost use Rattle.smi_link.specs.Link.{Receives, Sends, CountsReception, CountsSend, CountsForeign};
    ghost use Rattle.smi_link.specs.Own.{is_given, most_waiting, refused_own};
    ghost use Rattle.smi_link.specs.Udp.{Gave, GivesOwn, HasAddress, outward_address, own_after_send, went_to};

    ghost received = { λ _. None };

    ghost handed = { λ _. None };

    ghost failures = { λ l. l.failures };

    ghost receives = { λ l. l.receives };

    ghost foreign = { λ l. l.foreign };

    fn receive(&mut self, buffer: &mut [u8; 45]) -> Reception
        ensures received { Receives None None buffer.new result }
        ensures failures { CountsReception result self.old.failures self.new.failures }
        ensures receives { self.new.receives ≡ self.old.receives + 1 }
        ensures foreign { CountsForeign result self.old.foreign self.new.foreign }
        ensures own { GivesOwn self.old.own.waiting self.new.own.waiting buffer.new result }
        // Its own comes first, 64 times in a row; or its patience has ended.
        ensures own_first { IsTrue (is_given self.old.own) → (result ≡ Reception.Nothing)
            ⊎ Gave self.old.own.waiting self.new.own.waiting buffer.new result }
        ensures station { self.new.own.station ≡ self.old.own.station }
        ensures peers { self.new.peers ≡ self.old.peers }
        ensures sources { self.new.sources ≡ self.old.sources }
        ensures went { self.new.went ≡ self.old.went }
    {
        self.receives.raise();
        let patience = self.patience();
        if patience == 0 {
            return self.nothing();
        }
        if self.own.give(buffer) {
            return Reception::Received(DATAGRAM_BYTES);
        }
        match self.receive_from_socket(buffer, patience) {
            Ok((count, from)) => Reception::Received(self.admitted(&buffer[..count], from)),
            Err(error) if error.kind() == ErrorKind::WouldBlock => self.own_or_nothing(buffer),
            Err(_) => {
                self.faults.raise();
                Reception::Fault
            }
        }
    }

    fn send(&mut self, station: u16, datagram: &[u8; 44]) -> Result<(), LinkFault>
        ensures failures { CountsSend result self.old.failures self.new.failures }
        ensures receives { self.new.receives ≡ self.old.receives }
        ensures foreign { self.new.foreign ≡ self.old.foreign }
        // A datagram goes to the address of the station that it is for, and nowhere else, and one to itself to none.
        ensures went { self.new.went
            ≡ went_to (outward_address self.old.own self.old.peers station) self.old.went }
        ensures kept { OnOk result (self.new.own ≡ own_after_send self.old.own station datagram.now) }
        ensures unkept { OnErr result (self.new.own.waiting ≡ self.old.own.waiting) }
        // One to itself is taken, unless too many wait or memory was refused.
        ensures own { HasAddress self.old.peers station → station ≡ self.old.own.station
            → length self.old.own.waiting < most_waiting
            → OnErr result (self.new.own ≡ refused_own self.old.own) }
        ensures station { self.new.own.station ≡ self.old.own.station }
        ensures peers { self.new.peers ≡ self.old.peers }
        ensures sources { self.new.sources ≡ self.old.sources }
        ensures known { OnOk result (HasAddress self.old.peers station) }
    {
        let sent = match self.address_of(station) {
            Some(_) if self.own.is_of(station) => self.own.push(datagram).is_ok(),
            Some(address) => self.socket.send_to(datagram, address),
            None => false,
        };
        if sent {
            return Ok(());
        }
        self.faults.raise();
        Err(LinkFault)
    }

    fn foreign(&self) -> u64
        ensures { result ≡ self.now.foreign }
    {
        self.foreign
    }
}
