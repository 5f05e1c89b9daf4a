//! Datagrams over loopback and in memory, and a caller over any link.

ghost use Rattle.std.specs.Prelude.{ℕ, ◌≡◌, ◌++◌, ◌∷◌, [], List, Some, IfSome, IsTrue};

mod loopback;

use smi_link::{DatagramLink, LinkFault, MemoryLink, Reception, UdpLink};
use std::alloc::{AllocError, Global};
use std::io;
use std::net::{SocketAddr, UdpSocket};
use std::test::Fail;

/// Sends the next datagram on to a station, if one has come whole. Returns whether it did.
fn pass_on<L: DatagramLink>(link: &mut L, station: u16) -> bool
    ensures { IsTrue result → IfSome (L.received link.old)
        (λ came. IfSome (L.handed link.old) (λ went. (datagram : List ℕ)
        × (L.received link.new ≡ Some (came ++ datagram ∷ []))
        × (L.handed link.new ≡ Some (went ++ (station, datagram) ∷ [])))) }
{
    let mut buffer = [0u8; 45];
    if link.receive(&mut buffer) != Reception::Received(44) {
        return false;
    }
    let mut datagram = [0u8; 44];
    datagram.copy_from_slice(&buffer[..44]);
    match link.send(station, &datagram) {
        Ok(()) => true,
        Err(_) => false,
    }
}

/// Returns true if a buffer begins with a datagram of this byte alone.
fn begins_with(buffer: &[u8; 45], byte: u8) -> bool {
    &buffer[..44] == [byte; 44].as_slice()
}

fn begins_with_eights(read: &[u8; 100]) -> bool {
    &read[..44] == [8u8; 44].as_slice()
}

fn begins_with_sevens(buffer: &[u8; 45]) -> bool {
    &buffer[..43] == [7u8; 43].as_slice()
}

/// Returns what comes of a datagram, and whether it begins with sevens.
fn received_of<L: DatagramLink>(
    link: &mut L,
    there: &UdpSocket,
    here: SocketAddr,
    datagram: &[u8],
) -> io::Result<(Reception, bool)> {
    let mut buffer = [0u8; 45];
    there.send_to(datagram, here)?;
    let reception = link.receive(&mut buffer);
    Ok((reception, begins_with_sevens(&buffer)))
}

/// Returns what comes of datagrams of 44, 43, 45 and 2,000 sevens.
fn sevens_received<L: DatagramLink>(
    link: &mut L,
    there: &UdpSocket,
    here: SocketAddr,
) -> io::Result<[(Reception, bool); 4]> {
    let long = [7u8; 2000];
    Ok([
        received_of(link, there, here, &long[..44])?,
        received_of(link, there, here, &long[..43])?,
        received_of(link, there, here, &long[..45])?,
        received_of(link, there, here, &long[..])?,
    ])
}

/// Returns how many bytes come from a link to a socket, and whether they are eights.
fn eights_received<L: DatagramLink>(link: &mut L, there: &UdpSocket) -> io::Result<(usize, bool)> {
    let mut read = [0u8; 100];
    if link.send(1, &[8; 44]) != Ok(()) || !pass_on(link, 2) {
        return Ok((0, false));
    }
    let (count, _) = there.recv_from(&mut read)?;
    Ok((count, begins_with_eights(&read)))
}

/// Returns what a link answers to a send to a station that it has no address of.
fn sent_to_strangers<L: DatagramLink>(link: &mut L) -> [Result<(), LinkFault>; 2] {
    [link.send(3, &[8; 44]), link.send(0, &[8; 44])]
}

/// Returns what a link answers to a send to a socket that is closed, and what it receives then.
fn sent_to_nobody<L: DatagramLink>(link: &mut L) -> (Result<(), LinkFault>, Reception) {
    let mut buffer = [0u8; 45];
    (link.send(2, &[8; 44]), link.receive(&mut buffer))
}

/// Returns what a link receives before anything is sent.
fn received_first<L: DatagramLink>(link: &mut L) -> Reception {
    let mut buffer = [0u8; 45];
    link.receive(&mut buffer)
}

/// Returns the link of station 1 of two, at addresses of this machine; the second is another socket's.
fn udp_link(
    rt: &HostRuntime,
    second: SocketAddr,
) -> io::Result<(UdpLink<&HostRuntime>, SocketAddr)> {
    let socket = UdpSocket::bind(rt, "127.0.0.1:0")?;
    let here = socket.local_addr()?;
    let mut peers = Vec::new(rt.alloc());
    peers.push(here)?;
    peers.push(second)?;
    let link = UdpLink::over(rt.alloc(), socket, rt, 1, peers)?;
    Ok((link, here))
}

#[test]
fn whole_datagrams_over_udp(rt: HostRuntime) -> Result<(), Fail> {
    let there = UdpSocket::bind(&rt, "127.0.0.1:0")?;
    let (mut link, here) = udp_link(&rt, there.local_addr()?)?;
    let first = received_first(&mut link);
    let sevens = sevens_received(&mut link, &there, here);
    let eights = eights_received(&mut link, &there);
    let strangers = sent_to_strangers(&mut link);
    drop(there);
    let nobody = sent_to_nobody(&mut link);
    drop(link);
    let (whole, long) = (Reception::Received(44), Reception::Received(45));
    assert_eq!(rt; first, Reception::Nothing);
    assert_eq!(rt;
        sevens?,
        [
            (whole, true),
            (Reception::Received(43), true),
            (long, true),
            (long, true)
        ]
    );
    assert_eq!(rt; eights?, (44, true));
    assert_eq!(rt; strangers, [Err(LinkFault); 2]);
    assert_eq!(rt; nobody, (Ok(()), Reception::Nothing));
    Ok(())
}

/// Returns a link in memory into which a datagram, nothing, a fault, a long datagram and an empty one were put.
fn five_put(alloc: Global) -> Result<MemoryLink, AllocError> {
    let mut link = MemoryLink::new(alloc, 1);
    link.put(&[1; 44])?;
    link.put_nothing()?;
    link.put_fault()?;
    link.put(&[2; 2000])?;
    link.put(&[])?;
    Ok(link)
}

/// Returns what is received of these, in turn, once the first was passed on; and whether the long one was cut to 45
/// bytes.
fn received_in_turn(link: &mut MemoryLink) -> ([Reception; 5], bool) {
    let mut buffer = [0u8; 45];
    if !pass_on(link, 2) {
        return ([Reception::Fault; 5], false);
    }
    let (nothing, fault) = (link.receive(&mut buffer), link.receive(&mut buffer));
    let long = link.receive(&mut buffer);
    let is_cut = buffer == [2; 45];
    let (empty, last) = (link.receive(&mut buffer), link.receive(&mut buffer));
    ([nothing, fault, long, empty, last], is_cut)
}

/// Returns what a link answers to three sends of which the second is planned to fail.
fn sent_in_turn(link: &mut MemoryLink) -> [Result<(), LinkFault>; 3] {
    link.fail_send(2);
    [
        link.send(1, &[3; 44]),
        link.send(1, &[4; 44]),
        link.send(2, &[5; 44]),
    ]
}

/// Returns what comes back of what the link sent to its own station, and whether it is that.
fn received_of_its_own(link: &mut MemoryLink) -> ([Reception; 2], bool) {
    let mut buffer = [0u8; 45];
    let first = link.receive(&mut buffer);
    let is_own = begins_with(&buffer, 3);
    ([first, link.receive(&mut buffer)], is_own)
}

#[test]
fn in_the_order_in_which_they_were_put(rt: HostRuntime) -> Result<(), Fail> {
    let mut link = five_put(rt.alloc())?;
    let put = received_in_turn(&mut link);
    let sent = sent_in_turn(&mut link);
    let own = received_of_its_own(&mut link);
    drop(link);
    let (nothing, whole) = (Reception::Nothing, Reception::Received(44));
    let wanted = [
        nothing,
        Reception::Fault,
        Reception::Received(45),
        Reception::Received(0),
        nothing,
    ];
    assert_eq!(rt; put, (wanted, true));
    assert_eq!(rt; sent, [Ok(()), Err(LinkFault), Ok(())]);
    assert_eq!(rt; own, ([whole, nothing], true));
    Ok(())
}
