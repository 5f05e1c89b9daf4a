//! Links at addresses of this machine.

use super::begins_with;
use smi_link::{DatagramLink, Reception, UdpLink};
use std::alloc::{AllocError, Global};
use std::cell::Cell;
use std::io;
use std::net::{SocketAddr, UdpSocket};
use std::test::Fail;
use std::time::{Clock, Duration, Instant};

/// Returns two addresses that nobody has.
fn free_addresses(rt: &HostRuntime) -> io::Result<(SocketAddr, SocketAddr)> {
    let one = UdpSocket::bind(rt, "127.0.0.1:0")?;
    let other = UdpSocket::bind(rt, "127.0.0.1:0")?;
    Ok((one.local_addr()?, other.local_addr()?))
}

fn peers(
    alloc: Global,
    first: SocketAddr,
    second: SocketAddr,
) -> Result<Vec<SocketAddr>, AllocError> {
    let mut peers = Vec::new(alloc);
    peers.push(first)?;
    peers.push(second)?;
    Ok(peers)
}

/// Opens the link of a station of two.
fn open(
    rt: &HostRuntime,
    station: u16,
    first: SocketAddr,
    second: SocketAddr,
) -> io::Result<UdpLink<&HostRuntime>> {
    let peers = peers(rt.alloc(), first, second)?;
    UdpLink::open(rt, rt, station, peers)
}

/// Returns what a link of station 2 receives of a socket at station 1's address, and what that receives of the link:
/// how many bytes, and from which address.
fn exchanged<L: DatagramLink>(
    link: &mut L,
    there: &UdpSocket,
    second: SocketAddr,
) -> io::Result<((Reception, bool), (usize, bool))> {
    let mut buffer = [0u8; 45];
    there.set_read_timeout(Some(Duration::from_secs(5)))?;
    there.send_to(&[9; 44], second)?;
    let came = link.receive(&mut buffer);
    let is_nines = begins_with(&buffer, 9);
    if link.send(1, &[8; 44]) != Ok(()) {
        return Ok(((came, is_nines), (0, false)));
    }
    let (count, from) = there.recv_from(&mut buffer)?;
    let is_its = from == second && begins_with(&buffer, 8);
    Ok(((came, is_nines), (count, is_its)))
}

/// Returns true if a socket can be bound to an address.
fn is_free(rt: &HostRuntime, address: SocketAddr) -> bool {
    UdpSocket::bind(rt, address).is_ok()
}

#[test]
fn opened_at_its_own_address(rt: HostRuntime) -> Result<(), Fail> {
    let (first, second) = free_addresses(&rt)?;
    let there = UdpSocket::bind(&rt, first)?;
    let mut link = open(&rt, 2, first, second)?;
    let is_free_meanwhile = is_free(&rt, second);
    let found = exchanged(&mut link, &there, second);
    drop(link);
    assert_eq!(rt; (is_free_meanwhile, is_free(&rt, second)), (false, true));
    assert_eq!(rt; found?, ((Reception::Received(44), true), (44, true)));
    Ok(())
}

/// Returns true if a link of a station can be opened.
fn can_be_opened(rt: &HostRuntime, station: u16, first: SocketAddr, second: SocketAddr) -> bool {
    open(rt, station, first, second).is_ok()
}

#[test]
fn not_opened_where_the_address_is_in_use(rt: HostRuntime) -> Result<(), Fail> {
    let (first, second) = free_addresses(&rt)?;
    let there = UdpSocket::bind(&rt, first)?;
    let meanwhile = [
        can_be_opened(&rt, 1, first, second),
        can_be_opened(&rt, 0, first, second),
        can_be_opened(&rt, 3, first, second),
    ];
    drop(there);
    assert_eq!(rt; meanwhile, [false; 3]);
    assert!(rt; can_be_opened(&rt, 1, first, second));
    Ok(())
}

/// Returns what a link receives of an empty datagram and of one with 44 bytes.
fn received_of_two<L: DatagramLink>(
    link: &mut L,
    there: &UdpSocket,
    first: SocketAddr,
) -> io::Result<[Reception; 2]> {
    let mut buffer = [0u8; 45];
    there.send_to(&[], first)?;
    there.send_to(&[1; 44], first)?;
    Ok([link.receive(&mut buffer), link.receive(&mut buffer)])
}

#[test]
fn an_empty_datagram_has_no_bytes(rt: HostRuntime) -> Result<(), Fail> {
    let (first, second) = free_addresses(&rt)?;
    let there = UdpSocket::bind(&rt, second)?;
    let mut link = open(&rt, 1, first, second)?;
    let found = received_of_two(&mut link, &there, first);
    drop(link);
    assert_eq!(rt; found?, [Reception::Received(0), Reception::Received(44)]);
    Ok(())
}

/// Returns the shortest of five waits for a datagram that does not come, in milliseconds.
fn shortest_wait(rt: &HostRuntime, link: &mut UdpLink<&HostRuntime>) -> io::Result<u128> {
    let mut buffer = [0u8; 45];
    let mut shortest = u128::MAX;
    for _ in 0..5 {
        let start = Instant::now(rt)?;
        if link.receive(&mut buffer) != Reception::Nothing {
            return Err(io::Error::other("something came"));
        }
        shortest = shortest.min(start.elapsed(rt)?.as_millis());
    }
    Ok(shortest)
}

#[test]
fn waits_ten_milliseconds(rt: HostRuntime) -> Result<(), Fail> {
    let (first, second) = free_addresses(&rt)?;
    let mut link = open(&rt, 1, first, second)?;
    let shortest = shortest_wait(&rt, &mut link)?;
    assert!(rt; 5 <= shortest && shortest <= 100, "{shortest} ms");
    Ok(())
}

/// A clock that goes on by three milliseconds at each look, from a start; it stops, or can't be read, if it
/// is told so.
#[derive(Drop)]
struct Looked {
    looks: Cell<u32>,
}

impl Clock for Looked {
    fn monotonic(&self) -> io::Result<Duration> {
        let looks = self.looks.get();
        self.looks.set(looks.wrapping_add(1));
        Ok(Duration::from_millis(u64::from(looks) * 3))
    }

    fn since_1970(&self) -> io::Result<Duration> {
        Err(io::Error::from(io::ErrorKind::Unsupported))
    }
}

/// Returns which of this many calls of `receive` told that nothing has come, as a bit each from the lowest.
fn nothings<L: DatagramLink>(link: &mut L, calls: u32) -> u64 {
    let mut buffer = [0u8; 45];
    let mut seen: u64 = 0;
    for call in 0..calls.min(64) {
        if link.receive(&mut buffer) == Reception::Nothing {
            seen |= 1 << call;
        }
    }
    seen
}

/// Returns the shortest of ten waits for a datagram that does not come, when three looks of three milliseconds each
/// have gone by since the first, in milliseconds.
fn shortest_rest(
    rt: &HostRuntime,
    link: &mut UdpLink<Looked>,
    there: &UdpSocket,
    here: SocketAddr,
) -> io::Result<u128> {
    let mut buffer = [0u8; 45];
    let mut shortest = u128::MAX;
    for _ in 0..10 {
        for _ in 0..3 {
            there.send_to(&[1; 44], here)?;
            let _ = link.receive(&mut buffer);
        }
        let start = Instant::now(rt)?;
        if link.receive(&mut buffer) != Reception::Nothing {
            return Err(io::Error::other("something came"));
        }
        shortest = shortest.min(start.elapsed(rt)?.as_millis());
    }
    Ok(shortest)
}

/// Returns which calls are told that nothing has come, of datagrams that wait in the socket all the time: of twenty,
/// of four and of one; and the shortest rest after these.
fn nothings_in_turn(
    rt: &HostRuntime,
    link: &mut UdpLink<Looked>,
    there: &UdpSocket,
    first: SocketAddr,
) -> io::Result<([u64; 3], u128)> {
    for _ in 0..20 {
        there.send_to(&[1; 44], first)?;
    }
    let seen = [nothings(link, 20), nothings(link, 4), nothings(link, 1)];
    Ok((seen, shortest_rest(rt, link, there, first)?))
}

/// Sends datagrams that wait in the socket all the time. The first call begins a patience of ten milliseconds; at
/// those three, six and nine milliseconds later some of it is left, and at twelve none: the fifth call is told that
/// nothing has come, and the sixth begins again. If no datagram waits, a call waits for no longer than what is left.
#[test]
fn nothing_comes_in_time_whatever_waits(rt: HostRuntime) -> Result<(), Fail> {
    let (first, second) = free_addresses(&rt)?;
    let peers = peers(rt.alloc(), first, second)?;
    let clock = Looked {
        looks: Cell::new(0),
    };
    let there = UdpSocket::bind(&rt, second)?;
    let mut link = UdpLink::open(&rt, clock, 1, peers)?;
    let found = nothings_in_turn(&rt, &mut link, &there, first);
    drop(link);
    let (seen, shortest) = found?;
    // After twenty calls four datagrams are left, and the patience has just ended.
    assert_eq!(rt; seen, [0b1000_0100_0010_0001_0000, 0, 1]);
    assert!(rt; shortest < 10, "{shortest} ms");
    Ok(())
}
