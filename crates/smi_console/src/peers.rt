//! Opens the link of a node's station, from the addresses that the tree gives to all stations.
//!
//! `setup` opens the link by [`UdpLinking`]. `smi_program` asks for [`addresses`] too, for a screen and to find out why
//! an address can't be had. specs/Peers says what an address of a tree is as a socket's: if that changed, stations
//! would send to wrong addresses.

ghost use Rattle.std.specs.Prelude.{◌≡◌, Some, IfOk, length, map};
ghost use Rattle.smi_tree.specs.Lookups.{station_count};
ghost use Rattle.smi_console.specs.Peers.{address_in};

use crate::exit::StartError;
use crate::station_waker::StationWaker;
use smi_link::{DatagramLink, Sources, UdpLink};
use smi_tree::{Address, Tree};
use std::alloc::{AllocError, Global};
use std::net::{Ipv4Addr, Net, SocketAddr, SocketAddrV4};
use std::time::Clock;

/// Returns an address of a tree as the address of a socket.
fn socket_address(address: Address) -> SocketAddr
    ensures { address_in result ≡ Some address }
{
    let [first, second, third, fourth] = address.host;
    let host = Ipv4Addr::new(first, second, third, fourth);
    SocketAddr::V4(SocketAddrV4::new(host, address.port))
}

/// Returns the addresses of all stations, by number: station 1 is the first. Fails if memory was refused.
///
/// No clause names `alloc`, from which memory comes.
pub fn addresses(alloc: Global, tree: &Tree) -> Result<Vec<SocketAddr>, AllocError>
    ensures each { IfOk result (λ peers. map address_in peers.items ≡ map Some tree.now.addresses) }
    ensures count { IfOk result (λ peers. length peers.items ≡ station_count tree.now) }
{
    let mut peers = Vec::new(alloc);
    for before in 0..tree.station_count() {
        peers.push(socket_address(tree.address(before + 1)))?;
    }
    Ok(peers)
}

/// Opens a station's link at its own address, and makes a waker of it. The link sends to each station at its address of
/// the tree, and accepts datagrams from `sources`.
///
/// Fails if the socket can't be opened or memory was refused.
fn linked<'a, H: Net + Clock + AllocGlobal>(
    rt: &'a H,
    tree: &Tree,
    station: u16,
    sources: Sources,
) -> Result<(UdpLink<&'a H>, StationWaker), StartError>
    ensures peers { IfOk result (λ r. map address_in r.0.peers ≡ map Some tree.now.addresses) }
    ensures sources { IfOk result (λ r. r.0.sources ≡ sources) }
{
    let peers = addresses(rt.alloc(), tree)?;
    let index = usize::from(station).saturating_sub(1);
    let own = peers.get(index).copied().ok_or(StartError::Link)?;
    let station_waker = StationWaker::new(rt, own)?;
    let mut link = UdpLink::open(rt, rt, station, peers)?;
    link.accept_from(sources);
    Ok((link, station_waker))
}

/// Opens the link of a station, and makes a waker of it. `setup` is over any such opener, because a function that names
/// the socket is expensive to prove.
pub(crate) trait Linking {
    /// The link that it opens.
    type Link: DatagramLink + Drop;

    /// Opens the link of a station of this tree.
    fn linked(&self, tree: &Tree, station: u16) -> Result<(Self::Link, StationWaker), StartError>;
}

/// Opens links over UDP.
#[derive(Drop)]
pub(crate) struct UdpLinking<'a, H> {
    pub(crate) rt: &'a H,
    /// From where the datagrams of the link have to come (`--sources`).
    pub(crate) sources: Sources,
}

impl<'a, H: Net + Clock + AllocGlobal> Linking for UdpLinking<'a, H> {
    type Link = UdpLink<&'a H>;

    fn linked(
        &self,
        tree: &Tree,
        station: u16,
    ) -> Result<(UdpLink<&'a H>, StationWaker), StartError> {
        linked(self.rt, tree, station, self.sources)
    }
}
