//! Builds all that an open station is served with: its seats, its sockets, and the threads of its consoles.
//!
//! `node` calls [`build_service`] between the opening of the station and its service. The order in which things are
//! built is that in which their faults are found: seats, the station's socket, the listeners, the threads, and last the
//! journal. So a node whose address is taken has started, and its boot is one higher (docs/DECISIONS.md).

ghost use Rattle.std.specs.Prelude.{◌≡◌, ◌*◌, ◌++◌, ◌∷◌, [], IfOk, length, min};
ghost use Rattle.smi_operator.specs.Sides.{IsDeskOf};

use crate::connection_set::ConnectionSet;
use crate::console_waker::ConsoleWaker;
use crate::event_forwarder::EventForwarder;
use crate::event_queue::{EventQueue, StationNews};
use crate::exit::StartError;
use crate::journal_keeper::{JournalKeeper, KeeperChannels, begin_journal, journal_channels};
use crate::node::NodeSetup;
use crate::node_io::NodeIo;
use crate::node_observer::NodeObserver;
use crate::peers::{Linking, UdpLinking};
use crate::station_loop::StationLoop;
use crate::station_waker::StationWaker;
use crate::threads::{Console, ConsoleParts, start_console};
use crossbeam_channel::Sender;
use smi_base::MOST_OPERATORS_OF_A_STATION;
use smi_journal::StationState;
use smi_link::{DatagramLink, UdpLink};
use smi_node::NodeStats;
use smi_operator::{Desk, LANES, Seat, open_many_seats, operators_by_seat};
use smi_session::{SeatTable, SessionService, StateReader, boxed};
use smi_view::Picture;
use std::alloc::{AllocError, Global};
use std::fs::Files;
use std::io::{ErrorKind, Read, Write};
use std::net::Net;
use std::sync::{Arc, Wait};
use std::thread::Threads;
use std::time::Clock;

/// The seats of a station, and the desk that the station serves them from.
#[derive(Drop)]
struct Seats {
    /// The seats of its operators, seven for each (`LANES`), by operator.
    own: Vec<Seat>,
    /// The seat for reports, which is the last of the desk.
    reports: Seat,
    /// The station's end of all these seats.
    desk: Box<Desk>,
}

/// Opens the seats of each operator of a station, one more for reports, and their desk. Fails if memory was refused.
fn build_seats(alloc: Global, operators: &[u16]) -> Result<Seats, AllocError>
    ensures count { IfOk result (λ r. length r.own.items
        ≡ min (length operators.now) MOST_OPERATORS_OF_A_STATION * 7) }
    ensures desk { IfOk result (λ r. IsDeskOf r.desk.value (r.own.items ++ r.reports ∷ [])) }
{
    let count = operators.len().min(MOST_OPERATORS_OF_A_STATION) * LANES + 1;
    let (mut seats, desk) = open_many_seats(alloc, count)?;
    let Some(reports) = seats.pop() else {
        // There are `count` seats, which is at least one.
        unreachable!();
    };
    let desk = boxed(alloc, desk)?;
    Ok(Seats {
        own: seats,
        reports,
        desk,
    })
}

/// Opens the service of a node's sessions over its seats. Fails if memory was refused.
fn sessions_over<G: StateReader + Drop>(
    alloc: Global,
    setup: &NodeSetup,
    seats: SeatTable,
    glance: G,
    stats: &Arc<NodeStats, Global>,
) -> Result<Box<SessionService<G>>, AllocError> {
    let picture = Picture::new(alloc, setup.tree.object_count(), 0)?;
    let stats = Arc::try_clone(stats)?;
    SessionService::open(alloc, seats, glance, stats, picture)
}

/// Builds the seats of a station, the service of the sessions over them, and their desk. Fails if memory was refused.
fn build_sessions<G: StateReader + Drop>(
    alloc: Global,
    setup: &NodeSetup,
    operators: &[u16],
    glance: G,
    stats: &Arc<NodeStats, Global>,
) -> Result<(Box<SessionService<G>>, Box<Desk>), AllocError> {
    let Seats { own, reports, desk } = build_seats(alloc, operators)?;
    let by_seat = operators_by_seat(alloc, operators)?;
    let seats = SeatTable::open(alloc, by_seat.as_slice(), own, reports)?;
    match sessions_over(alloc, setup, seats, glance, stats) {
        Ok(sessions) => Ok((sessions, desk)),
        Err(refused) => Err(refused),
    }
}

/// What `build_station` makes: the station's side and what the sessions need of it.
#[derive(Drop)]
struct StationParts<L: Drop, G: StateReader + Drop> {
    /// The station's side, for its thread.
    node_io: NodeIo<L>,
    /// The service of the sessions, for their thread.
    sessions: Box<SessionService<G>>,
    /// The waker of the station's thread, for that of the sessions.
    station_waker: StationWaker,
}

/// Builds the seats of a station, the service of the sessions over them, and last the station's link.
fn build_station<K: Linking, G: StateReader + Drop>(
    alloc: Global,
    setup: &NodeSetup,
    operators: &[u16],
    glance: G,
    linking: &K,
) -> Result<StationParts<K::Link, G>, StartError> {
    let stats = new_stats(alloc)?;
    let (sessions, desk) = build_sessions(alloc, setup, operators, glance, &stats)?;
    let (link, station_waker) = linking.linked(&setup.tree, setup.station)?;
    let node_io = NodeIo::new(alloc, link, desk, stats)?;
    Ok(StationParts {
        node_io,
        sessions,
        station_waker,
    })
}

/// Opens the listeners of a node, and makes the waker of the thread of its sessions.
fn open_connections<H: Files + Net + AllocGlobal>(
    rt: &H,
    setup: &NodeSetup,
) -> Result<(Box<ConnectionSet>, Arc<ConsoleWaker, Global>), StartError> {
    match ConnectionSet::open(rt, rt.alloc(), setup.consoles.as_slice()) {
        Ok((connections, waker)) => match Arc::new(rt.alloc(), ConsoleWaker::new(waker)) {
            Ok(waker) => Ok((connections, waker)),
            Err(_) => Err(StartError::Memory),
        },
        Err(e) if e.kind() == ErrorKind::OutOfMemory => Err(StartError::Memory),
        // The line of the fault names no cause: `smi_program` looks for it.
        Err(_) => Err(StartError::Console),
    }
}

/// What a node has before its threads are started.
#[derive(Drop)]
struct NodeParts<L: Drop, G: StateReader + Drop> {
    /// The station's side.
    node_io: NodeIo<L>,
    /// The console's side.
    parts: ConsoleParts<G>,
    /// The waker of the thread of the sessions.
    waker: Arc<ConsoleWaker, Global>,
    /// The journal's ends of its channels to the sessions.
    keeper_channels: KeeperChannels,
}

/// Builds the seats of a station and its link, opens the listeners of its node, and makes the channels of its journal.
fn build_node<K: Linking, G: StateReader + Drop, H: Files + Net + AllocGlobal>(
    rt: &H,
    setup: &NodeSetup,
    operators: &[u16],
    glance: G,
    linking: &K,
) -> Result<NodeParts<K::Link, G>, StartError> {
    let station_parts = build_station(rt.alloc(), setup, operators, glance, linking)?;
    let (connections, waker) = open_connections(rt, setup)?;
    let own_waker = Arc::try_clone(&waker)?;
    let (keeper_channels, journal) = journal_channels(rt.alloc(), setup.journal.is_some())?;
    let StationParts {
        node_io,
        sessions,
        station_waker,
    } = station_parts;
    let parts = ConsoleParts {
        sessions,
        connections,
        station_waker,
        waker: own_waker,
        journal,
    };
    Ok(NodeParts {
        node_io,
        parts,
        waker,
        keeper_channels,
    })
}

/// Makes the statistics that both sides share. Fails if memory was refused.
fn new_stats(alloc: Global) -> Result<Arc<NodeStats, Global>, StartError> {
    match Arc::new(alloc, NodeStats::new()) {
        Ok(stats) => Ok(stats),
        Err(_refused) => Err(StartError::Memory),
    }
}

/// Makes the queue of messages to the thread of the sessions, over this channel. Fails if memory was refused.
fn queue_of<H: Wait + AllocGlobal + Clone + Drop>(
    rt: &H,
    waker: &Arc<ConsoleWaker, Global>,
    news: Sender<StationNews>,
) -> Result<EventQueue<H>, AllocError> {
    let waker = Arc::try_clone(waker)?;
    let queue_rt = rt.clone()?;
    EventQueue::new(rt.alloc(), queue_rt, waker, news)
}

/// Makes the forwarder of a station's events to the thread of the sessions. Fails if memory was refused.
fn forwarder_of<T: StationState, H: Files + Wait + Clock + AllocGlobal + Clone + Drop>(
    rt: &H,
    setup: &NodeSetup,
    station: &T,
    waker: &Arc<ConsoleWaker, Global>,
    news: Sender<StationNews>,
) -> Result<EventForwarder<H>, AllocError> {
    let queue = queue_of(rt, waker, news)?;
    let tree = Arc::try_clone(&setup.tree)?;
    EventForwarder::new(rt.alloc(), tree, station, queue)
}

/// Begins the journal of a node, or returns None if it is to have none.
fn journal_of<
    T: StationState,
    H: Files + Wait + Threads + Clock + AllocGlobal + Clone + Drop + Send + 'static,
>(
    rt: &H,
    setup: &NodeSetup,
    station: &T,
    channels: KeeperChannels,
) -> Result<Option<JournalKeeper<H>>, StartError> {
    let Some(journal) = &setup.journal else {
        return Ok(None);
    };
    match begin_journal(rt, &setup.tree, journal, station, channels) {
        Ok(keeper) => Ok(Some(keeper)),
        Err(e) if e.kind() == ErrorKind::OutOfMemory => Err(StartError::Memory),
        // The line of the fault names no cause: `smi_program` looks for it.
        Err(_) => Err(StartError::Journal),
    }
}

/// Builds the station's seats, its link and its listeners, starts the threads of its consoles, and begins its journal,
/// in this order.
fn start_node<
    K: Linking,
    G: StateReader + Drop + Send + 'static,
    T: StationState,
    H: Files + Net + Wait + Threads + Clock + AllocGlobal + Clone + Drop + Send + 'static,
    I: Read + Drop + Send + 'static,
    O: Write + Drop + Send + 'static,
    E: Write + Drop + Send + 'static,
>(
    rt: &H,
    setup: &NodeSetup,
    station: &T,
    glance: G,
    linking: &K,
    console: Console<I, O, E>,
) -> Result<StationLoop<K::Link, NodeObserver<H>>, StartError> {
    let node_parts = build_node(rt, setup, station.operators(), glance, linking)?;
    let NodeParts {
        node_io,
        parts,
        waker,
        keeper_channels,
    } = node_parts;
    let news = start_console(rt, setup, parts, &waker, console)?;
    let forwarder = forwarder_of(rt, setup, station, &waker, news)?;
    let journal = journal_of(rt, setup, station, keeper_channels)?;
    let observer = NodeObserver::new(journal, forwarder);
    Ok(node_io.into_service(rt.alloc(), observer)?)
}

/// Returns the only one of these glances. The board was opened with one (`serve_with_board` of `node`).
fn only<G: Drop>(glances: Vec<G>) -> Result<G, StartError> {
    let mut glances = glances;
    glances.pop().ok_or(StartError::Memory)
}

/// The loop that serves the station of a node: over UDP, before the observer that journals and forwards.
pub(crate) type NodeService<'a, H> = StationLoop<UdpLink<&'a H>, NodeObserver<H>>;

/// Builds the loop that serves an open station, and starts the threads of its consoles, whose sessions get the only one
/// of these glances.
pub(crate) fn build_service<
    'a,
    G: StateReader + Drop + Send + 'static,
    T: StationState,
    H: Files + Net + Wait + Threads + Clock + AllocGlobal + Clone + Drop + Send + 'static,
    I: Read + Drop + Send + 'static,
    O: Write + Drop + Send + 'static,
    E: Write + Drop + Send + 'static,
>(
    rt: &'a H,
    setup: &NodeSetup,
    station: &T,
    glances: Vec<G>,
    console: Console<I, O, E>,
) -> Result<NodeService<'a, H>, StartError> {
    let glance = only(glances)?;
    let linking = UdpLinking {
        rt,
        sources: setup.sources,
    };
    start_node(rt, setup, station, glance, &linking, console)
}
