//! Runs a screen: opens its station, its sockets and its files, has it serve, and returns how it ended.
//!
//! `smi_program` calls [`run`] with an open store, writes the fault of [`Ended`], and closes the store. The order in
//! which things are opened is that in which their faults are found: store, station's socket, history, web server.
//! specs/Running says what a run does to the store.

ghost use Rattle.std.specs.Prelude.{◌≡◌, IfErr, IfOk};
ghost use Rattle.smi_node.specs.Carried.{StepsTo};
ghost use Rattle.smi_screen.specs.Ending.{IsOfStart, end_of};
ghost use Rattle.smi_screen.specs.Running.{LooksIfStarted, OpensAndLooks, RunsScreen, looker_of};

use crate::console::ConsoleAddress;
use crate::http_listener::HttpListener;
use crate::poll_schedule::PollSchedule;
use crate::screen_parts::{ScreenParts, build_parts};
use crate::server::ScreenServer;
use crate::web_server::WebServer;
use bytes::Bytes;
use smi_link::{Sources, UdpLink};
use smi_protocol::OpenFault;
use smi_rows::Stable;
use smi_station::{Station, migrate};
use smi_tree::Tree;
use smi_view::Picture;
use std::alloc::{AllocError, Global};
use std::fs::Files;
use std::hash::RandomState;
use std::io::{self, ErrorKind};
use std::mem::replace;
use std::net::{Net, SocketAddr, TcpListener, TcpStream};
use std::sync::Wait;
use std::time::{Clock, Instant};

/// How a screen ended, or why it did not start. docs/NUMBERS.md, "Lines on standard error", has the line of each fault.
#[derive(Clone, Copy, PartialEq, Eq)]
pub enum Ended {
    /// All its turns were made.
    Turns,
    /// Its station has stopped.
    Stopped,
    /// Its station's socket could not be opened, or the receives of a hundred turns in a row ended in a fault.
    Link,
    /// The socket of its web server could not be opened, or the clock could not be read at the start.
    Listener,
    /// Out of memory.
    Memory,
    /// The tree has no operator at its station.
    NoOperator,
    /// The file of its history could not be read or written at the start.
    History,
    /// Its station was not opened on its store, or the rows not brought into their newest schema.
    Opening(OpenFault),
}

impl From<AllocError> for Ended {
    ghost use Rattle.std.specs.Prelude.{◌≡◌};
    ghost use Rattle.smi_screen.specs.declared.screen.Ended.TheVariants as ended;

    ghost from_gives = { λ _ e. e ≡ ended.Memory };

    fn from(_refused: AllocError) -> Ended {
        Ended::Memory
    }
}

/// What a page needs to give orders.
#[derive(Drop)]
pub struct OrderSetup {
    /// The console of the node of the operators who order.
    pub console: ConsoleAddress,
    /// The value of `Authorization` that has to come with each order, as `Bearer 0123..`.
    pub key: Bytes,
    /// The origin of the page at a proxy, as `https://screen.example`. None if there is no proxy.
    pub origin: Option<Bytes>,
    /// A second copy of the tree, because the web service owns one.
    pub tree: Tree,
}

/// What a screen is run with, beside its store.
#[derive(Drop)]
pub struct ScreenSetup {
    /// The number of its station, from 1.
    pub station: u16,
    /// The address of each station, by number.
    pub peers: Vec<SocketAddr>,
    /// From where datagrams have to come.
    pub sources: Sources,
    /// The address at which its web server listens.
    pub http: SocketAddr,
    /// The values of `Host` that are answered.
    pub hosts: Vec<Vec<u8>>,
    /// The whole page, as it is served for `/`.
    pub page: Bytes,
    /// What its page needs to give orders. None if it may give none.
    pub orders: Option<OrderSetup>,
    /// The path of the file in which its history is kept. None if the history ends with the screen.
    pub history: Option<String>,
    /// For how many days entries of its history are kept. None for `USUAL_DAYS` of `smi_history`.
    pub history_days: Option<u64>,
    /// How many turns it makes. None if it runs without end.
    pub turns: Option<u32>,
}

/// Returns how a screen ends that can't open a socket or a file: `Memory` if memory was refused, and else `other`.
pub(crate) fn error_of(error: io::Error, other: Ended) -> Ended
    ensures { IsOfStart other → IsOfStart result }
{
    if error.kind() == ErrorKind::OutOfMemory {
        Ended::Memory
    } else {
        other
    }
}

/// Opens the listener of the web server at an address. Fails with `Listener`, or with `Memory` if memory was refused.
fn listen<R: Net<Listener = TcpListener, Stream = TcpStream>>(
    rt: &R,
    alloc: Global,
    keys: RandomState,
    http: SocketAddr,
) -> Result<HttpListener, Ended>
    ensures { IfErr result IsOfStart }
{
    match HttpListener::open(rt, alloc, keys, http) {
        Ok(listener) => Ok(listener),
        Err(error) => Err(error_of(error, Ended::Listener)),
    }
}

/// Makes the picture of a screen, opens its history and its listener, and makes its web server of them.
fn build_web_server<
    R: Net<Listener = TcpListener, Stream = TcpStream> + Clock + Files + AllocGlobal,
>(
    rt: &R,
    tree: &Tree,
    keys: RandomState,
    setup: &mut ScreenSetup,
) -> Result<(Picture, Box<WebServer>), Ended>
    ensures { IfErr result IsOfStart }
{
    let alloc = rt.alloc();
    let parts = build_parts(rt, tree, setup)?;
    let listener = listen(rt, alloc, keys, setup.http)?;
    let ScreenParts {
        picture,
        service,
        console,
        history_file,
    } = Box::into_inner(parts);
    match Box::new(
        alloc,
        WebServer::new(alloc, service, listener, console, history_file),
    ) {
        Ok(web_server) => Ok((picture, web_server)),
        Err(_) => Err(Ended::Memory),
    }
}

/// Makes the server of a screen, whose time starts now. It is in a box, because each function that drops one itself is
/// expensive to prove.
fn build_server<
    R: Net<Listener = TcpListener, Stream = TcpStream> + Wait + Clock + Files + AllocGlobal,
>(
    rt: &R,
    tree: &Tree,
    operator: u16,
    keys: RandomState,
    setup: &mut ScreenSetup,
) -> Result<Box<ScreenServer>, Ended>
    ensures operator { IfOk result (λ server. server.value.operator ≡ operator) }
    ensures fault { IfErr result IsOfStart }
{
    let Ok(start) = Instant::now(rt) else {
        return Err(Ended::Listener);
    };
    let (picture, web_server) = build_web_server(rt, tree, keys, setup)?;
    let schedule = PollSchedule::new(tree.object_count(), tree.domain_count());
    let server = ScreenServer::new(operator, start, schedule, picture, web_server);
    match Box::new(rt.alloc(), server) {
        Ok(server) => Ok(server),
        Err(_) => Err(Ended::Memory),
    }
}

/// Opens the link of a station. It takes the addresses of all stations out of the setup.
fn open_link<'a, R: Net + Clock + AllocGlobal>(
    rt: &'a R,
    setup: &mut ScreenSetup,
) -> Result<UdpLink<&'a R>, Ended>
    ensures sources { IfOk result (λ link. link.sources ≡ setup.old.sources) }
    ensures fault { IfErr result IsOfStart }
{
    let peers = replace(&mut setup.peers, Vec::new(rt.alloc()));
    match UdpLink::open(rt, rt, setup.station, peers) {
        Ok(link) => {
            let mut link = link;
            link.accept_from(setup.sources);
            Ok(link)
        }
        Err(error) => Err(error_of(error, Ended::Link)),
    }
}

/// Returns the operator in whose name a station watches and asks: its first one, or None if it has none.
fn first_operator<S: Stable>(station: &Station<'_, S>) -> Option<u16>
    ensures { result ≡ looker_of station.now }
{
    station.operators().first().copied()
}

/// Runs a screen with a station that is open: for as many turns as the setup says, or without end. Returns the fault
/// that ended it, if any.
fn look_with_station<
    S: Stable,
    R: Net<Listener = TcpListener, Stream = TcpStream> + Wait + Clock + Files + AllocGlobal,
>(
    rt: &R,
    tree: &Tree,
    keys: RandomState,
    setup: &mut ScreenSetup,
    station: &mut Station<'_, S>,
) -> Result<(), Ended>
    ensures { LooksIfStarted (StepsTo S.is_honest S.is_open S.rows S.may_find S.saves S.failures S.doubts)
        (looker_of station.old) setup.old.turns station.old station.new result }
{
    let Some(operator) = first_operator(station) else {
        return Err(Ended::NoOperator);
    };
    let turns = setup.turns;
    let mut link = open_link(rt, setup)?;
    let mut server = build_server(rt, tree, operator, keys, setup)?;
    server.serve(rt, tree, station, &mut link, turns)
}

/// Returns how a screen ended: after its turns, or by its fault.
fn end_of(looked: Result<(), Ended>) -> Ended
    ensures { result ≡ end_of looked }
{
    match looked {
        Ok(()) => Ended::Turns,
        Err(ended) => ended,
    }
}

/// Opens the station on its store, and runs a screen with it. Returns how the screen ended, and the store.
fn open_and_look<
    S: Stable,
    R: Net<Listener = TcpListener, Stream = TcpStream> + Wait + Clock + Files + AllocGlobal,
>(rt: &R, tree: &Tree, keys: RandomState, setup: &mut ScreenSetup, store: S) -> (Ended, S)
    ensures { OpensAndLooks S.is_honest S.is_open S.rows S.may_find S.saves S.failures S.doubts tree.now
        setup.old.station setup.old.turns store result }
{
    match Station::open(rt.alloc(), tree, setup.station, store) {
        Ok(station) => {
            let mut station = station;
            let how = end_of(look_with_station(rt, tree, keys, setup, &mut station));
            (how, station.into_stable())
        }
        Err((fault, store)) => (Ended::Opening(fault), store),
    }
}

/// Runs a screen. Returns how it ended, and its store.
///
/// It brings the rows of its station into their newest schema, and opens the station, the station's socket, the file of
/// its history, if it has one, and last the socket of its web server. Then it makes turns, as many as the setup says or
/// until a fault. Headers of requests are kept under these keys. It takes what it needs out of the setup.
///
/// Nothing but the opening of the station and what it does as an observer changes the store: it looks in the name of
/// its first operator, and orders nothing but watches and questions. That it looks over its own socket, and what its
/// web server answers over its own, no clause says: tests/screen_test.py sees that. Nor does one name `rt`, which gives
/// sockets and clocks, or `keys`.
pub fn run<
    S: Stable,
    R: Net<Listener = TcpListener, Stream = TcpStream> + Wait + Clock + Files + AllocGlobal,
>(rt: &R, tree: &Tree, keys: RandomState, setup: &mut ScreenSetup, store: S) -> (Ended, S)
    ensures { RunsScreen S.is_honest S.is_open S.rows S.may_find S.saves S.failures S.doubts tree.now
        setup.old.station setup.old.turns store result }
{
    let mut store = store;
    match migrate(rt.alloc(), tree, setup.station, &mut store) {
        Ok(_) => open_and_look(rt, tree, keys, setup, store),
        Err(fault) => (Ended::Opening(fault), store),
    }
}
