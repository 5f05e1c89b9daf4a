//! Runs a node: migrates the rows of its store, opens its station, has it served, and reports how it ended.
//!
//! `smi_program` calls [`run`] with an open store, and closes the store that it gets back. What a run does to the store
//! is the contract of [`run`] (specs/Running). The threads, the sockets and the seats are built in `setup`.

ghost use Rattle.std.specs.Prelude.{◌≡◌};
ghost use Rattle.std.specs.Arc.{arc_value};
ghost use Rattle.smi_operator.specs.Lanes.{by_seat};
ghost use Rattle.smi_station.specs.Readers.{operators_in};
ghost use Rattle.smi_console.specs.Running.{Begins, Runs};
ghost use Rattle.smi_console.specs.Serving.{IsServedIfStarted, serving};

use crate::exit::{StartError, report_exit};
use crate::faults::opening_fault;
use crate::listener::ListenAddress;
use crate::setup::build_service;
use crate::station_loop::{StationLoop, Turns};
use crate::threads::Console;
use smi_commands::status::Status;
use smi_journal::JournalSetup;
use smi_link::{DatagramLink, Sources};
use smi_node::{ServeFault, StepObserver};
use smi_operator::operators_by_seat;
use smi_stable::LoggedStable;
use smi_station::{Station, migrate};
use smi_tree::Tree;
use smi_view::{Board, BoardId, NewBoard, open_board};
use std::alloc::Global;
use std::fs::Files;
use std::io::{Read, Write};
use std::marker::Brand;
use std::net::Net;
use std::sync::{Arc, Wait};
use std::thread::Threads;
use std::time::Clock;

/// What a node is run with, beside its store and its console.
#[derive(Drop)]
pub struct NodeSetup {
    /// The tree, which all threads of the node share.
    pub tree: Arc<Tree, Global>,
    /// The number of its station, from 1.
    pub station: u16,
    /// For how many turns it serves, or without end.
    pub turns: Turns,
    /// From where its datagrams have to come (`--sources`).
    pub sources: Sources,
    /// The addresses and paths at which it listens for consoles (`--console`), beside the standard input.
    pub consoles: Vec<ListenAddress>,
    /// The folder of its journal, and how it is written. None if it has no journal.
    pub journal: Option<Arc<JournalSetup, Global>>,
}

/// Serves an open station, if all that it is served with could be built. Returns the fault that ended the service, if
/// any, or the error of the building.
fn serve_if_started<
    S: LoggedStable,
    L: DatagramLink + Drop,
    V: StepObserver + Drop,
    J: BoardId,
    R: Wait + Clock + AllocGlobal,
>(
    rt: &R,
    setup: &NodeSetup,
    station: &mut Station<'_, S>,
    board: &mut Board<J>,
    service: Result<StationLoop<L, V>, StartError>,
) -> Result<Result<(), ServeFault>, StartError>
    ensures { IsServedIfStarted (serving S.is_honest S.is_open S.rows S.may_find S.saves S.failures S.doubts
        (by_seat (operators_in station.old.core))) setup.now.turns station.old station.new result }
{
    match service {
        Ok(service) => {
            let mut service = service;
            let seats = operators_by_seat(rt.alloc(), station.operators())?;
            Ok(service.serve(rt, setup.turns, seats.as_slice(), station, board))
        }
        Err(error) => Err(error),
    }
}

/// Opens the board of a station, builds all else that the station is served with, and serves it.
fn serve_with_board<J, S, H, I, O, E>(
    rt: &H,
    blank: NewBoard,
    setup: &NodeSetup,
    station: &mut Station<'_, S>,
    console: Console<I, O, E>,
) -> Result<Result<(), ServeFault>, StartError>
where
    J: BoardId + Send + Sync + 'static,
    S: LoggedStable,
    H: Files + Net + Wait + Threads + Clock + AllocGlobal + Clone + Drop + Send + 'static,
    I: Read + Drop + Send + 'static,
    O: Write + Drop + Send + 'static,
    E: Write + Drop + Send + 'static,
    requires { blank.seen.book ≡ J.book }
    ensures { IsServedIfStarted (serving S.is_honest S.is_open S.rows S.may_find S.saves S.failures S.doubts
        (by_seat (operators_in station.old.core))) setup.now.turns station.old station.new result }
{
    let (mut board, glances) = open_board::<J, H>(rt, rt.alloc(), blank, 1)?;
    let service = build_service(rt, setup, station, glances, console);
    let served = serve_if_started(rt, setup, station, &mut board, service);
    // It returns what the board had published, which nobody needs any more.
    let _ = board.close(rt);
    served
}

/// Opens the station on its store, serves it, and reports how it ended. Returns the exit status, and the store.
fn open_and_serve<S, H, I, O, E, F>(
    rt: &H,
    setup: &NodeSetup,
    store: S,
    console: Console<I, O, E>,
    faults: &mut F,
) -> (Status, S)
where
    S: LoggedStable,
    H: Files + Net + Wait + Threads + Clock + AllocGlobal + Clone + Drop + Send + 'static,
    I: Read + Drop + Send + 'static,
    O: Write + Drop + Send + 'static,
    E: Write + Drop + Send + 'static,
    F: Write,
    ensures { Begins S.is_honest S.is_open S.rows S.may_find S.saves S.failures S.doubts (arc_value setup.now.tree)
        setup.now.station setup.now.turns store result }
{
    match Station::open(rt.alloc(), &setup.tree, setup.station, store) {
        Ok(station) => {
            let mut station = station;
            let served = serve_with_board::<Brand, _, _, _, _, _>(
                rt,
                NewBoard::new(),
                setup,
                &mut station,
                console,
            );
            let status = report_exit(served, faults);
            (status, station.into_stable())
        }
        Err((fault, store)) => (opening_fault(fault, faults), store),
    }
}

/// Runs a node. Returns the exit status, and the store.
///
/// It brings the rows of the station into their newest schema, opens the station, makes its board and its seats, and
/// then opens its socket and its listeners. Then it serves the station, for a number of turns or until a fault, while
/// other threads have the console. It writes a fault as one line on `faults`. The other threads write their own faults
/// on `console.faults`, and these end the console alone.
///
/// Nothing but the opening and the steps of the station changes the store, and copies of its log, which keep the rows.
/// That it serves over its own socket and its own seats no clause says, and none what the threads of the console do:
/// tests/full_test.py, tests/nodes_test.py and tests/consoles_test.py see that. Nor does one name `rt`, which gives
/// threads and clocks, or what `console` has.
pub fn run<S, H, I, O, E, F>(
    rt: &H,
    setup: &NodeSetup,
    store: S,
    console: Console<I, O, E>,
    faults: &mut F,
) -> (Status, S)
where
    S: LoggedStable,
    H: Files + Net + Wait + Threads + Clock + AllocGlobal + Clone + Drop + Send + 'static,
    I: Read + Drop + Send + 'static,
    O: Write + Drop + Send + 'static,
    E: Write + Drop + Send + 'static,
    F: Write,
    ensures { Runs S.is_honest S.is_open S.rows S.may_find S.saves S.failures S.doubts (arc_value setup.now.tree)
        setup.now.station setup.now.turns store result }
{
    let mut store = store;
    match migrate(rt.alloc(), &setup.tree, setup.station, &mut store) {
        Ok(_) => open_and_serve(rt, setup, store, console, faults),
        Err(fault) => (opening_fault(fault, faults), store),
    }
}
