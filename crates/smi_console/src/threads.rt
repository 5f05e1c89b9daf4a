//! Starts the three threads of a node's consoles, and joins them by channels.
//!
//! `setup` calls [`start_console`] once the station, its seats and its sockets are open. One thread reads the standard
//! input (`stdin`), one writes the standard output (`stdout`), and one has the sessions (`console_loop`). Nobody joins
//! them: they end with the program, or before.
//!
//! The functions that start threads know no socket and no store, because the prover pays for each type that they own.

use crate::connection_set::ConnectionSet;
use crate::console_loop::{ConsoleLoop, run_console_loop};
use crate::console_waker::ConsoleWaker;
use crate::event_queue::StationNews;
use crate::node::NodeSetup;
use crate::socket_drops::SocketDrops;
use crate::station_waker::StationWaker;
use crate::stdin::{Input, read_all};
use crate::stdout::{StdoutSender, open_stdout, write_all};
use crate::typed_lines::TypedLines;
use crossbeam_channel::{Receiver, Sender, bounded};
use smi_journal::{Noted, TypedLine};
use smi_session::{SessionService, StateReader, boxed};
use std::alloc::{AllocError, Global};
use std::io::{Read, Write};
use std::sync::{Arc, Wait};
use std::thread::{Threads, spawn};
use std::time::Clock;

/// The standard streams of a node. Each goes to a thread of its own.
#[derive(Drop)]
pub struct Console<I, O, E> {
    /// Read by the thread that reads lines.
    pub input: I,
    /// Written by the thread that writes the standard output.
    pub output: O,
    /// Written by the thread of the sessions: refused lines of the standard input, and faults of streams and the
    /// journal.
    pub faults: E,
}

/// The most lines of the standard input that wait for the thread of the sessions. Then the thread that reads waits.
const MOST_LINES: usize = 16;

/// The most messages of the station that wait in the channel to the thread of the sessions. `event_queue` keeps as many
/// again: together they are the 8,192 events of docs/FORMATS.md, "Lines with a tag".
const MOST_NEWS: usize = 4_096;

/// Starts the thread that reads lines. It ends with the input, with the thread of the sessions, or with the program.
///
/// Fails if memory or a thread was refused.
fn spawn_reader<
    H: Wait + Threads + AllocGlobal + Clone + Drop + Send + 'static,
    I: Read + Drop + Send + 'static,
>(
    rt: &H,
    input: I,
    lines: Sender<Input>,
    waker: &Arc<ConsoleWaker, Global>,
) -> Result<(), AllocError> {
    let thread_rt = rt.clone()?;
    let waker = Arc::try_clone(waker)?;
    let alloc = rt.alloc();
    let spawned = spawn(rt, move || {
        let mut input = input;
        read_all(&thread_rt, alloc, &mut input, &lines, &waker)
    });
    match spawned {
        Ok(_thread) => Ok(()),
        Err(_refused) => Err(AllocError),
    }
}

/// Starts the thread that writes the standard output, and returns the sender of its blocks. The thread ends with that
/// of the sessions, with a write that fails, or with the program.
///
/// Fails if memory or a thread was refused.
fn spawn_writer<
    H: Wait + Threads + AllocGlobal + Clone + Drop + Send + 'static,
    O: Write + Drop + Send + 'static,
>(rt: &H, output: O, waker: &Arc<ConsoleWaker, Global>) -> Result<StdoutSender, AllocError> {
    let thread_rt = rt.clone()?;
    let waker = Arc::try_clone(waker)?;
    let (stdout, receiver) = open_stdout(rt.alloc())?;
    let spawned = spawn(rt, move || {
        let mut output = output;
        write_all(&thread_rt, &receiver, &waker, &mut output)
    });
    match spawned {
        Ok(_thread) => Ok(stdout),
        Err(_refused) => Err(AllocError),
    }
}

/// Starts the thread of the sessions. It ends with the program, or with the standard input of a node without listeners.
///
/// Fails if memory or a thread was refused.
fn spawn_console_loop<
    G: StateReader + Drop + Send + 'static,
    H: Wait + Threads + Clock + AllocGlobal + Clone + Drop + Send + 'static,
    E: Write + Drop + Send + 'static,
>(
    rt: &H,
    setup: &NodeSetup,
    console_loop: Box<ConsoleLoop<G>>,
    faults: E,
) -> Result<(), AllocError> {
    let thread_rt = rt.clone()?;
    let tree = Arc::try_clone(&setup.tree)?;
    let spawned = spawn(rt, move || {
        let (mut console_loop, mut faults) = (console_loop, faults);
        run_console_loop(&thread_rt, &tree, &mut console_loop, &mut faults)
    });
    match spawned {
        Ok(_thread) => Ok(()),
        Err(_refused) => Err(AllocError),
    }
}

/// What `setup` builds for the thread of the sessions. The fields are those of [`ConsoleLoop`].
#[derive(Drop)]
pub(crate) struct ConsoleParts<G: StateReader + Drop> {
    pub(crate) sessions: Box<SessionService<G>>,
    pub(crate) connections: Box<ConnectionSet>,
    /// The waker of the station's thread.
    pub(crate) station_waker: StationWaker,
    /// The waker of the thread itself.
    pub(crate) waker: Arc<ConsoleWaker, Global>,
    pub(crate) journal: JournalChannels,
}

/// The ends of the channels to and from the journal that the thread of the sessions has. The other ends are
/// `KeeperChannels` of `journal_keeper`.
#[derive(Drop)]
pub(crate) struct JournalChannels {
    /// From the journal: that it has failed, or goes on.
    pub(crate) news: Receiver<Noted>,
    /// To the journal: typed lines. None if the node has no journal.
    pub(crate) typed: Option<Sender<TypedLine>>,
}

/// Makes the loop of the thread of the sessions from its parts and channels. Fails if memory was refused.
fn console_loop_of<G: StateReader + Drop>(
    alloc: Global,
    parts: ConsoleParts<G>,
    stdout: StdoutSender,
    lines: Receiver<Input>,
    news: Receiver<StationNews>,
    drops: SocketDrops,
) -> Result<Box<ConsoleLoop<G>>, AllocError> {
    let ConsoleParts {
        sessions,
        connections,
        station_waker,
        waker,
        journal,
    } = parts;
    let mut connections = connections;
    connections.typed = TypedLines::new(journal.typed);
    let console_loop = ConsoleLoop {
        sessions,
        connections,
        station_waker,
        waker,
        stdout,
        lines,
        news,
        journal: journal.news,
        is_stdin_over: false,
        drops,
    };
    boxed(alloc, console_loop)
}

/// Starts the thread of the sessions with these parts, and returns the channel of the station's messages to it.
///
/// Fails if memory or a thread was refused.
fn start_sessions<
    G: StateReader + Drop + Send + 'static,
    H: Wait + Threads + Clock + AllocGlobal + Clone + Drop + Send + 'static,
    E: Write + Drop + Send + 'static,
>(
    rt: &H,
    setup: &NodeSetup,
    parts: ConsoleParts<G>,
    stdout: StdoutSender,
    lines: Receiver<Input>,
    faults: E,
) -> Result<Sender<StationNews>, AllocError> {
    let (sender, news) = bounded(rt.alloc(), MOST_NEWS)?;
    let drops = SocketDrops::of(rt.alloc(), setup)?;
    let console_loop = console_loop_of(rt.alloc(), parts, stdout, lines, news, drops)?;
    spawn_console_loop(rt, setup, console_loop, faults)?;
    Ok(sender)
}

/// Starts the threads of a node's consoles, and returns the channel of the station's messages to them.
///
/// Fails if memory or a thread was refused.
pub(crate) fn start_console<
    G: StateReader + Drop + Send + 'static,
    H: Wait + Threads + Clock + AllocGlobal + Clone + Drop + Send + 'static,
    I: Read + Drop + Send + 'static,
    O: Write + Drop + Send + 'static,
    E: Write + Drop + Send + 'static,
>(
    rt: &H,
    setup: &NodeSetup,
    parts: ConsoleParts<G>,
    waker: &Arc<ConsoleWaker, Global>,
    console: Console<I, O, E>,
) -> Result<Sender<StationNews>, AllocError> {
    let Console {
        input,
        output,
        faults,
    } = console;
    let stdout = spawn_writer(rt, output, waker)?;
    let (line_sender, lines) = bounded(rt.alloc(), MOST_LINES)?;
    let news = start_sessions(rt, setup, parts, stdout, lines, faults)?;
    spawn_reader(rt, input, line_sender, waker)?;
    Ok(news)
}
