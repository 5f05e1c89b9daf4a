//! Connects to the console of a node, sends it the orders that the page gives, and receives what it says.
//!
//! `web_server` gives it a turn with the relay of `smi_web`, which makes the lines and reads the answers. The
//! connection is one like any other at the node (docs/FORMATS.md, "Connections"), and the screen asks it for the modes
//! of children too. No call waits. docs/FORMATS.md, "Orders from the page", says what becomes of orders if the
//! connection ends.

use mio::net::{TcpStream, UnixStream};
use smi_session::LineSplitter;
use smi_web::OrderRelay;
use std::alloc::{AllocError, Global};
use std::io::{self, ErrorKind, Read, Write};
use std::net::{Net, SocketAddr};

/// How many milliseconds lie between two tries to connect.
const BETWEEN_TRIES: u64 = 1_000;

/// How many milliseconds a connection may take to be made. After them it is given up, and the next is tried.
const PATIENCE: u64 = 3_000;

/// How many milliseconds lie between two questions for the modes of all children. Nothing tells that a mode has
/// changed, and an answer has a line for each child of the node, so the screen asks seldom (docs/DECISIONS.md).
const BETWEEN_QUESTIONS: u64 = 2_000;

/// How many bytes are read at once.
const AT_ONCE: usize = 512;

/// The most lines that one read can complete: each of its bytes may end one, and one may have been there before. The
/// bound is there so that the loop ends; no line is left over by it.
const LINES: usize = AT_ONCE + 1;

/// The most reads in one turn, so that a console that says much holds up neither the station nor browsers.
const READS: usize = 8;

/// The address at which a node listens for consoles.
#[derive(Drop)]
pub enum ConsoleAddress {
    /// A Unix socket at this path.
    Path(String),
    /// TCP at this address.
    Address(SocketAddr),
}

/// The socket of a connection, which may still be connecting.
#[derive(Drop)]
enum ConsoleStream {
    Unix(UnixStream),
    Tcp(TcpStream),
}

impl ConsoleStream {
    /// Begins to connect, without waiting. Fails if the system refuses it at once.
    fn connect<R: Net>(rt: &R, place: &ConsoleAddress) -> io::Result<ConsoleStream> {
        match place {
            ConsoleAddress::Path(path) => Ok(ConsoleStream::Unix(UnixStream::connect(
                rt,
                path.as_str(),
            )?)),
            ConsoleAddress::Address(address) => Ok(ConsoleStream::Tcp(TcpStream::connect(
                rt, *address,
            )?)),
        }
    }

    /// Returns true if the connection is made: then the socket has a peer.
    fn is_made(&self) -> bool {
        match self {
            ConsoleStream::Unix(stream) => stream.peer_addr().is_ok(),
            ConsoleStream::Tcp(stream) => stream.peer_addr().is_ok(),
        }
    }

    /// Reads what has come, and returns how many bytes. Fails with `WouldBlock` if nothing has come.
    fn read(&mut self, buffer: &mut [u8]) -> io::Result<usize> {
        match self {
            ConsoleStream::Unix(stream) => stream.read(buffer),
            ConsoleStream::Tcp(stream) => stream.read(buffer),
        }
    }

    /// Writes as much as the socket takes, and returns how many bytes. Fails with `WouldBlock` if it takes nothing now.
    fn write(&mut self, bytes: &[u8]) -> io::Result<usize> {
        match self {
            ConsoleStream::Unix(stream) => stream.write(bytes),
            ConsoleStream::Tcp(stream) => stream.write(bytes),
        }
    }
}

/// The state of a connection after a turn.
#[derive(Clone, Copy, PartialEq, Eq)]
enum Health {
    /// It is made, or still connecting.
    Sound,
    /// It has ended, failed, or was not made in time.
    Broken,
}

/// A connection with a console, and the line that it is receiving.
#[derive(Drop)]
struct Connected {
    stream: ConsoleStream,
    /// What has come of the line that is not whole yet.
    splitter: LineSplitter,
    /// When the screen began to connect, in milliseconds since its start.
    since: u64,
    /// When the console is asked for the modes again, in milliseconds since the start of the screen.
    next_question: u64,
}

/// The console of a node, and the connection with it.
#[derive(Drop)]
pub struct NodeConsole {
    alloc: Global,
    /// Where the node listens.
    place: ConsoleAddress,
    /// The connection. None if there is none, not even one that is connecting.
    line: Option<Connected>,
    /// The earliest time of the next try to connect, in milliseconds since the start of the screen.
    next_try: u64,
}

/// Returns true if an error of a stream that never waits only says that it has nothing to read or takes nothing now.
fn should_retry(kind: ErrorKind) -> bool {
    matches!(kind, ErrorKind::WouldBlock | ErrorKind::Interrupted)
}

/// Returns the state of a connection after an error of its stream.
fn after_fault(error: io::Error) -> Health {
    if should_retry(error.kind()) {
        Health::Sound
    } else {
        Health::Broken
    }
}

impl Connected {
    /// Gives the relay the lines that have come. Fails if memory was refused.
    fn hear(&mut self, relay: &mut OrderRelay, now: u64) -> Result<(), AllocError> {
        for _ in 0..LINES {
            match self.splitter.next_line()? {
                Some(line) => relay.receive_line(line.as_slice(), now)?,
                None => return Ok(()),
            }
        }
        Ok(())
    }

    /// Reads what has come, `READS` times at most, and gives its lines to the relay. If memory is refused, the
    /// connection is broken, because an answer is lost.
    fn read(&mut self, relay: &mut OrderRelay, now: u64) -> Health {
        let mut block = [0u8; AT_ONCE];
        for _ in 0..READS {
            let count = match self.stream.read(&mut block) {
                Ok(0) => return Health::Broken,
                Ok(count) => count,
                Err(error) => return after_fault(error),
            };
            let came = block.get(..count).unwrap_or(&[]);
            if self.splitter.push(came).is_err() || self.hear(relay, now).is_err() {
                return Health::Broken;
            }
        }
        Health::Sound
    }

    /// Writes what the relay has to send, as far as the socket takes it.
    fn write(&mut self, relay: &mut OrderRelay) -> Health {
        if relay.unsent().is_empty() {
            return Health::Sound;
        }
        match self.stream.write(relay.unsent()) {
            Ok(count) => {
                relay.consume(count);
                Health::Sound
            }
            Err(error) => after_fault(error),
        }
    }

    /// Has the relay ask for the mode of each child, if it is time and nothing else is to be sent.
    fn ask_modes(&mut self, relay: &mut OrderRelay, now: u64) {
        if self.next_question <= now && relay.unsent().is_empty() {
            self.next_question = now.saturating_add(BETWEEN_QUESTIONS);
            // If memory is refused, the modes are asked for the next time.
            let _ = relay.ask_modes();
        }
    }

    /// Makes the turn of a connection: opens the relay once it is made, and then asks, reads and writes. Returns its
    /// state.
    fn turn(&mut self, relay: &mut OrderRelay, now: u64) -> Health {
        if !relay.is_open() {
            if !self.stream.is_made() {
                return if now.saturating_sub(self.since) < PATIENCE {
                    Health::Sound
                } else {
                    Health::Broken
                };
            }
            relay.open();
        }
        self.ask_modes(relay, now);
        match self.read(relay, now) {
            Health::Sound => self.write(relay),
            Health::Broken => Health::Broken,
        }
    }
}

impl NodeConsole {
    /// Makes a console at this address or path, without a connection.
    ///
    /// It has no clause: no clause sees what comes over a socket. tests/orders_test.py connects to `place`.
    pub fn new(alloc: Global, place: ConsoleAddress) -> NodeConsole {
        NodeConsole {
            alloc,
            place,
            line: None,
            next_try: 0,
        }
    }

    /// Begins to connect, if it is time. If that fails, the next try is a second later.
    fn connect<R: Net>(&mut self, rt: &R, now: u64) {
        if now < self.next_try {
            return;
        }
        self.next_try = now.saturating_add(BETWEEN_TRIES);
        if let Ok(stream) = ConsoleStream::connect(rt, &self.place) {
            self.line = Some(Connected {
                stream,
                splitter: LineSplitter::new(self.alloc),
                since: now,
                next_question: now,
            });
        }
    }

    /// Makes one turn: begins to connect if there is no connection, and else receives what the console said, and sends
    /// what is to be sent, as far as nothing waits. If the connection breaks, the relay is closed, and what was given
    /// on it is lost.
    ///
    /// It has no clause: no clause sees what goes over a socket, and what `relay` makes of it, its own clauses say.
    /// tests/orders_test.py gives orders so.
    pub fn turn<R: Net>(&mut self, rt: &R, relay: &mut OrderRelay, now: u64) {
        let health = match &mut self.line {
            Some(line) => line.turn(relay, now),
            None => return self.connect(rt, now),
        };
        if health == Health::Broken {
            self.line = None;
            self.next_try = now.saturating_add(BETWEEN_TRIES);
            relay.close();
        }
    }
}
