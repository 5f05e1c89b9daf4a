//! Reads the requests of one connection of a browser and writes the answers, without waiting, and keeps its deadline.
//!
//! `http_listener` has the connections and gives each a turn. `http_server` has the protocol. docs/RUNNING.md, "The
//! screen", and specs/HttpConnection name both deadlines.

use http_server::{Connection, Service};
use std::io::{ErrorKind, Read, Write};
use std::marker::Model;

/// How many milliseconds a new connection has for its first request and the answer to it. Clauses name the number, and
/// docs/RUNNING.md, "The screen", the seconds.
const PATIENCE: u64 = 5_000;

/// How many milliseconds a connection has from one answer to the next. Clauses name the number, and docs/RUNNING.md,
/// "The screen", the seconds.
const IDLE_TIMEOUT: u64 = 15_000;

/// A connection of a browser.
///
/// Contracts see until when it may stay, and whether it is to be closed.
#[derive(Drop)]
pub struct HttpConnection<T> {
    /// The socket, which never waits.
    stream: T,
    /// What was read and not answered, and what was answered and not written.
    protocol: Connection,
    /// The deadline by which it has to be answered, in milliseconds since the start of the screen.
    until: u64,
    /// True if it is done, late or failed.
    should_close: bool,
}

impl<T> Model for HttpConnection<T> {
    ghost use Rattle.smi_screen.specs.HttpConnection.{GuestState};

    ghost Value = { GuestState };

    ghost view = { λ c. record { until = c.until; should_close = c.should_close } };
}

/// Returns true if an error of a stream that never waits only says that it has nothing to read or takes nothing now.
fn should_retry(kind: ErrorKind) -> bool {
    matches!(kind, ErrorKind::WouldBlock | ErrorKind::Interrupted)
}

impl<T: Read + Write> HttpConnection<T> {
    ghost use Rattle.std.specs.Prelude.{◌≡◌, ◌⊎◌, ◌≤◌, true};
    ghost use Rattle.smi_screen.specs.HttpConnection.{later_by, new_guest};

    /// Makes a connection that comes now, at this many milliseconds since the start of the screen.
    ///
    /// No clause names `stream` and `protocol`: a clause sees of a connection only how long it may stay.
    pub fn new(stream: T, protocol: Connection, now: u64) -> HttpConnection<T>
        ensures { result ≡ new_guest now }
    {
        HttpConnection {
            stream,
            protocol,
            until: now.saturating_add(PATIENCE),
            should_close: false,
        }
    }

    /// Returns its deadline, in milliseconds since the start of the screen.
    pub fn until(&self) -> u64
        ensures { result ≡ self.now.until }
    {
        self.until
    }

    /// Returns true if it is done, its deadline has passed, or its stream has failed.
    pub fn should_close(&self) -> bool
        ensures { result ≡ self.now.should_close }
    {
        self.should_close
    }

    /// Reads once into the protocol. If the stream fails, the connection is to be closed.
    fn read(&mut self)
        ensures { self.new.until ≡ self.old.until }
    {
        match self.protocol.read_from(&mut self.stream) {
            Ok(_) => {}
            Err(e) if should_retry(e.kind()) => {}
            Err(_) => self.should_close = true,
        }
    }

    /// Writes once. If all is written, the deadline moves on by `IDLE_TIMEOUT`; if the stream fails or takes no byte
    /// any more, the connection is to be closed.
    fn write(&mut self, now: u64)
        ensures { (self.new.until ≡ self.old.until) ⊎ (self.new.until ≡ later_by now 15000) }
    {
        match self.protocol.write_to(&mut self.stream) {
            Ok(0) => self.should_close = true,
            Ok(_) => {
                if !self.protocol.wants_write() {
                    self.until = now.saturating_add(IDLE_TIMEOUT);
                }
            }
            Err(e) if should_retry(e.kind()) => {}
            Err(_) => self.should_close = true,
        }
    }

    /// Makes one turn: at most one read, answers to what has been read, and at most one write. If its deadline has
    /// passed, the connection is to be closed, and nothing is read or written.
    ///
    /// No clause names `service`: a clause sees of a connection only how long it may stay. tests/screen_test.py sees
    /// the answers.
    pub fn turn<S: Service>(&mut self, service: &mut S, now: u64)
        ensures due { self.old.until ≤ now → self.new.should_close ≡ true }
        ensures time { (self.new.until ≡ self.old.until) ⊎ (self.new.until ≡ later_by now 15000) }
    {
        if now >= self.until {
            self.should_close = true;
            return;
        }
        if self.protocol.wants_read() {
            self.read();
        }
        self.protocol.advance(service);
        if self.protocol.wants_write() {
            self.write(now);
        }
        if self.protocol.is_done() {
            self.should_close = true;
        }
    }
}
