//! Accepts the connections of a node, polls them, and lets each session read and write as far as nothing waits.
//!
//! `console_loop` calls it once a round, on the thread of the sessions. docs/FORMATS.md, "Connections", says what
//! clients see of it: how many connections a listener takes, and which one makes room for a new one. The session of the
//! standard input is here too; its lines come from `stdin` and its output goes to `stdout`, over channels.

use crate::connection::Connection;
use crate::listener::{ListenAddress, ListenSocket, Stream};
use crate::stdin::InputEnd;
use crate::typed_lines::TypedLines;
use mio::event::Event;
use mio::{Events, Poll, Registry, Token, Waker};
use smi_session::{ReplyStyle, SeatAnswer, Session, SessionService, StateReader, boxed};
use smi_tree::Tree;
use std::alloc::{AllocError, Global};
use std::fs::Files;
use std::io;
use std::net::Net;
use std::sync::Wait;
use std::time::{Duration, Instant};

/// The most connections at once at one listener. Each listener has its own, so programs at one never shut people out
/// at the other. docs/FORMATS.md names it.
const MOST_CONNECTIONS: usize = 128;

/// What the node writes to a connection that it closes for want of room (docs/FORMATS.md).
const FULL_REPLY: &[u8] = b"full\n";

/// For how many seconds a connection must have typed nothing before it has to make room for a new one. It is long, so
/// that a burst of new connections does not end connections that are just beginning. docs/FORMATS.md names it.
const SILENT_SECONDS: u64 = 30;

/// The most connections that are accepted at one listener in one round. The others wait for the next round, so that new
/// connections do not hold up those that are there.
const MOST_ACCEPTS: usize = 16;

/// The most events that one poll returns. The system keeps further ones for the next poll.
const MOST_EVENTS: usize = 128;

/// The poll's token of the waker. The session of the standard input has the same number, and no socket in the poll.
const WAKER_TOKEN: usize = 0;

/// The poll's token of the first listener; the next one has the next number.
const FIRST_LISTENER: usize = 1;

/// The number of the first connection, which is its token too. Journals tell it (docs/FORMATS.md, "Journals"). It is
/// larger than the token of any listener.
const FIRST_CONNECTION: u64 = 1_000;

/// The longest poll timeout in milliseconds while something may have to be done that no event tells: an answer, a write
/// that has a deadline, or a listener that failed to accept.
const POLL_LIMIT_MS: u64 = 100;

/// A listener of the node.
#[derive(Drop)]
struct Listener {
    socket: ListenSocket,
    /// True if a connection may wait there.
    is_ready: bool,
}

/// The listeners and the connections of a node, and the session of its standard input.
#[derive(Drop)]
pub(crate) struct ConnectionSet {
    alloc: Global,
    /// The session of the standard input.
    pub(crate) stdin: Session,
    /// How the standard input ended. None if lines of it may still come.
    pub(crate) ending: Option<InputEnd>,
    /// True if the session of the standard input missed something, because memory was refused.
    is_stdin_lost: bool,
    /// The open connections, the first one being the next that is served.
    connections: Vec<Connection>,
    /// The listeners, in the order of the command line.
    listeners: Vec<Listener>,
    /// The number of the next connection. A number is not used again, so that no answer goes to a later connection.
    next_number: u64,
    /// The sender of typed lines to the journal.
    pub(crate) typed: TypedLines,
    /// The poll of all sockets, at which the thread of the sessions waits.
    poll: Poll,
    /// The events of the last poll.
    events: Events<Global>,
}

/// Opens a listener at this address or path, and adds it under the next token.
fn add_listener<R: Files + Net>(
    rt: &R,
    address: &ListenAddress,
    registry: &Registry,
    listeners: &mut Vec<Listener>,
) -> io::Result<()> {
    let mut socket = ListenSocket::open(rt, address)?;
    socket.register(registry, listeners.len().saturating_add(FIRST_LISTENER))?;
    listeners.push(Listener {
        socket,
        is_ready: true,
    })?;
    Ok(())
}

/// Opens a listener at each of these addresses and paths, and adds them.
fn open_listeners<R: Files + Net>(
    rt: &R,
    addresses: &[ListenAddress],
    registry: &Registry,
    listeners: &mut Vec<Listener>,
) -> io::Result<()> {
    for address in addresses {
        add_listener(rt, address, registry, listeners)?;
    }
    Ok(())
}

/// Marks the listener or the connection that an event is of as ready. Ignores the event of the waker, which only ends
/// the poll.
fn handle_event(listeners: &mut [Listener], connections: &mut [Connection], event: &Event) {
    let Token(token) = event.token();
    if let Some(index) = token.checked_sub(FIRST_LISTENER) {
        if let Some(listener) = listeners.get_mut(index) {
            listener.is_ready = true;
        }
    }
    for connection in connections.iter_mut() {
        if usize::try_from(connection.number()) == Ok(token) {
            connection.handle_event(event);
        }
    }
}

/// Delivers an answer to the connection that gave its order, if it is one of these.
fn deliver_to_connection<G: StateReader + Drop>(
    connections: &mut [Connection],
    sessions: &mut SessionService<G>,
    tree: &Tree,
    answered: &SeatAnswer,
) {
    for connection in connections.iter_mut() {
        if connection.deliver_answer(sessions, tree, answered) {
            return;
        }
    }
}

impl ConnectionSet {
    /// Makes a set with these listeners and no connection. Fails if memory was refused.
    fn with_listeners(
        alloc: Global,
        poll: Poll,
        listeners: Vec<Listener>,
    ) -> Result<Box<ConnectionSet>, AllocError> {
        let stdin = Session::new(alloc, 0, ReplyStyle::Script)?;
        let events = Events::with_capacity(alloc, MOST_EVENTS)?;
        let connections = ConnectionSet {
            alloc,
            stdin,
            ending: None,
            is_stdin_lost: false,
            connections: Vec::new(alloc),
            listeners,
            next_number: FIRST_CONNECTION,
            typed: TypedLines::new(None),
            poll,
            events,
        };
        boxed(alloc, connections)
    }

    /// Opens a set that listens at each of these addresses and paths, and a waker of its poll.
    pub(crate) fn open<R: Files + Net>(
        rt: &R,
        alloc: Global,
        addresses: &[ListenAddress],
    ) -> io::Result<(Box<ConnectionSet>, Waker)> {
        let poll = Poll::new(rt)?;
        let waker = Waker::new(poll.registry(), Token(WAKER_TOKEN))?;
        let mut listeners = Vec::new(alloc);
        open_listeners(rt, addresses, poll.registry(), &mut listeners)?;
        Ok((
            ConnectionSet::with_listeners(alloc, poll, listeners)?,
            waker,
        ))
    }

    /// Returns the session of the standard input.
    pub(crate) fn stdin(&mut self) -> &mut Session {
        &mut self.stdin
    }

    /// Sends a line of the standard input to the journal, before the line is handled.
    pub(crate) fn send_to_journal<R: Wait>(&self, rt: &R, line: &[u8]) {
        self.typed.send(rt, self.alloc, self.stdin.number(), line);
    }

    /// Returns true if nothing but the standard input can talk to the node.
    pub(crate) fn has_no_listener(&self) -> bool {
        self.listeners.is_empty()
    }

    /// Delivers an answer to the session that gave its order, if that is still open.
    pub(crate) fn deliver_answer<G: StateReader + Drop>(
        &mut self,
        sessions: &mut SessionService<G>,
        tree: &Tree,
        answered: &SeatAnswer,
    ) {
        match sessions.deliver(tree, &mut self.stdin, answered) {
            Ok(true) => {}
            Ok(false) => deliver_to_connection(&mut self.connections, sessions, tree, answered),
            Err(_) => self.is_stdin_lost = true,
        }
    }

    /// Returns true if a session follows states or actions. That of the standard input counts only if it is still
    /// served.
    pub(crate) fn has_followers(&self, serves_stdin: bool) -> bool {
        serves_stdin && self.stdin.has_subscription()
            || self
                .connections
                .iter()
                .any(|connection| connection.follows())
    }

    /// Marks the standard input as lost and closes each connection, as far as they follow states or actions: memory was
    /// refused, so they have missed an event.
    pub(crate) fn lose_followers(&mut self) {
        self.is_stdin_lost = self.is_stdin_lost || self.stdin.has_subscription();
        for connection in self.connections.iter_mut() {
            if connection.follows() {
                connection.close();
            }
        }
    }

    /// Returns true if the session of the standard input has missed something, because memory was refused.
    pub(crate) fn is_stdin_lost(&self) -> bool {
        self.is_stdin_lost
    }

    /// Returns true if the listener of this index has as many connections as it may have.
    fn is_full(&self, listener: usize) -> bool {
        let connections = self
            .connections
            .iter()
            .filter(|connection| connection.is_at(listener));
        connections.count() >= MOST_CONNECTIONS
    }

    /// Closes the connection that has typed nothing for longest, of those at this listener that nobody uses
    /// (`is_idle`) and that are silent for `SILENT_SECONDS`. Closes none if there is no such connection.
    fn make_room<G: StateReader + Drop>(
        &mut self,
        listener: usize,
        sessions: &SessionService<G>,
        now: Option<Instant>,
    ) {
        let mut longest = Duration::from_secs(SILENT_SECONDS);
        let mut oldest = None;
        for (index, connection) in self.connections.iter().enumerate() {
            if connection.is_at(listener)
                && connection.silence(now) >= longest
                && connection.is_idle(sessions)
            {
                longest = connection.silence(now);
                oldest = Some(index);
            }
        }
        if let Some(connection) = oldest.and_then(|index| self.connections.get_mut(index)) {
            connection.dismiss(FULL_REPLY);
        }
    }

    /// Adds a new connection of a listener under the next number, or closes it if the listener is full or the poll does
    /// not take its socket.
    ///
    /// Fails if memory was refused: then the connection is closed too.
    fn add_connection(
        &mut self,
        listener: usize,
        stream: Stream,
        now: Option<Instant>,
    ) -> Result<(), AllocError> {
        let mut stream = stream;
        if self.is_full(listener) {
            // A new socket takes five bytes; if it does not, its client is closed without a word.
            let _ = stream.write(FULL_REPLY);
            return Ok(());
        }
        let number = self.next_number;
        self.next_number = number.saturating_add(1);
        if let Ok(token) = usize::try_from(number) {
            if stream.register(self.poll.registry(), token).is_ok() {
                let typed = self.typed.try_clone()?;
                let connection = Connection::new(
                    self.alloc,
                    (number, listener),
                    stream,
                    typed,
                    now,
                )?;
                self.connections.push(connection)?;
            }
        }
        Ok(())
    }

    /// Accepts the next connection of the listener of this index. Returns None if no connection waits or the accept
    /// fails.
    fn accept_next(&mut self, index: usize) -> Option<Stream> {
        let listener = self.listeners.get_mut(index)?;
        if !listener.is_ready {
            return None;
        }
        match listener.socket.accept() {
            Ok(stream) => Some(stream),
            Err(e) => {
                // After any other error, as no free descriptor, the connection still waits: it is tried again.
                listener.is_ready = e.kind() != io::ErrorKind::WouldBlock;
                None
            }
        }
    }

    /// Accepts the connections that wait, `MOST_ACCEPTS` at each listener at most. If a listener is full, closes one
    /// that nobody uses.
    pub(crate) fn accept_all<G: StateReader + Drop>(
        &mut self,
        sessions: &SessionService<G>,
        now: Option<Instant>,
    ) {
        for listener in 0..self.listeners.len() {
            for _ in 0..MOST_ACCEPTS {
                match self.accept_next(listener) {
                    Some(stream) => {
                        if self.is_full(listener) {
                            self.make_room(listener, sessions, now);
                        }
                        // Without memory the new connection is closed, and the others go on.
                        let _ = self.add_connection(listener, stream, now);
                    }
                    None => break,
                }
            }
        }
    }

    /// Reads and writes each connection, as far as nothing waits, and closes those that are done.
    ///
    /// Another connection is first in the next round, because the first one may take what the others then don't get, as
    /// the free place at a seat.
    pub(crate) fn serve_all<G: StateReader + Drop, R: Wait>(
        &mut self,
        rt: &R,
        sessions: &mut SessionService<G>,
        tree: &Tree,
        now: Option<Instant>,
    ) {
        for connection in self.connections.iter_mut() {
            connection.turn(rt, sessions, tree, now);
            if connection.should_close() {
                connection.execute_wills(sessions, now);
            }
        }
        self.connections
            .retain(|connection| !connection.should_close());
        if self.connections.len() > 1 {
            self.connections.as_mut_slice().rotate_left(1);
        }
    }

    /// Returns how long the next poll may wait: not at all if somebody has more to do, `POLL_LIMIT_MS` if something may
    /// have to be done that no event tells, and else None, which is without end.
    fn poll_timeout<G: StateReader + Drop>(
        &self,
        sessions: &SessionService<G>,
        has_more: bool,
    ) -> Option<Duration> {
        if has_more
            || self
                .connections
                .iter()
                .any(|connection| connection.can_go_on())
        {
            return Some(Duration::from_millis(0));
        }
        let has_deadline = !sessions.is_idle()
            || !self.stdin.output().is_empty()
            || self.listeners.iter().any(|listener| listener.is_ready)
            || self
                .connections
                .iter()
                .any(|connection| connection.is_timed());
        if has_deadline {
            Some(Duration::from_millis(POLL_LIMIT_MS))
        } else {
            None
        }
    }

    /// Waits until a socket or the waker has an event, or until the timeout, and marks what has an event as ready.
    /// Returns false if polling failed.
    pub(crate) fn wait<G: StateReader + Drop>(
        &mut self,
        sessions: &SessionService<G>,
        has_more: bool,
    ) -> bool {
        let poll_timeout = self.poll_timeout(sessions, has_more);
        let has_waited = self.poll.poll(&mut self.events, poll_timeout).is_ok();
        let (listeners, connections) = (&mut self.listeners, &mut self.connections);
        for event in self.events.iter() {
            handle_event(listeners.as_mut_slice(), connections.as_mut_slice(), event);
        }
        has_waited
    }
}
