//! Reads the lines of one connection, has its session handle them, and writes what the session is to be told.
//!
//! `connection_set` has the connections and calls each once a round, on the thread of the sessions. No call waits: a
//! connection does what its socket allows, and remembers what it could not do. docs/FORMATS.md, "Connections", says
//! when a connection ends.

use crate::listener::Stream;
use crate::typed_lines::TypedLines;
use mio::event::Event;
use smi_session::{
    LineSplitter, MOST_UNSENT, ReplyStyle, SeatAnswer, Session, SessionService, StateReader,
};
use smi_tree::Tree;
use std::alloc::{AllocError, Global};
use std::io::ErrorKind;
use std::sync::Wait;
use std::time::{Duration, Instant};

/// How many bytes are read at once.
const BLOCK_BYTES: usize = 512;

/// The most reads for one line in one round: with 512 bytes each many times the longest line. The bound is there so
/// that the loop ends, and the rest is read in the next round.
const MOST_READS: usize = 64;

/// The most lines of a connection that are handled in one round, so that the others get their turn.
const MOST_LINES: usize = 32;

/// How many seconds a connection may take nothing of its output. Then it is closed, because its output must not be kept
/// without end, and no other connection may wait for it. docs/FORMATS.md, "Connections", names it.
const WRITE_TIMEOUT_SECONDS: u64 = 2;

/// A connection and its session.
#[derive(Drop)]
pub(crate) struct Connection {
    alloc: Global,
    /// The index of its listener, from 0.
    listener: usize,
    /// The socket.
    stream: Stream,
    /// The sender of its lines to the journal.
    typed: TypedLines,
    /// What it asked for, and what it is to be told.
    session: Session,
    /// What it sent that is not handled yet.
    splitter: LineSplitter,
    /// True if there may be something to read. The poll tells of new bytes once, so this stays true until a read finds
    /// none.
    can_read: bool,
    /// True if the socket may take bytes. It stays true until a write finds that it does not.
    can_write: bool,
    /// True if its client has closed its side.
    read_closed: bool,
    /// True if its client takes no more output.
    write_closed: bool,
    /// Since when it has taken nothing of its output, or takes no more. None if no output waits.
    stuck_since: Option<Instant>,
    /// When it typed its last line, or when it came. None if the clock failed then.
    last_line_at: Option<Instant>,
    /// True if it is to be closed at the end of the round.
    should_close: bool,
}

/// The outcome of a read.
enum BlockRead {
    /// Bytes have come.
    Bytes,
    /// Nothing has come, or nothing more will.
    Nothing,
}

impl Connection {
    /// Makes a connection of this number, to the listener of this index, that came now and has typed nothing.
    ///
    /// Fails if memory was refused.
    pub(crate) fn new(
        alloc: Global,
        (number, listener): (u64, usize),
        stream: Stream,
        typed: TypedLines,
        now: Option<Instant>,
    ) -> Result<Connection, AllocError> {
        Ok(Connection {
            alloc,
            listener,
            stream,
            typed,
            session: Session::new(alloc, number, ReplyStyle::Human)?,
            splitter: LineSplitter::new(alloc),
            can_read: true,
            can_write: true,
            read_closed: false,
            write_closed: false,
            stuck_since: None,
            last_line_at: now,
            should_close: false,
        })
    }

    /// Returns true if it counts as a connection of the listener of this index: one that is to be closed does not.
    pub(crate) fn is_at(&self, listener: usize) -> bool {
        self.listener == listener && !self.should_close
    }

    /// Returns true if its session follows states or actions.
    pub(crate) fn follows(&self) -> bool {
        self.session.has_subscription()
    }

    /// Returns its number, which is that of its session and its token at the poll.
    pub(crate) fn number(&self) -> u64 {
        self.session.number()
    }

    /// Returns true if it is to be closed.
    pub(crate) fn should_close(&self) -> bool {
        self.should_close
    }

    /// Marks it to be closed.
    pub(crate) fn close(&mut self) {
        self.should_close = true;
    }

    /// Writes this reply, as far as the socket takes it, and marks the connection to be closed.
    pub(crate) fn dismiss(&mut self, reply: &[u8]) {
        // A client that does not take the reply is closed all the same.
        let _ = self.stream.write(reply);
        self.should_close = true;
    }

    /// Returns true if nobody waits for what it does: it follows nothing, leaves nothing to be reported when it ends,
    /// nothing of it is under way, and nothing that it typed may be unread.
    pub(crate) fn is_idle<G: StateReader + Drop>(&self, sessions: &SessionService<G>) -> bool {
        !self.can_read
            && self.splitter.is_empty()
            && self.session.is_idle()
            && self.session.output().is_empty()
            && self.session.wills().is_empty()
            && !self.session.has_subscription()
            && !sessions.has_pending(self.session.number())
    }

    /// Returns for how long it has typed nothing, or zero if the clock failed.
    pub(crate) fn silence(&self, now: Option<Instant>) -> Duration {
        match (now, self.last_line_at) {
            (Some(now), Some(heard)) => now.duration_since(heard),
            _ => Duration::ZERO,
        }
    }

    /// Records what the poll says of its socket.
    pub(crate) fn handle_event(&mut self, event: &Event) {
        self.can_read = self.can_read || event.is_readable() || event.is_read_closed();
        self.can_write = self.can_write || event.is_writable();
        self.write_closed = self.write_closed || event.is_write_closed() || event.is_error();
    }

    /// Reads a block into the splitter. Remembers that the client has closed its side, or that the socket failed.
    ///
    /// Fails if memory was refused.
    fn read(&mut self) -> Result<BlockRead, AllocError> {
        if !self.can_read || self.read_closed {
            return Ok(BlockRead::Nothing);
        }
        let mut block = [0u8; BLOCK_BYTES];
        match self.stream.read(&mut block) {
            Ok(0) => self.read_closed = true,
            Ok(count) => {
                self.splitter.push(block.get(..count).unwrap_or(&[]))?;
                return Ok(BlockRead::Bytes);
            }
            Err(e) if e.kind() == ErrorKind::WouldBlock => self.can_read = false,
            Err(e) if e.kind() == ErrorKind::Interrupted => {}
            Err(_) => {
                self.read_closed = true;
                self.write_closed = true;
            }
        }
        Ok(BlockRead::Nothing)
    }

    /// Returns the next line that it typed, or None if no whole line has come. After the client has closed its side,
    /// the rest without a line feed is a line too.
    ///
    /// Fails if memory was refused.
    fn next_line(&mut self) -> Result<Option<Vec<u8>>, AllocError> {
        for _ in 0..MOST_READS {
            if let Some(line) = self.splitter.next_line()? {
                return Ok(Some(line));
            }
            match self.read()? {
                BlockRead::Bytes => {}
                BlockRead::Nothing if self.read_closed => return self.splitter.last_line(),
                BlockRead::Nothing => return Ok(None),
            }
        }
        Ok(None)
    }

    /// Delivers events to its session, lets the session go on with lines that wait, and handles up to `MOST_LINES` new
    /// ones.
    ///
    /// Fails if memory was refused.
    fn serve_lines<G: StateReader + Drop, R: Wait>(
        &mut self,
        rt: &R,
        sessions: &mut SessionService<G>,
        tree: &Tree,
        now: Option<Instant>,
    ) -> Result<(), AllocError> {
        sessions.deliver_events(tree, &mut self.session)?;
        sessions.resume(tree, now, &mut self.session)?;
        for _ in 0..MOST_LINES {
            if !self.session.has_room() {
                return Ok(());
            }
            match self.next_line()? {
                Some(line) => {
                    self.last_line_at = now;
                    let session = self.session.number();
                    self.typed.send(rt, self.alloc, session, line.as_slice());
                    sessions.receive_line(tree, now, &mut self.session, line)?;
                }
                None => return Ok(()),
            }
        }
        Ok(())
    }

    /// Writes what it is to be told, as far as the socket takes it, and measures since when it takes nothing. Drops all
    /// output if its client takes no more.
    fn write(&mut self, now: Option<Instant>) {
        if self.write_closed {
            self.session.consume(usize::MAX);
        } else if self.session.output().is_empty() {
            self.stuck_since = None;
            return;
        }
        if self.stuck_since.is_none() {
            self.stuck_since = now;
        }
        if self.write_closed || !self.can_write {
            return;
        }
        match self.stream.write(self.session.output()) {
            Ok(count) => {
                self.session.consume(count);
                self.stuck_since = now;
            }
            Err(e) if e.kind() == ErrorKind::WouldBlock => self.can_write = false,
            Err(e) if e.kind() == ErrorKind::Interrupted => {}
            Err(_) => self.write_closed = true,
        }
    }

    /// Returns true if it has taken nothing of its output for `WRITE_TIMEOUT_SECONDS`, or has more bytes unsent than a
    /// session may have.
    fn is_stuck(&self, now: Option<Instant>) -> bool {
        let is_late = match (now, self.stuck_since) {
            (Some(now), Some(since)) => now.duration_since(since).as_secs()
                >= WRITE_TIMEOUT_SECONDS,
            _ => false,
        };
        is_late || self.session.output().len() > MOST_UNSENT
    }

    /// Adds the answer to its output if this connection gave the order, and returns whether it did.
    ///
    /// If memory is refused, the connection is closed, because its client would wait for that answer in vain.
    pub(crate) fn deliver_answer<G: StateReader + Drop>(
        &mut self,
        sessions: &mut SessionService<G>,
        tree: &Tree,
        answered: &SeatAnswer,
    ) -> bool {
        match sessions.deliver(tree, &mut self.session, answered) {
            Ok(is_own) => is_own,
            Err(_) => {
                self.should_close = true;
                true
            }
        }
    }

    /// Reads and drops what else a refused client has sent. A connection that is closed with bytes unread is reset, and
    /// then the client might not see what it was told.
    fn drop_unread(&mut self) {
        let mut block = [0u8; BLOCK_BYTES];
        // The bound is there so that the loop ends: a client may send without end.
        for _ in 0..MOST_READS {
            match self.stream.read(&mut block) {
                Ok(0) | Err(_) => return,
                Ok(_) => {}
            }
        }
    }

    /// Returns true if a refused client was sent its fault.
    fn is_refusal_sent(&self) -> bool {
        self.session.is_refused() && self.session.output().is_empty()
    }

    /// Returns true if its client sends no more and either all its lines are answered or the client is gone.
    ///
    /// A connection with a will is done as soon as it sends no more, because a program that was killed can't be told
    /// apart from one that has closed its side.
    fn is_done<G: StateReader + Drop>(&self, sessions: &SessionService<G>) -> bool {
        self.read_closed
            && self.splitter.is_empty()
            && self.session.is_idle()
            && self.session.output().is_empty()
            && (self.write_closed
                || !self.session.wills().is_empty()
                || !self.session.has_subscription() && !sessions.has_pending(self.session.number()))
    }

    /// Reports the states that its client has set as wills, because it ends.
    pub(crate) fn execute_wills<G: StateReader + Drop>(
        &self,
        sessions: &mut SessionService<G>,
        now: Option<Instant>,
    ) {
        // Without memory these reports are lost, and the client, which is gone, can't be told.
        let _ = sessions.execute_wills(now, &self.session);
    }

    /// Serves it for one round: handles its lines, writes its output, and decides whether it is to be closed.
    pub(crate) fn turn<G: StateReader + Drop, R: Wait>(
        &mut self,
        rt: &R,
        sessions: &mut SessionService<G>,
        tree: &Tree,
        now: Option<Instant>,
    ) {
        if self.serve_lines(rt, sessions, tree, now).is_err() {
            self.should_close = true;
        }
        if self.session.is_refused() {
            self.drop_unread();
        }
        self.write(now);
        self.should_close = self.should_close
            || self.is_refusal_sent()
            || self.is_done(sessions)
            || self.is_stuck(now);
    }

    /// Returns true if it has more to read or to write at once, so that the poll must not wait.
    pub(crate) fn can_go_on(&self) -> bool {
        let can_take_line = !self.splitter.is_empty() || self.can_read && !self.read_closed;
        can_take_line && self.session.has_room() || self.can_write && self.has_unsent()
    }

    /// Returns true if it has output that is not written.
    fn has_unsent(&self) -> bool {
        !self.session.output().is_empty()
    }

    /// Returns true if it has a deadline, that of its write.
    pub(crate) fn is_timed(&self) -> bool {
        self.stuck_since.is_some()
    }
}
