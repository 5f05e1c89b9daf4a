//! Runs the thread of the sessions: takes lines from the standard input and the connections, gives their orders to the
//! station, and delivers answers and events.
//!
//! `threads` builds the [`ConsoleLoop`] and starts the thread. `poll_once` is one round, and its order counts: answers
//! are delivered before lines are handled, and connections that have ended are gone before new ones are accepted. What
//! the sessions make of a line is in `smi_session`. docs/FORMATS.md, "A node's lines", says what people see.

use crate::connection_set::ConnectionSet;
use crate::console_waker::ConsoleWaker;
use crate::event_queue::StationNews;
use crate::faults::journal_fault;
use crate::socket_drops::SocketDrops;
use crate::station_waker::StationWaker;
use crate::stdin::{Input, InputEnd};
use crate::stdout::StdoutSender;
use crossbeam_channel::Receiver;
use smi_base::write_whole;
use smi_commands::status::{no_memory, read_fault, write_fault};
use smi_journal::Noted;
use smi_schedule::Unwritten;
use smi_session::{MOST_PENDING, SessionService, StateReader};
use smi_tree::Tree;
use std::alloc::Global;
use std::io::Write;
use std::sync::{Arc, Wait};
use std::thread::sleep;
use std::time::{Clock, Duration, Instant};

/// The most lines of the standard input that are handled in one round, so that the connections get their turn.
const MOST_LINES: usize = 64;

/// The most messages of the station, and of the journal, that are taken in one round. A session is told of all these
/// events before anything of them is written: 512 states, of at most 80 bytes each, are less than the 64 KiB that it
/// may have unsent.
const MOST_NEWS: usize = 512;

/// What the thread of the sessions has, beside the writer of its faults.
#[derive(Drop)]
pub(crate) struct ConsoleLoop<G: StateReader + Drop> {
    /// The orders, the subscriptions and the seats of all sessions.
    pub(crate) sessions: Box<SessionService<G>>,
    /// The standard input and the connections, and their sessions.
    pub(crate) connections: Box<ConnectionSet>,
    /// The waker of the station's thread, for orders that were given.
    pub(crate) station_waker: StationWaker,
    /// The waker of this thread, which is told here whether anybody follows events.
    pub(crate) waker: Arc<ConsoleWaker, Global>,
    /// The channel to the thread that writes the standard output.
    pub(crate) stdout: StdoutSender,
    /// The lines of the standard input, from the thread that reads it.
    pub(crate) lines: Receiver<Input>,
    /// The events and modes of the station, from its thread.
    pub(crate) news: Receiver<StationNews>,
    /// The faults of the node's journal, from the station's thread.
    pub(crate) journal: Receiver<Noted>,
    /// True if no line of the standard input is handled any more, and nothing more is written for it.
    pub(crate) is_stdin_over: bool,
    /// The count of datagrams to the node that the system dropped.
    pub(crate) drops: SocketDrops,
}

impl<G: StateReader + Drop> ConsoleLoop<G> {
    /// Records the events and modes that the station has sent, `MOST_NEWS` at most. Returns true if there may be more.
    fn record_news<R: Wait>(&mut self, rt: &R) -> bool {
        for _ in 0..MOST_NEWS {
            match self.news.try_recv(rt) {
                Ok(StationNews::Event(event)) => {
                    // Without memory sessions that follow would miss the event.
                    if self.sessions.record(event).is_err() {
                        self.connections.lose_followers();
                    }
                }
                // Without memory the mode of the child stays what it was before.
                Ok(StationNews::Mode(state)) => {
                    let _ = self.sessions.set_mode(state);
                }
                // None waits, or the station's thread is gone.
                Err(_) => return false,
            }
        }
        true
    }

    /// Delivers each answer that is in a seat to its session.
    fn deliver_answers(&mut self, tree: &Tree) {
        for seat in 0..self.sessions.seat_count() {
            // A seat has no more orders than these, so the inner loop takes all its answers.
            for _ in 0..MOST_PENDING {
                match self.sessions.next_answer(seat) {
                    Some(answered) => self
                        .connections
                        .deliver_answer(&mut self.sessions, tree, &answered),
                    None => break,
                }
            }
        }
    }

    /// Writes when the journal has failed, and when it goes on.
    fn report_journal<R: Wait, F: Write>(&self, rt: &R, faults: &mut F) {
        // The bound is there so that the loop ends; the channel holds fewer.
        for _ in 0..MOST_NEWS {
            match self.journal.try_recv(rt) {
                Ok(Noted::Resumed(lost)) => {
                    // If standard error can't be written, nobody is left who could be told.
                    let _ = writeln!(faults, "journal goes on, {lost} steps are lost");
                }
                Ok(Noted::Failed) => {
                    journal_fault(faults);
                }
                Ok(Noted::Written | Noted::Failing) => {}
                Err(_) => return,
            }
        }
    }

    /// Tells the station's thread whether any session follows events. Returns true if events may be there for which
    /// this thread was not woken.
    fn set_followers(&self) -> bool {
        let has_followers = self.connections.has_followers(!self.is_stdin_over);
        self.waker.set_followers(has_followers)
    }

    /// Reads how many datagrams the system has dropped, if the last count is old, for the answer to `counts`.
    fn update_drops(&mut self, now: Option<Instant>) {
        if self.drops.is_due(now) {
            let drops = self.drops.read(now);
            self.sessions.set_drops(drops);
        }
    }

    /// Returns the next line of the standard input, or None if none has come, or its session takes none now. Remembers
    /// how the standard input ended.
    fn next_line<R: Wait>(&mut self, rt: &R) -> Option<Vec<u8>> {
        if self.connections.ending.is_some() || !self.connections.stdin.has_room() {
            return None;
        }
        match self.lines.try_recv(rt) {
            Ok(Input::Line(line)) => Some(line),
            Ok(Input::Ended(ending)) => {
                self.connections.ending = Some(ending);
                None
            }
            Err(_) => None,
        }
    }

    /// Returns how the standard input has ended. None if it has not, if a line of it is not answered, or if an answer
    /// is not written.
    fn stdin_ending(&self) -> Option<InputEnd> {
        let stdin = &self.connections.stdin;
        let is_told = stdin.output().is_empty() && self.stdout.is_written();
        if is_told && stdin.is_idle() && !self.sessions.has_pending(stdin.number()) {
            self.connections.ending
        } else {
            None
        }
    }
}

/// Writes how the standard input or the standard output ended, if that is a fault.
fn report_ending<F: Write>(ending: Result<InputEnd, Unwritten>, faults: &mut F) {
    match ending {
        Ok(InputEnd::End) => {}
        Ok(InputEnd::ReadFault) => {
            read_fault(faults);
        }
        Err(Unwritten::Writer) => {
            write_fault(faults);
        }
        Ok(InputEnd::Memory) | Err(Unwritten::Memory) => {
            no_memory(faults);
        }
    }
}

/// Writes the faults of the session of the standard input, and sends its output to the thread that writes it.
fn send_output<G: StateReader + Drop, R: Wait, F: Write>(
    rt: &R,
    console_loop: &mut ConsoleLoop<G>,
    faults: &mut F,
) -> Result<(), Unwritten> {
    let stdin = console_loop.connections.stdin();
    if !stdin.errors().is_empty() {
        // If standard error can't be written, nobody is left who could be told.
        let _ = write_whole(faults, stdin.errors());
        stdin.clear_errors();
    }
    console_loop.stdout.send(rt, stdin)
}

/// Serves the standard input for one round: delivers events to its session, handles up to `MOST_LINES` lines, and sends
/// its output. Returns true if it may have more lines.
///
/// Fails if memory was refused or the standard output can't be written: then the standard input is over.
fn serve_stdin<G: StateReader + Drop, R: Wait, F: Write>(
    rt: &R,
    tree: &Tree,
    now: Option<Instant>,
    console_loop: &mut ConsoleLoop<G>,
    faults: &mut F,
) -> Result<bool, Unwritten> {
    if console_loop.connections.is_stdin_lost() {
        return Err(Unwritten::Memory);
    }
    console_loop
        .sessions
        .deliver_events(tree, &mut console_loop.connections.stdin)?;
    console_loop
        .sessions
        .resume(tree, now, &mut console_loop.connections.stdin)?;
    send_output(rt, console_loop, faults)?;
    for _ in 0..MOST_LINES {
        match console_loop.next_line(rt) {
            Some(line) => {
                console_loop
                    .connections
                    .send_to_journal(rt, line.as_slice());
                console_loop
                    .sessions
                    .receive_line(tree, now, &mut console_loop.connections.stdin, line)?;
                send_output(rt, console_loop, faults)?;
            }
            None => return Ok(false),
        }
    }
    Ok(true)
}

/// Serves the standard input if it is not over. If it ends, writes how, and reports its wills. Returns true if it may
/// have more lines.
fn poll_stdin<G: StateReader + Drop, R: Wait, F: Write>(
    rt: &R,
    tree: &Tree,
    now: Option<Instant>,
    console_loop: &mut ConsoleLoop<G>,
    faults: &mut F,
) -> bool {
    if console_loop.is_stdin_over {
        // Nobody reads what its session is still told.
        console_loop.connections.stdin().consume(usize::MAX);
        return false;
    }
    let ending = match serve_stdin(rt, tree, now, console_loop, faults) {
        Ok(true) => return true,
        Ok(false) => console_loop.stdin_ending().map(Ok),
        Err(unwritten) => Some(Err(unwritten)),
    };
    if let Some(ending) = ending {
        console_loop.is_stdin_over = true;
        // Without memory these reports are lost, and the standard input, which is over, can't be told.
        let _ = console_loop
            .sessions
            .execute_wills(now, &console_loop.connections.stdin);
        report_ending(ending, faults);
    }
    false
}

/// Does one round: takes what the station and the journal have sent, and serves the standard input and each connection,
/// as far as nothing waits. Returns true if the standard input or the station may have more.
fn poll_once<G: StateReader + Drop, R: Wait + Clock, F: Write>(
    rt: &R,
    tree: &Tree,
    console_loop: &mut ConsoleLoop<G>,
    faults: &mut F,
) -> bool {
    let now = Instant::now(rt).ok();
    console_loop.update_drops(now);
    console_loop.report_journal(rt, faults);
    let has_more_news = console_loop.record_news(rt);
    console_loop.deliver_answers(tree);
    let has_more_lines = poll_stdin(rt, tree, now, console_loop, faults);
    console_loop
        .connections
        .serve_all(rt, &mut console_loop.sessions, tree, now);
    // After that, because connections that have ended are gone by then and make room for new ones.
    console_loop
        .connections
        .accept_all(&console_loop.sessions, now);
    console_loop.sessions.clear_events();
    if console_loop.sessions.has_given() {
        console_loop.station_waker.wake();
    }
    let has_unseen_news = console_loop.set_followers();
    has_more_lines || has_more_news || has_unseen_news
}

/// Does round after round, and waits between them until something happens. Returns once the standard input is over, if
/// the node has no listener: then nobody can talk to it any more.
pub(crate) fn run_console_loop<G: StateReader + Drop, R: Wait + Clock, F: Write>(
    rt: &R,
    tree: &Tree,
    console_loop: &mut ConsoleLoop<G>,
    faults: &mut F,
) {
    for _ in rt.forever() {
        let has_more = poll_once(rt, tree, console_loop, faults);
        if console_loop.is_stdin_over && console_loop.connections.has_no_listener() {
            return;
        }
        if !console_loop
            .connections
            .wait(&console_loop.sessions, has_more)
        {
            // The poll failed and did not wait: the pause keeps the loop from taking all of a processor.
            sleep(rt, Duration::from_millis(1));
        }
    }
}
