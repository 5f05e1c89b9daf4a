//! Serves the sessions of a node: handles their lines, finds the session of each answer, and tells them of events.
//! `ConsoleLoop`, `ConnectionSet` and `Connection` of `smi_console` call it, all in one thread. No call waits. The
//! order in which the lines of a session are handled is promised in docs/FORMATS.md, "A node's lines".

ghost use Rattle.std.specs.Prelude.{◌≡◌, OnOk};
ghost use Rattle.smi_session.specs.StationEvent.{after_event};

use crate::boxes::boxed;
use crate::fault_reply::push_fault;
use crate::mode::{ChildState, place_of_child};
use crate::reply::write_told;
use crate::request::{SessionRequest, request_of_line};
use crate::seat_table::{SeatAnswer, SeatTable};
use crate::session::Session;
use crate::state_reader::StateReader;
use crate::station_event::{StationEvent, write_event};
use crate::tag::{TaggedLine, tagged};
use crate::will::write_will;
use smi_base::MOST_BYTES_OF_A_LINE;
use smi_grant::Shown;
use smi_node::NodeStats;
use smi_schedule::spell_board;
use smi_tree::{Fault, Tree};
use smi_view::{Picture, is_newer};
use std::alloc::{AllocError, Global};
use std::marker::Model;
use std::sync::Arc;
use std::time::Instant;

/// The most waiting lines of a session that are handled in one call of `resume`, so that one session does not hold up
/// the others, and so that the loop ends. The next call goes on. `HandlesWaiting` (`specs/Handling`) has the number
/// too.
const LINES_AT_ONCE: usize = 64;

/// The service of a node's sessions: the seats of the station, what the board shows, and what else a line may ask.
///
/// Contracts see the seats, what the board has shown, the newest states, the events that were not cleared, and the
/// modes of the children.
#[derive(Drop)]
pub struct SessionService<G: StateReader + Drop> {
    /// The seats of the station, and the orders that wait for one.
    pub(crate) seats: SeatTable,
    /// Reads the board of the station, for `show`.
    board: G,
    /// What the node counts, for `counts`. The thread of the station raises the numbers meanwhile.
    pub(crate) counts: Arc<NodeStats, Global>,
    /// The newest recorded state of each object, for `states` and `follow`. Its times are not used, and are 0.
    pub(crate) picture: Picture,
    /// How many datagrams to the node the system has dropped, for `counts`. None if the system does not tell.
    pub(crate) drops: Option<u64>,
    /// The events that were recorded and not cleared, in the order in which they happened. Each session gets all of
    /// them before they are cleared.
    events: Vec<StationEvent>,
    /// The newest mode of each child of the station's domains, for `modes`.
    pub(crate) modes: Vec<ChildState>,
    /// Room for the line that is being written. What it has between calls means nothing.
    pub(crate) text: Vec<u8>,
    /// The allocator for subscriptions.
    pub(crate) alloc: Global,
}

impl<G: StateReader + Drop> Model for SessionService<G> {
    ghost use Rattle.smi_session.specs.Service.{ServiceState};
    ghost use Rattle.smi_session.specs.StationEvent.{AreInOrder};

    ghost Value = { ServiceState };

    ghost view = { λ s. record {
      seats = s.seats;
      board = G.shows s.board;
      picture = s.picture;
      events = s.events.items;
      modes = s.modes.items;
    } };

    ghost invariant = { λ s. AreInOrder s.picture s.events.items };
}

/// Pushes the line of an event to a session, if it subscribes to such events: a state to those that follow the object,
/// an action to those that asked for actions at the device, and missed actions to all that asked for actions.
fn deliver_event(
    text: &mut Vec<u8>,
    tree: &Tree,
    session: &mut Session,
    event: StationEvent,
) -> Result<(), AllocError>
    ensures { OnOk result (session.new ≡ after_event tree.now event session.old) }
{
    let tag = match event {
        StationEvent::StateChanged(shown) => session.state_tag(shown.object),
        StationEvent::ActionDone(done) => session.action_tag(done.shown.object),
        StationEvent::Lagged(_) => session.any_action_tag(),
    };
    match tag {
        Some(tag) => {
            write_event(text, tree, session.wants_numbers(), event)?;
            session.push_reply(tag, text.as_slice())
        }
        None => Ok(()),
    }
}

impl<G: StateReader + Drop> SessionService<G> {
    ghost use Rattle.std.specs.Prelude.{◌≡◌, ◌≢◌, [], true, false, length, Ok, IfOk, IfSome, IfNone, OnOk, OnErr};
    ghost use Rattle.smi_session.specs.Handling.{Does, Handles, HandlesLine, HandlesNext, HandlesSome, HandlesWaiting};
    ghost use Rattle.smi_session.specs.Handling.{Receives, ReceivesPart, Refuses, Resumes, ResumesPart};
    ghost use Rattle.smi_session.specs.Mode.{with_newest};
    ghost use Rattle.smi_session.specs.Request.{request_of_line};
    ghost use Rattle.smi_session.specs.SeatQueue.{Keeps};
    ghost use Rattle.smi_session.specs.SeatTable.{ChangesAt, ReportsAll, TakesNext, has_pending, is_idle};
    ghost use Rattle.smi_session.specs.Service.{Records, is_new, new_service, told_text};
    ghost use Rattle.smi_session.specs.Session.{ending, may_go_on, with_reply};
    ghost use Rattle.smi_session.specs.StationEvent.{after_events};
    ghost use Rattle.smi_session.specs.declared.trust.Trust.TheVariants as Trust;
    ghost use Rattle.smi_session.specs.declared.station_event.StationEvent.TheVariants as event;

    /// Opens the service of a node over these seats, with no events.
    ///
    /// Fails if memory is refused. No clause names `alloc`, from which memory comes, nor `counts`, which others raise
    /// while they are read: a clause is of one moment. tests/consoles_test.py reads them.
    pub fn open(
        alloc: Global,
        seats: SeatTable,
        board: G,
        counts: Arc<NodeStats, Global>,
        picture: Picture,
    ) -> Result<Box<SessionService<G>>, AllocError>
        ensures { IfOk result (λ s. s.value ≡ new_service seats (G.shows board) picture) }
    {
        let service = SessionService {
            seats,
            board,
            counts,
            picture,
            drops: None,
            events: Vec::new(alloc),
            modes: Vec::new(alloc),
            text: Vec::new(alloc),
            alloc,
        };
        boxed(alloc, service)
    }

    /// Sets how many datagrams to the node the system has dropped. None if the system does not tell.
    ///
    /// No clause names `drops`: it is shown by `counts` alone, a text of numbers. tests/consoles_test.py reads it.
    pub fn set_drops(&mut self, drops: Option<u64>)
        ensures { self.new ≡ self.old }
    {
        self.drops = drops;
    }

    /// Returns true if an order was submitted since the last call. Then the caller has to wake the station, which looks
    /// at its seats.
    pub fn has_given(&mut self) -> bool
        ensures asked { result ≡ self.old.seats.has_given }
        ensures told { self.new ≡ record self.old { seats = record self.old.seats { has_given = false } } }
    {
        self.seats.has_given()
    }

    /// Returns true if no order is pending, and none waits for a seat.
    pub fn is_idle(&self) -> bool
        ensures { result ≡ is_idle self.now.seats }
    {
        self.seats.is_idle()
    }

    /// Returns true if an order of this session is pending, or waits for a seat.
    pub fn has_pending(&self, session: u64) -> bool
        ensures { result ≡ has_pending self.now.seats session }
    {
        self.seats.has_pending(session)
    }

    /// Returns how many seats there are, the one for reports with them.
    pub fn seat_count(&self) -> usize
        ensures { result ≡ length self.now.seats.queues }
    {
        self.seats.queues().len()
    }

    /// Returns what a line of a session asks, or its fault. None if the line is skipped.
    fn request(
        &self,
        tree: &Tree,
        session: &Session,
        has_tag: bool,
        text: &[u8],
    ) -> Result<Option<SessionRequest>, Fault>
        ensures { result ≡ request_of_line tree.now self.now.seats.operators session.now.style has_tag text.now }
    {
        let operators = self.seats.operators();
        request_of_line(tree, operators, session.style(), has_tag, text)
    }

    /// Does what a line asks: answers it, gives an order, or skips it.
    ///
    /// Fails if memory is refused to the session's output. No order was given then.
    fn do_request(
        &mut self,
        tree: &Tree,
        now: Option<Instant>,
        session: &mut Session,
        line: TaggedLine<'_>,
        request: Option<SessionRequest>,
    ) -> Result<(), AllocError>
        ensures ok { OnOk result (Does tree.now now line.entry.tag line.entry.text.now request self.old session.old
            self.new session.new) }
        ensures err { OnErr result (self.new.seats ≡ self.old.seats) }
    {
        match request {
            Some(SessionRequest::Order(operator, order)) => {
                self.seats.order(now, session, line.tag, operator, order);
                Ok(())
            }
            Some(SessionRequest::Show(object)) => {
                let shown = self.board.shown(object);
                spell_board(&mut self.text, tree, object, shown)?;
                session.push_reply(line.tag, self.text.as_slice())
            }
            Some(SessionRequest::Will(will)) => {
                session.set_will(will)?;
                write_will(&mut self.text, tree, will)?;
                session.push_reply(line.tag, self.text.as_slice())
            }
            Some(SessionRequest::Query(query)) => self.answer_query(
                tree, now, session, line, query,
            ),
            Some(SessionRequest::Withdraw) => self.withdraw(session, line),
            None => Ok(()),
        }
    }

    /// Pushes the fault of a line to its session.
    ///
    /// Fails if memory is refused to the session's output.
    fn refuse(
        &mut self,
        tree: &Tree,
        session: &mut Session,
        line: TaggedLine<'_>,
        fault: Fault,
    ) -> Result<(), AllocError>
        ensures ok { OnOk result (Refuses tree.now line.entry.tag line.entry.number line.entry.text.now fault self.old
            session.old self.new session.new) }
        ensures err { self.new.seats ≡ self.old.seats }
    {
        let operators = self.seats.operators();
        push_fault(&mut self.text, tree, operators, session, line, fault)
    }

    /// Handles a line of a session: does what it asks, or pushes its fault. It also notes what the line shows of the
    /// session (`Trust`).
    ///
    /// Fails if memory is refused to the session's output. No order was given then.
    fn handle(
        &mut self,
        tree: &Tree,
        now: Option<Instant>,
        session: &mut Session,
        line: TaggedLine<'_>,
    ) -> Result<(), AllocError>
        ensures ok { OnOk result (Handles tree.now now line.entry.tag line.entry.number line.entry.text.now self.old
            session.old self.new session.new) }
        ensures err { OnErr result (self.new.seats ≡ self.old.seats) }
    {
        match self.request(tree, session, line.tag.is_some(), line.text) {
            Ok(request) => {
                session.admit(request);
                self.do_request(tree, now, session, line, request)
            }
            Err(fault) => {
                session.judge(line.tag.is_some(), line.text);
                self.refuse(tree, session, line, fault)
            }
        }
    }

    /// Handles the first waiting line of a session. Returns false if there is none, or it may not be handled yet.
    ///
    /// Fails if memory is refused to the session's output. No order was given then.
    fn handle_next(
        &mut self,
        tree: &Tree,
        now: Option<Instant>,
        session: &mut Session,
    ) -> Result<bool, AllocError>
        ensures one { result ≡ Ok true → HandlesNext tree.now now self.old session.old self.new session.new }
        ensures none { result ≡ Ok false → (may_go_on session.old ≡ false) × (self.new ≡ self.old)
            × (session.new ≡ session.old) }
        ensures err { OnErr result (self.new.seats ≡ self.old.seats) }
    {
        match session.next_waiting() {
            Some(numbered) => {
                let line = TaggedLine {
                    number: numbered.number,
                    tag: None,
                    text: numbered.line.as_slice(),
                };
                self.handle(tree, now, session, line)?;
                Ok(true)
            }
            None => Ok(false),
        }
    }

    /// Handles the waiting lines of a session, up to one that gives an order.
    ///
    /// Fails if memory is refused to the session's output.
    fn handle_waiting(
        &mut self,
        tree: &Tree,
        now: Option<Instant>,
        session: &mut Session,
    ) -> Result<(), AllocError>
        ensures ok { OnOk result (HandlesWaiting tree.now now self.old session.old self.new session.new) }
        ensures err { OnErr result (HandlesSome tree.now now self.old session.old self.new) }
    {
        // The bound is there so that the loop ends.
        for _ in 0..LINES_AT_ONCE {
            if !self.handle_next(tree, now, session)? {
                return Ok(());
            }
        }
        Ok(())
    }

    /// Gives the order that a session keeps as deferred, if any, and then handles its waiting lines, up to one that
    /// gives an order. The caller calls it for each session in each round.
    ///
    /// Fails if memory is refused to the session's output. Then a part of the output is missing, and orders were given
    /// only of the lines before.
    pub fn resume(
        &mut self,
        tree: &Tree,
        now: Option<Instant>,
        session: &mut Session,
    ) -> Result<(), AllocError>
        ensures ok { OnOk result (Resumes tree.now now self.old session.old self.new session.new) }
        ensures err { OnErr result (ResumesPart tree.now now self.old session.old self.new) }
    {
        self.seats.give_deferred(session);
        self.handle_waiting(tree, now, session)
    }

    /// Handles a line at once if it has a tag. Any other is put at the end of the session's waiting lines, which are
    /// then handled as far as they may be.
    ///
    /// Fails if memory is refused to the session's output or to its waiting lines. Then orders were given only of the
    /// lines before.
    fn handle_line(
        &mut self,
        tree: &Tree,
        now: Option<Instant>,
        session: &mut Session,
        line: Vec<u8>,
    ) -> Result<(), AllocError>
        ensures ok { OnOk result (HandlesLine tree.now now line.items self.old session.old self.new session.new) }
        ensures err { OnErr result (ReceivesPart tree.now now line.items self.old session.old self.new) }
    {
        let number = session.count_line();
        // A line that is too long has no tag: its fault has its number.
        if line.len() <= MOST_BYTES_OF_A_LINE {
            if let Some((tag, text)) = tagged(line.as_slice()) {
                let line = TaggedLine {
                    number,
                    tag: Some(tag),
                    text,
                };
                return self.handle(tree, now, session, line);
            }
        }
        session.wait(number, line)?;
        self.resume(tree, now, session)
    }

    /// Receives a line of a session: handles it at once if it has a tag, and otherwise in its turn. Does nothing if the
    /// session is refused.
    ///
    /// Fails if memory is refused to the session's output or to its waiting lines. Then orders were given only of the
    /// lines before.
    pub fn receive_line(
        &mut self,
        tree: &Tree,
        now: Option<Instant>,
        session: &mut Session,
        line: Vec<u8>,
    ) -> Result<(), AllocError>
        ensures ok { OnOk result (Receives tree.now now line.items self.old session.old self.new session.new) }
        ensures err { OnErr result (ReceivesPart tree.now now line.items self.old session.old self.new) }
        ensures refused { session.old.trust ≡ Trust.Refused → (self.new ≡ self.old) × (session.new ≡ session.old) }
    {
        if session.is_refused() {
            Ok(())
        } else {
            self.handle_line(tree, now, session, line)
        }
    }

    /// Reports the wills of a session that ends. Nobody is told how these reports end.
    ///
    /// Fails if memory is refused. Then some are not reported.
    pub fn execute_wills(
        &mut self,
        now: Option<Instant>,
        session: &Session,
    ) -> Result<(), AllocError>
        ensures ok { OnOk result (ReportsAll now session.now.number session.now.wills self.old.seats self.new.seats) }
        ensures rest { self.new ≡ record self.old { seats = self.new.seats } }
    {
        self.seats
            .report_all(now, session.number(), session.wills())
    }

    /// Returns the next answer of the seat at an index, from 0. None if there is none yet.
    pub fn next_answer(&mut self, place: usize) -> Option<SeatAnswer>
        ensures some { IfSome result (λ r. TakesNext place r self.old.seats self.new.seats) }
        ensures none { IfNone result (ChangesAt place Keeps self.old.seats self.new.seats
            × (self.new.seats.has_given ≡ self.old.seats.has_given)) }
        ensures rest { self.new ≡ record self.old { seats = self.new.seats } }
    {
        self.seats.next_answer(place)
    }

    /// Pushes an answer to the session that gave its order, and returns true. Returns false if this is another session,
    /// which is told nothing.
    ///
    /// Fails if memory is refused to the session's output.
    pub fn deliver(
        &mut self,
        tree: &Tree,
        session: &mut Session,
        answer: &SeatAnswer,
    ) -> Result<bool, AllocError>
        ensures told { result ≡ Ok true → (session.old.number ≡ answer.now.pending.session)
            × (session.new ≡ with_reply answer.now.pending.tag (told_text tree.now answer.now)
            (ending answer.now.pending.tag session.old)) }
        ensures another { result ≡ Ok false → (session.old.number ≢ answer.now.pending.session)
            × (session.new ≡ session.old) }
        ensures same { self.new ≡ self.old }
    {
        if session.number() != answer.pending.session {
            return Ok(false);
        }
        session.end(answer.pending.tag);
        write_told(&mut self.text, tree, answer.operator, answer.told)?;
        session.push_reply(answer.pending.tag, self.text.as_slice())?;
        Ok(true)
    }

    /// Returns true if a state is newer than the one that the picture has of its object.
    fn is_new(&self, shown: Shown) -> bool
        ensures { result ≡ is_new self.now.picture shown }
    {
        match self.picture.object(usize::from(shown.object)) {
            Some(seen) => is_newer(shown.version, seen.shown.version),
            None => true,
        }
    }

    /// Records a state that is newer than the one that the picture has of its object.
    ///
    /// Fails if memory is refused to the event.
    #[tactic(auto, using(crate::proofs::Rising::lost_state))]
    fn record_state(&mut self, shown: Shown) -> Result<(), AllocError>
        requires { is_new self.old.picture shown ≡ true }
        ensures recorded { OnOk result (Records (event.StateChanged shown) self.old self.new) }
        ensures seats { self.new.seats ≡ self.old.seats }
    {
        // Nobody reads the times of this picture.
        self.picture.show(shown, 0);
        self.events.push(StationEvent::StateChanged(shown))?;
        Ok(())
    }

    /// Records an event, which the sessions are told of later. A state that is no newer than the one that the picture
    /// has of its object is not recorded.
    ///
    /// Fails if memory is refused. Then sessions that follow the object miss the event.
    #[tactic(auto, using(crate::proofs::Rising::action_recorded, crate::proofs::Rising::lag_recorded))]
    pub fn record(&mut self, event: StationEvent) -> Result<(), AllocError>
        ensures recorded { OnOk result (Records event self.old self.new) }
        ensures seats { self.new.seats ≡ self.old.seats }
    {
        match event {
            StationEvent::StateChanged(shown) if self.is_new(shown) => self.record_state(shown),
            StationEvent::StateChanged(_) => Ok(()),
            StationEvent::ActionDone(_) | StationEvent::Lagged(_) => {
                self.events.push(event)?;
                Ok(())
            }
        }
    }

    /// Sets the mode of a child, in place of the one that was set before.
    ///
    /// Fails if memory is refused.
    pub fn set_mode(&mut self, state: ChildState) -> Result<(), AllocError>
        ensures set { OnOk result (self.new ≡ record self.old { modes = with_newest state self.old.modes }) }
        ensures err { OnErr result (self.new ≡ self.old) }
    {
        match place_of_child(self.modes.as_slice(), state.child) {
            Some(place) => {
                self.modes[place] = state;
                Ok(())
            }
            None => match self.modes.push(state) {
                Ok(()) => Ok(()),
                // The error hands the mode back, which is dropped here.
                Err(_) => Err(AllocError),
            },
        }
    }

    /// Clears the events. The caller does so once all sessions were told of them.
    pub fn clear_events(&mut self)
        ensures { self.new ≡ record self.old { events = [] } }
    {
        self.events.clear();
    }

    /// Pushes the lines of all recorded events to a session, of those to which it subscribes.
    ///
    /// Fails if memory is refused to the session's output.
    pub fn deliver_events(&mut self, tree: &Tree, session: &mut Session) -> Result<(), AllocError>
        ensures told { OnOk result (session.new ≡ after_events tree.now self.old.events session.old) }
        ensures same { self.new ≡ self.old }
    {
        for event in self.events.iter() {
            deliver_event(&mut self.text, tree, session, *event)?;
        }
        Ok(())
    }
}
