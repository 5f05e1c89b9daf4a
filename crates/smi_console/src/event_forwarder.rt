//! Forwards the states, the modes and the actions of a node's steps to the thread of its sessions, and wakes that
//! thread for these and for answers.
//!
//! `node_observer` calls it on the station's thread after each step, and at the end of each turn. It never waits: one
//! slow reader must not hold up the station. docs/FORMATS.md, "Lines with a tag" (`follow`, `actions`, `modes`), says
//! what may be left out if too many events wait.

use crate::event_queue::{EventQueue, StationNews};
use smi_grant::{Holder, Shown};
use smi_journal::StationState;
use smi_protocol::{Event, Heard, Order, StepFault};
use smi_rows::{Mode, Stable};
use smi_session::{ActionDone, ChildMode, ChildState, StationEvent, step_action};
use smi_station::Station;
use smi_station_output::Out;
use smi_tree::Tree;
use std::alloc::{AllocError, Global};
use std::fs::Files;
use std::sync::{Arc, Wait};
use std::time::Clock;

/// The sender of a station's events: the states that its objects pass through, those of other stations' objects that it
/// was told, the modes of children, and the actions that it does. It wakes the thread of the sessions at the end of a
/// turn that brought an answer, or an event that somebody follows.
///
/// A state for which the queue has no room is sent at a later step, as the newest of its object by then. So is the mode
/// of a child.
#[derive(Drop)]
pub(crate) struct EventForwarder<H: Files + Drop> {
    /// The tree of the station.
    tree: Arc<Tree, Global>,
    /// The queue to the thread of the sessions.
    queue: EventQueue<H>,
    /// The newest state of each object that is not sent yet, by the object's number less one. None if there is none.
    coalesced: Vec<Option<Shown>>,
    /// True if any state is not sent yet.
    has_coalesced: bool,
    /// The children of the domains of the station.
    children: Vec<u16>,
    /// The mode that was sent last of each of these children. None if none was.
    modes: Vec<Option<ChildMode>>,
    /// True if the queue had no room for a mode.
    has_modes: bool,
}

/// Returns the mode in which a domain of this station has this child. None if its parent is no domain of this station.
fn mode_of<T: StationState>(tree: &Tree, station: &T, child: u16) -> Option<ChildMode> {
    let mode = station.mode(child)?;
    let parent = tree.parent(child)?;
    let is_held = match station.link(Holder::Domain(parent), child) {
        Some(link) => link.is_held(),
        None => false,
    };
    match mode {
        _ if !is_held => Some(ChildMode::Out),
        Mode::Included => Some(ChildMode::Included),
        Mode::Manual => Some(ChildMode::Manual),
        Mode::Ignored => Some(ChildMode::Ignored),
    }
}

/// Returns true if an order may be answered by a step: one of its answers, one that it refuses or that is told its code
/// at once, or a question that it replaces. An order that is accepted is answered by a later step.
fn has_answer(event: &Event<'_>, made: &Result<Heard, StepFault>, out: &Out) -> bool {
    let may_end = match event {
        Event::Report(_, _) | Event::Order(_, Order::Report(_, _) | Order::Ask(_)) => true,
        Event::Order(_, _) => !matches!(made, Ok(Heard::Same | Heard::Done)),
        Event::Datagram(_) | Event::Tick => false,
    };
    may_end || !out.answers().is_empty()
}

/// Returns true if a mode is the one that was sent last. It compares by hand, because modes of children have no `==`.
fn is_sent(sent: Option<ChildMode>, mode: ChildMode) -> bool {
    matches!(
        (sent, mode),
        (Some(ChildMode::Out), ChildMode::Out)
            | (Some(ChildMode::Included), ChildMode::Included)
            | (Some(ChildMode::Manual), ChildMode::Manual)
            | (Some(ChildMode::Ignored), ChildMode::Ignored)
    )
}

impl<H: Files + Wait + Clock + Drop> EventForwarder<H> {
    /// Makes a forwarder over this queue, and sends the states and the modes that the station has now.
    ///
    /// Fails if memory was refused.
    pub(crate) fn new<T: StationState>(
        alloc: Global,
        tree: Arc<Tree, Global>,
        station: &T,
        queue: EventQueue<H>,
    ) -> Result<EventForwarder<H>, AllocError> {
        let mut coalesced = Vec::new(alloc);
        for object in 1..=tree.object_count() {
            coalesced.push(station.current(object))?;
        }
        let mut children = Vec::new(alloc);
        let mut modes = Vec::new(alloc);
        for child in 1..=tree.domain_count() {
            if mode_of(&tree, station, child).is_some() {
                children.push(child)?;
                modes.push(None)?;
            }
        }
        let mut forwarder = EventForwarder {
            tree,
            queue,
            coalesced,
            has_coalesced: true,
            children,
            modes,
            has_modes: false,
        };
        forwarder.send_coalesced();
        forwarder.send_modes(station);
        Ok(forwarder)
    }

    /// Sends a state, or keeps it for later if the queue has no room or if other states have to be sent before it.
    fn send_or_coalesce(&mut self, shown: Shown) {
        if self.has_coalesced
            || !self
                .queue
                .push(StationNews::Event(StationEvent::StateChanged(shown)))
        {
            self.coalesce(shown);
        }
    }

    /// Keeps a state to be sent later, in place of an older one of its object.
    fn coalesce(&mut self, shown: Shown) {
        let Some(index) = usize::from(shown.object).checked_sub(1) else {
            return;
        };
        if let Some(coalesced) = self.coalesced.get_mut(index) {
            *coalesced = Some(shown);
            self.has_coalesced = true;
        }
    }

    /// Sends the states that were kept for later, as far as the queue has room.
    fn send_coalesced(&mut self) {
        if !self.has_coalesced {
            return;
        }
        self.has_coalesced = false;
        for coalesced in self.coalesced.iter_mut() {
            if let Some(shown) = *coalesced {
                if self
                    .queue
                    .push(StationNews::Event(StationEvent::StateChanged(shown)))
                {
                    *coalesced = None;
                } else {
                    self.has_coalesced = true;
                }
            }
        }
    }

    /// Sends the modes of children that differ from those that were sent last, as far as the queue has room.
    fn send_modes<T: StationState>(&mut self, station: &T) {
        self.has_modes = false;
        for (child, sent) in self.children.iter().zip(self.modes.iter_mut()) {
            let Some(mode) = mode_of(&self.tree, station, *child) else {
                continue;
            };
            let state = ChildState {
                child: *child,
                mode,
            };
            if is_sent(*sent, mode) {
                continue;
            }
            if self.queue.push(StationNews::Mode(state)) {
                *sent = Some(mode);
            } else {
                self.has_modes = true;
            }
        }
    }

    /// Sends the action that a step did, if any, once for each of its devices.
    fn send_action<S: Stable>(
        &mut self,
        station: &Station<'_, S>,
        event: &Event<'_>,
        made: &Result<Heard, StepFault>,
    ) {
        let Some(done) = step_action(&self.tree, event, made) else {
            return;
        };
        // Objects are numbered: first the domains, and then the devices.
        for device in done.devices {
            let object = self.tree.domain_count().saturating_add(*device);
            if let Some(shown) = station.current(object) {
                self.queue.push_action(ActionDone {
                    action: done.action,
                    shown,
                    domain: done.domain,
                    epoch: done.epoch,
                    number: done.number,
                });
            }
        }
    }

    /// Has the thread of the sessions woken at the end of this turn, whatever the turn brings.
    pub(crate) fn wake(&mut self) {
        self.queue.wake();
    }

    /// Forwards what came of a step: its states, modes and action, after those that were kept for later.
    pub(crate) fn forward<S: Stable>(
        &mut self,
        station: &Station<'_, S>,
        event: &Event<'_>,
        made: &Result<Heard, StepFault>,
        out: &Out,
    ) {
        if has_answer(event, made, out) {
            self.queue.wake();
        }
        self.queue.resume();
        self.send_coalesced();
        if let Some(shown) = out.shown() {
            self.send_or_coalesce(shown);
        }
        for shown in out.transitions().as_slice() {
            self.send_or_coalesce(*shown);
        }
        // A mode changes only with a row that is saved.
        if self.has_modes || matches!(made, Ok(Heard::Done)) {
            self.send_modes(station);
        }
        self.send_action(station, event, made);
    }

    /// Ends a turn: wakes the thread of the sessions, if a step of the turn asked for that.
    pub(crate) fn end_turn(&mut self) {
        self.queue.end_turn();
    }
}
