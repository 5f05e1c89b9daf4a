//! Queues what the station's thread has to tell the thread of the sessions, without ever waiting for it.
//!
//! `event_forwarder` pushes into the queue; `console_loop` receives from its channel. Of states and modes the forwarder
//! keeps what finds no room; of actions the queue counts what it drops (docs/FORMATS.md, "Lines with a tag", `missed`).

use crate::console_waker::ConsoleWaker;
use crossbeam_channel::Sender;
use smi_session::{ActionDone, ChildState, StationEvent, boxed};
use std::alloc::{AllocError, Global};
use std::collections::VecDeque;
use std::sync::{Arc, Wait};

/// The most messages that wait here, beside those in the channel. With the 4,096 of the channel (`MOST_NEWS` of
/// `threads`) these are the 8,192 events of docs/FORMATS.md, "Lines with a tag".
const MOST_WAITING: usize = 4_096;

/// After how many messages the thread of the sessions is woken though nobody follows. It takes more than that in one
/// round (`MOST_NEWS` of `console_loop`), so a line that somebody types then is answered with all of them known.
const MOST_UNSEEN: usize = 256;

/// A message of the station to the thread of the sessions.
#[derive(Clone, Copy)]
pub(crate) enum StationNews {
    /// An event, which sessions are told as it happens.
    Event(StationEvent),
    /// The mode of a child, which sessions are told if they ask.
    Mode(ChildState),
}

/// The fields of an [`EventQueue`].
#[derive(Drop)]
struct EventQueueParts<H: Drop> {
    /// The runtime, which sends over the channel.
    rt: H,
    /// The waker of the thread of the sessions.
    waker: Arc<ConsoleWaker, Global>,
    /// The bounded channel to the thread of the sessions.
    channel: Sender<StationNews>,
    /// The messages for which the channel has no room yet, the oldest first.
    waiting: VecDeque<StationNews>,
    /// How many actions were dropped, because the queue was full, since the last `Lagged` was queued.
    dropped: u32,
    /// How many messages the channel was given since the thread of the sessions was woken last.
    unseen: usize,
    /// True if the thread of the sessions is to be woken at the end of the turn.
    is_due: bool,
}

/// A queue that sends messages in their order, and never blocks. What the channel has no room for waits here, up to a
/// bound. Actions beyond it are dropped and counted, and their count is sent before any later action.
#[derive(Drop)]
pub(crate) struct EventQueue<H: Drop> {
    // In a box, because each function that drops the parts themselves is expensive to prove.
    parts: Box<EventQueueParts<H>>,
}

impl<H: Wait + Drop> EventQueue<H> {
    /// Makes an empty queue over this channel. Fails if memory was refused.
    pub(crate) fn new(
        alloc: Global,
        rt: H,
        waker: Arc<ConsoleWaker, Global>,
        channel: Sender<StationNews>,
    ) -> Result<EventQueue<H>, AllocError> {
        let parts = EventQueueParts {
            rt,
            waker,
            channel,
            waiting: VecDeque::new(alloc),
            dropped: 0,
            unseen: 0,
            is_due: false,
        };
        let parts = boxed(alloc, parts)?;
        Ok(EventQueue { parts })
    }

    /// Has the thread of the sessions woken at the end of the turn.
    pub(crate) fn wake(&mut self) {
        self.parts.is_due = true;
    }

    /// Wakes the thread of the sessions, if it is to be woken. Only the end of a turn does so, because by then the
    /// states that the turn has published and the orders that it has answered can be read.
    pub(crate) fn end_turn(&mut self) {
        if self.parts.is_due {
            self.parts.is_due = false;
            self.parts.unseen = 0;
            self.parts.waker.wake();
        }
    }

    /// Sends the messages that wait, as far as the channel has room.
    fn send_waiting(&mut self) {
        let parts = &mut *self.parts;
        // The queue has no more messages than this, so the loop sends all of them if there is room.
        for _ in 0..MOST_WAITING {
            let Some(news) = parts.waiting.front().copied() else {
                return;
            };
            if parts.channel.try_send(&parts.rt, news).is_err() {
                // It is full, or nobody receives any more.
                return;
            }
            // The message itself was copied above.
            let _ = parts.waiting.pop_front();
            parts.unseen = parts.unseen.saturating_add(1);
            if parts.unseen >= MOST_UNSEEN || parts.waker.has_followers() {
                parts.is_due = true;
            }
        }
    }

    /// Adds a message to the queue. Returns false if there is no room: then the caller has to push it later.
    pub(crate) fn push(&mut self, news: StationNews) -> bool {
        let waiting = &mut self.parts.waiting;
        if waiting.len() >= MOST_WAITING || waiting.push_back(news).is_err() {
            return false;
        }
        self.send_waiting();
        true
    }

    /// Sends the messages that wait, and queues how many actions were dropped, if any.
    pub(crate) fn resume(&mut self) {
        self.send_waiting();
        let dropped = self.parts.dropped;
        if dropped > 0 && self.push(StationNews::Event(StationEvent::Lagged(dropped))) {
            self.parts.dropped = 0;
        }
    }

    /// Adds an action to the queue, or drops and counts it if there is no room or if a count of earlier ones is not
    /// queued yet.
    pub(crate) fn push_action(&mut self, done: ActionDone) {
        if self.parts.dropped > 0
            || !self.push(StationNews::Event(StationEvent::ActionDone(done)))
        {
            self.parts.dropped = self.parts.dropped.saturating_add(1);
        }
    }
}
