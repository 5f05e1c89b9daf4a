//! Wakes the thread of the sessions from the other threads of a node.
//!
//! Three threads wake it: the station's (`event_queue`), the one that reads the standard input (`stdin`), and the one
//! that writes the standard output (`stdout`). All share one [`ConsoleWaker`], which `setup` makes.

use mio::Waker;
use std::sync::atomic::{AtomicBool, Ordering};

/// The waker of the thread of the sessions, and whether that thread wants to be woken for each event.
#[derive(Drop)]
pub(crate) struct ConsoleWaker {
    /// The waker of the poll at which the thread waits.
    waker: Waker,
    /// True if a session follows states or actions, so that it has to be told of each as it happens.
    has_followers: AtomicBool,
}

impl ConsoleWaker {
    /// Makes the waker of the thread that waits at the poll of this waker. No session follows anything yet.
    pub(crate) fn new(waker: Waker) -> ConsoleWaker {
        ConsoleWaker {
            waker,
            has_followers: AtomicBool::new(false),
        }
    }

    /// Wakes the thread. If that fails, the thread wakes by itself within a tenth of a second if an order is under way
    /// (`POLL_LIMIT_MS` of `connection_set`).
    pub(crate) fn wake(&self) {
        let _ = self.waker.wake();
    }

    /// Returns true if a session follows states or actions, so that the thread has to be woken for each event.
    pub(crate) fn has_followers(&self) -> bool {
        self.has_followers.load(Ordering::SeqCst)
    }

    /// Sets whether a session follows states or actions. Returns true if one does now and none did before: then events
    /// may be in the queue for which the thread was not woken.
    pub(crate) fn set_followers(&self, has_followers: bool) -> bool {
        let had_followers = self.has_followers.swap(has_followers, Ordering::SeqCst);
        has_followers && !had_followers
    }
}
