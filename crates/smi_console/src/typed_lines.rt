//! Sends the lines that people and programs type to the journal of a node.
//!
//! `connection` and `connection_set` call it for each line of a session, before the line is handled. `journal_keeper`
//! receives the lines on the station's thread, and notes orders, reports and remarks of them before the next step
//! (docs/FORMATS.md, "Journals", `typed`).

use crossbeam_channel::Sender;
use smi_journal::TypedLine;
use std::alloc::{AllocError, Global};
use std::sync::Wait;

/// The sender of typed lines to the journal of a node. None if the node has no journal.
#[derive(Drop)]
pub(crate) struct TypedLines {
    channel: Option<Sender<TypedLine>>,
}

impl TypedLines {
    /// Makes a sender over this channel, or one that sends nothing.
    pub(crate) fn new(channel: Option<Sender<TypedLine>>) -> TypedLines {
        TypedLines { channel }
    }

    /// Returns another sender to the same journal, for a new connection. Fails if memory was refused.
    pub(crate) fn try_clone(&self) -> Result<TypedLines, AllocError> {
        let channel = match &self.channel {
            Some(channel) => Some(channel.clone()?),
            None => None,
        };
        Ok(TypedLines { channel })
    }

    /// Sends a line of a session, if a journal tells such lines. Skips it if the channel is full or memory was refused,
    /// because a journal must not hold up an order.
    pub(crate) fn send<R: Wait>(&self, rt: &R, alloc: Global, session: u64, line: &[u8]) {
        let Some(channel) = &self.channel else {
            return;
        };
        if let Ok(Some(typed)) = TypedLine::of(alloc, session, line) {
            let _ = channel.try_send(rt, typed);
        }
    }
}
