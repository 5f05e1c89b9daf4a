//! Observes each step of a node: notes it in the journal, and then forwards what came of it to the consoles.
//!
//! `setup` makes the observer, and `smi_node` calls it on the station's thread: after the row of a step is saved, and
//! before anything of the step is sent. The order counts: a journal that came after the forwarding could lose an entry
//! that an operator has seen (docs/DECISIONS.md).

ghost use Rattle.std.specs.Prelude.{None, option_map};
ghost use Rattle.smi_journal.specs.Noted.{handed_in};

use crate::event_forwarder::EventForwarder;
use crate::journal_keeper::JournalKeeper;
use smi_node::StepObserver;
use smi_protocol::{Event, Heard, StepFault};
use smi_rows::Stable;
use smi_station::Station;
use smi_station_output::Out;
use std::fs::Files;
use std::sync::Wait;
use std::time::Clock;

/// Notes each step in the journal of a node, if it has one, and then forwards what came of it to the thread of the
/// sessions.
#[derive(Drop)]
pub(crate) struct NodeObserver<H: Files + Drop> {
    /// The journal, if the node has one.
    journal: Option<JournalKeeper<H>>,
    /// The sender of events to the thread of the sessions.
    forwarder: EventForwarder<H>,
}

impl<H: Files + Drop> NodeObserver<H> {
    /// Makes an observer that notes in this journal, if any, and forwards with this forwarder.
    pub(crate) fn new(
        journal: Option<JournalKeeper<H>>,
        forwarder: EventForwarder<H>,
    ) -> NodeObserver<H> {
        NodeObserver { journal, forwarder }
    }
}

impl<H: Files + Wait + Clock + Drop> StepObserver for NodeObserver<H> {
    ghost seen = { λ o. record { told = None; noted = option_map (λ kept. handed_in kept) o.journal } };

    fn on_step<S: Stable>(
        &mut self,
        station: &Station<'_, S>,
        event: &Event<'_>,
        made: &Result<Heard, StepFault>,
        out: &Out,
    ) {
        if let Some(journal) = &mut self.journal {
            // The journal has failed or goes on again: the thread of the sessions writes that on standard error.
            if journal.note(station, out) {
                self.forwarder.wake();
            }
        }
        self.forwarder.forward(station, event, made, out);
    }

    fn on_turn(&mut self) {
        self.forwarder.end_turn();
    }
}
