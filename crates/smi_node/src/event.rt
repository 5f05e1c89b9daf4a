//! The observer of a node, which is told of each step and of the end of each turn.

ghost use Rattle.std.specs.Prelude.{◌≡◌};
ghost use Rattle.smi_node.specs.Observed.{Seen, SeesOne, nothing_seen, stepped};

use smi_protocol::{Event, Heard, StepFault};
use smi_rows::Stable;
use smi_station::Station;
use smi_station_output::Out;

/// Observes a node: it is told of each step, in the order in which they are made, and when each turn is over.
///
/// What a step handed out is the list of its effects: the state that it showed and those that it passed through, the
/// orders that it answered, and the entries of its save. An observer reads them and has no say in what follows.
///
/// Contracts see the list of steps that an observer was *told*, and that of what these handed out, as far as it *noted*
/// them. One that does not tell has neither.
pub trait StepObserver {
    ghost seen: { Self → Seen };

    /// Is told the event of a step, what the step answered, and what it handed out.
    ///
    /// The row of the step is saved; nothing of it was sent, published or answered yet. The station is as the step left
    /// it.
    fn on_step<S: Stable>(
        &mut self,
        station: &Station<'_, S>,
        event: &Event<'_>,
        made: &Result<Heard, StepFault>,
        out: &Out,
    )
        ensures { SeesOne (seen self.old) (seen self.new) (stepped event.now made.now out.now) };

    /// Is told that a turn is over: what it brought about is on the board and in the seats.
    fn on_turn(&mut self)
        ensures { seen self.new ≡ seen self.old };
}

/// Ignores every step.
#[derive(Clone, Copy, Drop)]
pub struct NoObserver;

impl StepObserver for NoObserver {
    ghost seen = { λ _. nothing_seen };

    fn on_step<S: Stable>(
        &mut self,
        _station: &Station<'_, S>,
        _event: &Event<'_>,
        _made: &Result<Heard, StepFault>,
        _out: &Out,
    ) {}

    fn on_turn(&mut self) {}
}
