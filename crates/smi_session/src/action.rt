//! Finds the action that a step of the station did, and at which devices. `crates/smi_console/src/event_forwarder.rt`
//! calls `step_action` after each step, and makes of each device an `ActionDone`, which sessions receive as `acted`
//! lines (docs/FORMATS.md, "Lines with a tag"). So an action that is not found here is told to no session.

ghost use Rattle.std.specs.Prelude.{◌≡◌, option_map};
ghost use Rattle.smi_session.specs.Action as spec;

use smi_grant::Command;
use smi_message::{Body, decode};
use smi_protocol::{Event, Heard, StepFault};
use smi_tree::Tree;

/// An action that a step did, and the devices at which it was done.
#[derive(Clone, Copy)]
pub struct StepAction<'a> {
    /// The number of the action, from 1.
    pub action: u16,
    /// All devices of its domain by number, from 1 among devices. Those that the action did not move are among them
    /// too.
    pub devices: &'a [u16],
    /// The domain at which its command has run.
    pub domain: u16,
    /// The epoch of the grant under which it has run.
    pub epoch: u64,
    /// The number of the command under that grant.
    pub number: u32,
}

/// Returns the action of a command. None if its domain does not accept it, or the command is no action.
fn action_of(tree: &Tree, domain: u16, command: Command) -> Option<u16>
    ensures { result ≡ spec.action_of tree.now domain command }
{
    match command {
        Command::Do(action) if tree.accepts(domain, action) => Some(action),
        _ => None,
    }
}

/// Returns the action of a `RUN` datagram whose command has run. None if it ran no action, or for any other datagram.
fn run_action<'a>(tree: &'a Tree, body: &Body) -> Option<StepAction<'a>>
    ensures { option_map (λ d. (d.action, d.devices.now, d.domain, d.epoch, d.number)) result
        ≡ spec.run_action tree.now body.now }
{
    match *body {
        Body::Run {
            domain,
            epoch,
            number,
            command,
            ..
        } if 1 <= domain && domain <= tree.domain_count() => {
            let action = action_of(tree, domain, command)?;
            Some(StepAction {
                action,
                devices: tree.devices(domain),
                domain,
                epoch,
                number,
            })
        }
        _ => None,
    }
}

/// Returns the action that the step of an event did, by the outcome of the step (`made`). None if the step ran no
/// command: a command that has run before is not run again.
pub fn step_action<'a>(
    tree: &'a Tree,
    event: &Event<'_>,
    made: &Result<Heard, StepFault>,
) -> Option<StepAction<'a>>
    ensures { option_map (λ d. (d.action, d.devices.now, d.domain, d.epoch, d.number)) result
        ≡ spec.step_action tree.now event.now made.now }
{
    match (event, made) {
        (Event::Datagram(bytes), Ok(Heard::Done)) => match decode(bytes) {
            Ok(datagram) => run_action(tree, &datagram.body),
            // The station refuses such bytes, so nothing was done.
            Err(_) => None,
        },
        _ => None,
    }
}
