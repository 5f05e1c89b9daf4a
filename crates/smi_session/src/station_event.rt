//! The events of a station that its sessions may subscribe to, and the lines that they are told in.
//! `crates/smi_console/src/event_forwarder.rt` makes the events in the thread of the station, and `service.rt` has them
//! written here. docs/FORMATS.md, "Lines with a tag", fixes the lines `board`, `acted` and `missed`; `tools/lunskaf.py`
//! reads them.

ghost use Rattle.std.specs.Prelude.{◌≡◌, ◌++◌, ◌∷◌, [], OnOk, option_map};
ghost use Rattle.std.specs.Fmt.{decimal};
ghost use Rattle.smi_tree.specs.Hierarchy.{entry};
ghost use Rattle.smi_tree.specs.Lookups.{object_name};
ghost use Rattle.smi_schedule.specs.TraceWords.{called, object_word, version_word};
ghost use Rattle.smi_session.specs.StationEvent.{action_text, lagged_text, event_text};

use smi_grant::{Shown, Version};
use smi_schedule::spell_board;
use smi_tree::Tree;
use std::alloc::AllocError;
use std::io::Write;

/// An action that was done at a device, whether it moved or not.
#[derive(Clone, Copy)]
pub struct ActionDone {
    /// The number of the action, from 1.
    pub action: u16,
    /// The device, as an object, with its state and version after the action.
    pub shown: Shown,
    /// The domain at which the command has run.
    pub domain: u16,
    /// The epoch of the grant under which it has run.
    pub epoch: u64,
    /// The number of the command under that grant.
    pub number: u32,
}

/// An event of a station. Sessions are told of events in the order in which they happen.
#[derive(Clone, Copy)]
pub enum StationEvent {
    /// An object has come into a state: one that the station keeps or watches.
    StateChanged(Shown),
    /// An action was done at a device.
    ActionDone(ActionDone),
    /// This many actions were done that nobody is told of, because the queue of events was full.
    Lagged(u32),
}

/// Appends a space and a word.
fn push_word(text: &mut Vec<u8>, word: &[u8]) -> Result<(), AllocError>
    ensures { OnOk result (text.new.items ≡ text.old.items ++ 32 ∷ word.now) }
{
    text.push(b' ')?;
    text.extend_from_slice(word)
}

/// Appends a space and a name, or the number if there is no name.
pub(crate) fn push_called(
    text: &mut Vec<u8>,
    name: Option<&[u8]>,
    number: u16,
) -> Result<(), AllocError>
    ensures { OnOk result (text.new.items ≡ text.old.items ++ 32 ∷ called (option_map (λ n. n.now) name.entry) number) }
{
    match name {
        Some(name) => push_word(text, name),
        // Writing into a Vec fails only if memory is refused.
        None => write!(text, " {number}").map_err(|_| AllocError),
    }
}

/// Appends a space and a version, its boot and its sequence: ` 1.7`.
fn push_version(text: &mut Vec<u8>, version: Version) -> Result<(), AllocError>
    ensures { OnOk result (text.new.items ≡ text.old.items ++ 32 ∷ version_word version) }
{
    // Writing into a Vec fails only if memory is refused.
    write!(text, " {}.{}", version.boot, version.sequence).map_err(|_| AllocError)
}

/// Returns the name of an object by its number, which counts domains from 1 and then devices. None if the tree has no
/// such object.
pub(crate) fn object_name(tree: &Tree, number: u16) -> Option<&[u8]>
    ensures { option_map (λ n. n.now) result ≡ object_name tree.now number }
{
    if number <= tree.domain_count() {
        if number == 0 {
            None
        } else {
            Some(tree.domain_name(number))
        }
    } else {
        let device = number - tree.domain_count();
        if device <= tree.device_count() {
            Some(tree.device_name(device))
        } else {
            None
        }
    }
}

/// Returns the name of an action by its number, from 1. None if the tree has no such action.
fn action_name(tree: &Tree, number: u16) -> Option<&[u8]>
    ensures { option_map (λ n. n.now) result ≡ entry tree.now.action_names number }
{
    if 1 <= number && number <= tree.action_count() {
        Some(tree.action_name(number))
    } else {
        None
    }
}

/// Returns the name of a state by its number, from 1. None if the tree has no such state.
pub(crate) fn state_name(tree: &Tree, number: u16) -> Option<&[u8]>
    ensures { option_map (λ n. n.now) result ≡ entry tree.now.state_names number }
{
    if 1 <= number && number <= tree.state_count() {
        Some(tree.state_name(number))
    } else {
        None
    }
}

/// Appends the domain, the epoch and the number of the command by which an action was done, a space before each.
fn push_numbers(text: &mut Vec<u8>, tree: &Tree, done: ActionDone) -> Result<(), AllocError>
    ensures { OnOk result (text.new.items ≡ text.old.items ++ 32 ∷ object_word tree.now done.domain
        ++ 32 ∷ decimal done.epoch ++ 32 ∷ decimal done.number) }
{
    push_called(text, object_name(tree, done.domain), done.domain)?;
    // Writing into a Vec fails only if memory is refused.
    write!(text, " {} {}", done.epoch, done.number).map_err(|_| AllocError)
}

/// Writes the line of an action in place of what the text had: `acted DEVICE ACTION B.Q STATE`, and with `has_numbers`
/// also ` DOMAIN EPOCH NUMBER`.
fn write_action(
    text: &mut Vec<u8>,
    tree: &Tree,
    has_numbers: bool,
    done: ActionDone,
) -> Result<(), AllocError>
    ensures { OnOk result (text.new.items ≡ action_text tree.now has_numbers done) }
{
    let shown = done.shown;
    text.clear();
    text.extend_from_slice(b"acted")?;
    push_called(text, object_name(tree, shown.object), shown.object)?;
    push_called(text, action_name(tree, done.action), done.action)?;
    push_version(text, shown.version)?;
    push_called(text, state_name(tree, shown.state), shown.state)?;
    if has_numbers {
        push_numbers(text, tree, done)?;
    }
    text.push(b'\n')?;
    Ok(())
}

/// Writes the line of actions that nobody is told of, in place of what the text had: `missed N`.
fn write_lagged(text: &mut Vec<u8>, count: u32) -> Result<(), AllocError>
    ensures { OnOk result (text.new.items ≡ lagged_text count) }
{
    text.clear();
    // Writing into a Vec fails only if memory is refused.
    writeln!(text, "missed {count}").map_err(|_| AllocError)
}

/// Writes the line of an event in place of what the text had: of a state `board TPC 1.7 READY`. With `has_numbers` an
/// action has the numbers of its command.
pub(crate) fn write_event(
    text: &mut Vec<u8>,
    tree: &Tree,
    has_numbers: bool,
    event: StationEvent,
) -> Result<(), AllocError>
    ensures { OnOk result (text.new.items ≡ event_text tree.now has_numbers event) }
{
    match event {
        StationEvent::StateChanged(shown) => spell_board(text, tree, shown.object, Some(shown)),
        StationEvent::ActionDone(done) => write_action(text, tree, has_numbers, done),
        StationEvent::Lagged(count) => write_lagged(text, count),
    }
}
