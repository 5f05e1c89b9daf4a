//! The mode of each child of the station's domains, as sessions are told. `crates/smi_console/src/event_forwarder.rt`
//! makes a `ChildState` whenever a mode changes, `service.rt` keeps the newest of each child, and `reply.rt` writes
//! them as the answer to `modes`. docs/FORMATS.md, "Lines with a tag", fixes the lines; a screen's page reads their
//! words too.

ghost use Rattle.std.specs.Prelude.{◌≡◌, ◌==◌, ◌<◌, IfSome, OnOk, length};
ghost use Rattle.std.specs.List.{position};
ghost use Rattle.smi_session.specs.Mode as spec;

use crate::station_event::{object_name, push_called};
use smi_tree::Tree;
use std::alloc::AllocError;

/// How a domain has a child (docs/PROTOCOL.md, "Commands at a domain").
#[derive(Clone, Copy)]
pub enum ChildMode {
    /// It does not hold the child.
    Out,
    /// The child gets commands, and its state counts.
    Included,
    /// The child gets no commands, and its state counts.
    Manual,
    /// The child gets commands, and its state does not count.
    Ignored,
}

/// A child, and its mode.
#[derive(Clone, Copy)]
pub struct ChildState {
    /// The number of the child, a domain, from 1.
    pub child: u16,
    /// Its mode, of the domain that is its parent.
    pub mode: ChildMode,
}

/// Returns the word of a mode.
fn word_of(mode: ChildMode) -> &'static [u8]
    ensures { result.now ≡ spec.word_of mode }
{
    match mode {
        ChildMode::Out => b"out",
        ChildMode::Included => b"included",
        ChildMode::Manual => b"manual",
        ChildMode::Ignored => b"ignored",
    }
}

/// Writes the line of a child's mode in place of what the text had: `mode TRK manual`, with a line feed.
///
/// Fails if memory is refused.
pub(crate) fn write_mode(
    text: &mut Vec<u8>,
    tree: &Tree,
    state: ChildState,
) -> Result<(), AllocError>
    ensures { OnOk result (text.new.items ≡ spec.mode_text tree.now state) }
{
    text.clear();
    text.extend_from_slice(b"mode")?;
    push_called(text, object_name(tree, state.child), state.child)?;
    text.push(b' ')?;
    text.extend_from_slice(word_of(state.mode))?;
    text.push(b'\n')?;
    Ok(())
}

/// Returns the index of a child among these. None if it is not among them.
#[tactic(auto, using(crate::proofs::Willing::child_within))]
pub(crate) fn place_of_child(states: &[ChildState], child: u16) -> Option<usize>
    ensures place { result ≡ position (λ other. other.child == child) states.now }
    ensures within { IfSome result (λ place. place < length states.now) }
{
    states.iter().position(|other| other.child == child)
}
