//! Finds unreached states, a kind of doubt (docs/FORMATS.md, "Doubts"): no object begins in the state, and no move of a
//! device and no rule of a unit leads to it. `doubts.rt` calls `is_unreached`, and `rule_holes.rt` uses the functions
//! for one object.
//!
//! Searches go through all numbers from 0 to the last. What has a number has it from 1, and 0 passes no test. As the
//! state of a member, 0 is one that was not shown yet.

ghost use Rattle.std.specs.Prelude.{◌≡◌};
ghost use Rattle.smi_commands.specs.Doubts as spec;

use smi_tree::Tree;

/// Returns true if an object begins in this state. Objects are domains by number, and then devices.
pub(crate) fn begins(tree: &Tree, object: u16, state: u16) -> bool
    ensures { result ≡ spec.begins tree.now object state }
{
    match tree.first_state(object) {
        Some(first) => first == state,
        None => false,
    }
}

/// Returns true if some object begins in this state.
fn some_begins(tree: &Tree, state: u16) -> bool
    ensures { result ≡ spec.some_begins tree.now state }
{
    (0..tree.domain_count() + tree.device_count() + 1).any(|object| begins(tree, object, state))
}

/// Returns true if some action moves a device from the state `from` to another one, `state`.
fn comes_from(tree: &Tree, device: u16, from: u16, state: u16) -> bool
    ensures { result ≡ spec.comes_from tree.now device from state }
{
    (0..tree.action_count() + 1).any(|action| from != state
        && tree.moved(device, from, action) == state)
}

/// Returns true if some action moves a device to this state from another one.
pub(crate) fn comes(tree: &Tree, device: u16, state: u16) -> bool
    ensures { result ≡ spec.comes tree.now device state }
{
    (0..tree.state_count() + 1).any(|from| comes_from(tree, device, from, state))
}

/// Returns true if some action moves some device to this state from another one.
fn some_comes(tree: &Tree, state: u16) -> bool
    ensures { result ≡ spec.some_comes tree.now state }
{
    (0..tree.device_count() + 1).any(|device| comes(tree, device, state))
}

/// Returns true if a domain's unit goes to `state` if one of two members is in the state `first` and the other in some
/// state.
fn goes_with(tree: &Tree, domain: u16, first: u16, state: u16) -> bool
    ensures { result ≡ spec.goes_with tree.now domain first state }
{
    (0..tree.state_count() + 1).any(|second| tree.unit_state(domain, 0, &[first, second]) == state)
}

/// Returns true if a domain's unit goes to this state over some two members. That is enough: a rule that can be the
/// first to hold is so over two members.
pub(crate) fn goes(tree: &Tree, domain: u16, state: u16) -> bool
    ensures { result ≡ spec.goes tree.now domain state }
{
    (0..tree.state_count() + 1).any(|first| goes_with(tree, domain, first, state))
}

/// Returns true if some domain's unit goes to this state.
fn some_goes(tree: &Tree, state: u16) -> bool
    ensures { result ≡ spec.some_goes tree.now state }
{
    (0..tree.domain_count() + 1).any(|domain| goes(tree, domain, state))
}

/// Returns true if no object begins in this state, no action moves a device there, and no rule a unit.
pub fn is_unreached(tree: &Tree, state: u16) -> bool
    ensures { result ≡ spec.is_unreached tree.now state }
{
    !(some_begins(tree, state) || some_comes(tree, state) || some_goes(tree, state))
}
