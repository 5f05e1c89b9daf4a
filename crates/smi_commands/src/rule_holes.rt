//! Finds holes in the rules of a unit, two kinds of doubt (docs/FORMATS.md, "Doubts"): states of members over which no
//! rule holds, so that the unit keeps its old state. `doubts.rt` calls `is_unruled`, for members that are all in one
//! state, and `is_mixed`, for members in several. docs/DECISIONS.md, "The program, its tests and its tools", says why
//! states are told and not sets of states.
//!
//! Searches go through all numbers from 0 to the last. What has a number has it from 1, and 0 passes no test. As the
//! state of a member, 0 is one that was not shown yet.

ghost use Rattle.std.specs.Prelude.{◌≡◌};
ghost use Rattle.smi_commands.specs.Doubts as spec;

use crate::idle_actions::{class_of, home_of, is_first_of_class};
use crate::unreached_states::{begins, comes, goes};
use smi_tree::Tree;

/// Returns true if a domain has two members or more.
fn is_shared(tree: &Tree, domain: u16) -> bool
    ensures { result ≡ spec.is_shared tree.now domain }
{
    1 <= domain
        && domain <= tree.domain_count()
        && tree.children(domain).len() + tree.devices(domain).len() > 1
}

/// Returns true if some domain of the class has two members or more.
fn has_shared(tree: &Tree, class: u16) -> bool
    ensures { result ≡ spec.has_shared tree.now class }
{
    (0..tree.domain_count() + 1).any(|domain| class_of(tree, domain) == class
        && is_shared(tree, domain))
}

/// Returns true if some action moves a device out of this state.
fn leaves(tree: &Tree, device: u16, state: u16) -> bool
    ensures { result ≡ spec.leaves tree.now device state }
{
    (0..tree.action_count() + 1).any(|action| tree.moved(device, state, action) != state)
}

/// Returns the class of a domain's parent, 0 for a root.
pub(crate) fn class_above(tree: &Tree, domain: u16) -> u16
    ensures { result ≡ spec.class_above tree.now domain }
{
    match tree.parent(domain) {
        Some(parent) => class_of(tree, parent),
        None => 0,
    }
}

/// Returns true if the domain's parent is of this class, and the domain's unit can be in this state.
fn child_comes(tree: &Tree, class: u16, child: u16, state: u16) -> bool
    ensures { result ≡ spec.child_comes tree.now class child state }
{
    class_above(tree, child) == class && (begins(tree, child, state) || goes(tree, child, state))
}

/// Returns true if the device begins in this state. Returns false if the tree does not have the device.
pub(crate) fn device_begins(tree: &Tree, device: u16, state: u16) -> bool
    ensures { result ≡ spec.device_begins tree.now device state }
{
    1 <= device
        && device <= tree.device_count()
        && begins(tree, tree.domain_count() + device, state)
}

/// Returns true if the device is in a domain of this class, and can be in this state: it begins there, or a move of its
/// class leads there or leaves it.
fn device_comes(tree: &Tree, class: u16, device: u16, state: u16) -> bool
    ensures { result ≡ spec.device_comes tree.now class device state }
{
    class_of(tree, home_of(tree, device)) == class
        && (device_begins(tree, device, state)
            || comes(tree, device, state)
            || leaves(tree, device, state))
}

/// Returns true if the unit of some child of a domain of this class can be in this state.
fn some_child_comes(tree: &Tree, class: u16, state: u16) -> bool
    ensures { result ≡ spec.some_child_comes tree.now class state }
{
    (0..tree.domain_count() + 1).any(|child| child_comes(tree, class, child, state))
}

/// Returns true if some device of a domain of this class can be in this state.
fn some_device_comes(tree: &Tree, class: u16, state: u16) -> bool
    ensures { result ≡ spec.some_device_comes tree.now class state }
{
    (0..tree.device_count() + 1).any(|device| device_comes(tree, class, device, state))
}

/// Returns true if a domain is the first of its class, some member of a domain of the class can be in this state, and
/// no rule holds if all members are.
pub fn is_unruled(tree: &Tree, domain: u16, state: u16) -> bool
    ensures { result ≡ spec.is_unruled tree.now domain state }
{
    is_first_of_class(tree, domain)
        // A rule that holds leads to a state from 1 on, so 0, the old state, says that none holds.
        && tree.unit_state(domain, 0, &[state]) == 0
        && is_of_member(tree, class_of(tree, domain), state)
}

/// Returns true if some member of a domain of this class can be in the state, as far as the tree file says.
fn is_of_member(tree: &Tree, class: u16, state: u16) -> bool
    ensures { result ≡ spec.is_of_member tree.now class state }
{
    state != 0 && (some_child_comes(tree, class, state) || some_device_comes(tree, class, state))
}

/// Returns true if a domain is the first of its class, some member of a domain of the class can be in this state, and
/// no `any` rule names it.
fn is_passed_over(tree: &Tree, domain: u16, state: u16) -> bool
    ensures { result ≡ spec.is_passed_over tree.now domain state }
{
    is_first_of_class(tree, domain)
        // The second member was not shown yet, so no `all` rule holds.
        && tree.unit_state(domain, 0, &[state, 0]) == 0
        && is_of_member(tree, class_of(tree, domain), state)
}

/// Returns true if another state than this one is passed over too.
fn passes_over_others(tree: &Tree, domain: u16, state: u16) -> bool
    ensures { result ≡ spec.passes_over_others tree.now domain state }
{
    (0..tree.state_count() + 1).any(|other| other != state && is_passed_over(tree, domain, other))
}

/// Returns true if a domain is the first of its class, some domain of the class has two members or more, and this state
/// is one of those over two or more of which no rule of the class holds.
pub fn is_mixed(tree: &Tree, domain: u16, state: u16) -> bool
    ensures { result ≡ spec.is_mixed tree.now domain state }
{
    is_passed_over(tree, domain, state)
        && has_shared(tree, class_of(tree, domain))
        && passes_over_others(tree, domain, state)
}
