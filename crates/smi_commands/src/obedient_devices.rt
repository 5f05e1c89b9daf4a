//! Finds obedient devices, a kind of doubt (docs/FORMATS.md, "Doubts"): an action moves the device though nobody has
//! reported it. So a device whose program is dead looks as if its hardware had obeyed. `doubts.rt` calls `is_obedient`;
//! docs/DECISIONS.md, "The program, its tests and its tools", says why no other moves are doubted.

ghost use Rattle.std.specs.Prelude.{◌≡◌};
ghost use Rattle.smi_commands.specs.Doubts as spec;

use crate::rule_holes::device_begins;
use smi_tree::Tree;

/// Returns the class of a device, 0 if the tree does not have the device.
fn kind_of(tree: &Tree, device: u16) -> u16
    ensures { result ≡ spec.kind_of tree.now device }
{
    if 1 <= device && device <= tree.device_count() {
        tree.device(device).class
    } else {
        0
    }
}

/// Returns true if a device is the first of its class. A doubt about a class is told of this device alone.
fn is_first_of_kind(tree: &Tree, device: u16) -> bool
    ensures { result ≡ spec.is_first_of_kind tree.now device }
{
    let kind = kind_of(tree, device);
    !(0..device).any(|other| kind_of(tree, other) == kind)
}

/// Returns true if a device begins in the state `first`, and the action moves it out of that state.
fn moves_from_first(tree: &Tree, device: u16, action: u16, first: u16) -> bool
    ensures { result ≡ spec.moves_from_first tree.now device action first }
{
    device_begins(tree, device, first) && tree.moved(device, first, action) != first
}

/// Returns true if the action moves a device out of the state in which it begins.
fn moves_unreported(tree: &Tree, device: u16, action: u16) -> bool
    ensures { result ≡ spec.moves_unreported tree.now device action }
{
    // States have numbers from 1; 0 is the first state of no device.
    (0..tree.state_count() + 1).any(|first| moves_from_first(tree, device, action, first))
}

/// Returns true if a device is the first of its class, and the action moves it out of the state in which it begins.
pub fn is_obedient(tree: &Tree, device: u16, action: u16) -> bool
    ensures { result ≡ spec.is_obedient tree.now device action }
{
    moves_unreported(tree, device, action) && is_first_of_kind(tree, device)
}
