//! Finds idle actions, a kind of doubt (docs/FORMATS.md, "Doubts"): a unit accepts the action, and no device of its
//! domain or below moves by it. `doubts.rt` calls `is_idle`, and the other files about doubts use its look-ups.
//!
//! Searches go through all numbers from 0 to the last. What has a number in a tree has it from 1, and 0 passes no test.

ghost use Rattle.std.specs.Prelude.{◌≡◌};
ghost use Rattle.smi_commands.specs.Doubts as spec;

use smi_tree::Tree;

/// Returns the class of a domain's unit, 0 if the tree does not have the domain.
pub(crate) fn class_of(tree: &Tree, domain: u16) -> u16
    ensures { result ≡ spec.class_of tree.now domain }
{
    if 1 <= domain && domain <= tree.domain_count() {
        tree.domain(domain).class
    } else {
        0
    }
}

/// Returns the domain of a device, 0 if the tree does not have the device.
pub(crate) fn home_of(tree: &Tree, device: u16) -> u16
    ensures { result ≡ spec.home_of tree.now device }
{
    if 1 <= device && device <= tree.device_count() {
        tree.device(device).domain
    } else {
        0
    }
}

/// Returns true if the action moves a device out of some state.
fn stirs(tree: &Tree, device: u16, action: u16) -> bool
    ensures { result ≡ spec.stirs tree.now device action }
{
    (0..tree.state_count() + 1).any(|from| tree.moved(device, from, action) != from)
}

/// Returns true if a domain is of this class, or is below one that is.
fn lies_under(tree: &Tree, class: u16, domain: u16) -> bool
    ensures { result ≡ spec.lies_under tree.now class domain }
{
    (0..tree.domain_count() + 1).any(|above| {
        class_of(tree, above) == class && (above == domain || tree.is_below(domain, above))
    })
}

/// Returns true if the action moves some device of a domain of this class, or of a domain below one.
fn stirs_below(tree: &Tree, class: u16, action: u16) -> bool
    ensures { result ≡ spec.stirs_below tree.now class action }
{
    (0..tree.device_count() + 1).any(|device| {
        stirs(tree, device, action) && lies_under(tree, class, home_of(tree, device))
    })
}

/// Returns true if a domain is the first of its class. A doubt about a class is told of this domain alone.
pub(crate) fn is_first_of_class(tree: &Tree, domain: u16) -> bool
    ensures { result ≡ spec.is_first_of_class tree.now domain }
{
    let class = class_of(tree, domain);
    !(0..domain).any(|other| class_of(tree, other) == class)
}

/// Returns true if a domain accepts the action, is the first of its class, and no domain of its class has a device, in
/// it or below, that the action moves.
pub fn is_idle(tree: &Tree, domain: u16, action: u16) -> bool
    ensures { result ≡ spec.is_idle tree.now domain action }
{
    tree.accepts(domain, action)
        && is_first_of_class(tree, domain)
        && !stirs_below(tree, class_of(tree, domain), action)
}
