//! The names of what a tree has, by number; nothing if it has no such thing.

ghost use Rattle.std.specs.Prelude.{◌≡◌, option_map};
ghost use Rattle.smi_tree.specs.Hierarchy.{entry};
ghost use Rattle.smi_tree.specs.Lookups.{object_name};

use smi_tree::Tree;

/// Returns the name of the station of this number.
pub fn station(tree: &Tree, number: u16) -> Option<&[u8]>
    ensures { option_map (λ n. n.now) result ≡ entry tree.now.station_names number }
{
    if 1 <= number && number <= tree.station_count() {
        Some(tree.station_name(number))
    } else {
        None
    }
}

/// Returns the name of the operator of this number.
pub fn operator(tree: &Tree, number: u16) -> Option<&[u8]>
    ensures { option_map (λ n. n.now) result ≡ entry tree.now.operator_names number }
{
    if 1 <= number && number <= tree.operator_count() {
        Some(tree.operator_name(number))
    } else {
        None
    }
}

/// Returns the name of the domain of this number.
pub fn domain(tree: &Tree, number: u16) -> Option<&[u8]>
    ensures { option_map (λ n. n.now) result ≡ entry tree.now.domain_names number }
{
    if 1 <= number && number <= tree.domain_count() {
        Some(tree.domain_name(number))
    } else {
        None
    }
}

/// Returns the name of the device of this number.
pub fn device(tree: &Tree, number: u16) -> Option<&[u8]>
    ensures { option_map (λ n. n.now) result ≡ entry tree.now.device_names number }
{
    if 1 <= number && number <= tree.device_count() {
        Some(tree.device_name(number))
    } else {
        None
    }
}

/// Returns the name of the object of this number.
pub fn object(tree: &Tree, number: u16) -> Option<&[u8]>
    ensures { option_map (λ n. n.now) result ≡ object_name tree.now number }
{
    if number <= tree.domain_count() {
        domain(tree, number)
    } else {
        device(tree, number - tree.domain_count())
    }
}

/// Returns the name of the state of this number.
pub fn state(tree: &Tree, number: u16) -> Option<&[u8]>
    ensures { option_map (λ n. n.now) result ≡ entry tree.now.state_names number }
{
    if 1 <= number && number <= tree.state_count() {
        Some(tree.state_name(number))
    } else {
        None
    }
}

/// Returns the name of the action of this number.
pub fn action(tree: &Tree, number: u16) -> Option<&[u8]>
    ensures { option_map (λ n. n.now) result ≡ entry tree.now.action_names number }
{
    if 1 <= number && number <= tree.action_count() {
        Some(tree.action_name(number))
    } else {
        None
    }
}
