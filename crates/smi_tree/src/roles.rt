//! Who keeps what, who is above what, and who may hold it.

ghost use Rattle.std.specs.Prelude.{◌≡◌, ◌+◌, ◌≤◌, Some};
ghost use Rattle.smi_tree.specs.Lookups.{domain_count, device_count};
ghost use Rattle.smi_tree.specs.Roles as spec;

use crate::tree::Tree;
use smi_grant::{Command, Holder};

// ---- what a tree has, and who keeps it

/// Returns true if the tree has a domain.
pub fn has_domain(tree: &Tree, domain: u16) -> bool
    ensures { result ≡ spec.has_domain tree.now domain }
{
    0 < domain && domain <= tree.domain_count()
}

/// Returns true if the tree has an object.
pub fn has_object(tree: &Tree, object: u16) -> bool
    ensures { result ≡ spec.has_object tree.now object }
{
    1 <= object && object <= tree.object_count()
}

/// Returns true if a station keeps a domain.
pub fn is_keeper(tree: &Tree, station: u16, domain: u16) -> bool
    ensures { result ≡ spec.is_keeper tree.now station domain }
{
    1 <= domain && domain <= tree.domain_count() && tree.domain(domain).station == station
}

/// Returns the station that keeps an object: a unit is kept with its domain, and so is a device.
pub fn keeper_of(tree: &Tree, object: u16) -> u16
    requires least { 1 ≤ object }
    requires most { object ≤ domain_count tree.now + device_count tree.now }
    ensures { spec.keeper_of tree.now object ≡ Some result }
{
    let domains = tree.domain_count();
    if object <= domains {
        return tree.domain(object).station;
    }
    let device = tree.device(object - domains);
    tree.domain(device.domain).station
}

/// Returns true if a station keeps an object.
pub fn is_kept_by(tree: &Tree, station: u16, object: u16) -> bool
    ensures { result ≡ spec.is_kept_by tree.now station object }
{
    let domains = tree.domain_count();
    if object <= domains {
        return is_keeper(tree, station, object);
    }
    if object - domains > tree.device_count() {
        return false;
    }
    is_keeper(tree, station, tree.device(object - domains).domain)
}

// ---- who is above a domain, and who may hold it

/// Returns true if the one domain is above the other.
pub fn is_parent(tree: &Tree, domain: u16, above: u16) -> bool
    ensures { result ≡ spec.is_parent tree.now domain above }
{
    match tree.parent(domain) {
        Some(parent) => parent == above,
        None => false,
    }
}

/// Returns true if an object is the unit of a child of a domain that the station keeps.
pub fn is_child_unit(tree: &Tree, station: u16, object: u16) -> bool
    ensures { result ≡ spec.is_child_unit tree.now station object }
{
    match tree.parent(object) {
        Some(parent) => is_keeper(tree, station, parent),
        None => false,
    }
}

/// Returns true if the holder may hold the domain: nobody, an operator of the tree, or the domain's parent.
pub fn is_holder_of(tree: &Tree, domain: u16, holder: Holder) -> bool
    ensures { result ≡ spec.is_holder_of tree.now domain holder }
{
    match holder {
        Holder::Free => true,
        Holder::Operator(operator) => operator <= tree.operator_count(),
        Holder::Domain(above) => is_parent(tree, domain, above),
    }
}

/// Returns the station of a holder, none of nobody and of one that the tree does not have.
pub fn holder_station(tree: &Tree, holder: Holder) -> Option<u16>
    ensures { result ≡ spec.holder_station tree.now holder }
{
    match holder {
        Holder::Free => None,
        Holder::Operator(operator) => {
            if 1 <= operator && operator <= tree.operator_count() {
                Some(tree.operator_station(operator))
            } else {
                None
            }
        }
        Holder::Domain(domain) => {
            if 1 <= domain && domain <= tree.domain_count() {
                Some(tree.domain(domain).station)
            } else {
                None
            }
        }
    }
}

/// Returns true if a holder's station is this one.
pub fn is_at(tree: &Tree, holder: Holder, station: u16) -> bool
    ensures { result ≡ spec.is_number (spec.holder_station tree.now holder) station }
{
    match holder_station(tree, holder) {
        Some(its) => its == station,
        None => false,
    }
}

/// Returns true if the tree has the command's action or target.
pub fn is_command_of(tree: &Tree, command: Command) -> bool
    ensures { result ≡ spec.is_command_of tree.now command }
{
    match command {
        Command::Do(action) => action <= tree.action_count(),
        Command::Include(target)
        | Command::Exclude(target)
        | Command::Manual(target)
        | Command::Ignore(target) => target <= tree.domain_count(),
    }
}
