//! What a tree says of its domains, devices, operators and stations. No look-up takes memory.

ghost use Rattle.std.specs.Prelude.{◌≡◌};
ghost use Rattle.smi_base.specs.declared.trees.TheConstants.{MOST_LEVELS};
ghost use Rattle.smi_tree.specs.Lookups.{towards};

use crate::declare::parent_in;
use crate::number::Address;
use crate::row::{Class, Device, Domain, entry};
use crate::rule::state_by;
use crate::tree::Tree;
use smi_base::MOST_LEVELS;

/// Returns the last domain before `domain` on the way up from `target`.
fn towards(domains: &[Domain], domain: u16, target: u16) -> Option<u16>
    ensures { result ≡ towards MOST_LEVELS domains.now domain target }
{
    let mut at = target;
    for _ in 0..MOST_LEVELS {
        match parent_in(domains, at) {
            Some(parent) => {
                if parent == domain {
                    return Some(at);
                }
                at = parent;
            }
            None => return None,
        }
    }
    None
}

impl Tree {
    ghost use Rattle.std.specs.Prelude.{◌≡◌, ◌≤◌, Some, option_copied};
    ghost use Rattle.smi_tree.specs.Hierarchy.{entry};
    ghost use Rattle.smi_tree.specs.Lookups.{
      station_count,
      operator_count,
      domain_count,
      device_count,
      children_of,
      devices_of,
      operators_of,
      parent_of,
      is_below,
      child_towards,
      class_of_domain,
      class_of_device,
      first_state,
      moved,
      accepts,
      unit_state,
    };

    /// Returns the address of a station.
    pub fn address(&self, station: u16) -> Address
        requires least { 1 ≤ station }
        requires most { station ≤ station_count self.now }
        ensures { entry self.now.addresses station ≡ Some result }
    {
        self.parts.tables.addresses[usize::from(station) - 1]
    }

    /// Returns the operators of a station, by number.
    pub fn operators(&self, station: u16) -> &[u16]
        requires least { 1 ≤ station }
        requires most { station ≤ station_count self.now }
        ensures { result.now ≡ operators_of self.now station }
    {
        &self.parts.operators[usize::from(station) - 1]
    }

    /// Returns the station of an operator.
    pub fn operator_station(&self, operator: u16) -> u16
        requires least { 1 ≤ operator }
        requires most { operator ≤ operator_count self.now }
        ensures { entry self.now.homes operator ≡ Some result }
    {
        self.parts.tables.homes[usize::from(operator) - 1]
    }

    /// Returns the station, the class and the parent of a domain.
    pub fn domain(&self, domain: u16) -> Domain
        requires least { 1 ≤ domain }
        requires most { domain ≤ domain_count self.now }
        ensures { entry self.now.domains domain ≡ Some result }
    {
        self.parts.tables.domains[usize::from(domain) - 1]
    }

    /// Returns the domain above a domain, none for a root.
    pub fn parent(&self, domain: u16) -> Option<u16>
        ensures { result ≡ parent_of self.now domain }
    {
        parent_in(&self.parts.tables.domains, domain)
    }

    /// Returns the children of a domain, by number.
    pub fn children(&self, domain: u16) -> &[u16]
        requires least { 1 ≤ domain }
        requires most { domain ≤ domain_count self.now }
        ensures { result.now ≡ children_of self.now domain }
    {
        &self.parts.children[usize::from(domain) - 1]
    }

    /// Returns the devices of a domain, by number.
    pub fn devices(&self, domain: u16) -> &[u16]
        requires least { 1 ≤ domain }
        requires most { domain ≤ domain_count self.now }
        ensures { result.now ≡ devices_of self.now domain }
    {
        &self.parts.devices[usize::from(domain) - 1]
    }

    /// Returns the child of a domain that a target is below or is, if the target is below the domain.
    pub fn child_towards(&self, domain: u16, target: u16) -> Option<u16>
        ensures { result ≡ child_towards self.now domain target }
    {
        towards(&self.parts.tables.domains, domain, target)
    }

    /// Returns true if a chain of parents leads from a target to a domain. No domain is below itself.
    pub fn is_below(&self, target: u16, domain: u16) -> bool
        ensures { result ≡ is_below self.now target domain }
    {
        self.child_towards(domain, target).is_some()
    }

    /// Returns the domain and the class of a device.
    pub fn device(&self, device: u16) -> Device
        requires least { 1 ≤ device }
        requires most { device ≤ device_count self.now }
        ensures { entry self.now.devices device ≡ Some result }
    {
        self.parts.tables.devices.rows()[usize::from(device) - 1]
    }

    /// Returns the state to which an action moves a device: its own if its class has no row for the two.
    pub fn moved(&self, device: u16, state: u16, action: u16) -> u16
        ensures { result ≡ moved self.now device state action }
    {
        let Some(row) = entry(self.parts.tables.devices.rows(), device) else {
            return state;
        };
        match self.parts.tables.moves.find(row.class, state, action) {
            Some(found) => found.to,
            None => state,
        }
    }

    /// Returns the table of a domain's class.
    fn class_of_domain(&self, domain: u16) -> Option<&Class>
        ensures { option_copied result ≡ class_of_domain self.now domain }
    {
        let row = entry(&self.parts.tables.domains, domain)?;
        entry(&self.parts.tables.classes, row.class)
    }

    /// Returns the table of a device's class.
    fn class_of_device(&self, device: u16) -> Option<&Class>
        ensures { option_copied result ≡ class_of_device self.now device }
    {
        let row = entry(self.parts.tables.devices.rows(), device)?;
        entry(&self.parts.tables.classes, row.class)
    }

    /// Returns true if a domain accepts an action.
    pub fn accepts(&self, domain: u16, action: u16) -> bool
        ensures { result ≡ accepts self.now domain action }
    {
        match self.class_of_domain(domain) {
            Some(class) => class.accepts(action),
            None => false,
        }
    }

    /// Returns the state of a domain's unit once its members are in these states, 0 for one that is not known: the
    /// target of the first rule that holds, else the old state.
    pub fn unit_state(&self, domain: u16, old: u16, members: &[u16]) -> u16
        ensures { result ≡ unit_state self.now domain old members.now }
    {
        match self.class_of_domain(domain) {
            Some(class) => class.state_by(old, members),
            None => old,
        }
    }

    /// Returns the state in which a unit or a device begins, if there is such an object.
    pub fn first_state(&self, object: u16) -> Option<u16>
        ensures { result ≡ first_state self.now object }
    {
        let domains = self.domain_count();
        let class = if object <= domains {
            self.class_of_domain(object)?
        } else {
            self.class_of_device(object - domains)?
        };
        Some(class.first_state())
    }
}
