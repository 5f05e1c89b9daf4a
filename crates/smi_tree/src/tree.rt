//! A tree, and what it says of its names and numbers.

use crate::fault::{Fault, TreeFault};
use crate::groups::grouped;
use crate::name::Sought;
use crate::tables::Tables;
use smi_base::MOST_BYTES_OF_A_FILE;
use std::alloc::{AllocError, Global};
use std::marker::Model;

/// A hierarchy of domains, as a tree file declares it.
///
/// Stations, operators, states, actions, domains and devices are numbered from 1 by their lines. An object is a unit,
/// numbered as its domain, or a device, numbered after all domains. Every tree is lawful: it has a number from 1 and
/// at least one station, operator, state, action and domain, it keeps every limit of docs/FORMATS.md ("The tree
/// file"), and each number in it is one that is there.
#[derive(Drop)]
pub struct Tree {
    // In a box, because each place that drops a tree is expensive to prove.
    pub(crate) parts: Box<Parts>,
}

/// What a tree is made of.
#[derive(Drop)]
pub(crate) struct Parts {
    pub(crate) tables: Tables,
    /// The children of each domain, by number.
    pub(crate) children: Vec<Vec<u16>>,
    /// The devices of each domain, by number.
    pub(crate) devices: Vec<Vec<u16>>,
    /// The operators of each station, by number.
    pub(crate) operators: Vec<Vec<u16>>,
}

impl Model for Tree {
    ghost use Rattle.smi_tree.specs.Hierarchy.{Hierarchy};

    ghost Value = { Hierarchy };

    ghost use Rattle.smi_tree.specs.Indexed.{IsIndexed};

    ghost view = { λ t. t.parts.value.tables };

    ghost invariant = { λ t. IsIndexed t.parts.value.tables t.parts.value.children.items t.parts.value.devices.items
        t.parts.value.operators.items };
}

ghost use Rattle.std.specs.Prelude.{◌≡◌, IfOk};

/// Puts a value into a box.
// Generic, because a place that drops a large value of a known type is expensive to prove.
fn boxed<T: Drop>(alloc: Global, value: T) -> Result<Box<T>, AllocError>
    ensures { IfOk result (λ b. b.value ≡ value) }
{
    Ok(Box::new(alloc, value)?)
}

impl Parts {
    ghost use Rattle.std.specs.Prelude.{◌≡◌, OnOk};
    ghost use Rattle.std.specs.Str.Lines.{lines};
    ghost use Rattle.smi_tree.specs.Hierarchy.{undeclared};
    ghost use Rattle.smi_tree.specs.Lawful.{IsTree};
    ghost use Rattle.smi_tree.specs.Indexed.{IsIndexed};
    ghost use Rattle.smi_tree.specs.File.{ended, with_lines, Fills};

    /// Returns the parts of a tree of which nothing is declared.
    fn new(alloc: Global) -> Parts
        ensures { result.tables ≡ undeclared }
    {
        Parts {
            tables: Tables::new(alloc),
            children: Vec::new(alloc),
            devices: Vec::new(alloc),
            operators: Vec::new(alloc),
        }
    }

    /// Reads the lines of a file into parts of which nothing is declared.
    fn fill(&mut self, alloc: Global, bytes: &[u8]) -> Result<(), TreeFault>
        requires { self.old.tables ≡ undeclared }
        ensures exact { Fills self.new.tables result (ended (with_lines 1 undeclared (lines bytes.now))) }
        ensures indexed { OnOk result (IsIndexed self.new.tables self.new.children.items self.new.devices.items
            self.new.operators.items) }
    {
        self.tables.read_lines(alloc, bytes)?;
        if !self.tables.is_complete() {
            return Err(TreeFault::Line(0, Fault::Incomplete.code()));
        }
        self.index(alloc)?;
        Ok(())
    }

    /// Groups domains by parent, devices by domain and operators by station.
    fn index(&mut self, alloc: Global) -> Result<(), AllocError>
        requires { IsTree self.old.tables }
        ensures tables { self.new.tables ≡ self.old.tables }
        ensures indexed { OnOk result (IsIndexed self.new.tables self.new.children.items self.new.devices.items
            self.new.operators.items) }
    {
        let domains = self.tables.domains.len() as u16;
        let stations = self.tables.addresses.len() as u16;
        self.children = grouped(alloc, domains, &self.tables.domains)?;
        self.devices = grouped(alloc, domains, self.tables.devices.rows())?;
        self.operators = grouped(alloc, stations, &self.tables.homes)?;
        Ok(())
    }
}

impl Tree {
    ghost use Rattle.std.specs.Prelude.{◌≡◌, ◌+◌, ◌≤◌, IfOk, IfSome, Some};
    ghost use Rattle.smi_tree.specs.Name.{number_of};
    ghost use Rattle.smi_tree.specs.Lawful.{IsBetween, IsTree};
    ghost use Rattle.smi_tree.specs.Hierarchy.{entry};
    ghost use Rattle.smi_tree.specs.File.{tree_of, Reads};
    ghost use Rattle.smi_tree.specs.Lookups.{
      state_count,
      action_count,
      station_count,
      operator_count,
      domain_count,
      device_count,
      object_named,
      object_name,
    };

    /// Returns the tree that a file declares, or the first of its faulty lines with its first fault.
    ///
    /// Out of memory is answered exactly when an allocation was refused, which tests
    /// alone see.
    #[tactic(auto, unfolding(crate::specs::File::tree_of))]
    pub fn read(alloc: Global, bytes: &[u8]) -> Result<Tree, TreeFault>
        ensures exact { Reads result (tree_of bytes.now) }
        ensures lawful { IfOk result IsTree }
    {
        if bytes.len() > MOST_BYTES_OF_A_FILE {
            return Err(TreeFault::Line(0, Fault::FileTooLong.code()));
        }
        let mut parts = boxed(alloc, Parts::new(alloc))?;
        parts.fill(alloc, bytes)?;
        Ok(Tree { parts })
    }

    /// Returns the number of the tree, 1 to 65,535.
    pub fn number(&self) -> u16
        ensures value { result ≡ self.now.number }
        ensures tree { IsTree self.now }
    {
        self.parts.tables.number
    }

    /// Returns how many states there are, 1 at least.
    pub fn state_count(&self) -> u16
        ensures value { result ≡ state_count self.now }
        ensures tree { IsTree self.now }
    {
        self.parts.tables.state_names.len() as u16
    }

    /// Returns how many actions there are, 1 at least.
    pub fn action_count(&self) -> u16
        ensures value { result ≡ action_count self.now }
        ensures tree { IsTree self.now }
    {
        self.parts.tables.action_names.len() as u16
    }

    /// Returns how many stations there are, 1 at least.
    pub fn station_count(&self) -> u16
        ensures value { result ≡ station_count self.now }
        ensures tree { IsTree self.now }
    {
        self.parts.tables.station_names.len() as u16
    }

    /// Returns how many operators there are, 1 at least.
    pub fn operator_count(&self) -> u16
        ensures value { result ≡ operator_count self.now }
        ensures tree { IsTree self.now }
    {
        self.parts.tables.operator_names.len() as u16
    }

    /// Returns how many domains there are, 1 at least.
    pub fn domain_count(&self) -> u16
        ensures value { result ≡ domain_count self.now }
        ensures tree { IsTree self.now }
    {
        self.parts.tables.domain_names.len() as u16
    }

    /// Returns how many devices there are.
    pub fn device_count(&self) -> u16
        ensures value { result ≡ device_count self.now }
        ensures tree { IsTree self.now }
    {
        self.parts.tables.device_names.len() as u16
    }

    /// Returns how many units and devices there are.
    pub fn object_count(&self) -> u16
        ensures { result ≡ domain_count self.now + device_count self.now }
    {
        self.domain_count() + self.device_count()
    }

    /// Returns the name of a state.
    pub fn state_name(&self, state: u16) -> &[u8]
        requires least { 1 ≤ state }
        requires most { state ≤ state_count self.now }
        ensures { entry self.now.state_names state ≡ Some result.now }
    {
        self.parts.tables.state_names.name(state)
    }

    /// Returns the name of an action.
    pub fn action_name(&self, action: u16) -> &[u8]
        requires least { 1 ≤ action }
        requires most { action ≤ action_count self.now }
        ensures { entry self.now.action_names action ≡ Some result.now }
    {
        self.parts.tables.action_names.name(action)
    }

    /// Returns the name of a station.
    pub fn station_name(&self, station: u16) -> &[u8]
        requires least { 1 ≤ station }
        requires most { station ≤ station_count self.now }
        ensures { entry self.now.station_names station ≡ Some result.now }
    {
        self.parts.tables.station_names.name(station)
    }

    /// Returns the name of an operator.
    pub fn operator_name(&self, operator: u16) -> &[u8]
        requires least { 1 ≤ operator }
        requires most { operator ≤ operator_count self.now }
        ensures { entry self.now.operator_names operator ≡ Some result.now }
    {
        self.parts.tables.operator_names.name(operator)
    }

    /// Returns the name of a domain.
    pub fn domain_name(&self, domain: u16) -> &[u8]
        requires least { 1 ≤ domain }
        requires most { domain ≤ domain_count self.now }
        ensures { entry self.now.domain_names domain ≡ Some result.now }
    {
        self.parts.tables.domain_names.name(domain)
    }

    /// Returns the name of a device.
    pub fn device_name(&self, device: u16) -> &[u8]
        requires least { 1 ≤ device }
        requires most { device ≤ device_count self.now }
        ensures { entry self.now.device_names device ≡ Some result.now }
    {
        self.parts.tables.device_names.name(device)
    }

    /// Returns the name of a unit or a device.
    pub fn object_name(&self, object: u16) -> &[u8]
        requires least { 1 ≤ object }
        requires most { object ≤ domain_count self.now + device_count self.now }
        ensures { object_name self.now object ≡ Some result.now }
    {
        let domains = self.domain_count();
        if object <= domains {
            self.domain_name(object)
        } else {
            self.device_name(object - domains)
        }
    }

    /// Returns the number of a state by its name.
    pub fn state_named(&self, name: &[u8]) -> Option<u16>
        ensures number { result ≡ number_of self.now.state_names name.now }
        ensures within { IfSome result (IsBetween 1 (state_count self.now)) }
    {
        self.parts.tables.state_names.find(&Sought::of(name))
    }

    /// Returns the number of an action by its name.
    pub fn action_named(&self, name: &[u8]) -> Option<u16>
        ensures number { result ≡ number_of self.now.action_names name.now }
        ensures within { IfSome result (IsBetween 1 (action_count self.now)) }
    {
        self.parts.tables.action_names.find(&Sought::of(name))
    }

    /// Returns the number of a station by its name.
    pub fn station_named(&self, name: &[u8]) -> Option<u16>
        ensures number { result ≡ number_of self.now.station_names name.now }
        ensures within { IfSome result (IsBetween 1 (station_count self.now)) }
    {
        self.parts.tables.station_names.find(&Sought::of(name))
    }

    /// Returns the number of an operator by its name.
    pub fn operator_named(&self, name: &[u8]) -> Option<u16>
        ensures number { result ≡ number_of self.now.operator_names name.now }
        ensures within { IfSome result (IsBetween 1 (operator_count self.now)) }
    {
        self.parts.tables.operator_names.find(&Sought::of(name))
    }

    /// Returns the number of a domain by its name.
    pub fn domain_named(&self, name: &[u8]) -> Option<u16>
        ensures number { result ≡ number_of self.now.domain_names name.now }
        ensures within { IfSome result (IsBetween 1 (domain_count self.now)) }
    {
        self.parts.tables.domain_names.find(&Sought::of(name))
    }

    /// Returns the number of a device by its name.
    pub fn device_named(&self, name: &[u8]) -> Option<u16>
        ensures number { result ≡ number_of self.now.device_names name.now }
        ensures within { IfSome result (IsBetween 1 (device_count self.now)) }
    {
        self.parts.tables.device_names.find(&Sought::of(name))
    }

    /// Returns the number of a unit or a device by its name.
    pub fn object_named(&self, name: &[u8]) -> Option<u16>
        ensures number { result ≡ object_named self.now name.now }
        ensures within { IfSome result (IsBetween 1 (domain_count self.now + device_count self.now)) }
    {
        match self.domain_named(name) {
            Some(domain) => Some(domain),
            None => match self.device_named(name) {
                Some(device) => Some(self.domain_count() + device),
                None => None,
            },
        }
    }
}
