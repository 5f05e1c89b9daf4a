use crate::entries::entry_of;
use crate::links::Links;
use crate::row_buffer::RowBuffer;
use smi_command::Link;
use smi_grant::{Holder, Record};
use smi_rows::Mode;
use smi_tree::Tree;
use std::alloc::Global;
use std::marker::Model;

/// What a station keeps of grants. Contracts speak of it as the grants that its tables hold.
#[derive(Drop)]
pub struct GrantTable<'a> {
    pub(crate) tree: &'a Tree,
    pub(crate) number: u16,
    pub(crate) boot: u32,
    pub(crate) records: Vec<Record>,
    pub(crate) gathered: Vec<u16>,
    pub(crate) modes: Vec<Mode>,
    pub(crate) child_links: Links,
    pub(crate) operator_links: Vec<Links>,
    pub(crate) room: RowBuffer,
}

impl<'a> Model for GrantTable<'a> {
    ghost use Rattle.smi_station_grants.specs.GrantTable as kept;

    ghost Value = { kept.Kept };

    ghost view = { λ k. record {
      tree = k.tree.now;
      number = k.number;
      boot = k.boot;
      records = k.records.items;
      gathered = k.gathered.items;
      modes = k.modes.items;
      child_links = k.child_links;
      operator_links = k.operator_links.items;
    } };

    ghost invariant = { λ k. kept.IsKept (record {
      tree = k.tree.now;
      number = k.number;
      boot = k.boot;
      records = k.records.items;
      gathered = k.gathered.items;
      modes = k.modes.items;
      child_links = k.child_links;
      operator_links = k.operator_links.items;
    }) };
}

impl<'a> GrantTable<'a> {
    ghost use Rattle.std.specs.Prelude.{◌≡◌};
    ghost use Rattle.std.specs.Prelude.{true};
    ghost use Rattle.smi_tree.specs.Lookups.{operator_station_of};
    ghost use Rattle.smi_tree.specs.Roles.{is_number};
    ghost use Rattle.smi_protocol.specs.Refusals as spec;
    ghost use Rattle.smi_station_grants.specs.GrantTable.{grants_of, IsKept};

    /// Returns the tree that the tables are about.
    pub fn tree(&self) -> &'a Tree
        ensures value { result.now ≡ self.now.tree }
        ensures kept { IsKept self.now }
    {
        self.tree
    }

    /// Returns the station's number.
    pub fn number(&self) -> u16
        ensures value { result ≡ self.now.number }
    {
        self.number
    }

    /// Returns how often the station has started.
    pub fn boot(&self) -> u32
        ensures { result ≡ (grants_of self.now).boot }
    {
        self.boot
    }

    /// Returns the allocator of the tables.
    pub fn alloc(&self) -> Global {
        *self.records.allocator()
    }

    /// Returns the record of a domain, a fresh one if the tree has no such domain.
    pub fn record(&self, domain: u16) -> Record
        ensures { result ≡ (grants_of self.now).records domain }
    {
        entry_of(&self.records, domain, Record::fresh())
    }

    /// Returns the code that a domain has gathered.
    pub fn gathered(&self, domain: u16) -> u16
        ensures { result ≡ (grants_of self.now).gathered domain }
    {
        entry_of(&self.gathered, domain, 0)
    }

    /// Returns the mode in which a domain is held by the one above it.
    pub fn mode(&self, domain: u16) -> Mode
        ensures { result ≡ (grants_of self.now).modes domain }
    {
        entry_of(&self.modes, domain, Mode::Included)
    }

    /// Returns the link of a holder to a domain, `Out(0)` if there is none.
    pub fn link(&self, holder: Holder, domain: u16) -> Link
        ensures { result ≡ (grants_of self.now).links holder domain }
    {
        match holder {
            Holder::Free => Link::Out(0),
            Holder::Operator(operator) => self.operator_link(operator, domain),
            Holder::Domain(parent) => self.child_link(parent, domain),
        }
    }

    fn child_link(&self, parent: u16, domain: u16) -> Link
        ensures { result ≡ (grants_of self.now).links (Holder.Domain parent) domain }
    {
        match self.tree.parent(domain) {
            Some(above) if above == parent => self.child_links.link(domain),
            _ => Link::Out(0),
        }
    }

    fn operator_link(&self, operator: u16, domain: u16) -> Link
        ensures { result ≡ (grants_of self.now).links (Holder.Operator operator) domain }
    {
        if operator == 0 {
            return Link::Out(0);
        }
        match self.operator_links.get(usize::from(operator) - 1) {
            Some(links) => links.link(domain),
            None => Link::Out(0),
        }
    }

    /// Returns how many links of an operator of the station are not out.
    pub fn links_in_use(&self, operator: u16) -> usize
        requires { is_number (operator_station_of self.now.tree operator) self.now.number ≡ true }
        ensures { result ≡ spec.links_in_use self.now.tree (grants_of self.now) operator }
    {
        self.operator_links[usize::from(operator) - 1].in_use()
    }
}
