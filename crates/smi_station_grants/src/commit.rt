//! A change is made.

use crate::change::Change;
use crate::commanded::{ChildChange, CommandedChildren, link_after, mode_after};
use crate::grant_table::GrantTable;
use smi_command::Link;
use smi_grant::{Command, Holder, Record};
use smi_rows::Mode;

impl<'a> GrantTable<'a> {
    ghost use Rattle.std.specs.Prelude.{◌≡◌, ◌≤◌, true};
    ghost use Rattle.smi_grant.specs.declared.Holder.TheVariants.{Operator};
    ghost use Rattle.smi_tree.specs.Lookups.{domain_count, operator_station_of};
    ghost use Rattle.smi_tree.specs.Roles.{is_number, is_parent};
    ghost use Rattle.smi_station_grants.specs.Children.{commanded_child, meant, with_child};
    ghost use Rattle.smi_station_grants.specs.Commanded.{AreSo};
    ghost use Rattle.smi_protocol.specs.Children as spec;
    ghost use Rattle.smi_protocol.specs.Keeping.{commanded};
    ghost use Rattle.smi_protocol.specs.Grants.{with_record, with_gathered, with_link};
    ghost use Rattle.smi_station_grants.specs.GrantTable.{grants_of};
    ghost use Rattle.smi_station_grants.specs.Change.{changed, IsChange};

    /// Makes the change.
    pub fn commit(&mut self, change: &Change)
        requires { IsChange self.old.tree self.old.number (grants_of self.old) change.now }
        ensures grants { grants_of self.new ≡ changed self.old.tree (grants_of self.old) change.now }
        ensures tree { self.new.tree ≡ self.old.tree }
        ensures number { self.new.number ≡ self.old.number }
    {
        match change {
            Change::Nothing => {}
            Change::HolderChanged { domain, record } => self.put_record(*domain, *record),
            Change::Linked {
                operator,
                domain,
                link,
            } => self.put_operator_link(*operator, *domain, *link),
            Change::Ran {
                domain,
                command,
                record,
                code,
                children,
            } => {
                self.command_children(*domain, *command, children);
                self.put_record(*domain, *record);
                self.put_gathered(*domain, *code);
            }
            Change::ChildReported {
                parent,
                child,
                link,
                record,
                code,
            } => {
                let mode = self.mode(*child);
                self.put_child(*parent, *child, *link, mode);
                self.put_record(*parent, *record);
                self.put_gathered(*parent, *code);
            }
        }
    }

    /// Does to one child what a command does to it.
    fn command_child(&mut self, domain: u16, command: Command, child: u16, change: &ChildChange)
        requires parent { is_parent self.old.tree child domain ≡ true }
        requires change { meant change.now
            ≡ spec.change_of self.old.tree (grants_of self.old) domain command child }
        ensures grants { grants_of self.new ≡ commanded_child self.old.tree (grants_of self.old) domain command child }
        ensures tree { self.new.tree ≡ self.old.tree }
        ensures number { self.new.number ≡ self.old.number }
    {
        let link = self.link(Holder::Domain(domain), child);
        let mode = self.mode(child);
        let new_link = link_after(change, &link);
        let new_mode = mode_after(change, mode);
        self.put_child(domain, child, new_link, new_mode);
    }

    /// Does to all children what a command does to them.
    fn command_children(&mut self, domain: u16, command: Command, known: &CommandedChildren)
        requires least { 1 ≤ domain }
        requires most { domain ≤ domain_count self.old.tree }
        requires so { AreSo self.old.tree (grants_of self.old) domain command known.now }
        ensures grants { grants_of self.new ≡ commanded self.old.tree (grants_of self.old) domain command }
        ensures tree { self.new.tree ≡ self.old.tree }
        ensures number { self.new.number ≡ self.old.number }
    {
        for one in known.as_slice() {
            self.command_child(domain, command, one.child, &one.change);
        }
    }

    /// Puts another record of a domain.
    pub(crate) fn put_record(&mut self, domain: u16, standing: Record)
        requires least { 1 ≤ domain }
        requires most { domain ≤ domain_count self.old.tree }
        ensures grants { grants_of self.new ≡ with_record (grants_of self.old) domain standing }
        ensures tree { self.new.tree ≡ self.old.tree }
        ensures number { self.new.number ≡ self.old.number }
    {
        self.records[usize::from(domain) - 1] = standing;
    }

    /// Puts another code that a domain has gathered.
    pub(crate) fn put_gathered(&mut self, domain: u16, code: u16)
        requires least { 1 ≤ domain }
        requires most { domain ≤ domain_count self.old.tree }
        ensures grants { grants_of self.new ≡ with_gathered (grants_of self.old) domain code }
        ensures tree { self.new.tree ≡ self.old.tree }
        ensures number { self.new.number ≡ self.old.number }
    {
        self.gathered[usize::from(domain) - 1] = code;
    }

    /// Puts another link of an operator of the station.
    pub(crate) fn put_operator_link(&mut self, operator: u16, domain: u16, link: Link)
        requires operator { is_number (operator_station_of self.old.tree operator) self.old.number ≡ true }
        requires least { 1 ≤ domain }
        requires most { domain ≤ domain_count self.old.tree }
        ensures grants { grants_of self.new ≡ with_link (grants_of self.old) (Operator operator) domain link }
        ensures tree { self.new.tree ≡ self.old.tree }
        ensures number { self.new.number ≡ self.old.number }
    {
        self.operator_links[usize::from(operator) - 1].put(domain, link);
    }

    /// Puts another link to a child, and the mode in which it is held.
    pub(crate) fn put_child(&mut self, domain: u16, child: u16, link: Link, mode: Mode)
        requires parent { is_parent self.old.tree child domain ≡ true }
        ensures grants { grants_of self.new ≡ with_child (grants_of self.old) domain child link mode }
        ensures tree { self.new.tree ≡ self.old.tree }
        ensures number { self.new.number ≡ self.old.number }
    {
        self.child_links.put(child, link);
        self.modes[usize::from(child) - 1] = mode;
    }
}
