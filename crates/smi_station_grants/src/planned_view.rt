//! What a change will leave, while nothing has changed yet: the grants, and the row that it has saved.

ghost use Rattle.std.specs.Prelude.{◌≡◌};
ghost use Rattle.smi_protocol.specs.SavedRows.{stored_if};

use crate::change::Change;
use crate::commanded::{CommandedChildren, link_after, mode_after};
use crate::grant_table::GrantTable;
use crate::row_buffer::RowBuffer;
use smi_command::Link;
use smi_grant::{Command, Holder, Record};
use smi_rows::{Key, Mode, StoredLink, append_domain, append_operator};
use std::alloc::AllocError;
use std::marker::Model;

/// The grants as a change will leave them, while nothing has changed yet.
#[derive(Drop)]
pub struct PlannedView<'k, 'a> {
    pub(crate) kept: &'k GrantTable<'a>,
    pub(crate) change: &'k Change,
}

impl<'k, 'a> Model for PlannedView<'k, 'a> {
    ghost use Rattle.smi_station_grants.specs.Change.{Planned};

    ghost Value = { Planned };

    ghost view = { λ a. record { kept = a.kept.now; change = a.change.now } };
}

/// Returns a link as it is stored, none if nothing was ever heard of the domain.
fn stored_if(domain: u16, link: Link, mode: Mode) -> Option<StoredLink>
    ensures { result ≡ stored_if domain link mode }
{
    match link {
        Link::Out(0) => None,
        _ => Some(StoredLink { domain, link, mode }),
    }
}

impl<'k, 'a> PlannedView<'k, 'a> {
    ghost use Rattle.std.specs.Prelude.{◌≡◌, ◌≤◌, ◌<◌, ◌^◌, true, is_some, length, IfOk, OnErr, OnOk};
    ghost use Rattle.smi_tree.specs.Lookups.{domain_count};
    ghost use Rattle.smi_rows.specs.Store.{saved};
    ghost use Rattle.smi_protocol.specs.GrantStep.{OfDomain, OfOperator};
    ghost use Rattle.smi_protocol.specs.SavedRows as rows;
    ghost use Rattle.smi_station_grants.specs.Change.{after_of, saved_by, IsChange};
    ghost use Rattle.smi_station_grants.specs.GrantTable.{grants_of};
    ghost use Rattle.smi_station_grants.specs.Save.{row_with};

    /// Returns the grants after this change.
    pub fn of(kept: &'k GrantTable<'a>, change: &'k Change) -> PlannedView<'k, 'a>
        ensures { result ≡ record { kept = kept.now; change = change.now } }
    {
        PlannedView { kept, change }
    }

    /// Returns the record of a domain.
    pub fn record(&self, domain: u16) -> Record
        ensures { result ≡ (after_of self.now).records domain }
    {
        match *self.change {
            Change::HolderChanged { domain: of, record } if of == domain => record,
            Change::Ran {
                domain: at,
                record,
                ..
            } if at == domain => record,
            Change::ChildReported { parent, record, .. } if parent == domain => record,
            _ => self.kept.record(domain),
        }
    }

    /// Returns the code that a domain has gathered.
    pub fn gathered(&self, domain: u16) -> u16
        ensures { result ≡ (after_of self.now).gathered domain }
    {
        match *self.change {
            Change::Ran {
                domain: at,
                code,
                ..
            } if at == domain => code,
            Change::ChildReported { parent, code, .. } if parent == domain => code,
            _ => self.kept.gathered(domain),
        }
    }

    /// Returns the mode in which a domain is held by the one above it.
    pub fn mode(&self, domain: u16) -> Mode
        requires { IsChange self.now.kept.tree self.now.kept.number (grants_of self.now.kept) self.now.change }
        ensures { result ≡ (after_of self.now).modes domain }
    {
        match self.change {
            Change::Ran {
                children: known,
                ..
            } => self.kept.mode_commanded(known, domain),
            _ => self.kept.mode(domain),
        }
    }

    /// Returns the link of a holder to a domain.
    pub fn link(&self, holder: Holder, domain: u16) -> Link
        requires { IsChange self.now.kept.tree self.now.kept.number (grants_of self.now.kept) self.now.change }
        ensures { result ≡ (after_of self.now).links holder domain }
    {
        match self.change {
            Change::Linked {
                operator,
                domain: to,
                link,
            } if *to == domain && holder == Holder::Operator(*operator) => { *link }
            Change::ChildReported {
                parent,
                child,
                link,
                ..
            } if *child == domain && holder == Holder::Domain(*parent) => { *link }
            Change::Ran {
                domain: of,
                children: known,
                ..
            } => { self.kept.link_commanded(*of, known, holder, domain) }
            _ => self.kept.link(holder, domain),
        }
    }

    /// Makes the row ready that the change has saved, if any: its key is answered, and its bytes are in the buffer.
    pub fn row(&self, room: &mut RowBuffer) -> Result<Option<Key>, AllocError>
        requires { IsChange self.now.kept.tree self.now.kept.number (grants_of self.now.kept) self.now.change }
        ensures row { IfOk result (λ key. row_with key room.new ≡ saved_by self.now.kept.tree self.now.kept.number
            (grants_of self.now.kept) self.now.change) }
        ensures memory { OnErr result (is_some (saved_by self.now.kept.tree self.now.kept.number
            (grants_of self.now.kept) self.now.change) ≡ true) }
    {
        match *self.change {
            Change::Nothing => Ok(None),
            Change::HolderChanged { domain, .. }
            | Change::Ran { domain, .. }
            | Change::ChildReported { parent: domain, .. } => {
                let key = self.domain_row(room, domain)?;
                Ok(Some(key))
            }
            Change::Linked { operator, .. } => {
                let key = self.operator_row(room, operator)?;
                Ok(Some(key))
            }
        }
    }

    /// Writes the row of a domain.
    fn domain_row(&self, room: &mut RowBuffer, domain: u16) -> Result<Key, AllocError>
        requires change { IsChange self.now.kept.tree self.now.kept.number (grants_of self.now.kept) self.now.change }
        requires least { 1 ≤ domain }
        requires most { domain ≤ domain_count self.now.kept.tree }
        ensures { IfOk result (λ key. saved key room.new ≡ rows.saved_row self.now.kept.tree self.now.kept.number
            (after_of self.now) (OfDomain domain)) }
    {
        let RowBuffer { links, bytes } = room;
        self.child_links(links, domain)?;
        bytes.clear();
        append_domain(bytes, &self.record(domain), self.gathered(domain), links)?;
        Ok(self.key(domain, 0))
    }

    /// Writes the row of an operator.
    fn operator_row(&self, room: &mut RowBuffer, operator: u16) -> Result<Key, AllocError>
        requires { IsChange self.now.kept.tree self.now.kept.number (grants_of self.now.kept) self.now.change }
        ensures { IfOk result (λ key. saved key room.new ≡ rows.saved_row self.now.kept.tree self.now.kept.number
            (after_of self.now) (OfOperator operator)) }
    {
        let RowBuffer { links, bytes } = room;
        self.operator_links(links, operator)?;
        bytes.clear();
        append_operator(bytes, links)?;
        Ok(self.key(0, operator))
    }

    fn key(&self, domain: u16, operator: u16) -> Key
        ensures { result ≡ rows.key self.now.kept.number domain operator }
    {
        Key {
            station: self.kept.number(),
            domain,
            operator,
        }
    }

    /// Gathers a domain's links to its children, as they are stored.
    fn child_links(&self, links: &mut Vec<StoredLink>, domain: u16) -> Result<(), AllocError>
        requires change { IsChange self.now.kept.tree self.now.kept.number (grants_of self.now.kept) self.now.change }
        requires least { 1 ≤ domain }
        requires most { domain ≤ domain_count self.now.kept.tree }
        ensures links { OnOk result (links.new.items ≡ rows.child_links self.now.kept.tree (after_of self.now) domain) }
        ensures few { OnOk result (length links.new.items < 2 ^ 16) }
    {
        let holder = Holder::Domain(domain);
        links.clear();
        let children = self.kept.tree().children(domain);
        for child in children {
            match stored_if(*child, self.link(holder, *child), self.mode(*child)) {
                Some(stored) => links.push(stored)?,
                None => {}
            }
        }
        Ok(())
    }

    /// Gathers an operator's links, as they are stored.
    fn operator_links(&self, links: &mut Vec<StoredLink>, operator: u16) -> Result<(), AllocError>
        requires { IsChange self.now.kept.tree self.now.kept.number (grants_of self.now.kept) self.now.change }
        ensures links { OnOk result (links.new.items
            ≡ rows.operator_links self.now.kept.tree (after_of self.now) operator) }
        ensures few { OnOk result (length links.new.items < 2 ^ 16) }
    {
        let holder = Holder::Operator(operator);
        links.clear();
        for place in 0..self.kept.tree().domain_count() {
            let domain = place + 1;
            match stored_if(domain, self.link(holder, domain), Mode::Included) {
                Some(stored) => links.push(stored)?,
                None => {}
            }
        }
        Ok(())
    }
}

impl<'a> GrantTable<'a> {
    ghost use Rattle.std.specs.Prelude.{◌≡◌, ℕ};
    ghost use Rattle.smi_grant.specs.declared.Command.{Command};
    ghost use Rattle.smi_protocol.specs.Keeping.{commanded};
    ghost use Rattle.smi_station_grants.specs.GrantTable.{grants_of};
    ghost use Rattle.smi_station_grants.specs.Commanded.{AreSo};

    /// Returns the mode of a domain after a command at another one, which may be its parent.
    fn mode_commanded(&self, known: &CommandedChildren, child: u16) -> Mode
        ensures { (d : ℕ) (c : Command) → AreSo self.now.tree (grants_of self.now) d c known.now
            → result ≡ (commanded self.now.tree (grants_of self.now) d c).modes child }
    {
        let mode = self.mode(child);
        match known.of(child) {
            Some(change) => mode_after(&change, mode),
            None => mode,
        }
    }

    /// Returns the link of a holder to a domain after a command at another one, which may be the holder.
    fn link_commanded(
        &self,
        domain: u16,
        known: &CommandedChildren,
        holder: Holder,
        child: u16,
    ) -> Link
        ensures { (c : Command) → AreSo self.now.tree (grants_of self.now) domain c known.now
            → result ≡ (commanded self.now.tree (grants_of self.now) domain c).links holder child }
    {
        let link = self.link(holder, child);
        if holder != Holder::Domain(domain) {
            return link;
        }
        match known.of(child) {
            Some(change) => link_after(&change, &link),
            None => link,
        }
    }
}
