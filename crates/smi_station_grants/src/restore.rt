//! The tables of a station that opens: fresh ones, and what rows say put into them.

ghost use Rattle.std.specs.Prelude.{◌≡◌, ◌≤◌, IfOk, map};
ghost use Rattle.std.specs.List.{range_with_len};
ghost use Rattle.smi_tree.specs.Lookups.{operator_count};
ghost use Rattle.smi_protocol.specs.Loading as loading;
ghost use Rattle.smi_station_grants.specs.Restored.{first_links};

use crate::grant_table::GrantTable;
use crate::links::Links;
use crate::row_buffer::RowBuffer;
use smi_command::Link;
use smi_grant::Record;
use smi_rows::{DomainRow, Mode, OperatorRow, StoredLink};
use smi_tree::Tree;
use std::alloc::{AllocError, Global};

impl<'a> GrantTable<'a> {
    ghost use Rattle.std.specs.Prelude.{◌≡◌, ◌≤◌, true, IfOk};
    ghost use Rattle.smi_tree.specs.Lookups.{children_of, domain_count, station_count, operator_station_of};
    ghost use Rattle.smi_tree.specs.Roles.{is_number};
    ghost use Rattle.smi_protocol.specs.Grants.{no_grants};
    ghost use Rattle.smi_station_grants.specs.GrantTable.{grants_of};
    ghost use Rattle.smi_station_grants.specs.Restored.{with_children, with_domain, with_operator};

    /// Returns what a station keeps that was never started.
    ///
    /// Its error is that memory ran out.
    pub fn new(alloc: Global, tree: &'a Tree, number: u16) -> Result<GrantTable<'a>, AllocError>
        requires least { 1 ≤ number }
        requires most { number ≤ station_count tree.now }
        ensures grants { IfOk result (λ kept. grants_of kept ≡ no_grants) }
        ensures tree { IfOk result (λ kept. kept.tree ≡ tree.now) }
        ensures number { IfOk result (λ kept. kept.number ≡ number) }
    {
        let domains = usize::from(tree.domain_count());
        let records = vec![in alloc; Record::fresh(); domains]?;
        let gathered = vec![in alloc; 0; domains]?;
        let modes = vec![in alloc; Mode::Included; domains]?;
        let child_links = Links::new(alloc, domains)?;
        let operator_links = links_of_operators(alloc, tree, number)?;
        let room = RowBuffer::new(alloc, tree.domain_count())?;
        Ok(GrantTable {
            tree,
            number,
            boot: 0,
            records,
            gathered,
            modes,
            child_links,
            operator_links,
            room,
        })
    }

    /// Puts how often the station has started.
    pub fn put_boot(&mut self, boot: u32)
        ensures grants { grants_of self.new ≡ record (grants_of self.old) { boot = boot } }
        ensures tree { self.new.tree ≡ self.old.tree }
        ensures number { self.new.number ≡ self.old.number }
    {
        self.boot = boot;
    }

    /// Restores what the row of a domain says, in place of what was known of it.
    pub fn restore_domain(&mut self, domain: u16, row: &DomainRow)
        requires least { 1 ≤ domain }
        requires most { domain ≤ domain_count self.old.tree }
        ensures grants { grants_of self.new ≡ with_domain self.old.tree (grants_of self.old) domain row.now }
        ensures tree { self.new.tree ≡ self.old.tree }
        ensures number { self.new.number ≡ self.old.number }
    {
        self.restore_children(domain, &row.links);
        self.put_record(domain, row.standing);
        self.put_gathered(domain, row.gathered);
    }

    /// Restores what the row of an operator of the station says, in place of what was known of it.
    pub fn restore_operator(&mut self, operator: u16, row: &OperatorRow)
        requires { is_number (operator_station_of self.old.tree operator) self.old.number ≡ true }
        ensures grants { grants_of self.new ≡ with_operator self.old.tree (grants_of self.old) operator row.now }
        ensures tree { self.new.tree ≡ self.old.tree }
        ensures number { self.new.number ≡ self.old.number }
    {
        for place in 0..self.tree().domain_count() {
            let domain = place + 1;
            let stored = stored_at(&row.links, domain);
            self.put_operator_link(operator, domain, stored.link);
        }
    }

    fn restore_children(&mut self, domain: u16, links: &[StoredLink])
        requires least { 1 ≤ domain }
        requires most { domain ≤ domain_count self.old.tree }
        ensures grants { grants_of self.new ≡ with_children (grants_of self.old) domain links.now
            (children_of self.old.tree domain) }
        ensures tree { self.new.tree ≡ self.old.tree }
        ensures number { self.new.number ≡ self.old.number }
    {
        let tree = self.tree();
        for child in tree.children(domain) {
            let stored = stored_at(links, *child);
            self.put_child(domain, *child, stored.link, stored.mode);
        }
    }
}

/// Returns the link to a domain, as it is stored: one that is not stored is out, and nothing was ever heard of it.
fn stored_at(links: &[StoredLink], domain: u16) -> StoredLink
    ensures { result ≡ loading.stored_at links.now domain }
{
    for stored in links {
        if stored.domain == domain {
            return *stored;
        }
    }
    StoredLink {
        domain,
        link: Link::Out(0),
        mode: Mode::Included,
    }
}

/// Returns the links of all operators, by number.
fn links_of_operators(alloc: Global, tree: &Tree, number: u16) -> Result<Vec<Links>, AllocError>
    ensures { IfOk result (λ tables. tables.items
        ≡ map (first_links tree.now number) (range_with_len 1 (operator_count tree.now))) }
{
    let mut tables = Vec::new(alloc);
    for place in 0..tree.operator_count() {
        let links = links_of_operator(alloc, tree, number, place + 1)?;
        tables.push(links)?;
    }
    Ok(tables)
}

fn links_of_operator(
    alloc: Global,
    tree: &Tree,
    number: u16,
    operator: u16,
) -> Result<Links, AllocError>
    requires least { 1 ≤ operator }
    requires most { operator ≤ operator_count tree.now }
    ensures { IfOk result (λ links. links ≡ first_links tree.now number operator) }
{
    if tree.operator_station(operator) == number {
        Links::new(alloc, usize::from(tree.domain_count()))
    } else {
        Links::new(alloc, 0)
    }
}
