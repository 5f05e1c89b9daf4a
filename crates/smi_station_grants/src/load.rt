//! Tables of grants from rows.

ghost use Rattle.std.specs.Prelude.{◌≡◌, ◌≤◌, true, IfOk, IfErr};
ghost use Rattle.smi_message.specs.Message.{is_boot};
ghost use Rattle.smi_tree.specs.Lawful.{IsTree};
ghost use Rattle.smi_tree.specs.Lookups.{station_count};
ghost use Rattle.smi_rows.specs.Store.{Rows, IsListing};
ghost use Rattle.smi_protocol.specs.Grants.{no_grants};
ghost use Rattle.smi_protocol.specs.Loading.{Opens};
ghost use Rattle.smi_protocol.specs.Sound.{IsSound};
ghost use Rattle.smi_station_grants.specs.GrantTable.{grants_of};
ghost use Rattle.smi_station_grants.specs.Restoring.{Comes, IsOwn, as_said, leaving, raised, restored, started, taken};
ghost use Rattle.smi_station_grants.specs.Starting.{IsNotOfStore, beginning_with, grants_after};

use crate::grant_table::GrantTable;
use crate::stored_row::{has_station, said_to};
use smi_base::LAST_BOOT;
use smi_protocol::OpenFault;
use smi_rows::{Key, Row, SavedRow};
use smi_tree::Tree;
use std::alloc::Global;

/// Returns what a station keeps that starts with these rows, in rising order of keys: what they mean, and its boot
/// raised by one. Rows of other stations are left alone.
///
/// `NoSuchStation` comes first, then the fault of the least key whose row is refused, then `BootsSpent`. `Memory` is
/// answered exactly when an allocation was refused, which tests alone see.
pub fn kept_of_rows<'a>(
    alloc: Global,
    tree: &'a Tree,
    number: u16,
    rows: &[SavedRow],
) -> Result<GrantTable<'a>, OpenFault>
    ensures opens { (all : Rows) → IsListing all rows.now
        → Opens tree.now number all (beginning_with tree.now number result) }
    // Whatever the rows, what is taken from them can be told and saved.
    ensures sound { IfOk result (λ kept. IsSound tree.now (grants_of kept)) }
    ensures boot { IfOk result (λ kept. is_boot (grants_of kept).boot ≡ true) }
    ensures tree { IfOk result (λ kept. kept.tree ≡ tree.now) }
    ensures number { IfOk result (λ kept. kept.number ≡ number) }
    ensures fault { IfErr result IsNotOfStore }
{
    if !has_station(tree, number) {
        return Err(OpenFault::NoSuchStation);
    }
    kept_of(alloc, tree, number, rows)
}

/// Returns the same at a station of the tree.
pub(crate) fn kept_of<'a>(
    alloc: Global,
    tree: &'a Tree,
    number: u16,
    rows: &[SavedRow],
) -> Result<GrantTable<'a>, OpenFault>
    requires least { 1 ≤ number }
    requires most { number ≤ station_count tree.now }
    ensures comes { Comes (grants_after result) (started tree.now number rows.now) }
    ensures tree { IfOk result (λ kept. kept.tree ≡ tree.now) }
    ensures number { IfOk result (λ kept. kept.number ≡ number) }
{
    let mut kept = fresh(alloc, tree, number)?;
    match start(&mut kept, rows) {
        Ok(()) => Ok(kept),
        Err(fault) => Err(fault),
    }
}

fn fresh<'a>(alloc: Global, tree: &'a Tree, number: u16) -> Result<GrantTable<'a>, OpenFault>
    requires least { 1 ≤ number }
    requires most { number ≤ station_count tree.now }
    ensures grants { IfOk result (λ kept. grants_of kept ≡ no_grants) }
    ensures tree { IfOk result (λ kept. kept.tree ≡ tree.now) }
    ensures number { IfOk result (λ kept. kept.number ≡ number) }
    ensures fault { IfErr result (λ fault. fault ≡ OpenFault.Memory) }
{
    match GrantTable::new(alloc, tree, number) {
        Ok(kept) => Ok(kept),
        Err(_) => Err(OpenFault::Memory),
    }
}

/// Takes the rows, and raises the boot.
fn start(kept: &mut GrantTable<'_>, rows: &[SavedRow]) -> Result<(), OpenFault>
    requires { grants_of kept.old ≡ no_grants }
    ensures comes { Comes (leaving (grants_of kept.new) result) (started kept.old.tree kept.old.number rows.now) }
    ensures tree { kept.new.tree ≡ kept.old.tree }
    ensures number { kept.new.number ≡ kept.old.number }
{
    restore_all(kept, rows)?;
    raise(kept)
}

/// Raises the boot by one.
fn raise(kept: &mut GrantTable<'_>) -> Result<(), OpenFault>
    ensures comes { raised (grants_of kept.old) ≡ leaving (grants_of kept.new) result }
    ensures tree { kept.new.tree ≡ kept.old.tree }
    ensures number { kept.new.number ≡ kept.old.number }
{
    let boot = kept.boot();
    if LAST_BOOT <= boot {
        return Err(OpenFault::BootsSpent);
    }
    kept.put_boot(boot + 1);
    Ok(())
}

/// Restores what the rows say, one after the other, in place of what was known.
fn restore_all(kept: &mut GrantTable<'_>, rows: &[SavedRow]) -> Result<(), OpenFault>
    ensures comes { Comes (leaving (grants_of kept.new) result)
        (restored kept.old.tree kept.old.number (grants_of kept.old) rows.now) }
    ensures tree { kept.new.tree ≡ kept.old.tree }
    ensures number { kept.new.number ≡ kept.old.number }
{
    for row in rows {
        restore(kept, row)?;
    }
    Ok(())
}

fn restore(kept: &mut GrantTable<'_>, row: &SavedRow) -> Result<(), OpenFault>
    ensures comes { Comes (leaving (grants_of kept.new) result)
        (taken kept.old.tree kept.old.number (grants_of kept.old) row.now) }
    ensures tree { kept.new.tree ≡ kept.old.tree }
    ensures number { kept.new.number ≡ kept.old.number }
{
    match said_to(kept.alloc(), kept.tree(), kept.number(), row)? {
        None => Ok(()),
        Some(said) => {
            put(kept, row.key, &said);
            Ok(())
        }
    }
}

/// Restores what the row of this key says, in place of what was known.
fn put(kept: &mut GrantTable<'_>, key: Key, said: &Row)
    requires tree { IsTree kept.old.tree }
    requires own { IsOwn kept.old.tree kept.old.number key said.now }
    ensures grants { grants_of kept.new ≡ as_said kept.old.tree (grants_of kept.old) key said.now }
    ensures tree { kept.new.tree ≡ kept.old.tree }
    ensures number { kept.new.number ≡ kept.old.number }
{
    match said {
        Row::Boot(boot) => kept.put_boot(*boot),
        Row::Domain(domain) => kept.restore_domain(key.domain, domain),
        Row::Operator(operator) => kept.restore_operator(key.operator, operator),
    }
}
