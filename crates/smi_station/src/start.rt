//! A station starts on its store.

ghost use Rattle.std.specs.Prelude.{◌≡◌, ◌≤◌, ◌<◌, ◌+◌, ◌⊎◌, Err, IfErr, IfOk, Ok, OnOk};
ghost use Rattle.smi_rows.specs.Store.{Rows, IsSame};
ghost use Rattle.smi_protocol.specs.Loading.{IsStation, Opens};
ghost use Rattle.smi_tree.specs.Lookups.{station_count};
ghost use Rattle.smi_station_grants.specs.Starting.{IfCertain, IfInDoubt, IfStoreFailed, IfStoreUnfailed};
ghost use Rattle.smi_station_grants.specs.Starting.{IfUnchanged, IsToldAsMemory, after_start, beginning_with};
ghost use Rattle.smi_station.specs.Core.{IsOf, begun};

use crate::station::Core;
use smi_protocol::OpenFault;
use smi_rows::Stable;
use smi_station_display::Displayed;
use smi_station_grants::{GrantTable, has_station, loaded_kept, save_boot};
use smi_tree::Tree;
use std::alloc::Global;

/// Returns what a station shows that starts with these grants.
fn with_display<'a>(
    alloc: Global,
    tree: &'a Tree,
    number: u16,
    kept: GrantTable<'a>,
) -> Result<Core<'a>, OpenFault>
    requires least { 1 ≤ number }
    requires most { number ≤ station_count tree.now }
    requires boot { is_boot (grants_of kept).boot ≡ true }
    requires sound { IsSound tree.now (grants_of kept) }
    requires tree { kept.tree ≡ tree.now }
    requires number { kept.number ≡ number }
    ensures station { IfOk result (λ core. station_of core
        ≡ record { grants = grants_of kept.entry; display = first_display tree.now number; is_stopped = false }) }
    ensures kept { IfOk result (λ core. core.kept ≡ kept.entry) }
    ensures of { IfOk result (IsOf tree.now number) }
    ensures fault { IfErr result (λ fault. fault ≡ OpenFault.Memory) }
{
    match Displayed::new(alloc, tree, number, kept.boot()) {
        Ok(display) => Ok(Core {
            kept,
            display,
            is_stopped: false,
        }),
        Err(_) => Err(OpenFault::Memory),
    }
}

ghost use Rattle.std.specs.Prelude.{true, false};
ghost use Rattle.smi_message.specs.Message.{is_boot};
ghost use Rattle.smi_station_grants.specs.GrantTable.{grants_of};
ghost use Rattle.smi_protocol.specs.Opening.{first_display};
ghost use Rattle.smi_protocol.specs.Sound.{IsSound};
ghost use Rattle.smi_station.specs.Core.{station_of};

/// Returns what a station starts with on this store; its raised boot is still to be saved. The rows stay.
fn loaded<'a, S: Stable>(
    alloc: Global,
    tree: &'a Tree,
    number: u16,
    store: &mut S,
) -> Result<Core<'a>, OpenFault>
    requires least { 1 ≤ number }
    requires most { number ≤ station_count tree.now }
    ensures opens { S.is_honest store.new → Opens tree.now number (S.rows store.old) (begun result) }
    ensures of { IfOk result (IsOf tree.now number) }
    ensures begins { S.is_honest store.new → IfOk
        result (λ core. Opens tree.now number (S.rows store.old) (beginning_with tree.now number (Ok core.kept))) }
    ensures open { S.is_honest store.new → OnOk result (S.is_open store.old) }
    ensures certain { S.is_honest store.new → S.is_open store.old
        → IfCertain result (S.is_open store.new × IsSame (S.rows store.new) (S.rows store.old)) }
    ensures kept { S.is_honest store.new → S.is_open store.old → S.is_open store.new
        → IsSame (S.rows store.new) (S.rows store.old) }
    ensures crash { S.is_honest store.new → S.is_open store.old → (r : Rows) → S.may_find store.new r
        → IsSame r (S.rows store.old) }
    ensures honest { S.is_honest store.new → S.is_honest store.old }
    ensures saves { S.saves store.new ≡ S.saves store.old }
    ensures failures { S.failures store.old ≤ S.failures store.new }
    ensures cause { IfStoreFailed result (S.failures store.old < S.failures store.new) }
    ensures calm { IfStoreUnfailed result (S.failures store.new ≡ S.failures store.old) }
    ensures doubt { IfInDoubt result (S.doubts store.old < S.doubts store.new) }
    ensures sure { IfCertain result (S.doubts store.new ≡ S.doubts store.old) }
    ensures fault { IfErr result IsToldAsMemory }
{
    match loaded_kept(alloc, tree, number, store) {
        Ok(kept) => with_display(alloc, tree, number, kept),
        Err(fault) => Err(fault),
    }
}

/// Starts a station on this store: all memory is taken and all rows are read before its raised boot is saved.
pub(crate) fn start<'a, S: Stable>(
    alloc: Global,
    tree: &'a Tree,
    number: u16,
    store: &mut S,
) -> Result<Core<'a>, OpenFault>
    ensures opens { S.is_honest store.new → Opens tree.now number (S.rows store.old) (begun result) }
    ensures of { IfOk result (IsOf tree.now number) }
    // Whatever the store is, it is not touched for a station that the tree does not have.
    ensures stranger { IsStation tree.now number false
        → (result ≡ Err OpenFault.NoSuchStation) × (store.new ≡ store.old) }
    ensures saved { S.is_honest store.new → OnOk
        result (S.is_open store.new × IsSame (S.rows store.new) (after_start tree.now number (S.rows store.old))) }
    ensures kept { S.is_honest store.new → S.is_open store.old
        → IfUnchanged result (S.is_open store.new × IsSame (S.rows store.new) (S.rows store.old)) }
    ensures unsure { S.is_honest store.new → S.is_open store.old → S.is_open store.new
        → IfInDoubt result (IsSame (S.rows store.new) (S.rows store.old)
        ⊎ IsSame (S.rows store.new) (after_start tree.now number (S.rows store.old))) }
    ensures crash { S.is_honest store.new → S.is_open store.old → (r : Rows) → S.may_find store.new r
        → IsSame r (S.rows store.old) ⊎ IsSame r (after_start tree.now number (S.rows store.old)) }
    ensures honest { S.is_honest store.new → S.is_honest store.old }
    ensures saves { S.saves store.new ≤ S.saves store.old + 1 }
    ensures failures { S.failures store.old ≤ S.failures store.new }
    ensures cause { IfStoreFailed result (S.failures store.old < S.failures store.new) }
    ensures calm { IfStoreUnfailed result (S.failures store.new ≡ S.failures store.old) }
    ensures doubt { IfInDoubt result (S.doubts store.old < S.doubts store.new) }
    ensures sure { IfCertain result (S.doubts store.new ≡ S.doubts store.old) }
    ensures fault { IfErr result IsToldAsMemory }
{
    if !has_station(tree, number) {
        return Err(OpenFault::NoSuchStation);
    }
    let core = loaded(alloc, tree, number, store)?;
    match save_boot(store, &core.kept) {
        Ok(()) => Ok(core),
        Err(fault) => Err(fault),
    }
}
