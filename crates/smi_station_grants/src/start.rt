//! A station starts on its store.

ghost use Rattle.std.specs.Prelude.{◌≡◌, ◌⊎◌, ◌<◌, ◌≤◌, ◌+◌, true, IfOk, IfErr, OnOk};
ghost use Rattle.smi_message.specs.Message.{is_boot};
ghost use Rattle.smi_tree.specs.Lookups.{station_count};
ghost use Rattle.smi_rows.specs.Store.{Rows, IsListing, IsSame, with_row};
ghost use Rattle.smi_protocol.specs.Loading.{Opens};
ghost use Rattle.smi_protocol.specs.Sound.{IsSound};
ghost use Rattle.smi_station_grants.specs.GrantTable.{grants_of};
ghost use Rattle.smi_station_grants.specs.Starting.{IfCertain, IfInDoubt, IfStoreFailed, IfStoreUnfailed};
ghost use Rattle.smi_station_grants.specs.Starting.{IfUnchanged, IsOfStore, IsToldAsMemory};
ghost use Rattle.smi_station_grants.specs.Starting.{after_start, beginning_with, with_boot};

use crate::grant_table::GrantTable;
use crate::load::kept_of_rows;
use smi_protocol::OpenFault;
use smi_rows::{Key, SavedRow, Stable, StoreFault, write_boot};
use smi_tree::Tree;
use std::alloc::Global;

/// Returns what a station keeps that starts on this store: what its rows mean, and its boot raised by one, which is
/// still to be saved.
///
/// The faults are in the order of [`kept_of_rows`]; a fault of the store, and `Memory`, may come at any place. The
/// rows stay. That memory was refused where `Memory` is answered, tests alone see.
pub fn loaded_kept<'a, S: Stable>(
    alloc: Global,
    tree: &'a Tree,
    number: u16,
    store: &mut S,
) -> Result<GrantTable<'a>, OpenFault>
    requires least { 1 ≤ number }
    requires most { number ≤ station_count tree.now }
    ensures opens { S.is_honest store.new → Opens tree.now number (S.rows store.old)
        (beginning_with tree.now number result) }
    ensures sound { IfOk result (λ kept. IsSound tree.now (grants_of kept)) }
    ensures boot { IfOk result (λ kept. is_boot (grants_of kept).boot ≡ true) }
    ensures tree { IfOk result (λ kept. kept.tree ≡ tree.now) }
    ensures number { IfOk result (λ kept. kept.number ≡ number) }
    ensures open { S.is_honest store.new → OnOk result (S.is_open store.old) }
    ensures certain { S.is_honest store.new → S.is_open store.old
        → IfCertain result (S.is_open store.new × IsSame (S.rows store.new) (S.rows store.old)) }
    ensures kept { S.is_honest store.new → S.is_open store.old → S.is_open store.new
        → IsSame (S.rows store.new) (S.rows store.old) }
    ensures crash { S.is_honest store.new → S.is_open store.old → (r : Rows) → S.may_find store.new r
        → IsSame r (S.rows store.old) }
    ensures honest { S.is_honest store.new → S.is_honest store.old }
    ensures saves { S.saves store.new ≡ S.saves store.old }
    ensures failures { S.failures store.old ≤ S.failures store.new }
    ensures cause { IfStoreFailed result (S.failures store.old < S.failures store.new) }
    ensures calm { IfStoreUnfailed result (S.failures store.new ≡ S.failures store.old) }
    ensures doubt { IfInDoubt result (S.doubts store.old < S.doubts store.new) }
    ensures sure { IfCertain result (S.doubts store.new ≡ S.doubts store.old) }
    ensures fault { IfErr result IsToldAsMemory }
{
    let rows = loaded(store)?;
    kept_of_rows(alloc, tree, number, &rows)
}

/// Loads all rows of the store, by rising key.
pub(crate) fn loaded<S: Stable>(store: &mut S) -> Result<Vec<SavedRow>, OpenFault>
    ensures listing { S.is_honest store.new → IfOk
        result (λ list. S.is_open store.old × IsListing (S.rows store.old) list.items) }
    ensures certain { S.is_honest store.new → S.is_open store.old
        → IfCertain result (S.is_open store.new × IsSame (S.rows store.new) (S.rows store.old)) }
    ensures kept { S.is_honest store.new → S.is_open store.old → S.is_open store.new
        → IsSame (S.rows store.new) (S.rows store.old) }
    ensures crash { S.is_honest store.new → S.is_open store.old → (r : Rows) → S.may_find store.new r
        → IsSame r (S.rows store.old) }
    ensures honest { S.is_honest store.new → S.is_honest store.old }
    ensures saves { S.saves store.new ≡ S.saves store.old }
    ensures failures { S.failures store.old ≤ S.failures store.new }
    ensures cause { IfStoreFailed result (S.failures store.old < S.failures store.new) }
    ensures calm { IfStoreUnfailed result (S.failures store.new ≡ S.failures store.old) }
    ensures doubt { IfInDoubt result (S.doubts store.old < S.doubts store.new) }
    ensures sure { IfCertain result (S.doubts store.new ≡ S.doubts store.old) }
    ensures fault { IfErr result IsOfStore }
{
    match store.load() {
        Ok(rows) => Ok(rows),
        Err(StoreFault::Memory) => Err(OpenFault::Memory),
        Err(StoreFault::Device) => Err(OpenFault::Store(StoreFault::Device)),
        Err(StoreFault::Unsure) => Err(OpenFault::Store(StoreFault::Unsure)),
    }
}

/// Saves the raised boot. After a fault the rows are as before, but that after `Unsure` the boot is as before or as
/// saved.
pub fn save_boot<S: Stable>(store: &mut S, kept: &GrantTable<'_>) -> Result<(), OpenFault>
    ensures saved { S.is_honest store.new → OnOk
        result (S.is_open store.new × IsSame (S.rows store.new)
        (with_boot kept.now.number (grants_of kept.now).boot (S.rows store.old))) }
    ensures kept { S.is_honest store.new → S.is_open store.old
        → IfUnchanged result (S.is_open store.new × IsSame (S.rows store.new) (S.rows store.old)) }
    ensures unsure { S.is_honest store.new → S.is_open store.new
        → IfInDoubt result (IsSame (S.rows store.new) (S.rows store.old)
        ⊎ IsSame (S.rows store.new) (with_boot kept.now.number (grants_of kept.now).boot (S.rows store.old))) }
    ensures crash { S.is_honest store.new → S.is_open store.old → (r : Rows) → S.may_find store.new r
        → IsSame r (S.rows store.old)
        ⊎ IsSame r (with_boot kept.now.number (grants_of kept.now).boot (S.rows store.old)) }
    ensures honest { S.is_honest store.new → S.is_honest store.old }
    ensures saves { S.saves store.new ≤ S.saves store.old + 1 }
    ensures failures { S.failures store.old ≤ S.failures store.new }
    ensures cause { IfStoreFailed result (S.failures store.old < S.failures store.new) }
    ensures calm { IfStoreUnfailed result (S.failures store.new ≡ S.failures store.old) }
    ensures doubt { IfInDoubt result (S.doubts store.old < S.doubts store.new) }
    ensures sure { IfCertain result (S.doubts store.new ≡ S.doubts store.old) }
    ensures fault { IfErr result IsOfStore }
{
    let key = Key {
        station: kept.number(),
        domain: 0,
        operator: 0,
    };
    match write_boot(kept.alloc(), kept.boot()) {
        Ok(bytes) => saved(store, key, &bytes),
        Err(_) => Err(OpenFault::Memory),
    }
}

/// Saves a row.
pub(crate) fn saved<S: Stable>(store: &mut S, key: Key, bytes: &[u8]) -> Result<(), OpenFault>
    ensures saved { S.is_honest store.new → OnOk
        result (S.is_open store.new × IsSame (S.rows store.new) (with_row key bytes.now (S.rows store.old))) }
    ensures kept { S.is_honest store.new → S.is_open store.old
        → IfUnchanged result (S.is_open store.new × IsSame (S.rows store.new) (S.rows store.old)) }
    ensures unsure { S.is_honest store.new → S.is_open store.new
        → IfInDoubt result (IsSame (S.rows store.new) (S.rows store.old)
        ⊎ IsSame (S.rows store.new) (with_row key bytes.now (S.rows store.old))) }
    ensures crash { S.is_honest store.new → S.is_open store.old → (r : Rows) → S.may_find store.new r
        → IsSame r (S.rows store.old) ⊎ IsSame r (with_row key bytes.now (S.rows store.old)) }
    ensures honest { S.is_honest store.new → S.is_honest store.old }
    ensures saves { S.saves store.new ≡ S.saves store.old + 1 }
    ensures failures { S.failures store.old ≤ S.failures store.new }
    ensures cause { IfStoreFailed result (S.failures store.old < S.failures store.new) }
    ensures calm { IfStoreUnfailed result (S.failures store.new ≡ S.failures store.old) }
    ensures doubt { IfInDoubt result (S.doubts store.old < S.doubts store.new) }
    ensures sure { IfCertain result (S.doubts store.new ≡ S.doubts store.old) }
    ensures fault { IfErr result IsOfStore }
{
    match store.save(key, bytes) {
        Ok(()) => Ok(()),
        Err(StoreFault::Memory) => Err(OpenFault::Memory),
        Err(StoreFault::Device) => Err(OpenFault::Store(StoreFault::Device)),
        Err(StoreFault::Unsure) => Err(OpenFault::Store(StoreFault::Unsure)),
    }
}
