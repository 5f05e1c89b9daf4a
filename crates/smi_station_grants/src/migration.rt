//! A station's rows of older schemas are rewritten in the newest.

ghost use Rattle.std.specs.Prelude.{◌≡◌, ◌⊎◌, ◌<◌, ◌≤◌, ◌+◌, ◌^◌, length, List, count_by, Err, IfOk, IfErr, OnOk};
ghost use Rattle.std.specs.Prelude.{false};
ghost use Rattle.smi_protocol.specs.Loading.{IsStation};
ghost use Rattle.smi_tree.specs.Lookups.{station_count};
ghost use Rattle.smi_rows.specs.Store.{Rows, Saved, IsListing, IsSame, with_row};
ghost use Rattle.smi_station_grants.specs.Migrating.{Counts, IfRefused, IsPartly, IsSavedPartly, IsToRenew, Migrates};
ghost use Rattle.smi_station_grants.specs.Migrating.{in_newest, is_renewed, over};
ghost use Rattle.smi_station_grants.specs.Starting.{IfCertain, IfInDoubt, IfStoreFailed, IfStoreUnfailed};
ghost use Rattle.smi_station_grants.specs.Starting.{IfUnchanged, IsOfStore, IsToldAsMemory};

use crate::migrate_row::renewals;
use crate::start::{loaded, saved};
use crate::stored_row::has_station;
use smi_protocol::OpenFault;
use smi_rows::{SavedRow, Stable};
use smi_tree::Tree;
use std::alloc::Global;

/// Saves the station's rows of older schemas again in the newest schema of their kind, by rising key, and answers how
/// many they were. A row of another station is left alone, and so is one in its newest schema.
///
/// `NoSuchStation` comes first, then the fault of the least key whose row is refused, both before anything is saved.
/// A fault of the store, and `Memory`, may come at any place, and leave rows that say what they said. The store failed
/// if its fault is answered, and not otherwise; that memory was refused if `Memory` is, tests alone see.
pub fn migrate<S: Stable>(
    alloc: Global,
    tree: &Tree,
    number: u16,
    store: &mut S,
) -> Result<u32, OpenFault>
    ensures migrates { S.is_honest store.new → Migrates tree.now number (S.rows store.old) result }
    // Whatever the store is, it is not touched for a station that the tree does not have.
    ensures stranger { IsStation tree.now number false
        → (result ≡ Err OpenFault.NoSuchStation) × (store.new ≡ store.old) }
    ensures newest { S.is_honest store.new → OnOk
        result (S.is_open store.new × IsSame (S.rows store.new) (in_newest tree.now number (S.rows store.old))) }
    ensures count { S.is_honest store.new → IfOk result (λ n. Counts number (S.rows store.old) n) }
    ensures counted { S.is_honest store.new → (list : List Saved) → IsListing (S.rows store.old) list
        → IfOk result (λ n. n ≡ count_by (is_renewed number) list) }
    // Whatever it answers, and whenever it stops, some of the rows are saved by rising key, and all say what they said.
    ensures partly { S.is_honest store.new → S.is_open store.old → S.is_open store.new
        → IsPartly tree.now number (S.rows store.old) (S.rows store.new) }
    ensures crash { S.is_honest store.new → S.is_open store.old → (r : Rows) → S.may_find store.new r
        → IsPartly tree.now number (S.rows store.old) r }
    ensures certain { S.is_honest store.new → S.is_open store.old → IfCertain result (S.is_open store.new) }
    ensures refused { S.is_honest store.new → S.is_open store.old
        → IfRefused result (S.is_open store.new × IsSame (S.rows store.new) (S.rows store.old)) }
    ensures unsaved { IfRefused result (S.saves store.new ≡ S.saves store.old) }
    ensures saves { S.is_honest store.new → IfOk result (λ n. S.saves store.new ≡ S.saves store.old + n) }
    ensures honest { S.is_honest store.new → S.is_honest store.old }
    ensures failures { S.failures store.old ≤ S.failures store.new }
    ensures cause { IfStoreFailed result (S.failures store.old < S.failures store.new) }
    ensures calm { IfStoreUnfailed result (S.failures store.new ≡ S.failures store.old) }
    ensures doubt { IfInDoubt result (S.doubts store.old < S.doubts store.new) }
    ensures sure { IfCertain result (S.doubts store.new ≡ S.doubts store.old) }
    ensures fault { IfErr result IsToldAsMemory }
{
    if !has_station(tree, number) {
        return Err(OpenFault::NoSuchStation);
    }
    let anew = loaded_renewals(alloc, tree, number, store)?;
    match save_all(store, &anew) {
        Ok(()) => Ok(count_of(&anew)),
        Err(fault) => Err(fault),
    }
}

/// Returns the rows of the store that are to be saved again.
fn loaded_renewals<S: Stable>(
    alloc: Global,
    tree: &Tree,
    number: u16,
    store: &mut S,
) -> Result<Vec<SavedRow>, OpenFault>
    requires least { 1 ≤ number }
    requires most { number ≤ station_count tree.now }
    ensures anew { S.is_honest store.new → IfOk
        result (λ anew. S.is_open store.old × IsToRenew tree.now number (S.rows store.old) anew.items) }
    ensures migrates { S.is_honest store.new → Migrates tree.now number (S.rows store.old) result }
    ensures certain { S.is_honest store.new → S.is_open store.old
        → IfCertain result (S.is_open store.new × IsSame (S.rows store.new) (S.rows store.old)) }
    ensures kept { S.is_honest store.new → S.is_open store.old → S.is_open store.new
        → IsSame (S.rows store.new) (S.rows store.old) }
    ensures crash { S.is_honest store.new → S.is_open store.old → (r : Rows) → S.may_find store.new r
        → IsSame r (S.rows store.old) }
    ensures honest { S.is_honest store.new → S.is_honest store.old }
    ensures saves { S.saves store.new ≡ S.saves store.old }
    ensures failures { S.failures store.old ≤ S.failures store.new }
    ensures cause { IfStoreFailed result (S.failures store.old < S.failures store.new) }
    ensures calm { IfStoreUnfailed result (S.failures store.new ≡ S.failures store.old) }
    ensures doubt { IfInDoubt result (S.doubts store.old < S.doubts store.new) }
    ensures sure { IfCertain result (S.doubts store.new ≡ S.doubts store.old) }
    ensures fault { IfErr result IsToldAsMemory }
{
    let rows = loaded(store)?;
    renewals(alloc, tree, number, &rows)
}

/// Saves the rows.
fn save_all<S: Stable>(store: &mut S, rows: &[SavedRow]) -> Result<(), OpenFault>
    ensures saved { S.is_honest store.new → S.is_open store.old
        → OnOk result (S.is_open store.new × IsSame (S.rows store.new) (over (S.rows store.old) rows.now)) }
    ensures certain { S.is_honest store.new → S.is_open store.old → IfCertain result (S.is_open store.new) }
    ensures partly { S.is_honest store.new → S.is_open store.old → S.is_open store.new
        → IsSavedPartly (S.rows store.old) rows.now (S.rows store.new) }
    ensures crash { S.is_honest store.new → S.is_open store.old → (r : Rows) → S.may_find store.new r
        → IsSavedPartly (S.rows store.old) rows.now r }
    ensures honest { S.is_honest store.new → S.is_honest store.old }
    ensures saves { OnOk result (S.saves store.new ≡ S.saves store.old + length rows.now) }
    ensures failures { S.failures store.old ≤ S.failures store.new }
    ensures cause { IfStoreFailed result (S.failures store.old < S.failures store.new) }
    ensures calm { IfStoreUnfailed result (S.failures store.new ≡ S.failures store.old) }
    ensures doubt { IfInDoubt result (S.doubts store.old < S.doubts store.new) }
    ensures sure { IfCertain result (S.doubts store.new ≡ S.doubts store.old) }
    ensures fault { IfErr result IsOfStore }
{
    for row in rows {
        save_row(store, row)?;
    }
    Ok(())
}

fn save_row<S: Stable>(store: &mut S, row: &SavedRow) -> Result<(), OpenFault>
    ensures saved { S.is_honest store.new → OnOk
        result (S.is_open store.new × IsSame (S.rows store.new)
        (with_row row.now.key row.now.bytes (S.rows store.old))) }
    ensures kept { S.is_honest store.new → S.is_open store.old
        → IfUnchanged result (S.is_open store.new × IsSame (S.rows store.new) (S.rows store.old)) }
    ensures unsure { S.is_honest store.new → S.is_open store.new
        → IfInDoubt result (IsSame (S.rows store.new) (S.rows store.old)
        ⊎ IsSame (S.rows store.new) (with_row row.now.key row.now.bytes (S.rows store.old))) }
    ensures crash { S.is_honest store.new → S.is_open store.old → (r : Rows) → S.may_find store.new r
        → IsSame r (S.rows store.old) ⊎ IsSame r (with_row row.now.key row.now.bytes (S.rows store.old)) }
    ensures honest { S.is_honest store.new → S.is_honest store.old }
    ensures saves { S.saves store.new ≡ S.saves store.old + 1 }
    ensures failures { S.failures store.old ≤ S.failures store.new }
    ensures cause { IfStoreFailed result (S.failures store.old < S.failures store.new) }
    ensures calm { IfStoreUnfailed result (S.failures store.new ≡ S.failures store.old) }
    ensures doubt { IfInDoubt result (S.doubts store.old < S.doubts store.new) }
    ensures sure { IfCertain result (S.doubts store.new ≡ S.doubts store.old) }
    ensures fault { IfErr result IsOfStore }
{
    saved(store, row.key, &row.bytes)
}

/// Returns how many rows there are.
fn count_of(rows: &[SavedRow]) -> u32
    ensures { length rows.now < 2 ^ 32 → result ≡ length rows.now }
{
    u32::try_from(rows.len()).unwrap_or(u32::MAX)
}
