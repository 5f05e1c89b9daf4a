//! A station starts again.

use crate::start::start;
use crate::station::{Core, Station};
use smi_protocol::OpenFault;
use smi_rows::Stable;
use std::alloc::Global;

impl<'a> Core<'a> {
    ghost use Rattle.std.specs.Prelude.{◌≡◌, ◌≤◌, ◌<◌, ◌+◌, ◌⊎◌, IfErr, OnErr, OnOk};
    ghost use Rattle.smi_rows.specs.Store.{IsSame, Rows};
    ghost use Rattle.smi_station_grants.specs.Starting.{IfCertain, IfInDoubt, IfStoreFailed, IfStoreUnfailed};
    ghost use Rattle.smi_station_grants.specs.Starting.{IfUnchanged, IsToldAsMemory, after_start};
    ghost use Rattle.smi_station_grants.specs.Stored.{Restarts};
    ghost use Rattle.smi_station.specs.Core.{IsOf, IsStoredIn, begun, number_of, station_of, tree_of};
    ghost use Rattle.smi_station.specs.Readers.{restarted};

    /// Starts the station again on its store.
    fn restart<S: Stable>(&mut self, alloc: Global, store: &mut S) -> Result<(), OpenFault>
        ensures anew { S.is_honest store.new → S.is_open store.old → IsStoredIn (S.rows store.old) self.old →
            Restarts (tree_of self.old) (number_of self.old) (station_of self.old).grants
            (begun (restarted self.new result)) }
        ensures of { OnOk result (IsOf (tree_of self.old) (number_of self.old) self.new) }
        ensures stored { S.is_honest store.new → OnOk result (IsStoredIn (S.rows store.new) self.new) }
        ensures unchanged { OnErr result (self.new ≡ self.old) }
        ensures open { S.is_honest store.new → OnOk result (S.is_open store.new) }
        ensures kept { S.is_honest store.new → S.is_open store.old
            → IfUnchanged result (S.is_open store.new × IsSame (S.rows store.new) (S.rows store.old)) }
        ensures saved { S.is_honest store.new → OnOk result (S.is_open store.new × IsSame (S.rows store.new)
            (after_start (tree_of self.old) (number_of self.old) (S.rows store.old))) }
        ensures unsure { S.is_honest store.new → S.is_open store.old → S.is_open store.new
            → IfInDoubt result (IsSame (S.rows store.new) (S.rows store.old)
            ⊎ IsSame (S.rows store.new) (after_start (tree_of self.old) (number_of self.old) (S.rows store.old))) }
        ensures crash { S.is_honest store.new → S.is_open store.old → (r : Rows) → S.may_find store.new r
            → IsSame r (S.rows store.old)
            ⊎ IsSame r (after_start (tree_of self.old) (number_of self.old) (S.rows store.old)) }
        ensures honest { S.is_honest store.new → S.is_honest store.old }
        ensures saves { S.saves store.new ≤ S.saves store.old + 1 }
        ensures failures { S.failures store.old ≤ S.failures store.new }
        ensures cause { IfStoreFailed result (S.failures store.old < S.failures store.new) }
        ensures calm { IfStoreUnfailed result (S.failures store.new ≡ S.failures store.old) }
        ensures doubt { IfInDoubt result (S.doubts store.old < S.doubts store.new) }
        ensures sure { IfCertain result (S.doubts store.new ≡ S.doubts store.old) }
        ensures fault { IfErr result IsToldAsMemory }
    {
        match start(alloc, self.kept.tree(), self.kept.number(), store) {
            Ok(core) => {
                *self = core;
                Ok(())
            }
            Err(fault) => Err(fault),
        }
    }
}

impl<'a, S: Stable> Station<'a, S> {
    ghost use Rattle.std.specs.Prelude.{◌≡◌, ◌≤◌, ◌<◌, ◌+◌, ◌⊎◌, IfErr, OnErr, OnOk};
    ghost use Rattle.smi_rows.specs.Store.{IsSame, Rows};
    ghost use Rattle.smi_station_grants.specs.Starting.{IfCertain, IfInDoubt, IfStoreFailed, IfStoreUnfailed};
    ghost use Rattle.smi_station_grants.specs.Starting.{IfUnchanged, IsToldAsMemory, after_start};
    ghost use Rattle.smi_station_grants.specs.Stored.{Restarts};
    ghost use Rattle.smi_station.specs.Core.{IsOf, IsStoredIn, begun, number_of, station_of, tree_of};
    ghost use Rattle.smi_station.specs.Readers.{restarted};

    /// Starts the station again on its own store, as one that is given up and opened again: if the rows say all that
    /// it keeps, it keeps the same, one boot later, and has lost what it showed. All memory is taken and all rows are
    /// read before the raised boot is saved.
    ///
    /// The faults are those of [`Station::open`]. After each the station is unchanged, and so are its rows, but that
    /// after an unsure save the boot may be one higher there.
    pub fn restart(&mut self, alloc: Global) -> Result<(), OpenFault>
        ensures anew { S.is_honest self.new.store → S.is_open self.old.store
            → IsStoredIn (S.rows self.old.store) self.old.core →
            Restarts (tree_of self.old.core) (number_of self.old.core) (station_of self.old.core).grants
            (begun (restarted self.new.core result)) }
        ensures of { OnOk result (IsOf (tree_of self.old.core) (number_of self.old.core) self.new.core) }
        ensures stored { S.is_honest self.new.store → OnOk result (IsStoredIn (S.rows self.new.store) self.new.core) }
        ensures unchanged { OnErr result (self.new.core ≡ self.old.core) }
        ensures open { S.is_honest self.new.store → OnOk result (S.is_open self.new.store) }
        ensures kept { S.is_honest self.new.store → S.is_open self.old.store
            → IfUnchanged result (S.is_open self.new.store × IsSame (S.rows self.new.store) (S.rows self.old.store)) }
        ensures saved { S.is_honest self.new.store
            → OnOk result (S.is_open self.new.store × IsSame (S.rows self.new.store)
            (after_start (tree_of self.old.core) (number_of self.old.core) (S.rows self.old.store))) }
        ensures unsure { S.is_honest self.new.store → S.is_open self.old.store → S.is_open self.new.store
            → IfInDoubt result (IsSame (S.rows self.new.store) (S.rows self.old.store)
            ⊎ IsSame (S.rows self.new.store)
            (after_start (tree_of self.old.core) (number_of self.old.core) (S.rows self.old.store))) }
        // A stop at any moment leaves the boot as before or one higher.
        ensures crash { S.is_honest self.new.store → S.is_open self.old.store → (r : Rows) → S.may_find self.new.store r
            → IsSame r (S.rows self.old.store)
            ⊎ IsSame r (after_start (tree_of self.old.core) (number_of self.old.core) (S.rows self.old.store)) }
        ensures honest { S.is_honest self.new.store → S.is_honest self.old.store }
        ensures saves { S.saves self.new.store ≤ S.saves self.old.store + 1 }
        ensures failures { S.failures self.old.store ≤ S.failures self.new.store }
        ensures cause { IfStoreFailed result (S.failures self.old.store < S.failures self.new.store) }
        ensures calm { IfStoreUnfailed result (S.failures self.new.store ≡ S.failures self.old.store) }
        ensures doubt { IfInDoubt result (S.doubts self.old.store < S.doubts self.new.store) }
        ensures sure { IfCertain result (S.doubts self.new.store ≡ S.doubts self.old.store) }
        ensures fault { IfErr result IsToldAsMemory }
    {
        self.core.restart(alloc, &mut self.store)
    }
}
