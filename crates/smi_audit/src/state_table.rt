//! What objects passed, what stations were shown, and with which boots they started.

use crate::last_shown::{LastShown, ShownStates};
use crate::passed_states::PassedStates;
use smi_grant::{Shown, Version};
use smi_station_grants::entry_of;
use smi_tree::{Tree, has_object};
use std::alloc::{AllocError, Global};
use std::marker::Model;

/// The states that objects passed, what stations were shown of them, and the last boot of each station.
#[derive(Drop)]
pub struct StateTable<'a> {
    tree: &'a Tree,
    passed: Vec<PassedStates>,
    shown: Vec<ShownStates>,
    boots: Vec<u32>,
}

impl<'a> Model for StateTable<'a> {
    ghost use Rattle.smi_audit.specs.Kept as kept;

    ghost Value = { kept.StateTable };

    ghost view = { λ s. record {
      tree = s.tree.now;
      passed = s.passed.items;
      shown = s.shown.items;
      boots = s.boots.items;
    } };

    ghost invariant = { λ s. kept.IsStateTable (record {
      tree = s.tree.now;
      passed = s.passed.items;
      shown = s.shown.items;
      boots = s.boots.items;
    }) };
}

ghost use Rattle.std.specs.Prelude.{◌≡◌, [], replicate, IfOk};
ghost use Rattle.smi_tree.specs.Lookups.{station_count};
ghost use Rattle.smi_audit.specs.Kept.{object_count};
ghost use Rattle.smi_audit.specs.Tables.{unseen};

/// Returns what this many objects have passed before anything happens.
fn nothing_passed(alloc: Global, count: usize) -> Result<Vec<PassedStates>, AllocError>
    ensures { IfOk result (λ passed. passed.items ≡ replicate count []) }
{
    let mut passed = Vec::new(alloc);
    for _number in 0..count {
        passed.push(PassedStates::new(alloc))?;
    }
    Ok(passed)
}

/// Returns what this many stations were shown of this many objects before anything happens.
fn nothing_shown(
    alloc: Global,
    stations: usize,
    objects: usize,
) -> Result<Vec<ShownStates>, AllocError>
    ensures { IfOk result (λ shown. shown.items ≡ replicate stations (replicate objects unseen)) }
{
    let mut shown = Vec::new(alloc);
    for _number in 0..stations {
        shown.push(ShownStates::new(alloc, objects)?)?;
    }
    Ok(shown)
}

impl<'a> StateTable<'a> {
    /// Makes tables in which no object has passed anything, no station was shown anything, and none has started.
    pub fn new(alloc: Global, tree: &'a Tree) -> Result<StateTable<'a>, AllocError>
        ensures { IfOk result (λ states. states ≡ record {
          tree = tree.now;
          passed = replicate (object_count tree.now) [];
          shown = replicate (station_count tree.now) (replicate (object_count tree.now) unseen);
          boots = replicate (station_count tree.now) 0;
        }) }
    {
        let objects = usize::from(tree.domain_count()) + usize::from(tree.device_count());
        let stations = usize::from(tree.station_count());
        let passed = nothing_passed(alloc, objects)?;
        let shown = nothing_shown(alloc, stations, objects)?;
        let boots = vec![in alloc; 0u32; stations]?;
        Ok(StateTable {
            tree,
            passed,
            shown,
            boots,
        })
    }

    ghost use Rattle.std.specs.Prelude.{◌≡◌, ◌≤◌, ◌∷◌, ◌&&◌, true, length, IfOk, OnOk, OnErr};
    ghost use Rattle.smi_protocol.specs.Grants.{put};
    ghost use Rattle.smi_tree.specs.Roles.{has_object};
    ghost use Rattle.smi_audit.specs.Tables as spec;
    ghost use Rattle.smi_audit.specs.Teller.{has_station};
    ghost use Rattle.smi_audit.specs.Kept.{Passes, SetsBoot, SetsShown, Shows, Starts, passed_of, shown_of, boots_of};
    ghost use Rattle.smi_audit.specs.Kept.{fits_boot, fits_passed, fits_shown};

    /// Returns true if the tree has the station.
    fn has_station(&self, station: u16) -> bool
        ensures { result ≡ has_station self.now.tree station }
    {
        1 <= station && station <= self.tree.station_count()
    }

    /// Returns true if the tree has the object.
    fn has_object(&self, object: u16) -> bool
        ensures { result ≡ has_object self.now.tree object }
    {
        has_object(self.tree, object)
    }

    /// Returns what a station was shown of an object.
    pub fn last_shown(&self, station: u16, object: u16) -> LastShown
        ensures { result ≡ shown_of self.now station object }
    {
        if station == 0 {
            return LastShown::nothing();
        }
        match self.shown.get(usize::from(station) - 1) {
            Some(seen) => seen.of(object),
            None => LastShown::nothing(),
        }
    }

    /// Returns the last boot of a station, 0 if it has not started.
    pub fn boot(&self, station: u16) -> u32
        ensures { result ≡ boots_of self.now station }
    {
        entry_of(&self.boots, station, 0)
    }

    /// Adds a state that an object passed.
    fn push(&mut self, shown: Shown) -> Result<(), AllocError>
        requires known { has_object self.old.tree shown.object ≡ true }
        requires next { spec.passes_next (passed_of self.old shown.object) shown.version ≡ true }
        ensures passed { OnOk result (passed_of self.new
            ≡ put (passed_of self.old) shown.object (shown ∷ passed_of self.old shown.object)) }
        ensures shown { OnOk result (shown_of self.new ≡ shown_of self.old) }
        ensures boots { OnOk result (boots_of self.new ≡ boots_of self.old) }
        ensures tree { OnOk result (self.new.tree ≡ self.old.tree) }
        ensures unchanged { OnErr result (self.new ≡ self.old) }
    {
        self.passed[usize::from(shown.object) - 1].push(shown)
    }

    /// Notes that a station is shown a version of an object.
    fn put(&mut self, station: u16, shown: Shown)
        requires station { has_station self.old.tree station ≡ true }
        requires object { has_object self.old.tree shown.object ≡ true }
        ensures passed { passed_of self.new ≡ passed_of self.old }
        ensures shown { shown_of self.new ≡ spec.showed_now (shown_of self.old) station shown }
        ensures boots { boots_of self.new ≡ boots_of self.old }
        ensures tree { self.new.tree ≡ self.old.tree }
    {
        self.shown[usize::from(station) - 1].put(shown.object, shown.version);
    }

    /// Notes that nothing was shown to a station since its start.
    fn restart(&mut self, station: u16)
        requires { has_station self.old.tree station ≡ true }
        ensures passed { passed_of self.new ≡ passed_of self.old }
        ensures shown { shown_of self.new ≡ spec.started (shown_of self.old) station }
        ensures boots { boots_of self.new ≡ boots_of self.old }
        ensures tree { self.new.tree ≡ self.old.tree }
    {
        self.shown[usize::from(station) - 1].restart();
    }

    /// Notes the last boot of a station.
    fn put_boot(&mut self, station: u16, boot: u32)
        requires { has_station self.old.tree station ≡ true }
        ensures passed { passed_of self.new ≡ passed_of self.old }
        ensures shown { shown_of self.new ≡ shown_of self.old }
        ensures boots { boots_of self.new ≡ put (boots_of self.old) station boot }
        ensures tree { self.new.tree ≡ self.old.tree }
    {
        self.boots[usize::from(station) - 1] = boot;
    }

    /// Returns true if a version is newer than all that an object has passed.
    fn passes_next(&self, object: u16, version: Version) -> bool
        ensures { result ≡ spec.passes_next (passed_of self.now object) version }
    {
        if object == 0 {
            return true;
        }
        match self.passed.get(usize::from(object) - 1) {
            Some(passed) => passed.come_before(version),
            None => true,
        }
    }

    /// Returns true if an object has passed a state.
    fn has_passed(&self, shown: &Shown) -> bool
        ensures { result ≡ spec.has_passed (passed_of self.now shown.now.object) shown.now }
    {
        if shown.object == 0 {
            return false;
        }
        match self.passed.get(usize::from(shown.object) - 1) {
            Some(passed) => passed.has(shown),
            None => false,
        }
    }

    /// Returns the newest version that an object has passed.
    pub fn newest(&self, object: u16) -> Option<Version> {
        if object == 0 {
            return None;
        }
        match self.passed.get(usize::from(object) - 1) {
            Some(passed) => passed.newest(),
            None => None,
        }
    }

    /// Returns true if an object may pass a state next.
    pub fn fits_passed(&self, shown: &Shown) -> bool
        ensures { result ≡ fits_passed self.now shown.now }
    {
        self.has_object(shown.object) && self.passes_next(shown.object, shown.version)
    }

    /// Returns true if a station may be shown a state next.
    pub fn fits_shown(&self, station: u16, shown: &Shown) -> bool
        ensures { result ≡ fits_shown self.now station shown.now }
    {
        self.has_station(station)
            && self.has_object(shown.object)
            && self.has_passed(shown)
            && self
                .last_shown(station, shown.object)
                .comes_next(shown.version)
    }

    /// Returns true if a station may start next with a boot.
    pub fn fits_boot(&self, station: u16, boot: u32) -> bool
        ensures { result ≡ fits_boot self.now station boot }
    {
        self.has_station(station) && self.boot(station) < boot
    }

    /// Takes a state that an object passes, if it fits. If memory is refused, nothing changes.
    pub fn passed(&mut self, shown: Shown) -> Result<bool, AllocError>
        ensures taken { IfOk result (λ taken. Passes taken self.old self.new shown) }
        ensures unchanged { OnErr result (self.new ≡ self.old) }
    {
        if !self.fits_passed(&shown) {
            return Ok(false);
        }
        self.push(shown)?;
        Ok(true)
    }

    /// Takes a state that a station is shown, if it fits.
    pub fn showed(&mut self, station: u16, shown: Shown) -> bool
        ensures { Shows result self.old self.new station shown }
    {
        if self.fits_shown(station, &shown) {
            self.put(station, shown);
            true
        } else {
            false
        }
    }

    /// Takes a start of a station, if it fits.
    pub fn booted(&mut self, station: u16, boot: u32) -> bool
        ensures { Starts result self.old self.new station boot }
    {
        if self.fits_boot(station, boot) {
            self.restart(station);
            self.put_boot(station, boot);
            true
        } else {
            false
        }
    }

    /// Sets the last boot of a station at the beginning. Returns false if the tree lacks the station.
    pub fn assume_boot(&mut self, station: u16, boot: u32) -> bool
        ensures { SetsBoot result self.old self.new station boot }
    {
        if self.has_station(station) {
            self.put_boot(station, boot);
            true
        } else {
            false
        }
    }

    /// Sets what a station was shown of an object at the beginning. Returns false if the tree lacks one of them.
    pub fn assume_shown(&mut self, station: u16, shown: Shown) -> bool
        ensures { SetsShown result self.old self.new station shown }
    {
        if self.has_station(station) && self.has_object(shown.object) {
            self.put(station, shown);
            true
        } else {
            false
        }
    }
}
