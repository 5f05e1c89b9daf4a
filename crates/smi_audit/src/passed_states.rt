//! The states that an object has passed.

ghost use Rattle.std.specs.Prelude.{◌≡◌, [], ◌∷◌, true, is_ok, if◌then◌else◌, option_copied, slice_get};
ghost use Rattle.smi_audit.specs.Passed.{IsPlaceOf};
ghost use Rattle.smi_audit.specs.Tables as spec;
ghost use Rattle.smi_audit.specs.Tables.{IsFalling};

use smi_grant::{Shown, Version};
use smi_view::is_newer;
use std::alloc::{AllocError, Global};
use std::collections::VecDeque;
use std::marker::Model;

/// The states that an object has passed, the newest first.
#[derive(Drop)]
pub struct PassedStates {
    list: VecDeque<Shown>,
}

impl Model for PassedStates {
    ghost use Rattle.std.specs.Prelude.{List};
    ghost use Rattle.smi_grant.specs.declared.Shown.{Shown};
    ghost use Rattle.smi_audit.specs.Tables.{IsFalling};

    ghost Value = { List Shown };

    ghost view = { λ p. p.list.items };

    ghost invariant = { λ p. IsFalling p.list.items };
}

/// Returns true if two states are one.
fn same_shown(one: &Shown, other: &Shown) -> bool
    ensures { result ≡ spec.same_shown one.now other.now }
{
    one.object == other.object
        && one.version.boot == other.version.boot
        && one.version.sequence == other.version.sequence
        && one.state == other.state
}

impl PassedStates {
    /// Makes a list without states.
    pub fn new(alloc: Global) -> PassedStates
        ensures { result ≡ [] }
    {
        PassedStates {
            list: VecDeque::new(alloc),
        }
    }

    /// Returns the place of a version, if it is among them: all before it are newer, and no other is.
    fn place_of(&self, version: Version) -> usize
        ensures falling { IsFalling self.now }
        ensures place { IsPlaceOf self.now version result }
    {
        let mut low = 0;
        let mut high = self.list.len();
        while low < high {
            let middle = low + (high - low) / 2;
            if is_newer(self.list[middle].version, version) {
                low = middle + 1;
            } else {
                high = middle;
            }
        }
        low
    }

    /// Returns the state at a place, counted from the newest.
    fn at(&self, place: usize) -> Option<&Shown>
        ensures { option_copied result ≡ slice_get self.now place }
    {
        self.list.get(place)
    }

    /// Returns true if a state is among them. It is looked for by its version, because versions rise.
    pub fn has(&self, shown: &Shown) -> bool
        ensures { result ≡ spec.has_passed self.now shown.now }
    {
        match self.at(self.place_of(shown.version)) {
            Some(found) => same_shown(found, shown),
            None => false,
        }
    }

    /// Returns true if a version is newer than all of them.
    pub fn come_before(&self, version: Version) -> bool
        ensures { result ≡ spec.passes_next self.now version }
    {
        match self.list.front() {
            Some(newest) => is_newer(version, newest.version),
            None => true,
        }
    }

    /// Returns the newest version.
    pub fn newest(&self) -> Option<Version> {
        match self.list.front() {
            Some(newest) => Some(newest.version),
            None => None,
        }
    }

    /// Adds a state, which is the newest. If memory is refused, nothing changes.
    pub fn push(&mut self, shown: Shown) -> Result<(), AllocError>
        requires { spec.passes_next self.old shown.version ≡ true }
        ensures { self.new ≡ (if is_ok result then shown ∷ self.old else self.old) }
    {
        self.list.push_front(shown)?;
        Ok(())
    }
}
