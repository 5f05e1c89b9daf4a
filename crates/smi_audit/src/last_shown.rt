//! What stations were shown of objects.

ghost use Rattle.std.specs.Prelude.{◌≡◌, ◌≤◌, ◌-◌, length, map, slice_set, replicate, IfOk};
ghost use Rattle.smi_station_grants.specs.Entries.{entry_or};
ghost use Rattle.smi_audit.specs.Tables as spec;

use smi_grant::Version;
use smi_station_grants::entry_of;
use smi_view::is_newer;
use std::alloc::{AllocError, Global};
use std::marker::Model;

/// What a station was shown last of an object, and whether that was since its last start.
#[derive(Clone, Copy, PartialEq, Eq)]
pub struct LastShown {
    /// The newest version that was shown.
    pub last: Option<Version>,
    /// That it was shown since the station's last start.
    pub since: bool,
}

/// Returns true if one version is not older than another.
pub fn is_not_older(one: Version, other: Version) -> bool
    ensures { result ≡ spec.is_not_older one other }
{
    if is_newer(one, other) {
        true
    } else {
        one.boot == other.boot && one.sequence == other.sequence
    }
}

impl LastShown {
    /// Returns what a station was shown of an object before anything happens.
    pub fn nothing() -> LastShown
        ensures { result ≡ spec.unseen }
    {
        LastShown {
            last: None,
            since: false,
        }
    }

    /// Returns true if a version may be shown next.
    pub fn comes_next(&self, version: Version) -> bool
        ensures { result ≡ spec.comes_next self.now version }
    {
        match self.last {
            None => true,
            Some(last) => {
                if self.since {
                    is_newer(version, last)
                } else {
                    is_not_older(version, last)
                }
            }
        }
    }
}

/// What one station was shown of all objects, by number.
#[derive(Drop)]
pub struct ShownStates {
    list: Vec<LastShown>,
}

impl Model for ShownStates {
    ghost use Rattle.std.specs.Prelude.{List};
    ghost use Rattle.smi_audit.specs.declared.last_shown.LastShown.{LastShown};

    ghost Value = { List LastShown };

    ghost view = { λ g. g.list.items };
}

impl ShownStates {
    /// Makes a list for a station that was shown none of this many objects.
    pub fn new(alloc: Global, objects: usize) -> Result<ShownStates, AllocError>
        ensures { IfOk result (λ shown_states. shown_states ≡ replicate objects spec.unseen) }
    {
        let list = vec![in alloc; LastShown::nothing(); objects]?;
        Ok(ShownStates { list })
    }

    /// Returns how many objects there are.
    pub fn count(&self) -> usize
        ensures { result ≡ length self.now }
    {
        self.list.len()
    }

    /// Returns what the station was shown of an object.
    pub fn of(&self, object: u16) -> LastShown
        ensures { result ≡ entry_or self.now object spec.unseen }
    {
        entry_of(&self.list, object, LastShown::nothing())
    }

    /// Notes that the station is shown a version of an object.
    pub fn put(&mut self, object: u16, version: Version)
        requires least { 1 ≤ object }
        requires most { object ≤ length self.old }
        ensures { self.new ≡ slice_set self.old (object - 1) (spec.seen_now version) }
    {
        self.list[usize::from(object) - 1] = LastShown {
            last: Some(version),
            since: true,
        };
    }

    /// Notes that the station starts: nothing was shown to it since.
    pub fn restart(&mut self)
        ensures { self.new ≡ map spec.seen_before self.old }
    {
        for shown in self.list.iter_mut() {
            shown.since = false;
        }
    }
}
