use smi_base::MOST_DEVICES_OF_A_DOMAIN;
use smi_grant::{Shown, Version};
use std::marker::Model;

/// How many objects may change in one step: the devices of a domain and its unit.
pub const MOST_CHANGES: usize = MOST_DEVICES_OF_A_DOMAIN + 1;

/// The changes of a step: the new states of devices by number, then of the unit.
///
/// The list lies in the value itself, so it takes no memory. Contracts see the list.
#[derive(Drop)]
pub struct Changes {
    shown: [Shown; MOST_CHANGES],
    count: usize,
}

impl Model for Changes {
    ghost use Rattle.std.specs.Prelude.{List, take};
    ghost use Rattle.smi_grant.specs.declared.state.Shown.{Shown};
    ghost use Rattle.smi_publish.specs.Published.{IsStored};

    ghost Value = { List Shown };

    ghost view = { λ c. take c.count c.shown };

    ghost invariant = { λ c. IsStored c.shown c.count };
}

impl Changes {
    ghost use Rattle.std.specs.Prelude.{◌≡◌, ◌<◌, ◌≤◌, ◌↔◌, ◌++◌, ◌∷◌, [], IsTrue, length};
    ghost use Rattle.smi_publish.specs.Published.{most_changes};

    /// Returns no changes.
    pub fn new() -> Changes
        ensures { result ≡ [] }
    {
        let unset = Shown {
            object: 0,
            version: Version {
                boot: 0,
                sequence: 0,
            },
            state: 0,
        };
        Changes {
            shown: [unset; MOST_CHANGES],
            count: 0,
        }
    }

    /// Returns how many objects have changed, at most [`MOST_CHANGES`].
    pub fn len(&self) -> usize
        ensures value { result ≡ length self.now }
        ensures within { result ≤ most_changes }
    {
        self.count
    }

    /// Returns true if no object has changed.
    pub fn is_empty(&self) -> bool
        ensures { IsTrue result ↔ (self.now ≡ []) }
    {
        self.len() == 0
    }

    /// Returns the changes, in their order.
    pub fn as_slice(&self) -> &[Shown]
        ensures { result.now ≡ self.now }
    {
        &self.shown[..self.count]
    }

    /// Adds the change of one more object, after the others.
    pub fn push(&mut self, shown: Shown)
        requires { length self.old < most_changes }
        ensures { self.new ≡ self.old ++ shown ∷ [] }
    {
        self.shown[self.count] = shown;
        self.count += 1;
    }

    /// Takes all changes away.
    pub fn clear(&mut self)
        ensures { self.new ≡ [] }
    {
        self.count = 0;
    }
}
