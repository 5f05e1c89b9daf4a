use crate::changes::Changes;
use crate::condition::{Condition, condition_in};
use crate::opening::first_condition;
use smi_base::LAST_SEQUENCE;
use smi_grant::Shown;
use smi_tree::Tree;
use std::alloc::{AllocError, Global};
use std::marker::Model;

/// The states and versions of the objects that a station keeps, since its start.
///
/// Contracts see the boot and a table, and speak of the table only as the condition of each object
/// number: its state and its sequence, none for an object that another station keeps.
#[derive(Drop)]
pub struct Publisher {
    boot: u32,
    conditions: Vec<Option<Condition>>,
}

impl Model for Publisher {
    ghost use Rattle.smi_publish.specs.Published.{Published};

    ghost Value = { Published };

    ghost view = { λ p. record { boot = p.boot; table = p.conditions.items } };
}

impl Publisher {
    ghost use Rattle.std.specs.Prelude.{◌≡◌, ◌<◌, ◌+◌, ◌≤◌, ◌↔◌, length, ℕ, IfOk, IsTrue};
    ghost use Rattle.smi_tree.specs.Lookups.{domain_count};
    ghost use Rattle.smi_publish.specs.Published.{HasRoom, conditions_of, shown_at, change_at, changes_at};
    ghost use Rattle.smi_publish.specs.Published.{most_changes};
    ghost use Rattle.smi_publish.specs.Publishing.{first_condition, reported, acted, evaluated, device_objects};
    ghost use Rattle.smi_publish.specs.Publishing.{is_among, moved_at};

    /// Returns the objects of a station after a start, in their classes' first states, at sequence 0 of this boot:
    /// the units of the domains that the station keeps, and the devices in them.
    ///
    /// It fails only if memory ran out, which tests alone see.
    pub fn new(alloc: Global, tree: &Tree, station: u16, boot: u32) -> Result<Publisher, AllocError>
        ensures boot { IfOk result (λ publisher. publisher.boot ≡ boot) }
        ensures opened { IfOk result (λ publisher. conditions_of publisher ≡ first_condition tree.now station) }
        ensures room { IfOk result (λ publisher. (object : ℕ) → HasRoom (conditions_of publisher) object) }
    {
        let mut conditions = Vec::new(alloc);
        for object in 0..tree.domain_count() + tree.device_count() {
            conditions.push(first_condition(tree, station, object + 1))?;
        }
        Ok(Publisher { boot, conditions })
    }

    /// Returns the station's boot.
    pub fn boot(&self) -> u32
        ensures { result ≡ self.now.boot }
    {
        self.boot
    }

    /// Returns the version and the state of an object, none if the station does not keep it.
    pub fn current(&self, object: u16) -> Option<Shown>
        ensures { result ≡ shown_at self.now.boot (conditions_of self.now) object }
    {
        let condition = condition_in(&self.conditions, object)?;
        Some(condition.shown(object, self.boot))
    }

    /// Returns true if an object may change once more: one that the station keeps, with a sequence below
    /// 4,000,000,000.
    pub fn has_room(&self, object: u16) -> bool
        ensures { IsTrue result ↔ HasRoom (conditions_of self.now) object }
    {
        match condition_in(&self.conditions, object) {
            Some(condition) => condition.sequence < LAST_SEQUENCE,
            None => true,
        }
    }

    /// Has an object enter a state. Returns what it shows then, if that is another state.
    ///
    /// An object that the station does not keep has none, and stays so.
    pub fn report(&mut self, object: u16, state: u16) -> Option<Shown>
        requires { HasRoom (conditions_of self.old) object }
        ensures boot { self.new.boot ≡ self.old.boot }
        ensures conditions { conditions_of self.new ≡ reported (conditions_of self.old) object state }
        ensures change { result ≡ change_at self.old.boot (conditions_of self.old) (conditions_of self.new) object }
    {
        let old = condition_in(&self.conditions, object)?;
        if old.state == state {
            return None;
        }
        let new = Condition {
            state,
            sequence: old.sequence + 1,
        };
        self.conditions[usize::from(object) - 1] = Some(new);
        Some(new.shown(object, self.boot))
    }

    /// Has the unit of a domain enter the state that its class gives it if its members are in
    /// these states, 0 for one that is not known. Returns what it shows then, if that is another state.
    pub fn evaluate(&mut self, tree: &Tree, domain: u16, members: &[u16]) -> Option<Shown>
        requires { HasRoom (conditions_of self.old) domain }
        ensures boot { self.new.boot ≡ self.old.boot }
        ensures conditions { conditions_of self.new ≡ evaluated tree.now (conditions_of self.old) domain members.now }
        ensures change { result ≡ change_at self.old.boot (conditions_of self.old) (conditions_of self.new) domain }
    {
        let old = condition_in(&self.conditions, domain)?;
        self.report(domain, tree.unit_state(domain, old.state, members))
    }

    /// Moves every device of a domain by its class. Returns the changes, by number.
    pub fn run_action(&mut self, tree: &Tree, domain: u16, action: u16) -> Changes
        requires least { 1 ≤ domain }
        requires most { domain ≤ domain_count tree.now }
        requires room { (object : ℕ) → IsTrue (is_among (device_objects tree.now domain) object)
            → HasRoom (conditions_of self.old) object }
        ensures boot { self.new.boot ≡ self.old.boot }
        ensures conditions { conditions_of self.new ≡ acted tree.now (conditions_of self.old) domain action }
        ensures changes { result ≡ changes_at self.old.boot (conditions_of self.old) (conditions_of self.new)
            (device_objects tree.now domain) }
        ensures few { length result < most_changes }
    {
        let domains = tree.domain_count();
        let mut changes = Changes::new();
        for device in tree.devices(domain) {
            let object = domains + *device;
            match self.act(tree, object, action) {
                Some(shown) => changes.push(shown),
                None => {}
            }
        }
        changes
    }

    /// Moves a device by its class. Returns its change.
    fn act(&mut self, tree: &Tree, object: u16, action: u16) -> Option<Shown>
        requires device { domain_count tree.now < object }
        requires room { HasRoom (conditions_of self.old) object }
        ensures boot { self.new.boot ≡ self.old.boot }
        ensures conditions { conditions_of self.new ≡ moved_at tree.now (conditions_of self.old) action object }
        ensures change { result ≡ change_at self.old.boot (conditions_of self.old) (conditions_of self.new) object }
    {
        let old = condition_in(&self.conditions, object)?;
        let device = object - tree.domain_count();
        self.report(object, tree.moved(device, old.state, action))
    }
}
