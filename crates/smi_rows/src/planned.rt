//! A store whose saves fail as planned.

ghost use Rattle.std.specs.Prelude.{◌≡◌, ◌+◌, ◌<◌, ◌≤◌, ◌⊎◌, IfOk, OnOk, IsErr, Some, Err};
ghost use Rattle.smi_rows.specs.Store.{Rows, IsSame, IsListing, with_row};
ghost use Rattle.smi_rows.specs.Store.{IfSure, IfNotSaved, IfUnsure, IfFailed, IfCalm};
ghost use Rattle.smi_rows.specs.Planned.{due_of, left_of};

use crate::key::Key;
use crate::saved::SavedRow;
use crate::stable::{Stable, StoreFault};
use smi_base::Tally;

/// The way in which a save fails.
#[derive(Clone, Copy, Debug, PartialEq, Eq)]
pub enum Plan {
    /// As `Device`: the row is as before.
    Device,
    /// As `Unsure`, before the row was saved.
    Before,
    /// As `Unsure`, after the row was saved.
    After,
}

/// A save that is planned to fail.
#[derive(Clone, Copy, PartialEq, Eq)]
pub struct Planned {
    /// Which save from now, from 1.
    pub nth: u64,
    pub plan: Plan,
}

/// A store over a store, of whose saves one may be planned to fail.
#[derive(Drop)]
pub struct PlannedStable<S> {
    pub store: S,
    /// The save that is planned to fail, if any.
    pub planned: Option<Planned>,
    /// How often a save was asked for.
    pub saves: Tally,
    /// How often a plan struck.
    pub struck: Tally,
    /// How often one struck as `Unsure`.
    pub doubted: Tally,
}

/// Returns the plan that strikes now, and what is planned from then on.
fn strikes(planned: &mut Option<Planned>) -> Option<Plan>
    ensures due { result ≡ due_of planned.old }
    ensures left { planned.new ≡ left_of planned.old }
{
    let Planned { nth, plan } = (*planned)?;
    if nth == 1 {
        *planned = None;
        return Some(plan);
    }
    *planned = Some(Planned {
        nth: nth.saturating_sub(1),
        plan,
    });
    None
}

impl<S> PlannedStable<S> {
    ghost use Rattle.std.specs.Prelude.{◌≡◌, ◌≤◌, None, Some};
    ghost use Rattle.smi_rows.specs.Planned.{planned};

    /// Returns the store of these rows, with nothing planned.
    pub fn new(store: S) -> PlannedStable<S>
        ensures store { result.store ≡ store }
        ensures planned { result.planned ≡ None }
        ensures counts { (result.saves.count ≡ 0) × (result.struck.count ≡ 0) × (result.doubted.count ≡ 0) }
    {
        PlannedStable {
            store,
            planned: None,
            saves: Tally::zero(),
            struck: Tally::zero(),
            doubted: Tally::zero(),
        }
    }

    /// Has the `nth` save from now, from 1, fail so. An earlier plan is given up.
    pub fn plan(&mut self, nth: u64, plan: Plan)
        requires { 1 ≤ nth }
        ensures { self.new ≡ record self.old { planned = Some (planned nth plan) } }
    {
        self.planned = Some(Planned { nth, plan });
    }

    /// Has no save fail.
    pub fn unplan(&mut self)
        ensures { self.new ≡ record self.old { planned = None } }
    {
        self.planned = None;
    }

    /// Returns the store below.
    pub fn into_inner(self) -> S
        ensures { result ≡ self.store }
    {
        let PlannedStable {
            store,
            planned: _,
            saves: _,
            struck: _,
            doubted: _,
        } = self;
        store
    }
}

impl<S: Stable> Stable for PlannedStable<S> {
    ghost rows = { λ p. S.rows p.store };

    ghost may_find = { λ p. S.may_find p.store };

    ghost is_honest = { λ p. S.is_honest p.store };

    ghost is_open = { λ p. S.is_open p.store };

    ghost failures = { λ p. S.failures p.store + p.struck.count };

    ghost doubts = { λ p. S.doubts p.store + p.doubted.count };

    ghost saves = { λ p. p.saves.count };

    ghost rests = { λ p. S.rests p.store };

    fn save(&mut self, key: Key, bytes: &[u8]) -> Result<(), StoreFault>
        ensures saved { S.is_honest self.new.store
            → OnOk result (S.is_open self.new.store × IsSame (S.rows self.new.store)
            (with_row key bytes.now (S.rows self.old.store))) }
        ensures kept { S.is_honest self.new.store → IfNotSaved result
            (S.is_open self.old.store → S.is_open self.new.store
            × IsSame (S.rows self.new.store) (S.rows self.old.store)) }
        ensures unsure { S.is_honest self.new.store → S.is_open self.new.store
            → IfUnsure result (IsSame (S.rows self.new.store) (S.rows self.old.store)
            ⊎ IsSame (S.rows self.new.store) (with_row key bytes.now (S.rows self.old.store))) }
        ensures crash { S.is_honest self.new.store → S.is_open self.old.store → (r : Rows)
            → S.may_find self.new.store r → IsSame r (S.rows self.old.store)
            ⊎ IsSame r (with_row key bytes.now (S.rows self.old.store)) }
        ensures honest { S.is_honest self.new.store → S.is_honest self.old.store }
        ensures saves { self.new.saves.count ≡ self.old.saves.count + 1 }
        ensures failures { S.failures self.old.store + self.old.struck.count ≤ S.failures self.new.store
            + self.new.struck.count }
        ensures cause { IfFailed result (S.failures self.old.store + self.old.struck.count
            < S.failures self.new.store + self.new.struck.count) }
        ensures calm { IfCalm result (S.failures self.new.store + self.new.struck.count
            ≡ S.failures self.old.store + self.old.struck.count) }
        ensures doubt { IfUnsure result (S.doubts self.old.store + self.old.doubted.count
            < S.doubts self.new.store + self.new.doubted.count) }
        ensures sure { IfSure result (S.doubts self.new.store + self.new.doubted.count
            ≡ S.doubts self.old.store + self.old.doubted.count) }
        // The plan strikes once, and is spent.
        ensures device { due_of self.old.planned ≡ Some Plan.Device → (result ≡ Err StoreFault.Device)
            × (self.new.store ≡ self.old.store) × (self.new.struck.count ≡ self.old.struck.count + 1) }
        ensures before { due_of self.old.planned ≡ Some Plan.Before → (result ≡ Err StoreFault.Unsure)
            × (self.new.store ≡ self.old.store) × (self.new.struck.count ≡ self.old.struck.count + 1) }
        ensures after { due_of self.old.planned ≡ Some Plan.After
            → IsErr result × (S.saves self.new.store ≡ S.saves self.old.store + 1)
            × (self.new.struck.count ≤ self.old.struck.count + 1) }
        // If the store below saved the row, it stays.
        ensures landed { due_of self.old.planned ≡ Some Plan.After → S.is_honest self.new.store
            → self.old.struck.count < self.new.struck.count
            → (result ≡ Err StoreFault.Unsure) × S.is_open self.new.store
            × IsSame (S.rows self.new.store) (with_row key bytes.now (S.rows self.old.store)) }
        // No plan strikes before its time.
        ensures passed_on { due_of self.old.planned ≡ None
            → (self.new.struck.count ≡ self.old.struck.count) × (S.saves self.new.store ≡ S.saves self.old.store + 1) }
        ensures left { self.new.planned ≡ left_of self.old.planned }
    {
        self.saves.raise();
        match strikes(&mut self.planned) {
            None => self.store.save(key, bytes),
            Some(Plan::Device) => {
                self.struck.raise();
                Err(StoreFault::Device)
            }
            Some(Plan::Before) => {
                self.struck.raise();
                self.doubted.raise();
                Err(StoreFault::Unsure)
            }
            Some(Plan::After) => {
                self.store.save(key, bytes)?;
                self.struck.raise();
                self.doubted.raise();
                Err(StoreFault::Unsure)
            }
        }
    }

    fn load(&mut self) -> Result<Vec<SavedRow>, StoreFault>
        ensures loaded { S.is_honest self.new.store
            → IfOk result (λ list. S.is_open self.old.store × IsListing (S.rows self.old.store) list.items) }
        ensures open { S.is_honest self.new.store → S.is_open self.old.store
            → IfSure result (S.is_open self.new.store) }
        ensures kept { S.is_honest self.new.store → S.is_open self.old.store → S.is_open self.new.store
            → IsSame (S.rows self.new.store) (S.rows self.old.store) }
        ensures crash { S.is_honest self.new.store → S.is_open self.old.store → (r : Rows)
            → S.may_find self.new.store r → IsSame r (S.rows self.old.store) }
        ensures honest { S.is_honest self.new.store → S.is_honest self.old.store }
        ensures saves { self.new.saves.count ≡ self.old.saves.count }
        ensures failures { S.failures self.old.store + self.old.struck.count ≤ S.failures self.new.store
            + self.new.struck.count }
        ensures cause { IfFailed result (S.failures self.old.store + self.old.struck.count
            < S.failures self.new.store + self.new.struck.count) }
        ensures calm { IfCalm result (S.failures self.new.store + self.new.struck.count
            ≡ S.failures self.old.store + self.old.struck.count) }
        ensures doubt { IfUnsure result (S.doubts self.old.store + self.old.doubted.count
            < S.doubts self.new.store + self.new.doubted.count) }
        ensures sure { IfSure result (S.doubts self.new.store + self.new.doubted.count
            ≡ S.doubts self.old.store + self.old.doubted.count) }
        // No plan strikes, and none is spent.
        ensures passed_on { (self.new.struck.count ≡ self.old.struck.count)
            × (S.saves self.new.store ≡ S.saves self.old.store) }
        ensures left { self.new.planned ≡ self.old.planned }
    {
        self.store.load()
    }
}
