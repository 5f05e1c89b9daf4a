//! The actions that a class accepts.

use std::alloc::{AllocError, Global};
use std::collections::HashSet;
use std::marker::Model;

/// Actions, in the order in which they came, and at hand by number.
#[derive(Drop)]
pub(crate) struct Actions {
    rows: Vec<u16>,
    index: HashSet<u16>,
}

impl Model for Actions {
    ghost use Rattle.std.specs.Prelude.{ℕ, List};

    ghost Value = { List ℕ };

    ghost view = { λ a. a.rows.items };

    ghost use Rattle.smi_tree.specs.ActionIndex.{IsActionIndex};

    ghost invariant = { λ a. IsActionIndex a.rows.items a.index };
}

impl Actions {
    ghost use Rattle.std.specs.Prelude.{◌≡◌, ◌==◌, [], ◌∷◌, ◌++◌, OnOk};
    ghost use Rattle.std.specs.List.{list_any};

    pub(crate) fn new(alloc: Global) -> Actions
        ensures { result ≡ [] }
    {
        Actions {
            rows: Vec::new(alloc),
            index: HashSet::new(alloc),
        }
    }

    pub(crate) fn contains(&self, action: u16) -> bool
        ensures { result ≡ list_any (λ other. other == action) self.now }
    {
        self.index.contains(&action)
    }

    /// Puts an action at the end.
    pub(crate) fn push(&mut self, action: u16) -> Result<(), AllocError>
        ensures { OnOk result (self.new ≡ self.old ++ action ∷ []) }
    {
        self.rows.push(action)?;
        if let Err(refused) = self.index.insert(action) {
            self.rows.pop();
            return Err(refused.into());
        }
        Ok(())
    }
}
