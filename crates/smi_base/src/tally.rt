//! Counts that only clauses read.

use crate::step::Step;
use std::marker::Model;
use std::snapshot::Snapshot;

/// A count that clauses alone read. It has no bytes, and so no last value.
#[derive(Drop)]
pub struct Tally {
    last: Snapshot<Step>,
}

impl Model for Tally {
    ghost use Rattle.smi_base.specs.Count.{Count};

    ghost Value = { Count };

    ghost view = { λ t. record { count = t.last.value } };
}

impl Tally {
    ghost use Rattle.std.specs.Prelude.{◌≡◌, ◌+◌};

    /// Returns a count of nothing.
    pub fn zero() -> Tally
        ensures { result.count ≡ 0 }
    {
        Tally {
            last: Snapshot::of(&Step { before: None }),
        }
    }

    /// Counts one more.
    pub fn raise(&mut self)
        ensures { self.new.count ≡ self.old.count + 1 }
    {
        let Tally { last } = std::mem::replace(self, Tally::zero());
        self.last = Snapshot::of(&Step { before: Some(last) });
    }
}
