//! Lists and queues that grow, and how often they could not.

use smi_base::Tally;
use std::alloc::AllocError;
use std::collections::VecDeque;
use std::marker::Model;

/// How often memory was refused to a list that was to grow, which contracts alone read. Only an allocation
/// that was refused counts.
#[derive(Drop)]
pub(crate) struct Growth {
    refusals: Tally,
}

impl Model for Growth {
    ghost use Rattle.smi_base.specs.Count.{Count};

    ghost Value = { Count };

    ghost view = { λ g. record { count = g.refusals.count } };
}

impl Growth {
    ghost use Rattle.std.specs.Prelude.{◌≡◌, ◌≤◌, ◌<◌, ◌+◌, ◌++◌, ◌∷◌, [], OnOk, OnErr, IsOk, vec_len, vec_capacity};
    ghost use Rattle.std.specs.VecDeque.{deque_capacity, deque_len};

    /// Returns a count of nothing refused.
    pub(crate) fn new() -> Growth
        ensures { result.count ≡ 0 }
    {
        Growth {
            refusals: Tally::zero(),
        }
    }

    /// Puts an item at the end of a list.
    pub(crate) fn push<T: Drop>(&mut self, list: &mut Vec<T>, item: T) -> Result<(), AllocError>
        ensures pushed { OnOk result (list.new.items ≡ list.old.items ++ item ∷ []) }
        ensures grown { OnOk result (self.new.count ≡ self.old.count) }
        ensures unchanged { OnErr result (list.new.items ≡ list.old.items) }
        ensures refused { OnErr result (self.new.count ≡ self.old.count + 1) }
        ensures room { vec_len list.old < vec_capacity list.old → IsOk result }
    {
        if list.push(item).is_err() {
            self.refusals.raise();
            return Err(AllocError);
        }
        Ok(())
    }

    /// Puts an item at the end of a queue.
    pub(crate) fn push_back<T: Drop>(
        &mut self,
        queue: &mut VecDeque<T>,
        item: T,
    ) -> Result<(), AllocError>
        ensures pushed { OnOk result (queue.new.items ≡ queue.old.items ++ item ∷ []) }
        ensures grown { OnOk result (self.new.count ≡ self.old.count) }
        ensures unchanged { OnErr result (queue.new.items ≡ queue.old.items) }
        ensures refused { OnErr result (self.new.count ≡ self.old.count + 1) }
        ensures room { deque_len queue.old < deque_capacity queue.old → IsOk result }
    {
        if queue.push_back(item).is_err() {
            self.refusals.raise();
            return Err(AllocError);
        }
        Ok(())
    }

    /// Makes room for one more item in a list.
    pub(crate) fn reserve<T: Drop>(&mut self, list: &mut Vec<T>) -> Result<(), AllocError>
        ensures unchanged { list.new.items ≡ list.old.items }
        ensures grown { OnOk result (self.new.count ≡ self.old.count) }
        ensures refused { OnErr result (self.new.count ≡ self.old.count + 1) }
        ensures room { OnOk result (vec_len list.new < vec_capacity list.new) }
    {
        if list.reserve(1).is_err() {
            self.refusals.raise();
            return Err(AllocError);
        }
        Ok(())
    }
}
