ghost use Rattle.std.specs.Prelude.{◌≡◌};

use smi_grant::Outcome;
use std::marker::Model;

/// The command of this number has settled with this code; a take or a drop has number 0.
#[derive(Clone, Copy, PartialEq, Eq)]
pub struct Settlement {
    pub number: u32,
    pub code: u16,
}

/// What settles at once: one to eight commands of consecutive numbers, or a take or a drop.
///
/// Only the newest one's outcome can have been seen, so the others have the code of [`Outcome::Unseen`].
/// Contracts see the list of settlements, by rising number.
#[derive(Clone, Copy, PartialEq, Eq)]
pub struct Settlements {
    first: u32,
    code: u16,
    count: usize,
}

impl Model for Settlements {
    ghost use Rattle.std.specs.Prelude.{List, length};
    ghost use Rattle.smi_command.specs.declared.settlements.Settlement.{Settlement};
    ghost use Rattle.smi_command.specs.Settlements.{IsRun, settled_run, first_number, last_code, same_first};
    ghost use Rattle.smi_command.specs.Settlements.{same_count, same_code};

    ghost Value = { List Settlement };

    ghost view = { λ s. settled_run s.first s.count s.code };

    ghost invariant = { λ s. IsRun s.first s.count };

    ghost inverse = { λ xs. record { first = first_number xs; count = length xs; code = last_code xs } };

    ghost inverse_ok = { λ s r i. record {
      first = same_first s.first s.count s.code r i;
      count = same_count s.first s.count s.code i;
      code = same_code s.first s.count s.code r i;
    } };
}

impl Settlements {
    ghost use Rattle.std.specs.Prelude.{◌≤◌, ◌+◌, ◌^◌, ◌∷◌, [], length, slice_get};
    ghost use Rattle.smi_command.specs.Pending.{most_pending};
    ghost use Rattle.smi_command.specs.Settlements.{settlement, settled_run};

    /// Returns that this many commands have settled, numbered from `first` on: the newest with `code`, and the others
    /// unseen.
    pub(crate) fn run(first: u32, count: usize, code: u16) -> Settlements
        requires some { 1 ≤ count }
        requires few { count ≤ most_pending }
        requires numbered { first + count ≤ 2 ^ 32 }
        ensures { result ≡ settled_run first count code }
    {
        Settlements { first, count, code }
    }

    /// Returns that a take or a drop has settled.
    pub(crate) fn change(code: u16) -> Settlements
        ensures { result ≡ settlement 0 code ∷ [] }
    {
        Settlements {
            first: 0,
            count: 1,
            code,
        }
    }

    /// Returns how many have settled.
    pub fn len(&self) -> usize
        ensures value { result ≡ length self.now }
        ensures some { 1 ≤ result }
        ensures within { result ≤ most_pending }
    {
        self.count
    }

    /// Returns the settlement at place `i`, the least number at 0.
    pub fn get(&self, i: usize) -> Option<Settlement>
        ensures { result ≡ slice_get self.now i }
    {
        if i >= self.count {
            return None;
        }
        Some(Settlement {
            number: self.first + i as u32,
            code: if i + 1 == self.count {
                self.code
            } else {
                Outcome::Unseen.code()
            },
        })
    }
}
