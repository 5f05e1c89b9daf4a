//! The condition of an object: its state, and how often it has changed.

ghost use Rattle.std.specs.Prelude.{◌≡◌, ◌≤◌, length, IfSome};
ghost use Rattle.smi_publish.specs.Published.{condition_in};

use smi_grant::{Shown, Version};

/// The state of an object, and how often it has changed since its station's start.
#[derive(Clone, Copy, PartialEq, Eq)]
pub(crate) struct Condition {
    pub(crate) state: u16,
    pub(crate) sequence: u32,
}

impl Condition {
    ghost use Rattle.std.specs.Prelude.{◌≡◌};

    /// Returns what an object in this condition shows after this boot of its station.
    pub(crate) fn shown(self, object: u16, boot: u32) -> Shown
        ensures { result ≡ record {
          object = object;
          version = record { boot = boot; sequence = self.sequence };
          state = self.state;
        } }
    {
        Shown {
            object,
            version: Version {
                boot,
                sequence: self.sequence,
            },
            state: self.state,
        }
    }
}

/// Returns the condition of an object in a table by number, if it is there.
pub(crate) fn condition_in(conditions: &[Option<Condition>], object: u16) -> Option<Condition>
    ensures condition { result ≡ condition_in conditions.now object }
    ensures least { IfSome result (λ _. 1 ≤ object) }
    ensures most { IfSome result (λ _. object ≤ length conditions.now) }
{
    let place = usize::from(object).checked_sub(1)?;
    match conditions.get(place) {
        Some(Some(condition)) => Some(*condition),
        _ => None,
    }
}
