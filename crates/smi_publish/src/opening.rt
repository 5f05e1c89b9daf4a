//! The condition of an object at its station's start.

ghost use Rattle.std.specs.Prelude.{◌≡◌, ◌+◌, ◌≤◌, Some};
ghost use Rattle.smi_tree.specs.Lookups.{domain_count, device_count};
ghost use Rattle.smi_tree.specs.Roles.{keeper_of};
ghost use Rattle.smi_publish.specs.Publishing.{first_condition};

use crate::condition::Condition;
use smi_tree::{Tree, keeper_of};

/// Returns the condition of an object at the start of a station, none if another one keeps it.
pub(crate) fn first_condition(tree: &Tree, station: u16, object: u16) -> Option<Condition>
    requires least { 1 ≤ object }
    requires most { object ≤ domain_count tree.now + device_count tree.now }
    ensures { result ≡ first_condition tree.now station object }
{
    if keeper_of(tree, object) != station {
        return None;
    }
    let state = tree.first_state(object)?;
    Some(Condition { state, sequence: 0 })
}
