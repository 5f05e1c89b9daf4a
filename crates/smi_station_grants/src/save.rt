//! A change is saved, and then made.

ghost use Rattle.std.specs.Prelude.{◌≡◌, ◌<◌, true, is_some, OnOk, OnErr, IfOk, Some};
ghost use Rattle.smi_protocol.specs.Step.{heard_of};
ghost use Rattle.smi_station_grants.specs.GrantTable.{grants_of};
ghost use Rattle.smi_station_grants.specs.Change.{changed, saved_by, IsChange};
ghost use Rattle.smi_station_grants.specs.Leaving.{Leaves};
ghost use Rattle.smi_station_grants.specs.Save.{IfMemory, row_with};

use crate::change::Change;
use crate::grant_table::GrantTable;
use crate::planned_view::PlannedView;
use crate::row_buffer::RowBuffer;
use smi_protocol::{Heard, StepFault};
use smi_rows::{Key, Stable, StoreFault};
use std::mem;

/// Saves a row, if there is one: with this key and these bytes.
pub fn save_row<S: Stable>(
    store: &mut S,
    key: Option<Key>,
    bytes: &[u8],
) -> Result<Heard, StepFault>
    ensures heard { IfOk result (λ heard. heard ≡ heard_of (row_with key bytes.now)) }
    ensures store { Leaves S.is_honest S.is_open S.rows S.may_find S.saves S.failures S.doubts store.old store.new
        result (row_with key bytes.now) }
    // Memory is wanted for a row that is saved, and for nothing else.
    ensures memory { IfMemory result (is_some (row_with key bytes.now) ≡ true) }
{
    match key {
        None => Ok(Heard::Same),
        Some(key) => match store.save(key, bytes) {
            Ok(()) => Ok(Heard::Done),
            Err(StoreFault::Memory) => Err(StepFault::Memory),
            Err(StoreFault::Device) => Err(StepFault::NotStored),
            Err(StoreFault::Unsure) => Err(StepFault::Stopped),
        },
    }
}

/// Saves a change and then makes it; what a fault leaves is what was there.
pub fn save_and_apply<S: Stable>(
    kept: &mut GrantTable<'_>,
    store: &mut S,
    change: &Change,
) -> Result<Heard, StepFault>
    requires { IsChange kept.old.tree kept.old.number (grants_of kept.old) change.now }
    ensures grants { OnOk result (grants_of kept.new ≡ changed kept.old.tree (grants_of kept.old) change.now) }
    ensures tree { OnOk result ((kept.new.tree ≡ kept.old.tree) × (kept.new.number ≡ kept.old.number)) }
    ensures unchanged { OnErr result (kept.new ≡ kept.old) }
    ensures heard { IfOk result (λ heard. heard
        ≡ heard_of (saved_by kept.old.tree kept.old.number (grants_of kept.old) change.now)) }
    ensures store { Leaves S.is_honest S.is_open S.rows S.may_find S.saves S.failures S.doubts store.old store.new
        result (saved_by kept.old.tree kept.old.number (grants_of kept.old) change.now) }
    ensures memory { IfMemory result
        (is_some (saved_by kept.old.tree kept.old.number (grants_of kept.old) change.now) ≡ true) }
{
    let alloc = kept.alloc();
    let mut room = mem::replace(&mut kept.room, RowBuffer::none(alloc));
    let saved = save_planned(kept, &mut room, store, change);
    kept.room = room;
    match saved {
        Ok(heard) => {
            kept.commit(change);
            Ok(heard)
        }
        Err(fault) => Err(fault),
    }
}

/// Makes the row ready that a change has saved, and saves it.
fn save_planned<S: Stable>(
    kept: &GrantTable<'_>,
    room: &mut RowBuffer,
    store: &mut S,
    change: &Change,
) -> Result<Heard, StepFault>
    requires { IsChange kept.now.tree kept.now.number (grants_of kept.now) change.now }
    ensures heard { IfOk result (λ heard. heard
        ≡ heard_of (saved_by kept.now.tree kept.now.number (grants_of kept.now) change.now)) }
    ensures store { Leaves S.is_honest S.is_open S.rows S.may_find S.saves S.failures S.doubts store.old store.new
        result (saved_by kept.now.tree kept.now.number (grants_of kept.now) change.now) }
    ensures memory { IfMemory result
        (is_some (saved_by kept.now.tree kept.now.number (grants_of kept.now) change.now) ≡ true) }
{
    let after = PlannedView::of(kept, change);
    match after.row(room) {
        Ok(key) => save_row(store, key, room.bytes()),
        Err(_) => Err(StepFault::Memory),
    }
}
