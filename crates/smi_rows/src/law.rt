//! What a layer above can count on, over any store.

ghost use Rattle.std.specs.Prelude.{◌≡◌, ◌+◌, ◌<◌, ◌≤◌, IfOk, OnOk};
ghost use Rattle.smi_rows.specs.Store.{IfFailed, IsListing, IsSame, ListsAfter, with_row};

use crate::key::Key;
use crate::saved::SavedRow;
use crate::stable::{Stable, StoreFault};

/// How a save ended, and all rows after it.
pub type SavedThenLoaded = (Result<(), StoreFault>, Vec<SavedRow>);

/// Saves a row and loads it again, among the rows that were there before.
pub fn saved_is_loaded<S: Stable>(
    store: &mut S,
    key: Key,
    bytes: &[u8],
) -> Result<Vec<SavedRow>, StoreFault>
    ensures loaded { S.is_honest store.new → IfOk
        result (λ list. IsListing (with_row key bytes.now (S.rows store.old)) list.items) }
    ensures kept { S.is_honest store.new → OnOk
        result (S.is_open store.new × IsSame (S.rows store.new) (with_row key bytes.now (S.rows store.old))) }
    ensures honest { S.is_honest store.new → S.is_honest store.old }
    ensures saves { S.saves store.new ≡ S.saves store.old + 1 }
    ensures failures { S.failures store.old ≤ S.failures store.new }
    ensures cause { IfFailed result (S.failures store.old < S.failures store.new) }
{
    store.save(key, bytes)?;
    store.load()
}

/// Saves and loads: however the save ends, what is loaded after it is as the save says: the rows with that one
/// replaced, the rows unchanged, or for `Unsure` one of the two.
pub fn loaded_is_as_told<S: Stable>(
    store: &mut S,
    key: Key,
    bytes: &[u8],
) -> Result<SavedThenLoaded, StoreFault>
    ensures loaded { S.is_honest store.new → S.is_open store.old
        → IfOk result (λ r. ListsAfter r.0 (S.rows store.old) (with_row key bytes.now (S.rows store.old)) r.1.items) }
    ensures honest { S.is_honest store.new → S.is_honest store.old }
    ensures saves { S.saves store.new ≡ S.saves store.old + 1 }
    ensures failures { S.failures store.old ≤ S.failures store.new }
    ensures cause { IfFailed result (S.failures store.old < S.failures store.new) }
{
    let saved = store.save(key, bytes);
    let rows = store.load()?;
    Ok((saved, rows))
}

/// Saves a row, loads it and saves it again. However the second save ends, what is loaded then is as it says, over
/// what the first one saved.
pub fn a_failure_leaves_what_was_saved<S: Stable>(
    store: &mut S,
    key: Key,
    bytes: &[u8],
    later: &[u8],
) -> Result<SavedThenLoaded, StoreFault>
    ensures loaded { S.is_honest store.new → IfOk
        result (λ r. ListsAfter r.0 (with_row key bytes.now (S.rows store.old))
        (with_row key later.now (with_row key bytes.now (S.rows store.old))) r.1.items) }
    ensures honest { S.is_honest store.new → S.is_honest store.old }
    ensures saves { OnOk result (S.saves store.new ≡ S.saves store.old + 2) }
    ensures failures { S.failures store.old ≤ S.failures store.new }
    ensures cause { IfFailed result (S.failures store.old < S.failures store.new) }
{
    saved_is_loaded(store, key, bytes)?;
    loaded_is_as_told(store, key, later)
}
