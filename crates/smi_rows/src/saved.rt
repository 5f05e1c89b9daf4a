ghost use Rattle.std.specs.Prelude.{◌≡◌};
ghost use Rattle.smi_rows.specs.Store as store;

use crate::key::Key;
use std::marker::Model;

/// A row as a store has it: its key and its bytes.
#[derive(Drop)]
pub struct SavedRow {
    pub key: Key,
    pub bytes: Vec<u8>,
}

impl Model for SavedRow {
    ghost use Rattle.smi_rows.specs.Store.{Saved};

    ghost Value = { Saved };

    ghost view = { λ r. record { key = r.key; bytes = r.bytes.items } };
}

pub(crate) fn is_before(a: Key, b: Key) -> bool
    ensures { result ≡ store.is_before a b }
{
    a < b
}

/// Returns true if the keys rise.
pub fn is_rising(list: &[SavedRow]) -> bool
    ensures { result ≡ store.rises list.now }
{
    let mut last = None;
    for row in list {
        if let Some(before) = last {
            if !is_before(before, row.key) {
                return false;
            }
        }
        last = Some(row.key);
    }
    true
}
