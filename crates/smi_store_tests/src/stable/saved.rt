//! What was saved is loaded, by rising key, from each store.

use super::disks::{FusedFiles, OnDisks, found, opened};
use smi_stable::{Key, MemoryStable, PlannedStable, SavedRow, Stable, StoreFault};
use smi_testkit::{BOOT, HELD, TAKEN, are_same, key};
use std::alloc::{AllocError, Global};
use std::test::Fail;

/// Returns boot 2 of station 1, a domain that operator 2 took, and what that operator holds.
fn rows() -> [(Key, &'static [u8]); 3] {
    [
        (key(1, 0, 0), BOOT),
        (key(1, 1, 0), TAKEN),
        (key(2, 0, 2), HELD),
    ]
}

fn is_row(row: &SavedRow, wanted: (Key, &[u8])) -> bool {
    row.key == wanted.0 && row.bytes.as_slice() == wanted.1
}

/// Returns true if these are the rows, in their order.
fn are_rows(list: &[SavedRow]) -> bool {
    list.len() == 3
        && list
            .iter()
            .zip(rows())
            .all(|(row, wanted)| is_row(row, wanted))
}

fn save_at<S: Stable>(store: &mut S, place: usize) -> Result<(), StoreFault> {
    match rows().get(place) {
        Some((key, bytes)) => store.save(*key, bytes),
        None => Err(StoreFault::Unsure),
    }
}

/// Saves the rows in some order, the last of them twice, over another row under its key.
fn save_all<S: Stable>(store: &mut S, order: [usize; 3]) -> Result<(), StoreFault> {
    store.save(key(2, 0, 2), BOOT)?;
    for place in order {
        save_at(store, place)?;
    }
    Ok(())
}

fn loads_what_was_saved<S: Stable>(store: &mut S, order: [usize; 3]) -> Result<bool, StoreFault> {
    save_all(store, order)?;
    let list = store.load()?;
    Ok(are_rows(&list))
}

const ORDERS: [[usize; 3]; 6] = [
    [0, 1, 2],
    [0, 2, 1],
    [1, 0, 2],
    [1, 2, 0],
    [2, 0, 1],
    [2, 1, 0],
];

#[test]
fn in_memory(rt: HostRuntime) {
    for order in ORDERS {
        let mut store = MemoryStable::new(rt.alloc());
        assert_eq!(rt; loads_what_was_saved(&mut store, order), Ok(true));
    }
}

#[test]
fn with_nothing_planned(rt: HostRuntime) {
    for order in ORDERS {
        let mut store = PlannedStable::new(MemoryStable::new(rt.alloc()));
        assert_eq!(rt; loads_what_was_saved(&mut store, order), Ok(true));
    }
}

/// Returns whether the rows are found again on the files that the store gives up.
fn is_found_again<S: OnDisks<Disks = FusedFiles>>(
    alloc: Global,
    order: [usize; 3],
) -> Result<bool, Fail> {
    let mut store = opened::<S>(alloc)?;
    let loaded = loads_what_was_saved(&mut store, order);
    let list = found::<S>(alloc, store.close())?;
    Ok(loaded == Ok(true) && are_rows(&list))
}

pub(super) fn are_found_again<S: OnDisks<Disks = FusedFiles>>(alloc: Global) -> Result<bool, Fail> {
    for order in ORDERS {
        if !is_found_again::<S>(alloc, order)? {
            return Ok(false);
        }
    }
    Ok(true)
}

/// As many rows as the stations of a tree at every limit have, and more.
const MANY: u16 = 1_000;

/// Returns rows by rising keys, each a byte longer than the one before.
fn many(alloc: Global) -> Result<Vec<SavedRow>, AllocError> {
    let mut rows = Vec::new(alloc);
    for more in 0..MANY {
        let bytes = std::vec![in alloc; 7u8; usize::from(more)]?;
        rows.push(SavedRow {
            key: key(more / 128 + 1, more % 128 + 1, 0),
            bytes,
        })?;
    }
    Ok(rows)
}

/// Saves all rows twice, and returns true if they are loaded then.
fn keeps<S: Stable>(store: &mut S, rows: &[SavedRow]) -> Result<bool, StoreFault> {
    for _ in 0..2u8 {
        for row in rows {
            store.save(row.key, row.bytes.as_slice())?;
        }
    }
    let loaded = store.load()?;
    Ok(are_same(loaded.as_slice(), rows))
}

pub(super) fn are_many_kept<S: OnDisks<Disks = FusedFiles>>(alloc: Global) -> Result<bool, Fail> {
    let rows = many(alloc)?;
    let mut store = opened::<S>(alloc)?;
    let kept = keeps(&mut store, rows.as_slice());
    drop(store.close());
    Ok(kept == Ok(true))
}

#[test]
fn many_rows(rt: HostRuntime) -> Result<(), Fail> {
    let rows = many(rt.alloc())?;
    let mut store = PlannedStable::new(MemoryStable::new(rt.alloc()));
    assert_eq!(rt; keeps(&mut store, rows.as_slice()), Ok(true));
    Ok(())
}
