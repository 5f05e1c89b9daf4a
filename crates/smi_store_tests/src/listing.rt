//! The rows of a store as `smi rows` prints them, whatever the order in which they were saved.

use crate::stable::disks::{FusedFiles, OnDisks, opened};
use smi_commands::rows::{Listed, rows};
use smi_stable::{Key, MemoryStable, PlannedStable, Stable, StoreFault};
use smi_testkit::{BOOT, HELD, TAKEN, key};
use std::alloc::Global;
use std::test::Fail;

const LISTING: &str =
    "1 0 0 0200000000000002\n1 1 0 020100020000000000000001000000000000000000000000\n2 0 2 030000010002020000000000000000010000000000000000\n";

/// Returns boot 2 of station 1, a domain that operator 2 took, and what that operator holds.
fn saved_rows() -> [(Key, &'static [u8]); 3] {
    [
        (key(1, 0, 0), BOOT),
        (key(1, 1, 0), TAKEN),
        (key(2, 0, 2), HELD),
    ]
}

const ORDERS: [[usize; 3]; 6] = [
    [0, 1, 2],
    [0, 2, 1],
    [1, 0, 2],
    [1, 2, 0],
    [2, 0, 1],
    [2, 1, 0],
];

fn save_in<S: Stable>(store: &mut S, order: [usize; 3]) -> Result<(), StoreFault> {
    for place in order {
        if let Some((key, bytes)) = saved_rows().get(place) {
            store.save(*key, bytes)?;
        }
    }
    Ok(())
}

/// Returns whether the listing is printed of a store in which the rows were saved in this order.
fn is_printed<S: Stable>(alloc: Global, store: &mut S, order: [usize; 3]) -> Result<bool, Fail> {
    save_in(store, order)?;
    let mut text = Vec::new(alloc);
    let listed = rows(store, &mut text);
    Ok(listed == Listed::Done && text.as_slice() == LISTING.as_bytes())
}

#[test]
fn rows_in_memory_are_printed(rt: HostRuntime) -> Result<(), Fail> {
    for order in ORDERS {
        let mut store = MemoryStable::new(rt.alloc());
        assert!(rt; is_printed(rt.alloc(), &mut store, order)?, "{order:?}");
    }
    Ok(())
}

#[test]
fn rows_with_nothing_planned_are_printed(rt: HostRuntime) -> Result<(), Fail> {
    for order in ORDERS {
        let mut store = PlannedStable::new(MemoryStable::new(rt.alloc()));
        assert!(rt; is_printed(rt.alloc(), &mut store, order)?, "{order:?}");
    }
    Ok(())
}

// One function owns the store, and has one way out of it.
fn is_printed_on_disks<S: OnDisks<Disks = FusedFiles>>(
    alloc: Global,
    order: [usize; 3],
) -> Result<bool, Fail> {
    let mut store = opened::<S>(alloc)?;
    let printed = is_printed(alloc, &mut store, order);
    drop(store.close());
    printed
}

/// Returns whether the rows of a store on disks are printed, whatever the order in which they were saved.
pub(crate) fn are_printed<S: OnDisks<Disks = FusedFiles>>(alloc: Global) -> Result<bool, Fail> {
    for order in ORDERS {
        if !is_printed_on_disks::<S>(alloc, order)? {
            return Ok(false);
        }
    }
    Ok(true)
}
