//! Saves that fail as planned.

use smi_rows::law::saved_is_loaded;
use smi_rows::{MemoryStable, Plan, PlannedStable, Stable, StoreFault};
use smi_testkit::{BOOT, PENDING, key};

fn loaded(store: &mut PlannedStable<MemoryStable>) -> usize {
    match saved_is_loaded(store, key(1, 0, 0), BOOT) {
        Ok(list) => list.len(),
        Err(_) => 0,
    }
}

fn save<S: Stable>(store: &mut S) -> Result<(), StoreFault> {
    store.save(key(2, 0, 2), PENDING)
}

#[test]
fn saves_fail_as_planned(rt: HostRuntime) {
    let mut store = PlannedStable::new(MemoryStable::new(rt.alloc()));
    for (plan, wanted, rows) in [
        (Plan::Device, StoreFault::Device, 1),
        (Plan::Before, StoreFault::Unsure, 1),
        (Plan::After, StoreFault::Unsure, 2),
    ] {
        store.plan(1, plan);
        assert_eq!(rt; save(&mut store), Err(wanted));
        assert_eq!(rt; loaded(&mut store), rows);
    }
}

/// Has the third save from now fail, and no other.
#[test]
fn a_later_save_fails(rt: HostRuntime) {
    let mut store = PlannedStable::new(MemoryStable::new(rt.alloc()));
    store.plan(3, Plan::Device);
    for wanted in [Ok(()), Ok(()), Err(StoreFault::Device), Ok(())] {
        assert_eq!(rt; save(&mut store), wanted);
    }
}

/// Replaces a plan by another one, and takes it away.
#[test]
fn plans_are_replaced_and_taken_away(rt: HostRuntime) {
    let mut store = PlannedStable::new(MemoryStable::new(rt.alloc()));
    store.plan(1, Plan::Device);
    store.plan(2, Plan::Before);
    assert_eq!(rt; save(&mut store), Ok(()));
    assert_eq!(rt; save(&mut store), Err(StoreFault::Unsure));
    store.plan(1, Plan::After);
    store.unplan();
    assert_eq!(rt; save(&mut store), Ok(()));
    let mut below = store.into_inner();
    let rows = below.load().map_or(0, |list| list.len());
    assert_eq!(rt; rows, 1);
}
