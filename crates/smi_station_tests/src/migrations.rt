//! Migrations of rows of older schemas, also such that stop in the middle (docs/FORMATS.md, "Stable rows"): how many
//! rows were saved again, what the rows are then, and that another one saves the rest, and a third nothing.

use crate::starts::{BOOT_1, HELD_1, HELD_2, SHORT_1, StoredRows, TAKEN_1, filled, has, rows_of};
use crate::tables;
use crate::tables::{A, B, Store, Table};
use smi_protocol::OpenFault;
use smi_rows::{Plan, StoreFault};
use smi_station::migrate;
use smi_testkit::{BOOT, HELD, TAKEN, key};
use smi_tree::Tree;
use std::alloc::Global;
use std::test::Fail;

type MigrationResult = Result<u32, OpenFault>;

/// Migrations of a station's rows: the first, whose save of this number fails so, and a second.
#[derive(Clone, Copy)]
struct MigrationCase {
    station: u16,
    fails: Option<(u64, Plan)>,
    before: StoredRows,
    first: MigrationResult,
    between: StoredRows,
    second: MigrationResult,
    after: StoredRows,
}

/// Returns migrations of which none fails.
fn whole(station: u16, before: StoredRows, count: u32, after: StoredRows) -> MigrationCase {
    MigrationCase {
        station,
        fails: None,
        before,
        first: Ok(count),
        between: after,
        second: Ok(0),
        after,
    }
}

/// Returns migrations that are refused.
fn refused(station: u16, rows: StoredRows, fault: OpenFault) -> MigrationCase {
    MigrationCase {
        station,
        fails: None,
        before: rows,
        first: Err(fault),
        between: rows,
        second: Err(fault),
        after: rows,
    }
}

/// Returns migrations of station A's rows of schema 1, of which the first stops.
fn stopped(
    nth: u64,
    plan: Plan,
    fault: StoreFault,
    between: StoredRows,
    left: u32,
) -> MigrationCase {
    MigrationCase {
        station: A,
        fails: Some((nth, plan)),
        before: rows_of(BOOT_1, TAKEN_1, HELD_1),
        first: Err(OpenFault::Store(fault)),
        between,
        second: Ok(left),
        after: rows_of(BOOT, TAKEN, HELD_1),
    }
}

fn cases() -> [MigrationCase; 11] {
    let none = rows_of(BOOT_1, TAKEN_1, HELD_1);
    let one = rows_of(BOOT, TAKEN_1, HELD_1);
    let both = rows_of(BOOT, TAKEN, HELD_1);
    let short = rows_of(BOOT_1, SHORT_1, HELD_1);
    let second = rows_of(BOOT, TAKEN, HELD_2);
    [
        whole(A, none, 2, both),
        whole(B, none, 1, rows_of(BOOT_1, TAKEN_1, HELD)),
        // Rows of schema 2: those of station A are in their newest, the operator's is not.
        whole(A, second, 0, second),
        whole(B, second, 1, rows_of(BOOT, TAKEN, HELD)),
        stopped(1, Plan::Device, StoreFault::Device, none, 2),
        stopped(1, Plan::After, StoreFault::Unsure, one, 1),
        stopped(2, Plan::Device, StoreFault::Device, one, 1),
        stopped(2, Plan::Before, StoreFault::Unsure, one, 1),
        stopped(2, Plan::After, StoreFault::Unsure, both, 0),
        // The fault of a later row is found before the first is saved.
        refused(A, short, OpenFault::Row(key(A, 1, 0), 1)),
        refused(3, short, OpenFault::NoSuchStation),
    ]
}

/// Returns true if a case comes out as told at a store that has its rows.
fn is_so(alloc: Global, tree: &Tree, store: &mut Store, case: &MigrationCase) -> bool {
    if let Some((nth, plan)) = case.fails {
        if nth > 0 {
            store.plan(nth, plan);
        }
    }
    let first = migrated(alloc, tree, store, case.station);
    let is_between = has(store, case.between);
    let second = migrated(alloc, tree, store, case.station);
    let is_after = has(store, case.after);
    let third = migrated(alloc, tree, store, case.station);
    let is_last = third == Ok(0) || third == case.second;
    first == case.first && second == case.second && is_between && is_after && is_last
}

fn migrated(alloc: Global, tree: &Tree, store: &mut Store, station: u16) -> MigrationResult {
    migrate(alloc, tree, station, store)
}

fn is_as_told(alloc: Global, tree: &Tree, case: &MigrationCase) -> bool {
    let mut store = filled(alloc, case.before);
    is_so(alloc, tree, &mut store, case)
}

/// Returns how many cases, from the first on, come out as told.
pub(crate) fn count_of(alloc: Global, tree: &Tree) -> usize {
    let mut good = 0;
    for case in &cases() {
        if !is_as_told(alloc, tree, case) {
            return good;
        }
        good = good.wrapping_add(1);
    }
    good
}

#[test]
fn migrations_that_stop(rt: HostRuntime) -> Result<(), Fail> {
    let good = tables::count_of(rt.alloc(), Table::Migrations);
    assert_eq!(rt; good, 11);
    Ok(())
}
