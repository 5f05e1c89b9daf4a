//! Starts over a store in memory.

use crate::tables;
use crate::tables::{A, B, Store, Table, Tried, blank, rows_in};
use smi_grant::Holder;
use smi_protocol::OpenFault;
use smi_rows::{Key, SavedRow, Stable};
use smi_station::Station;
use smi_testkit::{BOOT, HELD, TAKEN, key};
use smi_tree::Tree;
use std::alloc::Global;
use std::test::Fail;

// The boot 2 of a station in the first schema.
pub(crate) const BOOT_1: &[u8] = &[1, 0, 0, 0, 0, 0, 0, 2];

// The next boot, and the last that there is.
const NEXT: &[u8] = &[2, 0, 0, 0, 0, 0, 0, 3];

const LAST: &[u8] = &[2, 0, 0, 0, 0xEE, 0x6B, 0x28, 0x00];

// BOB holds DCS at epoch 1: in the first schema.
pub(crate) const TAKEN_1: &[u8] = &[
    1, 1, 0, 2, 0, 0, 0, 0, 0, 0, 0, 1, 0, 0, 0, 0, 0, 0, 0, 0, 0, 0, 0, 0,
];

// The same in the newest schema, without its last byte.
const SHORT: &[u8] = &[
    2, 1, 0, 2, 0, 0, 0, 0, 0, 0, 0, 1, 0, 0, 0, 0, 0, 0, 0, 0, 0, 0, 0,
];

// The same of the first schema.
pub(crate) const SHORT_1: &[u8] = &[
    1, 1, 0, 2, 0, 0, 0, 0, 0, 0, 0, 1, 0, 0, 0, 0, 0, 0, 0, 0, 0, 0, 0,
];

// BOB holds TPC at epoch 1, and no command is issued: in the second schema, and in the first.
pub(crate) const HELD_2: &[u8] = &[
    2, 0, 0, 1, 0, 2, 2, 0, 0, 0, 0, 0, 0, 0, 0, 1, 0, 0, 0, 0, 0, 0, 0, 0,
];

pub(crate) const HELD_1: &[u8] = &[
    1, 0, 0, 1, 0, 2, 2, 0, 0, 0, 0, 0, 0, 0, 0, 1, 0, 0, 0, 0, 0, 0, 0, 0,
];

pub(crate) type StoredRows = [(Key, &'static [u8]); 3];

pub(crate) fn rows_of(
    boot: &'static [u8],
    domain: &'static [u8],
    operator: &'static [u8],
) -> StoredRows {
    [
        (key(A, 0, 0), boot),
        (key(A, 1, 0), domain),
        (key(B, 0, 2), operator),
    ]
}

/// Returns a store with these rows. One that memory was refused for has fewer, so that nothing comes out as told.
pub(crate) fn filled(alloc: Global, rows: StoredRows) -> Store {
    let mut store = blank(alloc);
    for (key, bytes) in rows {
        let _ = store.save(key, bytes);
    }
    store
}

fn are(list: &[SavedRow], rows: StoredRows) -> bool {
    list.len() == 3
        && list.iter().zip(rows).all(|(row, wanted)| row.key == wanted.0
            && row.bytes.as_slice() == wanted.1)
}

/// Returns true if the store has these rows and no other.
pub(crate) fn has(store: &mut Store, rows: StoredRows) -> bool {
    match rows_in(store) {
        Ok(list) => are(&list, rows),
        Err(_) => false,
    }
}

/// The boot of a station, and who holds DCS there; or why it does not start.
type StartResult = Result<(u32, Option<Holder>), OpenFault>;

fn told(station: &Tried<'_>) -> StartResult {
    Ok((
        station.boot(),
        station.record(1).map(|record| record.holder),
    ))
}

/// Returns how a start at a store ends, and the store then.
fn started(alloc: Global, tree: &Tree, station: u16, store: Store) -> (StartResult, Store) {
    match Station::open(alloc, tree, station, store) {
        Ok(station) => (told(&station), station.into_stable()),
        Err((fault, store)) => (Err(fault), store),
    }
}

/// A station, the rows of its store before and after the start, and how it ends.
type Start = (u16, StoredRows, StoredRows, StartResult);

fn starts() -> [Start; 7] {
    let rows = rows_of(BOOT, TAKEN, HELD);
    let last = rows_of(LAST, TAKEN, HELD);
    let short = rows_of(BOOT, SHORT, HELD);
    [
        (
            A,
            rows,
            rows_of(NEXT, TAKEN, HELD),
            Ok((3, Some(Holder::Operator(2)))),
        ),
        (
            A,
            rows_of(BOOT_1, TAKEN_1, HELD),
            rows_of(NEXT, TAKEN_1, HELD),
            Ok((3, Some(Holder::Operator(2)))),
        ),
        // A migration has stopped after the boot.
        (
            A,
            rows_of(BOOT, TAKEN_1, HELD),
            rows_of(NEXT, TAKEN_1, HELD),
            Ok((3, Some(Holder::Operator(2)))),
        ),
        (
            A,
            rows_of(BOOT, TAKEN, SHORT),
            rows_of(NEXT, TAKEN, SHORT),
            Ok((3, Some(Holder::Operator(2)))),
        ),
        (A, last, last, Err(OpenFault::BootsSpent)),
        (A, short, short, Err(OpenFault::Row(key(A, 1, 0), 1))),
        (3, short, short, Err(OpenFault::NoSuchStation)),
    ]
}

/// Returns true if a start comes out as told.
fn is_as_told(alloc: Global, tree: &Tree, case: Start) -> bool {
    let (station, before, after, wanted) = case;
    let (outcome, mut store) = started(alloc, tree, station, filled(alloc, before));
    outcome == wanted && has(&mut store, after)
}

/// Returns how many starts, from the first on, come out as told.
pub(crate) fn count_of(alloc: Global, tree: &Tree) -> usize {
    let mut good = 0;
    for case in starts() {
        if !is_as_told(alloc, tree, case) {
            return good;
        }
        good = good.wrapping_add(1);
    }
    good
}

#[test]
fn starts_over_rows(rt: HostRuntime) -> Result<(), Fail> {
    let good = tables::count_of(rt.alloc(), Table::Starts);
    assert_eq!(rt; good, 7);
    Ok(())
}
