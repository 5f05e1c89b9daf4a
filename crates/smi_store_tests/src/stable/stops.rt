//! A station over SQL on disks that stop after this many calls: what it answers fits the rows that the next open finds,
//! which are the old or the new ones, and a station that is opened on them goes on.

use super::disks::{FusedFiles, OnDisks, back, blank, copied};
use smi_grant::Holder;
use smi_protocol::{Event, Heard, OpenFault, StepFault};
use smi_rows::{SavedRow, Stable, StoreFault};
use smi_station::Station;
use smi_station_output::Out;
use smi_testkit::{BOOT, TAKEN, key};
use smi_tree::Tree;
use std::alloc::Global;
use std::test::Fail;

// Operator 2, at station 2, takes domain 1, which it last saw free at epoch 0.
const TAKE: [u8; 44] = [
    0x53, 0x4D, 1, 2, 0, 2, 0, 1, 0, 1, 1, 0, 0, 2, 0, 0, // to whom, and who takes
    0, 0, 0, 0, 0, 0, 0, 0, 0, 0, 0, 0, 0, 0, 0, 0x11, 0, 0, 0, 0, 0, 0, 0, 0, 0, 0, 0, 0,
];

// The boot 1 of a station; BOOT is its boot 2.
const FIRST: &[u8] = &[2, 0, 0, 0, 0, 0, 0, 1];

/// More calls than an open and a save make.
const MOST_CALLS: u64 = 1_000;

/// How an open and a step ended.
#[derive(Clone, Copy, PartialEq, Eq)]
enum End {
    /// The store was not opened.
    NoStore,
    /// The station was not opened.
    NotOpened(OpenFault),
    /// The domain was taken.
    Stepped(Result<Heard, StepFault>),
    /// The station was opened, and goes on if it was asked to.
    Opened,
    /// It does not go on.
    Wrong,
}

/// What rows are found.
#[derive(Clone, Copy, PartialEq, Eq)]
enum RowsFound {
    /// Boot 1.
    Before,
    /// Boot 2.
    Opened,
    /// Boot 2, and the domain is taken.
    Taken,
}

fn is_row(row: Option<&SavedRow>, domain: u16, bytes: &[u8]) -> bool {
    row.is_some_and(|row| row.key == key(1, domain, 0) && row.bytes.as_slice() == bytes)
}

/// Returns which rows these are, if they are any of those.
fn found_in(rows: &[SavedRow]) -> Option<RowsFound> {
    if rows.len() == 1 && is_row(rows.first(), 0, FIRST) {
        Some(RowsFound::Before)
    } else if rows.len() == 1 && is_row(rows.first(), 0, BOOT) {
        Some(RowsFound::Opened)
    } else if rows.len() == 2 && is_row(rows.first(), 0, BOOT) && is_row(rows.get(1), 1, TAKEN) {
        Some(RowsFound::Taken)
    } else {
        None
    }
}

/// Returns true if the rows may be found after that.
fn fits(end: End, found: RowsFound) -> bool {
    match end {
        End::NoStore => found == RowsFound::Before,
        End::NotOpened(OpenFault::Store(StoreFault::Unsure)) => found != RowsFound::Taken,
        End::Stepped(Ok(heard)) => heard == Heard::Done && found == RowsFound::Taken,
        End::Stepped(Err(StepFault::Stopped)) => found != RowsFound::Before,
        End::Stepped(Err(StepFault::NotStored)) => found == RowsFound::Opened,
        _ => false,
    }
}

/// Returns true if a station that was opened on these rows goes on: with the next boot, and with the domain as they
/// say.
fn is_going_on<S: Stable>(station: &mut Station<'_, S>, found: RowsFound) -> bool {
    let (boot, heard) = match found {
        RowsFound::Before => (2, Heard::Done),
        RowsFound::Opened => (3, Heard::Done),
        RowsFound::Taken => (3, Heard::Same),
    };
    let mut out = Out::new();
    let is_stepped = station.step(Event::Datagram(&TAKE), &mut out) == Ok(heard);
    let is_held = station.record(1).is_some_and(|record| record.epoch == 1
        && record.holder == Holder::Operator(2));
    station.boot() == boot && is_stepped && is_held && out.datagrams().len() == 1
}

/// What is done at a station that has opened.
#[derive(Clone, Copy)]
enum AfterOpen {
    Nothing,
    /// The domain is taken.
    Take,
    /// It goes on, with these rows.
    GoOn(RowsFound),
}

fn work_at<S: Stable>(station: &mut Station<'_, S>, work: AfterOpen) -> End {
    match work {
        AfterOpen::Nothing => End::Opened,
        AfterOpen::Take => End::Stepped(station.step(Event::Datagram(&TAKE), &mut Out::new())),
        AfterOpen::GoOn(found) => {
            if is_going_on(station, found) {
                End::Opened
            } else {
                End::Wrong
            }
        }
    }
}

// One function owns a station, because whatever owns one is expensive to prove.
fn at_station<S: OnDisks<Disks = FusedFiles>>(
    alloc: Global,
    tree: &Tree,
    store: S,
    work: AfterOpen,
) -> (End, FusedFiles) {
    match Station::open(alloc, tree, 1, store) {
        Ok(mut station) => {
            let end = work_at(&mut station, work);
            (end, station.into_stable().close())
        }
        Err((fault, store)) => (End::NotOpened(fault), store.close()),
    }
}

/// Does at a station over a store on these disks what is to be done.
fn on_disks<S: OnDisks<Disks = FusedFiles>>(
    alloc: Global,
    tree: &Tree,
    disks: FusedFiles,
    work: AfterOpen,
) -> (End, FusedFiles) {
    match S::open(alloc, disks) {
        Ok(store) => at_station(alloc, tree, store, work),
        Err(disks) => (End::NoStore, disks),
    }
}

/// Returns the rows of a store, if they are any of those and a station goes on over them.
fn found_over<S: OnDisks<Disks = FusedFiles>>(
    alloc: Global,
    tree: &Tree,
    store: S,
) -> Option<RowsFound> {
    let mut store = store;
    let found = store.load().ok().and_then(|rows| found_in(&rows));
    // Whatever was found, the store is given up there.
    let work = AfterOpen::GoOn(found.unwrap_or(RowsFound::Before));
    match at_station(alloc, tree, store, work) {
        (End::Opened, _) => found,
        _ => None,
    }
}

/// Returns the rows that the next open finds, once the machine is back.
fn rows_after<S: OnDisks<Disks = FusedFiles>>(
    alloc: Global,
    tree: &Tree,
    disks: FusedFiles,
) -> Option<RowsFound> {
    match S::open(alloc, back(disks)) {
        Ok(store) => found_over(alloc, tree, store),
        Err(_) => None,
    }
}

/// Returns the limits of the two disks: the log alone stops, the other file alone, or both.
fn limits(which: usize, calls: u64) -> (u64, u64) {
    match which {
        0 => (calls, u64::MAX),
        1 => (u64::MAX, calls),
        _ => (calls, calls),
    }
}

/// Returns how the run ends on copies of the disks that stop so, if the rows fit that.
fn end_of<S: OnDisks<Disks = FusedFiles>>(
    alloc: Global,
    tree: &Tree,
    disks: &FusedFiles,
    which: usize,
    calls: u64,
) -> Result<Option<End>, Fail> {
    let (log, db) = limits(which, calls);
    let copies = copied(alloc, disks, log, db)?;
    let (end, left) = on_disks::<S>(alloc, tree, copies, AfterOpen::Take);
    let found = rows_after::<S>(alloc, tree, left);
    Ok(if found.is_some_and(|rows| fits(end, rows)) {
        Some(end)
    } else {
        None
    })
}

/// How often the station was not opened, and how often it stopped, before a run ended.
#[derive(Clone, Copy)]
struct StopCounts {
    not_opened: u64,
    stopped: u64,
}

/// Counts the calls upwards until a run ends.
fn count_ends<S: OnDisks<Disks = FusedFiles>>(
    alloc: Global,
    tree: &Tree,
    disks: &FusedFiles,
    which: usize,
) -> Result<Option<StopCounts>, Fail> {
    let mut counts = StopCounts {
        not_opened: 0,
        stopped: 0,
    };
    for calls in 0..MOST_CALLS {
        match end_of::<S>(alloc, tree, disks, which, calls)? {
            None => return Ok(None),
            Some(End::NoStore | End::Opened | End::Wrong) => {}
            Some(End::NotOpened(_)) => counts.not_opened = counts.not_opened.wrapping_add(1),
            Some(End::Stepped(Ok(_))) => return Ok(Some(counts)),
            Some(End::Stepped(Err(_))) => counts.stopped = counts.stopped.wrapping_add(1),
        }
    }
    Ok(None)
}

/// Returns whether all runs on copies of the disks fit, and enough of them stopped: the log is written by each save,
/// the other file need not be.
fn fit_on<S: OnDisks<Disks = FusedFiles>>(
    alloc: Global,
    tree: &Tree,
    disks: &FusedFiles,
) -> Result<bool, Fail> {
    let has_both = |counts: StopCounts| counts.not_opened > 0 && counts.stopped > 0;
    let log = count_ends::<S>(alloc, tree, disks, 0)?;
    let other = count_ends::<S>(alloc, tree, disks, 1)?;
    let both = count_ends::<S>(alloc, tree, disks, 2)?;
    Ok(log.is_some_and(has_both) && other.is_some() && both.is_some_and(has_both))
}

/// Returns whether all runs fit, over the worked tree.
pub(super) fn all_fit<S: OnDisks<Disks = FusedFiles>>(
    alloc: Global,
    tree: &Tree,
) -> Result<bool, Fail> {
    match on_disks::<S>(alloc, tree, blank(alloc), AfterOpen::Nothing) {
        (End::Opened, disks) => fit_on::<S>(alloc, tree, &disks),
        _ => Ok(false),
    }
}
