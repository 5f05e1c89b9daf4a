//! The tables that these tests go over, and the trees, stations and stores that they are gone over with.
//!
//! Each place that drops one of those is expensive to prove. So one function owns each, and what is tested
//! is in functions over references. For the same reason a station is asked for a step in one place.

use crate::{bytes, migrations, plays, refusals, starts};
use smi_protocol::{Event, Heard, StepFault};
use smi_rows::{MemoryStable, PlannedStable, SavedRow, Stable, StoreFault};
use smi_station::Station;
use smi_station_output::Out;
use smi_testkit::WORKED;
use smi_tree::Tree;
use std::alloc::Global;

/// One operator, and eighteen domains of the first station.
const CROWD: &[u8] =
    b"tree 17\nstate OFF\naction GO\nstation A 127.0.0.1:9001\nstation B 127.0.0.1:9002\noperator ANN A\nunitclass UNIT OFF\ndomain N1 A UNIT -\ndomain N2 A UNIT -\ndomain N3 A UNIT -\ndomain N4 A UNIT -\ndomain N5 A UNIT -\ndomain N6 A UNIT -\ndomain N7 A UNIT -\ndomain N8 A UNIT -\ndomain N9 A UNIT -\ndomain N10 A UNIT -\ndomain N11 A UNIT -\ndomain N12 A UNIT -\ndomain N13 A UNIT -\ndomain N14 A UNIT -\ndomain N15 A UNIT -\ndomain N16 A UNIT -\ndomain N17 A UNIT -\ndomain N18 A UNIT -\n";

pub(crate) const A: u16 = 1;

pub(crate) const B: u16 = 2;

pub(crate) const ANN: u16 = 1;

pub(crate) const BOB: u16 = 2;

pub(crate) const DCS: u16 = 1;

pub(crate) const TPC: u16 = 2;

pub(crate) const CONFIGURE: u16 = 1;

pub(crate) const START: u16 = 2;

pub(crate) const READY: u16 = 2;

pub(crate) type Bytes = [u8; 44];

pub(crate) type Store = PlannedStable<MemoryStable>;

pub(crate) type Tried<'a> = Station<'a, Store>;

/// A table, each row of which says what comes, and what has to be made of it.
#[derive(Clone, Copy, PartialEq, Eq)]
pub(crate) enum Table {
    Configured,
    TakenAndDropped,
    Sent,
    Saved,
    Datagrams,
    Orders,
    Saves,
    Crowd,
    Starts,
    Migrations,
}

/// Returns how many rows of a table, from the first on, come out as told; none if its tree is refused or no station
/// opens.
pub(crate) fn count_of(alloc: Global, table: Table) -> usize {
    let text = if table == Table::Crowd { CROWD } else { WORKED };
    match Tree::read(alloc, text) {
        Ok(tree) => over_tree(alloc, &tree, table),
        Err(_) => 0,
    }
}

fn over_tree(alloc: Global, tree: &Tree, table: Table) -> usize {
    match table {
        Table::Starts => starts::count_of(alloc, tree),
        Table::Migrations => migrations::count_of(alloc, tree),
        _ => with_a(alloc, tree, table),
    }
}

fn with_a(alloc: Global, tree: &Tree, table: Table) -> usize {
    match Station::open(alloc, tree, A, blank(alloc)) {
        Ok(mut a) => with_b(alloc, tree, &mut a, table),
        Err(_) => 0,
    }
}

fn with_b(alloc: Global, tree: &Tree, a: &mut Tried<'_>, table: Table) -> usize {
    match Station::open(alloc, tree, B, blank(alloc)) {
        Ok(mut b) => with_out(alloc, a, &mut b, table),
        Err(_) => 0,
    }
}

fn with_out(alloc: Global, a: &mut Tried<'_>, b: &mut Tried<'_>, table: Table) -> usize {
    let mut out = Out::new();
    at_both(alloc, a, b, &mut out, table)
}

fn at_both(
    alloc: Global,
    a: &mut Tried<'_>,
    b: &mut Tried<'_>,
    out: &mut Out,
    table: Table,
) -> usize {
    match table {
        Table::Configured => plays::of_configured(alloc, a, b, out),
        Table::TakenAndDropped => plays::of_dropped(alloc, a, b, out),
        Table::Sent => plays::count_of(alloc, a, b, out, &bytes::sent()),
        Table::Saved => plays::count_of(alloc, a, b, out, &bytes::saved()),
        Table::Datagrams => refusals::count_of(alloc, a, out, &refusals::of_datagrams()),
        Table::Orders => refusals::count_of(alloc, b, out, &refusals::of_orders()),
        Table::Saves => refusals::count_of(alloc, b, out, &refusals::of_saves()),
        Table::Crowd => refusals::of_crowd(alloc, a, out),
        Table::Starts | Table::Migrations => 0,
    }
}

/// Returns a store that is empty, and fails at no save unless it is told to.
pub(crate) fn blank(alloc: Global) -> Store {
    PlannedStable::new(MemoryStable::new(alloc))
}

pub(crate) fn step(
    station: &mut Tried<'_>,
    out: &mut Out,
    event: Event<'_>,
) -> Result<Heard, StepFault> {
    station.step(event, out)
}

/// Returns the rows of a store, by rising key.
pub(crate) fn rows_in(store: &mut Store) -> Result<Vec<SavedRow>, StoreFault> {
    store.load()
}
