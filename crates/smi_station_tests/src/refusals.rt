//! Each refusal of a datagram and of an order, and each fault of a step whose save fails (docs/PROTOCOL.md,
//! "Refusals", "Orders" and "A step"): nothing is handed out but the answer, and no row changes.

use crate::bytes::TAKE;
use crate::tables;
use crate::tables::{A, ANN, BOB, CONFIGURE, DCS, TPC, Table, Tried, rows_in, step};
use smi_protocol::{Event, Heard, Order, StepFault};
use smi_rows::{Key, Plan, SavedRow, Stable};
use smi_station_output::Out;
use std::alloc::{AllocError, Global};
use std::test::Fail;

/// An event of a station.
#[derive(Clone, Copy)]
pub(crate) enum RefusedInput {
    /// The take of "A take".
    Take,
    /// The same with another byte at this place.
    Changed(usize, u8),
    /// The same without its last byte.
    Short,
    Order(u16, Order),
    /// The same order, whose save fails so.
    Failing(Plan, u16, Order),
    Tick,
    /// The station is started again.
    Restart,
}

/// What a station makes of that.
#[derive(Clone, Copy)]
pub(crate) enum Wanted {
    Refused(u16),
    /// Nothing is saved.
    Fault(StepFault),
    /// A row is saved all the same.
    Saved(StepFault),
    /// A row is saved, and this many datagrams are sent.
    Done(usize),
    /// Nothing is saved, and this many are sent.
    Same(usize),
}

pub(crate) type RefusalRow = (RefusedInput, Wanted);

/// Returns the rows of a datagram, in the order in which the tests are made.
pub(crate) fn of_datagrams() -> [RefusalRow; 17] {
    [
        (RefusedInput::Short, Wanted::Refused(1)),
        (RefusedInput::Changed(0, 0x54), Wanted::Refused(2)),
        (RefusedInput::Changed(2, 3), Wanted::Refused(3)),
        (RefusedInput::Changed(3, 9), Wanted::Refused(4)),
        // Nobody takes; no domain; no station.
        (RefusedInput::Changed(10, 0), Wanted::Refused(5)),
        (RefusedInput::Changed(9, 0), Wanted::Refused(5)),
        (RefusedInput::Changed(5, 0), Wanted::Refused(5)),
        (RefusedInput::Changed(43, 1), Wanted::Refused(6)),
        (RefusedInput::Changed(31, 18), Wanted::Refused(7)),
        (RefusedInput::Changed(7, 2), Wanted::Refused(8)),
        // A domain of another keeper, and none of the tree.
        (RefusedInput::Changed(9, 2), Wanted::Refused(9)),
        (RefusedInput::Changed(9, 3), Wanted::Refused(9)),
        // Another station than the operator's, and none of the tree; no such operator.
        (RefusedInput::Changed(5, 1), Wanted::Refused(9)),
        (RefusedInput::Changed(5, 3), Wanted::Refused(9)),
        (RefusedInput::Changed(13, 3), Wanted::Refused(9)),
        (RefusedInput::Take, Wanted::Done(1)),
        (RefusedInput::Take, Wanted::Same(1)),
    ]
}

/// Returns the rows of an operator who holds nothing, and then takes TPC.
pub(crate) fn of_orders() -> [RefusalRow; 12] {
    let take = Order::Take(TPC);
    [
        (RefusedInput::Order(ANN, take), Wanted::Refused(26)),
        (RefusedInput::Order(3, take), Wanted::Refused(26)),
        (
            RefusedInput::Order(BOB, Order::Take(3)),
            Wanted::Refused(26),
        ),
        (
            RefusedInput::Order(BOB, Order::Do(TPC, 4)),
            Wanted::Refused(26),
        ),
        (
            RefusedInput::Order(BOB, Order::Include(TPC, 3)),
            Wanted::Refused(26),
        ),
        (
            RefusedInput::Order(BOB, Order::Watch(4)),
            Wanted::Refused(26),
        ),
        (
            RefusedInput::Order(BOB, Order::Drop(TPC)),
            Wanted::Refused(21),
        ),
        (
            RefusedInput::Order(BOB, Order::Do(TPC, CONFIGURE)),
            Wanted::Refused(21),
        ),
        (RefusedInput::Order(BOB, take), Wanted::Done(1)),
        (RefusedInput::Order(BOB, take), Wanted::Refused(23)),
        (
            RefusedInput::Order(BOB, Order::Drop(TPC)),
            Wanted::Refused(21),
        ),
        (RefusedInput::Order(BOB, Order::Ask(DCS)), Wanted::Same(1)),
    ]
}

/// Returns the rows of an operator who holds the first domain with the last number used and the second with eight
/// commands pending, and takes the next fourteen.
fn of_a_crowd() -> [RefusalRow; 10] {
    [
        (RefusedInput::Order(1, Order::Do(1, 1)), Wanted::Refused(24)),
        (RefusedInput::Order(1, Order::Do(2, 1)), Wanted::Refused(22)),
        (RefusedInput::Order(1, Order::Drop(2)), Wanted::Refused(22)),
        (RefusedInput::Order(1, Order::Take(17)), Wanted::Refused(25)),
        // 23 comes before 25, and 26 before both.
        (RefusedInput::Order(1, Order::Take(1)), Wanted::Refused(23)),
        (RefusedInput::Order(1, Order::Take(19)), Wanted::Refused(26)),
        (RefusedInput::Order(1, Order::Do(3, 1)), Wanted::Refused(21)),
        // A domain that is given back is not out yet.
        (RefusedInput::Order(1, Order::Drop(1)), Wanted::Done(1)),
        (RefusedInput::Order(1, Order::Take(17)), Wanted::Refused(25)),
        (RefusedInput::Tick, Wanted::Same(23)),
    ]
}

/// Returns the rows of an order whose save fails, and of what comes then.
pub(crate) fn of_saves() -> [RefusalRow; 14] {
    let (take, drop) = (Order::Take(TPC), Order::Drop(TPC));
    let stopped = Wanted::Fault(StepFault::Stopped);
    [
        (
            RefusedInput::Failing(Plan::Device, BOB, take),
            Wanted::Fault(StepFault::NotStored),
        ),
        (RefusedInput::Failing(Plan::Before, BOB, take), stopped),
        (RefusedInput::Order(BOB, take), stopped),
        (RefusedInput::Order(ANN, take), stopped),
        (RefusedInput::Tick, stopped),
        (RefusedInput::Short, stopped),
        (RefusedInput::Restart, Wanted::Done(0)),
        // Nothing was saved, so that nothing is taken.
        (RefusedInput::Order(BOB, drop), Wanted::Refused(21)),
        (
            RefusedInput::Failing(Plan::After, BOB, take),
            Wanted::Saved(StepFault::Stopped),
        ),
        (RefusedInput::Order(BOB, drop), stopped),
        (RefusedInput::Restart, Wanted::Done(0)),
        // It was saved: the domain is being taken.
        (RefusedInput::Order(BOB, take), Wanted::Refused(23)),
        // A refused order saves nothing, so that no save fails.
        (
            RefusedInput::Failing(Plan::Before, BOB, take),
            Wanted::Refused(23),
        ),
        (RefusedInput::Order(BOB, drop), Wanted::Refused(21)),
    ]
}

/// Takes in the bytes of the take, with what the input changes of them.
fn read(station: &mut Tried<'_>, out: &mut Out, input: RefusedInput) -> Result<Heard, StepFault> {
    let mut bytes = TAKE;
    if let RefusedInput::Changed(place, value) = input {
        if let Some(byte) = bytes.get_mut(place) {
            *byte = value;
        }
    }
    let length = if matches!(input, RefusedInput::Short) {
        43
    } else {
        44
    };
    step(station, out, Event::Datagram(&bytes[..length]))
}

fn restart(alloc: Global, station: &mut Tried<'_>, out: &mut Out) -> Result<Heard, StepFault> {
    out.clear();
    match station.restart(alloc) {
        Ok(()) => Ok(Heard::Done),
        Err(_) => Err(StepFault::Stopped),
    }
}

fn fail(station: &mut Tried<'_>, plan: Plan) {
    station.stable_mut().plan(1, plan);
}

fn fail_no_more(station: &mut Tried<'_>) {
    station.stable_mut().unplan();
}

/// Takes in the input.
fn come(
    alloc: Global,
    station: &mut Tried<'_>,
    out: &mut Out,
    input: RefusedInput,
) -> Result<Heard, StepFault> {
    match input {
        RefusedInput::Take | RefusedInput::Changed(_, _) | RefusedInput::Short => read(
            station, out, input,
        ),
        RefusedInput::Order(operator, what) => step(station, out, Event::Order(operator, what)),
        RefusedInput::Failing(plan, operator, what) => {
            fail(station, plan);
            let heard = step(station, out, Event::Order(operator, what));
            fail_no_more(station);
            heard
        }
        RefusedInput::Tick => step(station, out, Event::Tick),
        RefusedInput::Restart => restart(alloc, station, out),
    }
}

/// Returns true if the one answer is this code to the operator who ordered, and there is none to bytes.
fn is_answered(out: &Out, input: RefusedInput, code: u16) -> bool {
    let answers = out.answers();
    match input {
        RefusedInput::Order(operator, what) | RefusedInput::Failing(_, operator, what) => {
            answers.len() == 1
                && answers.iter().all(|it| it.operator == operator
                    && it.told.order == what
                    && it.told.code == code)
        }
        _ => answers.is_empty(),
    }
}

/// Returns true if the input came out as wanted, with the rows are as before or not.
fn is_so(row: RefusalRow, heard: Result<Heard, StepFault>, out: &Out, are_as_before: bool) -> bool {
    let sent = out.datagrams().len();
    match row.1 {
        Wanted::Refused(code) => {
            heard == Ok(Heard::Refused(code))
                && sent == 0
                && is_answered(out, row.0, code)
                && are_as_before
        }
        Wanted::Fault(fault) => {
            heard == Err(fault) && sent == 0 && out.answers().is_empty() && are_as_before
        }
        Wanted::Saved(fault) => {
            heard == Err(fault) && sent == 0 && out.answers().is_empty() && !are_as_before
        }
        Wanted::Done(count) => heard == Ok(Heard::Done) && sent == count && !are_as_before,
        Wanted::Same(count) => heard == Ok(Heard::Same) && sent == count && are_as_before,
    }
}

fn are_same(one: &[SavedRow], other: &[SavedRow]) -> bool {
    one.len() == other.len()
        && one.iter().zip(other).all(|(a, b)| a.key == b.key
            && a.bytes.as_slice() == b.bytes.as_slice())
}

/// Returns true if a row comes out as wanted at a station that has these rows.
fn is_as_wanted(
    alloc: Global,
    station: &mut Tried<'_>,
    out: &mut Out,
    before: &[SavedRow],
    row: RefusalRow,
) -> bool {
    let heard = come(alloc, station, out, row.0);
    match rows_in(station.stable_mut()) {
        Ok(after) => is_so(row, heard, out, are_same(before, &after)),
        Err(_) => false,
    }
}

fn is_good(alloc: Global, station: &mut Tried<'_>, out: &mut Out, row: RefusalRow) -> bool {
    match rows_in(station.stable_mut()) {
        Ok(before) => is_as_wanted(alloc, station, out, &before, row),
        Err(_) => false,
    }
}

/// Returns how many rows, from the first on, come out as wanted.
pub(crate) fn count_of(
    alloc: Global,
    station: &mut Tried<'_>,
    out: &mut Out,
    rows: &[RefusalRow],
) -> usize {
    let mut good = 0;
    for row in rows {
        if !is_good(alloc, station, out, *row) {
            return good;
        }
        good = good.wrapping_add(1);
    }
    good
}

/// Returns the row of the operator of the crowd.
fn crowded(alloc: Global) -> Result<Vec<u8>, AllocError> {
    let mut row = Vec::new(alloc);
    row.extend_from_slice(&[3, 0, 0, 16])?;
    // The first domain, held at epoch 1, of which command 1,000,000 was the last.
    row.extend_from_slice(&[
        0, 1, 2, 0, 0, 0, 0, 0, 0, 0, 0, 1, 0, 0x0F, 0x42, 0x40, 0, 0, 0, 0,
    ])?;
    // The second, held at epoch 1, with the commands 1 to 8 pending.
    row.extend_from_slice(&[
        0, 2, 5, 0, 0, 0, 0, 0, 0, 0, 0, 1, 0, 0, 0, 8, 0, 1, 0, 1, 0, 7,
    ])?;
    for _ in 0..7 {
        row.extend_from_slice(&[0, 1, 0, 1])?;
    }
    for domain in 3..17 {
        row.extend_from_slice(&[0, domain, 1, 0])?;
        row.extend_from_slice(&[0; 16])?;
    }
    Ok(row)
}

/// Starts the station again with the row of the operator of the crowd.
fn crowd(alloc: Global, station: &mut Tried<'_>, row: &[u8]) -> bool {
    let key = Key {
        station: A,
        domain: 0,
        operator: 1,
    };
    station.stable_mut().save(key, row).is_ok() && station.restart(alloc).is_ok()
}

pub(crate) fn of_crowd(alloc: Global, station: &mut Tried<'_>, out: &mut Out) -> usize {
    let is_there = match crowded(alloc) {
        Ok(row) => crowd(alloc, station, row.as_slice()),
        Err(_) => false,
    };
    if is_there {
        count_of(alloc, station, out, &of_a_crowd())
    } else {
        0
    }
}

#[test]
fn refusals_and_faults(rt: HostRuntime) -> Result<(), Fail> {
    let good = [
        tables::count_of(rt.alloc(), Table::Datagrams),
        tables::count_of(rt.alloc(), Table::Orders),
        tables::count_of(rt.alloc(), Table::Saves),
        tables::count_of(rt.alloc(), Table::Crowd),
    ];
    assert_eq!(rt; good, [17, 12, 14, 10]);
    Ok(())
}
