//! The stations of a play over stores of one kind, whose saves fail if the schedule says so.

ghost use Rattle.std.specs.Prelude.{◌≡◌};

use super::store::Played;
use super::turn::{StationTurn, Turn};
use smi_protocol::{Answer, Event, Heard, OrderCode, StepFault, Told};
use smi_rows::{Plan, PlannedStable, SavedRow, Stable};
use smi_station::Station;
use smi_station_output::Out;
use smi_tree::Tree;
use std::alloc::Global;

pub(super) type PlayedStation<'a, S> = Station<'a, PlannedStable<S>>;

/// What was made of a station.
#[derive(Clone, Copy, PartialEq, Eq)]
pub(super) enum Made {
    /// What it has heard.
    Heard(Result<Heard, StepFault>),
    /// It has started, after it had heard this, if it had.
    Started(Option<Result<Heard, StepFault>>),
    /// It could not be started again.
    Lost,
}

/// Adds a station, which starts on an empty store, and returns whether it is there.
pub(super) fn add<'a, S: Played + Drop>(
    alloc: Global,
    tree: &'a Tree,
    number: u16,
    stations: &mut Vec<PlayedStation<'a, S>>,
) -> bool {
    let Ok(store) = S::empty(alloc) else {
        return false;
    };
    match Station::open(alloc, tree, number, PlannedStable::new(store)) {
        Ok(station) => stations.push(station).is_ok(),
        Err(_) => false,
    }
}

/// Answers an order whose row was not saved, if nothing else was handed out.
fn tell_not_stored(event: Event<'_>, out: &mut Out) {
    if !out.datagrams().is_empty() || !out.answers().is_empty() {
        return;
    }
    out.clear();
    if let Event::Order(operator, order) = event {
        out.answer(Answer {
            operator,
            told: Told {
                order,
                code: OrderCode::NotStored.code(),
                asked: None,
            },
            mark: None,
        });
    }
}

/// Has the event come, and the save of its step fail so.
fn fail<S: Played + Drop>(
    station: &mut PlayedStation<'_, S>,
    how: Plan,
    event: Event<'_>,
    out: &mut Out,
) -> Result<Heard, StepFault> {
    station.stable_mut().plan(1, how);
    let heard = station.step(event, out);
    station.stable_mut().unplan();
    if heard == Err(StepFault::NotStored) {
        tell_not_stored(event, out);
    }
    heard
}

/// Returns what a turn makes of a station; what it hands out is in `out` then.
pub(super) fn act<S: Played + Drop>(
    alloc: Global,
    station: &mut PlayedStation<'_, S>,
    turn: &Turn<'_>,
    out: &mut Out,
) -> Made {
    let before = match turn.doing {
        StationTurn::Come => return Made::Heard(station.step(turn.event, out)),
        StationTurn::Fail(how) => return Made::Heard(fail(station, how, turn.event, out)),
        StationTurn::StopAfter => Some(station.step(turn.event, out)),
        StationTurn::Start => None,
    };
    out.clear();
    match station.restart(alloc) {
        Ok(()) => Made::Started(before),
        Err(_) => Made::Lost,
    }
}

/// Returns the rows of a station's store.
pub(super) fn rows_of<S: Played + Drop>(
    station: &mut PlayedStation<'_, S>,
) -> Option<Vec<SavedRow>> {
    station.stable_mut().load().ok()
}
