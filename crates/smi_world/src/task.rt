//! What an item makes, and at which station.

ghost use Rattle.std.specs.Prelude.{◌≡◌, IfSome, Some, true, option_map};
ghost use Rattle.smi_tree.specs.Hierarchy.{Hierarchy};
ghost use Rattle.smi_tree.specs.Lawful.{IsBetween};
ghost use Rattle.smi_tree.specs.Lookups.{station_count};
ghost use Rattle.smi_protocol.specs.Schedule as schedule;
ghost use Rattle.smi_protocol.specs.Schedule.{World};
ghost use Rattle.smi_world.specs.Coming.{arrival_in};
ghost use Rattle.smi_schedule.specs.Naming.{has_item};
ghost use Rattle.smi_protocol.specs.declared.item.Item.{Item as ItemValue};
ghost use Rattle.smi_protocol.specs.declared.item.Moment.TheVariants.{After};
ghost use Rattle.smi_world.specs.Tasks.{IsStopOf, StopsFor, turn_of};

use crate::coming::{Arrival, Coming, arrival_of};
use smi_message::Datagram;
use smi_protocol::{Item, Moment};
use smi_rows::Plan;
use smi_tree::Tree;

/// What is made of a station.
#[derive(Clone, Copy)]
pub(crate) enum Doing {
    /// Something comes.
    Come(Coming),
    /// It starts again.
    Start,
    /// It stops after the save of the step that this brings about, and starts again.
    StopAfter(Coming),
    /// The save of the step that this brings about fails so.
    Fail(Plan, Coming),
}

/// What is made, and at which station.
#[derive(Clone, Copy)]
pub(crate) struct Task {
    pub station: u16,
    pub doing: Doing,
}

/// Returns that something comes, if anything does.
fn comes(arrival: Option<Arrival>) -> Option<Task>
    ensures task { (h : Hierarchy) (w : World)
        → turn_of h w result ≡ schedule.done_by h w (option_map arrival_in arrival) }
    ensures station { option_map (λ t. t.station) result ≡ option_map (λ a. a.station) arrival }
    ensures stop { (h : Hierarchy) (w : World) (x : ItemValue) → IfSome result (λ t. IsStopOf h w x t.station t.doing) }
{
    match arrival {
        Some(Arrival { station, what }) => Some(Task {
            station,
            doing: Doing::Come(what),
        }),
        None => None,
    }
}

/// Returns what reaches this station, if anything does.
fn coming_to(station: u16, arrival: Option<Arrival>) -> Option<Coming>
    ensures { result ≡ what_comes_to station arrival }
{
    match arrival {
        Some(arrival) if arrival.station == station => Some(arrival.what),
        _ => None,
    }
}

ghost use Rattle.smi_world.specs.Coming.{what_comes_to};

/// Stops a station after its save, or starts it again if it makes no step.
fn stops_after(station: u16, arrival: Option<Arrival>) -> Task
    ensures task { (h : Hierarchy) (w : World)
        → turn_of h w (Some result) ≡ schedule.stopped_behind h w station (option_map arrival_in arrival) }
    ensures station { result.station ≡ station }
    ensures stop { StopsFor station After (option_map arrival_in arrival) result.doing }
{
    let doing = match coming_to(station, arrival) {
        Some(what) => Doing::StopAfter(what),
        None => Doing::Start,
    };
    Task { station, doing }
}

/// Has a station start again; if the moment is after the save, the step is made up to it.
fn stops(station: u16, moment: Moment, arrival: Option<Arrival>) -> Task
    ensures task { (h : Hierarchy) (w : World)
        → turn_of h w (Some result) ≡ stopped_at h w station moment (option_map arrival_in arrival) }
    ensures station { result.station ≡ station }
    ensures stop { StopsFor station moment (option_map arrival_in arrival) result.doing }
{
    match moment {
        Moment::Before => Task {
            station,
            doing: Doing::Start,
        },
        Moment::After => stops_after(station, arrival),
    }
}

ghost use Rattle.smi_world.specs.Tasks.{stopped_at};

/// Has a station's save fail, if it makes a step.
fn fails(station: u16, how: Plan, arrival: Option<Arrival>) -> Option<Task>
    ensures task { (h : Hierarchy) (w : World)
        → turn_of h w result ≡ schedule.failing h w station (option_map arrival_in arrival) how }
    ensures station { IfSome result (λ t. t.station ≡ station) }
    ensures stop { (h : Hierarchy) (w : World) (x : ItemValue) → IfSome result (λ t. IsStopOf h w x t.station t.doing) }
{
    match coming_to(station, arrival) {
        Some(what) => Some(Task {
            station,
            doing: Doing::Fail(how, what),
        }),
        None => None,
    }
}

/// Returns what an item makes at which station, if it makes anything.
pub(crate) fn task_of(tree: &Tree, sent: &[Datagram], item: &Item) -> Option<Task>
    requires { has_item tree.now item.now ≡ true }
    ensures task { (w : World) → w.sent ≡ sent.now → turn_of tree.now w result ≡ schedule.turn tree.now w item.now }
    ensures within { IfSome result (λ t. IsBetween 1 (station_count tree.now) t.station) }
    ensures stop { (w : World) → w.sent ≡ sent.now
        → IfSome result (λ t. IsStopOf tree.now w item.now t.station t.doing) }
{
    match item {
        Item::Do(deed) => comes(arrival_of(tree, sent, deed)),
        Item::Restart(station) => Some(Task {
            station: *station,
            doing: Doing::Start,
        }),
        Item::Stop(station, moment, deed) => Some(stops(
            *station,
            *moment,
            arrival_of(tree, sent, deed),
        )),
        Item::Fail(station, how, deed) => fails(*station, *how, arrival_of(tree, sent, deed)),
    }
}
