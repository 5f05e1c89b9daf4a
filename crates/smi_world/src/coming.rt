//! An event of a station.

ghost use Rattle.std.specs.Prelude.{◌≡◌, IfSome, option_map};
ghost use Rattle.smi_tree.specs.Lawful.{IsBetween};
ghost use Rattle.smi_tree.specs.Lookups.{station_count};
ghost use Rattle.smi_protocol.specs.Schedule as schedule;
ghost use Rattle.smi_protocol.specs.Schedule.{World};
ghost use Rattle.smi_world.specs.Coming.{arrival_in};
ghost use Rattle.smi_schedule.specs.Naming.{has_deed};

use smi_message::Datagram;
use smi_protocol::{Deed, Order, Request};
use smi_tree::Tree;

/// An event of a station.
#[derive(Clone, Copy)]
pub(crate) enum Coming {
    /// A datagram that was sent.
    Datagram(Datagram),
    /// An operator's order. One that holds a report is that report.
    Order(u16, Order),
    /// A device is reported in a state.
    Report(u16, u16),
    /// Time passes.
    Tick,
}

/// Something reaches a station.
#[derive(Clone, Copy)]
pub(crate) struct Arrival {
    pub station: u16,
    pub what: Coming,
}

/// Has a datagram reach its receiver, if the tree has that station.
fn delivery(tree: &Tree, sent: Option<&Datagram>) -> Option<Arrival>
    ensures arrival { option_map arrival_in result ≡ schedule.delivery tree.now (option_copied sent.entry) }
    ensures within { IfSome result (λ a. IsBetween 1 (station_count tree.now) a.station) }
{
    let datagram = *sent?;
    if datagram.to < 1 || tree.station_count() < datagram.to {
        return None;
    }
    Some(Arrival {
        station: datagram.to,
        what: Coming::Datagram(datagram),
    })
}

ghost use Rattle.std.specs.Prelude.{option_copied};

/// Returns the datagram that was sent this many before the newest.
fn sent_before(sent: &[Datagram], before: u64) -> Option<&Datagram>
    ensures { option_copied result ≡ schedule.sent_before before sent.now }
{
    let count = sent.len();
    let before = before as usize;
    if before < count {
        sent.get(count - 1 - before)
    } else {
        None
    }
}

/// Returns the datagram of this number, from 1.
fn sent_at(sent: &[Datagram], number: u64) -> Option<&Datagram>
    ensures { option_copied result ≡ (if number == 0 then None else slice_get sent.now (number - 1)) }
{
    if number == 0 {
        return None;
    }
    sent.get((number - 1) as usize)
}

ghost use Rattle.std.specs.Prelude.{◌==◌, ◌-◌, if◌then◌else◌, None, slice_get};

/// Has a report reach the device's station.
fn report_of(tree: &Tree, device: u16, state: u16) -> Option<Arrival>
    ensures arrival { option_map arrival_in result ≡ schedule.arrival_at tree.now (Reports device state) }
    ensures within { IfSome result (λ a. IsBetween 1 (station_count tree.now) a.station) }
{
    let domains = tree.domain_count();
    if device == 0 || tree.device_count() < device {
        return None;
    }
    Some(Arrival {
        station: object_home(tree, domains + device),
        what: Coming::Report(device, state),
    })
}

ghost use Rattle.smi_protocol.specs.Happening.{Reports};

use smi_station_output::object_home;

/// Has an order reach the operator's station, and a report in it the device's.
fn order_of(tree: &Tree, operator: u16, order: &Order) -> Option<Arrival>
    ensures arrival { option_map arrival_in result
        ≡ schedule.arrival_at tree.now (ordered_or_reported operator order.now) }
    ensures within { IfSome result (λ a. IsBetween 1 (station_count tree.now) a.station) }
{
    if let Request::Report(device, state) = order.request() {
        return report_of(tree, device, state);
    }
    if operator < 1 || tree.operator_count() < operator {
        return None;
    }
    Some(Arrival {
        station: tree.operator_station(operator),
        what: Coming::Order(operator, *order),
    })
}

ghost use Rattle.smi_protocol.specs.Step.{ordered_or_reported};

/// Returns what a deed brings to which station, if it brings anything.
pub(crate) fn arrival_of(tree: &Tree, sent: &[Datagram], deed: &Deed) -> Option<Arrival>
    requires { has_deed tree.now deed.now ≡ true }
    ensures arrival { (w : World) → w.sent ≡ sent.now
        → option_map arrival_in result ≡ schedule.arrival_of tree.now w deed.now }
    ensures within { IfSome result (λ a. IsBetween 1 (station_count tree.now) a.station) }
{
    match deed {
        Deed::Deliver(number) => delivery(tree, sent_at(sent, *number)),
        Deed::Recent(before) => delivery(tree, sent_before(sent, *before)),
        Deed::Order(operator, order) => order_of(tree, *operator, order),
        Deed::Report(device, state) => report_of(tree, *device, *state),
        Deed::Tick(station) => Some(Arrival {
            station: *station,
            what: Coming::Tick,
        }),
    }
}

ghost use Rattle.std.specs.Prelude.{true};
