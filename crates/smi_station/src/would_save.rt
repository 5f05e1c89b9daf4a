//! Tells whether a step would save a row, without making it.

ghost use Rattle.std.specs.Prelude.{◌≡◌, None, is_some};
ghost use Rattle.smi_station_grants.specs.Change.{touched};
ghost use Rattle.smi_station_grants.specs.GrantTable.{grants_of};
ghost use Rattle.smi_message.specs.Spelling.{reading};
ghost use Rattle.smi_protocol.specs.Display.{Station as Defined};
ghost use Rattle.smi_protocol.specs.Happening.{Comes, Orders};
ghost use Rattle.smi_protocol.specs.Sound.{IsSound};
ghost use Rattle.smi_protocol.specs.Step.{after, after_event, after_reading, nothing_out, ordered_or_reported};

use crate::datagrams::plan;
use crate::orders::reported_in;
use crate::station::{Core, Station};
use smi_message::{Datagram, decode};
use smi_protocol::{Event, Order};
use smi_station_decide::{check_datagram, decide_order};
use smi_station_grants::{Change, GrantTable};
use smi_station_output::Out;

/// Returns true if a change has a row to save.
fn has_row(change: &Change) -> bool
    ensures { result ≡ is_some (touched change.now) }
{
    match change {
        Change::Nothing => false,
        Change::HolderChanged { .. } => true,
        Change::Linked { .. } => true,
        Change::Ran { .. } => true,
        Change::ChildReported { .. } => true,
    }
}

/// Returns true if a step with this event would save a row.
fn is_saved(kept: &GrantTable<'_>, scratch: &mut Out, event: Event<'_>) -> bool
    requires sound { IsSound kept.now.tree (grants_of kept.now) }
    ensures { (s : Defined) → s.grants ≡ grants_of kept.now
        → result ≡ is_some (after_event kept.now.tree kept.now.number s event.entry).saved }
{
    scratch.clear();
    match event {
        Event::Datagram(bytes) => is_saved_for_bytes(kept, scratch, bytes),
        Event::Order(operator, what) => is_saved_for_order(kept, operator, &what),
        Event::Report(_, _) => false,
        Event::Tick => false,
    }
}

/// Returns the same of bytes.
fn is_saved_for_bytes(kept: &GrantTable<'_>, scratch: &mut Out, bytes: &[u8]) -> bool
    requires sound { IsSound kept.now.tree (grants_of kept.now) }
    requires empty { scratch.old ≡ nothing_out }
    ensures { (s : Defined) → s.grants ≡ grants_of kept.now
        → result ≡ is_some (after_reading kept.now.tree kept.now.number s (reading bytes.now)).saved }
{
    match decode(bytes) {
        Ok(datagram) => is_saved_for_datagram(kept, scratch, &datagram),
        Err(_) => false,
    }
}

/// Returns the same of a datagram.
fn is_saved_for_datagram(kept: &GrantTable<'_>, scratch: &mut Out, datagram: &Datagram) -> bool
    requires sound { IsSound kept.now.tree (grants_of kept.now) }
    requires empty { scratch.old ≡ nothing_out }
    ensures { (s : Defined) → s.grants ≡ grants_of kept.now
        → result ≡ is_some (after kept.now.tree kept.now.number s (Comes datagram.now)).saved }
{
    match check_datagram(kept.tree(), kept.number(), datagram) {
        Some(_) => false,
        None => match plan(scratch, kept, datagram) {
            Ok(change) => has_row(&change),
            // Memory is refused for what saves a row, and for nothing else.
            Err(_) => true,
        },
    }
}

/// Returns the same of an order, which may hold a report.
fn is_saved_for_order(kept: &GrantTable<'_>, operator: u16, what: &Order) -> bool
    requires sound { IsSound kept.now.tree (grants_of kept.now) }
    ensures { (s : Defined) → s.grants ≡ grants_of kept.now
        → result ≡ is_some (after kept.now.tree kept.now.number s (ordered_or_reported operator what.now)).saved }
{
    match reported_in(what) {
        Some(_) => false,
        None => is_saved_if_taken(kept, operator, what),
    }
}

/// Returns the same of an order that holds none.
fn is_saved_if_taken(kept: &GrantTable<'_>, operator: u16, what: &Order) -> bool
    requires sound { IsSound kept.now.tree (grants_of kept.now) }
    ensures { (s : Defined) → s.grants ≡ grants_of kept.now
        → result ≡ is_some (after kept.now.tree kept.now.number s (Orders operator what.now)).saved }
{
    match decide_order(kept, operator, what) {
        Err(_) => false,
        Ok(decided) => decided.has_row(),
    }
}

impl<'a, S> Station<'a, S> {
    ghost use Rattle.std.specs.Prelude.{◌≡◌, is_some};
    ghost use Rattle.smi_protocol.specs.Step.{after_event};
    ghost use Rattle.smi_station.specs.Core.{number_of, station_of, tree_of};

    /// Returns true if a step with this event would save a row, were the station to run. Nothing changes but
    /// `scratch`, which holds nothing meaningful afterwards.
    pub fn saves(&self, scratch: &mut Out, event: Event<'_>) -> bool
        ensures { result
            ≡ is_some (after_event (tree_of self.now.core) (number_of self.now.core) (station_of self.now.core)
            event.entry).saved }
    {
        self.core.saves(scratch, event)
    }
}

impl<'a> Core<'a> {
    ghost use Rattle.std.specs.Prelude.{◌≡◌, is_some};
    ghost use Rattle.smi_protocol.specs.Step.{after_event};
    ghost use Rattle.smi_station.specs.Core.{number_of, station_of, tree_of};

    /// Returns true if a step with this event would save a row, were the station to run.
    fn saves(&self, scratch: &mut Out, event: Event<'_>) -> bool
        ensures { result
            ≡ is_some (after_event (tree_of self.now) (number_of self.now) (station_of self.now) event.entry).saved }
    {
        is_saved(&self.kept, scratch, event)
    }
}
