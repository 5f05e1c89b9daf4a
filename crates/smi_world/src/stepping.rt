//! A station of the world makes a step.

ghost use Rattle.std.specs.Prelude.{◌≡◌, false, OnErr, OnOk};
ghost use Rattle.smi_rows.specs.Store.{found_in};
ghost use Rattle.smi_protocol.specs.Step.{after, after_event};
ghost use Rattle.smi_station.specs.Core.{IsStoredIn, number_of, station_of, tree_of};
ghost use Rattle.smi_world.specs.Coming.{happening};
ghost use Rattle.smi_world.specs.Made.{Leaves, Steps};

use crate::coming::Coming;
use crate::left::Left;
use smi_message::encode;
use smi_protocol::Event;
use smi_rows::MemoryStable;
use smi_station::Station;
use smi_station_output::Out;
use std::alloc::AllocError;

/// Has an event reach a station that runs. A store in memory never fails, so that only memory may run out.
fn step(
    station: &mut Station<'_, MemoryStable>,
    event: Event<'_>,
    out: &mut Out,
) -> Result<(), AllocError>
    requires runs { station.old.core.is_stopped ≡ false }
    ensures steps { OnOk result (Steps station.old.core station.new.core
        (after_event (tree_of station.old.core) (number_of station.old.core) (station_of station.old.core)
        event.entry) out.new) }
    ensures same { OnErr result (station.new.core ≡ station.old.core) }
    ensures stored { IsStoredIn (found_in station.old.store.list) station.old.core
        → IsStoredIn (found_in station.new.store.list) station.new.core }
{
    match station.step(event, out) {
        Ok(_) => Ok(()),
        Err(_) => Err(AllocError),
    }
}

/// Does the same with what comes in the world.
fn step_with(
    station: &mut Station<'_, MemoryStable>,
    what: &Coming,
    out: &mut Out,
) -> Result<(), AllocError>
    requires runs { station.old.core.is_stopped ≡ false }
    ensures steps { OnOk result (Steps station.old.core station.new.core
        (after (tree_of station.old.core) (number_of station.old.core) (station_of station.old.core)
        (happening what.now)) out.new) }
    ensures same { OnErr result (station.new.core ≡ station.old.core) }
    ensures stored { IsStoredIn (found_in station.old.store.list) station.old.core
        → IsStoredIn (found_in station.new.store.list) station.new.core }
{
    match what {
        Coming::Datagram(datagram) => {
            let _from = datagram.from;
            let bytes = encode(datagram);
            step(station, Event::Datagram(&bytes), out)
        }
        Coming::Order(operator, order) => step(station, Event::Order(*operator, *order), out),
        Coming::Report(device, state) => step(station, Event::Report(*device, *state), out),
        Coming::Tick => step(station, Event::Tick, out),
    }
}

/// Has something reach a station that runs. Returns what the step leaves.
pub(crate) fn make(
    station: &mut Station<'_, MemoryStable>,
    what: &Coming,
    left: &mut Left,
) -> Result<(), AllocError>
    requires runs { station.old.core.is_stopped ≡ false }
    ensures station { OnOk result (station_of station.new.core
        ≡ (after (tree_of station.old.core) (number_of station.old.core) (station_of station.old.core)
        (happening what.now)).station) }
    ensures of { OnOk result (IsOf (tree_of station.old.core) (number_of station.old.core) station.new.core) }
    ensures leaves { OnOk result (Leaves (tree_of station.old.core) left.new
        (after (tree_of station.old.core) (number_of station.old.core) (station_of station.old.core)
        (happening what.now))) }
    ensures before { left.new.before ≡ left.old.before }
    ensures same { OnErr result (station.new.core ≡ station.old.core) }
    ensures stored { IsStoredIn (found_in station.old.store.list) station.old.core
        → IsStoredIn (found_in station.new.store.list) station.new.core }
{
    step_with(station, what, &mut left.out)?;
    left.station = station.grants().number();
    left.started = None;
    Ok(())
}

ghost use Rattle.smi_station.specs.Core.{IsOf};

/// Returns true if a step with what comes would save a row, were the station to run.
pub(crate) fn would_save(
    station: &Station<'_, MemoryStable>,
    what: &Coming,
    scratch: &mut Out,
) -> bool
    ensures { result
        ≡ is_some (after (tree_of station.now.core) (number_of station.now.core) (station_of station.now.core)
        (happening what.now)).saved }
{
    match what {
        Coming::Datagram(datagram) => {
            let _from = datagram.from;
            let bytes = encode(datagram);
            station.saves(scratch, Event::Datagram(&bytes))
        }
        Coming::Order(operator, order) => station.saves(scratch, Event::Order(*operator, *order)),
        Coming::Report(device, state) => station.saves(scratch, Event::Report(*device, *state)),
        Coming::Tick => station.saves(scratch, Event::Tick),
    }
}

ghost use Rattle.std.specs.Prelude.{is_some};
