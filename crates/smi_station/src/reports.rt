//! What changes no grants: a report of a device, and a tick.

ghost use Rattle.std.specs.Prelude.{◌≡◌, false, true};
ghost use Rattle.smi_station_display.specs.Displayed.{display_of};
ghost use Rattle.smi_protocol.specs.Happening.{Reports, Ticks};
ghost use Rattle.smi_protocol.specs.Refusals.{is_report_here};
ghost use Rattle.smi_protocol.specs.SoundDisplay.{MayChange};
ghost use Rattle.smi_protocol.specs.Step.{accepted, nothing_out};
ghost use Rattle.smi_station.specs.Core.{AreHalves, station_with};

use crate::station::Core;
use smi_grant::Shown;
use smi_protocol::{Heard, OrderCode, StepFault};
use smi_publish::Changes;
use smi_station_decide::is_report_here;
use smi_station_display::Displayed;
use smi_station_grants::GrantTable;
use smi_station_output::Out;

/// Returns the change of one object, if it has changed.
fn changes_of(shown: Option<Shown>) -> Changes
    ensures { result ≡ if_any shown }
{
    let mut changes = Changes::new();
    match shown {
        Some(shown) => changes.push(shown),
        None => {}
    }
    changes
}

ghost use Rattle.smi_protocol.specs.Messages.{if_any};

/// Returns the domain of a device of the station.
fn domain_of(kept: &GrantTable<'_>, device: u16) -> u16
    requires kept { is_kept_by kept.now.tree kept.now.number (domain_count kept.now.tree + device) ≡ true }
    requires least { 1 ≤ device }
    ensures domain { IsBetween 1 (domain_count kept.now.tree) result }
    ensures among { In (domain_count kept.now.tree + device) (device_objects kept.now.tree result) }
    ensures of { roles.domain_of kept.now.tree (domain_count kept.now.tree + device) ≡ Some result }
    ensures device { IsBetween 1 (device_count kept.now.tree) device }
{
    let tree = kept.tree();
    tree.device(device).domain
}

ghost use Rattle.std.specs.Prelude.{◌≤◌, ◌+◌, Some};
ghost use Rattle.smi_protocol.specs.Sound.{In};
ghost use Rattle.smi_tree.specs.Roles as roles;
ghost use Rattle.smi_publish.specs.Publishing.{device_objects};
ghost use Rattle.smi_tree.specs.Roles.{is_kept_by};
ghost use Rattle.smi_tree.specs.Lawful.{IsBetween};
ghost use Rattle.smi_tree.specs.Lookups.{device_count, domain_count};

/// Reports the state of a device that the station keeps. Returns true if one of its objects has reached the
/// last sequence.
fn report(
    kept: &GrantTable<'_>,
    display: &mut Displayed<'_>,
    out: &mut Out,
    device: u16,
    state: u16,
) -> bool
    requires halves { AreHalves kept.now display.old }
    requires room { MayChange (display_of display.old) }
    requires here { is_report_here kept.now.tree kept.now.number device state ≡ true }
    requires empty { out.old ≡ nothing_out }
    ensures station { station_with kept.now display.new result
        ≡ (accepted kept.now.tree kept.now.number (station_with kept.now display.old false)
        (Reports device state)).station }
    ensures out { out.new
        ≡ (accepted kept.now.tree kept.now.number (station_with kept.now display.old false)
        (Reports device state)).out }
    ensures halves { AreHalves kept.now display.new }
    ensures room { result ≡ false → MayChange (display_of display.new) }
{
    let domain = domain_of(kept, device);
    let before = display.members(kept, domain);
    let mut changes = changes_of(display.report(device, state));
    let is_spent = display.publish_changes(out, kept, domain, &before, &mut changes);
    out.set_transitions(changes);
    let _tree = display.tree();
    is_spent
}

/// Handles a tick.
fn tick(kept: &GrantTable<'_>, display: &mut Displayed<'_>, out: &mut Out)
    requires halves { AreHalves kept.now display.old }
    requires room { MayChange (display_of display.old) }
    requires empty { out.old ≡ nothing_out }
    ensures station { station_with kept.now display.new false
        ≡ (accepted kept.now.tree kept.now.number (station_with kept.now display.old false) Ticks).station }
    ensures out { out.new
        ≡ (accepted kept.now.tree kept.now.number (station_with kept.now display.old false) Ticks).out }
    ensures halves { AreHalves kept.now display.new }
    ensures room { MayChange (display_of display.new) }
{
    display.tick(out, kept);
}

impl<'a> Core<'a> {
    ghost use Rattle.std.specs.Prelude.{◌≡◌, false, IsOk};
    ghost use Rattle.smi_protocol.specs.Happening.{Reports, Ticks};
    ghost use Rattle.smi_protocol.specs.Step.{after, nothing_out};
    ghost use Rattle.smi_station.specs.Core.{Steps, number_of, station_of, tree_of};

    /// Handles a report of a device.
    pub(crate) fn report(
        &mut self,
        out: &mut Out,
        device: u16,
        state: u16,
    ) -> Result<Heard, StepFault>
        requires runs { self.old.is_stopped ≡ false }
        requires empty { out.old ≡ nothing_out }
        ensures step { Steps self.old self.new (after (tree_of self.old) (number_of self.old) (station_of self.old)
            (Reports device state)) out.new result }
        ensures made { IsOk result }
    {
        if !is_report_here(self.kept.tree(), self.kept.number(), device, state) {
            return Ok(Heard::Refused(OrderCode::NotHere.code()));
        }
        self.is_stopped = report(&self.kept, &mut self.display, out, device, state);
        Ok(Heard::Same)
    }

    /// Handles a tick.
    pub(crate) fn tick(&mut self, out: &mut Out) -> Result<Heard, StepFault>
        requires runs { self.old.is_stopped ≡ false }
        requires empty { out.old ≡ nothing_out }
        ensures step { Steps self.old self.new (after (tree_of self.old) (number_of self.old) (station_of self.old)
            Ticks) out.new result }
        ensures made { IsOk result }
    {
        tick(&self.kept, &mut self.display, out);
        Ok(Heard::Same)
    }
}
