//! Changes the states of a station's objects, and tells their watchers.

ghost use Rattle.std.specs.Prelude.{◌≡◌};
ghost use Rattle.smi_protocol.specs.Children as children;

use crate::displayed::Displayed;
use crate::members::Members;
use smi_grant::{Holder, Shown};
use smi_publish::Changes;
use smi_rows::Mode;
use smi_station_grants::GrantTable;
use smi_station_output::{Out, show};

/// Returns true if the state of a child in this mode counts.
fn is_counted(mode: Mode) -> bool
    ensures { result ≡ children.is_counted mode }
{
    match mode {
        Mode::Included | Mode::Manual => true,
        Mode::Ignored => false,
    }
}

impl<'a> Displayed<'a> {
    ghost use Rattle.std.specs.Prelude.{◌≡◌, ◌≤◌, ◌+◌, ◌<◌, ◌++◌, ◌∷◌, [], length, IfSome};
    ghost use Rattle.std.specs.List.{AllByRecursion, flat_map};
    ghost use Rattle.smi_station_grants.specs.GrantTable.{grants_of};
    ghost use Rattle.smi_base.specs.declared.trees.TheConstants.{MOST_DEVICES_OF_A_DOMAIN};
    ghost use Rattle.smi_station_output.specs.Out.{sent_after};
    ghost use Rattle.smi_protocol.specs.Showing.{child_members, device_members, is_member, members_of, shown_to_all};
    ghost use Rattle.smi_protocol.specs.SoundDisplay.{IsShown, MayChange};
    ghost use Rattle.smi_publish.specs.Published.{HasRoom, change_at, changes_at, most_changes};
    ghost use Rattle.smi_publish.specs.Publishing.{acted, device_objects, reported};
    ghost use Rattle.smi_tree.specs.Lawful.{IsBetween};
    ghost use Rattle.smi_tree.specs.Lookups.{device_count, domain_count, state_count};
    ghost use Rattle.smi_station_display.specs.Displayed.{display_of};
    ghost use Rattle.smi_station_display.specs.Listening.{KeepsTheRest};
    ghost use Rattle.smi_station_display.specs.Members.{added, followed_by, listed_of};

    /// Returns the state of an object of the station, 0 if it keeps none.
    fn state_of(&self, object: u16) -> u16
        ensures { result ≡ option_map_or (λ c. c.state) ((display_of self.now).conditions object) 0 }
    {
        match self.publisher.current(object) {
            Some(shown) => shown.state,
            None => 0,
        }
    }

    ghost use Rattle.std.specs.Option.{option_map_or};

    /// Returns the state that an object was shown in last, 0 if it was not shown yet.
    fn shown_state_of(&self, object: u16) -> u16
        ensures { result ≡ option_map_or (λ s. s.state) ((display_of self.now).shown object) 0 }
    {
        match self.view.last(object) {
            Some(shown) => shown.state,
            None => 0,
        }
    }

    /// Lists the devices of a domain.
    fn add_devices(&self, members: &mut Members, domain: u16)
        requires least { 1 ≤ domain }
        requires most { domain ≤ domain_count self.now.tree }
        requires room { length members.old.objects ≡ 0 }
        ensures members { members.new ≡ added members.old
            (device_members self.now.tree (display_of self.now).conditions domain) }
        ensures few { length members.new.objects ≤ MOST_DEVICES_OF_A_DOMAIN }
    {
        let domains = self.tree.domain_count();
        let devices = self.tree.devices(domain);
        for device in devices {
            let object = domains + *device;
            members.push(object, self.state_of(object));
        }
    }

    /// Lists the children of a domain that count.
    fn add_children(&self, members: &mut Members, kept: &GrantTable<'_>, domain: u16)
        requires least { 1 ≤ domain }
        requires most { domain ≤ domain_count self.now.tree }
        requires room { length members.old.objects ≤ MOST_DEVICES_OF_A_DOMAIN }
        ensures { members.new
            ≡ added members.old (child_members self.now.tree (grants_of kept.now) (display_of self.now).shown domain) }
    {
        let children = self.tree.children(domain);
        for child in children {
            if kept.link(Holder::Domain(domain), *child).is_held()
                && is_counted(kept.mode(*child))
            {
                members.push(*child, self.shown_state_of(*child));
            }
        }
    }

    /// Returns the members of a domain: its devices by number, and then the units of the children that count.
    pub fn members(&self, kept: &GrantTable<'_>, domain: u16) -> Members
        requires least { 1 ≤ domain }
        requires most { domain ≤ domain_count self.now.tree }
        ensures { result
            ≡ listed_of (members_of self.now.tree (grants_of kept.now) (display_of self.now).conditions
            (display_of self.now).shown domain) }
    {
        let mut members = Members::new();
        self.add_devices(&mut members, domain);
        self.add_children(&mut members, kept, domain);
        members
    }

    /// Moves every device of a domain by its class. Returns the changes, by number.
    pub fn act(&mut self, domain: u16, action: u16) -> Changes
        requires least { 1 ≤ domain }
        requires most { domain ≤ domain_count self.old.tree }
        requires room { MayChange (display_of self.old) }
        ensures display { display_of self.new ≡ record
            (display_of self.old) { conditions = acted self.old.tree (display_of self.old).conditions domain action } }
        ensures changes { result ≡ changes_at self.old.published.boot (display_of self.old).conditions
            (display_of self.new).conditions (device_objects self.old.tree domain) }
        ensures few { length result < most_changes }
        ensures shown { AllByRecursion (IsShown self.old.tree) result }
        ensures rest { KeepsTheRest self.old self.new }
    {
        self.publisher.run_action(self.tree, domain, action)
    }

    /// Reports the state of a device. Returns its change.
    pub fn report(&mut self, device: u16, state: u16) -> Option<Shown>
        requires device { IsBetween 1 (device_count self.old.tree) device }
        requires state { IsBetween 1 (state_count self.old.tree) state }
        requires room { MayChange (display_of self.old) }
        ensures display { display_of self.new ≡ record
            (display_of self.old) {
              conditions = reported (display_of self.old).conditions
                  (domain_count self.old.tree + device) state;
            } }
        ensures change { result ≡ change_at self.old.published.boot (display_of self.old).conditions
            (display_of self.new).conditions (domain_count self.old.tree + device) }
        ensures shown { IfSome result (IsShown self.old.tree) }
        ensures rest { KeepsTheRest self.old self.new }
    {
        self.publisher
            .report(self.tree.domain_count() + device, state)
    }

    /// Evaluates a unit again if its members have changed. Returns its change.
    pub fn follow(&mut self, domain: u16, before: &Members, after: &Members) -> Option<Shown>
        requires room { HasRoom (display_of self.old).conditions domain }
        ensures display { display_of self.new ≡ record
            (display_of self.old) {
              conditions = followed_by self.old.tree before.now after.now
                  (display_of self.old).conditions domain;
            } }
        ensures change { result ≡ change_at self.old.published.boot (display_of self.old).conditions
            (display_of self.new).conditions domain }
        ensures shown { IfSome result (IsShown self.old.tree) }
        ensures rest { KeepsTheRest self.old self.new }
    {
        if before.is_same(after) {
            return None;
        }
        self.publisher.evaluate(self.tree, domain, after.states())
    }

    /// Tells the watchers of an object what it shows.
    fn show_to_all(&self, out: &mut Out, shown: Shown)
        requires { IsShown self.now.tree shown }
        ensures { out.new
            ≡ record out.old {
              datagrams = sent_after out.old.datagrams
                  (shown_to_all self.now.tree self.now.number self.now.watchers shown);
            } }
    {
        for watcher in self.watchers.walk(shown.object) {
            out.send(show(self.tree, self.number, watcher.station, watcher.echo, shown));
        }
    }

    /// Tells the watchers of the objects that have changed.
    pub fn send_changes(&self, out: &mut Out, changes: &[Shown])
        requires { AllByRecursion (IsShown self.now.tree) changes.now }
        ensures { out.new
            ≡ record out.old {
              datagrams = sent_after out.old.datagrams
                  (flat_map (shown_to_all self.now.tree self.now.number self.now.watchers) changes.now);
            } }
    {
        for shown in changes {
            self.show_to_all(out, *shown);
        }
    }
}
