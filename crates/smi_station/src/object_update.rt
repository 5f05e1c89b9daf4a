//! What an event changes at a station's objects.

ghost use Rattle.std.specs.Prelude.{◌≡◌, true, false, IfSome, None};
ghost use Rattle.smi_message.specs.Message.{is_body};
ghost use Rattle.smi_station_display.specs.Displayed.{display_of};
ghost use Rattle.smi_station_display.specs.Listening.{KeepsTheRest};
ghost use Rattle.smi_station_grants.specs.GrantTable.{grants_of};
ghost use Rattle.smi_station_output.specs.Out.{sent_after};
ghost use Rattle.smi_protocol.specs.Refusals.{refusal_of_message};
ghost use Rattle.smi_protocol.specs.Showing as showing;
ghost use Rattle.smi_protocol.specs.SoundDisplay.{MayChange};
ghost use Rattle.smi_publish.specs.Published.{changes_at};
ghost use Rattle.smi_publish.specs.Publishing.{device_objects};
ghost use Rattle.smi_tree.specs.Lawful.{IsBetween};
ghost use Rattle.smi_tree.specs.Lookups.{domain_count};
ghost use Rattle.smi_station.specs.Stirring.{action_by, action_in, action_of};
ghost use Rattle.smi_station.specs.Stirring.{acted_by, members_in, shown_anew, stirred};

use smi_grant::Command;
use smi_message::{Body, Datagram};
use smi_publish::Changes;
use smi_station_display::{Displayed, Members};
use smi_station_grants::{Change, GrantTable};
use smi_station_output::Out;
use smi_tree::Tree;

/// What an event finds, before anything has changed, of the domain whose members it may change.
#[derive(Drop)]
pub(crate) struct BeforeStep {
    /// The domain, if there is one.
    pub domain: Option<u16>,
    /// The action that runs there, if one does.
    pub action: Option<u16>,
    /// Its members.
    pub before: Members,
}

/// Returns the domain whose members a datagram may change.
fn domain_of(tree: &Tree, body: &Body) -> Option<u16>
    ensures { result ≡ showing.domain_of_body tree.now body.now }
{
    match *body {
        Body::Run { domain, .. } => Some(domain),
        Body::Tell { domain, .. } => tree.parent(domain),
        Body::State { object, .. } => tree.parent(object),
        Body::Ask(_) => None,
        Body::Take { .. } => None,
        Body::Drop { .. } => None,
        Body::Watch { .. } => None,
        Body::Unwatch { .. } => None,
    }
}

/// Returns the action by which a command moves the devices of its domain.
fn action_by(tree: &Tree, domain: u16, command: Command) -> Option<u16>
    ensures { result ≡ action_by tree.now domain command }
{
    match command {
        Command::Do(action) => if tree.accepts(domain, action) {
            Some(action)
        } else {
            None
        },
        Command::Include(_) => None,
        Command::Exclude(_) => None,
        Command::Manual(_) => None,
        Command::Ignore(_) => None,
    }
}

/// Returns the action by which a change moves the devices of its domain: a command that runs does.
fn action_in(tree: &Tree, change: &Change) -> Option<u16>
    ensures { result ≡ action_in tree.now change.now }
{
    match change {
        Change::Ran {
            domain,
            command,
            ..
        } => action_by(tree, *domain, *command),
        Change::Nothing => None,
        Change::HolderChanged { .. } => None,
        Change::Linked { .. } => None,
        Change::ChildReported { .. } => None,
    }
}

/// Returns the members of the domain, nobody if there is none.
fn members_in(display: &Displayed<'_>, kept: &GrantTable<'_>, domain: Option<u16>) -> Members
    requires { IfSome domain (IsBetween 1 (domain_count display.now.tree)) }
    ensures { result ≡ members_in display.now.tree (grants_of kept.now) (display_of display.now) domain }
{
    match domain {
        Some(domain) => display.members(kept, domain),
        None => Members::new(),
    }
}

/// Returns what a datagram finds, before the change that it asks for is made.
pub(crate) fn snapshot_before(
    display: &Displayed<'_>,
    kept: &GrantTable<'_>,
    datagram: &Datagram,
    change: &Change,
) -> BeforeStep
    requires action { action_in kept.now.tree change.now
        ≡ action_of kept.now.tree (grants_of kept.now) datagram.now.body }
    requires tree { kept.now.tree ≡ display.now.tree }
    requires accepted { refusal_of_message kept.now.tree kept.now.number datagram.now ≡ None }
    ensures domain { result.domain ≡ showing.domain_of_body display.now.tree datagram.now.body }
    ensures before { result.before ≡ members_in display.now.tree (grants_of kept.now) (display_of display.now)
        (showing.domain_of_body display.now.tree datagram.now.body) }
    ensures action { result.action ≡ action_of display.now.tree (grants_of kept.now) datagram.now.body }
    ensures within { IfSome result.domain (IsBetween 1 (domain_count display.now.tree)) }
{
    let domain = domain_of(kept.tree(), &datagram.body);
    let action = action_in(kept.tree(), change);
    BeforeStep {
        domain,
        action,
        before: members_in(display, kept, domain),
    }
}

/// Moves the devices of a domain, if an action runs there. Returns their changes.
fn move_devices(display: &mut Displayed<'_>, domain: u16, action: Option<u16>) -> Changes
    requires domain { IsBetween 1 (domain_count display.old.tree) domain }
    requires room { MayChange (display_of display.old) }
    ensures display { display_of display.new ≡ record
        (display_of display.old) {
          conditions = acted_by display.old.tree (display_of display.old).conditions domain
              action;
        } }
    ensures changes { result ≡ changes_at display.old.published.boot (display_of display.old).conditions
        (acted_by display.old.tree (display_of display.old).conditions domain action)
        (device_objects display.old.tree domain) }
    ensures few { length result < most_changes }
    ensures shown { AllByRecursion (IsShown display.old.tree) result }
    ensures rest { KeepsTheRest display.old display.new }
{
    match action {
        Some(action) => display.act(domain, action),
        None => Changes::new(),
    }
}

ghost use Rattle.std.specs.Prelude.{◌<◌, length};
ghost use Rattle.std.specs.List.{AllByRecursion};
ghost use Rattle.smi_protocol.specs.SoundDisplay.{IsShown};
ghost use Rattle.smi_publish.specs.Published.{most_changes};

/// Moves the devices of the domain that was found, has its unit follow, and sends what they newly show to their
/// watchers. Returns true if one of them has reached the last sequence.
pub(crate) fn update_objects(
    display: &mut Displayed<'_>,
    kept: &GrantTable<'_>,
    out: &mut Out,
    found: &BeforeStep,
) -> bool
    requires domain { IfSome found.now.domain (IsBetween 1 (domain_count display.old.tree)) }
    requires room { MayChange (display_of display.old) }
    ensures display { display_of display.new ≡ record
        (display_of display.old) {
          conditions = stirred display.old.tree (grants_of kept.now)
              (display_of display.old) found.now.before found.now.action found.now.domain;
        } }
    ensures sent { out.new
        ≡ record out.old {
          datagrams = sent_after out.old.datagrams
              (shown_anew display.old.tree display.old.number display.old.published.boot (display_of display.old)
              (display_of display.new).conditions found.now.domain);
          passed = showing.passed_in display.old.tree display.old.published.boot
              (display_of display.old).conditions (display_of display.new).conditions found.now.domain;
        } }
    ensures spent { result
        ≡ showing.is_spent (showing.passed_in display.old.tree display.old.published.boot
        (display_of display.old).conditions (display_of display.new).conditions found.now.domain) }
    ensures room { result ≡ false → MayChange (display_of display.new) }
    ensures rest { KeepsTheRest display.old display.new }
{
    match found.domain {
        Some(domain) => update_objects_in(display, kept, out, found, domain),
        None => {
            out.set_transitions(Changes::new());
            false
        }
    }
}

/// Does the same in this domain.
fn update_objects_in(
    display: &mut Displayed<'_>,
    kept: &GrantTable<'_>,
    out: &mut Out,
    found: &BeforeStep,
    domain: u16,
) -> bool
    requires domain { IsBetween 1 (domain_count display.old.tree) domain }
    requires room { MayChange (display_of display.old) }
    ensures display { display_of display.new ≡ record
        (display_of display.old) {
          conditions = stirred display.old.tree (grants_of kept.now)
              (display_of display.old) found.now.before found.now.action (Some domain);
        } }
    ensures sent { out.new
        ≡ record out.old {
          datagrams = sent_after out.old.datagrams
              (shown_anew display.old.tree display.old.number display.old.published.boot (display_of display.old)
              (display_of display.new).conditions (Some domain));
          passed = showing.passed_in display.old.tree display.old.published.boot
              (display_of display.old).conditions (display_of display.new).conditions (Some domain);
        } }
    ensures spent { result
        ≡ showing.is_spent (showing.passed_in display.old.tree display.old.published.boot
        (display_of display.old).conditions (display_of display.new).conditions (Some domain)) }
    ensures room { result ≡ false → MayChange (display_of display.new) }
    ensures rest { KeepsTheRest display.old display.new }
{
    let mut changes = move_devices(display, domain, found.action);
    let is_spent = display.publish_changes(out, kept, domain, &found.before, &mut changes);
    out.set_transitions(changes);
    let _tree = display.tree();
    is_spent
}

ghost use Rattle.std.specs.Prelude.{Some};
