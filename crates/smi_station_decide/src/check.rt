//! What a station refuses, by the first test that fails (docs/PROTOCOL.md, "Refusals" and "Orders").

ghost use Rattle.std.specs.Prelude.{◌≡◌};
ghost use Rattle.smi_protocol.specs.Happening.{Orders};
ghost use Rattle.smi_protocol.specs.Refusals as spec;
ghost use Rattle.smi_protocol.specs.Request.{has_named};

use smi_grant::{Command, Holder};
use smi_message::{Body, Datagram, DatagramRefusal};
use smi_protocol::{Order, Request};
use smi_tree::{
    Tree, has_domain, has_object, is_at, is_command_of, is_holder_of, is_keeper, is_kept_by,
};

/// Returns why a station does not take a datagram: 7 it is of another tree, 8 for another station, 9 it names what
/// the tree does not have, or not there.
pub fn check_datagram(tree: &Tree, number: u16, datagram: &Datagram) -> Option<u16>
    ensures { result ≡ spec.refusal_of_message tree.now number datagram.now }
{
    if datagram.tree != tree.number() {
        return Some(DatagramRefusal::OtherTree.code());
    }
    if datagram.to != number {
        return Some(DatagramRefusal::OtherStation.code());
    }
    let is_there = 1 <= datagram.from
        && datagram.from <= tree.station_count()
        && is_body_of(tree, datagram.from, datagram.to, &datagram.body);
    if is_there {
        None
    } else {
        Some(DatagramRefusal::Unknown.code())
    }
}

/// Returns true if what a datagram names is there, and is kept by the station that its kind requires.
fn is_body_of(tree: &Tree, from: u16, to: u16, body: &Body) -> bool
    ensures { result ≡ spec.is_body_of tree.now from to body.now }
{
    match *body {
        Body::Ask(domain) => is_keeper(tree, to, domain),
        Body::Take { domain, holder, .. } | Body::Drop { domain, holder, .. } => {
            is_keeper(tree, to, domain) && speaks_for(tree, from, domain, holder)
        }
        Body::Run {
            domain,
            holder,
            command,
            ..
        } => {
            is_keeper(tree, to, domain)
                && speaks_for(tree, from, domain, holder)
                && is_command_of(tree, command)
        }
        Body::Tell { domain, told } => {
            is_keeper(tree, from, domain) && is_holder_of(tree, domain, told.holder)
        }
        Body::Watch { object, .. } | Body::Unwatch { object, .. } => is_kept_by(tree, to, object),
        Body::State { object, state, .. } => {
            is_kept_by(tree, from, object) && state <= tree.state_count()
        }
    }
}

/// Returns true if a station may speak for a holder of the domain.
pub fn speaks_for(tree: &Tree, from: u16, domain: u16, holder: Holder) -> bool
    ensures { result ≡ spec.speaks_for tree.now from domain holder }
{
    is_holder_of(tree, domain, holder) && is_at(tree, holder, from)
}

/// Returns true if the tree has what a command names beside its domain.
fn has_named(tree: &Tree, command: Command) -> bool
    ensures { result ≡ has_named tree.now command }
{
    match command {
        Command::Do(action) => 1 <= action && action <= tree.action_count(),
        Command::Include(target)
        | Command::Exclude(target)
        | Command::Manual(target)
        | Command::Ignore(target) => has_domain(tree, target),
    }
}

/// Returns true if the tree has what an order names.
fn is_order_of(tree: &Tree, order: &Order) -> bool
    ensures { result ≡ spec.is_order_of tree.now order.now }
{
    match order.request() {
        Request::Take(domain) | Request::Drop(domain) | Request::Ask(domain) => has_domain(
            tree, domain,
        ),
        Request::Command(domain, command) => has_domain(tree, domain) && has_named(tree, command),
        Request::Watch(object) | Request::Unwatch(object) => has_object(tree, object),
        Request::Report(_, _) => false,
    }
}

/// Returns true if the operator is the station's, and the tree has what the order names.
pub(crate) fn is_order_here(tree: &Tree, number: u16, operator: u16, order: &Order) -> bool
    ensures { result ≡ spec.is_order_here tree.now number operator order.now }
{
    is_at(tree, Holder::Operator(operator), number) && is_order_of(tree, order)
}

/// Returns true if the station keeps the device, and the tree has the state.
pub fn is_report_here(tree: &Tree, number: u16, device: u16, state: u16) -> bool
    ensures { result ≡ spec.is_report_here tree.now number device state }
{
    1 <= device
        && device <= tree.device_count()
        && is_kept_by(tree, number, tree.domain_count() + device)
        && 1 <= state
        && state <= tree.state_count()
}
