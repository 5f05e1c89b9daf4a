//! What a schedule line says, with the numbers of the tree for its names.

ghost use Rattle.std.specs.Prelude.{◌≡◌};
ghost use Rattle.smi_schedule.specs.Known as spec;

use crate::said::{Said, SaidDeed, SaidOrder};
use smi_protocol::{Deed, Item, Order};
use smi_tree::{Fault, Name, Tree};

fn station(tree: &Tree, name: &Name) -> Result<u16, Fault>
    ensures { result ≡ spec.station tree.now name.now }
{
    tree.station_named(name.text()).ok_or(Fault::UnknownName)
}

fn operator(tree: &Tree, name: &Name) -> Result<u16, Fault>
    ensures { result ≡ spec.operator tree.now name.now }
{
    tree.operator_named(name.text()).ok_or(Fault::UnknownName)
}

fn domain(tree: &Tree, name: &Name) -> Result<u16, Fault>
    ensures { result ≡ spec.domain tree.now name.now }
{
    tree.domain_named(name.text()).ok_or(Fault::UnknownName)
}

fn device(tree: &Tree, name: &Name) -> Result<u16, Fault>
    ensures { result ≡ spec.device tree.now name.now }
{
    tree.device_named(name.text()).ok_or(Fault::UnknownName)
}

fn object(tree: &Tree, name: &Name) -> Result<u16, Fault>
    ensures { result ≡ spec.object tree.now name.now }
{
    tree.object_named(name.text()).ok_or(Fault::UnknownName)
}

fn state(tree: &Tree, name: &Name) -> Result<u16, Fault>
    ensures { result ≡ spec.state tree.now name.now }
{
    tree.state_named(name.text()).ok_or(Fault::UnknownName)
}

fn action(tree: &Tree, name: &Name) -> Result<u16, Fault>
    ensures { result ≡ spec.action tree.now name.now }
{
    tree.action_named(name.text()).ok_or(Fault::UnknownName)
}

/// Returns two domains.
fn domains(tree: &Tree, first: &Name, second: &Name) -> Result<(u16, u16), Fault>
    ensures { result ≡ spec.domains tree.now first.now second.now }
{
    let first = domain(tree, first)?;
    let second = domain(tree, second)?;
    Ok((first, second))
}

/// Returns an order of what the tree has.
#[tactic(auto, unfolding(crate::specs::Known::order_known))]
fn order_known(tree: &Tree, said: &SaidOrder) -> Result<Order, Fault>
    ensures { result ≡ spec.order_known tree.now said.now }
{
    match said {
        SaidOrder::Take(name) => Ok(Order::Take(domain(tree, name)?)),
        SaidOrder::Drop(name) => Ok(Order::Drop(domain(tree, name)?)),
        SaidOrder::Ask(name) => Ok(Order::Ask(domain(tree, name)?)),
        SaidOrder::Do(name, act) => {
            let domain = domain(tree, name)?;
            let action = action(tree, act)?;
            Ok(Order::Do(domain, action))
        }
        SaidOrder::Include(name, other) => {
            let (domain, target) = domains(tree, name, other)?;
            Ok(Order::Include(domain, target))
        }
        SaidOrder::Exclude(name, other) => {
            let (domain, target) = domains(tree, name, other)?;
            Ok(Order::Exclude(domain, target))
        }
        SaidOrder::Manual(name, other) => {
            let (domain, target) = domains(tree, name, other)?;
            Ok(Order::Manual(domain, target))
        }
        SaidOrder::Ignore(name, other) => {
            let (domain, target) = domains(tree, name, other)?;
            Ok(Order::Ignore(domain, target))
        }
        SaidOrder::Watch(name) => Ok(Order::Watch(object(tree, name)?)),
        SaidOrder::Unwatch(name) => Ok(Order::Unwatch(object(tree, name)?)),
    }
}

/// Returns a deed of what the tree has.
#[tactic(auto, unfolding(crate::specs::Known::deed_known))]
fn deed_known(tree: &Tree, said: &SaidDeed) -> Result<Deed, Fault>
    ensures { result ≡ spec.deed_known tree.now said.now }
{
    match said {
        SaidDeed::Deliver(number) => Ok(Deed::Deliver(*number)),
        SaidDeed::Recent(before) => Ok(Deed::Recent(*before)),
        SaidDeed::Order(name, what) => {
            let operator = operator(tree, name)?;
            let order = order_known(tree, what)?;
            Ok(Deed::Order(operator, order))
        }
        SaidDeed::Report(name, shown) => {
            let device = device(tree, name)?;
            let state = state(tree, shown)?;
            Ok(Deed::Report(device, state))
        }
        SaidDeed::Tick(name) => Ok(Deed::Tick(station(tree, name)?)),
    }
}

/// Returns what a line says, if the tree has what it names.
#[tactic(auto, unfolding(crate::specs::Known::known))]
pub(crate) fn known(tree: &Tree, said: &Said) -> Result<Item, Fault>
    ensures { result ≡ spec.known tree.now said.now }
{
    match said {
        Said::Do(deed) => Ok(Item::Do(deed_known(tree, deed)?)),
        Said::Restart(name) => Ok(Item::Restart(station(tree, name)?)),
        Said::Stop(name, moment, said) => {
            let station = station(tree, name)?;
            let deed = deed_known(tree, said)?;
            Ok(Item::Stop(station, *moment, deed))
        }
        Said::Fail(name, plan, said) => {
            let station = station(tree, name)?;
            let deed = deed_known(tree, said)?;
            Ok(Item::Fail(station, *plan, deed))
        }
    }
}
