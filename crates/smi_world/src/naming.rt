//! Tests whether the tree has what an item names.

ghost use Rattle.std.specs.Prelude.{◌≡◌};
ghost use Rattle.smi_schedule.specs.Naming as naming;

use smi_protocol::{Deed, Item, Order, Request};
use smi_tree::Tree;

fn has_station(tree: &Tree, number: u16) -> bool
    ensures { result ≡ naming.has_station tree.now number }
{
    1 <= number && number <= tree.station_count()
}

fn has_operator(tree: &Tree, operator: u16) -> bool
    ensures { result ≡ naming.has_operator tree.now operator }
{
    1 <= operator && operator <= tree.operator_count()
}

fn has_device(tree: &Tree, device: u16) -> bool
    ensures { result ≡ naming.has_device tree.now device }
{
    1 <= device && device <= tree.device_count()
}

fn has_order(tree: &Tree, order: &Order) -> bool
    ensures { result ≡ naming.has_order tree.now order.now }
{
    match order.request() {
        Request::Report(device, _) => has_device(tree, device),
        Request::Take(_)
        | Request::Drop(_)
        | Request::Command(_, _)
        | Request::Ask(_)
        | Request::Watch(_)
        | Request::Unwatch(_) => true,
    }
}

fn has_deed(tree: &Tree, deed: &Deed) -> bool
    ensures { result ≡ naming.has_deed tree.now deed.now }
{
    match deed {
        Deed::Deliver(_) => true,
        Deed::Recent(_) => true,
        Deed::Order(operator, order) => has_operator(tree, *operator) && has_order(tree, order),
        Deed::Report(device, _) => has_device(tree, *device),
        Deed::Tick(number) => has_station(tree, *number),
    }
}

/// Returns true if the tree has all stations, operators and devices that an item names.
pub(crate) fn has_item(tree: &Tree, item: &Item) -> bool
    ensures { result ≡ naming.has_item tree.now item.now }
{
    match item {
        Item::Do(deed) => has_deed(tree, deed),
        Item::Restart(number) => has_station(tree, *number),
        Item::Stop(number, _, deed) => has_station(tree, *number) && has_deed(tree, deed),
        Item::Fail(number, _, deed) => has_station(tree, *number) && has_deed(tree, deed),
    }
}
