//! In whose journal an entry is.

ghost use Rattle.std.specs.Prelude.{◌≡◌};
ghost use Rattle.smi_audit.specs.Teller as spec;

use smi_grant::Holder;
use smi_protocol::Entry;
use smi_tree::{Tree, has_object, holder_station, keeper_of};

/// Returns the station in whose journal an entry is: that of the domain for what its keeper does, that of the operator
/// for orders and what comes of them, that of the holder for what it learns and gives up, that of the domain above for
/// a mode, the station that starts or is shown a state, and the object's for a state that it passes. Returns `None` if
/// the tree lacks what the entry names.
pub fn teller(tree: &Tree, entry: &Entry) -> Option<u16>
    ensures { result ≡ spec.teller_of tree.now entry.now }
{
    match *entry {
        Entry::Booted { station, .. } | Entry::Showed { station, .. } => station_of(tree, station),
        Entry::Granted { domain, .. }
        | Entry::Freed { domain, .. }
        | Entry::Ran { domain, .. }
        | Entry::Settled { domain, .. } => holder_station(tree, Holder::Domain(domain)),
        Entry::Ordered { operator, .. } | Entry::Told { operator, .. } => {
            holder_station(tree, Holder::Operator(operator))
        }
        Entry::Learned { holder, .. } | Entry::LetGo { holder, .. } => holder_station(tree, holder),
        Entry::InMode { domain, .. } => station_above(tree, domain),
        Entry::Passed(shown) => station_of_object(tree, shown.object),
    }
}

/// Returns true if the tree has the station.
pub fn has_station(tree: &Tree, station: u16) -> bool
    ensures { result ≡ spec.has_station tree.now station }
{
    1 <= station && station <= tree.station_count()
}

/// Returns the station of this number, if the tree has it.
fn station_of(tree: &Tree, station: u16) -> Option<u16>
    ensures { result ≡ spec.station_named tree.now station }
{
    if has_station(tree, station) {
        Some(station)
    } else {
        None
    }
}

/// Returns the station that keeps the domain above a domain.
pub fn station_above(tree: &Tree, domain: u16) -> Option<u16>
    ensures { result ≡ spec.station_above tree.now domain }
{
    match tree.parent(domain) {
        Some(above) => holder_station(tree, Holder::Domain(above)),
        None => None,
    }
}

/// Returns the station that keeps an object.
pub fn station_of_object(tree: &Tree, object: u16) -> Option<u16>
    ensures { result ≡ spec.station_of_object tree.now object }
{
    if has_object(tree, object) {
        Some(keeper_of(tree, object))
    } else {
        None
    }
}
