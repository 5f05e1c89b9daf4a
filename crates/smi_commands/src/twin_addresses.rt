//! Finds twin stations, a kind of doubt (docs/FORMATS.md, "Doubts"): two stations with one address, so that one of both
//! nodes would not start. `doubts.rt` calls `twin`.

ghost use Rattle.std.specs.Prelude.{◌≡◌};
ghost use Rattle.smi_commands.specs.Doubts as spec;

use smi_tree::Tree;

/// Returns true if both are stations of the tree and have the same address, host and port.
fn has_same_address(tree: &Tree, station: u16, other: u16) -> bool
    ensures { result ≡ spec.has_same_address tree.now station other }
{
    let count = tree.station_count();
    if station < 1 || count < station || other < 1 || count < other {
        return false;
    }
    let (one, two) = (tree.address(station), tree.address(other));
    one.port == two.port && one.host == two.host
}

/// Returns the first station before this one that has the same address. None if no station before it has.
pub fn twin(tree: &Tree, station: u16) -> Option<u16>
    ensures { result ≡ spec.twin tree.now station }
{
    (0..station).find(|other| has_same_address(tree, station, *other))
}
