//! What rows say to a station.

ghost use Rattle.std.specs.Prelude.{◌≡◌, IfErr};
ghost use Rattle.smi_base.specs.Between.{is_between};
ghost use Rattle.smi_tree.specs.Lawful.{IsTree};
ghost use Rattle.smi_tree.specs.Lookups.{station_count};
ghost use Rattle.smi_station_grants.specs.Restoring.{Comes};
ghost use Rattle.smi_station_grants.specs.Restoring as spec;
ghost use Rattle.smi_station_grants.specs.Starting.{IsNotOfStore};

use smi_protocol::OpenFault;
use smi_rows::{Row, RowFault, SavedRow};
use smi_tree::Tree;
use std::alloc::Global;

/// Returns true if the tree has the station.
pub fn has_station(tree: &Tree, number: u16) -> bool
    ensures there { result ≡ is_between 1 (station_count tree.now) number }
    ensures tree { IsTree tree.now }
{
    let stations = tree.station_count();
    1 <= number && number <= stations
}

/// Returns what a row says to the station; one of another station says nothing, and is not read.
pub(crate) fn said_to(
    alloc: Global,
    tree: &Tree,
    number: u16,
    row: &SavedRow,
) -> Result<Option<Row>, OpenFault>
    ensures said { Comes result (spec.said_to tree.now number row.now) }
    ensures fault { IfErr result IsNotOfStore }
{
    if row.key.station != number {
        return Ok(None);
    }
    match Row::read(alloc, tree, row.key, &row.bytes) {
        Ok(said) => Ok(Some(said)),
        Err(RowFault::Code(code)) => Err(OpenFault::Row(row.key, code)),
        Err(RowFault::Memory) => Err(OpenFault::Memory),
    }
}
