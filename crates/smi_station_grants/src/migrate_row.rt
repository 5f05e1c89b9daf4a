//! Rows of older schemas rewritten.

ghost use Rattle.std.specs.Prelude.{◌≡◌, ◌++◌, [], Some, None, if◌then◌else◌, IfOk, IfErr, OnOk};
ghost use Rattle.std.specs.List.{cons_option};
ghost use Rattle.smi_rows.specs.Layout.{HasFewLinks};
ghost use Rattle.smi_rows.specs.Store as store;
ghost use Rattle.smi_station_grants.specs.Restoring.{Comes};
ghost use Rattle.smi_station_grants.specs.Restoring as restoring;
ghost use Rattle.smi_station_grants.specs.Migrating.{all_told, only_told};
ghost use Rattle.smi_station_grants.specs.Migrating as spec;
ghost use Rattle.smi_station_grants.specs.Starting.{IsNotOfStore};

use crate::stored_row::said_to;
use smi_protocol::OpenFault;
use smi_rows::{Key, Row, SavedRow, write_boot};
use smi_tree::Tree;
use std::alloc::{AllocError, Global};

/// Returns the station's rows of older schemas, rewritten, in the order of the list. All of the station's are read.
pub(crate) fn renewals(
    alloc: Global,
    tree: &Tree,
    number: u16,
    rows: &[SavedRow],
) -> Result<Vec<SavedRow>, OpenFault>
    ensures told { Comes (only_told result) (all_told tree.now number rows.now) }
    ensures list { IfOk result (λ list. list.items ≡ spec.renewals tree.now number rows.now) }
    ensures fault { IfErr result IsNotOfStore }
{
    let mut list = Vec::new(alloc);
    for row in rows {
        renew(&mut list, tree, number, row)?;
    }
    Ok(list)
}

/// Handles one row more.
fn renew(
    list: &mut Vec<SavedRow>,
    tree: &Tree,
    number: u16,
    row: &SavedRow,
) -> Result<(), OpenFault>
    ensures told { Comes result (only_told (restoring.said_to tree.now number row.now)) }
    ensures list { OnOk result (list.new.items ≡ list.old.items
        ++ cons_option (spec.renewal tree.now number row.now) []) }
    ensures fault { IfErr result IsNotOfStore }
{
    match renewal(*list.allocator(), tree, number, row)? {
        None => Ok(()),
        Some(anew) => match list.push(anew) {
            Ok(()) => Ok(()),
            Err(_) => Err(OpenFault::Memory),
        },
    }
}

/// Returns the row rewritten, if it is the station's and of an older schema.
fn renewal(
    alloc: Global,
    tree: &Tree,
    number: u16,
    row: &SavedRow,
) -> Result<Option<SavedRow>, OpenFault>
    ensures told { Comes (only_told result) (only_told (restoring.said_to tree.now number row.now)) }
    ensures anew { IfOk result (λ anew. anew ≡ spec.renewal tree.now number row.now) }
    ensures fault { IfErr result IsNotOfStore }
{
    match said_to(alloc, tree, number, row)? {
        None => Ok(None),
        Some(said) => anew(alloc, row, &said),
    }
}

/// Returns a row that says this, rewritten if it is of an older schema.
fn anew(alloc: Global, row: &SavedRow, said: &Row) -> Result<Option<SavedRow>, OpenFault>
    requires { HasFewLinks said.now }
    ensures anew { IfOk
        result (λ anew. anew ≡ (if spec.is_older row.now.key row.now.bytes
        then Some (store.saved row.now.key (spec.newest_bytes said.now)) else None)) }
    ensures fault { IfErr result (λ fault. fault ≡ OpenFault.Memory) }
{
    if !is_older(row.key, &row.bytes) {
        return Ok(None);
    }
    match newest_bytes(alloc, said) {
        Ok(bytes) => Ok(Some(SavedRow {
            key: row.key,
            bytes,
        })),
        Err(_) => Err(OpenFault::Memory),
    }
}

/// Returns what a row says in the newest schema of its kind.
fn newest_bytes(alloc: Global, said: &Row) -> Result<Vec<u8>, AllocError>
    requires { HasFewLinks said.now }
    ensures { IfOk result (λ bytes. bytes.items ≡ spec.newest_bytes said.now) }
{
    match said {
        Row::Boot(boot) => write_boot(alloc, *boot),
        Row::Domain(domain) => domain.write(alloc),
        Row::Operator(operator) => operator.write(alloc),
    }
}

/// Returns true if a row is not written in the newest schema of its kind.
fn is_older(key: Key, bytes: &[u8]) -> bool
    ensures { result ≡ spec.is_older key bytes.now }
{
    match key.kind() {
        Some(kind) => schema_in(bytes) != kind.newest_schema(),
        None => false,
    }
}

/// Returns the number of the schema in which a row is written.
fn schema_in(bytes: &[u8]) -> u8
    ensures { result ≡ spec.schema_in bytes.now }
{
    match bytes {
        [] => 0,
        [first, ..] => *first,
    }
}
