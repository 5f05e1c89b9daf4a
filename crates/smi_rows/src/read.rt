//! From the bytes of a row to what it says.

ghost use Rattle.std.specs.Prelude.{◌≡◌, ◌<◌, ◌^◌, true, length, IfOk, ◌≤◌};
ghost use Rattle.smi_rows.specs.Reading as spec;
ghost use Rattle.smi_rows.specs.Layout.{HasFewLinks};

use crate::fault::{RowFault, RowFlaw};
use crate::key::{Key, RowKind};
use crate::known::is_known;
use crate::layout::row_in;
use crate::places::{are_cut, link_at, size_at, standing_at};
use crate::ranges::is_row_in;
use crate::row::{DomainRow, OperatorRow, Row, StoredLink};
use crate::schema::Schema;
use smi_base::{u16_at, u32_at};
use smi_tree::Tree;
use std::alloc::Global;

/// How many bytes of a domain's row are before its links.
const DOMAIN_FIXED: usize = 24;

/// How many bytes of an operator's row are before its links.
const OPERATOR_FIXED: usize = 4;

impl Row {
    ghost use Rattle.std.specs.Prelude.{◌≡◌, IfOk, Ok, Err, false};
    ghost use Rattle.smi_rows.specs.declared.row.Row.{Row as Said};
    ghost use Rattle.smi_rows.specs.Known.{is_known};
    ghost use Rattle.smi_rows.specs.Reading.{Reads, row_of, refused};
    ghost use Rattle.smi_rows.specs.Written.{IsWritten, IsRow};

    /// Returns what the row of this key says at a station of the tree, or the first test that it fails.
    ///
    /// Rows of the newest schema of their kind are read and those of all before it, each to the value
    /// that was written. Out of memory is answered exactly when an allocation was refused,
    /// which tests alone see.
    pub fn read(alloc: Global, tree: &Tree, key: Key, bytes: &[u8]) -> Result<Row, RowFault>
        // What is read was written so, and the tree has what it names.
        ensures found { IfOk result (λ row. IsRow tree.now key bytes.now row) }
        // What was written so is read, if the tree has what it names.
        ensures only { (row : Said) → IsRow tree.now key bytes.now row → Reads result (Ok row) }
        // It is unknown if it was written so, and the tree lacks something that it names.
        ensures unknown { (row : Said) → IsWritten key bytes.now row → is_known tree.now key row ≡ false
            → Reads result (refused RowFlaw.Unknown) }
        // It is out of range only if it is written as no row is.
        ensures out_of_range { result ≡ refused RowFlaw.Range → (row : Said) → IsWritten key bytes.now row → ⊥ }
        // The first test that fails.
        ensures exact { Reads result (row_of tree.now key bytes.now) }
    {
        tested(alloc, tree, key, bytes)
    }
}

fn tested(alloc: Global, tree: &Tree, key: Key, bytes: &[u8]) -> Result<Row, RowFault>
    ensures { spec.Reads result (spec.row_of tree.now key bytes.now) }
{
    let kind = key.kind().ok_or(RowFlaw::Unknown)?;
    if bytes.is_empty() {
        return Err(RowFault::from(RowFlaw::Length));
    }
    let schema = Schema::of(kind, bytes[0]).ok_or(RowFlaw::Schema)?;
    if !has_length(schema, bytes) {
        return Err(RowFault::from(RowFlaw::Length));
    }
    let row = said_at(alloc, schema, bytes)?;
    if !is_known(tree, key, &row) {
        return Err(RowFault::from(RowFlaw::Unknown));
    }
    Ok(row)
}

/// Returns true if the row has the length that it says.
fn has_length(schema: Schema, bytes: &[u8]) -> bool
    ensures { result ≡ spec.has_length_of schema.kind schema bytes.now }
{
    match schema.kind {
        RowKind::Boot => bytes.len() == 8,
        RowKind::Domain => has_links_after(schema, DOMAIN_FIXED, bytes),
        RowKind::Operator => has_links_after(schema, OPERATOR_FIXED, bytes),
    }
}

/// Returns true if after the beginning, which ends with their number, there are that many links and nothing else.
fn has_links_after(schema: Schema, fixed: usize, bytes: &[u8]) -> bool
    requires { 2 ≤ fixed }
    ensures { result ≡ spec.has_links_after schema fixed bytes.now }
{
    if bytes.len() < fixed {
        return false;
    }
    are_cut(schema, u16_at(bytes, fixed - 2), &bytes[fixed..])
}

/// Returns what the row says: what it seems to say, if that is in range and is written so.
fn said_at(alloc: Global, schema: Schema, bytes: &[u8]) -> Result<Row, RowFault>
    requires { spec.has_length_of schema.kind schema bytes.now ≡ true }
    ensures { spec.Gives (λ row. row) (spec.said_at schema bytes.now) result }
{
    let row = row_at(alloc, schema, bytes)?;
    if !is_row_in(schema, &row) {
        return Err(RowFault::from(RowFlaw::Range));
    }
    let written = row_in(alloc, schema.number, &row)?;
    if written.as_slice() != bytes {
        return Err(RowFault::from(RowFlaw::Range));
    }
    Ok(row)
}

/// Returns what the row seems to say, from the numbers at its places.
fn row_at(alloc: Global, schema: Schema, bytes: &[u8]) -> Result<Row, RowFault>
    requires { spec.has_length_of schema.kind schema bytes.now ≡ true }
    ensures few { IfOk result HasFewLinks }
    ensures row { spec.Gives (λ row. row) (spec.row_at schema.kind schema bytes.now) result }
{
    match schema.kind {
        RowKind::Boot => Ok(Row::Boot(u32_at(bytes, 4))),
        RowKind::Domain => {
            let domain = domain_at(alloc, schema, bytes)?;
            Ok(Row::Domain(domain))
        }
        RowKind::Operator => {
            let count = u16_at(bytes, 2);
            let links = links_at(alloc, schema, count, &bytes[OPERATOR_FIXED..])?;
            Ok(Row::Operator(OperatorRow { links }))
        }
    }
}

fn domain_at(alloc: Global, schema: Schema, bytes: &[u8]) -> Result<DomainRow, RowFault>
    requires { spec.has_length_of RowKind.Domain schema bytes.now ≡ true }
    ensures few { IfOk result (λ domain. length domain.links < 2 ^ 16) }
    ensures domain { spec.Gives (λ domain. domain) (spec.domain_at schema bytes.now) result }
{
    let standing = standing_at(bytes).ok_or(RowFlaw::Range)?;
    let count = u16_at(bytes, 22);
    let links = links_at(alloc, schema, count, &bytes[DOMAIN_FIXED..])?;
    Ok(DomainRow {
        standing,
        gathered: u16_at(bytes, 20),
        links,
    })
}

fn links_at(
    alloc: Global,
    schema: Schema,
    count: u16,
    bytes: &[u8],
) -> Result<Vec<StoredLink>, RowFault>
    requires { spec.are_cut schema count bytes.now ≡ true }
    ensures counted { IfOk result (λ links. length links.items ≡ count) }
    ensures links { spec.Gives (λ links. links.items) (spec.links_at schema count bytes.now) result }
{
    let mut links = Vec::with_capacity(alloc, usize::from(count))?;
    let mut rest = bytes;
    for i in 0..count {
        match link_at(schema, rest) {
            Some(stored) => links.extend_from_slice(&[stored])?,
            None => return Err(RowFault::from(RowFlaw::Range)),
        }
        rest = &rest[size_at(schema, rest)..];
    }
    Ok(links)
}
