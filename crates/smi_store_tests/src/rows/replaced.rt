//! Rows with too few bytes or too many, and rows of which one byte is another.

use super::{examples, fault, with_byte};
use smi_rows::{Key, RowKind};
use smi_testkit::{BOOT, HELD, TAKEN, key};
use smi_tree::Tree;
use std::alloc::Global;
use std::test::Fail;

/// Returns the first other length, up to one byte more, in which the row is not refused for it.
fn taken_length(alloc: Global, tree: &Tree, key: Key, bytes: &[u8]) -> Result<Option<usize>, Fail> {
    for length in 0..bytes.len() {
        if fault(alloc, tree, key, &bytes[..length]) != 1 {
            return Ok(Some(length));
        }
    }
    let mut longer = Vec::from_slice(alloc, bytes)?;
    longer.push(0)?;
    if fault(alloc, tree, key, &longer) != 1 {
        return Ok(Some(longer.len()));
    }
    Ok(None)
}

pub(super) fn has_no_other_length(alloc: Global, tree: &Tree) -> Result<bool, Fail> {
    for (key, bytes) in examples() {
        if taken_length(alloc, tree, key, bytes)?.is_some() {
            return Ok(false);
        }
    }
    Ok(true)
}

/// Returns what the layout says of the boot row with this value at one place.
fn boot_fault(place: usize, value: u8) -> u16 {
    match (place, value) {
        // Both schemas of boots are written alike.
        (0, 1 | 2) => 0,
        (0, _) => 2,
        (1..=3, 1..) => 3,
        // A boot is 1 to 4,000,000,000.
        (4, 239..) => 3,
        (7, 0) => 3,
        _ => 0,
    }
}

/// Returns what the layout says of the row of a domain that operator 2 took, with this value at one place.
fn domain_fault(place: usize, value: u8) -> u16 {
    match (place, value) {
        (0, 1 | 2) => 0,
        (0, _) => 2,
        // Nobody has no number, and domain 2 is not above domain 1.
        (1, 1) => 0,
        (1, 2) => 4,
        (1, _) => 3,
        (2, 1..) => 3,
        // Operators are 1 to 32, and the tree has two.
        (3, 1 | 2) => 0,
        (3, 3..=32) => 4,
        (3, _) => 3,
        // Epochs are at most 2^62, and held ones odd.
        (4, 0x40..) => 3,
        (11, _) if value % 2 == 0 => 3,
        // The last command's number is at most 1,000,000.
        (12, 1..) => 3,
        (13, 16..) => 3,
        // Nothing has run, and nothing is at work.
        (16..=21, 1..) => 3,
        (22 | 23, 1..) => 1,
        _ => 0,
    }
}

/// Returns what the layout says of the row of an operator that holds domain 2, with this value at one place.
fn operator_fault(place: usize, value: u8) -> u16 {
    match (place, value) {
        (0, 1..=3) => 0,
        (0, _) => 2,
        (1, 1..) => 3,
        // One link is there.
        (2, 1..) => 1,
        (3, 1) => 0,
        (3, _) => 1,
        // Domains are 1 to 128, and the tree has two.
        (4, 1..) => 3,
        (5, 1 | 2) => 0,
        (5, 3..=128) => 4,
        (5, _) => 3,
        // Out, Taking, Held or Dropping at 1; a pending command would have a number, and several a count.
        (6, 0..=2 | 4) => 0,
        (6, 5) => 1,
        (6, _) => 3,
        (7, 1..) => 3,
        (8, 0x40..) => 3,
        (15, _) if value % 2 == 0 => 3,
        (16, 1..) => 3,
        (17, 16..) => 3,
        (20..=23, 1..) => 3,
        _ => 0,
    }
}

/// Returns what the layout says of such a row with this value at one place.
fn layout_fault(kind: RowKind, place: usize, value: u8) -> u16 {
    match kind {
        RowKind::Boot => boot_fault(place, value),
        RowKind::Domain => domain_fault(place, value),
        RowKind::Operator => operator_fault(place, value),
    }
}

/// Returns the first place at which some value makes another fault of the row than the layout says.
fn misread_byte(
    alloc: Global,
    tree: &Tree,
    key: Key,
    kind: RowKind,
    bytes: &[u8],
) -> Result<Option<usize>, Fail> {
    for place in 0..bytes.len() {
        for value in 0..=255u8 {
            let row = with_byte(alloc, bytes, place, value)?;
            if fault(alloc, tree, key, &row) != layout_fault(kind, place, value) {
                return Ok(Some(place));
            }
        }
    }
    Ok(None)
}

/// Returns a boot, a domain that operator 2 took, and an operator that holds domain 2.
fn replaced_rows() -> [(Key, RowKind, &'static [u8]); 3] {
    [
        (key(1, 0, 0), RowKind::Boot, BOOT),
        (key(1, 1, 0), RowKind::Domain, TAKEN),
        (key(2, 0, 2), RowKind::Operator, HELD),
    ]
}

pub(super) fn has_no_other_byte(alloc: Global, tree: &Tree) -> Result<bool, Fail> {
    for (key, kind, bytes) in replaced_rows() {
        if misread_byte(alloc, tree, key, kind, bytes)?.is_some() {
            return Ok(false);
        }
    }
    Ok(true)
}
