//! Rows as they are written, and the fault of each that is not.

use super::{EVEN, examples, fault, rewritten, with_byte};
use smi_command::{Link, Pending};
use smi_grant::{Command, Holder, Phase, Record};
use smi_rows::{DomainRow, Key, Mode, Row, StoredLink};
use smi_testkit::{BOOT, HELD, OLDEST, PENDING, TAKEN, WORKING, key};
use smi_tree::Tree;
use std::alloc::Global;
use std::test::Fail;

fn faulty_rows() -> [(Key, &'static [u8], u16); 8] {
    [
        (key(1, 0, 0), b"".as_slice(), 1),
        (key(2, 0, 2), b"\x04".as_slice(), 2),
        (key(1, 1, 0), PENDING, 2),
        (key(2, 0, 2), EVEN, 3),
        (key(2, 1, 0), TAKEN, 4),
        (key(1, 0, 2), PENDING, 4),
        (key(3, 0, 0), BOOT, 4),
        (key(1, 1, 1), b"".as_slice(), 4),
    ]
}

pub(super) fn have_their_faults(alloc: Global, tree: &Tree) -> bool {
    for (key, bytes, wanted) in faulty_rows() {
        if fault(alloc, tree, key, bytes) != wanted {
            return false;
        }
    }
    true
}

pub(super) fn are_written_as_they_were_read(alloc: Global, tree: &Tree) -> Result<bool, Fail> {
    for (key, bytes) in examples() {
        if rewritten(alloc, tree, key, bytes)?.as_slice() != bytes {
            return Ok(false);
        }
    }
    Ok(true)
}

fn older_rows() -> [(Key, u8, &'static [u8]); 7] {
    [
        (key(1, 0, 0), 1, BOOT),
        (key(1, 1, 0), 1, TAKEN),
        (key(1, 1, 0), 1, WORKING),
        (key(2, 0, 2), 1, HELD),
        (key(2, 0, 2), 2, HELD),
        (key(2, 0, 2), 1, OLDEST),
        (key(2, 0, 2), 2, OLDEST),
    ]
}

/// Returns true if rows of older schemas are read, and what they say is written in the newest.
pub(super) fn are_written_in_the_newest(alloc: Global, tree: &Tree) -> Result<bool, Fail> {
    for (key, schema, bytes) in older_rows() {
        let older = with_byte(alloc, bytes, 0, schema)?;
        if rewritten(alloc, tree, key, &older)?.as_slice() != bytes {
            return Ok(false);
        }
    }
    Ok(true)
}

fn fault_in(alloc: Global, tree: &Tree, key: Key, bytes: &[u8], schema: u8) -> Result<u16, Fail> {
    let row = with_byte(alloc, bytes, 0, schema)?;
    Ok(fault(alloc, tree, key, &row))
}

/// Returns whether the row has these faults in the schemas 1, 2 and 3.
fn has_faults(
    alloc: Global,
    tree: &Tree,
    key: Key,
    bytes: &[u8],
    wanted: [u16; 3],
) -> Result<bool, Fail> {
    let [first, second, third] = wanted;
    Ok(
        fault_in(alloc, tree, key, bytes, 1)? == first
            && fault_in(alloc, tree, key, bytes, 2)? == second
            && fault_in(alloc, tree, key, bytes, 3)? == third,
    )
}

/// Returns the mode of the child, and the verb of the oldest command: a row, a value at one place, and the faults by
/// schema.
fn early_rows() -> [(Key, &'static [u8], usize, u8, [u16; 3]); 5] {
    [
        (key(1, 1, 0), WORKING, 27, 1, [3, 0, 2]),
        (key(1, 1, 0), WORKING, 41, 4, [3, 0, 2]),
        (key(2, 0, 2), OLDEST, 21, 5, [3, 0, 0]),
        (key(2, 0, 2), OLDEST, 7, 1, [3, 3, 3]),
        (key(2, 0, 2), PENDING, 1, 0, [1, 1, 0]),
    ]
}

/// Returns true if what only a later schema can say is out of range before it.
pub(super) fn are_not_said_too_early(alloc: Global, tree: &Tree) -> Result<bool, Fail> {
    for (key, bytes, place, value, wanted) in early_rows() {
        let row = with_byte(alloc, bytes, place, value)?;
        if !has_faults(alloc, tree, key, &row, wanted)? {
            return Ok(false);
        }
    }
    Ok(true)
}

fn links_of(alloc: Global, tree: &Tree, key: Key, bytes: &[u8]) -> Result<Vec<StoredLink>, Fail> {
    match Row::read(alloc, tree, key, bytes)? {
        Row::Boot(_) => Err("a boot has no links")?,
        Row::Domain(domain) => Ok(domain.links),
        Row::Operator(operator) => Ok(operator.links),
    }
}

/// Returns domain 2, held at epoch 1, with this many commands pending: do action 1, 2 and so on.
fn held(count: u16) -> StoredLink {
    let mut pending = Pending::new();
    for action in 1..=count {
        if !pending.is_full() {
            pending.push(Command::Do(action));
        }
    }
    StoredLink {
        domain: 2,
        link: Link::Held {
            epoch: 1,
            number: u32::from(count),
            pending,
        },
        mode: Mode::Included,
    }
}

fn is_only(links: &[StoredLink], wanted: StoredLink) -> bool {
    match links {
        [only] => *only == wanted,
        _ => false,
    }
}

/// Returns rows of operators, and how many commands are pending.
fn held_rows() -> [(&'static [u8], u16); 3] {
    [(HELD, 0), (OLDEST, 1), (PENDING, 2)]
}

pub(super) fn have_their_links(alloc: Global, tree: &Tree) -> Result<bool, Fail> {
    for (bytes, count) in held_rows() {
        let links = links_of(alloc, tree, key(2, 0, 2), bytes)?;
        if !is_only(&links, held(count)) {
            return Ok(false);
        }
    }
    Ok(true)
}

/// Returns what the row of the domain at work says.
fn working(alloc: Global, tree: &Tree) -> Result<DomainRow, Fail> {
    match Row::read(alloc, tree, key(1, 1, 0), WORKING)? {
        Row::Domain(domain) => Ok(domain),
        _ => Err("no domain")?,
    }
}

pub(super) fn has_its_record(alloc: Global, tree: &Tree) -> Result<bool, Fail> {
    let domain = working(alloc, tree)?;
    let wanted = Record::checked(1, Holder::Operator(1), 2, Phase::Busy, 0);
    Ok(Some(domain.standing) == wanted && domain.gathered == 0 && domain.links.len() == 1)
}
