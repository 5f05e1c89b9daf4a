//! Rows and stores, by values from docs/FORMATS.md.

use smi_rows::{Key, Row, RowFault, write_boot};
use smi_testkit::{BOOT, HELD, PAIR, PENDING, TAKEN, WORKING, key};
use smi_tree::Tree;
use std::alloc::Global;
use std::test::Fail;

mod planned;
mod replaced;
mod rows;

// TPC is held at an even epoch.
const EVEN: &[u8] = &[
    3, 0, 0, 1, 0, 2, 2, 0, 0, 0, 0, 0, 0, 0, 0, 2, 0, 0, 0, 0, 0, 0, 0, 0,
];

/// Returns a row of each kind, and of domains and operators two.
fn examples() -> [(Key, &'static [u8]); 5] {
    [
        (key(1, 0, 0), BOOT),
        (key(1, 1, 0), TAKEN),
        (key(1, 1, 0), WORKING),
        (key(2, 0, 2), HELD),
        (key(2, 0, 2), PENDING),
    ]
}

/// Returns a row's fault, 0 for a row that is read.
fn fault(alloc: Global, tree: &Tree, key: Key, bytes: &[u8]) -> u16 {
    match Row::read(alloc, tree, key, bytes) {
        Ok(_) => 0,
        Err(RowFault::Code(number)) => number,
        Err(RowFault::Memory) => 99,
    }
}

/// Returns the bytes in which what the row says is written.
fn rewritten(alloc: Global, tree: &Tree, key: Key, bytes: &[u8]) -> Result<Vec<u8>, RowFault> {
    match Row::read(alloc, tree, key, bytes)? {
        Row::Boot(boot) => Ok(write_boot(alloc, boot)?),
        Row::Domain(domain) if domain.links.len() < 65536 => Ok(domain.write(alloc)?),
        Row::Operator(operator) if operator.links.len() < 65536 => Ok(operator.write(alloc)?),
        // More links than a row can have.
        _ => Err(RowFault::Code(0)),
    }
}

/// Returns the bytes with another one at this place.
fn with_byte(alloc: Global, bytes: &[u8], place: usize, value: u8) -> Result<Vec<u8>, Fail> {
    let mut row = Vec::from_slice(alloc, bytes)?;
    *row.get_mut(place).ok_or("no such byte")? = value;
    Ok(row)
}

/// What is asked of the rows of a small tree.
#[derive(Clone, Copy, Debug, PartialEq, Eq)]
enum Case {
    /// Each faulty row has the first fault that the tests find.
    Faults,
    /// Rows are written as they were read.
    Rewritten,
    /// Rows of older schemas are read, and what they say is written in the newest.
    OlderSchemas,
    /// What only a later schema can say is out of range before it.
    SaidTooEarly,
    Links,
    Record,
    /// A row of each other length is refused for it.
    Lengths,
    /// A row with each other value at each place has the fault that the layout says.
    Bytes,
}

fn holds_of(case: Case, alloc: Global, tree: &Tree) -> Result<bool, Fail> {
    match case {
        Case::Faults => Ok(rows::have_their_faults(alloc, tree)),
        Case::Rewritten => rows::are_written_as_they_were_read(alloc, tree),
        Case::OlderSchemas => rows::are_written_in_the_newest(alloc, tree),
        Case::SaidTooEarly => rows::are_not_said_too_early(alloc, tree),
        Case::Links => rows::have_their_links(alloc, tree),
        Case::Record => rows::has_its_record(alloc, tree),
        Case::Lengths => replaced::has_no_other_length(alloc, tree),
        Case::Bytes => replaced::has_no_other_byte(alloc, tree),
    }
}

// One function owns the tree, because each owner is expensive to prove.
fn holds(case: Case, alloc: Global) -> Result<bool, Fail> {
    let tree = Tree::read(alloc, PAIR)?;
    holds_of(case, alloc, &tree)
}

#[test]
fn rows_of_a_small_tree(rt: HostRuntime) -> Result<(), Fail> {
    for case in [
        Case::Faults,
        Case::Rewritten,
        Case::OlderSchemas,
        Case::SaidTooEarly,
        Case::Links,
        Case::Record,
        Case::Lengths,
        Case::Bytes,
    ] {
        assert!(rt; holds(case, rt.alloc())?, "{case:?}");
    }
    Ok(())
}
