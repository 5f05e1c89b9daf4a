//! Reads the tree file that a command line names, and writes its fault if it is refused.
//!
//! `audit`, `commands`, `node`, `screen` and `sim` read their tree by it, and `screen` its style file too.
//! docs/FORMATS.md, "The tree file", has the limits and the faults.

use smi_base::MOST_BYTES_OF_A_FILE;
use smi_commands::status::{Status, no_memory, read_fault};
use smi_disks::{TreeMark, digest, open};
use smi_tree::{Tree, TreeFault};
use std::alloc::Global;
use std::io::{self, ErrorKind, Read, Write};
use std::rt::Files;

/// The most bytes of a tree file that are read: one more than it may have, so that a longer file is seen to be too
/// long.
const MOST_TREE_BYTES: u64 = MOST_BYTES_OF_A_FILE as u64 + 1;

/// Returns the bytes of a tree file, or as many of them as show that it is too long. Fails if it can't be opened or
/// read.
pub fn tree_bytes<H: Files + AllocGlobal>(host: &H, path: &[u8]) -> io::Result<Vec<u8>> {
    let mut bytes = Vec::new(host.alloc());
    open(host, path)?
        .take(MOST_TREE_BYTES)
        .read_to_end(&mut bytes)?;
    Ok(bytes)
}

/// Returns the bytes of a tree file, a style file or the file of a token, up to one more than a tree file may have. If
/// they can't be read, writes the fault and fails with the exit status.
pub fn read_bytes<H: Files + AllocGlobal, F: Write>(
    host: &H,
    path: &[u8],
    faults: &mut F,
) -> Result<Vec<u8>, Status> {
    match tree_bytes(host, path) {
        Ok(bytes) => Ok(bytes),
        Err(e) if e.kind() == ErrorKind::OutOfMemory => Err(no_memory(faults)),
        Err(_) => Err(read_fault(faults)),
    }
}

/// Returns the tree of a file. If it can't be read or is refused, writes the fault and fails with the exit status.
pub fn read_tree<H: Files + AllocGlobal, F: Write>(
    host: &H,
    path: &[u8],
    faults: &mut F,
) -> Result<Tree, Status> {
    let bytes = read_bytes(host, path, faults)?;
    match Tree::read(host.alloc(), bytes.as_slice()) {
        Ok(tree) => Ok(tree),
        Err(fault) => Err(tree_fault(fault, faults)),
    }
}

/// Returns the tree of a file with its mark: its number and the digest of what it says, which stores and journals name.
/// If it can't be read or is refused, writes the fault and fails with the exit status.
pub fn read_marked<H: Files + AllocGlobal, F: Write>(
    host: &H,
    path: &[u8],
    faults: &mut F,
) -> Result<(Tree, TreeMark), Status> {
    let bytes = read_bytes(host, path, faults)?;
    let Ok(digest) = digest(host.alloc(), bytes.as_slice()) else {
        return Err(no_memory(faults));
    };
    match Tree::read(host.alloc(), bytes.as_slice()) {
        Ok(tree) => {
            let number = tree.number();
            Ok((tree, TreeMark { number, digest }))
        }
        Err(fault) => Err(tree_fault(fault, faults)),
    }
}

/// Writes the fault of a tree file. Returns the exit status.
fn tree_fault<F: Write>(fault: TreeFault, faults: &mut F) -> Status {
    match fault {
        TreeFault::Line(line, fault) => {
            // If standard error can't be written, the status alone says so.
            let _ = writeln!(faults, "tree line {line} fault {fault}");
            Status::Refused
        }
        TreeFault::Memory => no_memory(faults),
    }
}
