//! `smi check`: reads a tree file, and prints what it declares in one line, or its first fault; with `--lint` also its
//! doubts. `crates/smi_program/src/commands.rt` calls it. docs/FORMATS.md, "The tree file", fixes the faults, and
//! "Doubts" the lines about doubts.

ghost use Rattle.std.specs.Prelude.{◌≡◌, ◌≢◌, ◌⊎◌, IsErr, IsOk};
ghost use Rattle.smi_tree.specs.File.{tree_of};

use crate::doubts::tell;
use crate::status::{Status, no_memory, write_fault};
use smi_tree::{Tree, TreeFault};
use std::alloc::Global;
use std::io::Write;

/// What is printed of a lawful tree file.
#[derive(Clone, Copy)]
enum CheckDetail {
    /// What it declares: `smi check TREE`.
    Counts,
    /// What it declares, and then its doubts: `smi check TREE --lint`.
    Lints,
}

/// Prints how many stations, operators, domains and devices a tree file has, or on `faults` the line of its first fault
/// and the fault's number: `tree line 3 fault 5`. Returns the exit status.
///
/// It is 0 if the file is a tree and the line is written, 1 if the file is refused, 3 if the line could not be written,
/// and 4 if memory was refused (docs/NUMBERS.md, "Statuses of the program"). No clause names `alloc`, from which memory
/// comes, and `writer` and `faults`, to which words are written: tests see these.
pub fn check<W: Write, F: Write>(alloc: Global, bytes: &[u8], writer: &mut W, faults: &mut F) -> u8
    ensures accepted { result ≡ 0 → IsOk (tree_of bytes.now) }
    ensures refused { result ≡ 1 → IsErr (tree_of bytes.now) }
    ensures unwritten { result ≡ 3 → IsOk (tree_of bytes.now) }
    ensures other { (result ≡ 0) ⊎ (result ≡ 1) ⊎ (result ≡ 3) ⊎ (result ≡ 4) }
{
    checked(alloc, bytes, CheckDetail::Counts, writer, faults).code()
}

/// Prints the same as [`check`], and of a lawful file on `faults` also its doubts: what is lawful in it and surely not
/// meant (docs/FORMATS.md, "Doubts"). Doubts do not change the status.
///
/// No clause names `alloc`, from which memory comes, and `writer` and `faults`, to which words are written: tests see
/// these.
pub fn lint<W: Write, F: Write>(alloc: Global, bytes: &[u8], writer: &mut W, faults: &mut F) -> u8
    ensures accepted { result ≡ 0 → IsOk (tree_of bytes.now) }
    ensures refused { result ≡ 1 → IsErr (tree_of bytes.now) }
    ensures unwritten { result ≡ 3 → IsOk (tree_of bytes.now) }
    ensures other { (result ≡ 0) ⊎ (result ≡ 1) ⊎ (result ≡ 3) ⊎ (result ≡ 4) }
{
    checked(alloc, bytes, CheckDetail::Lints, writer, faults).code()
}

// Reads the tree and prints what is wanted. It drops the tree in one place for both commands: each is expensive to
// prove.
fn checked<W: Write, F: Write>(
    alloc: Global,
    bytes: &[u8],
    wanted: CheckDetail,
    writer: &mut W,
    faults: &mut F,
) -> Status
    ensures accepted { result ≡ Status.Done → IsOk (tree_of bytes.now) }
    ensures refused { result ≡ Status.Refused → IsErr (tree_of bytes.now) }
    ensures unwritten { result ≡ Status.Fault → IsOk (tree_of bytes.now) }
    ensures line { result ≢ Status.WrongLine }
{
    match Tree::read(alloc, bytes) {
        Ok(tree) => print_wanted(&tree, wanted, writer, faults),
        Err(TreeFault::Line(line, fault)) => {
            // If standard error can't be written, the status alone tells the fault.
            let _ = writeln!(faults, "tree line {line} fault {fault}");
            Status::Refused
        }
        Err(TreeFault::Memory) => no_memory(faults),
    }
}

/// Prints what the tree has, and then, if that is wanted, its doubts on `faults`.
fn print_wanted<W: Write, F: Write>(
    tree: &Tree,
    wanted: CheckDetail,
    writer: &mut W,
    faults: &mut F,
) -> Status
    ensures refused { result ≢ Status.Refused }
    ensures line { result ≢ Status.WrongLine }
{
    let written = writeln!(
        writer,
        "tree {} stations {} operators {} domains {} devices {}",
        tree.number(),
        tree.station_count(),
        tree.operator_count(),
        tree.domain_count(),
        tree.device_count()
    );
    if written.is_err() || writer.flush().is_err() {
        return write_fault(faults);
    }
    match wanted {
        CheckDetail::Counts => {}
        CheckDetail::Lints => tell(tree, faults),
    }
    Status::Done
}
