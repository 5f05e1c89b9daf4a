//! Runs `smi sim`: reads its tree file, and reads or draws its schedule.
//!
//! `commands` calls [`simulate`]. What is written and which status that has is in `simulating`, whose contracts are
//! over any reader and writer; here are the files.

use crate::line::{Schedule, SimLine};
use crate::simulating::{sim, sim_drawn, sim_drawn_settled, sim_settled};
use crate::tree::read_tree;
use crate::words::{Words, bytes_after, bytes_of};
use smi_commands::status::{no_memory, read_fault};
use smi_disks::open;
use smi_tree::Tree;
use std::alloc::Global;
use std::io::{BufWriter, ErrorKind, Read, Write};
use std::rt::Files;

/// Simulates as its line says. Returns the exit status.
pub fn simulate<H: Files + AllocGlobal, W: Write + Drop, F: Write>(
    host: &H,
    words: &Words,
    line: SimLine<'_>,
    writer: W,
    faults: &mut F,
) -> u8 {
    match read_tree(host, bytes_of(words, line.tree), faults) {
        Ok(tree) => simulate_on(host, words, &tree, line, writer, faults),
        Err(status) => status.code(),
    }
}

/// Simulates a schedule in this tree. Returns the exit status.
fn simulate_on<H: Files + AllocGlobal, W: Write + Drop, F: Write>(
    host: &H,
    words: &Words,
    tree: &Tree,
    line: SimLine<'_>,
    writer: W,
    faults: &mut F,
) -> u8 {
    let alloc = host.alloc();
    let Ok(mut writer) = BufWriter::new(alloc, writer) else {
        return no_memory(faults).code();
    };
    match line.schedule {
        Schedule::File(path) => {
            // After the tree's word, because both paths may read the same in text and differ in bytes.
            let path = bytes_after(words, line.tree, path);
            simulate_file(host, tree, path, line.settles, &mut writer, faults)
        }
        Schedule::Drawn { seed, steps } => {
            if line.settles {
                sim_drawn_settled(alloc, tree, seed, steps, &mut writer, faults)
            } else {
                sim_drawn(alloc, tree, seed, steps, &mut writer, faults)
            }
        }
    }
}

/// Simulates the schedule of the file of this path. Returns the exit status.
fn simulate_file<H: Files + AllocGlobal, W: Write, F: Write>(
    host: &H,
    tree: &Tree,
    path: &[u8],
    settles: bool,
    writer: &mut W,
    faults: &mut F,
) -> u8 {
    match open(host, path) {
        Ok(schedule) => simulate_lines(host.alloc(), tree, schedule, settles, writer, faults),
        Err(e) if e.kind() == ErrorKind::OutOfMemory => no_memory(faults).code(),
        Err(_) => read_fault(faults).code(),
    }
}

/// Simulates the schedule whose lines a reader gives. Returns the exit status.
// It is over any reader, because what `sim` promises is expensive to prove of a host's files.
fn simulate_lines<R: Read + Drop, W: Write, F: Write>(
    alloc: Global,
    tree: &Tree,
    schedule: R,
    settles: bool,
    writer: &mut W,
    faults: &mut F,
) -> u8 {
    let mut schedule = schedule;
    if settles {
        sim_settled(alloc, tree, &mut schedule, writer, faults)
    } else {
        sim(alloc, tree, &mut schedule, writer, faults)
    }
}
