//! A drawn schedule over a world: run at once, and as a stream.

use smi_schedule::{draw_schedule, write_lines};
use smi_tree::Tree;
use smi_world::{run, stream_drawn};
use std::alloc::Global;

const SEED: u64 = 1;

const STEPS: u32 = 1_000;

/// Writes the trace of the drawn items as a run answers it, and returns whether it could.
fn write_run(alloc: Global, tree: &Tree, text: &mut Vec<u8>) -> bool {
    let Ok(items) = draw_schedule(alloc, tree, SEED, STEPS) else {
        return false;
    };
    match run(alloc, tree, items.as_slice()) {
        Ok(lines) => {
            let mut line = Vec::new(alloc);
            write_lines(text, &mut line, tree, lines.as_slice()).is_ok()
        }
        Err(_) => false,
    }
}

/// Returns true if the items leave the same text when they are run at once and when they are drawn one after the
/// other.
pub(crate) fn is_streamed_as_run(alloc: Global, tree: &Tree) -> bool {
    let mut at_once = Vec::new(alloc);
    let mut streamed = Vec::new(alloc);
    write_run(alloc, tree, &mut at_once)
        && stream_drawn(alloc, tree, SEED, u64::from(STEPS), &mut streamed).is_ok()
        && !at_once.is_empty()
        && at_once.as_slice() == streamed.as_slice()
}
