//! The trace of a drawn schedule, written while it is drawn.

ghost use Rattle.std.specs.Prelude.{◌≡◌, ℕ, OnOk, take};
ghost use Rattle.std.specs.Io.KnownBytes.{Appends};
ghost use Rattle.smi_protocol.specs.Schedule.{World as Defined, trace_from, trace_of};
ghost use Rattle.smi_schedule.specs.Drawn.{items_drawn, schedule_drawn};
ghost use Rattle.smi_schedule.specs.Text.{trace_text};
ghost use Rattle.smi_world.specs.Posts.{IsAt};

use crate::streaming::{Buffers, new_buffers, write_item, write_opening};
use crate::world::World;
use smi_schedule::{Drawer, Unwritten};
use smi_tree::Tree;
use std::alloc::Global;
use std::io::Write;

/// Draws items and makes them, and writes their lines.
pub(crate) fn stream_items<W: Write>(
    alloc: Global,
    world: &mut World<'_>,
    drawer: &mut Drawer,
    steps: u64,
    buffers: &mut Buffers,
    writer: &mut W,
) -> Result<(), Unwritten>
    ensures all { (w : Defined) → IsAt world.old w → OnOk result
        (Appends (W.contents writer.old) (W.contents writer.new)
        (trace_text world.old.tree (trace_from world.old.tree w (items_drawn world.old.tree steps drawer.old)))) }
    ensures prefix { (w : Defined) → IsAt world.old w → (n : ℕ) ×
        Appends (W.contents writer.old) (W.contents writer.new)
        (take n (trace_text world.old.tree (trace_from world.old.tree w
        (items_drawn world.old.tree steps drawer.old)))) }
{
    let tree = world.tree();
    let _stations = tree.station_count();
    for _ in 0..steps {
        let item = drawer.draw(tree);
        match write_item(alloc, world, &item, buffers, writer) {
            Ok(()) => {}
            Err(fault) => return Err(fault),
        }
    }
    Ok(())
}

/// Makes the opening and then drawn items, and writes their lines.
fn stream_seed<W: Write>(
    alloc: Global,
    tree: &Tree,
    seed: u64,
    steps: u64,
    writer: &mut W,
) -> Result<(), Unwritten>
    ensures all { OnOk result (Appends (W.contents writer.old) (W.contents writer.new)
        (trace_text tree.now (trace_of tree.now (schedule_drawn tree.now seed steps)))) }
    ensures prefix { (n : ℕ) × Appends (W.contents writer.old) (W.contents writer.new)
        (take n (trace_text tree.now (trace_of tree.now (schedule_drawn tree.now seed steps)))) }
{
    let mut buffers = new_buffers(alloc);
    match write_opening(tree, &mut buffers, writer) {
        Ok(()) => match World::new(alloc, tree) {
            Ok(mut world) => stream_items(
                alloc,
                &mut world,
                &mut Drawer::new(seed),
                steps,
                &mut buffers,
                writer,
            ),
            Err(_) => Err(Unwritten::Memory),
        },
        Err(fault) => Err(fault),
    }
}

/// Writes the trace of the first items that a seed draws, this many, while they are drawn: the text of the trace that
/// [`run`](crate::run) answers for them, so that it is safe at every moment. At the end the writer is flushed.
///
/// If a write or the flush fails, or memory runs out, a prefix of the text is written.
pub fn stream_drawn<W: Write>(
    alloc: Global,
    tree: &Tree,
    seed: u64,
    steps: u64,
    writer: &mut W,
) -> Result<(), Unwritten>
    ensures all { OnOk result (Appends (W.contents writer.old) (W.contents writer.new)
        (trace_text tree.now (trace_of tree.now (schedule_drawn tree.now seed steps)))) }
    ensures prefix { (n : ℕ) × Appends (W.contents writer.old) (W.contents writer.new)
        (take n (trace_text tree.now (trace_of tree.now (schedule_drawn tree.now seed steps)))) }
{
    let streamed = stream_seed(alloc, tree, seed, steps, writer);
    match writer.flush() {
        Ok(()) => streamed,
        Err(_) => streamed.and(Err(Unwritten::Writer)),
    }
}
