//! The trace of a schedule, written while the schedule is read or drawn.

ghost use Rattle.std.specs.Prelude.{◌≡◌, ℕ, true, IfSome, OnOk, take};
ghost use Rattle.std.specs.Io.KnownBytes.{Appends};
ghost use Rattle.smi_protocol.specs.Schedule.{World as Defined, lines_of, opening_lines, turn};
ghost use Rattle.smi_schedule.specs.Text.{trace_text};
ghost use Rattle.smi_schedule.specs.Naming.{has_item};
ghost use Rattle.smi_world.specs.Posts.{IsAt};
ghost use Rattle.smi_world.specs.Streaming.{IsDone, MadeOfRead, ending_of, text_of};

use crate::left::Left;
use crate::opening::push_opening;
use crate::running::act_into;
use crate::world::World;
use smi_protocol::{Item, Line};
use smi_schedule::{Cut, Lines, Unwritten, read_item, write_lines};
use smi_tree::{Fault, Tree};
use std::alloc::Global;
use std::io::{Read, Write};

/// How a stream ended.
#[derive(Clone, Copy, PartialEq, Eq)]
pub enum Streamed {
    /// All lines of the schedule are made and written.
    Ended,
    /// All lines before the one of this number, from 1, are; it has the [fault](Fault::code) of the second.
    Faulty(u64, u16),
    /// A read failed. The lines before are made and written.
    ReadFault,
    /// A write failed. A prefix of the trace is written.
    WriteFault,
    /// Out of memory. A prefix of the trace is written.
    Memory,
}

/// What is reused for each item.
#[derive(Drop)]
pub(crate) struct Buffers {
    left: Left,
    lines: Vec<Line>,
    text: Vec<u8>,
}

impl Buffers {
    /// Returns room for a text.
    pub(crate) fn text(&mut self) -> &mut Vec<u8> {
        &mut self.text
    }
}

/// Makes an item, and writes its lines.
pub(crate) fn write_item<W: Write>(
    alloc: Global,
    world: &mut World<'_>,
    item: &Item,
    buffers: &mut Buffers,
    writer: &mut W,
) -> Result<(), Unwritten>
    requires { has_item world.old.tree item.now ≡ true }
    ensures next { (w : Defined) → IsAt world.old w
        → OnOk result (IsAt world.new (turn world.old.tree w item.now).world) }
    ensures all { (w : Defined) → IsAt world.old w → OnOk result
        (Appends (W.contents writer.old) (W.contents writer.new)
        (trace_text world.old.tree (lines_of w (turn world.old.tree w item.now)))) }
    ensures prefix { (w : Defined) → IsAt world.old w → (n : ℕ) ×
        Appends (W.contents writer.old) (W.contents writer.new)
        (take n (trace_text world.old.tree (lines_of w (turn world.old.tree w item.now)))) }
    ensures tree { world.new.tree ≡ world.old.tree }
{
    buffers.lines.clear();
    match act_into(alloc, world, item, &mut buffers.left, &mut buffers.lines) {
        Ok(()) => write_lines(
            writer,
            &mut buffers.text,
            world.tree(),
            buffers.lines.as_slice(),
        ),
        Err(_) => Err(Unwritten::Memory),
    }
}

/// Writes the lines of the opening.
pub(crate) fn write_opening<W: Write>(
    tree: &Tree,
    buffers: &mut Buffers,
    writer: &mut W,
) -> Result<(), Unwritten>
    ensures all { OnOk result (Appends (W.contents writer.old) (W.contents writer.new)
        (trace_text tree.now (opening_lines tree.now))) }
    ensures prefix { (n : ℕ) × Appends (W.contents writer.old) (W.contents writer.new)
        (take n (trace_text tree.now (opening_lines tree.now))) }
{
    buffers.lines.clear();
    match push_opening(&mut buffers.lines, tree) {
        Ok(()) => write_lines(writer, &mut buffers.text, tree, buffers.lines.as_slice()),
        Err(_) => Err(Unwritten::Memory),
    }
}

/// Returns how a stream ended that could not be written.
pub(crate) fn unwritten(fault: Unwritten) -> Streamed
    ensures not_done { IsDone result → ⊥ }
    ensures not_read { result ≡ ReadFault → ⊥ }
{
    match fault {
        Unwritten::Writer => Streamed::WriteFault,
        Unwritten::Memory => Streamed::Memory,
    }
}

ghost use Rattle.smi_world.specs.declared.streaming.Streamed.TheVariants.{ReadFault};

/// Makes the item of one line, if it has any, and writes its lines.
fn stream_line<W: Write>(
    alloc: Global,
    world: &mut World<'_>,
    number: u64,
    line: &[u8],
    buffers: &mut Buffers,
    writer: &mut W,
) -> Option<Streamed>
    ensures next { (w : Defined) → IsAt world.old w → result ≡ None
        → IsAt world.new (world_after world.old.tree w (item_in world.old.tree line.now)) }
    ensures all { (w : Defined) → IsAt world.old w → result ≡ None →
        Appends (W.contents writer.old) (W.contents writer.new)
        (trace_text world.old.tree (lines_after world.old.tree w (item_in world.old.tree line.now))) }
    ensures prefix { (w : Defined) → IsAt world.old w → (n : ℕ) ×
        Appends (W.contents writer.old) (W.contents writer.new)
        (take n (trace_text world.old.tree (lines_after world.old.tree w (item_in world.old.tree line.now)))) }
    ensures goes_on { result ≡ None → is_ok (item_in world.old.tree line.now) ≡ true }
    ensures ended { IfSome result (λ how. IsDone how
        → (writer.new ≡ writer.old) × IsFault number (item_in world.old.tree line.now) how) }
    ensures reads { IfSome result (λ how. how ≡ ReadFault → ⊥) }
    ensures tree { world.new.tree ≡ world.old.tree }
{
    match read_item(world.tree(), line) {
        Ok(Some(item)) => match write_item(alloc, world, &item, buffers, writer) {
            Ok(()) => None,
            Err(fault) => Some(unwritten(fault)),
        },
        Ok(None) => None,
        Err(fault) => Some(Streamed::Faulty(number, fault.code())),
    }
}

ghost use Rattle.std.specs.Prelude.{None, is_ok};
ghost use Rattle.smi_schedule.specs.Line.{item_in};
ghost use Rattle.smi_world.specs.Streaming.{IsFault, lines_after, world_after};

/// Makes the items of a reader's lines, and writes their lines.
pub(crate) fn stream_on<R: Read, W: Write>(
    alloc: Global,
    world: &mut World<'_>,
    reader: &mut R,
    buffers: &mut Buffers,
    writer: &mut W,
) -> Streamed
    ensures done { (w : Defined) → IsAt world.old w → IfSome (R.remaining reader.old) (λ input. IsDone result →
        (result ≡ ending_of world.old.tree (lines input))
        × Appends (W.contents writer.old) (W.contents writer.new)
        (trace_text world.old.tree (trace_from world.old.tree w
        (items_before_fault world.old.tree (lines input))))) }
    ensures whole { (w : Defined) → IsAt world.old w
        → IfSome (R.remaining reader.old) (λ input. result ≡ ReadFault → (k : ℕ) ×
        Appends (W.contents writer.old) (W.contents writer.new)
        (trace_text world.old.tree (trace_from world.old.tree w
        (items_before_fault world.old.tree (take k (lines input)))))) }
    ensures read { (w : Defined) → IsAt world.old w
        → IfSome (R.remaining reader.old) (λ input. result ≡ ReadFault →
        MadeOfRead input (R.remaining reader.new) (W.contents writer.old) (W.contents writer.new)
        (λ ls. trace_text world.old.tree (trace_from world.old.tree w (items_before_fault world.old.tree ls)))) }
    ensures prefix { (w : Defined) → IsAt world.old w → IfSome (R.remaining reader.old) (λ input. (n : ℕ) ×
        Appends (W.contents writer.old) (W.contents writer.new)
        (take n (trace_text world.old.tree (trace_from world.old.tree w
        (items_before_fault world.old.tree (lines input)))))) }
{
    let mut cutter = Lines::new(alloc);
    for number in 1..u64::MAX {
        match cutter.cut(reader) {
            Cut::Line => {}
            Cut::TooLong => return Streamed::Faulty(number, Fault::LineTooLong.code()),
            Cut::End => return Streamed::Ended,
            Cut::ReadFault => return Streamed::ReadFault,
            Cut::Memory => return Streamed::Memory,
        }
        match stream_line(alloc, world, number, cutter.line(), buffers, writer) {
            Some(how) => return how,
            None => {}
        }
    }
    Streamed::ReadFault
}

ghost use Rattle.std.specs.Str.Lines.{lines};
ghost use Rattle.smi_protocol.specs.Schedule.{trace_from};
ghost use Rattle.smi_schedule.specs.Schedule.{items_before_fault};

/// Returns what is reused for each item, empty.
pub(crate) fn new_buffers(alloc: Global) -> Buffers {
    Buffers {
        left: Left::new(),
        lines: Vec::new(alloc),
        text: Vec::new(alloc),
    }
}

/// Makes the opening and then the items of a reader's lines, and writes their lines.
fn stream_all<R: Read, W: Write>(
    alloc: Global,
    tree: &Tree,
    reader: &mut R,
    writer: &mut W,
) -> Streamed
    ensures done { IfSome (R.remaining reader.old) (λ input. IsDone result →
        (result ≡ ending_of tree.now (lines input))
        × Appends (W.contents writer.old) (W.contents writer.new) (text_of tree.now (lines input))) }
    ensures whole { IfSome (R.remaining reader.old) (λ input. result ≡ ReadFault → (k : ℕ) ×
        Appends (W.contents writer.old) (W.contents writer.new) (text_of tree.now (take k (lines input)))) }
    ensures read { IfSome (R.remaining reader.old) (λ input. result ≡ ReadFault →
        MadeOfRead input (R.remaining reader.new) (W.contents writer.old) (W.contents writer.new) (text_of tree.now)) }
    ensures prefix { IfSome (R.remaining reader.old) (λ input. (n : ℕ) ×
        Appends (W.contents writer.old) (W.contents writer.new) (take n (text_of tree.now (lines input)))) }
{
    let mut buffers = new_buffers(alloc);
    match write_opening(tree, &mut buffers, writer) {
        Ok(()) => match World::new(alloc, tree) {
            Ok(mut world) => stream_on(alloc, &mut world, reader, &mut buffers, writer),
            Err(_) => Streamed::Memory,
        },
        Err(fault) => unwritten(fault),
    }
}

/// Returns what is told if the flush failed: the first fault.
fn unflushed(streamed: Streamed) -> Streamed
    ensures not_done { IsDone result → ⊥ }
    ensures read { result ≡ ReadFault → streamed ≡ ReadFault }
{
    match streamed {
        Streamed::Ended | Streamed::Faulty(..) => Streamed::WriteFault,
        fault => fault,
    }
}

/// Writes the trace of a schedule while the schedule is read: of each line its item is made, and the lines that it
/// leaves are written, before the next line is read. At the end the writer is flushed.
///
/// What is written is the text of the trace that [`run`](crate::run) answers for the items of all lines before the end
/// or the first faulty line, so that it is safe at every moment. After a read fault it is that of all lines that were
/// read before: what was read and is not in it has no line feed (`read`, specs/Streaming.antt); if a write fails or
/// memory runs out, it is a prefix. A write or flush that fails is told also if a line was refused before it. A
/// reader that gives no end in 2^32 reads counts as one that fails.
pub fn stream<R: Read, W: Write>(
    alloc: Global,
    tree: &Tree,
    reader: &mut R,
    writer: &mut W,
) -> Streamed
    ensures done { IfSome (R.remaining reader.old) (λ input. IsDone result →
        (result ≡ ending_of tree.now (lines input))
        × Appends (W.contents writer.old) (W.contents writer.new) (text_of tree.now (lines input))) }
    ensures whole { IfSome (R.remaining reader.old) (λ input. result ≡ ReadFault → (k : ℕ) ×
        Appends (W.contents writer.old) (W.contents writer.new) (text_of tree.now (take k (lines input)))) }
    ensures read { IfSome (R.remaining reader.old) (λ input. result ≡ ReadFault →
        MadeOfRead input (R.remaining reader.new) (W.contents writer.old) (W.contents writer.new) (text_of tree.now)) }
    ensures prefix { IfSome (R.remaining reader.old) (λ input. (n : ℕ) ×
        Appends (W.contents writer.old) (W.contents writer.new) (take n (text_of tree.now (lines input)))) }
{
    let streamed = stream_all(alloc, tree, reader, writer);
    match writer.flush() {
        Ok(()) => streamed,
        Err(_) => unflushed(streamed),
    }
}
