//! Simulates a schedule in a tree, writes its trace, and returns the exit status.
//!
//! `sim` calls it for `smi sim`, with a file or a seed. The world is that of `smi_world`; docs/FORMATS.md, "Schedules",
//! "Traces" and "Drawn schedules", has the texts. The contracts tie the exit status to what was written (specs/Ending).

ghost use Rattle.std.specs.Prelude.{◌≡◌, ◌⊎◌, ℕ, IfSome, take};
ghost use Rattle.std.specs.Str.Lines.{lines};
ghost use Rattle.std.specs.Io.KnownBytes.{Appends};
ghost use Rattle.smi_protocol.specs.Schedule.{trace_of};
ghost use Rattle.smi_schedule.specs.Drawn.{schedule_drawn};
ghost use Rattle.smi_schedule.specs.Text.{trace_text};
ghost use Rattle.smi_world.specs.Streaming.{ending_of, text_of};
ghost use Rattle.smi_world.specs.declared.streaming.Streamed.TheVariants.{Ended};
ghost use Rattle.smi_program.specs.Ending.{HasFault, status_of};

use smi_commands::status::{Status, no_memory, read_fault, write_fault};
use smi_schedule::Unwritten;
use smi_tree::Tree;
use smi_world::{Settled, Streamed, stream, stream_drawn, stream_drawn_settled, stream_settled};
use std::alloc::Global;
use std::io::{Read, Write};

/// Writes the fault with which the stream of a schedule ended, if any. Returns the exit status.
fn report_stream<F: Write>(streamed: Streamed, faults: &mut F) -> u8
    ensures { result ≡ status_of streamed }
{
    match streamed {
        Streamed::Ended => Status::Done.code(),
        Streamed::Faulty(line, fault) => {
            // If standard error can't be written, the status alone says so.
            let _ = writeln!(faults, "schedule line {line} fault {fault}");
            Status::Refused.code()
        }
        Streamed::ReadFault => read_fault(faults).code(),
        Streamed::WriteFault => write_fault(faults).code(),
        Streamed::Memory => no_memory(faults).code(),
    }
}

/// Runs a schedule: reads a line, and writes what it leaves of the trace before the next line is read. Returns the exit
/// status.
///
/// The status is 0 if the whole trace is written. It is 1 if a line is faulty: then the trace of the lines before it is
/// written, and `schedule line L fault C` on `faults`. It is 3 if a read or a write failed, and 4 if memory ran out.
pub fn sim<R: Read, W: Write, F: Write>(
    alloc: Global,
    tree: &Tree,
    reader: &mut R,
    writer: &mut W,
    faults: &mut F,
) -> u8
    ensures ended { IfSome (R.remaining reader.old) (λ input. result ≡ 0 →
        (ending_of tree.now (lines input) ≡ Ended)
        × Appends (W.contents writer.old) (W.contents writer.new) (text_of tree.now (lines input))) }
    ensures refused { IfSome (R.remaining reader.old) (λ input. result ≡ 1 →
        HasFault tree.now (lines input)
        × Appends (W.contents writer.old) (W.contents writer.new) (text_of tree.now (lines input))) }
    ensures prefix { IfSome (R.remaining reader.old) (λ input. (n : ℕ) ×
        Appends (W.contents writer.old) (W.contents writer.new) (take n (text_of tree.now (lines input)))) }
    ensures status { (result ≡ 0) ⊎ (result ≡ 1) ⊎ (result ≡ 3) ⊎ (result ≡ 4) }
{
    report_stream(stream(alloc, tree, reader, writer), faults)
}

/// Runs the schedule of this many items (`steps`) that a seed draws, and writes its trace while it is drawn. Returns
/// the exit status: 0 if the whole trace is written, 3 if a write failed, and 4 if memory ran out.
pub fn sim_drawn<W: Write, F: Write>(
    alloc: Global,
    tree: &Tree,
    seed: u64,
    steps: u64,
    writer: &mut W,
    faults: &mut F,
) -> u8
    ensures ended { result ≡ 0 →
        Appends (W.contents writer.old) (W.contents writer.new)
        (trace_text tree.now (trace_of tree.now (schedule_drawn tree.now seed steps))) }
    ensures prefix { (n : ℕ) ×
        Appends (W.contents writer.old) (W.contents writer.new)
        (take n (trace_text tree.now (trace_of tree.now (schedule_drawn tree.now seed steps)))) }
    ensures status { (result ≡ 0) ⊎ (result ≡ 3) ⊎ (result ≡ 4) }
{
    match stream_drawn(alloc, tree, seed, steps, writer) {
        Ok(()) => Status::Done.code(),
        Err(Unwritten::Writer) => write_fault(faults).code(),
        Err(Unwritten::Memory) => no_memory(faults).code(),
    }
}

/// Writes the fault with which a schedule ended that was to settle, if any. Returns the exit status.
fn report_settled<F: Write>(settled: Settled, faults: &mut F) -> u8 {
    match settled {
        Settled::Rests(_) => Status::Done.code(),
        Settled::Restless => {
            // If standard error can't be written, the status alone says so.
            let _ = writeln!(faults, "not settled");
            Status::Refused.code()
        }
        Settled::Unsettled(how) => report_stream(how, faults),
    }
}

/// Runs a schedule as [`sim`] does, and goes on until nothing is under way: stations that have stopped start again,
/// stations tick, and what was sent comes. The lines that this leaves are written like any others, and at the end
/// `settled after N items`. Returns the exit status: 1 also if something is still under way after ten thousand rounds,
/// which is written as `not settled` on `faults`.
pub fn sim_settled<R: Read, W: Write, F: Write>(
    alloc: Global,
    tree: &Tree,
    reader: &mut R,
    writer: &mut W,
    faults: &mut F,
) -> u8 {
    report_settled(stream_settled(alloc, tree, reader, writer), faults)
}

/// Does the same as [`sim_settled`] with the schedule of this many items (`steps`) that a seed draws.
pub fn sim_drawn_settled<W: Write, F: Write>(
    alloc: Global,
    tree: &Tree,
    seed: u64,
    steps: u64,
    writer: &mut W,
    faults: &mut F,
) -> u8 {
    report_settled(
        stream_drawn_settled(alloc, tree, seed, steps, writer),
        faults,
    )
}
