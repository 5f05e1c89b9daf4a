//! Lines, written one by one.

ghost use Rattle.std.specs.Prelude.{ℕ, ◌≡◌, Err, OnOk, take};
ghost use Rattle.std.specs.Io.KnownBytes.{Appends};
ghost use Rattle.smi_schedule.specs.Text.{line_text, trace_text};

use crate::trace_line::spell;
use smi_base::{NotWritten, write_whole};
use smi_protocol::Line;
use smi_tree::Tree;
use std::alloc::AllocError;
use std::io::Write;

/// Why lines were not all written.
#[derive(Clone, Copy, Debug, PartialEq, Eq)]
pub enum Unwritten {
    /// A write failed, or the writer takes no more.
    Writer,
    /// Out of memory.
    Memory,
}

impl From<NotWritten> for Unwritten {
    ghost use Rattle.std.specs.Prelude.{◌≡◌};
    ghost use Rattle.smi_schedule.specs.declared.write.Unwritten.TheVariants as unwritten;

    ghost from_gives = { λ _ fault. fault ≡ unwritten.Writer };

    fn from(_failed: NotWritten) -> Unwritten {
        Unwritten::Writer
    }
}

impl From<AllocError> for Unwritten {
    ghost use Rattle.std.specs.Prelude.{◌≡◌};
    ghost use Rattle.smi_schedule.specs.declared.write.Unwritten.TheVariants as unwritten;

    ghost from_gives = { λ _ fault. fault ≡ unwritten.Memory };

    fn from(_refused: AllocError) -> Unwritten {
        Unwritten::Memory
    }
}

/// Writes the text of a line, which is put together in `text`.
///
/// On an error a prefix of it is written; if memory ran out, nothing.
pub fn write_line<W: Write>(
    writer: &mut W,
    text: &mut Vec<u8>,
    tree: &Tree,
    line: &Line,
) -> Result<(), Unwritten>
    ensures all { OnOk result (Appends (W.contents writer.old) (W.contents writer.new) (line_text tree.now line.now)) }
    ensures prefix { (n : ℕ) ×
        Appends (W.contents writer.old) (W.contents writer.new) (take n (line_text tree.now line.now)) }
    ensures memory { result ≡ Err Unwritten.Memory → writer.new ≡ writer.old }
{
    spell(text, tree, line)?;
    write_whole(writer, text.as_slice())?;
    Ok(())
}

/// Writes the text of lines, one after the other; each is put together in `text`.
///
/// On an error a prefix of it is written; if memory ran out, a number of whole lines.
pub fn write_lines<W: Write>(
    writer: &mut W,
    text: &mut Vec<u8>,
    tree: &Tree,
    lines: &[Line],
) -> Result<(), Unwritten>
    ensures all { OnOk result
        (Appends (W.contents writer.old) (W.contents writer.new) (trace_text tree.now lines.now)) }
    ensures prefix { (n : ℕ) ×
        Appends (W.contents writer.old) (W.contents writer.new) (take n (trace_text tree.now lines.now)) }
    ensures memory { result ≡ Err Unwritten.Memory →
        (k : ℕ) × Appends (W.contents writer.old) (W.contents writer.new) (trace_text tree.now (take k lines.now)) }
{
    for line in lines {
        write_line(writer, text, tree, line)?;
    }
    Ok(())
}
