//! What a step leaves in a journal.

ghost use Rattle.std.specs.Prelude.{ℕ, ◌≡◌, ◌++◌, OnOk, map, take};
ghost use Rattle.std.specs.Io.KnownBytes.{Appends};
ghost use Rattle.smi_journal.specs.Text.{entries_text, is_silent, step_entries};
ghost use Rattle.smi_protocol.specs.Happening.{told_entries};
ghost use Rattle.smi_protocol.specs.Step.{showed_entries};
ghost use Rattle.smi_protocol.specs.declared.entry.Entry.TheVariants as entry;
ghost use Rattle.smi_schedule.specs.Text.{entry_text};

use smi_base::write_whole;
use smi_grant::Shown;
use smi_protocol::{Answer, Entry, Line};
use smi_schedule::{Unwritten, spell};
use smi_station_output::Out;
use smi_tree::Tree;
use std::alloc::AllocError;
use std::io::Write;

/// What the lines of a step have in common.
#[derive(Clone, Copy)]
pub struct LineContext<'a> {
    pub tree: &'a Tree,
    /// The number of the station, from 1.
    pub station: u16,
    /// What each line begins with: the time, the station and the boot, each followed by a space.
    pub prefix: &'a [u8],
}

/// Adds the line of an entry to a text. It is put together in `line`.
pub fn push_entry(
    text: &mut Vec<u8>,
    line: &mut Vec<u8>,
    context: LineContext<'_>,
    entry: Entry,
) -> Result<(), AllocError>
    ensures { OnOk result (text.new.items ≡
        text.old.items ++ context.entry.prefix.now ++ entry_text context.entry.tree.now entry) }
{
    spell(line, context.tree, &Line::Entry(entry))?;
    text.extend_from_slice(context.prefix)?;
    text.extend_from_slice(line.as_slice())
}

/// Adds the lines of entries.
fn push_entries(
    text: &mut Vec<u8>,
    line: &mut Vec<u8>,
    context: LineContext<'_>,
    entries: &[Entry],
) -> Result<(), AllocError>
    ensures { OnOk result (text.new.items ≡
        text.old.items ++ entries_text context.entry.tree.now context.entry.prefix.now entries.now) }
{
    for entry in entries {
        push_entry(text, line, context, *entry)?;
    }
    Ok(())
}

/// Adds the line of what a station took as shown, if it took something.
fn push_showed(
    text: &mut Vec<u8>,
    line: &mut Vec<u8>,
    context: LineContext<'_>,
    shown: Option<Shown>,
) -> Result<(), AllocError>
    ensures { OnOk result (text.new.items ≡ text.old.items
        ++ entries_text context.entry.tree.now context.entry.prefix.now (showed_entries context.entry.station shown)) }
{
    match shown {
        Some(shown) => {
            let station = context.station;
            push_entry(text, line, context, Entry::Showed { station, shown })
        }
        None => Ok(()),
    }
}

/// Adds the lines of what objects passed.
fn push_passed(
    text: &mut Vec<u8>,
    line: &mut Vec<u8>,
    context: LineContext<'_>,
    passed: &[Shown],
) -> Result<(), AllocError>
    ensures { OnOk result (text.new.items ≡ text.old.items
        ++ entries_text context.entry.tree.now context.entry.prefix.now (map entry.Passed passed.now)) }
{
    for shown in passed {
        push_entry(text, line, context, Entry::Passed(*shown))?;
    }
    Ok(())
}

/// Adds the lines of answers.
fn push_told(
    text: &mut Vec<u8>,
    line: &mut Vec<u8>,
    context: LineContext<'_>,
    answers: &[Answer],
) -> Result<(), AllocError>
    ensures { OnOk result (text.new.items ≡ text.old.items
        ++ entries_text context.entry.tree.now context.entry.prefix.now (told_entries answers.now)) }
{
    for answer in answers {
        let told = Entry::Told {
            operator: answer.operator,
            told: answer.told,
        };
        push_entry(text, line, context, told)?;
    }
    Ok(())
}

/// Adds the lines of what a step of a station has handed out: what its save left, what the station took as shown, what
/// its objects passed, and what it answered.
///
/// Its error is that memory was refused; the text then has some of the lines.
pub fn push_step(
    text: &mut Vec<u8>,
    line: &mut Vec<u8>,
    context: LineContext<'_>,
    out: &Out,
) -> Result<(), AllocError>
    ensures { OnOk result (text.new.items ≡ text.old.items
        ++ entries_text context.entry.tree.now context.entry.prefix.now (step_entries context.entry.station out.now)) }
{
    push_entries(text, line, context, out.entries().as_slice())?;
    push_showed(text, line, context, out.shown())?;
    push_passed(text, line, context, out.transitions().as_slice())?;
    push_told(text, line, context, out.answers())
}

/// Returns true if a step has handed out nothing that a journal tells.
pub fn is_silent(out: &Out) -> bool
    ensures { result ≡ is_silent out.now }
{
    out.entries().as_slice().is_empty()
        && out.shown().is_none()
        && out.transitions().as_slice().is_empty()
        && out.answers().is_empty()
}

/// Writes a text, and after it what a step of a station has handed out, all at once. Both are put together in `text`.
///
/// On an error a prefix of that is written; if memory was refused, nothing.
pub fn write_step<W: Write>(
    writer: &mut W,
    text: &mut Vec<u8>,
    line: &mut Vec<u8>,
    context: LineContext<'_>,
    out: &Out,
) -> Result<(), Unwritten>
    ensures all { OnOk result (Appends (W.contents writer.old) (W.contents writer.new) (text.old.items
        ++ entries_text context.entry.tree.now context.entry.prefix.now (step_entries context.entry.station out.now))) }
    ensures prefix { (n : ℕ) × Appends (W.contents writer.old) (W.contents writer.new) (take n (text.old.items
        ++ entries_text context.entry.tree.now context.entry.prefix.now
        (step_entries context.entry.station out.now))) }
{
    push_step(text, line, context, out)?;
    write_whole(writer, text.as_slice())?;
    Ok(())
}
