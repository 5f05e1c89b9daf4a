//! Writes entries as the lines of a file and reads such lines again, for `--history`: `1790000000123 board TRK 1.6
//! READY`. `crates/smi_screen/src/history_file.rt` calls it. docs/FORMATS.md, "The history of a screen", fixes the
//! lines: files of earlier programs have to be read.

ghost use Rattle.std.specs.Prelude.{◌≡◌, ◌++◌, IfOk, OnOk, option_map};
ghost use Rattle.std.specs.List.{list_all};
ghost use Rattle.smi_history.specs.Lines as spec;

use crate::history::{History, HistoryEntry, HistoryNote};
use crate::note_text::NoteText;
use crate::parts::cut_at;
use crate::text::{is_all_plain, put, put_number};
use smi_tree::number_within;
use std::alloc::{AllocError, Global};

/// How many digits a time in milliseconds since 1970 has, from the year 2001 until the year 2286. A line whose time has
/// another length is not an entry.
const TIME_DIGITS: usize = 13;

/// How many of these digits are whole seconds; the other three are milliseconds.
const SECOND_DIGITS: usize = 10;

/// The last second that has ten digits: no ten digits are refused.
const LAST_SECOND: u64 = 9_999_999_999;

/// Returns the time that a word of thirteen digits is, in milliseconds since 1970. None if the word is none.
fn time_of(word: &[u8]) -> Option<u64>
    ensures { result ≡ spec.time_of word.now }
{
    if word.len() != TIME_DIGITS {
        return None;
    }
    let (seconds, rest) = word.split_at(SECOND_DIGITS);
    let seconds = number_within(0, LAST_SECOND, seconds)?;
    let rest = number_within(0, 999, rest)?;
    Some(1_000 * seconds + rest)
}

/// Returns the time with which a line begins, and what follows the space after it. None if it has no time or no space.
fn timed_text(line: &[u8]) -> Option<(u64, &[u8])>
    ensures { option_map (λ timed. (timed.0, timed.1.now)) result ≡ spec.timed_text line.now }
{
    let (word, rest) = cut_at(b' ', line);
    let at = time_of(word)?;
    Some((at, rest?))
}

/// Returns the note that a line is. None if it is no line of an entry.
fn note_in(alloc: Global, line: &[u8]) -> Result<Option<HistoryNote>, AllocError>
    ensures { IfOk result (λ note. note ≡ spec.note_in line.now) }
{
    match timed_text(line) {
        Some((at, text)) if is_all_plain(text) => Ok(Some(HistoryNote {
            at,
            text: NoteText::copy_of(alloc, text)?,
        })),
        _ => Ok(None),
    }
}

/// Appends an entry as a line: `1790000000123 board TRK 1.6 READY`, with a line feed.
#[tactic(auto, unfolding(crate::specs::Lines::entry_line))]
fn put_line(text: &mut Vec<u8>, entry: &HistoryEntry) -> Result<(), AllocError>
    ensures { OnOk result (text.new.items ≡ text.old.items ++ spec.entry_line entry.now) }
{
    put_number(text, b"", entry.note.at)?;
    put(text, b" ")?;
    put(text, entry.note.text.as_slice())?;
    put(text, b"\n")
}

impl History {
    ghost use Rattle.std.specs.Prelude.{◌≡◌, OnOk, IfOk};
    ghost use Rattle.smi_history.specs.Lines as spec;

    /// Writes entries as the lines of a file, the oldest first: those after the one of this number, 10,000 at most.
    ///
    /// Fails only if memory is refused (tested, not proved).
    pub fn write_lines(&self, number: u64) -> Result<Vec<u8>, AllocError>
        ensures { IfOk result (λ text. text.items ≡ spec.lines_text self.now number) }
    {
        let mut text = Vec::new(self.alloc());
        for entry in self.piece(number) {
            put_line(&mut text, entry)?;
        }
        Ok(text)
    }

    /// Adds the entry that a line is. A line that is none changes nothing.
    fn take_line(&mut self, line: &[u8]) -> Result<(), AllocError>
        ensures { OnOk result (self.new ≡ spec.line_noted self.old line.now) }
    {
        match note_in(self.alloc(), line)? {
            Some(note) => self.note(note),
            None => Ok(()),
        }
    }

    /// Adds the entries that the lines of a file are, but for a last line without a line feed.
    #[tactic(auto, using(crate::proofs::Whole::whole_more))]
    fn take_lines(&mut self, bytes: &[u8]) -> Result<(), AllocError>
        ensures { OnOk result (self.new ≡ spec.lines_noted self.old (spec.whole_lines bytes.now)) }
    {
        let mut left = Some(bytes);
        while let Some(rest) = left {
            let (line, more) = cut_at(b'\n', rest);
            if more.is_some() {
                self.take_line(line)?;
            }
            left = more;
        }
        Ok(())
    }

    /// Reads the lines of a file, the oldest entry first. None of the entries counts as saved, because the file is
    /// written again at a start. Lines that are no entries are skipped, and so is a last one without a line feed, as a
    /// kill leaves it.
    ///
    /// Fails only if memory is refused (tested, not proved). No clause names `alloc`, from which memory comes.
    pub fn read(alloc: Global, bytes: &[u8]) -> Result<History, AllocError>
        ensures { IfOk result (λ history. history ≡ spec.history_in bytes.now) }
    {
        let mut history = History::new(alloc);
        history.take_lines(bytes)?;
        Ok(history)
    }
}
