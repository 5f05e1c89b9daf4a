//! The current file of a journal, and what it has of the steps.

ghost use Rattle.std.specs.Prelude.{◌≡◌, ◌∷◌, ◌++◌, [], OnOk, Some, false, is_ok, true};
ghost use Rattle.std.specs.Prelude.{option_map, unwrap_or};
ghost use Rattle.smi_journal.specs.Noted.{BeginsOne, NotesOne, entries_of_file_wait};
ghost use Rattle.smi_journal.specs.Text.{entries_text, is_silent, step_entries};
ghost use Rattle.smi_journal.specs.Waiting.{may_wait};

use crate::notes::{Noting, NotingChain};
use crate::opening::Room;
use crate::step::{LineContext, push_step, write_step};
use crate::waiting::may_wait;
use smi_base::{NotWritten, write_whole};
use smi_schedule::Unwritten;
use smi_station_output::Out;
use smi_tree::Tree;
use std::alloc::{AllocError, Global};
use std::io::Write;
use std::marker::Model;
use std::snapshot::Snapshot;
use std::sync::Arc;

/// A file that is written.
#[derive(Drop)]
struct StepFile<W: Drop> {
    writer: W,
    /// The writer when the file was made, as contracts alone see it.
    made: Snapshot<W>,
    /// How many bytes the file has.
    bytes: u64,
    /// On which day it was begun, from 1970.
    day: u64,
    /// The lines of the steps that are kept until the next one is written.
    waiting: Vec<u8>,
    /// Whether entries are among these lines.
    has_entries: bool,
}

/// Writes the steps of a station into one file after the other.
///
/// Contracts see what it was told of each step, in order, and that its file has the entries of each since it was begun,
/// but for those of the last ones that may wait.
#[derive(Drop)]
pub(crate) struct StepWriter<W: Write + Drop> {
    tree: Arc<Tree, Global>,
    station: u16,
    file: Option<StepFile<W>>,
    last: Option<Snapshot<NotingChain>>,
}

impl<W: Write + Drop> Model for StepWriter<W> {
    ghost use Rattle.std.specs.Prelude.{[], option_map, unwrap_or};
    ghost use Rattle.smi_journal.specs.Noted.{AreKept, Notes};

    ghost Value = { Notes };

    ghost view = { λ w. record {
      tree = w.tree.value;
      station = w.station;
      notings = unwrap_or (option_map (λ last. last.value) w.last) [];
      file = option_map (λ f. record {
        made = W.contents f.made.value;
        now = W.contents f.writer;
        waiting = f.waiting.items;
        has_entries = f.has_entries;
      }) w.file;
    } };

    ghost invariant = { λ w. AreKept (record {
      tree = w.tree.value;
      station = w.station;
      notings = unwrap_or (option_map (λ last. last.value) w.last) [];
      file = option_map (λ f. record {
        made = W.contents f.made.value;
        now = W.contents f.writer;
        waiting = f.waiting.items;
        has_entries = f.has_entries;
      }) w.file;
    }) };
}

/// Returns what a journal did, with this after all that it did before.
fn then(before: Option<Snapshot<NotingChain>>, newest: Noting) -> Option<Snapshot<NotingChain>>
    ensures { option_map (λ last. last.value) result
        ≡ Some (newest ∷ unwrap_or (option_map (λ last. last.value) before) []) }
{
    Some(Snapshot::of(&NotingChain { before, newest }))
}

/// Returns what the lines of a step have in common.
fn context_of<'a>(tree: &'a Tree, station: u16, beginning: &'a [u8]) -> LineContext<'a>
    ensures tree { result.tree.now ≡ tree.now }
    ensures station { result.station ≡ station }
    ensures prefix { result.prefix.now ≡ beginning.now }
{
    LineContext {
        tree,
        station,
        prefix: beginning,
    }
}

/// Adds a text to the lines that wait, and after it the lines of what a step has handed out.
///
/// Its error is that memory was refused.
fn push_both(
    waiting: &mut Vec<u8>,
    text: &Vec<u8>,
    line: &mut Vec<u8>,
    context: LineContext<'_>,
    out: &Out,
) -> Result<(), AllocError>
    ensures { OnOk result (waiting.new.items ≡ waiting.old.items ++ text.now.items
        ++ entries_text context.entry.tree.now context.entry.prefix.now (step_entries context.entry.station out.now)) }
{
    waiting.extend_from_slice(text.as_slice())?;
    push_step(waiting, line, context, out)
}

impl<W: Write + Drop> StepWriter<W> {
    /// Makes one that has no file and was told nothing.
    pub(crate) fn new(tree: Arc<Tree, Global>, station: u16) -> StepWriter<W>
        ensures notings { result.notings ≡ [] }
        ensures tree { result.tree ≡ tree.value }
        ensures station { result.station ≡ station }
    {
        StepWriter {
            tree,
            station,
            file: None,
            last: None,
        }
    }

    /// Returns the current file.
    pub(crate) fn file(&self) -> Option<&W> {
        match &self.file {
            Some(file) => Some(&file.writer),
            None => None,
        }
    }

    /// Returns whether the file has this many bytes, or was begun on another day.
    pub(crate) fn is_full(&self, bytes: u64, day: u64) -> bool {
        match &self.file {
            Some(file) => file.bytes >= bytes || file.day != day,
            None => false,
        }
    }

    /// Returns whether lines wait for those of a later step.
    pub(crate) fn is_waiting(&self) -> bool {
        match &self.file {
            Some(file) => !file.waiting.is_empty(),
            None => false,
        }
    }

    /// Returns whether the lines of a step may wait.
    pub(crate) fn may_wait(&self, out: &Out) -> bool
        ensures { result ≡ may_wait self.now.station (entries_of_file_wait self.now) out.now }
    {
        let do_others_wait = match &self.file {
            Some(file) => file.has_entries,
            None => false,
        };
        may_wait(self.station, do_others_wait, out)
    }

    /// Begins a file with a text, in place of the one that it has. On an error it keeps that.
    pub(crate) fn begin(&mut self, writer: W, opening: &Vec<u8>, day: u64) -> Result<(), NotWritten>
        ensures begun { is_ok result ≡ true → BeginsOne opening.now.items self.old.notings self.new.notings }
        ensures kept { is_ok result ≡ false → self.new ≡ self.old }
        ensures tree { self.new.tree ≡ self.old.tree }
        ensures station { self.new.station ≡ self.old.station }
    {
        let mut writer = writer;
        let made = Snapshot::of(&writer);
        write_whole(&mut writer, opening.as_slice())?;
        let opened = Snapshot::of(opening);
        let waiting = Vec::new(*opening.allocator());
        self.file = None;
        self.last = then(self.last.take(), Noting::Begins { opening: opened });
        self.file = Some(StepFile {
            writer,
            made,
            bytes: opening.len() as u64,
            day,
            waiting,
            has_entries: false,
        });
        Ok(())
    }

    /// Ends the file that it has.
    pub(crate) fn end(&mut self)
        ensures notings { self.new.notings ≡ self.old.notings }
        ensures tree { self.new.tree ≡ self.old.tree }
        ensures station { self.new.station ≡ self.old.station }
    {
        self.file = None;
    }

    /// Notes a step that is written nowhere, and ends the file.
    pub(crate) fn lose(&mut self, out: &Out)
        ensures notes { NotesOne out.now self.old.notings self.new.notings }
        ensures tree { self.new.tree ≡ self.old.tree }
        ensures station { self.new.station ≡ self.old.station }
    {
        self.file = None;
        let handed = Snapshot::of(out);
        self.last = then(self.last.take(), Noting::Loses { handed });
    }

    /// Notes a step that has handed out nothing that a journal tells.
    pub(crate) fn skip(&mut self, out: &Out)
        requires { is_silent out.now ≡ true }
        ensures notes { NotesOne out.now self.old.notings self.new.notings }
        ensures tree { self.new.tree ≡ self.old.tree }
        ensures station { self.new.station ≡ self.old.station }
    {
        let file = self.file.take();
        let handed = Snapshot::of(out);
        self.last = then(self.last.take(), Noting::Skips { handed });
        self.file = file;
    }

    /// Keeps what was typed, which is the text of the room, and each entry of a step with the prefix of the room, until
    /// the next step is written.
    ///
    /// If memory was refused, or without a file, the step is lost, and the file is ended.
    pub(crate) fn keep(&mut self, room: &mut Room, out: &Out) -> Result<(), Unwritten>
        requires { may_wait self.now.station (entries_of_file_wait self.now) out.now ≡ true }
        ensures notes { NotesOne out.now self.old.notings self.new.notings }
        ensures tree { self.new.tree ≡ self.old.tree }
        ensures station { self.new.station ≡ self.old.station }
    {
        let Room {
            text,
            line,
            prefix,
            ..
        } = room;
        let typed = Snapshot::of(&*text);
        let handed = Snapshot::of(out);
        let Some(file) = self.file.take() else {
            self.last = then(self.last.take(), Noting::Loses { handed });
            return Err(Unwritten::Writer);
        };
        let mut file = file;
        let context = context_of(&self.tree, self.station, prefix.as_slice());
        if push_both(&mut file.waiting, text, line, context, out).is_err() {
            self.last = then(self.last.take(), Noting::Loses { handed });
            return Err(Unwritten::Memory);
        }
        file.has_entries = !out.entries().as_slice().is_empty() || file.has_entries;
        let prefix = Snapshot::of(&*prefix);
        let noting = Noting::Keeps {
            typed,
            prefix,
            handed,
        };
        self.last = then(self.last.take(), noting);
        self.file = Some(file);
        Ok(())
    }

    /// Writes the lines that wait, what was typed, which is the text of the room, and after it each entry of a step
    /// with the prefix of the room, all at once.
    ///
    /// On an error, or without a file, the step is lost, and the file is ended.
    pub(crate) fn write(&mut self, room: &mut Room, out: &Out) -> Result<(), Unwritten>
        ensures notes { NotesOne out.now self.old.notings self.new.notings }
        ensures tree { self.new.tree ≡ self.old.tree }
        ensures station { self.new.station ≡ self.old.station }
    {
        let Room {
            text,
            line,
            prefix,
            ..
        } = room;
        let typed = Snapshot::of(&*text);
        let handed = Snapshot::of(out);
        let Some(file) = self.file.take() else {
            self.last = then(self.last.take(), Noting::Loses { handed });
            return Err(Unwritten::Writer);
        };
        let mut file = file;
        if file.waiting.extend_from_slice(text.as_slice()).is_err() {
            self.last = then(self.last.take(), Noting::Loses { handed });
            return Err(Unwritten::Memory);
        }
        let context = context_of(&self.tree, self.station, prefix.as_slice());
        if let Err(unwritten) = write_step(
            &mut file.writer,
            &mut file.waiting,
            line,
            context,
            out,
        ) {
            self.last = then(self.last.take(), Noting::Loses { handed });
            return Err(unwritten);
        }
        let prefix = Snapshot::of(&*prefix);
        let noting = Noting::Writes {
            typed,
            prefix,
            handed,
        };
        self.last = then(self.last.take(), noting);
        file.bytes = file.bytes.saturating_add(file.waiting.len() as u64);
        file.waiting.clear();
        file.has_entries = false;
        self.file = Some(file);
        Ok(())
    }
}
