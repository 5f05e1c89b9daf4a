//! A journal's file, read line by line.

use crate::cutter::{JournalCut, LineCutter};
use crate::fault::{LineError, LineFault};
use crate::head::{DIGEST_BYTES, check_head};
use crate::line::{JournalLine, Says, Spelling, read_line};
use smi_protocol::Entry;
use smi_tree::Tree;
use std::alloc::Global;
use std::io::Read;

/// Why a file was not read on.
#[derive(Clone, Copy, PartialEq, Eq)]
pub(crate) enum FileFault {
    /// The line of this number, counting all lines from 1, is none.
    Line(u64, LineFault),
    /// A read failed.
    Read,
    /// Out of memory.
    Memory,
}

/// Gives the bytes of a journal's file.
///
/// An audit reads the head of every file before it reads on in any, so a source can be set aside in between: one over
/// a file then closes it, because a night may have more files than a process may have open.
pub trait JournalSource: Read {
    /// Frees what is held open for reading. The next read goes on where the last one ended.
    fn set_aside(&mut self);
}

/// A file of a journal, by its name and what gives its bytes.
#[derive(Drop)]
pub struct JournalFile<R: JournalSource + Drop> {
    pub(crate) name: Vec<u8>,
    reader: R,
    cutter: LineCutter,
    /// The number of the line that was cut last.
    line: u64,
    /// Its first line after the head, which says whose it is, and in which place among that station's.
    first: Option<JournalLine>,
}

impl FileFault {
    /// Returns the fault of a line that was not read or not taken.
    pub(crate) fn of_line(line: u64, error: LineError) -> FileFault {
        match error {
            LineError::Fault(fault) => FileFault::Line(line, fault),
            LineError::Memory => FileFault::Memory,
        }
    }
}

/// Returns true if a file may begin with a line: with a start, or with the word that it goes on.
fn may_begin(line: &JournalLine) -> bool {
    match line.says {
        Says::Entry(Entry::Booted { .. }) | Says::Continues { .. } => true,
        _ => false,
    }
}

impl<R: JournalSource + Drop> JournalFile<R> {
    /// Makes one of which nothing is read yet.
    pub fn new(alloc: Global, name: Vec<u8>, reader: R) -> JournalFile<R> {
        JournalFile {
            name,
            reader,
            cutter: LineCutter::new(alloc),
            line: 0,
            first: None,
        }
    }

    /// Returns the first line after the head, before it is read.
    pub(crate) fn first(&self) -> Option<JournalLine> {
        self.first
    }

    /// Cuts the next line; false at the end of the file.
    fn cut(&mut self) -> Result<bool, FileFault> {
        match self.cutter.cut(&mut self.reader) {
            JournalCut::Line => {
                self.line = self.line.saturating_add(1);
                Ok(true)
            }
            JournalCut::TooLong => Err(FileFault::Line(
                self.line.saturating_add(1),
                LineFault::LineTooLong,
            )),
            JournalCut::End => Ok(false),
            JournalCut::ReadFault => Err(FileFault::Read),
            JournalCut::Memory => Err(FileFault::Memory),
        }
    }

    /// Reads the head and the first line after it. A file with no whole line has neither, and says nothing.
    pub(crate) fn open(
        &mut self,
        tree: &Tree,
        digest: &[u8; DIGEST_BYTES],
        spelling: &mut Spelling,
    ) -> Result<(), FileFault> {
        if !self.cut()? {
            return Ok(());
        }
        if let Err(fault) = check_head(tree, digest, self.cutter.line()) {
            return Err(FileFault::Line(self.line, fault));
        }
        self.first = self.read_next(tree, spelling)?;
        self.reader.set_aside();
        match &self.first {
            Some(line) if !may_begin(line) => {
                Err(FileFault::Line(self.line, LineFault::UnknownWord))
            }
            _ => Ok(()),
        }
    }

    fn read_next(
        &mut self,
        tree: &Tree,
        spelling: &mut Spelling,
    ) -> Result<Option<JournalLine>, FileFault> {
        if !self.cut()? {
            return Ok(None);
        }
        match read_line(spelling, tree, self.cutter.line()) {
            Ok(line) => Ok(Some(line)),
            Err(error) => Err(FileFault::of_line(self.line, error)),
        }
    }

    /// Reads the next line after the head, with its number; None at the end of the file.
    pub(crate) fn next(
        &mut self,
        tree: &Tree,
        spelling: &mut Spelling,
    ) -> Result<Option<(u64, JournalLine)>, FileFault> {
        let line = match self.first {
            Some(line) => Some(line),
            None => self.read_next(tree, spelling)?,
        };
        self.first = None;
        match line {
            Some(line) => Ok(Some((self.line, line))),
            None => Ok(None),
        }
    }
}
