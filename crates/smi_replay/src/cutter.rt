//! The lines of a journal's file, cut from a reader one after the other.

use crate::line::MOST_BYTES_OF_A_JOURNAL_LINE;
use memchr::memchr;
use std::alloc::{AllocError, Global};
use std::io::{ErrorKind, Read};

/// The most reads of a file: after them its reader counts as faulty.
const MOST_READS: u64 = 1 << 32;

/// How many bytes are read at once.
const CHUNK: usize = 4096;

/// What became of the search for a line.
#[derive(Clone, Copy, PartialEq, Eq)]
pub(crate) enum JournalCut {
    /// There is one.
    Line,
    /// The next one has more than 300 bytes.
    TooLong,
    /// The file has no more lines that end in a line feed.
    End,
    /// A read failed.
    ReadFault,
    /// Memory ran out.
    Memory,
}

/// Cuts what a reader gives into lines.
///
/// A line ends in a line feed. What follows the last line feed was torn when the node was killed: it is no line.
#[derive(Drop)]
pub(crate) struct LineCutter {
    /// What was read; it is cut as far as `from`.
    read: Vec<u8>,
    from: usize,
    /// Where the line that was cut last begins and ends.
    line: (usize, usize),
}

impl LineCutter {
    /// Makes a cutter that has cut no line, and read nothing.
    pub(crate) fn new(alloc: Global) -> LineCutter {
        LineCutter {
            read: Vec::new(alloc),
            from: 0,
            line: (0, 0),
        }
    }

    /// Returns the line that was cut last, without its line feed.
    pub(crate) fn line(&self) -> &[u8] {
        let (begin, end) = self.line;
        self.read.as_slice().get(begin..end).unwrap_or(&[])
    }

    /// Cuts what was read; None if it has no line feed and may yet become a line.
    fn cut_read(&mut self) -> Option<JournalCut> {
        let rest = self.read.as_slice().get(self.from..).unwrap_or(&[]);
        let length = rest.len();
        match memchr(b'\n', rest) {
            Some(end) if end <= MOST_BYTES_OF_A_JOURNAL_LINE => {
                let end = self.from.saturating_add(end);
                self.line = (self.from, end);
                self.from = end.saturating_add(1);
                Some(JournalCut::Line)
            }
            Some(_) => Some(JournalCut::TooLong),
            None if length > MOST_BYTES_OF_A_JOURNAL_LINE => Some(JournalCut::TooLong),
            None => None,
        }
    }

    /// Keeps further bytes, and nothing of what is cut.
    fn keep(&mut self, bytes: &[u8]) -> Result<(), AllocError> {
        let cut = self.from.min(self.read.len());
        self.read.rotate_left(cut);
        self.read.truncate(self.read.len() - cut);
        self.from = 0;
        self.line = (0, 0);
        self.read.extend_from_slice(bytes)
    }

    /// Reads once; None if there may be more to read.
    fn fill<R: Read>(&mut self, reader: &mut R) -> Option<JournalCut> {
        let mut chunk = [0; CHUNK];
        match reader.read(&mut chunk) {
            Ok(0) => Some(JournalCut::End),
            Ok(n) => match self.keep(&chunk[..n]) {
                Ok(()) => None,
                Err(_) => Some(JournalCut::Memory),
            },
            Err(e) if e.kind() == ErrorKind::Interrupted => None,
            Err(_) => Some(JournalCut::ReadFault),
        }
    }

    /// Cuts the next line. After anything but a line no more lines are to be had.
    pub(crate) fn cut<R: Read>(&mut self, reader: &mut R) -> JournalCut {
        for _ in 0..MOST_READS {
            if let Some(cut) = self.cut_read() {
                return cut;
            }
            if let Some(cut) = self.fill(reader) {
                return cut;
            }
        }
        JournalCut::ReadFault
    }
}
