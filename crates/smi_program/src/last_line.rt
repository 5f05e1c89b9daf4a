//! Remembers the line that a writer has written last.
//!
//! `main` of the crate `smi` writes standard error through it. `telling_more` reads the line, to find out what was in
//! the way of a command that has ended with it.

use std::io::{self, Write};

/// The most bytes of a line that are remembered: more than any line that `cause_of` of `cause_search` knows.
const MOST_BYTES: usize = 32;

/// A writer that remembers the line that it wrote last.
#[derive(Drop)]
pub struct LastLine<W: Drop> {
    writer: W,
    /// The first bytes of the last line, without its line feed.
    bytes: [u8; MOST_BYTES],
    /// How many of these bytes the line has.
    count: usize,
    /// True if the line was ended, so that the next byte begins a new one.
    is_ended: bool,
}

impl<W: Write + Drop> LastLine<W> {
    /// Makes a writer that writes to this one.
    pub fn new(writer: W) -> LastLine<W> {
        LastLine {
            writer,
            bytes: [0; MOST_BYTES],
            count: 0,
            is_ended: false,
        }
    }

    /// Returns the line that was written last, without its line feed: its first 32 bytes if it is longer, and an empty
    /// text if these are not UTF-8.
    pub fn text(&self) -> &str {
        let bytes = self.bytes.get(..self.count).unwrap_or(&[]);
        str::from_utf8(bytes).unwrap_or("")
    }

    /// Records a byte that was written.
    fn note(&mut self, byte: u8) {
        if self.is_ended {
            self.count = 0;
        }
        self.is_ended = byte == b'\n';
        if self.is_ended {
            return;
        }
        if let Some(slot) = self.bytes.get_mut(self.count) {
            *slot = byte;
            self.count = self.count.saturating_add(1);
        }
    }
}

impl<W: Write + Drop> Write for LastLine<W> {
    fn write(&mut self, buf: &[u8]) -> io::Result<usize> {
        let count = self.writer.write(buf)?;
        for byte in buf.get(..count).unwrap_or(&[]) {
            self.note(*byte);
        }
        Ok(count)
    }

    fn flush(&mut self) -> io::Result<()> {
        self.writer.flush()
    }
}
