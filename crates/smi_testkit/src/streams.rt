//! Readers and writers that are slow or fail.

use std::cmp::min;
use std::io::{self, ErrorKind, Read, Write};

/// A reader that gives at most `most` bytes at once, is interrupted once, and may fail at its end.
#[derive(Drop)]
pub struct Trickle<'a> {
    pub bytes: &'a [u8],
    pub most: usize,
    pub is_interrupted: bool,
    pub fails: bool,
}

impl Read for Trickle<'_> {
    fn read(&mut self, buf: &mut [u8]) -> io::Result<usize> {
        if self.is_interrupted {
            self.is_interrupted = false;
            return Err(ErrorKind::Interrupted.into());
        }
        let count = min(min(self.bytes.len(), buf.len()), self.most);
        if count == 0 && self.fails {
            return Err(ErrorKind::Other.into());
        }
        let (now, later) = self.bytes.split_at(count);
        buf[..count].copy_from_slice(now);
        self.bytes = later;
        Ok(count)
    }
}

/// A writer that takes one byte at once, has room for this many, and may fail at its flush.
#[derive(Drop)]
pub struct Narrow {
    pub written: Vec<u8>,
    pub room: usize,
    pub flushes: bool,
}

impl Write for Narrow {
    fn write(&mut self, buf: &[u8]) -> io::Result<usize> {
        if self.room == 0 || buf.is_empty() {
            return Err(ErrorKind::Other.into());
        }
        self.room -= 1;
        self.written.push(buf[0])?;
        Ok(1)
    }

    fn flush(&mut self) -> io::Result<()> {
        if self.flushes {
            Ok(())
        } else {
            Err(ErrorKind::Other.into())
        }
    }
}
