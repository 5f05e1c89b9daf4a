//! Reads files that are closed while nobody reads them, so that an audit of many journals has few files open.
//!
//! `audit` makes one for each journal, and `smi_replay` reads them and sets aside those that it does not need now.

use smi_disks::open;
use smi_replay::JournalSource;
use std::io::{self, Read, Seek, SeekFrom};
use std::rt::Files;

/// A file that is open only while it is read. It is closed at its end and if it is set aside. The next read opens it
/// again, at the byte that was reached.
#[derive(Drop)]
pub struct ReopenedFile<H: Files + AllocGlobal + Drop> {
    /// The opener of files.
    host: H,
    /// The bytes of the path, which need not be text.
    path: Vec<u8>,
    /// The file while it is open.
    file: Option<H::File>,
    /// How many bytes were read so far.
    reached: u64,
}

impl<H: Files + AllocGlobal + Drop> ReopenedFile<H> {
    /// Makes the reader of the file of this path, which the first read opens.
    pub fn new(host: H, path: Vec<u8>) -> ReopenedFile<H> {
        ReopenedFile {
            host,
            path,
            file: None,
            reached: 0,
        }
    }
}

impl<H: Files + AllocGlobal + Drop> Read for ReopenedFile<H> {
    fn read(&mut self, buf: &mut [u8]) -> io::Result<usize> {
        let mut file = match self.file.take() {
            Some(file) => file,
            None => {
                let mut file = open(&self.host, self.path.as_slice())?;
                file.seek(SeekFrom::Start(self.reached))?;
                file
            }
        };
        let count = file.read(buf)?;
        // At its end the file is dropped here, and so closed. After an error too, and the next read opens it again.
        if count > 0 {
            self.reached = self.reached.saturating_add(count as u64);
            self.file = Some(file);
        }
        Ok(count)
    }
}

impl<H: Files + AllocGlobal + Drop> JournalSource for ReopenedFile<H> {
    fn set_aside(&mut self) {
        self.file = None;
    }
}
