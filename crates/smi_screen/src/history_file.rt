//! Keeps the history of a screen in a file, so that the history outlasts the screen.
//!
//! `screen_parts` opens the file, and `web_server` saves into it five times a second at most. docs/FORMATS.md, "The
//! history of a screen", has its lines, and docs/RUNNING.md, "The screen", how large it gets and what happens if it
//! can't be written. Its lines are made and read by `smi_history`.

use crate::web_server::clock_time;
use smi_base::write_whole;
use smi_history::{History, MOST_TOLD};
use std::fs::{self, File, Files, OpenOptions};
use std::io::{self, ErrorKind, Write};
use std::time::Clock;

/// The bytes from which on the file is written again, with the entries alone that are kept: 128 MiB, as
/// docs/RUNNING.md, "The screen", says.
const MOST_BYTES: u64 = 128 << 20;

/// How many milliseconds after a fault the file is not written: a minute, as docs/RUNNING.md says.
const PATIENCE: u64 = 60_000;

/// The file in which a screen keeps its history.
///
/// It is opened each time that it is written, so that a file that was taken away is a fault and is made again.
#[derive(Drop)]
pub(crate) struct HistoryFile {
    /// The path of the file.
    path: String,
    /// The path of a new file until it is whole: `path` and `.new`.
    draft: String,
    /// How many bytes it has. `MOST_BYTES` after a fault, so that the next save writes all of it again.
    bytes: u64,
    /// The earliest time of the next write, in milliseconds since the start of the screen.
    next_try: u64,
}

/// Writes a whole text. Fails with `WriteZero` if it can't, because `write_whole` does not say why.
fn write_text<F: Write>(file: &mut F, text: &[u8]) -> io::Result<()> {
    match write_whole(file, text) {
        Ok(()) => Ok(()),
        Err(_) => Err(io::Error::from(ErrorKind::WriteZero)),
    }
}

/// Writes the entries that are kept and come after the one of this number, `MOST_TOLD` at a time. Returns how many
/// bytes these were. Fails if they can't be written, or if memory was refused.
fn write_after<F: Write>(file: &mut F, history: &History, number: u64) -> io::Result<u64> {
    let first = number.max(history.dropped());
    let pieces = history.count().saturating_sub(first) / MOST_TOLD as u64;
    let mut bytes = 0u64;
    for piece in 0..=pieces {
        let after = first.saturating_add(piece.saturating_mul(MOST_TOLD as u64));
        let text = history.write_lines(after)?;
        write_text(file, text.as_slice())?;
        bytes = bytes.saturating_add(text.len() as u64);
    }
    Ok(bytes)
}

/// Reads a history from the file of a path, or returns an empty one if there is no file.
///
/// Fails if the file is there and can't be read, or if memory ran out.
fn read_history<R: Files + AllocGlobal>(rt: &R, path: &str) -> io::Result<History> {
    match fs::read(rt, path) {
        Ok(bytes) => Ok(History::read(rt.alloc(), bytes.as_slice())?),
        Err(e) if e.kind() == ErrorKind::NotFound => Ok(History::new(rt.alloc())),
        Err(e) => Err(e),
    }
}

impl HistoryFile {
    /// Reads the history in the file of a path, and replaces the file by one with the entries that are kept for this
    /// many days. Returns the file and the history.
    ///
    /// Fails if the file is there and can't be read, if it can't be written, or if memory ran out.
    pub(crate) fn open<R: Clock + Files + AllocGlobal>(
        rt: &R,
        path: &str,
        days: u64,
    ) -> io::Result<(HistoryFile, History)> {
        let mut history = read_history(rt, path)?;
        history.keep_days(days);
        history.forget_older(clock_time(rt));
        let mut draft = String::from_str(rt.alloc(), path)?;
        draft.push_str(".new")?;
        let mut file = HistoryFile {
            path: String::from_str(rt.alloc(), path)?,
            draft,
            bytes: 0,
            next_try: 0,
        };
        file.write_anew(rt, &mut history)?;
        Ok((file, history))
    }

    /// Writes all entries that are kept into a new file, and puts it in place of the one before. If that fails, the old
    /// file stays unchanged, because the new one gets its name last.
    fn write_anew<R: Files>(&mut self, rt: &R, history: &mut History) -> io::Result<()> {
        let mut file = File::create(rt, self.draft.as_str())?;
        let bytes = write_after(&mut file, history, 0)?;
        fs::rename(rt, self.draft.as_str(), self.path.as_str())?;
        self.bytes = bytes;
        history.mark_saved();
        Ok(())
    }

    /// Appends the entries that are not saved. Fails if the file is gone.
    fn append<R: Files>(&mut self, rt: &R, history: &mut History) -> io::Result<()> {
        let mut file = OpenOptions::new()
            .append(true)
            .open(rt, self.path.as_str())?;
        let bytes = write_after(&mut file, history, history.saved())?;
        self.bytes = self.bytes.saturating_add(bytes);
        history.mark_saved();
        Ok(())
    }

    /// Saves the entries that are not saved: appends them, or writes the file again if it is too large or had a fault.
    fn save<R: Files>(&mut self, rt: &R, history: &mut History) -> io::Result<()> {
        if self.bytes < MOST_BYTES {
            self.append(rt, history)
        } else {
            self.write_anew(rt, history)
        }
    }

    /// Saves the entries that are not saved, if there are any and no fault was less than a minute ago. After a fault,
    /// which it tells nobody, the next save writes all into a new file: pages see how much is saved.
    pub(crate) fn keep<R: Files>(&mut self, rt: &R, history: &mut History, now: u64) {
        if history.saved() == history.count() || now < self.next_try {
            return;
        }
        if self.save(rt, history).is_err() {
            self.bytes = MOST_BYTES;
            self.next_try = now.saturating_add(PATIENCE);
        }
    }
}
