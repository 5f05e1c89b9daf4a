//! Writes through a counter of failures, so that a contract can say that a write fault of `rows` has a cause: std's
//! `Write` counts none. `rows.rt` writes all that it writes by it. The program never reads the count.

ghost use Rattle.std.specs.Prelude.{◌≡◌, ◌+◌, [], OnOk, OnErr};
ghost use Rattle.std.specs.Io.KnownBytes.{Appends};
ghost use Rattle.smi_commands.specs.Rows.{key_text};

use smi_base::{NotWritten, Tally, write_whole};
use smi_rows::Key;
use std::io::Write;
use std::marker::Model;

/// How often a writer did not take what it was given. Contracts alone read it. Only a write or a flush that failed
/// counts.
#[derive(Drop)]
pub(crate) struct Losses {
    losses: Tally,
}

impl Model for Losses {
    ghost use Rattle.smi_base.specs.Count.{Count};

    ghost Value = { Count };

    ghost view = { λ l. record { count = l.losses.count } };
}

impl Losses {
    /// Makes a count of 0.
    pub(crate) fn new() -> Losses
        ensures { result.count ≡ 0 }
    {
        Losses {
            losses: Tally::zero(),
        }
    }

    /// Writes all of the bytes, or counts a failure.
    pub(crate) fn write<W: Write>(&mut self, writer: &mut W, bytes: &[u8]) -> Result<(), NotWritten>
        ensures all { OnOk result (Appends (W.contents writer.old) (W.contents writer.new) bytes.now) }
        ensures whole { OnOk result (self.new.count ≡ self.old.count) }
        ensures lost { OnErr result (self.new.count ≡ self.old.count + 1) }
    {
        if write_whole(writer, bytes).is_err() {
            self.losses.raise();
            return Err(NotWritten);
        }
        Ok(())
    }

    /// Writes the station, the domain and the operator of a key, each with a space after it: `1 2 0 `. Counts a failure
    /// if it could not.
    pub(crate) fn write_key<W: Write>(&mut self, writer: &mut W, key: Key) -> Result<(), NotWritten>
        ensures all { OnOk result (Appends (W.contents writer.old) (W.contents writer.new) (key_text key)) }
        ensures whole { OnOk result (self.new.count ≡ self.old.count) }
        ensures lost { OnErr result (self.new.count ≡ self.old.count + 1) }
    {
        let written = write!(writer, "{} {} {} ", key.station, key.domain, key.operator);
        if written.is_err() {
            self.losses.raise();
            return Err(NotWritten);
        }
        Ok(())
    }

    /// Flushes what was written, or counts a failure.
    pub(crate) fn flush<W: Write>(&mut self, writer: &mut W) -> Result<(), NotWritten>
        ensures kept { Appends (W.contents writer.old) (W.contents writer.new) [] }
        ensures whole { OnOk result (self.new.count ≡ self.old.count) }
        ensures lost { OnErr result (self.new.count ≡ self.old.count + 1) }
    {
        if writer.flush().is_err() {
            self.losses.raise();
            return Err(NotWritten);
        }
        Ok(())
    }
}
