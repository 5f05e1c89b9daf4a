//! The lines of a reader, one after the other.

ghost use Rattle.std.specs.Prelude.{◌≡◌, MatchResult, OnOk};

use smi_base::MOST_BYTES_OF_A_LINE;
use smi_tree::{length_of_line, without_return};
use std::alloc::{AllocError, Global};
use std::io::{ErrorKind, Read};
use std::marker::Model;

/// The most reads of a text: after them a reader counts as faulty.
const MOST_READS: u64 = 1 << 32;

/// How many bytes are read at once.
const CHUNK: usize = 1024;

/// What became of the search for a line.
#[derive(Clone, Copy, Debug, PartialEq, Eq)]
pub enum Cut {
    /// There is one.
    Line,
    /// The next one has more than 200 bytes.
    TooLong,
    /// The text has no more.
    End,
    /// A read failed.
    ReadFault,
    /// Memory ran out.
    Memory,
}

/// What became of a read.
#[derive(Clone, Copy)]
enum Filled {
    More,
    End,
    Fault,
    Memory,
}

/// Cuts what a reader gives into lines, and reads no further than it has to.
///
/// A line is without its line feed and the carriage return before it; the last one may lack its line feed. No more of a
/// line is kept than shows that it is too long. A reader that gives no end in 2^32 reads counts as one that fails.
#[derive(Drop)]
pub struct Lines {
    /// What was read; it is cut as far as `from`.
    read: Vec<u8>,
    from: usize,
    line: Vec<u8>,
    reads: u64,
}

impl Model for Lines {
    ghost use Rattle.std.specs.Prelude.{◌≤◌, drop, length};
    ghost use Rattle.smi_schedule.specs.Lines.{Window};

    ghost Value = { Window };

    ghost view = { λ l. record { line = l.line.items; rest = drop l.from l.read.items; reads = l.reads } };

    ghost invariant = { λ l. l.from ≤ length l.read.items };
}

fn after_keeping(kept: Result<(), AllocError>) -> Filled
    ensures { MatchResult kept (λ _. result ≡ Filled.More) (λ _. result ≡ Filled.Memory) }
{
    match kept {
        Ok(()) => Filled::More,
        Err(_) => Filled::Memory,
    }
}

/// Puts bytes in place of what was there.
fn replace(line: &mut Vec<u8>, bytes: &[u8]) -> Result<(), AllocError>
    ensures { OnOk result (line.new.items ≡ bytes.now) }
{
    line.clear();
    line.extend_from_slice(bytes)
}

impl Lines {
    ghost use Rattle.std.specs.Prelude.{ℕ, ◌≡◌, ◌≢◌, ◌<◌, ◌^◌, ◌++◌, [], List, Some, length, OnOk, MatchOption};
    ghost use Rattle.std.specs.Prelude.{IfNone, IfSome};
    ghost use Rattle.std.specs.List.{position_or_len};
    ghost use Rattle.std.specs.Io.KnownBytes.{IsAtEnd, Keeps};
    ghost use Rattle.smi_tree.specs.Text.{is_line_feed};
    ghost use Rattle.smi_schedule.specs.Lines.{left, Cuts, CutsText, HasNoLine};

    /// Returns a cutter that has read and cut nothing.
    pub fn new(alloc: Global) -> Lines
        ensures line { result.line ≡ [] }
        ensures rest { result.rest ≡ [] }
        ensures reads { result.reads ≡ 2 ^ 32 }
    {
        Lines {
            read: Vec::new(alloc),
            from: 0,
            line: Vec::new(alloc),
            reads: MOST_READS,
        }
    }

    /// Returns the line that was cut last.
    pub fn line(&self) -> &[u8]
        ensures { result.now ≡ self.now.line }
    {
        self.line.as_slice()
    }

    /// Returns what was read and is not cut.
    fn rest(&self) -> &[u8]
        ensures { result.now ≡ self.now.rest }
    {
        &self.read[self.from..]
    }

    /// Takes what was read up to its first line feed.
    fn take_line(&mut self, end: usize) -> Cut
        requires within { end < length self.old.rest }
        requires first { end ≡ position_or_len is_line_feed self.old.rest }
        ensures cut { (later : List ℕ) →
            CutsText result (self.old.rest ++ later) self.new.line (Some (self.new.rest ++ later)) }
        ensures read { result ≢ Cut.ReadFault }
    {
        let at = self.from + end;
        let line = without_return(&self.read[self.from..at]);
        match replace(&mut self.line, line) {
            Ok(()) => {
                self.from = at + 1;
                Cut::Line
            }
            Err(_) => Cut::Memory,
        }
    }

    /// Takes what was read as the last line, if there is any.
    fn take_last(&mut self) -> Cut
        requires { HasNoLine self.old.rest }
        ensures cut { CutsText result self.old.rest self.new.line (Some self.new.rest) }
        ensures read { result ≢ Cut.ReadFault }
    {
        if self.rest().is_empty() {
            return Cut::End;
        }
        match replace(&mut self.line, &self.read[self.from..]) {
            Ok(()) => {
                self.from = self.read.len();
                Cut::Line
            }
            Err(_) => Cut::Memory,
        }
    }

    /// Cuts what was read, if a line feed is there or the line is too long without.
    fn cut_read(&mut self) -> Option<Cut>
        ensures cut { MatchOption result ((self.new ≡ self.old) × HasNoLine self.old.rest)
            (λ cut. (later : List ℕ) →
            CutsText cut (self.old.rest ++ later) self.new.line (Some (self.new.rest ++ later))) }
        ensures read { IfSome result (λ cut. cut ≢ Cut.ReadFault) }
    {
        let rest = self.rest();
        let end = length_of_line(rest);
        let length = rest.len();
        if end < length {
            return Some(self.take_line(end));
        }
        if length > MOST_BYTES_OF_A_LINE + 1 {
            return Some(Cut::TooLong);
        }
        None
    }

    /// Keeps further bytes, and nothing of what is cut.
    fn keep(&mut self, bytes: &[u8]) -> Result<(), AllocError>
        ensures rest { OnOk result (self.new.rest ≡ self.old.rest ++ bytes.now) }
        ensures reads { self.new.reads ≡ self.old.reads }
    {
        self.read.rotate_left(self.from);
        self.read.truncate(self.read.len() - self.from);
        self.from = 0;
        self.read.extend_from_slice(bytes)
    }

    /// Reads once.
    fn fill<R: Read>(&mut self, reader: &mut R) -> Filled
        requires { 0 < self.old.reads }
        ensures more { result ≡ Filled.More →
            Keeps (left self.old (R.remaining reader.old)) (left self.new (R.remaining reader.new)) }
        ensures end { result ≡ Filled.End → (self.new.rest ≡ self.old.rest) ×
            Keeps (R.remaining reader.old) (R.remaining reader.new) × IsAtEnd (R.remaining reader.new) }
        ensures fault { result ≡ Filled.Fault → (self.new.rest ≡ self.old.rest) ×
            Keeps (R.remaining reader.old) (R.remaining reader.new) }
        ensures reads { self.new.reads < self.old.reads }
    {
        self.reads -= 1;
        let mut chunk = [0; CHUNK];
        match reader.read(&mut chunk) {
            Ok(0) => Filled::End,
            Ok(n) => after_keeping(self.keep(&chunk[..n])),
            Err(e) => {
                if e.kind() == ErrorKind::Interrupted {
                    Filled::More
                } else {
                    Filled::Fault
                }
            }
        }
    }

    /// Looks for a line in what was read, and reads once if there is none.
    fn step<R: Read>(&mut self, reader: &mut R) -> Option<Cut>
        ensures cut { MatchOption result
            (Keeps (left self.old (R.remaining reader.old)) (left self.new (R.remaining reader.new)))
            (λ cut. Cuts cut
            (left self.old (R.remaining reader.old)) self.new.line (left self.new (R.remaining reader.new))) }
        ensures fault { result ≡ Some Cut.ReadFault → HasNoLine self.new.rest
            × Keeps (left self.old (R.remaining reader.old)) (left self.new (R.remaining reader.new)) }
        ensures reads { IfNone result (self.new.reads < self.old.reads) }
    {
        if let Some(cut) = self.cut_read() {
            return Some(cut);
        }
        if self.reads == 0 {
            return Some(Cut::ReadFault);
        }
        match self.fill(reader) {
            Filled::More => None,
            Filled::End => Some(self.take_last()),
            Filled::Fault => Some(Cut::ReadFault),
            Filled::Memory => Some(Cut::Memory),
        }
    }

    /// Cuts the next line.
    ///
    /// After anything but a [`Line`](Cut::Line) no more lines are to be had. After a read fault all lines that were
    /// read are cut: what was read and is left has no line feed.
    pub fn cut<R: Read>(&mut self, reader: &mut R) -> Cut
        ensures cut { Cuts result
            (left self.old (R.remaining reader.old)) self.new.line (left self.new (R.remaining reader.new)) }
        ensures fault { result ≡ Cut.ReadFault → HasNoLine self.new.rest
            × Keeps (left self.old (R.remaining reader.old)) (left self.new (R.remaining reader.new)) }
    {
        loop {
            if let Some(cut) = self.step(reader) {
                return cut;
            }
        }
    }
}
