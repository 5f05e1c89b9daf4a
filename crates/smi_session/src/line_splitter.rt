//! Cuts the bytes that come from a client into lines. `smi_console` has a splitter for each connection and one for the
//! standard input, and `smi_screen` has one for its console. A line is the same however its bytes come in blocks
//! (`law::blocks_do_not_matter`).

ghost use Rattle.std.specs.Prelude.{◌≡◌, ◌++◌, [], IfOk, OnOk, option_map};
ghost use Rattle.smi_session.specs.LineSplitter.{TakesLine, behind_first, first_line, is_empty, kept, last_line};
ghost use Rattle.smi_session.specs.LineSplitter.{trimmed};

use smi_tree::{length_of_line, without_return};
use std::alloc::{AllocError, Global};
use std::marker::Model;

/// The most bytes of a line that are kept, so that a line without end takes no more memory than this. They are 200,
/// which is `MOST_BYTES_OF_A_LINE`, one for a carriage return, and one that shows that the line is too long.
const KEPT: usize = 202;

/// Cuts bytes into lines, however they come in blocks.
///
/// Contracts see the line that has no line feed yet, as far as it is kept, and the bytes that were not cut yet.
#[derive(Drop)]
pub struct LineSplitter {
    alloc: Global,
    /// The bytes of a line whose line feed has not come yet, `KEPT` at most.
    line: Vec<u8>,
    /// The bytes that have come and were not cut yet.
    unread: Vec<u8>,
}

impl Model for LineSplitter {
    ghost use Rattle.smi_session.specs.LineSplitter.{SplitterState};

    ghost Value = { SplitterState };

    ghost view = { λ s. record { line = s.line.items; unread = s.unread.items } };
}

impl LineSplitter {
    /// Makes a splitter to which nothing has come.
    ///
    /// No clause names `alloc`, from which memory comes.
    pub fn new(alloc: Global) -> LineSplitter
        ensures line { result.line ≡ [] }
        ensures unread { result.unread ≡ [] }
    {
        LineSplitter {
            alloc,
            line: Vec::new(alloc),
            unread: Vec::new(alloc),
        }
    }

    /// Appends bytes that have come. They are not cut yet.
    ///
    /// Fails if memory is refused.
    pub fn push(&mut self, bytes: &[u8]) -> Result<(), AllocError>
        ensures unread { OnOk result (self.new.unread ≡ self.old.unread ++ bytes.now) }
        ensures line { self.new.line ≡ self.old.line }
    {
        self.unread.extend_from_slice(bytes)
    }

    /// Returns true if all bytes that have come were cut. A last line that lacks its line feed may still be kept.
    pub fn is_empty(&self) -> bool
        ensures { result ≡ is_empty self.now }
    {
        self.unread.is_empty()
    }

    /// Appends the first `count` unread bytes to the line, as far as it has room for them. They stay unread.
    fn keep(&mut self, count: usize) -> Result<(), AllocError>
        ensures line { OnOk result (self.new.line ≡ kept self.old.line self.old.unread count) }
        ensures unread { self.new.unread ≡ self.old.unread }
    {
        let room = KEPT.saturating_sub(self.line.len()).min(count);
        let more = self
            .unread
            .as_slice()
            .get(..room)
            // `count` is at most the length of `unread`, so there are `room` bytes.
            .unwrap_or(self.unread.as_slice());
        self.line.extend_from_slice(more)
    }

    /// Returns the kept line, without the carriage return at its end, and begins a new one.
    fn take_line(&mut self) -> Result<Vec<u8>, AllocError>
        ensures line { IfOk result (λ line. line.items ≡ trimmed self.old.line) }
        ensures left { OnOk result (self.new.line ≡ []) }
        ensures unread { self.new.unread ≡ self.old.unread }
    {
        let line = Vec::from_slice(self.alloc, without_return(self.line.as_slice()))?;
        self.line.clear();
        Ok(line)
    }

    /// Returns the line up to the first line feed. Returns None if no line feed has come: then all bytes are a part of
    /// a line that goes on.
    fn cut(&mut self) -> Result<Option<Vec<u8>>, AllocError>
        ensures line { IfOk result (λ line. option_map (λ v. v.items) line ≡ first_line self.old) }
        ensures left { OnOk result (self.new ≡ behind_first self.old) }
    {
        let end = length_of_line(self.unread.as_slice());
        self.keep(end)?;
        if end < self.unread.len() {
            let line = self.take_line()?;
            // Drops the line and its line feed.
            let _ = self.unread.drain(..=end);
            Ok(Some(line))
        } else {
            self.unread.clear();
            Ok(None)
        }
    }

    /// Returns the next line that has its line feed, without that and without the carriage return before it. None if no
    /// line has ended. A line that is too long is cut, and what is returned is still too long.
    ///
    /// Fails if memory is refused. Then bytes may be lost.
    #[tactic(auto, using(crate::proofs::Splitting::cut_takes))]
    pub fn next_line(&mut self) -> Result<Option<Vec<u8>>, AllocError>
        ensures { IfOk result (λ line. TakesLine (option_map (λ v. v.items) line) self.old self.new) }
    {
        self.cut()
    }

    /// Returns the last line, which lacks its line feed, once nothing more comes. None if there is none.
    ///
    /// Fails if memory is refused.
    pub fn last_line(&mut self) -> Result<Option<Vec<u8>>, AllocError>
        ensures line { IfOk result (λ line. option_map (λ v. v.items) line ≡ last_line self.old) }
        ensures left { OnOk result (self.new ≡ record self.old { line = [] }) }
    {
        if self.line.is_empty() {
            Ok(None)
        } else {
            Ok(Some(self.take_line()?))
        }
    }
}
