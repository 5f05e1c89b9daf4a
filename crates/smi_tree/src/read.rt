//! From the bytes of a tree file to its tables, line by line.

ghost use Rattle.std.specs.Prelude.{◌≡◌};
ghost use Rattle.smi_tree.specs.File.{is_comment, is_tree, has_one};

use crate::declaration::Keyword;
use crate::fault::{Fault, LineRefusal, TreeFault};
use crate::names::Names;
use crate::tables::Tables;
use crate::text::{after_word, first_line, first_word};
use smi_base::MOST_BYTES_OF_A_LINE;
use std::alloc::Global;

/// Returns true if a line that begins with this word is a comment.
pub fn is_comment(word: &[u8]) -> bool
    ensures { result ≡ is_comment word.now }
{
    match word {
        [first, ..] => *first == b'#',
        [] => false,
    }
}

fn is_tree(word: &[u8]) -> bool
    ensures { result ≡ is_tree word.now }
{
    word == b"tree".as_slice()
}

fn has_one(names: &Names) -> bool
    ensures { result ≡ has_one names.now }
{
    names.len() > 0
}

impl Tables {
    ghost use Rattle.std.specs.Prelude.{◌≡◌};
    ghost use Rattle.std.specs.Str.Lines.{lines};
    ghost use Rattle.smi_tree.specs.Fault.{Becomes};
    ghost use Rattle.smi_tree.specs.File.{is_begun, is_out_of_place, is_complete, with_line, with_words};
    ghost use Rattle.smi_tree.specs.File.{with_lines, Fills};

    /// Returns true if the `tree` line has come.
    fn is_begun(&self) -> bool
        ensures { result ≡ is_begun self.now }
    {
        self.number != 0
    }

    /// Returns true if the `tree` line is not the first, or there is a second.
    fn is_out_of_place(&self, word: &[u8]) -> bool
        ensures { result ≡ is_out_of_place self.now word.now }
    {
        if self.is_begun() {
            is_tree(word)
        } else {
            !is_tree(word)
        }
    }

    /// Returns true if there is one of each kind that every tree has.
    pub(crate) fn is_complete(&self) -> bool
        ensures { result ≡ is_complete self.now }
    {
        has_one(&self.station_names)
            && has_one(&self.operator_names)
            && has_one(&self.state_names)
            && has_one(&self.action_names)
            && has_one(&self.domain_names)
    }

    /// Adds what a line declares.
    #[tactic(auto, unfolding(crate::specs::File::with_line, crate::specs::File::with_words))]
    fn read_line(&mut self, alloc: Global, line: &[u8]) -> Result<(), LineRefusal>
        ensures { Becomes self.new result (with_line self.old line.now) }
    {
        if line.len() > MOST_BYTES_OF_A_LINE {
            return Err(LineRefusal::Faulty(Fault::LineTooLong));
        }
        if self.is_begun()
            && let Some(text) = after_word(line, b"move")
        {
            // Most lines of a long file declare moves.
            return self.read_move(alloc, text);
        }
        let Some((first, rest)) = first_word(line) else {
            return Ok(());
        };
        let word = first.text();
        if is_comment(word) {
            return Ok(());
        }
        if self.is_out_of_place(word) {
            return Err(LineRefusal::Faulty(Fault::TreeLine));
        }
        let keyword = Keyword::read(word).ok_or(Fault::UnknownWord)?;
        self.read_words(alloc, keyword, rest)
    }

    /// Adds what the lines of a file declare.
    // The caller has the tables, because each place that drops them is expensive to prove.
    pub(crate) fn read_lines(&mut self, alloc: Global, bytes: &[u8]) -> Result<(), TreeFault>
        ensures { Fills self.new result (with_lines 1 self.old (lines bytes.now)) }
    {
        let mut rest = bytes;
        let mut number = 0;
        while let Some(cut) = first_line(rest) {
            let (line, after) = cut;
            number += 1;
            if let Err(refusal) = self.read_line(alloc, line) {
                return Err(refusal.at_line(number));
            }
            rest = after;
        }
        Ok(())
    }
}
