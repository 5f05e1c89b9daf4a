//! Writes in words what is wrong with a tree file that was refused, for a person.
//!
//! `telling_more` calls [`tell_tree_fault`] after the line `tree line L fault C`. The codes are those of
//! docs/FORMATS.md, "Faults of a tree file". No program reads the words.

use crate::line::{CommandLine, line_of};
use crate::tree::tree_bytes;
use crate::words::{Words, bytes_of};
use smi_tree::{Tree, TreeFault};
use std::alloc::Global;
use std::io::{self, Write};
use std::rt::Files;

/// The code of a name or a number that is not well formed (docs/FORMATS.md, "Faults of a tree file").
const MALFORMED: u16 = 3;
/// The most bytes of a name. It has to agree with `MOST_BYTES_OF_A_NAME` of `smi_base`.
const LONGEST_NAME: usize = 16;

/// The most characters of a line that are shown: as many as bytes a sound line may have.
const LONGEST_LINE: usize = 200;

/// Writes the faulty line of the tree file that a command line names, and what is wrong with it in words.
///
/// It reads the file a second time. It writes nothing if that fails, or if the tree is sound by now.
pub(crate) fn tell_tree_fault<H: Files + AllocGlobal, F: Write>(
    host: &H,
    words: &Words,
    faults: &mut F,
) {
    let alloc = host.alloc();
    let Some(path) = tree_of(line_of(alloc, words.texts.as_slice())) else {
        return;
    };
    let Ok(bytes) = tree_bytes(host, bytes_of(words, path)) else {
        return;
    };
    if let Err(TreeFault::Line(number, code)) = Tree::read(alloc, bytes.as_slice()) {
        // If standard error can't be written, there is nowhere left to say so.
        let _ = tell_words(alloc, bytes.as_slice(), number, code, faults);
    }
}

/// Returns the path of the tree file that a command line names, or None if it names none.
fn tree_of(line: CommandLine<'_>) -> Option<&str> {
    match line {
        CommandLine::Check(line) => Some(line.tree),
        CommandLine::Sim(line) => Some(line.tree),
        CommandLine::Audit(line) => Some(line.tree),
        CommandLine::Node(line) => Some(line.tree),
        CommandLine::Screen(line) => Some(line.tree),
        CommandLine::Answer | CommandLine::Rows(_) | CommandLine::Wrong | CommandLine::NoMemory =>
            None,
    }
}

/// Writes the line of a fault, and what is wrong with it in words.
fn tell_words<F: Write>(
    alloc: Global,
    bytes: &[u8],
    number: u64,
    code: u16,
    faults: &mut F,
) -> io::Result<()> {
    let text = String::from_utf8_lossy(alloc, bytes)?;
    let line = line_at(text.as_str(), number).unwrap_or("");
    if !line.is_empty() {
        faults.write_all(b"    ")?;
        show(line, faults)?;
        faults.write_all(b"\n")?;
    }
    faults.write_all(b"    ")?;
    faults.write_all(words_of_fault(code))?;
    if let Some(word) = long_word(line, code) {
        faults.write_all(b": ")?;
        show(word, faults)?;
        writeln!(faults, " is longer than {LONGEST_NAME}")
    } else {
        faults.write_all(b"\n")
    }
}

/// Returns the line of this number, the first being 1. None if there is none, as for line 0, which is the file itself.
fn line_at(text: &str, number: u64) -> Option<&str> {
    let index = usize::try_from(number).ok()?.checked_sub(1)?;
    text.lines().nth(index)
}

/// Returns the first word of a line that is too long for a name, if the fault is that a name or a number is not well
/// formed. None if there is no such word.
fn long_word(line: &str, code: u16) -> Option<&str> {
    for word in line.split_whitespace() {
        if code == MALFORMED && is_long_name(word) {
            return Some(word);
        }
    }
    None
}

/// Returns true if a name may have this byte: a capital letter, a digit, or `_`.
fn is_of_name(byte: u8) -> bool {
    byte.is_ascii_uppercase() || byte.is_ascii_digit() || byte == b'_'
}

/// Returns true if a word would be a name if it were not too long: it begins with a letter.
fn is_long_name(word: &str) -> bool {
    word.len() > LONGEST_NAME
        && word.bytes().all(is_of_name)
        && word
            .bytes()
            .next()
            .is_some_and(|byte| byte.is_ascii_uppercase())
}

/// Writes the first `LONGEST_LINE` characters of a line, and a question mark for each control character, which a
/// terminal would obey.
fn show<F: Write>(line: &str, faults: &mut F) -> io::Result<()> {
    for letter in line.chars().take(LONGEST_LINE) {
        if letter.is_control() {
            faults.write_all(b"?")?;
        } else {
            write!(faults, "{letter}")?;
        }
    }
    Ok(())
}

/// Returns the words for a fault of a tree file (docs/NUMBERS.md, "Faults of a tree file").
fn words_of_fault(code: u16) -> &'static [u8] {
    match code {
        1 => b"no line begins with this word",
        2 => b"too few words, or too many",
        3 => b"a name or a number is not well formed",
        4 => b"declared twice",
        5 => b"a name that is not declared above as what the line wants",
        6 => b"more of a kind than a tree may have",
        7 => b"the first line, and no other, is a tree line",
        8 => b"an address is not well formed",
        9 => b"a device class in place of a unit class, or the other way round",
        10 => b"a line of more than 200 bytes",
        11 => b"more than 256 KiB",
        // This is 12: there is no other.
        _ => b"a station, an operator, a state, an action or a domain is missing",
    }
}
