//! The lines of a journal that no trace has, put together of words.

ghost use Rattle.std.specs.Prelude.{◌≡◌, ◌++◌, ◌∷◌, OnOk, map};
ghost use Rattle.smi_journal.specs.Words.{after_blanks, line_text, word_text};
ghost use Rattle.smi_schedule.specs.TraceWords.{action_word, domain_word, holder_word, mode_word, object_word};
ghost use Rattle.smi_schedule.specs.TraceWords.{phase_word, state_word, station_word};

use smi_grant::{Holder, Phase, Version};
use smi_rows::Mode;
use smi_schedule::names;
use smi_tree::Tree;
use std::alloc::AllocError;
use std::io::Write;

/// A word of a line.
#[derive(Clone, Copy)]
pub enum JournalWord<'a> {
    Text(&'a [u8]),
    Number(u64),
    Version(Version),
}

/// Returns the name of a station, or its number if the tree has no such station.
pub(crate) fn station(tree: &Tree, number: u16) -> JournalWord<'_>
    ensures { word_text result ≡ station_word tree.now number }
{
    match names::station(tree, number) {
        Some(name) => JournalWord::Text(name),
        None => JournalWord::Number(u64::from(number)),
    }
}

/// Returns the name of a domain, or its number if the tree has no such domain.
pub(crate) fn domain(tree: &Tree, number: u16) -> JournalWord<'_>
    ensures { word_text result ≡ domain_word tree.now number }
{
    match names::domain(tree, number) {
        Some(name) => JournalWord::Text(name),
        None => JournalWord::Number(u64::from(number)),
    }
}

/// Returns the name of an object, or its number if the tree has no such object.
pub(crate) fn object(tree: &Tree, number: u16) -> JournalWord<'_>
    ensures { word_text result ≡ object_word tree.now number }
{
    match names::object(tree, number) {
        Some(name) => JournalWord::Text(name),
        None => JournalWord::Number(u64::from(number)),
    }
}

/// Returns the name of a state, or its number if the tree has no such state.
pub(crate) fn state(tree: &Tree, number: u16) -> JournalWord<'_>
    ensures { word_text result ≡ state_word tree.now number }
{
    match names::state(tree, number) {
        Some(name) => JournalWord::Text(name),
        None => JournalWord::Number(u64::from(number)),
    }
}

/// Returns the name of an action, or its number if the tree has no such action.
pub(crate) fn action(tree: &Tree, number: u16) -> JournalWord<'_>
    ensures { word_text result ≡ action_word tree.now number }
{
    match names::action(tree, number) {
        Some(name) => JournalWord::Text(name),
        None => JournalWord::Number(u64::from(number)),
    }
}

/// Returns the name of a holder, or `free`.
pub(crate) fn holder(tree: &Tree, holder: Holder) -> JournalWord<'_>
    ensures { word_text result ≡ holder_word tree.now holder }
{
    match holder {
        Holder::Free => JournalWord::Text(b"free"),
        Holder::Operator(number) => match names::operator(tree, number) {
            Some(name) => JournalWord::Text(name),
            None => JournalWord::Number(u64::from(number)),
        },
        Holder::Domain(number) => domain(tree, number),
    }
}

/// Returns `settled` or `busy`.
pub(crate) fn phase(phase: Phase) -> JournalWord<'static>
    ensures { word_text result ≡ phase_word phase }
{
    match phase {
        Phase::Settled => JournalWord::Text(b"settled"),
        Phase::Busy => JournalWord::Text(b"busy"),
    }
}

/// Returns `included`, `manual` or `ignored`.
pub(crate) fn mode(mode: Mode) -> JournalWord<'static>
    ensures { word_text result ≡ mode_word mode }
{
    match mode {
        Mode::Included => JournalWord::Text(b"included"),
        Mode::Manual => JournalWord::Text(b"manual"),
        Mode::Ignored => JournalWord::Text(b"ignored"),
    }
}

/// Adds a word to a text, after a blank.
fn push_word(text: &mut Vec<u8>, word: JournalWord<'_>) -> Result<(), AllocError>
    ensures { OnOk result (text.new.items ≡ text.old.items ++ 32 ∷ word_text word.entry) }
{
    match word {
        JournalWord::Text(bytes) => {
            text.push(b' ')?;
            text.extend_from_slice(bytes)
        }
        JournalWord::Number(number) => write!(text, " {number}").map_err(|_| AllocError),
        JournalWord::Version(version) => {
            write!(text, " {}.{}", version.boot, version.sequence).map_err(|_| AllocError)
        }
    }
}

/// Adds words to a text, each after a blank.
fn push_words(text: &mut Vec<u8>, words: &[JournalWord<'_>]) -> Result<(), AllocError>
    ensures { OnOk result (text.new.items ≡ text.old.items ++ after_blanks (map word_text words.now)) }
{
    for word in words {
        push_word(text, *word)?;
    }
    Ok(())
}

/// Adds a line to a text: a prefix, a first word, and further words, each after a blank.
pub(crate) fn push_line(
    text: &mut Vec<u8>,
    prefix: &[u8],
    first: &[u8],
    words: &[JournalWord<'_>],
) -> Result<(), AllocError>
    ensures { OnOk result (text.new.items ≡
        text.old.items ++ line_text prefix.now first.now (map word_text words.now)) }
{
    text.extend_from_slice(prefix)?;
    text.extend_from_slice(first)?;
    push_words(text, words)?;
    text.push(b'\n')?;
    Ok(())
}
