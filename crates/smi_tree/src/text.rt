//! Cuts bytes into lines, and lines into words.

ghost use Rattle.std.specs.Prelude.{◌≡◌, ◌<◌, ◌≤◌, [], ◌∷◌, ◌++◌, length, take, MatchOption, IfSome};
ghost use Rattle.std.specs.List.{position_or_len, list_all};
ghost use Rattle.std.specs.Str.{bytes_eq};
ghost use Rattle.std.specs.Str.Lines.{lines, strip_carriage_return};
ghost use Rattle.smi_tree.specs.Text.{cuts, is_line_feed, words};
ghost use Rattle.smi_tree.specs.Name.{is_name_byte};
ghost use Rattle.smi_tree.specs.declared.text.Separator.TheVariants.{Blank};

use crate::name::is_name_byte;
use memchr::memchr;
use std::marker::Model;

/// What a line is cut at.
#[derive(Clone, Copy)]
pub(crate) enum Separator {
    /// A space or a tab.
    Blank,
    Dot,
    Colon,
}

impl Separator {
    ghost use Rattle.std.specs.Prelude.{◌≡◌};
    ghost use Rattle.smi_tree.specs.Text.{cuts};

    #[inline(always)]
    fn is_at(self, byte: u8) -> bool
        ensures { result ≡ cuts self byte }
    {
        match self {
            // Most bytes lie above both.
            Separator::Blank => byte <= b' ' && (byte == b' ' || byte == b'\t'),
            Separator::Dot => byte == b'.',
            Separator::Colon => byte == b':',
        }
    }
}

/// Returns how many bytes are before the first mark of a text, all if there is none.
#[inline(always)]
pub(crate) fn length_before(text: &[u8], mark: Separator) -> usize
    ensures place { result ≡ position_or_len (cuts mark) text.now }
    ensures within { result ≤ length text.now }
{
    for (place, byte) in text.iter().enumerate() {
        if mark.is_at(*byte) {
            return place;
        }
    }
    text.len()
}

/// Returns true if two texts are the same: as they are short, byte by byte.
#[inline(always)]
pub(crate) fn is_same_text(text: &[u8], other: &[u8]) -> bool
    ensures { result ≡ bytes_eq text.now other.now }
{
    if text.len() != other.len() {
        return false;
    }
    for place in 0..text.len() {
        if text[place] != other[place] {
            return false;
        }
    }
    true
}

/// Returns what follows a word and the space after it, if a text begins with these.
#[inline(always)]
pub(crate) fn after_word<'a>(text: &'a [u8], word: &[u8]) -> Option<&'a [u8]>
    ensures { IfSome result (λ rest. text.now ≡ word.now ++ 32 ∷ rest.now) }
{
    if text.len() < word.len() {
        return None;
    }
    let (front, rest) = text.split_at(word.len());
    let (next, rest) = rest.split_first()?;
    if *next == b' ' && is_same_text(front, word) {
        Some(rest)
    } else {
        None
    }
}

/// Returns how many bytes are before the first line feed of a text, all if there is none.
#[inline(always)]
pub fn length_of_line(text: &[u8]) -> usize
    ensures place { result ≡ position_or_len is_line_feed text.now }
    ensures within { result ≤ length text.now }
{
    match memchr(b'\n', text) {
        Some(place) => place,
        None => text.len(),
    }
}

/// Returns the first line of a text, and what follows it.
///
/// A carriage return before the line feed is no part of the line.
pub fn first_line(text: &[u8]) -> Option<(&[u8], &[u8])>
    ensures { MatchOption result (lines text.now ≡ [])
        (λ cut. (lines text.now ≡ cut.0.now ∷ lines cut.1.now) × (length cut.1.now < length text.now)) }
{
    let end = length_of_line(text);
    if end < text.len() {
        let (line, _) = text.split_at(end);
        let (_, rest) = text.split_at(end + 1);
        Some((without_return(line), rest))
    } else if text.is_empty() {
        None
    } else {
        Some((text, &[]))
    }
}

/// Returns a line without the carriage return at its end.
pub fn without_return(line: &[u8]) -> &[u8]
    ensures { result.now ≡ strip_carriage_return line.now }
{
    if line.last() == Some(&b'\r') {
        &line[..line.len() - 1]
    } else {
        line
    }
}

/// A word of a line, and whether each of its bytes is one of a name's.
#[derive(Drop)]
pub struct Word<'a> {
    text: &'a [u8],
    has_name_bytes_alone: bool,
}

impl<'a> Model for Word<'a> {
    ghost use Rattle.std.specs.Prelude.{ℕ, List, ◌≡◌};
    ghost use Rattle.std.specs.List.{list_all};
    ghost use Rattle.smi_tree.specs.Name.{is_name_byte};

    ghost Value = { List ℕ };

    ghost view = { λ w. w.text.now };

    ghost invariant = { λ w. w.has_name_bytes_alone ≡ list_all is_name_byte w.text.now };
}

impl<'a> Word<'a> {
    ghost use Rattle.std.specs.Prelude.{◌≡◌};
    ghost use Rattle.std.specs.List.{list_all};
    ghost use Rattle.smi_tree.specs.Name.{is_name_byte};

    /// Returns its bytes.
    #[inline(always)]
    pub fn text(&self) -> &'a [u8]
        ensures { result.now ≡ self.now }
    {
        self.text
    }

    /// Returns true if each of its bytes is one of a name's.
    #[inline(always)]
    pub(crate) fn has_name_bytes_alone(&self) -> bool
        ensures { result ≡ list_all is_name_byte self.now }
    {
        self.has_name_bytes_alone
    }
}

/// Returns how many bytes are before the first blank of a text, all if there is none, and whether each of
/// them is one of a name's.
#[inline(always)]
fn word_before_blank(text: &[u8]) -> (usize, bool)
    ensures place { result.0 ≡ position_or_len (cuts Blank) text.now }
    ensures within { result.0 ≤ length text.now }
    ensures names { result.1 ≡ list_all is_name_byte (take result.0 text.now) }
{
    let mut has_name_bytes_alone = true;
    for (place, byte) in text.iter().enumerate() {
        // Most bytes are a name's.
        if !is_name_byte(*byte) {
            if Separator::Blank.is_at(*byte) {
                return (place, has_name_bytes_alone);
            }
            has_name_bytes_alone = false;
        }
    }
    (text.len(), has_name_bytes_alone)
}

/// Returns the first word of a line, and what follows it.
#[inline(always)]
pub fn first_word(line: &[u8]) -> Option<(Word<'_>, &[u8])>
    ensures { MatchOption result (words line.now ≡ []) (λ cut. words line.now ≡ cut.0 ∷ words cut.1.now) }
{
    for start in 0..line.len() {
        if !Separator::Blank.is_at(line[start]) {
            let (_, rest) = line.split_at(start);
            let (end, has_name_bytes_alone) = word_before_blank(rest);
            let (text, after) = rest.split_at(end);
            let word = Word {
                text,
                has_name_bytes_alone,
            };
            return Some((word, after));
        }
    }
    None
}
