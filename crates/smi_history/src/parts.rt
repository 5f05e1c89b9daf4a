//! Cuts texts at a byte: lines of a file, words of an entry, and parts of a query. `lines.rt` and `query.rt` call it.

ghost use Rattle.std.specs.Prelude.{◌≡◌, ◌<◌, ◌≤◌, ◌∷◌, length, IfSome, option_map};
ghost use Rattle.smi_history.specs.Parts as spec;

use crate::text::rest_of;

/// Returns the index of the first byte `mark`.
fn place_of(mark: u8, text: &[u8]) -> Option<usize>
    ensures { result ≡ spec.place_of mark text.now }
{
    text.iter().position(|byte| *byte == mark)
}

/// Returns how many bytes come before the first byte `mark`: all if there is none.
#[tactic(auto, using(crate::proofs::Cuts::at_most_all))]
fn length_before(mark: u8, text: &[u8]) -> usize
    ensures place { result ≡ spec.length_before mark text.now }
    ensures within { result ≤ length text.now }
{
    match place_of(mark, text) {
        Some(place) => place,
        None => text.len(),
    }
}

/// Returns what comes before the first byte `mark`, and what follows it. If there is none, returns the whole text and
/// None.
#[tactic(auto, using(crate::proofs::Cuts::parts_cut, crate::proofs::Cuts::parts_whole))]
pub(crate) fn cut_at(mark: u8, text: &[u8]) -> (&[u8], Option<&[u8]>)
    ensures front { result.0.now ≡ spec.before_mark mark text.now }
    ensures rest { option_map (λ rest. rest.now) result.1 ≡ spec.after_mark mark text.now }
    ensures parts { spec.parts mark text.now
        ≡ result.0.now ∷ spec.parts_left mark (option_map (λ rest. rest.now) result.1) }
    ensures smaller { IfSome result.1 (λ rest. length rest.now < length text.now) }
{
    let end = length_before(mark, text);
    if end < text.len() {
        let (one, _) = text.split_at(end);
        let (_, more) = text.split_at(end + 1);
        (one, Some(more))
    } else {
        (text, None)
    }
}

/// Returns true if a text has this word between spaces, or at its beginning or end.
pub(crate) fn has_word(text: &[u8], word: &[u8]) -> bool
    ensures { result ≡ spec.has_word text.now word.now }
{
    let mut left = Some(text);
    while let Some(rest) = left {
        let (one, more) = cut_at(b' ', rest);
        if one == word {
            return true;
        }
        left = more;
    }
    false
}

/// Returns the value of the first part of a query that begins with this key, as `object=`. Parts are separated by `&`.
/// None if there is no such part.
pub(crate) fn value_of<'a>(key: &[u8], query: &'a [u8]) -> Option<&'a [u8]>
    ensures { option_map (λ value. value.now) result ≡ spec.value_of key.now query.now }
{
    let mut left = Some(query);
    while let Some(rest) = left {
        let (one, more) = cut_at(b'&', rest);
        if let Some(value) = rest_of(key, one) {
            return Some(value);
        }
        left = more;
    }
    None
}
