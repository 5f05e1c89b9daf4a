//! The words of a line, and the numbers among them.

use crate::fault::LineFault;
use memchr::memchr;

/// Cuts a text at its first blank. Returns the word before it, and what follows the blank; None if there is no blank.
pub(crate) fn cut_word(text: &[u8]) -> (&[u8], Option<&[u8]>) {
    match memchr(b' ', text) {
        Some(end) => (&text[..end], Some(&text[end + 1..])),
        None => (text, None),
    }
}

/// Returns the first word of a text and what follows its blank.
///
/// With none, or with nothing after it, the line has too few words.
pub(crate) fn next_word(text: &[u8]) -> Result<(&[u8], &[u8]), LineFault> {
    match cut_word(text) {
        (word, Some(rest)) => Ok((word, rest)),
        (_, None) => Err(LineFault::WordCount),
    }
}

/// Cuts the first word off, if there is any text.
fn cut(text: Option<&[u8]>) -> Result<(&[u8], Option<&[u8]>), LineFault> {
    match text {
        Some(text) => Ok(cut_word(text)),
        None => Err(LineFault::WordCount),
    }
}

/// Returns the one word of a text.
pub(crate) fn one_word(text: Option<&[u8]>) -> Result<&[u8], LineFault> {
    match cut(text)? {
        (word, None) => Ok(word),
        (_, Some(_)) => Err(LineFault::WordCount),
    }
}

/// Returns the two words of a text.
pub(crate) fn two_words(text: Option<&[u8]>) -> Result<(&[u8], &[u8]), LineFault> {
    let (first, rest) = cut(text)?;
    Ok((first, one_word(rest)?))
}

/// Three words.
pub(crate) type Three<'a> = (&'a [u8], &'a [u8], &'a [u8]);

/// Four words.
pub(crate) type Four<'a> = (&'a [u8], &'a [u8], &'a [u8], &'a [u8]);

/// Five words.
pub(crate) type Five<'a> = (&'a [u8], &'a [u8], &'a [u8], &'a [u8], &'a [u8]);

/// Six words.
pub(crate) type Six<'a> = (&'a [u8], &'a [u8], &'a [u8], &'a [u8], &'a [u8], &'a [u8]);

/// Returns the three words of a text.
pub(crate) fn three_words(text: Option<&[u8]>) -> Result<Three<'_>, LineFault> {
    let (first, rest) = cut(text)?;
    let (second, third) = two_words(rest)?;
    Ok((first, second, third))
}

/// Returns the four words of a text.
pub(crate) fn four_words(text: Option<&[u8]>) -> Result<Four<'_>, LineFault> {
    let (first, rest) = cut(text)?;
    let (second, third, fourth) = three_words(rest)?;
    Ok((first, second, third, fourth))
}

/// Returns the five words of a text.
pub(crate) fn five_words(text: Option<&[u8]>) -> Result<Five<'_>, LineFault> {
    let (first, rest) = cut(text)?;
    let (second, third, fourth, fifth) = four_words(rest)?;
    Ok((first, second, third, fourth, fifth))
}

/// Returns the six words of a text.
pub(crate) fn six_words(text: Option<&[u8]>) -> Result<Six<'_>, LineFault> {
    let (first, rest) = cut(text)?;
    let (second, third, fourth, fifth, sixth) = five_words(rest)?;
    Ok((first, second, third, fourth, fifth, sixth))
}

/// Returns the number that a word stands for, which is at most `most`: digits, the first of them 0 only if it is the
/// only one.
pub(crate) fn number(word: &[u8], most: u64) -> Result<u64, LineFault> {
    let is_led_by_zero = word.len() > 1 && word.first() == Some(&b'0');
    // Nineteen digits never pass 64 bits.
    if word.is_empty() || word.len() > 19 || is_led_by_zero {
        return Err(LineFault::Malformed);
    }
    let mut value: u64 = 0;
    for byte in word {
        if *byte < b'0' || *byte > b'9' {
            return Err(LineFault::Malformed);
        }
        value = value.wrapping_mul(10).wrapping_add(u64::from(*byte - b'0'));
    }
    if value <= most {
        Ok(value)
    } else {
        Err(LineFault::Malformed)
    }
}

/// Returns the number of 32 bits that a word stands for.
pub(crate) fn number_32(word: &[u8]) -> Result<u32, LineFault> {
    let value = number(word, u64::from(u32::MAX))?;
    u32::try_from(value).map_err(|_| LineFault::Malformed)
}

/// Returns the number of 16 bits that a word stands for.
pub(crate) fn number_16(word: &[u8]) -> Result<u16, LineFault> {
    let value = number(word, u64::from(u16::MAX))?;
    u16::try_from(value).map_err(|_| LineFault::Malformed)
}
