//! The first line of a journal's file: its format, and of which tree it is.

use crate::fault::LineFault;
use crate::word::{four_words, number, number_16};
use smi_tree::Tree;

/// The format of journals that is read here.
const FORMAT: u64 = 1;

/// How many bytes the digest of a tree has.
pub const DIGEST_BYTES: usize = 32;

fn hex_value(digit: u8) -> Option<u8> {
    if b'0' <= digit && digit <= b'9' {
        Some(digit - b'0')
    } else if b'a' <= digit && digit <= b'f' {
        Some(digit - b'a' + 10)
    } else {
        None
    }
}

/// Returns true if a word has two hexadecimal digits for each byte of a digest, in order. Fails if it has other bytes,
/// or another number of them.
fn is_digest(word: &[u8], digest: &[u8; DIGEST_BYTES]) -> Result<bool, LineFault> {
    if word.len() != 2 * DIGEST_BYTES {
        return Err(LineFault::Malformed);
    }
    let mut is_same = true;
    for place in 0..DIGEST_BYTES {
        let high = hex_value(word[2 * place]).ok_or(LineFault::Malformed)?;
        let low = hex_value(word[2 * place + 1]).ok_or(LineFault::Malformed)?;
        if digest[place] >> 4 != high || digest[place] & 15 != low {
            is_same = false;
        }
    }
    Ok(is_same)
}

/// Checks the head of a file, `journal 1 NUMBER DIGEST`, against the tree and its digest.
pub(crate) fn check_head(
    tree: &Tree,
    digest: &[u8; DIGEST_BYTES],
    line: &[u8],
) -> Result<(), LineFault> {
    let (word, format, of_tree, of_file) = four_words(Some(line))?;
    if word != b"journal".as_slice() {
        return Err(LineFault::UnknownWord);
    }
    if number(format, u64::MAX)? != FORMAT {
        return Err(LineFault::Malformed);
    }
    let number = number_16(of_tree)?;
    let is_same = is_digest(of_file, digest)?;
    if number == tree.number() && is_same {
        Ok(())
    } else {
        Err(LineFault::OtherTree)
    }
}
