//! The text of what a tree file says, and its digest.
//!
//! The digest goes into the label of a store. Two files that differ only in blanks, comments, or the addresses of their
//! stations say the same. So a crew can change the layout of a file, or move a station, and keep its stores.

ghost use Rattle.std.specs.Prelude.{◌≡◌, ◌++◌, ◌∷◌, [], IfOk, OnOk, take};
ghost use Rattle.sha2.specs.Sha256.{sha256};
ghost use Rattle.smi_tree.specs.Text.{words};
ghost use Rattle.smi_disks.specs.Spoken.{is_station, line_spoken, spaced, spoken};

use sha2::{Digest, Sha256};
use smi_tree::{first_line, first_word, is_comment};
use std::alloc::{AllocError, Global};

/// Returns true if a line that begins with this word is a station's.
fn is_station(word: &[u8]) -> bool
    ensures { result ≡ is_station word.now }
{
    word == b"station".as_slice()
}

/// Puts a word and a blank at the end of a text.
fn speak_word(text: &mut Vec<u8>, word: &[u8]) -> Result<(), AllocError>
    ensures { OnOk result (text.new.items ≡ text.old.items ++ (word.now ++ 32 ∷ [])) }
{
    text.extend_from_slice(word)?;
    text.push(b' ')?;
    Ok(())
}

/// Puts the words of a line at the end of a text, each followed by a blank.
fn speak_words(text: &mut Vec<u8>, line: &[u8]) -> Result<(), AllocError>
    ensures { OnOk result (text.new.items ≡ text.old.items ++ spaced (words line.now)) }
{
    let mut rest = line;
    while let Some(cut) = first_word(rest) {
        let (word, after) = cut;
        speak_word(text, word.text())?;
        rest = after;
    }
    Ok(())
}

/// Puts the first word of a line at the end of a text, followed by a blank.
fn speak_first(text: &mut Vec<u8>, line: &[u8]) -> Result<(), AllocError>
    ensures { OnOk result (text.new.items ≡ text.old.items ++ spaced (take 1 (words line.now))) }
{
    match first_word(line) {
        Some((word, _)) => speak_word(text, word.text()),
        None => Ok(()),
    }
}

/// Puts what a line says at the end of a text.
fn speak_line(text: &mut Vec<u8>, line: &[u8]) -> Result<(), AllocError>
    ensures { OnOk result (text.new.items ≡ text.old.items ++ line_spoken line.now) }
{
    let Some((word, more)) = first_word(line) else {
        return Ok(());
    };
    if is_comment(word.text()) {
        return Ok(());
    }
    speak_word(text, word.text())?;
    if is_station(word.text()) {
        speak_first(text, more)?;
    } else {
        speak_words(text, more)?;
    }
    text.push(b'\n')?;
    Ok(())
}

/// Returns what a tree file says: the words of its lines, each followed by a blank, and a line feed after each line.
/// Lines without words and comments say nothing, nor does the address of a station.
///
/// Its error is that memory was refused. No clause names `alloc`, from which memory comes.
pub fn speak(alloc: Global, file: &[u8]) -> Result<Vec<u8>, AllocError>
    ensures { IfOk result (λ text. text.items ≡ spoken file.now) }
{
    let mut text = Vec::new(alloc);
    let mut rest = file;
    while let Some(cut) = first_line(rest) {
        let (line, after) = cut;
        speak_line(&mut text, line)?;
        rest = after;
    }
    Ok(text)
}

/// Returns the digest of what a tree file says: SHA-256 of FIPS 180-4.
///
/// Its error is that memory was refused.
pub fn digest(alloc: Global, file: &[u8]) -> Result<[u8; 32], AllocError>
    ensures { IfOk result (λ it. it ≡ sha256 (spoken file.now)) }
{
    let text = speak(alloc, file)?;
    let mut hasher = Sha256::new();
    hasher.update(text.as_slice());
    Ok(hasher.finalize())
}
