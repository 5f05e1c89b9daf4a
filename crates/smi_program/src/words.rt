//! Reads the words of the command line as the system gives them, which need not be text.
//!
//! `main` of the crate `smi` reads them once. `line` parses their texts, and each command looks up the bytes of its
//! paths here, so that a file whose name is not UTF-8 can be named (tests/paths_test.py).

use std::alloc::{AllocError, Global};
use std::env::FillError;
use std::rt::Env;

/// The most bytes of a word. Linux takes no longer one (`MAX_ARG_STRLEN`, 128 KiB).
const MOST_BYTES: usize = 128 * 1024;

/// The words of a command line, the program's own name first.
#[derive(Drop)]
pub struct Words {
    /// Each word as text. In one that is not UTF-8 the bytes that are no text are replaced by U+FFFD, which no word of
    /// a form has.
    pub texts: Vec<String>,
    /// The bytes of the same words, by the same indices.
    pub bytes: Vec<Vec<u8>>,
}

/// Reads the words of the command line. Fails only if memory ran out, which tests alone see.
pub fn words_of<H: Env + AllocGlobal>(rt: &H) -> Result<Words, AllocError> {
    let mut words = Words {
        texts: Vec::new(rt.alloc()),
        bytes: Vec::new(rt.alloc()),
    };
    let mut buffer = std::vec![in rt.alloc(); 0u8; MOST_BYTES]?;
    // The bound is there so that the loop ends; no command line has as many words.
    for index in 0..usize::MAX {
        match rt.arg(index, buffer.as_mut_slice()) {
            Ok(count) => add_word(
                rt.alloc(),
                &mut words,
                buffer.as_slice().get(..count).unwrap_or(&[]),
            )?,
            Err(FillError::NotPresent) => break,
            // The system takes no such word. This byte is no text, so the word is none of a form.
            Err(FillError::TooLong) => add_word(rt.alloc(), &mut words, &[u8::MAX])?,
        }
    }
    Ok(words)
}

/// Adds a word, as text and as bytes. Fails if memory was refused.
fn add_word(alloc: Global, words: &mut Words, bytes: &[u8]) -> Result<(), AllocError> {
    words.texts.push(String::from_utf8_lossy(alloc, bytes)?)?;
    words.bytes.push(Vec::from_slice(alloc, bytes)?)?;
    Ok(())
}

/// Returns the bytes of the first word that has this text, after the program's own name and the command. Returns those
/// of the text itself if there is none.
pub fn bytes_of<'a>(words: &'a Words, text: &'a str) -> &'a [u8] {
    // The program's own name and the command come first, and name no file.
    let pairs = words.texts.iter().zip(words.bytes.iter()).skip(2);
    for (word, bytes) in pairs {
        if word.as_str() == text {
            return bytes.as_slice();
        }
    }
    text.as_bytes()
}

/// Returns the bytes of the first word that has this text, after the first word that has the text `before`. Returns
/// those of the text itself if there is none.
pub fn bytes_after<'a>(words: &'a Words, before: &str, text: &'a str) -> &'a [u8] {
    let mut is_after = false;
    // The program's own name and the command come first, and name no file.
    for (word, bytes) in words.texts.iter().zip(words.bytes.iter()).skip(2) {
        if is_after && word.as_str() == text {
            return bytes.as_slice();
        }
        is_after = is_after || word.as_str() == before;
    }
    text.as_bytes()
}
