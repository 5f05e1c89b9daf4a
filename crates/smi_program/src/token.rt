//! Reads the token that people have to know to order from a screen's page, from the file of `--token`.
//!
//! `screen` calls [`token_in`] at its start and never later, so a new token needs a new start. docs/RUNNING.md, "The
//! screen", says how such a file is made; docs/NUMBERS.md has the fault.

use smi_commands::status::{Status, no_memory};
use std::alloc::Global;
use std::io::Write;

/// The fewest bytes that a token may have, so that nobody guesses it.
const LEAST_BYTES: usize = 16;

/// The most bytes that a token may have, so that a browser sends it in one header.
const MOST_BYTES: usize = 128;

/// Returns true if a token may have this byte. It has to go into a header as it is.
fn is_of_token(byte: &u8) -> bool {
    byte.is_ascii_alphanumeric() || matches!(*byte, b'-' | b'_')
}

/// Returns the text of a file without the line feed at its end, and without a carriage return before it.
fn without_end(bytes: &[u8]) -> &[u8] {
    let text = bytes.strip_suffix(b"\n").unwrap_or(bytes);
    text.strip_suffix(b"\r").unwrap_or(text)
}

/// Returns the token of a file: one line of 16 to 128 letters, digits, `-` and `_`. For any other file it writes
/// `token fault` and fails with status 1, because a new start would not mend that.
pub(crate) fn token_in<F: Write>(
    alloc: Global,
    bytes: &[u8],
    faults: &mut F,
) -> Result<Vec<u8>, Status> {
    let text = without_end(bytes);
    if text.len() < LEAST_BYTES || text.len() > MOST_BYTES || !text.iter().all(is_of_token) {
        // If standard error can't be written, the status alone says so.
        let _ = writeln!(faults, "token fault");
        return Err(Status::Refused);
    }
    Vec::from_slice(alloc, text).map_err(|_| no_memory(faults))
}
