//! Appends parts of text, and tests and shares texts. All of this crate and of `smi_web` that writes lines, JSON or
//! metrics uses it. `is_all_plain` is what allows all of them to escape nothing: only texts that pass it may be kept
//! and written.

ghost use Rattle.std.specs.Prelude.{◌≡◌, ◌++◌, IfOk, OnOk, option_map};
ghost use Rattle.std.specs.Fmt.{decimal};
ghost use Rattle.std.specs.List.{list_all};
ghost use Rattle.smi_schedule.specs.TraceWords.{called};
ghost use Rattle.smi_history.specs.Text as spec;

use bytes::Bytes;
use std::alloc::AllocError;
use std::io::Write;

/// Appends bytes as they are.
///
/// Fails only if memory is refused (tested, not proved).
pub fn put(text: &mut Vec<u8>, piece: &[u8]) -> Result<(), AllocError>
    ensures { OnOk result (text.new.items ≡ text.old.items ++ piece.now) }
{
    text.extend_from_slice(piece)
}

/// Appends `before` and then a number in decimal digits.
///
/// Fails only if memory is refused (tested, not proved).
pub fn put_number(text: &mut Vec<u8>, before: &[u8], number: u64) -> Result<(), AllocError>
    ensures { OnOk result (text.new.items ≡ text.old.items ++ before.now ++ decimal number) }
{
    put(text, before)?;
    // Writing into a Vec fails only if memory is refused.
    write!(text, "{number}").map_err(|_| AllocError)
}

/// Appends a name, or the number if there is no name, because the tree has no such thing.
///
/// Fails only if memory is refused (tested, not proved).
pub fn put_called(text: &mut Vec<u8>, name: Option<&[u8]>, number: u16) -> Result<(), AllocError>
    ensures { OnOk result (text.new.items ≡ text.old.items ++ called (option_map (λ n. n.now) name.entry) number) }
{
    match name {
        Some(name) => put(text, name),
        // Writing into a Vec fails only if memory is refused.
        None => write!(text, "{number}").map_err(|_| AllocError),
    }
}

/// Returns true if a byte needs no escape in one line and within quotes.
fn is_plain(byte: u8) -> bool
    ensures { result ≡ spec.is_plain byte }
{
    // From the space to `~`.
    32 <= byte && byte <= 126 && byte != b'"' && byte != b'\\'
}

/// Returns true if all bytes of a text need no escape in one line and within quotes: they are printable ASCII without
/// the quotation mark and the backslash.
pub fn is_all_plain(text: &[u8]) -> bool
    ensures { result ≡ list_all spec.is_plain text.now }
{
    text.iter().all(|byte| is_plain(*byte))
}

/// Returns what follows `front` in a text that begins with it. None if it does not.
pub fn rest_of<'a>(front: &[u8], text: &'a [u8]) -> Option<&'a [u8]>
    ensures { option_map (λ rest. rest.now) result ≡ spec.rest_of front.now text.now }
{
    if text.starts_with(front) {
        Some(&text[front.len()..])
    } else {
        None
    }
}

/// Returns a text as `Bytes`, whose copies share its memory.
///
/// Fails only if memory is refused (tested, not proved).
pub fn shared(text: Vec<u8>) -> Result<Bytes, AllocError>
    ensures { IfOk result (λ bytes. bytes ≡ text.items) }
{
    match Bytes::from_vec(text) {
        Ok(bytes) => Ok(bytes),
        // It fails only if memory is refused. The error hands the text back, which is dropped here.
        Err(_) => Err(AllocError),
    }
}
