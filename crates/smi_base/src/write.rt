ghost use Rattle.std.specs.Prelude.{ℕ, OnOk, take};
ghost use Rattle.std.specs.Io.KnownBytes.{Appends};

use std::io::{ErrorKind, Write};
use thiserror::Error;

/// A write failed, or the writer takes no more.
#[derive(Clone, Copy, Debug, PartialEq, Eq, Error)]
#[error("not all could be written")]
pub struct NotWritten;

/// Writes all of the bytes. On an error a prefix of them is written.
pub fn write_whole<W: Write>(writer: &mut W, bytes: &[u8]) -> Result<(), NotWritten>
    ensures all { OnOk result (Appends (W.contents writer.old) (W.contents writer.new) bytes.now) }
    ensures prefix { (n : ℕ) × Appends (W.contents writer.old) (W.contents writer.new) (take n bytes.now) }
{
    let mut at = 0;
    'tries: for _ in 0..u32::MAX {
        if at == bytes.len() {
            return Ok(());
        }
        match writer.write(&bytes[at..]) {
            Ok(0) => return Err(NotWritten),
            Ok(n) => at += n,
            Err(e) => {
                if e.kind() != ErrorKind::Interrupted {
                    return Err(NotWritten);
                }
            }
        }
    }
    Err(NotWritten)
}
