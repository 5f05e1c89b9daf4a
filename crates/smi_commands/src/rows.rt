//! `smi rows`: lists the stable rows of a store, a line each. `crates/smi_disks/src/listing.rt` calls `rows` on a copy
//! of a store. docs/FORMATS.md, "Stable rows", says what keys and bytes mean; `tools/rows.py` and tests read the lines.

ghost use Rattle.std.specs.Prelude.{◌≡◌, ◌≢◌, ◌/◌, ◌%◌, ◌∷◌, [], ◌<◌, List, ℕ, OnOk, OnErr, IfOk, IfErr};
ghost use Rattle.std.specs.Io.KnownBytes.{Appends};
ghost use Rattle.smi_rows.specs.Store.{Saved, IsListing};
ghost use Rattle.smi_commands.specs.Rows.{hex_digit, hex, hex_text, row_text, rows_text, listed_fault};

use crate::losses::Losses;
use smi_base::NotWritten;
use smi_rows::{SavedRow, Stable, StoreFault};
use std::io::Write;

/// How a listing ended.
#[derive(Clone, Copy, PartialEq, Eq)]
pub enum Listed {
    /// All rows are written.
    Done,
    /// The store could not be read, or nobody knows whether it could. Nothing is written.
    StoreFault,
    /// A write or a flush failed. A part of the lines may be written.
    WriteFault,
    /// Memory for the rows was refused. Nothing is written.
    Memory,
}

/// Returns the hexadecimal digit of a number under 16, in small letters.
fn hex_digit(digit: u8) -> u8
    requires { digit < 16 }
    ensures { result ≡ hex_digit digit }
{
    if digit < 10 {
        b'0' + digit
    } else {
        b'a' + (digit - 10)
    }
}

/// Writes bytes in hexadecimal, two digits each.
fn write_hex<W: Write>(writer: &mut W, losses: &mut Losses, bytes: &[u8]) -> Result<(), NotWritten>
    ensures text { OnOk result (Appends (W.contents writer.old) (W.contents writer.new) (hex_text bytes.now)) }
    ensures whole { OnOk result (losses.new.count ≡ losses.old.count) }
    ensures lost { OnErr result (losses.old.count < losses.new.count) }
{
    for byte in bytes {
        losses.write(writer, &[hex_digit(*byte / 16), hex_digit(*byte % 16)])?;
    }
    Ok(())
}

/// Writes the line of a row: its key, each number with a space after it, and its bytes.
fn write_row<W: Write>(
    writer: &mut W,
    losses: &mut Losses,
    row: &SavedRow,
) -> Result<(), NotWritten>
    ensures text { OnOk result (Appends (W.contents writer.old) (W.contents writer.new) (row_text row.now)) }
    ensures whole { OnOk result (losses.new.count ≡ losses.old.count) }
    ensures lost { OnErr result (losses.old.count < losses.new.count) }
{
    losses.write_key(writer, row.key)?;
    write_hex(writer, losses, row.bytes.as_slice())?;
    losses.write(writer, b"\n")
}

/// Writes the lines of rows.
fn write_rows<W: Write>(
    writer: &mut W,
    losses: &mut Losses,
    rows: &[SavedRow],
) -> Result<(), NotWritten>
    ensures text { OnOk result (Appends (W.contents writer.old) (W.contents writer.new) (rows_text rows.now)) }
    ensures whole { OnOk result (losses.new.count ≡ losses.old.count) }
    ensures lost { OnErr result (losses.old.count < losses.new.count) }
{
    for row in rows {
        write_row(writer, losses, row)?;
    }
    Ok(())
}

/// Writes all rows and flushes them.
fn write_listing<W: Write>(
    writer: &mut W,
    losses: &mut Losses,
    rows: &[SavedRow],
) -> Result<(), NotWritten>
    ensures text { OnOk result (Appends (W.contents writer.old) (W.contents writer.new) (rows_text rows.now)) }
    ensures lost { OnErr result (losses.old.count < losses.new.count) }
{
    write_rows(writer, losses, rows)?;
    losses.flush(writer)
}

/// Writes what a store answered, and returns how the listing ended. All is written through `losses`, which counts the
/// writes that failed: clauses say by that count that `WriteFault` is returned only if a write failed.
fn list<W: Write>(
    loaded: Result<Vec<SavedRow>, StoreFault>,
    writer: &mut W,
    losses: &mut Losses,
) -> Listed
    ensures done { IfOk loaded (λ rows. result ≡ Listed.Done
        → Appends (W.contents writer.old) (W.contents writer.new) (rows_text rows.items)) }
    // If there are rows, nothing but a failed write keeps them from being written.
    ensures unwritten { OnOk loaded (result ≢ Listed.Done
        → (result ≡ Listed.WriteFault) × (losses.old.count < losses.new.count)) }
    ensures fault { IfErr loaded (λ fault. result ≡ listed_fault fault) }
{
    match loaded {
        Ok(rows) => match write_listing(writer, losses, rows.as_slice()) {
            Ok(()) => Listed::Done,
            Err(NotWritten) => Listed::WriteFault,
        },
        Err(StoreFault::Memory) => Listed::Memory,
        Err(StoreFault::Device | StoreFault::Unsure) => Listed::StoreFault,
    }
}

/// Writes one line for each row of a store, by rising key: the station, the domain and the operator of its key and its
/// bytes in hexadecimal, with one space between. Returns how that ended.
pub fn rows<S: Stable, W: Write>(stable: &mut S, writer: &mut W) -> Listed
    ensures done { result ≡ Listed.Done → S.is_honest stable.new → S.is_open stable.old →
        (list : List Saved) × IsListing (S.rows stable.old) list
        × Appends (W.contents writer.old) (W.contents writer.new) (rows_text list) }
    ensures failed { result ≡ Listed.StoreFault → S.failures stable.old < S.failures stable.new }
    // A listing of a store that failed ends in no other way.
    ensures calm { result ≢ Listed.StoreFault → S.failures stable.new ≡ S.failures stable.old }
{
    // Only the clauses of `list` speak of this count.
    list(stable.load(), writer, &mut Losses::new())
}
