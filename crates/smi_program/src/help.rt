//! Writes where help is, after a wrong command line, for a person at a terminal.
//!
//! `main` of the crate `smi` calls it last of all. Programs read standard error too, so nothing is written if it is no
//! terminal (docs/NUMBERS.md, "Lines on standard error", `help: man smi`).

ghost use Rattle.std.specs.Prelude.{ℕ, OnOk, take};
ghost use Rattle.std.specs.Io.KnownBytes.{Appends};
ghost use Rattle.smi_program.specs.Help.{help_after};

use smi_base::{NotWritten, write_whole};
use smi_commands::status::Status;
use std::io::Write;

/// Writes where help is, as a second line, if a command has ended as a wrong line and `faults` is a terminal. Writes
/// nothing otherwise, so that a program that reads `faults` finds the one line alone.
///
/// Fails if not all could be written.
pub fn tell_help<F: Write>(status: u8, is_terminal: bool, faults: &mut F) -> Result<(), NotWritten>
    ensures all { OnOk result
        (Appends (F.contents faults.old) (F.contents faults.new) (help_after status is_terminal)) }
    ensures prefix { (n : ℕ) × Appends (F.contents faults.old) (F.contents faults.new)
        (take n (help_after status is_terminal)) }
{
    let help: &[u8] = if status == Status::WrongLine.code() && is_terminal {
        b"help: man smi\n"
    } else {
        b""
    };
    write_whole(faults, help)
}
