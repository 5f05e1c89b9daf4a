//! The exit statuses of the program and its short lines on standard error. Every command and screen uses them, in
//! `smi_program`, and nodes in `smi_console`. docs/NUMBERS.md, "Statuses of the program" and "Lines on
//! standard error", fixes both: scripts read them. Status 5, of `--service`, is made of 3 in `smi_program`.

ghost use Rattle.std.specs.Prelude.{◌≡◌};

use std::io::Write;

/// How a command ended. The number of a variant, from 0 in this order, is the exit status.
#[derive(Clone, Copy, PartialEq, Eq)]
pub enum Status {
    /// All was done: 0.
    Done,
    /// An input is refused: 1.
    Refused,
    /// The command line is none of the forms, or names a station that the tree does not have: 2.
    WrongLine,
    /// A read, a write, a store or a socket failed, or a station can't be started or has stopped: 3.
    Fault,
    /// Memory was refused: 4.
    NoMemory,
}

impl Status {
    ghost use Rattle.std.specs.Prelude.{◌≡◌};
    ghost use Rattle.smi_commands.specs.Status.{status_code};

    /// Returns the exit status, 0 to 4.
    pub fn code(self) -> u8
        ensures { result ≡ status_code self }
    {
        self as u8
    }
}

/// Writes `wrong line`, which says that the command line is none of the forms, and returns that status.
///
/// No clause names `faults`: what is written there is words, which tests see.
pub fn wrong_line<F: Write>(faults: &mut F) -> Status
    ensures { result ≡ Status.WrongLine }
{
    // If it can't be written, the status says the same.
    let _ = writeln!(faults, "wrong line");
    Status::WrongLine
}

/// Writes `read fault`, which says that an input could not be read, and returns its status.
///
/// No clause names `faults`: what is written there is words, which tests see.
pub fn read_fault<F: Write>(faults: &mut F) -> Status
    ensures { result ≡ Status.Fault }
{
    // If it can't be written, the status says the same.
    let _ = writeln!(faults, "read fault");
    Status::Fault
}

/// Writes `write fault`, which says that an output could not be written, and returns its status.
///
/// No clause names `faults`: what is written there is words, which tests see.
pub fn write_fault<F: Write>(faults: &mut F) -> Status
    ensures { result ≡ Status.Fault }
{
    // If it can't be written, the status says the same.
    let _ = writeln!(faults, "write fault");
    Status::Fault
}

/// Writes `store fault`, which says that a store could not be opened, read or written, and returns its status.
///
/// No clause names `faults`: what is written there is words, which tests see.
pub fn store_fault<F: Write>(faults: &mut F) -> Status
    ensures { result ≡ Status.Fault }
{
    // If it can't be written, the status says the same.
    let _ = writeln!(faults, "store fault");
    Status::Fault
}

/// Writes `no memory`, which says that memory was refused, and returns its status.
///
/// No clause names `faults`: what is written there is words, which tests see.
pub fn no_memory<F: Write>(faults: &mut F) -> Status
    ensures { result ≡ Status.NoMemory }
{
    // If it can't be written, the status says the same.
    let _ = writeln!(faults, "no memory");
    Status::NoMemory
}
