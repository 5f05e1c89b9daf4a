//! Writes the lines of faults that a node or a screen prints on standard error, and returns their exit statuses.
//!
//! `node`, `exit` and `console_loop` call it, and `smi_program` for a screen. The texts are in docs/NUMBERS.md, "Lines
//! on standard error": scripts compare them, and `cause_search` of `smi_program` finds what was in the way by them.

ghost use Rattle.std.specs.Prelude.{◌≡◌};
ghost use Rattle.smi_commands.specs.declared.status.Status.TheVariants as status;
ghost use Rattle.smi_console.specs.Faults.{status_of};

use smi_commands::status::{Status, no_memory, store_fault, wrong_line};
use smi_protocol::OpenFault;
use std::io::Write;

/// Writes why a station was not opened on its store, or why its rows were not brought into their newest schema. Returns
/// the exit status.
///
/// No clause names `faults`: what is written there is words, which tests see.
pub fn opening_fault<F: Write>(fault: OpenFault, faults: &mut F) -> Status
    ensures { result ≡ status_of fault }
{
    match fault {
        OpenFault::NoSuchStation => wrong_line(faults),
        OpenFault::Row(key, code) => {
            // If standard error can't be written, the status alone says so.
            let _ = writeln!(
                faults,
                "row {} {} {} fault {code}",
                key.station, key.domain, key.operator
            );
            Status::Refused
        }
        OpenFault::BootsSpent => print_fault("boots spent", faults),
        OpenFault::Store(_) => store_fault(faults),
        OpenFault::Memory => no_memory(faults),
    }
}

/// Writes that the station's socket can't be opened, or that it failed too often. Returns the exit status.
///
/// No clause names `faults`: what is written there is words, which tests see.
pub fn link_fault<F: Write>(faults: &mut F) -> Status
    ensures { result ≡ status.Fault }
{
    print_fault("link fault", faults)
}

/// Writes that the node can't listen at the address or path of `--console`. Returns the exit status.
pub(crate) fn console_fault<F: Write>(faults: &mut F) -> Status
    ensures { result ≡ status.Fault }
{
    print_fault("console fault", faults)
}

/// Writes that the node can't write its journal. Returns the exit status, which a running node ignores.
pub(crate) fn journal_fault<F: Write>(faults: &mut F) -> Status
    ensures { result ≡ status.Fault }
{
    print_fault("journal fault", faults)
}

/// Writes that the station has stopped. Returns the exit status.
///
/// No clause names `faults`: what is written there is words, which tests see.
pub fn stopped<F: Write>(faults: &mut F) -> Status
    ensures { result ≡ status.Fault }
{
    print_fault("stopped", faults)
}

/// Writes a fault as a line of its own. Returns the exit status.
///
/// No clause names `what` and `faults`: a line of words is written, which tests see.
pub fn print_fault<F: Write>(what: &str, faults: &mut F) -> Status
    ensures { result ≡ status.Fault }
{
    // If standard error can't be written, the status alone says so.
    let _ = writeln!(faults, "{what}");
    Status::Fault
}
