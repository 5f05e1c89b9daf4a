//! Writes more than one line of a fault, for people, and chooses another exit status if no new start mends the fault.
//!
//! `main` of the crate `smi` calls [`tell_more`] once the command is over. docs/NUMBERS.md, "Lines on standard error"
//! and "Statuses of the program", says what is written and what status 5 means; the units of systemd start nothing
//! again that ended with it.

ghost use Rattle.std.specs.Prelude.{◌≡◌, Bool, false};
ghost use Rattle.smi_program.specs.Lasting as spec;

use crate::cause_search::cause_of;
use crate::last_line::LastLine;
use crate::line::line_of;
use crate::tree_words::tell_tree_fault;
use crate::words::Words;
use smi_commands::status::Status;
use std::io::Write;
use std::net::Net;
use std::rt::Files;

/// The exit status of a service that would end the same way at its next start. docs/NUMBERS.md names it, and
/// `RestartPreventExitStatus` of the units in examples/.
pub const LASTING_FAULT: u8 = 5;

/// Returns the exit status of a command that has ended with `status`: `LASTING_FAULT` if it runs as a service and its
/// fault lasts, and else `status` itself.
fn final_status(status: u8, is_service: bool, lasts: bool) -> u8
    ensures { result ≡ spec.final_status status is_service lasts }
{
    if status == Status::Fault.code() && is_service && lasts {
        LASTING_FAULT
    } else {
        status
    }
}

/// Writes what was in the way of a command that has ended with a fault, if that can be found. Returns true if it would
/// be in the way of a new start too.
fn tell_cause<H: Files + Net + AllocGlobal, F: Write + Drop>(
    host: &H,
    words: &Words,
    faults: &mut LastLine<F>,
) -> bool {
    match cause_of(host, words, faults.text()) {
        Some(cause) => {
            // If standard error can't be written, there is nowhere left to say so.
            let _ = cause.tell(faults);
            cause.why.lasts()
        }
        None => false,
    }
}

/// Writes more of what is amiss with a command that has ended with this status, if a person reads `faults`: at a
/// terminal, or in a service's journal. Writes nothing otherwise, so that a program that reads `faults` finds the one
/// line alone. Returns the exit status.
///
/// If a tree file was refused, it writes the faulty line, and what is wrong with it. If the command ended with a fault,
/// it writes which path or address was in the way, and why, as far as a second look tells. `words` are the words of the
/// command line, and `faults` is standard error, of which it knows the last line.
pub fn tell_more<H: Files + Net + AllocGlobal, F: Write + Drop>(
    host: &H,
    words: &Words,
    status: u8,
    is_terminal: bool,
    faults: &mut LastLine<F>,
) -> u8
    ensures silent { spec.has_more status ≡ false → faults.new ≡ faults.old }
    ensures ended { (is_service : Bool) × (lasts : Bool) × result ≡ spec.final_status status is_service lasts }
{
    // The line is the command line, of which a node or a screen may be a service.
    let is_service = line_of(host.alloc(), words.texts.as_slice()).is_service();
    let is_read = is_terminal || is_service;
    if is_read && status == Status::Refused.code() {
        tell_tree_fault(host, words, faults);
    }
    let lasts = is_read && status == Status::Fault.code() && tell_cause(host, words, faults);
    final_status(status, is_service, lasts)
}
