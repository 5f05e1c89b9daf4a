//! Turns the end of a node into an exit status and the line of its fault.
//!
//! `node` calls [`report_exit`] once the service is over. The lines are in `faults`. specs/Faults says which status
//! each end has, and docs/NUMBERS.md ("Statuses of the program") what the status means to the one who started the node.

ghost use Rattle.std.specs.Prelude.{◌≡◌};
ghost use Rattle.smi_console.specs.Faults.{status_at, status_by, status_in};

use crate::faults::{console_fault, journal_fault, link_fault, stopped};
use smi_commands::status::{Status, no_memory};
use smi_node::ServeFault;
use std::alloc::AllocError;
use std::io::{self, ErrorKind, Write};

/// Why a node that has opened its station does not serve.
#[derive(Clone, Copy)]
pub(crate) enum StartError {
    /// Out of memory, or no thread could be made.
    Memory,
    /// The station's UDP socket could not be opened.
    Link,
    /// A listener for consoles could not be opened.
    Console,
    /// The first file of the journal could not be made.
    Journal,
}

impl From<AllocError> for StartError {
    fn from(_refused: AllocError) -> StartError {
        StartError::Memory
    }
}

// Any other error counts as one of the link, because `setup` maps the errors of consoles and of the journal itself.
impl From<io::Error> for StartError {
    fn from(error: io::Error) -> StartError {
        if error.kind() == ErrorKind::OutOfMemory {
            StartError::Memory
        } else {
            StartError::Link
        }
    }
}

/// Writes the line of the fault by which a service ended, if it did not end after its turns. Returns the exit status.
fn report_served<F: Write>(served: Result<(), ServeFault>, faults: &mut F) -> Status
    ensures { result ≡ status_by served }
{
    match served {
        Ok(()) => Status::Done,
        Err(ServeFault::Stopped) => stopped(faults),
        Err(ServeFault::Memory) => no_memory(faults),
        Err(ServeFault::Link) => link_fault(faults),
    }
}

/// Writes the line of the error that kept a node from serving. Returns the exit status.
fn report_start_error<F: Write>(error: StartError, faults: &mut F) -> Status
    ensures { result ≡ status_at error }
{
    match error {
        StartError::Memory => no_memory(faults),
        StartError::Link => link_fault(faults),
        StartError::Console => console_fault(faults),
        StartError::Journal => journal_fault(faults),
    }
}

/// Writes how a node with an open station ended, if that is a fault. Returns the exit status.
pub(crate) fn report_exit<F: Write>(
    outcome: Result<Result<(), ServeFault>, StartError>,
    faults: &mut F,
) -> Status
    ensures { result ≡ status_in outcome }
{
    match outcome {
        Ok(served) => report_served(served, faults),
        Err(error) => report_start_error(error, faults),
    }
}
