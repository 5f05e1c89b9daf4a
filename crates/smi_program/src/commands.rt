//! Runs the command that a command line names, over any files, input and outputs.
//!
//! `main` of the crate `smi` calls [`program`] once. Each command has its own file here (`audit`, `node`, `screen`,
//! `sim`) or is in `smi_commands`. docs/NUMBERS.md has the exit statuses and the lines on standard error.

use crate::audit::audit_files;
use crate::line::{CheckLine, CommandLine, line_of};
use crate::node::run_node;
use crate::screen::run_screen;
use crate::sim::simulate;
use crate::tree::tree_bytes;
use crate::words::{Words, bytes_of};
use smi_commands::answer::{Answered, answer};
use smi_commands::check::{check, lint};
use smi_commands::rows::Listed;
use smi_commands::status::{Status, no_memory, read_fault, store_fault, write_fault, wrong_line};
use smi_console::Console;
use smi_disks::Stores;
use std::alloc::Global;
use std::io::{BufWriter, ErrorKind, Read, Write};
use std::net::{Net, TcpListener, TcpStream};
use std::random::RandomSource;
use std::rt::Files;
use std::sync::Wait;
use std::thread::Threads;
use std::time::Clock;

/// Does what the words of the command line ask for, and returns the exit status.
///
/// It writes faults on `faults`, which is standard error. `aside` is a second handle of standard error, for the thread
/// of a node's sessions, which writes at the same time.
pub fn program<
    H: Files
        + Stores
        + Net<Listener = TcpListener, Stream = TcpStream>
        + RandomSource
        + Wait
        + Threads
        + Clock
        + AllocGlobal
        + Clone
        + Drop
        + Send
        + 'static,
    R: Read + Drop + Send + 'static,
    W: Write + Drop + Send + 'static,
    F: Write,
    E: Write + Drop + Send + 'static,
>(host: &H, words: &Words, reader: R, writer: W, faults: &mut F, aside: E) -> u8 {
    let alloc = host.alloc();
    match line_of(alloc, words.texts.as_slice()) {
        CommandLine::Answer => {
            let (mut reader, mut writer) = (reader, writer);
            print_answered(answer(&mut reader, &mut writer), faults).code()
        }
        CommandLine::Check(line) => check_file(host, words, line, writer, faults),
        CommandLine::Rows(path) => list_rows(host, bytes_of(words, path), writer, faults).code(),
        CommandLine::Sim(line) => simulate(host, words, line, writer, faults),
        CommandLine::Audit(line) => audit_files(host, words, line, writer, faults).code(),
        CommandLine::Node(line) => {
            let console = Console {
                input: reader,
                output: writer,
                faults: aside,
            };
            run_node(host, words, line, console, faults).code()
        }
        CommandLine::Screen(line) => run_screen(host, words, line, faults).code(),
        CommandLine::Wrong => wrong_line(faults).code(),
        CommandLine::NoMemory => no_memory(faults).code(),
    }
}

/// Writes the fault with which answering datagrams ended, if any. Returns the exit status.
fn print_answered<F: Write>(answered: Answered, faults: &mut F) -> Status {
    match answered {
        Answered::Ended => Status::Done,
        Answered::Refused(number, refusal) => {
            // If standard error can't be written, the status alone says so.
            let _ = writeln!(faults, "datagram {number} refused {refusal}");
            Status::Refused
        }
        Answered::ReadFault => read_fault(faults),
        Answered::WriteFault => write_fault(faults),
        Answered::Memory => no_memory(faults),
    }
}

/// Reads a tree file, and writes what it has, or which line is faulty. Returns the exit status, as a number because
/// `check` and `lint` of `smi_commands` do.
fn check_file<H: Files + AllocGlobal, W: Write + Drop, F: Write>(
    host: &H,
    words: &Words,
    line: CheckLine<'_>,
    writer: W,
    faults: &mut F,
) -> u8 {
    let alloc = host.alloc();
    let bytes = match tree_bytes(host, bytes_of(words, line.tree)) {
        Ok(bytes) => bytes,
        Err(e) if e.kind() == ErrorKind::OutOfMemory => return no_memory(faults).code(),
        Err(_) => return read_fault(faults).code(),
    };
    match BufWriter::new(alloc, writer) {
        Ok(mut writer) if line.lints => lint(alloc, bytes.as_slice(), &mut writer, faults),
        Ok(mut writer) => check(alloc, bytes.as_slice(), &mut writer, faults),
        Err(_) => no_memory(faults).code(),
    }
}

/// Writes the rows of the store of this path. Returns the exit status.
fn list_rows<H: Stores + AllocGlobal, W: Write + Drop, F: Write>(
    host: &H,
    path: &[u8],
    writer: W,
    faults: &mut F,
) -> Status {
    let Ok(mut writer) = BufWriter::new(host.alloc(), writer) else {
        return no_memory(faults);
    };
    match host.list(path, &mut writer) {
        Listed::Done => Status::Done,
        Listed::StoreFault => store_fault(faults),
        Listed::WriteFault => write_fault(faults),
        Listed::Memory => no_memory(faults),
    }
}
