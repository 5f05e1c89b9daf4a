//! Reads the lines of the standard input on a thread of its own, because such a read waits.
//!
//! `threads` starts the thread. `console_loop` receives the lines over a channel that holds sixteen: if the sessions
//! take none, this thread waits, and so does the program that writes to the standard input.

use crate::console_waker::ConsoleWaker;
use crossbeam_channel::Sender;
use smi_session::LineSplitter;
use std::alloc::{AllocError, Global};
use std::io::{ErrorKind, Read};
use std::sync::Wait;

/// The most lines that are read, and the most reads for one line. The bound is there so that both loops end, as the
/// prover wants; no input is as long. After it the input counts as faulty.
const MOST_READS: u64 = 1 << 32;

/// How many bytes are read at once.
const BLOCK_BYTES: usize = 512;

/// How the input ended.
#[derive(Clone, Copy)]
pub(crate) enum InputEnd {
    /// All was read.
    End,
    /// A read failed.
    ReadFault,
    /// Memory was refused.
    Memory,
}

/// What the reading thread sends: line after line, and at last how the input ended.
#[derive(Drop)]
pub(crate) enum Input {
    /// A line, without its line feed.
    Line(Vec<u8>),
    /// The input has ended, and nothing follows.
    Ended(InputEnd),
}

/// The outcome of one read.
enum ReadOutcome {
    /// Bytes have come, or may still come.
    More,
    /// The input has ended.
    End,
    /// The read failed.
    Fault,
}

/// Reads a block into a splitter. A read that a signal interrupts is made again, by the caller's next call.
///
/// Fails if memory was refused.
fn read_once<I: Read>(
    reader: &mut I,
    splitter: &mut LineSplitter,
) -> Result<ReadOutcome, AllocError> {
    let mut block = [0u8; BLOCK_BYTES];
    match reader.read(&mut block) {
        Ok(0) => Ok(ReadOutcome::End),
        Ok(count) => {
            splitter.push(block.get(..count).unwrap_or(&[]))?;
            Ok(ReadOutcome::More)
        }
        Err(e) if e.kind() == ErrorKind::Interrupted => Ok(ReadOutcome::More),
        // Which fault it is counts for nothing: the reading ends.
        Err(_) => Ok(ReadOutcome::Fault),
    }
}

/// Reads the next line of the input, or how it ended. The last line may lack its line feed.
///
/// Fails if memory was refused.
fn next_line<I: Read>(reader: &mut I, splitter: &mut LineSplitter) -> Result<Input, AllocError> {
    for _ in 0..MOST_READS {
        if let Some(line) = splitter.next_line()? {
            return Ok(Input::Line(line));
        }
        match read_once(reader, splitter)? {
            ReadOutcome::More => {}
            ReadOutcome::End => {
                // After a last line without its line feed the next call reads again, and finds the end again.
                return Ok(match splitter.last_line()? {
                    Some(line) => Input::Line(line),
                    None => Input::Ended(InputEnd::End),
                });
            }
            ReadOutcome::Fault => break,
        }
    }
    Ok(Input::Ended(InputEnd::ReadFault))
}

/// Reads the next line of the input, or how it ended, also if memory was refused.
fn next_input<I: Read>(reader: &mut I, splitter: &mut LineSplitter) -> Input {
    match next_line(reader, splitter) {
        Ok(input) => input,
        Err(_) => Input::Ended(InputEnd::Memory),
    }
}

/// Sends a line or the end of the input, waiting for room, and wakes the thread of the sessions. Returns false if that
/// thread is gone.
pub(crate) fn send_input<R: Wait>(
    rt: &R,
    input: Input,
    lines: &Sender<Input>,
    waker: &ConsoleWaker,
) -> bool {
    let is_taken = lines.send(rt, input).is_ok();
    waker.wake();
    is_taken
}

/// Reads and sends line after line, until the input ends or the thread of the sessions is gone.
pub(crate) fn read_all<I: Read, R: Wait>(
    rt: &R,
    alloc: Global,
    reader: &mut I,
    lines: &Sender<Input>,
    waker: &ConsoleWaker,
) {
    let mut splitter = LineSplitter::new(alloc);
    for _ in 0..MOST_READS {
        let input = next_input(reader, &mut splitter);
        let is_last = matches!(input, Input::Ended(_));
        if !send_input(rt, input, lines, waker) || is_last {
            return;
        }
    }
    send_input(rt, Input::Ended(InputEnd::ReadFault), lines, waker);
}
