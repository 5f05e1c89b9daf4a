//! Writes the standard output on a thread of its own, because such a write waits, and the sessions must not.
//!
//! `console_loop` has the [`StdoutSender`], and `threads` starts the thread that has the [`StdoutReceiver`]. Blocks go
//! over a bounded channel; what finds no room stays with the session. docs/FORMATS.md, "Connections", says when an
//! output that nobody reads counts as one that can't be written.

use crate::console_waker::ConsoleWaker;
use crossbeam_channel::{Receiver, Sender, TrySendError, bounded};
use smi_base::write_whole;
use smi_schedule::Unwritten;
use smi_session::{MOST_UNSENT, Session};
use std::alloc::{AllocError, Global};
use std::io::Write;
use std::sync::atomic::{AtomicBool, AtomicUsize, Ordering};
use std::sync::{Arc, Wait};

/// The most bytes of a block: no more are copied and written at once.
const BLOCK_BYTES: usize = 4_096;

/// The most blocks that wait in the channel: with 4,096 bytes each as many bytes as a session may have unsent.
const MOST_WAITING: usize = 16;

/// The most blocks that are written. The bound is there so that the loop ends, as the prover wants; no node lives as
/// long. After it the output counts as faulty.
const MOST_BLOCKS: u64 = 1 << 48;

/// What the thread of the sessions knows of the one that writes.
#[derive(Drop)]
struct WriterStatus {
    /// How many blocks were sent and are not written yet. The thread of the sessions raises it, and the one that writes
    /// lowers it.
    unwritten: AtomicUsize,
    /// True if a write has failed. Then the thread that writes has ended.
    has_failed: AtomicBool,
}

impl WriterStatus {
    /// Makes the status of a writer to which nothing was sent.
    fn new() -> WriterStatus {
        WriterStatus {
            unwritten: AtomicUsize::new(0),
            has_failed: AtomicBool::new(false),
        }
    }
}

/// The sender of blocks to the thread that writes the standard output. No call of it waits.
#[derive(Drop)]
pub(crate) struct StdoutSender {
    alloc: Global,
    /// The bounded channel to the thread that writes.
    blocks: Sender<Vec<u8>>,
    /// What that thread has done, which both share.
    status: Arc<WriterStatus, Global>,
}

/// The receiver of these blocks, for the thread that writes them.
#[derive(Drop)]
pub(crate) struct StdoutReceiver {
    /// The other end of the channel.
    blocks: Receiver<Vec<u8>>,
    /// What this thread has done, which both share.
    status: Arc<WriterStatus, Global>,
}

/// Makes the status that both ends share. Fails if memory was refused.
fn new_status(alloc: Global) -> Result<Arc<WriterStatus, Global>, AllocError> {
    match Arc::new(alloc, WriterStatus::new()) {
        Ok(status) => Ok(status),
        Err(_refused) => Err(AllocError),
    }
}

/// Makes both ends of the channel to the standard output. Fails if memory was refused.
pub(crate) fn open_stdout(alloc: Global) -> Result<(StdoutSender, StdoutReceiver), AllocError> {
    let status = new_status(alloc)?;
    let sender_status = Arc::try_clone(&status)?;
    let (sender, blocks) = bounded(alloc, MOST_WAITING)?;
    let stdout = StdoutSender {
        alloc,
        blocks: sender,
        status: sender_status,
    };
    Ok((stdout, StdoutReceiver { blocks, status }))
}

impl StdoutSender {
    /// Returns true if all that was sent is written.
    pub(crate) fn is_written(&self) -> bool {
        self.status.unwritten.load(Ordering::SeqCst) == 0
    }

    /// Sends the first block of a session's output. Returns false if the channel has no room: then the session keeps
    /// it.
    ///
    /// Fails if memory was refused or the thread that writes is gone. Then `unwritten` stays one too high, and nobody
    /// reads it any more, because the caller (`poll_stdin` of `console_loop`) ends the standard input.
    fn send_block<R: Wait>(&self, rt: &R, session: &mut Session) -> Result<bool, Unwritten> {
        let output = session.output();
        let count = output.len().min(BLOCK_BYTES);
        let block = Vec::from_slice(self.alloc, output.get(..count).unwrap_or(output))?;
        // Before the send, because the other thread may have written the block when the send returns.
        self.status.unwritten.fetch_add(1, Ordering::SeqCst);
        match self.blocks.try_send(rt, block) {
            Ok(()) => {
                session.consume(count);
                return Ok(true);
            }
            Err(TrySendError::Full(_)) => {}
            Err(TrySendError::Disconnected(_)) => return Err(Unwritten::Writer),
            Err(TrySendError::OutOfMemory(_)) => return Err(Unwritten::Memory),
        }
        self.status.unwritten.fetch_sub(1, Ordering::SeqCst);
        Ok(false)
    }

    /// Sends a session's output, as far as the channel has room. The rest stays with the session.
    ///
    /// Fails with `Writer` if a write has failed, or if more stays than a session may have unsent, and with `Memory` if
    /// memory was refused.
    pub(crate) fn send<R: Wait>(&self, rt: &R, session: &mut Session) -> Result<(), Unwritten> {
        if self.status.has_failed.load(Ordering::SeqCst) {
            return Err(Unwritten::Writer);
        }
        // The bound is there so that the loop ends: the other thread may take blocks as fast as they come.
        for _ in 0..MOST_WAITING {
            if session.output().is_empty() || !self.send_block(rt, session)? {
                break;
            }
        }
        if session.output().len() > MOST_UNSENT {
            return Err(Unwritten::Writer);
        }
        Ok(())
    }
}

/// Writes and flushes a block. Returns false if that fails.
fn write_block<W: Write>(writer: &mut W, block: &[u8]) -> bool {
    write_whole(writer, block).is_ok() && writer.flush().is_ok()
}

/// Writes block after block, and wakes the thread of the sessions after each. Returns if that thread is gone, or if a
/// write fails, which that thread finds in `has_failed`.
pub(crate) fn write_all<W: Write, R: Wait>(
    rt: &R,
    receiver: &StdoutReceiver,
    waker: &ConsoleWaker,
    writer: &mut W,
) {
    for _ in 0..MOST_BLOCKS {
        let Ok(block) = receiver.blocks.recv(rt) else {
            return;
        };
        if !write_block(writer, block.as_slice()) {
            break;
        }
        receiver.status.unwritten.fetch_sub(1, Ordering::SeqCst);
        waker.wake();
    }
    receiver.status.has_failed.store(true, Ordering::SeqCst);
    waker.wake();
}
