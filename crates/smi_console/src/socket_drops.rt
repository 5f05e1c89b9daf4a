//! Reads how many datagrams to a node's socket the system has dropped, because the node took them too slowly.
//!
//! `console_loop` reads it once a second, on the thread of the sessions, and sessions print it as `dropped` in the
//! answer to `counts` (docs/FORMATS.md, "Lines with a tag"). The table is that of Linux; without it the number is left
//! out.

use crate::node::NodeSetup;
use crate::peers::addresses;
use std::alloc::{AllocError, Global};
use std::net::SocketAddr;
use std::time::Instant;

/// The file in which Linux lists the UDP sockets, a line each.
const TABLE: &[u8] = b"/proc/net/udp";

/// How many bytes of the table are read at once.
const BLOCK_BYTES: usize = 4_096;

/// The most reads of the table. The bound is there so that the loop ends: 4 MiB are some 30,000 sockets.
const MOST_READS: usize = 1_024;

/// How many seconds old the number is at least before it is read again (docs/FORMATS.md, `dropped`).
const LEAST_AGE_SECONDS: u64 = 1;

/// The socket of a node as the system's table names it.
#[derive(Drop)]
pub(crate) struct SocketDrops {
    alloc: Global,
    /// Its address and port as the second word of its line in the table, or an empty text if it has none.
    socket: String,
    /// When the table was last read. None if it was not read yet.
    read_at: Option<Instant>,
}

/// Returns how many datagrams a socket has lost by this table: the last word of the line whose second word names it.
/// Returns None if the table has no such line.
fn drops_in(table: &str, socket: &str) -> Option<u64> {
    for line in table.lines() {
        if line.split_whitespace().nth(1) == Some(socket) {
            return line.split_whitespace().last()?.parse().ok();
        }
    }
    None
}

/// Adds the bytes of an open file to a text, up to its end or the first read that fails.
///
/// Fails if memory was refused.
fn read_all(text: &mut Vec<u8>, file: i32) -> Result<(), AllocError> {
    let mut block = [0u8; BLOCK_BYTES];
    for _ in 0..MOST_READS {
        match usize::try_from(libc::read(file, &mut block)) {
            Ok(count) if count > 0 => text.extend_from_slice(block.get(..count).unwrap_or(&[]))?,
            _ => return Ok(()),
        }
    }
    Ok(())
}

/// Returns the system's table, or None if it can't be read or memory was refused.
///
/// It uses a descriptor, because this thread has no `Files`, the runtime's handle of files.
fn read_table(alloc: Global) -> Option<String> {
    let file = os::open_read(TABLE);
    if file < 0 {
        return None;
    }
    let mut text = Vec::new(alloc);
    let added = read_all(&mut text, file);
    libc::close(file);
    added.ok()?;
    String::from_utf8_lossy(alloc, text.as_slice()).ok()
}

impl SocketDrops {
    /// Makes the reader of a node's socket. In the table its name is the address and the port, in hexadecimal, the
    /// address as a number whose first byte is the lowest, as an x86 processor reads it.
    ///
    /// Fails if memory was refused.
    pub(crate) fn of(alloc: Global, setup: &NodeSetup) -> Result<SocketDrops, AllocError> {
        let peers = addresses(alloc, &setup.tree)?;
        let index = usize::from(setup.station).saturating_sub(1);
        let socket = match peers.get(index) {
            Some(SocketAddr::V4(own)) => {
                let host = u32::from_le_bytes(own.ip().octets());
                format!(in alloc; "{:08X}:{:04X}", host, own.port())?
            }
            // No line of the table has an empty name, so the number is left out.
            _ => String::new(alloc),
        };
        Ok(SocketDrops {
            alloc,
            socket,
            read_at: None,
        })
    }

    /// Returns true if the last number is old enough for another read. The system tells of no change, so the caller
    /// asks once a round, and a node at rest reads nothing.
    pub(crate) fn is_due(&self, now: Option<Instant>) -> bool {
        match (now, self.read_at) {
            (Some(now), Some(read_at)) => now.duration_since(read_at).as_secs()
                >= LEAST_AGE_SECONDS,
            (Some(_), None) => true,
            (None, _) => false,
        }
    }

    /// Returns how many datagrams the system has dropped since the node's socket was opened. None if the table does not
    /// tell.
    pub(crate) fn read(&mut self, now: Option<Instant>) -> Option<u64> {
        self.read_at = now;
        drops_in(read_table(self.alloc)?.as_str(), self.socket.as_str())
    }
}
