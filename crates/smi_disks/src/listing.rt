//! Lists the rows of a store, for `smi rows`.
//!
//! It reads the files of the store into memory and lists that copy. So it needs no right to write, makes no file and
//! leaves none, and locks nothing: a station may run on the store, and any number of listings beside it.

ghost use Rattle.std.specs.Prelude.{◌≡◌, ◌≢◌, ◌↔◌, true, IsTrue, IfOk, slice_index};
ghost use Rattle.std.specs.IoError.{error_kind};
ghost use Rattle.smi_disks.specs.Listing as spec;

use crate::file::{beside, bytes_of, resolved};
use smi_commands::rows::{Listed, rows};
use smi_stable::{SqliteStable, StoreFault};
use sqlite::{Alter, Connection, Error, ErrorCode, FileStore, Files, Options};
use sqlite_disk::{Disk, Memory};
use std::alloc::Global;
use std::io::{self, ErrorKind, Write};
use std::rt;
use std::thread::sleep;
use std::time::{Clock, Duration};

/// How often a store is read again, a millisecond later each time, if it was written meanwhile. After that its listing
/// ends with a fault.
const MOST_TRIES: u32 = 200;

/// How many bytes a disk in memory has room for beside what it begins with. A listing writes less on it.
const ROOM: usize = 64 * 1024;

/// How many calls a disk in memory has room for. A listing makes fewer.
const CALLS: u32 = 1_024;

/// Writes the rows of a store, a line each (docs/FORMATS.md, "Stable rows"), and returns how that ended.
///
/// It has no clause: what is at a path, the system alone says. What is written of a copy has one, and tests/stores.py
/// lists stores.
pub fn list<H: rt::Files + Clock + AllocGlobal, W: Write>(
    host: &H,
    path: &[u8],
    writer: &mut W,
) -> Listed {
    match copied(host, path) {
        Ok(copy) => list_copy(host.alloc(), &copy, writer),
        Err(e) => listed_unread(&e),
    }
}

/// Returns how a listing ends of files that could not be read.
fn listed_unread(error: &io::Error) -> Listed
    ensures memory { error_kind error.now ≡ ErrorKind.OutOfMemory → result ≡ Listed.Memory }
    ensures fault { error_kind error.now ≢ ErrorKind.OutOfMemory → result ≡ Listed.StoreFault }
{
    match error.kind() {
        ErrorKind::OutOfMemory => Listed::Memory,
        _ => Listed::StoreFault,
    }
}

/// A copy of a store's files in memory.
#[derive(Drop)]
struct Copy {
    /// The bytes of its file.
    db: Vec<u8>,
    /// The bytes of its log, or none if there is no log.
    log: Vec<u8>,
    /// True if no other program has left the file half changed.
    is_settled: bool,
}

/// Reads both files until two readings are the same, and returns them as they were at one moment: nothing was written
/// between the first reading of the one and the second of the other.
fn copied<H: rt::Files + Clock + AllocGlobal>(host: &H, path: &[u8]) -> io::Result<Copy>
    ensures { IfOk result (λ copy. copy.is_settled ≡ true) }
{
    let path = resolved(host, path)?;
    for _ in 0..MOST_TRIES {
        let first = read(host, path.as_slice())?;
        let second = read(host, path.as_slice())?;
        if are_of_one_moment(&first, &second) {
            return Ok(second);
        }
        sleep(host, Duration::from_millis(1));
    }
    Err(io::Error::from(ErrorKind::ResourceBusy))
}

/// Returns true if two readings, one after the other, tell what the files were at one moment.
fn are_of_one_moment(first: &Copy, second: &Copy) -> bool
    ensures { result ≡ spec.are_of_one_moment first.now second.now }
{
    second.is_settled
        && first.db.as_slice() == second.db.as_slice()
        && first.log.as_slice() == second.log.as_slice()
}

/// Reads the files of a store once.
fn read<H: rt::Files + AllocGlobal>(host: &H, path: &[u8]) -> io::Result<Copy> {
    let Some(db) = bytes_of(host, path)? else {
        return Err(io::Error::from(ErrorKind::NotFound));
    };
    let log = bytes_of(host, beside(host.alloc(), path, b"-wal")?.as_slice())?;
    let journal = bytes_of(host, beside(host.alloc(), path, b"-journal")?.as_slice())?;
    Ok(Copy {
        db,
        log: log.unwrap_or(Vec::new(host.alloc())),
        is_settled: !journal.is_some_and(|bytes| is_to_be_played_back(bytes.as_slice())),
    })
}

/// Returns true if a journal has changes of another program that are half done, and that it alone can undo.
fn is_to_be_played_back(journal: &[u8]) -> bool
    ensures { IsTrue result ↔ slice_index journal.now 0 ≢ 0 }
{
    journal.first().is_some_and(|byte| *byte != 0)
}

/// Lists a copy of a store.
fn list_copy<W: Write>(alloc: Global, copy: &Copy, writer: &mut W) -> Listed {
    // Nothing was ever saved.
    if copy.db.is_empty() && copy.log.is_empty() {
        return Listed::Done;
    }
    match disks(alloc, copy) {
        Ok(files) => list_in(alloc, files, writer),
        Err(_) => Listed::Memory,
    }
}

/// Returns the disks in memory on which the copy of a store is opened.
fn disks(alloc: Global, copy: &Copy) -> io::Result<Files<Memory>> {
    Ok(Files {
        log: disk(alloc, copy.log.as_slice())?,
        db: disk(alloc, copy.db.as_slice())?,
    })
}

/// Returns a disk with these bytes that has grown before, so that a refused allocation shows here and not later.
fn disk(alloc: Global, bytes: &[u8]) -> io::Result<Memory> {
    let mut disk = Memory::new(alloc);
    disk.set_len(bytes.len().saturating_add(ROOM))?;
    for _ in 0..CALLS {
        disk.write_at(0, &[0])?;
    }
    disk.sync()?;
    disk.set_len(0)?;
    disk.write_at(0, bytes)?;
    disk.sync()?;
    Ok(disk)
}

/// Opens a store on disks in memory, and lists it.
fn list_in<W: Write>(alloc: Global, files: Files<Memory>, writer: &mut W) -> Listed {
    if !files.may_be_used() {
        return Listed::Memory;
    }
    match Connection::open_files(alloc, files, Options::new(1)) {
        Ok(connection) => list_over(connection, writer),
        Err((Error::SqliteFailure(ErrorCode::OutOfMemory), _)) => Listed::Memory,
        Err((_, left)) => found_out(Listed::StoreFault, left.into_files().may_be_used()),
    }
}

/// Returns how a listing ended, by how it seems to have ended, and by whether its disk in memory may still be used. One
/// that may not was refused an allocation: what looks like a faulty store is none then.
fn found_out(listed: Listed, may_be_used: bool) -> Listed
    ensures { result ≡ spec.found_out listed may_be_used }
{
    match listed {
        Listed::StoreFault if !may_be_used => Listed::Memory,
        _ => listed,
    }
}

/// A store that is given up, and tells whether its disk may still be used.
trait EndsWell: Alter + Drop {
    fn ends_well(self) -> bool;
}

impl EndsWell for FileStore<Memory> {
    fn ends_well(self) -> bool {
        self.close().may_be_used()
    }
}

/// Returns the database of a store that is given up.
fn database_of<S: Alter + Drop>(stable: SqliteStable<S>) -> S {
    match stable.release() {
        Ok(connection) => connection.into_store(),
        Err(left) => left,
    }
}

/// Lists the rows of the store on a connection, if it is one.
// Over any store, since each function that names the store of SQLite is expensive to prove.
fn list_over<S: EndsWell, W: Write>(connection: Connection<S>, writer: &mut W) -> Listed {
    match SqliteStable::adopt(connection) {
        Ok(stable) => {
            let mut stable = stable;
            let listed = rows(&mut stable, writer);
            found_out(listed, database_of(stable).ends_well())
        }
        Err((fault, connection)) => {
            let listed = match fault {
                StoreFault::Memory => Listed::Memory,
                StoreFault::Device | StoreFault::Unsure => Listed::StoreFault,
            };
            found_out(listed, connection.into_store().ends_well())
        }
    }
}
