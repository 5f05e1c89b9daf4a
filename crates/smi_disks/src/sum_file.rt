//! Reads and writes the file `STORE-sum`, which has the sum of a store, and finds out by it whether the store's files
//! are sound (docs/FORMATS.md, "The sum of a store").

ghost use Rattle.std.specs.Prelude.{◌≡◌, MatchOption, IfOk, true, false};
ghost use Rattle.smi_disks.specs.StoreCopy.{copy_bytes, copy_of};

use crate::file::{beside, bytes_of};
use crate::side_file::SideFile;
use crate::store_copy::{COPY_BYTES, StoreCopy, StoreHealth, health, spell_copy};
use std::alloc::{AllocError, Global};
use std::io;
use std::rt::Files;

/// What follows the path of a store in that of its sum.
const SUM: &str = "-sum";

/// What follows the path of a store in that of its log.
const LOG: &[u8] = b"-wal";

/// Where the sum of a store is written.
#[derive(Drop)]
pub(crate) struct SumFile {
    file: SideFile,
}

impl SumFile {
    ghost use Rattle.std.specs.Prelude.{◌≡◌, ◌++◌, IfOk, codes, string_bytes};

    /// Returns where the sum of a store is written.
    pub(crate) fn of(alloc: Global, store: &str) -> Result<SumFile, AllocError>
        ensures { IfOk result (λ sum. string_bytes sum.file.finished ≡ store.now ++ codes "-sum") }
    {
        Ok(SumFile {
            file: SideFile::of(alloc, store, SUM)?,
        })
    }

    /// Notes what a store is, if its log has nothing that is not copied into its file.
    pub(crate) fn note<H: Files + AllocGlobal>(&self, host: &H, store: &str) -> io::Result<()> {
        let (file, log) = (
            store_bytes(host, store.as_bytes())?,
            log_bytes(host, store.as_bytes())?,
        );
        let mut note = Vec::with_capacity(host.alloc(), COPY_BYTES)?;
        if !spell_note(&mut note, file.as_slice(), log.as_slice())? {
            return Ok(());
        }
        self.file.put(host, store, note.as_slice())
    }
}

/// Puts the note of a store with this file and this log into a text, in place of what was there. Returns false if the
/// log has something that is not copied: then there is nothing to note.
///
/// Its error is that memory was refused.
fn spell_note(text: &mut Vec<u8>, file: &[u8], log: &[u8]) -> Result<bool, AllocError>
    ensures { IfOk result (λ is_noted. MatchOption (copy_of file.now log.now)
        (is_noted ≡ false) (λ copy. (is_noted ≡ true) × (text.new.items ≡ copy_bytes copy))) }
{
    let Some(copy) = StoreCopy::of_files(file, log) else {
        return Ok(false);
    };
    spell_copy(text, &copy)?;
    Ok(true)
}

/// Returns the bytes of a store's file, or no bytes if there is no file.
fn store_bytes<H: Files + AllocGlobal>(host: &H, store: &[u8]) -> io::Result<Vec<u8>> {
    Ok(bytes_of(host, store)?.unwrap_or(Vec::new(host.alloc())))
}

/// Returns the bytes of a store's log, or no bytes if there is no log.
fn log_bytes<H: Files + AllocGlobal>(host: &H, store: &[u8]) -> io::Result<Vec<u8>> {
    let path = beside(host.alloc(), store, LOG)?;
    Ok(bytes_of(host, path.as_slice())?.unwrap_or(Vec::new(host.alloc())))
}

/// Returns what a store was when its log was copied last, or None if that is not noted, or its note has another length.
fn copy_beside<H: Files + AllocGlobal>(host: &H, store: &[u8]) -> io::Result<Option<StoreCopy>> {
    let path = beside(host.alloc(), store, SUM.as_bytes())?;
    match bytes_of(host, path.as_slice())? {
        Some(bytes) => Ok(StoreCopy::of(bytes.as_slice())),
        None => Ok(None),
    }
}

/// Returns what is seen of the files of a store. Its error is that one of them could not be read.
///
/// The sum is read first and the log last. So if another program copies the log meanwhile, the log has other salts than
/// the sum, and nothing is compared. The file of a store without a sum is not read, because it may be any file.
pub(crate) fn health_of<H: Files + AllocGlobal>(host: &H, store: &[u8]) -> io::Result<StoreHealth> {
    let copy = copy_beside(host, store)?;
    let file = match copy {
        Some(_) => store_bytes(host, store)?,
        None => Vec::new(host.alloc()),
    };
    let log = log_bytes(host, store)?;
    Ok(health(copy, file.as_slice(), log.as_slice()))
}
