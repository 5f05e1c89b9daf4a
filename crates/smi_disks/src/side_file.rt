//! A small file beside a store, which is written whole or not at all.

use std::alloc::{AllocError, Global};
use std::fs::{self, File, OpenFile};
use std::io::{self, Write};
use std::os::unix::fs::MetadataExt;
use std::rt::Files;

/// What follows the name of such a file while it is written.
const UNFINISHED: &str = "-new";

/// Removes what an unfinished file left: a plain file with the owner of the store's. Anything else stays, and nothing
/// is made in its place.
fn remove_unfinished<H: Files>(host: &H, store: &str, unfinished: &str) -> io::Result<()> {
    match fs::symlink_metadata(host, unfinished) {
        Ok(found) if found.is_file() && found.uid() == fs::metadata(host, store)?.uid() => {
            fs::remove_file(host, unfinished)
        }
        _ => Ok(()),
    }
}

/// The path of a small file beside a store, and the one that it has until it is whole.
#[derive(Drop)]
pub(crate) struct SideFile {
    pub(crate) finished: String,
    unfinished: String,
}

impl SideFile {
    ghost use Rattle.std.specs.Prelude.{◌≡◌, ◌++◌, IfOk, string_bytes};

    /// Returns the paths of the file whose name is that of a store with this ending.
    pub(crate) fn of(alloc: Global, store: &str, ending: &str) -> Result<SideFile, AllocError>
        ensures { IfOk result (λ file. string_bytes file.finished ≡ store.now ++ ending.now) }
    {
        Ok(SideFile {
            finished: format!(in alloc; "{}{}", store, ending)?,
            unfinished: format!(in alloc; "{}{}{}", store, ending, UNFINISHED)?,
        })
    }

    /// Puts bytes in the place of what was there: all of them, or none.
    ///
    /// The file is made new each time, so that no link is followed which somebody else put there.
    pub(crate) fn put<H: Files>(&self, host: &H, store: &str, bytes: &[u8]) -> io::Result<()> {
        let unfinished = self.unfinished.as_str();
        remove_unfinished(host, store, unfinished)?;
        let mut file = File::create_new(host, unfinished)?;
        file.write_all(bytes)?;
        file.sync_all()?;
        fs::rename(host, unfinished, self.finished.as_str())
    }
}
