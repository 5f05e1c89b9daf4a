//! Opening the file of a store.

ghost use Rattle.std.specs.Prelude.{◌≡◌, true, false, codes, Err, IsTrue, IfOk, IfErr};
ghost use Rattle.sqlite_store.specs.FileStore.{view};
ghost use Rattle.sqlite.specs.State.{HasCleanDisk};
ghost use Rattle.sqlite.specs.Held.{IsNew};
ghost use Rattle.sqlite.specs.Opening.{is_open_error};
ghost use Rattle.sqlite.specs.Files.{file_state, IsOpened};
ghost use Rattle.sqlite_std_file.specs.declared.OpenError.TheVariants as OpenError;

use crate::beginning::begin;
use sqlite::{Connection, Error, ErrorCode, File, FileStore, Unknown};
use sqlite_std_file::OpenError;
use std::io::ErrorKind;

/// Opens the file of a store, or makes it with pages of 512 bytes, for one who writes it alone: while it is open, no
/// one else can open it.
///
/// # Errors
///
/// As `Connection::open` of `sqlite`, which opens it then; `:memory:` and a URI name no file. A file that was not there
/// may be left, with nothing or its first page in it.
pub fn open(rt: &HostRuntime, path: &str) -> Result<Connection<FileStore<File>>, Error>
    ensures memory { path.now ≡ codes ":memory:" → result ≡ Err (Error.SqliteFailure ErrorCode.CannotOpen) }
    ensures named { IfErr result (λ e. IsTrue (is_open_error e)) }
    ensures opened { IfOk result (λ c. HasCleanDisk (file_state c) → IsOpened c) }
    ensures plain { IfOk result (λ c. HasCleanDisk (file_state c) → (view c.store).has_sums ≡ false) }
    ensures fresh { IfOk result IsNew }
    ensures guarded { IfOk result (λ c. HasCleanDisk (file_state c) → (file_state c).IsShielded) }
{
    if !names_no_file(path)
        && let Err(fault) = begin_at(rt, path)
        && is_out_of_memory(&fault)
    {
        return Err(Error::SqliteFailure(ErrorCode::OutOfMemory));
    }
    // Whatever else went wrong, `sqlite` tells of the file as it is, or makes it if it is still empty.
    Connection::open(rt, path)
}

/// Whether SQLite opens no file by this path.
fn names_no_file(path: &str) -> bool
    ensures memory { path.now ≡ codes ":memory:" → result ≡ true }
{
    path == ":memory:" || path.starts_with("file:")
}

/// The file is locked while its first page is written.
fn begin_at(rt: &HostRuntime, path: &str) -> Result<bool, OpenError> {
    let mut files = sqlite_std_file::open(rt, path, Unknown)?;
    Ok(begin(&mut files)?)
}

/// Whether memory was refused. Someone else has the file where it is busy or its journal is hot, which is not that.
fn is_out_of_memory(fault: &OpenError) -> bool
    ensures refused { fault.now ≡ OpenError.OutOfMemory → result ≡ true }
    ensures busy { fault.now ≡ OpenError.Busy → result ≡ false }
    ensures hot { fault.now ≡ OpenError.HotJournal → result ≡ false }
{
    match fault {
        OpenError::OutOfMemory => true,
        OpenError::Io(error) => error.kind() == ErrorKind::OutOfMemory,
        OpenError::Busy | OpenError::HotJournal => false,
    }
}
