//! Stores over SQL on disks in memory that stop after a number of calls.
//!
//! A store over SQL has to be given up by a call, and each function that names one is expensive to prove. So the tests
//! are over any store, by [`OnDisks`], and one line names [`OverSql`].

ghost use Rattle.std.specs.Prelude.{◌≡◌};

use smi_stable::{SavedRow, SqliteStable, Stable};
use sqlite::{Alter, Connection, FileStore, Files, Options};
use sqlite_disk::{Crash, Disk, Fuse, Memory};
use std::alloc::Global;
use std::test::Fail;

/// The two files of a store.
pub(crate) type FusedFiles = Files<Fuse<Memory>>;

pub(crate) type OverSql = SqliteStable<FileStore<Fuse<Memory>>>;

/// A store that lies on disks, and has to be given up by a call.
pub(crate) trait OnDisks: Stable + Sized {
    /// What it lies on.
    type Disks: Drop;

    /// Opens a store on the disks, or gives them back if one of them failed or memory was refused.
    fn open(alloc: Global, disks: Self::Disks) -> Result<Self, Self::Disks>;

    /// Gives the store up, and its disks back.
    fn close(self) -> Self::Disks;
}

/// A database on disks.
pub(crate) trait Database: Alter + Drop + Sized {
    /// What it lies on.
    type Disks: Drop;

    /// Connects to the database on the disks, or gives them back.
    fn connect(alloc: Global, disks: Self::Disks) -> Result<Connection<Self>, Self::Disks>;

    /// Gives its disks back.
    fn into_disks(self) -> Self::Disks;
}

impl<D: Disk + Drop> Database for FileStore<D> {
    type Disks = Files<D>;

    fn connect(alloc: Global, disks: Files<D>) -> Result<Connection<FileStore<D>>, Files<D>> {
        if !disks.may_be_used() {
            return Err(disks);
        }
        match Connection::open_files(alloc, disks, Options::new(1)) {
            Ok(connection) => Ok(connection),
            Err((_, left)) => Err(left.into_files()),
        }
    }

    fn into_disks(self) -> Files<D> {
        self.close()
    }
}

impl<S: Database> OnDisks for SqliteStable<S> {
    type Disks = S::Disks;

    fn open(alloc: Global, disks: S::Disks) -> Result<SqliteStable<S>, S::Disks> {
        match SqliteStable::adopt(S::connect(alloc, disks)?) {
            Ok(store) => Ok(store),
            Err((_, connection)) => Err(connection.into_store().into_disks()),
        }
    }

    fn close(self) -> S::Disks {
        match self.release() {
            Ok(connection) => connection.into_store().into_disks(),
            Err(left) => left.into_disks(),
        }
    }
}

/// Returns a disk with these bytes that passes this many calls on.
pub(crate) fn disk(alloc: Global, bytes: &[u8], calls: u64) -> Result<Fuse<Memory>, Fail> {
    let mut memory = Memory::new(alloc);
    memory.write_at(0, bytes)?;
    memory.sync()?;
    Ok(Fuse::new(memory, calls))
}

/// Returns empty files that never stop.
pub(crate) fn blank(alloc: Global) -> FusedFiles {
    Files {
        log: Fuse::new(Memory::new(alloc), u64::MAX),
        db: Fuse::new(Memory::new(alloc), u64::MAX),
    }
}

/// Opens a store on such files.
pub(crate) fn opened<S: OnDisks<Disks = FusedFiles>>(alloc: Global) -> Result<S, Fail> {
    match S::open(alloc, blank(alloc)) {
        Ok(store) => Ok(store),
        Err(_) => Err("the files are not opened")?,
    }
}

/// Copies the files into some that pass this many calls on.
pub(crate) fn copied(
    alloc: Global,
    files: &FusedFiles,
    log: u64,
    db: u64,
) -> Result<FusedFiles, Fail> {
    Ok(Files {
        log: disk(alloc, files.log.inner().bytes(), log)?,
        db: disk(alloc, files.db.inner().bytes(), db)?,
    })
}

/// Returns the files as they are once the machine is back.
pub(crate) fn back<D: Crash>(files: Files<D>) -> Files<D> {
    let mut files = files;
    files.log.crash();
    files.db.crash();
    files
}

/// Returns the rows that the next open finds.
pub(crate) fn found<S: OnDisks<Disks = FusedFiles>>(
    alloc: Global,
    files: FusedFiles,
) -> Result<Vec<SavedRow>, Fail> {
    match S::open(alloc, files) {
        Ok(store) => {
            let mut store = store;
            let list = store.load();
            drop(store.close());
            Ok(list?)
        }
        Err(_) => Err("the files are not opened again")?,
    }
}
