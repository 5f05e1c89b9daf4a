//! Opens, closes and lists stores by their paths: [`Stores`], which the program has of its host.
//!
//! What is opened is SQLite's store, with its files watched ([`Watched`]) and its label read.

ghost use Rattle.std.specs.Prelude.{◌≡◌, ◌≢◌, Ok, Err, IfOk, IfErr};
ghost use Rattle.std.specs.IoError.{error_kind};
ghost use Rattle.smi_disks.specs.LabelFound.{kinship_by, noted_by, tree_by};

use crate::file::beside;
use crate::label_file::label_beside;
use crate::label_found::LabelFound;
use crate::listing::list;
use crate::mark::{Kinship, TreeMark};
use crate::store_copy::StoreHealth;
use crate::sum_file::health_of;
use crate::surroundings::{StoreFiles, Surroundings};
use crate::watched::Watched;
use smi_commands::rows::Listed;
use smi_stable::{LoggedStable, SqliteStable, StoreFault};
use sqlite::{Alter, Connection, Error, ErrorCode, File, FileStore};
use std::io::{self, ErrorKind, Write};

/// What follows the path of a store in that of its log.
const LOG: &[u8] = b"-wal";

/// A store that was opened, and what its label says.
#[derive(Drop)]
pub struct OpenStore<S> {
    pub stable: S,
    /// What was at the place of its label.
    pub label: LabelFound,
    /// How the tree that it is opened for compares with the one that it was made for.
    pub kinship: Kinship,
    /// The boot that its label notes of the station that it is opened for.
    pub noted: Option<u32>,
}

/// What opens and lists stores by their paths.
pub trait Stores {
    /// A store that is open.
    type Open: LoggedStable;

    /// Writes the rows of a store, a line each.
    fn list<W: Write>(&self, path: &[u8], writer: &mut W) -> Listed;

    /// Opens a store for a station of this tree, or makes it, for one who writes it alone: while it is open, nobody
    /// else can open it so. If its files are taken away meanwhile, the next save is unsure. A boot row that is saved is
    /// noted in its label, which names the tree that it named before, or else this one.
    fn open(
        &self,
        path: &[u8],
        tree: &TreeMark,
        station: u16,
    ) -> Result<OpenStore<Self::Open>, StoreFault>
        ensures kinship { IfOk result (λ store. store.kinship ≡ kinship_by store.label tree.now) }
        ensures noted { IfOk result (λ store. store.noted ≡ noted_by store.label station) };

    /// Returns what is seen of the files of a store that nobody has open, before it is opened. If they can't be read,
    /// they count as sound, because the opening tells their fault. Its error is that memory was refused.
    fn health(&self, path: &[u8]) -> Result<StoreHealth, StoreFault>;

    /// Closes a store: its log is copied into its file, as far as that can be done, and what the file is then is noted.
    /// One whose files are gone is given up as it is.
    fn close(&self, stable: Self::Open);

    /// Gives a store up as it is: nothing is written.
    fn give_up(&self, stable: Self::Open);
}

impl Stores for HostRuntime {
    type Open = Watched<SqliteStable<FileStore<File>>, StoreFiles<HostRuntime>>;

    fn list<W: Write>(&self, path: &[u8], writer: &mut W) -> Listed {
        list(self, path, writer)
    }

    fn open(
        &self,
        path: &[u8],
        tree: &TreeMark,
        station: u16,
    ) -> Result<
        OpenStore<Watched<SqliteStable<FileStore<File>>, StoreFiles<HostRuntime>>>,
        StoreFault,
    > {
        match str::from_utf8(path) {
            Ok(path) => watched(smi_stable::open(self, path), self, path, tree, station),
            Err(_) => Err(StoreFault::Device),
        }
    }

    fn health(&self, path: &[u8]) -> Result<StoreHealth, StoreFault> {
        health_as_found(health_of(self, path))
    }

    fn close(&self, stable: Watched<SqliteStable<FileStore<File>>, StoreFiles<HostRuntime>>) {
        let mut stable = stable;
        if stable.may_copy_log() {
            let (stable, mut files) = stable.into_parts();
            closed(stable);
            files.note_copy();
        } else {
            given_up(stable.into_inner());
        }
    }

    fn give_up(&self, stable: Watched<SqliteStable<FileStore<File>>, StoreFiles<HostRuntime>>) {
        given_up(stable.into_inner());
    }
}

/// Returns the fault of a store that could not be looked at.
fn fault_of(error: &io::Error) -> StoreFault
    ensures memory { error_kind error.now ≡ ErrorKind.OutOfMemory → result ≡ StoreFault.Memory }
    ensures device { error_kind error.now ≢ ErrorKind.OutOfMemory → result ≡ StoreFault.Device }
{
    match error.kind() {
        ErrorKind::OutOfMemory => StoreFault::Memory,
        _ => StoreFault::Device,
    }
}

/// Returns what is told of the files of a store: those that could not be read count as sound.
fn health_as_found(found: io::Result<StoreHealth>) -> Result<StoreHealth, StoreFault>
    ensures found { IfOk found (λ health. result ≡ Ok health) }
    ensures memory { IfErr found (λ e. error_kind e ≡ ErrorKind.OutOfMemory → result ≡ Err StoreFault.Memory) }
    ensures unread { IfErr found (λ e. error_kind e ≢ ErrorKind.OutOfMemory → result ≡ Ok StoreHealth.Sound) }
{
    match found {
        Ok(health) => Ok(health),
        Err(e) => match fault_of(&e) {
            StoreFault::Memory => Err(StoreFault::Memory),
            StoreFault::Device | StoreFault::Unsure => Ok(StoreHealth::Sound),
        },
    }
}

/// Returns the files of a store that is open, by its path.
fn files_at(host: &HostRuntime, path: &str, tree: TreeMark) -> io::Result<StoreFiles<HostRuntime>>
    ensures { IfOk result (λ files. files.tree ≡ tree) }
{
    let log = beside(host.alloc(), path.as_bytes(), LOG)?;
    let log = String::from_utf8_lossy(host.alloc(), log.as_slice())?;
    let path = String::from_str(host.alloc(), path)?;
    StoreFiles::of(host.clone()?, path, log, tree)
}

/// Returns the files of a store that is open, and what is at the place of its label.
fn surroundings_of(
    host: &HostRuntime,
    path: &str,
    tree: &TreeMark,
) -> io::Result<(StoreFiles<HostRuntime>, LabelFound)>
    ensures { IfOk result (λ found. found.0.tree ≡ tree_by found.1 tree.now) }
{
    let label = label_beside(host, path.as_bytes())?;
    let files = files_at(host, path, label.tree(tree))?;
    Ok((files, label))
}

/// Returns a store with its files, or what it means that it could not be opened, or that they could not be looked at.
fn watched<S: Alter + Drop>(
    opened: Result<Connection<S>, Error>,
    host: &HostRuntime,
    path: &str,
    tree: &TreeMark,
    station: u16,
) -> Result<OpenStore<Watched<SqliteStable<S>, StoreFiles<HostRuntime>>>, StoreFault>
where
    Connection<S>: ConnectionEnd,
    ensures kinship { IfOk result (λ store. store.kinship ≡ kinship_by store.label tree.now) }
    ensures noted { IfOk result (λ store. store.noted ≡ noted_by store.label station) }
    ensures tree { IfOk result (λ store. store.stable.surroundings.tree ≡ tree_by store.label tree.now) }
{
    match opened {
        Ok(connection) => {
            let found = surroundings_of(host, path, tree);
            beside_its_files(adopted(connection)?, found, tree, station)
        }
        Err(Error::SqliteFailure(ErrorCode::OutOfMemory)) => Err(StoreFault::Memory),
        Err(_) => Err(StoreFault::Device),
    }
}

/// Returns a store with its files and what its label says, or what it means that these could not be looked at: then it
/// is given up as it is.
fn beside_its_files<S: Alter + Drop, P>(
    stable: SqliteStable<S>,
    found: io::Result<(P, LabelFound)>,
    tree: &TreeMark,
    station: u16,
) -> Result<OpenStore<Watched<SqliteStable<S>, P>>, StoreFault>
where
    Connection<S>: ConnectionEnd,
    ensures kinship { IfOk result (λ store. store.kinship ≡ kinship_by store.label tree.now) }
    ensures noted { IfOk result (λ store. store.noted ≡ noted_by store.label station) }
    ensures found { IfOk result (λ store. found ≡ Ok (store.stable.surroundings, store.label)) }
{
    match found {
        Ok((files, label)) => Ok(OpenStore {
            stable: Watched::new(stable, files),
            label,
            kinship: label.kinship(tree),
            noted: label.noted(station),
        }),
        Err(e) => {
            given_up(stable);
            Err(fault_of(&e))
        }
    }
}

/// How a connection ends.
trait ConnectionEnd {
    /// Closes it, as far as that can be done: copies its log into its file.
    fn end(self);

    /// Closes its files as they are.
    fn abandon(self);
}

impl ConnectionEnd for Connection<FileStore<File>> {
    fn end(self) {
        let _ = self.close();
    }

    fn abandon(self) {
        drop(self.into_store().close());
    }
}

// All three over any store, since each function that names the store of SQLite is expensive to prove.

/// Takes a connection for a store. If it is none, its files are closed as they are: they may be another program's.
fn adopted<S: Alter>(connection: Connection<S>) -> Result<SqliteStable<S>, StoreFault>
where
    Connection<S>: ConnectionEnd,
{
    match SqliteStable::adopt(connection) {
        Ok(stable) => Ok(stable),
        Err((fault, connection)) => {
            connection.abandon();
            Err(fault)
        }
    }
}

/// Closes a store, and copies its log into its file.
fn closed<S: Alter + Drop>(stable: SqliteStable<S>)
where
    Connection<S>: ConnectionEnd,
{
    // What is left of a store that is shut is closed as it is.
    if let Ok(connection) = stable.release() {
        connection.end();
    }
}

/// Closes the files of a store as they are.
fn given_up<S: Alter + Drop>(stable: SqliteStable<S>)
where
    Connection<S>: ConnectionEnd,
{
    if let Ok(connection) = stable.release() {
        connection.abandon();
    }
}
