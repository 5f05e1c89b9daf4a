//! A store over SQL copies its log into its file.
//!
//! The database has to be taken out of its connection for that, and a new connection is made over it then.

ghost use Rattle.std.specs.Prelude.{◌≡◌, Err, false, IsTrue, IfOk, IfErr, true};
ghost use Rattle.sqlite.specs.State.{HasCleanDisk};
ghost use Rattle.sqlite.specs.Held.{state};
ghost use Rattle.sqlite.specs.Tree.{Trees};
ghost use Rattle.sqlite.specs.Steps.{IsFresh};
ghost use Rattle.sqlite_trees.specs.View.{IsClean, IsQuiet};
ghost use Rattle.smi_rows.specs.declared.stable.StoreFault.TheVariants.{Unsure};
ghost use Rattle.smi_rows.specs.Store.{IsSame};
ghost use Rattle.smi_stable.specs.SqlReady.{IsReady, IsReopened, rows_in, rows_of};
ghost use Rattle.smi_stable.specs.SqlBase.{IsReadyBase, held_in, is_shut_in};

use crate::logged::LoggedStable;
use crate::schema_shape::is_stable;
use crate::sqlite_stable::{Base, SqliteStable};
use core::mem::replace_with;
use core::snapshot::Snapshot;
use smi_rows::StoreFault;
use sqlite::{Alter, Connection, FileStore};
use sqlite_disk::Disk;
use sqlite_trees::error::StoreError;
use std::alloc::Global;

/// A database that is saved into a log beside its file.
pub trait LoggedTrees: Alter {
    /// Copies the log into the file. A failure that leaves the database open changes nothing.
    fn copy_log(&mut self) -> Result<(), StoreError>
        ensures same { IsTrue (Self.Store.view self.new).is_open → Self.Store.view self.new ≡ Self.Store.view self.old }
        ensures quiet { IsQuiet Self.Store.view Self.Store.faults Self.Store.recovers Self.Store.is_shielded self.old
            self.new };
}

impl<D: Disk + Drop> LoggedTrees for FileStore<D> {
    fn copy_log(&mut self) -> Result<(), StoreError> {
        self.checkpoint()
    }
}

/// Takes the database out of a connection, and copies its log into its file, as far as that can be done.
fn with_log_copied<S: LoggedTrees + Drop>(conn: Connection<S>) -> S
    ensures fresh { IsClean (S.Store.view result) → (S.Store.view result).is_broken ≡ false
        → IsFresh (S.Store.view result) }
    ensures open { IsClean (S.Store.view result) → (S.Store.view result).is_broken ≡ false
        → IsTrue (state S.Store conn).is_open }
    ensures trees { IsClean (S.Store.view result) → (S.Store.view result).is_broken ≡ false
        → (S.Store.view result).trees ≡ (state S.Store conn).committed.trees }
    ensures clean { IsClean (S.Store.view result) → HasCleanDisk (state S.Store conn) }
    ensures crash { (db : Trees) → S.Store.recovers result db → (state S.Store conn).may_leave db }
{
    let mut store = conn.into_store();
    // What was not copied is still in the log.
    let _ = store.copy_log();
    store
}

/// Makes a new connection over a database whose log was copied, or gives back what is left of it.
fn reopened<S: LoggedTrees + Drop>(alloc: Global, conn: Connection<S>) -> Result<Connection<S>, S>
    ensures reopened { IfOk result (λ c. HasCleanDisk (state S.Store c) → IsReady (state S.Store conn)
        → IsReopened (state S.Store conn) (state S.Store c)) }
    ensures clean { IfOk result (λ c. HasCleanDisk (state S.Store c) → HasCleanDisk (state S.Store conn)) }
    ensures left { IfErr result (λ left. IsClean (S.Store.view left) → HasCleanDisk (state S.Store conn)) }
    ensures crash { IfErr result (λ left. IsClean (S.Store.view left) → (db : Trees) → S.Store.recovers left db
        → (state S.Store conn).may_leave db) }
{
    let store = with_log_copied(conn);
    if store.is_broken() {
        return Err(store);
    }
    match Connection::over(alloc, store) {
        Ok(conn) if is_stable(conn.schema()) => Ok(conn),
        Ok(conn) => Err(conn.into_store()),
        Err((_, store)) => Err(store),
    }
}

/// Copies the log, and tells whether the store could be opened again.
fn copied<S: LoggedTrees + Drop>(base: Base<S>, alloc: Global) -> (Base<S>, Result<(), StoreFault>)
    ensures ready { IsReadyBase S.Store base → IsReadyBase S.Store result.0 }
    ensures clean { HasCleanDisk (state S.Store (held_in result.0)) → HasCleanDisk (state S.Store (held_in base)) }
    ensures open { IfOk result.1 (λ _. is_shut_in result.0 ≡ false) }
    ensures shut { IfErr result.1 (λ fault. (fault ≡ Unsure) × (is_shut_in result.0 ≡ true)) }
    ensures same { IsReadyBase S.Store base → HasCleanDisk (state S.Store (held_in result.0))
        → is_shut_in result.0 ≡ false → IsReopened (state S.Store (held_in base)) (state S.Store (held_in result.0)) }
    ensures crash { IsReadyBase S.Store base → is_shut_in base ≡ false
        → HasCleanDisk (state S.Store (held_in result.0)) → IsTrue (state S.Store (held_in base)).is_open → (db : Trees)
        → (state S.Store (held_in result.0)).may_leave db
        → IsSame (rows_in db) (rows_of (state S.Store (held_in base))) }
{
    match base {
        Base::Open(conn) => {
            let last = Snapshot::of(&conn);
            match reopened(alloc, conn) {
                Ok(conn) => (Base::Open(conn), Ok(())),
                Err(left) => (Base::Shut(left, last), Err(StoreFault::Unsure)),
            }
        }
        Base::Shut(left, last) => (Base::Shut(left, last), Err(StoreFault::Unsure)),
    }
}

impl<S: LoggedTrees + Drop> LoggedStable for SqliteStable<S> {
    fn copy_log(&mut self, alloc: Global) -> Result<(), StoreFault> {
        match replace_with(&mut self.base, alloc, copied) {
            Ok(()) => Ok(()),
            Err(_) => {
                self.failures.raise();
                Err(StoreFault::Unsure)
            }
        }
    }
}
