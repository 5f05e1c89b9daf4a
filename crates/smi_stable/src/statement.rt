//! The statements of a store over SQL, each alone in a call.

ghost use Rattle.std.specs.Prelude.{◌≡◌, ◌≢◌, ◌⊎◌, [], OnOk, OnErr, IfOk, IfErr, IsTrue, pos};
ghost use Rattle.sqlite.specs.State.{HasCleanDisk, Executes, Survives, CommitsBy, IsUnchanged, IsRolledBack, IsLive};
ghost use Rattle.sqlite.specs.Held.{state};
ghost use Rattle.smi_rows.specs.Store.{IsSame, with_row, IfNotSaved, IfUnsure};
ghost use Rattle.smi_stable.specs.SqlReady.{IsReady, rows_of, LeavesEither, key_values};
ghost use Rattle.smi_stable.specs.SqlFault.{fault_of, HasReason};
ghost use Rattle.smi_stable.specs.SqlTable.{upsert_text, create_text, stable_schema};

use smi_rows::{Key, StoreFault};
use sqlite::{Alter, Connection, Error, ErrorCode, params};

// A row that is there is changed where it stands: one page is written, where taking it out and putting it in again
// would write a page of the table's index and mostly a second one of the table with it.
const SAVE: &str =
    "INSERT INTO stable_rows (station, domain, operator, bytes) VALUES (?1, ?2, ?3, ?4) ON CONFLICT (station, domain, operator) DO UPDATE SET bytes = excluded.bytes";

const MAKE: &str =
    "CREATE TABLE stable_rows (station INTEGER NOT NULL, domain INTEGER NOT NULL, operator INTEGER NOT NULL, bytes BLOB NOT NULL, PRIMARY KEY (station, domain, operator)) STRICT";

/// What an error of the database means to the store.
pub(crate) fn fault_of(error: Error) -> StoreFault
    ensures value { result ≡ fault_of error }
    ensures no_device { result ≢ StoreFault.Device }
{
    match error {
        Error::SqliteFailure(ErrorCode::OutOfMemory) => StoreFault::Memory,
        _ => StoreFault::Unsure,
    }
}

fn put<S: Alter>(conn: &mut Connection<S>, key: Key, bytes: &[u8]) -> Result<usize, Error>
    ensures runs { HasCleanDisk (state S.Store conn.new)
        → Executes upsert_text (key_values key bytes.now) (state S.Store conn.old) (state S.Store conn.new) result }
    ensures survives { Survives (state S.Store conn.old) (state S.Store conn.new)
        (CommitsBy upsert_text (key_values key bytes.now) (state S.Store conn.old)) }
    ensures live { IsLive (state S.Store conn.old) }
{
    // for the prover: the rows obey the schema, so each key is there once, and is three numbers
    let _schema = conn.schema();
    conn.execute(
        SAVE,
        params![
            u32::from(key.station),
            u32::from(key.domain),
            u32::from(key.operator),
            bytes
        ],
    )
}

/// The row is saved, or the rows of a connection that is open are as before.
pub(crate) fn save_row<S: Alter>(
    conn: &mut Connection<S>,
    key: Key,
    bytes: &[u8],
) -> Result<(), StoreFault>
    ensures ready { IsReady (state S.Store conn.old) → IsReady (state S.Store conn.new) }
    ensures saved { IsReady (state S.Store conn.old) → HasCleanDisk (state S.Store conn.new)
        → OnOk result (IsTrue (state S.Store conn.new).is_open
        × IsSame (rows_of (state S.Store conn.new)) (with_row key bytes.now (rows_of (state S.Store conn.old)))) }
    ensures still { IsReady (state S.Store conn.old) → HasCleanDisk (state S.Store conn.new)
        → IsTrue (state S.Store conn.new).is_open → OnErr
        result (IsSame (rows_of (state S.Store conn.new)) (rows_of (state S.Store conn.old))) }
    ensures crash { IsReady (state S.Store conn.old) → HasCleanDisk (state S.Store conn.new)
        → IsTrue (state S.Store conn.old).is_open → LeavesEither (state S.Store conn.old) (state S.Store conn.new)
        key bytes.now }
    ensures clean { HasCleanDisk (state S.Store conn.new) → HasCleanDisk (state S.Store conn.old) }
{
    match put(conn, key, bytes) {
        Ok(_) => Ok(()),
        Err(error) => Err(fault_of(error)),
    }
}

/// The table is made.
pub(crate) fn make_table<S: Alter>(conn: &mut Connection<S>) -> Result<usize, Error>
    ensures runs { HasCleanDisk (state S.Store conn.new)
        → Executes create_text [] (state S.Store conn.old) (state S.Store conn.new) result }
    ensures survives { Survives (state S.Store conn.old) (state S.Store conn.new)
        (CommitsBy create_text [] (state S.Store conn.old)) }
{
    conn.execute(MAKE, &[])
}

/// `Ok` where no failure has shut the connection. Nothing is run.
pub(crate) fn test_open<S: Alter>(conn: &mut Connection<S>) -> Result<(), StoreFault>
    ensures ready { IsReady (state S.Store conn.old) → IsReady (state S.Store conn.new) }
    ensures clean { HasCleanDisk (state S.Store conn.new) → HasCleanDisk (state S.Store conn.old) }
    ensures still { IsReady (state S.Store conn.old) → HasCleanDisk (state S.Store conn.new)
        → IsTrue (state S.Store conn.new).is_open → IsTrue (state S.Store conn.old).is_open
        × ((state S.Store conn.new).now ≡ (state S.Store conn.old).now) }
    ensures unchanged { HasCleanDisk (state S.Store conn.new)
        → OnOk result (IsUnchanged (state S.Store conn.old) (state S.Store conn.new)) }
    ensures undone { HasCleanDisk (state S.Store conn.new)
        → OnErr result (IsUnchanged (state S.Store conn.old) (state S.Store conn.new)
        ⊎ IsRolledBack (state S.Store conn.old) (state S.Store conn.new)) }
    ensures crash { HasCleanDisk (state S.Store conn.new) → (db : _) → (state S.Store conn.new).may_leave db
        → (state S.Store conn.old).may_leave db }
    ensures reason { HasCleanDisk (state S.Store conn.new) → IsTrue (state S.Store conn.old).is_open
        → conn.old.schema ≡ stable_schema → IfErr result (HasReason (state S.Store conn.old) (state S.Store conn.new)) }
    ensures no_device { IfErr result (λ fault. fault ≢ StoreFault.Device) }
{
    if let Err(error) = conn.prepare(SAVE) {
        return Err(fault_of(error));
    }
    Ok(())
}

/// The row is saved; or the rows are as before, and the connection is still open; or it is unsure.
pub(crate) fn save_surely<S: Alter>(
    conn: &mut Connection<S>,
    key: Key,
    bytes: &[u8],
) -> Result<(), StoreFault>
    ensures ready { IsReady (state S.Store conn.old) → IsReady (state S.Store conn.new) }
    ensures saved { IsReady (state S.Store conn.old) → HasCleanDisk (state S.Store conn.new)
        → OnOk result (IsTrue (state S.Store conn.new).is_open
        × IsSame (rows_of (state S.Store conn.new)) (with_row key bytes.now (rows_of (state S.Store conn.old)))) }
    ensures kept { IsReady (state S.Store conn.old) → HasCleanDisk (state S.Store conn.new)
        → IfNotSaved result (IsTrue (state S.Store conn.new).is_open
        × IsSame (rows_of (state S.Store conn.new)) (rows_of (state S.Store conn.old))) }
    ensures unsure { IsReady (state S.Store conn.old) → HasCleanDisk (state S.Store conn.new)
        → IsTrue (state S.Store conn.new).is_open → IfUnsure result
        (IsSame (rows_of (state S.Store conn.new)) (rows_of (state S.Store conn.old))) }
    ensures crash { IsReady (state S.Store conn.old) → HasCleanDisk (state S.Store conn.new)
        → IsTrue (state S.Store conn.old).is_open → LeavesEither (state S.Store conn.old) (state S.Store conn.new)
        key bytes.now }
    ensures clean { HasCleanDisk (state S.Store conn.new) → HasCleanDisk (state S.Store conn.old) }
{
    match save_row(conn, key, bytes) {
        Ok(()) => Ok(()),
        Err(StoreFault::Memory) => {
            if test_open(conn).is_ok() {
                Err(StoreFault::Memory)
            } else {
                Err(StoreFault::Unsure)
            }
        }
        Err(_) => Err(StoreFault::Unsure),
    }
}
