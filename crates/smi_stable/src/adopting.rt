//! A connection is taken over, and given back.

ghost use Rattle.std.specs.Prelude.{◌≡◌, ◌≢◌, ◌≤◌, Err, IfOk, IfErr, IsTrue, false};
ghost use Rattle.sqlite.specs.State.{HasCleanDisk};
ghost use Rattle.sqlite.specs.Held.{state};
ghost use Rattle.smi_stable.specs.SqlFault.{CanBeTaken, HasReason};
ghost use Rattle.smi_stable.specs.SqlGivenBack.{IsGivenBack, MayBeMade};
ghost use Rattle.smi_stable.specs.SqlReady.{IsReady, IsAdopted};
ghost use Rattle.smi_stable.specs.SqlRows.{IsKeyed};
ghost use Rattle.smi_stable.specs.SqlTable.{stable_schema, no_schema};

use crate::schema_shape::{is_empty, is_stable};
use crate::sqlite_stable::{Base, SqliteStable};
use crate::statement::{fault_of, make_table, test_open};
use core::snapshot::Snapshot;
use smi_base::Tally;
use smi_rows::StoreFault;
use sqlite::{Alter, Connection};

/// Makes the table of stable rows if there is none.
fn with_table<S: Alter>(conn: Connection<S>) -> Result<Connection<S>, (StoreFault, Connection<S>)>
    ensures adopted { IfOk result (λ c. HasCleanDisk (state S.Store c)
        → IsAdopted (state S.Store conn) (state S.Store c)) }
    ensures outside { IfOk result (λ c. (conn.in_transaction ≡ false)
        × (HasCleanDisk (state S.Store c) → IsGivenBack (state S.Store conn) (state S.Store c))) }
    ensures in_transaction { IsTrue conn.in_transaction → result ≡ Err (StoreFault.Unsure, conn) }
    ensures other_tables { conn.schema ≢ stable_schema → conn.schema ≢ no_schema
        → result ≡ Err (StoreFault.Unsure, conn) }
    ensures given_back { IfErr result (λ e. HasCleanDisk (state S.Store e.1)
        → IsGivenBack (state S.Store conn) (state S.Store e.1)) }
    ensures live { IfOk result (λ c. HasCleanDisk (state S.Store c) → IsTrue (state S.Store conn).is_open
        → IsTrue (state S.Store c).is_open × ((state S.Store conn).faults ≤ (state S.Store c).faults)) }
    ensures reason { IfErr result (λ e. HasCleanDisk (state S.Store e.1) → IsTrue (state S.Store conn).is_open
        → CanBeTaken (state S.Store conn) → HasReason (state S.Store conn) (state S.Store e.1) e.0) }
    ensures no_device { IfErr result (λ e. e.0 ≢ StoreFault.Device) }
{
    let mut conn = conn;
    if !conn.is_autocommit() {
        return Err((StoreFault::Unsure, conn));
    }
    if is_stable(conn.schema()) {
        return Ok(conn);
    }
    if !is_empty(conn.schema()) {
        return Err((StoreFault::Unsure, conn));
    }
    match make_table(&mut conn) {
        Ok(_) => Ok(conn),
        Err(error) => Err((fault_of(error), conn)),
    }
}

impl<S: Alter> SqliteStable<S> {
    ghost use Rattle.std.specs.Prelude.{◌≡◌, ◌≢◌, false, Ok, Err, IfOk, IfErr, IsTrue, if◌then◌else◌};
    ghost use Rattle.sqlite.specs.State.{HasCleanDisk};
    ghost use Rattle.sqlite.specs.Held.{state};
    ghost use Rattle.smi_stable.specs.SqlFault.{CanBeTaken, HasReason};
    ghost use Rattle.smi_stable.specs.SqlGivenBack.{IsGivenBack};
    ghost use Rattle.smi_stable.specs.SqlReady.{IsAdopted, IsInUse};
    ghost use Rattle.smi_stable.specs.SqlTable.{stable_schema, no_schema};

    /// Takes over a connection, and makes the table if there is none.
    ///
    /// A refusal gives the connection back: `Memory` where the database had no memory for it, and
    /// `Unsure` for all else, as a file with other tables, or a connection in a transaction. It holds
    /// what it held, as long as it is open; but where there was no table, it may have been made.
    pub fn adopt(connection: Connection<S>) -> Result<SqliteStable<S>, (StoreFault, Connection<S>)>
        ensures adopted { IfOk result (λ s. HasCleanDisk (state S.Store s.held)
            → IsAdopted (state S.Store connection) (state S.Store s.held)) }
        ensures open { IfOk result (λ s. HasCleanDisk (state S.Store s.held) → IsInUse (state S.Store s.held)) }
        ensures begun { IfOk result (λ s. (s.begun ≡ s.held) × (s.is_shut ≡ false)
            × (s.saves ≡ 0) × (s.failures ≡ 0)) }
        ensures in_transaction { IsTrue connection.in_transaction → result ≡ Err (StoreFault.Unsure, connection) }
        ensures other_tables { connection.schema ≢ stable_schema → connection.schema ≢ no_schema
            → result ≡ Err (StoreFault.Unsure, connection) }
        ensures given_back { IfErr result (λ e. HasCleanDisk (state S.Store e.1)
            → IsGivenBack (state S.Store connection) (state S.Store e.1)) }
        ensures reason { IfErr result (λ e. HasCleanDisk (state S.Store e.1)
            → IsTrue (state S.Store connection).is_open → CanBeTaken (state S.Store connection)
            → HasReason (state S.Store connection) (state S.Store e.1) e.0) }
        ensures no_device { IfErr result (λ e. e.0 ≢ StoreFault.Device) }
    {
        let mut conn = with_table(connection)?;
        match test_open(&mut conn) {
            Ok(()) => {}
            Err(fault) => return Err((fault, conn)),
        }
        let begun = Snapshot::of(&conn);
        Ok(SqliteStable {
            base: Base::Open(conn),
            begun,
            saves: Tally::zero(),
            failures: Tally::zero(),
        })
    }

    /// Gives the connection up, or what a store is shut over. It takes no memory.
    pub fn release(self) -> Result<Connection<S>, S>
        ensures { result ≡ if self.is_shut then Err self.held.store else Ok self.held }
    {
        let SqliteStable {
            base,
            begun: _,
            saves: _,
            failures: _,
        } = self;
        match base {
            Base::Open(conn) => Ok(conn),
            Base::Shut(left, _) => Err(left),
        }
    }
}
