//! What a store over SQL does.

ghost use Rattle.std.specs.Prelude.{◌≡◌, IsTrue, IfOk, false};
ghost use Rattle.std.proofs.Common.{◌∙◌, ap};
ghost use Rattle.sqlite.specs.State.{HasCleanDisk};
ghost use Rattle.sqlite.specs.Held.{state};
ghost use Rattle.sqlite.specs.Tree.{Trees};
ghost use Rattle.sqlite.specs.Effect.{Database};
ghost use Rattle.smi_stable.specs.SqlReady.{IsReady, IsInUse, rows_in, rows_of};
ghost use Rattle.smi_stable.specs.SqlRows.{IsKeyed};
ghost use Rattle.smi_rows.specs.Store.{IsSame, IsListing, IfSure};
ghost use Rattle.smi_stable.specs.SqlShown.{ShowsAll};

use crate::listing::list_rows;
use crate::shown::saved_rows;
use crate::sqlite_stable::{Base, SqliteStable};
use crate::statement::{fault_of, save_surely, test_open};
use smi_rows::{Key, SavedRow, Stable, StoreFault, is_rising};
use sqlite::{Alter, Connection};

/// The saved rows in an answer of the database.
fn listed(rows: &Vec<sqlite::Row>) -> Result<Vec<SavedRow>, StoreFault>
    ensures { IfOk result (λ list. ShowsAll rows.now.items list.items) }
{
    let list = saved_rows(rows)?;
    if !is_rising(&list) {
        return Err(StoreFault::Unsure);
    }
    Ok(list)
}

/// All rows, or a fault; a connection that is open is as before.
fn load_rows<S: Alter>(conn: &mut Connection<S>) -> Result<Vec<SavedRow>, StoreFault>
    ensures ready { IsReady (state S.Store conn.old) → IsReady (state S.Store conn.new) }
    ensures loaded { IsReady (state S.Store conn.old) → HasCleanDisk (state S.Store conn.new)
        → IsTrue (state S.Store conn.old).is_open → IfOk
        result (λ list. IsListing (rows_of (state S.Store conn.old)) list.items) }
    ensures was_open { HasCleanDisk (state S.Store conn.new)
        → IfOk result (λ _. IsTrue (state S.Store conn.old).is_open) }
    ensures open { IsReady (state S.Store conn.old) → HasCleanDisk (state S.Store conn.new)
        → IsTrue (state S.Store conn.old).is_open → IfSure result (IsTrue (state S.Store conn.new).is_open) }
    ensures still { IsReady (state S.Store conn.old) → HasCleanDisk (state S.Store conn.new)
        → IsTrue (state S.Store conn.old).is_open → IsTrue (state S.Store conn.new).is_open
        → (state S.Store conn.new).now ≡ (state S.Store conn.old).now }
    ensures clean { HasCleanDisk (state S.Store conn.new) → HasCleanDisk (state S.Store conn.old) }
    ensures crash { IsReady (state S.Store conn.old) → HasCleanDisk (state S.Store conn.new)
        → IsTrue (state S.Store conn.old).is_open → (db : _) → (state S.Store conn.new).may_leave db
        → (state S.Store conn.old).may_leave db }
{
    match list_rows(conn) {
        Ok(rows) => listed(&rows),
        Err(error) => {
            if fault_of(error) == StoreFault::Memory && test_open(conn).is_ok() {
                Err(StoreFault::Memory)
            } else {
                Err(StoreFault::Unsure)
            }
        }
    }
}

impl<S: Alter> Stable for SqliteStable<S> {
    ghost rows = { λ s. rows_of (state S.Store s.held) };

    ghost may_find = { λ s r. (db : Trees) × (state S.Store s.held).may_leave db × IsSame r (rows_in db) };

    ghost is_honest = { λ s. HasCleanDisk (state S.Store s.held) × IsKeyed ((state S.Store s.begun).now.trees 0) };

    ghost is_open = { λ s. IsInUse (state S.Store s.held) × (s.is_shut ≡ false) };

    ghost failures = { λ s. s.failures };

    // Each failure leaves a doubt.
    ghost doubts = { λ s. s.failures };

    ghost saves = { λ s. s.saves };

    ghost rests = { λ s honest live r may k. may.2 k
        ∙ ap (λ (t : Trees). rows_in t k) (S.Store.settled s.held.store may.0 live.0.0 may.1
        ∙ ap (λ (d : Database). d.trees) live.0.1) };

    fn save(&mut self, key: Key, bytes: &[u8]) -> Result<(), StoreFault> {
        self.saves.raise();
        let Base::Open(conn) = &mut self.base else {
            self.failures.raise();
            return Err(StoreFault::Unsure);
        };
        match save_surely(conn, key, bytes) {
            Ok(()) => Ok(()),
            Err(StoreFault::Memory) => Err(StoreFault::Memory),
            Err(_) => {
                self.failures.raise();
                Err(StoreFault::Unsure)
            }
        }
    }

    fn load(&mut self) -> Result<Vec<SavedRow>, StoreFault> {
        let Base::Open(conn) = &mut self.base else {
            self.failures.raise();
            return Err(StoreFault::Unsure);
        };
        match load_rows(conn) {
            Ok(list) => Ok(list),
            Err(StoreFault::Memory) => Err(StoreFault::Memory),
            Err(_) => {
                self.failures.raise();
                Err(StoreFault::Unsure)
            }
        }
    }
}
