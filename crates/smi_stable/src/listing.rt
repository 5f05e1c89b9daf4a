//! All rows of the table, in one statement.

ghost use Rattle.std.specs.Prelude.{◌≡◌, IsTrue, IfOk, OnOk, pos};
ghost use Rattle.sqlite.specs.State.{HasCleanDisk, IsUnchanged, IsRolledBack};
ghost use Rattle.sqlite.specs.Held.{state};
ghost use Rattle.std.specs.Prelude.{◌⊎◌};
ghost use Rattle.smi_rows.specs.declared.key.Key.{Key};
ghost use Rattle.smi_stable.specs.SqlListing.{listed_at};
ghost use Rattle.smi_stable.specs.SqlReady.{IsReady, rows_of};

use sqlite::{Alter, Connection, Error, Row};

const LIST: &str =
    "SELECT station, domain, operator, bytes FROM stable_rows ORDER BY station, domain, operator";

/// The rows, by rising key.
pub(crate) fn list_rows<S: Alter>(conn: &mut Connection<S>) -> Result<Vec<Row>, Error>
    ensures ready { IsReady (state S.Store conn.old) → IsReady (state S.Store conn.new) }
    ensures values { IsReady (state S.Store conn.old) → HasCleanDisk (state S.Store conn.new)
        → IsTrue (state S.Store conn.old).is_open
        → IfOk result (λ rows. (k : Key) → listed_at (pos k.station) (pos k.domain) (pos k.operator) rows.items
        ≡ rows_of (state S.Store conn.old) k) }
    ensures was_open { HasCleanDisk (state S.Store conn.new)
        → IfOk result (λ _. IsTrue (state S.Store conn.old).is_open) }
    ensures unchanged { IsReady (state S.Store conn.old) → HasCleanDisk (state S.Store conn.new)
        → IsTrue (state S.Store conn.old).is_open → OnOk
        result (IsUnchanged (state S.Store conn.old) (state S.Store conn.new)) }
    ensures clean { HasCleanDisk (state S.Store conn.new) → HasCleanDisk (state S.Store conn.old) }
    ensures crash { IsReady (state S.Store conn.old) → HasCleanDisk (state S.Store conn.new)
        → IsTrue (state S.Store conn.old).is_open → (db : _) → (state S.Store conn.new).may_leave db
        → (state S.Store conn.old).may_leave db }
    ensures still { IsReady (state S.Store conn.old) → HasCleanDisk (state S.Store conn.new)
        → IsTrue (state S.Store conn.old).is_open → IsUnchanged (state S.Store conn.old) (state S.Store conn.new)
        ⊎ IsRolledBack (state S.Store conn.old) (state S.Store conn.new) }
{
    let _schema = conn.schema();
    conn.query_all(LIST, &[])
}
