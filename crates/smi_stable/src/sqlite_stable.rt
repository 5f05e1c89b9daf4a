use core::snapshot::Snapshot;
use smi_base::Tally;
use sqlite::{Alter, Connection};
use std::marker::Model;

/// A store over SQL: the rows of one table of a file, or of a database in memory.
///
/// The table is `stable_rows` of docs/FORMATS.md, "Stable rows". What is said of the rows is said
/// while nobody else writes the file and the disk returns what was written.
///
/// It is shut once its log was copied and its file could then not be opened again: it saves and lists nothing from then
/// on, and its files stay locked.
pub struct SqliteStable<S: Alter> {
    pub(crate) base: Base<S>,
    pub(crate) begun: Snapshot<Connection<S>>,
    pub(crate) saves: Tally,
    pub(crate) failures: Tally,
}

/// What a store over SQL saves through.
pub(crate) enum Base<S: Alter> {
    Open(Connection<S>),
    /// The database of a connection that is shut, and the connection as it was.
    Shut(S, Snapshot<Connection<S>>),
}

impl<S: Alter> Model for SqliteStable<S> {
    ghost use Rattle.smi_stable.specs.SqlKept.{Kept, kept_code};

    ghost Value = { Kept S };

    ghost coded = { kept_code S.code };

    ghost use Rattle.sqlite.specs.Held.{state};
    ghost use Rattle.smi_stable.specs.SqlBase.{IsReadyBase, held_in, is_shut_in};
    ghost use Rattle.smi_stable.specs.SqlRows.{IsKeyed};

    ghost view = { λ s. record {
      held = held_in s.base;
      is_shut = is_shut_in s.base;
      begun = s.begun.value;
      saves = s.saves.count;
      failures = s.failures.count;
    } };

    ghost invariant = { λ s. IsKeyed ((state S.Store s.begun.value).now.trees 0) → IsReadyBase S.Store s.base };
}
