//! What keeps a station's stable rows when the station stops: [`SqliteStable`], a store over SQL, and its file.
//!
//! Its rows lie in one table, and each save is one statement. It is a [`Stable`] store, as those of `smi_rows` are,
//! which has the rows and what is said of stores; both can be named here too.
//!
//! SQLite writes whole pages, and a stable row has few bytes: with pages of 512 bytes a save writes about a sixth of
//! what it writes with those of 4,096. So [`begin`] makes a file with short pages before [`open`] opens it. A file
//! that is there keeps the pages that it has.
//!
//! # How it is proved
//!
//! The proofs of the store are about SQL. Under `proofs/`:
//!
//! - `SqlTexts`: the texts mean their commands.
//! - `SqlSaves`, `SqlReplaced`: the statement adds the row, or changes the one row that has the key; each other key
//!   keeps its bytes.
//! - `SqlKeeps`: what a fault leaves, and what a stop leaves.
//! - `SqlLoads`, `SqlUnique`: the answer of the query has each key once.
//! - `SqlKeys`: keys as SQL compares them.
//! - `SqlGiven`: what the connection holds that a refused `adopt` gives back (docs/DECISIONS.md says what is proved
//!   of one).
//! - `SqlCauses`: an open connection fails when out of memory or with its disk.
//! - `SqlAdopts`: what is known of a connection that was taken over.
//! - `SqlCopies`: what a copy of the log leaves of a connection.
//! - `SqlMakes`: what the statement that makes the table does.
//! - `SqlRefuses`: a database without a table does not refuse the table.
//!
//! What is said of any store, and of rows, is proved in `smi_rows`. Trusted: the toolchain and the contracts of
//! `sqlite`.
#![tactic(auto)]

mod adopting;
mod beginning;
mod listing;
mod log_copy;
mod logged;
mod opening;
mod over_sqlite;
mod schema_shape;
mod shown;
mod sqlite_stable;
mod statement;

pub use beginning::{PAGE_BYTES, begin};
pub use log_copy::LoggedTrees;
pub use logged::LoggedStable;
pub use opening::open;
pub use smi_rows::{
    DomainRow, Key, MemoryStable, Mode, OperatorRow, Plan, Planned, PlannedStable, Row, RowFault,
    RowFlaw, RowKind, SavedRow, Schema, Stable, StoreFault, StoredLink, Tally, law, write_boot,
};
pub use sqlite_stable::SqliteStable;
