//! What a station keeps of grants: tables by number, a step's change of them, the row that it saves, and how they come
//! back from the rows.
//!
//! The tables are lists whose entries are counted from 1. An entry that is not there has a default, so a table is read
//! at any number ([`entry_of`]); contracts see it as a function of the number.
//!
//! [`save_and_apply`] writes the row of a [`Change`], saves it, and then makes the change. [`kept_of_rows`] makes the
//! tables from a list of rows, [`loaded_kept`] from a store, and [`save_boot`] saves the raised boot. [`migrate`]
//! saves a station's rows of older schemas again in the newest. [`law`] says that once is enough, and that a station's
//! rows say exactly what it keeps, so that it restarts with just that.
//!
//! # How it is proved
//!
//! ## Tables and changes
//!
//! Contracts see a [`GrantTable`] as the `Grants` of `smi_protocol` that it stands for (`grants_of`). Each reader is
//! that table, each write the table with one entry replaced (`proofs/Tables`).
//!
//! `Change` is what a step will change, and `PlannedView` the grants as it will leave them (`after_of`). Records,
//! codes, modes and links read there are those of the changed grants, and `row` is the row that the definition saves.
//!
//! What a command does to the children is in a list of all children, in their order (`AreSo`, specs/Commanded).
//! Who asks of one, or goes over all, reads it there (`proofs/KnownChildren`). When it is made (`command_children`)
//! the tables are those of the definition over all children (`proofs/Among`, `ChildTables`).
//!
//! `save_and_apply` leaves this:
//!
//! - On `Ok` the grants are changed and the store has the row.
//! - On a fault the tables are as before. The store's rows are the old ones, or after an unsure save the old or the
//!   new.
//! - What an open may find at any moment is the old or the new rows (`crash`).
//! - It answers `Memory` only if there is a row to save. `saves()` rises by at most one.
//! - `Stopped` and `NotStored` come only if the store counted a failure.
//!
//! ## Rows that are taken
//!
//! `kept_of_rows` takes rows by rising key, one after the other (`restored`, `specs/Restoring`). That this results in
//! what all of them mean (`grants_in` of `smi_protocol`) is `row_taken` of `proofs/Taking`: with one row more, the
//! grants that rows mean are those before it with what it says. The first row that is refused is that of the least key
//! (`first_refused`, `proofs/Opening`).
//!
//! `grants_sound` (`proofs/SoundLoading`) says of any rows at all that the grants that they mean are sound
//! (`IsSound`). A row that reads back has links in range and known to the tree, waits for children exactly when it is
//! busy, and has each child once.
//!
//! `loaded_kept` is that over a store, and `save_boot` saves the raised boot. In its clauses are `Opens` of
//! `smi_protocol` and what each fault leaves. A station begins with these grants and its first states
//! (`beginning_with`).
//!
//! ## Rows that are rewritten
//!
//! `migrate` reads all rows, rewrites those of older schemas, and saves them one after the other. The rows are then
//! in their newest schemas (`in_newest`, `specs/Migrating`). At each stop some first part of them is, by rising key,
//! and all say what they said (`IsPartly`). A later schema can say all that an earlier one can (`proofs/Rewritten`).
//! What was saved is found among the rows as it was listed (`proofs/Migrated`).
//!
//! ## Rows that say what is kept
//!
//! `law::rows_say_what_is_kept` and `law::stored_grants_restart` are about the definitions alone. `IsStored`
//! (`specs/Stored`) says that the station's rows are read and that the grants that they mean *are* the given ones.
//! That is one equality of records, whose tables agree at every number and holder, those of other stations too. It
//! holds because nothing outside a saved row ever changes:
//!
//! - `step_changes` (`proofs/Changes`) goes through the definition of a step. The grants before and after it differ
//!   only in what the row that it saves says, and the row is one of the station's.
//! - A row more then means just that (`own_taken`, `proofs/Taking`), since it reads back (`sound_rows_read_back` of
//!   `smi_protocol`).
//! - So the rows mean the grants after the step (`proofs/SavedAgain`).
//! - No soundness is asked for, since whatever rows mean is sound.
//! - `proofs/Restarting` has the beginning, starts, events, rows rewritten, and how a start on such rows ends
//!   (`Restarts`).
#![tactic(auto)]

mod change;
mod commanded;
mod commit;
mod entries;
mod grant_table;
pub mod law;
mod links;
mod load;
mod migrate_row;
mod migration;
mod planned_view;
mod restore;
mod row_buffer;
mod save;
mod start;
mod stored_row;

pub use change::Change;
pub use commanded::{ChildChange, CommandedChild, CommandedChildren, link_after, mode_after};
pub use entries::entry_of;
pub use grant_table::GrantTable;
pub use links::Links;
pub use load::kept_of_rows;
pub use migration::migrate;
pub use planned_view::PlannedView;
pub use row_buffer::RowBuffer;
pub use save::{save_and_apply, save_row};
pub use start::{loaded_kept, save_boot};
pub use stored_row::has_station;
