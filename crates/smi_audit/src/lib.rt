//! Checks that the entries which all stations of a tree left make a safe trace.
//!
//! Each station keeps a journal of the entries that its steps leave. No station knows in which order the entries of
//! two journals came. [`Merge`] takes entries from the fronts of the journals, in any order in which they fit, and
//! keeps tables of what was taken. [`merge_journals`] does so with whole journals.
//!
//! The layer above may rely on this: if a [`MergeVerdict`] is `Safe`, there is an order of all entries, those of each
//! journal in their own order, in which they are a trace that is safe as `smi_law` says it, and the boots of each
//! station rise. If it is `Open`, that is so of what was taken. Journals may grow at their ends between two calls, so
//! they can be read a part at a time ([`law::journals_may_grow`]). An audit may also begin with tables that stand at
//! the beginning (`assume`): whatever safe trace these describe goes on safely.
//!
//! [`Audit`] takes one entry at a time. `accept` takes an entry exactly if it fits. [`teller`] says in whose journal
//! an entry is, and [`Merge::obstacle`] why one is not taken now.
//!
//! An entry may wait although it fits. For example, a command of a domain ends only after each child to which it was
//! handed on has run and ended it. Without that a child's run would find its parent's command ended, and the merge
//! would stop although the journals are right. What waits, and for what, is in `owed_runs`. It has no say in what is
//! safe.
//!
//! # How it is proved
//!
//! `specs/Tables` has the tables, which entry they take (`takes`), and what they are then (`kept`). `specs/Described`
//! says what tables mean of a trace. Lemmas about tables and traces alone say that an entry that is taken leaves a
//! safe trace safe and the tables true of it: `proofs/Steps` for the domain of an entry, `proofs/Calm` for all others,
//! `proofs/States` for objects, `proofs/Fits` for what the law asks, `proofs/Sound` for all of it, and `proofs/Boots`.
//!
//! `specs/Kept` has the tables as lists by number, which the code holds. Each function ensures its line of `takes` and
//! `kept`. The newest states are found by halves, because versions rise (`proofs/Searching`).
//!
//! No trace is kept. A contract says: whatever trace the tables describe, if it was safe, it is safe with what was
//! taken (`GoesOn`, `GoesFurther`).
#![tactic(auto)]

mod audit;
mod domain_table;
mod entry_queue;
mod grant_state;
mod growing;
mod last_shown;
pub mod law;
mod merge;
mod obstacle;
mod orders;
mod owed_runs;
mod passed_states;
mod put_entry;
mod stage;
mod state_table;
mod tellers;

pub use audit::Audit;
pub use domain_table::DomainTable;
pub use entry_queue::EntryQueue;
pub use grant_state::GrantState;
pub use growing::GrowingMerge;
pub use last_shown::{LastShown, ShownStates};
pub use merge::{Merge, MergeVerdict, merge_journals};
pub use obstacle::{Contradiction, Need, Obstacle};
pub use orders::Orders;
pub use passed_states::PassedStates;
pub use stage::GrantStage;
pub use state_table::StateTable;
pub use tellers::teller;
