//! What a station keeps when it stops: its stable rows, and what keeps them.
//!
//! A row has a [`Key`] and bytes. A station has a row for its boot, one for each of its domains and
//! one for each of its operators; [`Row`] is what the bytes say, [`Row::read`] reads them, and
//! [`write_boot`], [`DomainRow::write`] and [`OperatorRow::write`] write them, [`append_domain`] and
//! [`append_operator`] into a buffer that its caller keeps. What is read is what was written: other
//! bytes are refused, each by the first test that they fail.
//!
//! A [`Stable`] store keeps rows. Here are the store in memory and the one whose saves fail as
//! planned; the store over SQL is a crate of its own.
//!
//! # How it is proved
//!
//! Rows:
//!
//! | What | File |
//! |---|---|
//! | the bytes | `specs/Layout` |
//! | the ranges | `specs/Ranges` |
//! | what the tree must have | `specs/Known` |
//! | the tests in order | `specs/Reading` |
//! | which bytes are rows | `specs/Written` |
//! | what is written is read again, command by command, link by link | `proofs/Again` |
//! | a reading is what was written | `proofs/Laws` |
//!
//! Stores: `specs/Store` says what a save makes of rows. `proofs/Keys`: a row put in its place among rising keys is
//! found, and the keys still rise.
//!
//! Three laws speak of any store, and are proved from the trait alone. `law::saved_is_loaded` and
//! `law::loaded_is_as_told` say what is loaded after a save, however that ended.
//! `law::a_failure_leaves_what_was_saved` puts them together: a row is saved and loaded, and saved again. What is
//! loaded then is as the second save says, over what the first one saved. In each a failure is told only where the
//! store counted one (`cause`). A listing shows that the store did not fail for good (`loaded`), so nothing has to be
//! known of a store before it.
//!
//! `PlannedStable` (`specs/Planned`): a plan strikes at its save and at no other (`device`, `before`, `after`,
//! `passed_on`). If one strikes after the row was saved, the row stays (`landed`). A load spends no plan and is
//! the load of the store below (`left`, `passed_on`).
//!
//! Trusted: the toolchain.
#![tactic(auto)]

mod fault;
mod key;
mod known;
pub mod law;
mod layout;
mod memory;
mod mode;
mod places;
mod planned;
mod ranges;
mod read;
mod row;
mod saved;
mod schema;
mod stable;

pub use fault::{RowFault, RowFlaw};
pub use key::{Key, RowKind};
pub use layout::{append_domain, append_operator, write_boot};
pub use memory::MemoryStable;
pub use mode::Mode;
pub use planned::{Plan, Planned, PlannedStable};
pub use row::{DomainRow, OperatorRow, Row, StoredLink};
pub use saved::{SavedRow, is_rising};
pub use schema::Schema;
pub use smi_base::Tally;
pub use stable::{Stable, StoreFault};
