//! Files by paths that need not be text, the stores in them, and what tree a store is of.
//!
//! A node opens its store by itself ([`Stores::open`]): SQLite's exclusive lock is on the file as long as the
//! node runs, so that a second node is refused. Beside it is its label ([`StoreLabel`]), and it saves only while its
//! files are where they were ([`Watched`]). A listing reads a store's files alone, and lists a copy of them in memory.
//!
//! A station that is started on a store of another tree would give what one person holds to another. So a label has a
//! [`TreeMark`], the tree's number and a digest of what its file says, and [`compare`] tells how that of another start
//! compares. A digest is of what a tree file says ([`digest`]): not of how it is laid out, nor of the addresses of its
//! stations, so that a station can move.
//!
//! A disk may forget a bit. So each time that the log of a store was copied into its file, the sum of the file is noted
//! beside it ([`StoreCopy`]), and [`health`] tells whether the file is still so. Of a log that lost something in its
//! middle it tells that too ([`is_damaged`]).
//!
//! A store that was put back, or lost its log, would have a station forget what it had told. So each start is noted in
//! the label once its boot row is saved ([`Watched`]), and [`age`] tells whether the rows are behind that note.
#![tactic(auto)]

mod file;
mod label;
mod label_file;
mod label_found;
mod listing;
mod log_check;
mod mark;
mod side_file;
mod speaking;
mod store;
mod store_copy;
mod sum_file;
mod surroundings;
mod watched;

pub use file::{beside, bytes_of, open, resolved};
pub use label::{LABEL_BYTES, LastStart, StoreAge, StoreLabel, age, spell_label};
pub use label_found::LabelFound;
pub use listing::list;
pub use log_check::is_damaged;
pub use mark::{Kinship, MARK_BYTES, TreeMark, compare};
pub use speaking::{digest, speak};
pub use store::{OpenStore, Stores};
pub use store_copy::{COPY_BYTES, StoreCopy, StoreHealth, health, spell_copy};
pub use surroundings::{StoreFiles, Surroundings};
pub use watched::{LogState, Watched};
