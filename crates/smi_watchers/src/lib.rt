//! Which stations watch which objects.
//!
//! A station that wants to see an object's states sends its keeper a `WATCH`, which names the
//! station's present boot as its echo. The keeper's [`Watchers`] hold a list for each object: of
//! the stations that watch it, each once, with the newest echo. [`Watchers::watch`] and
//! [`Watchers::renew`] put a station in, [`Watchers::unwatch`] and [`Watchers::leave`] take it out,
//! and [`Watchers::nth`], [`Watchers::count`] and [`Watchers::walk`] read a list.
//!
//! Each entry is a cell of its own, which is in the list of its object and in that of its
//! station, so that a station leaves in as many looks as it has entries: [`Watchers::visits`].
//!
//! The layer above may rely on this: the lists are what the rules of docs/PROTOCOL.md, "Watching",
//! make of the calls, entry by entry and in order; a fault leaves them as each call says; and only
//! `new`, `watch` and `renew` take memory.
//!
//! # How it is proved
//!
//! ## What contracts see
//!
//! `specs/Watching` says what a list becomes: `watch_in` (the newer echo in place, or an entry after all),
//! `unwatch_in` and `others_of` (filters), `answer_in` (what a watch finds of its station), `IsFullFor` (64 others).
//! It lifts them to all lists: `watched`, `unwatched`, `left_by`, `renewed`, `entries_of`.
//!
//! Contracts see a `Listing` (`specs/Listing`): these lists, and how many cells the last leaving looked at. Every
//! public function ensures its result and the new lists by these definitions. Of the count: `leave`, and a `renew`
//! that had memory, make it the number of the station's entries; `new` makes it 0; all else keeps it. `nth`, `count`
//! and `walk` hand on that a list has at most 64 entries and no station twice (`IsAudience`).
//!
//! ## Three layers
//!
//! Each cell is in two doubly linked lists, its object's and its station's.
//!
//! - `Cells` owns the cells, and is the only code that follows a pointer. It reads, writes, makes and gives back one
//!   whole cell. Which cell lies where is ghost data (`specs/Held`), which `also_owns` ties to the memory
//!   (`specs/Memory`). `Cells` is linear: it ends only when no cell is left, so a body which forgets one is refused.
//! - `Lists` has the heads and links the cells, without a pointer and without `unsafe`. Its contracts are functions
//!   on the cells and the heads (`specs/Net`). A head is the node `None` of its ring, so unlinking is two writes
//!   wherever the cell is, and one code serves both lists (`Axis`). `steps` goes along an object's list.
//! - `Watchers` has the invariant `IsKept` (`specs/Kept`). The cells are in both of their lists (`IsMesh`,
//!   `specs/Mesh`): each list is a ring of places, none twice, and each cell is in the two that its numbers name.
//!   Each object's list is an audience. The lists that callers see are what a walk along the cells reads
//!   (`lists_of`).
//!
//! Proved by hand in `proofs/cells`, over `proofs/Memory`: `new`, `fill`, `empty`, `read` and `write`, and the law
//! that a `&` may read. That a new cell lies at none of the old places comes from there, as its memory is apart.
//!
//! The lemmas go up in the same steps:
//!
//! | Of | Files under `proofs/` |
//! |---|---|
//! | what a ring becomes when a place leaves or joins it | `Rings`, `Nets`, `Crossing` |
//! | what both kinds of lists become | `Meshes`, `Adds`, `Echoes` |
//! | what walks read then | `Walks`, `Frames`, `Listings` |
//! | what a caller sees | `Seen` |
//!
//! `clear`, the body of `leave`, has the invariant `IsLeaving` (`proofs/Leaving`). The lists without the station are
//! as at first. What was looked at and what the station still has are together all that it had. So its count is the
//! number of entries. No bound on cells is a premise: 64 entries for each of less than 2^16 objects fit. `drop` lets
//! each station leave; then no object's list has an entry, so there is no cell.
//!
//! ## Threads, and what is only tested
//!
//! That a `Watchers` may go to another thread is proved. What `Cells` owns, blocks of `Global` and plain data in
//! them, says the same to every thread (`proofs/Crosses`, cited by the `Send` of `Cells` in `proofs/cells`). `Spot`
//! is a number. A test moves one into a thread, and is proved too. `unsafe` is in `cells.rt` and before the
//! `Send` of `Cells` and of `Spot`; nothing beyond the toolchain is trusted.
//!
//! Not said by a contract: how many looks a body makes that it does not count. `make bench` shows that a leaving
//! takes time by its entries and not by all cells. Only tested: that ample memory suffices (`tests/growths_test.py`).
//! 1,000,000 random calls at 640 objects and 128 stations answer as plain lists do (`smi_part_tests`). Drawn schedules
//! run with no error and no leak that valgrind sees (`tests/schedules_test.py`, if there is valgrind).
#![tactic(auto)]

mod answer;
mod cell;
mod cells;
mod lists;
mod steps;
mod walk;
mod watcher;
mod watchers;

pub use answer::{WatchAnswer, WatchFault};
pub use walk::Walk;
pub use watcher::Watcher;
pub use watchers::{MOST_WATCHERS, Watchers};
