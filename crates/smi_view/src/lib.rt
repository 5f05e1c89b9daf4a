//! What stations, operators and observers are shown.
//!
//! A [`View`] has the last state of each object that was told in an answer to this start of the station. Told states
//! may be late, repeated, or answers to an earlier start: [`View::accept`] takes one exactly when it answers the
//! station's present boot and is newer than the last one that it took, so that what is shown never goes back.
//!
//! A [`Board`] shows them to other threads. The station's thread puts rows on it and publishes them; each reading
//! thread has a [`Glance`], which reads the last row of an object without waiting. What the board has published may
//! be told at any time ([`Board::tell`]) and learnt by a glance in its thread ([`Glance::learn`]). The layer above
//! may rely on this: a reading is of some first part of the publications, which begins with all that this glance has
//! seen before and with all that it was told; so for one glance, too, nothing goes back. What a glance has seen was
//! published ([`Board::meet`]): so where versions rise in the publications they rise in readings
//! ([`law::readings_rise`]). All ends of one board have one type parameter, so that what one board tells is learnt by
//! its own glances alone.
//!
//! A [`Picture`] is what an observer has seen of a whole detector: of each object the newest state that it was shown,
//! of each domain the record that has come furthest, and when each was heard. It is a value with neither input nor
//! output. What a station is shown and told is noted in it ([`Picture::show`], [`Picture::tell`]), at a time that the
//! caller gives. Whatever was noted, in whatever order, the picture has of each object the newest of the states by
//! their versions, and of each domain the furthest of the records by their ranks ([`picture_law`]); so what is had
//! never goes back.
//!
//! # How it is proved
//!
//! ## Accepting
//!
//! `specs/Accepting` has the rule of `accept`: `is_newer`, `acceptance`, `last_after`. `accept` ensures that its
//! answer is `acceptance` of the boot, the last state and the echo. The last states afterwards are `last_after`, an
//! equation of functions of an object's number (`proofs/LastStates`).
//!
//! ## The board
//!
//! - The rows that were put on a board are a history that only grows (`specs/History`). A word of `logbook` counts
//!   them. A count says that its rows begin all others of that history (`Rows`, whose contracts see
//!   the list; `proofs/Counting`, `proofs/Beginnings`).
//! - The board is built on `left_right` under a rule (`specs/Pages`). `Keeps` says that the map of a copy is that of
//!   the rows which its mark counts, and that the copy is of the history that each thread knows of. `Finds` is what a
//!   reading and a publication do. That each step keeps the rule is `proofs/Naming`.
//! - `specs/Shows` names what the two ends show: `publications` and `pending`, `seen` and `told`. `specs/Rows` has
//!   what publications say of an object (`last_row`). That the map of a copy has the last row of each object is
//!   `proofs/LastRows`.
//!
//! That nothing goes back for one glance follows. `seen` of `read` says that what is seen begins with what was seen
//! before; `covers` says that it begins with all that was told. Rows of one object are in the order in which they
//! were put. That what is told was published is `tell`'s clause; that board and glance have one history is in their
//! types.
//!
//! No clause of `read` names the board. So that what is read was published, and not only put, rests on the code of
//! `publish`: a copy is given a row when it is published, and not before.
//!
//! `law::readings_rise` speaks of publications whose versions rise (`specs/Rising`). By `proofs/Rises` a longer
//! beginning of such rows has no older last row.
//!
//! ## The picture
//!
//! - `specs/Newest` says what is had of an object once one more state is shown (`shown_after`), and of a domain once
//!   one more record is told (`told_after`).
//! - `specs/Noted` lifts this to a list of notes, the first of them first (`object_after`, `domain_after`). `show`
//!   and `tell` take one note in (`TakesIn`).
//! - The laws of `picture_law` are by induction on that list: `proofs/Newest` for objects, `Furthest` for domains.
//! - That nothing goes back is `KeepsUp` (`specs/Keeping`). `proofs/Keeping` has it of a picture that takes notes in.
//!
//! ## What is trusted
//!
//! The toolchain, and the statements of `left_right`, `crossbeam_utils`, `atomic_table` and `logbook`, which are the
//! kit's.
#![tactic(auto)]

mod board;
mod further;
mod glance;
mod growth;
mod history;
pub mod law;
mod page;
mod picture;
pub mod picture_law;
mod rule;
mod sheet;
mod sight;
mod view;

pub use board::{Board, open_board};
pub use further::is_further;
pub use glance::{Glance, News, NoReading};
pub use history::{BoardId, NewBoard, Rows};
pub use picture::Picture;
pub use sight::{Hearing, Sight};
pub use view::{Acceptance, View, is_newer};
