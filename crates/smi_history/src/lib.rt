//! The history of a screen: what it has seen, the oldest first, as a value without file, socket or clock. `smi_web`
//! adds to it and answers requests from it; `smi_screen` has the file and the clock. `smi_web` also uses its functions
//! that append text.
//!
//! - A [`History`] keeps the entries of some days, [`MOST_ENTRIES`] at most. Each [`HistoryEntry`] has a number, a
//!   time, and a line that says what was seen: `board TRK 1.6 READY`.
//! - [`History::look`] notes what is new in a picture since it was looked at last: states that were shown, records that
//!   were told, and domains whose station fell silent or is heard again; and once a day all that is known.
//!   [`History::note_all`] notes lines of others, as orders that were given.
//! - [`History::write`] writes the entries that a [`HistoryQuery`] asks for, each as a line of JSON.
//! - [`History::write_lines`] writes entries as the lines of a file, and [`History::read`] reads such lines again, so
//!   that a history outlasts the process that keeps it.
//!
//! docs/FORMATS.md, "The history of a screen", has the texts.
//!
//! # How it is proved
//!
//! What `look` notes is a definition over the picture, `picture_notes` (`specs/Looking`), and how the entries change by
//! a note is another, `noted` (`specs/History`). What is written is `history_text` (`specs/Query`) and `lines_text`
//! (`specs/Lines`). That lines which are read are the entries that were written is tested.
#![tactic(auto)]

mod history;
mod knowing;
mod lines;
mod look_time;
mod looking;
mod note_text;
mod parts;
mod query;
mod text;
mod wording;

pub use history::{History, HistoryEntry, HistoryNote, MOST_ENTRIES, MOST_TOLD, USUAL_DAYS};
pub use look_time::{LookTime, clock_at, is_new};
pub use looking::push_note;
pub use note_text::NoteText;
pub use query::{HistoryQuery, query_in};
pub use text::{is_all_plain, put, put_called, put_number, rest_of, shared};
