//! The journal of a station: what each of its steps left, as lines in files.
//!
//! A [`Journal`] is told each step of a node after its save and before anything of it is sent ([`Journal::note`]). So
//! what others hear rests only on lines that are written. The lines of a step may wait for the next one if no other
//! station and no operator can know of it, so that both are one write (`specs/Waiting`). A kill loses at most the step
//! that was saved last and one that waited. The next start reads both from their rows: each file begins with what holds
//! by then. The files, their names and their lines are in docs/FORMATS.md, "Journals", and which lines may wait and why
//! is in docs/PROTOCOL.md, "Audits".
//!
//! [`push_step`] puts the lines of a step together, and [`write_step`] writes them at once: a prefix, which has the
//! time, the station and the boot, and behind it the line of a trace. Their clauses say which text that is: the entries
//! of the step by its definition, one line each, in their order (`specs/Text`).
//!
//! What a journal did is a list that contracts alone see (`specs/Noted`): the steps that it was told, in order, and the
//! files that it began. Its file has just what that list says: since it was begun each step is written, waits as it
//! may, or has left nothing to write, and after one that is lost it has no file.
//!
//! What a journal asks of a station is a trait of six questions ([`StationState`]), because a function over a station
//! is expensive to prove.
#![tactic(auto)]

mod block;
mod journal;
mod line;
mod notes;
mod opening;
mod station;
mod step;
mod step_writer;
mod time;
mod typed;
mod waiting;

pub use block::StationState;
pub use journal::{Journal, JournalSetup, MOST_BYTES, Noted, PATIENCE};
pub use line::JournalWord;
pub use notes::Noting;
pub use step::{LineContext, is_silent, push_entry, push_step, write_step};
pub use time::push_time;
pub use typed::TypedLine;
