//! Journals are read back, replayed station by station, and audited together.
//!
//! [`read_line`] reads one line of a journal (docs/FORMATS.md, "Journals"). [`audit`] takes the files of all stations
//! and says its verdict. A file is cut into lines (`cutter`, `journal_file`). The lines of one station are replayed
//! (`station_journal`), which puts in front of a start what only that start tells (`account`, `loss`). What all
//! stations tell is merged by `smi_audit` (`night`, `beginning`) and judged (`judge`, `verdict`, `wording`).
//!
//! The layer above may rely on this: an entry that is audited is one whose own text is in a line of its station's
//! journal, or one that a start tells and the verdict names.
//!
//! # How it is proved
//!
//! `read_line` ensures `IsLine` (`specs/JournalText`): the line is a time, the station, the boot and then words, and an
//! entry is returned only if the words are its text (`entry_text` of `smi_schedule`). The functions that find the entry
//! have no contract: what they find is spelled again and compared, so one that is wrong can only refuse.
//!
//! A station's journal takes only lines of its station, entries that the tree has in its journal (`teller_of` of
//! `smi_audit`), starts whose boot rises, and else lines of the boot that it is in.
//!
//! ## Only tested
//!
//! - that times are read and written as UTC has them, and what the lines of blocks say;
//! - what a start tells, the order of files, and the verdict with its words (`tests/audit_test.py`, against an
//!   implementation in Python).
#![tactic(auto)]

mod account;
mod beginning;
mod block_words;
mod clock;
mod cutter;
mod entry_words;
mod fault;
mod fronts;
mod head;
mod head_text;
mod journal_file;
mod judge;
mod line;
mod loss;
mod need;
mod night;
mod resolve;
mod station_journal;
mod tally;
mod verdict;
mod word;
mod wording;

pub use block_words::{DomainStands, LinkStage, LinkStands, PendingCommand};
pub use fault::{LineError, LineFault};
pub use head::DIGEST_BYTES;
pub use journal_file::{JournalFile, JournalSource};
pub use judge::{AuditEnd, AuditedTree, audit, audit_traced};
pub use line::{JournalLine, MOST_BYTES_OF_A_JOURNAL_LINE, Says, Spelling, read_line};
