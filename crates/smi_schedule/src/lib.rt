//! Schedules, which let something happen to the stations of a tree, and the text of the traces that they make.
//!
//! [`read_item`] reads one line of a schedule, so that one can be taken line by line, as [`Lines`] cuts them from a
//! reader; [`read_schedule`] reads a whole text. The words of a line are told apart (`words`), then read with their
//! names and numbers (`said`), then found in the tree (`known`); the first test that fails is the line's
//! [fault](smi_tree::Fault). [`Drawer`] draws items one by one and [`draw_schedule`] a number of them. The lines and
//! the drawing are in docs/FORMATS.md, "Schedules".
//!
//! [`spell`] puts the text of a [`Line`](smi_protocol::Line) of a trace into a buffer, and [`write_lines`] writes
//! lines one by one through such a buffer, so that no text of a whole trace is ever kept. A line's words are put
//! together in `entries` and `orders`; how a name, a holder or a number is written is in `names` and
//! `trace_words`. The lines are in docs/FORMATS.md, "Traces". Three lines that no trace has, and a running node
//! prints, are put together from the same words: how a report ended ([`spell_report`]), what a board shows of an
//! object ([`spell_board`]), and which orders are under way ([`spell_waiting`]).
//!
//! # How it is proved
//!
//! ## Schedules
//!
//! What a line of a schedule lets happen is `item_in` (`specs/Line`), a function of the tree and of the line's bytes.
//! It goes through the tests in the order in which they are told:
//!
//! 1. the line's length;
//! 2. the words that a line says by itself, the count of its words, and the form of its names and numbers (`said_of`,
//!    `specs/Said`);
//! 3. what the tree has by these names (`known`, `specs/Known`).
//!
//! `read_item` computes it, by the functions that cut and read the lines of tree files, and takes no memory.
//!
//! `Lines` cuts lines from any reader. What is left of the text is what was read and not cut, and what the reader
//! still has. Of a reader that tells its bytes each call says what it made of that (`Cuts`, `specs/Lines`). It took
//! the first line, or there is none, or the first has more than 200 bytes, for which it keeps no more than 202 of
//! them beside one read.
//!
//! - After a read fault what was read and is left has no line feed (`fault`).
//! - The loop's invariant is that what is left stays the same.
//! - A reader that gives no end in 2^32 reads is answered as one that fails: the number of reads that are left is the
//!   loop's measure. That a read fault has a cause is tested alone.
//!
//! Of a text of lines, `items_before_fault` and `first_fault` (`specs/Schedule`) are the items of all lines before
//! the end or the first faulty line, and that line's fault. `read_schedule` gives the ones or the other. The loop's
//! invariant is that the items so far and those of the lines left are the items of all, and that the first fault is
//! among the lines left (`proofs/LineByLine`).
//!
//! `item_of` (`specs/Drawn`) is what a word of 32 bits picks. `items_drawn` takes one word after the other from the
//! generator, whose definition is that of `rand_pcg`. `Drawer` and `draw_schedule` follow it (`proofs/Draws`).
//!
//! ## Traces
//!
//! `line_text` (`specs/Text`) is a line of a trace as a function of the tree and the line: its first word, each
//! further word after a blank, and a line feed. The words are in `specs/TraceWords`. `spell` puts it into a buffer.
//!
//! `write_lines` writes the text of each line through such a buffer. On an error what it has written is a prefix of
//! the text of all lines (`prefix`). That rests on `write_whole` of `smi_base`, since std's `write_all` does not say
//! what it has written if it fails (`proofs/Prefixes`).
#![tactic(auto)]

mod draw;
mod entries;
mod known;
mod line;
mod lines;
pub mod names;
mod node;
mod orders;
mod said;
mod schedule;
mod sent;
mod trace_line;
mod trace_words;
mod words;
mod write;

pub use draw::{Drawer, draw_schedule, item_of};
pub use line::read_item;
pub use lines::{Cut, Lines};
pub use node::{spell_board, spell_report, spell_waiting};
pub use schedule::{ScheduleFault, read_schedule};
pub use trace_line::spell;
pub use write::{Unwritten, write_line, write_lines};
