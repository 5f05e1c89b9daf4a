//! Runs the commands of the program `smi`, over any files, stores, input and outputs.
//!
//! `main` of the crate `smi` calls it with the real ones. [`words_of`] reads the words of the command line, which need
//! not be text, and [`line_of`] parses them. [`program`] runs the command. At a terminal, [`tell_help`] writes after a
//! wrong line where help is. There and in a service, [`tell_more`] writes what is wrong with a tree file that was
//! refused, and which path or address was in the way of a command that ended with a fault; [`LastLine`] has the line of
//! that fault. A path is found again by the bytes of its word ([`bytes_of`]). What a command without stations does is
//! proved in `smi_commands`. `smi_console` runs a node, and `smi_screen` a screen.
//!
//! [`simulating::sim`] runs a schedule that is read, [`simulating::sim_drawn`] one that is drawn. They write the text
//! of the schedule's trace, which is safe at every moment (`stream` and `stream_drawn` of `smi_world`), and a fault as
//! one line. README.md, "The commands", has the forms of the command line; docs/NUMBERS.md has the exit statuses and
//! the lines on standard error.
//!
//! The page of a screen is one file, with its style and its script, which fetches nothing from elsewhere. It is written
//! in parts, in the folder `page` beside this crate's sources, and served as the constant [`PAGE`], which tools/page.py
//! puts together. If the screen has a style file, a script with what the file says of states follows the page
//! ([`page_with_style`]). If orders may be given, two more parts follow ([`page_with_orders`]): the key that a page has
//! to show with each order, and the parts that give orders ([`ORDERS`]).
#![tactic(auto)]

mod audit;
mod cause;
mod cause_search;
mod commands;
mod help;
mod last_line;
mod line;
mod node;
mod orders;
mod page;
mod reopened_file;
mod screen;
mod sim;
pub mod simulating;
mod standard_places;
mod style;
mod telling_more;
mod token;
mod tree;
mod tree_words;
mod with_orders;
mod words;

pub use commands::program;
pub use help::tell_help;
pub use last_line::LastLine;
pub use line::{
    AuditLine, CommandLine, JournalOptions, NodeLine, Schedule, ScreenLine, SimLine, line_of,
};
pub use orders::ORDERS;
pub use page::PAGE;
pub use standard_places::fill_standard_places;
pub use telling_more::{LASTING_FAULT, tell_more};
pub use with_orders::{page_bytes, page_with_orders, page_with_style};
pub use words::{Words, bytes_after, bytes_of, words_of};
