//! The hierarchy that all stations share: the tree file, what it declares, and what follows from it.
//!
//! [`Tree::read`] is a small compiler front end. Bytes are cut into lines and lines into words (`text`); the words of
//! a line are read as a declaration (`declaration`), with its names (`name`) and numbers (`number`); each declaration
//! is added to the tables of the lines above it (`declare`, `tables`); and what all lines make is a [`Tree`]. The
//! first faulty line ends the reading, with the first of its [faults](Fault) in the order of docs/FORMATS.md.
//!
//! The layers above rely on this: a `Tree` is lawful, with every number one that is there, every parent before its
//! children and every limit kept; each look-up is the tree's table and takes no memory; and a unit's state is the
//! target of the first rule that holds over its members.
//!
//! Schedules are texts of the same kind of lines: what cuts and reads them ([`first_line`], [`first_word`],
//! [`one_name`], [`number_within`] ..) is public for them.
//!
//! Who keeps, who may hold and who is above what, by the tree, is what rows, datagrams and orders are measured by
//! (`roles`). A station keeps domains and with them their devices. A domain is held by nobody, by an operator of the
//! tree, or by the domain above it (docs/PROTOCOL.md, "The record"). No function there takes memory.
//!
//! # How it is proved
//!
//! ## Reading
//!
//! `Tree::read` ensures two clauses. By `exact` its answer is that of `tree_of`: on `Ok` the tree of the bytes, on
//! `Err(Line(l, c))` the fault that `tree_of` answers. Only being out of memory is left open. By `lawful` what is
//! read is an `IsTree`.
//!
//! - `tree_of` (`specs/File`) is by recursion on the lines of the bytes (std's `lines`). The first faulty line ends
//!   it.
//! - A line is read by its words (`declaration_of`, `specs/Declaration`). It adds to the hierarchy of the lines above
//!   it, or has the first fault of the tests in their order (`with_declaration`, `specs/Additions`).
//! - `IsTree` (`specs/Lawful`) has as fields the inequalities that a caller wants: every limit, every number one that
//!   is there, parents with lower numbers, classes of the right kind. It is the type's invariant. Each count
//!   (`domain_count` and its like) ensures it again, so an owner of a `Tree` knows it.
//! - `IsNamed` (`specs/Named`): no name occurs twice. The name of a number has that number; operators, domains and
//!   devices share one set of names.
//!
//! The laws tell the same a second time, in other words and without the function. `law::tree_files_are_accepted`: a
//! file is read exactly when it is short enough, each line is lawful over what the lines above it make, and one of each
//! kind is there. `law::the_first_faulty_line_is_told`: a fault with a line number is the first fault of the first
//! line that is not lawful. `law::a_fault_without_a_line_is_the_files`: 11 is a file that is too long, 12 one whose
//! lines are all lawful and that is yet no tree.
//!
//! How it is built: `text` (lines and words, over std's `slice_split`), `name`, `number`, `declaration` and `declare`
//! are each proved to be a function on lists. `read` has one loop. Its invariant is that what the lines left make of
//! the tables is what all lines make. That a read hierarchy is lawful is proved about the definitions alone
//! (`proofs/Lawfulness`, `Depth`, `Kept`, `NamedLemmas`, `TreeLemmas`): each declaration keeps `IsLawful` and
//! `IsNamed`.
//!
//! A line is read once for its words. Where a word ends, and whether all its bytes are a name's, is found in one
//! pass, and `Word` keeps both, with the second as its invariant. Whether a byte is a name's is read off a table,
//! which is compared entry by entry with the rule (`proofs/NameBytes`).
//!
//! ## Looking up
//!
//! Each look-up ensures that its result is that of a definition over the hierarchy (`specs/Lookups`, `specs/Rules`):
//!
//! - a list's entry;
//! - a filter of the rows by number (`children_of`, `devices_of`, `operators_of`);
//! - the way up by parents (`is_below`, `child_towards`);
//! - the first row of a class (`moved`);
//! - the first rule that holds (`unit_state`).
//!
//! Names, moves, accepted actions and devices are lists in the definitions, and are found without a scan. The names
//! of a kind are an ordered hash set (`indexmap`), whose order is the list. The others are beside what finds them,
//! and an invariant of the type says that the two agree:
//!
//! | What | How it is found | Definition |
//! |---|---|---|
//! | accepted actions | a hash set | `specs/ActionIndex` |
//! | moves | a table by class, state and action, which grows with the numbers that are used | `specs/MoveIndex` |
//! | devices | how many lie in each domain | `specs/DeviceCounts` |
//!
//! When all lines are read, the children and devices of each domain and the operators of each station are grouped in
//! one pass over the rows (`specs/Grouped`). `proofs/Grouping` has what holds along the way.
//!
//! ## Only tested
//!
//! On the built program:
//!
//! - that a read with ample memory succeeds;
//! - each fault, each limit at its last value and one past, and lines with two faults, of which the one that is
//!   tested first is told (`tests/trees.py`);
//! - that a refused allocation is answered as out of memory, which the contract leaves open: each allocation of a run
//!   is refused in turn (`tests/growths_test.py`).
#![tactic(auto)]

mod actions;
mod declaration;
mod declare;
mod devices;
mod fault;
mod groups;
pub mod law;
mod lookup;
mod moves;
mod name;
mod names;
mod number;
mod read;
mod roles;
mod row;
mod rule;
mod tables;
mod text;
mod tree;

pub use declaration::{one_name, one_word, two_names};
pub use fault::{Fault, TreeFault};
pub use name::Name;
pub use number::{Address, number_within};
pub use read::is_comment;
pub use roles::{
    has_domain, has_object, holder_station, is_at, is_child_unit, is_command_of, is_holder_of,
    is_keeper, is_kept_by, is_parent, keeper_of,
};
pub use row::{Device, Domain};
pub use text::{Word, first_line, first_word, length_of_line, without_return};
pub use tree::Tree;
