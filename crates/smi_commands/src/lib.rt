//! What the commands without stations do, over any reader, writer and store. `smi_program` has the command line and the
//! files, and `smi_disks` the stores in SQLite.
//!
//! [`answer::answer`] is the keeper of one domain over a reader and a writer: what is written is what the keeper's
//! rules say of the datagrams read. [`check::check`] prints what a tree file declares, and [`check::lint`] also what in
//! it is lawful and surely not meant. [`rows::rows`] lists the stable rows of a store. [`status`] has the exit statuses
//! and the lines on standard error, which all commands of the program use, nodes and screens too.
//!
//! There are six kinds of doubts about a tree: a station with the address of another (`twin_addresses`), an action that
//! a unit accepts and that moves no device (`idle_actions`), one that a domain does not accept and its parent does
//! (`refused_actions`), states of members over which no rule holds (`rule_holes`), a state that nothing leads to
//! (`unreached_states`), and a device that an action moves before anybody has reported it (`obedient_devices`). Each is
//! a function of the tree, and takes no memory. Searches go through all numbers from 0 to the last. What has a number
//! in a tree has it from 1, and 0 passes no test; as the state of a member it means one that was not shown yet.
//!
//! # How it is proved
//!
//! ## Checking a tree file
//!
//! `check` and `lint` return status 0 or 3 only for a file that `tree_of` accepts, 1 only for one that it refuses, and
//! nothing else but 4. The printed line and the fault's line are tested.
//!
//! ## Listing the rows of a store
//!
//! `rows` is over any store and any writer that tells its bytes. On `Done`, while the store is honest and was open,
//! what is written is `rows_text` (`specs/Rows`) of the store's rows by rising key, and nothing else. The loop's
//! invariant is that the lines of the rows so far are written (`proofs/Lines`). The opening of the file and the texts
//! of faults are tested.
//!
//! Which fault comes:
//!
//! - `StoreFault` comes only if the store counted a failure (`failed`).
//! - `rows` cannot say why the other two come, since std's `Write` counts no failures, and a store no refused memory.
//! - `list`, which does the work on what `load` answered, can. It returns `Memory` if the store answered that memory
//!   was refused, and not otherwise (`fault`). Of rows that were loaded it returns `WriteFault` only if a write or a
//!   flush failed (`unwritten`).
//! - Such failures are counted by `Losses`, whose field is private. Its three functions raise the count if the writer
//!   failed, and nothing else can.
//!
//! ## Answering
//!
//! `answer` is over any reader and writer that tell their bytes. On `Ended` and `Refused` what is written is exactly
//! the list of answers of the keeper's definition over the datagrams read, from the new record, up to the first
//! refusal. The result is the definition's (`done`). In every case a prefix of that list is written and nothing else
//! (`front`). So `Ended` comes only at the reader's end with nothing refused, and `Refused(k, c)` only if datagram `k`
//! is the first that is refused, by `c`.
//!
//! - `Keeper::answer` takes 44 bytes.
//! - `answer_each` answers the datagrams of a block. It says of them, whatever is read later, that the answers to all
//!   are its answers and those to what is left of the block and to what comes later.
//! - The loop's invariant (`proofs/Going`) says of three parts that they are the answers to the whole input: what is
//!   written so far, the answers to the bytes that the block still has, and those to all that is left.
//!
//! Not said by any contract, and only tested:
//!
//! - that a read or write fault of `answer` has a cause, since std's `Read` and `Write` count no failures;
//! - that a buffer is flushed, since its contract keeps the bytes that it holds;
//! - the bound of 2^32 reads, and the texts and statuses of the program.
#![tactic(auto)]

pub mod answer;
pub mod check;
mod doubts;
mod idle_actions;
mod keeper;
mod losses;
mod obedient_devices;
mod refused_actions;
pub mod rows;
mod rule_holes;
pub mod status;
mod twin_addresses;
mod unreached_states;

pub use doubts::tell;
pub use idle_actions::is_idle;
pub use obedient_devices::is_obedient;
pub use refused_actions::is_refused;
pub use rule_holes::{is_mixed, is_unruled};
pub use twin_addresses::twin;
pub use unreached_states::is_unreached;
