//! Runs `smi node`: reads its tree file, finds its station, opens its store, and has `smi_console` run it.
//!
//! `commands` calls [`run_node`]. `screen` opens its store by [`open_store`] too. The checks of a store come in an
//! order that people see: damaged files, another tree, an older store. A store that is refused is left unchanged
//! (docs/RUNNING.md, "When a store is behind its label").

ghost use Rattle.std.specs.Prelude.{IfOk};
ghost use Rattle.std.specs.Arc.{arc_value};
ghost use Rattle.smi_program.specs.Named.{IsStationNamed};

use crate::line::{ConsolePlace, JournalOptions, NodeLine};
use crate::tree::read_marked;
use crate::words::{Words, bytes_of};
use smi_commands::status::{Status, no_memory, store_fault, wrong_line};
use smi_console::{Console, ListenAddress, NodeSetup, Turns, run};
use smi_disks::{Kinship, OpenStore, StoreAge, StoreHealth, Stores, TreeMark, age};
use smi_journal::JournalSetup;
use smi_rows::{Key, Row, Stable, StoreFault};
use smi_tree::Tree;
use std::alloc::{AllocError, Global};
use std::io::{Read, Write};
use std::net::Net;
use std::rt::Files;
use std::sync::{Arc, Wait};
use std::thread::Threads;
use std::time::Clock;

/// Returns the tree for all threads of a node to share. If memory is refused, writes the fault and returns the status.
fn share_tree<F: Write>(
    alloc: Global,
    tree: Tree,
    faults: &mut F,
) -> Result<Arc<Tree, Global>, Status> {
    match Arc::new(alloc, tree) {
        Ok(tree) => Ok(tree),
        Err(_) => Err(no_memory(faults)),
    }
}

/// Returns for how many turns a node serves: without end if `turns` is None.
fn turns_of(turns: Option<u32>) -> Turns {
    match turns {
        Some(count) => Turns::Count(count),
        None => Turns::Endless,
    }
}

/// Returns the address at which a node listens that a word of its line names. Fails if memory was refused.
fn listen_address_of(alloc: Global, place: ConsolePlace<'_>) -> Result<ListenAddress, AllocError> {
    match place {
        ConsolePlace::Address(address) => Ok(ListenAddress::Address(address)),
        ConsolePlace::Path(path) => Ok(ListenAddress::Path(String::from_str(alloc, path)?)),
    }
}

/// Returns all addresses at which a node listens for consoles. Fails if memory was refused.
fn listen_addresses_of(
    alloc: Global,
    line: &NodeLine<'_>,
) -> Result<Vec<ListenAddress>, AllocError> {
    let mut addresses = Vec::new(alloc);
    if let Some(place) = line.console {
        addresses.push(listen_address_of(alloc, place)?)?;
    }
    if let Some(place) = line.second_console {
        addresses.push(listen_address_of(alloc, place)?)?;
    }
    Ok(addresses)
}

/// Returns how a journal is written, or None if the line asks for none. Its files name the tree by its mark. Fails if
/// memory was refused.
fn journal_setup(
    alloc: Global,
    line: Option<JournalOptions<'_>>,
    mark: &TreeMark,
    station: u16,
) -> Result<Option<Arc<JournalSetup, Global>>, AllocError> {
    let Some(JournalOptions { folder, is_synced }) = line else {
        return Ok(None);
    };
    let setup = JournalSetup {
        folder: String::from_str(alloc, folder)?,
        tree_number: mark.number,
        tree_digest: mark.digest,
        station,
        is_synced,
    };
    Ok(Some(Arc::new(alloc, setup)?))
}

/// Makes what a node of this line is run with, and the mark of its tree, which is its number and its digest. The
/// station is the one that the line names. Otherwise writes the fault and returns the exit status.
fn setup_of<H: Files + AllocGlobal, F: Write>(
    host: &H,
    words: &Words,
    line: NodeLine<'_>,
    faults: &mut F,
) -> Result<(NodeSetup, TreeMark), Status>
    ensures { IfOk result (λ s. IsStationNamed (arc_value s.0.tree) line.entry.station.now s.0.station) }
{
    let (tree, mark) = read_marked(host, bytes_of(words, line.tree), faults)?;
    let tree = share_tree(host.alloc(), tree, faults)?;
    let Some(station) = tree.station_named(line.station.as_bytes()) else {
        return Err(wrong_line(faults));
    };
    let consoles = listen_addresses_of(host.alloc(), &line);
    let journal = journal_setup(host.alloc(), line.journal, &mark, station);
    match (consoles, journal) {
        (Ok(consoles), Ok(journal)) => {
            let setup = NodeSetup {
                tree,
                station,
                turns: turns_of(line.turns),
                sources: line.sources,
                consoles,
                journal,
            };
            Ok((setup, mark))
        }
        _ => Err(no_memory(faults)),
    }
}

/// What a store is opened for.
#[derive(Clone, Copy)]
pub(crate) struct Opening<'a> {
    pub(crate) tree: &'a Tree,
    /// The number and the digest of the tree, with which the label of the store is compared.
    pub(crate) mark: &'a TreeMark,
    /// The number of the station, from 1.
    pub(crate) station: u16,
    /// True if a store that is older than its label, or damaged, is taken all the same.
    pub(crate) accepts_older: bool,
}

/// Writes why a store is refused, and fails with the exit status of that.
fn refuse<F: Write>(what: &str, faults: &mut F) -> Result<(), Status> {
    // If standard error can't be written, the status alone says so.
    let _ = writeln!(faults, "{what}");
    Err(Status::Refused)
}

/// Writes the fault of a store that could not be opened or read. Returns the exit status.
fn report_store_fault<F: Write>(fault: StoreFault, faults: &mut F) -> Status {
    match fault {
        StoreFault::Memory => no_memory(faults),
        StoreFault::Device | StoreFault::Unsure => store_fault(faults),
    }
}

/// Checks that a store was made for this tree. Otherwise writes the fault, and fails with the exit status.
///
/// A store of a tree of another number is refused, because its operators are others. A store of a tree of this number
/// whose file said something else is taken, with a line that says so: the opening of the station finds out whether its
/// rows fit.
fn check_kinship<F: Write>(kinship: Kinship, faults: &mut F) -> Result<(), Status> {
    match kinship {
        Kinship::Same => Ok(()),
        Kinship::Changed => {
            // If standard error can't be written, the node goes on all the same.
            let _ = writeln!(faults, "store of a changed tree");
            Ok(())
        }
        Kinship::Other => refuse("store of another tree", faults),
    }
}

/// Returns the boot that a store has of a station, or None if it has none.
///
/// A boot row that can't be read counts as the newest one, so that the store is not refused as an older one here: the
/// opening of the station finds that fault.
fn boot_in<S: Stable>(
    alloc: Global,
    stable: &mut S,
    opening: Opening<'_>,
) -> Result<Option<u32>, StoreFault> {
    // The key of the boot row: it is of no domain and no operator.
    let key = Key {
        station: opening.station,
        domain: 0,
        operator: 0,
    };
    for row in stable.load()?.iter() {
        if row.key == key {
            return match Row::read(alloc, opening.tree, key, row.bytes.as_slice()) {
                Ok(Row::Boot(boot)) => Ok(Some(boot)),
                _ => Ok(Some(u32::MAX)),
            };
        }
    }
    Ok(None)
}

/// Checks that a store is not older than its label, unless older ones are accepted. Otherwise writes the fault, and
/// fails with the exit status.
///
/// An older store has lost what others were told since, so its station would give away what somebody holds. An empty
/// one is refused always.
fn check_age<F: Write>(age: StoreAge, accepts_older: bool, faults: &mut F) -> Result<(), Status> {
    match age {
        StoreAge::Current => Ok(()),
        StoreAge::Empty => refuse("store is empty beside its label", faults),
        StoreAge::Older if accepts_older => Ok(()),
        StoreAge::Older => refuse("store is older than its label", faults),
    }
}

/// Checks that the files of a store are not damaged, unless older ones are accepted. Otherwise writes the fault, and
/// fails with the exit status. Of damaged files what was saved last may be lost.
fn check_health<F: Write>(
    health: StoreHealth,
    accepts_older: bool,
    faults: &mut F,
) -> Result<(), Status> {
    match health {
        StoreHealth::Sound => Ok(()),
        _ if accepts_older => Ok(()),
        StoreHealth::DamagedLog => refuse("store has a damaged log", faults),
        StoreHealth::DamagedFile => refuse("store differs from its sum", faults),
    }
}

/// Checks that the files of a store are sound, before it is opened. Otherwise writes the fault, and fails with the exit
/// status.
fn check_files<H: Stores, F: Write>(
    host: &H,
    path: &[u8],
    opening: Opening<'_>,
    faults: &mut F,
) -> Result<(), Status> {
    match host.health(path) {
        Ok(health) => check_health(health, opening.accepts_older, faults),
        Err(fault) => Err(report_store_fault(fault, faults)),
    }
}

/// Checks that an open store is of this tree and not older than its label. Otherwise writes the fault, and fails with
/// the exit status.
fn check_open_store<S: Stable, F: Write>(
    alloc: Global,
    store: &mut OpenStore<S>,
    opening: Opening<'_>,
    faults: &mut F,
) -> Result<(), Status> {
    check_kinship(store.kinship, faults)?;
    match boot_in(alloc, &mut store.stable, opening) {
        Ok(stored) => check_age(age(store.noted, stored), opening.accepts_older, faults),
        Err(fault) => Err(report_store_fault(fault, faults)),
    }
}

/// Opens the store of a path, and copies its log into its file. If it can't be opened or is refused, writes the fault
/// and fails with the exit status; a refused store is left unchanged.
pub(crate) fn open_store<H: Stores + AllocGlobal, F: Write>(
    host: &H,
    path: &[u8],
    opening: Opening<'_>,
    faults: &mut F,
) -> Result<H::Open, Status> {
    check_files(host, path, opening, faults)?;
    let mut store = match host.open(path, opening.mark, opening.station) {
        Ok(store) => store,
        Err(fault) => return Err(report_store_fault(fault, faults)),
    };
    if let Err(status) = check_open_store(host.alloc(), &mut store, opening, faults) {
        host.give_up(store.stable);
        return Err(status);
    }
    // The close copies the log into the file, and what is in the file is safe from the loss of the log.
    host.close(store.stable);
    match host.open(path, opening.mark, opening.station) {
        Ok(store) => Ok(store.stable),
        Err(fault) => Err(report_store_fault(fault, faults)),
    }
}

/// Runs a node as its line says. Returns the exit status.
pub fn run_node<
    H: Files + Stores + Net + Wait + Threads + Clock + AllocGlobal + Clone + Drop + Send + 'static,
    I: Read + Drop + Send + 'static,
    O: Write + Drop + Send + 'static,
    E: Write + Drop + Send + 'static,
    F: Write,
>(
    host: &H,
    words: &Words,
    line: NodeLine<'_>,
    console: Console<I, O, E>,
    faults: &mut F,
) -> Status {
    let (setup, mark) = match setup_of(host, words, line, faults) {
        Ok(found) => found,
        Err(status) => return status,
    };
    let opening = Opening {
        tree: &setup.tree,
        mark: &mark,
        station: setup.station,
        accepts_older: line.accepts_older,
    };
    match open_store(host, bytes_of(words, line.store), opening, faults) {
        Ok(stable) => {
            let (status, stable) = run(host, &setup, stable, console, faults);
            host.close(stable);
            status
        }
        Err(status) => status,
    }
}
