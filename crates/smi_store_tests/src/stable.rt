//! Stores, by rows as docs/FORMATS.md writes them, and stations over them.

use crate::listing;
use crate::plays::streamed::is_streamed_as_run;
use crate::plays::{are_drawn_played, is_written_played, wide};
use disks::{FusedFiles, OnDisks, OverSql};
use smi_testkit::WORKED;
use smi_tree::Tree;
use std::alloc::{AllocError, Global};
use std::test::Fail;

mod begun;
pub(crate) mod disks;
mod saved;
mod stops;

/// Whose tree is read for a case.
#[derive(Clone, Copy, Debug, PartialEq, Eq)]
enum Over {
    Worked,
    Wide,
}

/// What is asked of a store over SQL.
#[derive(Clone, Copy, Debug, PartialEq, Eq)]
enum StoreCase {
    /// Rows that are saved in any order are found again.
    Saved,
    /// They are listed by their keys.
    Listed,
    /// As many rows are found as the stations of the largest tree have.
    Many,
    /// A save adds one short page to a file that was begun.
    ShortPages,
    /// A file is begun again after a stop, and keeps a row.
    BegunAgain,
    /// A station stops with its disk, and goes on with the rows that are found.
    Stops,
    /// Stations make of a written schedule what the world makes of it, over this store as over one in memory.
    Written,
    /// They make so of this many items that a seed draws over a tree.
    Drawn(Over, u64, u32),
    /// What is drawn leaves the same text at once and as a stream.
    Streamed(Over),
}

fn cases() -> [StoreCase; 15] {
    [
        StoreCase::Saved,
        StoreCase::Listed,
        StoreCase::Many,
        StoreCase::ShortPages,
        StoreCase::BegunAgain,
        StoreCase::Stops,
        StoreCase::Written,
        StoreCase::Drawn(Over::Worked, 1, 1500),
        StoreCase::Drawn(Over::Worked, 2, 500),
        StoreCase::Drawn(Over::Worked, 3, 500),
        StoreCase::Drawn(Over::Wide, 1, 1500),
        StoreCase::Drawn(Over::Wide, 2, 500),
        StoreCase::Drawn(Over::Wide, 3, 500),
        StoreCase::Streamed(Over::Worked),
        StoreCase::Streamed(Over::Wide),
    ]
}

fn over_tree<S: OnDisks<Disks = FusedFiles>>(
    case: StoreCase,
    alloc: Global,
    tree: &Tree,
) -> Result<bool, Fail> {
    match case {
        StoreCase::Saved => saved::are_found_again::<S>(alloc),
        StoreCase::Listed => listing::are_printed::<S>(alloc),
        StoreCase::Many => saved::are_many_kept::<S>(alloc),
        StoreCase::ShortPages => begun::adds_one_short_page::<S>(alloc),
        StoreCase::BegunAgain => begun::is_begun_after_a_stop::<S>(alloc),
        StoreCase::Stops => stops::all_fit::<S>(alloc, tree),
        StoreCase::Written => is_written_played::<S>(alloc, tree),
        StoreCase::Drawn(_, seed, count) => are_drawn_played::<S>(alloc, tree, seed, count),
        StoreCase::Streamed(_) => Ok(is_streamed_as_run(alloc, tree)),
    }
}

/// Returns the text of the tree that a case is over.
fn text_of(case: StoreCase, alloc: Global) -> Result<Vec<u8>, AllocError> {
    match case {
        StoreCase::Drawn(Over::Wide, _, _) | StoreCase::Streamed(Over::Wide) => Vec::from_slice(
            alloc,
            wide::text(alloc)?.as_bytes(),
        ),
        _ => Vec::from_slice(alloc, WORKED),
    }
}

// One function owns the tree, because whatever owns one is expensive to prove.
fn holds<S: OnDisks<Disks = FusedFiles>>(case: StoreCase, alloc: Global) -> Result<bool, Fail> {
    let text = text_of(case, alloc)?;
    let tree = Tree::read(alloc, text.as_slice())?;
    over_tree::<S>(case, alloc, &tree)
}

#[test]
fn over_sql(rt: HostRuntime) -> Result<(), Fail> {
    for case in cases() {
        assert!(rt; holds::<OverSql>(case, rt.alloc())?, "{case:?}");
    }
    Ok(())
}
