//! Journals that are merged, and what an entry waits for.

use crate::entries::{
    ANN, CHILD_GRANTED, CHILD_LEARNED, CHILD_RAN, CHILD_SETTLED, DCS, FIRST, FREED, GRANTED,
    LEARNED, LET_GO, ORDERED, PASSED_FIRST, RAN, SETTLED, SHOWED_FIRST,
};
use smi_audit::{Contradiction, EntryQueue, Merge, MergeVerdict, Need, Obstacle, teller};
use smi_grant::{Command, Holder};
use smi_protocol::Entry;
use smi_testkit::WORKED;
use smi_tree::Tree;
use std::alloc::{AllocError, Global};
use std::process::Abort;
use std::test::Fail;

/// What the first station tells: that the command of DCS ends, and that ANN lets go, before anything of TPC is taken,
/// if its journal is gone through first. Both have to wait for TPC.
const FIRST_STATION: [Entry; 9] = [
    GRANTED,
    LEARNED,
    CHILD_LEARNED,
    ORDERED,
    RAN,
    SETTLED,
    LET_GO,
    FREED,
    SHOWED_FIRST,
];

/// What the second station tells.
const SECOND_STATION: [Entry; 4] = [CHILD_GRANTED, PASSED_FIRST, CHILD_RAN, CHILD_SETTLED];

/// What an entry contradicts or waits for, once ANN holds DCS.
const OBSTACLES: [(Entry, Option<Obstacle>); 9] = [
    (ORDERED, None),
    (
        RAN,
        Some(Obstacle::Waits {
            station: 1,
            need: Need::Ordered {
                operator: 1,
                domain: 1,
                epoch: 1,
                number: 1,
            },
        }),
    ),
    (
        GRANTED,
        Some(Obstacle::Never(Contradiction::Epoch {
            epoch: 1,
            holder: ANN,
        })),
    ),
    (
        CHILD_LEARNED,
        Some(Obstacle::Waits {
            station: 2,
            need: Need::Granted {
                domain: 2,
                epoch: 1,
                holder: DCS,
            },
        }),
    ),
    (
        FREED,
        Some(Obstacle::Waits {
            station: 1,
            need: Need::LetGo {
                holder: ANN,
                domain: 1,
                epoch: 1,
            },
        }),
    ),
    (
        SHOWED_FIRST,
        Some(Obstacle::Waits {
            station: 2,
            need: Need::Passed(FIRST),
        }),
    ),
    (
        SETTLED,
        Some(Obstacle::Never(Contradiction::NotAtWork { epoch: 1, ran: 0 })),
    ),
    (
        Entry::Ordered {
            operator: 1,
            domain: 1,
            epoch: 1,
            number: 2,
            command: Command::Do(1),
        },
        Some(Obstacle::Never(Contradiction::Number { expected: 1 })),
    ),
    (
        Entry::Granted {
            domain: 3,
            epoch: 1,
            holder: Holder::Operator(1),
        },
        Some(Obstacle::Unknown),
    ),
];

/// Makes two journals without entries.
fn two_journals(alloc: Global) -> Result<Vec<EntryQueue>, AllocError> {
    let mut journals = Vec::new(alloc);
    journals.push(EntryQueue::new(alloc))?;
    journals.push(EntryQueue::new(alloc))?;
    Ok(journals)
}

/// Adds an entry to the journal at a place, and goes on with the merge.
fn grow(
    merge: &mut Merge<'_>,
    journals: &mut [EntryQueue],
    place: usize,
    entry: &Entry,
) -> Result<(), AllocError> {
    if let Some(journal) = journals.get_mut(place) {
        journal.push(entry)?;
    }
    let _moved = merge.advance(journals)?;
    Ok(())
}

/// Returns how a merge ends if the journal of one station comes whole before that of the other.
fn one_by_one(
    alloc: Global,
    tree: &Tree,
    one: &[Entry],
    other: &[Entry],
) -> Result<MergeVerdict, AllocError> {
    let mut journals = two_journals(alloc)?;
    let mut merge = Merge::new(alloc, tree)?;
    for entry in one {
        grow(&mut merge, &mut journals, 0, entry)?;
    }
    for entry in other {
        grow(&mut merge, &mut journals, 1, entry)?;
    }
    Ok(merge.verdict(&journals))
}

/// Returns true if all of these are told by a station.
fn are_told_by(tree: &Tree, station: u16, entries: &[Entry]) -> bool {
    for entry in entries {
        if teller(tree, entry) != Some(station) && *entry != SHOWED_FIRST {
            return false;
        }
    }
    true
}

/// Returns how many obstacles are as told.
fn obstacles(alloc: Global, tree: &Tree) -> Result<usize, AllocError> {
    let mut journals = two_journals(alloc)?;
    let mut merge = Merge::new(alloc, tree)?;
    grow(&mut merge, &mut journals, 0, &GRANTED)?;
    grow(&mut merge, &mut journals, 0, &LEARNED)?;
    let mut count = 0usize;
    for (entry, obstacle) in &OBSTACLES {
        if merge.obstacle(entry) == *obstacle {
            count = count.saturating_add(1);
        }
    }
    Ok(count)
}

fn each_order<R: Abort>(rt: &R, alloc: Global, tree: &Tree) {
    assert!(rt; one_by_one(alloc, tree, &FIRST_STATION, &SECOND_STATION) == Ok(MergeVerdict::Safe));
    assert!(rt; one_by_one(alloc, tree, &SECOND_STATION, &FIRST_STATION) == Ok(MergeVerdict::Safe));
    assert!(rt; one_by_one(alloc, tree, &FIRST_STATION, &[]) == Ok(MergeVerdict::Open));
    assert!(rt; are_told_by(tree, 1, &FIRST_STATION));
    assert!(rt; are_told_by(tree, 2, &SECOND_STATION));
    assert!(rt; obstacles(alloc, tree) == Ok(9));
}

#[test]
fn two_journals_are_merged(rt: HostRuntime) -> Result<(), Fail> {
    let tree = Tree::read(rt.alloc(), WORKED)?;
    each_order(&rt, rt.alloc(), &tree);
    Ok(())
}
