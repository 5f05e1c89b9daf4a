//! Traces that no safe world leaves, each as one journal over the worked tree.

use crate::entries::{
    ANN, CHILD_GRANTED, CHILD_LEARNED, CHILD_RAN, FREED, GRANTED, LEARNED, LET_GO, ORDERED,
    PASSED_FIRST, PASSED_SECOND, RAN, SETTLED, SHOWED_FIRST, SHOWED_SECOND, STARTED,
};
use smi_audit::{EntryQueue, MergeVerdict, merge_journals};
use smi_grant::{Command, Holder};
use smi_protocol::Entry;
use smi_rows::Mode;
use smi_testkit::WORKED;
use smi_tree::Tree;
use std::alloc::{AllocError, Global};
use std::process::Abort;
use std::test::Fail;

// ---- Grants that are wrong.

const GRANTED_TWICE: [Entry; 2] = [GRANTED, GRANTED];

const EVEN_EPOCH: [Entry; 2] = [
    GRANTED,
    Entry::Granted {
        domain: 1,
        epoch: 2,
        holder: Holder::Operator(2),
    },
];

const FREED_BEFORE_LET_GO: [Entry; 3] = [GRANTED, LEARNED, FREED];

const LET_GO_BEFORE_LEARNED: [Entry; 2] = [GRANTED, LET_GO];

const LEARNED_TWICE: [Entry; 3] = [GRANTED, LEARNED, LEARNED];

const NO_PARENT: [Entry; 1] = [Entry::Granted {
    domain: 1,
    epoch: 1,
    holder: Holder::Domain(2),
}];

const STRANGER: [Entry; 1] = [Entry::Granted {
    domain: 1,
    epoch: 1,
    holder: Holder::Operator(9),
}];

const TWO_COMMANDERS: [Entry; 3] = [
    Entry::Granted {
        domain: 2,
        epoch: 1,
        holder: ANN,
    },
    Entry::Learned {
        holder: ANN,
        domain: 2,
        epoch: 1,
    },
    Entry::Learned {
        holder: Holder::Operator(2),
        domain: 2,
        epoch: 1,
    },
];

// ---- Runs that are wrong.

const NOT_ORDERED: [Entry; 3] = [GRANTED, LEARNED, RAN];

const ORDERED_TWICE: [Entry; 5] = [
    GRANTED,
    LEARNED,
    ORDERED,
    Entry::Ordered {
        operator: 1,
        domain: 1,
        epoch: 1,
        number: 1,
        command: Command::Do(2),
    },
    RAN,
];

const MANUAL_CHILD: [Entry; 8] = [
    GRANTED,
    LEARNED,
    CHILD_GRANTED,
    CHILD_LEARNED,
    Entry::InMode {
        domain: 2,
        mode: Mode::Manual,
    },
    ORDERED,
    RAN,
    CHILD_RAN,
];

const RELEASED_PARENT: [Entry; 8] = [
    GRANTED,
    LEARNED,
    CHILD_GRANTED,
    CHILD_LEARNED,
    ORDERED,
    RAN,
    LET_GO,
    CHILD_RAN,
];

const ENDED_PARENT: [Entry; 8] = [
    GRANTED,
    LEARNED,
    CHILD_GRANTED,
    CHILD_LEARNED,
    ORDERED,
    RAN,
    SETTLED,
    CHILD_RAN,
];

const NOT_HANDED_ON: [Entry; 7] = [
    GRANTED,
    LEARNED,
    CHILD_GRANTED,
    CHILD_LEARNED,
    Entry::Ordered {
        operator: 1,
        domain: 1,
        epoch: 1,
        number: 1,
        command: Command::Do(3),
    },
    Entry::Ran {
        domain: 1,
        epoch: 1,
        number: 1,
        command: Command::Do(3),
    },
    Entry::Ran {
        domain: 2,
        epoch: 1,
        number: 1,
        command: Command::Do(3),
    },
];

const AFTER_LETTING_GO: [Entry; 5] = [GRANTED, LEARNED, ORDERED, LET_GO, RAN];

const OUT_OF_ORDER: [Entry; 4] = [
    GRANTED,
    LEARNED,
    Entry::Ordered {
        operator: 1,
        domain: 1,
        epoch: 1,
        number: 2,
        command: Command::Do(1),
    },
    Entry::Ran {
        domain: 1,
        epoch: 1,
        number: 2,
        command: Command::Do(1),
    },
];

const RUN_TWICE: [Entry; 5] = [GRANTED, LEARNED, ORDERED, RAN, RAN];

// ---- States and boots that are wrong.

const NOT_PASSED: [Entry; 1] = [SHOWED_FIRST];

const OLDER_THAN_SHOWN: [Entry; 4] = [PASSED_FIRST, PASSED_SECOND, SHOWED_SECOND, SHOWED_FIRST];

const OLDER_AFTER_A_START: [Entry; 5] = [
    PASSED_FIRST,
    PASSED_SECOND,
    SHOWED_SECOND,
    STARTED,
    SHOWED_FIRST,
];

const SHOWN_TWICE: [Entry; 3] = [PASSED_FIRST, SHOWED_FIRST, SHOWED_FIRST];

const GOES_BACK: [Entry; 2] = [PASSED_SECOND, PASSED_FIRST];

const BOOT_AGAIN: [Entry; 2] = [STARTED, STARTED];

/// Returns how a merge of one journal ends.
fn verdict_of(alloc: Global, tree: &Tree, entries: &[Entry]) -> Result<MergeVerdict, AllocError> {
    let mut journal = EntryQueue::new(alloc);
    for entry in entries {
        journal.push(entry)?;
    }
    let mut journals = Vec::new(alloc);
    journals.push(journal)?;
    merge_journals(alloc, tree, &mut journals)
}

/// Returns true if a trace ends open, and safe without this many of its last entries: some wait for a run that never
/// comes, before the entry that is wrong.
fn goes_wrong(alloc: Global, tree: &Tree, entries: &[Entry], wrong: usize) -> bool {
    let Some(right) = entries.get(..entries.len().saturating_sub(wrong)) else {
        return false;
    };
    verdict_of(alloc, tree, entries) == Ok(MergeVerdict::Open)
        && verdict_of(alloc, tree, right) == Ok(MergeVerdict::Safe)
}

fn grants<R: Abort>(rt: &R, alloc: Global, tree: &Tree) {
    assert!(rt; goes_wrong(alloc, tree, &GRANTED_TWICE, 1));
    assert!(rt; goes_wrong(alloc, tree, &EVEN_EPOCH, 1));
    assert!(rt; goes_wrong(alloc, tree, &FREED_BEFORE_LET_GO, 1));
    assert!(rt; goes_wrong(alloc, tree, &LET_GO_BEFORE_LEARNED, 1));
    assert!(rt; goes_wrong(alloc, tree, &LEARNED_TWICE, 1));
    assert!(rt; goes_wrong(alloc, tree, &NO_PARENT, 1));
    assert!(rt; goes_wrong(alloc, tree, &STRANGER, 1));
    assert!(rt; goes_wrong(alloc, tree, &TWO_COMMANDERS, 1));
}

fn runs<R: Abort>(rt: &R, alloc: Global, tree: &Tree) {
    assert!(rt; goes_wrong(alloc, tree, &NOT_ORDERED, 1));
    assert!(rt; goes_wrong(alloc, tree, &ORDERED_TWICE, 2));
    assert!(rt; goes_wrong(alloc, tree, &MANUAL_CHILD, 1));
    assert!(rt; goes_wrong(alloc, tree, &RELEASED_PARENT, 2));
    assert!(rt; goes_wrong(alloc, tree, &ENDED_PARENT, 2));
    assert!(rt; goes_wrong(alloc, tree, &NOT_HANDED_ON, 1));
    assert!(rt; goes_wrong(alloc, tree, &AFTER_LETTING_GO, 2));
    assert!(rt; goes_wrong(alloc, tree, &OUT_OF_ORDER, 2));
    assert!(rt; goes_wrong(alloc, tree, &RUN_TWICE, 1));
}

fn states<R: Abort>(rt: &R, alloc: Global, tree: &Tree) {
    assert!(rt; goes_wrong(alloc, tree, &NOT_PASSED, 1));
    assert!(rt; goes_wrong(alloc, tree, &OLDER_THAN_SHOWN, 1));
    assert!(rt; goes_wrong(alloc, tree, &OLDER_AFTER_A_START, 1));
    assert!(rt; goes_wrong(alloc, tree, &SHOWN_TWICE, 1));
    assert!(rt; goes_wrong(alloc, tree, &GOES_BACK, 1));
    assert!(rt; goes_wrong(alloc, tree, &BOOT_AGAIN, 1));
}

// One function owns the tree, and drops it in one place, because each place is expensive to prove.
#[test]
fn unsafe_traces_stay_open(rt: HostRuntime) -> Result<(), Fail> {
    let tree = Tree::read(rt.alloc(), WORKED)?;
    grants(&rt, rt.alloc(), &tree);
    runs(&rt, rt.alloc(), &tree);
    states(&rt, rt.alloc(), &tree);
    Ok(())
}
