//! What each line of a trace reads.

use smi_grant::{Command, Holder, Phase, Record, Shown, Version};
use smi_message::{Body, Datagram};
use smi_protocol::{Entry, Line, Order, Told};
use smi_rows::Mode;
use smi_schedule::{Unwritten, spell, write_lines};
use smi_testkit::{Narrow, WORKED};
use smi_tree::Tree;
use std::alloc::{AllocError, Global};
use std::process::Abort;
use std::test::Fail;

const GRANTS: [(Entry, &[u8]); 6] = [
    (
        Entry::Granted {
            domain: 1,
            epoch: 1,
            holder: Holder::Operator(2),
        },
        b"granted DCS 1 BOB\n",
    ),
    (
        Entry::Granted {
            domain: 2,
            epoch: 3,
            holder: Holder::Domain(1),
        },
        b"granted TPC 3 DCS\n",
    ),
    (
        Entry::Freed {
            domain: 2,
            epoch: 2,
        },
        b"freed TPC 2\n",
    ),
    (
        Entry::Learned {
            holder: Holder::Domain(1),
            domain: 2,
            epoch: 3,
        },
        b"learned DCS TPC 3\n",
    ),
    (
        Entry::LetGo {
            holder: Holder::Operator(2),
            domain: 2,
            epoch: 1,
        },
        b"letgo BOB TPC 1\n",
    ),
    (
        Entry::Settled {
            domain: 1,
            epoch: 1,
            number: 1,
            outcome: 5,
        },
        b"settled DCS 1 1 5\n",
    ),
];

/// The commands that ran at DCS, the second under a grant of epoch 1.
const COMMANDS: [(Command, &[u8]); 6] = [
    (Command::Do(1), b"ran DCS 1 2 do CONFIGURE\n"),
    (Command::Include(2), b"ran DCS 1 2 include TPC\n"),
    (Command::Exclude(2), b"ran DCS 1 2 exclude TPC\n"),
    (Command::Manual(2), b"ran DCS 1 2 manual TPC\n"),
    (Command::Ignore(2), b"ran DCS 1 2 ignore TPC\n"),
    // What the tree does not have is written by its number.
    (Command::Do(4), b"ran DCS 1 2 do 4\n"),
];

const MODES: [(Mode, &[u8]); 3] = [
    (Mode::Included, b"mode TPC included\n"),
    (Mode::Manual, b"mode TPC manual\n"),
    (Mode::Ignored, b"mode TPC ignored\n"),
];

/// What ANN was told of orders.
const TOLD: [(Order, u16, &[u8]); 12] = [
    (Order::Take(1), 0, b"told ANN take DCS 0\n"),
    (Order::Take(2), 31, b"told ANN take TPC 31\n"),
    (Order::Drop(1), 22, b"told ANN drop DCS 22\n"),
    (Order::Do(1, 1), 8, b"told ANN do DCS CONFIGURE 8\n"),
    (Order::Include(1, 2), 5, b"told ANN include DCS TPC 5\n"),
    (Order::Exclude(2, 1), 2, b"told ANN exclude TPC DCS 2\n"),
    (Order::Manual(1, 2), 0, b"told ANN manual DCS TPC 0\n"),
    (Order::Ignore(1, 2), 4, b"told ANN ignore DCS TPC 4\n"),
    (Order::Ask(9), 26, b"told ANN ask 9 26\n"),
    (Order::Watch(3), 0, b"told ANN watch HV 0\n"),
    (Order::Unwatch(1), 0, b"told ANN unwatch DCS 0\n"),
    (Order::Report(1, 2), 0, b"told ANN report HV READY 0\n"),
];

/// The object, its version and its state.
const SHOWN: [(u16, u32, u32, u16, &[u8]); 5] = [
    (2, 1, 1, 2, b"passed TPC 1.1 READY\n"),
    (1, 2, 0, 1, b"passed DCS 2.0 OFF\n"),
    (3, 1, 2, 3, b"passed HV 1.2 RUNNING\n"),
    (3, 1, 4_000_000_000, 4, b"passed HV 1.4000000000 ERROR\n"),
    (4, 1, 1, 5, b"passed 4 1.1 5\n"),
];

/// Returns the text of a line, in a buffer that had another one.
fn text_of(alloc: Global, tree: &Tree, line: &Line) -> Result<Vec<u8>, AllocError> {
    let mut text = Vec::from_slice(alloc, b"what was there")?;
    spell(&mut text, tree, line)?;
    Ok(text)
}

fn is_read(alloc: Global, tree: &Tree, entry: Entry, want: &[u8]) -> Result<bool, AllocError> {
    let text = text_of(alloc, tree, &Line::Entry(entry))?;
    Ok(text.as_slice() == want)
}

fn grants_are_read<R: Abort>(rt: &R, alloc: Global, tree: &Tree) -> Result<(), AllocError> {
    for (entry, want) in GRANTS {
        assert!(rt; is_read(alloc, tree, entry, want)?, "{want:?}");
    }
    for (mode, want) in MODES {
        let entry = Entry::InMode { domain: 2, mode };
        assert!(rt; is_read(alloc, tree, entry, want)?, "{want:?}");
    }
    Ok(())
}

fn commands_are_read<R: Abort>(rt: &R, alloc: Global, tree: &Tree) -> Result<(), AllocError> {
    for (command, want) in COMMANDS {
        let entry = Entry::Ran {
            domain: 1,
            epoch: 1,
            number: 2,
            command,
        };
        assert!(rt; is_read(alloc, tree, entry, want)?, "{want:?}");
    }
    let ordered = Entry::Ordered {
        operator: 1,
        domain: 1,
        epoch: 4_611_686_018_427_387_903,
        number: 1_000_000,
        command: Command::Include(2),
    };
    assert!(rt;
        is_read(
            alloc,
            tree,
            ordered,
            b"ordered ANN DCS 4611686018427387903 1000000 include TPC\n"
        )?
    );
    Ok(())
}

fn orders_are_read<R: Abort>(rt: &R, alloc: Global, tree: &Tree) -> Result<(), AllocError> {
    for (order, code, want) in TOLD {
        let told = Told {
            order,
            code,
            asked: None,
        };
        let entry = Entry::Told { operator: 1, told };
        assert!(rt; is_read(alloc, tree, entry, want)?, "{want:?}");
    }
    Ok(())
}

/// Returns what BOB is told who asked about TPC.
fn asked(record: Record) -> Entry {
    Entry::Told {
        operator: 2,
        told: Told {
            order: Order::Ask(2),
            code: 0,
            asked: Some(record),
        },
    }
}

fn records_are_read<R: Abort>(rt: &R, alloc: Global, tree: &Tree) -> Result<(), AllocError> {
    let busy = Record {
        epoch: 1,
        holder: Holder::Operator(2),
        last: 3,
        phase: Phase::Busy,
        outcome: 0,
    };
    let ended = Record {
        epoch: 3,
        holder: Holder::Domain(1),
        last: 2,
        phase: Phase::Settled,
        outcome: 5,
    };
    assert!(rt;
        is_read(
            alloc,
            tree,
            asked(Record::fresh()),
            b"told BOB ask TPC free 0 0 settled 0\n"
        )?
    );
    assert!(rt;
        is_read(
            alloc,
            tree,
            asked(busy),
            b"told BOB ask TPC BOB 1 3 busy 0\n"
        )?
    );
    assert!(rt;
        is_read(
            alloc,
            tree,
            asked(ended),
            b"told BOB ask TPC DCS 3 2 settled 5\n"
        )?
    );
    Ok(())
}

fn states_are_read<R: Abort>(rt: &R, alloc: Global, tree: &Tree) -> Result<(), AllocError> {
    for (object, boot, sequence, state, want) in SHOWN {
        let shown = Shown {
            object,
            version: Version { boot, sequence },
            state,
        };
        assert!(rt;
            is_read(alloc, tree, Entry::Passed(shown), want)?,
            "{want:?}"
        );
    }
    let shown = Shown {
        object: 2,
        version: Version {
            boot: 1,
            sequence: 1,
        },
        state: 2,
    };
    let showed = Entry::Showed { station: 1, shown };
    assert!(rt; is_read(alloc, tree, showed, b"showed A TPC 1.1 READY\n")?);
    let booted = Entry::Booted {
        station: 3,
        boot: 2,
    };
    assert!(rt; is_read(alloc, tree, booted, b"booted 3 2\n")?);
    Ok(())
}

/// Returns true if the `number`-th datagram reads so that goes from station 1 to station 2.
fn is_sent(
    alloc: Global,
    tree: &Tree,
    number: u64,
    datagram: Datagram,
    want: &[u8],
) -> Result<bool, AllocError> {
    let text = text_of(alloc, tree, &Line::Sent(number, datagram))?;
    Ok(text.as_slice() == want)
}

fn grants_are_sent<R: Abort>(rt: &R, alloc: Global, tree: &Tree) -> Result<(), AllocError> {
    let tell = Datagram {
        from: 1,
        to: 2,
        tree: 17,
        body: Body::Tell {
            domain: 1,
            told: Record::fresh(),
        },
    };
    assert!(rt; is_sent(alloc, tree, 2, tell, b"sent 2 TELL A B DCS\n")?);
    let take = Datagram {
        from: 1,
        to: 2,
        tree: 17,
        body: Body::Take {
            domain: 2,
            holder: Holder::Domain(1),
            seen: 2,
        },
    };
    assert!(rt; is_sent(alloc, tree, 16, take, b"sent 16 TAKE A B TPC\n")?);
    let run = Datagram {
        from: 1,
        to: 2,
        tree: 17,
        body: Body::Run {
            domain: 2,
            holder: Holder::Domain(1),
            epoch: 1,
            number: 1,
            command: Command::Do(1),
        },
    };
    assert!(rt; is_sent(alloc, tree, 10, run, b"sent 10 RUN A B TPC\n")?);
    Ok(())
}

fn objects_are_sent<R: Abort>(rt: &R, alloc: Global, tree: &Tree) -> Result<(), AllocError> {
    let watch = Datagram {
        from: 1,
        to: 2,
        tree: 17,
        body: Body::Watch { object: 2, boot: 1 },
    };
    assert!(rt; is_sent(alloc, tree, 13, watch, b"sent 13 WATCH A B TPC\n")?);
    let unwatch = Datagram {
        from: 2,
        to: 1,
        tree: 17,
        body: Body::Unwatch { object: 3, boot: 1 },
    };
    assert!(rt; is_sent(alloc, tree, 14, unwatch, b"sent 14 UNWATCH B A HV\n")?);
    let strange = Datagram {
        from: 128,
        to: 3,
        tree: 17,
        body: Body::Watch {
            object: 640,
            boot: 1,
        },
    };
    assert!(rt;
        is_sent(
            alloc,
            tree,
            9_999_999_999,
            strange,
            b"sent 9999999999 WATCH 128 3 640\n"
        )?
    );
    Ok(())
}

fn all_are_read<R: Abort>(rt: &R, alloc: Global, tree: &Tree) -> Result<(), AllocError> {
    grants_are_read(rt, alloc, tree)?;
    commands_are_read(rt, alloc, tree)?;
    orders_are_read(rt, alloc, tree)?;
    records_are_read(rt, alloc, tree)?;
    states_are_read(rt, alloc, tree)?;
    grants_are_sent(rt, alloc, tree)?;
    objects_are_sent(rt, alloc, tree)
}

// One function owns the tree, and drops it in one place, because each place is expensive to prove.
#[test]
fn traces(rt: HostRuntime) -> Result<(), Fail> {
    let tree = Tree::read(rt.alloc(), WORKED)?;
    let read = all_are_read(&rt, rt.alloc(), &tree);
    drop(tree);
    Ok(read?)
}

const LINES: [Line; 2] = [
    Line::Entry(Entry::Booted {
        station: 2,
        boot: 1,
    }),
    Line::Entry(Entry::Freed {
        domain: 2,
        epoch: 2,
    }),
];

/// Checks that a writer that has room for this many bytes of a trace has that prefix of it.
fn prefixes_are_written<R: Abort>(rt: &R, alloc: Global, tree: &Tree) -> Result<(), Unwritten> {
    let want = b"booted B 1\nfreed TPC 2\n";
    let mut text = Vec::new(alloc);
    for room in [0, 1, 11, 12, 22, 23] {
        let mut writer = Narrow {
            written: Vec::new(alloc),
            room,
            flushes: true,
        };
        let done = write_lines(&mut writer, &mut text, tree, &LINES);
        let whole = room >= want.len();
        assert!(rt;
            done.is_ok() == whole && writer.written.as_slice() == &want[..room.min(23)],
            "{room}"
        );
    }
    Ok(())
}

#[test]
fn prefixes(rt: HostRuntime) -> Result<(), Fail> {
    let tree = Tree::read(rt.alloc(), WORKED)?;
    let written = prefixes_are_written(&rt, rt.alloc(), &tree);
    drop(tree);
    Ok(written?)
}
