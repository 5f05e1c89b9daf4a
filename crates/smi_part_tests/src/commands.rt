use smi_command::laws::{
    commands_settle_by_number, known_epoch_never_falls, one_link_and_its_keeper,
    taking_ends_by_hearing,
};
use smi_command::{
    Due, Link, LinkHeard, MOST_PENDING, Pending, Refusal, Settlement, begin_drop, begin_take, due,
    issue, told,
};
use smi_grant::{Command, Holder, LAST_EPOCH, LAST_NUMBER, Outcome, Phase, Record};

const BOB: Holder = Holder::Operator(2);

const CONFIGURE: Command = Command::Do(1);

const START: Command = Command::Include(2);

fn held(epoch: u64, number: u32, pending: Pending) -> Link {
    Link::Held {
        epoch,
        number,
        pending,
    }
}

fn two(oldest: Command, newest: Command) -> Pending {
    let mut pending = Pending::new();
    pending.push(oldest);
    pending.push(newest);
    pending
}

fn only(command: Command) -> Pending {
    let mut pending = Pending::new();
    pending.push(command);
    pending
}

// The first three settlements, each as its number and code.
fn settled(heard: &LinkHeard) -> [Option<(u32, u16)>; 3] {
    let LinkHeard::Settled(settlements) = heard else {
        return [None; 3];
    };
    let at = |i| {
        let Settlement { number, code } = settlements.get(i)?;
        Some((number, code))
    };
    [at(0), at(1), at(2)]
}

/// Returns true if a link that hears a record becomes this, and tells these settlements.
fn becomes(link: Link, heard: Record, wanted: Link, codes: [Option<(u32, u16)>; 3]) -> bool {
    let (now, what) = told(&link, BOB, &heard);
    now == wanted && settled(&what) == codes
}

#[test]
fn records_heard_by_links_that_hold_nothing(rt: HostRuntime) {
    let free = Record::fresh();
    let mine = Record {
        epoch: 1,
        holder: BOB,
        ..free
    };
    let others = Record {
        holder: Holder::Operator(1),
        ..mine
    };
    let again = Record { epoch: 2, ..free };
    let last = Record {
        epoch: LAST_EPOCH,
        ..free
    };
    let later = Record { epoch: 4, ..free };
    let (none, nothing, done) = (Pending::new(), [None; 3], [Some((0, 0)), None, None]);
    let (taken, spent) = ([Some((0, 5)), None, None], [Some((0, 9)), None, None]);
    let rows = [
        becomes(Link::Taking(0), again, Link::Taking(2), nothing),
        becomes(Link::Taking(0), others, Link::Out(1), taken),
        becomes(Link::Taking(0), free, Link::Taking(0), nothing),
        becomes(Link::Taking(0), mine, held(1, 0, none), done),
        becomes(Link::Taking(2), mine, Link::Taking(2), nothing),
        becomes(Link::Taking(LAST_EPOCH), last, Link::Out(LAST_EPOCH), spent),
        becomes(
            Link::Taking(u64::MAX),
            mine,
            Link::Taking(u64::MAX),
            nothing,
        ),
        becomes(Link::Dropping(1), later, Link::Out(4), done),
        becomes(Link::Dropping(1), mine, Link::Dropping(1), nothing),
        becomes(Link::Out(0), mine, Link::Out(0), nothing),
    ];
    assert_eq!(rt; rows, [true; 10]);
}

#[test]
fn records_heard_by_links_that_hold(rt: HostRuntime) {
    let mine = Record {
        epoch: 1,
        holder: BOB,
        ..Record::fresh()
    };
    let settled = Record {
        last: 2,
        outcome: 1,
        ..mine
    };
    let second = Record {
        last: 2,
        phase: Phase::Busy,
        ..mine
    };
    let first = Record {
        last: 1,
        phase: Phase::Busy,
        ..mine
    };
    let (none, one, both) = (Pending::new(), only(START), two(CONFIGURE, START));
    let (nothing, unseen) = ([None; 3], [Some((1, 8)), None, None]);
    let rows = [
        becomes(
            held(1, 2, both),
            settled,
            held(1, 2, none),
            [Some((1, 8)), Some((2, 1)), None],
        ),
        becomes(held(1, 2, both), second, held(1, 2, one), unseen),
        becomes(held(1, 2, both), first, held(1, 2, both), nothing),
        becomes(held(3, 2, both), settled, held(3, 2, both), nothing),
    ];
    assert_eq!(rt; rows, [true; 4]);
    assert_eq!(rt; Outcome::Unseen.code(), 8);
}

/// Returns what a link that is taking hears if nothing settles.
fn heard_while_taking(heard: Record) -> LinkHeard {
    told(&Link::Taking(0), BOB, &heard).1
}

#[test]
fn records_that_settle_nothing(rt: HostRuntime) {
    let free = Record::fresh();
    let heard = [
        heard_while_taking(Record { epoch: 2, ..free }) == LinkHeard::Renewed,
        heard_while_taking(free) == LinkHeard::Unchanged,
    ];
    assert_eq!(rt; heard, [true; 2]);
}

/// Returns true if a link answers a take, a command and a drop so.
fn obeys(
    link: Link,
    taken: Result<Link, u16>,
    issued: Result<Link, u16>,
    dropped: Result<Link, u16>,
) -> bool {
    begin_take(&link) == taken && issue(&link, START) == issued && begin_drop(&link) == dropped
}

#[test]
fn orders_given(rt: HostRuntime) {
    let (none, one) = (Pending::new(), only(START));
    let last = held(3, 1_000_000, one);
    let rows = [
        obeys(Link::Out(3), Ok(Link::Taking(3)), Err(21), Err(21)),
        obeys(Link::Taking(3), Err(23), Err(21), Err(21)),
        obeys(Link::Dropping(3), Err(23), Err(21), Err(21)),
        obeys(
            held(3, 999_999, none),
            Err(23),
            Ok(last),
            Ok(Link::Dropping(3)),
        ),
        obeys(
            held(3, 1_000_000, none),
            Err(23),
            Err(24),
            Ok(Link::Dropping(3)),
        ),
        obeys(
            held(u64::MAX, u32::MAX, none),
            Err(23),
            Err(24),
            Ok(Link::Dropping(u64::MAX)),
        ),
        obeys(
            held(3, 1, one),
            Err(23),
            Ok(held(3, 2, two(START, START))),
            Err(22),
        ),
    ];
    assert_eq!(rt; rows, [true; 7]);
}

/// Returns a link with as many pending commands as there is room for.
fn filled() -> Result<Link, u16> {
    let mut full = held(1, 0, Pending::new());
    for _ in 0..MOST_PENDING {
        full = issue(&full, START)?;
    }
    Ok(full)
}

/// Returns what such a link answers to a command and a drop, and what it is due last.
fn at_the_limit() -> Result<[bool; 4], u16> {
    let full = filled()?;
    Ok([
        issue(&full, START) == Err(22),
        begin_drop(&full) == Err(22),
        due(&full, 7)
            == Some(Due::Run {
                epoch: 1,
                number: 8,
                command: START,
            }),
        due(&full, 8) == None,
    ])
}

#[test]
fn orders_with_all_commands_pending(rt: HostRuntime) {
    assert_eq!(rt; at_the_limit(), Ok([true; 4]));
    let codes = [
        Refusal::NotHeld.code(),
        Refusal::CommandPending.code(),
        Refusal::NotOut.code(),
        Refusal::NumbersSpent.code(),
    ];
    assert_eq!(rt; codes, [21, 22, 23, 24]);
}

#[test]
fn what_is_due(rt: HostRuntime) {
    let waiting = held(5, 7, two(CONFIGURE, START));
    let table = [
        (Link::Out(4), 4, false, None, None),
        (Link::Taking(4), 4, true, Some(Due::Take(4)), None),
        (Link::Dropping(5), 5, true, Some(Due::Drop(5)), None),
        (held(5, 7, Pending::new()), 5, false, None, None),
        (
            waiting,
            5,
            true,
            Some(Due::Run {
                epoch: 5,
                number: 6,
                command: CONFIGURE,
            }),
            Some(Due::Run {
                epoch: 5,
                number: 7,
                command: START,
            }),
        ),
    ];
    for (i, (link, known, is_unsettled, first, next)) in table.iter().enumerate() {
        assert_eq!(rt; link.known(), *known, "row {i}");
        assert_eq!(rt; link.is_unsettled(), *is_unsettled, "row {i}");
        assert_eq!(rt; due(link, 0), *first, "row {i}");
        assert_eq!(rt; due(link, 1), *next, "row {i}");
        assert_eq!(rt; due(link, 2), None, "row {i}");
    }
    let pending = two(CONFIGURE, START);
    assert_eq!(rt; pending.len(), 2);
    assert!(rt; !pending.is_empty() && !pending.is_full() && Pending::new().is_empty());
    assert_eq!(rt; pending.get(1), Some(START));
    assert_eq!(rt; pending.as_slice(), [CONFIGURE, START].as_slice());
    assert_eq!(rt; pending.get(2), None);
    assert_eq!(rt; pending.base(7), 5);
    assert_eq!(rt; pending.base(1), 0);
    assert_eq!(rt; pending.without_oldest(1), only(START));
    assert_eq!(rt; LAST_NUMBER, 1_000_000);
    taking_ends_by_hearing();
    commands_settle_by_number();
    known_epoch_never_falls();
    one_link_and_its_keeper();
}
