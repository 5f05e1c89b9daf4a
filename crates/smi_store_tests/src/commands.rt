use smi_commands::answer::{Answered, answer};
use smi_commands::check::check;
use smi_commands::rows::{Listed, rows};
use smi_rows::{MemoryStable, Stable, StoreFault};
use smi_testkit::{Narrow, Trickle, key};
use std::alloc::{AllocError, Global};
use std::cmp::min;
use std::io::{self, ErrorKind, Read};
use std::test::Fail;

/// Operator 2 takes domain 1 at epoch 0.
const TAKE: [u8; 44] = [
    0x53, 0x4D, 1, 2, 0, 2, 0, 1, 0, 1, 1, 0, 0, 2, 0, 0, 0, 0, 0, 0, 0, 0, 0, 0, 0, 0, 0, 0, 0, 0,
    0, 0x11, 0, 0, 0, 0, 0, 0, 0, 0, 0, 0, 0, 0,
];

/// Operator 2 holds domain 1 at epoch 1, and nothing has run.
const TAKEN: [u8; 44] = [
    0x53, 0x4D, 1, 5, 0, 1, 0, 2, 0, 1, 1, 0, 0, 2, 0, 0, 0, 0, 0, 0, 0, 0, 0, 1, 0, 0, 0, 0, 0, 0,
    0, 0x11, 0, 0, 0, 0, 0, 0, 0, 0, 0, 0, 0, 0,
];

/// Operator 2's command 1 under that grant: do action 1.
const RUN: [u8; 44] = [
    0x53, 0x4D, 1, 4, 0, 2, 0, 1, 0, 1, 1, 0, 0, 2, 0, 1, 0, 0, 0, 0, 0, 0, 0, 1, 0, 0, 0, 1, 0, 1,
    0, 0x11, 0, 0, 0, 0, 0, 0, 0, 0, 0, 0, 0, 0,
];

/// Returns the bytes with other values at some places.
fn with(bytes: [u8; 44], changes: &[(usize, u8)]) -> [u8; 44] {
    let mut changed = bytes;
    for (place, value) in changes {
        if let Some(cell) = changed.get_mut(*place) {
            *cell = *value;
        }
    }
    changed
}

/// Returns whether a take and then this datagram are answered with the record that is taken and then with this one,
/// if any, and whether that ends so.
fn are_answered(
    alloc: Global,
    second: [u8; 44],
    told: Option<[u8; 44]>,
    end: Answered,
) -> Result<bool, AllocError> {
    let mut input = TAKE.to_vec(alloc)?;
    input.extend_from_slice(&second)?;
    let mut want = TAKEN.to_vec(alloc)?;
    if let Some(told) = told {
        want.extend_from_slice(&told)?;
    }
    let mut written = Vec::new(alloc);
    let ended = answer(&mut input.as_slice(), &mut written);
    Ok(ended == end && written.as_slice() == want.as_slice())
}

#[test]
fn answers(rt: HostRuntime) -> Result<(), Fail> {
    let (alloc, end) = (rt.alloc(), Answered::Ended);
    let ran = with(TAKEN, &[(27, 1)]);
    let second = with(ran, &[(15, 2)]);
    let dropped = with(TAKEN, &[(10, 0), (13, 0), (23, 2)]);
    let found = [
        are_answered(alloc, TAKE, Some(TAKEN), end)?,
        are_answered(alloc, RUN, Some(ran), end)?,
        are_answered(alloc, with(RUN, &[(27, 2)]), Some(TAKEN), end)?,
        are_answered(
            alloc,
            with(RUN, &[(2, 2), (15, 4), (29, 2)]),
            Some(second),
            end,
        )?,
        are_answered(alloc, with(RUN, &[(15, 2)]), Some(second), end)?,
        are_answered(alloc, with(RUN, &[(2, 2)]), None, Answered::Refused(2, 5))?,
        are_answered(
            alloc,
            with(TAKE, &[(2, 2), (3, 1)]),
            None,
            Answered::Refused(2, 4),
        )?,
        are_answered(
            alloc,
            with(RUN, &[(3, 3), (15, 0), (27, 0), (29, 0)]),
            Some(dropped),
            end,
        )?,
        are_answered(alloc, with(TAKE, &[(16, 0x40)]), Some(TAKEN), end)?,
        are_answered(alloc, with(TAKE, &[(43, 1)]), None, Answered::Refused(2, 6))?,
    ];
    assert_eq!(rt; found, [true; 10]);
    Ok(())
}

/// Returns how these bytes end, and how many bytes are answered.
fn ended(alloc: Global, bytes: &[u8]) -> (Answered, usize) {
    let mut input = bytes;
    let mut written = Vec::new(alloc);
    let end = answer(&mut input, &mut written);
    (end, written.len())
}

/// Changes to a take of which the first alone is refused so, and then an earlier test too.
const CHANGES: [([(usize, u8); 2], u16); 9] = [
    ([(9, 2), (9, 2)], 9),
    ([(10, 2), (10, 2)], 9),
    ([(7, 2), (9, 2)], 8),
    ([(31, 1), (7, 2)], 7),
    ([(43, 1), (31, 1)], 6),
    ([(7, 0), (43, 1)], 5),
    ([(3, 9), (7, 0)], 4),
    ([(2, 3), (3, 9)], 3),
    ([(1, 0), (2, 3)], 2),
];

#[test]
fn first_test_that_fails(rt: HostRuntime) {
    for (changes, refusal) in CHANGES {
        assert_eq!(rt;
            ended(rt.alloc(), &with(TAKE, &changes)),
            (Answered::Refused(1, refusal), 0),
            "{changes:?}"
        );
    }
}

/// Records and what is about objects: kinds 5 to 8 that are datagrams of this tree and station.
#[test]
fn kinds_that_no_keeper_answers(rt: HostRuntime) {
    let alloc = rt.alloc();
    let watch = with(TAKE, &[(3, 6), (10, 0), (13, 0), (35, 1)]);
    let ends = [
        ended(alloc, &with(TAKEN, &[(5, 2), (7, 1)])),
        ended(alloc, &watch),
        ended(alloc, &with(watch, &[(3, 8)])),
        ended(alloc, &with(watch, &[(3, 7), (15, 1), (39, 1)])),
    ];
    assert_eq!(rt; ends, [(Answered::Refused(1, 9), 0); 4]);
}

#[test]
fn parts_of_a_datagram(rt: HostRuntime) {
    assert_eq!(rt; ended(rt.alloc(), &[]), (Answered::Ended, 0));
    for length in 1..44 {
        assert_eq!(rt;
            ended(rt.alloc(), &TAKE[..length]),
            (Answered::Refused(1, 1), 0),
            "{length}"
        );
    }
}

/// How much is read, whether the reader then fails, the writer's room and flush, and the end.
const FAULTS: [(usize, bool, usize, bool, Answered); 9] = [
    (44, false, 44, true, Answered::Ended),
    (88, false, 44, true, Answered::Refused(2, 6)),
    (44, true, 44, true, Answered::ReadFault),
    (60, true, 44, true, Answered::ReadFault),
    (44, false, 43, true, Answered::WriteFault),
    (44, false, 0, true, Answered::WriteFault),
    (44, false, 44, false, Answered::WriteFault),
    (88, false, 44, false, Answered::WriteFault),
    (60, true, 44, false, Answered::ReadFault),
];

/// Returns how a reader of these bytes ends that may fail then, before a writer with so much room; and whether that
/// has the front of what was taken.
fn faulty(
    alloc: Global,
    bytes: &[u8],
    fails: bool,
    room: usize,
    flushes: bool,
) -> (Answered, bool) {
    let mut reader = Trickle {
        bytes,
        most: 5,
        is_interrupted: true,
        fails,
    };
    let mut writer = Narrow {
        written: Vec::new(alloc),
        room,
        flushes,
    };
    let end = answer(&mut reader, &mut writer);
    let is_front = writer.written.as_slice() == &TAKEN[..min(room, TAKEN.len())];
    (end, is_front)
}

/// Returns a take, and one with a byte that has to be zero and is not.
fn take_and_refused() -> [u8; 88] {
    let mut bytes = [0; 88];
    bytes[..44].copy_from_slice(&TAKE);
    bytes[44..].copy_from_slice(&with(TAKE, &[(43, 1)]));
    bytes
}

#[test]
fn faults_in_mid_stream(rt: HostRuntime) {
    let bytes = take_and_refused();
    for (length, fails, room, flushes, end) in FAULTS {
        assert_eq!(rt;
            faulty(rt.alloc(), &bytes[..min(length, 88)], fails, room, flushes),
            (end, true),
            "{length} {fails} {room} {flushes}"
        );
    }
}

/// A reader that has nothing yet, and never will.
#[derive(Drop)]
struct NeverReady;

impl Read for NeverReady {
    fn read(&mut self, _buf: &mut [u8]) -> io::Result<usize> {
        Err(ErrorKind::WouldBlock.into())
    }
}

#[test]
fn a_reader_that_would_block_fails(rt: HostRuntime) {
    let end = answer(&mut NeverReady, &mut Vec::new(rt.alloc()));
    assert_eq!(rt; end, Answered::ReadFault);
}

/// Returns the exit status of a check of a text before a writer with so much room, and whether it tells this and this
/// fault.
fn checked(alloc: Global, text: &str, room: usize, told: &str, fault: &str) -> (u8, bool) {
    let mut writer = Narrow {
        written: Vec::new(alloc),
        room,
        flushes: true,
    };
    let mut faults = Vec::new(alloc);
    let code = check(alloc, text.as_bytes(), &mut writer, &mut faults);
    let is_told = writer.written.as_slice() == told.as_bytes();
    (code, is_told && faults.as_slice() == fault.as_bytes())
}

const SMALL: &str = "tree 7\nstate S\naction A\nstation W 1.2.3.4:5\noperator O W\nunitclass U S\n";

const WHOLE: &str =
    "tree 7\nstate S\naction A\nstation W 1.2.3.4:5\noperator O W\nunitclass U S\ndomain D W U -\n";

const COUNTS: &str = "tree 7 stations 1 operators 1 domains 1 devices 0\n";

#[test]
fn checks(rt: HostRuntime) {
    let alloc = rt.alloc();
    let found = [
        checked(alloc, WHOLE, 100, COUNTS, ""),
        checked(alloc, SMALL, 100, "", "tree line 0 fault 12\n"),
        checked(alloc, "state S\n", 100, "", "tree line 1 fault 7\n"),
        checked(alloc, WHOLE, 10, "tree 7 sta", "write fault\n"),
    ];
    assert_eq!(rt; found, [(0, true), (1, true), (1, true), (3, true)]);
}

/// A domain that operator 2 took.
const TAKEN_ROW: [u8; 24] = [
    2, 1, 0, 2, 0, 0, 0, 0, 0, 0, 0, 1, 0, 0, 0, 0, 0, 0, 0, 0, 0, 0, 0, 0,
];

/// Returns a store with three rows.
fn three_rows(alloc: Global) -> Result<MemoryStable, StoreFault> {
    let mut stable = MemoryStable::new(alloc);
    stable.save(key(2, 0, 2), &[3, 0, 0, 0xAF])?;
    stable.save(key(1, 1, 0), &TAKEN_ROW)?;
    stable.save(key(1, 0, 0), &[2, 0, 0, 0, 0, 0, 0, 2])?;
    Ok(stable)
}

/// Returns how a store is listed before a writer with so much room, and whether this is written.
fn listed(
    alloc: Global,
    stable: &mut MemoryStable,
    room: usize,
    flushes: bool,
    text: &str,
) -> (Listed, bool) {
    let mut writer = Narrow {
        written: Vec::new(alloc),
        room,
        flushes,
    };
    let listed = rows(stable, &mut writer);
    (listed, writer.written.as_slice() == text.as_bytes())
}

const LISTING: &str =
    "1 0 0 0200000000000002\n1 1 0 020100020000000000000001000000000000000000000000\n2 0 2 030000af\n";

#[test]
fn lists_rows(rt: HostRuntime) -> Result<(), Fail> {
    let alloc = rt.alloc();
    let mut stable = three_rows(alloc)?;
    let found = [
        listed(alloc, &mut stable, 200, true, LISTING),
        listed(alloc, &mut stable, 9, true, "1 0 0 020"),
        listed(alloc, &mut stable, 200, false, LISTING),
    ];
    drop(stable);
    let wanted = [
        (Listed::Done, true),
        (Listed::WriteFault, true),
        (Listed::WriteFault, true),
    ];
    assert!(rt; found == wanted);
    Ok(())
}
