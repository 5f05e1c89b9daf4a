//! Worked rows byte for byte: what stations send, and the rows that they save, as docs/EXAMPLES.md and docs/FORMATS.md
//! write them.

use crate::plays::{Expected, Play, PlayedInput};
use crate::tables;
use crate::tables::{A, B, BOB, Bytes, CONFIGURE, DCS, READY, START, TPC, Table};
use smi_message::encode;
use smi_protocol::Order;
use smi_rows::{Key, SavedRow};
use smi_station_output::Out;
use std::test::Fail;

// "A take": operator 2, at station 2, takes domain 1 of tree 17, which it last saw free at epoch 0.
pub(crate) const TAKE: Bytes = [
    0x53, 0x4D, 1, 2, 0, 2, 0, 1, 0, 1, 1, 0, 0, 2, 0, 0, // to whom, and who takes
    0, 0, 0, 0, 0, 0, 0, 0, 0, 0, 0, 0, 0, 0, 0, 0x11, 0, 0, 0, 0, 0, 0, 0, 0, 0, 0, 0, 0,
];

// Operator 2 holds the domain at epoch 1.
const TOLD: Bytes = [
    0x53, 0x4D, 1, 5, 0, 1, 0, 2, 0, 1, 1, 0, 0, 2, 0, 0, // to whom, and who holds
    0, 0, 0, 0, 0, 0, 0, 1, 0, 0, 0, 0, 0, 0, 0, 0x11, 0, 0, 0, 0, 0, 0, 0, 0, 0, 0, 0, 0,
];

// Command 1 of that grant: action 1.
const RUN: Bytes = [
    0x53, 0x4D, 1, 4, 0, 2, 0, 1, 0, 1, 1, 0, 0, 2, 0, 1, // to whom, by whom, and the verb
    0, 0, 0, 0, 0, 0, 0, 1, 0, 0, 0, 1, 0, 1, 0, 0x11, 0, 0, 0, 0, 0, 0, 0, 0, 0, 0, 0, 0,
];

// Command 1 has run, and has settled with 0.
const DONE: Bytes = [
    0x53, 0x4D, 1, 5, 0, 1, 0, 2, 0, 1, 1, 0, 0, 2, 0, 0, // to whom, and who holds
    0, 0, 0, 0, 0, 0, 0, 1, 0, 0, 0, 1, 0, 0, 0, 0x11, 0, 0, 0, 0, 0, 0, 0, 0, 0, 0, 0, 0,
];

// Command 2: domain 2 by hand. It is in layout 2.
const MANUAL: Bytes = [
    0x53, 0x4D, 2, 4, 0, 2, 0, 1, 0, 1, 1, 0, 0, 2, 0, 4, // to whom, by whom, and the verb
    0, 0, 0, 0, 0, 0, 0, 1, 0, 0, 0, 2, 0, 2, 0, 0x11, 0, 0, 0, 0, 0, 0, 0, 0, 0, 0, 0, 0,
];

// It has settled with 4: domain 2 is not held.
const NOT_HELD: Bytes = [
    0x53, 0x4D, 1, 5, 0, 1, 0, 2, 0, 1, 1, 0, 0, 2, 0, 4, // to whom, who holds, and the outcome
    0, 0, 0, 0, 0, 0, 0, 1, 0, 0, 0, 2, 0, 0, 0, 0x11, 0, 0, 0, 0, 0, 0, 0, 0, 0, 0, 0, 0,
];

// Station 1, in its first boot, watches object 2.
const WATCH: Bytes = [
    0x53, 0x4D, 1, 6, 0, 1, 0, 2, 0, 2, 0, 0, 0, 0, 0, 0, // to whom, and the object
    0, 0, 0, 0, 0, 0, 0, 0, 0, 0, 0, 0, 0, 0, 0, 0x11, 0, 0, 0, 1, 0, 0, 0, 0, 0, 0, 0, 0,
];

// Object 2 is in state 1 in version 1.0, and in state 2 in version 1.1.
const STATE_OFF: Bytes = [
    0x53, 0x4D, 1, 7, 0, 2, 0, 1, 0, 2, 0, 0, 0, 0, 0, 1, // to whom, the object and its state
    0, 0, 0, 0, 0, 0, 0, 0, 0, 0, 0, 0, 0, 0, 0, 0x11, 0, 0, 0, 1, 0, 0, 0, 1, 0, 0, 0, 0,
];

const STATE_READY: Bytes = [
    0x53, 0x4D, 1, 7, 0, 2, 0, 1, 0, 2, 0, 0, 0, 0, 0, 2, // to whom, the object and its state
    0, 0, 0, 0, 0, 0, 0, 0, 0, 0, 0, 0, 0, 0, 0, 0x11, 0, 0, 0, 1, 0, 0, 0, 1, 0, 0, 0, 1,
];

// The same of TPC: station 2 asks and tells itself; command 1 is action 1, command 2 action 2.
const TAKE_TPC: Bytes = [
    0x53, 0x4D, 1, 2, 0, 2, 0, 2, 0, 2, 1, 0, 0, 2, 0, 0, // to whom, and who takes
    0, 0, 0, 0, 0, 0, 0, 0, 0, 0, 0, 0, 0, 0, 0, 0x11, 0, 0, 0, 0, 0, 0, 0, 0, 0, 0, 0, 0,
];

const TOLD_TPC: Bytes = [
    0x53, 0x4D, 1, 5, 0, 2, 0, 2, 0, 2, 1, 0, 0, 2, 0, 0, // to whom, and who holds
    0, 0, 0, 0, 0, 0, 0, 1, 0, 0, 0, 0, 0, 0, 0, 0x11, 0, 0, 0, 0, 0, 0, 0, 0, 0, 0, 0, 0,
];

const RUN_TPC: Bytes = [
    0x53, 0x4D, 1, 4, 0, 2, 0, 2, 0, 2, 1, 0, 0, 2, 0, 1, // to whom, by whom, and the verb
    0, 0, 0, 0, 0, 0, 0, 1, 0, 0, 0, 1, 0, 1, 0, 0x11, 0, 0, 0, 0, 0, 0, 0, 0, 0, 0, 0, 0,
];

const START_TPC: Bytes = [
    0x53, 0x4D, 1, 4, 0, 2, 0, 2, 0, 2, 1, 0, 0, 2, 0, 1, // to whom, by whom, and the verb
    0, 0, 0, 0, 0, 0, 0, 1, 0, 0, 0, 2, 0, 2, 0, 0x11, 0, 0, 0, 0, 0, 0, 0, 0, 0, 0, 0, 0,
];

// BOB holds DCS at epoch 1; its command 1 has settled, and its command 2 with 4.
const ROW_TAKEN: &[u8] = &[
    2, 1, 0, 2, 0, 0, 0, 0, 0, 0, 0, 1, 0, 0, 0, 0, 0, 0, 0, 0, 0, 0, 0, 0,
];

const ROW_RUN: &[u8] = &[
    2, 1, 0, 2, 0, 0, 0, 0, 0, 0, 0, 1, 0, 0, 0, 1, 0, 0, 0, 0, 0, 0, 0, 0,
];

const ROW_NOT_HELD: &[u8] = &[
    2, 1, 0, 2, 0, 0, 0, 0, 0, 0, 0, 1, 0, 0, 0, 2, 0, 0, 0, 4, 0, 0, 0, 0,
];

// BOB takes TPC, which he last saw free at epoch 0; holds it at epoch 1; with CONFIGURE pending, and START too.
const ROW_TAKING: &[u8] = &[
    3, 0, 0, 1, 0, 2, 1, 0, 0, 0, 0, 0, 0, 0, 0, 0, 0, 0, 0, 0, 0, 0, 0, 0,
];

const ROW_HELD: &[u8] = &[
    3, 0, 0, 1, 0, 2, 2, 0, 0, 0, 0, 0, 0, 0, 0, 1, 0, 0, 0, 0, 0, 0, 0, 0,
];

const ROW_PENDING: &[u8] = &[
    3, 0, 0, 1, 0, 2, 3, 0, 0, 0, 0, 0, 0, 0, 0, 1, 0, 0, 0, 1, 0, 1, 0, 1,
];

const ROW_TWO: &[u8] = &[
    3, 0, 0, 1, 0, 2, 5, 0, 0, 0, 0, 0, 0, 0, 0, 1, 0, 0, 0, 2, 0, 1, 0, 1, 0, 1, 0, 1, 0, 2,
];

// The boot 1 of a station.
const ROW_BOOT: &[u8] = &[2, 0, 0, 0, 0, 0, 0, 1];

/// A row under its key.
pub(crate) type Saved = (Key, &'static [u8]);

const fn boot(station: u16) -> Saved {
    (
        Key {
            station,
            domain: 0,
            operator: 0,
        },
        ROW_BOOT,
    )
}

const fn row(station: u16, input: PlayedInput, sent: &'static [Bytes], saved: Saved) -> Play {
    Play {
        station,
        input,
        made: Expected::Bytes(sent, saved),
    }
}

const fn of_dcs(bytes: &'static [u8]) -> Saved {
    (
        Key {
            station: A,
            domain: DCS,
            operator: 0,
        },
        bytes,
    )
}

const fn of_bob(bytes: &'static [u8]) -> Saved {
    (
        Key {
            station: B,
            domain: 0,
            operator: BOB,
        },
        bytes,
    )
}

/// Has BOB take DCS, run an action there, and be told that TPC is not held; A watches the unit of TPC.
pub(crate) fn sent() -> [Play; 11] {
    let configure = Order::Do(DCS, CONFIGURE);
    let manual = Order::Manual(DCS, TPC);
    [
        row(
            B,
            PlayedInput::Order(BOB, Order::Take(DCS)),
            &[TAKE],
            boot(B),
        ),
        row(A, PlayedInput::Deliver(1), &[TOLD], of_dcs(ROW_TAKEN)),
        row(B, PlayedInput::Deliver(2), &[], boot(B)),
        row(B, PlayedInput::Order(BOB, configure), &[RUN], boot(B)),
        row(A, PlayedInput::Deliver(3), &[DONE], of_dcs(ROW_RUN)),
        row(B, PlayedInput::Deliver(4), &[], boot(B)),
        row(B, PlayedInput::Order(BOB, manual), &[MANUAL], boot(B)),
        row(
            A,
            PlayedInput::Deliver(5),
            &[NOT_HELD],
            of_dcs(ROW_NOT_HELD),
        ),
        row(A, PlayedInput::Tick, &[WATCH], boot(A)),
        row(B, PlayedInput::Deliver(7), &[STATE_OFF], boot(B)),
        row(B, PlayedInput::Report(1, READY), &[STATE_READY], boot(B)),
    ]
}

/// Has BOB take TPC, and order two commands there before he has heard of the first.
pub(crate) fn saved() -> [Play; 5] {
    let configure = Order::Do(TPC, CONFIGURE);
    let start = Order::Do(TPC, START);
    [
        row(
            B,
            PlayedInput::Order(BOB, Order::Take(TPC)),
            &[TAKE_TPC],
            of_bob(ROW_TAKING),
        ),
        row(B, PlayedInput::Deliver(1), &[TOLD_TPC], of_bob(ROW_TAKING)),
        row(B, PlayedInput::Deliver(2), &[], of_bob(ROW_HELD)),
        row(
            B,
            PlayedInput::Order(BOB, configure),
            &[RUN_TPC],
            of_bob(ROW_PENDING),
        ),
        row(
            B,
            PlayedInput::Order(BOB, start),
            &[START_TPC],
            of_bob(ROW_TWO),
        ),
    ]
}

/// Returns true if these are the bytes of what is sent.
pub(crate) fn are_sent(out: &Out, sent: &[Bytes]) -> bool {
    let datagrams = out.datagrams();
    datagrams.len() == sent.len()
        && datagrams
            .iter()
            .zip(sent)
            .all(|(datagram, bytes)| encode(datagram) == *bytes)
}

/// Returns true if a row is there.
pub(crate) fn is_saved(list: &[SavedRow], wanted: Saved) -> bool {
    list.iter().any(|row| row.key == wanted.0 && row.bytes.as_slice() == wanted.1)
}

#[test]
fn sent_and_saved_byte_for_byte(rt: HostRuntime) -> Result<(), Fail> {
    let good = [
        tables::count_of(rt.alloc(), Table::Sent),
        tables::count_of(rt.alloc(), Table::Saved),
    ];
    assert_eq!(rt; good, [11, 5]);
    Ok(())
}
