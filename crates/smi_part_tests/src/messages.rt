use smi_grant::{Command, Holder, LAST_EPOCH, Phase, Record, Version};
use smi_message::{Bad, Body, Datagram, DatagramRefusal, decode, encode};

/// Operator 2 takes domain 1, which it last saw free at epoch 0: station 2 asks station 1 of tree 17.
const TAKE: [u8; 44] = [
    0x53, 0x4D, 1, 2, 0, 2, 0, 1, 0, 1, 1, 0, 0, 2, 0, 0, 0, 0, 0, 0, 0, 0, 0, 0, 0, 0, 0, 0, 0, 0,
    0, 0x11, 0, 0, 0, 0, 0, 0, 0, 0, 0, 0, 0, 0,
];

/// Command 66,051 of operator 2 on domain 1 has ended with 9, under the grant of epoch 3.
const TELL: [u8; 44] = [
    0x53, 0x4D, 0x01, 0x05, 0x00, 0x02, 0x00, 0x01, 0x00, 0x01, 0x01, 0x00, 0x00, 0x02, 0x00, 0x09,
    0x00, 0x00, 0x00, 0x00, 0x00, 0x00, 0x00, 0x03, 0x00, 0x01, 0x02, 0x03, 0x00, 0x00, 0x00, 0x11,
    0x00, 0x00, 0x00, 0x00, 0x00, 0x00, 0x00, 0x00, 0x00, 0x00, 0x00, 0x00,
];

#[test]
fn each_kind_has_its_bytes(rt: HostRuntime) {
    let told = Record {
        epoch: 3,
        holder: Holder::Operator(2),
        last: 0x01_02_03,
        phase: Phase::Settled,
        outcome: 9,
    };
    let table = [
        (
            Body::Ask(128),
            [
                0x53, 0x4D, 0x01, 0x01, 0x00, 0x02, 0x00, 0x01, 0x00, 0x80, 0x00, 0x00, 0x00, 0x00,
                0x00, 0x00, 0x00, 0x00, 0x00, 0x00, 0x00, 0x00, 0x00, 0x00, 0x00, 0x00, 0x00, 0x00,
                0x00, 0x00, 0x00, 0x11, 0x00, 0x00, 0x00, 0x00, 0x00, 0x00, 0x00, 0x00, 0x00, 0x00,
                0x00, 0x00,
            ],
        ),
        (
            Body::Take {
                domain: 1,
                holder: Holder::Operator(2),
                seen: 0,
            },
            [
                0x53, 0x4D, 0x01, 0x02, 0x00, 0x02, 0x00, 0x01, 0x00, 0x01, 0x01, 0x00, 0x00, 0x02,
                0x00, 0x00, 0x00, 0x00, 0x00, 0x00, 0x00, 0x00, 0x00, 0x00, 0x00, 0x00, 0x00, 0x00,
                0x00, 0x00, 0x00, 0x11, 0x00, 0x00, 0x00, 0x00, 0x00, 0x00, 0x00, 0x00, 0x00, 0x00,
                0x00, 0x00,
            ],
        ),
        (
            Body::Drop {
                domain: 1,
                holder: Holder::Domain(128),
                epoch: LAST_EPOCH - 1,
            },
            [
                0x53, 0x4D, 0x01, 0x03, 0x00, 0x02, 0x00, 0x01, 0x00, 0x01, 0x02, 0x00, 0x00, 0x80,
                0x00, 0x00, 0x3F, 0xFF, 0xFF, 0xFF, 0xFF, 0xFF, 0xFF, 0xFF, 0x00, 0x00, 0x00, 0x00,
                0x00, 0x00, 0x00, 0x11, 0x00, 0x00, 0x00, 0x00, 0x00, 0x00, 0x00, 0x00, 0x00, 0x00,
                0x00, 0x00,
            ],
        ),
        (
            Body::Run {
                domain: 1,
                holder: Holder::Operator(2),
                epoch: 1,
                number: 1,
                command: Command::Do(64),
            },
            [
                0x53, 0x4D, 0x01, 0x04, 0x00, 0x02, 0x00, 0x01, 0x00, 0x01, 0x01, 0x00, 0x00, 0x02,
                0x00, 0x01, 0x00, 0x00, 0x00, 0x00, 0x00, 0x00, 0x00, 0x01, 0x00, 0x00, 0x00, 0x01,
                0x00, 0x40, 0x00, 0x11, 0x00, 0x00, 0x00, 0x00, 0x00, 0x00, 0x00, 0x00, 0x00, 0x00,
                0x00, 0x00,
            ],
        ),
        (
            Body::Run {
                domain: 1,
                holder: Holder::Operator(2),
                epoch: 1,
                number: 1_000_000,
                command: Command::Ignore(128),
            },
            [
                0x53, 0x4D, 0x02, 0x04, 0x00, 0x02, 0x00, 0x01, 0x00, 0x01, 0x01, 0x00, 0x00, 0x02,
                0x00, 0x05, 0x00, 0x00, 0x00, 0x00, 0x00, 0x00, 0x00, 0x01, 0x00, 0x0F, 0x42, 0x40,
                0x00, 0x80, 0x00, 0x11, 0x00, 0x00, 0x00, 0x00, 0x00, 0x00, 0x00, 0x00, 0x00, 0x00,
                0x00, 0x00,
            ],
        ),
        (Body::Tell { domain: 1, told }, TELL),
        (
            Body::Watch {
                object: 640,
                boot: 4_000_000_000,
            },
            [
                0x53, 0x4D, 0x01, 0x06, 0x00, 0x02, 0x00, 0x01, 0x02, 0x80, 0x00, 0x00, 0x00, 0x00,
                0x00, 0x00, 0x00, 0x00, 0x00, 0x00, 0x00, 0x00, 0x00, 0x00, 0x00, 0x00, 0x00, 0x00,
                0x00, 0x00, 0x00, 0x11, 0xEE, 0x6B, 0x28, 0x00, 0x00, 0x00, 0x00, 0x00, 0x00, 0x00,
                0x00, 0x00,
            ],
        ),
        (
            Body::State {
                object: 3,
                boot: 7,
                version: Version {
                    boot: 8,
                    sequence: 0,
                },
                state: 64,
            },
            [
                0x53, 0x4D, 0x01, 0x07, 0x00, 0x02, 0x00, 0x01, 0x00, 0x03, 0x00, 0x00, 0x00, 0x00,
                0x00, 0x40, 0x00, 0x00, 0x00, 0x00, 0x00, 0x00, 0x00, 0x00, 0x00, 0x00, 0x00, 0x00,
                0x00, 0x00, 0x00, 0x11, 0x00, 0x00, 0x00, 0x07, 0x00, 0x00, 0x00, 0x08, 0x00, 0x00,
                0x00, 0x00,
            ],
        ),
        (
            Body::Unwatch { object: 3, boot: 1 },
            [
                0x53, 0x4D, 0x01, 0x08, 0x00, 0x02, 0x00, 0x01, 0x00, 0x03, 0x00, 0x00, 0x00, 0x00,
                0x00, 0x00, 0x00, 0x00, 0x00, 0x00, 0x00, 0x00, 0x00, 0x00, 0x00, 0x00, 0x00, 0x00,
                0x00, 0x00, 0x00, 0x11, 0x00, 0x00, 0x00, 0x01, 0x00, 0x00, 0x00, 0x00, 0x00, 0x00,
                0x00, 0x00,
            ],
        ),
    ];
    for (body, bytes) in table {
        assert_eq!(rt; decode(&bytes).map(|d| encode(&d)), Ok(bytes));
        assert_eq!(rt;
            decode(&bytes).map(|d| (d.from, d.to, d.tree, d.body)),
            Ok((2, 1, 17, body))
        );
    }
    assert_eq!(rt; encode(&Datagram::tell(2, 1, 17, 1, told)), TELL);
}

/// Returns what the layout says of a take with another value at one place: 0 if it is one too.
fn refusal_at(place: usize, value: u8) -> u16 {
    match (place, value) {
        (0 | 1, _) => 2,
        (2, 2) => 4,
        (2, _) => 3,
        // Asking uses no holder.
        (3, 1) => 6,
        // Drops and commands are of odd epochs, nobody holds an even one, boots begin with 1.
        (3, 3..=8) => 5,
        (3, _) => 4,
        // The first bytes of station, domain and holder.
        (4 | 6 | 8 | 12, _) => 5,
        // Stations and the domain are 1 to 128.
        (5 | 7 | 9, 1..=128) => 0,
        (5 | 7 | 9, _) => 5,
        // Domain 2 may take a domain as well.
        (10, 2) => 0,
        (10, _) => 5,
        (13, 1..=32) => 0,
        (13, _) => 5,
        // The last epoch is 2^62.
        (16, 0..=0x40) => 0,
        (16, _) => 5,
        (17..=23, _) => 0,
        (30, _) => 0,
        (31, 0) => 5,
        (31, _) => 0,
        _ => 6,
    }
}

#[test]
fn each_other_byte(rt: HostRuntime) {
    for (place, original) in TAKE.iter().enumerate() {
        for value in 0..=255u8 {
            if value == *original {
                continue;
            }
            let mut bytes = TAKE;
            bytes[place] = value;
            let code = match decode(&bytes) {
                Ok(datagram) => {
                    assert_eq!(rt; encode(&datagram), bytes);
                    0
                }
                Err(bad) => bad.code(),
            };
            assert_eq!(rt; code, refusal_at(place, value), "{value} at {place}");
        }
    }
}

#[test]
fn each_other_length(rt: HostRuntime) {
    for length in 0..44 {
        assert_eq!(rt; decode(&TAKE[..length]), Err(Bad::Length), "{length}");
    }
    let mut longer = [0; 45];
    longer[..44].copy_from_slice(&TAKE);
    assert_eq!(rt; decode(&longer), Err(Bad::Length));
}

#[test]
fn layouts_of_verbs(rt: HostRuntime) {
    // Layout, kind, verb and what is refused, of a command with argument 2.
    let table = [
        (1, 4, 3, 0),
        (1, 4, 4, 5),
        (1, 4, 0, 5),
        (2, 4, 3, 5),
        (2, 4, 4, 0),
        (2, 4, 5, 0),
        (2, 4, 6, 5),
        (2, 1, 4, 4),
        (2, 9, 4, 4),
        (3, 9, 4, 3),
        (0, 4, 4, 3),
    ];
    for (layout, kind, verb, refused) in table {
        let mut bytes = TAKE;
        (
            bytes[2], bytes[3], bytes[15], bytes[23], bytes[27], bytes[29],
        ) = (layout, kind, verb, 1, 1, 2);
        let code = decode(&bytes).map_or_else(Bad::code, |_| 0);
        assert_eq!(rt;
            code,
            refused,
            "verb {verb} of kind {kind} in layout {layout}"
        );
    }
}

#[test]
fn refusals_have_numbers(rt: HostRuntime) {
    let order = [
        Bad::Length,
        Bad::Magic,
        Bad::Layout,
        Bad::Kind,
        Bad::Range,
        Bad::Unused,
    ];
    for (place, bad) in order.iter().enumerate() {
        assert_eq!(rt; DatagramRefusal::Bad(*bad).code(), bad.code());
        assert_eq!(rt; usize::from(bad.code()), place + 1);
    }
    assert_eq!(rt;
        (
            DatagramRefusal::OtherTree.code(),
            DatagramRefusal::OtherStation.code(),
            DatagramRefusal::Unknown.code()
        ),
        (7, 8, 9)
    );
}
