//! Rows, over the tree `PAIR`.

use smi_rows::{Key, SavedRow};

/// Returns the key of a row: of a boot the station alone, of a domain and of an operator its number too.
pub const fn key(station: u16, domain: u16, operator: u16) -> Key {
    Key {
        station,
        domain,
        operator,
    }
}

/// The boot 2 of a station.
pub const BOOT: &[u8] = &[2, 0, 0, 0, 0, 0, 0, 2];

/// BOB holds DCS at epoch 1.
pub const TAKEN: &[u8] = &[
    2, 1, 0, 2, 0, 0, 0, 0, 0, 0, 0, 1, 0, 0, 0, 0, 0, 0, 0, 0, 0, 0, 0, 0,
];

/// ANN holds DCS at epoch 1; its command 2 is at work, and CONFIGURE is pending at TPC as command 1.
pub const WORKING: &[u8] = &[
    2, 1, 0, 1, 0, 0, 0, 0, 0, 0, 0, 1, 0, 0, 0, 2, 1, 0, 0, 0, 0, 0, 0, 1, // the domain
    0, 2, 3, 0, 0, 0, 0, 0, 0, 0, 0, 1, 0, 0, 0, 1, 0, 1, 0, 1,
];

/// BOB holds TPC at epoch 1, and no command is issued.
pub const HELD: &[u8] = &[
    3, 0, 0, 1, 0, 2, 2, 0, 0, 0, 0, 0, 0, 0, 0, 1, 0, 0, 0, 0, 0, 0, 0, 0,
];

/// BOB holds TPC at epoch 1, and CONFIGURE is pending.
pub const OLDEST: &[u8] = &[
    3, 0, 0, 1, 0, 2, 3, 0, 0, 0, 0, 0, 0, 0, 0, 1, 0, 0, 0, 1, 0, 1, 0, 1,
];

/// BOB holds TPC at epoch 1, and CONFIGURE and START are pending.
pub const PENDING: &[u8] = &[
    3, 0, 0, 1, 0, 2, 5, 0, 0, 0, 0, 0, 0, 0, 0, 1, 0, 0, 0, 2, 0, 1, 0, 1, 0, 1, 0, 1, 0, 2,
];

/// Returns true if two lists have the same rows in the same order, byte for byte.
pub fn are_same(some: &[SavedRow], others: &[SavedRow]) -> bool {
    some.len() == others.len()
        && some.iter().zip(others.iter()).all(|(a, b)| a.key == b.key
            && a.bytes.as_slice() == b.bytes.as_slice())
}
