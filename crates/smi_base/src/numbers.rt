//! How far a station counts, and what one step of it does at most.

/// The last boot that a station can have.
pub const LAST_BOOT: u32 = 4_000_000_000;

/// The last sequence of an object, after which its station stops until it is started again.
pub const LAST_SEQUENCE: u32 = 4_000_000_000;

/// How many links of one operator may be other than out at a time.
pub const MOST_LINKS: usize = 16;

/// How many datagrams one step sends at most.
pub const MOST_SENT: usize = 64;
