//! What was seen of one object, and heard of one domain.

use smi_grant::{Record, Shown};

/// The newest state of an object, and when it was shown.
#[derive(Clone, Copy, PartialEq, Eq)]
pub struct Sight {
    pub shown: Shown,
    /// In milliseconds.
    pub at: u64,
}

/// The furthest record of a domain, when it was told first, and when the domain was last heard of.
#[derive(Clone, Copy, PartialEq, Eq)]
pub struct Hearing {
    pub record: Record,
    /// In milliseconds.
    pub since: u64,
    /// In milliseconds.
    pub heard: u64,
}
