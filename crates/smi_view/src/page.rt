//! What contracts see of the two copies of a board. No value of these is made.

use smi_grant::Shown;

/// The history that the rows of a copy belong to.
pub struct HistoryId {
    pub number: u64,
    pub log: u64,
    pub cells: u64,
}

/// The map of a copy, the rows that it stands for, and the history that these begin.
pub struct CopyMeaning {
    pub entries: [(u16, Shown); 0],
    pub rows: [Shown; 0],
    pub name: HistoryId,
}
