//! The label of a store: which tree it was made for, and the last start on it.
//!
//! A label lies in the file `STORE-tree` (`label_file.rt`). A start reads it before it opens the store, and refuses a
//! store of another tree, or one whose rows are older than the label (docs/FORMATS.md, "The label of a store").

ghost use Rattle.std.specs.Prelude.{◌≡◌, OnOk};
ghost use Rattle.smi_disks.specs.Label as spec;

use crate::mark::{MARK_BYTES, TreeMark};
use std::alloc::AllocError;

/// How many bytes say which start was the last one: two for the station, four for its boot.
const START_BYTES: usize = 6;

/// How many bytes a label has that names the last start. One that names none has those of a mark.
pub const LABEL_BYTES: usize = MARK_BYTES + START_BYTES;

/// The last start on a store: its station, and the boot that this gave it.
#[derive(Clone, Copy, PartialEq, Eq)]
pub struct LastStart {
    pub station: u16,
    /// How often the station had been started by then, with this start.
    pub boot: u32,
}

/// The tree that a store was made for, and the last start on it. An older program wrote labels without a start.
#[derive(Clone, Copy, PartialEq, Eq)]
pub struct StoreLabel {
    pub tree: TreeMark,
    pub last: Option<LastStart>,
}

/// How old the rows of a store are by its label.
#[derive(Clone, Copy, PartialEq, Eq)]
pub enum StoreAge {
    /// They are of the start that the label names, or of a later one, or it names none of their station.
    Current,
    /// The label names a start of their station, which has no boot row.
    Empty,
    /// They are of a start before the one that the label names.
    Older,
}

impl LastStart {
    ghost use Rattle.std.specs.Prelude.{◌≡◌};
    ghost use Rattle.smi_disks.specs.Label.{start_bytes};

    /// Returns the bytes of a start: its station, and its boot.
    fn bytes(self) -> [u8; START_BYTES]
        ensures { result ≡ start_bytes self }
    {
        let mut bytes = [0; START_BYTES];
        bytes[..2].copy_from_slice(&self.station.to_be_bytes());
        bytes[2..].copy_from_slice(&self.boot.to_be_bytes());
        bytes
    }

    /// Returns the start that has these bytes.
    fn of(bytes: [u8; START_BYTES]) -> LastStart
        ensures { bytes ≡ start_bytes result }
    {
        let (station, boot) = bytes.split_at(2);
        LastStart {
            station: u16::from_be_bytes([station[0], station[1]]),
            boot: u32::from_be_bytes([boot[0], boot[1], boot[2], boot[3]]),
        }
    }
}

/// Puts the bytes of a label that names the last start into a text, in place of what was there (docs/FORMATS.md, "The
/// label of a store").
///
/// Its error is that memory was refused.
pub fn spell_label(text: &mut Vec<u8>, tree: &TreeMark, last: LastStart) -> Result<(), AllocError>
    ensures { OnOk result (text.new.items ≡ spec.with_start tree.now last) }
{
    text.clear();
    text.extend_from_slice(&tree.bytes())?;
    text.extend_from_slice(&last.bytes())
}

/// Returns how old rows are by a label: by the boot that it notes of their station and the one that their boot row has,
/// if any.
pub fn age(noted: Option<u32>, stored: Option<u32>) -> StoreAge
    ensures { result ≡ spec.age noted stored }
{
    match (noted, stored) {
        (None, _) => StoreAge::Current,
        (Some(_), None) => StoreAge::Empty,
        (Some(noted), Some(stored)) if stored < noted => StoreAge::Older,
        (Some(_), Some(_)) => StoreAge::Current,
    }
}

impl StoreLabel {
    ghost use Rattle.std.specs.Prelude.{◌≡◌, ◌≢◌, length, IfSome, None};
    ghost use Rattle.smi_disks.specs.Label.{noted, spelled};

    /// Returns the label of these bytes, or None if no label has as many.
    pub fn of(bytes: &[u8]) -> Option<StoreLabel>
        ensures found { IfSome result (λ label. bytes.now ≡ spelled label) }
        ensures none { result ≡ None → (length bytes.now ≢ MARK_BYTES) × (length bytes.now ≢ LABEL_BYTES) }
    {
        if bytes.len() != LABEL_BYTES {
            let tree = TreeMark::of(bytes)?;
            return Some(StoreLabel { tree, last: None });
        }
        let (tree, start) = bytes.split_at(MARK_BYTES);
        let tree = TreeMark::of(tree)?;
        let mut last = [0; START_BYTES];
        last.copy_from_slice(start);
        Some(StoreLabel {
            tree,
            last: Some(LastStart::of(last)),
        })
    }

    /// Returns the boot that it notes of a station, or None if it notes a start of another one, or none.
    pub fn noted(&self, station: u16) -> Option<u32>
        ensures { result ≡ noted self.now station }
    {
        match self.last {
            Some(start) if start.station == station => Some(start.boot),
            _ => None,
        }
    }
}
