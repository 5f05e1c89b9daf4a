//! What is at the place of a store's label, and what it says to a station that opens the store.

ghost use Rattle.std.specs.Prelude.{◌≡◌, MatchOption};
ghost use Rattle.smi_disks.specs.LabelFound as spec;

use crate::label::StoreLabel;
use crate::mark::{Kinship, TreeMark, compare};

/// What is at the place of a label.
#[derive(Clone, Copy, PartialEq, Eq)]
pub enum LabelFound {
    /// No file.
    Nothing,
    Label(StoreLabel),
    /// A file that is no label.
    Foreign,
}

impl LabelFound {
    ghost use Rattle.std.specs.Prelude.{◌≡◌, MatchOption};
    ghost use Rattle.smi_disks.specs.LabelFound.{IsReadAs, kinship_by, noted_by, tree_by};

    /// Returns what is at the place of a label, by the bytes of the file there, if there is one.
    pub(crate) fn of(bytes: Option<Vec<u8>>) -> LabelFound
        ensures { MatchOption bytes (result ≡ LabelFound.Nothing) (λ found. IsReadAs result found.items) }
    {
        match bytes {
            None => LabelFound::Nothing,
            Some(bytes) => match StoreLabel::of(bytes.as_slice()) {
                Some(label) => LabelFound::Label(label),
                None => LabelFound::Foreign,
            },
        }
    }

    /// Returns how a tree compares with the one that the store was made for. Without a label it counts as the same.
    /// A file that is no label counts as one of another tree, so that no station starts on a store which it may be of.
    pub fn kinship(&self, own: &TreeMark) -> Kinship
        ensures { result ≡ kinship_by self.now own.now }
    {
        match self {
            LabelFound::Nothing => Kinship::Same,
            LabelFound::Label(label) => compare(own, &label.tree),
            LabelFound::Foreign => Kinship::Other,
        }
    }

    /// Returns the tree that the next label is to name: the one that this label names, or else that of the station.
    pub fn tree(&self, own: &TreeMark) -> TreeMark
        ensures { result ≡ tree_by self.now own.now }
    {
        match self {
            LabelFound::Label(label) => label.tree,
            LabelFound::Nothing | LabelFound::Foreign => *own,
        }
    }

    /// Returns the boot that the label notes of a station, if any.
    pub fn noted(&self, station: u16) -> Option<u32>
        ensures { result ≡ noted_by self.now station }
    {
        match self {
            LabelFound::Label(label) => label.noted(station),
            LabelFound::Nothing | LabelFound::Foreign => None,
        }
    }
}
