//! The mark of a tree: its number, and a digest of what its file says. The label of a store begins with it, so that a
//! station is not started on a store of another tree.

ghost use Rattle.std.specs.Prelude.{◌≡◌};
ghost use Rattle.smi_disks.specs.Mark.{kin};

/// How many bytes a mark has: two for the number of the tree, and 32 for the digest.
pub const MARK_BYTES: usize = 34;

/// The number of a tree, and the digest of what its file says (`speaking.rt`).
#[derive(Clone, Copy, PartialEq, Eq)]
pub struct TreeMark {
    pub number: u16,
    pub digest: [u8; 32],
}

/// How a tree compares with the one that a store was made for.
#[derive(Clone, Copy, PartialEq, Eq)]
pub enum Kinship {
    /// It is the same, word for word.
    Same,
    /// It has the same number, and its file says something else.
    Changed,
    /// It has another number.
    Other,
}

impl TreeMark {
    ghost use Rattle.std.specs.Prelude.{◌≡◌, ◌≢◌, length, IfSome, None};
    ghost use Rattle.smi_disks.specs.Mark.{mark_bytes};

    /// Returns the bytes of the mark (docs/FORMATS.md, "The label of a store").
    pub fn bytes(&self) -> [u8; MARK_BYTES]
        ensures { result ≡ mark_bytes self.now }
    {
        let mut bytes = [0; MARK_BYTES];
        bytes[..2].copy_from_slice(&self.number.to_be_bytes());
        bytes[2..].copy_from_slice(&self.digest);
        bytes
    }

    /// Returns the mark of these bytes, or None if they are not [`MARK_BYTES`].
    pub fn of(bytes: &[u8]) -> Option<TreeMark>
        ensures found { IfSome result (λ mark. bytes.now ≡ mark_bytes mark) }
        ensures none { result ≡ None → length bytes.now ≢ MARK_BYTES }
    {
        if bytes.len() != MARK_BYTES {
            return None;
        }
        let (number, rest) = bytes.split_at(2);
        let mut digest = [0; 32];
        digest.copy_from_slice(rest);
        Some(TreeMark {
            number: u16::from_be_bytes([number[0], number[1]]),
            digest,
        })
    }
}

/// Returns how the tree of one mark compares with that of another.
pub fn compare(own: &TreeMark, other: &TreeMark) -> Kinship
    ensures { result ≡ kin own.now other.now }
{
    if own.number != other.number {
        Kinship::Other
    } else if own.digest != other.digest {
        Kinship::Changed
    } else {
        Kinship::Same
    }
}
