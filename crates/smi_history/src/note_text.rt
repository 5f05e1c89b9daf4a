//! The text of a note, which takes no more memory than its bytes: a `Vec` of just its length that never grows. A
//! history may keep a million of them.

ghost use Rattle.std.specs.Prelude.{◌≡◌, IfOk};

use std::alloc::{AllocError, Global};
use std::marker::Model;

/// The text of a note. It never grows, because a history may keep a million of them.
///
/// Contracts see its bytes.
#[derive(Drop)]
pub struct NoteText {
    bytes: Vec<u8>,
}

impl Model for NoteText {
    ghost use Rattle.std.specs.Prelude.{ℕ, List};

    ghost Value = { List ℕ };

    ghost view = { λ t. t.bytes.items };
}

impl NoteText {
    ghost use Rattle.std.specs.Prelude.{◌≡◌, IfOk};

    /// Copies a text into memory of just its length.
    ///
    /// Fails only if memory is refused (tested, not proved).
    pub(crate) fn copy_of(alloc: Global, text: &[u8]) -> Result<NoteText, AllocError>
        ensures { IfOk result (λ copy. copy ≡ text.now) }
    {
        let bytes = Vec::from_slice(alloc, text)?;
        Ok(NoteText { bytes })
    }

    /// Returns its bytes.
    pub fn as_slice(&self) -> &[u8]
        ensures { result.now ≡ self.now }
    {
        self.bytes.as_slice()
    }
}
