use smi_rows::StoredLink;
use std::alloc::{AllocError, Global};
use std::marker::Model;

/// The most bytes that a link takes in a row: one that is held, with eight commands.
const MOST_BYTES_OF_A_LINK: usize = 50;

/// The most bytes of a row beside its links.
const MOST_OTHER_BYTES: usize = 28;

/// The memory in which a row is made ready to be saved. Contracts see the row's bytes.
#[derive(Drop)]
pub struct RowBuffer {
    pub(crate) links: Vec<StoredLink>,
    pub(crate) bytes: Vec<u8>,
}

impl Model for RowBuffer {
    ghost use Rattle.std.specs.Prelude.{ℕ, List};

    ghost Value = { List ℕ };

    ghost view = { λ r. r.bytes.items };
}

impl RowBuffer {
    ghost use Rattle.std.specs.Prelude.{◌≡◌};

    /// Returns a buffer with no room at all; a row that is made ready in it takes memory.
    pub fn none(alloc: Global) -> RowBuffer {
        RowBuffer {
            links: Vec::new(alloc),
            bytes: Vec::new(alloc),
        }
    }

    /// Returns a buffer with room for any row of a tree of this many domains.
    ///
    /// It fails only if memory ran out, which tests alone see.
    pub fn new(alloc: Global, domains: u16) -> Result<RowBuffer, AllocError> {
        let domains = usize::from(domains);
        let links = Vec::with_capacity(alloc, domains)?;
        let bytes = Vec::with_capacity(alloc, MOST_OTHER_BYTES + domains * MOST_BYTES_OF_A_LINK)?;
        Ok(RowBuffer { links, bytes })
    }

    /// Returns the bytes of the row that was made ready.
    pub fn bytes(&self) -> &[u8]
        ensures { result.now ≡ self.now }
    {
        &self.bytes
    }
}
