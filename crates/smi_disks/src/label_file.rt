//! Reads and writes the file `STORE-tree`, which has the label of a store.

use crate::file::{beside, bytes_of};
use crate::label::{LABEL_BYTES, LastStart, spell_label};
use crate::label_found::LabelFound;
use crate::mark::TreeMark;
use crate::side_file::SideFile;
use std::alloc::{AllocError, Global};
use std::io;
use std::rt::Files;

/// What follows the path of a store in that of its label.
const LABEL: &str = "-tree";

/// Where the label of a store is written, with room for its bytes: a start is noted without memory, since its boot row
/// is saved by then.
#[derive(Drop)]
pub(crate) struct LabelFile {
    pub(crate) file: SideFile,
    pub(crate) bytes: Vec<u8>,
}

impl LabelFile {
    ghost use Rattle.std.specs.Prelude.{◌≡◌, ◌++◌, IfOk, OnOk, codes, string_bytes};
    ghost use Rattle.smi_disks.specs.Label.{with_start};

    /// Returns where the label of a store is written.
    pub(crate) fn of(alloc: Global, store: &str) -> Result<LabelFile, AllocError>
        ensures { IfOk result (λ label. string_bytes label.file.finished ≡ store.now ++ codes "-tree") }
    {
        Ok(LabelFile {
            file: SideFile::of(alloc, store, LABEL)?,
            bytes: Vec::with_capacity(alloc, LABEL_BYTES)?,
        })
    }

    /// Puts a label beside a store: whole, or not at all. Its bytes are kept here.
    pub(crate) fn put<H: Files>(
        &mut self,
        host: &H,
        store: &str,
        tree: &TreeMark,
        last: LastStart,
    ) -> io::Result<()>
        ensures { OnOk result (self.new.bytes.items ≡ with_start tree.now last) }
    {
        spell_label(&mut self.bytes, tree, last)?;
        self.file.put(host, store, self.bytes.as_slice())
    }
}

/// Returns what is at the place of a store's label. Its error is that a file there could not be read.
pub(crate) fn label_beside<H: Files + AllocGlobal>(
    host: &H,
    store: &[u8],
) -> io::Result<LabelFound> {
    let path = beside(host.alloc(), store, LABEL.as_bytes())?;
    Ok(LabelFound::of(bytes_of(host, path.as_slice())?))
}
