//! An audit of journals, from their files to the verdict.

use crate::fronts::{AuditFault, Fronts};
use crate::head::DIGEST_BYTES;
use crate::journal_file::{JournalFile, JournalSource};
use crate::night::{Night, TraceOutput};
use crate::verdict::{VerdictWords, write_verdict};
use smi_tree::Tree;
use std::alloc::Global;
use std::io::Write;

/// How an audit ended.
#[derive(Clone, Copy, PartialEq, Eq)]
pub enum AuditEnd {
    /// All entries merged into a safe trace.
    Safe,
    /// They did not, or a line of a file is none.
    NotSafe,
    /// A file could not be read.
    ReadFault,
    /// The output could not be written.
    WriteFault,
    /// Out of memory.
    Memory,
}

/// The tree whose journals are audited, and what its journals' heads have as its digest.
#[derive(Clone, Copy)]
pub struct AuditedTree<'a> {
    pub tree: &'a Tree,
    pub digest: [u8; DIGEST_BYTES],
}

/// Merges the journals and writes the verdict to `verdict`, and the merged trace to `trace`.
fn judged<R: JournalSource + Drop, T: Write + Drop, V: Write>(
    alloc: Global,
    audited: &AuditedTree<'_>,
    files: &mut [JournalFile<R>],
    trace: &mut TraceOutput<'_, T>,
    verdict: &mut V,
) -> Result<bool, AuditFault> {
    let mut fronts = Fronts::open(alloc, audited.tree, &audited.digest, files)?;
    fronts.begin(files)?;
    let mut night = Night::new(alloc, audited.tree, fronts)?;
    night.run(files, trace)?;
    let words = VerdictWords {
        alloc,
        tree: audited.tree,
        files,
    };
    write_verdict(&words, &night, verdict)
}

/// Tells what is wrong with a line of a file.
fn end_of<R: JournalSource + Drop, F: Write>(
    judged: Result<bool, AuditFault>,
    files: &[JournalFile<R>],
    faults: &mut F,
) -> AuditEnd {
    match judged {
        Ok(true) => AuditEnd::Safe,
        Ok(false) => AuditEnd::NotSafe,
        Err(AuditFault::Line(file, line, fault)) => {
            let _ = faults.write_all(b"journal ");
            if let Some(file) = files.get(file) {
                let _ = faults.write_all(file.name.as_slice());
            }
            let _ = writeln!(faults, " line {line} fault {}", fault.code());
            AuditEnd::NotSafe
        }
        Err(AuditFault::Read) => AuditEnd::ReadFault,
        Err(AuditFault::Write) => AuditEnd::WriteFault,
        Err(AuditFault::Memory) => AuditEnd::Memory,
    }
}

/// Audits journals: looks for an order of all entries in which they are a safe trace, and writes the verdict to `out`
/// (docs/FORMATS.md, "The verdict of an audit"). A line that is none is told on `faults`.
///
/// Files are read in windows, in any order of their names; whose each is, and in which order a station's follow, is in
/// their lines. At most one file of each station is read at a time, and all others are set aside.
pub fn audit<R: JournalSource + Drop, W: Write + Drop, F: Write>(
    alloc: Global,
    audited: &AuditedTree<'_>,
    files: &mut [JournalFile<R>],
    out: &mut W,
    faults: &mut F,
) -> AuditEnd {
    let mut trace: TraceOutput<'_, W> = TraceOutput::None;
    let end = judged(alloc, audited, files, &mut trace, out);
    end_of(end, files, faults)
}

/// Does the same as [`audit`], and writes the merged trace to `out`, entry by entry as it is taken; the verdict goes to
/// `faults`.
pub fn audit_traced<R: JournalSource + Drop, W: Write + Drop, F: Write>(
    alloc: Global,
    audited: &AuditedTree<'_>,
    files: &mut [JournalFile<R>],
    out: &mut W,
    faults: &mut F,
) -> AuditEnd {
    let mut trace = TraceOutput::To(out);
    let end = judged(alloc, audited, files, &mut trace, faults);
    end_of(end, files, faults)
}
