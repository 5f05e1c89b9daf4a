//! Runs `smi audit`: reads its tree file, and then has `smi_replay` audit the files of the journals.
//!
//! `commands` calls [`audit_files`]. docs/FORMATS.md, "The verdict of an audit", says what is written. What an audit
//! finds is proved in `smi_audit` and `smi_replay`; here are its files, its writer and its exit status.

use crate::line::AuditLine;
use crate::reopened_file::ReopenedFile;
use crate::tree::read_marked;
use crate::words::{Words, bytes_of};
use smi_commands::status::{Status, no_memory, read_fault, write_fault};
use smi_replay::{AuditEnd, AuditedTree, JournalFile, JournalSource, audit, audit_traced};
use std::alloc::{AllocError, Global};
use std::io::{BufWriter, Write};
use std::rt::Files;

/// Audits the journals that the command line names. Writes the verdict, and returns the exit status.
pub fn audit_files<H: Files + AllocGlobal + Clone + Drop, W: Write + Drop, F: Write>(
    host: &H,
    words: &Words,
    line: AuditLine<'_>,
    writer: W,
    faults: &mut F,
) -> Status {
    let (tree, mark) = match read_marked(host, bytes_of(words, line.tree), faults) {
        Ok(read) => read,
        Err(status) => return status,
    };
    let digest = mark.digest;
    let audited = AuditedTree {
        tree: &tree,
        digest,
    };
    audit_on(host, words, &audited, line, writer, faults)
}

/// Returns the files of the journals, not opened yet: all words after the tree but the option `--trace`.
///
/// Fails if memory was refused.
fn journal_files<H: Files + AllocGlobal + Clone + Drop>(
    host: &H,
    words: &Words,
    line: AuditLine<'_>,
) -> Result<Vec<JournalFile<ReopenedFile<H>>>, AllocError> {
    let alloc = host.alloc();
    let mut files = Vec::new(alloc);
    let mut is_after_tree = false;
    // The program's own name and the command come first.
    for (word, bytes) in words.texts.iter().zip(words.bytes.iter()).skip(2) {
        if is_after_tree && word.as_str() != "--trace" {
            let name = Vec::from_slice(alloc, bytes.as_slice())?;
            let path = Vec::from_slice(alloc, bytes.as_slice())?;
            let source = ReopenedFile::new(host.clone()?, path);
            files.push(JournalFile::new(alloc, name, source))?;
        }
        is_after_tree = is_after_tree || word.as_str() == line.tree;
    }
    Ok(files)
}

/// Audits the journals of this tree that the command line names. Returns the exit status.
fn audit_on<H: Files + AllocGlobal + Clone + Drop, W: Write + Drop, F: Write>(
    host: &H,
    words: &Words,
    audited: &AuditedTree<'_>,
    line: AuditLine<'_>,
    writer: W,
    faults: &mut F,
) -> Status {
    let Ok(mut files) = journal_files(host, words, line) else {
        return no_memory(faults);
    };
    audit_journals(
        host.alloc(),
        audited,
        line,
        files.as_mut_slice(),
        writer,
        faults,
    )
}

/// Audits these journals, with the merged trace if the line asks for it. Returns the exit status.
// It is over any reader, because a function that names a host's files is expensive to prove.
fn audit_journals<R: JournalSource + Drop, W: Write + Drop, F: Write>(
    alloc: Global,
    audited: &AuditedTree<'_>,
    line: AuditLine<'_>,
    files: &mut [JournalFile<R>],
    writer: W,
    faults: &mut F,
) -> Status {
    let Ok(mut writer) = BufWriter::new(alloc, writer) else {
        return no_memory(faults);
    };
    let end = if line.traces {
        audit_traced(alloc, audited, files, &mut writer, faults)
    } else {
        audit(alloc, audited, files, &mut writer, faults)
    };
    if writer.flush().is_err() {
        return write_fault(faults);
    }
    status_of(end, faults)
}

/// Returns the exit status of an audit, and writes its fault, if it ended with one. The verdict is written by then.
fn status_of<F: Write>(end: AuditEnd, faults: &mut F) -> Status {
    match end {
        AuditEnd::Safe => Status::Done,
        AuditEnd::NotSafe => Status::Refused,
        AuditEnd::ReadFault => read_fault(faults),
        AuditEnd::WriteFault => write_fault(faults),
        AuditEnd::Memory => no_memory(faults),
    }
}
