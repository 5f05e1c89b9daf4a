//! Looks after what is beside a store that is open: its files at their paths, its label and its sum.
//!
//! [`Watched`] asks before each save whether the files are in place, notes each start in the label, and notes the sum
//! once the log was copied.
//!
//! [`Watched`]: crate::Watched

use crate::label::LastStart;
use crate::label_file::LabelFile;
use crate::mark::TreeMark;
use crate::sum_file::SumFile;
use smi_base::Tally;
use std::fs;
use std::io::{self, ErrorKind};
use std::os::unix::fs::MetadataExt;
use std::rt::Files;
use std::snapshot::Snapshot;

/// What is beside a store that is open: its files at their paths, and its label.
pub trait Surroundings {
    ghost use Rattle.std.specs.Prelude.{◌≡◌, ◌+◌, ℕ, true, false, Option, Some};
    ghost use Rattle.smi_disks.specs.declared.label.LastStart.{LastStart};

    // How often the files were found in place.
    ghost found: { Self → ℕ };

    // The start that was noted last.
    ghost noted: { Self → Option LastStart };

    /// Returns true if the files of the store are in place: they are still at its paths, as far as the system tells it.
    fn are_in_place(&mut self) -> bool
        ensures in_place { result ≡ true → found self.new ≡ found self.old + 1 }
        ensures gone { result ≡ false → found self.new ≡ found self.old }
        ensures noted { noted self.new ≡ noted self.old };

    /// Notes in the label that a station has started. Returns false if that could not be written.
    fn note(&mut self, start: LastStart) -> bool
        ensures found { found self.new ≡ found self.old }
        ensures noted { noted self.new ≡ Some start };

    /// Notes what the file of the store is, once its log was copied into it. If that can't be written, a later start
    /// has nothing to compare it with.
    fn note_copy(&mut self)
        ensures found { found self.new ≡ found self.old }
        ensures noted { noted self.new ≡ noted self.old };
}

/// Which file of the system a file is: another file at the same path has another number.
#[derive(Clone, Copy, PartialEq, Eq)]
struct FileId {
    device: u64,
    /// The number of its inode.
    number: u64,
}

impl FileId {
    ghost use Rattle.std.specs.Prelude.{◌↔◌, IsTrue};
    ghost use Rattle.smi_disks.specs.Surroundings.{IsThere};

    /// Returns which file is at a path now.
    fn of<H: Files>(host: &H, path: &str) -> io::Result<FileId> {
        let found = fs::metadata(host, path)?;
        Ok(FileId {
            device: found.dev(),
            number: found.ino(),
        })
    }

    /// Returns true if this file is the one that was found at a path. If the system did not tell, it counts as there.
    fn is_there(self, found: &io::Result<FileId>) -> bool
        ensures { IsTrue result ↔ IsThere self found.now }
    {
        match found {
            Ok(found) => *found == self,
            Err(e) => e.kind() != ErrorKind::NotFound,
        }
    }
}

/// The files of a store, which were at its paths when it was opened, and the tree that its label names.
///
/// Clauses see how often the files were found there, and which start was noted last. That they see the truth rests on
/// the short bodies of `are_in_place` and `note`.
#[derive(Drop)]
pub struct StoreFiles<H> {
    host: H,
    path: String,
    log_path: String,
    file: FileId,
    log: FileId,
    label: LabelFile,
    sum: SumFile,
    pub(crate) tree: TreeMark,
    /// How often they were found, which clauses alone read.
    found: Tally,
    /// The start that was noted last, which clauses alone read.
    noted: Snapshot<Option<LastStart>>,
}

impl<H: Files + AllocGlobal + Drop> StoreFiles<H> {
    ghost use Rattle.std.specs.Prelude.{◌≡◌, ◌↔◌, IsTrue, IfOk, OnOk};
    ghost use Rattle.smi_disks.specs.Label.{with_start};
    ghost use Rattle.smi_disks.specs.Surroundings.{IsThere};

    /// Returns the files that are at these paths now: that of a store, and that of its log.
    ///
    /// No clause names `host`, `path` and `log_path`: what is at a path, the system alone says. tests/marks_test.py
    /// moves files away.
    pub fn of(host: H, path: String, log_path: String, tree: TreeMark) -> io::Result<StoreFiles<H>>
        ensures { IfOk result (λ files. files.tree ≡ tree) }
    {
        let file = FileId::of(&host, path.as_str())?;
        let log = FileId::of(&host, log_path.as_str())?;
        let label = LabelFile::of(host.alloc(), path.as_str())?;
        let sum = SumFile::of(host.alloc(), path.as_str())?;
        Ok(StoreFiles {
            host,
            path,
            log_path,
            file,
            log,
            label,
            sum,
            tree,
            found: Tally::zero(),
            noted: Snapshot::of(&None),
        })
    }

    /// Returns true if both files are still at their paths.
    fn are_there(&self) -> bool {
        let file = FileId::of(&self.host, self.path.as_str());
        let log = FileId::of(&self.host, self.log_path.as_str());
        self.are_found(&file, &log)
    }

    /// Returns true if these are the files: what was found at the path of the store, and at that of its log.
    fn are_found(&self, file: &io::Result<FileId>, log: &io::Result<FileId>) -> bool
        ensures { IsTrue result ↔ IsThere self.now.file file.now × IsThere self.now.log log.now }
    {
        self.file.is_there(file) && self.log.is_there(log)
    }

    /// Puts a label beside the store, with the tree that its label names and this start.
    fn put_label(&mut self, start: LastStart) -> io::Result<()>
        ensures spelled { OnOk result (self.new.label.bytes.items ≡ with_start self.old.tree start) }
        ensures kept { self.new ≡ record self.old { label = self.new.label } }
    {
        let (host, path) = (&self.host, self.path.as_str());
        self.label.put(host, path, &self.tree, start)
    }
}

impl<H: Files + AllocGlobal + Drop> Surroundings for StoreFiles<H> {
    ghost found = { λ files. files.found.count };

    ghost noted = { λ files. files.noted.value };

    fn are_in_place(&mut self) -> bool {
        if !self.are_there() {
            return false;
        }
        self.found.raise();
        true
    }

    fn note(&mut self, start: LastStart) -> bool {
        self.noted = Snapshot::of(&Some(start));
        self.put_label(start).is_ok()
    }

    fn note_copy(&mut self) {
        let _ = self.sum.note(&self.host, self.path.as_str());
    }
}
