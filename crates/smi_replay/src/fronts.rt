//! The journals of all stations, read line by line.

use crate::fault::LineFault;
use crate::head::DIGEST_BYTES;
use crate::journal_file::{FileFault, JournalFile, JournalSource};
use crate::line::Spelling;
use crate::station_journal::{Place, PlacedEntry, StationJournal};
use smi_tree::Tree;
use std::alloc::{AllocError, AllocFailed, Global};
use std::collections::VecDeque;

/// The reason for which an audit has no verdict.
#[derive(Clone, Copy, PartialEq, Eq)]
pub(crate) enum AuditFault {
    /// The line of this number in the file of this number is none.
    Line(usize, u64, LineFault),
    Read,
    Write,
    Memory,
}

impl From<AllocError> for AuditFault {
    fn from(_refused: AllocError) -> AuditFault {
        AuditFault::Memory
    }
}

impl<T: Drop> From<AllocFailed<T>> for AuditFault {
    fn from(_refused: AllocFailed<T>) -> AuditFault {
        AuditFault::Memory
    }
}

impl AuditFault {
    /// Returns the fault of the file of this number.
    fn of_file(file: usize, fault: FileFault) -> AuditFault {
        match fault {
            FileFault::Line(line, fault) => AuditFault::Line(file, line, fault),
            FileFault::Read => AuditFault::Read,
            FileFault::Memory => AuditFault::Memory,
        }
    }
}

/// A station's journal, and those of its entries that are read and not taken.
#[derive(Drop)]
pub(crate) struct Front {
    pub(crate) station: StationJournal,
    pub(crate) window: VecDeque<PlacedEntry>,
}

/// The journals of all stations that have files.
#[derive(Drop)]
pub(crate) struct Fronts<'a> {
    tree: &'a Tree,
    /// By number of station.
    pub(crate) all: Vec<Front>,
    spelling: Spelling,
}

/// Reads the heads and the first lines of files, which say whose they are.
fn open_files<R: JournalSource + Drop>(
    tree: &Tree,
    digest: &[u8; DIGEST_BYTES],
    spelling: &mut Spelling,
    files: &mut [JournalFile<R>],
) -> Result<(), AuditFault> {
    for (number, file) in files.iter_mut().enumerate() {
        if let Err(fault) = file.open(tree, digest, spelling) {
            return Err(AuditFault::of_file(number, fault));
        }
        if let Some(first) = file.first()
            && first.station > tree.station_count()
        {
            return Err(AuditFault::Line(number, 2, LineFault::UnknownName));
        }
    }
    Ok(())
}

/// Returns the numbers of a station's files, by the boots of their first lines and then by their times.
fn files_of<R: JournalSource + Drop>(
    alloc: Global,
    station: u16,
    files: &[JournalFile<R>],
) -> Result<Vec<usize>, AllocError> {
    let mut keys = Vec::new(alloc);
    for (number, file) in files.iter().enumerate() {
        if let Some(first) = file.first()
            && first.station == station
        {
            keys.push((first.boot, first.time, number))?;
        }
    }
    keys.sort()?;
    let mut numbers = Vec::new(alloc);
    for (_, _, number) in keys.as_slice() {
        numbers.push(*number)?;
    }
    Ok(numbers)
}

impl<'a> Fronts<'a> {
    /// Takes up files: which station's each is, and in which order.
    pub(crate) fn open<R: JournalSource + Drop>(
        alloc: Global,
        tree: &'a Tree,
        digest: &[u8; DIGEST_BYTES],
        files: &mut [JournalFile<R>],
    ) -> Result<Fronts<'a>, AuditFault> {
        let mut fronts = Fronts {
            tree,
            all: Vec::new(alloc),
            spelling: Spelling::new(alloc),
        };
        open_files(tree, digest, &mut fronts.spelling, files)?;
        for station in 1..=tree.station_count() {
            let its = files_of(alloc, station, files)?;
            if !its.is_empty() {
                let mut journal = StationJournal::new(alloc, tree, station)?;
                journal.files.extend_from_slice(its.as_slice())?;
                fronts.all.push(Front {
                    station: journal,
                    window: VecDeque::new(alloc),
                })?;
            }
        }
        Ok(fronts)
    }

    /// Reads a line of the front of this number.
    pub(crate) fn read_one<R: JournalSource + Drop>(
        &mut self,
        number: usize,
        files: &mut [JournalFile<R>],
    ) -> Result<(), AuditFault> {
        let Some(front) = self.all.get_mut(number) else {
            return Ok(());
        };
        let station = &mut front.station;
        let Some(file) = station.file() else {
            station.finish();
            return Ok(());
        };
        let Some(source) = files.get_mut(file) else {
            return Err(AuditFault::Read);
        };
        let (line, it) = match source.next(self.tree, &mut self.spelling) {
            Ok(Some(next)) => next,
            Ok(None) => {
                station.end_file(self.tree)?;
                return Ok(());
            }
            Err(fault) => return Err(AuditFault::of_file(file, fault)),
        };
        let place = Place {
            file,
            line,
            time: it.time,
        };
        match station.take(self.tree, place, &it) {
            Ok(()) => Ok(()),
            Err(error) => Err(AuditFault::of_file(file, FileFault::of_line(line, error))),
        }
    }

    /// Reads the first block of every station.
    pub(crate) fn begin<R: JournalSource + Drop>(
        &mut self,
        files: &mut [JournalFile<R>],
    ) -> Result<(), AuditFault> {
        for number in 0..self.all.len() {
            for _ in 0..u64::MAX {
                match self.all.get(number) {
                    Some(front) if !front.station.has_begun() && front.station.is_reading() => {}
                    _ => break,
                }
                self.read_one(number, files)?;
            }
        }
        Ok(())
    }
}
