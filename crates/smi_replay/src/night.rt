//! A night's journals, read in windows and merged.

use crate::beginning::Beginning;
use crate::fronts::{AuditFault, Fronts};
use crate::journal_file::{JournalFile, JournalSource};
use crate::station_journal::{PlacedEntry, told_in};
use crate::tally::EntryTally;
use smi_audit::{GrowingMerge, Merge};
use smi_grant::Command;
use smi_protocol::{Entry, Line};
use smi_schedule::{Unwritten, write_line};
use smi_tree::Tree;
use std::alloc::{AllocError, Global};
use std::collections::VecDeque;
use std::io::Write;

/// How many entries of a station are read and not taken at once.
const WINDOW: usize = 4096;

/// Where the merged trace goes: nowhere, or to a writer.
#[derive(Drop)]
pub(crate) enum TraceOutput<'a, W: Write + Drop> {
    None,
    To(&'a mut W),
}

/// The journals of a night, and the merge of what was read of them.
#[derive(Drop)]
pub(crate) struct Night<'a> {
    tree: &'a Tree,
    pub(crate) fronts: Fronts<'a>,
    pub(crate) merge: GrowingMerge<'a>,
    text: Vec<u8>,
    pub(crate) tally: EntryTally,
    pub(crate) beginning: Beginning,
}

impl<'a> Night<'a> {
    /// Begins a night with what the first blocks of its journals say.
    pub(crate) fn new(
        alloc: Global,
        tree: &'a Tree,
        fronts: Fronts<'a>,
    ) -> Result<Night<'a>, AllocError> {
        let mut merge = Merge::new(alloc, tree)?;
        let mut beginning = Beginning::new(alloc, tree)?;
        beginning.assume(&mut merge, tree, fronts.all.as_slice())?;
        Ok(Night {
            tree,
            merge: GrowingMerge::new(alloc, merge, fronts.all.len())?,
            fronts,
            text: Vec::new(alloc),
            tally: EntryTally::new(alloc),
            beginning,
        })
    }

    /// Puts the next entry into the window of the front of this number.
    fn push(&mut self, number: usize) -> Result<(), AuditFault> {
        if let Some(front) = self.fronts.all.get_mut(number)
            && let Some(placed) = front.station.next()
        {
            self.merge.put(number, &placed.entry)?;
            self.tally.add(placed)?;
            put_last(&mut front.window, placed)?;
            front.station.pass();
        }
        Ok(())
    }

    /// Fills the window of the front of this number.
    fn fill<R: JournalSource + Drop>(
        &mut self,
        number: usize,
        files: &mut [JournalFile<R>],
    ) -> Result<(), AuditFault> {
        for _ in 0..u64::MAX {
            let Some(front) = self.fronts.all.get(number) else {
                return Ok(());
            };
            if front.window.len() >= WINDOW {
                return Ok(());
            }
            match front.station.next() {
                Some(placed) if !placed.is_command_known => return Ok(()),
                Some(_) => self.push(number)?,
                None if front.station.is_reading() => self.fronts.read_one(number, files)?,
                None => return Ok(()),
            }
        }
        Ok(())
    }

    /// Takes what fits of the front of this number, and writes it. Returns true if anything was taken.
    fn drain<W: Write + Drop>(
        &mut self,
        number: usize,
        trace: &mut TraceOutput<'_, W>,
    ) -> Result<bool, AuditFault> {
        let is_moved = self.merge.advance(number)?;
        let left = self.merge.left(number);
        let Some(front) = self.fronts.all.get_mut(number) else {
            return Ok(is_moved);
        };
        for _ in left..front.window.len() {
            if let Some(placed) = front.window.pop_front() {
                write_traced(trace, &mut self.text, self.tree, &placed.entry)?;
            }
        }
        Ok(is_moved)
    }

    /// Puts a run whose command its holder tells into the window. Returns true if there was one that fits.
    fn resolve(&mut self, number: usize) -> bool {
        let Some(front) = self.fronts.all.get_mut(number) else {
            return false;
        };
        let Some(run) = front.station.next() else {
            return false;
        };
        if run.is_command_known || !front.window.is_empty() {
            return false;
        }
        match command_that_fits(&self.merge, &run.entry) {
            Some(command) => {
                front.station.resolve(command);
                true
            }
            None => false,
        }
    }

    /// Goes through all fronts once: fills their windows, and takes what fits. Returns true if anything moved.
    fn round<R: JournalSource + Drop, W: Write + Drop>(
        &mut self,
        files: &mut [JournalFile<R>],
        trace: &mut TraceOutput<'_, W>,
    ) -> Result<bool, AuditFault> {
        let mut is_moved = false;
        for number in 0..self.fronts.all.len() {
            self.fill(number, files)?;
            let is_drained = self.drain(number, trace)?;
            is_moved = is_drained || self.resolve(number) || is_moved;
        }
        Ok(is_moved)
    }

    /// Reads and merges as far as that goes.
    pub(crate) fn run<R: JournalSource + Drop, W: Write + Drop>(
        &mut self,
        files: &mut [JournalFile<R>],
        trace: &mut TraceOutput<'_, W>,
    ) -> Result<(), AuditFault> {
        for _ in 0..u64::MAX {
            if !self.round(files, trace)? {
                return Ok(());
            }
        }
        Ok(())
    }
}

/// Puts an entry at the end of a window.
fn put_last(window: &mut VecDeque<PlacedEntry>, placed: &PlacedEntry) -> Result<(), AllocError> {
    // for the prover, which has to meet the types that an entry holds
    let _told = told_in(&placed.entry);
    window.push_back(*placed)?;
    Ok(())
}

/// Returns the command with which a run fits, if any does.
fn command_that_fits(merge: &GrowingMerge<'_>, run: &Entry) -> Option<Command> {
    let Entry::Ran {
        domain,
        epoch,
        number,
        ..
    } = *run
    else {
        return None;
    };
    let command = merge.expected_command(domain, number)?;
    let entry = Entry::Ran {
        domain,
        epoch,
        number,
        command,
    };
    match merge.obstacle(&entry) {
        None => Some(command),
        Some(_) => None,
    }
}

/// Writes an entry of the merged trace, if that is wanted.
fn write_traced<W: Write + Drop>(
    trace: &mut TraceOutput<'_, W>,
    text: &mut Vec<u8>,
    tree: &Tree,
    entry: &Entry,
) -> Result<(), AuditFault> {
    match trace {
        TraceOutput::None => Ok(()),
        TraceOutput::To(out) => match write_line(*out, text, tree, &Line::Entry(*entry)) {
            Ok(()) => Ok(()),
            Err(Unwritten::Writer) => Err(AuditFault::Write),
            Err(Unwritten::Memory) => Err(AuditFault::Memory),
        },
    }
}
