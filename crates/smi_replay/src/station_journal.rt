//! The journal of one station: the lines of its files, replayed.

ghost use Rattle.std.specs.Prelude.{◌≡◌, ◌<◌, Some, OnOk};
ghost use Rattle.smi_audit.specs.Teller.{teller_of};
ghost use Rattle.smi_replay.specs.Reading.{is_reading};

use crate::account::Account;
use crate::fault::{LineError, LineFault};
use crate::line::{JournalLine, Says};
use crate::loss::{BlockEnd, find_lost};
use smi_audit::teller;
use smi_grant::{Command, Record};
use smi_protocol::{Entry, Told};
use smi_tree::Tree;
use std::alloc::{AllocError, Global};
use std::collections::VecDeque;
use std::mem;

/// The place of something: the number of its file and of its line, and when that was written.
#[derive(Clone, Copy)]
pub(crate) struct Place {
    pub(crate) file: usize,
    pub(crate) line: u64,
    /// Milliseconds since the beginning of 1970.
    pub(crate) time: u64,
}

/// An entry of a journal, and its file and line.
#[derive(Clone, Copy)]
pub(crate) struct PlacedEntry {
    pub(crate) place: Place,
    pub(crate) entry: Entry,
    /// Whether a start alone tells it.
    pub(crate) is_told_by_start: bool,
    /// Whether its command is known, if it is a run.
    pub(crate) is_command_known: bool,
}

/// Which block is being read.
#[derive(Clone, Copy)]
enum Block {
    None,
    /// After a start.
    Start(Place, Entry),
    /// After a line that says that the file goes on.
    Continued(Place, u32),
}

/// How far a journal goes.
#[derive(Clone, Copy)]
pub(crate) enum Extent {
    /// There may be further lines.
    Reading,
    /// All lines were read; the node had ended by itself, or may have gone on.
    Read { is_ended: bool },
    /// Lines are missing before this one: what follows is not read.
    Gap(Place),
}

/// The lines of one station, replayed one after the other.
#[derive(Drop)]
pub(crate) struct StationJournal {
    alloc: Global,
    pub(crate) station: u16,
    /// The numbers of its files, in their order, and how many of them were read.
    pub(crate) files: Vec<usize>,
    files_read: usize,
    boot: u32,
    /// What its lines say by now, and what the present block says.
    account: Account,
    loaded: Account,
    block: Block,
    /// What stood at its first line, once that is known, and the boot if the first file goes on within one.
    pub(crate) beginning: Account,
    pub(crate) begins_within: Option<u32>,
    has_begun: bool,
    is_ended: bool,
    pub(crate) extent: Extent,
    pub(crate) last_time: u64,
    /// What was read and may not be handed out yet.
    ahead: VecDeque<PlacedEntry>,
}

impl StationJournal {
    /// Makes the journal of a station that has no files yet.
    pub(crate) fn new(
        alloc: Global,
        tree: &Tree,
        station: u16,
    ) -> Result<StationJournal, AllocError> {
        Ok(StationJournal {
            alloc,
            station,
            files: Vec::new(alloc),
            files_read: 0,
            boot: 0,
            account: Account::new(alloc, tree)?,
            loaded: Account::new(alloc, tree)?,
            block: Block::None,
            beginning: Account::new(alloc, tree)?,
            begins_within: None,
            has_begun: false,
            is_ended: false,
            extent: Extent::Reading,
            last_time: 0,
            ahead: VecDeque::new(alloc),
        })
    }

    /// Returns the number of the file that is read; None if all were read.
    pub(crate) fn file(&self) -> Option<usize> {
        self.files.as_slice().get(self.files_read).copied()
    }

    /// Goes on with the next file: there are no further lines in this one.
    pub(crate) fn end_file(&mut self, tree: &Tree) -> Result<(), AllocError> {
        self.files_read = self.files_read.saturating_add(1);
        self.finish_block(tree, BlockEnd::Torn)
    }

    /// Returns true if the first block was read.
    pub(crate) fn has_begun(&self) -> bool {
        self.has_begun
    }

    /// Returns what comes next, if that was read.
    pub(crate) fn next(&self) -> Option<&PlacedEntry> {
        self.ahead.front()
    }

    /// Hands out what comes next.
    pub(crate) fn pass(&mut self) {
        let _ = self.ahead.pop_front();
    }

    /// Has the run that comes next be one of a command.
    pub(crate) fn resolve(&mut self, known: Command) {
        if let Some(next) = self.ahead.front_mut() {
            next.is_command_known = true;
            if let Entry::Ran { command, .. } = &mut next.entry {
                *command = known;
            }
        }
    }

    /// Returns true if lines may be read: the end was not reached, nor a gap.
    pub(crate) fn is_reading(&self) -> bool
        ensures { result ≡ is_reading self.now.extent }
    {
        match self.extent {
            Extent::Reading => true,
            Extent::Read { .. } | Extent::Gap(_) => false,
        }
    }

    /// Ends the journal: there are no further files.
    pub(crate) fn finish(&mut self) {
        if self.is_reading() {
            self.extent = Extent::Read {
                is_ended: self.is_ended,
            };
        }
    }

    /// Takes a line. Fails with the line's fault, or out of memory.
    pub(crate) fn take(
        &mut self,
        tree: &Tree,
        place: Place,
        line: &JournalLine,
    ) -> Result<(), LineError>
        ensures { OnOk result (line.now.station ≡ self.old.station) }
    {
        if line.station != self.station {
            return Err(LineError::Fault(LineFault::OtherStation));
        }
        match line.says {
            Says::Stands(_) | Says::Link(_) | Says::Pending(_) | Says::State(_) | Says::Seen(_) => {
                self.take_block_line(&line.says)?;
            }
            Says::Entry(Entry::Booted { station, boot }) => {
                self.finish_block(tree, BlockEnd::Followed)?;
                self.begin_start(line, place, station, boot)?;
            }
            Says::Continues { station, boot } => {
                self.finish_block(tree, BlockEnd::Followed)?;
                self.begin_continued(line, place, station, boot)?;
            }
            Says::Entry(_) | Says::Ends | Says::Console => {
                self.finish_block(tree, BlockEnd::Followed)?;
                self.take_in_boot(tree, place, line)?;
            }
        }
        self.last_time = line.time;
        Ok(())
    }

    /// Takes a line that is no part of a block and begins none.
    fn take_in_boot(
        &mut self,
        tree: &Tree,
        place: Place,
        line: &JournalLine,
    ) -> Result<(), LineError>
        ensures { OnOk result (self.old.extent ≡ Extent.Reading → line.now.boot ≡ self.old.boot) }
    {
        if !self.is_reading() {
            return Ok(());
        }
        if line.boot != self.boot {
            return Err(LineError::Fault(LineFault::BootGoesBack));
        }
        self.is_ended = false;
        match line.says {
            Says::Entry(entry) => self.take_entry(tree, place, &entry),
            Says::Ends => {
                self.is_ended = true;
                Ok(())
            }
            _ => Ok(()),
        }
    }

    /// Takes an entry, if the tree has it in the journal of this station.
    fn take_entry(&mut self, tree: &Tree, place: Place, entry: &Entry) -> Result<(), LineError>
        ensures { OnOk result (teller_of tree.now entry.now ≡ Some self.old.station) }
    {
        match teller(tree, entry) {
            Some(station) if station == self.station => {}
            Some(_) => return Err(LineError::Fault(LineFault::OtherStation)),
            None => return Err(LineError::Fault(LineFault::UnknownName)),
        }
        self.account.note(entry)?;
        self.put(place, entry)?;
        Ok(())
    }

    /// Puts an entry of a line at the end of what comes next.
    fn put(&mut self, place: Place, entry: &Entry) -> Result<(), AllocError> {
        self.put_placed(&PlacedEntry {
            place,
            entry: *entry,
            is_told_by_start: false,
            is_command_known: true,
        })
    }

    fn put_placed(&mut self, placed: &PlacedEntry) -> Result<(), AllocError> {
        // for the prover, which has to meet the types that an entry holds
        let _told = told_in(&placed.entry);
        self.ahead.push_back(*placed)?;
        Ok(())
    }

    fn begin_start(
        &mut self,
        line: &JournalLine,
        place: Place,
        station: u16,
        boot: u32,
    ) -> Result<(), LineError>
        ensures { OnOk result (self.old.extent ≡ Extent.Reading → self.old.boot < self.new.boot) }
    {
        if !self.is_reading() {
            return Ok(());
        }
        if station != self.station {
            return Err(LineError::Fault(LineFault::OtherStation));
        }
        if boot != line.boot || boot <= self.boot {
            return Err(LineError::Fault(LineFault::BootGoesBack));
        }
        self.boot = boot;
        self.is_ended = false;
        self.block = Block::Start(place, Entry::Booted { station, boot });
        Ok(())
    }

    fn begin_continued(
        &mut self,
        line: &JournalLine,
        place: Place,
        station: u16,
        boot: u32,
    ) -> Result<(), LineError> {
        if !self.is_reading() {
            return Ok(());
        }
        if station != self.station {
            return Err(LineError::Fault(LineFault::OtherStation));
        }
        if boot != line.boot || boot < self.boot {
            return Err(LineError::Fault(LineFault::BootGoesBack));
        }
        let before = self.boot;
        self.boot = boot;
        self.is_ended = false;
        self.block = Block::Continued(place, before);
        Ok(())
    }

    /// Takes a line of a block.
    fn take_block_line(&mut self, says: &Says) -> Result<(), LineError> {
        let is_continued = match self.block {
            Block::None if self.is_reading() => {
                return Err(LineError::Fault(LineFault::UnknownWord));
            }
            Block::None => return Ok(()),
            Block::Start(..) => false,
            Block::Continued(..) => true,
        };
        match *says {
            Says::Stands(stands) => self.loaded.add_domain(stands.domain, &stands.record),
            Says::Link(stands) => self.loaded.add_link(&stands)?,
            Says::Pending(pending) => self.loaded.add_pending(&pending)?,
            Says::State(shown) if is_continued => self.loaded.add_state(shown)?,
            Says::Seen(shown) if is_continued => self.loaded.add_seen(shown)?,
            _ => return Err(LineError::Fault(LineFault::UnknownWord)),
        }
        Ok(())
    }

    /// Compares a block with what the lines before it say, and goes on from it.
    fn finish_block(&mut self, tree: &Tree, end: BlockEnd) -> Result<(), AllocError> {
        let block = self.block;
        self.block = Block::None;
        match block {
            Block::None => return Ok(()),
            Block::Start(place, entry) => {
                if self.has_begun {
                    self.put_lost(tree, place, end)?;
                }
                if self.is_reading() {
                    self.put(place, &entry)?;
                }
            }
            Block::Continued(place, before) => {
                if self.has_begun {
                    self.check_continued(tree, place, before, end)?;
                } else {
                    self.begins_within = Some(self.boot);
                }
            }
        }
        self.take_over(end)
    }

    /// Goes on from what a block says, or begins with it. One that may lack lines says too little to go on from.
    fn take_over(&mut self, end: BlockEnd) -> Result<(), AllocError> {
        if !self.has_begun {
            self.has_begun = true;
            self.beginning.copy_from(&self.loaded)?;
            mem::swap(&mut self.account, &mut self.loaded);
        } else if end == BlockEnd::Followed {
            mem::swap(&mut self.account, &mut self.loaded);
        }
        self.loaded.clear();
        Ok(())
    }

    /// Puts the entries that a start alone tells. If they can't be of one step, there is a gap; but of a block that may
    /// lack lines nothing is known then.
    fn put_lost(&mut self, tree: &Tree, place: Place, end: BlockEnd) -> Result<(), AllocError> {
        let mut lost = Vec::new(self.alloc);
        let is_one_step = find_lost(tree, &self.account, &self.loaded, end, &mut lost)?;
        if !is_one_step {
            if end == BlockEnd::Followed {
                self.extent = Extent::Gap(place);
            }
            return Ok(());
        }
        for entry in lost.as_slice() {
            self.account.note(&entry.entry)?;
            self.put_placed(&PlacedEntry {
                place,
                entry: entry.entry,
                is_told_by_start: true,
                is_command_known: entry.is_command_known,
            })?;
        }
        Ok(())
    }

    /// Tells a gap if a file that goes on does not begin with what the lines before it say.
    fn check_continued(
        &mut self,
        tree: &Tree,
        place: Place,
        before: u32,
        end: BlockEnd,
    ) -> Result<(), AllocError> {
        let mut lost = Vec::new(self.alloc);
        let is_one_step = find_lost(tree, &self.account, &self.loaded, end, &mut lost)?;
        let is_same = is_one_step && lost.is_empty();
        if before != self.boot || (!is_same && end == BlockEnd::Followed) {
            self.extent = Extent::Gap(place);
        }
        Ok(())
    }
}

/// Returns what an operator was told, with the record that it asked for, if this entry is of that.
pub(crate) fn told_in(entry: &Entry) -> Option<(Told, Option<Record>)> {
    match entry {
        Entry::Told { told, .. } => Some((*told, told.asked)),
        _ => None,
    }
}
