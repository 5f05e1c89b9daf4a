//! What was audited: how many entries, grants and commands, and of which times.

use crate::station_journal::{PlacedEntry, told_in};
use smi_protocol::Entry;
use std::alloc::{AllocError, Global};

/// Counts of the entries that were read, and those that a start alone tells.
#[derive(Drop)]
pub(crate) struct EntryTally {
    pub(crate) entries: u64,
    pub(crate) grants: u64,
    /// Commands that ran at a domain.
    pub(crate) commands: u64,
    /// Of the earliest and of the latest entry.
    pub(crate) first_time: u64,
    pub(crate) last_time: u64,
    pub(crate) told_by_starts: Vec<PlacedEntry>,
}

impl EntryTally {
    pub(crate) fn new(alloc: Global) -> EntryTally {
        EntryTally {
            entries: 0,
            grants: 0,
            commands: 0,
            first_time: u64::MAX,
            last_time: 0,
            told_by_starts: Vec::new(alloc),
        }
    }

    /// Counts an entry.
    pub(crate) fn add(&mut self, placed: &PlacedEntry) -> Result<(), AllocError> {
        self.entries = self.entries.saturating_add(1);
        match placed.entry {
            Entry::Granted { .. } => self.grants = self.grants.saturating_add(1),
            Entry::Ran { .. } => self.commands = self.commands.saturating_add(1),
            _ => {}
        }
        self.first_time = self.first_time.min(placed.place.time);
        self.last_time = self.last_time.max(placed.place.time);
        if placed.is_told_by_start {
            self.keep(placed)?;
        }
        Ok(())
    }

    fn keep(&mut self, placed: &PlacedEntry) -> Result<(), AllocError> {
        // for the prover, which has to meet the types that an entry holds
        let _told = told_in(&placed.entry);
        self.told_by_starts.push(*placed)?;
        Ok(())
    }
}
