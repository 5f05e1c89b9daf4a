//! Keeps the entries of a journal that are not taken yet.

ghost use Rattle.std.specs.Prelude.{◌≡◌, ◌<◌, ◌==◌, ◌∷◌, ◌++◌, [], drop, length, slice_get, option_copied, is_ok};
ghost use Rattle.std.specs.Prelude.{if◌then◌else◌};

use smi_grant::Record;
use smi_protocol::{Entry, Told};
use std::alloc::{AllocError, Global};
use std::collections::VecDeque;
use std::marker::Model;

/// The entries of a station that are not taken yet, the oldest first.
#[derive(Drop)]
pub struct EntryQueue {
    entries: VecDeque<Entry>,
}

impl Model for EntryQueue {
    ghost use Rattle.std.specs.Prelude.{List};
    ghost use Rattle.smi_protocol.specs.declared.Entry.{Entry};

    ghost Value = { List Entry };

    ghost view = { λ j. j.entries.items };
}

impl EntryQueue {
    /// Makes a journal without entries.
    pub fn new(alloc: Global) -> EntryQueue
        ensures { result ≡ [] }
    {
        EntryQueue {
            entries: VecDeque::new(alloc),
        }
    }

    /// Adds an entry at the end. If memory is refused, the journal stays as it is.
    pub fn push(&mut self, entry: &Entry) -> Result<(), AllocError>
        ensures { self.new ≡ (if is_ok result then self.old ++ entry.now ∷ [] else self.old) }
    {
        // for the prover, which has to meet the types that an entry holds
        let _told = told(entry);
        self.entries.push_back(*entry)?;
        Ok(())
    }

    /// Returns the first entry that is left.
    pub fn first(&self) -> Option<&Entry>
        ensures { option_copied result ≡ slice_get self.now 0 }
    {
        self.entries.front()
    }

    /// Removes the first entry, which was taken.
    pub fn pass(&mut self)
        requires { 0 < length self.old }
        ensures { self.new ≡ drop 1 self.old }
    {
        let _entry = self.entries.pop_front();
    }

    /// Returns how many entries are left.
    pub fn len(&self) -> usize
        ensures { result ≡ length self.now }
    {
        self.entries.len()
    }

    /// Returns true if no entry is left.
    pub fn is_empty(&self) -> bool
        ensures { result ≡ (length self.now == 0) }
    {
        self.entries.is_empty()
    }
}

/// Returns what an operator was told, with the record that it asked for, if this entry is of that.
fn told(entry: &Entry) -> Option<(Told, Option<Record>)> {
    match entry {
        Entry::Told { told, .. } => Some((*told, told.asked)),
        _ => None,
    }
}
