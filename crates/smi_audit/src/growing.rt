//! Merges journals that are read a part at a time.

ghost use Rattle.std.specs.Prelude.{◌≡◌, ◌∷◌, [], List, length, is_ok, true, IfOk, None, if◌then◌else◌};
ghost use Rattle.smi_protocol.specs.declared.Entry.{Entry};
ghost use Rattle.smi_audit.specs.Audited.{IsAudited, fits};
ghost use Rattle.smi_audit.specs.Merged.{AllEmpty, GoesFurther, Means, pushed};
ghost use Rattle.smi_audit.specs.Grown.{whole};
ghost use Rattle.smi_audit.specs.declared.merge.MergeVerdict.TheVariants.{Open};

use crate::entry_queue::EntryQueue;
use crate::merge::{Merge, MergeVerdict};
use crate::obstacle::Obstacle;
use crate::put_entry::PutEntry;
use smi_grant::Command;
use smi_protocol::Entry;
use std::alloc::{AllocError, Global};
use std::marker::Model;
use std::snapshot::Snapshot;

/// Merges the journals of stations while they are read: entries are put at their ends, and taken from their fronts.
///
/// Contracts see all entries that were put in, and what stood at the beginning.
#[derive(Drop)]
pub struct GrowingMerge<'a> {
    merge: Merge<'a>,
    /// Of each journal what was put in and not taken.
    journals: Vec<EntryQueue>,
    start: Snapshot<Merge<'a>>,
    last_put: Option<Snapshot<PutEntry>>,
}

impl<'a> Model for GrowingMerge<'a> {
    ghost use Rattle.std.specs.Prelude.{[], option_map, unwrap_or};
    ghost use Rattle.smi_audit.specs.Grown.{GrowingState, IsGrown};

    ghost Value = { GrowingState };

    ghost view = { λ g. record {
      audit = g.merge;
      left = g.journals.items;
      start = g.start.value;
      puts = unwrap_or (option_map (λ last. last.value) g.last_put) [];
    } };

    ghost invariant = { λ g. IsGrown (record {
      audit = g.merge;
      left = g.journals.items;
      start = g.start.value;
      puts = unwrap_or (option_map (λ last. last.value) g.last_put) [];
    }) };
}

/// Puts an entry at the end of the journal of this number, if there is one. If memory is refused, nothing changes.
fn push_at(journals: &mut Vec<EntryQueue>, number: usize, entry: &Entry) -> Result<(), AllocError>
    ensures { journals.new.items ≡
        (if is_ok result then pushed journals.old.items number entry.now else journals.old.items) }
{
    if number < journals.len() {
        journals[number].push(entry)?;
    }
    Ok(())
}

/// Takes entries of the journal of this number, if there is one. Returns true if any was taken.
fn advance_at(
    merge: &mut Merge<'_>,
    journals: &mut Vec<EntryQueue>,
    number: usize,
) -> Result<bool, AllocError>
    ensures further { GoesFurther merge.old journals.old.items merge.new journals.new.items }
    ensures count { length journals.new.items ≡ length journals.old.items }
{
    if number < journals.len() {
        merge.advance_one(journals.as_mut_slice(), number)
    } else {
        Ok(false)
    }
}

impl<'a> GrowingMerge<'a> {
    /// Makes one of this many journals, all empty, that goes on from what a merge has taken or assumed.
    pub fn new(
        alloc: Global,
        merge: Merge<'a>,
        count: usize,
    ) -> Result<GrowingMerge<'a>, AllocError>
        ensures start { IfOk result (λ made. made.start ≡ merge.entry) }
        ensures empty { IfOk result (λ made. made.puts ≡ []) }
        ensures count { IfOk result (λ made. length made.left ≡ count) }
    {
        let mut journals = Vec::new(alloc);
        for _ in 0..count {
            journals.push(EntryQueue::new(alloc))?;
        }
        let start = Snapshot::of(&merge);
        Ok(GrowingMerge {
            merge,
            journals,
            start,
            last_put: None,
        })
    }

    /// Puts an entry at the end of the journal of this number. If memory is refused, nothing changes.
    pub fn put(&mut self, number: usize, entry: &Entry) -> Result<(), AllocError>
        ensures put { self.new.puts ≡
            (if is_ok result then (number, entry.now) ∷ self.old.puts else self.old.puts) }
        ensures start { self.new.start ≡ self.old.start }
        ensures count { length self.new.left ≡ length self.old.left }
    {
        push_at(&mut self.journals, number, entry)?;
        let put = PutEntry {
            before: self.last_put.take(),
            number,
            entry: *entry,
        };
        self.last_put = Some(Snapshot::of(&put));
        Ok(())
    }

    /// Takes entries of the journal of this number as long as they fit and need not wait. Returns true if any was
    /// taken.
    pub fn advance(&mut self, number: usize) -> Result<bool, AllocError>
        ensures put { self.new.puts ≡ self.old.puts }
        ensures start { self.new.start ≡ self.old.start }
        ensures count { length self.new.left ≡ length self.old.left }
    {
        advance_at(&mut self.merge, &mut self.journals, number)
    }

    /// Returns what this says of all entries that were put in: `Safe` if all are taken.
    pub fn verdict(&self) -> MergeVerdict
        ensures open { result ≡ Open → AllEmpty self.now.left → ⊥ }
        ensures means { (base : List Entry) → IsAudited self.now.start base
            → Means result self.now.audit.domains.tree base (whole self.now) }
    {
        self.merge.verdict(self.journals.as_slice())
    }

    /// Returns how many entries of the journal of this number are not taken.
    pub fn left(&self, number: usize) -> usize {
        match self.journals.get(number) {
            Some(journal) => journal.len(),
            None => 0,
        }
    }

    /// Returns why an entry at the front of a journal is not taken now, `None` if `advance` takes it.
    pub fn obstacle(&self, entry: &Entry) -> Option<Obstacle>
        ensures { result ≡ None → fits self.now.audit entry.now ≡ true }
    {
        self.merge.obstacle(entry)
    }

    /// Returns the command behind a run of this number under the last grant of a domain, as
    /// [`Merge::expected_command`] does.
    pub fn expected_command(&self, domain: u16, number: u32) -> Option<Command> {
        self.merge.expected_command(domain, number)
    }
}
