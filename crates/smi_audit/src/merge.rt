//! Merges the journals of all stations into one trace, as far as that goes.

ghost use Rattle.std.specs.Prelude.{◌≡◌, ◌<◌, ◌&&◌, List, [], length, None, IfOk, OnErr, true, false};
ghost use Rattle.smi_protocol.specs.declared.Entry.{Entry};
ghost use Rattle.smi_protocol.specs.declared.Entry.TheVariants.{Passed};
ghost use Rattle.smi_protocol.specs.Grants.{put};
ghost use Rattle.smi_tree.specs.Roles.{has_domain, has_object};
ghost use Rattle.smi_audit.specs.Audited.{Assumes, IsAudited, fits, tables_of};
ghost use Rattle.smi_audit.specs.Kept.{account_of};
ghost use Rattle.smi_audit.specs.Tables.{with_domain, ordered, showed_now, passes_next, kept};
ghost use Rattle.smi_audit.specs.Teller.{has_station};
ghost use Rattle.smi_audit.specs.Merged.{AllEmpty, AllStuck, Further, GoesFurther, Means, StuckAt};
ghost use Rattle.smi_audit.specs.declared.merge.MergeVerdict.TheVariants.{Open};

use crate::audit::Audit;
use crate::entry_queue::EntryQueue;
use crate::grant_state::GrantState;
use crate::obstacle::{Obstacle, obstacle_of};
use crate::owed_runs::OwedRuns;
use smi_grant::{Command, Holder, Shown};
use smi_protocol::Entry;
use smi_tree::Tree;
use std::alloc::{AllocError, Global};
use std::marker::Model;

/// How a merge of journals ended.
#[derive(Clone, Copy, PartialEq, Eq)]
pub enum MergeVerdict {
    /// Some order of all entries makes a safe trace.
    Safe,
    /// Some entries were not taken: first parts of the journals make a safe trace.
    Open,
}

/// Merges the journals of the stations of a tree: what was taken from them, and what has to wait.
#[derive(Drop)]
pub struct Merge<'a> {
    tree: &'a Tree,
    audit: Audit<'a>,
    owed: OwedRuns<'a>,
}

impl<'a> Model for Merge<'a> {
    ghost use Rattle.smi_audit.specs.Audited.{AuditState};

    ghost Value = { AuditState };

    ghost view = { λ m. m.audit };
}

impl<'a> Merge<'a> {
    /// Makes a merge that has taken nothing.
    pub fn new(alloc: Global, tree: &'a Tree) -> Result<Merge<'a>, AllocError>
        ensures tree { IfOk result (λ merge. merge.domains.tree ≡ tree.now) }
        ensures safe { IfOk result (λ merge. IsAudited merge []) }
    {
        let audit = Audit::new(alloc, tree)?;
        let owed = OwedRuns::new(alloc, tree)?;
        Ok(Merge { tree, audit, owed })
    }

    /// Takes entries from the fronts of the journals, round after round, as long as one fits and need not wait.
    /// Returns true if any was taken; else no first entry fits, but for those that are held back. Entries may be added
    /// at the ends of the journals between two calls.
    pub fn advance(&mut self, journals: &mut [EntryQueue]) -> Result<bool, AllocError>
        ensures further { IfOk result (λ moved. GoesFurther self.old journals.old self.new journals.new) }
        ensures stuck { IfOk result (λ moved. AllStuck moved self.old journals.old self.new journals.new) }
    {
        go_through(&mut self.audit, &mut self.owed, journals)
    }

    /// Takes entries from the front of the journal at a place as long as they fit and need not wait. Returns true if
    /// any was taken.
    pub(crate) fn advance_one(
        &mut self,
        journals: &mut [EntryQueue],
        place: usize,
    ) -> Result<bool, AllocError>
        requires { place < length journals.old }
        ensures further { GoesFurther self.old journals.old self.new journals.new }
        ensures stuck { IfOk result (λ moved. StuckAt moved self.old journals.old self.new journals.new place) }
    {
        drain(&mut self.audit, &mut self.owed, journals, place)
    }

    /// Returns what this merge says of the journals of which these are left: `Safe` if nothing is.
    pub fn verdict(&self, journals: &[EntryQueue]) -> MergeVerdict
        ensures open { result ≡ Open → AllEmpty journals.now → ⊥ }
        ensures means { (base : List Entry) (from : List (List Entry)) → Further base from self.now journals.now
            → Means result self.now.domains.tree base from }
    {
        if are_empty(journals) {
            MergeVerdict::Safe
        } else {
            MergeVerdict::Open
        }
    }

    /// Returns why an entry at the front of a journal is not taken now, `None` if `advance` takes it.
    pub fn obstacle(&self, entry: &Entry) -> Option<Obstacle>
        ensures { result ≡ None → fits self.now entry.now ≡ true }
    {
        obstacle_of(&self.audit, &self.owed, self.tree, entry)
    }

    /// Returns the command behind a run of this number under the last grant of a domain: what its operator
    /// ordered under the number, or what the domain above works on and hands on as this number.
    pub fn expected_command(&self, domain: u16, number: u32) -> Option<Command> {
        match self.audit.state(domain).holder {
            Holder::Free => None,
            Holder::Operator(_) => self.audit.order_at(domain, number),
            Holder::Domain(above) => {
                if self.owed.owed(domain) == number {
                    self.audit.state(above).work
                } else {
                    None
                }
            }
        }
    }

    /// Sets what stands of a domain at the beginning, with nothing ordered under its grant. Returns false if the tree
    /// lacks the domain.
    pub fn assume(&mut self, domain: u16, state: GrantState) -> bool
        ensures { Assumes result (has_domain self.old.domains.tree domain) self.old self.new
            (with_domain (tables_of self.old) domain (account_of state [])) }
    {
        self.audit.assume(domain, state)
    }

    /// Adds a command that was ordered under a grant of the beginning. Returns false if the tree lacks the
    /// domain. If memory is refused, nothing changes.
    pub fn assume_order(&mut self, domain: u16, command: Command) -> Result<bool, AllocError>
        ensures taken { IfOk result (λ taken. Assumes taken (has_domain self.old.domains.tree domain) self.old self.new
            (with_domain (tables_of self.old) domain (ordered ((tables_of self.old).domains domain) command))) }
        ensures unchanged { OnErr result (self.new ≡ self.old) }
    {
        self.audit.assume_order(domain, command)
    }

    /// Sets the number under which the domain above has handed its command on to a domain at the beginning, if that
    /// has not ended there. Entries that wait for it are held back until it has. It has no say in what is safe.
    pub fn assume_owed(&mut self, domain: u16, number: u32)
        ensures { self.new ≡ self.old }
    {
        self.owed.set(domain, number);
    }

    /// Sets the last boot of a station at the beginning. Returns false if the tree lacks the station.
    pub fn assume_boot(&mut self, station: u16, boot: u32) -> bool
        ensures { Assumes result (has_station self.old.domains.tree station) self.old self.new
            (record (tables_of self.old) { boots = put (tables_of self.old).boots station boot }) }
    {
        self.audit.assume_boot(station, boot)
    }

    /// Sets the newest version that a station was shown of an object at the beginning, since its last start. Returns
    /// false if the tree lacks the station or the object.
    pub fn assume_shown(&mut self, station: u16, shown: Shown) -> bool
        ensures { Assumes result (has_station self.old.domains.tree station
            && has_object self.old.domains.tree shown.object) self.old self.new
            (record (tables_of self.old) { shown = showed_now (tables_of self.old).shown station shown }) }
    {
        self.audit.assume_shown(station, shown)
    }

    /// Adds a state that an object has passed at the beginning. Returns false if the tree lacks the object or the
    /// state is not newer than those it has passed. If memory is refused, nothing changes.
    pub fn assume_passed(&mut self, shown: Shown) -> Result<bool, AllocError>
        ensures taken { IfOk result (λ taken. Assumes taken (has_object self.old.domains.tree shown.object
            && passes_next ((tables_of self.old).passed shown.object) shown.version) self.old self.new
            (kept (tables_of self.old) (Passed shown))) }
        ensures unchanged { OnErr result (self.new ≡ self.old) }
    {
        self.audit.assume_passed(shown)
    }
}

/// Takes the first entry of a journal, if it fits and need not wait. Returns true if it was taken.
fn take_first(
    audit: &mut Audit<'_>,
    owed: &mut OwedRuns<'_>,
    journals: &mut [EntryQueue],
    place: usize,
) -> Result<bool, AllocError>
    requires { place < length journals.old }
    ensures further { GoesFurther audit.old journals.old audit.new journals.new }
    ensures stuck { IfOk result (λ taken. StuckAt taken audit.old journals.old audit.new journals.new place) }
{
    let Some(entry) = journals[place].first().copied() else {
        return Ok(false);
    };
    if owed.waits(audit, &entry) {
        return Ok(false);
    }
    if !audit.accept(&entry)? {
        return Ok(false);
    }
    owed.note(audit, &entry);
    journals[place].pass();
    Ok(true)
}

/// Takes entries of a journal as long as they fit. Returns true if any was taken.
fn drain(
    audit: &mut Audit<'_>,
    owed: &mut OwedRuns<'_>,
    journals: &mut [EntryQueue],
    place: usize,
) -> Result<bool, AllocError>
    requires { place < length journals.old }
    ensures further { GoesFurther audit.old journals.old audit.new journals.new }
    ensures stuck { IfOk result (λ moved. StuckAt moved audit.old journals.old audit.new journals.new place) }
{
    let count = journals[place].len();
    for number in 0..count {
        if !take_first(audit, owed, journals, place)? {
            return Ok(number > 0);
        }
    }
    Ok(count > 0)
}

/// Goes through all journals once. Returns true if any entry was taken.
fn round(
    audit: &mut Audit<'_>,
    owed: &mut OwedRuns<'_>,
    journals: &mut [EntryQueue],
) -> Result<bool, AllocError>
    ensures further { IfOk result (λ moved. GoesFurther audit.old journals.old audit.new journals.new) }
    ensures stuck { IfOk result (λ moved. AllStuck moved audit.old journals.old audit.new journals.new) }
{
    let mut moved = false;
    for place in 0..journals.len() {
        if drain(audit, owed, journals, place)? {
            moved = true;
        }
    }
    Ok(moved)
}

/// Goes through all journals as long as entries are taken. Returns true if any entry was.
fn go_through(
    audit: &mut Audit<'_>,
    owed: &mut OwedRuns<'_>,
    journals: &mut [EntryQueue],
) -> Result<bool, AllocError>
    ensures further { IfOk result (λ moved. GoesFurther audit.old journals.old audit.new journals.new) }
    ensures stuck { IfOk result (λ moved. AllStuck moved audit.old journals.old audit.new journals.new) }
{
    let mut moved = false;
    for _number in 0..u64::MAX {
        if !round(audit, owed, journals)? {
            return Ok(moved);
        }
        moved = true;
    }
    Ok(moved)
}

/// Returns true if nothing is left.
fn are_empty(journals: &[EntryQueue]) -> bool
    ensures empty { result ≡ true → AllEmpty journals.now }
    ensures left { result ≡ false → AllEmpty journals.now → ⊥ }
{
    for journal in journals {
        if !journal.is_empty() {
            return false;
        }
    }
    true
}

/// Merges the journals of the stations of a tree into one trace. If it returns `Safe`, there is an order of all their
/// entries, those of each journal in their own, in which they are a safe trace. Else that is so of first parts of the
/// journals, and what was not taken is left in them.
pub fn merge_journals(
    alloc: Global,
    tree: &Tree,
    journals: &mut [EntryQueue],
) -> Result<MergeVerdict, AllocError>
    ensures { IfOk result (λ verdict. Means verdict tree.now [] journals.old) }
{
    let mut merge = Merge::new(alloc, tree)?;
    let _moved = merge.advance(journals)?;
    Ok(merge.verdict(journals))
}
