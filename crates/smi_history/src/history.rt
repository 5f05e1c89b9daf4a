//! The entries of a screen's history, the oldest first, and the look at a picture that adds to them. `smi_web` looks
//! and answers requests from it, and `crates/smi_screen/src/history_file.rt` saves it. docs/FORMATS.md, "The history of
//! a screen", says what is noted and for how long it is kept.

ghost use Rattle.std.specs.Prelude.{◌≡◌, ◌≤◌, ◌<◌, length, IfOk};
ghost use Rattle.std.specs.List.{position};
ghost use Rattle.std.specs.VecDeque.{deque_capacity};
ghost use Rattle.smi_history.specs.History as spec;

use crate::knowing::put_known;
use crate::look_time::{LookTime, day_of};
use crate::looking::{Looking, put_notes, put_silences};
use crate::note_text::NoteText;
use smi_tree::Tree;
use smi_view::Picture;
use std::alloc::{AllocError, Global};
use std::collections::VecDeque;
use std::collections::vec_deque::Iter;
use std::marker::Model;

/// The most entries that are kept, so that the memory of a screen is bounded however much happens. `most_entries`
/// (`specs/History`) and docs/FORMATS.md, "The history of a screen", have the number too.
pub const MOST_ENTRIES: usize = 1_048_576;

/// How many entries are looked through for one request, so that no request holds up others, and how many are written to
/// the file at a time. docs/FORMATS.md, "The history of a screen", has the number; a page asks for more after them
/// (`AT_ONCE` in `crates/smi_program/page/past/history.mjs`).
pub const MOST_TOLD: usize = 10_000;

/// For how many days entries are kept without `--history-days`.
pub const USUAL_DAYS: u64 = 31;

/// The milliseconds of a day.
const DAY: u64 = 86_400_000;

/// What was seen, and when: an entry without its number.
#[derive(Drop)]
pub struct HistoryNote {
    /// When it was, in milliseconds since 1970.
    pub at: u64,
    /// What was seen: `board TRK 1.6 READY`.
    pub text: NoteText,
}

/// An entry: a note, and its number.
#[derive(Drop)]
pub struct HistoryEntry {
    /// Its number, from 1 at each start of the screen, one more than that of the entry before.
    pub number: u64,
    /// What was seen.
    pub note: HistoryNote,
}

/// The history of a screen.
///
/// Contracts see how many entries there were so far, up to which they are saved, for how many days they are kept, those
/// that are, when the picture was looked at last, on which day, and of which domains the station was silent then.
#[derive(Drop)]
pub struct History {
    alloc: Global,
    /// How many entries there were so far, which is the number of the newest.
    count: u64,
    /// The number up to which entries are in a file.
    saved: u64,
    /// For how many days entries are kept from now on. `forget_older` drops those that are older.
    days: u64,
    /// The entries that are kept, the oldest first. Their numbers end with `count`.
    entries: VecDeque<HistoryEntry>,
    /// The time of the last look at the picture, in milliseconds since the screen began.
    looked: u64,
    /// The day of the last look in UTC, counted since 1970.
    day: u64,
    /// Of each domain, by number from 1, whether its station was silent at the last look. It is empty before the first
    /// one.
    silent: Vec<bool>,
}

impl Model for History {
    ghost use Rattle.std.specs.Prelude.{◌≤◌, length};
    ghost use Rattle.smi_history.specs.History.{HistoryState, most_entries};

    ghost Value = { HistoryState };

    ghost view = { λ h. record {
      count = h.count;
      saved = h.saved;
      days = h.days;
      entries = h.entries.items;
      looked = h.looked;
      day = h.day;
      silent = h.silent.items;
    } };

    ghost invariant = { λ h. length h.entries.items ≤ most_entries };
}

/// Drops the oldest entry, if no more can be kept.
fn make_room(entries: &mut VecDeque<HistoryEntry>)
    requires { length entries.old.items ≤ spec.most_entries }
    ensures items { entries.new.items ≡ spec.with_room entries.old.items }
    ensures room { length entries.new.items < spec.most_entries }
    ensures capacity { deque_capacity entries.new ≡ deque_capacity entries.old }
{
    if entries.len() == MOST_ENTRIES {
        let _oldest = entries.pop_front();
    }
}

/// Returns the number of the entry that follows this many.
fn next_number(count: u64) -> u64
    ensures { result ≡ spec.next_number count }
{
    count.saturating_add(1)
}

/// Returns the index of the first entry of this second, counted since 1970, or of a later one.
fn place_since(entries: &VecDeque<HistoryEntry>, second: u64) -> Option<usize>
    ensures { result ≡ position (spec.is_since second) entries.now.items }
{
    entries.iter().position(|entry| entry.is_since(second))
}

impl HistoryEntry {
    ghost use Rattle.std.specs.Prelude.{◌≡◌};
    ghost use Rattle.smi_history.specs.History as spec;

    /// Returns true if it is of this second, counted since 1970, or of a later one.
    fn is_since(&self, second: u64) -> bool
        ensures { result ≡ spec.is_since second self.now }
    {
        second <= self.note.at / 1_000
    }
}

impl History {
    ghost use Rattle.std.specs.Prelude.{◌≡◌, ◌-◌, length, IfOk, OnErr, OnOk};
    ghost use Rattle.std.specs.VecDeque.Iter.{deque_iter_rest, deque_iter_steps};
    ghost use Rattle.std.specs.Iterator.Runs.{YieldsRefsInOrder};
    ghost use Rattle.smi_history.specs.History as spec;

    /// Makes a history that has seen nothing.
    ///
    /// No clause names `alloc`, from which memory comes.
    pub fn new(alloc: Global) -> History
        ensures { result ≡ spec.empty }
    {
        History {
            alloc,
            count: 0,
            saved: 0,
            days: USUAL_DAYS,
            entries: VecDeque::new(alloc),
            looked: 0,
            day: 0,
            silent: Vec::new(alloc),
        }
    }

    /// Returns the allocator of the entries.
    pub(crate) fn alloc(&self) -> Global {
        self.alloc
    }

    /// Returns the time of the last look at the picture, in milliseconds since the screen began.
    pub fn looked(&self) -> u64
        ensures { result ≡ self.now.looked }
    {
        self.looked
    }

    /// Returns how many entries there were so far: the number of the newest, or 0.
    pub fn count(&self) -> u64
        ensures { result ≡ self.now.count }
    {
        self.count
    }

    /// Returns the number up to which entries are saved.
    pub fn saved(&self) -> u64
        ensures { result ≡ self.now.saved }
    {
        self.saved
    }

    /// Keeps entries for this many days from now on.
    pub fn keep_days(&mut self, days: u64)
        ensures { self.new ≡ spec.kept_for self.old days }
    {
        self.days = days;
    }

    /// Marks all entries so far as saved.
    pub fn mark_saved(&mut self)
        ensures { self.new ≡ spec.all_saved self.old }
    {
        self.saved = self.count;
    }

    /// Returns how many entries are no longer kept, which is the number of the last of these, or 0.
    pub fn dropped(&self) -> u64
        ensures { result ≡ spec.dropped self.now }
    {
        self.count.saturating_sub(self.entries.len() as u64)
    }

    /// Returns the time of the oldest entry that is kept, in milliseconds since 1970, or 0 if none is.
    pub(crate) fn oldest(&self) -> u64
        ensures { result ≡ spec.oldest self.now.entries }
    {
        match self.entries.front() {
            Some(entry) => entry.note.at,
            None => 0,
        }
    }

    /// Returns how many of the kept entries come before the first one of this second, counted since 1970, or of a later
    /// one.
    #[tactic(auto, using(crate::proofs::Cuts::at_most_kept))]
    pub(crate) fn count_before(&self, second: u64) -> usize
        ensures { result ≡ spec.count_before second self.now.entries }
    {
        match place_since(&self.entries, second) {
            Some(place) => place,
            None => self.entries.len(),
        }
    }

    /// Returns the index of the first kept entry after the one of this number. If there is none, returns how many are
    /// kept.
    fn place_after(&self, number: u64) -> usize
        ensures { result ≡ spec.place_after self.now number }
    {
        let kept = self.entries.len();
        match usize::try_from(number.saturating_sub(self.dropped())) {
            Ok(place) => place.min(kept),
            // A number that no index can be is after all entries.
            Err(_) => kept,
        }
    }

    /// Returns the entries after the one of this number, the oldest first: 10,000 at most.
    pub(crate) fn piece(&self, number: u64) -> Iter<'_, HistoryEntry>
        ensures rest { deque_iter_rest result ≡ spec.piece self.now number }
        ensures runs { YieldsRefsInOrder (deque_iter_steps {X = HistoryEntry}) deque_iter_rest }
    {
        let start = self.place_after(number);
        let end = start.saturating_add(MOST_TOLD).min(self.entries.len());
        self.entries.range(start..end)
    }

    /// Returns true if the oldest entry is from before this time, in milliseconds since 1970.
    fn begins_before(&self, time: u64) -> bool
        ensures { result ≡ spec.begins_before time self.now.entries }
    {
        match self.entries.front() {
            Some(entry) => entry.note.at < time,
            None => false,
        }
    }

    /// Drops the oldest entries up to the first that is not from before this time, in milliseconds since 1970.
    fn forget_before(&mut self, time: u64)
        ensures { self.new ≡ spec.forgotten self.old time }
    {
        while self.begins_before(time) {
            let _oldest = self.entries.pop_front();
        }
    }

    /// Drops the oldest entries that are from more days ago than entries are kept. `clock` is the time now, in
    /// milliseconds since 1970.
    pub fn forget_older(&mut self, clock: u64)
        ensures { self.new ≡ spec.forgotten self.old (spec.oldest_time self.old.days clock) }
    {
        self.forget_before(clock.saturating_sub(self.days.saturating_mul(DAY)));
    }

    /// Adds a note as the newest entry. If no more can be kept, the oldest entry is dropped.
    ///
    /// Fails only if memory is refused (tested, not proved), and changes nothing then.
    pub fn note(&mut self, note: HistoryNote) -> Result<(), AllocError>
        ensures ok { OnOk result (self.new ≡ spec.noted self.old note) }
        ensures err { OnErr result (self.new ≡ self.old) }
    {
        self.entries.reserve(1)?;
        make_room(&mut self.entries);
        self.count = next_number(self.count);
        self.entries.push_back_reserved(HistoryEntry {
            number: self.count,
            note,
        });
        Ok(())
    }

    /// Adds notes, one after the other.
    ///
    /// Fails only if memory is refused (tested, not proved). The first of them may have been added then.
    pub fn note_all(&mut self, notes: Vec<HistoryNote>) -> Result<(), AllocError>
        ensures ok { OnOk result (self.new ≡ spec.all_noted self.old notes.items) }
    {
        for note in notes {
            self.note(note)?;
        }
        Ok(())
    }

    /// Returns the notes of all that is known, if this is the first look of a day, and none at any other.
    fn known_today(&self, looking: &Looking<'_>) -> Result<Vec<HistoryNote>, AllocError>
        ensures { IfOk result (λ notes. notes.items
            ≡ spec.known_today self.now looking.now.tree.now looking.now.picture.now looking.now.moment) }
    {
        if self.day == day_of(looking.moment) {
            Ok(Vec::new(self.alloc))
        } else {
            put_known(looking)
        }
    }

    /// Returns of each domain whether its station was silent at the look before. At the first look of a day none counts
    /// as silent, so that those that are silent then are noted again.
    fn silent_before(&self, moment: LookTime) -> &[bool]
        ensures { result.now ≡ spec.silent_before self.now moment }
    {
        if self.day == day_of(moment) {
            self.silent.as_slice()
        } else {
            &[]
        }
    }

    /// Looks at a picture: drops what is too old, and notes what is new since the look before. New is each state that
    /// was shown, each record that was told, and each domain whose station fell silent or is heard again. At the first
    /// look of a day it first notes all that is known, so that a reader from there on knows the state of everything.
    ///
    /// Of an object that changed more than once since then, the newest state alone is noted. Fails only if memory is
    /// refused (tested, not proved). Some of what was new may be noted nowhere then.
    pub fn look(
        &mut self,
        tree: &Tree,
        picture: &Picture,
        moment: LookTime,
    ) -> Result<(), AllocError>
        ensures ok { OnOk result (self.new ≡ spec.looked_at self.old tree.now picture.now moment) }
    {
        let looking = Looking {
            alloc: self.alloc,
            tree,
            picture,
            from: self.looked,
            moment,
        };
        let silent = put_silences(&looking)?;
        let known = self.known_today(&looking)?;
        let notes = put_notes(&looking, self.silent_before(moment))?;
        self.forget_older(moment.clock);
        self.looked = moment.now;
        self.day = day_of(moment);
        self.silent = silent;
        self.note_all(known)?;
        self.note_all(notes)
    }
}
