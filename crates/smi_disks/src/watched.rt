//! A store whose files may be taken away while it is open.

ghost use Rattle.std.specs.Prelude.{◌+◌, ◌≡◌, ◌<◌, ◌≤◌, ◌⊎◌, true, Err, OnOk};
ghost use Rattle.smi_rows.specs.Store.{Rows, IsSame, with_row};
ghost use Rattle.smi_rows.specs.Store.{IfSure, IfNotSaved, IfUnsure, IfFailed, IfCalm};
ghost use Rattle.smi_disks.specs.Label.{noted_after, start_in};

use crate::label::LastStart;
use crate::surroundings::Surroundings;
use smi_base::{Tally, u32_at};
use smi_rows::{Key, RowKind, SavedRow, Stable, StoreFault};
use smi_stable::LoggedStable;
use std::alloc::Global;

/// How many bytes a boot row has at least: a head of four bytes, and the boot.
const BOOT_BYTES: usize = 8;

/// What the log of a store holds beside the file.
#[derive(Clone, Copy, PartialEq, Eq)]
pub enum LogState {
    /// Nothing that was saved since it was opened, or since it was last to be copied.
    Copied,
    /// Rows that were saved since [`LoggedStable::copy_log`] was called last.
    Grown,
    /// Rows that were saved before that call.
    Quiet,
}

/// A store that saves only while its files are in place, and notes each start in its label. If a file is gone, a
/// save is answered `Unsure` and nothing is written, so that the station stops: rows in a file that nobody can open
/// again would be lost at its next start. If a start could not be noted, its boot row is saved, and `Unsure` is
/// answered too.
#[derive(Drop)]
pub struct Watched<S, P> {
    pub store: S,
    pub surroundings: P,
    pub saves: Tally,
    /// How many saves found a file gone, or could not be noted.
    pub missed: Tally,
    /// Whether a save found a file gone.
    pub is_lost: bool,
    pub log: LogState,
}

impl<S, P> Watched<S, P> {
    ghost use Rattle.std.specs.Prelude.{◌≡◌, false};

    /// Watches over a store that is open.
    pub fn new(store: S, surroundings: P) -> Watched<S, P>
        ensures store { result.store ≡ store }
        ensures surroundings { result.surroundings ≡ surroundings }
        ensures saves { result.saves.count ≡ 0 }
        ensures missed { result.missed.count ≡ 0 }
        ensures lost { result.is_lost ≡ false }
        ensures log { result.log ≡ LogState.Copied }
    {
        Watched {
            store,
            surroundings,
            saves: Tally::zero(),
            missed: Tally::zero(),
            is_lost: false,
            log: LogState::Copied,
        }
    }

    /// Returns the store.
    pub fn into_inner(self) -> S
    where
        P: Drop,
        ensures { result ≡ self.store }
    {
        self.into_parts().0
    }

    /// Returns the store, and what is beside it.
    pub fn into_parts(self) -> (S, P)
        ensures store { result.0 ≡ self.store }
        ensures surroundings { result.1 ≡ self.surroundings }
    {
        let Watched {
            store,
            surroundings,
            saves: _,
            missed: _,
            is_lost: _,
            log: _,
        } = self;
        (store, surroundings)
    }
}

impl<S, P: Surroundings> Watched<S, P> {
    ghost use Rattle.std.specs.Prelude.{◌≡◌, ◌+◌, true, false, IfErr, OnErr, OnOk};
    ghost use Rattle.smi_disks.specs.Label.{noted_after, start_in};

    /// Returns true if its log may be copied into its file: no save found a file gone, and none is gone now. What is
    /// copied into a file without a name is lost, and the log with it.
    pub fn may_copy_log(&mut self) -> bool
        ensures lost { self.old.is_lost ≡ true → result ≡ false }
        ensures gone { P.found self.new.surroundings ≡ P.found self.old.surroundings → result ≡ false }
        ensures kept { self.new ≡ record self.old { surroundings = self.new.surroundings } }
    {
        !self.is_lost && self.surroundings.are_in_place()
    }

    /// Notes the start that a saved row is of, if it is a boot row. Its error is that the label could not be written.
    fn note(&mut self, key: Key, bytes: &[u8]) -> Result<(), StoreFault>
        ensures store { self.new.store ≡ self.old.store }
        ensures saves { self.new.saves ≡ self.old.saves }
        ensures log { self.new.log ≡ self.old.log }
        ensures found { P.found self.new.surroundings ≡ P.found self.old.surroundings }
        ensures noted { OnOk result (P.noted self.new.surroundings
            ≡ noted_after (start_in key bytes.now) (P.noted self.old.surroundings)) }
        ensures unsure { IfErr result (λ fault. fault ≡ StoreFault.Unsure) }
        ensures missed { OnErr result (self.new.missed.count ≡ self.old.missed.count + 1) }
        ensures kept { OnOk result (self.new.missed ≡ self.old.missed) }
    {
        match start_in(key, bytes) {
            Some(start) if !self.surroundings.note(start) => {}
            _ => return Ok(()),
        }
        self.missed.raise();
        Err(StoreFault::Unsure)
    }
}

/// Returns the start that a row is of, if it is a boot row.
fn start_in(key: Key, bytes: &[u8]) -> Option<LastStart>
    ensures { result ≡ start_in key bytes.now }
{
    match key.kind() {
        Some(RowKind::Boot) if bytes.len() >= BOOT_BYTES => Some(LastStart {
            station: key.station,
            boot: u32_at(bytes, 4),
        }),
        _ => None,
    }
}

impl<S: Stable, P: Surroundings> Stable for Watched<S, P> {
    ghost rows = { λ w. S.rows w.store };

    ghost may_find = { λ w. S.may_find w.store };

    ghost is_honest = { λ w. S.is_honest w.store };

    ghost is_open = { λ w. S.is_open w.store };

    ghost failures = { λ w. S.failures w.store + w.missed.count };

    ghost doubts = { λ w. S.doubts w.store + w.missed.count };

    ghost saves = { λ w. w.saves.count };

    ghost rests = { λ w. S.rests w.store };

    fn save(&mut self, key: Key, bytes: &[u8]) -> Result<(), StoreFault>
        ensures saved { S.is_honest self.new.store
            → OnOk result (S.is_open self.new.store × IsSame (S.rows self.new.store)
            (with_row key bytes.now (S.rows self.old.store))) }
        ensures kept { S.is_honest self.new.store → IfNotSaved result
            (S.is_open self.old.store → S.is_open self.new.store
            × IsSame (S.rows self.new.store) (S.rows self.old.store)) }
        ensures unsure { S.is_honest self.new.store → S.is_open self.new.store
            → IfUnsure result (IsSame (S.rows self.new.store) (S.rows self.old.store)
            ⊎ IsSame (S.rows self.new.store) (with_row key bytes.now (S.rows self.old.store))) }
        ensures crash { S.is_honest self.new.store → S.is_open self.old.store → (r : Rows)
            → S.may_find self.new.store r → IsSame r (S.rows self.old.store)
            ⊎ IsSame r (with_row key bytes.now (S.rows self.old.store)) }
        ensures honest { S.is_honest self.new.store → S.is_honest self.old.store }
        ensures saves { self.new.saves.count ≡ self.old.saves.count + 1 }
        ensures failures { S.failures self.old.store + self.old.missed.count ≤ S.failures self.new.store
            + self.new.missed.count }
        ensures cause { IfFailed result (S.failures self.old.store + self.old.missed.count
            < S.failures self.new.store + self.new.missed.count) }
        ensures calm { IfCalm result (S.failures self.new.store + self.new.missed.count
            ≡ S.failures self.old.store + self.old.missed.count) }
        ensures doubt { IfUnsure result (S.doubts self.old.store + self.old.missed.count
            < S.doubts self.new.store + self.new.missed.count) }
        ensures sure { IfSure result (S.doubts self.new.store + self.new.missed.count
            ≡ S.doubts self.old.store + self.old.missed.count) }
        // Unless its files were found in place, nothing is saved, and it is lost.
        ensures gone { P.found self.new.surroundings ≡ P.found self.old.surroundings
            → (self.new.store ≡ self.old.store) × (result ≡ Err StoreFault.Unsure) × (self.new.is_lost ≡ true) }
        // The start of a boot row is noted once the row is saved.
        ensures noted { OnOk result (P.noted self.new.surroundings
            ≡ noted_after (start_in key bytes.now) (P.noted self.old.surroundings)) }
        ensures grown { OnOk result (self.new.log ≡ LogState.Grown) }
    {
        self.saves.raise();
        if !self.surroundings.are_in_place() {
            self.is_lost = true;
            self.missed.raise();
            return Err(StoreFault::Unsure);
        }
        self.log = LogState::Grown;
        self.store.save(key, bytes)?;
        self.note(key, bytes)
    }

    fn load(&mut self) -> Result<Vec<SavedRow>, StoreFault> {
        self.store.load()
    }
}

impl<S: LoggedStable, P: Surroundings> LoggedStable for Watched<S, P> {
    /// Copies the log at the second call after a save, so that it is copied once nothing was saved for a while. It is
    /// left as it is while a file is gone, because the one that is open may then be another one's.
    fn copy_log(&mut self, alloc: Global) -> Result<(), StoreFault>
        ensures open { S.is_honest self.new.store → S.is_open self.old.store
            → IfSure result (S.is_open self.new.store) }
        ensures kept { S.is_honest self.new.store → S.is_open self.old.store → S.is_open self.new.store
            → IsSame (S.rows self.new.store) (S.rows self.old.store) }
        ensures crash { S.is_honest self.new.store → S.is_open self.old.store → (r : Rows)
            → S.may_find self.new.store r → IsSame r (S.rows self.old.store) }
        ensures honest { S.is_honest self.new.store → S.is_honest self.old.store }
        ensures saves { self.new.saves.count ≡ self.old.saves.count }
        ensures failures { S.failures self.old.store + self.old.missed.count ≤ S.failures self.new.store
            + self.new.missed.count }
        ensures cause { IfFailed result (S.failures self.old.store + self.old.missed.count
            < S.failures self.new.store + self.new.missed.count) }
        ensures calm { IfCalm result (S.failures self.new.store + self.new.missed.count
            ≡ S.failures self.old.store + self.old.missed.count) }
        ensures doubt { IfUnsure result (S.doubts self.old.store + self.old.missed.count
            < S.doubts self.new.store + self.new.missed.count) }
        ensures sure { IfSure result (S.doubts self.new.store + self.new.missed.count
            ≡ S.doubts self.old.store + self.old.missed.count) }
        // Nothing is copied unless the files were found in place, nor by a store that is lost.
        ensures gone { P.found self.new.surroundings ≡ P.found self.old.surroundings
            → self.new.store ≡ self.old.store }
        ensures lost { self.old.is_lost ≡ true → self.new.store ≡ self.old.store }
        // The first call after a save copies nothing.
        ensures waits { self.old.log ≡ LogState.Grown
            → (self.new.log ≡ LogState.Quiet) × (self.new.store ≡ self.old.store) }
    {
        match self.log {
            LogState::Copied => Ok(()),
            LogState::Grown => {
                self.log = LogState::Quiet;
                Ok(())
            }
            LogState::Quiet => {
                if self.may_copy_log() {
                    self.log = LogState::Copied;
                    self.store.copy_log(alloc)?;
                    self.surroundings.note_copy();
                }
                Ok(())
            }
        }
    }
}
