//! A store in memory.

ghost use Rattle.std.specs.Prelude.{◌≡◌, ◌≤◌, length, IfOk, OnOk, OnErr};
ghost use Rattle.smi_rows.specs.Store.{IsSame, found_in};
ghost use Rattle.smi_rows.specs.Store as store;
ghost use Rattle.smi_rows.specs.Listed as listed;

use crate::key::Key;
use crate::saved::{SavedRow, is_before};
use crate::stable::{Stable, StoreFault};
use smi_base::Tally;
use std::alloc::{AllocError, Global};
use std::marker::Model;

/// A store in memory, which fails only if memory ran out.
#[derive(Drop)]
pub struct MemoryStable {
    rows: Vec<SavedRow>,
    saves: Tally,
}

impl Model for MemoryStable {
    ghost use Rattle.std.specs.Prelude.{◌≡◌, true};
    ghost use Rattle.smi_rows.specs.Store.{rises};
    ghost use Rattle.smi_rows.specs.Listed.{InMemory};

    ghost Value = { InMemory };

    ghost view = { λ s. record { list = s.rows.items; saves = s.saves.count } };

    ghost invariant = { λ s. rises s.rows.items ≡ true };
}

impl MemoryStable {
    ghost use Rattle.std.specs.Prelude.{◌≡◌, ◌+◌, [], true, IfOk, OnOk, OnErr};
    ghost use Rattle.smi_rows.specs.Store.{rises};
    ghost use Rattle.smi_rows.specs.Listed.{put};

    /// Returns a store without rows.
    pub fn new(alloc: Global) -> MemoryStable
        ensures list { result.list ≡ [] }
        ensures saves { result.saves ≡ 0 }
    {
        MemoryStable {
            rows: Vec::new(alloc),
            saves: Tally::zero(),
        }
    }

    fn put_row(&mut self, key: Key, bytes: &[u8]) -> Result<(), AllocError>
        ensures ok { OnOk result (self.new.list ≡ put key bytes.now self.old.list) }
        ensures err { OnErr result (self.new.list ≡ self.old.list) }
        ensures saves { self.new.saves ≡ self.old.saves + 1 }
    {
        self.saves.raise();
        let copy = Vec::from_slice(*self.rows.allocator(), bytes)?;
        put(&mut self.rows, key, copy)
    }

    fn listed(&self) -> Result<Vec<SavedRow>, AllocError>
        ensures list { IfOk result (λ list. list.items ≡ self.now.list) }
        ensures rises { rises self.now.list ≡ true }
    {
        copied(&self.rows)
    }
}

/// Returns how many rows precede a key.
fn place_of(rows: &[SavedRow], key: Key) -> usize
    ensures place { result ≡ listed.place_of key rows.now }
    ensures within { result ≤ length rows.now }
{
    let mut place = 0;
    for row in rows {
        if !is_before(row.key, key) {
            return place;
        }
        place += 1;
    }
    place
}

fn is_same(a: Key, b: Key) -> bool
    ensures { result ≡ store.same_key a b }
{
    a == b
}

/// Replaces the row of this key, or puts it in its place.
fn put(rows: &mut Vec<SavedRow>, key: Key, bytes: Vec<u8>) -> Result<(), AllocError>
    ensures ok { OnOk result (rows.new.items ≡ listed.put key bytes.items rows.old.items) }
    ensures err { OnErr result (rows.new.items ≡ rows.old.items) }
{
    let place = place_of(rows, key);
    if place < rows.len() && is_same(rows[place].key, key) {
        rows[place] = SavedRow { key, bytes };
        return Ok(());
    }
    rows.insert(place, SavedRow { key, bytes })?;
    Ok(())
}

impl Stable for MemoryStable {
    ghost rows = { λ s. found_in s.list };

    ghost may_find = { λ s r. IsSame r (found_in s.list) };

    ghost is_honest = { λ _. Unit {0} };

    ghost is_open = { λ _. Unit {0} };

    // It fails only if memory ran out, which tests alone see.
    ghost failures = { λ _. 0 };

    ghost doubts = { λ _. 0 };

    ghost saves = { λ s. s.saves };

    ghost rests = { λ _ _ _ _ may. may };

    fn save(&mut self, key: Key, bytes: &[u8]) -> Result<(), StoreFault> {
        match self.put_row(key, bytes) {
            Ok(()) => Ok(()),
            Err(_) => Err(StoreFault::Memory),
        }
    }

    fn load(&mut self) -> Result<Vec<SavedRow>, StoreFault> {
        match self.listed() {
            Ok(list) => Ok(list),
            Err(_) => Err(StoreFault::Memory),
        }
    }
}

fn copied(rows: &Vec<SavedRow>) -> Result<Vec<SavedRow>, AllocError>
    ensures { IfOk result (λ list. list.items ≡ rows.now.items) }
{
    let alloc = *rows.allocator();
    let mut list = Vec::with_capacity(alloc, rows.len())?;
    for row in rows {
        let bytes = Vec::from_slice(alloc, &row.bytes)?;
        list.push(SavedRow {
            key: row.key,
            bytes,
        })?;
    }
    Ok(list)
}
