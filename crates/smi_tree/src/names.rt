//! Lists of names, found by name and by number.

ghost use Rattle.std.specs.Prelude.{ℕ, ◌≡◌, ◌≤◌, ◌<◌, length, slice_get, Some, IfSome};
ghost use Rattle.std.specs.Str.{bytes_eq};
ghost use Rattle.smi_tree.specs.Fault.{Becomes};
ghost use Rattle.smi_tree.specs.Name.{number_of};

use crate::fault::{Fault, LineRefusal};
use crate::name::{Name, NameBuf, Sought};
use crate::row::entry;
use crate::text::after_word;
use indexmap::IndexSet;
use std::alloc::{AllocError, Global};
use std::marker::Model;

/// How many marks names may have.
const MARKS: usize = 1024;

/// Returns a number below `MARKS` in which names mostly differ.
#[inline(always)]
fn mark_of(name: &Name) -> usize
    ensures { result < MARKS }
{
    let mut mark: usize = 0;
    for byte in name.text() {
        mark = mark.wrapping_mul(31).wrapping_add(usize::from(*byte));
    }
    mark % MARKS
}

/// Names, numbered from 1 in the order in which they came, each there once.
#[derive(Drop)]
pub(crate) struct Names {
    names: IndexSet<NameBuf>,
    /// At each mark the number of the last name that has it. A guess takes less than a search.
    likely: Vec<u16>,
}

impl Model for Names {
    ghost use Rattle.std.specs.Prelude.{ℕ, List, length, ◌≡◌, ◌<◌, ◌^◌, true};
    ghost use Rattle.std.specs.List.{list_all};
    ghost use Rattle.smi_tree.specs.Name.{is_name};
    ghost use Rattle.smi_tree.specs.Named.{AreOnce};

    ghost Value = { List (List ℕ) };

    ghost view = { λ n. n.names.keys };

    ghost invariant = { λ n. (length n.names.keys < 2 ^ 16) × AreOnce n.names.keys
        × (list_all is_name n.names.keys ≡ true) };
}

/// Notes the number as the likely one at this mark.
fn note(likely: &mut Vec<u16>, mark: usize, number: u16) -> Result<(), AllocError>
    requires { mark < MARKS }
{
    while likely.len() < MARKS {
        likely.push(0)?;
    }
    likely[mark] = number;
    Ok(())
}

impl Names {
    ghost use Rattle.std.specs.Prelude.{ℕ, ◌≡◌, ◌≢◌, ◌+◌, ◌<◌, ◌≤◌, ◌^◌, [], ◌∷◌, ◌++◌, length, IfSome, IsTrue};
    ghost use Rattle.std.specs.Prelude.{IsFalse, List, OnOk, None, true};
    ghost use Rattle.smi_tree.specs.Lawful.{IsBetween};
    ghost use Rattle.smi_tree.specs.Fault.{Becomes};
    ghost use Rattle.smi_tree.specs.Name.{number_of, added, is_name};
    ghost use Rattle.smi_tree.specs.Text.{words};
    ghost use Rattle.smi_tree.specs.Hierarchy.{entry};

    pub(crate) fn new(alloc: Global) -> Names
        ensures { result ≡ [] }
    {
        Names {
            names: IndexSet::new(alloc),
            likely: Vec::new(alloc),
        }
    }

    pub(crate) fn len(&self) -> usize
        ensures len { result ≡ length self.now }
        ensures small { result < 2 ^ 16 }
    {
        self.names.len()
    }

    /// Returns the number of a name, if it is there.
    #[inline(always)]
    pub(crate) fn number(&self, name: &Name) -> Option<u16>
        ensures place { result ≡ number_of self.now name.now }
        ensures within { IfSome result (IsBetween 1 (length self.now)) }
    {
        let likely = self.likely_number(name);
        if self.is_number_of(likely, name) {
            return Some(likely);
        }
        self.find(&name.sought())
    }

    /// Returns the number of the name that a text is, if it is one of these.
    #[inline(never)]
    pub(crate) fn find(&self, sought: &Sought) -> Option<u16>
        ensures place { result ≡ number_of self.now sought.now }
        ensures within { IfSome result (IsBetween 1 (length self.now)) }
    {
        let place = self.names.get_index_of(sought)?;
        Some(place as u16 + 1)
    }

    /// Returns the number that a name likely has, if it is there.
    #[inline(always)]
    fn likely_number(&self, name: &Name) -> u16 {
        match self.likely.get(mark_of(name)) {
            Some(number) => *number,
            None => 0,
        }
    }

    /// Returns what follows the name of a number and the space after it, if a text begins with these.
    #[inline(always)]
    pub(crate) fn after_name<'a>(&self, number: u16, text: &'a [u8]) -> Option<&'a [u8]>
        ensures { IfSome result (λ rest. (name : List ℕ) × (is_name name ≡ true)
            × (number_of self.now name ≡ Some number) × (words text.now ≡ name ∷ words rest.now)) }
    {
        let name = entry(self.names.as_slice(), number)?;
        after_word(text, name.text())
    }

    /// Returns true if a number is that of a name, which takes no search.
    #[inline(always)]
    pub(crate) fn is_number_of(&self, number: u16, name: &Name) -> bool
        ensures named { IsTrue result → entry self.now number ≡ Some name.now }
        ensures number { IsTrue result → number_of self.now name.now ≡ Some number }
        ensures other { IsFalse result → entry self.now number ≢ Some name.now }
    {
        match entry(self.names.as_slice(), number) {
            Some(kept) => name.is_same(kept),
            None => false,
        }
    }

    /// Returns the name of a number.
    pub(crate) fn name(&self, number: u16) -> &[u8]
        requires positive { 0 < number }
        requires within { number ≤ length self.now }
        ensures { Some result.now ≡ entry self.now number }
    {
        self.names.as_slice()[usize::from(number) - 1].text()
    }

    /// Puts a name at the end, if it is new and there is room for one more.
    pub(crate) fn add(&mut self, name: &Name, limit: usize) -> Result<(), LineRefusal>
        requires { limit < 2 ^ 16 }
        ensures { Becomes self.new result (added limit self.old name.now) }
    {
        if self.number(name).is_some() {
            return Err(LineRefusal::Faulty(Fault::Twice));
        }
        if self.names.len() >= limit {
            return Err(LineRefusal::Faulty(Fault::OverLimit));
        }
        self.push(name)?;
        Ok(())
    }

    /// Puts a new name at the end.
    pub(crate) fn push(&mut self, name: &Name) -> Result<(), AllocError>
        requires few { length self.old + 1 < 2 ^ 16 }
        requires absent { number_of self.old name.now ≡ None }
        ensures { OnOk result (self.new ≡ self.old ++ name.now ∷ []) }
    {
        self.names.insert(name.to_owned())?;
        note(&mut self.likely, mark_of(name), self.names.len() as u16)?;
        Ok(())
    }
}
