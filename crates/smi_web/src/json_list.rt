//! Appends lists of things that are numbered from 1, as the domains of a tree. The files of this crate that write JSON
//! or metrics implement `Listing` for each kind of list.

ghost use Rattle.std.specs.Prelude.{ℕ, List, ◌≡◌, ◌++◌, OnOk, codes};
ghost use Rattle.smi_web.specs.Json.{listed, separator};

use smi_history::put;
use std::alloc::AllocError;

/// A list that has a text for each number from 1.
pub(crate) trait Listing {
    ghost text: { Self → ℕ → List ℕ };

    /// Appends the text of a number.
    fn put(&self, into: &mut Vec<u8>, number: u16) -> Result<(), AllocError>
        ensures { OnOk result (into.new.items ≡ into.old.items ++ text self.now number) };
}

/// Appends `between`, but for the first text of a list, whose index `place` is 0.
fn put_separator(text: &mut Vec<u8>, between: &[u8], place: u16) -> Result<(), AllocError>
    ensures { OnOk result (text.new.items ≡ text.old.items ++ separator between.now place) }
{
    if place == 0 {
        Ok(())
    } else {
        put(text, between)
    }
}

/// Appends the text of a number, and before it `between` unless it is the first. `place` is its index, from 0.
fn put_next<L: Listing>(
    text: &mut Vec<u8>,
    between: &[u8],
    listing: &L,
    place: u16,
    number: u16,
) -> Result<(), AllocError>
    ensures { OnOk result (text.new.items ≡
        text.old.items ++ separator between.now place ++ L.text listing.now number) }
{
    put_separator(text, between, place)?;
    listing.put(text, number)
}

/// Appends the texts of the numbers from 1 to `count`, with `between` between two of them.
#[tactic(auto, using(crate::proofs::Numbered::listed_next))]
pub(crate) fn put_listed<L: Listing>(
    text: &mut Vec<u8>,
    between: &[u8],
    listing: &L,
    count: u16,
) -> Result<(), AllocError>
    ensures { OnOk result (text.new.items ≡ text.old.items ++ listed between.now (L.text listing.now) count) }
{
    for place in 0..count {
        put_next(text, between, listing, place, place + 1)?;
    }
    Ok(())
}

/// Appends `before` and then the texts with commas between them. The opening bracket is in `before`, and the caller
/// appends the closing one.
pub(crate) fn put_list<L: Listing>(
    text: &mut Vec<u8>,
    before: &[u8],
    listing: &L,
    count: u16,
) -> Result<(), AllocError>
    ensures { OnOk result (text.new.items ≡
        text.old.items ++ before.now ++ listed (codes ",") (L.text listing.now) count) }
{
    put(text, before)?;
    put_listed(text, b",", listing, count)
}
