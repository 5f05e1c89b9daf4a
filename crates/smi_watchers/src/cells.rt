//! The owner of all cells: the only code that follows a pointer.
//!
//! Each function here reads, writes, makes or gives back one whole cell. Which cell lies where is
//! ghost data, and no list is known here: linking is ordinary code above it.
ghost use Rattle.std.specs.Prelude.{List};
ghost use denote.RawPtr.{Ptr};
ghost use Rattle.smi_watchers.specs.declared.cell.Cell.{Cell};

use crate::cell::{Cell, Spot};
use std::alloc::Global;
use std::marker::{Model, Send};
use std_alloc::room::Vacant;

/// The cells, each in a block of its own on the heap. It takes no space.
///
/// It can be let go only by [`Cells::end`], when no cell is left: a forgotten cell is refused.
pub(crate) struct Cells {
    ghost held: { List (Ptr × Cell) },
}

impl Model for Cells {
    ghost use Rattle.smi_watchers.specs.Memory.{cells_own, cells_lent};

    ghost also_owns = { λ c. cells_own c.held };

    ghost also_shares = { λ c _ κ. cells_lent c.held κ };
}

// All that it owns is blocks of `Global` and plain data in them, which is the same to each thread: proved, as for any
// struct that owns memory, in proofs/cells/Cells/TheSendSync.
unsafe impl Send for Cells {}

impl Cells {
    ghost use Rattle.std.specs.Prelude.{◌≡◌, ◌∷◌, [], Some, None, IsSome};
    ghost use Rattle.smi_watchers.specs.Held.{found, without};

    /// Returns no cells.
    pub fn new() -> Cells
        ensures { result.held ≡ [] }
    {
        Cells {}
    }

    /// Ends when there is no cell left.
    pub fn end(self)
        requires { self.held ≡ [] }
    {
        let Cells {} = self;
    }

    /// Puts one more cell, in room that was taken before.
    pub fn fill(&mut self, room: Vacant<Cell, Global>, cell: Cell) -> Spot
        ensures { (self.new.held ≡ (result.at, cell) ∷ self.old.held) × (found result.at self.old.held ≡ None) }
    {
        let Vacant { ptr, alloc: _ } = room;
        unsafe {
            ptr.write(cell);
        }
        Spot { at: ptr }
    }

    /// Takes a cell out, and leaves its block empty.
    pub fn empty(&mut self, place: Spot, alloc: Global) -> Vacant<Cell, Global>
        requires { IsSome (found place.at self.old.held) }
        ensures { self.new.held ≡ without place.at self.old.held }
    {
        Vacant {
            ptr: place.at,
            alloc,
        }
    }

    /// Reads what a cell holds.
    pub fn read(&self, place: Spot) -> Cell
        requires { IsSome (found place.at self.now.held) }
        ensures { found place.at self.now.held ≡ Some result }
    {
        unsafe { *place.at }
    }

    /// Writes what a cell holds from now on.
    pub fn write(&mut self, place: Spot, cell: Cell)
        requires { IsSome (found place.at self.old.held) }
        ensures { self.new.held ≡ (place.at, cell) ∷ without place.at self.old.held }
    {
        unsafe {
            *place.at = cell;
        }
    }
}
