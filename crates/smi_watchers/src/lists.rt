//! The lists in which the cells are: linking, without a pointer.
use crate::answer::WatchAnswer;
use crate::cell::{Cell, Sides, Spot};
use crate::cells::Cells;
use crate::steps::Steps;
use std::alloc::{AllocError, Global};
use std::marker::Model;
use std_alloc::room::Vacant;

/// In which of its two lists a cell is looked at.
#[derive(Clone, Copy)]
pub(crate) enum Axis {
    Object,
    Station,
}

/// The cells, and the head of each list.
///
/// A head is the node `None` of its list's ring, so that a cell is linked and unlinked in the same
/// way wherever it is. Contracts see the cells and the heads.
pub(crate) struct Lists {
    cells: Cells,
    objects: Vec<Sides>,
    stations: Vec<Sides>,
    alloc: Global,
}

impl Model for Lists {
    ghost use Rattle.smi_watchers.specs.Net.{Net};

    ghost Value = { Net };

    ghost view = { λ l. record { held = l.cells.held; objects = l.objects.items; stations = l.stations.items } };
}

impl Lists {
    ghost use Rattle.std.specs.Prelude.{◌≡◌, ◌<◌, ◌≤◌, [], length, find, replicate, Some, None, IsSome, IfOk};
    ghost use Rattle.smi_watchers.specs.Held.{found};
    ghost use Rattle.smi_watchers.specs.Net.{
      IsNode,
      IsLinked,
      MayLink,
      neighbours,
      with_links,
      with_next,
      with_prev,
      unlinked,
      linked,
      cell_at,
      with_cell,
      without_cell,
      no_links,
      next,
      taken_out,
      put_in,
      with_newer,
    };
    ghost use Rattle.smi_watchers.specs.Mesh.{IsWhole};
    ghost use Rattle.smi_watchers.specs.Walked.{steps_of, place_in};
    ghost use Rattle.smi_watchers.specs.Kept.{watcher_of};
    ghost use Rattle.smi_watchers.specs.Watching.{answer_at};
    ghost use Rattle.smi_watchers.specs.declared.cell.Spot.{Spot as CellAt};

    /// Returns no cell, and a head for each list.
    ///
    /// It fails only if memory ran out, which tests alone see.
    pub fn new(alloc: Global, objects: u16, stations: u16) -> Result<Lists, AllocError>
        ensures cells { IfOk result (λ lists. lists.held ≡ []) }
        ensures objects { IfOk result (λ lists. lists.objects ≡ replicate objects no_links) }
        ensures stations { IfOk result (λ lists. lists.stations ≡ replicate stations no_links) }
    {
        let none = Sides {
            before: None,
            after: None,
        };
        let objects = Vec::from_elem(alloc, none, usize::from(objects))?;
        let stations = Vec::from_elem(alloc, none, usize::from(stations))?;
        Ok(Lists {
            cells: Cells::new(),
            objects,
            stations,
            alloc,
        })
    }

    /// Ends when there is no cell left.
    pub fn end(self)
        requires { self.held ≡ [] }
    {
        let Lists {
            cells,
            objects: _,
            stations: _,
            alloc: _,
        } = self;
        cells.end();
    }

    /// Returns what is before and after a node of a list's ring: a cell, or the head if there is none.
    fn links(&self, axis: Axis, list: usize, node: Option<Spot>) -> Sides
        requires { IsNode axis list node self.now }
        ensures { result ≡ neighbours axis list self.now node }
    {
        match node {
            Some(place) => {
                let cell = self.cells.read(place);
                match axis {
                    Axis::Object => cell.by_object,
                    Axis::Station => cell.by_station,
                }
            }
            None => match axis {
                Axis::Object => self.objects[list],
                Axis::Station => self.stations[list],
            },
        }
    }

    /// Sets the neighbours of a node.
    fn set_links(&mut self, axis: Axis, list: usize, node: Option<Spot>, links: Sides)
        requires { IsNode axis list node self.old }
        ensures { self.new ≡ with_links axis list node links self.old }
    {
        match node {
            Some(place) => {
                let mut cell = self.cells.read(place);
                match axis {
                    Axis::Object => cell.by_object = links,
                    Axis::Station => cell.by_station = links,
                }
                self.cells.write(place, cell);
            }
            None => match axis {
                Axis::Object => self.objects[list] = links,
                Axis::Station => self.stations[list] = links,
            },
        }
    }

    /// Sets the node that comes after one.
    fn set_after(&mut self, axis: Axis, list: usize, node: Option<Spot>, after: Option<Spot>)
        requires { IsNode axis list node self.old }
        ensures { self.new ≡ with_next axis list node after self.old }
    {
        let links = self.links(axis, list, node);
        let links = Sides {
            before: links.before,
            after,
        };
        self.set_links(axis, list, node, links);
    }

    /// Sets the node that comes before one.
    fn set_before(&mut self, axis: Axis, list: usize, node: Option<Spot>, before: Option<Spot>)
        requires { IsNode axis list node self.old }
        ensures { self.new ≡ with_prev axis list node before self.old }
    {
        let links = self.links(axis, list, node);
        let links = Sides {
            before,
            after: links.after,
        };
        self.set_links(axis, list, node, links);
    }

    /// Takes a cell out of one of its lists: its neighbours are joined.
    fn unlink(&mut self, axis: Axis, list: usize, place: Spot)
        requires { IsLinked axis list place self.old }
        ensures { self.new ≡ unlinked axis list place self.old }
    {
        let Sides { before, after } = self.links(axis, list, Some(place));
        self.set_after(axis, list, before, after);
        self.set_before(axis, list, after, before);
    }

    /// Makes a cell the last of a list.
    fn link_last(&mut self, axis: Axis, list: usize, place: Spot)
        requires { MayLink axis list place self.old }
        ensures { self.new ≡ linked axis list place self.old }
    {
        let last = self.links(axis, list, None).before;
        let links = Sides {
            before: last,
            after: None,
        };
        self.set_links(axis, list, Some(place), links);
        self.set_after(axis, list, last, Some(place));
        self.set_before(axis, list, None, Some(place));
    }

    /// Returns the first cell of a list.
    pub fn first(&self, axis: Axis, list: usize) -> Option<Spot>
        requires { IsNode axis list None self.now }
        ensures { result ≡ next axis list self.now None }
    {
        self.links(axis, list, None).after
    }

    /// Returns what a cell holds.
    pub fn cell(&self, place: Spot) -> Cell
        requires { IsSome (found place.at self.now.held) }
        ensures { result ≡ cell_at self.now place }
    {
        self.cells.read(place)
    }

    /// Returns the cells of an object's list, in its order.
    pub fn steps(&self, object: usize) -> Steps<'_>
        requires whole { IsWhole self.now }
        requires object { object < length self.now.objects }
        ensures { result ≡ steps_of self.now object }
    {
        Steps {
            lists: self,
            next: self.first(Axis::Object, object),
        }
    }

    /// Returns the place of a station's cell in an object's list, if it is there.
    pub fn place_of(&self, object: usize, station: u16) -> Option<Spot>
        requires whole { IsWhole self.now }
        requires object { object < length self.now.objects }
        ensures { result ≡ place_in station (steps_of self.now object) }
    {
        for (place, cell) in self.steps(object) {
            if cell.station == station {
                return Some(place);
            }
        }
        None
    }

    /// Takes room for one more cell.
    ///
    /// It fails only if memory ran out, which tests alone see.
    pub fn room(&self) -> Result<Vacant<Cell, Global>, AllocError> {
        match Vacant::take(self.alloc) {
            Ok(room) => Ok(room),
            Err(_) => Err(AllocError),
        }
    }

    /// Puts a new cell, in neither list yet.
    fn fill(&mut self, room: Vacant<Cell, Global>, cell: Cell) -> Spot
        ensures { (self.new ≡ with_cell result cell self.old) × (found result.at self.old.held ≡ None) }
    {
        self.cells.fill(room, cell)
    }

    /// Gives a cell's block back.
    fn free(&mut self, place: Spot)
        requires { IsSome (found place.at self.old.held) }
        ensures { self.new ≡ without_cell place self.old }
    {
        let room = self.cells.empty(place, self.alloc);
        let _alloc = room.free();
    }

    /// Adds a new cell at the end of its object's list and of its station's.
    pub fn add(&mut self, room: Vacant<Cell, Global>, cell: Cell)
        requires whole { IsWhole self.old }
        requires object { cell.object < length self.old.objects }
        requires station { cell.station < length self.old.stations }
        ensures { (place : CellAt) × (found place.at self.old.held ≡ None) × (self.new ≡ put_in place cell self.old) }
    {
        let place = self.fill(room, cell);
        self.link_last(Axis::Object, usize::from(cell.object), place);
        self.link_last(Axis::Station, usize::from(cell.station), place);
    }

    /// Takes a cell out of both of its lists and gives it back.
    pub fn take_out(&mut self, place: Spot)
        requires whole { IsWhole self.old }
        requires held { IsSome (found place.at self.old.held) }
        ensures { self.new ≡ taken_out place self.old }
    {
        let cell = self.cell(place);
        self.unlink(Axis::Object, usize::from(cell.object), place);
        self.unlink(Axis::Station, usize::from(cell.station), place);
        self.free(place);
    }

    /// Gives a cell this echo, if it is newer than its own.
    pub fn renew_at(&mut self, place: Spot, echo: u32) -> WatchAnswer
        requires { IsSome (found place.at self.old.held) }
        ensures answer { result ≡ answer_at (Some (watcher_of (cell_at self.old place))) echo }
        ensures lists { self.new ≡ with_newer place echo self.old }
    {
        let mut cell = self.cells.read(place);
        if cell.echo < echo {
            cell.echo = echo;
            self.cells.write(place, cell);
            WatchAnswer::Replaced
        } else if cell.echo == echo {
            WatchAnswer::Present
        } else {
            WatchAnswer::Older
        }
    }
}
