use crate::answer::{WatchAnswer, WatchFault};
use crate::cell::{Cell, Sides};
use crate::lists::{Axis, Lists};
use crate::walk::Walk;
use crate::watcher::Watcher;
use std::alloc::{AllocError, Global};
use std::marker::Model;
use std_alloc::room::Vacant;

/// How many stations may watch an object at a time.
pub const MOST_WATCHERS: usize = 64;

/// A list for each station, found by its number, 1 to 128; the list of number 0 stays empty.
const STATION_LISTS: u16 = 129;

/// A cell that is in no list.
const NO_LINKS: Sides = Sides {
    before: None,
    after: None,
};

/// The watcher lists of a station, one for each object (docs/PROTOCOL.md, "Watching").
///
/// An object's list has at most 64 entries, and at most one of each station. Contracts see the list
/// of these lists, that of object 1 first, and how many cells the last leaving looked at.
///
/// Each entry is a cell of its own on the heap, which is in the list of its object and in that
/// of its station. It is given back once: when it is taken out, or when the `Watchers` is dropped.
pub struct Watchers {
    lists: Lists,
    visits: u32,
}

impl Model for Watchers {
    ghost use Rattle.smi_watchers.specs.Listing.{Listing};
    ghost use Rattle.smi_watchers.specs.Kept.{IsKept, lists_of};

    ghost Value = { Listing };

    ghost view = { λ w. record { lists = lists_of w.lists; visits = w.visits } };

    ghost invariant = { λ w. IsKept w.lists };
}

impl Drop for Watchers {
    fn drop(mut self) {
        for number in 0..STATION_LISTS {
            self.clear(number);
        }
        let Watchers { lists, visits: _ } = self;
        lists.end();
    }
}

impl Watchers {
    ghost use Rattle.std.specs.Prelude.{
      ◌≡◌,
      ◌≢◌,
      ◌↔◌,
      ◌≤◌,
      ◌<◌,
      [],
      length,
      nat_eq,
      position,
      replicate,
      slice_get,
      None,
      IfOk,
      OnOk,
      OnErr,
    };
    ghost use Rattle.smi_base.specs.declared.trees.TheConstants.{MOST_STATIONS};
    ghost use Rattle.smi_watchers.specs.Listing.{Listing};
    ghost use Rattle.smi_watchers.specs.Watching.{
      IsAudience,
      IsFullFor,
      most_watchers,
      is_of,
      listed,
      others_of,
      answer_in,
      watched,
      unwatched,
      left_by,
      entries_of,
      renewed,
    };

    /// Returns lists for the objects 1 to `objects`, which nobody watches.
    ///
    /// It fails only if memory ran out, which tests alone see.
    pub fn new(alloc: Global, objects: u16) -> Result<Watchers, AllocError>
        ensures lists { IfOk result (λ watchers. watchers.lists ≡ replicate objects []) }
        ensures visits { IfOk result (λ watchers. watchers.visits ≡ 0) }
    {
        Ok(Watchers {
            lists: Lists::new(alloc, objects, STATION_LISTS)?,
            visits: 0,
        })
    }

    /// Has a station, 1 to 128, watch an object with this boot of its own as echo.
    ///
    /// It becomes the last in the object's list; if it is there already, the newer echo stays in
    /// its place. `Full` comes exactly where 64 other stations watch the object, `Memory` only where
    /// the list had to grow and could not. Neither changes anything.
    pub fn watch(&mut self, object: u16, station: u16, echo: u32) -> Result<WatchAnswer, WatchFault>
        requires object_least { 1 ≤ object }
        requires object_most { object ≤ length self.old.lists }
        requires station_least { 1 ≤ station }
        requires station_most { station ≤ MOST_STATIONS }
        ensures answer { IfOk result (λ answer. answer ≡ answer_in (listed self.old.lists object) station echo) }
        ensures lists { OnOk result (self.new.lists ≡ watched self.old.lists object station echo) }
        ensures full { (result ≡ Err WatchFault.Full) ↔ IsFullFor station (listed self.old.lists object) }
        ensures memory { result ≡ Err WatchFault.Memory
            → answer_in (listed self.old.lists object) station echo ≡ WatchAnswer.Added }
        ensures err { OnErr result (self.new ≡ self.old) }
        ensures objects { length self.new.lists ≡ length self.old.lists }
        ensures visits { self.new.visits ≡ self.old.visits }
    {
        if let Some(place) = self.lists.place_of(usize::from(object) - 1, station) {
            return Ok(self.lists.renew_at(place, echo));
        }
        if self.is_full(object) {
            return Err(WatchFault::Full);
        }
        let Ok(room) = self.lists.room() else {
            return Err(WatchFault::Memory);
        };
        self.add(room, object, station, echo);
        Ok(WatchAnswer::Added)
    }

    /// Has a station, 1 to 128, leave every list and then watch an object again, the last in its list.
    ///
    /// `Memory` changes nothing. `Full` comes where 64 other stations watch the object: the station
    /// has left every list then.
    pub fn renew(&mut self, object: u16, station: u16, echo: u32) -> Result<WatchAnswer, WatchFault>
        requires object_least { 1 ≤ object }
        requires object_most { object ≤ length self.old.lists }
        requires station_least { 1 ≤ station }
        requires station_most { station ≤ MOST_STATIONS }
        ensures answer { IfOk result (λ answer. answer ≡ WatchAnswer.Added) }
        ensures lists { OnOk result (self.new.lists ≡ renewed self.old.lists object station echo) }
        ensures room { OnOk result (length (others_of station (listed self.old.lists object)) < most_watchers) }
        ensures full { result ≡ Err WatchFault.Full → IsFullFor station (listed self.old.lists object) }
        ensures after_full { result ≡ Err WatchFault.Full → self.new.lists ≡ left_by station self.old.lists }
        ensures after_memory { result ≡ Err WatchFault.Memory → self.new ≡ self.old }
        ensures objects { length self.new.lists ≡ length self.old.lists }
        ensures visits { result ≢ Err WatchFault.Memory → self.new.visits ≡ entries_of station self.old.lists }
    {
        let Ok(reserved) = self.lists.room() else {
            return Err(WatchFault::Memory);
        };
        self.leave(station);
        if self.is_full(object) {
            let _alloc = reserved.free();
            return Err(WatchFault::Full);
        }
        self.add(reserved, object, station, echo);
        Ok(WatchAnswer::Added)
    }

    /// Returns true if as many stations watch an object as may.
    fn is_full(&self, object: u16) -> bool
        requires object_least { 1 ≤ object }
        requires object_most { object ≤ length self.now.lists }
        ensures full { result ≡ nat_eq (length (listed self.now.lists object)) most_watchers }
        ensures lawful { IsAudience (listed self.now.lists object) }
    {
        self.count(object) == MOST_WATCHERS
    }

    /// Has a station watch an object that it does not watch, the last in its list.
    fn add(&mut self, room: Vacant<Cell, Global>, object: u16, station: u16, echo: u32)
        requires object_least { 1 ≤ object }
        requires object_most { object ≤ length self.old.lists }
        requires station { station ≤ MOST_STATIONS }
        requires absent { position (is_of station) (listed self.old.lists object) ≡ None }
        requires few { length (listed self.old.lists object) < most_watchers }
        ensures { self.new ≡ record { lists = watched self.old.lists object station echo; visits = self.old.visits } }
    {
        let cell = Cell {
            object: object - 1,
            station,
            echo,
            by_object: NO_LINKS,
            by_station: NO_LINKS,
        };
        self.lists.add(room, cell);
    }

    /// Has a station, 1 to 128, watch an object no more, unless its echo in the list is newer than this one.
    pub fn unwatch(&mut self, object: u16, station: u16, echo: u32)
        requires object_least { 1 ≤ object }
        requires object_most { object ≤ length self.old.lists }
        requires station_least { 1 ≤ station }
        requires station_most { station ≤ MOST_STATIONS }
        ensures lists { self.new.lists ≡ unwatched self.old.lists object station echo }
        ensures objects { length self.new.lists ≡ length self.old.lists }
        ensures visits { self.new.visits ≡ self.old.visits }
    {
        if let Some(place) = self.lists.place_of(usize::from(object) - 1, station) {
            if self.lists.cell(place).echo <= echo {
                self.lists.take_out(place);
            }
        }
    }

    /// Has a station, 1 to 128, leave every list. Returns how many entries it had.
    ///
    /// It takes cells from the beginning of the station's own list alone, and counts its looks at a front
    /// cell: [`Watchers::visits`] tells how many they were.
    pub fn leave(&mut self, station: u16) -> usize
        requires station_least { 1 ≤ station }
        requires station_most { station ≤ MOST_STATIONS }
        ensures lists { self.new.lists ≡ left_by station self.old.lists }
        ensures gone { result ≡ entries_of station self.old.lists }
        ensures objects { length self.new.lists ≡ length self.old.lists }
        ensures visits { self.new.visits ≡ entries_of station self.old.lists }
    {
        self.clear(station);
        self.visits as usize
    }

    /// Takes the cells of a station from the beginning of its list until none is left; each look at one is counted.
    fn clear(&mut self, station: u16)
        requires { station < 129 }
        ensures { self.new ≡ record {
          lists = left_by station self.old.lists;
          visits = entries_of station self.old.lists;
        } }
    {
        self.visits = 0;
        while let Some(place) = self.lists.first(Axis::Station, usize::from(station)) {
            self.visits += 1;
            self.lists.take_out(place);
        }
    }

    /// Returns how many front cells the last [`Watchers::leave`] or [`Watchers::renew`] looked at, 0 before the
    /// first. A `renew` that was refused because memory ran out looked at none and left the number.
    pub fn visits(&self) -> u32
        ensures { result ≡ self.now.visits }
    {
        let Watchers { visits, .. } = self;
        *visits
    }

    /// Returns the entry of an object's list at place `i`, the first at 0; none past the end.
    pub fn nth(&self, object: u16, i: usize) -> Option<Watcher>
        requires object_least { 1 ≤ object }
        requires object_most { object ≤ length self.now.lists }
        ensures entry { result ≡ slice_get (listed self.now.lists object) i }
        ensures lawful { IsAudience (listed self.now.lists object) }
    {
        self.walk(object).nth(i)
    }

    /// Returns how many stations watch an object, at most 64.
    pub fn count(&self, object: u16) -> usize
        requires object_least { 1 ≤ object }
        requires object_most { object ≤ length self.now.lists }
        ensures count { result ≡ length (listed self.now.lists object) }
        ensures lawful { IsAudience (listed self.now.lists object) }
    {
        self.walk(object).count()
    }

    /// Returns the stations that watch an object, in the order of its list.
    pub fn walk(&self, object: u16) -> Walk<'_>
        requires object_least { 1 ≤ object }
        requires object_most { object ≤ length self.now.lists }
        ensures entries { result ≡ listed self.now.lists object }
        ensures lawful { IsAudience (listed self.now.lists object) }
    {
        Walk {
            steps: self.lists.steps(usize::from(object) - 1),
        }
    }
}
