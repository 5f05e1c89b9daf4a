//! Random calls at 640 objects and 128 stations, each answered as plain lists answer it.

ghost use Rattle.std.specs.Prelude.{◌≡◌, ◌≤◌, length};

use super::{Call, is_answered, lists};
use smi_watchers::{MOST_WATCHERS, WatchAnswer, WatchFault, Watcher, Watchers};
use std::alloc::{AllocError, Global};
use std::test::Fail;

const OBJECTS: u16 = 640;

const STATIONS: u16 = 128;

const CALLS: u32 = 1_000_000;

/// The greatest echo. Few are drawn, so that one station's are often the same.
const MOST_ECHO: u16 = 7;

/// A sequence of numbers that the first determines.
#[derive(Drop)]
struct Generator {
    last: u64,
}

impl Generator {
    ghost use Rattle.std.specs.Prelude.{◌≤◌};

    /// Draws a number from 0 to `most`.
    fn up_to(&mut self, most: u16) -> u16
        ensures { result ≤ most }
    {
        let mut x = self.last;
        x ^= x << 13;
        x ^= x >> 7;
        x ^= x << 17;
        self.last = x;
        (x % (u64::from(most) + 1)) as u16
    }
}

/// A vector of watchers for each object, which a leaving station is looked for in.
#[derive(Drop)]
struct PlainLists {
    lists: Vec<Vec<Watcher>>,
}

/// Returns where the list of an object is: past the end for object 0.
fn place_of(object: u16) -> usize {
    usize::from(object.wrapping_sub(1))
}

impl PlainLists {
    fn new(alloc: Global) -> Result<PlainLists, AllocError> {
        let mut lists = Vec::new(alloc);
        for _ in 0..OBJECTS {
            lists.push(Vec::new(alloc))?;
        }
        Ok(PlainLists { lists })
    }

    /// Returns the entries of an object.
    fn entries(&self, object: u16) -> &[Watcher] {
        match self.lists.get(place_of(object)) {
            Some(list) => list,
            None => &[],
        }
    }

    fn watch(&mut self, object: u16, station: u16, echo: u32) -> Result<WatchAnswer, WatchFault> {
        match self.lists.get_mut(place_of(object)) {
            Some(list) => watched(list, station, echo),
            None => Err(WatchFault::Memory),
        }
    }

    /// Leaves all lists, and then watches.
    fn renew(&mut self, object: u16, station: u16, echo: u32) -> Result<WatchAnswer, WatchFault> {
        self.leave(station);
        self.watch(object, station, echo)
    }

    fn unwatch(&mut self, object: u16, station: u16, echo: u32) {
        if let Some(list) = self.lists.get_mut(place_of(object)) {
            list.retain(|watcher| watcher.station != station || watcher.echo > echo);
        }
    }

    /// Leaves all lists, and returns how many entries the station had.
    fn leave(&mut self, station: u16) -> usize {
        let mut gone: usize = 0;
        for list in self.lists.iter_mut() {
            let before = list.len();
            list.retain(|watcher| watcher.station != station);
            gone = gone.wrapping_add(before.wrapping_sub(list.len()));
        }
        gone
    }
}

/// Watches by a plain list.
fn watched(list: &mut Vec<Watcher>, station: u16, echo: u32) -> Result<WatchAnswer, WatchFault> {
    for watcher in list.iter_mut() {
        if watcher.station == station {
            return Ok(renewed(watcher, echo));
        }
    }
    if list.len() == MOST_WATCHERS {
        return Err(WatchFault::Full);
    }
    match list.push(Watcher { station, echo }) {
        Ok(()) => Ok(WatchAnswer::Added),
        Err(_) => Err(WatchFault::Memory),
    }
}

/// Gives a watcher the newer of its own echo and this one.
fn renewed(watcher: &mut Watcher, echo: u32) -> WatchAnswer {
    if watcher.echo < echo {
        watcher.echo = echo;
        WatchAnswer::Replaced
    } else if watcher.echo == echo {
        WatchAnswer::Present
    } else {
        WatchAnswer::Older
    }
}

/// Draws a call, and has the plain lists answer it. Of 4,000 calls one is a leaving and one a renewal, 198 end a watch,
/// 200 read, and all else are watches, so that many lists are full.
fn drawn(plain: &mut PlainLists, draws: &mut Generator) -> Call {
    let object = 1 + draws.up_to(OBJECTS - 1);
    let station = 1 + draws.up_to(STATIONS - 1);
    let echo = u32::from(draws.up_to(MOST_ECHO));
    match draws.up_to(3_999) {
        0 => Call::Leave(station, plain.leave(station)),
        1 => Call::Renew(object, station, echo, plain.renew(object, station, echo)),
        2..=199 => {
            plain.unwatch(object, station, echo);
            Call::Unwatch(object, station, echo)
        }
        200..=299 => Call::Count(object, plain.entries(object).len()),
        300..=399 => {
            let place = usize::from(draws.up_to(64));
            let there = plain.entries(object).get(place);
            Call::Nth(object, place, there.map_or(0, |it| it.station))
        }
        _ => Call::Watch(object, station, echo, plain.watch(object, station, echo)),
    }
}

/// How many kinds of answers there are that have to come.
const KINDS: usize = 6;

/// Returns which of these kinds an answer is, if any.
fn kind_of(call: &Call) -> Option<usize> {
    match call {
        Call::Watch(_, _, _, Ok(WatchAnswer::Added)) => Some(0),
        Call::Watch(_, _, _, Ok(WatchAnswer::Replaced)) => Some(1),
        Call::Watch(_, _, _, Ok(WatchAnswer::Present)) => Some(2),
        Call::Watch(_, _, _, Ok(WatchAnswer::Older)) => Some(3),
        Call::Watch(_, _, _, Err(WatchFault::Full)) => Some(4),
        Call::Leave(_, gone) if *gone > 0 => Some(5),
        _ => None,
    }
}

fn count(kinds: &mut [bool; KINDS], call: &Call) {
    if let Some(kind) = kind_of(call) {
        if let Some(came) = kinds.get_mut(kind) {
            *came = true;
        }
    }
}

/// Returns which kinds of answers came, if each of this many calls is answered as by the plain lists.
fn compared(watchers: &mut Watchers, plain: &mut PlainLists) -> Option<[bool; KINDS]>
    requires { length watchers.old.lists ≡ 640 }
    ensures { length watchers.new.lists ≡ 640 }
{
    let mut draws = Generator { last: 1 };
    let mut kinds = [false; KINDS];
    for _ in 0..CALLS {
        let call = drawn(plain, &mut draws);
        if !is_answered(watchers, OBJECTS, call) {
            return None;
        }
        count(&mut kinds, &call);
    }
    Some(kinds)
}

/// Returns true if the list of an object has these entries.
fn has(watchers: &Watchers, object: u16, entries: &[Watcher]) -> bool
    requires least { 1 ≤ object }
    requires most { object ≤ length watchers.now.lists }
{
    let mut at: usize = 0;
    for watcher in watchers.walk(object) {
        if entries.get(at) != Some(&watcher) {
            return false;
        }
        at = at.wrapping_add(1);
    }
    at == entries.len()
}

fn have_all(watchers: &Watchers, plain: &PlainLists) -> bool
    requires { length watchers.now.lists ≡ 640 }
{
    for object in 0..OBJECTS {
        if !has(watchers, object + 1, plain.entries(object + 1)) {
            return false;
        }
    }
    true
}

fn answered_alike(alloc: Global) -> Result<Option<[bool; KINDS]>, AllocError> {
    let mut watchers = lists(alloc, OBJECTS)?;
    let mut plain = PlainLists::new(alloc)?;
    let kinds = compared(&mut watchers, &mut plain);
    Ok(kinds.filter(|_| have_all(&watchers, &plain)))
}

#[test]
fn random_calls(rt: HostRuntime) -> Result<(), Fail> {
    assert_eq!(rt; answered_alike(rt.alloc())?, Some([true; KINDS]));
    Ok(())
}
