//! What the lists become, by values from the rules.

ghost use Rattle.std.specs.Prelude.{◌≡◌, ◌≤◌, length, IfOk, IsTrue};

use smi_watchers::{WatchAnswer, WatchFault, Watchers};
use std::alloc::{AllocError, Global};
use std::rt::Runtime;
use std::sync::Wait;
use std::test::Fail;
use std::thread::{self, Threads};

mod random;

/// A call of lists and what it has to answer.
#[derive(Clone, Copy)]
enum Call {
    /// An object, a station and its echo.
    Watch(u16, u16, u32, Result<WatchAnswer, WatchFault>),
    Renew(u16, u16, u32, Result<WatchAnswer, WatchFault>),
    Unwatch(u16, u16, u32),
    /// A station; how many entries it had, and as many looks there were.
    Leave(u16, usize),
    /// An object; how many stations watch it.
    Count(u16, usize),
    /// An object and a place; the station there, 0 past the end.
    Nth(u16, usize, u16),
}

const FULL: [Call; 9] = [
    Call::Watch(1, 65, 1, Err(WatchFault::Full)),
    Call::Watch(1, 64, 1, Ok(WatchAnswer::Present)),
    Call::Renew(1, 65, 1, Err(WatchFault::Full)),
    Call::Leave(32, 1),
    Call::Watch(1, 65, 1, Ok(WatchAnswer::Added)),
    Call::Nth(1, 31, 33),
    Call::Nth(1, 63, 65),
    Call::Nth(1, 64, 0),
    Call::Count(1, 64),
];

/// Calls at the lists of 640 objects, each of which stations 1 to 64 watch.
const ALL: [Call; 14] = [
    Call::Watch(640, 65, 1, Err(WatchFault::Full)),
    Call::Watch(640, 64, 1, Ok(WatchAnswer::Present)),
    Call::Nth(640, 63, 64),
    Call::Nth(640, 64, 0),
    Call::Renew(640, 65, 2, Err(WatchFault::Full)),
    Call::Renew(1, 64, 2, Ok(WatchAnswer::Added)),
    Call::Nth(1, 63, 64),
    Call::Count(640, 63),
    Call::Leave(64, 1),
    Call::Leave(63, 640),
    Call::Count(1, 62),
    Call::Watch(640, 65, 1, Ok(WatchAnswer::Added)),
    Call::Nth(640, 62, 65),
    Call::Count(640, 63),
];

const ECHOES: [Call; 10] = [
    Call::Watch(1, 2, 5, Ok(WatchAnswer::Added)),
    Call::Watch(1, 2, 4, Ok(WatchAnswer::Older)),
    Call::Watch(1, 2, 6, Ok(WatchAnswer::Replaced)),
    Call::Watch(1, 2, 6, Ok(WatchAnswer::Present)),
    Call::Unwatch(1, 2, 5),
    Call::Count(1, 1),
    Call::Renew(2, 2, 7, Ok(WatchAnswer::Added)),
    Call::Count(1, 0),
    Call::Unwatch(2, 2, 7),
    Call::Count(2, 0),
];

const LEAVING: [Call; 13] = [
    Call::Watch(1, 7, 1, Ok(WatchAnswer::Added)),
    Call::Watch(2, 7, 1, Ok(WatchAnswer::Added)),
    Call::Watch(640, 7, 1, Ok(WatchAnswer::Added)),
    Call::Watch(2, 8, 1, Ok(WatchAnswer::Added)),
    Call::Watch(640, 8, 1, Ok(WatchAnswer::Added)),
    Call::Nth(2, 0, 7),
    Call::Nth(2, 1, 8),
    Call::Nth(2, 2, 0),
    Call::Leave(7, 3),
    Call::Leave(7, 0),
    Call::Count(1, 0),
    Call::Nth(2, 0, 8),
    Call::Nth(640, 0, 8),
];

fn lists(alloc: Global, objects: u16) -> Result<Watchers, AllocError>
    ensures { IfOk result (λ watchers. length watchers.lists ≡ objects) }
{
    Watchers::new(alloc, objects)
}

/// Returns true if an object and a station may be named.
fn is_there(object: u16, objects: u16, station: u16) -> bool
    ensures { IsTrue result → (1 ≤ object) × (object ≤ objects) × (1 ≤ station) × (station ≤ 128) }
{
    1 <= object && object <= objects && 1 <= station && station <= 128
}

/// Returns the station at a place of an object's list, 0 past its end.
fn station_at(watchers: &Watchers, object: u16, place: usize) -> u16
    requires least { 1 ≤ object }
    requires most { object ≤ length watchers.now.lists }
{
    match watchers.nth(object, place) {
        Some(watcher) => watcher.station,
        None => 0,
    }
}

/// Returns true if a call answers as it has to.
fn is_answered(watchers: &mut Watchers, objects: u16, call: Call) -> bool
    requires { length watchers.old.lists ≡ objects }
    ensures { length watchers.new.lists ≡ objects }
{
    match call {
        Call::Watch(object, station, echo, answer) => {
            is_there(object, objects, station) && watchers.watch(object, station, echo) == answer
        }
        Call::Renew(object, station, echo, answer) => {
            is_there(object, objects, station) && watchers.renew(object, station, echo) == answer
        }
        Call::Unwatch(object, station, echo) => {
            let there = is_there(object, objects, station);
            if there {
                watchers.unwatch(object, station, echo);
            }
            there
        }
        Call::Leave(station, gone) => {
            is_there(1, 1, station)
                && watchers.leave(station) == gone
                && watchers.visits() as usize == gone
        }
        Call::Count(object, count) => {
            is_there(object, objects, 1) && watchers.count(object) == count
        }
        Call::Nth(object, place, station) => {
            is_there(object, objects, 1) && station_at(watchers, object, place) == station
        }
    }
}

/// Returns how many calls answer as they have to, before the first that does not.
fn answered(watchers: &mut Watchers, objects: u16, calls: &[Call]) -> usize
    requires { length watchers.old.lists ≡ objects }
{
    let mut count: usize = 0;
    for call in calls {
        if !is_answered(watchers, objects, *call) {
            return count;
        }
        count = count.wrapping_add(1);
    }
    count
}

/// Returns how many entries are added where 64 stations watch each object.
fn filled(watchers: &mut Watchers, objects: u16) -> usize
    requires { length watchers.old.lists ≡ objects }
    ensures { length watchers.new.lists ≡ objects }
{
    let mut count: usize = 0;
    for object in 0..objects {
        for station in 1..65 {
            if watchers.watch(object + 1, station, 1) == Ok(WatchAnswer::Added) {
                count = count.wrapping_add(1);
            }
        }
    }
    count
}

/// Returns how many of the calls on new lists answer as they have to.
fn tried(alloc: Global, objects: u16, calls: &[Call]) -> Result<usize, AllocError> {
    let mut watchers = lists(alloc, objects)?;
    Ok(answered(&mut watchers, objects, calls))
}

/// Returns how many entries full lists have, and how many of the calls on them answer as they have to.
fn tried_on_full(
    alloc: Global,
    objects: u16,
    calls: &[Call],
) -> Result<(usize, usize), AllocError> {
    let mut watchers = lists(alloc, objects)?;
    let entries = filled(&mut watchers, objects);
    Ok((entries, answered(&mut watchers, objects, calls)))
}

/// Returns what a station that leaves full lists in a thread of its own looks at.
fn left_in_a_thread<R: Runtime<A = Global> + Wait + Threads>(rt: &R) -> Result<u32, Fail> {
    let mut watchers = lists(rt.alloc(), 3)?;
    filled(&mut watchers, 3);
    let child = thread::spawn(rt, move || {
        watchers.leave(64);
        watchers.visits()
    })?;
    Ok(child.join(rt))
}

/// Drops full lists of three objects.
#[test]
fn full_watcher_lists(rt: HostRuntime) -> Result<(), Fail> {
    for (objects, calls, wanted) in [
        (1, FULL.as_slice(), (64, 9)),
        (3, &[], (192, 0)),
        (640, &ALL, (40_960, 14)),
    ] {
        assert_eq!(rt; tried_on_full(rt.alloc(), objects, calls)?, wanted);
    }
    Ok(())
}

#[test]
fn numbers_of_faults(rt: HostRuntime) -> Result<(), Fail> {
    assert_eq!(rt;
        (WatchFault::Full.code(), WatchFault::Memory.code()),
        (1, 2)
    );
    Ok(())
}

#[test]
fn newer_and_older_echoes(rt: HostRuntime) -> Result<(), Fail> {
    assert_eq!(rt; tried(rt.alloc(), 3, &ECHOES)?, 10);
    Ok(())
}

#[test]
fn a_station_leaves(rt: HostRuntime) -> Result<(), Fail> {
    assert_eq!(rt; tried(rt.alloc(), 640, &LEAVING)?, 13);
    Ok(())
}

#[test]
fn they_go_to_a_thread(rt: HostRuntime) -> Result<(), Fail> {
    assert_eq!(rt; left_in_a_thread(&rt)?, 3);
    Ok(())
}
