//! A glance that reads all along in another thread, and is told again and again.

ghost use Rattle.std.specs.Prelude.{◌≡◌};

use rtrb::{Consumer, Producer, RingBuffer};
use smi_grant::{Shown, Version};
use smi_view::{Board, BoardId, Glance, NewBoard, News, open_board};
use std::alloc::Global;
use std::marker::Brand;
use std::sync::Wait;
use std::test::Fail;
use std::thread;
use std::thread::{Threads, join};

/// How often a row is put, published and told.
const ROUNDS: u32 = 1_000;

/// How often a thread looks for news before it gives up.
const MOST_LOOKS: u32 = 100_000_000;

/// How often was told, how many readings after it were at least as new, how many went back, and how
/// many gave nothing.
#[derive(Clone, Copy, Debug, PartialEq, Eq)]
struct Readings {
    told: u32,
    new: u32,
    back: u32,
    none: u32,
}

fn over_board<J: BoardId + Send + Sync, R: Threads + Wait + Sync>(
    rt: &R,
    alloc: Global,
    blank: NewBoard,
) -> Option<Readings>
    requires { blank.seen.book ≡ J.book }
{
    let (mut board, mut glances) = open_board::<J, R>(rt, alloc, blank, 1).ok()?;
    let found = match glances.pop() {
        Some(glance) => both(rt, alloc, &mut board, glance),
        None => None,
    };
    let _ = board.close(rt);
    found
}

fn both<J: BoardId + Send + Sync, R: Threads + Wait + Sync>(
    rt: &R,
    alloc: Global,
    board: &mut Board<J>,
    glance: Glance<J>,
) -> Option<Readings> {
    let (producer, consumer) = RingBuffer::new(alloc, 1_024).ok()?;
    let (told, readings) = join(
        rt,
        move || -> u32 { publish(rt, board, producer) },
        move || -> Readings { attend(glance, consumer) },
    );
    Some(Readings {
        told,
        new: readings.new,
        back: readings.back,
        none: readings.none,
    })
}

fn row(sequence: u32) -> Shown {
    Shown {
        object: 2,
        version: Version { boot: 1, sequence },
        state: 3,
    }
}

/// Puts, publishes and tells, and counts what was told.
fn publish<J: BoardId, R: Wait>(
    rt: &R,
    board: &mut Board<J>,
    mut telling: Producer<News<J>>,
) -> u32 {
    let mut told: u32 = 0;
    for sequence in 1..=ROUNDS {
        if board.put(row(sequence)).is_err() || board.publish(rt).is_err() {
            break;
        }
        if telling.push(board.tell()).is_err() {
            break;
        }
        told = told.wrapping_add(1);
    }
    told
}

/// A glance, and how its readings were so far.
#[derive(Drop)]
struct Watch<J: BoardId> {
    glance: Glance<J>,
    last: u32,
    readings: Readings,
}

impl<J: BoardId> Watch<J> {
    /// Reads, and notes whether the reading went back or gave nothing; the sequence read, or 0.
    fn look(&mut self) -> u32 {
        let sequence = match self.glance.read(2) {
            Ok(Some(row)) => row.version.sequence,
            Ok(None) => 0,
            Err(_) => {
                self.readings.none = self.readings.none.wrapping_add(1);
                self.last
            }
        };
        if sequence < self.last {
            self.readings.back = self.readings.back.wrapping_add(1);
        }
        self.last = sequence;
        sequence
    }
}

/// Learns what is told, one after the other, and reads before and after.
fn attend<J: BoardId>(glance: Glance<J>, mut told: Consumer<News<J>>) -> Readings {
    let mut watch = Watch {
        glance,
        last: 0,
        readings: Readings {
            told: 0,
            new: 0,
            back: 0,
            none: 0,
        },
    };
    for sequence in 1..=ROUNDS {
        if let Some(news) = waited_for(&mut watch, &mut told) {
            watch.glance.learn(news);
        }
        if watch.look() >= sequence {
            watch.readings.new = watch.readings.new.wrapping_add(1);
        }
    }
    watch.readings
}

/// Returns the next news, with a reading before each look for it.
fn waited_for<J: BoardId>(watch: &mut Watch<J>, told: &mut Consumer<News<J>>) -> Option<News<J>> {
    for _ in 0..MOST_LOOKS {
        watch.look();
        match told.pop() {
            Ok(news) => return Some(news),
            Err(_) => thread::yield_now(),
        }
    }
    None
}

#[test]
fn told_again_and_again(rt: HostRuntime) -> Result<(), Fail> {
    let found = over_board::<Brand, _>(&rt, rt.alloc(), NewBoard::new());
    let wanted = Readings {
        told: ROUNDS,
        new: ROUNDS,
        back: 0,
        none: 0,
    };
    assert_eq!(rt; found, Some(wanted));
    Ok(())
}
