//! Two operators' threads, and a station's that serves both.

ghost use Rattle.std.specs.Prelude.{◌≡◌};

use smi_link::MemoryLink;
use smi_node::serve;
use smi_operator::{Desk, Seat, open_seats};
use smi_protocol::Order;
use smi_rows::MemoryStable;
use smi_station::Station;
use smi_tree::Tree;
use smi_view::{Board, BoardId, NewBoard, open_board};
use std::alloc::Global;
use std::marker::Brand;
use std::sync::Wait;
use std::sync::atomic::{AtomicU64, Ordering};
use std::test::Fail;
use std::thread::{Threads, join, sleep};
use std::time::{Clock, Duration};

/// A station with two operators.
const TREE: &[u8] =
    b"tree 17\nstate OFF\naction GO\nstation A 127.0.0.1:9001\noperator ANN A\noperator DAN A\nunitclass UNIT OFF\naccept UNIT GO\ndomain DCS A UNIT -\ndomain TPC A UNIT DCS\n";

const A: u16 = 1;

const DCS: u16 = 1;

const TPC: u16 = 2;

/// How often a thread looks before it gives up, with a millisecond between two looks.
const MOST_LOOKS: u32 = 10_000;

/// How many turns are served at a time.
const TURNS: u32 = 100;

/// How many operators were told that their orders are done.
#[derive(Drop)]
struct ToldCount {
    count: AtomicU64,
}

impl ToldCount {
    fn is_at_least(&self, count: u64) -> bool {
        self.count.load(Ordering::SeqCst) >= count
    }

    fn one_more(&self) {
        self.count.fetch_add(1, Ordering::SeqCst);
    }
}

/// Orders, and waits for the answer.
fn order<R: Clock>(clock: &R, seat: &mut Seat, order: Order, told: &ToldCount) {
    if seat.submit(order).is_err() {
        return;
    }
    for _ in 0..MOST_LOOKS {
        match seat.told() {
            Some(answer) => {
                if answer.order == order && answer.code == 0 {
                    told.one_more();
                }
                return;
            }
            None => sleep(clock, Duration::from_millis(1)),
        }
    }
}

/// Orders once another operator was told.
fn order_second<R: Clock>(clock: &R, seat: &mut Seat, what: Order, told: &ToldCount) {
    for _ in 0..MOST_LOOKS {
        if told.is_at_least(1) {
            order(clock, seat, what, told);
            return;
        }
        sleep(clock, Duration::from_millis(1));
    }
}

/// Plays the first operator, who has a seat and no order until the second was told.
fn operate<R: Threads + Clock + Sync>(rt: &R, first: Seat, second: Seat, told: &ToldCount) {
    join(
        rt,
        move || {
            let mut seat = first;
            order_second(rt, &mut seat, Order::Take(DCS), told)
        },
        move || {
            let mut seat = second;
            order(rt, &mut seat, Order::Take(TPC), told)
        },
    );
}

/// Serves until both operators were told. Returns whether they were.
fn serve_all<J: BoardId, R: Wait + Clock>(
    rt: &R,
    station: &mut Station<'_, MemoryStable>,
    link: &mut MemoryLink,
    desk: &mut Desk,
    board: &mut Board<J>,
    told: &ToldCount,
) -> bool {
    for _ in 0..MOST_LOOKS {
        if serve(rt, station, link, desk, board, TURNS).is_err() {
            return false;
        }
        if told.is_at_least(2) {
            return true;
        }
        sleep(rt, Duration::from_millis(1));
    }
    false
}

/// Returns the first two seats.
fn two_of(seats: Vec<Seat>) -> Option<(Seat, Seat)> {
    let mut seats = seats;
    seats.truncate(2);
    match (seats.pop(), seats.pop()) {
        (Some(second), Some(first)) => Some((first, second)),
        _ => None,
    }
}

fn over_seats<J: BoardId, R: Wait + Threads + Clock + Sync>(
    rt: &R,
    station: &mut Station<'_, MemoryStable>,
    board: &mut Board<J>,
    seats: (Seat, Seat),
    desk: &mut Desk,
    link: &mut MemoryLink,
    told: &ToldCount,
) -> bool {
    let (first, second) = seats;
    let (_, are_told) = join(
        rt,
        move || operate(rt, first, second, told),
        || -> bool { serve_all(rt, station, link, desk, board, told) },
    );
    are_told
}

fn over_link<J: BoardId, R: Wait + Threads + Clock + Sync>(
    rt: &R,
    alloc: Global,
    station: &mut Station<'_, MemoryStable>,
    board: &mut Board<J>,
    seats: Vec<Seat>,
    desk: &mut Desk,
) -> bool {
    let mut link = MemoryLink::new(alloc, A);
    let told = ToldCount {
        count: AtomicU64::new(0),
    };
    match two_of(seats) {
        Some(seats) => over_seats(rt, station, board, seats, desk, &mut link, &told),
        None => false,
    }
}

fn over_station<J: BoardId, R: Wait + Threads + Clock + Sync>(
    rt: &R,
    alloc: Global,
    station: &mut Station<'_, MemoryStable>,
    board: &mut Board<J>,
) -> Result<bool, Fail> {
    let (seats, mut desk) = open_seats(alloc, 3)?;
    Ok(over_link(rt, alloc, station, board, seats, &mut desk))
}

fn over_tree<J: BoardId, R: Wait + Threads + Clock + Sync>(
    rt: &R,
    alloc: Global,
    tree: &Tree,
    board: &mut Board<J>,
) -> Result<bool, Fail> {
    match Station::open(alloc, tree, A, MemoryStable::new(alloc)) {
        Ok(mut station) => over_station(rt, alloc, &mut station, board),
        Err(_) => Err(Fail::from("A did not open")),
    }
}

fn over_board<J: BoardId, R: Wait + Threads + Clock + Sync>(
    rt: &R,
    alloc: Global,
    blank: NewBoard,
    tree: &Tree,
) -> Result<bool, Fail>
    requires { blank.seen.book ≡ J.book }
{
    let (mut board, _glances) = open_board::<J, R>(rt, alloc, blank, 1)?;
    let are_told = over_tree(rt, alloc, tree, &mut board);
    let _ = board.close(rt);
    are_told
}

fn over_all<R: Wait + Threads + Clock + Sync>(rt: &R, alloc: Global) -> Result<bool, Fail> {
    let tree = Tree::read(alloc, TREE)?;
    over_board::<Brand, R>(rt, alloc, NewBoard::new(), &tree)
}

#[test]
fn a_seat_without_an_order_holds_nobody_up(rt: HostRuntime) -> Result<(), Fail> {
    assert!(rt; over_all(&rt, rt.alloc())?);
    Ok(())
}
