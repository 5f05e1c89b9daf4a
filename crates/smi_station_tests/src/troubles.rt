//! What a node does if its link fails.

ghost use Rattle.std.specs.Prelude.{◌≡◌};

use smi_link::MemoryLink;
use smi_node::{ServeFault, serve};
use smi_operator::{Desk, Seat, open_seats};
use smi_protocol::{Order, Told};
use smi_rows::MemoryStable;
use smi_station::Station;
use smi_tree::Tree;
use smi_view::{Board, BoardId, NewBoard, open_board};
use std::alloc::{AllocError, Global};
use std::marker::Brand;
use std::sync::Wait;
use std::test::Fail;

/// A station with one operator and two domains, of which one is below the other: it watches its own unit.
const TREE: &[u8] =
    b"tree 17\nstate OFF\naction GO\nstation A 127.0.0.1:9001\noperator ANN A\nunitclass UNIT OFF\naccept UNIT GO\ndomain DCS A UNIT -\ndomain TPC A UNIT DCS\n";

const A: u16 = 1;

const DCS: u16 = 1;

/// What goes wrong while the operator's one order is served, and what comes of it.
#[derive(Clone, Copy)]
struct Trial {
    /// Which send fails, counted from 1.
    failed_send: u32,
    /// How many receives fail in a row, before and after one that gives nothing.
    faults: (u32, u32),
    turns: u32,
    ended: Result<(), ServeFault>,
    /// The code that the operator is told.
    told: Option<u16>,
}

const fn lost(failed_send: u32) -> Trial {
    Trial {
        failed_send,
        faults: (0, 0),
        turns: 20,
        ended: Ok(()),
        told: Some(0),
    }
}

const fn failing(faults: (u32, u32), turns: u32, ended: Result<(), ServeFault>) -> Trial {
    Trial {
        failed_send: 0,
        faults,
        turns,
        ended,
        told: None,
    }
}

/// Returns the trials: whichever is lost of the first datagrams, of which two are the take and its answer, a later
/// tick makes it good. A hundred faults in a row end the service, and ninety-nine do not.
fn trials() -> [Trial; 10] {
    [
        lost(1),
        lost(2),
        lost(3),
        lost(4),
        lost(5),
        lost(6),
        failing((100, 0), 1000, Err(ServeFault::Link)),
        failing((100, 0), 99, Ok(())),
        failing((99, 99), 199, Ok(())),
        failing((99, 100), 1000, Err(ServeFault::Link)),
    ]
}

fn fail_often(link: &mut MemoryLink, often: u32) -> Result<(), AllocError> {
    for _ in 0..often {
        link.put_fault()?;
    }
    Ok(())
}

fn troubled(link: &mut MemoryLink, trial: &Trial) -> Result<(), AllocError> {
    fail_often(link, trial.faults.0)?;
    link.put_nothing()?;
    fail_often(link, trial.faults.1)?;
    if trial.failed_send > 0 {
        link.fail_send(trial.failed_send);
    }
    Ok(())
}

fn code(told: Option<Told>) -> Option<u16> {
    match told {
        Some(told) => Some(told.code),
        None => None,
    }
}

/// Returns whether the operator's one order, at its seat, fares as the trial says. All that is expensive to drop is
/// another's.
fn over_link<J: BoardId, R: Wait>(
    rt: &R,
    station: &mut Station<'_, MemoryStable>,
    board: &mut Board<J>,
    seat: &mut Seat,
    desk: &mut Desk,
    link: &mut MemoryLink,
    trial: &Trial,
) -> Result<bool, Fail> {
    troubled(link, trial)?;
    let is_taken = seat.submit(Order::Take(DCS)).is_ok();
    let ended = serve(rt, station, link, desk, board, trial.turns);
    Ok(is_taken && ended == trial.ended && code(seat.told()) == trial.told)
}

fn over_seats<J: BoardId, R: Wait>(
    rt: &R,
    station: &mut Station<'_, MemoryStable>,
    board: &mut Board<J>,
    seats: &mut [Seat],
    desk: &mut Desk,
    link: &mut MemoryLink,
    trial: &Trial,
) -> Result<bool, Fail> {
    match seats.get_mut(0) {
        Some(seat) => over_link(rt, station, board, seat, desk, link, trial),
        None => Ok(false),
    }
}

fn over_station<J: BoardId, R: Wait>(
    rt: &R,
    alloc: Global,
    station: &mut Station<'_, MemoryStable>,
    board: &mut Board<J>,
    trial: &Trial,
) -> Result<bool, Fail> {
    let (mut seats, mut desk) = open_seats(alloc, 2)?;
    let mut link = MemoryLink::new(alloc, A);
    over_seats(
        rt,
        station,
        board,
        seats.as_mut_slice(),
        &mut desk,
        &mut link,
        trial,
    )
}

fn over_tree<J: BoardId, R: Wait>(
    rt: &R,
    alloc: Global,
    tree: &Tree,
    board: &mut Board<J>,
    trial: &Trial,
) -> Result<bool, Fail> {
    match Station::open(alloc, tree, A, MemoryStable::new(alloc)) {
        Ok(mut station) => over_station(rt, alloc, &mut station, board, trial),
        Err(_) => Err(Fail::from("A did not open")),
    }
}

/// Returns how many trials came out as told.
fn all_over_tree<J: BoardId, R: Wait>(
    rt: &R,
    alloc: Global,
    tree: &Tree,
    board: &mut Board<J>,
) -> Result<usize, Fail> {
    let mut good: usize = 0;
    for trial in &trials() {
        if !over_tree(rt, alloc, tree, board, trial)? {
            return Ok(good);
        }
        good = good.wrapping_add(1);
    }
    Ok(good)
}

fn over_board<J: BoardId, R: Wait>(
    rt: &R,
    alloc: Global,
    blank: NewBoard,
    tree: &Tree,
) -> Result<usize, Fail>
    requires { blank.seen.book ≡ J.book }
{
    let (mut board, _glances) = open_board::<J, R>(rt, alloc, blank, 1)?;
    let good = all_over_tree(rt, alloc, tree, &mut board);
    let _ = board.close(rt);
    good
}

fn over_all<R: Wait>(rt: &R, alloc: Global) -> Result<usize, Fail> {
    let tree = Tree::read(alloc, TREE)?;
    over_board::<Brand, R>(rt, alloc, NewBoard::new(), &tree)
}

#[test]
fn links_that_fail(rt: HostRuntime) -> Result<(), Fail> {
    let good = over_all(&rt, rt.alloc())?;
    assert_eq!(rt; good, 10);
    Ok(())
}
