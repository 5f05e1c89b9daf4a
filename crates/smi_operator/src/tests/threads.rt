//! Two operators' threads, and a station's that serves both.

ghost use Rattle.std.specs.Prelude.{◌≡◌, ◌<◌, IfOk};
ghost use Rattle.smi_operator.specs.Sides.{seat_count, IsSeatAt, SameSeat, SameDesk, Ends};

use crate::{Desk, Finished, Seat, open_seats};
use smi_protocol::Order;
use std::alloc::Global;
use std::test::Fail;
use std::thread::{Threads, join, sleep};
use std::time::{Clock, Duration};

/// How often a thread looks before it gives up, with a millisecond between two looks.
const MOST_LOOKS: u32 = 10_000;

/// How many orders each operator submits.
const ORDERS: u16 = 20;

fn open_two(alloc: Global) -> Result<(Seat, Seat, Desk), Fail>
    ensures first { IfOk result (λ opened. IsSeatAt opened.0 opened.2 0) }
    ensures second { IfOk result (λ opened. IsSeatAt opened.1 opened.2 1) }
    ensures count { IfOk result (λ opened. seat_count opened.2 ≡ 2) }
{
    let (mut seats, desk) = open_seats(alloc, 2)?;
    let last = seats.pop();
    let first = seats.pop();
    match (first, last) {
        (Some(first), Some(last)) => Ok((first, last, desk)),
        _ => Err("two seats were not opened")?,
    }
}

/// Submits an order and waits for its answer. Returns whether it came.
fn ask<R: Clock>(clock: &R, seat: &mut Seat, order: Order) -> bool
    ensures { SameSeat seat.old seat.new }
{
    if seat.submit(order).is_err() {
        return false;
    }
    for _ in 0..MOST_LOOKS {
        match seat.told() {
            Some(told) => return told.order == order,
            None => sleep(clock, Duration::from_millis(1)),
        }
    }
    false
}

/// Asks about one domain after the other, each after the answer about the one before. Returns whether all came.
fn ask_all<R: Clock>(clock: &R, seat: Seat, first: u16) -> (Finished, bool)
    ensures { Ends seat result.0 }
{
    let mut seat = seat;
    let mut are_told = true;
    for nth in 0..ORDERS {
        are_told = ask(clock, &mut seat, Order::Ask(first.wrapping_add(nth))) && are_told;
    }
    (seat.finish(), are_told)
}

/// Answers the next order of a seat, if there is one.
fn serve_one(desk: &mut Desk, seat: usize) -> bool
    requires { seat < seat_count desk.old }
    ensures { SameDesk desk.old desk.new }
{
    if desk.next(seat).is_none() || desk.in_work(seat, 0).is_none() {
        return false;
    }
    desk.answer(seat, 0, 0, None);
    true
}

/// Serves two seats in turn until all their orders are answered.
#[tactic(auto, using(crate::proofs::Desks::desk_refl, crate::proofs::Desks::desk_trans))]
fn serve<R: Clock>(clock: &R, desk: Desk) -> Desk
    ensures { SameDesk desk result }
{
    let mut desk = desk;
    if desk.seat_count() != 2 {
        return desk;
    }
    let mut answered: u16 = 0;
    for _ in 0..MOST_LOOKS {
        let first = serve_one(&mut desk, 0);
        let second = serve_one(&mut desk, 1);
        answered = answered
            .wrapping_add(u16::from(first))
            .wrapping_add(u16::from(second));
        if answered == 2 * ORDERS {
            return desk;
        }
        if !first && !second {
            sleep(clock, Duration::from_millis(1));
        }
    }
    desk
}

/// Returns true if both operators were told all their answers, in order, and both seats meet the desk afterwards.
fn are_served<R: Threads + Clock + Sync>(rt: &R, first: Seat, second: Seat, desk: Desk) -> bool
    requires first { IsSeatAt first desk 0 }
    requires second { IsSeatAt second desk 1 }
    requires count { seat_count desk ≡ 2 }
{
    let (one, (other, desk)) = join(
        rt,
        move || -> (Finished, bool)
            ensures { Ends first result.0 }
        { ask_all(rt, first, 1) },
        move || -> ((Finished, bool), Desk)
            ensures ended { Ends second result.0.0 }
            ensures desk { SameDesk desk result.1 }
        {
            join(
                rt,
                move || -> (Finished, bool)
                    ensures { Ends second result.0 }
                { ask_all(rt, second, 101) },
                move || -> Desk
                    ensures { SameDesk desk result }
                { serve(rt, desk) },
            )
        },
    );
    let (mut one, is_told) = one;
    let (mut other, is_other_told) = other;
    let mut desk = desk;
    let is_met = desk.meet(0, &mut one);
    let is_other_met = desk.meet(1, &mut other);
    is_told && is_other_told && is_met && is_other_met
}

#[test]
fn two_seats_are_served(rt: HostRuntime) -> Result<(), Fail> {
    let (first, second, desk) = open_two(rt.alloc())?;
    assert!(rt; are_served(&rt, first, second, desk));
    Ok(())
}
