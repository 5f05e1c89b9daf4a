//! One seat at its desk, by what the operator and the station see.

ghost use Rattle.std.specs.Prelude.{◌≡◌, ◌<◌, IfOk, IfSome};
ghost use Rattle.smi_operator.specs.Sides.{seat_end, seat_count};

use crate::{Desk, Seat, Work, open_seats};
use smi_grant::Record;
use smi_protocol::{Mark, Order, Told};
use std::alloc::Global;
use std::test::Fail;

mod threads;

/// Returns a seat and the desk at which it is the only one.
fn open_one(alloc: Global) -> Result<(Seat, Desk), Fail>
    ensures { IfOk result (λ opened. seat_count opened.1 ≡ 1) }
{
    let (mut seats, desk) = open_seats(alloc, 1)?;
    match seats.pop() {
        Some(seat) => Ok((seat, desk)),
        None => Err("no seat was opened")?,
    }
}

/// Ends an order that is in work; false if there is none.
fn answer(desk: &mut Desk, place: usize, code: u16, asked: Option<Record>) -> bool
    requires { 0 < seat_count desk.old }
    ensures { seat_count desk.new ≡ seat_count desk.old }
{
    if desk.in_work(0, place).is_none() {
        return false;
    }
    desk.answer(0, place, code, asked);
    true
}

/// Marks the newest order in work; false if there is none.
fn mark(desk: &mut Desk, number: u32) -> bool
    requires { 0 < seat_count desk.old }
    ensures { seat_count desk.new ≡ seat_count desk.old }
{
    if desk.in_work(0, 0).is_none() {
        return false;
    }
    desk.mark(0, 1, 1, number);
    true
}

fn told(order: Order, code: u16) -> Told {
    Told {
        order,
        code,
        asked: None,
    }
}

fn work(order: Order, number: u32) -> Work {
    Work {
        order,
        mark: Some(Mark {
            domain: 1,
            epoch: 1,
            number,
        }),
    }
}

#[test]
fn later_answers_wait_for_earlier_ones(rt: HostRuntime) -> Result<(), Fail> {
    let (mut seat, mut desk) = open_one(rt.alloc())?;
    assert_eq!(rt; seat.submit(Order::Do(1, 1)), Ok(()));
    assert_eq!(rt; seat.submit(Order::Include(1, 2)), Ok(()));
    assert_eq!(rt; desk.next(0), Some(Order::Do(1, 1)));
    assert!(rt; mark(&mut desk, 1));
    assert_eq!(rt; desk.next(0), Some(Order::Include(1, 2)));
    assert!(rt; mark(&mut desk, 2));
    assert!(rt; desk.in_work(0, 0) == Some(work(Order::Do(1, 1), 1)));
    assert!(rt; desk.in_work(0, 1) == Some(work(Order::Include(1, 2), 2)));
    assert!(rt; desk.in_work(0, 2).is_none());
    assert!(rt; answer(&mut desk, 1, 0, None));
    assert!(rt; seat.told().is_none());
    // An order that has ended stays unchanged, at its place.
    assert!(rt; answer(&mut desk, 1, 5, None));
    assert!(rt; desk.in_work(0, 1) == Some(work(Order::Include(1, 2), 2)));
    assert!(rt; answer(&mut desk, 0, 8, None));
    assert!(rt; seat.told() == Some(told(Order::Do(1, 1), 8)));
    assert!(rt; seat.told() == Some(told(Order::Include(1, 2), 0)));
    assert!(rt; seat.told().is_none());
    assert!(rt; desk.in_work(0, 0).is_none());
    Ok(())
}

#[test]
fn only_commands_on_one_domain_are_in_work_together(rt: HostRuntime) -> Result<(), Fail> {
    let (mut seat, mut desk) = open_one(rt.alloc())?;
    for order in [
        Order::Ask(1),
        Order::Do(1, 1),
        Order::Manual(1, 2),
        Order::Do(2, 1),
        Order::Take(2),
    ] {
        assert_eq!(rt; seat.submit(order), Ok(()));
    }
    assert_eq!(rt; desk.next(0), Some(Order::Ask(1)));
    assert_eq!(rt; desk.next(0), None);
    assert!(rt; answer(&mut desk, 0, 0, None));
    assert_eq!(rt; desk.next(0), Some(Order::Do(1, 1)));
    assert_eq!(rt; desk.next(0), Some(Order::Manual(1, 2)));
    assert_eq!(rt; desk.next(0), None);
    assert!(rt; answer(&mut desk, 0, 0, None));
    assert_eq!(rt; desk.next(0), None);
    assert!(rt; answer(&mut desk, 0, 0, None));
    assert_eq!(rt; desk.next(0), Some(Order::Do(2, 1)));
    assert_eq!(rt; desk.next(0), None);
    Ok(())
}

#[test]
fn eight_are_in_work_and_sixteen_wait(rt: HostRuntime) -> Result<(), Fail> {
    let (mut seat, mut desk) = open_one(rt.alloc())?;
    for action in 1..17 {
        assert_eq!(rt; seat.submit(Order::Do(1, action)), Ok(()));
    }
    assert_eq!(rt; seat.submit(Order::Do(1, 17)), Err(Order::Do(1, 17)));
    for given in 1..9 {
        assert_eq!(rt; desk.next(0), Some(Order::Do(1, given)));
    }
    assert_eq!(rt; desk.next(0), None);
    assert!(rt; answer(&mut desk, 0, 8, None));
    assert_eq!(rt; desk.next(0), Some(Order::Do(1, 9)));
    assert_eq!(rt; desk.next(0), None);
    assert_eq!(rt; seat.submit(Order::Do(1, 17)), Ok(()));
    Ok(())
}
