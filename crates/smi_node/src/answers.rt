//! Tells the seats the answers of a step.

ghost use Rattle.std.specs.Prelude.{◌≡◌, ◌<◌, IfSome, IsTrue, length};
ghost use Rattle.smi_operator.specs.Working.{IsPlaceOf, newest_of};
ghost use Rattle.smi_node.specs.Told.{EndsAt, EndsIf, EndsQuestions, EndsReplaced, IsFoundAt, MarksNewest};
ghost use Rattle.smi_node.specs.Told.{TellsAll, TellsNewest, TellsOne, asks_first, is_question, is_replaced};
ghost use Rattle.smi_node.specs.Told.{is_some_of, work_at};

use smi_grant::Record;
use smi_operator::Desk;
use smi_protocol::{Answer, Mark, Order};

/// The code with which a question ends that another one of its operator has replaced.
pub const REPLACED: u16 = 40;

/// Returns the place of a seat's newest order in work.
fn newest(desk: &Desk, seat: usize) -> Option<usize>
    ensures { result ≡ newest_of (work_at desk.now seat) }
{
    if seat < desk.seat_count() {
        desk.newest(seat)
    } else {
        None
    }
}

/// Returns the place of the order in work of a seat that an answer is of.
fn place_answered(desk: &Desk, seat: usize, answer: &Answer) -> Option<usize>
    ensures { IsPlaceOf answer.now.told.order answer.now.mark (work_at desk.now seat) result }
{
    if seat < desk.seat_count() {
        desk.place_of(seat, answer.told.order, answer.mark)
    } else {
        None
    }
}

/// Ends the order of a seat that is in work at this place.
fn end_at(desk: &mut Desk, seat: usize, place: Option<usize>, code: u16, asked: Option<Record>)
    requires { IfSome place (λ p. p < length (work_at desk.old seat)) }
    ensures { EndsAt seat place code asked desk.old desk.new }
{
    if let Some(place) = place {
        desk.answer(seat, place, code, asked);
    }
}

/// Ends the newest order in work of a seat with a code.
pub(crate) fn tell_newest(desk: &mut Desk, seat: Option<usize>, code: u16)
    ensures { TellsNewest seat code desk.old desk.new }
{
    if let Some(seat) = seat {
        let place = newest(desk, seat);
        end_at(desk, seat, place, code, None);
    }
}

/// Notes which command the newest order in work of a seat became.
pub(crate) fn mark_newest(desk: &mut Desk, seat: Option<usize>, issued: Option<Mark>)
    ensures { MarksNewest seat issued desk.old desk.new }
{
    if let (Some(seat), Some(mark)) = (seat, issued) {
        if newest(desk, seat).is_some() {
            desk.mark(seat, mark.domain, mark.epoch, mark.number);
        }
    }
}

/// Returns the seat and the place there of the order in work that an answer is of: at the first seat of its operator
/// that has one, the oldest there.
fn find_order(desk: &Desk, operators: &[u16], answer: &Answer) -> Option<(usize, usize)>
    ensures { IsFoundAt (record { operators = operators.now; answer = answer.now; desk = desk.now }) result }
{
    for (seat, operator) in operators.iter().enumerate() {
        if *operator == answer.operator {
            if let Some(place) = place_answered(desk, seat, answer) {
                return Some((seat, place));
            }
        }
    }
    None
}

/// Tells an answer to the order in work of its operator that it is of; one that is of none is dropped.
fn tell_one(desk: &mut Desk, operators: &[u16], answer: &Answer)
    ensures { TellsOne operators.now answer.now desk.old desk.new }
{
    if let Some((seat, place)) = find_order(desk, operators, answer) {
        end_at(desk, seat, Some(place), answer.told.code, answer.told.asked);
    }
}

/// Tells each answer to its order, one after the other.
pub(crate) fn tell_all(desk: &mut Desk, operators: &[u16], answers: &[Answer])
    ensures { TellsAll operators.now answers.now desk.old desk.new }
{
    for answer in answers {
        tell_one(desk, operators, answer);
    }
}

/// Returns true if an order is a question.
fn is_question(order: Order) -> bool
    ensures { result ≡ is_question order }
{
    match order {
        Order::Ask(_) => true,
        _ => false,
    }
}

/// Returns true if the oldest order in work of a seat is a question.
fn asks_first(desk: &Desk, seat: usize) -> bool
    ensures asks { result ≡ asks_first (work_at desk.now seat) }
    ensures some { IsTrue result → 0 < length (work_at desk.now seat) }
{
    if seat < desk.seat_count() {
        match desk.in_work(seat, 0) {
            Some(work) => is_question(work.order),
            None => false,
        }
    } else {
        false
    }
}

/// Returns true if this is the number of a seat.
fn is_some_of(asking: Option<usize>, seat: usize) -> bool
    ensures { result ≡ is_some_of asking seat }
{
    match asking {
        Some(other) => other == seat,
        None => false,
    }
}

/// Returns true if a seat has a question in work, and is that of an operator who asks again at another one.
fn is_replaced(desk: &Desk, who: u16, asking: Option<usize>, operator: u16, seat: usize) -> bool
    ensures is { result ≡ is_replaced who asking operator seat desk.now }
    ensures some { IsTrue result → 0 < length (work_at desk.now seat) }
{
    operator == who && !is_some_of(asking, seat) && asks_first(desk, seat)
}

/// Ends the oldest order in work of a seat, if it is replaced.
fn end_if(desk: &mut Desk, is_replaced: bool, seat: usize)
    requires { IsTrue is_replaced → 0 < length (work_at desk.old seat) }
    ensures { EndsIf is_replaced seat desk.old desk.new }
{
    if is_replaced {
        end_at(desk, seat, Some(0), REPLACED, None);
    }
}

/// Ends the questions in work of an operator at all seats but the one that asks.
fn end_questions(desk: &mut Desk, operators: &[u16], who: u16, asking: Option<usize>)
    ensures { EndsQuestions who asking operators.now 0 desk.old desk.new }
{
    for (seat, operator) in operators.iter().enumerate() {
        let is_replaced = is_replaced(desk, who, asking, *operator, seat);
        end_if(desk, is_replaced, seat);
    }
}

/// Ends the questions that a new one of the same operator replaces.
pub(crate) fn end_replaced(
    desk: &mut Desk,
    operators: &[u16],
    asking: Option<usize>,
    asker: Option<u16>,
)
    ensures { EndsReplaced operators.now asking asker desk.old desk.new }
{
    if let Some(who) = asker {
        end_questions(desk, operators, who, asking);
    }
}
