//! Notes in the picture of a screen what a step of its station has shown, answered and received.
//!
//! `observer` calls it for each step. specs/Noting says what of an event is noted, and `smi_view` that the picture
//! never goes back by it. `now` is always the time of the turn, in milliseconds since the start: a reader tells by it
//! how old a state is.

ghost use Rattle.std.specs.Prelude.{◌≡◌};
ghost use Rattle.std.specs.List.{flat_map};
ghost use Rattle.smi_view.specs.Noted.{TakesIn};
ghost use Rattle.smi_screen.specs.Noting.{
  answer_notes,
  asked_notes,
  body_notes,
  datagram_notes,
  handed_notes,
  shown_notes,
};

use smi_grant::{Record, Shown};
use smi_message::{Body, decode};
use smi_protocol::{Answer, Order};
use smi_station_output::Out;
use smi_view::Picture;

/// Notes the state that a step showed, if it showed one.
#[tactic(auto, using(smi_view::proofs::Notes::takes_none))]
fn record_shown(picture: &mut Picture, shown: Option<Shown>, now: u64)
    ensures { TakesIn (shown_notes shown now) picture.old picture.new }
{
    match shown {
        Some(shown) => picture.show(shown, now),
        None => {}
    }
}

/// Notes the record that answers an order, if the order asks for one.
#[tactic(auto, using(smi_view::proofs::Notes::takes_none))]
fn record_asked(picture: &mut Picture, order: Order, told: &Option<Record>, now: u64)
    ensures { TakesIn (asked_notes order told.now now) picture.old picture.new }
{
    match (order, told) {
        (Order::Ask(domain), Some(told)) => picture.tell(domain, told, now),
        _ => {}
    }
}

/// Notes an answer of a step.
fn record_answer(picture: &mut Picture, answer: &Answer, now: u64)
    ensures { TakesIn (answer_notes now answer.now) picture.old picture.new }
{
    record_asked(picture, answer.told.order, &answer.told.asked, now);
}

/// Notes all answers of a step.
fn record_answers(picture: &mut Picture, answers: &[Answer], now: u64)
    ensures { TakesIn (flat_map (answer_notes now) answers.now) picture.old picture.new }
{
    for answer in answers {
        record_answer(picture, answer, now);
    }
}

/// Notes all that a step showed and answered, which is in `out`.
#[tactic(auto, using(smi_view::proofs::Notes::takes_both))]
pub(crate) fn record_handed(picture: &mut Picture, out: &Out, now: u64)
    ensures { TakesIn (handed_notes out.now now) picture.old picture.new }
{
    record_shown(picture, out.shown(), now);
    record_answers(picture, out.answers(), now);
}

/// Notes the record that a datagram tells. Only a `TELL` has one.
#[tactic(auto, using(smi_view::proofs::Notes::takes_none))]
fn record_body(picture: &mut Picture, body: &Body, now: u64)
    ensures { TakesIn (body_notes body.now now) picture.old picture.new }
{
    match body {
        Body::Tell { domain, told } => picture.tell(*domain, told, now),
        Body::Ask(..) => {}
        Body::Take { .. } => {}
        Body::Drop { .. } => {}
        Body::Run { .. } => {}
        Body::Watch { .. } => {}
        Body::State { .. } => {}
        Body::Unwatch { .. } => {}
    }
}

/// Notes the record that the bytes of a datagram tell, if they are a datagram and it tells one.
#[tactic(auto, using(smi_view::proofs::Notes::takes_none))]
pub(crate) fn record_datagram(picture: &mut Picture, bytes: &[u8], now: u64)
    ensures { TakesIn (datagram_notes bytes.now now) picture.old picture.new }
{
    match decode(bytes) {
        Ok(datagram) => record_body(picture, &datagram.body, now),
        Err(_) => {}
    }
}
