//! Writes the orders of a page, the modes of children and the acknowledged alarms as JSON, the answer to `GET
//! /api/orders`. `snapshot.rt` calls `write_orders`. docs/FORMATS.md, "Orders from the page", fixes the text, which
//! `crates/smi_program/page/orders` reads. An *errand*, in names of this file, is an order with what became of it.

ghost use Rattle.std.specs.Prelude.{◌≡◌, ◌≤◌, ◌++◌, length, IfOk, OnOk, option_map};
ghost use Rattle.smi_web.specs.ModeList.{most_modes};
ghost use Rattle.smi_web.specs.OrderRelay.{most_orders};
ghost use Rattle.smi_tree.specs.Hierarchy.{entry};
ghost use Rattle.smi_web.specs.Acknowledgements.{most_acknowledged};
ghost use Rattle.smi_web.specs.OrdersJson.{
  alarm_text,
  alarms_text,
  answer_text,
  by_text,
  code_text,
  end_of,
  errand_text,
  errands_text,
  given_text,
  known_text,
  modes_text,
  orders_text,
  seconds,
  waiting_text,
};

use crate::acknowledgements::{Acknowledgement, Acknowledgements};
use crate::json::{put_flag, put_text};
use crate::json_list::{Listing, put_list};
use crate::order_relay::OrderRelay;
use crate::outcome::{code_of, words_of};
use crate::relayed_order::{RelayedOrder, Reply};
use bytes::Bytes;
use smi_history::{put, put_number};
use std::alloc::{AllocError, Global};

/// Returns when an order was answered; `now` if it was not. Times are in milliseconds since the screen began.
fn end_of(order: &RelayedOrder, now: u64) -> u64
    ensures { result ≡ end_of order.now now }
{
    match &order.answer {
        Some(answer) => answer.at,
        None => now,
    }
}

/// Returns for how many whole seconds an order waited, or has waited until now.
fn seconds(order: &RelayedOrder, now: u64) -> u64
    ensures { result ≡ seconds order.now now }
{
    end_of(order, now).saturating_sub(order.given) / 1_000
}

/// Appends a code and what it means: `,"code":0,"words":"done"`, or `null` for both if there is none.
#[tactic(auto, unfolding(crate::specs::OrdersJson::code_text))]
fn put_code(text: &mut Vec<u8>, code: Option<u64>) -> Result<(), AllocError>
    ensures { OnOk result (text.new.items ≡ text.old.items ++ code_text code) }
{
    match code {
        Some(code) => {
            put_number(text, b",\"code\":", code)?;
            put_text(text, b",\"words\":", words_of(code))
        }
        None => put(text, b",\"code\":null,\"words\":null"),
    }
}

/// Appends the answer to the order of this line, with its code and what that means, or `null` for all three if there is
/// none.
#[tactic(auto, unfolding(crate::specs::OrdersJson::answer_text))]
fn put_answer(text: &mut Vec<u8>, line: &[u8], answer: &Option<Reply>) -> Result<(), AllocError>
    ensures { OnOk result (text.new.items ≡ text.old.items ++ answer_text line.now answer.now) }
{
    match answer {
        Some(answer) => {
            put_text(text, b",\"answer\":", answer.text.as_slice())?;
            put_code(text, code_of(line, answer.text.as_slice()))
        }
        None => put(text, b",\"answer\":null,\"code\":null,\"words\":null"),
    }
}

/// Appends who has given an order: `,"by":"MARIA"`, or `null` if the page did not say so.
#[tactic(auto, unfolding(crate::specs::OrdersJson::by_text))]
fn put_by(text: &mut Vec<u8>, name: &Option<Bytes>) -> Result<(), AllocError>
    ensures { OnOk result (text.new.items ≡ text.old.items ++ by_text name.now) }
{
    match name {
        Some(name) => put_text(text, b",\"by\":", name.as_slice()),
        None => put(text, b",\"by\":null"),
    }
}

/// Appends the front of an order: its number, its line, and who has given it.
#[tactic(auto, unfolding(crate::specs::OrdersJson::given_text))]
fn put_given(text: &mut Vec<u8>, order: &RelayedOrder) -> Result<(), AllocError>
    ensures { OnOk result (text.new.items ≡ text.old.items ++ given_text order.now) }
{
    put_number(text, b"{\"number\":", order.number)?;
    put_text(text, b",\"line\":", order.line.as_slice())?;
    put_by(text, &order.name)
}

/// Appends for how many seconds an order waited or waits, and whether it still does: `,"seconds":2,"waits":false`.
fn put_waiting(text: &mut Vec<u8>, seconds: u64, waits: bool) -> Result<(), AllocError>
    ensures { OnOk result (text.new.items ≡ text.old.items ++ waiting_text seconds waits) }
{
    put_number(text, b",\"seconds\":", seconds)?;
    put_flag(text, b",\"waits\":", waits)
}

/// Appends an order and what became of it.
#[tactic(auto, unfolding(crate::specs::OrdersJson::errand_text))]
fn put_errand(
    text: &mut Vec<u8>,
    relay: &OrderRelay,
    order: &RelayedOrder,
    now: u64,
) -> Result<(), AllocError>
    ensures { OnOk result (text.new.items ≡ text.old.items ++ errand_text relay.now now order.now) }
{
    put_given(text, order)?;
    put_waiting(text, seconds(order, now), relay.is_waiting(order))?;
    put_answer(text, order.line.as_slice(), &order.answer)?;
    put(text, b"}")
}

/// Lists the orders of a relay, as they are at the time `now`.
#[derive(Clone, Copy)]
struct Errands<'a> {
    relay: &'a OrderRelay,
    /// In milliseconds since the screen began.
    now: u64,
}

/// Returns the order at a place among these, from 1. None if there is none.
fn errand_at(orders: &[RelayedOrder], number: u16) -> Option<&RelayedOrder>
    ensures { option_map (λ e. e.now) result ≡ entry orders.now number }
{
    orders.get(usize::from(number).checked_sub(1)?)
}

impl<'a> Listing for Errands<'a> {
    ghost use Rattle.smi_web.specs.OrdersJson.{errand_text_at};

    ghost text = { λ s n. errand_text_at s.relay.now s.now n };

    fn put(&self, into: &mut Vec<u8>, number: u16) -> Result<(), AllocError> {
        match errand_at(self.relay.orders(), number) {
            Some(order) => put_errand(into, self.relay, order, self.now),
            None => Ok(()),
        }
    }
}

/// Returns how many orders there are.
fn count_of(orders: &[RelayedOrder]) -> u16
    requires { length orders.now ≤ most_orders }
    ensures { result ≡ length orders.now }
{
    // At most `MOST_ORDERS`, which is 64.
    orders.len() as u16
}

/// Appends the list of all orders. The caller closes it.
fn put_orders(text: &mut Vec<u8>, relay: &OrderRelay, now: u64) -> Result<(), AllocError>
    ensures { OnOk result (text.new.items ≡ text.old.items ++ errands_text relay.now now) }
{
    let count = count_of(relay.orders());
    put_list(text, b",\"orders\":[", &Errands { relay, now }, count)?;
    Ok(())
}

/// Lists the modes that a relay knows.
#[derive(Clone, Copy)]
struct Modes<'a> {
    relay: &'a OrderRelay,
}

/// Returns the mode at a place among these, from 1. None if there is none.
fn mode_at(modes: &[Bytes], number: u16) -> Option<&Bytes>
    ensures { option_map (λ mode. mode.now) result ≡ entry modes.now number }
{
    modes.get(usize::from(number).checked_sub(1)?)
}

impl<'a> Listing for Modes<'a> {
    ghost use Rattle.smi_web.specs.OrdersJson.{mode_text_at};

    ghost text = { λ s n. mode_text_at s.relay.now n };

    fn put(&self, into: &mut Vec<u8>, number: u16) -> Result<(), AllocError> {
        match mode_at(self.relay.modes(), number) {
            Some(mode) => put_text(into, b"", mode.as_slice()),
            None => Ok(()),
        }
    }
}

/// Returns how many modes there are.
fn mode_count(modes: &[Bytes]) -> u16
    requires { length modes.now ≤ most_modes }
    ensures { result ≡ length modes.now }
{
    // At most `MOST_MODES` of `mode_list.rt`, which is 256.
    modes.len() as u16
}

/// Closes the list of orders, and appends that of modes. The caller closes it.
fn put_modes(text: &mut Vec<u8>, relay: &OrderRelay) -> Result<(), AllocError>
    ensures { OnOk result (text.new.items ≡ text.old.items ++ modes_text relay.now) }
{
    let count = mode_count(relay.modes());
    put_list(text, b"],\"modes\":[", &Modes { relay }, count)?;
    Ok(())
}

/// Appends an acknowledged alarm: `{"alarm":"device HV ANN","at":61500}`.
#[tactic(auto, unfolding(crate::specs::OrdersJson::alarm_text))]
fn put_alarm(text: &mut Vec<u8>, alarm: &Acknowledgement) -> Result<(), AllocError>
    ensures { OnOk result (text.new.items ≡ text.old.items ++ alarm_text alarm.now) }
{
    put_text(text, b"{\"alarm\":", alarm.text.as_slice())?;
    put_number(text, b",\"at\":", alarm.at)?;
    put(text, b"}")
}

/// Lists the acknowledged alarms.
#[derive(Clone, Copy)]
struct Alarms<'a> {
    acknowledged: &'a Acknowledgements,
}

/// Returns the alarm at a place among these, from 1. None if there is none.
fn alarm_at(alarms: &[Acknowledgement], number: u16) -> Option<&Acknowledgement>
    ensures { option_map (λ alarm. alarm.now) result ≡ entry alarms.now number }
{
    alarms.get(usize::from(number).checked_sub(1)?)
}

impl<'a> Listing for Alarms<'a> {
    ghost use Rattle.smi_web.specs.OrdersJson.{alarm_text_at};

    ghost text = { λ s n. alarm_text_at s.acknowledged.now n };

    fn put(&self, into: &mut Vec<u8>, number: u16) -> Result<(), AllocError> {
        match alarm_at(self.acknowledged.as_slice(), number) {
            Some(alarm) => put_alarm(into, alarm),
            None => Ok(()),
        }
    }
}

/// Returns how many alarms there are.
fn alarm_count(alarms: &[Acknowledgement]) -> u16
    requires { length alarms.now ≤ most_acknowledged }
    ensures { result ≡ length alarms.now }
{
    // At most `MOST_ACKNOWLEDGED`, which is 1,024.
    alarms.len() as u16
}

/// Closes the list of modes, and appends that of acknowledged alarms. The caller closes it.
fn put_alarms(text: &mut Vec<u8>, acknowledged: &Acknowledgements) -> Result<(), AllocError>
    ensures { OnOk result (text.new.items ≡ text.old.items ++ alarms_text acknowledged.now) }
{
    let count = alarm_count(acknowledged.as_slice());
    put_list(
        text,
        b"],\"acknowledged\":[",
        &Alarms { acknowledged },
        count,
    )?;
    Ok(())
}

/// Appends the modes that are known and the acknowledged alarms.
fn put_known(
    text: &mut Vec<u8>,
    relay: &OrderRelay,
    acknowledged: &Acknowledgements,
) -> Result<(), AllocError>
    ensures { OnOk result (text.new.items ≡ text.old.items ++ known_text relay.now acknowledged.now) }
{
    put_modes(text, relay)?;
    put_alarms(text, acknowledged)
}

/// Writes the orders that were given, the oldest first, the modes that are known, and the acknowledged alarms, in one
/// line of JSON. `now` is in milliseconds since the screen began.
///
/// Fails only if memory is refused (tested, not proved). No clause names `alloc`, from which memory comes.
pub fn write_orders(
    alloc: Global,
    relay: &OrderRelay,
    acknowledged: &Acknowledgements,
    now: u64,
) -> Result<Vec<u8>, AllocError>
    ensures { IfOk result (λ text. text.items ≡ orders_text relay.now acknowledged.now now) }
{
    let mut text = Vec::new(alloc);
    put_flag(&mut text, b"{\"console\":", relay.is_open())?;
    put_orders(&mut text, relay, now)?;
    put_known(&mut text, relay, acknowledged)?;
    put(&mut text, b"]}\n")?;
    Ok(text)
}
