//! Makes the history's notes of what a page has done: orders that were given, how they ended, and alarms that were
//! acknowledged. `service.rt` calls `notes_of_page` at each look at the picture. docs/FORMATS.md, "The history of a
//! screen", fixes the texts `given`, `ended` and `acknowledged`, which pages read.

ghost use Rattle.std.specs.Prelude.{◌≡◌, ◌++◌, ◌∷◌, [], IfOk, OnOk};
ghost use Rattle.std.specs.List.{flat_map};
ghost use Rattle.smi_web.specs.OrderNotes as spec;

use crate::acknowledgements::Acknowledgement;
use crate::page_orders::PageOrders;
use crate::relayed_order::{RelayedOrder, Reply};
use smi_history::{HistoryNote, LookTime, clock_at, is_new, push_note, put, put_number};
use std::alloc::{AllocError, Global};

/// What is new: what has a time from `from` on and before the look.
#[derive(Clone, Copy)]
struct Since {
    alloc: Global,
    /// The time of the look before, in milliseconds since the screen began.
    from: u64,
    /// The time of this look.
    moment: LookTime,
}

/// Adds a note with a word, a number and a text, if its time `at` is new. `at` is in milliseconds since the screen
/// began.
fn add_if_new(
    notes: &mut Vec<HistoryNote>,
    since: Since,
    at: u64,
    word: &[u8],
    number: u64,
    text: &[u8],
) -> Result<(), AllocError>
    ensures { OnOk result (notes.new.items ≡ notes.old.items
        ++ spec.numbered_notes since.from since.moment at word.now number text.now) }
{
    if !is_new(since.from, since.moment, at) {
        return Ok(());
    }
    let mut line = Vec::new(since.alloc);
    put_number(&mut line, word, number)?;
    put(&mut line, b" ")?;
    put(&mut line, text)?;
    push_note(notes, clock_at(since.moment, at), line)
}

/// Adds how an order ended, if that is new: `ended 12 told ANN do TRK START 0`.
fn add_end(
    notes: &mut Vec<HistoryNote>,
    since: Since,
    number: u64,
    answer: &Option<Reply>,
) -> Result<(), AllocError>
    ensures { OnOk result (notes.new.items ≡ notes.old.items
        ++ spec.end_notes since.from since.moment number answer.now) }
{
    match answer {
        Some(answer) => add_if_new(
            notes,
            since,
            answer.at,
            b"ended ",
            number,
            answer.text.as_slice(),
        ),
        None => Ok(()),
    }
}

/// Adds that an order was given and how it ended, if that is new: `given 12 order ANN do TRK START`.
fn add_order(
    notes: &mut Vec<HistoryNote>,
    since: Since,
    order: &RelayedOrder,
) -> Result<(), AllocError>
    ensures { OnOk result (notes.new.items ≡ notes.old.items
        ++ spec.order_notes since.from since.moment order.now) }
{
    let line = order.line.as_slice();
    add_if_new(notes, since, order.given, b"given ", order.number, line)?;
    add_end(notes, since, order.number, &order.answer)
}

/// Adds a note with a word and a text, of the time `at` in milliseconds since the screen began.
fn add_worded(
    notes: &mut Vec<HistoryNote>,
    since: Since,
    at: u64,
    word: &[u8],
    text: &[u8],
) -> Result<(), AllocError>
    ensures { OnOk result (notes.new.items ≡ notes.old.items
        ++ spec.worded_note since.moment at word.now text.now ∷ []) }
{
    let mut line = Vec::from_slice(since.alloc, word)?;
    put(&mut line, text)?;
    push_note(notes, clock_at(since.moment, at), line)
}

/// Returns the word with which the note of an acknowledged alarm begins. It is a function of its own, because its proof
/// unfolds the definition of that word.
#[tactic(auto, unfolding(crate::specs::OrderNotes::acknowledged_word))]
fn acknowledged_word() -> &'static [u8]
    ensures { result.now ≡ spec.acknowledged_word }
{
    b"acknowledged "
}

/// Adds that an alarm was acknowledged, if that is new: `acknowledged device PIXEL_HV7 ANN`.
fn add_alarm(
    notes: &mut Vec<HistoryNote>,
    since: Since,
    alarm: &Acknowledgement,
) -> Result<(), AllocError>
    ensures { OnOk result (notes.new.items ≡ notes.old.items
        ++ spec.alarm_notes since.from since.moment alarm.now) }
{
    if is_new(since.from, since.moment, alarm.at) {
        add_worded(
            notes,
            since,
            alarm.at,
            acknowledged_word(),
            alarm.text.as_slice(),
        )
    } else {
        Ok(())
    }
}

/// Adds the notes of all orders that are new.
fn add_orders(
    notes: &mut Vec<HistoryNote>,
    since: Since,
    orders: &[RelayedOrder],
) -> Result<(), AllocError>
    ensures { OnOk result (notes.new.items ≡ notes.old.items
        ++ flat_map (spec.order_notes since.from since.moment) orders.now) }
{
    for order in orders {
        add_order(notes, since, order)?;
    }
    Ok(())
}

/// Adds the notes of all acknowledgements that are new.
fn add_alarms(
    notes: &mut Vec<HistoryNote>,
    since: Since,
    alarms: &[Acknowledgement],
) -> Result<(), AllocError>
    ensures { OnOk result (notes.new.items ≡ notes.old.items
        ++ flat_map (spec.alarm_notes since.from since.moment) alarms.now) }
{
    for alarm in alarms {
        add_alarm(notes, since, alarm)?;
    }
    Ok(())
}

/// Returns the notes of what is new since the look at `from`: orders of the page, their answers, and acknowledged
/// alarms. None of them if orders may not be given.
pub(crate) fn notes_of_page(
    alloc: Global,
    orders: &Option<PageOrders>,
    from: u64,
    moment: LookTime,
) -> Result<Vec<HistoryNote>, AllocError>
    ensures { IfOk result (λ notes. notes.items ≡ spec.page_notes orders.now from moment) }
{
    let since = Since {
        alloc,
        from,
        moment,
    };
    let mut notes = Vec::new(alloc);
    if let Some(orders) = orders {
        add_orders(&mut notes, since, orders.relay.orders())?;
        add_alarms(&mut notes, since, orders.acknowledged.as_slice())?;
    }
    Ok(notes)
}
