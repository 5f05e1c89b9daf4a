//! Holders, commands, orders and answers.

ghost use Rattle.std.specs.Prelude.{◌≡◌, ◌++◌, ◌∷◌, OnOk};
ghost use Rattle.smi_schedule.specs.Text.{with_words};
ghost use Rattle.smi_schedule.specs.TraceWords.{
  holder_word,
  phase_word,
  mode_word,
  command_words,
  order_words,
  record_words,
  answer_words,
  domain_word,
  object_word,
};

use crate::names;
use crate::trace_words::{push_called, push_number, push_word};
use smi_grant::{Command, Holder, Phase, Record};
use smi_protocol::Order;
use smi_rows::Mode;
use smi_tree::Tree;
use std::alloc::AllocError;

/// Adds a holder, after a blank.
pub(crate) fn push_holder(text: &mut Vec<u8>, tree: &Tree, holder: Holder) -> Result<(), AllocError>
    ensures { OnOk result (text.new.items ≡ text.old.items ++ 32 ∷ holder_word tree.now holder) }
{
    match holder {
        Holder::Free => push_word(text, b"free"),
        Holder::Operator(number) => push_called(text, names::operator(tree, number), number),
        Holder::Domain(number) => push_called(text, names::domain(tree, number), number),
    }
}

/// Adds a mode, after a blank.
pub(crate) fn push_mode(text: &mut Vec<u8>, mode: Mode) -> Result<(), AllocError>
    ensures { OnOk result (text.new.items ≡ text.old.items ++ 32 ∷ mode_word mode) }
{
    match mode {
        Mode::Included => push_word(text, b"included"),
        Mode::Manual => push_word(text, b"manual"),
        Mode::Ignored => push_word(text, b"ignored"),
    }
}

fn push_phase(text: &mut Vec<u8>, phase: Phase) -> Result<(), AllocError>
    ensures { OnOk result (text.new.items ≡ text.old.items ++ 32 ∷ phase_word phase) }
{
    match phase {
        Phase::Settled => push_word(text, b"settled"),
        Phase::Busy => push_word(text, b"busy"),
    }
}

/// Adds a word, and the domain that it is about.
fn push_with_domain(
    text: &mut Vec<u8>,
    tree: &Tree,
    word: &[u8],
    domain: u16,
) -> Result<(), AllocError>
    ensures { OnOk result (text.new.items ≡ (text.old.items ++ 32 ∷ word.now) ++ 32 ∷ domain_word tree.now domain) }
{
    push_word(text, word)?;
    push_called(text, names::domain(tree, domain), domain)
}

/// Adds a word, and the object that it is about.
fn push_with_object(
    text: &mut Vec<u8>,
    tree: &Tree,
    word: &[u8],
    object: u16,
) -> Result<(), AllocError>
    ensures { OnOk result (text.new.items ≡ (text.old.items ++ 32 ∷ word.now) ++ 32 ∷ object_word tree.now object) }
{
    push_word(text, word)?;
    push_called(text, names::object(tree, object), object)
}

/// Adds a word, and the domain and the target that it is about.
fn push_with_target(
    text: &mut Vec<u8>,
    tree: &Tree,
    word: &[u8],
    domain: u16,
    target: u16,
) -> Result<(), AllocError>
    ensures { OnOk result (text.new.items ≡
        ((text.old.items ++ 32 ∷ word.now) ++ 32 ∷ domain_word tree.now domain) ++ 32 ∷ domain_word tree.now target) }
{
    push_with_domain(text, tree, word, domain)?;
    push_called(text, names::domain(tree, target), target)
}

/// Adds a command.
pub(crate) fn push_command(
    text: &mut Vec<u8>,
    tree: &Tree,
    command: Command,
) -> Result<(), AllocError>
    ensures { OnOk result (text.new.items ≡ with_words text.old.items (command_words tree.now command)) }
{
    match command {
        Command::Do(action) => {
            push_word(text, b"do")?;
            push_called(text, names::action(tree, action), action)
        }
        Command::Include(target) => push_with_domain(text, tree, b"include", target),
        Command::Exclude(target) => push_with_domain(text, tree, b"exclude", target),
        Command::Manual(target) => push_with_domain(text, tree, b"manual", target),
        Command::Ignore(target) => push_with_domain(text, tree, b"ignore", target),
    }
}

/// Adds an order.
pub(crate) fn push_order(text: &mut Vec<u8>, tree: &Tree, order: Order) -> Result<(), AllocError>
    ensures { OnOk result (text.new.items ≡ with_words text.old.items (order_words tree.now order)) }
{
    match order {
        Order::Take(domain) => push_with_domain(text, tree, b"take", domain),
        Order::Drop(domain) => push_with_domain(text, tree, b"drop", domain),
        Order::Do(domain, action) => {
            push_with_domain(text, tree, b"do", domain)?;
            push_called(text, names::action(tree, action), action)
        }
        Order::Include(domain, target) => push_with_target(text, tree, b"include", domain, target),
        Order::Exclude(domain, target) => push_with_target(text, tree, b"exclude", domain, target),
        Order::Manual(domain, target) => push_with_target(text, tree, b"manual", domain, target),
        Order::Ignore(domain, target) => push_with_target(text, tree, b"ignore", domain, target),
        Order::Ask(domain) => push_with_domain(text, tree, b"ask", domain),
        Order::Watch(object) => push_with_object(text, tree, b"watch", object),
        Order::Unwatch(object) => push_with_object(text, tree, b"unwatch", object),
        Order::Report(device, state) => {
            push_word(text, b"report")?;
            push_called(text, names::device(tree, device), device)?;
            push_called(text, names::state(tree, state), state)
        }
    }
}

fn push_record(text: &mut Vec<u8>, tree: &Tree, asked: &Record) -> Result<(), AllocError>
    ensures { OnOk result (text.new.items ≡ with_words text.old.items (record_words tree.now asked.now)) }
{
    push_holder(text, tree, asked.holder)?;
    push_number(text, asked.epoch)?;
    push_number(text, u64::from(asked.last))?;
    push_phase(text, asked.phase)?;
    push_number(text, u64::from(asked.outcome))
}

/// Adds the code of an order, or the record that was asked for.
pub(crate) fn push_answer(
    text: &mut Vec<u8>,
    tree: &Tree,
    code: u16,
    asked: &Option<Record>,
) -> Result<(), AllocError>
    ensures { OnOk result (text.new.items ≡ with_words text.old.items (answer_words tree.now code asked.now)) }
{
    match asked {
        None => push_number(text, u64::from(code)),
        Some(record) => push_record(text, tree, record),
    }
}
