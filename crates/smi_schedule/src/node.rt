//! The lines that a running node prints and no trace has.

ghost use Rattle.std.specs.Prelude.{◌≡◌, ◌∷◌, [], OnOk, MatchResult, codes};
ghost use Rattle.smi_schedule.specs.Node.{board_text, report_text, waiting_text};
ghost use Rattle.smi_schedule.specs.Text.{line_of};
ghost use Rattle.smi_schedule.specs.TraceWords.{object_word};

use crate::entries::push_shown;
use crate::names;
use crate::orders::{push_answer, push_order};
use crate::trace_words::{begin, end, push_called, push_number, push_word};
use smi_grant::Shown;
use smi_protocol::{Order, Told};
use smi_tree::Tree;
use std::alloc::AllocError;

fn spell_told_report(text: &mut Vec<u8>, tree: &Tree, told: &Told) -> Result<(), AllocError>
    ensures { OnOk result (text.new.items ≡ report_text tree.now told.now) }
{
    begin(text, b"told")?;
    push_order(text, tree, told.order)?;
    push_answer(text, tree, told.code, &told.asked)?;
    end(text)
}

/// Puts the line of how a report ended into a buffer, in place of what was there: as that of an order, but with no
/// operator, since a report is nobody's.
///
/// Out of memory is answered only if the buffer was refused more, which tests alone see, and
/// then the buffer is empty.
pub fn spell_report(text: &mut Vec<u8>, tree: &Tree, told: &Told) -> Result<(), AllocError>
    ensures { MatchResult result (λ _. text.new.items ≡ report_text tree.now told.now) (λ _. text.new.items ≡ []) }
{
    let spelled = spell_told_report(text, tree, told);
    if spelled.is_err() {
        text.clear();
    }
    spelled
}

fn spell_nothing(text: &mut Vec<u8>, tree: &Tree, object: u16) -> Result<(), AllocError>
    ensures { OnOk result (text.new.items ≡ line_of (codes "board") (object_word tree.now object ∷ codes "none" ∷ [])) }
{
    begin(text, b"board")?;
    push_called(text, names::object(tree, object), object)?;
    push_word(text, b"none")?;
    end(text)
}

fn spell_shown(
    text: &mut Vec<u8>,
    tree: &Tree,
    object: u16,
    shown: Option<Shown>,
) -> Result<(), AllocError>
    ensures { OnOk result (text.new.items ≡ board_text tree.now object shown) }
{
    match shown {
        None => spell_nothing(text, tree, object),
        Some(shown) => {
            begin(text, b"board")?;
            push_shown(text, tree, shown)
        }
    }
}

/// Puts the line of what a board shows of an object into a buffer, in place of what was there: the object with its
/// version and state, or that it shows nothing of the object.
///
/// Out of memory is answered only if the buffer was refused more, which tests alone see, and
/// then the buffer is empty.
pub fn spell_board(
    text: &mut Vec<u8>,
    tree: &Tree,
    object: u16,
    shown: Option<Shown>,
) -> Result<(), AllocError>
    ensures { MatchResult result (λ _. text.new.items ≡ board_text tree.now object shown) (λ _. text.new.items ≡ []) }
{
    let spelled = spell_shown(text, tree, object, shown);
    if spelled.is_err() {
        text.clear();
    }
    spelled
}

fn spell_under_way(
    text: &mut Vec<u8>,
    tree: &Tree,
    operator: u16,
    order: Order,
    seconds: u64,
) -> Result<(), AllocError>
    ensures { OnOk result (text.new.items ≡ waiting_text tree.now operator order seconds) }
{
    begin(text, b"way")?;
    push_called(text, names::operator(tree, operator), operator)?;
    push_order(text, tree, order)?;
    push_number(text, seconds)?;
    end(text)
}

/// Puts the line of an operator's order that is under way into a buffer, in place of what was there, with the seconds
/// since it was given.
///
/// Out of memory is answered only if the buffer was refused more, which tests alone see, and
/// then the buffer is empty.
pub fn spell_waiting(
    text: &mut Vec<u8>,
    tree: &Tree,
    operator: u16,
    order: Order,
    seconds: u64,
) -> Result<(), AllocError>
    ensures { MatchResult result (λ _. text.new.items ≡ waiting_text tree.now operator order seconds)
        (λ _. text.new.items ≡ []) }
{
    let spelled = spell_under_way(text, tree, operator, order, seconds);
    if spelled.is_err() {
        text.clear();
    }
    spelled
}
