//! The lines of entries.

ghost use Rattle.std.specs.Prelude.{◌≡◌, ◌∷◌, [], OnOk, codes};
ghost use Rattle.std.specs.Fmt.{decimal};
ghost use Rattle.smi_schedule.specs.Text.{with_words, line_of, shown_words, told_text, entry_text};
ghost use Rattle.smi_schedule.specs.TraceWords.{
  station_word,
  operator_word,
  domain_word,
  holder_word,
  mode_word,
  command_words,
};

use crate::names;
use crate::orders::{push_answer, push_command, push_holder, push_mode, push_order};
use crate::trace_words::{begin, end, push_called, push_number, push_version};
use smi_grant::{Command, Holder, Shown};
use smi_protocol::{Entry, Told};
use smi_rows::Mode;
use smi_tree::Tree;
use std::alloc::AllocError;

fn spell_booted(text: &mut Vec<u8>, tree: &Tree, station: u16, boot: u32) -> Result<(), AllocError>
    ensures { OnOk result (text.new.items ≡
        line_of (codes "booted") (station_word tree.now station ∷ decimal boot ∷ [])) }
{
    begin(text, b"booted")?;
    push_called(text, names::station(tree, station), station)?;
    push_number(text, u64::from(boot))?;
    end(text)
}

fn spell_granted(
    text: &mut Vec<u8>,
    tree: &Tree,
    domain: u16,
    epoch: u64,
    holder: Holder,
) -> Result<(), AllocError>
    ensures { OnOk result (text.new.items ≡
        line_of (codes "granted") (domain_word tree.now domain ∷ decimal epoch ∷ holder_word tree.now holder ∷ [])) }
{
    begin(text, b"granted")?;
    push_called(text, names::domain(tree, domain), domain)?;
    push_number(text, epoch)?;
    push_holder(text, tree, holder)?;
    end(text)
}

fn spell_freed(text: &mut Vec<u8>, tree: &Tree, domain: u16, epoch: u64) -> Result<(), AllocError>
    ensures { OnOk result (text.new.items ≡
        line_of (codes "freed") (domain_word tree.now domain ∷ decimal epoch ∷ [])) }
{
    begin(text, b"freed")?;
    push_called(text, names::domain(tree, domain), domain)?;
    push_number(text, epoch)?;
    end(text)
}

/// Adds a command of a grant, and the end of the line.
fn push_numbered(
    text: &mut Vec<u8>,
    tree: &Tree,
    domain: u16,
    epoch: u64,
    number: u32,
    command: Command,
) -> Result<(), AllocError>
    ensures { OnOk result (text.new.items ≡
        line_of text.old.items
        (domain_word tree.now domain ∷ decimal epoch ∷ decimal number ∷ command_words tree.now command)) }
{
    push_called(text, names::domain(tree, domain), domain)?;
    push_number(text, epoch)?;
    push_number(text, u64::from(number))?;
    push_command(text, tree, command)?;
    end(text)
}

fn spell_ordered(
    text: &mut Vec<u8>,
    tree: &Tree,
    operator: u16,
    domain: u16,
    epoch: u64,
    number: u32,
    command: Command,
) -> Result<(), AllocError>
    ensures { OnOk result (text.new.items ≡
        line_of (codes "ordered")
        (operator_word tree.now operator ∷ domain_word tree.now domain ∷ decimal epoch
        ∷ decimal number ∷ command_words tree.now command)) }
{
    begin(text, b"ordered")?;
    push_called(text, names::operator(tree, operator), operator)?;
    push_numbered(text, tree, domain, epoch, number, command)
}

fn spell_ran(
    text: &mut Vec<u8>,
    tree: &Tree,
    domain: u16,
    epoch: u64,
    number: u32,
    command: Command,
) -> Result<(), AllocError>
    ensures { OnOk result (text.new.items ≡
        line_of (codes "ran")
        (domain_word tree.now domain ∷ decimal epoch ∷ decimal number ∷ command_words tree.now command)) }
{
    begin(text, b"ran")?;
    push_numbered(text, tree, domain, epoch, number, command)
}

/// Writes what became of a holder's link to a domain.
fn spell_link(
    text: &mut Vec<u8>,
    tree: &Tree,
    word: &[u8],
    holder: Holder,
    domain: u16,
    epoch: u64,
) -> Result<(), AllocError>
    ensures { OnOk result (text.new.items ≡
        line_of word.now (holder_word tree.now holder ∷ domain_word tree.now domain ∷ decimal epoch ∷ [])) }
{
    begin(text, word)?;
    push_holder(text, tree, holder)?;
    push_called(text, names::domain(tree, domain), domain)?;
    push_number(text, epoch)?;
    end(text)
}

fn spell_mode(text: &mut Vec<u8>, tree: &Tree, domain: u16, mode: Mode) -> Result<(), AllocError>
    ensures { OnOk result (text.new.items ≡
        line_of (codes "mode") (domain_word tree.now domain ∷ mode_word mode ∷ [])) }
{
    begin(text, b"mode")?;
    push_called(text, names::domain(tree, domain), domain)?;
    push_mode(text, mode)?;
    end(text)
}

fn spell_settled(
    text: &mut Vec<u8>,
    tree: &Tree,
    domain: u16,
    epoch: u64,
    number: u32,
    outcome: u16,
) -> Result<(), AllocError>
    ensures { OnOk result (text.new.items ≡
        line_of (codes "settled")
        (domain_word tree.now domain ∷ decimal epoch ∷ decimal number ∷ decimal outcome ∷ [])) }
{
    begin(text, b"settled")?;
    push_called(text, names::domain(tree, domain), domain)?;
    push_number(text, epoch)?;
    push_number(text, u64::from(number))?;
    push_number(text, u64::from(outcome))?;
    end(text)
}

/// Adds what an object shows, and the end of the line.
pub(crate) fn push_shown(text: &mut Vec<u8>, tree: &Tree, shown: Shown) -> Result<(), AllocError>
    ensures { OnOk result (text.new.items ≡ line_of text.old.items (shown_words tree.now shown)) }
{
    push_called(text, names::object(tree, shown.object), shown.object)?;
    push_version(text, shown.version)?;
    push_called(text, names::state(tree, shown.state), shown.state)?;
    end(text)
}

fn spell_showed(
    text: &mut Vec<u8>,
    tree: &Tree,
    station: u16,
    shown: Shown,
) -> Result<(), AllocError>
    ensures { OnOk result (text.new.items ≡
        line_of (codes "showed") (station_word tree.now station ∷ shown_words tree.now shown)) }
{
    begin(text, b"showed")?;
    push_called(text, names::station(tree, station), station)?;
    push_shown(text, tree, shown)
}

fn spell_passed(text: &mut Vec<u8>, tree: &Tree, shown: Shown) -> Result<(), AllocError>
    ensures { OnOk result (text.new.items ≡ line_of (codes "passed") (shown_words tree.now shown)) }
{
    begin(text, b"passed")?;
    push_shown(text, tree, shown)
}

fn spell_told(text: &mut Vec<u8>, tree: &Tree, operator: u16, told: &Told) -> Result<(), AllocError>
    ensures { OnOk result (text.new.items ≡ told_text tree.now operator told.now) }
{
    begin(text, b"told")?;
    push_called(text, names::operator(tree, operator), operator)?;
    push_order(text, tree, told.order)?;
    push_answer(text, tree, told.code, &told.asked)?;
    end(text)
}

/// Writes the text of an entry, in place of what was there.
pub(crate) fn spell_entry(text: &mut Vec<u8>, tree: &Tree, entry: &Entry) -> Result<(), AllocError>
    ensures { OnOk result (text.new.items ≡ entry_text tree.now entry.now) }
{
    match *entry {
        Entry::Booted { station, boot } => spell_booted(text, tree, station, boot),
        Entry::Granted {
            domain,
            epoch,
            holder,
        } => spell_granted(text, tree, domain, epoch, holder),
        Entry::Freed { domain, epoch } => spell_freed(text, tree, domain, epoch),
        Entry::Ordered {
            operator,
            domain,
            epoch,
            number,
            command,
        } => spell_ordered(text, tree, operator, domain, epoch, number, command),
        Entry::Ran {
            domain,
            epoch,
            number,
            command,
        } => spell_ran(text, tree, domain, epoch, number, command),
        Entry::Learned {
            holder,
            domain,
            epoch,
        } => spell_link(text, tree, b"learned", holder, domain, epoch),
        Entry::LetGo {
            holder,
            domain,
            epoch,
        } => spell_link(text, tree, b"letgo", holder, domain, epoch),
        Entry::InMode { domain, mode } => spell_mode(text, tree, domain, mode),
        Entry::Settled {
            domain,
            epoch,
            number,
            outcome,
        } => spell_settled(text, tree, domain, epoch, number, outcome),
        Entry::Showed { station, shown } => spell_showed(text, tree, station, shown),
        Entry::Passed(shown) => spell_passed(text, tree, shown),
        Entry::Told { operator, told } => spell_told(text, tree, operator, &told),
    }
}
