//! Appends states and records in the words of the history: ` 1.6 READY`, ` operator ANN 3 4 settled 0`. `looking.rt`
//! and `knowing.rt` call it. docs/FORMATS.md, "The history of a screen", fixes the words, which pages read.

ghost use Rattle.std.specs.Prelude.{◌≡◌, ◌++◌, OnOk};
ghost use Rattle.smi_history.specs.Wording as spec;

use crate::text::{put, put_called, put_number};
use smi_grant::{Holder, Phase, Record, Shown};
use smi_schedule::names;
use smi_tree::Tree;
use std::alloc::AllocError;

/// Appends a space and the version of a state that was shown: ` 1.6`.
fn put_version(text: &mut Vec<u8>, shown: Shown) -> Result<(), AllocError>
    ensures { OnOk result (text.new.items ≡ text.old.items ++ spec.version_text shown) }
{
    put_number(text, b" ", u64::from(shown.version.boot))?;
    put_number(text, b".", u64::from(shown.version.sequence))
}

/// Appends the version and the name of a state that was shown: ` 1.6 READY`.
pub(crate) fn put_shown(text: &mut Vec<u8>, tree: &Tree, shown: Shown) -> Result<(), AllocError>
    ensures { OnOk result (text.new.items ≡ text.old.items ++ spec.shown_text tree.now shown) }
{
    put_version(text, shown)?;
    put(text, b" ")?;
    put_called(text, names::state(tree, shown.state), shown.state)
}

/// Appends who holds a domain: ` operator ANN`, ` domain EXPERIMENT` or ` free`.
fn put_holder(text: &mut Vec<u8>, tree: &Tree, holder: Holder) -> Result<(), AllocError>
    ensures { OnOk result (text.new.items ≡ text.old.items ++ spec.holder_text tree.now holder) }
{
    match holder {
        Holder::Free => put(text, b" free"),
        Holder::Operator(number) => {
            put(text, b" operator ")?;
            put_called(text, names::operator(tree, number), number)
        }
        Holder::Domain(number) => {
            put(text, b" domain ")?;
            put_called(text, names::domain(tree, number), number)
        }
    }
}

/// Returns the word of a phase, with a space before it.
fn phase_word(phase: Phase) -> &'static [u8]
    ensures { result.now ≡ spec.phase_word phase }
{
    match phase {
        Phase::Settled => b" settled",
        Phase::Busy => b" busy",
    }
}

/// Appends the number of a domain's last command, its phase and its outcome: ` 4 settled 0`.
fn put_last(text: &mut Vec<u8>, record: &Record) -> Result<(), AllocError>
    ensures { OnOk result (text.new.items ≡ text.old.items ++ spec.last_text record.now) }
{
    put_number(text, b" ", u64::from(record.last))?;
    put(text, phase_word(record.phase))?;
    put_number(text, b" ", u64::from(record.outcome))
}

/// Appends a record: its holder, its epoch and its last command, as ` operator ANN 3 4 settled 0`.
pub(crate) fn put_record(text: &mut Vec<u8>, tree: &Tree, record: &Record) -> Result<(), AllocError>
    ensures { OnOk result (text.new.items ≡ text.old.items ++ spec.record_text tree.now record.now) }
{
    put_holder(text, tree, record.holder)?;
    put_number(text, b" ", record.epoch)?;
    put_last(text, record)
}
