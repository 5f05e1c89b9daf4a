//! The line of a datagram.

ghost use Rattle.std.specs.Prelude.{◌≡◌, ◌++◌, ◌∷◌, OnOk};
ghost use Rattle.smi_schedule.specs.Text.{sent_text};
ghost use Rattle.smi_schedule.specs.TraceWords.{kind_word, subject_word};

use crate::names;
use crate::trace_words::{begin, end, push_called, push_number, push_word};
use smi_message::{Body, Datagram};
use smi_tree::Tree;
use std::alloc::AllocError;

fn push_kind(text: &mut Vec<u8>, body: &Body) -> Result<(), AllocError>
    ensures { OnOk result (text.new.items ≡ text.old.items ++ 32 ∷ kind_word body.now) }
{
    match body {
        Body::Ask(..) => push_word(text, b"ASK"),
        Body::Take { .. } => push_word(text, b"TAKE"),
        Body::Drop { .. } => push_word(text, b"DROP"),
        Body::Run { .. } => push_word(text, b"RUN"),
        Body::Tell { .. } => push_word(text, b"TELL"),
        Body::Watch { .. } => push_word(text, b"WATCH"),
        Body::State { .. } => push_word(text, b"STATE"),
        Body::Unwatch { .. } => push_word(text, b"UNWATCH"),
    }
}

/// Adds the domain or the object that a datagram is about.
fn push_subject(text: &mut Vec<u8>, tree: &Tree, body: &Body) -> Result<(), AllocError>
    ensures { OnOk result (text.new.items ≡ text.old.items ++ 32 ∷ subject_word tree.now body.now) }
{
    match *body {
        Body::Ask(domain) => push_called(text, names::domain(tree, domain), domain),
        Body::Take { domain, .. } => push_called(text, names::domain(tree, domain), domain),
        Body::Drop { domain, .. } => push_called(text, names::domain(tree, domain), domain),
        Body::Run { domain, .. } => push_called(text, names::domain(tree, domain), domain),
        Body::Tell { domain, .. } => push_called(text, names::domain(tree, domain), domain),
        Body::Watch { object, .. } => push_called(text, names::object(tree, object), object),
        Body::State { object, .. } => push_called(text, names::object(tree, object), object),
        Body::Unwatch { object, .. } => push_called(text, names::object(tree, object), object),
    }
}

/// Writes the text of a datagram with its number, in place of what was there.
pub(crate) fn spell_sent(
    text: &mut Vec<u8>,
    tree: &Tree,
    number: u64,
    datagram: &Datagram,
) -> Result<(), AllocError>
    ensures { OnOk result (text.new.items ≡ sent_text tree.now number datagram.now) }
{
    begin(text, b"sent")?;
    push_number(text, number)?;
    push_kind(text, &datagram.body)?;
    push_called(text, names::station(tree, datagram.from), datagram.from)?;
    push_called(text, names::station(tree, datagram.to), datagram.to)?;
    push_subject(text, tree, &datagram.body)?;
    end(text)
}
