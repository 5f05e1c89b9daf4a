//! Writes the reply to a line that is refused. `service.rt` calls `push_fault`. A script gets `line 3 fault 5`; a
//! person gets the reason too, as `line 3 fault 5: HVX is no device of the tree`. docs/FORMATS.md, "A node's lines" and
//! "Connections", fixes these texts, and docs/NUMBERS.md, "Faults of a line", the codes. Clients read the codes; the
//! words are for people.

ghost use Rattle.std.specs.Prelude.{◌≡◌, ◌++◌, ◌∷◌, [], OnOk, is_some};
ghost use Rattle.std.specs.Fmt.{decimal};
ghost use Rattle.smi_tree.specs.Text.{words};
ghost use Rattle.smi_tree.specs.declared.fault.Fault.TheVariants as fault;
ghost use Rattle.smi_session.specs.FaultReply as spec;
ghost use Rattle.smi_session.specs.declared.session.ReplyStyle.TheVariants.{Script, Human};

use crate::session::{ReplyStyle, Session};
use crate::tag::TaggedLine;
use crate::unknown_name::{is_verb, unknown_in};
use smi_tree::{Fault, Tree, first_word};
use std::alloc::AllocError;
use std::io::Write;

/// Returns what a fault means, in words for a person.
fn words_of(fault: Fault) -> &'static [u8]
    ensures { result.now ≡ spec.words_of fault }
{
    match fault {
        Fault::UnknownWord => b"a word that no line has there",
        Fault::WordCount => b"too few words, or too many",
        Fault::Malformed => b"a name that is not well formed",
        Fault::UnknownName => b"a name that this station does not have as what the line wants",
        Fault::LineTooLong => b"more than 200 bytes",
        // Reading a line of a node finds no other fault.
        _ => b"no line of a node",
    }
}

/// Returns what is wrong with a line whose first word is unknown. If that word is the verb of an order, as in `take
/// DCS`, it says that `order OPERATOR` is missing.
fn words_of_word(line: &[u8]) -> &'static [u8]
    ensures { result.now ≡ spec.words_of_word (words line.now) }
{
    match first_word(line) {
        Some((word, _)) if is_verb(word.text()) => b"an order begins with order OPERATOR",
        _ => words_of(Fault::UnknownWord),
    }
}

/// Appends which name of a line is unknown, as `HVX is no device of the tree`. If none is found, appends the general
/// words.
fn push_unknown(
    text: &mut Vec<u8>,
    tree: &Tree,
    operators: &[u16],
    line: &[u8],
) -> Result<(), AllocError>
    ensures { OnOk result (text.new.items
        ≡ text.old.items ++ spec.reason_of tree.now operators.now line.now fault.UnknownName) }
{
    match unknown_in(tree, operators, line) {
        Some(unknown) => {
            text.extend_from_slice(unknown.name)?;
            text.push(b' ')?;
            text.extend_from_slice(unknown.message)
        }
        None => text.extend_from_slice(words_of(Fault::UnknownName)),
    }
}

/// Appends what is wrong with a line, in words. Of an unknown name it says which one it is.
fn push_reason(
    text: &mut Vec<u8>,
    tree: &Tree,
    operators: &[u16],
    line: &[u8],
    fault: Fault,
) -> Result<(), AllocError>
    ensures { OnOk result (text.new.items ≡ text.old.items ++ spec.reason_of tree.now operators.now line.now fault) }
{
    match fault {
        Fault::UnknownName => push_unknown(text, tree, operators, line),
        Fault::UnknownWord => text.extend_from_slice(words_of_word(line)),
        _ => text.extend_from_slice(words_of(fault)),
    }
}

/// Writes the front of a fault's line in place of what the text had: `line 3 fault 5`, or `fault 5` if the line has a
/// tag.
fn write_fault(
    text: &mut Vec<u8>,
    has_tag: bool,
    number: u64,
    fault: Fault,
) -> Result<(), AllocError>
    ensures { OnOk result (text.new.items ≡ spec.fault_line has_tag number fault) }
{
    text.clear();
    if !has_tag {
        text.extend_from_slice(b"line ")?;
        // Writing into a Vec fails only if memory is refused.
        write!(text, "{number} ").map_err(|_| AllocError)?;
    }
    text.extend_from_slice(b"fault ")?;
    write!(text, "{}", fault.code()).map_err(|_| AllocError)
}

/// Ends the line of a fault. For a person it appends the reason first, after `: `.
fn end_fault(
    text: &mut Vec<u8>,
    tree: &Tree,
    operators: &[u16],
    style: ReplyStyle,
    line: &[u8],
    fault: Fault,
) -> Result<(), AllocError>
    ensures { OnOk result (text.new.items
        ≡ spec.fault_text style (spec.reason_of tree.now operators.now line.now fault) text.old.items) }
{
    match style {
        ReplyStyle::Script => {}
        ReplyStyle::Human => {
            text.push(b':')?;
            text.push(b' ')?;
            push_reason(text, tree, operators, line, fault)?;
        }
    }
    text.push(b'\n')?;
    Ok(())
}

/// Pushes the fault of a line to its session. A fault of a script's line without a tag goes to the session's errors,
/// which are printed on standard error. Any other goes to its output, after the tag if there is one.
///
/// Fails if memory is refused.
pub(crate) fn push_fault(
    text: &mut Vec<u8>,
    tree: &Tree,
    operators: &[u16],
    session: &mut Session,
    line: TaggedLine<'_>,
    fault: Fault,
) -> Result<(), AllocError>
    ensures { OnOk result (session.new ≡ spec.with_fault tree.now operators.now line.entry.tag line.entry.number
        line.entry.text.now fault session.old) }
{
    write_fault(text, line.tag.is_some(), line.number, fault)?;
    end_fault(text, tree, operators, session.style(), line.text, fault)?;
    match (session.style(), line.tag) {
        (ReplyStyle::Script, None) => session.push_error(text.as_slice()),
        _ => session.push_reply(line.tag, text.as_slice()),
    }
}
