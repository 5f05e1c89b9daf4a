//! Parses the lines that are no query: `order` and `report`, which are as in a schedule, and `show`, `will` and
//! `withdraw`, which a node alone has. `request.rt` calls `request_in` for each line. docs/FORMATS.md, "A node's
//! lines", fixes the lines, their faults and the order of these.

ghost use Rattle.std.specs.Prelude.{◌≡◌, ◌≤◌, IsTrue};
ghost use Rattle.smi_tree.specs.Lookups.{operators_of, station_count};
ghost use Rattle.smi_tree.specs.Text.{words};
ghost use Rattle.smi_session.specs.Line as spec;

use crate::request::SessionRequest;
use crate::will::DeviceWill;
use smi_base::MOST_BYTES_OF_A_LINE;
use smi_protocol::{Deed, Item, Order};
use smi_schedule::read_item;
use smi_tree::{Fault, Tree, first_word, is_comment, one_name, two_names};

/// Returns true if an operator is among these, which are those of the station.
fn is_of(operators: &[u16], operator: u16) -> bool
    ensures { result ≡ spec.is_of operators.now operator }
{
    operators.iter().any(|other| *other == operator)
}

/// Returns what an item of a schedule asks of a node with these operators. Its fault is an unknown name if the operator
/// is another station's, and an unknown word if the item is neither an order nor a report.
fn asked(operators: &[u16], item: Item) -> Result<SessionRequest, Fault>
    ensures { result ≡ spec.asked operators.now item }
{
    match item {
        Item::Do(Deed::Order(operator, order)) => {
            if is_of(operators, operator) {
                Ok(SessionRequest::Order(Some(operator), order))
            } else {
                Err(Fault::UnknownName)
            }
        }
        Item::Do(Deed::Report(device, state)) => {
            Ok(SessionRequest::Order(None, Order::Report(device, state)))
        }
        _ => Err(Fault::UnknownWord),
    }
}

/// Returns what the words after `show` ask: the state of an object.
#[tactic(auto, unfolding(crate::specs::Line::shown))]
fn shown(tree: &Tree, text: &[u8]) -> Result<SessionRequest, Fault>
    ensures { result ≡ spec.shown tree.now (words text.now) }
{
    let name = one_name(text)?;
    let object = tree.object_named(name.text()).ok_or(Fault::UnknownName)?;
    Ok(SessionRequest::Show(object))
}

/// Returns what the words after `will` ask: to keep a device's state as a will.
#[tactic(auto, unfolding(crate::specs::Line::willed))]
fn willed(tree: &Tree, text: &[u8]) -> Result<SessionRequest, Fault>
    ensures { result ≡ spec.willed tree.now (words text.now) }
{
    let (device, state) = two_names(text)?;
    let device = tree.device_named(device.text()).ok_or(Fault::UnknownName)?;
    let state = tree.state_named(state.text()).ok_or(Fault::UnknownName)?;
    Ok(SessionRequest::Will(DeviceWill { device, state }))
}

/// Returns what the words after `withdraw` ask. Its fault is a word count if they are not exactly one, which is a tag.
#[tactic(auto, unfolding(crate::specs::Line::withdrawing))]
fn withdrawing(text: &[u8]) -> Result<SessionRequest, Fault>
    ensures { result ≡ spec.withdrawing (words text.now) }
{
    let (_, rest) = first_word(text).ok_or(Fault::WordCount)?;
    match first_word(rest) {
        Some(_) => Err(Fault::WordCount),
        None => Ok(SessionRequest::Withdraw),
    }
}

/// Returns what an `order` or a `report` asks, parsed as a schedule's line. None if the line has no words or is a
/// comment.
#[tactic(auto, unfolding(crate::specs::Line::request_as_item))]
fn request_as_item(
    tree: &Tree,
    operators: &[u16],
    line: &[u8],
) -> Result<Option<SessionRequest>, Fault>
    ensures { result ≡ spec.request_as_item tree.now operators.now line.now }
{
    match read_item(tree, line)? {
        Some(item) => Ok(Some(asked(operators, item)?)),
        None => Ok(None),
    }
}

/// The kind of a line, by its first word. Queries are not among them: see `query.rt`.
#[derive(Clone, Copy)]
pub(crate) enum LineKind {
    Show,
    Order,
    Report,
    Will,
    Withdraw,
}

/// Returns the kind of a line that begins with this word. None if it is the first word of no such line.
pub(crate) fn kind_of(word: &[u8]) -> Option<LineKind>
    ensures { result ≡ spec.kind_of word.now }
{
    if word == b"show".as_slice() {
        Some(LineKind::Show)
    } else if word == b"order".as_slice() {
        Some(LineKind::Order)
    } else if word == b"report".as_slice() {
        Some(LineKind::Report)
    } else if word == b"will".as_slice() {
        Some(LineKind::Will)
    } else if word == b"withdraw".as_slice() {
        Some(LineKind::Withdraw)
    } else {
        None
    }
}

/// Returns what a line of this kind asks. `line` is the whole of it, and `rest` what follows its first word.
#[tactic(auto, unfolding(crate::specs::Line::request_of))]
fn request_of(
    tree: &Tree,
    operators: &[u16],
    kind: LineKind,
    line: &[u8],
    rest: &[u8],
) -> Result<Option<SessionRequest>, Fault>
    ensures { result ≡ spec.request_of tree.now operators.now kind line.now (words rest.now) }
{
    match kind {
        LineKind::Show => Ok(Some(shown(tree, rest)?)),
        LineKind::Order => request_as_item(tree, operators, line),
        LineKind::Report => request_as_item(tree, operators, line),
        LineKind::Will => Ok(Some(willed(tree, rest)?)),
        LineKind::Withdraw => Ok(Some(withdrawing(rest)?)),
    }
}

/// Returns what a line asks of a station with these operators. None if it has no words or is a comment.
///
/// The line is without its line feed and the carriage return before it. An `order` or a `report` is as in a schedule.
/// `show` is followed by an object's name, `will` by those of a device and a state, and `withdraw` by a tag. The faults
/// are those of schedules, in their order. An operator of another station is unknown here. It takes no memory.
#[tactic(auto, unfolding(crate::specs::Line::request_in))]
pub fn request_in(
    tree: &Tree,
    operators: &[u16],
    line: &[u8],
) -> Result<Option<SessionRequest>, Fault>
    ensures { result ≡ spec.request_in tree.now operators.now line.now }
{
    if line.len() > MOST_BYTES_OF_A_LINE {
        return Err(Fault::LineTooLong);
    }
    let Some((first, rest)) = first_word(line) else {
        return Ok(None);
    };
    if is_comment(first.text()) {
        return Ok(None);
    }
    let kind = kind_of(first.text()).ok_or(Fault::UnknownWord)?;
    request_of(tree, operators, kind, line, rest)
}
