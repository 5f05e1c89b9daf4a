//! Says what a line asks, whichever kind of line it is. `service.rt` calls `request_of_line` for each line and does
//! what it returns. docs/FORMATS.md, "A node's lines", fixes which lines there are, and their faults: a client sees any
//! change here.

ghost use Rattle.std.specs.Prelude.{◌≡◌, is_some};
ghost use Rattle.smi_tree.specs.Text.{words};
ghost use Rattle.smi_session.specs.Request as spec;

use crate::line::request_in;
use crate::query::{Query, numbers_in, query_in};
use crate::session::ReplyStyle;
use crate::will::DeviceWill;
use smi_base::MOST_BYTES_OF_A_LINE;
use smi_protocol::Order;
use smi_tree::{Fault, Tree, first_word};

/// What a line asks. `service.rt` does it.
#[derive(Clone, Copy)]
pub enum SessionRequest {
    /// An order, and the operator who gives it. The operator of a report is None, because a report is nobody's.
    Order(Option<u16>, Order),
    /// `show`: the state that the board shows of an object, by its number.
    Show(u16),
    /// A query of the whole node.
    Query(Query),
    /// `will`: the state of a device that the node reports when the session ends.
    Will(DeviceWill),
    /// `withdraw`: to take back an order of the session that waits for a seat. The line has the tag of that order.
    Withdraw,
}

/// Returns true if a line may be a query. A script's line without a tag may not, because each of them has a single line
/// as its answer.
fn may_query(style: ReplyStyle, has_tag: bool) -> bool
    ensures { result ≡ spec.may_query style has_tag }
{
    match style {
        ReplyStyle::Human => true,
        ReplyStyle::Script => has_tag,
    }
}

/// Returns the query that a line is. None if it is no query, may not be one here, or is too long: then `request_in`
/// finds the fault.
fn query_of(style: ReplyStyle, has_tag: bool, text: &[u8]) -> Result<Option<Query>, Fault>
    ensures { result ≡ spec.query_of style has_tag text.now }
{
    if text.len() <= MOST_BYTES_OF_A_LINE && may_query(style, has_tag) {
        query_in(text)
    } else {
        Ok(None)
    }
}

/// Returns true if a query may name this: `follow` a domain or a device, `actions` a device, and any other nothing.
fn may_name(tree: &Tree, query: Query, name: &[u8]) -> bool
    ensures { result ≡ spec.may_name tree.now query name.now }
{
    match query {
        Query::Follow => tree.object_named(name).is_some(),
        Query::Actions => tree.device_named(name).is_some(),
        Query::Counts
        | Query::UnderWay
        | Query::States
        | Query::Modes
        | Query::Version
        | Query::Help => false,
    }
}

/// Returns true if a query may name each word of a text.
fn may_name_all(tree: &Tree, query: Query, text: &[u8]) -> bool
    ensures { result ≡ spec.may_name_all tree.now query (words text.now) }
{
    let mut left = text;
    while let Some((word, rest)) = first_word(left) {
        if !may_name(tree, query, word.text()) {
            return false;
        }
        left = rest;
    }
    true
}

/// Returns what follows the first word of a text, or the text if it has no words.
pub(crate) fn behind_first(text: &[u8]) -> &[u8]
    ensures { words result.now ≡ spec.behind_first (words text.now) }
{
    match first_word(text) {
        Some((_, rest)) => rest,
        None => text,
    }
}

/// Returns the request of a query with these names. Its fault is an unknown name, if it may not have one of them.
fn named_request(tree: &Tree, query: Query, names: &[u8]) -> Result<SessionRequest, Fault>
    ensures { result ≡ spec.named_request tree.now query (words names.now) }
{
    if may_name_all(tree, query, names) {
        Ok(SessionRequest::Query(query))
    } else {
        Err(Fault::UnknownName)
    }
}

/// Returns the request of a line that is this query. Its fault is an unknown name.
fn query_request(tree: &Tree, query: Query, text: &[u8]) -> Result<SessionRequest, Fault>
    ensures { result ≡ spec.query_request tree.now query (words text.now) }
{
    match query {
        Query::Follow => named_request(tree, Query::Follow, behind_first(text)),
        Query::Actions => {
            let (_, names) = numbers_in(behind_first(text));
            named_request(tree, Query::Actions, names)
        }
        Query::Counts
        | Query::UnderWay
        | Query::States
        | Query::Modes
        | Query::Version
        | Query::Help => Ok(SessionRequest::Query(query)),
    }
}

/// Returns the request of a line that is no query. A line that asks nothing, as a comment, has a fault if it has a tag.
fn line_request(
    has_tag: bool,
    request: Option<SessionRequest>,
) -> Result<Option<SessionRequest>, Fault>
    ensures { result ≡ spec.line_request has_tag request }
{
    match request {
        None if has_tag => Err(Fault::WordCount),
        _ => Ok(request),
    }
}

/// Returns what a line asks of a station with these operators. None if the line is skipped.
///
/// The text is without the tag, its line feed and the carriage return before that. docs/FORMATS.md, "A node's lines",
/// has the faults and their order.
pub fn request_of_line(
    tree: &Tree,
    operators: &[u16],
    style: ReplyStyle,
    has_tag: bool,
    text: &[u8],
) -> Result<Option<SessionRequest>, Fault>
    ensures { result ≡ spec.request_of_line tree.now operators.now style has_tag text.now }
{
    match query_of(style, has_tag, text)? {
        Some(query) => Ok(Some(query_request(tree, query, text)?)),
        None => line_request(has_tag, request_in(tree, operators, text)?),
    }
}
