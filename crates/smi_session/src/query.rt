//! Parses queries: the lines that ask something of the whole node, as `states` or `under way`. `request.rt` calls
//! `query_in`, and `reply.rt` answers them. docs/FORMATS.md, "Lines with a tag", has each query and its answer.

ghost use Rattle.std.specs.Prelude.{◌≡◌, is_none};
ghost use Rattle.smi_tree.specs.Text.{words};
ghost use Rattle.smi_session.specs.Query as spec;

use smi_tree::{Fault, first_word};

/// A query: what a line asks of the whole node.
#[derive(Clone, Copy)]
pub enum Query {
    /// `counts`: what the node has counted since it began.
    Counts,
    /// `under way`: the orders that are not answered yet.
    UnderWay,
    /// `states`: the newest state of each object that the station keeps or watches.
    States,
    /// `follow`: these states and each later one, of the objects that are named, or of all if none is.
    Follow,
    /// `actions`: each action that is done at a device from now on, at the devices that are named, or at all if none
    /// is.
    Actions,
    /// `modes`: the mode of each child of the station's domains.
    Modes,
    /// `version`: the version of the program.
    Version,
    /// `help`: what a line may ask.
    Help,
}

/// Returns the query that begins with this word. None if no query does.
pub(crate) fn query_named(word: &[u8]) -> Option<Query>
    ensures { result ≡ spec.query_named word.now }
{
    if word == b"counts".as_slice() {
        Some(Query::Counts)
    } else if word == b"under".as_slice() {
        Some(Query::UnderWay)
    } else if word == b"states".as_slice() {
        Some(Query::States)
    } else if word == b"follow".as_slice() {
        Some(Query::Follow)
    } else if word == b"actions".as_slice() {
        Some(Query::Actions)
    } else if word == b"modes".as_slice() {
        Some(Query::Modes)
    } else if word == b"version".as_slice() {
        Some(Query::Version)
    } else if word == b"help".as_slice() {
        Some(Query::Help)
    } else {
        None
    }
}

/// Returns true if a text has no words.
fn has_no_words(text: &[u8]) -> bool
    ensures { result ≡ spec.are_none (words text.now) }
{
    first_word(text).is_none()
}

/// Returns true if `way` is the only word of a text, which is what follows `under`.
fn is_way(text: &[u8]) -> bool
    ensures { result ≡ spec.are_way (words text.now) }
{
    match first_word(text) {
        Some((first, rest)) => first.text() == b"way".as_slice() && has_no_words(rest),
        None => false,
    }
}

/// Returns true and the words after `--with numbers`, if a text begins with these two words. Returns false and the
/// whole text if not.
pub(crate) fn numbers_in(text: &[u8]) -> (bool, &[u8])
    ensures { (result.0, words result.1.now) ≡ spec.numbers_in (words text.now) }
{
    let Some((first, rest)) = first_word(text) else {
        return (false, text);
    };
    let Some((second, names)) = first_word(rest) else {
        return (false, text);
    };
    if first.text() == b"--with".as_slice() && second.text() == b"numbers".as_slice() {
        (true, names)
    } else {
        (false, text)
    }
}

/// Returns true if a query may have these words after its first one. Whether they name anything is tested later.
fn may_have(query: Query, text: &[u8]) -> bool
    ensures { result ≡ spec.may_have query (words text.now) }
{
    match query {
        Query::Counts | Query::States | Query::Modes | Query::Version | Query::Help => {
            has_no_words(text)
        }
        Query::UnderWay => is_way(text),
        Query::Follow | Query::Actions => true,
    }
}

/// Returns the query that a line is. None if it is another line, or has no words.
///
/// Its fault is a word count, if it has too many words or too few.
pub fn query_in(text: &[u8]) -> Result<Option<Query>, Fault>
    ensures { result ≡ spec.query_in (words text.now) }
{
    let Some((first, rest)) = first_word(text) else {
        return Ok(None);
    };
    match query_named(first.text()) {
        Some(query) if may_have(query, rest) => Ok(Some(query)),
        Some(_) => Err(Fault::WordCount),
        None => Ok(None),
    }
}
