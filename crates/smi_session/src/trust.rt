//! Decides whether a connection is a client of the node, by the first line of it that asks anything. `session.rt` has
//! the decision, and `smi_console` closes a connection that is refused. It keeps web pages out: a browser that a page
//! has connect to the node sends the head of a request first. docs/FORMATS.md, "Connections", promises it.

ghost use Rattle.std.specs.Prelude.{◌≡◌};
ghost use Rattle.smi_tree.specs.Text.{words};
ghost use Rattle.smi_session.specs.Trust as spec;

use crate::line::kind_of;
use crate::query::query_named;
use crate::session::ReplyStyle;
use smi_tree::{first_word, is_comment};

/// What the lines of a session have shown of it. It changes once, from `New`.
#[derive(Clone, Copy)]
pub enum Trust {
    /// No line has asked anything yet.
    New,
    /// A line has asked something.
    Accepted,
    /// The first line that could have asked anything was no line of a node. No line is read any more.
    Refused,
}

/// Returns true if a line of a node may begin with this word: a comment, a kind of line, or a query.
fn may_begin(word: &[u8]) -> bool
    ensures { result ≡ spec.may_begin word.now }
{
    is_comment(word) || kind_of(word).is_some() || query_named(word).is_some()
}

/// Returns true if a text begins with a word that no line of a node begins with. Returns false if it has no words.
fn is_foreign(text: &[u8]) -> bool
    ensures { result ≡ spec.is_foreign (words text.now) }
{
    match first_word(text) {
        Some((first, _)) => !may_begin(first.text()),
        None => false,
    }
}

/// Returns true if no client begins with this line. A line with a tag is always a client's, because no request of a
/// browser begins so. The standard input is always the node's own.
pub(crate) fn is_strange(style: ReplyStyle, has_tag: bool, text: &[u8]) -> bool
    ensures { result ≡ spec.is_strange style has_tag (words text.now) }
{
    match style {
        ReplyStyle::Script => false,
        ReplyStyle::Human => !has_tag && is_foreign(text),
    }
}
