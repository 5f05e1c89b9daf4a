//! Finds which name of a refused line is unknown, so that a person is told `HVX is no device of the tree` and not only
//! fault 5. `fault_reply.rt` calls `unknown_in` and `is_verb`. The words are no format: clients read the code of the
//! fault.

ghost use Rattle.std.specs.Prelude.{◌≡◌, option_map};
ghost use Rattle.smi_tree.specs.Text.{words};
ghost use Rattle.smi_session.specs.UnknownName as spec;

use crate::line::{LineKind, kind_of};
use crate::query::{Query, numbers_in, query_named};
use smi_tree::{Tree, first_word};

/// The kind of thing that a name in a line has to name.
#[derive(Clone, Copy)]
pub(crate) enum NameKind {
    /// An operator of this station.
    Operator,
    Domain,
    Device,
    /// A domain or a device.
    Object,
    Action,
    State,
}

impl NameKind {
    ghost use Rattle.std.specs.Prelude.{◌≡◌};
    ghost use Rattle.smi_session.specs.UnknownName as spec;

    /// Returns the words that follow a name which is none of these.
    fn message(self) -> &'static [u8]
        ensures { result.now ≡ spec.message self }
    {
        match self {
            NameKind::Operator => b"is no operator of this station",
            NameKind::Domain => b"is no domain of the tree",
            NameKind::Device => b"is no device of the tree",
            NameKind::Object => b"is no domain or device of the tree",
            NameKind::Action => b"is no action of the tree",
            NameKind::State => b"is no state of the tree",
        }
    }

    /// Returns true if a name is that of such a thing. `operators` are those of the station.
    fn has(self, tree: &Tree, operators: &[u16], name: &[u8]) -> bool
        ensures { result ≡ spec.has tree.now operators.now self name.now }
    {
        match self {
            NameKind::Operator => match tree.operator_named(name) {
                Some(operator) => operators.contains(&operator),
                None => false,
            },
            NameKind::Domain => tree.domain_named(name).is_some(),
            NameKind::Device => tree.device_named(name).is_some(),
            NameKind::Object => tree.object_named(name).is_some(),
            NameKind::Action => tree.action_named(name).is_some(),
            NameKind::State => tree.state_named(name).is_some(),
        }
    }
}

/// Returns what the first name after the verb of an order has to be, and the second one. None for a name that the order
/// does not have; both are None if the word is no verb.
fn kinds_of_order(verb: &[u8]) -> (Option<NameKind>, Option<NameKind>)
    ensures { result ≡ spec.kinds_of_order verb.now }
{
    if verb == b"take".as_slice() || verb == b"drop".as_slice() || verb == b"ask".as_slice() {
        (Some(NameKind::Domain), None)
    } else if verb == b"include".as_slice()
        || verb == b"exclude".as_slice()
        || verb == b"manual".as_slice()
        || verb == b"ignore".as_slice()
    {
        (Some(NameKind::Domain), Some(NameKind::Domain))
    } else if verb == b"watch".as_slice() || verb == b"unwatch".as_slice() {
        (Some(NameKind::Object), None)
    } else if verb == b"do".as_slice() {
        (Some(NameKind::Domain), Some(NameKind::Action))
    } else {
        (None, None)
    }
}

/// An unknown name, and the words that follow it in the reply.
#[derive(Clone, Copy)]
pub(crate) struct UnknownName<'a> {
    /// The name, as it is in the line.
    pub(crate) name: &'a [u8],
    /// What follows it, as `is no device of the tree`.
    pub(crate) message: &'static [u8],
}

/// Returns the first word of a text if it is not the name of such a thing. None if it is, or there is no word.
fn unknown_first<'a>(
    tree: &Tree,
    operators: &[u16],
    kind: Option<NameKind>,
    text: &'a [u8],
) -> Option<UnknownName<'a>>
    ensures { option_map (λ u. (u.name.now, u.message.now)) result
        ≡ spec.unknown_first tree.now operators.now kind (words text.now) }
{
    let kind = kind?;
    let (word, _) = first_word(text)?;
    if kind.has(tree, operators, word.text()) {
        return None;
    }
    Some(UnknownName {
        name: word.text(),
        message: kind.message(),
    })
}

/// Returns true if a word is the verb of an order.
pub(crate) fn is_verb(word: &[u8]) -> bool
    ensures { result ≡ spec.is_verb word.now }
{
    let (first, _) = kinds_of_order(word);
    first.is_some()
}

/// Returns the first unknown name of the first two words of a text. None if both are known.
fn unknown_of_two<'a>(
    tree: &Tree,
    operators: &[u16],
    kinds: (Option<NameKind>, Option<NameKind>),
    text: &'a [u8],
) -> Option<UnknownName<'a>>
    ensures { option_map (λ u. (u.name.now, u.message.now)) result
        ≡ spec.unknown_of_two tree.now operators.now kinds (words text.now) }
{
    let (first, second) = kinds;
    match unknown_first(tree, operators, first, text) {
        Some(unknown) => Some(unknown),
        None => {
            let (_, rest) = first_word(text)?;
            unknown_first(tree, operators, second, rest)
        }
    }
}

/// Returns the first unknown name of an order that has a verb: its operator, or a name after the verb.
fn unknown_of_order<'a>(tree: &Tree, operators: &[u16], text: &'a [u8]) -> Option<UnknownName<'a>>
    ensures { option_map (λ u. (u.name.now, u.message.now)) result
        ≡ spec.unknown_of_order tree.now operators.now (words text.now) }
{
    let (_, rest) = first_word(text)?;
    let (verb, names) = first_word(rest)?;
    match unknown_first(tree, operators, Some(NameKind::Operator), text) {
        Some(unknown) => Some(unknown),
        None => unknown_of_two(tree, operators, kinds_of_order(verb.text()), names),
    }
}

/// Returns the first word of a text that is not the name of such a thing. None if all are.
fn unknown_among<'a>(
    tree: &Tree,
    operators: &[u16],
    kind: NameKind,
    text: &'a [u8],
) -> Option<UnknownName<'a>>
    ensures { option_map (λ u. (u.name.now, u.message.now)) result
        ≡ spec.unknown_among tree.now operators.now kind (words text.now) }
{
    let mut left = text;
    while let Some((word, rest)) = first_word(left) {
        if !kind.has(tree, operators, word.text()) {
            return Some(UnknownName {
                name: word.text(),
                message: kind.message(),
            });
        }
        left = rest;
    }
    None
}

/// Returns the first unknown name of a line. None if it finds none.
pub(crate) fn unknown_in<'a>(
    tree: &Tree,
    operators: &[u16],
    text: &'a [u8],
) -> Option<UnknownName<'a>>
    ensures { option_map (λ u. (u.name.now, u.message.now)) result
        ≡ spec.unknown_in tree.now operators.now (words text.now) }
{
    let (first, rest) = first_word(text)?;
    match kind_of(first.text()) {
        Some(LineKind::Order) => unknown_of_order(tree, operators, rest),
        Some(LineKind::Report | LineKind::Will) => {
            let kinds = (Some(NameKind::Device), Some(NameKind::State));
            unknown_of_two(tree, operators, kinds, rest)
        }
        Some(LineKind::Show) => unknown_among(tree, operators, NameKind::Object, rest),
        Some(LineKind::Withdraw) => None,
        None => match query_named(first.text()) {
            Some(Query::Follow) => unknown_among(tree, operators, NameKind::Object, rest),
            Some(Query::Actions) => {
                let (_, names) = numbers_in(rest);
                unknown_among(tree, operators, NameKind::Device, names)
            }
            // No other query has names.
            _ => None,
        },
    }
}
