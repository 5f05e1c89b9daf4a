//! A subscription of a session to states (`follow`) or to actions (`actions`). `reply.rt` makes it of a query's words,
//! and `session.rt` says by it which events the session is told of (docs/FORMATS.md, "Lines with a tag").

ghost use Rattle.std.specs.Prelude.{IfOk, ◌≡◌};
ghost use Rattle.smi_tree.specs.Text.{words};
ghost use Rattle.smi_session.specs.Subscription.{objects_in, subscription_of};

use crate::tag::Tag;
use smi_tree::{Tree, first_word};
use std::alloc::{AllocError, Global};
use std::marker::Model;

/// What a session subscribes to, from its query on.
///
/// Contracts see all of it.
#[derive(Drop)]
pub struct Subscription {
    /// The tag of the query, which each line about it begins with. None if it had none.
    pub(crate) tag: Option<Tag>,
    /// The numbers of the objects; of actions they are devices. None for all.
    pub(crate) objects: Option<Vec<u16>>,
    /// True if actions are told with the numbers of their commands (`--with numbers`).
    pub(crate) has_numbers: bool,
}

impl Model for Subscription {
    ghost use Rattle.std.specs.Prelude.{option_map};
    ghost use Rattle.smi_session.specs.Subscription.{SubscriptionState};

    ghost Value = { SubscriptionState };

    ghost view = { λ s. record {
      tag = s.tag;
      objects = option_map (λ v. v.items) s.objects;
      has_numbers = s.has_numbers;
    } };
}

impl Subscription {
    ghost use Rattle.std.specs.Prelude.{◌≡◌};
    ghost use Rattle.smi_session.specs.Subscription.{includes};

    /// Returns true if it names this object, or is to all.
    pub(crate) fn includes(&self, object: u16) -> bool
        ensures { result ≡ includes self.now object }
    {
        match &self.objects {
            Some(objects) => objects.contains(&object),
            None => true,
        }
    }
}

/// Returns the objects that words name. A word that names none is left out: `request.rt` has refused such lines before.
fn objects_in(alloc: Global, tree: &Tree, text: &[u8]) -> Result<Vec<u16>, AllocError>
    ensures { IfOk result (λ objects. objects.items ≡ objects_in tree.now (words text.now)) }
{
    let mut objects = Vec::new(alloc);
    let mut left = text;
    while let Some((word, rest)) = first_word(left) {
        if let Some(object) = tree.object_named(word.text()) {
            objects.push(object)?;
        }
        left = rest;
    }
    Ok(objects)
}

/// Returns the subscription that words ask for: to the objects that they name, or to all if there are no words.
///
/// Fails if memory is refused.
pub(crate) fn subscription_in(
    alloc: Global,
    tree: &Tree,
    tag: Option<Tag>,
    has_numbers: bool,
    text: &[u8],
) -> Result<Subscription, AllocError>
    ensures { IfOk result (λ s. s ≡ subscription_of tree.now tag has_numbers (words text.now)) }
{
    let objects = objects_in(alloc, tree, text)?;
    let objects = if objects.is_empty() {
        None
    } else {
        Some(objects)
    };
    Ok(Subscription {
        tag,
        objects,
        has_numbers,
    })
}
