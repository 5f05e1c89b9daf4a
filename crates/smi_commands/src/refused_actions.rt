//! Finds refused actions, a kind of doubt (docs/FORMATS.md, "Doubts"): a domain accepts the action and one of its
//! children does not, so each such order from above ends with code 1. `doubts.rt` calls `is_refused`.

ghost use Rattle.std.specs.Prelude.{◌≡◌};
ghost use Rattle.smi_commands.specs.Doubts as spec;

use crate::idle_actions::class_of;
use crate::rule_holes::class_above;
use smi_tree::Tree;

/// Returns true if a domain is the first of its class that lies in a domain of its parent's class. The doubt is told of
/// this domain alone.
fn is_first_below(tree: &Tree, domain: u16) -> bool
    ensures { result ≡ spec.is_first_below tree.now domain }
{
    let class = class_of(tree, domain);
    let above = class_above(tree, domain);
    !(0..domain).any(|other| class_of(tree, other) == class && class_above(tree, other) == above)
}

/// Returns true if a domain's parent accepts the action. Returns false for a root.
fn is_accepted_above(tree: &Tree, domain: u16, action: u16) -> bool
    ensures { result ≡ spec.is_accepted_above tree.now domain action }
{
    match tree.parent(domain) {
        Some(parent) => tree.accepts(parent, action),
        None => false,
    }
}

/// Returns true if a domain does not accept an action that its parent accepts, and is the first of its class in a
/// domain of its parent's class.
pub fn is_refused(tree: &Tree, domain: u16, action: u16) -> bool
    ensures { result ≡ spec.is_refused tree.now domain action }
{
    is_accepted_above(tree, domain, action)
        && !tree.accepts(domain, action)
        && is_first_below(tree, domain)
}
