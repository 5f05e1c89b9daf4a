//! When a unit changes its state.

ghost use Rattle.std.specs.Prelude.{◌≡◌, ◌==◌};
ghost use Rattle.std.specs.List.{list_any, list_all};
ghost use Rattle.smi_tree.specs.Rules.{holds, state_by};

use crate::declaration::Quantifier;
use crate::row::Rule;

/// Returns true if a rule holds over the states of a domain's members. State 0 stands for one that is not known.
fn holds(rule: &Rule, members: &[u16]) -> bool
    ensures { result ≡ holds rule.now members.now }
{
    let state = rule.state;
    match rule.quantifier {
        Quantifier::Any => some_is(members, state),
        Quantifier::All => !members.is_empty() && every_is(members, state),
    }
}

fn some_is(members: &[u16], state: u16) -> bool
    ensures { result ≡ list_any (λ member. member == state) members.now }
{
    members.iter().any(|member| *member == state)
}

fn every_is(members: &[u16], state: u16) -> bool
    ensures { result ≡ list_all (λ member. member == state) members.now }
{
    members.iter().all(|member| *member == state)
}

/// Returns the target of the first rule that holds, else the old state.
pub(crate) fn state_by(rules: &[Rule], old: u16, members: &[u16]) -> u16
    ensures { result ≡ state_by rules.now old members.now }
{
    for rule in rules {
        if holds(rule, members) {
            return rule.target;
        }
    }
    old
}
