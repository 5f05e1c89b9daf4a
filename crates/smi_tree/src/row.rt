//! What the numbers of a hierarchy stand for.

use crate::actions::Actions;
use crate::declaration::{ClassKind, Quantifier};
use crate::rule::state_by;
use std::alloc::{AllocError, Global};
use std::marker::Model;

/// A rule of a unit class: if its members are in `state` as it asks, the unit is in `target`.
#[derive(Clone, Copy, PartialEq, Eq)]
pub struct Rule {
    pub quantifier: Quantifier,
    pub state: u16,
    pub target: u16,
}

/// A row of a device class: by this action a device goes from one state to another.
#[derive(Clone, Copy, PartialEq, Eq)]
pub struct Move {
    pub class: u16,
    pub from: u16,
    pub action: u16,
    pub to: u16,
}

/// A domain: the station that keeps it, its unit's class, and the domain above it.
#[derive(Clone, Copy, PartialEq, Eq)]
pub struct Domain {
    pub station: u16,
    pub class: u16,
    pub parent: Option<u16>,
}

/// A device: the domain that it lies in, and its class.
#[derive(Clone, Copy, PartialEq, Eq)]
pub struct Device {
    pub domain: u16,
    pub class: u16,
}

/// What a class says of its objects, all but the moves.
#[derive(Drop)]
pub(crate) struct Class {
    pub(crate) kind: ClassKind,
    pub(crate) first: u16,
    pub(crate) accepted: Actions,
    pub(crate) rules: Vec<Rule>,
}

impl Model for Class {
    ghost use Rattle.smi_tree.specs.ClassTable.{ClassTable};

    ghost Value = { ClassTable };

    ghost view = { λ c. record { kind = c.kind; first = c.first; accepted = c.accepted; rules = c.rules.items } };
}

impl Class {
    ghost use Rattle.std.specs.Prelude.{◌≡◌, ◌==◌, [], ◌∷◌, ◌++◌, length, OnOk};
    ghost use Rattle.std.specs.List.{list_any};
    ghost use Rattle.smi_tree.specs.ClassTable.{ClassTable, class_table, is_kind};
    ghost use Rattle.smi_tree.specs.Rules.{state_by};

    pub(crate) fn new(alloc: Global, kind: ClassKind, first: u16) -> Class
        ensures { result ≡ class_table kind first }
    {
        Class {
            kind,
            first,
            accepted: Actions::new(alloc),
            rules: Vec::new(alloc),
        }
    }

    pub(crate) fn is_kind(&self, kind: ClassKind) -> bool
        ensures { result ≡ is_kind self.now.kind kind }
    {
        self.kind == kind
    }

    pub(crate) fn accepts(&self, action: u16) -> bool
        ensures { result ≡ list_any (λ other. other == action) self.now.accepted }
    {
        self.accepted.contains(action)
    }

    pub(crate) fn rule_count(&self) -> usize
        ensures { result ≡ length self.now.rules }
    {
        self.rules.len()
    }

    pub(crate) fn first_state(&self) -> u16
        ensures { result ≡ self.now.first }
    {
        self.first
    }

    /// Returns the target of the first rule that holds over the members' states, else the old state.
    pub(crate) fn state_by(&self, old: u16, members: &[u16]) -> u16
        ensures { result ≡ state_by self.now.rules old members.now }
    {
        state_by(&self.rules, old, members)
    }

    pub(crate) fn accept(&mut self, action: u16) -> Result<(), AllocError>
        ensures { OnOk result (self.new ≡ record self.old { accepted = self.old.accepted ++ action ∷ [] }) }
    {
        self.accepted.push(action)?;
        Ok(())
    }

    pub(crate) fn add_rule(&mut self, rule: Rule) -> Result<(), AllocError>
        ensures { OnOk result (self.new ≡ record self.old { rules = self.old.rules ++ rule ∷ [] }) }
    {
        self.rules.push(rule)?;
        Ok(())
    }
}

ghost use Rattle.std.specs.Prelude.{◌≡◌, option_copied, IfSome};
ghost use Rattle.smi_tree.specs.Hierarchy.{entry, IsEntry};

/// Returns the row of a number, from 1.
pub(crate) fn entry<T>(rows: &[T], number: u16) -> Option<&T>
    ensures row { option_copied result ≡ entry rows.now number }
    ensures within { IfSome result (λ row. IsEntry rows.now number row.now) }
{
    let place = usize::from(number).checked_sub(1)?;
    rows.get(place)
}
