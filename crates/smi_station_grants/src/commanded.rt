//! What a command that runs at a domain does to the domain's children, worked out once for each.

ghost use Rattle.std.specs.Prelude.{◌≡◌};
ghost use Rattle.smi_protocol.specs.Children as spec;
ghost use Rattle.smi_station_grants.specs.Children.{meant};

use smi_command::Link;
use smi_grant::Outcome;
use smi_rows::Mode;
use std::marker::Model;

/// What happens to a child.
#[derive(Clone, Copy)]
pub enum ChildChange {
    /// Nothing, and the outcome says why, if it is not `Done`.
    Stays(Outcome),
    Relinked(Link),
    ComesInto(Mode),
}

/// Returns the link to a child after this change.
pub fn link_after(change: &ChildChange, link: &Link) -> Link
    ensures { result ≡ spec.link_after (meant change.now) link.now }
{
    match change {
        ChildChange::Relinked(new) => *new,
        _ => *link,
    }
}

/// Returns the mode in which a child is held after this change.
pub fn mode_after(change: &ChildChange, mode: Mode) -> Mode
    ensures { result ≡ spec.mode_after (meant change.now) mode }
{
    match change {
        ChildChange::Stays(_) => mode,
        ChildChange::Relinked(new) => { if new.is_held() { mode } else { Mode::Included } }
        ChildChange::ComesInto(new) => *new,
    }
}

/// What a command does to a child, by the child's number.
#[derive(Clone, Copy)]
pub struct CommandedChild {
    pub child: u16,
    pub change: ChildChange,
}

/// What a command does to children of its domain. Contracts see the list.
#[derive(Drop)]
pub struct CommandedChildren {
    children: Vec<CommandedChild>,
}

impl Model for CommandedChildren {
    ghost use Rattle.std.specs.Prelude.{List};
    ghost use Rattle.smi_station_grants.specs.declared.commanded.CommandedChild.{CommandedChild};

    ghost Value = { List CommandedChild };

    ghost view = { λ c. c.children.items };
}

impl CommandedChildren {
    ghost use Rattle.std.specs.Prelude.{◌≡◌};
    ghost use Rattle.smi_station_grants.specs.Commanded.{change_for};

    /// Returns what the command does to these children.
    pub fn of_list(children: Vec<CommandedChild>) -> CommandedChildren
        ensures { result ≡ children.items }
    {
        CommandedChildren { children }
    }

    /// Returns the children, each with what the command does to it.
    pub fn as_slice(&self) -> &[CommandedChild]
        ensures { result.now ≡ self.now }
    {
        self.children.as_slice()
    }

    /// Returns what the command does to a child; none if it is no child of the domain.
    pub fn of(&self, child: u16) -> Option<ChildChange>
        ensures { result ≡ change_for self.now child }
    {
        for one in self.as_slice() {
            if one.child == child {
                return Some(one.change);
            }
        }
        None
    }
}
