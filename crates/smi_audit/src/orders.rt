//! What an operator ordered under a grant.

ghost use Rattle.smi_audit.specs.Tables as spec;

use crate::grant_state::same_command;
use smi_grant::Command;
use std::alloc::{AllocError, Global};
use std::marker::Model;

/// The commands that an operator ordered under a grant, by number from 1.
#[derive(Drop)]
pub struct Orders {
    list: Vec<Command>,
}

impl Model for Orders {
    ghost use Rattle.std.specs.Prelude.{List};
    ghost use Rattle.smi_grant.specs.declared.Command.{Command};

    ghost Value = { List Command };

    ghost view = { λ o. o.list.items };
}

impl Orders {
    ghost use Rattle.std.specs.Prelude.{◌≡◌, List, [], ◌∷◌, ◌++◌, length, is_ok, if◌then◌else◌};

    /// Makes a list without commands.
    pub fn new(alloc: Global) -> Orders
        ensures { result ≡ [] }
    {
        Orders {
            list: Vec::new(alloc),
        }
    }

    /// Returns how many were ordered.
    pub fn count(&self) -> usize
        ensures { result ≡ length self.now }
    {
        self.list.len()
    }

    /// Returns true if the command of a number is this one.
    pub fn is_only(&self, number: u32, command: Command) -> bool
        ensures { result ≡ spec.is_only (spec.order_at self.now number) command }
    {
        if number == 0 {
            return false;
        }
        match self.list.get(number as usize - 1) {
            Some(found) => same_command(*found, command),
            None => false,
        }
    }

    /// Returns the command of a number.
    pub fn at(&self, number: u32) -> Option<Command> {
        if number == 0 {
            return None;
        }
        self.list.get(number as usize - 1).copied()
    }

    /// Adds the next command. If memory is refused, nothing changes.
    pub fn push(&mut self, command: Command) -> Result<(), AllocError>
        ensures { self.new ≡ (if is_ok result then self.old ++ command ∷ [] else self.old) }
    {
        self.list.push(command)?;
        Ok(())
    }

    /// Forgets all.
    pub fn clear(&mut self)
        ensures { self.new ≡ [] }
    {
        self.list.clear();
    }
}
