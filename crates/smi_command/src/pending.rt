use smi_grant::Command;
use std::marker::Model;

/// How many commands of one grant may be pending at a time.
pub const MOST_PENDING: usize = 8;

/// The commands of one grant whose end their holder has not heard of, oldest first.
///
/// They lie in the value itself. Contracts see their list.
#[derive(Clone, Copy, Debug, PartialEq, Eq)]
pub struct Pending {
    commands: [Command; MOST_PENDING],
    count: usize,
}

impl Model for Pending {
    ghost use Rattle.std.specs.Prelude.{List, length, take, ◌++◌, ◌-◌};
    ghost use Rattle.smi_grant.specs.declared.command.Command.{Command};
    ghost use Rattle.smi_command.specs.Pending.{IsStored, most_pending, unused, stored_count, stored_places};

    ghost Value = { List Command };

    ghost view = { λ p. take p.count p.commands };

    ghost invariant = { λ p. IsStored p.commands p.count };

    ghost inverse = { λ xs. record { commands = xs ++ unused (most_pending - length xs); count = length xs } };

    ghost inverse_ok = { λ p s i. record {
      commands = stored_places p.commands p.count s i;
      count = stored_count p.commands p.count s i;
    } };
}

impl Pending {
    ghost use Rattle.std.specs.Prelude.{◌≡◌, ◌<◌, ◌≤◌, ◌↔◌, ◌++◌, ◌∷◌, [], IsTrue, IfSome, drop, length, slice_get};
    ghost use Rattle.smi_command.specs.Pending.{most_pending, base_of};

    /// Returns a list without pending commands.
    pub fn new() -> Pending
        ensures { result ≡ [] }
    {
        Pending {
            commands: [Command::Do(0); MOST_PENDING],
            count: 0,
        }
    }

    /// Returns how many commands are pending.
    pub fn len(&self) -> usize
        ensures value { result ≡ length self.now }
        ensures within { result ≤ most_pending }
    {
        self.count
    }

    /// Returns true if no command is pending.
    pub fn is_empty(&self) -> bool
        ensures { IsTrue result ↔ (self.now ≡ []) }
    {
        self.len() == 0
    }

    /// Returns true if no further command may be issued.
    pub fn is_full(&self) -> bool
        ensures full { IsTrue result ↔ (length self.now ≡ most_pending) }
        ensures within { length self.now ≤ most_pending }
    {
        self.len() == MOST_PENDING
    }

    /// Returns the command at place `i`, the oldest at 0.
    pub fn get(&self, i: usize) -> Option<Command>
        ensures value { result ≡ slice_get self.now i }
        ensures within { IfSome result (λ _. i < length self.now) }
        ensures few { length self.now ≤ most_pending }
    {
        if i < self.count {
            Some(self.commands[i])
        } else {
            None
        }
    }

    /// Returns the commands, oldest first.
    pub fn as_slice(&self) -> &[Command]
        ensures { result.now ≡ self.now }
    {
        &self.commands[..self.count]
    }

    /// Returns the number before the oldest command's, if the newest has the number `newest`.
    pub fn base(&self, newest: u32) -> u32
        ensures { result ≡ base_of newest self.now }
    {
        newest.saturating_sub(self.count as u32)
    }

    /// Adds a pending command, the newest.
    pub fn push(&mut self, command: Command)
        requires { length self.old < most_pending }
        ensures { self.new ≡ self.old ++ command ∷ [] }
    {
        self.commands[self.count] = command;
        self.count += 1;
    }

    /// Returns the pending commands without this many of the oldest.
    pub fn without_oldest(&self, gone: usize) -> Pending
        ensures { result ≡ drop gone self.now }
    {
        let mut left = Pending::new();
        for i in gone..self.count {
            left.push(self.commands[i]);
        }
        left
    }
}
