use smi_base::{MOST_ACTIONS, MOST_DOMAINS};

/// The greatest number of a command under one grant.
pub const LAST_NUMBER: u32 = 1_000_000;

/// A command to a domain: an action to do, or what to make of the domain `target` below it.
#[derive(Clone, Copy, Debug, PartialEq, Eq)]
pub enum Command {
    /// Do the action of this number, here and in the children.
    Do(u16),
    /// Take the target in.
    Include(u16),
    /// Give the target up.
    Exclude(u16),
    /// Keep the target, take its state into account, and send it no commands.
    Manual(u16),
    /// Keep the target, send it commands, and take no notice of its state.
    Ignore(u16),
}

impl Command {
    ghost use Rattle.std.specs.Prelude.{◌≡◌};
    ghost use Rattle.smi_grant.specs.Command.{is_in_range, verb_of, argument_of, command_of};

    /// Returns true if the argument is one that a tree can have: actions 1 to 64, domains 1 to 128.
    pub fn is_in_range(self) -> bool
        ensures { result ≡ is_in_range self }
    {
        let most = match self {
            Command::Do(_) => MOST_ACTIONS,
            _ => MOST_DOMAINS,
        };
        1 <= self.argument() && self.argument() <= most
    }

    /// Returns the number of the verb in datagrams and rows, 1 to 5 in the order of the variants.
    pub fn verb(self) -> u16
        ensures { result ≡ verb_of self }
    {
        match self {
            Command::Do(_) => 1,
            Command::Include(_) => 2,
            Command::Exclude(_) => 3,
            Command::Manual(_) => 4,
            Command::Ignore(_) => 5,
        }
    }

    /// Returns the number of the action or of the target.
    pub fn argument(self) -> u16
        ensures { result ≡ argument_of self }
    {
        match self {
            Command::Do(argument)
            | Command::Include(argument)
            | Command::Exclude(argument)
            | Command::Manual(argument)
            | Command::Ignore(argument) => argument,
        }
    }

    /// Returns the command of this verb, if there is such a verb.
    pub fn from_verb(verb: u16, argument: u16) -> Option<Command>
        ensures { result ≡ command_of verb argument }
    {
        match verb {
            1 => Some(Command::Do(argument)),
            2 => Some(Command::Include(argument)),
            3 => Some(Command::Exclude(argument)),
            4 => Some(Command::Manual(argument)),
            5 => Some(Command::Ignore(argument)),
            _ => None,
        }
    }
}
