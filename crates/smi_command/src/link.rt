use crate::Pending;
use smi_grant::Command;

/// What a holder knows of its grant of a domain (docs/PROTOCOL.md, "The link").
#[derive(Clone, Copy, PartialEq, Eq)]
pub enum Link {
    /// It does not have the domain. The epoch is the last that it heard of.
    Out(u64),
    /// It asks for the domain, which it believes to be free at this epoch.
    Taking(u64),
    /// It holds the domain at this epoch, and has issued the commands 1 to `number`.
    Held {
        epoch: u64,
        number: u32,
        /// The commands of which it has not heard that they settled. The newest has `number`.
        pending: Pending,
    },
    /// It gives up its grant of this epoch.
    Dropping(u64),
}

/// What a link has to send to the keeper until it hears of it.
#[derive(Clone, Copy, Debug, PartialEq, Eq)]
pub enum Due {
    /// The epoch at which the domain was seen to be free.
    Take(u64),
    /// The epoch of the grant.
    Drop(u64),
    /// A command under the grant of this epoch, with its number there.
    Run {
        epoch: u64,
        number: u32,
        command: Command,
    },
}

impl Link {
    ghost use Rattle.std.specs.Prelude.{◌≡◌};
    ghost use Rattle.smi_command.specs.Link.{known, is_held, is_out, is_unsettled};

    /// Returns the epoch that the link knows of.
    pub fn known(&self) -> u64
        ensures { result ≡ known self.now }
    {
        match *self {
            Link::Out(epoch)
            | Link::Taking(epoch)
            | Link::Held { epoch, .. }
            | Link::Dropping(epoch) => epoch,
        }
    }

    /// Returns true if the holder does not have the domain and does not ask for it.
    pub fn is_out(&self) -> bool
        ensures { result ≡ is_out self.now }
    {
        matches!(self, Link::Out(_))
    }

    /// Returns true if the holder has the domain.
    pub fn is_held(&self) -> bool
        ensures { result ≡ is_held self.now }
    {
        matches!(self, Link::Held { .. })
    }

    /// Returns true if something is under way: a take, a drop, or a command.
    pub fn is_unsettled(&self) -> bool
        ensures { result ≡ is_unsettled self.now }
    {
        match self {
            Link::Out(_) => false,
            Link::Taking(_) | Link::Dropping(_) => true,
            Link::Held { pending, .. } => !pending.is_empty(),
        }
    }
}
