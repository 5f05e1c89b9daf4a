ghost use Rattle.std.specs.Prelude.{◌≡◌};
ghost use Rattle.smi_command.specs.Order.{refusal_code, take_begun, command_issued, drop_begun};

use crate::{Link, Pending};
use smi_grant::{Command, LAST_NUMBER};
use thiserror::Error;

/// Why a link cannot do what its holder orders.
#[derive(Clone, Copy, Debug, PartialEq, Eq, Error)]
pub enum Refusal {
    /// The domain is not held.
    #[error("21: the domain is not held")]
    NotHeld,
    /// Too many commands are pending: any for a drop, eight for a further command.
    #[error("22: a command is still pending")]
    CommandPending,
    /// A take is for a domain that is neither held nor asked for.
    #[error("23: the domain is held or asked for")]
    NotOut,
    /// The last number of the grant is used.
    #[error("24: the last number of the grant is used")]
    NumbersSpent,
}

impl Refusal {
    /// Returns the refusal's number (docs/PROTOCOL.md, "Orders").
    pub const fn code(self) -> u16
        ensures { result ≡ refusal_code self }
    {
        match self {
            Refusal::NotHeld => 21,
            Refusal::CommandPending => 22,
            Refusal::NotOut => 23,
            Refusal::NumbersSpent => 24,
        }
    }
}

/// Begins to take the domain. Returns the link then, or the [refusal](Refusal)'s number: 23 unless it is out.
pub fn begin_take(link: &Link) -> Result<Link, u16>
    ensures { result ≡ take_begun link.now }
{
    match *link {
        Link::Out(known) => Ok(Link::Taking(known)),
        _ => Err(Refusal::NotOut.code()),
    }
}

/// Issues the command under the next number. Returns the link then, or the [refusal](Refusal)'s number, the first
/// that fits: 21 if the domain is not held, 22 if eight commands are pending, 24 if number 1,000,000 is
/// used.
pub fn issue(link: &Link, command: Command) -> Result<Link, u16>
    ensures { result ≡ command_issued link.now command }
{
    let Link::Held {
        epoch,
        number,
        mut pending,
    } = *link
    else {
        return Err(Refusal::NotHeld.code());
    };
    if pending.is_full() {
        return Err(Refusal::CommandPending.code());
    }
    if number >= LAST_NUMBER {
        return Err(Refusal::NumbersSpent.code());
    }
    pending.push(command);
    Ok(Link::Held {
        epoch,
        number: number + 1,
        pending,
    })
}

/// Begins to give the domain up. Returns the link then, or the [refusal](Refusal)'s number, the first that fits: 21
/// if the domain is not held, 22 if a command is pending.
pub fn begin_drop(link: &Link) -> Result<Link, u16>
    ensures { result ≡ drop_begun link.now }
{
    match link {
        Link::Held { epoch, pending, .. } if pending.is_empty() => Ok(Link::Dropping(*epoch)),
        Link::Held { .. } => Err(Refusal::CommandPending.code()),
        _ => Err(Refusal::NotHeld.code()),
    }
}
