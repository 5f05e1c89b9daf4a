use smi_grant::{Command, Holder, Record, Version};
use std::marker::Model;

/// What a datagram says. The first five are about a domain, the last three about an object.
#[derive(Clone, Copy, Debug, PartialEq, Eq)]
pub enum Body {
    /// Asks for the record of the domain.
    Ask(u16),
    /// The holder takes the domain, which it last saw free at this epoch.
    Take {
        domain: u16,
        holder: Holder,
        seen: u64,
    },
    /// The holder lets go of its grant of this epoch.
    Drop {
        domain: u16,
        holder: Holder,
        epoch: u64,
    },
    /// The holder's command of this number, under its grant of this epoch.
    Run {
        domain: u16,
        holder: Holder,
        epoch: u64,
        number: u32,
        command: Command,
    },
    /// Tells the record of the domain.
    Tell {
        domain: u16,
        told: Record,
    },
    /// The sender watches the object, since its boot of this number.
    Watch {
        object: u16,
        boot: u32,
    },
    /// Tells the watcher since that boot which state the object is in.
    State {
        object: u16,
        boot: u32,
        version: Version,
        state: u16,
    },
    /// The sender, in its boot of this number, does not watch the object.
    Unwatch {
        object: u16,
        boot: u32,
    },
}

/// A datagram from one station to another.
///
/// Every value is in range: stations are 1 to 128, tree numbers 1 to 65,535, domains 1 to 128,
/// objects 1 to 640, boots 1 to 4,000,000,000; a holder that takes, drops or commands is an operator
/// or a domain. (docs/FORMATS.md, "Datagrams".)
#[derive(Clone, Copy, Debug, PartialEq, Eq)]
pub struct Datagram {
    pub from: u16,
    pub to: u16,
    pub tree: u16,
    pub body: Body,
}

impl Model for Datagram {
    ghost use Rattle.smi_message.specs.Message.{Message, IsMessage};

    ghost Value = { Message };

    ghost view = { λ d. record { from = d.from; to = d.to; tree = d.tree; body = d.body } };

    ghost invariant = { λ d. IsMessage (record { from = d.from; to = d.to; tree = d.tree; body = d.body }) };

    ghost inverse = { λ m. record { from = m.from; to = m.to; tree = m.tree; body = m.body } };
}

impl Datagram {
    ghost use Rattle.std.specs.Prelude.{◌≡◌, ◌≤◌, true};
    ghost use Rattle.smi_base.specs.declared.trees.TheConstants.{MOST_DOMAINS, MOST_STATIONS};
    ghost use Rattle.smi_grant.specs.Holder.{is_in_range};
    ghost use Rattle.smi_grant.specs.Record.{is_outcome};
    ghost use Rattle.smi_message.specs.Message.{tell};

    /// Returns the datagram that tells a domain's record, whose holder and outcome are in range.
    pub fn tell(from: u16, to: u16, tree: u16, domain: u16, told: Record) -> Datagram
        requires from { (1 ≤ from) × (from ≤ MOST_STATIONS) }
        requires to { (1 ≤ to) × (to ≤ MOST_STATIONS) }
        requires tree { (1 ≤ tree) × (tree ≤ 65535) }
        requires domain { (1 ≤ domain) × (domain ≤ MOST_DOMAINS) }
        requires holder { is_in_range told.holder ≡ true }
        requires outcome { is_outcome told.outcome ≡ true }
        ensures { result ≡ tell from to tree domain told }
    {
        prove!(told.holder.is_in_range());
        Datagram {
            from,
            to,
            tree,
            body: Body::Tell { domain, told },
        }
    }
}
