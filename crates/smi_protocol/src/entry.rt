use crate::order::Told;
use smi_grant::{Command, Holder, Shown};
use smi_rows::Mode;

/// What an event leaves in a trace. Domains, stations and operators have their numbers of the tree.
#[derive(Clone, Copy, PartialEq, Eq)]
pub enum Entry {
    /// A station has started.
    Booted {
        station: u16,
        boot: u32,
    },
    /// A domain was granted.
    Granted {
        domain: u16,
        epoch: u64,
        holder: Holder,
    },
    /// A domain became free.
    Freed {
        domain: u16,
        epoch: u64,
    },
    /// An operator issued a command.
    Ordered {
        operator: u16,
        domain: u16,
        epoch: u64,
        number: u32,
        command: Command,
    },
    /// A command ran.
    Ran {
        domain: u16,
        epoch: u64,
        number: u32,
        command: Command,
    },
    /// A holder's link to a domain became held.
    Learned {
        holder: Holder,
        domain: u16,
        epoch: u64,
    },
    /// A holder's link to a domain became dropping.
    LetGo {
        holder: Holder,
        domain: u16,
        epoch: u64,
    },
    /// A held child is in another mode.
    InMode {
        domain: u16,
        mode: Mode,
    },
    /// A command has ended.
    Settled {
        domain: u16,
        epoch: u64,
        number: u32,
        outcome: u16,
    },
    /// A station took a told state for what an object shows.
    Showed {
        station: u16,
        shown: Shown,
    },
    /// An object changed its state.
    Passed(Shown),
    /// An operator was told how an order ended.
    Told {
        operator: u16,
        told: Told,
    },
}
