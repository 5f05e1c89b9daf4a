use smi_grant::{Command, Record};
use thiserror::Error;

/// What an operator may order, or a device report. Domains, objects, devices, actions and states
/// have their numbers of the tree.
#[derive(Clone, Copy, Debug, PartialEq, Eq)]
pub enum Order {
    /// Take the domain.
    Take(u16),
    /// Give the domain back.
    Drop(u16),
    /// Run an action at the domain.
    Do(u16, u16),
    /// Have the domain take in another one below it.
    Include(u16, u16),
    /// Have the domain give up another one below it.
    Exclude(u16, u16),
    /// Have the domain keep another one below it, but send it no commands.
    Manual(u16, u16),
    /// Have the domain keep another one below it, but take no notice of its state.
    Ignore(u16, u16),
    /// What is the domain's record?
    Ask(u16),
    /// Watch the object.
    Watch(u16),
    /// Watch the object no longer.
    Unwatch(u16),
    /// The device, by its number among the devices, is in this state.
    Report(u16, u16),
}

/// What an order asks for: an action, and each change of a mode, is a command.
#[derive(Clone, Copy, PartialEq, Eq)]
pub enum Request {
    /// To take the domain.
    Take(u16),
    /// To give the domain back.
    Drop(u16),
    /// To have the domain run the command.
    Command(u16, Command),
    /// To be told the domain's record.
    Ask(u16),
    /// To watch the object.
    Watch(u16),
    /// To watch the object no longer.
    Unwatch(u16),
    /// To know the device, by its number among the devices, in this state.
    Report(u16, u16),
}

impl Order {
    ghost use Rattle.std.specs.Prelude.{◌≡◌};
    ghost use Rattle.smi_protocol.specs.Request.{order_asking};

    /// Returns what the order asks for. No other order asks for that.
    pub fn request(self) -> Request
        ensures { self ≡ order_asking result }
    {
        match self {
            Order::Take(domain) => Request::Take(domain),
            Order::Drop(domain) => Request::Drop(domain),
            Order::Do(domain, action) => Request::Command(domain, Command::Do(action)),
            Order::Include(domain, target) => Request::Command(domain, Command::Include(target)),
            Order::Exclude(domain, target) => Request::Command(domain, Command::Exclude(target)),
            Order::Manual(domain, target) => Request::Command(domain, Command::Manual(target)),
            Order::Ignore(domain, target) => Request::Command(domain, Command::Ignore(target)),
            Order::Ask(domain) => Request::Ask(domain),
            Order::Watch(object) => Request::Watch(object),
            Order::Unwatch(object) => Request::Unwatch(object),
            Order::Report(device, state) => Request::Report(device, state),
        }
    }
}

/// Why an order or a report was not taken, if its link has nothing against it (docs/NUMBERS.md, "How an order ends").
#[derive(Clone, Copy, Debug, PartialEq, Eq, Error)]
pub enum OrderCode {
    #[error("25: sixteen domains are held or waited for")]
    LinksInUse,
    #[error("26: nothing of that name is here")]
    NotHere,
    #[error("31: the store did not save it")]
    NotStored,
    #[error("33: out of memory")]
    NoMemory,
}

impl OrderCode {
    ghost use Rattle.std.specs.Prelude.{◌≡◌};
    ghost use Rattle.smi_protocol.specs.OrderCode.{order_code};

    /// Returns the code's number.
    pub const fn code(self) -> u16
        ensures { result ≡ order_code self }
    {
        match self {
            OrderCode::LinksInUse => 25,
            OrderCode::NotHere => 26,
            OrderCode::NotStored => 31,
            OrderCode::NoMemory => 33,
        }
    }
}

/// An order and how it ended.
#[derive(Clone, Copy, PartialEq, Eq)]
pub struct Told {
    pub order: Order,
    /// An outcome 0 to 9 (docs/PROTOCOL.md, "Outcomes"), a refusal 21 to 26 ("Orders"), or a fault
    /// 31 to 33 ("A step").
    pub code: u16,
    /// The record, if the order was an `Ask` that was answered.
    pub asked: Option<Record>,
}

/// Which command of which grant.
#[derive(Clone, Copy, PartialEq, Eq)]
pub struct Mark {
    pub domain: u16,
    pub epoch: u64,
    pub number: u32,
}

/// What an operator is told.
#[derive(Clone, Copy, PartialEq, Eq)]
pub struct Answer {
    pub operator: u16,
    pub told: Told,
    /// The command that this answers, if it answers a command that was issued.
    pub mark: Option<Mark>,
}
