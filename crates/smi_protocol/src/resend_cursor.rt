/// The place at which a tick goes on, in the order in which it goes through what it may have to send.
#[derive(Clone, Copy, PartialEq, Eq, PartialOrd, Ord)]
pub enum ResendCursor {
    /// What a domain of the station asks of this child.
    Child(u16),
    /// What an operator asks of a domain: a take or a drop at number 0, a command at its own.
    Link {
        operator: u16,
        domain: u16,
        number: u32,
    },
    /// The operator's open question.
    Ask(u16),
    /// The watch of this object.
    Watch(u16),
}
