use crate::commanded::CommandedChildren;
use smi_command::Link;
use smi_grant::{Command, Record};

/// What a step changes of the grants. It is made before anything is saved.
#[derive(Drop)]
pub enum Change {
    Nothing,
    /// A domain gets another holder, or becomes free.
    HolderChanged {
        domain: u16,
        record: Record,
    },
    /// The link of an operator to a domain changes.
    Linked {
        operator: u16,
        domain: u16,
        link: Link,
    },
    /// A command runs at a domain and reaches its children.
    Ran {
        domain: u16,
        command: Command,
        record: Record,
        /// The code that the domain has gathered.
        code: u16,
        children: CommandedChildren,
    },
    /// A domain hears of a child.
    ChildReported {
        parent: u16,
        child: u16,
        /// The parent's link to the child.
        link: Link,
        /// The parent's record.
        record: Record,
        /// The code that the parent has gathered.
        code: u16,
    },
}
