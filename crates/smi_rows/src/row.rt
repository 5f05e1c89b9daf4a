use crate::mode::Mode;
use smi_command::Link;
use smi_grant::Record;
use std::marker::Model;

/// A holder's link to a domain, as it is stored. A domain that has no stored link is out, and
/// nobody was ever heard of: `Out(0)`.
#[derive(Clone, Copy, PartialEq, Eq)]
pub struct StoredLink {
    /// 1 to 128.
    pub domain: u16,
    pub link: Link,
    /// Included, unless it is the link of a held child.
    pub mode: Mode,
}

/// What a domain's row says. Contracts see the links as a list.
#[derive(Drop)]
pub struct DomainRow {
    pub standing: Record,
    /// The greatest code so far of the command at work, 0 if none is.
    pub gathered: u16,
    /// The links to the children, by rising number.
    pub links: Vec<StoredLink>,
}

impl Model for DomainRow {
    ghost use Rattle.smi_rows.specs.Stored.{KeptDomain};

    ghost Value = { KeptDomain };

    ghost view = { λ d. record { standing = d.standing; gathered = d.gathered; links = d.links.items } };
}

/// What an operator's row says. Contracts see the list of its links.
#[derive(Drop)]
pub struct OperatorRow {
    /// The links to domains, by rising number.
    pub links: Vec<StoredLink>,
}

impl Model for OperatorRow {
    ghost use Rattle.std.specs.Prelude.{List};
    ghost use Rattle.smi_rows.specs.declared.row.StoredLink.{StoredLink};

    ghost Value = { List StoredLink };

    ghost view = { λ o. o.links.items };
}

/// What a row says.
#[derive(Drop)]
pub enum Row {
    /// How often the station has started, 1 to 4,000,000,000.
    Boot(u32),
    Domain(DomainRow),
    Operator(OperatorRow),
}
