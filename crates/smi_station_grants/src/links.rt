use crate::entries::entry_of;
use smi_command::Link;
use std::alloc::{AllocError, Global};
use std::marker::Model;

/// The links of one holder, by domain. It knows how many of them are not out.
#[derive(Drop)]
pub struct Links {
    links: Vec<Link>,
    in_use: usize,
}

impl Model for Links {
    ghost use Rattle.std.specs.Prelude.{◌≡◌, List};
    ghost use Rattle.smi_command.specs.declared.Link.{Link};
    ghost use Rattle.smi_station_grants.specs.GrantTable.{count_in_use};

    ghost Value = { List Link };

    ghost view = { λ l. l.links.items };

    ghost invariant = { λ l. l.in_use ≡ count_in_use l.links.items };
}

/// Returns 1 if a holder holds by the link, or asks for the domain, else 0.
fn use_of(link: &Link) -> usize
    ensures { result ≡ use_of link.now }
{
    match link {
        Link::Out(_) => 0,
        _ => 1,
    }
}

ghost use Rattle.std.specs.Prelude.{◌≡◌};
ghost use Rattle.smi_station_grants.specs.GrantTable.{use_of};

impl Links {
    ghost use Rattle.std.specs.Prelude.{◌≡◌, ◌≤◌, ◌-◌, length, slice_set, replicate, IfOk};
    ghost use Rattle.smi_command.specs.declared.Link.TheVariants.{Out};
    ghost use Rattle.smi_station_grants.specs.Entries.{entry_or};
    ghost use Rattle.smi_station_grants.specs.GrantTable.{count_in_use};

    /// Returns links to this many domains, of none of which anything was heard.
    pub fn new(alloc: Global, domains: usize) -> Result<Links, AllocError>
        ensures { IfOk result (λ links. links ≡ replicate domains (Out 0)) }
    {
        let links = vec![in alloc; Link::Out(0); domains]?;
        Ok(Links { links, in_use: 0 })
    }

    /// Returns the link to a domain, `Out(0)` if there is none.
    pub fn link(&self, domain: u16) -> Link
        ensures { result ≡ entry_or self.now domain (Out 0) }
    {
        entry_of(&self.links, domain, Link::Out(0))
    }

    /// Returns how many links are not out.
    pub fn in_use(&self) -> usize
        ensures { result ≡ count_in_use self.now }
    {
        self.in_use
    }

    /// Puts another link to a domain.
    pub fn put(&mut self, domain: u16, link: Link)
        requires least { 1 ≤ domain }
        requires most { domain ≤ length self.old }
        ensures { self.new ≡ slice_set self.old (domain - 1) link }
    {
        let at = usize::from(domain) - 1;
        let others = self.in_use - use_of(&self.links[at]);
        self.in_use = others + use_of(&link);
        self.links[at] = link;
    }
}
