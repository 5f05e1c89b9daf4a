//! Takes the entries of a trace one by one, each only if the trace stays safe with it.

use crate::domain_table::DomainTable;
use crate::grant_state::GrantState;
use crate::last_shown::LastShown;
use crate::state_table::StateTable;
use smi_grant::{Command, Shown, Version};
use smi_protocol::Entry;
use smi_tree::Tree;
use std::alloc::{AllocError, Global};
use std::marker::Model;

/// What a trace that was taken says of the domains, objects and stations of a tree.
#[derive(Drop)]
pub struct Audit<'a> {
    domains: DomainTable<'a>,
    states: StateTable<'a>,
}

impl<'a> Model for Audit<'a> {
    ghost use Rattle.smi_audit.specs.Audited.{AuditState};

    ghost Value = { AuditState };

    ghost view = { λ a. record { domains = a.domains; states = a.states } };

    ghost use Rattle.std.specs.Prelude.{◌≡◌};

    ghost invariant = { λ a. a.states.tree ≡ a.domains.tree };
}

impl<'a> Audit<'a> {
    ghost use Rattle.std.specs.Prelude.{◌≡◌, [], IfOk, OnErr};
    ghost use Rattle.smi_audit.specs.Audited.{Accepts, Assumes, GoesOn, IsAudited, fits, tables_of};
    ghost use Rattle.std.specs.Prelude.{◌&&◌};
    ghost use Rattle.smi_tree.specs.Roles.{has_domain, has_object};
    ghost use Rattle.smi_protocol.specs.Grants.{put};
    ghost use Rattle.smi_protocol.specs.declared.Entry.TheVariants.{Passed};
    ghost use Rattle.smi_audit.specs.Teller.{has_station};
    ghost use Rattle.smi_audit.specs.Kept.{account_of};
    ghost use Rattle.smi_audit.specs.Tables.{with_domain, ordered, showed_now, passes_next, kept};

    /// Makes an audit that has taken nothing.
    pub fn new(alloc: Global, tree: &'a Tree) -> Result<Audit<'a>, AllocError>
        ensures tree { IfOk result (λ audit. audit.domains.tree ≡ tree.now) }
        ensures safe { IfOk result (λ audit. IsAudited audit []) }
    {
        let domains = DomainTable::new(alloc, tree)?;
        let states = StateTable::new(alloc, tree)?;
        Ok(Audit { domains, states })
    }

    /// Takes an entry as the next of the trace, if it fits all that was taken.
    fn take(&mut self, entry: &Entry) -> Result<bool, AllocError>
        ensures taken { IfOk result (λ taken. Accepts taken self.old self.new entry.now) }
        ensures unchanged { OnErr result (self.new ≡ self.old) }
    {
        match *entry {
            Entry::Booted { station, boot } => Ok(self.states.booted(station, boot)),
            Entry::Granted {
                domain,
                epoch,
                holder,
            } => Ok(self.domains.granted(domain, epoch, holder)),
            Entry::Freed { domain, epoch } => Ok(self.domains.freed(domain, epoch)),
            Entry::Ordered {
                operator,
                domain,
                epoch,
                number,
                command,
            } => self
                .domains
                .ordered(operator, domain, epoch, number, command),
            Entry::Ran {
                domain,
                epoch,
                number,
                command,
            } => Ok(self.domains.ran(domain, epoch, number, command)),
            Entry::Learned {
                holder,
                domain,
                epoch,
            } => Ok(self.domains.learned(holder, domain, epoch)),
            Entry::LetGo {
                holder,
                domain,
                epoch,
            } => Ok(self.domains.let_go(holder, domain, epoch)),
            Entry::InMode { domain, mode } => Ok(self.domains.in_mode(domain, mode)),
            Entry::Settled {
                domain,
                epoch,
                number,
                ..
            } => Ok(self.domains.settled(domain, epoch, number)),
            Entry::Showed { station, shown } => Ok(self.states.showed(station, shown)),
            Entry::Passed(shown) => self.states.passed(shown),
            Entry::Told { .. } => Ok(true),
        }
    }

    /// Takes an entry as the next of the trace, if it fits all that was taken. What was a safe trace is one with
    /// it. If it does not fit, or memory is refused, nothing changes.
    pub fn accept(&mut self, entry: &Entry) -> Result<bool, AllocError>
        ensures taken { IfOk result (λ taken. Accepts taken self.old self.new entry.now) }
        ensures safe { IfOk result (λ taken. GoesOn taken self.old self.new entry.now) }
        ensures unchanged { OnErr result (self.new ≡ self.old) }
    {
        self.take(entry)
    }

    /// Returns true if an entry fits what was taken, and the tree has what it is about: `accept` would take it now.
    pub fn fits(&self, entry: &Entry) -> bool
        ensures { result ≡ fits self.now entry.now }
    {
        match *entry {
            Entry::Booted { station, boot } => self.states.fits_boot(station, boot),
            Entry::Granted {
                domain,
                epoch,
                holder,
            } => self.domains.fits_grant(domain, epoch, holder),
            Entry::Freed { domain, epoch } => self.domains.fits_end(domain, epoch),
            Entry::Ordered {
                operator,
                domain,
                epoch,
                number,
                ..
            } => { self.domains.fits_order(operator, domain, epoch, number) }
            Entry::Ran {
                domain,
                epoch,
                number,
                command,
            } => self.domains.fits_run(domain, epoch, number, command),
            Entry::Learned {
                holder,
                domain,
                epoch,
            } => self.domains.fits_learned(holder, domain, epoch),
            Entry::LetGo {
                holder,
                domain,
                epoch,
            } => self.domains.fits_let_go(holder, domain, epoch),
            Entry::InMode { domain, .. } => self.domains.has(domain),
            Entry::Settled {
                domain,
                epoch,
                number,
                ..
            } => self.domains.fits_settled(domain, epoch, number),
            Entry::Showed { station, shown } => self.states.fits_shown(station, &shown),
            Entry::Passed(shown) => self.states.fits_passed(&shown),
            Entry::Told { .. } => true,
        }
    }

    /// Sets what stands of a domain at the beginning, with nothing ordered under its grant. Returns false if the tree
    /// lacks the domain.
    pub fn assume(&mut self, domain: u16, state: GrantState) -> bool
        ensures { Assumes result (has_domain self.old.domains.tree domain) self.old self.new
            (with_domain (tables_of self.old) domain (account_of state [])) }
    {
        self.domains.assume(domain, state)
    }

    /// Adds a command that was ordered under a grant of the beginning. Returns false if the tree lacks the
    /// domain. If memory is refused, nothing changes.
    pub fn assume_order(&mut self, domain: u16, command: Command) -> Result<bool, AllocError>
        ensures taken { IfOk result (λ taken. Assumes taken (has_domain self.old.domains.tree domain) self.old self.new
            (with_domain (tables_of self.old) domain (ordered ((tables_of self.old).domains domain) command))) }
        ensures unchanged { OnErr result (self.new ≡ self.old) }
    {
        self.domains.assume_order(domain, command)
    }

    /// Sets the last boot of a station at the beginning. Returns false if the tree lacks the station.
    pub fn assume_boot(&mut self, station: u16, boot: u32) -> bool
        ensures { Assumes result (has_station self.old.domains.tree station) self.old self.new
            (record (tables_of self.old) { boots = put (tables_of self.old).boots station boot }) }
    {
        self.states.assume_boot(station, boot)
    }

    /// Sets the newest version that a station was shown of an object at the beginning, since its last start. Returns
    /// false if the tree lacks the station or the object.
    pub fn assume_shown(&mut self, station: u16, shown: Shown) -> bool
        ensures { Assumes result (has_station self.old.domains.tree station
            && has_object self.old.domains.tree shown.object) self.old self.new
            (record (tables_of self.old) { shown = showed_now (tables_of self.old).shown station shown }) }
    {
        self.states.assume_shown(station, shown)
    }

    /// Adds a state that an object has passed at the beginning. Returns false if the tree lacks the object or the
    /// state is not newer than those it has passed. If memory is refused, nothing changes.
    pub fn assume_passed(&mut self, shown: Shown) -> Result<bool, AllocError>
        ensures taken { IfOk result (λ taken. Assumes taken (has_object self.old.domains.tree shown.object
            && passes_next ((tables_of self.old).passed shown.object) shown.version) self.old self.new
            (kept (tables_of self.old) (Passed shown))) }
        ensures unchanged { OnErr result (self.new ≡ self.old) }
    {
        self.states.passed(shown)
    }

    /// Returns what is known of a domain's last grant, but for what was ordered under it.
    pub fn state(&self, domain: u16) -> GrantState {
        self.domains.state(domain)
    }

    /// Returns how many commands were ordered under the last grant of a domain.
    pub fn order_count(&self, domain: u16) -> usize {
        self.domains.count_at(domain)
    }

    /// Returns the command of a number that was ordered under the last grant of a domain.
    pub fn order_at(&self, domain: u16, number: u32) -> Option<Command> {
        self.domains.order_at(domain, number)
    }

    /// Returns the last boot of a station, 0 if it has not started.
    pub fn boot(&self, station: u16) -> u32 {
        self.states.boot(station)
    }

    /// Returns what a station was shown last of an object.
    pub fn last_shown(&self, station: u16, object: u16) -> LastShown {
        self.states.last_shown(station, object)
    }

    /// Returns the newest version that an object has passed.
    pub fn newest(&self, object: u16) -> Option<Version> {
        self.states.newest(object)
    }
}
