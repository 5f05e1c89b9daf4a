//! What the lines of a station's journal say of its own domains and links.

use crate::block_words::{LinkStage, LinkStands, PendingCommand};
use smi_grant::{Command, Holder, Phase, Record, Shown};
use smi_protocol::Entry;
use smi_rows::Mode;
use smi_tree::Tree;
use std::alloc::{AllocError, Global};
use std::vec;

/// How a domain stands: the values of its record.
#[derive(Clone, Copy, PartialEq, Eq)]
pub(crate) struct DomainState {
    pub(crate) epoch: u64,
    pub(crate) holder: Holder,
    pub(crate) last: u32,
    pub(crate) is_busy: bool,
    pub(crate) outcome: u16,
}

/// How a holder's link to a domain stands. One that was never held has epoch 0, or the one that was seen.
#[derive(Clone, Copy)]
pub(crate) struct LinkState {
    pub(crate) holder: Holder,
    pub(crate) domain: u16,
    pub(crate) epoch: u64,
    pub(crate) is_held: bool,
    pub(crate) is_dropping: bool,
    /// How many commands were issued under the grant.
    pub(crate) number: u32,
    pub(crate) mode: Mode,
}

/// How domains and links are at a moment, by the entries of a journal or by a block.
#[derive(Drop)]
pub(crate) struct Account {
    /// By number of domain.
    domains: Vec<DomainState>,
    links: Vec<LinkState>,
    /// By a block alone: the commands that are pending, of each link the oldest first.
    pending: Vec<PendingCommand>,
    /// By a block alone: the newest states of the station's objects, and of others' that were shown here.
    states: Vec<Shown>,
    seen: Vec<Shown>,
}

impl DomainState {
    /// Returns the state of a domain that nobody has held yet, or of one that is free since an epoch.
    fn free(epoch: u64) -> DomainState {
        DomainState {
            epoch,
            holder: Holder::Free,
            last: 0,
            is_busy: false,
            outcome: 0,
        }
    }

    fn of(record: &Record) -> DomainState {
        DomainState {
            epoch: record.epoch,
            holder: record.holder,
            last: record.last,
            is_busy: match record.phase {
                Phase::Busy => true,
                Phase::Settled => false,
            },
            outcome: record.outcome,
        }
    }
}

impl LinkState {
    /// Returns a link that is not held.
    fn out(holder: Holder, domain: u16) -> LinkState {
        LinkState {
            holder,
            domain,
            epoch: 0,
            is_held: false,
            is_dropping: false,
            number: 0,
            mode: Mode::Included,
        }
    }

    fn of(stands: &LinkStands) -> LinkState {
        let out = LinkState {
            epoch: stands.epoch,
            ..LinkState::out(stands.holder, stands.domain)
        };
        match stands.stage {
            LinkStage::Out | LinkStage::Taking => out,
            LinkStage::Dropping => LinkState {
                is_dropping: true,
                ..out
            },
            LinkStage::Held { number, mode } => LinkState {
                is_held: true,
                number,
                mode,
                ..out
            },
        }
    }
}

impl Account {
    /// Makes the account of a tree's domains of which nothing was held yet.
    pub(crate) fn new(alloc: Global, tree: &Tree) -> Result<Account, AllocError> {
        let count = usize::from(tree.domain_count());
        Ok(Account {
            domains: vec![in alloc; DomainState::free(0); count]?,
            links: Vec::new(alloc),
            pending: Vec::new(alloc),
            states: Vec::new(alloc),
            seen: Vec::new(alloc),
        })
    }

    /// Forgets all: nothing was held yet.
    pub(crate) fn clear(&mut self) {
        for domain in self.domains.iter_mut() {
            *domain = DomainState::free(0);
        }
        self.links.clear();
        self.pending.clear();
        self.states.clear();
        self.seen.clear();
    }

    /// Returns true if no domain was held yet, and no link was used.
    pub(crate) fn is_fresh(&self) -> bool {
        for domain in self.domains.as_slice() {
            if domain.epoch != 0 {
                return false;
            }
        }
        self.links.is_empty() && self.states.is_empty() && self.seen.is_empty()
    }

    /// Takes over what another account says.
    pub(crate) fn copy_from(&mut self, other: &Account) -> Result<(), AllocError> {
        self.domains.clear();
        self.domains.extend_from_slice(other.domains.as_slice())?;
        self.links.clear();
        self.links.extend_from_slice(other.links.as_slice())?;
        self.pending.clear();
        self.pending.extend_from_slice(other.pending.as_slice())?;
        self.states.clear();
        self.states.extend_from_slice(other.states.as_slice())?;
        self.seen.clear();
        self.seen.extend_from_slice(other.seen.as_slice())
    }

    /// Returns how a domain stands.
    pub(crate) fn domain(&self, domain: u16) -> DomainState {
        let place = usize::from(domain.saturating_sub(1));
        match self.domains.as_slice().get(place) {
            Some(state) => *state,
            None => DomainState::free(0),
        }
    }

    fn set_domain(&mut self, domain: u16, state: DomainState) {
        let place = usize::from(domain.saturating_sub(1));
        if let Some(kept) = self.domains.get_mut(place) {
            *kept = state;
        }
    }

    /// Returns all links that were ever held or seen.
    pub(crate) fn links(&self) -> &[LinkState] {
        self.links.as_slice()
    }

    /// Returns how a holder's link to a domain stands.
    pub(crate) fn link(&self, holder: Holder, domain: u16) -> LinkState {
        for link in self.links.as_slice() {
            if link.holder == holder && link.domain == domain {
                return *link;
            }
        }
        LinkState::out(holder, domain)
    }

    fn set_link(&mut self, state: LinkState) -> Result<(), AllocError> {
        for link in self.links.iter_mut() {
            if link.holder == state.holder && link.domain == state.domain {
                *link = state;
                return Ok(());
            }
        }
        self.links.push(state)?;
        Ok(())
    }

    /// Returns the newest states of the station's own objects.
    pub(crate) fn states(&self) -> &[Shown] {
        self.states.as_slice()
    }

    /// Returns the newest states of others' objects that were shown at the station.
    pub(crate) fn seen(&self) -> &[Shown] {
        self.seen.as_slice()
    }

    /// Returns the pending command of a link that has a number.
    pub(crate) fn pending(&self, holder: Holder, domain: u16, number: u32) -> Option<Command> {
        for pending in self.pending.as_slice() {
            if pending.holder == holder && pending.domain == domain && pending.number == number {
                return Some(pending.command);
            }
        }
        None
    }

    /// Returns the number of the newest pending command of a link.
    pub(crate) fn newest_number(&self, holder: Holder, domain: u16) -> Option<u32> {
        let mut newest = None;
        for pending in self.pending.as_slice() {
            if pending.holder == holder && pending.domain == domain {
                newest = Some(pending.number);
            }
        }
        newest
    }

    /// Returns the newest pending command of any link of a holder.
    fn newest_of(&self, holder: Holder) -> Option<Command> {
        let mut newest = None;
        for pending in self.pending.as_slice() {
            if pending.holder == holder {
                newest = Some(pending.command);
            }
        }
        newest
    }

    /// Returns the command that a domain ran last, if a link of the station tells it: one to a child, on which it was
    /// handed on, or that of its own holder.
    pub(crate) fn command_of_last_run(&self, domain: u16) -> Option<Command> {
        let state = self.domain(domain);
        if state.is_busy
            && let Some(command) = self.newest_of(Holder::Domain(domain))
        {
            return Some(command);
        }
        self.pending(state.holder, domain, state.last)
    }

    fn note_run(&mut self, domain: u16, number: u32) {
        let was = self.domain(domain);
        self.set_domain(
            domain,
            DomainState {
                last: number,
                is_busy: true,
                outcome: 0,
                ..was
            },
        );
    }

    fn note_settled(&mut self, domain: u16, outcome: u16) {
        let was = self.domain(domain);
        self.set_domain(
            domain,
            DomainState {
                is_busy: false,
                outcome,
                ..was
            },
        );
    }

    fn note_mode(&mut self, domain: u16, mode: Mode) {
        for link in self.links.iter_mut() {
            if link.domain == domain && is_domain(link.holder) {
                link.mode = mode;
            }
        }
    }

    /// Takes into account what an entry of the station's own journal says.
    pub(crate) fn note(&mut self, entry: &Entry) -> Result<(), AllocError> {
        match *entry {
            Entry::Granted {
                domain,
                epoch,
                holder,
            } => self.set_domain(
                domain,
                DomainState {
                    holder,
                    ..DomainState::free(epoch)
                },
            ),
            Entry::Freed { domain, epoch } => self.set_domain(domain, DomainState::free(epoch)),
            Entry::Ran { domain, number, .. } => self.note_run(domain, number),
            Entry::Settled {
                domain,
                outcome,
                ..
            } => self.note_settled(domain, outcome),
            Entry::InMode { domain, mode } => self.note_mode(domain, mode),
            _ => return self.note_link(entry),
        }
        Ok(())
    }

    /// Takes into account what an entry says of a link.
    fn note_link(&mut self, entry: &Entry) -> Result<(), AllocError> {
        match *entry {
            Entry::Ordered {
                operator,
                domain,
                number,
                ..
            } => {
                let was = self.link(Holder::Operator(operator), domain);
                self.set_link(LinkState { number, ..was })
            }
            Entry::Learned {
                holder,
                domain,
                epoch,
            } => self.set_link(LinkState {
                epoch,
                is_held: true,
                ..LinkState::out(holder, domain)
            }),
            Entry::LetGo { holder, domain, .. } => {
                let was = self.link(holder, domain);
                self.set_link(LinkState {
                    is_held: false,
                    is_dropping: true,
                    ..was
                })
            }
            _ => Ok(()),
        }
    }

    /// Takes in how a domain stands, by a block.
    pub(crate) fn add_domain(&mut self, domain: u16, record: &Record) {
        self.set_domain(domain, DomainState::of(record));
    }

    /// Takes in how a link stands, by a block.
    pub(crate) fn add_link(&mut self, stands: &LinkStands) -> Result<(), AllocError> {
        self.set_link(LinkState::of(stands))
    }

    /// Takes in a pending command, by a block.
    pub(crate) fn add_pending(&mut self, pending: &PendingCommand) -> Result<(), AllocError> {
        self.pending.push(*pending)?;
        Ok(())
    }

    /// Takes in the newest state of an object of the station, by a block.
    pub(crate) fn add_state(&mut self, shown: Shown) -> Result<(), AllocError> {
        self.states.push(shown)?;
        Ok(())
    }

    /// Takes in the newest state of another's object that was shown here, by a block.
    pub(crate) fn add_seen(&mut self, shown: Shown) -> Result<(), AllocError> {
        self.seen.push(shown)?;
        Ok(())
    }
}

/// Returns true if a holder is a domain.
pub(crate) fn is_domain(holder: Holder) -> bool {
    match holder {
        Holder::Domain(_) => true,
        Holder::Free | Holder::Operator(_) => false,
    }
}
