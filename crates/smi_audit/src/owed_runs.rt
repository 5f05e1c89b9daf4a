//! What has to wait, so that no entry is taken too early.
//!
//! Nothing here has a say in whether a trace is safe: an entry that waits for ever is one that is not taken.

ghost use Rattle.std.specs.Prelude.{◌≡◌, true};
ghost use Rattle.smi_audit.specs.Merged.{may_wait};

use crate::audit::Audit;
use crate::grant_state::{forwards, is_commanded};
use smi_grant::{Command, Holder};
use smi_protocol::Entry;
use smi_station_grants::entry_of;
use smi_tree::Tree;
use std::alloc::{AllocError, Global};

/// The runs that children owe: for each domain the number of the run that the command of the domain above is handed
/// on as, until that has ended; 0 for none.
#[derive(Drop)]
pub struct OwedRuns<'a> {
    tree: &'a Tree,
    owed: Vec<u32>,
}

impl<'a> OwedRuns<'a> {
    /// Makes a table in which nothing is owed.
    pub fn new(alloc: Global, tree: &'a Tree) -> Result<OwedRuns<'a>, AllocError> {
        let owed = vec![in alloc; 0u32; usize::from(tree.domain_count())]?;
        Ok(OwedRuns { tree, owed })
    }

    /// Returns the number of the run that a domain owes, 0 if none.
    pub fn owed(&self, domain: u16) -> u32 {
        entry_of(&self.owed, domain, 0)
    }

    /// Sets the number of the run that a domain owes.
    pub fn set(&mut self, domain: u16, number: u32) {
        if domain == 0 {
            return;
        }
        if let Some(owed) = self.owed.get_mut(usize::from(domain) - 1) {
            *owed = number;
        }
    }

    /// Returns the first child of a domain that owes a run.
    pub fn first_owing(&self, domain: u16) -> Option<u16> {
        if domain == 0 || domain > self.tree.domain_count() {
            return None;
        }
        for child in self.tree.children(domain) {
            if self.owed(*child) != 0 {
                return Some(*child);
            }
        }
        None
    }

    /// Returns true if an entry has to wait for others.
    pub fn waits(&self, audit: &Audit<'_>, entry: &Entry) -> bool
        ensures { result ≡ true → may_wait entry.now ≡ true }
    {
        match *entry {
            Entry::Ran { domain, number, .. } => match audit.state(domain).holder {
                Holder::Domain(_) => self.owed(domain) != number,
                Holder::Operator(_) | Holder::Free => false,
            },
            Entry::Settled { domain, .. } => self.first_owing(domain).is_some(),
            Entry::LetGo {
                holder: Holder::Operator(_),
                domain,
                ..
            } => audit.state(domain).work.is_some()
                || (audit.state(domain).ran as usize) < audit.order_count(domain),
            Entry::LetGo { domain, .. } => audit.state(domain).work.is_some(),
            _ => false,
        }
    }

    /// Notes that a command ran at a domain: each child to which it is handed on owes its next run.
    fn owe(&mut self, audit: &Audit<'_>, domain: u16, command: Command) {
        if domain == 0 || domain > self.tree.domain_count() {
            return;
        }
        let tree = self.tree;
        for child in tree.children(domain) {
            let state = audit.state(*child);
            if state.holder == Holder::Domain(domain)
                && state.stage.is_held()
                && is_commanded(state.mode)
                && forwards(tree, domain, command, *child)
                && state.ran < 1_000_000
            {
                self.set(*child, state.ran + 1);
            }
        }
    }

    /// Notes an entry that was taken.
    pub fn note(&mut self, audit: &Audit<'_>, entry: &Entry) {
        match *entry {
            Entry::Ran {
                domain,
                command,
                ..
            } => self.owe(audit, domain, command),
            Entry::Settled { domain, number, .. } => {
                if self.owed(domain) == number {
                    self.set(domain, 0);
                }
            }
            Entry::Granted { domain, .. } | Entry::Freed { domain, .. } => self.set(domain, 0),
            _ => {}
        }
    }
}
