//! What is assumed at the first lines of the journals, if they begin when domains were held already.

use crate::account::{Account, DomainState};
use crate::fronts::Front;
use smi_audit::{GrantStage, GrantState, Merge};
use smi_grant::{Command, Holder};
use smi_rows::Mode;
use smi_tree::{Tree, holder_station, is_keeper};
use std::alloc::{AllocError, Global};
use std::vec;

/// An action that every tree has. It stands for a command that is not looked at again.
const ANY_COMMAND: Command = Command::Do(1);

/// Of each domain the epoch that it had at the beginning, by number; 0 for one that was not held before.
#[derive(Drop)]
pub(crate) struct Beginning {
    epochs: Vec<u64>,
    /// Whether a journal begins in the middle, so that states may have been shown before.
    pub(crate) is_in_the_middle: bool,
}

/// Returns what a station's journal begins with.
fn account_of(fronts: &[Front], station: u16) -> Option<&Account> {
    for front in fronts {
        if front.station.station == station {
            return Some(&front.station.beginning);
        }
    }
    None
}

/// Returns what the journal of a holder's station begins with.
fn account_of_holder<'f>(tree: &Tree, fronts: &'f [Front], holder: Holder) -> Option<&'f Account> {
    match holder_station(tree, holder) {
        Some(station) => account_of(fronts, station),
        None => None,
    }
}

/// Returns how far a holder had come with its grant of this epoch.
fn stage_of(holders: Option<&Account>, holder: Holder, domain: u16, epoch: u64) -> GrantStage {
    let Some(account) = holders else {
        return GrantStage::Given;
    };
    let link = account.link(holder, domain);
    if link.is_held && link.epoch == epoch {
        GrantStage::Held
    } else if link.epoch > epoch || (link.is_dropping && link.epoch == epoch) {
        GrantStage::Gone
    } else {
        GrantStage::Given
    }
}

/// Returns the command that a domain had at work, if it had one.
fn work_of(keepers: &Account, holders: Option<&Account>, domain: u16) -> Option<Command> {
    let state = keepers.domain(domain);
    if !state.is_busy {
        return None;
    }
    if let Some(command) = keepers.command_of_last_run(domain) {
        return Some(command);
    }
    let ordered = match holders {
        Some(account) => account.pending(state.holder, domain, state.last),
        None => None,
    };
    // One that no link has was handed on to nobody.
    Some(ordered.unwrap_or(ANY_COMMAND))
}

/// Has a merge begin with the orders of a domain's holder. Those that have run are not looked at again.
fn assume_orders(
    merge: &mut Merge<'_>,
    holders: &Account,
    holder: Holder,
    domain: u16,
    ran: u32,
) -> Result<(), AllocError> {
    let count = holders.link(holder, domain).number;
    for number in 1..=count {
        let command = match holders.pending(holder, domain, number) {
            Some(command) => command,
            None if number <= ran => ANY_COMMAND,
            None => return Ok(()),
        };
        let _ = merge.assume_order(domain, command)?;
    }
    Ok(())
}

/// Has a merge begin with how a domain stood, by the blocks of its keeper and of its holder's station.
fn assume_domain(
    merge: &mut Merge<'_>,
    tree: &Tree,
    fronts: &[Front],
    keepers: &Account,
    domain: u16,
) -> Result<(), AllocError> {
    let state = keepers.domain(domain);
    let holder = state.holder;
    let holders = account_of_holder(tree, fronts, holder);
    let mode = match holders {
        Some(account) => account.link(holder, domain).mode,
        None => Mode::Included,
    };
    let stage = stage_of(holders, holder, domain, state.epoch);
    let grant = GrantState {
        epoch: state.epoch,
        holder,
        stage,
        ran: state.last,
        work: work_of(keepers, holders, domain),
        mode,
    };
    let _ = merge.assume(domain, grant);
    match (holder, holders) {
        (Holder::Operator(_), Some(account)) if stage == GrantStage::Held => {
            assume_orders(merge, account, holder, domain, state.last)
        }
        (Holder::Domain(_), Some(account)) if stage == GrantStage::Held => {
            assume_owed(merge, account, &state, domain);
            Ok(())
        }
        _ => Ok(()),
    }
}

/// Has a merge begin with the run that a child owes: a command that the domain above has handed on to it, and that has
/// not ended.
fn assume_owed(merge: &mut Merge<'_>, holders: &Account, state: &DomainState, domain: u16) {
    if let Some(number) = holders.newest_number(state.holder, domain)
        && (number > state.last || (number == state.last && state.is_busy))
    {
        merge.assume_owed(domain, number);
    }
}

/// Has a merge begin with what a station's first block says of its boot and of states.
fn assume_states(merge: &mut Merge<'_>, front: &Front) -> Result<(), AllocError> {
    let station = front.station.station;
    if let Some(boot) = front.station.begins_within {
        let _ = merge.assume_boot(station, boot);
    }
    for shown in front.station.beginning.states() {
        let _ = merge.assume_passed(*shown)?;
    }
    for shown in front.station.beginning.seen() {
        let _ = merge.assume_shown(station, *shown);
    }
    Ok(())
}

impl Beginning {
    /// Makes the beginning of a night that begins from nothing.
    pub(crate) fn new(alloc: Global, tree: &Tree) -> Result<Beginning, AllocError> {
        Ok(Beginning {
            epochs: vec![in alloc; 0u64; usize::from(tree.domain_count())]?,
            is_in_the_middle: false,
        })
    }

    /// Returns the epoch that a domain had at the beginning, 0 if it was not held before.
    pub(crate) fn epoch(&self, domain: u16) -> u64 {
        let place = usize::from(domain.saturating_sub(1));
        match self.epochs.as_slice().get(place) {
            Some(epoch) => *epoch,
            None => 0,
        }
    }

    fn set(&mut self, domain: u16, epoch: u64) {
        let place = usize::from(domain.saturating_sub(1));
        if let Some(kept) = self.epochs.get_mut(place) {
            *kept = epoch;
        }
    }

    /// Has a merge begin with what the first blocks say, before anything is taken.
    pub(crate) fn assume(
        &mut self,
        merge: &mut Merge<'_>,
        tree: &Tree,
        fronts: &[Front],
    ) -> Result<(), AllocError> {
        for front in fronts {
            let account = &front.station.beginning;
            for domain in 1..=tree.domain_count() {
                let epoch = account.domain(domain).epoch;
                if epoch > 0 && is_keeper(tree, front.station.station, domain) {
                    self.is_in_the_middle = true;
                    self.set(domain, epoch);
                    assume_domain(merge, tree, fronts, account, domain)?;
                }
            }
            if front.station.begins_within.is_some() {
                self.is_in_the_middle = true;
            }
            assume_states(merge, front)?;
        }
        Ok(())
    }
}
