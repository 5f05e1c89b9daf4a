//! What a journal lacks by what its station loaded at a start: the entries of the step that was saved last and not
//! written, and of one before it that was kept until that would be written.

use crate::account::{Account, DomainState, LinkState};
use smi_grant::{Command, Holder};
use smi_protocol::Entry;
use smi_rows::Mode;
use smi_tree::Tree;
use std::alloc::AllocError;

/// An entry that only a start tells.
#[derive(Clone, Copy)]
pub(crate) struct Lost {
    pub(crate) entry: Entry,
    /// Whether its command is known: no row of a station says which command one of its domains ran.
    pub(crate) is_command_known: bool,
}

/// The action that stands for a command that is not known: every tree has it.
const ANY_COMMAND: Command = Command::Do(1);

/// The places of entries in a step, in their order.
#[derive(Clone, Copy, PartialEq, Eq)]
enum Rank {
    Grant,
    Order,
    Run,
    Link,
    Mode,
    End,
    Freed,
}

const RANKS: [Rank; 7] = [
    Rank::Grant,
    Rank::Order,
    Rank::Run,
    Rank::Link,
    Rank::Mode,
    Rank::End,
    Rank::Freed,
];

/// How many orders of one link may be missing: of the step that was kept, and of the last one.
const MOST_ORDERS: u32 = 2;

/// A row that differs.
#[derive(Clone, Copy)]
struct RowLoss {
    /// Whose row it is: a domain's, or an operator's.
    row: Holder,
    /// How many entries are missing by it.
    count: u32,
    /// Whether the last of them is one that a journal keeps until the next step is written.
    may_wait: bool,
}

/// What was found to be missing.
#[derive(Drop)]
struct Found {
    entries: Vec<(Rank, Lost)>,
    /// The rows that differ, and the place of the one that was touched last.
    rows: Vec<RowLoss>,
    touched: usize,
    /// Whether each row differs as by one step.
    is_one_step: bool,
}

/// Returns true if a journal may keep an entry until the next step is written.
fn may_wait(entry: &Entry) -> bool {
    matches!(
        entry,
        Entry::Granted { .. } | Entry::Ordered { .. } | Entry::LetGo { .. }
    )
}

/// Returns true if what is missing by a row may be of a step that was kept.
fn is_kept(loss: &RowLoss) -> bool {
    loss.count == 1 && loss.may_wait
}

impl Found {
    fn add(&mut self, rank: Rank, entry: &Entry) -> Result<(), AllocError> {
        self.add_lost(rank, entry, true)
    }

    /// Adds an entry that is missing by the row that was touched last.
    fn add_lost(
        &mut self,
        rank: Rank,
        entry: &Entry,
        is_command_known: bool,
    ) -> Result<(), AllocError> {
        if let Some(loss) = self.rows.get_mut(self.touched) {
            loss.count = loss.count.saturating_add(1);
            loss.may_wait = may_wait(entry);
        }
        self.entries.push((
            rank,
            Lost {
                entry: *entry,
                is_command_known,
            },
        ))?;
        Ok(())
    }

    /// Notes that a row differs. What is added then is missing by it.
    fn touch(&mut self, row: Holder) -> Result<(), AllocError> {
        if let Some(place) = self.rows.iter().position(|loss| loss.row == row) {
            self.touched = place;
            return Ok(());
        }
        self.touched = self.rows.len();
        self.rows.push(RowLoss {
            row,
            count: 0,
            may_wait: false,
        })?;
        Ok(())
    }

    /// Returns true if it may all be of one step, which saves one row, or of two of which the first was kept.
    fn is_lawful(&self) -> bool {
        let is_few = match self.rows.as_slice() {
            [] | [_] => true,
            [one, other] => is_kept(one) || is_kept(other),
            _ => false,
        };
        self.is_one_step && is_few
    }

    fn add_settled(&mut self, domain: u16, now: &DomainState) -> Result<(), AllocError> {
        self.add(
            Rank::End,
            &Entry::Settled {
                domain,
                epoch: now.epoch,
                number: now.last,
                outcome: now.outcome,
            },
        )
    }

    fn add_grant(&mut self, domain: u16, now: &DomainState) -> Result<(), AllocError> {
        let (epoch, holder) = (now.epoch, now.holder);
        if holder == Holder::Free {
            return self.add(Rank::Freed, &Entry::Freed { domain, epoch });
        }
        let granted = Entry::Granted {
            domain,
            epoch,
            holder,
        };
        self.add(Rank::Grant, &granted)
    }

    fn add_run(
        &mut self,
        domain: u16,
        now: &DomainState,
        command: Option<Command>,
    ) -> Result<(), AllocError> {
        let run = Entry::Ran {
            domain,
            epoch: now.epoch,
            number: now.last,
            command: command.unwrap_or(ANY_COMMAND),
        };
        self.add_lost(Rank::Run, &run, command.is_some())
    }

    /// Compares the state of a domain with the one before.
    fn compare_domain(
        &mut self,
        domain: u16,
        was: &DomainState,
        now: &DomainState,
        command: Option<Command>,
    ) -> Result<(), AllocError> {
        if *was == *now {
            return Ok(());
        }
        self.touch(Holder::Domain(domain))?;
        let is_same_grant = now.epoch == was.epoch && now.holder == was.holder;
        let is_next_grant = now.epoch == was.epoch.saturating_add(1) && now.last == 0;
        let is_next_run = is_same_grant && now.last == was.last.saturating_add(1);
        if is_next_grant && !was.is_busy {
            self.add_grant(domain, now)
        } else if is_next_run && !was.is_busy {
            self.add_run(domain, now, command)?;
            if now.is_busy {
                Ok(())
            } else {
                self.add_settled(domain, now)
            }
        } else if is_same_grant && now.last == was.last && was.is_busy && !now.is_busy {
            self.add_settled(domain, now)
        } else {
            self.is_one_step = false;
            Ok(())
        }
    }

    /// Compares an operator's orders under a grant.
    fn compare_orders(
        &mut self,
        operator: u16,
        was: &LinkState,
        now: &LinkState,
        loaded: &Account,
    ) -> Result<(), AllocError> {
        let before = if was.epoch < now.epoch { 0 } else { was.number };
        if now.number == before {
            return Ok(());
        }
        self.touch(now.holder)?;
        if now.number < before || now.number - before > MOST_ORDERS {
            self.is_one_step = false;
            return Ok(());
        }
        for number in before..now.number {
            self.add_order(operator, now, number + 1, loaded)?;
        }
        Ok(())
    }

    /// Adds the order of an operator that has a number, if its command is pending.
    fn add_order(
        &mut self,
        operator: u16,
        now: &LinkState,
        number: u32,
        loaded: &Account,
    ) -> Result<(), AllocError> {
        let Some(command) = loaded.pending(now.holder, now.domain, number) else {
            self.is_one_step = false;
            return Ok(());
        };
        self.add(
            Rank::Order,
            &Entry::Ordered {
                operator,
                domain: now.domain,
                epoch: now.epoch,
                number,
                command,
            },
        )
    }

    /// Compares in which mode a domain holds its child.
    fn compare_mode(&mut self, was: &LinkState, now: &LinkState) -> Result<(), AllocError> {
        let before = if was.epoch < now.epoch {
            Mode::Included
        } else {
            was.mode
        };
        if now.mode == before {
            return Ok(());
        }
        self.touch(now.holder)?;
        self.add(
            Rank::Mode,
            &Entry::InMode {
                domain: now.domain,
                mode: now.mode,
            },
        )
    }

    /// Compares the state of a link with the one before.
    fn compare_link(
        &mut self,
        was: &LinkState,
        now: &LinkState,
        loaded: &Account,
    ) -> Result<(), AllocError> {
        let (holder, domain) = (now.holder, now.domain);
        if was.is_held && !now.is_held {
            self.touch(holder)?;
            let epoch = was.epoch;
            return self.add(
                Rank::Link,
                &Entry::LetGo {
                    holder,
                    domain,
                    epoch,
                },
            );
        }
        if !now.is_held {
            return Ok(());
        }
        if was.epoch < now.epoch {
            self.touch(holder)?;
            self.is_one_step = self.is_one_step && !was.is_held && now.number == 0;
            let epoch = now.epoch;
            self.add(
                Rank::Link,
                &Entry::Learned {
                    holder,
                    domain,
                    epoch,
                },
            )?;
        } else if now.epoch < was.epoch || !was.is_held {
            self.is_one_step = false;
        }
        match holder {
            Holder::Operator(operator) => self.compare_orders(operator, was, now, loaded),
            Holder::Domain(_) => self.compare_mode(was, now),
            Holder::Free => Ok(()),
        }
    }

    /// Compares the domains and links that a block names.
    fn compare_named(
        &mut self,
        tree: &Tree,
        was: &Account,
        now: &Account,
    ) -> Result<(), AllocError> {
        for domain in 1..=tree.domain_count() {
            let state = now.domain(domain);
            if state.epoch > 0 {
                let command = now.command_of_last_run(domain);
                self.compare_domain(domain, &was.domain(domain), &state, command)?;
            }
        }
        for link in now.links() {
            self.compare_link(&was.link(link.holder, link.domain), link, now)?;
        }
        Ok(())
    }

    /// Compares the domains and links that a block does not name: they were never held.
    fn compare_unnamed(
        &mut self,
        tree: &Tree,
        was: &Account,
        now: &Account,
    ) -> Result<(), AllocError> {
        for domain in 1..=tree.domain_count() {
            let state = now.domain(domain);
            if state.epoch == 0 {
                self.compare_domain(domain, &was.domain(domain), &state, None)?;
            }
        }
        for link in was.links() {
            let is = now.link(link.holder, link.domain);
            if is.epoch == 0 && link.is_held {
                self.compare_link(link, &is, now)?;
            }
        }
        Ok(())
    }
}

/// Whether a block has all its lines.
#[derive(Clone, Copy, PartialEq, Eq)]
pub(crate) enum BlockEnd {
    /// Another line follows it.
    Followed,
    /// It is at the end of its file, and a kill may have kept its last lines from being written.
    Torn,
}

/// Puts the entries that an account lacks against what was loaded at the end of `lost`, in an order in which steps
/// leave them.
///
/// Returns false if they can't be those of one step, and of one before it that was kept: then lines are missing.
pub(crate) fn find_lost(
    tree: &Tree,
    was: &Account,
    now: &Account,
    end: BlockEnd,
    lost: &mut Vec<Lost>,
) -> Result<bool, AllocError> {
    let mut found = Found {
        entries: Vec::new(*lost.allocator()),
        rows: Vec::new(*lost.allocator()),
        touched: 0,
        is_one_step: true,
    };
    found.compare_named(tree, was, now)?;
    if end == BlockEnd::Followed {
        found.compare_unnamed(tree, was, now)?;
    }
    for rank in RANKS {
        for (its, entry) in found.entries.as_slice() {
            if *its == rank {
                lost.push(*entry)?;
            }
        }
    }
    Ok(found.is_lawful())
}
