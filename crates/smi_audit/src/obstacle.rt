//! Why an entry at the front of a journal is not taken: words for a person, which prove nothing.

ghost use Rattle.std.specs.Prelude.{◌≡◌, None, true};
ghost use Rattle.smi_audit.specs.Audited.{fits};
ghost use Rattle.smi_audit.specs.Tables.{is_known};

use crate::audit::Audit;
use crate::grant_state::{GrantState, forwards, is_commanded, may_hold, same_holder, works_on};
use crate::owed_runs::OwedRuns;
use crate::stage::GrantStage;
use crate::tellers::{has_station, station_of_object};
use smi_base::MOST_LEVELS;
use smi_grant::{Command, Holder, Shown, Version};
use smi_protocol::Entry;
use smi_tree::{Tree, has_domain, has_object, holder_station};
use smi_view::is_newer;

/// Why an entry is not taken now.
#[derive(Clone, Copy, PartialEq, Eq)]
pub enum Obstacle {
    /// What was taken contradicts it, for good.
    Never(Contradiction),
    /// It waits for an entry of this station's journal.
    Waits { station: u16, need: Need },
    /// The tree lacks what it names.
    Unknown,
}

/// What an entry waits for.
#[derive(Clone, Copy, PartialEq, Eq)]
pub enum Need {
    /// The grant of this epoch.
    Granted {
        domain: u16,
        epoch: u64,
        holder: Holder,
    },
    /// That the holder learns of its grant.
    Learned {
        holder: Holder,
        domain: u16,
        epoch: u64,
    },
    /// That the holder lets go of the domain.
    LetGo {
        holder: Holder,
        domain: u16,
        epoch: u64,
    },
    /// The command of this number under the grant.
    Ordered {
        operator: u16,
        domain: u16,
        epoch: u64,
        number: u32,
    },
    /// A run of the domain above, which is handed on.
    Ran {
        domain: u16,
    },
    /// The run of this number, and its end.
    Settled {
        domain: u16,
        epoch: u64,
        number: u32,
    },
    /// That the object passes this state.
    Passed(Shown),
}

/// What an entry contradicts.
#[derive(Clone, Copy, PartialEq, Eq)]
pub enum Contradiction {
    /// The domain is at this epoch, and this holder has it.
    Epoch { epoch: u64, holder: Holder },
    /// Grants have odd epochs, and their ends even ones.
    Parity,
    /// By the tree the holder may not hold the domain.
    Stranger,
    /// The holder does not hold the domain, which is at this epoch with this holder.
    NotHeld { epoch: u64, holder: Holder },
    /// The holder has learned of its grant before.
    LearnedBefore,
    /// The next number under the grant is this one.
    Number { expected: u32 },
    /// Another command was ordered under the number.
    Command { ordered: Command },
    /// The holder has let go of the domain.
    LetGo { holder: Holder },
    /// This domain above does not work on the command.
    Unbacked { domain: u16 },
    /// The command is not at work: `ran` have run under the grant of this epoch.
    NotAtWork { epoch: u64, ran: u32 },
    /// A version that was passed or shown before is not older.
    Version { newest: Version },
    /// The object, whose newest version is this one, has not passed the state in its version.
    State { newest: Version },
    /// The boot is not greater than the station's last.
    Boot { last: u32 },
}

/// Returns why an entry is not taken now, `None` if it is. If it need not wait and fits, it is.
pub fn obstacle_of(
    audit: &Audit<'_>,
    owed: &OwedRuns<'_>,
    tree: &Tree,
    entry: &Entry,
) -> Option<Obstacle>
    ensures { result ≡ None → fits audit.now entry.now ≡ true }
{
    if !owed.waits(audit, entry) && audit.fits(entry) {
        return None;
    }
    if is_known(tree, entry) {
        Some(reason(audit, owed, tree, entry))
    } else {
        Some(Obstacle::Unknown)
    }
}

/// Returns true if the tree has the domain, the station and the object that an entry is about.
fn is_known(tree: &Tree, entry: &Entry) -> bool
    ensures { result ≡ is_known tree.now entry.now }
{
    match *entry {
        Entry::Booted { station, .. } => has_station(tree, station),
        Entry::Granted { domain, .. }
        | Entry::Freed { domain, .. }
        | Entry::Ordered { domain, .. }
        | Entry::Ran { domain, .. }
        | Entry::Learned { domain, .. }
        | Entry::LetGo { domain, .. }
        | Entry::InMode { domain, .. }
        | Entry::Settled { domain, .. } => has_domain(tree, domain),
        Entry::Showed { station, shown } => has_station(tree, station)
            && has_object(tree, shown.object),
        Entry::Passed(shown) => has_object(tree, shown.object),
        Entry::Told { .. } => true,
    }
}

/// Returns why an entry is not taken, if it is not.
fn reason(audit: &Audit<'_>, owed: &OwedRuns<'_>, tree: &Tree, entry: &Entry) -> Obstacle {
    match *entry {
        Entry::Booted { station, .. } => Obstacle::Never(Contradiction::Boot {
            last: audit.boot(station),
        }),
        Entry::Granted {
            domain,
            epoch,
            holder,
        } => { Obstacle::Never(against_grant(tree, audit.state(domain), domain, epoch, holder)) }
        Entry::Freed { domain, epoch } => before_end(tree, audit.state(domain), domain, epoch),
        Entry::Ordered {
            operator,
            domain,
            epoch,
            ..
        } => Obstacle::Never(against_order(audit, operator, domain, epoch)),
        Entry::Ran {
            domain,
            epoch,
            number,
            command,
        } => before_run(audit, owed, tree, (domain, epoch, number, command)),
        Entry::Learned {
            holder,
            domain,
            epoch,
        } => before_learning(tree, audit.state(domain), holder, domain, epoch),
        Entry::LetGo {
            holder,
            domain,
            epoch,
        } => before_letting_go(audit, tree, holder, domain, epoch),
        Entry::Settled {
            domain,
            epoch,
            number,
            ..
        } => before_settling(audit, owed, tree, domain, epoch, number),
        Entry::Showed { station, shown } => before_showing(audit, tree, station, shown),
        Entry::Passed(shown) => against_version(audit.newest(shown.object)),
        Entry::InMode { .. } | Entry::Told { .. } => Obstacle::Unknown,
    }
}

/// Returns that an entry waits for one of this station, if the tree has it.
fn waits(station: Option<u16>, need: Need) -> Obstacle {
    match station {
        Some(station) => Obstacle::Waits { station, need },
        None => Obstacle::Unknown,
    }
}

/// Returns how the domain is granted, which an entry contradicts.
fn granted(state: GrantState) -> Contradiction {
    Contradiction::Epoch {
        epoch: state.epoch,
        holder: state.holder,
    }
}

/// Returns what a grant contradicts.
fn against_grant(
    tree: &Tree,
    state: GrantState,
    domain: u16,
    epoch: u64,
    holder: Holder,
) -> Contradiction {
    if !state.is_next(epoch) {
        granted(state)
    } else if epoch % 2 == 0 {
        Contradiction::Parity
    } else if !may_hold(tree, domain, holder) {
        Contradiction::Stranger
    } else {
        granted(state)
    }
}

/// Returns why a grant does not end.
fn before_end(tree: &Tree, state: GrantState, domain: u16, epoch: u64) -> Obstacle {
    if !state.is_next(epoch) {
        return Obstacle::Never(granted(state));
    }
    if epoch % 2 == 1 {
        return Obstacle::Never(Contradiction::Parity);
    }
    let (holder, epoch) = (state.holder, state.epoch);
    match state.stage {
        GrantStage::Given => waits(
            holder_station(tree, holder),
            Need::Learned {
                holder,
                domain,
                epoch,
            },
        ),
        GrantStage::Held | GrantStage::Gone => waits(
            holder_station(tree, holder),
            Need::LetGo {
                holder,
                domain,
                epoch,
            },
        ),
    }
}

/// Returns what an order contradicts.
fn against_order(audit: &Audit<'_>, operator: u16, domain: u16, epoch: u64) -> Contradiction {
    let state = audit.state(domain);
    if state.takes_let_go(Holder::Operator(operator), epoch) {
        Contradiction::Number {
            expected: next_number(audit.order_count(domain)),
        }
    } else {
        Contradiction::NotHeld {
            epoch: state.epoch,
            holder: state.holder,
        }
    }
}

/// Returns the number of the next command after this many.
fn next_number(count: usize) -> u32 {
    match u32::try_from(count) {
        Ok(count) => count.saturating_add(1),
        Err(_) => u32::MAX,
    }
}

/// Returns why a command does not run.
fn before_run(
    audit: &Audit<'_>,
    owed: &OwedRuns<'_>,
    tree: &Tree,
    run: (u16, u64, u32, Command),
) -> Obstacle {
    let (domain, epoch, number, command) = run;
    let state = audit.state(domain);
    if epoch != state.epoch {
        return Obstacle::Never(granted(state));
    }
    if !state.is_next_run(epoch, number) {
        return Obstacle::Never(Contradiction::Number {
            expected: state.ran.saturating_add(1),
        });
    }
    let holder = state.holder;
    match state.stage {
        GrantStage::Given => waits(
            holder_station(tree, holder),
            Need::Learned {
                holder,
                domain,
                epoch,
            },
        ),
        GrantStage::Gone => Obstacle::Never(Contradiction::LetGo { holder }),
        GrantStage::Held => match holder {
            Holder::Free => Obstacle::Never(granted(state)),
            Holder::Operator(operator) => match audit.order_at(domain, number) {
                Some(ordered) => Obstacle::Never(Contradiction::Command { ordered }),
                None => waits(
                    holder_station(tree, holder),
                    Need::Ordered {
                        operator,
                        domain,
                        epoch,
                        number,
                    },
                ),
            },
            Holder::Domain(above) => {
                if owed.owed(domain) == number {
                    Obstacle::Never(Contradiction::Unbacked {
                        domain: unbacked(audit, tree, domain, command),
                    })
                } else {
                    waits(holder_station(tree, holder), Need::Ran { domain: above })
                }
            }
        },
    }
}

/// Returns the first domain above that does not work on a command.
fn unbacked(audit: &Audit<'_>, tree: &Tree, domain: u16, command: Command) -> u16 {
    let mut below = domain;
    for _level in 0..MOST_LEVELS {
        let state = audit.state(below);
        match state.holder {
            Holder::Domain(above) => {
                let stands = state.stage.is_held()
                    && is_commanded(state.mode)
                    && works_on(audit.state(above).work, command)
                    && forwards(tree, above, command, below);
                if !stands {
                    return above;
                }
                below = above;
            }
            Holder::Free | Holder::Operator(_) => return below,
        }
    }
    below
}

/// Returns why a holder does not learn of a grant.
fn before_learning(
    tree: &Tree,
    state: GrantState,
    holder: Holder,
    domain: u16,
    epoch: u64,
) -> Obstacle {
    if epoch > state.epoch {
        return waits(
            holder_station(tree, Holder::Domain(domain)),
            Need::Granted {
                domain,
                epoch,
                holder,
            },
        );
    }
    if epoch < state.epoch || !same_holder(state.holder, holder) {
        return Obstacle::Never(granted(state));
    }
    Obstacle::Never(Contradiction::LearnedBefore)
}

/// Returns why a holder does not let go.
fn before_letting_go(
    audit: &Audit<'_>,
    tree: &Tree,
    holder: Holder,
    domain: u16,
    epoch: u64,
) -> Obstacle {
    let state = audit.state(domain);
    if !state.takes_let_go(holder, epoch) {
        return Obstacle::Never(Contradiction::NotHeld {
            epoch: state.epoch,
            holder: state.holder,
        });
    }
    let last = match holder {
        Holder::Operator(_) => next_number(audit.order_count(domain)).saturating_sub(1),
        Holder::Free | Holder::Domain(_) => state.ran,
    };
    waits(
        holder_station(tree, Holder::Domain(domain)),
        Need::Settled {
            domain,
            epoch,
            number: last,
        },
    )
}

/// Returns why a command does not end.
fn before_settling(
    audit: &Audit<'_>,
    owed: &OwedRuns<'_>,
    tree: &Tree,
    domain: u16,
    epoch: u64,
    number: u32,
) -> Obstacle {
    let state = audit.state(domain);
    if !state.takes_settled(epoch, number) {
        return Obstacle::Never(Contradiction::NotAtWork {
            epoch: state.epoch,
            ran: state.ran,
        });
    }
    match owed.first_owing(domain) {
        Some(child) => waits(
            holder_station(tree, Holder::Domain(child)),
            Need::Settled {
                domain: child,
                epoch: audit.state(child).epoch,
                number: owed.owed(child),
            },
        ),
        None => Obstacle::Unknown,
    }
}

/// Returns why a station is not shown a state.
fn before_showing(audit: &Audit<'_>, tree: &Tree, station: u16, shown: Shown) -> Obstacle {
    let seen = audit.last_shown(station, shown.object);
    if !seen.comes_next(shown.version) {
        return against_shown(seen.last, shown.version);
    }
    match audit.newest(shown.object) {
        Some(newest) if !is_newer(shown.version, newest) => {
            Obstacle::Never(Contradiction::State { newest })
        }
        _ => waits(station_of_object(tree, shown.object), Need::Passed(shown)),
    }
}

/// Returns that a version contradicts the last that was shown.
fn against_shown(last: Option<Version>, version: Version) -> Obstacle {
    Obstacle::Never(Contradiction::Version {
        newest: last.unwrap_or(version),
    })
}

/// Returns that a version contradicts the newest.
fn against_version(newest: Option<Version>) -> Obstacle {
    match newest {
        Some(newest) => Obstacle::Never(Contradiction::Version { newest }),
        None => Obstacle::Unknown,
    }
}
