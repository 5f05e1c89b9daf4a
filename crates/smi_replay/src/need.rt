//! Whether an entry is one that another waits for.

use smi_audit::Need;
use smi_protocol::Entry;

/// Returns true if an entry is what is waited for.
pub(crate) fn meets(entry: &Entry, need: &Need) -> bool {
    match (*entry, *need) {
        (
            Entry::Granted {
                domain,
                epoch,
                holder,
            },
            Need::Granted {
                domain: of,
                epoch: at,
                holder: by,
            },
        )
        | (
            Entry::Learned {
                holder,
                domain,
                epoch,
            },
            Need::Learned {
                holder: by,
                domain: of,
                epoch: at,
            },
        )
        | (
            Entry::LetGo {
                holder,
                domain,
                epoch,
            },
            Need::LetGo {
                holder: by,
                domain: of,
                epoch: at,
            },
        ) => domain == of && epoch == at && holder == by,
        _ => is_command(entry, need) || is_passed(entry, need),
    }
}

/// Returns true if an entry is the order, the run or the end of a command that is waited for.
fn is_command(entry: &Entry, need: &Need) -> bool {
    match (*entry, *need) {
        (
            Entry::Ordered {
                operator,
                domain,
                epoch,
                number,
                ..
            },
            Need::Ordered {
                operator: by,
                domain: of,
                epoch: at,
                number: under,
            },
        ) => operator == by && domain == of && epoch == at && number == under,
        (Entry::Ran { domain, .. }, Need::Ran { domain: of }) => domain == of,
        (
            Entry::Settled {
                domain,
                epoch,
                number,
                ..
            },
            Need::Settled {
                domain: of,
                epoch: at,
                number: under,
            },
        ) => domain == of && epoch == at && number == under,
        _ => false,
    }
}

/// Returns true if an entry says that the state is passed that is waited for.
fn is_passed(entry: &Entry, need: &Need) -> bool {
    match (*entry, *need) {
        (Entry::Passed(shown), Need::Passed(of)) => shown == of,
        _ => false,
    }
}
