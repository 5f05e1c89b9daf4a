//! Entries over the worked tree, of ANN who holds DCS, which holds TPC.

use smi_grant::{Command, Holder, Shown, Version};
use smi_protocol::Entry;

pub(crate) const ANN: Holder = Holder::Operator(1);

pub(crate) const DCS: Holder = Holder::Domain(1);

/// ANN has DCS at its first epoch.
pub(crate) const GRANTED: Entry = Entry::Granted {
    domain: 1,
    epoch: 1,
    holder: ANN,
};

pub(crate) const LEARNED: Entry = Entry::Learned {
    holder: ANN,
    domain: 1,
    epoch: 1,
};

pub(crate) const LET_GO: Entry = Entry::LetGo {
    holder: ANN,
    domain: 1,
    epoch: 1,
};

pub(crate) const ORDERED: Entry = Entry::Ordered {
    operator: 1,
    domain: 1,
    epoch: 1,
    number: 1,
    command: Command::Do(1),
};

pub(crate) const RAN: Entry = Entry::Ran {
    domain: 1,
    epoch: 1,
    number: 1,
    command: Command::Do(1),
};

/// DCS has TPC at its first epoch.
pub(crate) const CHILD_GRANTED: Entry = Entry::Granted {
    domain: 2,
    epoch: 1,
    holder: DCS,
};

pub(crate) const CHILD_LEARNED: Entry = Entry::Learned {
    holder: DCS,
    domain: 2,
    epoch: 1,
};

pub(crate) const CHILD_RAN: Entry = Entry::Ran {
    domain: 2,
    epoch: 1,
    number: 1,
    command: Command::Do(1),
};

/// TPC's unit.
pub(crate) const FIRST: Shown = Shown {
    object: 2,
    version: Version {
        boot: 1,
        sequence: 0,
    },
    state: 1,
};

pub(crate) const SECOND: Shown = Shown {
    object: 2,
    version: Version {
        boot: 1,
        sequence: 1,
    },
    state: 1,
};

pub(crate) const PASSED_FIRST: Entry = Entry::Passed(FIRST);

pub(crate) const PASSED_SECOND: Entry = Entry::Passed(SECOND);

/// What the first station is shown of it.
pub(crate) const SHOWED_FIRST: Entry = Entry::Showed {
    station: 1,
    shown: FIRST,
};

pub(crate) const SHOWED_SECOND: Entry = Entry::Showed {
    station: 1,
    shown: SECOND,
};

pub(crate) const STARTED: Entry = Entry::Booted {
    station: 1,
    boot: 2,
};

/// The command that both ran has ended.
pub(crate) const SETTLED: Entry = Entry::Settled {
    domain: 1,
    epoch: 1,
    number: 1,
    outcome: 0,
};

pub(crate) const CHILD_SETTLED: Entry = Entry::Settled {
    domain: 2,
    epoch: 1,
    number: 1,
    outcome: 0,
};

pub(crate) const FREED: Entry = Entry::Freed {
    domain: 1,
    epoch: 2,
};
