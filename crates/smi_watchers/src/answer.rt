use thiserror::Error;

/// What a watch found of its station in the list of the object (docs/PROTOCOL.md, "Watching").
#[derive(Clone, Copy, PartialEq, Eq)]
pub enum WatchAnswer {
    /// The station did not watch the object: it is now the last in the list.
    Added,
    /// The station watched with an older echo: it has the newer one now, in the same place.
    Replaced,
    /// The station watches with this echo already: nothing has changed.
    Present,
    /// The station watches with a newer echo: nothing has changed.
    Older,
}

/// Why an object could not be watched.
#[derive(Clone, Copy, Debug, PartialEq, Eq, Error)]
pub enum WatchFault {
    /// 64 other stations watch the object.
    #[error("1: 64 other stations watch the object")]
    Full = 1,
    /// The memory for one more watcher was refused.
    #[error("2: out of memory")]
    Memory,
}

impl WatchFault {
    ghost use Rattle.std.specs.Prelude.{◌≡◌};
    ghost use Rattle.smi_watchers.specs.Fault.{answer_code};

    /// Returns the number of the fault, 1 or 2.
    pub fn code(self) -> u16
        ensures { result ≡ answer_code self }
    {
        u16::from(self as u8)
    }
}
