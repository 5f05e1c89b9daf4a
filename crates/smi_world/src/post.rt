use smi_rows::MemoryStable;
use smi_station::Station;

/// A station of the world over a store in memory.
#[derive(Drop)]
pub(crate) struct Post<'a> {
    pub station: Station<'a, MemoryStable>,
    /// Whether a save that failed has stopped it.
    pub is_down: bool,
}

impl Post<'_> {
    /// Returns true if the station makes no step until it starts again.
    pub(crate) fn is_stopped(&self) -> bool {
        self.is_down || self.station.is_stopped()
    }
}
