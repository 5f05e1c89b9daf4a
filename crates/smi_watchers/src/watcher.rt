/// A station that watches an object.
#[derive(Clone, Copy, PartialEq, Eq)]
pub struct Watcher {
    /// The number of the station, 1 to 128.
    pub station: u16,
    /// The boot of the station that its newest `WATCH` of the object named.
    pub echo: u32,
}
