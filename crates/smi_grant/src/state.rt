/// Which state of an object this is: the boot of its station, and how often the object has changed
/// since then. Written `1.7`, and ordered by the boot first.
#[derive(Clone, Copy, Debug, PartialEq, Eq, PartialOrd, Ord)]
pub struct Version {
    /// 1 to 4,000,000,000.
    pub boot: u32,
    /// 0 to 4,000,000,000.
    pub sequence: u32,
}

/// The state of an object in one of its versions.
#[derive(Clone, Copy, Debug, PartialEq, Eq)]
pub struct Shown {
    pub object: u16,
    pub version: Version,
    pub state: u16,
}
