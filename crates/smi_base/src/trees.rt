//! What a tree has at most, and its file.

/// The most states of a tree.
pub const MOST_STATES: u16 = 64;

/// The most actions of a tree.
pub const MOST_ACTIONS: u16 = 64;

/// The most stations of a tree.
pub const MOST_STATIONS: u16 = 128;

/// The most operators of a tree.
pub const MOST_OPERATORS: u16 = 32;

/// The most operators of one station.
pub const MOST_OPERATORS_OF_A_STATION: usize = 8;

/// The most classes of a tree.
pub const MOST_CLASSES: u16 = 32;

/// The most rules of one class.
pub const MOST_RULES_OF_A_CLASS: usize = 32;

/// The most domains of a tree.
pub const MOST_DOMAINS: u16 = 128;

/// The most children of one domain.
pub const MOST_CHILDREN: usize = 16;

/// The most levels of a tree: a domain without a parent lies at the first.
pub const MOST_LEVELS: usize = 8;

/// The most devices of a tree.
pub const MOST_DEVICES: u16 = 512;

/// The most devices of one domain.
pub const MOST_DEVICES_OF_A_DOMAIN: usize = 16;

/// The most objects of a tree: the units of its domains, and its devices.
pub const MOST_OBJECTS: u16 = 640;

/// The most bytes of a name.
pub const MOST_BYTES_OF_A_NAME: usize = 16;

/// The most bytes of a line, without its line feed and the carriage return before it.
pub const MOST_BYTES_OF_A_LINE: usize = 200;

/// The most bytes of a tree file, and of a schedule that is read as a whole.
pub const MOST_BYTES_OF_A_FILE: usize = 262_144;
