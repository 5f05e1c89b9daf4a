//! Says in words what is in the way of a command, for a person at a terminal or the reader of a service's journal.
//!
//! `cause_search` finds the [`Cause`], and `telling_more` writes it after the line of the fault, and asks whether it
//! lasts. A service whose fault lasts ends with status 5 (docs/NUMBERS.md, "Statuses of the program"). No program reads
//! the words.

use std::io::{self, ErrorKind, Write};
use std::net::SocketAddr;

/// What a command could not read, keep or reach, and why.
#[derive(Clone, Copy)]
pub(crate) struct Cause<'a> {
    /// The path or the address.
    pub(crate) what: PathOrAddress<'a>,
    /// The reason.
    pub(crate) why: Why,
}

/// What a command could not read, keep or reach.
#[derive(Clone, Copy)]
pub(crate) enum PathOrAddress<'a> {
    Path(&'a str),
    Address(SocketAddr),
}

/// Why a path or an address is not to be had.
#[derive(Clone, Copy)]
pub(crate) enum Why {
    /// There is no such file or folder.
    Missing,
    /// The rights of the file or folder refuse it.
    NoRight,
    /// It is a folder, and a file or a socket is wanted.
    IsFolder,
    /// It, or a part of its path, is no folder, and a folder is wanted.
    NoFolder,
    /// The file does not begin as a store does.
    NoStore,
    /// It is neither a file nor a folder, but a socket or a device.
    NoRegularFile,
    /// It is a file, and a socket is wanted.
    NoSocket,
    /// Another process has it open, or listens there.
    InUse,
    /// No interface of this machine has the address.
    NotOfThisMachine,
    /// It is not there, its folder is, and it could not be made.
    NotMade,
    /// It is a folder, as it has to be, and no file could be made in it.
    NoFileMade,
    /// The file can be opened and begins as a store does, or is empty, and no more is known.
    NoUse,
    /// Any other error of the system.
    System(io::Error),
}

impl Why {
    /// Returns the reason that an error of the system says.
    pub(crate) fn of(error: io::Error) -> Why {
        match error.kind() {
            ErrorKind::NotFound => Why::Missing,
            ErrorKind::PermissionDenied => Why::NoRight,
            ErrorKind::IsADirectory => Why::IsFolder,
            ErrorKind::NotADirectory => Why::NoFolder,
            ErrorKind::AddrInUse => Why::InUse,
            ErrorKind::AddrNotAvailable => Why::NotOfThisMachine,
            _ => Why::System(error),
        }
    }

    /// Returns true if the reason stays until somebody changes a path or its rights, so that the next start would end
    /// the same way. An address may come up later, and a disk may get room, so these don't last.
    pub(crate) fn lasts(self) -> bool {
        match self {
            Why::Missing
            | Why::NoRight
            | Why::IsFolder
            | Why::NoFolder
            | Why::NoStore
            | Why::NoRegularFile
            | Why::NoSocket => true,
            Why::InUse
            | Why::NotOfThisMachine
            | Why::NotMade
            | Why::NoFileMade
            | Why::NoUse
            | Why::System(_) => false,
        }
    }

    /// Writes the reason in words.
    fn tell<F: Write>(self, faults: &mut F) -> io::Result<()> {
        let words: &[u8] = match self {
            Why::Missing => b"there is no such file or folder",
            Why::NoRight => b"you have no right to it",
            Why::IsFolder => b"it is a folder",
            Why::NoFolder => b"it, or a part of it, is no folder",
            Why::NoStore => b"it is no store",
            Why::NoRegularFile => b"it is no regular file",
            Why::NoSocket => b"it is no socket",
            Why::InUse => b"another process has it",
            Why::NotOfThisMachine => b"it is no address of this machine",
            Why::NotMade => b"it could not be made",
            Why::NoFileMade => b"no file could be made in it",
            Why::NoUse => b"it can be opened, but not used as a store",
            Why::System(error) => return write!(faults, "{error}"),
        };
        faults.write_all(words)
    }
}

impl PathOrAddress<'_> {
    /// Writes the path or the address, with a question mark for each control character, which a terminal would obey.
    fn tell<F: Write>(self, faults: &mut F) -> io::Result<()> {
        match self {
            PathOrAddress::Address(address) => write!(faults, "{address}"),
            PathOrAddress::Path(path) => {
                for letter in path.chars() {
                    let shown = if letter.is_control() { '?' } else { letter };
                    write!(faults, "{shown}")?;
                }
                Ok(())
            }
        }
    }
}

impl Cause<'_> {
    /// Writes the cause as one line, after four spaces.
    pub(crate) fn tell<F: Write>(self, faults: &mut F) -> io::Result<()> {
        faults.write_all(b"    ")?;
        self.what.tell(faults)?;
        faults.write_all(b": ")?;
        self.why.tell(faults)?;
        faults.write_all(b"\n")
    }
}
