//! Finds out what was in the way of a command that has ended with a fault, by looking again.
//!
//! `telling_more` calls [`cause_of`] with the line of the fault, which has to be one of docs/NUMBERS.md, "Lines on
//! standard error". The look opens and binds what the command has opened and bound, makes no file, and finds nothing if
//! all is well by then.

use crate::cause::{Cause, PathOrAddress, Why};
use crate::line::{CommandLine, ConsolePlace, Schedule, line_of};
use crate::tree::tree_bytes;
use crate::words::{Words, bytes_of};
use smi_console::addresses;
use smi_disks::open;
use smi_tree::Tree;
use std::fs::{self, Metadata, OpenOptions};
use std::io::{self, ErrorKind, Read};
use std::net::{Net, SocketAddr, TcpListener, UdpSocket};
use std::os::unix::fs::{FileTypeExt, MetadataExt};
use std::os::unix::net::UnixStream;
use std::rt::Files;

/// The most paths that a command reads and that its form has a word for: a screen has a tree, a style and a token.
const MOST_PATHS: usize = 3;

/// The first bytes of the file of a store: the head of SQLite's format. `smi_stable` writes such files.
const STORE_HEAD: &[u8] = b"SQLite format 3\0";

/// The first digits of the number of the first byte that a lock of a store has: SQLite locks bytes from 2^30
/// (1,073,741,824) on.
const LOCKED_BYTES: &str = "107374";

/// The most bytes of the system's table of locks that are read, so that a huge table takes no more memory.
const MOST_LOCK_BYTES: u64 = 1 << 20;

/// Returns what is in the way of the command of these words, which has ended with this line of a fault.
///
/// Returns None if all is well by now, or if no look tells more of such a fault.
pub(crate) fn cause_of<'a, H: Files + Net + AllocGlobal>(
    host: &H,
    words: &'a Words,
    fault: &str,
) -> Option<Cause<'a>> {
    let line = line_of(host.alloc(), words.texts.as_slice());
    match fault {
        "read fault" => read_cause(host, words, line),
        "store fault" => store_cause(host, line),
        "link fault" => link_cause(host, words, line),
        "console fault" => console_cause(host, line),
        "screen fault" => screen_cause(host, line),
        "journal fault" => journal_cause(host, line),
        "history fault" => history_cause(host, line),
        _ => None,
    }
}

/// Returns the paths of the files that a command has read, but for the journals of an audit, which may be many.
fn read_paths(line: CommandLine<'_>) -> [Option<&str>; MOST_PATHS] {
    match line {
        CommandLine::Check(line) => [Some(line.tree), None, None],
        CommandLine::Sim(line) => match line.schedule {
            Schedule::File(path) => [Some(line.tree), Some(path), None],
            Schedule::Drawn { .. } => [Some(line.tree), None, None],
        },
        CommandLine::Audit(line) => [Some(line.tree), None, None],
        CommandLine::Node(line) => [Some(line.tree), None, None],
        CommandLine::Screen(line) => [Some(line.tree), line.style, line.token],
        CommandLine::Rows(_) | CommandLine::Answer | CommandLine::Wrong | CommandLine::NoMemory => {
            [None, None, None]
        }
    }
}

/// Returns the first file of a command that can't be read, and why.
fn read_cause<'a, H: Files + AllocGlobal>(
    host: &H,
    words: &'a Words,
    line: CommandLine<'a>,
) -> Option<Cause<'a>> {
    for path in read_paths(line).into_iter().flatten() {
        if let Err(e) = read_some(host, bytes_of(words, path)) {
            return Some(at_path(path, Why::of(e)));
        }
    }
    match line {
        CommandLine::Audit(_) => journal_file_cause(host, words),
        _ => None,
    }
}

/// Returns the first journal of an audit that can't be read, and why. It tries each word after the program's name, the
/// command and the tree that is no option.
fn journal_file_cause<'a, H: Files + AllocGlobal>(host: &H, words: &'a Words) -> Option<Cause<'a>> {
    // If the option comes before the tree, the tree is tried again, which can be read.
    for (text, bytes) in words.texts.iter().zip(words.bytes.iter()).skip(3) {
        if text.as_str().starts_with("--") {
            continue;
        }
        if let Err(e) = read_some(host, bytes.as_slice()) {
            return Some(at_path(text.as_str(), Why::of(e)));
        }
    }
    None
}

/// Opens a file and reads a byte of it, if it has one. Fails as the command would.
fn read_some<H: Files + AllocGlobal>(host: &H, path: &[u8]) -> io::Result<()> {
    let mut byte = [0u8; 1];
    open(host, path)?.read(&mut byte)?;
    Ok(())
}

/// Returns what is in the way of the store of a command.
fn store_cause<'a, H: Files + AllocGlobal>(host: &H, line: CommandLine<'a>) -> Option<Cause<'a>> {
    match line {
        CommandLine::Node(line) => Some(kept_store_cause(host, line.store)),
        CommandLine::Screen(line) => Some(kept_store_cause(host, line.store)),
        CommandLine::Rows(path) => Some(at_path(path, read_store_why(host, path))),
        _ => None,
    }
}

/// Returns what is in the way of the store of a node or a screen, which they make if it is missing.
fn kept_store_cause<'a, H: Files + AllocGlobal>(host: &H, path: &'a str) -> Cause<'a> {
    match kept_file_cause(host, path) {
        Some(cause) => cause,
        None => at_path(path, read_store_why(host, path)),
    }
}

/// Returns what is in the way of a file that the command makes if it is missing. None if the file can be written.
fn kept_file_cause<'a, H: Files>(host: &H, path: &'a str) -> Option<Cause<'a>> {
    let folder = folder_of(path);
    if let Err(e) = fs::metadata(host, folder) {
        return Some(at_path(folder, Why::of(e)));
    }
    let why = match fs::metadata(host, path) {
        Ok(found) if found.is_dir() => Why::IsFolder,
        Ok(found) if !found.is_file() => Why::NoRegularFile,
        Ok(_) => match OpenOptions::new().read(true).write(true).open(host, path) {
            Ok(_) => return None,
            Err(e) => Why::of(e),
        },
        Err(e) if e.kind() == ErrorKind::NotFound => Why::NotMade,
        Err(e) => Why::of(e),
    };
    Some(at_path(path, why))
}

/// Returns why the store of this path can't be read.
fn read_store_why<H: Files + AllocGlobal>(host: &H, path: &str) -> Why {
    let found = match fs::metadata(host, path) {
        Ok(found) => found,
        Err(e) => return Why::of(e),
    };
    if found.is_dir() {
        return Why::IsFolder;
    }
    if !found.is_file() {
        return Why::NoRegularFile;
    }
    match begins_as_store(host, path) {
        Err(e) => Why::of(e),
        Ok(false) => Why::NoStore,
        Ok(true) if is_locked(host, &found) => Why::InUse,
        Ok(true) => Why::NoUse,
    }
}

/// Returns true if a file begins as the file of a store, or is empty, as one to which nothing was saved.
fn begins_as_store<H: Files + AllocGlobal>(host: &H, path: &str) -> io::Result<bool> {
    let mut head = Vec::new(host.alloc());
    let most = STORE_HEAD.len() as u64;
    fs::open(host, path)?.take(most).read_to_end(&mut head)?;
    Ok(head.is_empty() || head.as_slice() == STORE_HEAD)
}

/// Returns true if a process has locked a store's file, by the system's table of locks (proc(5)).
fn is_locked<H: Files + AllocGlobal>(host: &H, file: &Metadata) -> bool {
    // Without the table nothing is known, and the cause is told as `NoUse`.
    lock_table_has(host, file).unwrap_or(false)
}

/// Returns true if the system's table of locks has a lock of a store on a file of this inode number. It compares no
/// device, because some file systems show a program another device than the table has.
fn lock_table_has<H: Files + AllocGlobal>(host: &H, file: &Metadata) -> io::Result<bool> {
    let mut bytes = Vec::new(host.alloc());
    fs::open(host, "/proc/locks")?
        .take(MOST_LOCK_BYTES)
        .read_to_end(&mut bytes)?;
    let number = file.ino();
    let wanted = format!(in host.alloc(); ":{number} {LOCKED_BYTES}")?;
    let text = str::from_utf8(bytes.as_slice()).unwrap_or("");
    Ok(text.split_once(wanted.as_str()).is_some())
}

/// Returns what is in the way of binding the station's own address.
fn link_cause<'a, H: Files + Net + AllocGlobal>(
    host: &H,
    words: &'a Words,
    line: CommandLine<'a>,
) -> Option<Cause<'a>> {
    let (tree, station) = match line {
        CommandLine::Node(line) => (line.tree, line.station),
        CommandLine::Screen(line) => (line.tree, line.station),
        _ => return None,
    };
    let own = own_address(host, words, tree, station)?;
    match UdpSocket::bind(host, own) {
        Ok(_) => None,
        Err(e) => Some(at_address(own, Why::of(e))),
    }
}

/// Returns the address of the station of this name, by the tree file of this path. None if the file can't be read or
/// has no such station.
fn own_address<H: Files + AllocGlobal>(
    host: &H,
    words: &Words,
    tree: &str,
    station: &str,
) -> Option<SocketAddr> {
    let Ok(bytes) = tree_bytes(host, bytes_of(words, tree)) else {
        return None;
    };
    let Ok(tree) = Tree::read(host.alloc(), bytes.as_slice()) else {
        return None;
    };
    let Ok(peers) = addresses(host.alloc(), &tree) else {
        return None;
    };
    let number = tree.station_named(station.as_bytes()).unwrap_or(0);
    let index = usize::from(number).checked_sub(1)?;
    peers.as_slice().get(index).copied()
}

/// Returns what is in the way of the first console address of a node at which it can't listen.
fn console_cause<'a, H: Files + Net>(host: &H, line: CommandLine<'a>) -> Option<Cause<'a>> {
    let CommandLine::Node(line) = line else {
        return None;
    };
    for place in [line.console, line.second_console].into_iter().flatten() {
        let found = match place {
            ConsolePlace::Address(address) => listener_cause(host, address),
            ConsolePlace::Path(path) => socket_cause(host, path),
        };
        if found.is_some() {
            return found;
        }
    }
    None
}

/// Returns what is in the way of listening at a TCP address.
fn listener_cause<'a, H: Net>(host: &H, address: SocketAddr) -> Option<Cause<'a>> {
    match TcpListener::bind(host, address) {
        Ok(_) => None,
        Err(e) => Some(at_address(address, Why::of(e))),
    }
}

/// Returns what is in the way of listening at a Unix socket of this path. A socket file at which no process listens is
/// not in the way, because a node replaces it.
fn socket_cause<'a, H: Files + Net>(host: &H, path: &'a str) -> Option<Cause<'a>> {
    let folder = folder_of(path);
    if let Err(e) = fs::metadata(host, folder) {
        return Some(at_path(folder, Why::of(e)));
    }
    let why = match fs::symlink_metadata(host, path) {
        Ok(found) if found.is_dir() => Why::IsFolder,
        Ok(found) if !found.file_type().is_socket() => Why::NoSocket,
        Ok(_) => match UnixStream::connect(host, path) {
            Ok(_) => Why::InUse,
            Err(e) if e.kind() == ErrorKind::ConnectionRefused => return None,
            Err(e) => Why::of(e),
        },
        Err(e) if e.kind() == ErrorKind::NotFound => Why::NotMade,
        Err(e) => Why::of(e),
    };
    Some(at_path(path, why))
}

/// Returns what is in the way of listening at the HTTP address of a screen.
fn screen_cause<'a, H: Net>(host: &H, line: CommandLine<'a>) -> Option<Cause<'a>> {
    match line {
        CommandLine::Screen(line) => listener_cause(host, line.http),
        _ => None,
    }
}

/// Returns what is in the way of the journal of a node. If its folder is there, all that is known is that no file could
/// be made in it.
fn journal_cause<'a, H: Files>(host: &H, line: CommandLine<'a>) -> Option<Cause<'a>> {
    let CommandLine::Node(line) = line else {
        return None;
    };
    let folder = line.journal?.folder;
    let why = match fs::metadata(host, folder) {
        Ok(found) if found.is_dir() => Why::NoFileMade,
        Ok(_) => Why::NoFolder,
        Err(e) => Why::of(e),
    };
    Some(at_path(folder, why))
}

/// Returns what is in the way of the file of a screen's history.
fn history_cause<'a, H: Files>(host: &H, line: CommandLine<'a>) -> Option<Cause<'a>> {
    match line {
        CommandLine::Screen(line) => kept_file_cause(host, line.history?),
        _ => None,
    }
}

/// Returns the folder of a path, `.` if the path has no slash.
fn folder_of(path: &str) -> &str {
    match path.rsplit_once('/') {
        Some(("", _)) => "/",
        Some((folder, _)) => folder,
        None => ".",
    }
}

/// Returns the cause that this path is in the way.
fn at_path(path: &str, why: Why) -> Cause<'_> {
    Cause {
        what: PathOrAddress::Path(path),
        why,
    }
}

/// Returns the cause that this address is in the way.
fn at_address<'a>(address: SocketAddr, why: Why) -> Cause<'a> {
    Cause {
        what: PathOrAddress::Address(address),
        why,
    }
}
