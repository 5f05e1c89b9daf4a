//! Opens and reads files by paths that need not be text.
//!
//! A path of a command line may have any bytes, and the toolchain's files have paths of text. Everything that the
//! program reads by such a path comes through here: tree files, schedules, stores that are listed, and what lies beside
//! a store.

ghost use Rattle.std.specs.Prelude.{◌≡◌, ◌++◌, IfOk};

use std::alloc::{AllocError, Global};
use std::fs;
use std::io::{self, ErrorKind, Read};
use std::rt::Files;

/// Opens the file of a path. One that is no text is opened by its bytes, and then again by the name that the system has
/// for its descriptor, because the toolchain makes no file of a descriptor.
///
/// It has no clause: what is at a path, the system alone says. tests/paths_test.py has paths of all kinds.
pub fn open<H: Files + AllocGlobal>(host: &H, path: &[u8]) -> io::Result<H::File> {
    if let Ok(text) = str::from_utf8(path) {
        return fs::open(host, text);
    }
    let descriptor = os::open_read(path);
    if descriptor < 0 {
        return Err(io::Error::from_raw_os_error(os::errno()));
    }
    let opened = open_again(host, descriptor);
    libc::close(descriptor);
    opened
}

/// Opens what a descriptor is open on.
fn open_again<H: Files + AllocGlobal>(host: &H, descriptor: i32) -> io::Result<H::File> {
    let name = format!(in host.alloc(); "/proc/self/fd/{descriptor}")?;
    fs::open(host, name.as_str())
}

/// Returns the bytes of a file, or None if there is no file. At a path of text, what is no regular file is not opened:
/// the error is `Unsupported`. At any other path it is opened and read whatever it is, because the toolchain tells the
/// kind of a file by a path of text alone.
///
/// It has no clause: what is at a path, the system alone says. tests/paths_test.py has paths of all kinds.
pub fn bytes_of<H: Files + AllocGlobal>(host: &H, path: &[u8]) -> io::Result<Option<Vec<u8>>> {
    if let Ok(text) = str::from_utf8(path) {
        match fs::metadata(host, text) {
            Ok(found) if found.is_file() => {}
            Ok(_) => return Err(io::Error::from(ErrorKind::Unsupported)),
            Err(e) if e.kind() == ErrorKind::NotFound => return Ok(None),
            Err(e) => return Err(e),
        }
    }
    let mut file = match open(host, path) {
        Ok(file) => file,
        Err(e) if e.kind() == ErrorKind::NotFound => return Ok(None),
        Err(e) => return Err(e),
    };
    let mut bytes = Vec::new(host.alloc());
    file.read_to_end(&mut bytes)?;
    Ok(Some(bytes))
}

/// Returns the path with no link in it. A path that is no text is returned as it is.
///
/// It has no clause: what is at a path, the system alone says. tests/paths_test.py has paths of all kinds.
pub fn resolved<H: Files + AllocGlobal>(host: &H, path: &[u8]) -> io::Result<Vec<u8>> {
    match str::from_utf8(path) {
        Ok(text) => {
            let real = fs::canonicalize(host, text)?;
            Ok(Vec::from_slice(host.alloc(), real.as_str().as_bytes())?)
        }
        Err(_) => Ok(Vec::from_slice(host.alloc(), path)?),
    }
}

/// Returns the path of a file that lies beside another: its path, and `more` after it, such as `-sum`.
///
/// No clause names `alloc`, from which memory comes.
pub fn beside(alloc: Global, path: &[u8], more: &[u8]) -> Result<Vec<u8>, AllocError>
    ensures { IfOk result (λ longer. longer.items ≡ path.now ++ more.now) }
{
    let mut longer = Vec::from_slice(alloc, path)?;
    longer.extend_from_slice(more)?;
    Ok(longer)
}
