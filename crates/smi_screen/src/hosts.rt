//! Says which values of `Host` a screen answers, because a page elsewhere can have a name of its own lead to the
//! screen's address.
//!
//! `smi_program` asks for them and gives them to the screen; `smi_web` refuses any other with 421. docs/FORMATS.md,
//! "The screen", names the hosts.

use std::alloc::{AllocError, Global};
use std::net::SocketAddr;

/// Returns the bytes of a text. Fails if memory was refused.
fn bytes_of(alloc: Global, text: String) -> Result<Vec<u8>, AllocError> {
    Vec::from_slice(alloc, text.as_bytes())
}

/// Returns the values of `Host` that a screen at this address answers. These are the address, `localhost` if the
/// address is one of this machine alone, and `name` if there is one, each with the port. If a proxy serves the page
/// under an origin, the host of the origin is one more, as it is there.
///
/// Fails if memory was refused.
///
/// It has no clause: the toolchain has none for an address as text. tests/screen_test.py asks for other hosts.
pub fn hosts_of(
    alloc: Global,
    http: SocketAddr,
    name: Option<&str>,
    origin: Option<&str>,
) -> Result<Vec<Vec<u8>>, AllocError> {
    let mut hosts = Vec::new(alloc);
    hosts.push(bytes_of(alloc, format!(in alloc; "{http}")?)?)?;
    let port = http.port();
    if http.ip().is_loopback() {
        hosts.push(bytes_of(alloc, format!(in alloc; "localhost:{port}")?)?)?;
    }
    if let Some(name) = name {
        hosts.push(bytes_of(alloc, format!(in alloc; "{name}:{port}")?)?)?;
    }
    if let Some((_, host)) = origin.and_then(|origin| origin.split_once("://")) {
        hosts.push(Vec::from_slice(alloc, host.as_bytes())?)?;
    }
    Ok(hosts)
}
