//! Listens for consoles, and reads and writes their connections, over TCP and over Unix sockets alike.
//!
//! `connection_set` has the listeners and polls all sockets; `connection` has a [`Stream`]. No call waits.
//! docs/FORMATS.md, "Connections", says what a client sees of it: which socket file is replaced, and when a connection
//! whose machine is gone ends.

ghost use Rattle.libc.specs.Net.{SockOption};

use libc::net;
use mio::net::{TcpListener, TcpStream, UnixListener, UnixStream};
use mio::{Interest, Registry, Token};
use std::fs::{self, Files};
use std::io::{self, ErrorKind, Read, Write};
use std::net::{Net, SocketAddr};
use std::os::fd::{AsRawFd, RawFd};
use std::os::unix::fs::FileTypeExt;

/// After how many seconds without a byte from the other side the system sends the first keep-alive probe.
/// docs/FORMATS.md, "Connections", names it.
const PROBE_AFTER_SECONDS: i32 = 30;

/// How many seconds lie between two keep-alive probes. docs/FORMATS.md names it.
const PROBE_EACH_SECONDS: i32 = 10;

/// How many probes without an answer end a connection: with the two numbers above after a minute. Linux uses it only if
/// it does not take `TCP_USER_TIMEOUT`, which is set too.
const MOST_PROBES: i32 = 3;

/// How many milliseconds the other side may leave bytes or probes without a confirmation until the system ends the
/// connection. It is the minute that the three numbers above make.
const MOST_UNCONFIRMED_MS: i32 = 60_000;

/// The option of TCP, by its number in Linux, that is set to `PROBE_AFTER_SECONDS`. `libc` has no name for it.
const TCP_KEEPIDLE: i32 = 4;

/// The option of TCP, by its number in Linux, that is set to `PROBE_EACH_SECONDS`.
const TCP_KEEPINTVL: i32 = 5;

/// The option of TCP, by its number in Linux, that is set to `MOST_PROBES`.
const TCP_KEEPCNT: i32 = 6;

/// The option of TCP, by its number in Linux, that is set to `MOST_UNCONFIRMED_MS`.
const TCP_USER_TIMEOUT: i32 = 18;

/// The address at which a node listens for consoles.
#[derive(Drop)]
pub enum ListenAddress {
    /// A Unix socket at this path. The rights of its file say who may connect.
    Path(String),
    /// TCP at this address of the machine.
    Address(SocketAddr),
}

/// A socket at which a node listens. Its calls never wait.
#[derive(Drop)]
pub(crate) enum ListenSocket {
    Unix(UnixListener),
    Tcp(TcpListener),
}

/// The socket of a connection. Its calls never wait.
#[derive(Drop)]
pub(crate) enum Stream {
    Unix(UnixStream),
    Tcp(TcpStream),
}

/// Returns true if a socket's file is left over from an earlier process: no process listens at it.
fn is_left_behind<R: Files + Net>(rt: &R, path: &str) -> bool {
    let is_socket = match fs::symlink_metadata(rt, path) {
        Ok(found) => found.file_type().is_socket(),
        // No file, or one that can't be looked at: then the bind tells what is wrong.
        Err(_) => false,
    };
    is_socket
        && match UnixStream::connect(rt, path) {
            Ok(_) => false,
            Err(e) => e.kind() == ErrorKind::ConnectionRefused,
        }
}

/// Binds a Unix socket at a path. Replaces a socket file that is left over there. Fails if any other file is there, and
/// leaves it unchanged.
fn unix_listener<R: Files + Net>(rt: &R, path: &str) -> io::Result<UnixListener> {
    if is_left_behind(rt, path) {
        fs::remove_file(rt, path)?;
    }
    UnixListener::bind(rt, path)
}

/// Sets an option of a socket. Does nothing if the system refuses it, because a connection works without these options.
fn set_option(socket: RawFd, level: i32, name: i32, value: i32)
    requires { SockOption level name }
{
    // The call takes 16 bytes and how many of them count: an option of these is an `int` of C, in the first four.
    let mut bytes = [0u8; 16];
    bytes[..4].copy_from_slice(&value.to_ne_bytes());
    // SAFETY: `socket` is open, because the caller borrows its stream, and the call reads only the first four bytes.
    let _ = unsafe { net::setsockopt(socket, level, name, &bytes, 4) };
}

/// Has the system end a connection whose other side is gone without a word, as a machine that lost its power.
///
/// If nothing is on its way to the other side, the connection ends a minute after it was heard last. Otherwise it ends
/// a minute after the first byte that was not confirmed was sent. Such a byte can be sent up to a minute after the
/// other side was heard last, so the end may come about two minutes after that.
fn keep_alive(stream: &TcpStream) {
    let socket = stream.as_raw_fd();
    set_option(socket, net::SOL_SOCKET, net::SO_KEEPALIVE, 1);
    set_option(socket, net::IPPROTO_TCP, TCP_KEEPIDLE, PROBE_AFTER_SECONDS);
    set_option(socket, net::IPPROTO_TCP, TCP_KEEPINTVL, PROBE_EACH_SECONDS);
    set_option(socket, net::IPPROTO_TCP, TCP_KEEPCNT, MOST_PROBES);
    set_option(
        socket,
        net::IPPROTO_TCP,
        TCP_USER_TIMEOUT,
        MOST_UNCONFIRMED_MS,
    );
}

impl ListenSocket {
    /// Opens a listener at this address or path.
    pub(crate) fn open<R: Files + Net>(
        rt: &R,
        address: &ListenAddress,
    ) -> io::Result<ListenSocket> {
        match address {
            ListenAddress::Path(path) => Ok(ListenSocket::Unix(unix_listener(rt, path.as_str())?)),
            ListenAddress::Address(address) => {
                let listener = TcpListener::bind(rt, *address)?;
                Ok(ListenSocket::Tcp(listener))
            }
        }
    }

    /// Accepts the next connection. Fails with `WouldBlock` if no connection waits.
    pub(crate) fn accept(&self) -> io::Result<Stream> {
        match self {
            ListenSocket::Unix(listener) => Ok(Stream::Unix(listener.accept()?.0)),
            ListenSocket::Tcp(listener) => {
                let (stream, _) = listener.accept()?;
                // Without it an answer may come some milliseconds late, and nothing else changes.
                let _ = stream.set_nodelay(true);
                keep_alive(&stream);
                Ok(Stream::Tcp(stream))
            }
        }
    }

    /// Registers the socket with the poll, under this token: the poll tells when a connection waits.
    pub(crate) fn register(&mut self, registry: &Registry, token: usize) -> io::Result<()> {
        let (token, interest) = (Token(token), Interest::READABLE);
        match self {
            ListenSocket::Unix(listener) => registry.register(listener, token, interest),
            ListenSocket::Tcp(listener) => registry.register(listener, token, interest),
        }
    }
}

impl Stream {
    /// Registers the socket with the poll, under this token: the poll tells when it can be read or written.
    pub(crate) fn register(&mut self, registry: &Registry, token: usize) -> io::Result<()> {
        let (token, interest) = (Token(token), Interest::READABLE | Interest::WRITABLE);
        match self {
            Stream::Unix(stream) => registry.register(stream, token, interest),
            Stream::Tcp(stream) => registry.register(stream, token, interest),
        }
    }

    /// Reads what has come, and returns how many bytes. Fails with `WouldBlock` if nothing has come.
    pub(crate) fn read(&mut self, buffer: &mut [u8]) -> io::Result<usize> {
        match self {
            Stream::Unix(stream) => stream.read(buffer),
            Stream::Tcp(stream) => stream.read(buffer),
        }
    }

    /// Writes as much as the socket takes, and returns how many bytes. Fails with `WouldBlock` if it takes nothing now.
    pub(crate) fn write(&mut self, bytes: &[u8]) -> io::Result<usize> {
        match self {
            Stream::Unix(stream) => stream.write(bytes),
            Stream::Tcp(stream) => stream.write(bytes),
        }
    }
}
