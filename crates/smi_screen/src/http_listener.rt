//! Accepts the connections of browsers, and gives each a turn, over sockets that never wait.
//!
//! `web_server` gives it a turn with the service that answers requests. `http_server` reads requests and writes
//! answers; a single connection is in `http_connection`. docs/FORMATS.md, "The screen", has the bounds of a request,
//! and docs/RUNNING.md, "The screen", says how many connections there are and how long they may stay.

use crate::http_connection::HttpConnection;
use http_server::{Config, Connection, Service};
use http1::Limits;
use std::alloc::{AllocError, Global};
use std::hash::RandomState;
use std::io;
use std::marker::Model;
use std::net::{Net, SocketAddr, TcpListener, TcpStream};

/// The most connections. If one more comes, the one with the earliest deadline is closed. docs/RUNNING.md, "The
/// screen", and `most_connections` of specs/HttpListener name the number.
pub const MOST_CONNECTIONS: usize = 256;

/// The most connections that are accepted in one turn. The others wait for the next turn, so that a flood of new ones
/// does not hold up the station.
const MOST_ACCEPTS: usize = 8;

/// The bounds of a request, in bytes: a head of 8 KiB and a body of 100, which is enough for an order.
/// docs/FORMATS.md, "The screen", names both. `max_pending` 0 means that nothing is read while an answer is not
/// written, so a client that reads nothing takes little memory. `read_size` is how many bytes are read at once.
const CONFIG: Config = Config {
    limits: Limits {
        max_head_len: 8_192,
        max_extensions_len: 64,
        max_trailers_len: 64,
    },
    max_body_len: 100,
    max_pending: 0,
    read_size: 2_048,
};

/// The listener of a screen and its connections.
///
/// Contracts see how many connections there are.
#[derive(Drop)]
pub struct HttpListener {
    alloc: Global,
    /// The keys of the tables of request headers.
    keys: RandomState,
    listener: TcpListener,
    /// The open connections, in no order.
    connections: Vec<HttpConnection<TcpStream>>,
}

impl Model for HttpListener {
    ghost use Rattle.std.specs.Prelude.{◌≤◌, vec_len};
    ghost use Rattle.smi_screen.specs.HttpListener.{ListenerState, most_connections};

    ghost Value = { ListenerState };

    ghost view = { λ g. record { connections = vec_len g.connections } };

    ghost invariant = { λ g. vec_len g.connections ≤ most_connections };
}

impl HttpListener {
    ghost use Rattle.std.specs.Prelude.{◌≡◌, ◌≤◌, ◌<◌, IfOk};
    ghost use Rattle.smi_screen.specs.HttpListener.{most_connections};

    /// Opens a listener at an address, without a connection. Fails if the address can't be had. Headers of requests are
    /// kept under these keys, so that nobody can choose names that are expensive to look up.
    ///
    /// No clause names `rt`, `alloc`, `keys` and `address`: no clause sees a socket. tests/screen_test.py connects to
    /// it.
    pub fn open<R: Net<Listener = TcpListener, Stream = TcpStream>>(
        rt: &R,
        alloc: Global,
        keys: RandomState,
        address: SocketAddr,
    ) -> io::Result<HttpListener>
        ensures { IfOk result (λ it. it.connections ≡ 0) }
    {
        let listener = TcpListener::bind(rt, address)?;
        listener.set_nonblocking(true)?;
        Ok(HttpListener {
            alloc,
            keys,
            listener,
            connections: Vec::new(alloc),
        })
    }

    /// Returns how many connections there are.
    pub fn connections(&self) -> usize
        ensures value { result ≡ self.now.connections }
        ensures most { result ≤ most_connections }
    {
        self.connections.len()
    }

    /// Returns the index of the connection with the earliest deadline.
    fn first_due(&self) -> usize
        requires { 0 < self.now.connections }
        ensures { result < self.now.connections }
    {
        let mut first = 0;
        for place in 0..self.connections.len() {
            if self.connections[place].until() < self.connections[first].until() {
                first = place;
            }
        }
        first
    }

    /// Makes room for one more connection: if there are `MOST_CONNECTIONS`, closes the one with the earliest deadline.
    fn make_room(&mut self)
        ensures { self.new.connections < most_connections }
    {
        if self.connections.len() == MOST_CONNECTIONS {
            let place = self.first_due();
            self.connections
                .as_mut_slice()
                .swap(place, MOST_CONNECTIONS - 1);
            self.connections.truncate(MOST_CONNECTIONS - 1);
        }
    }

    /// Adds a new connection. Closes it at once if its socket can't be set to never wait.
    ///
    /// Fails if memory was refused: then the connection is closed too.
    fn add_connection(&mut self, stream: TcpStream, now: u64) -> Result<(), AllocError> {
        if stream.set_nonblocking(true).is_err() {
            return Ok(());
        }
        // Without it an answer may come some milliseconds late, and nothing else changes.
        let _ = stream.set_nodelay(true);
        self.make_room();
        let protocol = Connection::new(self.alloc, self.keys, CONFIG);
        self.connections
            .push(HttpConnection::new(stream, protocol, now))?;
        Ok(())
    }

    /// Accepts the connections that wait, `MOST_ACCEPTS` at most.
    fn accept_waiting(&mut self, now: u64) {
        for _ in 0..MOST_ACCEPTS {
            match self.listener.accept() {
                Ok((stream, _)) => {
                    // If memory is refused, this connection is closed, and the others go on.
                    let _ = self.add_connection(stream, now);
                }
                // No connection waits, or none can be accepted now: the next turn tries again.
                Err(_) => return,
            }
        }
    }

    /// Makes one turn: accepts connections that wait, gives each connection a turn of its own, and closes those
    /// that are done.
    ///
    /// It has no clause: no clause sees a socket. tests/hostile_http_test.py and tests/guests.py connect to it.
    pub fn turn<S: Service>(&mut self, service: &mut S, now: u64) {
        self.accept_waiting(now);
        for connection in self.connections.iter_mut() {
            connection.turn(service, now);
        }
        self.connections
            .retain(|connection| !connection.should_close());
    }
}
