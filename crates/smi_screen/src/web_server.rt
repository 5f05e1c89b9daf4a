//! Makes the turns of a screen's web server: relays orders, notes the history, makes snapshots, and serves connections.
//!
//! `server` gives it a turn after each of the station's, with the picture and the time. It never waits and never
//! changes the picture. What a request is answered is in `smi_web` (docs/FORMATS.md, "The screen").

use crate::console::NodeConsole;
use crate::history_file::HistoryFile;
use crate::http_listener::HttpListener;
use smi_history::LookTime;
use smi_tree::Tree;
use smi_view::Picture;
use smi_web::{ScreenFigures, WebService};
use std::alloc::Global;
use std::fs::Files;
use std::net::Net;
use std::time::{Clock, SystemTime, UNIX_EPOCH};

/// How many milliseconds lie between two snapshots of the picture, and between two saves of the history: so both are
/// made five times a second. Pages see a change as late as this.
const SNAPSHOT_PERIOD: u64 = 200;

/// The HTTP server of a screen: all that it has beside its station, its link and its picture.
#[derive(Drop)]
pub(crate) struct WebServer {
    alloc: Global,
    /// When the last snapshot was made, in milliseconds since the start.
    made_at: u64,
    /// How many snapshots were made.
    made: u64,
    /// How many datagrams the screen's station received from foreign sources (`--sources`).
    foreign: u64,
    /// What requests are answered from.
    service: WebService,
    /// The socket and the connections of browsers.
    listener: HttpListener,
    /// The connection with the console that orders go to. None if the page may give none.
    console: Option<NodeConsole>,
    /// The file of the history. None if the history ends with the screen.
    history_file: Option<HistoryFile>,
}

/// Returns the milliseconds since 1970, or 0 if the system's clock can't be read.
pub(crate) fn clock_time<C: Clock>(clock: &C) -> u64 {
    let Ok(time) = SystemTime::now(clock) else {
        return 0;
    };
    match time.duration_since(UNIX_EPOCH) {
        Ok(since) => u64::try_from(since.as_millis()).unwrap_or(0),
        Err(_) => 0,
    }
}

impl WebServer {
    /// Makes a server of these parts. It makes its first snapshot `SNAPSHOT_PERIOD` after the start; until then it
    /// serves the one that the service has.
    pub(crate) fn new(
        alloc: Global,
        service: WebService,
        listener: HttpListener,
        console: Option<NodeConsole>,
        history_file: Option<HistoryFile>,
    ) -> WebServer {
        WebServer {
            alloc,
            made_at: 0,
            made: 0,
            foreign: 0,
            service,
            listener,
            console,
            history_file,
        }
    }

    /// Notes in the history what is new in the picture and of the orders. If memory is refused, some of it is noted
    /// nowhere.
    fn note_history<R: Clock>(&mut self, rt: &R, tree: &Tree, picture: &Picture, now: u64) {
        let moment = LookTime {
            now,
            clock: clock_time(rt),
        };
        // If memory is refused, the screen goes on without these entries.
        let _ = self.service.look(self.alloc, tree, picture, moment);
    }

    /// Saves what is new in the history, if it has a file.
    fn save_history<R: Files>(&mut self, rt: &R, now: u64) {
        if let Some(file) = &mut self.history_file {
            file.keep(rt, &mut self.service.history, now);
        }
    }

    /// Makes a new snapshot of the picture and saves the history, if it is time. If memory is refused, the snapshot
    /// before stays.
    fn make_snapshot<R: Files>(&mut self, rt: &R, tree: &Tree, picture: &Picture, now: u64) {
        if now.saturating_sub(self.made_at) < SNAPSHOT_PERIOD {
            return;
        }
        self.made_at = now;
        self.made = self.made.saturating_add(1);
        let figures = ScreenFigures {
            number: self.made,
            now,
            foreign: self.foreign,
        };
        // If memory is refused, browsers get the older texts, and the next snapshot is tried in its time.
        let _ = self
            .service
            .snapshot
            .renew(self.alloc, tree, picture, figures);
        let _ = self.service.renew_orders(self.alloc);
        self.save_history(rt, now);
    }

    /// Sets how many datagrams have come from foreign sources, for the next snapshot.
    pub(crate) fn note_foreign(&mut self, foreign: u64) {
        self.foreign = foreign;
    }

    /// Sends the orders that wait to their console, and receives what it says, if the page may give orders.
    fn relay_orders<R: Net>(&mut self, rt: &R, now: u64) {
        if let (Some(console), Some(orders)) = (&mut self.console, &mut self.service.orders) {
            orders.time = now;
            console.turn(rt, &mut orders.relay, now);
        }
    }

    /// Makes one turn, at this many milliseconds after the start: relays orders, notes what is new, makes a snapshot if
    /// it is time, and serves the connections.
    pub(crate) fn turn<R: Net + Clock + Files>(
        &mut self,
        rt: &R,
        tree: &Tree,
        picture: &Picture,
        now: u64,
    ) {
        self.relay_orders(rt, now);
        self.note_history(rt, tree, picture, now);
        self.make_snapshot(rt, tree, picture, now);
        self.listener.turn(&mut self.service, now);
    }
}
