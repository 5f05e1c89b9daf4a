//! Makes the turns of a screen: its station observes, and then its web server has a turn.
//!
//! `screen` makes the [`ScreenServer`] and calls [`ScreenServer::serve`]. specs/Turning says that as many turns are
//! made as are asked for, and specs/Looking what a turn does to the station and the picture: the web server changes
//! neither.

ghost use Rattle.std.specs.Prelude.{◌≡◌, ◌<◌, false, Some};
ghost use Rattle.smi_node.specs.Carried.{StepsTo};
ghost use Rattle.smi_node.specs.Linked.{shown_by};
ghost use Rattle.smi_screen.specs.Looking.{Looks, view};
ghost use Rattle.smi_screen.specs.Ending.{after_faults, faults_after, has_stopped, time_at};
ghost use Rattle.smi_screen.specs.Turning.{LooksFor};

use crate::observer::{Observer, ReceiveOutcome};
use crate::poll_schedule::PollSchedule;
use crate::screen::Ended;
use crate::web_server::WebServer;
use smi_link::DatagramLink;
use smi_rows::Stable;
use smi_station::Station;
use smi_tree::Tree;
use smi_view::Picture;
use std::fs::Files;
use std::net::Net;
use std::sync::Wait;
use std::time::{Clock, Instant};

/// How many turns an endless screen makes in one call of `turns`. Such a call has to end, as the prover wants; the next
/// one goes on with all that the server has, so the number changes nothing.
const TURNS_AT_ONCE: u32 = 1_000_000;

/// How many turns in a row whose receives end in a fault of the link end the screen. docs/NUMBERS.md, "Lines on
/// standard error" (`link fault`), and specs/Ending name it.
const MOST_FAULTS: u32 = 100;

/// Returns how many turns in a row have ended in a fault of the link, after a turn whose receives ended so.
fn faults_after(faults: u32, came: ReceiveOutcome) -> u32
    ensures { result ≡ faults_after faults came }
{
    match came {
        ReceiveOutcome::Fault => faults.saturating_add(1),
        ReceiveOutcome::Something | ReceiveOutcome::Nothing => 0,
    }
}

/// Returns the time of a turn, if the one before was at `now` and this many milliseconds have passed since the start.
/// Time never goes back.
fn time_at(now: u64, passed: u128) -> u64
    ensures { result ≡ time_at now passed }
{
    match u64::try_from(passed) {
        Ok(passed) => now.max(passed),
        Err(_) => now,
    }
}

/// All that a screen has beside its station and its link.
#[derive(Drop)]
pub(crate) struct ScreenServer {
    /// The operator in whose name its station watches and asks.
    operator: u16,
    /// When it started, by the monotonic clock.
    start: Instant,
    /// How many turns in a row have ended in a fault of the link.
    faults: u32,
    /// When its station watches, asks and ticks.
    schedule: PollSchedule,
    /// The observer, whose time is how many milliseconds have passed since the start.
    observer: Observer,
    // In a box, because each function that drops a web server itself is expensive to prove.
    web_server: Box<WebServer>,
}

impl ScreenServer {
    /// Makes a server whose time starts at this moment, with its picture and its web server.
    pub(crate) fn new(
        operator: u16,
        start: Instant,
        schedule: PollSchedule,
        picture: Picture,
        web_server: Box<WebServer>,
    ) -> ScreenServer
        ensures operator { result.operator ≡ operator }
    {
        ScreenServer {
            operator,
            start,
            faults: 0,
            schedule,
            observer: Observer::new(picture),
            web_server,
        }
    }

    /// Sets the observer's time by the clock. If the clock can't be read, the time stays.
    fn tell_time<C: Clock>(&mut self, clock: &C)
        ensures picture { self.new.observer.picture ≡ self.old.observer.picture }
        ensures operator { self.new.operator ≡ self.old.operator }
    {
        if let Ok(passed) = self.start.elapsed(clock) {
            self.observer.now = time_at(self.observer.now, passed.as_millis());
        }
    }

    /// Counts the turns in a row that ended in a fault of the link. Fails if they are too many.
    fn count(&mut self, came: ReceiveOutcome) -> Result<(), Ended>
        ensures picture { self.new.observer.picture ≡ self.old.observer.picture }
        ensures operator { self.new.operator ≡ self.old.operator }
        ensures goes_on { has_stopped result ≡ false }
        ensures faults { self.new.faults ≡ faults_after self.old.faults came }
        ensures ends { result ≡ after_faults (faults_after self.old.faults came) }
    {
        self.faults = faults_after(self.faults, came);
        if self.faults >= MOST_FAULTS {
            return Err(Ended::Link);
        }
        Ok(())
    }

    /// Has the station observe, in the name of its operator. Returns how its receives ended. Fails if the station has
    /// stopped.
    fn look<S: Stable, L: DatagramLink>(
        &mut self,
        station: &mut Station<'_, S>,
        link: &mut L,
    ) -> Result<ReceiveOutcome, Ended>
        ensures looks { Looks (StepsTo S.is_honest S.is_open S.rows S.may_find S.saves S.failures S.doubts)
            self.old.operator
            (view station.old (shown_by L.received L.handed L.failures L.receives link.old) self.old.observer.picture)
            (view station.new (shown_by L.received L.handed L.failures L.receives link.new) self.new.observer.picture)
            (has_stopped result) }
        ensures asks { L.receives link.old < L.receives link.new }
        ensures operator { self.new.operator ≡ self.old.operator }
    {
        let operator = self.operator;
        match self
            .observer
            .poll(station, operator, &mut self.schedule, link)
        {
            Ok(came) => Ok(came),
            Err(_) => Err(Ended::Stopped),
        }
    }

    /// Does what follows if the station has observed: gives the web server its turn, and counts the link's faults.
    /// Fails if these are too many.
    fn go_on<R: Net + Clock + Files>(
        &mut self,
        rt: &R,
        tree: &Tree,
        came: ReceiveOutcome,
    ) -> Result<(), Ended>
        ensures picture { self.new.observer.picture ≡ self.old.observer.picture }
        ensures operator { self.new.operator ≡ self.old.operator }
        ensures goes_on { has_stopped result ≡ false }
    {
        self.web_server
            .turn(rt, tree, &self.observer.picture, self.observer.now);
        self.count(came)
    }

    /// Does what follows the station's observing, or nothing if the station has stopped. It leaves the picture, and
    /// does not stop the station.
    fn follow<R: Net + Clock + Files>(
        &mut self,
        rt: &R,
        tree: &Tree,
        looked: Result<ReceiveOutcome, Ended>,
    ) -> Result<(), Ended>
        ensures picture { self.new.observer.picture ≡ self.old.observer.picture }
        ensures operator { self.new.operator ≡ self.old.operator }
        ensures stopped { has_stopped result ≡ has_stopped looked }
    {
        match looked {
            Ok(came) => self.go_on(rt, tree, came),
            Err(ended) => Err(ended),
        }
    }

    /// Makes one turn: the station observes, and then the web server has its turn, of which the station is told
    /// nothing. Returns the fault that ends the screen, if any.
    fn turn<S: Stable, L: DatagramLink, R: Net + Clock + Files>(
        &mut self,
        rt: &R,
        tree: &Tree,
        station: &mut Station<'_, S>,
        link: &mut L,
    ) -> Result<(), Ended>
        ensures looks { Looks (StepsTo S.is_honest S.is_open S.rows S.may_find S.saves S.failures S.doubts)
            self.old.operator
            (view station.old (shown_by L.received L.handed L.failures L.receives link.old) self.old.observer.picture)
            (view station.new (shown_by L.received L.handed L.failures L.receives link.new) self.new.observer.picture)
            (has_stopped result) }
        ensures asks { L.receives link.old < L.receives link.new }
        ensures operator { self.new.operator ≡ self.old.operator }
    {
        self.tell_time(rt);
        let looked = self.look(station, link);
        self.web_server.note_foreign(link.foreign());
        self.follow(rt, tree, looked)
    }

    /// Makes this many turns, or fewer if a fault ends them. Returns the fault, if any.
    fn turns<S: Stable, L: DatagramLink, R: Net + Clock + Files>(
        &mut self,
        rt: &R,
        tree: &Tree,
        station: &mut Station<'_, S>,
        link: &mut L,
        turns: u32,
    ) -> Result<(), Ended>
        ensures looks { Looks (StepsTo S.is_honest S.is_open S.rows S.may_find S.saves S.failures S.doubts)
            self.old.operator
            (view station.old (shown_by L.received L.handed L.failures L.receives link.old) self.old.observer.picture)
            (view station.new (shown_by L.received L.handed L.failures L.receives link.new) self.new.observer.picture)
            (has_stopped result) }
        ensures turns { LooksFor (StepsTo S.is_honest S.is_open S.rows S.may_find S.saves S.failures S.doubts)
            self.old.operator (Some turns)
            (view station.old (shown_by L.received L.handed L.failures L.receives link.old) self.old.observer.picture)
            (view station.new (shown_by L.received L.handed L.failures L.receives link.new) self.new.observer.picture)
            result }
        ensures operator { self.new.operator ≡ self.old.operator }
    {
        for _ in 0..turns {
            match self.turn(rt, tree, station, link) {
                Ok(()) => {}
                Err(ended) => return Err(ended),
            }
        }
        Ok(())
    }

    /// Makes this many turns, or turns without end. Returns the fault that ended them, if any. They do nothing to the
    /// station but have it observe.
    pub(crate) fn serve<S: Stable, L: DatagramLink, R: Net + Wait + Clock + Files>(
        &mut self,
        rt: &R,
        tree: &Tree,
        station: &mut Station<'_, S>,
        link: &mut L,
        turns: Option<u32>,
    ) -> Result<(), Ended>
        ensures looks { Looks (StepsTo S.is_honest S.is_open S.rows S.may_find S.saves S.failures S.doubts)
            self.old.operator
            (view station.old (shown_by L.received L.handed L.failures L.receives link.old) self.old.observer.picture)
            (view station.new (shown_by L.received L.handed L.failures L.receives link.new) self.new.observer.picture)
            (has_stopped result) }
        ensures turns { LooksFor (StepsTo S.is_honest S.is_open S.rows S.may_find S.saves S.failures S.doubts)
            self.old.operator turns
            (view station.old (shown_by L.received L.handed L.failures L.receives link.old) self.old.observer.picture)
            (view station.new (shown_by L.received L.handed L.failures L.receives link.new) self.new.observer.picture)
            result }
    {
        let Some(turns) = turns else {
            for _ in rt.forever() {
                match self.turns(rt, tree, station, link, TURNS_AT_ONCE) {
                    Ok(()) => {}
                    Err(ended) => return Err(ended),
                }
            }
            // The loop above never ends by itself.
            unreachable!()
        };
        self.turns(rt, tree, station, link, turns)
    }
}
