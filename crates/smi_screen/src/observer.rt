//! Observes a detector with a station: receives, watches every object, asks about every domain, and notes all in a
//! picture.
//!
//! `server` calls [`Observer::poll`] once a turn, and does nothing else to the station of a screen. specs/Looking says
//! what a turn may do (`Looks`). What is noted of a step is in `picture_update`.

ghost use Rattle.std.specs.Prelude.{◌≡◌};
ghost use Rattle.smi_screen.specs.Carrying.{NotesSo};
ghost use Rattle.smi_screen.specs.Looking.{has_stopped};
ghost use Rattle.smi_screen.specs.Noting.{is_taken};

use crate::picture_update::{record_datagram, record_handed};
use crate::poll_schedule::PollSchedule;
use smi_link::{DatagramLink, Reception};
use smi_node::{is_stopped_by, step_and_send};
use smi_protocol::{Event, Heard, Order, StepFault};
use smi_rows::Stable;
use smi_station::Station;
use smi_station_output::Out;
use smi_view::Picture;
use thiserror::Error;

/// The most datagrams that are received in one turn, so that connections get their turn. What is left over waits in the
/// socket.
const MOST_HEARD: u32 = 16;

/// The most objects that are watched in one turn. Each is an order of the station, which sends a datagram, so a large
/// tree takes some turns at the start.
const MOST_WATCHED: u32 = 16;

/// The station has stopped: its last event had no effect, and no later one can have any.
#[derive(Clone, Copy, Debug, PartialEq, Eq, Error)]
#[error("the station has stopped")]
pub struct Stopped;

/// How the receives of a turn ended.
#[derive(Clone, Copy, PartialEq, Eq)]
pub enum ReceiveOutcome {
    /// The last receive found a datagram, so there may be more.
    Something,
    /// The last receive found nothing.
    Nothing,
    /// The last receive was a fault of the link.
    Fault,
}

/// What an observer has beside its station and its link.
#[derive(Drop)]
pub struct Observer {
    /// What the last step handed out.
    pub out: Out,
    /// What was seen so far.
    pub picture: Picture,
    /// The time of the turn, in milliseconds since the start of the screen. What is seen in the turn is noted with it.
    pub now: u64,
}

/// Returns true if a station took an event and did not refuse it.
fn is_taken(made: &Result<Heard, StepFault>) -> bool
    ensures { result ≡ is_taken made.now }
{
    match made {
        Ok(Heard::Same) => true,
        Ok(Heard::Done) => true,
        _ => false,
    }
}

/// Notes the record in a datagram, if the station took it.
fn record_taken(picture: &mut Picture, bytes: &[u8], is_taken: bool, now: u64)
    ensures { NotesSo is_taken bytes.now now picture.old picture.new }
{
    if is_taken {
        record_datagram(picture, bytes, now);
    }
}

/// Turns the result of a delivery into that of its receive: a datagram came, or the station has stopped.
fn something(delivered: Result<(), Stopped>) -> Result<ReceiveOutcome, Stopped>
    ensures { has_stopped result ≡ has_stopped delivered }
{
    match delivered {
        Ok(()) => Ok(ReceiveOutcome::Something),
        Err(stopped) => Err(stopped),
    }
}

impl Observer {
    ghost use Rattle.std.specs.Prelude.{◌≡◌, ◌<◌};
    ghost use Rattle.smi_node.specs.Carried.{StepsTo};
    ghost use Rattle.smi_node.specs.Linked.{shown_by};
    ghost use Rattle.smi_view.specs.Keeping.{KeepsUp};
    ghost use Rattle.smi_screen.specs.Carrying.{CarriesSo};
    ghost use Rattle.smi_screen.specs.Looking.{Carried, Delivers, Looks, has_stopped, view};

    /// Makes an observer that has seen no more than this picture.
    pub fn new(picture: Picture) -> Observer
        ensures { result.picture ≡ picture }
    {
        Observer {
            out: Out::new(),
            picture,
            now: 0,
        }
    }

    /// Carries an event to a station, and does what follows from its step. Returns what the step answered.
    ///
    /// It sends the datagrams of the step, each to its receiver; one that the link does not take is lost. It notes what
    /// the step showed and answered in the picture, at the time of the turn. A step that was not made, because memory
    /// or the store failed, is as if the event had been lost.
    ///
    /// Fails with `Stopped` exactly if the step answered that the station has stopped. Then nothing is sent or noted.
    fn carry<S: Stable, L: DatagramLink>(
        &mut self,
        station: &mut Station<'_, S>,
        event: Event<'_>,
        link: &mut L,
    ) -> Result<Result<Heard, StepFault>, Stopped>
        ensures { CarriesSo (StepsTo S.is_honest S.is_open S.rows S.may_find S.saves S.failures S.doubts) event.entry
            self.old.now
            (view station.old (shown_by L.received L.handed L.failures L.receives link.old) self.old.picture)
            (view station.new (shown_by L.received L.handed L.failures L.receives link.new) self.new.picture) result }
    {
        let made = step_and_send(station, event, &mut self.out, link, None);
        if is_stopped_by(&made) {
            return Err(Stopped);
        }
        record_handed(&mut self.picture, &self.out, self.now);
        Ok(made)
    }

    /// Carries a datagram that has come, and notes the record in it if the station took it.
    fn deliver<S: Stable, L: DatagramLink>(
        &mut self,
        station: &mut Station<'_, S>,
        bytes: &[u8],
        link: &mut L,
    ) -> Result<(), Stopped>
        ensures { Delivers (StepsTo S.is_honest S.is_open S.rows S.may_find S.saves S.failures S.doubts) bytes.now
            self.old.now
            (view station.old (shown_by L.received L.handed L.failures L.receives link.old) self.old.picture)
            (view station.new (shown_by L.received L.handed L.failures L.receives link.new) self.new.picture)
            (has_stopped result) }
    {
        let now = self.now;
        match self.carry(station, Event::Datagram(bytes), link) {
            Ok(made) => {
                record_taken(&mut self.picture, bytes, is_taken(&made), now);
                Ok(())
            }
            Err(stopped) => Err(stopped),
        }
    }

    /// Asks the link once, and carries the datagram that comes, if any. Returns what came.
    fn hear<S: Stable, L: DatagramLink>(
        &mut self,
        station: &mut Station<'_, S>,
        operator: u16,
        link: &mut L,
    ) -> Result<ReceiveOutcome, Stopped>
        ensures looks { Looks (StepsTo S.is_honest S.is_open S.rows S.may_find S.saves S.failures S.doubts) operator
            (view station.old (shown_by L.received L.handed L.failures L.receives link.old) self.old.picture)
            (view station.new (shown_by L.received L.handed L.failures L.receives link.new) self.new.picture)
            (has_stopped result) }
        ensures asks { L.receives link.old < L.receives link.new }
    {
        // A datagram has 44 bytes. One byte more shows that a longer one is none.
        let mut buffer = [0u8; 45];
        match link.receive(&mut buffer) {
            Reception::Received(count) => {
                let delivered = self.deliver(station, &buffer[..count], link);
                something(delivered)
            }
            Reception::Nothing => Ok(ReceiveOutcome::Nothing),
            Reception::Fault => Ok(ReceiveOutcome::Fault),
        }
    }

    /// Carries what has come after the first datagram of a turn, up to `MOST_HEARD` with that one. Returns what came at
    /// last.
    fn hear_more<S: Stable, L: DatagramLink>(
        &mut self,
        station: &mut Station<'_, S>,
        operator: u16,
        link: &mut L,
    ) -> Result<ReceiveOutcome, Stopped>
        ensures { Looks (StepsTo S.is_honest S.is_open S.rows S.may_find S.saves S.failures S.doubts) operator
            (view station.old (shown_by L.received L.handed L.failures L.receives link.old) self.old.picture)
            (view station.new (shown_by L.received L.handed L.failures L.receives link.new) self.new.picture)
            (has_stopped result) }
    {
        for _ in 1..MOST_HEARD {
            match self.hear(station, operator, link) {
                Ok(came) => {
                    if came != ReceiveOutcome::Something {
                        return Ok(came);
                    }
                }
                Err(stopped) => return Err(stopped),
            }
        }
        Ok(ReceiveOutcome::Something)
    }

    /// Carries what has come, `MOST_HEARD` datagrams at most. The link is asked at least once. Returns what came at
    /// last.
    fn hear_all<S: Stable, L: DatagramLink>(
        &mut self,
        station: &mut Station<'_, S>,
        operator: u16,
        link: &mut L,
    ) -> Result<ReceiveOutcome, Stopped>
        ensures looks { Looks (StepsTo S.is_honest S.is_open S.rows S.may_find S.saves S.failures S.doubts) operator
            (view station.old (shown_by L.received L.handed L.failures L.receives link.old) self.old.picture)
            (view station.new (shown_by L.received L.handed L.failures L.receives link.new) self.new.picture)
            (has_stopped result) }
        ensures asks { L.receives link.old < L.receives link.new }
    {
        match self.hear(station, operator, link) {
            Ok(came) => {
                if came == ReceiveOutcome::Something {
                    self.hear_more(station, operator, link)
                } else {
                    Ok(came)
                }
            }
            Err(stopped) => Err(stopped),
        }
    }

    /// Carries an event, and ignores what its step answers, unless the station has stopped: an observer asks again
    /// anyway.
    fn carry_whatever<S: Stable, L: DatagramLink>(
        &mut self,
        station: &mut Station<'_, S>,
        event: Event<'_>,
        link: &mut L,
    ) -> Result<(), Stopped>
        ensures { Carried (StepsTo S.is_honest S.is_open S.rows S.may_find S.saves S.failures S.doubts) event.entry
            self.old.now
            (view station.old (shown_by L.received L.handed L.failures L.receives link.old) self.old.picture)
            (view station.new (shown_by L.received L.handed L.failures L.receives link.new) self.new.picture)
            (has_stopped result) }
    {
        match self.carry(station, event, link) {
            Ok(_made) => Ok(()),
            Err(stopped) => Err(stopped),
        }
    }

    /// Watches an object, if one is to be watched: orders that of the station, in the name of the operator.
    fn watch<S: Stable, L: DatagramLink>(
        &mut self,
        station: &mut Station<'_, S>,
        operator: u16,
        object: Option<u16>,
        link: &mut L,
    ) -> Result<(), Stopped>
        ensures { Looks (StepsTo S.is_honest S.is_open S.rows S.may_find S.saves S.failures S.doubts) operator
            (view station.old (shown_by L.received L.handed L.failures L.receives link.old) self.old.picture)
            (view station.new (shown_by L.received L.handed L.failures L.receives link.new) self.new.picture)
            (has_stopped result) }
    {
        let Some(object) = object else {
            return Ok(());
        };
        let event = Event::Order(operator, Order::Watch(object));
        self.carry_whatever(station, event, link)
    }

    /// Asks about a domain: orders that of the station, in the name of the operator.
    fn ask<S: Stable, L: DatagramLink>(
        &mut self,
        station: &mut Station<'_, S>,
        operator: u16,
        domain: u16,
        link: &mut L,
    ) -> Result<(), Stopped>
        ensures { Looks (StepsTo S.is_honest S.is_open S.rows S.may_find S.saves S.failures S.doubts) operator
            (view station.old (shown_by L.received L.handed L.failures L.receives link.old) self.old.picture)
            (view station.new (shown_by L.received L.handed L.failures L.receives link.new) self.new.picture)
            (has_stopped result) }
    {
        let event = Event::Order(operator, Order::Ask(domain));
        self.carry_whatever(station, event, link)
    }

    /// Lets the station send again what is due, if it is time.
    fn tick<S: Stable, L: DatagramLink>(
        &mut self,
        station: &mut Station<'_, S>,
        operator: u16,
        is_time: bool,
        link: &mut L,
    ) -> Result<(), Stopped>
        ensures { Looks (StepsTo S.is_honest S.is_open S.rows S.may_find S.saves S.failures S.doubts) operator
            (view station.old (shown_by L.received L.handed L.failures L.receives link.old) self.old.picture)
            (view station.new (shown_by L.received L.handed L.failures L.receives link.new) self.new.picture)
            (has_stopped result) }
    {
        if is_time {
            self.carry_whatever(station, Event::Tick, link)
        } else {
            Ok(())
        }
    }

    /// Watches the next objects, `MOST_WATCHED` at most.
    fn watch_next<S: Stable, L: DatagramLink>(
        &mut self,
        station: &mut Station<'_, S>,
        operator: u16,
        schedule: &mut PollSchedule,
        link: &mut L,
    ) -> Result<(), Stopped>
        ensures { Looks (StepsTo S.is_honest S.is_open S.rows S.may_find S.saves S.failures S.doubts) operator
            (view station.old (shown_by L.received L.handed L.failures L.receives link.old) self.old.picture)
            (view station.new (shown_by L.received L.handed L.failures L.receives link.new) self.new.picture)
            (has_stopped result) }
    {
        for _ in 0..MOST_WATCHED {
            match self.watch(station, operator, schedule.next_watch(), link) {
                Ok(()) => {}
                Err(stopped) => return Err(stopped),
            }
        }
        Ok(())
    }

    /// Asks about the next domains, if it is time for a round of questions.
    fn ask_next<S: Stable, L: DatagramLink>(
        &mut self,
        station: &mut Station<'_, S>,
        operator: u16,
        schedule: &mut PollSchedule,
        link: &mut L,
    ) -> Result<(), Stopped>
        ensures { Looks (StepsTo S.is_honest S.is_open S.rows S.may_find S.saves S.failures S.doubts) operator
            (view station.old (shown_by L.received L.handed L.failures L.receives link.old) self.old.picture)
            (view station.new (shown_by L.received L.handed L.failures L.receives link.new) self.new.picture)
            (has_stopped result) }
    {
        for _ in 0..schedule.questions(self.now) {
            let domain = schedule.next_domain();
            match self.ask(station, operator, domain, link) {
                Ok(()) => {}
                Err(stopped) => return Err(stopped),
            }
        }
        Ok(())
    }

    /// Does what an observer does in a turn beside its receives: watches, asks, and lets its station send again.
    fn act<S: Stable, L: DatagramLink>(
        &mut self,
        station: &mut Station<'_, S>,
        operator: u16,
        schedule: &mut PollSchedule,
        link: &mut L,
    ) -> Result<(), Stopped>
        ensures { Looks (StepsTo S.is_honest S.is_open S.rows S.may_find S.saves S.failures S.doubts) operator
            (view station.old (shown_by L.received L.handed L.failures L.receives link.old) self.old.picture)
            (view station.new (shown_by L.received L.handed L.failures L.receives link.new) self.new.picture)
            (has_stopped result) }
    {
        match self.watch_next(station, operator, schedule, link) {
            Ok(()) => match self.ask_next(station, operator, schedule, link) {
                Ok(()) => {
                    let is_time = schedule.is_tick(self.now);
                    self.tick(station, operator, is_time, link)
                }
                Err(stopped) => Err(stopped),
            },
            Err(stopped) => Err(stopped),
        }
    }

    /// Carries what has come, and then watches, asks and ticks. Returns what came at last.
    fn hear_and_act<S: Stable, L: DatagramLink>(
        &mut self,
        station: &mut Station<'_, S>,
        operator: u16,
        schedule: &mut PollSchedule,
        link: &mut L,
    ) -> Result<ReceiveOutcome, Stopped>
        ensures looks { Looks (StepsTo S.is_honest S.is_open S.rows S.may_find S.saves S.failures S.doubts) operator
            (view station.old (shown_by L.received L.handed L.failures L.receives link.old) self.old.picture)
            (view station.new (shown_by L.received L.handed L.failures L.receives link.new) self.new.picture)
            (has_stopped result) }
        ensures asks { L.receives link.old < L.receives link.new }
    {
        match self.hear_all(station, operator, link) {
            Ok(came) => match self.act(station, operator, schedule, link) {
                Ok(()) => Ok(came),
                Err(stopped) => Err(stopped),
            },
            Err(stopped) => Err(stopped),
        }
    }

    /// Makes a turn of an observer, in the name of an operator of its station. It carries what has come over the link,
    /// sixteen datagrams at most. Then it watches the next objects, asks about the next domains, and makes a tick, each
    /// if it is time. Returns what came at last.
    ///
    /// It asks the link at least once and waits for it alone. It ends early only if the station has stopped, which is
    /// its error. Nothing in the picture goes back. No clause names `schedule`: it has a clock, and its own clauses say
    /// what is due at a time.
    pub fn poll<S: Stable, L: DatagramLink>(
        &mut self,
        station: &mut Station<'_, S>,
        operator: u16,
        schedule: &mut PollSchedule,
        link: &mut L,
    ) -> Result<ReceiveOutcome, Stopped>
        ensures looks { Looks (StepsTo S.is_honest S.is_open S.rows S.may_find S.saves S.failures S.doubts) operator
            (view station.old (shown_by L.received L.handed L.failures L.receives link.old) self.old.picture)
            (view station.new (shown_by L.received L.handed L.failures L.receives link.new) self.new.picture)
            (has_stopped result) }
        ensures asks { L.receives link.old < L.receives link.new }
        ensures keeps { KeepsUp self.old.picture self.new.picture }
    {
        self.hear_and_act(station, operator, schedule, link)
    }
}
