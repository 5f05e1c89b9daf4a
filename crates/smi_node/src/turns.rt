//! The turns of a node: what comes over the link, and what the seats give.

ghost use Rattle.std.specs.Prelude.{◌≡◌, ◌<◌, IfOk, Result, Ok, Err, false};
ghost use Rattle.smi_station.specs.Readers.{operators_in};
ghost use Rattle.smi_node.specs.Carried.{StepsTo, edges, fault_in, node};
ghost use Rattle.smi_node.specs.Linked.{shown_by};
ghost use Rattle.smi_node.specs.Observed.{nothing_seen};
ghost use Rattle.smi_node.specs.Rising.{StaysRisen, shown_to};
ghost use Rattle.smi_node.specs.Served.{Serves, carrying, event_of, most_faults, operator_of_seat};
ghost use Rattle.smi_node.specs.Turning.{ended_by, in_a_row};

use crate::answers::tell_newest;
use crate::event::{NoObserver, StepObserver};
use crate::node::{CarryFault, Node, NodeInput};
use crate::stats::NodeStats;
use smi_link::{DatagramLink, Reception};
use smi_operator::Desk;
use smi_protocol::{Event, Order, OrderCode};
use smi_rows::Stable;
use smi_station::Station;
use smi_station_output::Out;
use smi_view::{Board, BoardId};
use std::sync::Wait;
use thiserror::Error;

/// Why a node ended before its turns did.
#[derive(Clone, Copy, Debug, PartialEq, Eq, Error)]
pub enum ServeFault {
    /// The station has stopped.
    #[error("the station has stopped")]
    Stopped,
    /// Memory was refused to the board.
    #[error("out of memory")]
    Memory,
    /// The link failed to receive a hundred times in a row.
    #[error("the link failed a hundred times in a row")]
    Link,
}

/// The number of faults in a row that end the service.
const MOST_FAULTS: u32 = 100;

/// A seat, and the operator whose seat it is, if it is one's.
#[derive(Clone, Copy)]
struct ServedSeat {
    seat: usize,
    who: Option<u16>,
}

/// Returns the operator of a seat: the last seat is nobody's.
fn operator_of_seat(operators: &[u16], seats: usize, seat: usize) -> Option<u16>
    requires { seat < seats }
    ensures { result ≡ operator_of_seat operators.now seats seat }
{
    if seat + 1 == seats {
        None
    } else {
        operators.get(seat).copied()
    }
}

/// Returns the event that an order is, if it may be given.
fn event_of(who: Option<u16>, order: Order) -> Option<Event<'static>>
    ensures { result ≡ event_of who order }
{
    match (order, who) {
        (Order::Report(device, state), _) => Some(Event::Report(device, state)),
        (order, Some(operator)) => Some(Event::Order(operator, order)),
        (_, None) => None,
    }
}

/// Turns what a carry answered into what its turn answers: the link has not failed.
fn has_come(carried: Result<(), CarryFault>) -> Result<bool, CarryFault>
    ensures fault { fault_in result ≡ fault_in carried }
    ensures came { IfOk result (λ failed. failed ≡ false) }
{
    match carried {
        Ok(()) => Ok(false),
        Err(fault) => Err(fault),
    }
}

/// Counts how many turns in a row the link has failed.
fn in_a_row(faults: u32, failed: bool) -> u32
    requires { faults < most_faults }
    ensures { result ≡ in_a_row faults failed }
{
    if failed { faults + 1 } else { 0 }
}

/// Returns how the service ends by a fault of a carry.
fn ended_by(fault: CarryFault) -> ServeFault
    ensures { result ≡ ended_by fault }
{
    match fault {
        CarryFault::Stopped => ServeFault::Stopped,
        CarryFault::Memory => ServeFault::Memory,
    }
}

impl<S: Stable, J: BoardId> Node<'_, '_, '_, '_, S, J> {
    ghost use Rattle.std.specs.Prelude.{◌≡◌, ◌<◌};
    ghost use Rattle.smi_operator.specs.Sides.{seat_count};
    ghost use Rattle.smi_node.specs.Carried.{StepsTo, edges, fault_in, node};
    ghost use Rattle.smi_node.specs.Linked.{shown_by};
    ghost use Rattle.smi_node.specs.Rising.{StaysRisen, shown_to};
    ghost use Rattle.smi_node.specs.Served.{Obeys, Serves, ServesAll, ServesSeat, carrying, operator_of_seat};
    ghost use Rattle.smi_node.specs.Turning.{HearsSo, TurnsSo};

    /// Carries an order as its event, or tells it that it is not for this station.
    fn serve_order<L: DatagramLink, V: StepObserver, R: Wait>(
        &mut self,
        rt: &R,
        seat: usize,
        event: Option<Event<'_>>,
        link: &mut L,
        observer: &mut V,
    ) -> Result<(), CarryFault>
        ensures obeys { Obeys (carrying (StepsTo S.is_honest S.is_open S.rows S.may_find S.saves S.failures S.doubts)
            self.old.operators.now) seat event.entry
            (node self.old.station.now (edges (shown_by L.received L.handed L.failures L.receives link.old)
            self.old.desk.now self.old.board.now) (V.seen observer.old))
            (node self.new.station.now (edges (shown_by L.received L.handed L.failures L.receives link.new)
            self.new.desk.now self.new.board.now) (V.seen observer.new)) (fault_in result) }
        ensures station { self.new.station.ghost_name ≡ self.old.station.ghost_name }
        ensures desk { self.new.desk.ghost_name ≡ self.old.desk.ghost_name }
        ensures board { self.new.board.ghost_name ≡ self.old.board.ghost_name }
        ensures out { self.new.out.ghost_name ≡ self.old.out.ghost_name }
        ensures operators { self.new.operators.now ≡ self.old.operators.now }
    {
        match event {
            Some(event) => {
                let input = NodeInput {
                    event,
                    seat: Some(seat),
                };
                self.carry(rt, input, link, observer)
            }
            None => {
                tell_newest(self.desk, Some(seat), OrderCode::NotHere.code());
                Ok(())
            }
        }
    }

    /// Lets a seat give one order at most, which is obeyed at once.
    fn serve_seat<L: DatagramLink, V: StepObserver, R: Wait>(
        &mut self,
        rt: &R,
        served: ServedSeat,
        link: &mut L,
        observer: &mut V,
    ) -> Result<(), CarryFault>
        requires { served.seat < seat_count self.old.desk.now }
        ensures serves { ServesSeat (carrying
            (StepsTo S.is_honest S.is_open S.rows S.may_find S.saves S.failures S.doubts) self.old.operators.now)
            served.who served.seat
            (node self.old.station.now (edges (shown_by L.received L.handed L.failures L.receives link.old)
            self.old.desk.now self.old.board.now) (V.seen observer.old))
            (node self.new.station.now (edges (shown_by L.received L.handed L.failures L.receives link.new)
            self.new.desk.now self.new.board.now) (V.seen observer.new)) (fault_in result) }
        ensures station { self.new.station.ghost_name ≡ self.old.station.ghost_name }
        ensures desk { self.new.desk.ghost_name ≡ self.old.desk.ghost_name }
        ensures board { self.new.board.ghost_name ≡ self.old.board.ghost_name }
        ensures out { self.new.out.ghost_name ≡ self.old.out.ghost_name }
        ensures operators { self.new.operators.now ≡ self.old.operators.now }
    {
        let ServedSeat { seat, who } = served;
        match self.desk.next(seat) {
            Some(order) => self.serve_order(rt, seat, event_of(who, order), link, observer),
            None => Ok(()),
        }
    }

    /// Serves each seat, by number.
    fn serve_seats<L: DatagramLink, V: StepObserver, R: Wait>(
        &mut self,
        rt: &R,
        link: &mut L,
        observer: &mut V,
    ) -> Result<(), CarryFault>
        ensures serves { ServesAll (carrying
            (StepsTo S.is_honest S.is_open S.rows S.may_find S.saves S.failures S.doubts) self.old.operators.now)
            self.old.operators.now (seat_count self.old.desk.now)
            (node self.old.station.now (edges (shown_by L.received L.handed L.failures L.receives link.old)
            self.old.desk.now self.old.board.now) (V.seen observer.old))
            (node self.new.station.now (edges (shown_by L.received L.handed L.failures L.receives link.new)
            self.new.desk.now self.new.board.now) (V.seen observer.new)) (fault_in result) }
        ensures station { self.new.station.ghost_name ≡ self.old.station.ghost_name }
        ensures desk { self.new.desk.ghost_name ≡ self.old.desk.ghost_name }
        ensures board { self.new.board.ghost_name ≡ self.old.board.ghost_name }
        ensures out { self.new.out.ghost_name ≡ self.old.out.ghost_name }
        ensures operators { self.new.operators.now ≡ self.old.operators.now }
    {
        let operators = self.operators;
        let seats = self.desk.seat_count();
        for seat in 0..seats {
            let who = operator_of_seat(operators, seats, seat);
            match self.serve_seat(rt, ServedSeat { seat, who }, link, observer) {
                Ok(()) => {}
                Err(fault) => return Err(fault),
            }
        }
        Ok(())
    }

    /// Carries what comes over the link: a datagram as its delivery, nothing as a tick.
    ///
    /// Returns true if the link failed.
    fn hear<L: DatagramLink, V: StepObserver, R: Wait>(
        &mut self,
        rt: &R,
        link: &mut L,
        observer: &mut V,
    ) -> Result<bool, CarryFault>
        ensures hears { HearsSo (carrying
            (StepsTo S.is_honest S.is_open S.rows S.may_find S.saves S.failures S.doubts) self.old.operators.now)
            (node self.old.station.now (edges (shown_by L.received L.handed L.failures L.receives link.old)
            self.old.desk.now self.old.board.now) (V.seen observer.old))
            (node self.new.station.now (edges (shown_by L.received L.handed L.failures L.receives link.new)
            self.new.desk.now self.new.board.now) (V.seen observer.new)) result }
        ensures station { self.new.station.ghost_name ≡ self.old.station.ghost_name }
        ensures desk { self.new.desk.ghost_name ≡ self.old.desk.ghost_name }
        ensures board { self.new.board.ghost_name ≡ self.old.board.ghost_name }
        ensures out { self.new.out.ghost_name ≡ self.old.out.ghost_name }
        ensures operators { self.new.operators.now ≡ self.old.operators.now }
    {
        let mut buffer = [0u8; 45];
        match link.receive(&mut buffer) {
            Reception::Received(count) => {
                self.stats.count_received();
                self.stats.note_foreign(link.foreign());
                let input = NodeInput {
                    event: Event::Datagram(&buffer[..count]),
                    seat: None,
                };
                has_come(self.carry(rt, input, link, observer))
            }
            Reception::Nothing => {
                self.stats.count_tick();
                let input = NodeInput {
                    event: Event::Tick,
                    seat: None,
                };
                has_come(self.carry(rt, input, link, observer))
            }
            Reception::Fault => {
                self.stats.count_fault();
                Ok(true)
            }
        }
    }

    /// Makes one turn, and tells the observer when it is over. Returns whether the link failed in it.
    fn turn<L: DatagramLink, V: StepObserver, R: Wait>(
        &mut self,
        rt: &R,
        link: &mut L,
        observer: &mut V,
    ) -> Result<bool, CarryFault>
        ensures turns { TurnsSo (carrying
            (StepsTo S.is_honest S.is_open S.rows S.may_find S.saves S.failures S.doubts) self.old.operators.now)
            self.old.operators.now
            (node self.old.station.now (edges (shown_by L.received L.handed L.failures L.receives link.old)
            self.old.desk.now self.old.board.now) (V.seen observer.old))
            (node self.new.station.now (edges (shown_by L.received L.handed L.failures L.receives link.new)
            self.new.desk.now self.new.board.now) (V.seen observer.new)) result }
        ensures station { self.new.station.ghost_name ≡ self.old.station.ghost_name }
        ensures desk { self.new.desk.ghost_name ≡ self.old.desk.ghost_name }
        ensures board { self.new.board.ghost_name ≡ self.old.board.ghost_name }
        ensures out { self.new.out.ghost_name ≡ self.old.out.ghost_name }
        ensures operators { self.new.operators.now ≡ self.old.operators.now }
    {
        match self.hear(rt, link, observer) {
            Ok(failed) => match self.serve_seats(rt, link, observer) {
                Ok(()) => {
                    observer.on_turn();
                    Ok(failed)
                }
                Err(fault) => Err(fault),
            },
            Err(fault) => Err(fault),
        }
    }

    /// Makes the given number of turns, or fewer if one ends in a fault.
    fn make_turns<L: DatagramLink, V: StepObserver, R: Wait>(
        &mut self,
        rt: &R,
        link: &mut L,
        observer: &mut V,
        turns: u32,
    ) -> Result<(), ServeFault>
        ensures serves { Serves (carrying
            (StepsTo S.is_honest S.is_open S.rows S.may_find S.saves S.failures S.doubts) self.old.operators.now)
            self.old.operators.now turns
            (node self.old.station.now (edges (shown_by L.received L.handed L.failures L.receives link.old)
            self.old.desk.now self.old.board.now) (V.seen observer.old))
            (node self.new.station.now (edges (shown_by L.received L.handed L.failures L.receives link.new)
            self.new.desk.now self.new.board.now) (V.seen observer.new)) result }
        ensures station { self.new.station.ghost_name ≡ self.old.station.ghost_name }
        ensures desk { self.new.desk.ghost_name ≡ self.old.desk.ghost_name }
        ensures board { self.new.board.ghost_name ≡ self.old.board.ghost_name }
        ensures out { self.new.out.ghost_name ≡ self.old.out.ghost_name }
        ensures operators { self.new.operators.now ≡ self.old.operators.now }
    {
        let mut faults: u32 = 0;
        for _ in 0..turns {
            match self.turn(rt, link, observer) {
                Ok(failed) => faults = in_a_row(faults, failed),
                Err(fault) => return Err(ended_by(fault)),
            }
            if faults == MOST_FAULTS {
                return Err(ServeFault::Link);
            }
        }
        Ok(())
    }

    /// Serves the station for this many turns, as [`serve`] does, and by the same contract.
    ///
    /// The observer is told of each step, and of the end of each turn.
    pub fn serve<L: DatagramLink, V: StepObserver, R: Wait>(
        &mut self,
        rt: &R,
        link: &mut L,
        observer: &mut V,
        turns: u32,
    ) -> Result<(), ServeFault>
        ensures serves { Serves (carrying
            (StepsTo S.is_honest S.is_open S.rows S.may_find S.saves S.failures S.doubts) self.old.operators.now)
            self.old.operators.now turns
            (node self.old.station.now (edges (shown_by L.received L.handed L.failures L.receives link.old)
            self.old.desk.now self.old.board.now) (V.seen observer.old))
            (node self.new.station.now (edges (shown_by L.received L.handed L.failures L.receives link.new)
            self.new.desk.now self.new.board.now) (V.seen observer.new)) result }
        ensures rises { StaysRisen (shown_to self.old.station.now.core) (shown_to self.new.station.now.core)
            self.old.board.now self.new.board.now }
        ensures station { self.new.station.ghost_name ≡ self.old.station.ghost_name }
        ensures desk { self.new.desk.ghost_name ≡ self.old.desk.ghost_name }
        ensures board { self.new.board.ghost_name ≡ self.old.board.ghost_name }
        ensures out { self.new.out.ghost_name ≡ self.old.out.ghost_name }
        ensures operators { self.new.operators.now ≡ self.old.operators.now }
    {
        self.make_turns(rt, link, observer, turns)
    }
}

/// Serves a station for this many turns.
///
/// Seat i of the desk is that of the station's i-th operator, from 0, and the last seat is nobody's: it may report,
/// and any other order from it ends with 26. A turn receives once: a datagram is carried as its delivery ([`carry`]),
/// nothing as a tick, and a fault of the link as neither. Then each seat by number gives at most one order, which is
/// carried at once; a report of any seat is carried as a report.
///
/// It ends after the turns, or with a fault: `Stopped` and `Memory`, if a carry ended so, and `Link`, if the link
/// failed to receive in a hundred turns in a row.
///
/// On a board whose rows rise, and of which none is newer than what the station was shown, they stay so. A board on
/// which nothing was put is one.
///
/// [`carry`]: crate::carry
pub fn serve<S: Stable, L: DatagramLink, J: BoardId, R: Wait>(
    rt: &R,
    station: &mut Station<'_, S>,
    link: &mut L,
    desk: &mut Desk,
    board: &mut Board<J>,
    turns: u32,
) -> Result<(), ServeFault>
    ensures serves { Serves (carrying (StepsTo S.is_honest S.is_open S.rows S.may_find S.saves S.failures S.doubts)
        (operators_in station.old.core)) (operators_in station.old.core) turns
        (node station.old (edges (shown_by L.received L.handed L.failures L.receives link.old) desk.old board.old)
        nothing_seen)
        (node station.new (edges (shown_by L.received L.handed L.failures L.receives link.new) desk.new board.new)
        nothing_seen)
        result }
    ensures rises { StaysRisen (shown_to station.old.core) (shown_to station.new.core) board.old board.new }
{
    let operators = station.operators();
    let stats = NodeStats::new();
    let mut out = Out::new();
    let mut node = Node {
        station,
        desk,
        board,
        out: &mut out,
        operators,
        stats: &stats,
    };
    node.serve(rt, link, &mut NoObserver, turns)
}
