//! A node, and one event at it.

ghost use Rattle.std.specs.Prelude.{◌≡◌};
ghost use Rattle.smi_station.specs.Core.{is_stopped_by};
ghost use Rattle.smi_station.specs.Readers.{operators_in};
ghost use Rattle.smi_node.specs.Carried.{Carries, Follows, SendsStep, StepsTo, Tells, asker_of, code_of, edges};
ghost use Rattle.smi_node.specs.Carried.{fault_in, is_report, node};
ghost use Rattle.smi_node.specs.Linked.{LinkShows, Sends, shown_by};
ghost use Rattle.smi_node.specs.Observed.{nothing_seen};

use crate::answers::{end_replaced, mark_newest, tell_all, tell_newest};
use crate::event::{NoObserver, StepObserver};
use crate::publish::publish;
use crate::send::send_all;
use crate::stats::NodeStats;
use smi_link::DatagramLink;
use smi_operator::Desk;
use smi_protocol::{Answer, Event, Heard, Order, OrderCode, StepFault};
use smi_rows::Stable;
use smi_station::Station;
use smi_station_output::Out;
use smi_view::{Board, BoardId};
use std::sync::Wait;
use thiserror::Error;

/// Why an event was not carried, or not to its end.
#[derive(Clone, Copy, Debug, PartialEq, Eq, Error)]
pub enum CarryFault {
    /// The station has stopped: nothing was sent, published or answered.
    #[error("the station has stopped")]
    Stopped,
    /// Memory was refused to the board: nothing was published or answered, and all else was done.
    #[error("out of memory")]
    Memory,
}

/// A station that is served: with the desk of its seats, its board, and what its last step handed out.
#[derive(Drop)]
pub struct Node<'s, 't, 'd, 'o, S, J: BoardId> {
    pub station: &'s mut Station<'t, S>,
    pub desk: &'d mut Desk,
    pub board: &'d mut Board<J>,
    /// What the last step handed out.
    pub out: &'d mut Out,
    /// The operators by seat: seat i is that of the i-th of them, from 0. One who has several seats stands there as
    /// often.
    pub operators: &'o [u16],
    /// Counts what the node does.
    pub stats: &'d NodeStats,
}

/// The input of a node: an event, and the seat whose newest order in work it is, if it is one.
#[derive(Clone, Copy)]
pub struct NodeInput<'a> {
    pub event: Event<'a>,
    pub seat: Option<usize>,
}

/// Returns true if an event is a report, which is told its code by its step alone.
fn is_report(event: &Event<'_>) -> bool
    ensures { result ≡ is_report event.now }
{
    match event {
        Event::Report(_, _) => true,
        Event::Order(_, Order::Report(_, _)) => true,
        _ => false,
    }
}

/// Returns the operator whose question an event is.
fn asker_of(event: &Event<'_>) -> Option<u16>
    ensures { result ≡ asker_of event.now }
{
    match event {
        Event::Order(operator, Order::Ask(_)) => Some(*operator),
        _ => None,
    }
}

/// Returns the code of a step for the seat that gave it its event: a refusal, a fault, or that a report was taken.
fn code_of(is_report: bool, made: &Result<Heard, StepFault>) -> Option<u16>
    ensures { result ≡ code_of is_report made.now }
{
    match made {
        Ok(Heard::Refused(code)) => Some(*code),
        Ok(Heard::Same | Heard::Done) => { if is_report { Some(0) } else { None } }
        Err(StepFault::NotStored) => Some(OrderCode::NotStored.code()),
        Err(StepFault::Stopped) => None,
        Err(StepFault::Memory) => Some(OrderCode::NoMemory.code()),
    }
}

/// Returns whether a step has stopped its station.
pub fn is_stopped_by(made: &Result<Heard, StepFault>) -> bool
    ensures { result ≡ is_stopped_by made.now }
{
    match made {
        Err(StepFault::Stopped) => true,
        _ => false,
    }
}

fn step<S: Stable>(
    station: &mut Station<'_, S>,
    event: Event<'_>,
    out: &mut Out,
) -> Result<Heard, StepFault>
    ensures { StepsTo S.is_honest S.is_open S.rows S.may_find S.saves S.failures S.doubts station.old event.entry
        station.new
        out.new result }
{
    station.step(event, out)
}

/// Sends what a step handed out, unless it has stopped its station.
fn send_of<L: DatagramLink>(
    made: &Result<Heard, StepFault>,
    out: &Out,
    link: &mut L,
    stats: Option<&NodeStats>,
)
    ensures { SendsStep (is_stopped_by made.now) out.now.datagrams
        (shown_by L.received L.handed L.failures L.receives link.old)
        (shown_by L.received L.handed L.failures L.receives link.new) }
{
    if !is_stopped_by(made) {
        send_all(link, out.datagrams(), stats);
    }
}

/// Steps a station, and sends the datagrams that the step hands out, each to its receiver; one that the link does not
/// take is lost. After a step that has stopped the station nothing is sent.
///
/// `out` then has what the step handed out. The sends are counted, if anybody reads the counts.
pub fn step_and_send<S: Stable, L: DatagramLink>(
    station: &mut Station<'_, S>,
    event: Event<'_>,
    out: &mut Out,
    link: &mut L,
    stats: Option<&NodeStats>,
) -> Result<Heard, StepFault>
    ensures steps { StepsTo S.is_honest S.is_open S.rows S.may_find S.saves S.failures S.doubts station.old event.entry
        station.new
        out.new result }
    ensures sends { SendsStep (is_stopped_by result) out.new.datagrams
        (shown_by L.received L.handed L.failures L.receives link.old)
        (shown_by L.received L.handed L.failures L.receives link.new) }
{
    let made = step(station, event, out);
    send_of(&made, out, link, stats);
    made
}

/// Who is told of a step: the seat that gave its event, by the code that the step has for it, if it has one; else the
/// orders of these operators that its answers are of.
#[derive(Clone, Copy)]
struct StepReply<'a> {
    operators: &'a [u16],
    seat: Option<usize>,
    code: Option<u16>,
    /// The operator whose question the event is.
    asker: Option<u16>,
}

/// Tells the code of a step to the seat that gave it its event; if it has none, tells its answers to their orders, and
/// ends the questions that it replaces.
fn answer_orders(desk: &mut Desk, reply: StepReply<'_>, answers: &[Answer])
    ensures { Tells reply.entry.operators.now reply.entry.seat reply.entry.code reply.entry.asker answers.now desk.old
        desk.new }
{
    match reply.code {
        Some(code) => tell_newest(desk, reply.seat, code),
        None => {
            tell_all(desk, reply.operators, answers);
            end_replaced(desk, reply.operators, reply.seat, reply.asker);
        }
    }
}

/// Marks the command of a step, publishes what it showed, and tells its code or its answers.
fn follow<J: BoardId, R: Wait>(
    rt: &R,
    reply: StepReply<'_>,
    out: &Out,
    desk: &mut Desk,
    board: &mut Board<J>,
) -> Result<(), CarryFault>
    // Over whatever link its datagrams were sent.
    ensures { (before after : LinkShows) → Sends out.now.datagrams before after
        → Follows reply.entry.operators.now reply.entry.seat reply.entry.code reply.entry.asker out.now
        (edges before desk.old board.old) (edges after desk.new board.new) (fault_in result) }
{
    mark_newest(desk, reply.seat, out.issued());
    match publish(rt, board, out.shown()) {
        Ok(()) => {
            answer_orders(desk, reply, out.answers());
            Ok(())
        }
        Err(_) => Err(CarryFault::Memory),
    }
}

impl<S: Stable, J: BoardId> Node<'_, '_, '_, '_, S, J> {
    ghost use Rattle.std.specs.Prelude.{◌≡◌};
    ghost use Rattle.smi_node.specs.Carried.{Carries, StepsTo, edges, fault_in, node};
    ghost use Rattle.smi_node.specs.Linked.{shown_by};

    /// Carries an event to the station and what follows it from there, as [`carry`] does, and by the same contract.
    ///
    /// The observer is told the step once its row is saved, and before anything of it is sent, published or answered:
    /// so what others hear rests only on what the observer was told.
    pub fn carry<L: DatagramLink, V: StepObserver, R: Wait>(
        &mut self,
        rt: &R,
        input: NodeInput<'_>,
        link: &mut L,
        observer: &mut V,
    ) -> Result<(), CarryFault>
        ensures carries { Carries (StepsTo S.is_honest S.is_open S.rows S.may_find S.saves S.failures S.doubts)
            self.old.operators.now input.entry.event input.entry.seat self.new.out.now
            (node self.old.station.now (edges (shown_by L.received L.handed L.failures L.receives link.old)
            self.old.desk.now self.old.board.now) (V.seen observer.old))
            (node self.new.station.now (edges (shown_by L.received L.handed L.failures L.receives link.new)
            self.new.desk.now self.new.board.now) (V.seen observer.new)) (fault_in result) }
        ensures station { self.new.station.ghost_name ≡ self.old.station.ghost_name }
        ensures desk { self.new.desk.ghost_name ≡ self.old.desk.ghost_name }
        ensures board { self.new.board.ghost_name ≡ self.old.board.ghost_name }
        ensures out { self.new.out.ghost_name ≡ self.old.out.ghost_name }
        ensures operators { self.new.operators.now ≡ self.old.operators.now }
    {
        let NodeInput { event, seat } = input;
        let is_report = is_report(&event);
        let asker = asker_of(&event);
        let made = step(self.station, event, self.out);
        self.stats.count_step(&made);
        observer.on_step(self.station, &event, &made, self.out);
        send_of(&made, self.out, link, Some(self.stats));
        if is_stopped_by(&made) {
            return Err(CarryFault::Stopped);
        }
        let reply = StepReply {
            operators: self.operators,
            seat,
            code: code_of(is_report, &made),
            asker,
        };
        follow(rt, reply, self.out, self.desk, self.board)
    }
}

/// A board, and the handle over which a publication waits for its readers.
#[derive(Drop)]
pub struct ServedBoard<'r, 'b, R, J: BoardId> {
    pub rt: &'r R,
    pub board: &'b mut Board<J>,
}

/// Carries an event to a station and what follows it from there: the datagrams of the step are sent, each to its
/// receiver, and one that the link does not take is lost; a shown state is published; and answers go to the orders
/// in work that they are of, while one that is of none is dropped.
///
/// `seat` is the seat whose newest order in work the event is, if it is one. That order becomes the command that the
/// step issued, and is told the code of a report, of a refusal, and of a step that was not made (31 not stored, 33 no
/// memory); such a datagram is lost. `out` then has what the step handed out.
///
/// A station keeps one question of each operator. So if an operator has several seats, a question that is asked again
/// ends the one that waits at another seat ([`REPLACED`]).
///
/// `Stopped` comes exactly when the step answered that the station has stopped, and then nothing is sent, published
/// or answered. `Memory` comes only if the board refused, and leaves what success would but for the publication
/// and the answers.
///
/// [`REPLACED`]: crate::REPLACED
pub fn carry<S: Stable, L: DatagramLink, J: BoardId, R: Wait>(
    station: &mut Station<'_, S>,
    event: Event<'_>,
    seat: Option<usize>,
    out: &mut Out,
    link: &mut L,
    desk: &mut Desk,
    board: &mut ServedBoard<'_, '_, R, J>,
) -> Result<(), CarryFault>
    ensures carries { Carries (StepsTo S.is_honest S.is_open S.rows S.may_find S.saves S.failures S.doubts)
        (operators_in station.old.core) event.entry seat out.new
        (node station.old (edges (shown_by L.received L.handed L.failures L.receives link.old) desk.old
        board.old.board.now) nothing_seen)
        (node station.new (edges (shown_by L.received L.handed L.failures L.receives link.new) desk.new
        board.new.board.now) nothing_seen)
        (fault_in result) }
    ensures board { board.new.board.ghost_name ≡ board.old.board.ghost_name }
{
    let operators = station.operators();
    let stats = NodeStats::new();
    let mut node = Node {
        station,
        desk,
        board: &mut *board.board,
        out,
        operators,
        stats: &stats,
    };
    node.carry(board.rt, NodeInput { event, seat }, link, &mut NoObserver)
}
