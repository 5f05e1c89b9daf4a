//! Serves the station of a node for a number of turns, or until a fault ends it.
//!
//! `node` calls [`StationLoop::serve`] on the station's thread. `Node::serve` of `smi_node` makes the turns, each of
//! which takes one datagram and one order of each seat at most. An endless node is served in rounds of `TURNS_AT_ONCE`,
//! and between two rounds the log of its store may be copied. specs/Serving says so, and what that leaves of the store.

ghost use Rattle.std.specs.Prelude.{◌≡◌, Result};
ghost use Rattle.smi_rows.specs.declared.stable.StoreFault.{StoreFault};
ghost use Rattle.smi_node.specs.Carried as carried;
ghost use Rattle.smi_node.specs.Linked.{shown_by};
ghost use Rattle.smi_console.specs.Serving.{CopiesLog, IsServed, KeepsAll, ServesFor, serving};

use crate::log_timer::LogTimer;
use smi_link::DatagramLink;
use smi_node::{Node, NodeStats, ServeFault, StepObserver};
use smi_operator::Desk;
use smi_session::boxed;
use smi_stable::LoggedStable;
use smi_station::Station;
use smi_station_output::Out;
use smi_view::{Board, BoardId};
use std::alloc::{AllocError, Global};
use std::sync::{Arc, Wait};
use std::time::{Clock, Instant};

/// How long a node serves.
#[derive(Clone, Copy)]
pub enum Turns {
    /// This many turns.
    Count(u32),
    /// Until the process is ended, or a fault ends it.
    Endless,
}

/// How many turns an endless node serves in one round, after which it looks at its log. A turn in which nothing comes
/// takes ten milliseconds, so a round takes a second at rest. Faults of the link are counted within a round, so 100 to
/// 199 in a row end the node (docs/DECISIONS.md). specs/Serving names it.
pub(crate) const TURNS_AT_ONCE: u32 = 100;

/// Lets the store of a station copy its log into its file.
fn copy_log<S: LoggedStable>(alloc: Global, station: &mut Station<'_, S>)
    ensures core { station.new.core ≡ station.old.core }
    ensures store { (r : Result (Unit {0}) StoreFault) × CopiesLog S.is_honest S.is_open S.rows S.may_find S.saves
        S.failures S.doubts station.old.store station.new.store r }
{
    // A copy that fails leaves all rows in the log. If it shuts the store, the station stops at its next save.
    let _ = station.stable_mut().copy_log(alloc);
}

/// Lets the store copy its log, if it is time for a look at it.
fn rest<S: LoggedStable, R: Clock + AllocGlobal>(
    rt: &R,
    timer: &mut LogTimer,
    station: &mut Station<'_, S>,
)
    ensures { KeepsAll S.is_honest S.is_open S.rows S.may_find S.saves S.failures S.doubts station.old station.new }
{
    if timer.is_due(Instant::now(rt).ok()) {
        copy_log(rt.alloc(), station);
    }
}

/// Serves a node for these turns, or until a fault ends it. Returns the fault, if any.
fn served<
    S: LoggedStable,
    L: DatagramLink,
    J: BoardId,
    V: StepObserver,
    R: Wait + Clock + AllocGlobal,
>(
    rt: &R,
    turns: Turns,
    node: &mut Node<'_, '_, '_, '_, S, J>,
    link: &mut L,
    observer: &mut V,
) -> Result<(), ServeFault>
    ensures serves { ServesFor
        (serving S.is_honest S.is_open S.rows S.may_find S.saves S.failures S.doubts node.old.operators.now) turns
        (carried.node node.old.station.now (carried.edges
        (shown_by L.received L.handed L.failures L.receives link.old) node.old.desk.now node.old.board.now)
        (V.seen observer.old))
        (carried.node node.new.station.now (carried.edges
        (shown_by L.received L.handed L.failures L.receives link.new) node.new.desk.now node.new.board.now)
        (V.seen observer.new)) result }
    ensures station { node.new.station.ghost_name ≡ node.old.station.ghost_name }
    ensures desk { node.new.desk.ghost_name ≡ node.old.desk.ghost_name }
    ensures board { node.new.board.ghost_name ≡ node.old.board.ghost_name }
    ensures out { node.new.out.ghost_name ≡ node.old.out.ghost_name }
    ensures operators { node.new.operators.now ≡ node.old.operators.now }
{
    match turns {
        Turns::Count(turns) => node.serve(rt, link, observer, turns),
        Turns::Endless => {
            let mut timer = LogTimer::new();
            for _ in rt.forever() {
                match node.serve(rt, link, observer, TURNS_AT_ONCE) {
                    Ok(()) => rest(rt, &mut timer, node.station),
                    Err(fault) => return Err(fault),
                }
            }
            // The loop above never ends by itself.
            unreachable!()
        }
    }
}

/// How a station is served: the values that `StationLoop::serve` gives to the node that it makes.
#[derive(Clone, Copy)]
struct ServicePlan<'a, 'b> {
    /// For how many turns it is served.
    turns: Turns,
    /// The operator of each seat, by seat. The last seat, which is for reports, is not in it.
    operators: &'a [u16],
    /// The counters that the turns raise.
    stats: &'b NodeStats,
}

/// Makes the plan of a service. It is a function, because the proof of `serve` names what it promises.
fn plan_of<'a, 'b>(turns: Turns, operators: &'a [u16], stats: &'b NodeStats) -> ServicePlan<'a, 'b>
    ensures turns { result.turns ≡ turns }
    ensures operators { result.operators.now ≡ operators.now }
{
    ServicePlan {
        turns,
        operators,
        stats,
    }
}

/// Makes a node of a station and its parts, and serves it. Returns the fault that ended it, if any.
// The parts come one by one, because the prover loses what becomes of a station if its node is made of a larger value.
fn serve_parts<
    S: LoggedStable,
    L: DatagramLink,
    J: BoardId,
    V: StepObserver,
    R: Wait + Clock + AllocGlobal,
>(
    rt: &R,
    plan: ServicePlan<'_, '_>,
    station: &mut Station<'_, S>,
    link: &mut L,
    desk: &mut Desk,
    board: &mut Board<J>,
    observer: &mut V,
) -> Result<(), ServeFault>
    ensures { ServesFor
        (serving S.is_honest S.is_open S.rows S.may_find S.saves S.failures S.doubts plan.entry.operators.now)
        plan.entry.turns
        (carried.node station.old (carried.edges (shown_by L.received L.handed L.failures L.receives link.old) desk.old
        board.old) (V.seen observer.old))
        (carried.node station.new (carried.edges (shown_by L.received L.handed L.failures L.receives link.new) desk.new
        board.new) (V.seen observer.new)) result }
{
    let mut out = Out::new();
    let mut node = Node {
        station,
        desk,
        board,
        out: &mut out,
        operators: plan.operators,
        stats: plan.stats,
    };
    served(rt, plan.turns, &mut node, link, observer)
}

/// The fields of a [`StationLoop`].
#[derive(Drop)]
struct StationLoopParts<L: Drop, V: Drop> {
    /// The link to the other stations.
    link: L,
    /// The station's end of all seats.
    desk: Desk,
    /// The counters that turns raise, and that sessions read.
    stats: Arc<NodeStats, Global>,
    /// What is told of each step: the journal and the forwarder.
    observer: V,
}

/// All that a station is served with, beside its board.
#[derive(Drop)]
pub(crate) struct StationLoop<L: Drop, V: Drop> {
    // In a box, because each function that drops the parts themselves is expensive to prove.
    parts: Box<StationLoopParts<L, V>>,
}

impl<L: DatagramLink + Drop, V: StepObserver + Drop> StationLoop<L, V> {
    /// Makes a loop with this link, this desk, these statistics and this observer. Fails if memory was refused.
    pub(crate) fn new(
        alloc: Global,
        link: L,
        desk: Box<Desk>,
        stats: Arc<NodeStats, Global>,
        observer: V,
    ) -> Result<StationLoop<L, V>, AllocError> {
        let parts = StationLoopParts {
            link,
            desk: Box::into_inner(desk),
            stats,
            observer,
        };
        let parts = boxed(alloc, parts)?;
        Ok(StationLoop { parts })
    }

    /// Serves a station for these turns, or until a fault ends it. `operators` has the operator of each seat of the
    /// desk. Returns the fault, if any.
    pub(crate) fn serve<S: LoggedStable, J: BoardId, R: Wait + Clock + AllocGlobal>(
        &mut self,
        rt: &R,
        turns: Turns,
        operators: &[u16],
        station: &mut Station<'_, S>,
        board: &mut Board<J>,
    ) -> Result<(), ServeFault>
        ensures { IsServed (serving S.is_honest S.is_open S.rows S.may_find S.saves S.failures S.doubts
            operators.now) turns station.old station.new result }
    {
        let StationLoopParts {
            link,
            desk,
            stats,
            observer,
        } = &mut *self.parts;
        let plan = plan_of(turns, operators, stats);
        serve_parts(rt, plan, station, link, desk, board, observer)
    }
}
