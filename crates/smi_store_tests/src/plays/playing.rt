//! Two stations for each of the tree, and the world beside them.

use super::left::{are_left, are_so};
use super::side::{Made, PlayedStation, act, add, rows_of};
use super::store::Played;
use super::turn::{Turn, turn_of};
use smi_message::encode;
use smi_protocol::{Item, Line, StepFault};
use smi_rows::{MemoryStable, SavedRow};
use smi_station_output::Out;
use smi_testkit::are_same;
use smi_tree::Tree;
use smi_world::{Left, World};
use std::alloc::{AllocError, Global};

type InMemory<'a> = PlayedStation<'a, MemoryStable>;

/// The stations over a store in memory and over another one, by number.
#[derive(Drop)]
struct TwoStores<'a, Q: Played + Drop> {
    memory: Vec<InMemory<'a>>,
    other: Vec<PlayedStation<'a, Q>>,
}

/// What is used again for each item.
#[derive(Drop)]
struct PlayBuffers {
    memory: Out,
    other: Out,
    left: Left,
    lines: Vec<Line>,
}

fn add_all<'a, Q: Played + Drop>(
    alloc: Global,
    tree: &'a Tree,
    stations: &mut TwoStores<'a, Q>,
) -> bool {
    for number in 0..tree.station_count() {
        let number = number.wrapping_add(1);
        if !add(alloc, tree, number, &mut stations.memory)
            || !add(alloc, tree, number, &mut stations.other)
        {
            return false;
        }
    }
    true
}

/// Returns true if two steps have handed out the same: datagrams byte for byte, answers, the state that was shown,
/// and the command that was issued.
fn are_handed_out(one: &Out, other: &Out) -> bool {
    let (a, b) = (one.datagrams(), other.datagrams());
    a.len() == b.len()
        && a.iter().zip(b).all(|(x, y)| encode(x) == encode(y))
        && one.answers() == other.answers()
        && one.shown() == other.shown()
        && one.issued() == other.issued()
}

/// Returns true if the same rows are kept.
fn are_kept(one: Option<Vec<SavedRow>>, other: Option<Vec<SavedRow>>) -> bool {
    match (one, other) {
        (Some(one), Some(other)) => are_same(&one, &other),
        _ => false,
    }
}

/// Returns true if the station tells of itself what the lines say. One that has stopped does not know its row.
fn is_told<S: Played + Drop>(station: &PlayedStation<'_, S>, made: Made, lines: &[Line]) -> bool {
    made == Made::Heard(Err(StepFault::Stopped)) || are_so(station, lines)
}

/// The station of a number over each store.
#[derive(Drop)]
struct Two<'a, 'b, Q: Played + Drop> {
    memory: &'b mut InMemory<'a>,
    other: &'b mut PlayedStation<'a, Q>,
}

fn stations_at<'a, 'b, Q: Played + Drop>(
    stations: &'b mut TwoStores<'a, Q>,
    number: u16,
) -> Option<Two<'a, 'b, Q>> {
    let place = usize::from(number).wrapping_sub(1);
    Some(Two {
        memory: stations.memory.get_mut(place)?,
        other: stations.other.get_mut(place)?,
    })
}

/// Returns true if a turn makes the same of the station over each store, and has left that.
fn make<Q: Played + Drop>(
    alloc: Global,
    two: Two<'_, '_, Q>,
    turn: &Turn<'_>,
    buffers: &mut PlayBuffers,
    before: usize,
) -> bool {
    let Two { memory, other } = two;
    let made = act(alloc, memory, turn, &mut buffers.memory);
    let lines = buffers.lines.as_slice();
    act(alloc, other, turn, &mut buffers.other) == made
        && made != Made::Lost
        && are_handed_out(&buffers.memory, &buffers.other)
        && are_kept(rows_of(memory), rows_of(other))
        && are_left(&buffers.memory, lines, before)
        && is_told(memory, made, lines)
        && is_told(other, made, lines)
}

/// Returns true if an item that reaches no station has left nothing, and one that reaches a station what it
/// makes of it.
fn turns<Q: Played + Drop>(
    alloc: Global,
    tree: &Tree,
    stations: &mut TwoStores<'_, Q>,
    sent: &[[u8; 44]],
    item: &Item,
    buffers: &mut PlayBuffers,
) -> bool {
    match turn_of(tree, sent, item) {
        Some(turn) => match stations_at(stations, turn.station) {
            Some(two) => make(alloc, two, &turn, buffers, sent.len()),
            None => false,
        },
        None => {
            buffers.memory.clear();
            buffers.lines.is_empty()
        }
    }
}

/// Makes an item in the world, and notes the lines that it leaves.
fn leaves(alloc: Global, world: &mut World<'_>, item: &Item, buffers: &mut PlayBuffers) -> bool {
    buffers.lines.clear();
    world.act(alloc, item, &mut buffers.left).is_ok()
        && buffers
            .left
            .push_lines(world.tree(), &mut buffers.lines)
            .is_ok()
}

/// Appends what was sent to all that was sent before.
fn keep(sent: &mut Vec<[u8; 44]>, out: &Out) -> Result<(), AllocError> {
    for datagram in out.datagrams() {
        sent.push(encode(datagram))?;
    }
    Ok(())
}

/// Returns whether each item leaves in the world what it makes of the stations.
fn are_made<Q: Played + Drop>(
    alloc: Global,
    world: &mut World<'_>,
    stations: &mut TwoStores<'_, Q>,
    items: &[Item],
    buffers: &mut PlayBuffers,
) -> Result<bool, AllocError> {
    let mut sent = Vec::new(alloc);
    for item in items {
        if !leaves(alloc, world, item, buffers)
            || !turns(
                alloc,
                world.tree(),
                stations,
                sent.as_slice(),
                item,
                buffers,
            )
        {
            return Ok(false);
        }
        keep(&mut sent, &buffers.memory)?;
    }
    Ok(true)
}

fn with_stations<'a, Q: Played + Drop>(
    alloc: Global,
    tree: &'a Tree,
    world: &mut World<'_>,
    stations: &mut TwoStores<'a, Q>,
    items: &[Item],
) -> Result<bool, AllocError> {
    if !add_all(alloc, tree, stations) {
        return Err(AllocError);
    }
    let mut buffers = PlayBuffers {
        memory: Out::new(),
        other: Out::new(),
        left: Left::new(),
        lines: Vec::new(alloc),
    };
    are_made(alloc, world, stations, items, &mut buffers)
}

// One function owns the stations, one the world, because whatever owns such values is expensive to prove.
fn with_world<Q: Played + Drop>(
    alloc: Global,
    tree: &Tree,
    world: &mut World<'_>,
    items: &[Item],
) -> Result<bool, AllocError> {
    let mut stations: TwoStores<'_, Q> = TwoStores {
        memory: Vec::new(alloc),
        other: Vec::new(alloc),
    };
    with_stations(alloc, tree, world, &mut stations, items)
}

/// Returns whether items over a tree are played so. It fails if it runs out of memory itself, or no station or store
/// opens.
pub(super) fn are_played<Q: Played + Drop>(
    alloc: Global,
    tree: &Tree,
    items: &[Item],
) -> Result<bool, AllocError> {
    match World::new(alloc, tree) {
        Ok(mut world) => with_world::<Q>(alloc, tree, &mut world, items),
        Err(refused) => Err(refused),
    }
}
