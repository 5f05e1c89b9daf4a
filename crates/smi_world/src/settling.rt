//! What leads a world to rest: stations that have stopped start again, time passes, and what was sent comes.

use crate::drawn::stream_items;
use crate::naming::has_item;
use crate::post::Post;
use crate::streaming::{
    Buffers, Streamed, new_buffers, stream_on, unwritten, write_item, write_opening,
};
use crate::world::World;
use smi_base::write_whole;
use smi_grant::{Holder, Phase};
use smi_protocol::{Deed, Item};
use smi_rows::MemoryStable;
use smi_schedule::{Drawer, Unwritten};
use smi_station::Station;
use smi_tree::Tree;
use std::alloc::Global;
use std::io::{Read, Write};

/// How many rounds are made at most.
const MOST_ROUNDS: u32 = 10_000;

/// Returns true if a holder at a station waits for nothing of a domain.
fn waits_for_nothing(station: &Station<'_, MemoryStable>, holder: Holder, domain: u16) -> bool {
    match station.link(holder, domain) {
        Some(link) => !link.is_unsettled(),
        None => true,
    }
}

/// Returns true if a station is not at work on a domain, and nobody there waits for anything of it.
fn is_settled(tree: &Tree, station: &Station<'_, MemoryStable>, domain: u16) -> bool {
    if let Some(record) = station.record(domain) {
        if record.phase == Phase::Busy {
            return false;
        }
    }
    if let Some(parent) = tree.parent(domain) {
        if !waits_for_nothing(station, Holder::Domain(parent), domain) {
            return false;
        }
    }
    for operator in station.operators() {
        if !waits_for_nothing(station, Holder::Operator(*operator), domain) {
            return false;
        }
    }
    true
}

/// Returns true if a station is in service, and nothing is under way there.
fn rests(tree: &Tree, post: &Post<'_>) -> bool {
    if post.is_stopped() {
        return false;
    }
    for domain in 1..=tree.domain_count() {
        if !is_settled(tree, &post.station, domain) {
            return false;
        }
    }
    true
}

impl World<'_> {
    /// Returns true if every station is in service, no domain is at work, and no holder waits for anything.
    pub fn is_at_rest(&self) -> bool {
        for post in self.posts() {
            if !rests(self.tree(), post) {
                return false;
            }
        }
        true
    }

    /// Returns true if a station of the tree has stopped.
    fn has_stopped(&self, station: u16) -> bool {
        match self.posts().get(usize::from(station).saturating_sub(1)) {
            Some(post) => post.is_stopped(),
            None => false,
        }
    }
}

/// Makes an item that the tree has, writes its lines, and counts it.
fn write_counted<W: Write>(
    alloc: Global,
    world: &mut World<'_>,
    item: Item,
    buffers: &mut Buffers,
    writer: &mut W,
    count: &mut u64,
) -> Result<(), Unwritten> {
    if has_item(world.tree(), &item) {
        write_item(alloc, world, &item, buffers, writer)?;
        *count = count.saturating_add(1);
    }
    Ok(())
}

/// Has time pass at each station; one that has stopped starts again before.
fn pass_time<W: Write>(
    alloc: Global,
    world: &mut World<'_>,
    buffers: &mut Buffers,
    writer: &mut W,
    count: &mut u64,
) -> Result<(), Unwritten> {
    for station in 1..=world.tree().station_count() {
        if world.has_stopped(station) {
            write_counted(alloc, world, Item::Restart(station), buffers, writer, count)?;
        }
        let tick = Item::Do(Deed::Tick(station));
        write_counted(alloc, world, tick, buffers, writer, count)?;
    }
    Ok(())
}

/// Delivers what was sent after this many datagrams, each once. Returns how many there were then.
fn deliver_behind<W: Write>(
    alloc: Global,
    world: &mut World<'_>,
    sent: u64,
    buffers: &mut Buffers,
    writer: &mut W,
    count: &mut u64,
) -> Result<u64, Unwritten> {
    let all = world.sent_count();
    for number in sent..all {
        let delivery = Item::Do(Deed::Deliver(number.saturating_add(1)));
        write_counted(alloc, world, delivery, buffers, writer, count)?;
    }
    Ok(all)
}

/// Makes items and writes their lines until the world is at rest, round after round: stations that have stopped start
/// again, each station ticks, and what was sent since the round before comes. How many items it took; nothing where the
/// world is not at rest after ten thousand rounds.
fn settle<W: Write>(
    alloc: Global,
    world: &mut World<'_>,
    buffers: &mut Buffers,
    writer: &mut W,
) -> Result<Option<u64>, Unwritten> {
    let mut count: u64 = 0;
    let mut sent = world.sent_count();
    for _ in 0..MOST_ROUNDS {
        if world.is_at_rest() {
            return Ok(Some(count));
        }
        pass_time(alloc, world, buffers, writer, &mut count)?;
        sent = deliver_behind(alloc, world, sent, buffers, writer, &mut count)?;
    }
    Ok(None)
}

/// How a schedule ended after which the world was led to rest.
#[derive(Clone, Copy, PartialEq, Eq)]
pub enum Settled {
    /// The schedule did not end well, and nothing was made after it; or what came after it could not be written, or
    /// memory ran out.
    Unsettled(Streamed),
    /// The world is at rest after this many more items.
    Rests(u64),
    /// The world is not at rest after ten thousand rounds.
    Restless,
}

/// Writes the line that says after how many items the world was at rest.
fn write_count<W: Write>(
    buffers: &mut Buffers,
    count: u64,
    writer: &mut W,
) -> Result<(), Unwritten> {
    let text = buffers.text();
    text.clear();
    match writeln!(text, "settled after {count} items") {
        Ok(()) => Ok(write_whole(writer, text.as_slice())?),
        Err(_) => Err(Unwritten::Memory),
    }
}

/// Leads a world to rest, and says after how many items it was.
fn settle_whole<W: Write>(
    alloc: Global,
    world: &mut World<'_>,
    buffers: &mut Buffers,
    writer: &mut W,
) -> Settled {
    match settle(alloc, world, buffers, writer) {
        Ok(Some(count)) => match write_count(buffers, count, writer) {
            Ok(()) => Settled::Rests(count),
            Err(fault) => Settled::Unsettled(unwritten(fault)),
        },
        Ok(None) => Settled::Restless,
        Err(fault) => Settled::Unsettled(unwritten(fault)),
    }
}

/// What a schedule is made of.
trait Source {
    /// Makes its items, and writes their lines.
    fn make<W: Write>(
        &mut self,
        alloc: Global,
        world: &mut World<'_>,
        buffers: &mut Buffers,
        writer: &mut W,
    ) -> Streamed;
}

/// The lines of a reader.
#[derive(Drop)]
struct Lined<'a, R> {
    reader: &'a mut R,
}

impl<R: Read> Source for Lined<'_, R> {
    fn make<W: Write>(
        &mut self,
        alloc: Global,
        world: &mut World<'_>,
        buffers: &mut Buffers,
        writer: &mut W,
    ) -> Streamed {
        stream_on(alloc, world, self.reader, buffers, writer)
    }
}

/// This many items that a seed draws.
#[derive(Drop)]
struct Draws {
    drawer: Drawer,
    steps: u64,
}

impl Source for Draws {
    fn make<W: Write>(
        &mut self,
        alloc: Global,
        world: &mut World<'_>,
        buffers: &mut Buffers,
        writer: &mut W,
    ) -> Streamed {
        match stream_items(alloc, world, &mut self.drawer, self.steps, buffers, writer) {
            Ok(()) => Streamed::Ended,
            Err(fault) => unwritten(fault),
        }
    }
}

/// Makes a schedule's items, leads the world to rest if they ended well, and writes the lines of all.
fn make_and_settle<S: Source, W: Write>(
    alloc: Global,
    world: &mut World<'_>,
    source: &mut S,
    buffers: &mut Buffers,
    writer: &mut W,
) -> Settled {
    match source.make(alloc, world, buffers, writer) {
        Streamed::Ended => settle_whole(alloc, world, buffers, writer),
        streamed => Settled::Unsettled(streamed),
    }
}

/// Does the same from the opening on.
fn settle_from_opening<S: Source, W: Write>(
    alloc: Global,
    tree: &Tree,
    source: &mut S,
    writer: &mut W,
) -> Settled {
    let mut buffers = new_buffers(alloc);
    match write_opening(tree, &mut buffers, writer) {
        Ok(()) => match World::new(alloc, tree) {
            Ok(mut world) => make_and_settle(alloc, &mut world, source, &mut buffers, writer),
            Err(_) => Settled::Unsettled(Streamed::Memory),
        },
        Err(fault) => Settled::Unsettled(unwritten(fault)),
    }
}

/// Returns what is told if the flush failed: the first fault.
fn flushed<W: Write>(settled: Settled, writer: &mut W) -> Settled {
    match (writer.flush(), settled) {
        (Ok(()), settled) => settled,
        (Err(_), Settled::Unsettled(Streamed::ReadFault | Streamed::Memory)) => settled,
        (Err(_), _) => Settled::Unsettled(Streamed::WriteFault),
    }
}

/// Streams a schedule as [`stream`](crate::stream) does, and then goes on until the world is at rest, round after
/// round: stations that have stopped start again, each station ticks, and what was sent since the round before comes.
/// The lines of these items are written like any others, and at the end `settled after N items`.
pub fn stream_settled<R: Read, W: Write>(
    alloc: Global,
    tree: &Tree,
    reader: &mut R,
    writer: &mut W,
) -> Settled {
    let settled = settle_from_opening(alloc, tree, &mut Lined { reader }, writer);
    flushed(settled, writer)
}

/// Does the same with this many items that a seed draws.
pub fn stream_drawn_settled<W: Write>(
    alloc: Global,
    tree: &Tree,
    seed: u64,
    steps: u64,
    writer: &mut W,
) -> Settled {
    let mut draws = Draws {
        drawer: Drawer::new(seed),
        steps,
    };
    let settled = settle_from_opening(alloc, tree, &mut draws, writer);
    flushed(settled, writer)
}
