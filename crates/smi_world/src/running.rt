//! The trace of a schedule.

ghost use Rattle.std.specs.Prelude.{◌≡◌, ◌++◌, true, IfOk, OnOk};
ghost use Rattle.smi_law.specs.Safe.{Safe};
ghost use Rattle.smi_protocol.specs.Schedule.{trace_of};
ghost use Rattle.smi_law.specs.World.{past_of};
ghost use Rattle.smi_world.specs.Running.{FirstUnnamed, Named};

use crate::left::Left;
use crate::opening::push_opening;
use crate::world::{ActFault, World};
use smi_protocol::{Item, Line};
use smi_tree::Tree;
use std::alloc::{AllocError, Global};
use thiserror::Error;

/// The lines of a trace, in their order.
pub type Trace = Vec<Line>;

/// Why a schedule was not run to its end.
#[derive(Clone, Copy, Debug, PartialEq, Eq, Error)]
pub enum WorldFault {
    /// The item of this number, from 1, is the first to name a station, operator or device that the tree does not
    /// have.
    #[error("item {0} names what the tree does not have")]
    NoSuch(u64),
    /// Out of memory.
    #[error("out of memory")]
    Memory,
}

/// Makes an item, and adds its lines.
pub(crate) fn act_into(
    alloc: Global,
    world: &mut World<'_>,
    item: &Item,
    left: &mut Left,
    lines: &mut Vec<Line>,
) -> Result<(), ActFault>
    ensures lines { (w : Defined) → IsAt world.old w
        → OnOk result (lines.new.items ≡ lines.old.items ++ lines_of w (turn world.old.tree w item.now)) }
    ensures next { (w : Defined) → IsAt world.old w
        → OnOk result (IsAt world.new (turn world.old.tree w item.now).world) }
    ensures named { OnOk result (has_item world.old.tree item.now ≡ true) }
    ensures unnamed { result ≡ Err NoSuch → has_item world.old.tree item.now ≡ false }
    ensures tree { world.new.tree ≡ world.old.tree }
{
    world.act(alloc, item, left)?;
    match left.push_lines(world.tree(), lines) {
        Ok(()) => Ok(()),
        Err(_) => Err(ActFault::Memory),
    }
}

ghost use Rattle.std.specs.Prelude.{Err, false};
ghost use Rattle.smi_protocol.specs.Schedule.{World as Defined, lines_of, turn};
ghost use Rattle.smi_schedule.specs.Naming.{has_item};
ghost use Rattle.smi_world.specs.Posts.{IsAt};
ghost use Rattle.smi_world.specs.declared.world.ActFault.TheVariants.{NoSuch};

/// Makes items one after the other, and adds their lines.
fn run_on(
    alloc: Global,
    world: &mut World<'_>,
    items: &[Item],
    left: &mut Left,
    lines: &mut Vec<Line>,
) -> Result<(), WorldFault>
    ensures lines { (w : Defined) → IsAt world.old w
        → OnOk result (lines.new.items ≡ lines.old.items ++ trace_from world.old.tree w items.now) }
    ensures named { OnOk result (Named world.old.tree items.now) }
    ensures no_such { IfNoSuch result (FirstUnnamed world.old.tree items.now) }
{
    let mut number = 0;
    for item in items {
        number += 1;
        match act_into(alloc, world, item, left, lines) {
            Ok(()) => {}
            Err(ActFault::NoSuch) => return Err(WorldFault::NoSuch(number)),
            Err(ActFault::Memory) => return Err(WorldFault::Memory),
        }
    }
    Ok(())
}

ghost use Rattle.smi_protocol.specs.Schedule.{trace_from};
ghost use Rattle.smi_world.specs.Running.{IfNoSuch};

/// Starts all stations, and adds the lines of that.
fn open_into<'a>(
    alloc: Global,
    tree: &'a Tree,
    lines: &mut Vec<Line>,
) -> Result<World<'a>, AllocError>
    ensures lines { OnOk result (lines.new.items ≡ lines.old.items ++ opening_lines tree.now) }
    ensures opens { IfOk result (λ world. IsAt world (first_world tree.now)) }
    ensures tree { IfOk result (λ world. world.tree ≡ tree.now) }
{
    match push_opening(lines, tree) {
        Ok(()) => World::new(alloc, tree),
        Err(refused) => Err(refused),
    }
}

ghost use Rattle.smi_protocol.specs.Schedule.{first_world, opening_lines};

/// Runs a schedule from the opening, and adds its lines.
fn run_into(
    alloc: Global,
    tree: &Tree,
    items: &[Item],
    lines: &mut Vec<Line>,
) -> Result<(), WorldFault>
    ensures trace { OnOk result (lines.new.items ≡ lines.old.items ++ trace_of tree.now items.now) }
    ensures named { OnOk result (Named tree.now items.now) }
    ensures no_such { IfNoSuch result (FirstUnnamed tree.now items.now) }
{
    match open_into(alloc, tree, lines) {
        Ok(mut world) => run_on(alloc, &mut world, items, &mut Left::new(), lines),
        Err(_) => Err(WorldFault::Memory),
    }
}

/// Runs a schedule. Returns its trace: the lines of the opening, and then of each item. At every moment of it at most
/// one operator is in command of an object; each command that runs was ordered, and runs at most once, by rising
/// numbers and while every grant between it and its operator is current; and what is shown never goes back and is
/// what was passed through (specs/Safe of `smi_law`).
///
/// `NoSuch` is answered for the first item that names what the tree does not have. Out of memory is answered only
/// if an allocation was refused, which tests alone see.
pub fn run(alloc: Global, tree: &Tree, items: &[Item]) -> Result<Trace, WorldFault>
    ensures trace { IfOk result (λ lines. lines.items ≡ trace_of tree.now items.now) }
    ensures safe { IfOk result (λ lines. Safe tree.now (past_of lines.items)) }
    ensures named { OnOk result (Named tree.now items.now) }
    ensures no_such { IfNoSuch result (FirstUnnamed tree.now items.now) }
{
    let _stations = tree.station_count();
    let mut lines = Vec::new(alloc);
    match run_into(alloc, tree, items, &mut lines) {
        Ok(()) => Ok(lines),
        Err(fault) => Err(fault),
    }
}
