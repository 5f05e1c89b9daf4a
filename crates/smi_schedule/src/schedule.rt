//! Whole schedules.

ghost use Rattle.std.specs.Prelude.{◌≡◌};
ghost use Rattle.std.specs.Str.Lines.{lines};
ghost use Rattle.smi_schedule.specs.Line.{item_in};
ghost use Rattle.smi_schedule.specs.Schedule.{Reads, ReadsLine, items_of, schedule_of};

use crate::line::read_item;
use smi_base::MOST_BYTES_OF_A_FILE;
use smi_protocol::Item;
use smi_tree::{Fault, Tree, first_line};
use std::alloc::{AllocError, AllocFailed, Global};
use thiserror::Error;

/// Why a schedule was not read.
#[derive(Clone, Copy, Debug, PartialEq, Eq, Error)]
pub enum ScheduleFault {
    /// The line of this number, counting all lines from 1, has the [fault](Fault::code) of the second. Line 0 is
    /// the schedule itself.
    #[error("schedule line {0} fault {1}")]
    Line(u64, u16),
    /// Memory ran out.
    #[error("out of memory")]
    Memory,
}

impl From<AllocError> for ScheduleFault {
    ghost use Rattle.std.specs.Prelude.{◌≡◌};
    ghost use Rattle.smi_schedule.specs.declared.schedule.ScheduleFault.TheVariants as schedule_fault;

    ghost from_gives = { λ _ fault. fault ≡ schedule_fault.Memory };

    fn from(_refused: AllocError) -> ScheduleFault {
        ScheduleFault::Memory
    }
}

impl<T: Drop> From<AllocFailed<T>> for ScheduleFault {
    ghost use Rattle.std.specs.Prelude.{◌≡◌};
    ghost use Rattle.smi_schedule.specs.declared.schedule.ScheduleFault.TheVariants as schedule_fault;

    ghost from_gives = { λ _ fault. fault ≡ schedule_fault.Memory };

    fn from(_refused: AllocFailed<T>) -> ScheduleFault {
        ScheduleFault::Memory
    }
}

/// Reads one line after the items of the lines above it.
fn read_line(
    items: &mut Vec<Item>,
    tree: &Tree,
    number: u64,
    line: &[u8],
) -> Result<(), ScheduleFault>
    ensures { ReadsLine items.old.items (item_in tree.now line.now) number result items.new.items }
{
    match read_item(tree, line) {
        Ok(Some(item)) => {
            items.push(item)?;
            Ok(())
        }
        Ok(None) => Ok(()),
        Err(fault) => Err(ScheduleFault::Line(number, fault.code())),
    }
}

/// Returns the items of the lines of a text, or its first faulty line.
fn read_lines(alloc: Global, tree: &Tree, bytes: &[u8]) -> Result<Vec<Item>, ScheduleFault>
    ensures { Reads (λ items. items.items) result (items_of tree.now (lines bytes.now)) }
{
    let mut items = Vec::new(alloc);
    let mut rest = bytes;
    let mut number = 0;
    while let Some(cut) = first_line(rest) {
        let (line, after) = cut;
        number += 1;
        read_line(&mut items, tree, number, line)?;
        rest = after;
    }
    Ok(items)
}

/// Returns the items that the lines of a text let happen, or its first faulty line with its first fault.
///
/// A text of more than 256 KiB is refused before its lines. Out of memory is answered only if an allocation was
/// refused, which tests alone see.
#[tactic(auto, unfolding(crate::specs::Schedule::schedule_of))]
pub fn read_schedule(alloc: Global, tree: &Tree, bytes: &[u8]) -> Result<Vec<Item>, ScheduleFault>
    ensures { Reads (λ items. items.items) result (schedule_of tree.now bytes.now) }
{
    if bytes.len() > MOST_BYTES_OF_A_FILE {
        return Err(ScheduleFault::Line(0, Fault::FileTooLong.code()));
    }
    read_lines(alloc, tree, bytes)
}
