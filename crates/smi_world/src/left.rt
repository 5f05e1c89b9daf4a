use smi_grant::{Shown, Version};
use smi_station_output::{Out, object_home};
use smi_tree::Tree;
use std::alloc::AllocError;
use std::marker::Model;

/// What an item leaves: its entries of the trace, and what it sends. It lies in the value itself, so it takes no
/// memory.
#[derive(Drop)]
pub struct Left {
    /// The station at which the item was made.
    pub(crate) station: u16,
    /// The boot with which the station has started, if it has.
    pub(crate) started: Option<u32>,
    /// What the step has handed out, with what its save left and what the station's objects newly show.
    pub(crate) out: Out,
    /// How many datagrams were sent before.
    pub(crate) before: u64,
}

impl Model for Left {
    ghost use Rattle.std.specs.Prelude.{◌≤◌};
    ghost use Rattle.smi_world.specs.Left as left;

    ghost Value = { left.Left };

    ghost view = { λ l. record {
      station = l.station;
      started = l.started;
      out = l.out;
      before = l.before;
    } };

    ghost invariant = { λ l. l.before ≤ left.most_before };
}

/// Adds a line for each entry.
fn push_entries(lines: &mut Vec<Line>, entries: &[Entry]) -> Result<(), AllocError>
    ensures { OnOk result (lines.new.items ≡ lines.old.items ++ map line.Entry entries.now) }
{
    for entry in entries {
        lines.push(Line::Entry(*entry))?;
    }
    Ok(())
}

ghost use Rattle.std.specs.Prelude.{◌≡◌, ◌++◌, ◌+◌, ◌≤◌, map, OnOk};
ghost use Rattle.smi_protocol.specs.declared.item.Line.TheVariants as line;
ghost use Rattle.smi_protocol.specs.declared.entry.Entry.TheVariants as entry;

/// Adds a line for each object that has changed.
fn push_passed(lines: &mut Vec<Line>, passed: &[Shown]) -> Result<(), AllocError>
    ensures { OnOk result (lines.new.items ≡ lines.old.items ++ map line.Entry (map entry.Passed passed.now)) }
{
    for shown in passed {
        lines.push(Line::Entry(Entry::Passed(*shown)))?;
    }
    Ok(())
}

/// Adds a line for each answer.
fn push_told(lines: &mut Vec<Line>, answers: &[Answer]) -> Result<(), AllocError>
    ensures { OnOk result (lines.new.items ≡ lines.old.items ++ map line.Entry (told_entries answers.now)) }
{
    for answer in answers {
        lines.push(Line::Entry(Entry::Told {
            operator: answer.operator,
            told: answer.told,
        }))?;
    }
    Ok(())
}

ghost use Rattle.smi_protocol.specs.Happening.{told_entries};

use smi_message::Datagram;
use smi_protocol::{Answer, Entry, Line};

/// Adds a line.
fn push_line(lines: &mut Vec<Line>, line: &Line) -> Result<(), AllocError>
    ensures { OnOk result (lines.new.items ≡ lines.old.items ++ line.now ∷ []) }
{
    match line {
        Line::Entry(entry) => lines.push(Line::Entry(*entry))?,
        Line::Sent(number, datagram) => lines.push(Line::Sent(*number, *datagram))?,
    }
    Ok(())
}

ghost use Rattle.std.specs.Prelude.{◌∷◌, []};

/// Returns what an object shows when a station starts with this boot, if the station keeps it.
fn first_shown(tree: &Tree, station: u16, boot: u32, object: u16) -> Option<Shown>
    requires least { 1 ≤ object }
    requires most { object ≤ domain_count tree.now + device_count tree.now }
    ensures { result ≡ shown_at boot (first_condition tree.now station) object }
{
    if object_home(tree, object) != station {
        return None;
    }
    let state = tree.first_state(object)?;
    Some(Shown {
        object,
        version: Version { boot, sequence: 0 },
        state,
    })
}

ghost use Rattle.smi_tree.specs.Lookups.{domain_count, device_count};
ghost use Rattle.smi_publish.specs.Published.{shown_at};
ghost use Rattle.smi_publish.specs.Publishing.{first_condition};

/// Adds a line for what an object shows, if it is kept.
fn push_shown(lines: &mut Vec<Line>, shown: Option<Shown>) -> Result<(), AllocError>
    ensures { OnOk result (lines.new.items ≡ lines.old.items ++ map line.Entry (map entry.Passed (if_any shown))) }
{
    if let Some(shown) = shown {
        lines.push(Line::Entry(Entry::Passed(shown)))?;
    }
    Ok(())
}

ghost use Rattle.smi_protocol.specs.Messages.{if_any};

/// Adds the lines of a station's start: it has started with this boot, and then what its objects show.
pub(crate) fn push_start(
    lines: &mut Vec<Line>,
    tree: &Tree,
    station: u16,
    boot: u32,
) -> Result<(), AllocError>
    ensures { OnOk result (lines.new.items ≡ lines.old.items
        ++ map line.Entry (start_entries tree.now station (Some boot))) }
{
    lines.push(Line::Entry(Entry::Booted { station, boot }))?;
    let count = tree.object_count();
    for object in 0..count {
        push_shown(lines, first_shown(tree, station, boot, object + 1))?;
    }
    Ok(())
}

ghost use Rattle.std.specs.Prelude.{Some};
ghost use Rattle.smi_world.specs.Left.{start_entries};

impl Left {
    ghost use Rattle.std.specs.Prelude.{◌≡◌, ◌+◌, ◌++◌, OnOk};
    ghost use Rattle.smi_protocol.specs.Schedule.{sent_lines};
    ghost use Rattle.smi_world.specs.Left.{lines_left, nothing_left};

    /// Returns a trace of nothing.
    pub fn new() -> Left
        ensures { result ≡ nothing_left 0 0 }
    {
        Left {
            station: 0,
            started: None,
            out: Out::new(),
            before: 0,
        }
    }

    /// Takes all lines away; how many datagrams were sent before stays.
    pub(crate) fn clear(&mut self)
        ensures { self.new ≡ nothing_left self.old.station self.old.before }
    {
        self.started = None;
        self.out.clear();
    }

    /// Adds what is left, line by line. Out of memory is answered only if an allocation was refused,
    /// which tests alone see.
    pub fn push_lines(&self, tree: &Tree, lines: &mut Vec<Line>) -> Result<(), AllocError>
        ensures { OnOk result (lines.new.items ≡ lines.old.items ++ lines_left tree.now self.now) }
    {
        push_entries(lines, self.out.entries().as_slice())?;
        if let Some(boot) = self.started {
            push_start(lines, tree, self.station, boot)?;
        }
        if let Some(shown) = self.out.shown() {
            lines.push(Line::Entry(Entry::Showed {
                station: self.station,
                shown,
            }))?;
        }
        push_passed(lines, self.out.transitions().as_slice())?;
        push_told(lines, self.out.answers())?;
        self.push_sent(lines)
    }

    /// Adds a line for each datagram that is sent, by its number.
    fn push_sent(&self, lines: &mut Vec<Line>) -> Result<(), AllocError>
        ensures { OnOk result (lines.new.items ≡ lines.old.items
            ++ sent_lines (self.now.before + 1) self.now.out.datagrams) }
    {
        let mut number = self.before;
        for datagram in self.out.datagrams() {
            number += 1;
            push_line(lines, &Line::Sent(number, *datagram))?;
        }
        Ok(())
    }
}
