//! Writes the doubts about a lawful tree file, a line each: what is lawful and surely not meant. `check.rt` calls
//! `tell` for `smi check --lint`. Which doubts there are, their order and their words are in docs/FORMATS.md, "Doubts",
//! and `tests/doubts.py` judges them a second time. The kinds of doubts are decided in files beside this
//! one, as `idle_actions.rt`.

ghost use Rattle.std.specs.Prelude.{◌≤◌};
ghost use Rattle.smi_tree.specs.Lookups.{state_count, action_count, domain_count, device_count};

use crate::idle_actions::is_idle;
use crate::obedient_devices::is_obedient;
use crate::refused_actions::is_refused;
use crate::rule_holes::{is_mixed, is_unruled};
use crate::twin_addresses::twin;
use crate::unreached_states::is_unreached;
use smi_tree::Tree;
use std::io::{self, Write};

/// Writes a line for each doubt about a tree: of stations, of actions by domain, of rules by domain, of states, of
/// devices, each by number. A line that can't be written is left out or cut short, because doubts do not change the
/// status.
///
/// It has no clause: it writes words, which tests/trees.py compares. The functions that look for a
/// doubt say by clauses whether there is one.
pub fn tell<W: Write>(tree: &Tree, writer: &mut W) {
    for station in 1..=tree.station_count() {
        if let Some(other) = twin(tree, station) {
            let _ = tell_twin(tree, station, other, writer);
        }
    }
    for domain in 1..=tree.domain_count() {
        tell_actions(tree, domain, writer);
    }
    for domain in 1..=tree.domain_count() {
        tell_rules(tree, domain, writer);
    }
    for state in 1..=tree.state_count() {
        if is_unreached(tree, state) {
            let _ = tell_unreached(tree, state, writer);
        }
    }
    for device in 1..=tree.device_count() {
        for action in 1..=tree.action_count() {
            if is_obedient(tree, device, action) {
                let _ = tell_obedient(tree, device, action, writer);
            }
        }
    }
}

/// Writes the doubts about the actions of a domain's class: idle ones, and refused ones.
fn tell_actions<W: Write>(tree: &Tree, domain: u16, writer: &mut W)
    requires least { 1 ≤ domain }
    requires most { domain ≤ domain_count tree.now }
{
    for action in 1..=tree.action_count() {
        if is_idle(tree, domain, action) {
            let _ = tell_idle(tree, domain, action, writer);
        }
        if is_refused(tree, domain, action) {
            let _ = tell_refused(tree, domain, action, writer);
        }
    }
}

/// Writes the doubts about the rules of a domain's class. The states over two or more of which no rule holds are in one
/// line.
fn tell_rules<W: Write>(tree: &Tree, domain: u16, writer: &mut W)
    requires least { 1 ≤ domain }
    requires most { domain ≤ domain_count tree.now }
{
    for state in 1..=tree.state_count() {
        if is_unruled(tree, domain, state) {
            let _ = tell_unruled(tree, domain, state, writer);
        }
    }
    let mut is_begun = false;
    for state in 1..=tree.state_count() {
        if is_mixed(tree, domain, state) {
            let _ = tell_mixed(tree, domain, state, is_begun, writer);
            is_begun = true;
        }
    }
    if is_begun {
        let _ = writer.write_all(b"\n");
    }
}

/// Returns the name of a station, or an empty text if the tree does not have it.
fn name_of(tree: &Tree, station: u16) -> &[u8] {
    if 1 <= station && station <= tree.station_count() {
        tree.station_name(station)
    } else {
        b""
    }
}

/// Writes that a station has the address of another one.
fn tell_twin<W: Write>(tree: &Tree, station: u16, other: u16, writer: &mut W) -> io::Result<()> {
    writer.write_all(b"doubt: station ")?;
    writer.write_all(name_of(tree, station))?;
    writer.write_all(b" has the address of station ")?;
    writer.write_all(name_of(tree, other))?;
    writer.write_all(b"\n")
}

/// Writes that a domain accepts an action by which no device moves.
fn tell_idle<W: Write>(tree: &Tree, domain: u16, action: u16, writer: &mut W) -> io::Result<()>
    requires least_domain { 1 ≤ domain }
    requires most_domain { domain ≤ domain_count tree.now }
    requires least_action { 1 ≤ action }
    requires most_action { action ≤ action_count tree.now }
{
    writer.write_all(b"doubt: domain ")?;
    writer.write_all(tree.domain_name(domain))?;
    writer.write_all(b" accepts ")?;
    writer.write_all(tree.action_name(action))?;
    writer.write_all(b", by which no device moves below a domain of its class\n")
}

/// Writes that a domain does not accept an action that its parent accepts.
fn tell_refused<W: Write>(tree: &Tree, domain: u16, action: u16, writer: &mut W) -> io::Result<()>
    requires least_domain { 1 ≤ domain }
    requires most_domain { domain ≤ domain_count tree.now }
    requires least_action { 1 ≤ action }
    requires most_action { action ≤ action_count tree.now }
{
    writer.write_all(b"doubt: domain ")?;
    writer.write_all(tree.domain_name(domain))?;
    writer.write_all(b" does not accept ")?;
    writer.write_all(tree.action_name(action))?;
    writer.write_all(
        b", which its parent accepts, so each such order from above ends with code 1\n",
    )
}

/// Writes that a domain keeps its old state if all its members are in one state.
fn tell_unruled<W: Write>(tree: &Tree, domain: u16, state: u16, writer: &mut W) -> io::Result<()>
    requires least_domain { 1 ≤ domain }
    requires most_domain { domain ≤ domain_count tree.now }
    requires least_state { 1 ≤ state }
    requires most_state { state ≤ state_count tree.now }
{
    writer.write_all(b"doubt: domain ")?;
    writer.write_all(tree.domain_name(domain))?;
    writer.write_all(b" keeps its old state if all its members are in ")?;
    writer.write_all(tree.state_name(state))?;
    writer.write_all(b"\n")
}

/// Writes a state of those over two or more of which no rule holds, after the ones before it. Before the first of them
/// it writes the front of the line: `is_begun` is false then. The caller ends the line.
fn tell_mixed<W: Write>(
    tree: &Tree,
    domain: u16,
    state: u16,
    is_begun: bool,
    writer: &mut W,
) -> io::Result<()>
    requires least_domain { 1 ≤ domain }
    requires most_domain { domain ≤ domain_count tree.now }
    requires least_state { 1 ≤ state }
    requires most_state { state ≤ state_count tree.now }
{
    if !is_begun {
        writer.write_all(b"doubt: domain ")?;
        writer.write_all(tree.domain_name(domain))?;
        writer.write_all(b" keeps its old state if its members are in two or more of")?;
    }
    writer.write_all(b" ")?;
    writer.write_all(tree.state_name(state))
}

/// Writes that an action moves a device that nobody has reported.
fn tell_obedient<W: Write>(tree: &Tree, device: u16, action: u16, writer: &mut W) -> io::Result<()>
    requires least_device { 1 ≤ device }
    requires most_device { device ≤ device_count tree.now }
    requires least_action { 1 ≤ action }
    requires most_action { action ≤ action_count tree.now }
{
    writer.write_all(b"doubt: device ")?;
    writer.write_all(tree.device_name(device))?;
    writer.write_all(b" is moved by ")?;
    writer.write_all(tree.action_name(action))?;
    writer.write_all(b" though nobody has reported it\n")
}

/// Writes that nothing begins in a state and that nothing leads to it.
fn tell_unreached<W: Write>(tree: &Tree, state: u16, writer: &mut W) -> io::Result<()>
    requires least { 1 ≤ state }
    requires most { state ≤ state_count tree.now }
{
    writer.write_all(b"doubt: nothing begins in state ")?;
    writer.write_all(tree.state_name(state))?;
    writer.write_all(b", and no rule or move leads to it\n")
}
