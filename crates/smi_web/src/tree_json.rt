//! Writes the tree as JSON, the answer to `GET /api/tree`: what does not change while the screen runs. `snapshot.rt`
//! calls `write_tree` once. docs/FORMATS.md, "The tree as JSON", fixes the text; pages count things by their places in
//! its lists.
//!
//! Each list is closed by what is written after it. So `Kind::before` begins with a bracket, but for the first kind.

ghost use Rattle.std.specs.Prelude.{◌≡◌, ◌++◌, IfOk, OnOk, option_map};
ghost use Rattle.smi_tree.specs.Hierarchy.{entry};
ghost use Rattle.smi_tree.specs.Lookups.{station_of};
ghost use Rattle.smi_schedule.specs.TraceWords.{domain_word, station_word};
ghost use Rattle.smi_web.specs.TreeJson.{
  accepted_text,
  all_kinds_text,
  before_text,
  device_shape,
  domain_shape,
  kind_count,
  kinds_text,
  operator_shape,
  or_null,
  place_text,
  tree_text,
};
ghost use Rattle.smi_web.specs.Json.{quoted};

use crate::json::{put_flag, put_quoted};
use crate::json_list::{Listing, put_list};
use smi_history::{put, put_number};
use smi_schedule::names;
use smi_tree::Tree;
use std::alloc::{AllocError, Global};

/// Returns the station of an operator, by its number from 1. None if there is no such operator.
fn home_of(tree: &Tree, operator: u16) -> Option<u16>
    ensures { result ≡ entry tree.now.homes operator }
{
    if 1 <= operator && operator <= tree.operator_count() {
        Some(tree.operator_station(operator))
    } else {
        None
    }
}

/// Returns the station of a domain, by its number from 1. None if there is no such domain.
pub(crate) fn station_of(tree: &Tree, domain: u16) -> Option<u16>
    ensures { result ≡ station_of tree.now domain }
{
    if 1 <= domain && domain <= tree.domain_count() {
        Some(tree.domain(domain).station)
    } else {
        None
    }
}

/// Returns the domain of a device, by its number from 1 among devices. None if there is no such device.
fn domain_of(tree: &Tree, device: u16) -> Option<u16>
    ensures { result ≡ option_map (λ row. row.domain) (entry tree.now.devices device) }
{
    if 1 <= device && device <= tree.device_count() {
        Some(tree.device(device).domain)
    } else {
        None
    }
}

/// Appends the name of a station in quotes, or `null` if there is none.
fn put_station(text: &mut Vec<u8>, tree: &Tree, station: Option<u16>) -> Result<(), AllocError>
    ensures { OnOk result (text.new.items ≡
        text.old.items ++ or_null (option_map (λ s. quoted (station_word tree.now s)) station)) }
{
    match station {
        Some(station) => put_quoted(text, b"", names::station(tree, station), station),
        None => put(text, b"null"),
    }
}

/// Appends the name of a domain in quotes, or `null` if there is none.
fn put_domain(text: &mut Vec<u8>, tree: &Tree, domain: Option<u16>) -> Result<(), AllocError>
    ensures { OnOk result (text.new.items ≡
        text.old.items ++ or_null (option_map (λ d. quoted (domain_word tree.now d)) domain)) }
{
    match domain {
        Some(domain) => put_quoted(text, b"", names::domain(tree, domain), domain),
        None => put(text, b"null"),
    }
}

/// Appends an operator: `{"name":"ANN","station":"A"}`.
fn put_operator(text: &mut Vec<u8>, tree: &Tree, number: u16) -> Result<(), AllocError>
    ensures { OnOk result (text.new.items ≡ text.old.items ++ operator_shape tree.now number) }
{
    let name = names::operator(tree, number);
    put_quoted(text, b"{\"name\":", name, number)?;
    put(text, b",\"station\":")?;
    put_station(text, tree, home_of(tree, number))?;
    put(text, b"}")
}

/// Lists of each action whether a domain accepts it.
#[derive(Clone, Copy)]
struct Accepting<'a> {
    tree: &'a Tree,
    domain: u16,
}

impl<'a> Listing for Accepting<'a> {
    ghost use Rattle.smi_web.specs.TreeJson.{accept_text};

    ghost text = { λ s n. accept_text s.tree.now s.domain n };

    fn put(&self, into: &mut Vec<u8>, number: u16) -> Result<(), AllocError> {
        put_flag(into, b"", self.tree.accepts(self.domain, number))
    }
}

/// Appends which actions a domain accepts. The caller closes the list.
fn put_accepted(text: &mut Vec<u8>, tree: &Tree, domain: u16) -> Result<(), AllocError>
    ensures { OnOk result (text.new.items ≡ text.old.items ++ accepted_text tree.now domain) }
{
    put_list(
        text,
        b",\"accepts\":[",
        &Accepting { tree, domain },
        tree.action_count(),
    )?;
    Ok(())
}

/// Appends the front of a domain: its name, its station and its parent.
#[tactic(auto, unfolding(crate::specs::TreeJson::place_text))]
fn put_place(text: &mut Vec<u8>, tree: &Tree, number: u16) -> Result<(), AllocError>
    ensures { OnOk result (text.new.items ≡ text.old.items ++ place_text tree.now number) }
{
    let name = names::domain(tree, number);
    put_quoted(text, b"{\"name\":", name, number)?;
    put(text, b",\"station\":")?;
    put_station(text, tree, station_of(tree, number))?;
    put(text, b",\"parent\":")?;
    put_domain(text, tree, tree.parent(number))
}

/// Appends a domain: `{"name":"TPC","station":"B","parent":"DCS","accepts":[true,..]}`.
fn put_whole_domain(text: &mut Vec<u8>, tree: &Tree, number: u16) -> Result<(), AllocError>
    ensures { OnOk result (text.new.items ≡ text.old.items ++ domain_shape tree.now number) }
{
    put_place(text, tree, number)?;
    put_accepted(text, tree, number)?;
    put(text, b"]}")
}

/// Appends a device: `{"name":"HV","domain":"TPC"}`.
fn put_device(text: &mut Vec<u8>, tree: &Tree, number: u16) -> Result<(), AllocError>
    ensures { OnOk result (text.new.items ≡ text.old.items ++ device_shape tree.now number) }
{
    let name = names::device(tree, number);
    put_quoted(text, b"{\"name\":", name, number)?;
    put(text, b",\"domain\":")?;
    put_domain(text, tree, domain_of(tree, number))?;
    put(text, b"}")
}

/// The kinds of things that a tree has by number, in the order of the lists.
#[derive(Clone, Copy, PartialEq, Eq)]
enum Kind {
    State,
    Action,
    Station,
    Operator,
    Domain,
    Device,
}

/// Lists all things of a kind that a tree has.
#[derive(Clone, Copy)]
struct All<'a> {
    tree: &'a Tree,
    kind: Kind,
}

impl<'a> Listing for All<'a> {
    ghost use Rattle.smi_web.specs.TreeJson.{kind_text};

    ghost text = { λ s n. kind_text s.tree.now s.kind n };

    fn put(&self, into: &mut Vec<u8>, number: u16) -> Result<(), AllocError> {
        let tree = self.tree;
        match self.kind {
            Kind::State => put_quoted(into, b"", names::state(tree, number), number),
            Kind::Action => put_quoted(into, b"", names::action(tree, number), number),
            Kind::Station => put_quoted(into, b"", names::station(tree, number), number),
            Kind::Operator => put_operator(into, tree, number),
            Kind::Domain => put_whole_domain(into, tree, number),
            Kind::Device => put_device(into, tree, number),
        }
    }
}

impl Kind {
    /// Returns what comes before the list of a kind: it closes the list before.
    fn before(self) -> &'static [u8]
        ensures { result.now ≡ before_text self }
    {
        match self {
            Kind::State => b",\"states\":[",
            Kind::Action => b"],\"actions\":[",
            Kind::Station => b"],\"stations\":[",
            Kind::Operator => b"],\"operators\":[",
            Kind::Domain => b"],\"domains\":[",
            Kind::Device => b"],\"devices\":[",
        }
    }

    /// Returns how many of a kind a tree has.
    fn count(self, tree: &Tree) -> u16
        ensures { result ≡ kind_count tree.now self }
    {
        match self {
            Kind::State => tree.state_count(),
            Kind::Action => tree.action_count(),
            Kind::Station => tree.station_count(),
            Kind::Operator => tree.operator_count(),
            Kind::Domain => tree.domain_count(),
            Kind::Device => tree.device_count(),
        }
    }
}

/// Appends the list of a kind. The caller closes it.
#[tactic(auto, unfolding(crate::specs::TreeJson::kinds_text))]
fn put_kinds(text: &mut Vec<u8>, tree: &Tree, kind: Kind) -> Result<(), AllocError>
    ensures { OnOk result (text.new.items ≡ text.old.items ++ kinds_text tree.now kind) }
{
    put_list(text, kind.before(), &All { tree, kind }, kind.count(tree))?;
    Ok(())
}

/// Appends the lists of all kinds. The caller closes the last one.
fn put_all_kinds(text: &mut Vec<u8>, tree: &Tree) -> Result<(), AllocError>
    ensures { OnOk result (text.new.items ≡ text.old.items ++ all_kinds_text tree.now) }
{
    put_kinds(text, tree, Kind::State)?;
    put_kinds(text, tree, Kind::Action)?;
    put_kinds(text, tree, Kind::Station)?;
    put_kinds(text, tree, Kind::Operator)?;
    put_kinds(text, tree, Kind::Domain)?;
    put_kinds(text, tree, Kind::Device)?;
    Ok(())
}

/// Writes the tree in one line of JSON, with a line feed.
///
/// Fails only if memory is refused (tested, not proved). No clause names `alloc`, from which memory comes.
pub fn write_tree(alloc: Global, tree: &Tree) -> Result<Vec<u8>, AllocError>
    ensures { IfOk result (λ text. text.items ≡ tree_text tree.now) }
{
    let mut text = Vec::new(alloc);
    // The version of the program, which has to be that of CHANGELOG.md, of `specs/TreeJson`, and of `VERSION` in
    // `crates/smi_session/src/reply.rt`.
    put_number(
        &mut text,
        b"{\"version\":\"0.9\",\"tree\":",
        u64::from(tree.number()),
    )?;
    put_all_kinds(&mut text, tree)?;
    put(&mut text, b"]}\n")?;
    Ok(text)
}
