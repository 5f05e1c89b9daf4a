//! The alarms that somebody has acknowledged on a screen's page. `routing.rt` tests the lines of `POST /api/alarms`
//! here, `page_orders.rt` keeps the list, `orders_json.rt` shows it to all pages, and `order_notes.rt` puts it into the
//! history. docs/FORMATS.md, "Orders from the page", fixes the line. docs/DECISIONS.md says why the list is in no file.

ghost use Rattle.std.specs.Prelude.{◌≡◌, ◌≤◌, ◌<◌, length, vec_capacity, IfSome, OnErr, OnOk};
ghost use Rattle.smi_tree.specs.Declaration.{two_names};
ghost use Rattle.smi_tree.specs.Text.{words};
ghost use Rattle.smi_web.specs.Acknowledgements as spec;

use bytes::Bytes;
use smi_history::{is_all_plain, rest_of, shared};
use smi_tree::{Fault, Name, Tree, two_names};
use std::alloc::{AllocError, Global};
use std::marker::Model;

/// The most acknowledged alarms that are kept. All devices, domains and stations of a tree together are fewer: 768. But
/// each operator's acknowledgement counts, so the list can fill. Then the oldest is dropped. The number is in
/// docs/FORMATS.md, "Orders from the page", and in `specs/Acknowledgements` too.
pub const MOST_ACKNOWLEDGED: usize = 1_024;

/// What can be in alarm, by its word in the line.
#[derive(Clone, Copy)]
enum AlarmKind {
    /// A device in a state that is an alarm.
    Device,
    /// A domain whose unit is in a state that is an alarm.
    Domain,
    /// A station that is silent.
    Station,
}

/// An alarm that somebody has acknowledged.
#[derive(Drop)]
pub struct Acknowledgement {
    /// What is in alarm, and the operator who has acknowledged it: `device PIXEL_HV7 ANN`.
    pub text: Bytes,
    /// When, in milliseconds since the screen began. A page compares it with the time at which the alarm began.
    pub at: u64,
}

/// Returns true if the tree has something of this kind and name.
fn is_known(tree: &Tree, kind: AlarmKind, name: &[u8]) -> bool
    ensures { result ≡ spec.is_known tree.now kind name.now }
{
    match kind {
        AlarmKind::Device => tree.device_named(name).is_some(),
        AlarmKind::Domain => tree.domain_named(name).is_some(),
        AlarmKind::Station => tree.station_named(name).is_some(),
    }
}

/// Returns true if the first of two names is that of something of this kind, and the second that of an operator of the
/// tree.
fn is_by_operator(tree: &Tree, kind: AlarmKind, names: Result<(Name<'_>, Name<'_>), Fault>) -> bool
    ensures { result ≡ spec.is_by_operator tree.now kind names.entry }
{
    match names {
        Ok((name, operator)) => {
            is_known(tree, kind, name.text()) && tree.operator_named(operator.text()).is_some()
        }
        // A text with other than two names acknowledges nothing.
        Err(_) => false,
    }
}

/// Returns true if a text is the name of something of this kind, and then that of an operator.
fn is_alarm(tree: &Tree, kind: AlarmKind, text: &[u8]) -> bool
    ensures { result ≡ spec.is_alarm tree.now kind text.now }
{
    is_by_operator(tree, kind, two_names(text))
}

/// Returns true if a text is a kind, a name of this kind, and an operator: `device PIXEL_HV7 ANN`.
fn is_alarm_text(tree: &Tree, text: &[u8]) -> bool
    ensures { result ≡ spec.is_alarm_text tree.now text.now }
{
    if let Some(names) = rest_of(b"device ", text) {
        return is_alarm(tree, AlarmKind::Device, names);
    }
    if let Some(names) = rest_of(b"domain ", text) {
        return is_alarm(tree, AlarmKind::Domain, names);
    }
    match rest_of(b"station ", text) {
        Some(names) => is_alarm(tree, AlarmKind::Station, names),
        None => false,
    }
}

/// Returns true if a line acknowledges an alarm of something of the tree, by an operator of the tree, and is one line
/// of plain text: `acknowledge device PIXEL_HV7 ANN`.
pub fn is_acknowledgement(tree: &Tree, line: &[u8]) -> bool
    ensures { result ≡ spec.is_acknowledgement tree.now line.now }
{
    if !is_all_plain(line) {
        return false;
    }
    match rest_of(b"acknowledge ", line) {
        Some(text) => is_alarm_text(tree, text),
        None => false,
    }
}

/// The list of the alarms that somebody has acknowledged.
///
/// Contracts see them, the oldest first.
#[derive(Drop)]
pub struct Acknowledgements {
    alloc: Global,
    /// The acknowledgements, the oldest first, `MOST_ACKNOWLEDGED` at most.
    kept: Vec<Acknowledgement>,
}

impl Model for Acknowledgements {
    ghost use Rattle.std.specs.Prelude.{List, ◌≤◌, length};
    ghost use Rattle.smi_web.specs.Acknowledgements.{most_acknowledged};
    ghost use Rattle.smi_web.specs.declared.acknowledgements.Acknowledgement.{Acknowledgement};

    ghost Value = { List Acknowledgement };

    ghost view = { λ a. a.kept.items };

    ghost invariant = { λ a. length a.kept.items ≤ most_acknowledged };
}

/// Returns the index of the acknowledgement with this text. None if there is none.
fn place_of(kept: &[Acknowledgement], text: &[u8]) -> Option<usize>
    ensures place { result ≡ spec.place_of text.now kept.now }
    ensures within { IfSome result (λ i. i < length kept.now) }
{
    kept.iter().position(|one| one.text.as_slice() == text)
}

/// Removes the oldest acknowledgement, if no more can be kept.
fn drop_oldest(kept: &mut Vec<Acknowledgement>)
    requires { length kept.old.items ≤ spec.most_acknowledged }
    ensures items { kept.new.items ≡ spec.without_oldest kept.old.items }
    ensures room { length kept.new.items < spec.most_acknowledged }
    ensures capacity { vec_capacity kept.new ≡ vec_capacity kept.old }
{
    if kept.len() == MOST_ACKNOWLEDGED {
        let _oldest = kept.remove(0);
    }
}

/// Removes the acknowledgement with this text, or the oldest one if there is none and no more can be kept.
fn make_room(kept: &mut Vec<Acknowledgement>, text: &[u8])
    requires { length kept.old.items ≤ spec.most_acknowledged }
    ensures items { kept.new.items ≡ spec.with_room text.now kept.old.items }
    ensures room { length kept.new.items < spec.most_acknowledged }
    ensures capacity { vec_capacity kept.new ≡ vec_capacity kept.old }
{
    match place_of(kept.as_slice(), text) {
        Some(place) => {
            let _earlier = kept.remove(place);
        }
        None => drop_oldest(kept),
    }
}

impl Acknowledgements {
    ghost use Rattle.std.specs.Prelude.{◌≡◌, ◌≤◌, [], length, OnErr, OnOk};
    ghost use Rattle.smi_web.specs.Acknowledgements as spec;

    /// Makes an empty list.
    ///
    /// No clause names `alloc`, from which memory comes.
    pub fn new(alloc: Global) -> Acknowledgements
        ensures { result ≡ [] }
    {
        Acknowledgements {
            alloc,
            kept: Vec::new(alloc),
        }
    }

    /// Returns the acknowledgements, the oldest first.
    pub fn as_slice(&self) -> &[Acknowledgement]
        ensures items { result.now ≡ self.now }
        ensures most { length result.now ≤ spec.most_acknowledged }
    {
        self.kept.as_slice()
    }

    /// Adds the acknowledgement of this text as the newest, with the time `now`.
    fn note(&mut self, text: &[u8], now: u64) -> Result<(), AllocError>
        ensures ok { OnOk result (self.new ≡ spec.noted self.old text.now now) }
        ensures err { OnErr result (self.new ≡ self.old) }
    {
        let one = Acknowledgement {
            text: shared(Vec::from_slice(self.alloc, text)?)?,
            at: now,
        };
        self.kept.reserve(1)?;
        make_room(&mut self.kept, text);
        match self.kept.push(one) {
            Ok(()) => Ok(()),
            // `reserve` has made room for one, and `make_room` takes none of it away.
            Err(_) => unreachable!(),
        }
    }

    /// Adds what a line acknowledges as the newest. An earlier one with the same text is removed. If there is none, and
    /// no more can be kept, the oldest is removed. A line that acknowledges nothing changes nothing.
    ///
    /// Fails only if memory is refused (tested, not proved), and changes nothing then.
    pub fn acknowledge(&mut self, line: &[u8], now: u64) -> Result<(), AllocError>
        ensures ok { OnOk result (self.new ≡ spec.acknowledged self.old line.now now) }
        ensures err { OnErr result (self.new ≡ self.old) }
    {
        match rest_of(b"acknowledge ", line) {
            Some(text) => self.note(text, now),
            None => Ok(()),
        }
    }
}
