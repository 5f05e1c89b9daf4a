//! What an item makes of which station, told from the text of docs/FORMATS.md, "Schedules".

use smi_protocol::{Deed, Event, Item, Moment};
use smi_rows::Plan;
use smi_tree::Tree;

/// What is made of a station.
#[derive(Clone, Copy)]
pub(super) enum StationTurn {
    /// The event comes.
    Come,
    /// The event comes, and the save of its step fails so.
    Fail(Plan),
    /// The event comes, and the station stops after the save and is started again.
    StopAfter,
    /// The station is started again.
    Start,
}

/// What is made of which station.
#[derive(Clone, Copy)]
pub(super) struct Turn<'a> {
    pub station: u16,
    pub doing: StationTurn,
    pub event: Event<'a>,
}

/// Has a datagram reach its receiver.
fn delivered(sent: Option<&[u8; 44]>) -> Option<(u16, Event<'_>)> {
    let bytes = sent?;
    Some((
        u16::from_be_bytes([bytes[6], bytes[7]]),
        Event::Datagram(bytes),
    ))
}

/// Returns the station of a device's domain.
fn reported(tree: &Tree, device: u16, state: u16) -> Option<(u16, Event<'static>)> {
    if device < 1 || tree.device_count() < device {
        return None;
    }
    let domain = tree.device(device).domain;
    if domain < 1 || tree.domain_count() < domain {
        return None;
    }
    Some((tree.domain(domain).station, Event::Report(device, state)))
}

/// Returns which station an event reaches.
fn coming<'a>(tree: &Tree, sent: &'a [[u8; 44]], deed: &Deed) -> Option<(u16, Event<'a>)> {
    match *deed {
        Deed::Deliver(number) => delivered(sent.get((number as usize).wrapping_sub(1))),
        Deed::Recent(before) => {
            let place = sent.len().wrapping_sub(1).wrapping_sub(before as usize);
            delivered(sent.get(place))
        }
        Deed::Order(operator, order) => {
            if operator < 1 || tree.operator_count() < operator {
                return None;
            }
            Some((
                tree.operator_station(operator),
                Event::Order(operator, order),
            ))
        }
        Deed::Report(device, state) => reported(tree, device, state),
        Deed::Tick(station) => Some((station, Event::Tick)),
    }
}

fn started<'a>(station: u16) -> Turn<'a> {
    Turn {
        station,
        doing: StationTurn::Start,
        event: Event::Tick,
    }
}

/// Returns the event of this station, and what is then made of it.
fn at<'a>(station: u16, doing: StationTurn, coming: Option<(u16, Event<'a>)>) -> Option<Turn<'a>> {
    match coming {
        Some((there, event)) if there == station => Some(Turn {
            station,
            doing,
            event,
        }),
        _ => None,
    }
}

/// Returns what an item makes, if it makes anything.
pub(super) fn turn_of<'a>(tree: &Tree, sent: &'a [[u8; 44]], item: &Item) -> Option<Turn<'a>> {
    match item {
        Item::Do(deed) => {
            let (station, event) = coming(tree, sent, deed)?;
            Some(Turn {
                station,
                doing: StationTurn::Come,
                event,
            })
        }
        Item::Restart(station) => Some(started(*station)),
        Item::Stop(station, Moment::Before, _) => Some(started(*station)),
        Item::Stop(station, Moment::After, deed) => {
            let turn = at(*station, StationTurn::StopAfter, coming(tree, sent, deed));
            Some(turn.unwrap_or(started(*station)))
        }
        Item::Fail(station, how, deed) => {
            at(*station, StationTurn::Fail(*how), coming(tree, sent, deed))
        }
    }
}
