//! Worked examples, played on two stations that exchange their datagrams.

use crate::tables::{
    A, ANN, B, BOB, Bytes, CONFIGURE, DCS, READY, TPC, Table, Tried, rows_in, step,
};
use crate::{bytes, tables};
use smi_grant::{Holder, Shown, Version};
use smi_message::encode;
use smi_protocol::{Event, Heard, Order};
use smi_station_output::Out;
use std::alloc::{AllocError, Global};
use std::test::Fail;

const HV: u16 = 3;

// The kinds of datagrams, as their fourth byte has them.
const TAKE: u8 = 2;

const DROP: u8 = 3;

const RUN: u8 = 4;

const TELL: u8 = 5;

/// What reaches a station: an order, a report, a tick, or the datagram that was sent as this one, from 1.
#[derive(Clone, Copy)]
pub(crate) enum PlayedInput {
    Order(u16, Order),
    Report(u16, u16),
    Tick,
    Deliver(usize),
}

/// What the station has to make of it.
#[derive(Clone, Copy)]
pub(crate) enum Expected {
    /// What it hears, the kinds and receivers of what it sends, and whom it answers with which code.
    Told(Heard, &'static [(u8, u16)], &'static [(u16, u16)]),
    /// The bytes that it sends, and a row that it has then.
    Bytes(&'static [Bytes], bytes::Saved),
}

/// Which station an event reaches.
#[derive(Clone, Copy)]
pub(crate) struct Play {
    pub station: u16,
    pub input: PlayedInput,
    pub made: Expected,
}

const fn row(
    station: u16,
    input: PlayedInput,
    heard: Heard,
    sent: &'static [(u8, u16)],
    answers: &'static [(u16, u16)],
) -> Play {
    Play {
        station,
        input,
        made: Expected::Told(heard, sent, answers),
    }
}

/// Returns "Configured through the hierarchy", from the first take on, and the first datagram once more.
fn configured() -> [Play; 14] {
    [
        row(
            A,
            PlayedInput::Order(ANN, Order::Take(DCS)),
            Heard::Done,
            &[(TAKE, A)],
            &[],
        ),
        row(A, PlayedInput::Deliver(1), Heard::Done, &[(TELL, A)], &[]),
        row(A, PlayedInput::Deliver(2), Heard::Done, &[], &[(ANN, 0)]),
        row(
            A,
            PlayedInput::Order(ANN, Order::Include(DCS, TPC)),
            Heard::Done,
            &[(RUN, A)],
            &[],
        ),
        row(
            A,
            PlayedInput::Deliver(3),
            Heard::Done,
            &[(TELL, A), (TAKE, B)],
            &[],
        ),
        row(B, PlayedInput::Deliver(5), Heard::Done, &[(TELL, A)], &[]),
        row(A, PlayedInput::Deliver(6), Heard::Done, &[(TELL, A)], &[]),
        row(A, PlayedInput::Deliver(7), Heard::Done, &[], &[(ANN, 0)]),
        row(
            A,
            PlayedInput::Order(ANN, Order::Do(DCS, CONFIGURE)),
            Heard::Done,
            &[(RUN, A)],
            &[],
        ),
        row(
            A,
            PlayedInput::Deliver(8),
            Heard::Done,
            &[(TELL, A), (RUN, B)],
            &[],
        ),
        row(B, PlayedInput::Deliver(10), Heard::Done, &[(TELL, A)], &[]),
        row(A, PlayedInput::Deliver(11), Heard::Done, &[(TELL, A)], &[]),
        row(A, PlayedInput::Deliver(12), Heard::Done, &[], &[(ANN, 0)]),
        row(A, PlayedInput::Deliver(1), Heard::Same, &[(TELL, A)], &[]),
    ]
}

/// Returns "Take and drop", with an order that is not for the station, and a datagram that is for the other one.
fn taken_and_dropped() -> [Play; 9] {
    [
        row(
            B,
            PlayedInput::Order(BOB, Order::Take(TPC)),
            Heard::Done,
            &[(TAKE, B)],
            &[],
        ),
        row(B, PlayedInput::Deliver(1), Heard::Done, &[(TELL, B)], &[]),
        row(B, PlayedInput::Deliver(2), Heard::Done, &[], &[(BOB, 0)]),
        row(
            B,
            PlayedInput::Order(BOB, Order::Drop(TPC)),
            Heard::Done,
            &[(DROP, B)],
            &[],
        ),
        row(B, PlayedInput::Deliver(3), Heard::Done, &[(TELL, B)], &[]),
        row(B, PlayedInput::Deliver(4), Heard::Done, &[], &[(BOB, 0)]),
        row(B, PlayedInput::Deliver(1), Heard::Same, &[(TELL, B)], &[]),
        row(
            B,
            PlayedInput::Order(ANN, Order::Take(TPC)),
            Heard::Refused(26),
            &[],
            &[(ANN, 26)],
        ),
        row(A, PlayedInput::Deliver(1), Heard::Refused(8), &[], &[]),
    ]
}

/// Returns the kind and the receiver of a datagram, by its bytes.
fn address(bytes: &Bytes) -> (u8, u16) {
    (bytes[3], u16::from_be_bytes([bytes[6], bytes[7]]))
}

/// Returns true if a step has handed out datagrams of these kinds to these receivers, and these answers.
fn is_as_told(out: &Out, sent: &[(u8, u16)], answers: &[(u16, u16)]) -> bool {
    let datagrams = out.datagrams();
    let given = out.answers();
    datagrams.len() == sent.len()
        && given.len() == answers.len()
        && datagrams
            .iter()
            .zip(sent)
            .all(|(datagram, wanted)| address(&encode(datagram)) == *wanted)
        && given.iter().zip(answers).all(|(answer, wanted)| (answer.operator, answer.told.code)
            == *wanted)
}

/// Puts what is sent after all that was sent before.
fn keep(sent: &mut Vec<Bytes>, out: &Out) -> Result<(), AllocError> {
    for datagram in out.datagrams() {
        sent.push(encode(datagram))?;
    }
    Ok(())
}

fn event_of(sent: &[Bytes], input: PlayedInput) -> Option<Event<'_>> {
    match input {
        PlayedInput::Order(operator, order) => Some(Event::Order(operator, order)),
        PlayedInput::Report(device, state) => Some(Event::Report(device, state)),
        PlayedInput::Tick => Some(Event::Tick),
        PlayedInput::Deliver(number) => match sent.get(number.wrapping_sub(1)) {
            Some(bytes) => Some(Event::Datagram(bytes)),
            None => None,
        },
    }
}

/// Returns true if the store of a station has a row.
fn has(station: &mut Tried<'_>, wanted: bytes::Saved) -> bool {
    match rows_in(station.stable_mut()) {
        Ok(list) => bytes::is_saved(&list, wanted),
        Err(_) => false,
    }
}

/// Plays one row at its station. Returns true if it comes out as told.
fn act(station: &mut Tried<'_>, out: &mut Out, sent: &[Bytes], play: &Play) -> bool {
    let Some(event) = event_of(sent, play.input) else {
        return false;
    };
    let heard = step(station, out, event);
    match play.made {
        Expected::Told(wanted, sent, answers) => heard == Ok(wanted)
            && is_as_told(out, sent, answers),
        Expected::Bytes(sent, saved) => {
            heard.is_ok() && bytes::are_sent(out, sent) && has(station, saved)
        }
    }
}

/// Returns how many rows, from the first on, come out as told.
pub(crate) fn count_of(
    alloc: Global,
    a: &mut Tried<'_>,
    b: &mut Tried<'_>,
    out: &mut Out,
    plays: &[Play],
) -> usize {
    let mut sent = Vec::new(alloc);
    play_all(a, b, out, &mut sent, plays)
}

fn play_all(
    a: &mut Tried<'_>,
    b: &mut Tried<'_>,
    out: &mut Out,
    sent: &mut Vec<Bytes>,
    plays: &[Play],
) -> usize {
    let mut good = 0;
    for play in plays {
        let is_so = if play.station == A {
            act(a, out, sent.as_slice(), play)
        } else {
            act(b, out, sent.as_slice(), play)
        };
        if !is_so || keep(sent, out).is_err() {
            return good;
        }
        good = good.wrapping_add(1);
    }
    good
}

/// Epoch, holder and last number of a domain.
type Stands = (u64, Holder, u32);

/// What a station tells of itself: of a domain, and what that and the device show.
type StationTold = (Option<Stands>, Option<Shown>, Option<Shown>);

fn told(station: &Tried<'_>, domain: u16) -> StationTold {
    let stands = station
        .record(domain)
        .map(|record| (record.epoch, record.holder, record.last));
    (stands, station.current(domain), station.current(HV))
}

/// Returns one more if A tells this of DCS at the end, and B this of TPC.
fn ended(good: usize, a: &Tried<'_>, b: &Tried<'_>, of_a: StationTold, of_b: StationTold) -> usize {
    if told(a, DCS) == of_a && told(b, TPC) == of_b {
        good.wrapping_add(1)
    } else {
        good
    }
}

const fn shown(object: u16, sequence: u32, state: u16) -> Option<Shown> {
    Some(Shown {
        object,
        version: Version { boot: 1, sequence },
        state,
    })
}

pub(crate) fn of_configured(
    alloc: Global,
    a: &mut Tried<'_>,
    b: &mut Tried<'_>,
    out: &mut Out,
) -> usize {
    let good = count_of(alloc, a, b, out, &configured());
    let held = Some((1, Holder::Operator(ANN), 2));
    let below = Some((1, Holder::Domain(DCS), 1));
    let of_b = (below, shown(TPC, 1, READY), shown(HV, 1, READY));
    ended(good, a, b, (held, shown(DCS, 0, 1), None), of_b)
}

pub(crate) fn of_dropped(
    alloc: Global,
    a: &mut Tried<'_>,
    b: &mut Tried<'_>,
    out: &mut Out,
) -> usize {
    let good = count_of(alloc, a, b, out, &taken_and_dropped());
    let free = Some((0, Holder::Free, 0));
    let dropped = Some((2, Holder::Free, 0));
    let of_b = (dropped, shown(TPC, 0, 1), shown(HV, 0, 1));
    ended(good, a, b, (free, shown(DCS, 0, 1), None), of_b)
}

#[test]
fn worked_examples(rt: HostRuntime) -> Result<(), Fail> {
    let good = [
        tables::count_of(rt.alloc(), Table::Configured),
        tables::count_of(rt.alloc(), Table::TakenAndDropped),
    ];
    // Each row, and what the stations tell at the end.
    assert_eq!(rt; good, [15, 10]);
    Ok(())
}
