//! What a node has done, in numbers that only rise.

use smi_link::LinkFault;
use smi_protocol::{Heard, StepFault};
use std::alloc::AllocError;
use std::io::Write;
use std::sync::atomic::{AtomicU64, Ordering};

/// How many refusals there are of datagrams, from 1, and of orders, from 21.
const REFUSALS: usize = 15;

/// Counts what a node has done since it began. The node's thread raises the numbers while others read them. Each rises
/// by itself: two that are read together may be of two moments.
#[derive(Drop)]
pub struct NodeStats {
    received: AtomicU64,
    foreign: AtomicU64,
    sent: AtomicU64,
    unsent: AtomicU64,
    ticks: AtomicU64,
    faults: AtomicU64,
    saved: AtomicU64,
    unsaved: AtomicU64,
    unmade: AtomicU64,
    refused: [AtomicU64; REFUSALS],
}

/// Raises a number by one.
fn raise(number: &AtomicU64) {
    number.fetch_add(1, Ordering::Relaxed);
}

fn zero() -> AtomicU64 {
    AtomicU64::new(0)
}

/// Returns the place of a refusal among all: those of datagrams, 1 to 9, and after them those of orders, 21 to 26.
fn place_of(refusal: u16) -> Option<usize> {
    match refusal {
        1..=9 => Some(usize::from(refusal) - 1),
        21..=26 => Some(usize::from(refusal) - 12),
        _ => None,
    }
}

/// Returns the refusal at a place.
fn refusal_at(place: usize) -> usize {
    if place < 9 {
        place.saturating_add(1)
    } else {
        place.saturating_add(12)
    }
}

impl NodeStats {
    /// Makes the numbers of a node that has done nothing.
    pub fn new() -> NodeStats {
        NodeStats {
            received: zero(),
            foreign: zero(),
            sent: zero(),
            unsent: zero(),
            ticks: zero(),
            faults: zero(),
            saved: zero(),
            unsaved: zero(),
            unmade: zero(),
            refused: [
                zero(),
                zero(),
                zero(),
                zero(),
                zero(),
                zero(),
                zero(),
                zero(),
                zero(),
                zero(),
                zero(),
                zero(),
                zero(),
                zero(),
                zero(),
            ],
        }
    }

    /// Counts a refusal by its number.
    fn count_refusal(&self, refusal: u16) {
        if let Some(number) = place_of(refusal).and_then(|place| self.refused.get(place)) {
            raise(number);
        }
    }

    /// Counts a datagram that came.
    pub(crate) fn count_received(&self) {
        raise(&self.received);
    }

    /// Notes how many datagrams from foreign sources have come.
    pub(crate) fn note_foreign(&self, count: u64) {
        self.foreign.store(count, Ordering::Relaxed);
    }

    /// Counts that nothing came.
    pub(crate) fn count_tick(&self) {
        raise(&self.ticks);
    }

    /// Counts a fault of the link.
    pub(crate) fn count_fault(&self) {
        raise(&self.faults);
    }

    /// Counts what a step answered.
    pub(crate) fn count_step(&self, made: &Result<Heard, StepFault>) {
        match made {
            Ok(Heard::Refused(refusal)) => self.count_refusal(*refusal),
            Ok(Heard::Same) | Err(StepFault::Stopped) => {}
            Ok(Heard::Done) => raise(&self.saved),
            Err(StepFault::NotStored) => raise(&self.unsaved),
            Err(StepFault::Memory) => raise(&self.unmade),
        }
    }

    /// Writes the line of all numbers into a buffer, in place of what was there (docs/FORMATS.md, "A node's lines").
    ///
    /// Fails only if memory was refused to the buffer, which tests alone see. The buffer is empty then.
    pub fn spell(&self, text: &mut Vec<u8>) -> Result<(), AllocError> {
        text.clear();
        let spelled = self.spell_all(text);
        if spelled.is_err() {
            text.clear();
            return Err(AllocError);
        }
        Ok(())
    }

    fn spell_all(&self, text: &mut Vec<u8>) -> Result<(), AllocError> {
        push(text, "counts", None)?;
        push(text, " received", Some(&self.received))?;
        push(text, " sent", Some(&self.sent))?;
        push(text, " unsent", Some(&self.unsent))?;
        push(text, " ticks", Some(&self.ticks))?;
        push(text, " faults", Some(&self.faults))?;
        push(text, " saved", Some(&self.saved))?;
        push(text, " unsaved", Some(&self.unsaved))?;
        push(text, " unmade", Some(&self.unmade))?;
        for (place, number) in self.refused.iter().enumerate() {
            push(text, " refused", None)?;
            push_number(text, refusal_at(place) as u64)?;
            push(text, "", Some(number))?;
        }
        push(text, " foreign", Some(&self.foreign))?;
        text.push(b'\n')?;
        Ok(())
    }
}

/// Counts a datagram that the link took, or did not, if anybody reads the counts.
pub(crate) fn count_send(stats: Option<&NodeStats>, sent: Result<(), LinkFault>) {
    if let Some(stats) = stats {
        match sent {
            Ok(()) => raise(&stats.sent),
            Err(_) => raise(&stats.unsent),
        }
    }
}

/// Writes a word, and a number after a space, at the end of a text.
fn push(text: &mut Vec<u8>, word: &str, number: Option<&AtomicU64>) -> Result<(), AllocError> {
    text.extend_from_slice(word.as_bytes())?;
    match number {
        Some(number) => {
            text.push(b' ')?;
            push_number(text, number.load(Ordering::Relaxed))
        }
        None => Ok(()),
    }
}

fn push_number(text: &mut Vec<u8>, number: u64) -> Result<(), AllocError> {
    match write!(text, "{number}") {
        Ok(()) => Ok(()),
        Err(_) => Err(AllocError),
    }
}
