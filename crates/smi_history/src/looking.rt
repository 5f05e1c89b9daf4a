//! Finds what is new in a picture since the look before, and makes notes of it: states, records, and domains whose
//! station fell silent or is heard again. `history.rt` calls `put_notes` and `put_silences`. docs/FORMATS.md, "The
//! history of a screen", fixes the texts, which pages read.
//!
//! A `Sight` is the newest state of an object and when it came. A `Hearing` is the newest record of a domain, when it
//! came first (`since`), and when the domain's keeper was last heard. Their times are in milliseconds since the screen
//! began.

ghost use Rattle.std.specs.Prelude.{◌≡◌, ◌+◌, ◌++◌, ◌∷◌, [], IfOk, OnOk, option_map};
ghost use Rattle.smi_tree.specs.Lookups.{domain_count};
ghost use Rattle.smi_schedule.specs.TraceWords.{called};
ghost use Rattle.smi_view.specs.Pictured.{object_of};
ghost use Rattle.smi_history.specs.Looking as spec;

use crate::history::HistoryNote;
use crate::look_time::{LookTime, clock_at, is_new};
use crate::note_text::NoteText;
use crate::text::{put, put_called};
use crate::wording::{put_record, put_shown};
use smi_grant::{Record, Shown};
use smi_schedule::names;
use smi_tree::Tree;
use smi_view::{Hearing, Picture, Sight};
use std::alloc::{AllocError, Global};

/// A station counts as silent if it was not heard for more than this many milliseconds. docs/FORMATS.md, "The history
/// of a screen", promises two seconds, and a page counts as silent by the same number (`MOST_SILENCE` in
/// `crates/smi_program/page/model.mjs`).
const MOST_SILENCE: u64 = 2_000;

/// A look at a picture.
#[derive(Clone, Copy)]
pub(crate) struct Looking<'a> {
    /// The allocator for notes.
    pub(crate) alloc: Global,
    pub(crate) tree: &'a Tree,
    pub(crate) picture: &'a Picture,
    /// The time of the look before, in milliseconds since the screen began.
    pub(crate) from: u64,
    /// The time of this look.
    pub(crate) moment: LookTime,
}

/// Adds a note of this text, and of the time `at` in milliseconds since 1970.
///
/// Fails only if memory is refused (tested, not proved).
pub fn push_note(notes: &mut Vec<HistoryNote>, at: u64, text: Vec<u8>) -> Result<(), AllocError>
    ensures { OnOk result (notes.new.items ≡ notes.old.items ++ spec.note_of at text.items ∷ []) }
{
    let text = NoteText::copy_of(*text.allocator(), text.as_slice())?;
    notes.push(HistoryNote { at, text })?;
    Ok(())
}

/// Appends which state of an object was shown: `board TRK 1.6 READY`.
pub(crate) fn put_board(
    text: &mut Vec<u8>,
    tree: &Tree,
    name: Option<&[u8]>,
    number: u16,
    shown: Shown,
) -> Result<(), AllocError>
    ensures { OnOk result (text.new.items ≡ text.old.items
        ++ spec.board_text tree.now (called (option_map (λ n. n.now) name.entry) number) shown) }
{
    put(text, b"board ")?;
    put_called(text, name, number)?;
    put_shown(text, tree, shown)
}

/// Appends the record of a domain: `record TRK operator ANN 3 4 settled 0`.
pub(crate) fn put_standing(
    text: &mut Vec<u8>,
    tree: &Tree,
    domain: u16,
    record: &Record,
) -> Result<(), AllocError>
    ensures { OnOk result (text.new.items ≡ text.old.items ++ spec.standing_text tree.now domain record.now) }
{
    put(text, b"record ")?;
    put_called(text, names::domain(tree, domain), domain)?;
    put_record(text, tree, record)
}

/// Adds the note that a state of an object was shown.
fn add_board(
    notes: &mut Vec<HistoryNote>,
    looking: &Looking<'_>,
    name: Option<&[u8]>,
    number: u16,
    seen: Sight,
) -> Result<(), AllocError>
    ensures { OnOk result (notes.new.items ≡ notes.old.items
        ++ spec.board_note looking.now.tree.now looking.now.moment
        (called (option_map (λ n. n.now) name.entry) number) seen ∷ []) }
{
    let mut text = Vec::new(looking.alloc);
    put_board(&mut text, looking.tree, name, number, seen.shown)?;
    push_note(notes, clock_at(looking.moment, seen.at), text)
}

/// Adds the note that a state of an object was shown, if it is new.
fn add_sight(
    notes: &mut Vec<HistoryNote>,
    looking: &Looking<'_>,
    name: Option<&[u8]>,
    number: u16,
    sight: Option<Sight>,
) -> Result<(), AllocError>
    ensures { OnOk result (notes.new.items ≡ notes.old.items
        ++ spec.sight_notes looking.now.tree.now looking.now.from looking.now.moment
        (called (option_map (λ n. n.now) name.entry) number) sight) }
{
    match sight {
        Some(seen) if is_new(looking.from, looking.moment, seen.at) => {
            add_board(notes, looking, name, number, seen)
        }
        _ => Ok(()),
    }
}

/// Adds the note that a record of a domain was told.
fn add_record(
    notes: &mut Vec<HistoryNote>,
    looking: &Looking<'_>,
    domain: u16,
    had: &Hearing,
) -> Result<(), AllocError>
    ensures { OnOk result (notes.new.items ≡ notes.old.items
        ++ spec.record_note looking.now.tree.now looking.now.moment domain had.now ∷ []) }
{
    let mut text = Vec::new(looking.alloc);
    put_standing(&mut text, looking.tree, domain, &had.record)?;
    push_note(notes, clock_at(looking.moment, had.since), text)
}

/// Adds the note that a record of a domain was told, if it is new.
fn add_hearing(
    notes: &mut Vec<HistoryNote>,
    looking: &Looking<'_>,
    domain: u16,
    hearing: &Option<Hearing>,
) -> Result<(), AllocError>
    ensures { OnOk result (notes.new.items ≡ notes.old.items
        ++ spec.hearing_notes looking.now.tree.now looking.now.from looking.now.moment domain hearing.now) }
{
    match hearing {
        Some(had) if is_new(looking.from, looking.moment, had.since) => {
            add_record(notes, looking, domain, had)
        }
        _ => Ok(()),
    }
}

/// Returns true if the station of a domain is silent at the time `now`. A domain of which nothing was ever heard does
/// not count as silent.
fn is_silent(hearing: &Option<Hearing>, now: u64) -> bool
    ensures { result ≡ spec.is_silent hearing.now now }
{
    match hearing {
        Some(had) => now.saturating_sub(had.heard) > MOST_SILENCE,
        None => false,
    }
}

/// Returns true if the station of a domain was silent at the look before.
fn was_silent(silent: &[bool], domain: u16) -> bool
    ensures { result ≡ spec.was_silent silent.now domain }
{
    match usize::from(domain).checked_sub(1) {
        Some(place) => silent.get(place).copied().unwrap_or(false),
        None => false,
    }
}

/// Adds the note that the station of a domain is silent, or is heard again: `silent TRK`, `heard TRK`.
fn add_change(
    notes: &mut Vec<HistoryNote>,
    looking: &Looking<'_>,
    domain: u16,
    is_silent: bool,
) -> Result<(), AllocError>
    ensures { OnOk result (notes.new.items ≡ notes.old.items
        ++ spec.change_note looking.now.tree.now looking.now.moment domain is_silent ∷ []) }
{
    let word: &[u8] = if is_silent { b"silent " } else { b"heard " };
    let mut text = Vec::from_slice(looking.alloc, word)?;
    put_called(&mut text, names::domain(looking.tree, domain), domain)?;
    push_note(notes, looking.moment.clock, text)
}

/// Adds the note that the station of a domain fell silent, or is heard again, if that has changed since the look
/// before.
fn add_silence(
    notes: &mut Vec<HistoryNote>,
    looking: &Looking<'_>,
    domain: u16,
    was: bool,
    is: bool,
) -> Result<(), AllocError>
    ensures { OnOk result (notes.new.items ≡ notes.old.items
        ++ spec.silence_notes looking.now.tree.now looking.now.moment domain was is) }
{
    if was == is {
        Ok(())
    } else {
        add_change(notes, looking, domain, is)
    }
}

/// Returns true if the station of a domain is silent at this look.
fn is_silent_in(looking: &Looking<'_>, domain: u16) -> bool
    ensures { result ≡ spec.is_silent_in looking.now.picture.now looking.now.moment domain }
{
    is_silent(&looking.picture.domain(domain), looking.moment.now)
}

/// Adds the notes of what is new of a domain: its state, its record, and whether its station is silent.
#[tactic(auto, unfolding(crate::specs::Looking::domain_notes))]
fn add_domain(
    notes: &mut Vec<HistoryNote>,
    looking: &Looking<'_>,
    silent: &[bool],
    domain: u16,
) -> Result<(), AllocError>
    ensures { OnOk result (notes.new.items ≡ notes.old.items
        ++ spec.domain_notes looking.now.tree.now looking.now.picture.now looking.now.from looking.now.moment silent.now
        domain) }
{
    let name = names::domain(looking.tree, domain);
    let sight = looking.picture.object(usize::from(domain));
    add_sight(notes, looking, name, domain, sight)?;
    add_hearing(notes, looking, domain, &looking.picture.domain(domain))?;
    let is = is_silent_in(looking, domain);
    add_silence(notes, looking, domain, was_silent(silent, domain), is)
}

/// Returns the newest state of a device, by its number from 1. In a picture devices are numbered after all domains.
pub(crate) fn sight_of_device(tree: &Tree, picture: &Picture, device: u16) -> Option<Sight>
    ensures { result ≡ object_of picture.now (domain_count tree.now + device) }
{
    picture.object(usize::from(tree.domain_count()) + usize::from(device))
}

/// Adds the note of what is new of a device: its state.
fn add_device(
    notes: &mut Vec<HistoryNote>,
    looking: &Looking<'_>,
    device: u16,
) -> Result<(), AllocError>
    ensures { OnOk result (notes.new.items ≡ notes.old.items
        ++ spec.device_notes looking.now.tree.now looking.now.picture.now looking.now.from looking.now.moment device) }
{
    let name = names::device(looking.tree, device);
    let sight = sight_of_device(looking.tree, looking.picture, device);
    add_sight(notes, looking, name, device, sight)
}

/// Adds the notes of what is new of all domains.
#[tactic(auto, using(crate::proofs::Each::each_next))]
fn add_domains(
    notes: &mut Vec<HistoryNote>,
    looking: &Looking<'_>,
    silent: &[bool],
) -> Result<(), AllocError>
    ensures { OnOk result (notes.new.items ≡ notes.old.items
        ++ spec.domains_notes looking.now.tree.now looking.now.picture.now looking.now.from looking.now.moment
        silent.now) }
{
    for place in 0..looking.tree.domain_count() {
        add_domain(notes, looking, silent, place + 1)?;
    }
    Ok(())
}

/// Adds the notes of what is new of all devices.
#[tactic(auto, using(crate::proofs::Each::each_next))]
fn add_devices(notes: &mut Vec<HistoryNote>, looking: &Looking<'_>) -> Result<(), AllocError>
    ensures { OnOk result (notes.new.items ≡ notes.old.items
        ++ spec.devices_notes looking.now.tree.now looking.now.picture.now looking.now.from looking.now.moment) }
{
    for place in 0..looking.tree.device_count() {
        add_device(notes, looking, place + 1)?;
    }
    Ok(())
}

/// Returns the notes of what is new in a picture. `silent` says of each domain whether its station was silent at the
/// look before.
pub(crate) fn put_notes(
    looking: &Looking<'_>,
    silent: &[bool],
) -> Result<Vec<HistoryNote>, AllocError>
    ensures { IfOk result (λ notes. notes.items ≡ spec.picture_notes looking.now.tree.now looking.now.picture.now
        looking.now.from looking.now.moment silent.now) }
{
    let mut notes = Vec::new(looking.alloc);
    add_domains(&mut notes, looking, silent)?;
    add_devices(&mut notes, looking)?;
    Ok(notes)
}

/// Returns of each domain whether its station is silent.
#[tactic(auto, using(crate::proofs::Each::each_next))]
pub(crate) fn put_silences(looking: &Looking<'_>) -> Result<Vec<bool>, AllocError>
    ensures { IfOk result (λ silent. silent.items ≡ spec.silences looking.now.tree.now looking.now.picture.now
        looking.now.moment) }
{
    let mut silent = Vec::new(looking.alloc);
    for place in 0..looking.tree.domain_count() {
        silent.push(is_silent_in(looking, place + 1))?;
    }
    Ok(silent)
}
