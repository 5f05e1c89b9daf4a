//! Makes the notes of all that is known at the first look of a day, each with the time since when it is so. A page
//! reads a day from midnight on, and without these it would not know an object to which nothing has happened since.
//! `history.rt` calls `put_known`. docs/FORMATS.md, "The history of a screen", fixes the text `since AT ..`.

ghost use Rattle.std.specs.Prelude.{◌≡◌, ◌++◌, ◌∷◌, [], IfOk, OnOk, option_map};
ghost use Rattle.smi_schedule.specs.TraceWords.{called};
ghost use Rattle.smi_history.specs.Knowing as spec;

use crate::history::HistoryNote;
use crate::look_time::clock_at;
use crate::looking::{Looking, push_note, put_board, put_standing, sight_of_device};
use crate::text::{put, put_number};
use smi_schedule::names;
use smi_view::{Hearing, Sight};
use std::alloc::AllocError;

/// Appends since when something is so, in milliseconds since 1970: `since 1790000000123 `. `at` is the same time in
/// milliseconds since the screen began.
fn put_since(text: &mut Vec<u8>, looking: &Looking<'_>, at: u64) -> Result<(), AllocError>
    ensures { OnOk result (text.new.items ≡ text.old.items ++ spec.since_text looking.now.moment at) }
{
    put_number(text, b"since ", clock_at(looking.moment, at))?;
    put(text, b" ")
}

/// Adds the note of an object's state, and since when: `since 1790000000123 board TRK 1.6 READY`.
fn add_known_board(
    notes: &mut Vec<HistoryNote>,
    looking: &Looking<'_>,
    name: Option<&[u8]>,
    number: u16,
    seen: Sight,
) -> Result<(), AllocError>
    ensures { OnOk result (notes.new.items ≡ notes.old.items
        ++ spec.known_board looking.now.tree.now looking.now.moment
        (called (option_map (λ n. n.now) name.entry) number) seen ∷ []) }
{
    let mut text = Vec::new(looking.alloc);
    put_since(&mut text, looking, seen.at)?;
    put_board(&mut text, looking.tree, name, number, seen.shown)?;
    push_note(notes, looking.moment.clock, text)
}

/// Adds the note of an object's state, if one was shown.
fn add_known_sight(
    notes: &mut Vec<HistoryNote>,
    looking: &Looking<'_>,
    name: Option<&[u8]>,
    number: u16,
    sight: Option<Sight>,
) -> Result<(), AllocError>
    ensures { OnOk result (notes.new.items ≡ notes.old.items
        ++ spec.known_sight looking.now.tree.now looking.now.moment
        (called (option_map (λ n. n.now) name.entry) number) sight) }
{
    match sight {
        Some(seen) => add_known_board(notes, looking, name, number, seen),
        None => Ok(()),
    }
}

/// Adds the note of a domain's record, and since when it is so.
fn add_known_record(
    notes: &mut Vec<HistoryNote>,
    looking: &Looking<'_>,
    domain: u16,
    had: &Hearing,
) -> Result<(), AllocError>
    ensures { OnOk result (notes.new.items ≡ notes.old.items
        ++ spec.known_record looking.now.tree.now looking.now.moment domain had.now ∷ []) }
{
    let mut text = Vec::new(looking.alloc);
    put_since(&mut text, looking, had.since)?;
    put_standing(&mut text, looking.tree, domain, &had.record)?;
    push_note(notes, looking.moment.clock, text)
}

/// Adds the note of a domain's record, if one was told.
fn add_known_hearing(
    notes: &mut Vec<HistoryNote>,
    looking: &Looking<'_>,
    domain: u16,
    hearing: &Option<Hearing>,
) -> Result<(), AllocError>
    ensures { OnOk result (notes.new.items ≡ notes.old.items
        ++ spec.known_hearing looking.now.tree.now looking.now.moment domain hearing.now) }
{
    match hearing {
        Some(had) => add_known_record(notes, looking, domain, had),
        None => Ok(()),
    }
}

/// Adds the notes of what is known of a domain: the state of its unit, and its record.
#[tactic(auto, unfolding(crate::specs::Knowing::known_of_domain))]
fn add_known_domain(
    notes: &mut Vec<HistoryNote>,
    looking: &Looking<'_>,
    domain: u16,
) -> Result<(), AllocError>
    ensures { OnOk result (notes.new.items ≡ notes.old.items
        ++ spec.known_of_domain looking.now.tree.now looking.now.picture.now looking.now.moment domain) }
{
    let name = names::domain(looking.tree, domain);
    let sight = looking.picture.object(usize::from(domain));
    add_known_sight(notes, looking, name, domain, sight)?;
    add_known_hearing(notes, looking, domain, &looking.picture.domain(domain))
}

/// Adds the note of what is known of a device: its state.
fn add_known_device(
    notes: &mut Vec<HistoryNote>,
    looking: &Looking<'_>,
    device: u16,
) -> Result<(), AllocError>
    ensures { OnOk result (notes.new.items ≡ notes.old.items
        ++ spec.known_of_device looking.now.tree.now looking.now.picture.now looking.now.moment device) }
{
    let name = names::device(looking.tree, device);
    let sight = sight_of_device(looking.tree, looking.picture, device);
    add_known_sight(notes, looking, name, device, sight)
}

/// Adds the notes of what is known of all domains.
#[tactic(auto, using(crate::proofs::Each::each_next))]
fn add_known_domains(notes: &mut Vec<HistoryNote>, looking: &Looking<'_>) -> Result<(), AllocError>
    ensures { OnOk result (notes.new.items ≡ notes.old.items
        ++ spec.known_of_domains looking.now.tree.now looking.now.picture.now looking.now.moment) }
{
    for place in 0..looking.tree.domain_count() {
        add_known_domain(notes, looking, place + 1)?;
    }
    Ok(())
}

/// Adds the notes of what is known of all devices.
#[tactic(auto, using(crate::proofs::Each::each_next))]
fn add_known_devices(notes: &mut Vec<HistoryNote>, looking: &Looking<'_>) -> Result<(), AllocError>
    ensures { OnOk result (notes.new.items ≡ notes.old.items
        ++ spec.known_of_devices looking.now.tree.now looking.now.picture.now looking.now.moment) }
{
    for place in 0..looking.tree.device_count() {
        add_known_device(notes, looking, place + 1)?;
    }
    Ok(())
}

/// Returns the notes of all that is known, and since when: of domains, and then of devices.
pub(crate) fn put_known(looking: &Looking<'_>) -> Result<Vec<HistoryNote>, AllocError>
    ensures { IfOk result (λ notes. notes.items
        ≡ spec.known_notes looking.now.tree.now looking.now.picture.now looking.now.moment) }
{
    let mut notes = Vec::new(looking.alloc);
    add_known_domains(&mut notes, looking)?;
    add_known_devices(&mut notes, looking)?;
    Ok(notes)
}
