//! Which lines may wait for those of a later step.

ghost use Rattle.std.specs.Prelude.{◌≡◌, ◌==◌};
ghost use Rattle.std.specs.List.{list_all};
ghost use Rattle.smi_journal.specs.Waiting.{is_found_at_start, is_one_found, may_wait, stays};

use smi_message::Datagram;
use smi_protocol::Entry;
use smi_station_output::Out;

/// Returns true if all of these datagrams are for one station.
fn are_all_to(station: u16, datagrams: &[Datagram]) -> bool
    ensures { result ≡ list_all (λ m. m.to == station) datagrams.now }
{
    datagrams.iter().all(|datagram| datagram.to == station)
}

/// Returns true if no other station and no operator can know of a step: it has answered nobody, has shown nothing, and
/// sends to its own station alone.
fn stays(station: u16, out: &Out) -> bool
    ensures { result ≡ stays station out.now }
{
    out.shown().is_none()
        && out.transitions().as_slice().is_empty()
        && out.answers().is_empty()
        && are_all_to(station, out.datagrams())
}

/// Returns true if the next start finds by the stable record alone that this was saved, also beside what one step more
/// has saved.
fn is_found_at_start(entry: Entry) -> bool
    ensures { result ≡ is_found_at_start entry }
{
    matches!(
        entry,
        Entry::Granted { .. } | Entry::Ordered { .. } | Entry::LetGo { .. }
    )
}

/// Returns true if these entries are just one that a start finds.
fn is_one_found(entries: &[Entry]) -> bool
    ensures { result ≡ is_one_found entries.now }
{
    match entries {
        [one] => is_found_at_start(*one),
        _ => false,
    }
}

/// Returns true if the lines of a step may wait, because nothing outside of its station rests on them: it stays there,
/// and has left no entries, or just one that a start finds, if no others wait.
pub(crate) fn may_wait(station: u16, do_others_wait: bool, out: &Out) -> bool
    ensures { result ≡ may_wait station do_others_wait out.now }
{
    let entries = out.entries().as_slice();
    stays(station, out) && (entries.is_empty() || (!do_others_wait && is_one_found(entries)))
}
