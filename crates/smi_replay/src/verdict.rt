//! The verdict of an audit, and its words.

use crate::beginning::Beginning;
use crate::clock::write_time;
use crate::fronts::{AuditFault, Front};
use crate::journal_file::{JournalFile, JournalSource};
use crate::need::meets;
use crate::night::Night;
use crate::station_journal::{Extent, Place};
use crate::wording::{write_contradiction, write_domain, write_entry, write_need, write_station};
use smi_audit::{Contradiction, MergeVerdict, Need, Obstacle};
use smi_protocol::Entry;
use smi_tree::Tree;
use std::alloc::Global;
use std::io::{self, ErrorKind, Write};

/// A gap in time, in milliseconds, from which on a journal is said to tell of later.
const LATER: u64 = 60_000;

/// Why a front is not taken.
#[derive(Clone, Copy)]
pub(crate) enum Hold {
    /// Nothing is left in it.
    None,
    /// Its first entry can never fit.
    Never(Contradiction),
    /// Its first entry waits for one of a station.
    Waits(u16, Need),
    /// Its first entry names what the tree does not have.
    Unknown,
    /// The next entry is a run whose command nothing tells.
    Command,
    /// Lines are missing after it.
    Gap(Place),
}

/// What the waits of a front lead to.
#[derive(Clone, Copy, PartialEq, Eq)]
enum Fate {
    /// Nothing is left.
    Taken,
    /// It can never be taken.
    Contradicted,
    /// It waits for one that can never be taken.
    Behind,
    /// It waits for what a longer journal may tell.
    Open,
}

/// Returns why the front of this number is not taken.
fn hold_of(night: &Night<'_>, front: &Front) -> Hold {
    if let Some(placed) = front.window.front() {
        return match night.merge.obstacle(&placed.entry) {
            None | Some(Obstacle::Unknown) => Hold::Unknown,
            Some(Obstacle::Never(why)) => Hold::Never(why),
            Some(Obstacle::Waits { station, need }) => Hold::Waits(station, need),
        };
    }
    if front.station.next().is_some() {
        return Hold::Command;
    }
    match front.station.extent {
        Extent::Gap(place) => Hold::Gap(place),
        Extent::Reading | Extent::Read { .. } => Hold::None,
    }
}

/// Returns the number of a station's front.
fn number_of(fronts: &[Front], station: u16) -> Option<usize> {
    for (number, front) in fronts.iter().enumerate() {
        if front.station.station == station {
            return Some(number);
        }
    }
    None
}

/// Returns true if a station's node ended by itself after all that was read: it tells no more.
fn tells_no_more(front: &Front) -> bool {
    match front.station.extent {
        Extent::Read { is_ended } => is_ended,
        Extent::Reading | Extent::Gap(_) => false,
    }
}

/// Returns true if an entry is about a grant that stood when the journals begin, or about a state that may have been
/// shown before. Journals do not all begin at one moment, so what does not fit there is no contradiction.
fn is_of_beginning(beginning: &Beginning, entry: &Entry) -> bool {
    match *entry {
        Entry::Granted { domain, epoch, .. }
        | Entry::Freed { domain, epoch }
        | Entry::Ordered { domain, epoch, .. }
        | Entry::Ran { domain, epoch, .. }
        | Entry::Learned { domain, epoch, .. }
        | Entry::LetGo { domain, epoch, .. }
        | Entry::Settled { domain, epoch, .. } => {
            let begun = beginning.epoch(domain);
            0 < begun && epoch <= begun.saturating_add(1)
        }
        Entry::InMode { domain, .. } => 0 < beginning.epoch(domain),
        Entry::Showed { .. } => beginning.is_in_the_middle,
        Entry::Booted { .. } | Entry::Passed(_) | Entry::Told { .. } => false,
    }
}

/// Returns what becomes of a front: what its waits lead to, but no contradiction at the beginning.
fn fate_of(night: &Night<'_>, holds: &[Hold], number: usize) -> Fate {
    let fronts = night.fronts.all.as_slice();
    let fate = end_of_waits(fronts, holds, number);
    if fate == Fate::Contradicted
        && let Some(front) = fronts.get(number)
        && let Some(placed) = front.window.front()
        && is_of_beginning(&night.beginning, &placed.entry)
    {
        return Fate::Open;
    }
    fate
}

/// Follows the waits of a front.
fn end_of_waits(fronts: &[Front], holds: &[Hold], number: usize) -> Fate {
    let mut at = number;
    for _ in 0..=holds.len() {
        let (Some(hold), Some(front)) = (holds.get(at), fronts.get(at)) else {
            return Fate::Open;
        };
        match *hold {
            Hold::None if at == number => return Fate::Taken,
            Hold::None if tells_no_more(front) => return Fate::Contradicted,
            Hold::None | Hold::Command | Hold::Gap(_) => return Fate::Open,
            Hold::Never(_) | Hold::Unknown if at == number => return Fate::Contradicted,
            Hold::Never(_) | Hold::Unknown => return Fate::Behind,
            Hold::Waits(station, _) => match number_of(fronts, station) {
                Some(next) => at = next,
                None => return Fate::Open,
            },
        }
    }
    // The waits go in a ring.
    Fate::Contradicted
}

/// Writes a file's name and the number of a line.
fn write_place<R: JournalSource + Drop, W: Write>(
    out: &mut W,
    files: &[JournalFile<R>],
    place: &Place,
) -> io::Result<()> {
    if let Some(file) = files.get(place.file) {
        out.write_all(file.name.as_slice())?;
    }
    write!(out, " line {}", place.line)
}

/// What the words of a verdict are made of.
#[derive(Drop)]
pub(crate) struct VerdictWords<'a, R: JournalSource + Drop> {
    pub(crate) alloc: Global,
    pub(crate) tree: &'a Tree,
    pub(crate) files: &'a [JournalFile<R>],
}

impl<'a, R: JournalSource + Drop> VerdictWords<'a, R> {
    /// Writes how far the journal goes that an entry waits for.
    fn write_extent<W: Write>(
        &self,
        out: &mut W,
        fronts: &[Front],
        station: u16,
        since: u64,
    ) -> io::Result<()> {
        let Some(number) = number_of(fronts, station) else {
            return out.write_all(b", of which no journal is given");
        };
        let Some(front) = fronts.get(number) else {
            return Ok(());
        };
        if !front.window.is_empty() || front.station.next().is_some() {
            return out.write_all(b", whose journal waits too");
        }
        match front.station.extent {
            Extent::Gap(place) => {
                out.write_all(b", whose journal has a gap before ")?;
                write_place(out, self.files, &place)
            }
            Extent::Reading | Extent::Read { .. } => {
                out.write_all(b", whose journal ends ")?;
                write_time(out, front.station.last_time)?;
                if front.station.last_time > since.saturating_add(LATER) {
                    out.write_all(b" though it tells of later")?;
                }
                Ok(())
            }
        }
    }

    /// Writes the first entry of a front with its place.
    fn write_first<W: Write>(&self, out: &mut W, front: &Front) -> io::Result<()> {
        if let Some(placed) = front.window.front() {
            write_place(out, self.files, &placed.place)?;
            out.write_all(b": ")?;
            write_entry(out, self.alloc, self.tree, &placed.entry)?;
        }
        Ok(())
    }

    /// Writes the run whose command nothing tells.
    fn write_unknown<W: Write>(&self, out: &mut W, front: &Front) -> io::Result<()> {
        let Some(placed) = front.station.next() else {
            return Ok(());
        };
        let Entry::Ran {
            domain,
            epoch,
            number,
            ..
        } = placed.entry
        else {
            return Ok(());
        };
        write_place(out, self.files, &placed.place)?;
        out.write_all(b": ran ")?;
        write_domain(out, self.tree, domain)?;
        write!(
            out,
            " {epoch} {number}, told by a start, and no journal tells its command"
        )
    }

    /// Writes why a front is held up, after its first entry.
    fn write_hold<W: Write>(
        &self,
        out: &mut W,
        fronts: &[Front],
        front: &Front,
        hold: &Hold,
    ) -> io::Result<()> {
        match *hold {
            Hold::None => Ok(()),
            Hold::Never(why) => {
                self.write_first(out, front)?;
                out.write_all(b", ")?;
                write_contradiction(out, self.tree, why)
            }
            Hold::Unknown => {
                self.write_first(out, front)?;
                out.write_all(b", but the tree has no such thing")
            }
            Hold::Waits(station, need) => {
                self.write_first(out, front)?;
                out.write_all(b" waits for ")?;
                write_need(out, self.tree, need)?;
                out.write_all(b" of station ")?;
                write_station(out, self.tree, station)?;
                let since = match front.window.front() {
                    Some(placed) => placed.place.time,
                    None => 0,
                };
                self.write_extent(out, fronts, station, since)
            }
            Hold::Command => self.write_unknown(out, front),
            Hold::Gap(place) => {
                out.write_all(b"gap before ")?;
                write_place(out, self.files, &place)
            }
        }
    }

    fn write_held<W: Write>(
        &self,
        out: &mut W,
        word: &[u8],
        fronts: &[Front],
        number: usize,
        hold: &Hold,
    ) -> io::Result<()> {
        if let Some(front) = fronts.get(number) {
            out.write_all(word)?;
            self.write_hold(out, fronts, front, hold)?;
            out.write_all(b"\n")?;
        }
        Ok(())
    }

    /// Writes from where on a journal is audited if it does not begin from nothing: its first block is assumed.
    fn write_beginning<W: Write>(&self, out: &mut W, front: &Front) -> io::Result<()> {
        if front.station.beginning.is_fresh() {
            return Ok(());
        }
        if let Some(number) = front.station.files.as_slice().first()
            && let Some(file) = self.files.get(*number)
        {
            out.write_all(b"assumed: the first block of ")?;
            out.write_all(file.name.as_slice())?;
            out.write_all(b"\n")?;
        }
        Ok(())
    }

    /// Writes that all is safe, and what a start alone tells.
    fn write_safe<W: Write>(&self, out: &mut W, night: &Night<'_>) -> io::Result<()> {
        let tally = &night.tally;
        write!(
            out,
            "safe: {} entries of {} stations, {} grants, {} commands",
            tally.entries,
            night.fronts.all.len(),
            tally.grants,
            tally.commands
        )?;
        if tally.entries > 0 {
            out.write_all(b", ")?;
            write_time(out, tally.first_time)?;
            out.write_all(b" to ")?;
            write_time(out, tally.last_time)?;
        }
        out.write_all(b"\n")?;
        for front in night.fronts.all.as_slice() {
            self.write_beginning(out, front)?;
        }
        for placed in tally.told_by_starts.as_slice() {
            out.write_all(b"told by a start: ")?;
            write_place(out, self.files, &placed.place)?;
            out.write_all(b": ")?;
            write_entry(out, self.alloc, self.tree, &placed.entry)?;
            out.write_all(b"\n")?;
        }
        Ok(())
    }
}

/// Returns when the first entry of a front was written.
fn time_of_first(front: &Front) -> u64 {
    match front.window.front() {
        Some(placed) => placed.place.time,
        None => u64::MAX,
    }
}

/// Writes the verdict. Returns true if all is safe.
pub(crate) fn write_verdict<R: JournalSource + Drop, W: Write>(
    words: &VerdictWords<'_, R>,
    night: &Night<'_>,
    out: &mut W,
) -> Result<bool, AuditFault> {
    let fronts = night.fronts.all.as_slice();
    let mut holds = Vec::new(words.alloc);
    for front in fronts {
        holds.push(hold_of(night, front))?;
    }
    let holds = holds.as_slice();
    match write_judged(words, night, holds, out) {
        Ok(is_safe) => Ok(is_safe),
        Err(e) if e.kind() == ErrorKind::OutOfMemory => Err(AuditFault::Memory),
        Err(_) => Err(AuditFault::Write),
    }
}

/// Returns true if a front waits for an entry that was read and is not taken, because entries before it wait too.
fn is_held_up(fronts: &[Front], hold: &Hold) -> bool {
    let Hold::Waits(station, need) = *hold else {
        return false;
    };
    let Some(number) = number_of(fronts, station) else {
        return false;
    };
    match fronts.get(number) {
        Some(front) => front
            .window
            .iter()
            .any(|placed| meets(&placed.entry, &need)),
        None => false,
    }
}

/// Returns the number of the front whose first entry is the earliest that can never be taken.
///
/// In a ring of waits this is one that waits for what no journal tells, if there is one. It holds up those that wait
/// for a later entry of its journal.
fn first_contradicted(night: &Night<'_>, holds: &[Hold]) -> Option<usize> {
    let fronts = night.fronts.all.as_slice();
    let mut first = None;
    let mut rank = (true, u64::MAX);
    for (number, (front, hold)) in fronts.iter().zip(holds.iter()).enumerate() {
        if fate_of(night, holds, number) == Fate::Contradicted {
            let its_rank = (is_held_up(fronts, hold), time_of_first(front));
            if first.is_none() || its_rank < rank {
                first = Some(number);
                rank = its_rank;
            }
        }
    }
    first
}

fn write_judged<R: JournalSource + Drop, W: Write>(
    words: &VerdictWords<'_, R>,
    night: &Night<'_>,
    holds: &[Hold],
    out: &mut W,
) -> io::Result<bool> {
    let fronts = night.fronts.all.as_slice();
    if let Some(number) = first_contradicted(night, holds) {
        if let Some(hold) = holds.get(number) {
            words.write_held(out, b"unsafe: ", fronts, number, hold)?;
        }
        return Ok(false);
    }
    let mut is_safe = night.merge.verdict() == MergeVerdict::Safe;
    for (number, hold) in holds.iter().enumerate() {
        if fate_of(night, holds, number) != Fate::Taken {
            is_safe = false;
            words.write_held(out, b"open: ", fronts, number, hold)?;
        }
    }
    if is_safe {
        words.write_safe(out, night)?;
    }
    Ok(is_safe)
}
