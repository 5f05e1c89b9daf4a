//! The lines of a journal.

ghost use Rattle.std.specs.Prelude.{◌≡◌, ◌∷◌, ◌++◌, [], true, IfOk};
ghost use Rattle.smi_schedule.specs.Text.{entry_text};
ghost use Rattle.smi_replay.specs.JournalText.{IsLine, IsSaid};

use crate::block_words::{
    DomainStands, LinkStands, PendingCommand, domain_stands, link_stands, pending_command,
};
use crate::clock::{TIME_BYTES, time_of};
use crate::entry_words::{EntryWord, entry_of};
use crate::fault::{LineError, LineFault};
use crate::head_text::write_head;
use crate::resolve::{shown_by, station};
use crate::word::{cut_word, next_word, number_32, two_words};
use smi_grant::Shown;
use smi_protocol::{Entry, Line};
use smi_schedule::spell;
use smi_tree::Tree;
use std::alloc::{AllocError, Global};

/// The most bytes of a line of a journal.
pub const MOST_BYTES_OF_A_JOURNAL_LINE: usize = 300;

/// A line of a journal: when, at which station and in which boot, and what it says.
#[derive(Clone, Copy)]
pub struct JournalLine {
    /// Milliseconds since the beginning of 1970.
    pub time: u64,
    pub station: u16,
    pub boot: u32,
    pub says: Says,
}

/// What a line of a journal says.
#[derive(Clone, Copy)]
pub enum Says {
    /// An entry of a trace.
    Entry(Entry),
    /// The state of a domain of the station, in a block.
    Stands(DomainStands),
    /// The state of a link of the station, in a block.
    Link(LinkStands),
    /// A command that is pending, in a block.
    Pending(PendingCommand),
    /// The newest state of an object of the station, in a block.
    State(Shown),
    /// The newest state of another's object that was shown at the station, in a block.
    Seen(Shown),
    /// The file goes on within a boot.
    Continues { station: u16, boot: u32 },
    /// The node has ended by itself.
    Ends,
    /// What somebody typed, or how that was answered: an audit skips it.
    Console,
}

/// Where lines are spelled again, to be compared with what was read.
#[derive(Drop)]
pub struct Spelling {
    head: Vec<u8>,
    words: Vec<u8>,
}

impl Spelling {
    /// Makes one; nothing is spelled yet.
    pub fn new(alloc: Global) -> Spelling {
        Spelling {
            head: Vec::new(alloc),
            words: Vec::new(alloc),
        }
    }
}

/// Returns true if words are how an entry is spelled.
fn is_spelling_of(
    text: &mut Vec<u8>,
    tree: &Tree,
    words: &[u8],
    entry: &Entry,
) -> Result<bool, AllocError>
    ensures { IfOk result (λ same. same ≡ true → words.now ++ 10 ∷ [] ≡ entry_text tree.now entry.now) }
{
    spell(text, tree, &Line::Entry(*entry))?;
    match text.pop() {
        Some(b'\n') => Ok(text.as_slice() == words),
        _ => Ok(false),
    }
}

/// Returns what the words of a line say that are none of an entry.
fn block_of(tree: &Tree, line: &[u8]) -> Result<Says, LineFault>
    ensures { IfOk result (λ says. IsSaid tree.now line.now says) }
{
    let (word, rest) = cut_word(line);
    match word {
        b"stands" => Ok(Says::Stands(domain_stands(tree, rest)?)),
        b"link" => Ok(Says::Link(link_stands(tree, rest)?)),
        b"pending" => Ok(Says::Pending(pending_command(tree, rest)?)),
        b"state" => Ok(Says::State(shown_by(tree, rest)?)),
        b"seen" => Ok(Says::Seen(shown_by(tree, rest)?)),
        b"continues" => {
            let (who, boot) = two_words(rest)?;
            Ok(Says::Continues {
                boot: number_32(boot)?,
                station: station(tree, who)?,
            })
        }
        b"ends" => match rest {
            None => Ok(Says::Ends),
            Some(_) => Err(LineFault::WordCount),
        },
        b"typed" | b"answered" => Ok(Says::Console),
        _ => Err(LineFault::UnknownWord),
    }
}

/// Returns what the words of a line say, if an entry is spelled by them.
fn said_by(text: &mut Vec<u8>, tree: &Tree, line: &[u8]) -> Result<Says, LineError>
    ensures { IfOk result (λ says. IsSaid tree.now line.now says) }
{
    let (word, rest) = cut_word(line);
    let Some(kind) = EntryWord::read(word) else {
        return Ok(block_of(tree, line)?);
    };
    let entry = entry_of(tree, kind, rest)?;
    if is_spelling_of(text, tree, line, &entry)? {
        Ok(Says::Entry(entry))
    } else {
        Err(LineError::Fault(LineFault::Malformed))
    }
}

/// When, where and in which boot a line was written.
#[derive(Clone, Copy)]
struct Stamp {
    time: u64,
    station: u16,
    boot: u32,
}

fn stamp_of(tree: &Tree, line: &[u8]) -> Result<Stamp, LineFault> {
    let (time, rest) = next_word(line)?;
    let (who, rest) = next_word(rest)?;
    let (boot, _) = next_word(rest)?;
    Ok(Stamp {
        time: time_of(time).ok_or(LineFault::Malformed)?,
        boot: number_32(boot)?,
        station: station(tree, who)?,
    })
}

/// Reads a line of a journal, without its line feed.
///
/// What it says is never guessed: an entry is one only if its own text is what the line has, and the line begins with
/// the station and the boot that are returned. Fails with the line's fault, or out of memory.
pub fn read_line(
    spelling: &mut Spelling,
    tree: &Tree,
    line: &[u8],
) -> Result<JournalLine, LineError>
    ensures { IfOk result (λ it. IsLine tree.now line.now it) }
{
    if line.len() > MOST_BYTES_OF_A_JOURNAL_LINE {
        return Err(LineError::Fault(LineFault::LineTooLong));
    }
    let stamp = stamp_of(tree, line)?;
    let Some(time) = line.get(..TIME_BYTES) else {
        return Err(LineError::Fault(LineFault::Malformed));
    };
    write_head(&mut spelling.head, tree, time, stamp.station, stamp.boot)?;
    let Some(words) = line.strip_prefix(spelling.head.as_slice()) else {
        return Err(LineError::Fault(LineFault::Malformed));
    };
    let says = said_by(&mut spelling.words, tree, words)?;
    Ok(JournalLine {
        time: stamp.time,
        station: stamp.station,
        boot: stamp.boot,
        says,
    })
}
