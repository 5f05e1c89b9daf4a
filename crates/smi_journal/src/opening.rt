//! What a file begins with, and its name.

use crate::block::{StationState, push_block, push_states};
use crate::journal::JournalSetup;
use crate::line::{JournalWord, push_line, station};
use crate::step::LineContext;
use crate::time::{push_name_time, push_time};
use smi_tree::Tree;
use std::alloc::{AllocError, Global};
use std::io::Write;
use std::str;

/// The format of journals.
const FORMAT: u32 = 1;

/// What a file begins with: a start of its station, or what stands within a boot.
#[derive(Clone, Copy, PartialEq, Eq)]
pub(crate) enum FileStart {
    Booted,
    Continues,
}

/// Where lines are put together.
#[derive(Drop)]
pub(crate) struct Room {
    pub(crate) text: Vec<u8>,
    pub(crate) line: Vec<u8>,
    /// What each line of a step begins with: the time, the station, the boot.
    pub(crate) prefix: Vec<u8>,
    /// The boot and the time that the prefix has; none if it is not whole.
    stamp: Option<PrefixStamp>,
}

/// When a line is written: in which boot, and at how many milliseconds since 1970.
#[derive(Clone, Copy, PartialEq, Eq)]
struct PrefixStamp {
    boot: u32,
    now: u64,
}

/// Adds a name of the tree, or its number.
fn push_station(text: &mut Vec<u8>, tree: &Tree, number: u16) -> Result<(), AllocError> {
    match station(tree, number) {
        JournalWord::Text(name) => text.extend_from_slice(name),
        _ => write!(text, "{number}").map_err(|_| AllocError),
    }
}

impl Room {
    /// Makes room that takes memory as it is needed.
    pub(crate) fn new(alloc: Global) -> Room {
        Room {
            text: Vec::new(alloc),
            line: Vec::new(alloc),
            prefix: Vec::new(alloc),
            stamp: None,
        }
    }

    /// Sets what the next lines of a station begin with. The steps of one millisecond share a prefix.
    pub(crate) fn set_prefix(
        &mut self,
        tree: &Tree,
        number: u16,
        boot: u32,
        now: u64,
    ) -> Result<(), AllocError> {
        let stamp = Some(PrefixStamp { boot, now });
        if self.stamp == stamp {
            return Ok(());
        }
        self.stamp = None;
        self.prefix.clear();
        push_time(&mut self.prefix, now)?;
        self.prefix.push(b' ')?;
        push_station(&mut self.prefix, tree, number)?;
        write!(&mut self.prefix, " {boot} ").map_err(|_| AllocError)?;
        self.stamp = stamp;
        Ok(())
    }
}

/// Puts the path of a file together: the folder, the station, the time, and a number if it is not the first of its
/// second.
pub(crate) fn spell_name<'r>(
    room: &'r mut Room,
    tree: &Tree,
    setup: &JournalSetup,
    now: u64,
    number: u32,
) -> Result<&'r str, AllocError> {
    let text = &mut room.text;
    text.clear();
    text.extend_from_slice(setup.folder.as_bytes())?;
    text.push(b'/')?;
    push_station(text, tree, setup.station)?;
    text.push(b'-')?;
    push_name_time(text, now)?;
    if number > 1 {
        write!(text, "-{number}").map_err(|_| AllocError)?;
    }
    text.extend_from_slice(b".journal")?;
    str::from_utf8(text.as_slice()).map_err(|_| AllocError)
}

/// Adds the head of a file: the format, the number of the tree, and the digest of what its file says.
fn push_head(text: &mut Vec<u8>, setup: &JournalSetup) -> Result<(), AllocError> {
    write!(text, "journal {FORMAT} {} ", setup.tree_number).map_err(|_| AllocError)?;
    for byte in setup.tree_digest.iter() {
        write!(text, "{:02x}", *byte).map_err(|_| AllocError)?;
    }
    text.push(b'\n')?;
    Ok(())
}

/// Puts together what a file begins with: its head, the start of the station or that it goes on, what stands by then,
/// and the states of the station's objects.
pub(crate) fn spell_opening<T: StationState>(
    room: &mut Room,
    tree: &Tree,
    setup: &JournalSetup,
    now: u64,
    state: &T,
    start: FileStart,
) -> Result<(), AllocError> {
    room.set_prefix(tree, setup.station, state.boot(), now)?;
    let Room { text, prefix, .. } = room;
    let context = LineContext {
        tree,
        station: setup.station,
        prefix: prefix.as_slice(),
    };
    let first = match start {
        FileStart::Booted => b"booted".as_slice(),
        FileStart::Continues => b"continues".as_slice(),
    };
    let states = match start {
        FileStart::Booted => b"passed".as_slice(),
        FileStart::Continues => b"state".as_slice(),
    };
    text.clear();
    push_head(text, setup)?;
    let words = [
        station(tree, setup.station),
        JournalWord::Number(u64::from(state.boot())),
    ];
    push_line(text, context.prefix, first, &words)?;
    push_block(text, context, state)?;
    push_states(text, context, state, states)
}
