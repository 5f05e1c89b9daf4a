//! The journal of a station: files of a folder, one after the other.
//!
//! Nothing but a clock says when a file is begun, so that it is begun when it has to be is tested alone. No clause says
//! that a file begins with this tree, setup and state, nor which lines were typed: that is tested alone too.

ghost use Rattle.std.specs.Prelude.{◌≡◌, true};
ghost use Rattle.smi_journal.specs.Noted.{MayBegin, NotesOne, NotesStep, entries_of_file_wait};
ghost use Rattle.smi_journal.specs.Waiting.{may_wait};

use crate::block::StationState;
use crate::opening::{FileStart, Room, spell_name, spell_opening};
use crate::step::{LineContext, is_silent};
use crate::step_writer::StepWriter;
use crate::time::DAY;
use crate::typed::TypedLine;
use smi_schedule::Unwritten;
use smi_station_output::Out;
use smi_tree::Tree;
use std::alloc::{AllocError, Global};
use std::fs::{self, File, Files, OpenFile};
use std::io::{self, ErrorKind};
use std::marker::Model;
use std::str;
use std::sync::Arc;
use std::time::{Clock, SystemTime, UNIX_EPOCH};

/// How many bytes a file has at least when a new one follows it.
pub const MOST_BYTES: u64 = 64 << 20;

/// How long no new file is begun after a fault, in milliseconds.
pub const PATIENCE: u64 = 60_000;

/// How many files that were begun within one second get a name.
const MOST_NAMES: u32 = 99;

/// Says where the journal of a station is written, and how.
#[derive(Drop)]
pub struct JournalSetup {
    /// The folder of its files, which is made if it is not there.
    pub folder: String,
    /// The number of the tree, and the digest of what its file says.
    pub tree_number: u16,
    pub tree_digest: [u8; 32],
    /// The number of the station, from 1.
    pub station: u16,
    /// Whether a step that saved is synced before anything of it is sent.
    pub is_synced: bool,
}

/// What came of a step, as far as its journal goes.
#[derive(Clone, Copy, PartialEq, Eq)]
pub enum Noted {
    /// It was written, or there was nothing to write.
    Written,
    /// It could not be written, as those before it could; the file is ended.
    Failed,
    /// It could not be written, and neither could the one before it.
    Failing,
    /// A new file is begun; the number says how many steps are written nowhere.
    Resumed(u64),
}

/// The journal of a station that is served.
///
/// Contracts see all that it did, the newest first, and that its file has just the entries of each step since it was
/// begun, but for those of the last ones that may wait.
#[derive(Drop)]
pub struct Journal<H: Files + Drop> {
    alloc: Global,
    rt: H,
    tree: Arc<Tree, Global>,
    setup: Arc<JournalSetup, Global>,
    steps: StepWriter<H::File>,
    /// The path of the file that was begun last, for the thread that syncs it.
    begun: Option<String>,
    room: Room,
    /// What was typed since the last step that was written.
    typed: Vec<TypedLine>,
    /// How many steps wait, and how many are written nowhere since the last fault.
    waiting: u64,
    unwritten: u64,
    /// When a new file may be begun, in milliseconds since 1970.
    next_try: u64,
}

impl<H: Files + Drop> Model for Journal<H> {
    ghost use Rattle.smi_journal.specs.Noted.{Notes};

    ghost Value = { Notes };

    ghost view = { λ j. j.steps };
}

/// Makes a new file whose name tells this time, and which is not there yet. Its path is the text of the room then.
fn create_file<H: Files>(
    rt: &H,
    room: &mut Room,
    tree: &Tree,
    setup: &JournalSetup,
    now: u64,
) -> io::Result<H::File> {
    for number in 1..=MOST_NAMES {
        let name = spell_name(room, tree, setup, now, number)?;
        match File::create_new(rt, name) {
            Err(e) if e.kind() == ErrorKind::AlreadyExists => {}
            created => return created,
        }
    }
    Err(io::Error::from(ErrorKind::AlreadyExists))
}

/// Returns the path that is the text of a room.
fn path_in(alloc: Global, room: &Room) -> Result<String, AllocError> {
    match str::from_utf8(room.text.as_slice()) {
        Ok(path) => String::from_str(alloc, path),
        Err(_) => Err(AllocError),
    }
}

/// Puts lines that were typed together, each with the prefix of the room.
fn spell_typed(
    room: &mut Room,
    tree: &Tree,
    station: u16,
    lines: &Vec<TypedLine>,
) -> Result<(), AllocError> {
    let Room { text, prefix, .. } = room;
    let context = LineContext {
        tree,
        station,
        prefix: prefix.as_slice(),
    };
    text.clear();
    for typed in lines {
        typed.push(text, context)?;
    }
    Ok(())
}

impl<H: Files + Clock + Drop> Journal<H> {
    /// Begins the journal of a station that has just started: makes its first file, with what the station has loaded.
    ///
    /// Fails if the folder or the file can't be made, if the file can't be written, or if memory was refused.
    pub fn begin<T: StationState>(
        alloc: Global,
        rt: H,
        tree: Arc<Tree, Global>,
        setup: Arc<JournalSetup, Global>,
        state: &T,
    ) -> io::Result<Journal<H>> {
        let steps = StepWriter::new(Arc::try_clone(&tree)?, setup.station);
        let mut journal = Journal {
            alloc,
            rt,
            tree,
            setup,
            steps,
            begun: None,
            room: Room::new(alloc),
            typed: Vec::new(alloc),
            waiting: 0,
            unwritten: 0,
            next_try: 0,
        };
        fs::create_dir_all(&journal.rt, journal.setup.folder.as_str())?;
        let now = journal.now()?;
        journal.begin_file(now, state, FileStart::Booted)?;
        Ok(journal)
    }

    /// Returns the milliseconds since 1970.
    fn now(&self) -> io::Result<u64> {
        let now = SystemTime::now(&self.rt)?;
        match now.duration_since(UNIX_EPOCH) {
            Ok(since) => Ok(u64::try_from(since.as_millis()).unwrap_or(u64::MAX)),
            Err(_) => Ok(0),
        }
    }

    /// Begins a new file, with what stands by then. On an error it keeps the file that it has.
    fn begin_file<T: StationState>(
        &mut self,
        now: u64,
        state: &T,
        start: FileStart,
    ) -> io::Result<()>
        ensures { MayBegin self.old.notings self.new.notings }
    {
        let file = create_file(&self.rt, &mut self.room, &self.tree, &self.setup, now)?;
        self.begun = Some(path_in(self.alloc, &self.room)?);
        spell_opening(&mut self.room, &self.tree, &self.setup, now, state, start)?;
        match self.steps.begin(file, &self.room.text, now / DAY) {
            Ok(()) => Ok(()),
            Err(_) => Err(io::Error::from(ErrorKind::WriteZero)),
        }
    }

    /// Takes the path of the file that was begun last, once, for the thread that syncs it from then on.
    pub fn take_begun(&mut self) -> Option<String>
        ensures { self.new ≡ self.old }
    {
        self.begun.take()
    }

    /// Counts a step that is written nowhere, and those that waited for it, and says when a file may be begun again.
    fn count_lost(&mut self, now: u64)
        ensures { self.new ≡ self.old }
    {
        self.typed.clear();
        let lost = self.waiting.saturating_add(1);
        self.waiting = 0;
        self.unwritten = self.unwritten.saturating_add(lost);
        self.next_try = now.saturating_add(PATIENCE);
    }

    /// Notes a line that was typed at a console: it is written with the next step, before what that left.
    ///
    /// Without a file, or without memory, it is told nowhere.
    pub fn note_typed(&mut self, typed: TypedLine)
        ensures { self.new ≡ self.old }
    {
        if self.steps.file().is_some() {
            let _ = self.typed.push(typed);
        }
    }

    /// Puts together what each line of a step begins with, and what was typed before it.
    fn prepare(&mut self, now: u64, boot: u32) -> Result<(), AllocError>
        ensures { self.new ≡ self.old }
    {
        let station = self.setup.station;
        self.room.set_prefix(&self.tree, station, boot, now)?;
        spell_typed(&mut self.room, &self.tree, station, &self.typed)?;
        self.typed.clear();
        Ok(())
    }

    /// Writes what was typed since the last step that was written, and then a step, all at once into the current file.
    /// On an error the step is lost, and the file is ended.
    fn write(&mut self, now: u64, boot: u32, out: &Out) -> Result<(), Unwritten>
        ensures { NotesOne out.now self.old.notings self.new.notings }
    {
        if self.prepare(now, boot).is_err() {
            self.steps.lose(out);
            return Err(Unwritten::Memory);
        }
        self.steps.write(&mut self.room, out)
    }

    /// Syncs the file after a step that saved, if the journal is to do so. On an error it ends the file.
    fn sync(&mut self, out: &Out) -> io::Result<()>
        ensures { self.new.notings ≡ self.old.notings }
    {
        if !self.setup.is_synced || out.entries().as_slice().is_empty() {
            return Ok(());
        }
        let synced = match self.steps.file() {
            Some(file) => file.sync_data(),
            None => Ok(()),
        };
        if synced.is_err() {
            self.steps.end();
        }
        synced
    }

    /// Writes a step as [`Self::write`] does, and syncs the file if it is to be. Returns whether both went well.
    fn write_and_sync(&mut self, now: u64, boot: u32, out: &Out) -> bool
        ensures { NotesOne out.now self.old.notings self.new.notings }
    {
        match self.write(now, boot, out) {
            Ok(()) => {
                self.waiting = 0;
                self.sync(out).is_ok()
            }
            Err(_) => false,
        }
    }

    /// Begins a file again after a fault, if it is time. Returns whether it did.
    fn begin_again<T: StationState>(&mut self, now: u64, state: &T) -> bool
        ensures { MayBegin self.old.notings self.new.notings }
    {
        if now < self.next_try {
            return false;
        }
        self.begin_file(now, state, FileStart::Continues).is_ok()
    }

    /// Counts a step while there is no file. What is to be tried at some time is not put off by the steps before it.
    fn count_without_file(&mut self, now: u64)
        ensures { self.new ≡ self.old }
    {
        let next = self.next_try;
        self.count_lost(now);
        if now < next {
            self.next_try = next;
        }
    }

    /// Begins a file again after a fault, if it is time. The step is lost.
    fn resume<T: StationState>(&mut self, now: u64, state: &T, out: &Out) -> Noted
        ensures { NotesStep out.now self.old.notings self.new.notings }
    {
        self.steps.lose(out);
        if self.begin_again(now, state) {
            let lost = self.unwritten.saturating_add(1);
            self.unwritten = 0;
            Noted::Resumed(lost)
        } else {
            self.count_without_file(now);
            Noted::Failing
        }
    }

    /// Begins the next file, if this one is full or of another day and no lines wait for it. Returns true if that
    /// fails: it ends the file then, and the steps that follow are written nowhere.
    fn follow_file<T: StationState>(&mut self, now: u64, state: &T) -> bool
        ensures { MayBegin self.old.notings self.new.notings }
    {
        if self.steps.is_waiting() || !self.steps.is_full(MOST_BYTES, now / DAY) {
            return false;
        }
        if self.begin_file(now, state, FileStart::Continues).is_ok() {
            return false;
        }
        self.steps.end();
        self.typed.clear();
        self.next_try = now.saturating_add(PATIENCE);
        true
    }

    /// Keeps a step as [`Self::write`] writes it, until the next one is written. Returns whether that went well.
    fn keep(&mut self, now: u64, boot: u32, out: &Out) -> bool
        requires { may_wait self.now.station (entries_of_file_wait self.now) out.now ≡ true }
        ensures { NotesOne out.now self.old.notings self.new.notings }
    {
        if self.prepare(now, boot).is_err() {
            self.steps.lose(out);
            return false;
        }
        if self.steps.keep(&mut self.room, out).is_err() {
            return false;
        }
        self.waiting = self.waiting.saturating_add(1);
        true
    }

    /// Keeps or writes a step, and syncs the file if it is to be. Returns whether all went well.
    fn keep_or_write(&mut self, now: u64, boot: u32, is_new: bool, out: &Out) -> bool
        ensures { NotesOne out.now self.old.notings self.new.notings }
    {
        if is_new && !self.setup.is_synced && self.steps.may_wait(out) {
            self.keep(now, boot, out)
        } else {
            self.write_and_sync(now, boot, out)
        }
    }

    /// Notes a step: writes what was typed before it, and a line for each entry that it has handed out, all at once.
    ///
    /// The lines of a step that stays in its station may wait for those of the next one, because nothing outside rests
    /// on them. A tick is a step too, so they wait for some milliseconds. The state is that of the station after the
    /// step. A fault ends the file and never the node: the steps that follow are counted, and after a minute a new file
    /// is begun, with what holds by then.
    pub fn note<T: StationState>(&mut self, state: &T, out: &Out) -> Noted
        ensures { NotesStep out.now self.old.notings self.new.notings }
    {
        let is_new = !is_silent(out) || !self.typed.is_empty();
        if !is_new && !self.steps.is_waiting() {
            self.steps.skip(out);
            return Noted::Written;
        }
        let now = self.now().unwrap_or(0);
        if self.steps.file().is_none() {
            return self.resume(now, state, out);
        }
        if !self.keep_or_write(now, state.boot(), is_new, out) {
            self.count_lost(now);
            return Noted::Failed;
        }
        if self.follow_file(now, state) {
            Noted::Failed
        } else {
            Noted::Written
        }
    }
}
