//! Keeps the journal of a node on the station's thread, and has another thread sync its files.
//!
//! `setup` begins the journal, and `node_observer` has each step noted in it. Typed lines come from the sessions over a
//! channel (`typed_lines`), and faults of the journal go back over another one (`console_loop` writes them). The format
//! of the files is that of `smi_journal` (docs/FORMATS.md, "Journals"), which proves what they hold; here is the
//! transport.

ghost use Rattle.std.specs.Prelude.{◌≡◌};
ghost use Rattle.smi_journal.specs.Noted.{NotesStep};

use crate::threads::JournalChannels;
use crossbeam_channel::{Receiver, Sender, TryRecvError, bounded};
use smi_journal::{Journal, JournalSetup, Noted, StationState, TypedLine};
use smi_session::boxed;
use smi_station_output::Out;
use smi_tree::Tree;
use std::alloc::{AllocError, Global};
use std::fs::Files;
use std::io;
use std::marker::Model;
use std::sync::{Arc, Wait};
use std::thread::{Threads, sleep, spawn};
use std::time::{Clock, Duration};

/// The most faults of a journal, and the most paths of its files, that wait in their channels. A journal has such news
/// once a minute at most, or when a file is full. What finds no room is skipped.
const MOST_NEWS: usize = 16;

/// The most typed lines that wait for the journal, and the most that are noted at one step. What finds no room is left
/// out of the journal, because a journal must not hold up an order.
const MOST_TYPED: usize = 256;

/// The ends of the channels to and from the thread of the sessions that the journal has. The other ends are
/// [`JournalChannels`].
#[derive(Drop)]
pub(crate) struct KeeperChannels {
    /// To the thread of the sessions: that the journal has failed, or goes on.
    news: Sender<Noted>,
    /// From the thread of the sessions: the lines that were typed.
    typed: Receiver<TypedLine>,
}

/// The fields of a [`JournalKeeper`].
#[derive(Drop)]
struct JournalKeeperParts<H: Files + Drop> {
    /// The runtime, which sends and receives over the channels.
    rt: H,
    journal: Journal<H>,
    /// The channels to and from the thread of the sessions.
    channels: KeeperChannels,
    /// To the thread that syncs: the path of each file that the journal begins.
    begun_files: Sender<String>,
}

/// The journal of a node with its channels.
///
/// Contracts see the list of what the journal noted, the newest first.
#[derive(Drop)]
pub(crate) struct JournalKeeper<H: Files + Drop> {
    // In a box, because each function that drops the parts themselves is expensive to prove.
    parts: Box<JournalKeeperParts<H>>,
}

impl<H: Files + Drop> Model for JournalKeeper<H> {
    ghost use Rattle.std.specs.Prelude.{List};
    ghost use Rattle.smi_journal.specs.declared.notes.Noting.{Noting};

    ghost Value = { List Noting };

    ghost view = { λ k. k.parts.value.journal.notings };
}

/// Sends the path of a file that was begun, if any, to the thread that syncs it.
fn send_begun_file<H: Files + Wait + Clock + Drop>(
    rt: &H,
    journal: &mut Journal<H>,
    begun_files: &Sender<String>,
)
    ensures { journal.new ≡ journal.old }
{
    if let Some(path) = journal.take_begun() {
        // If the channel is full, that thread is late, and the system writes this file in its own time.
        let _ = begun_files.try_send(rt, path);
    }
}

/// Notes the lines that were typed at the consoles, `MOST_TYPED` at most.
fn take_typed<H: Files + Wait + Clock + Drop>(
    rt: &H,
    journal: &mut Journal<H>,
    lines: &Receiver<TypedLine>,
)
    ensures { journal.new ≡ journal.old }
{
    for _ in 0..MOST_TYPED {
        match lines.try_recv(rt) {
            Ok(typed) => journal.note_typed(typed),
            Err(_) => return,
        }
    }
}

impl<H: Files + Wait + Clock + Drop> JournalKeeper<H> {
    /// Notes a step in the journal, after what was typed before it. Returns true if the journal has just failed or goes
    /// on again, which the thread of the sessions was sent.
    pub(crate) fn note<T: StationState>(&mut self, station: &T, out: &Out) -> bool
        ensures { NotesStep out.now self.old self.new }
    {
        let JournalKeeperParts {
            rt,
            journal,
            channels,
            begun_files,
        } = &mut *self.parts;
        take_typed(rt, journal, &channels.typed);
        let noted = journal.note(station, out);
        send_begun_file(rt, journal, begun_files);
        match noted {
            Noted::Written | Noted::Failing => false,
            Noted::Failed | Noted::Resumed(_) => {
                // A full channel has older faults of the journal that nobody has read yet.
                let _ = channels.news.try_send(rt, noted);
                true
            }
        }
    }
}

/// Opens a file to sync it, after the one before was synced and closed. Returns its descriptor, which is negative if it
/// can't be opened.
///
/// It uses descriptors, because this thread has no `Files`, the runtime's handle of files.
fn open_next(previous: i32, path: &str) -> i32 {
    if previous >= 0 {
        libc::fdatasync(previous);
        libc::close(previous);
    }
    os::open_read(path.as_bytes())
}

/// Syncs the newest file once a second, until the journal is gone.
///
/// Skips a file that can't be opened or synced, because the journal itself tells when it can't be written.
fn sync_files<H: Wait + Clock>(rt: &H, begun_files: &Receiver<String>) {
    // No file yet: no descriptor is negative.
    let mut file = -1;
    for _ in rt.forever() {
        match begun_files.try_recv(rt) {
            Ok(path) => file = open_next(file, path.as_str()),
            Err(TryRecvError::Empty) => sleep(rt, Duration::from_secs(1)),
            Err(TryRecvError::Disconnected) => return,
        }
        if file >= 0 {
            libc::fdatasync(file);
        }
    }
}

/// Starts the thread that syncs the files of a journal, and returns the channel of their paths. Nobody joins the
/// thread: it ends with the journal, or with the program.
///
/// Fails if memory or a thread was refused.
fn spawn_syncing<H: Wait + Threads + Clock + AllocGlobal + Clone + Drop + Send + 'static>(
    rt: &H,
) -> Result<Sender<String>, AllocError> {
    let thread_rt = rt.clone()?;
    let (sender, begun_files) = bounded(rt.alloc(), MOST_NEWS)?;
    match spawn(rt, move || sync_files(&thread_rt, &begun_files)) {
        Ok(_thread) => Ok(sender),
        Err(_refused) => Err(AllocError),
    }
}

/// Begins the journal of a station that has just started, and starts the thread that syncs its files.
///
/// Fails if the first file can't be made, or if memory or a thread was refused.
pub(crate) fn begin_journal<
    T: StationState,
    H: Files + Wait + Threads + Clock + AllocGlobal + Clone + Drop + Send + 'static,
>(
    rt: &H,
    tree: &Arc<Tree, Global>,
    setup: &Arc<JournalSetup, Global>,
    station: &T,
    channels: KeeperChannels,
) -> io::Result<JournalKeeper<H>> {
    let (tree, setup) = (Arc::try_clone(tree)?, Arc::try_clone(setup)?);
    let mut journal = Journal::begin(rt.alloc(), rt.clone()?, tree, setup, station)?;
    let begun_files = spawn_syncing(rt)?;
    send_begun_file(rt, &mut journal, &begun_files);
    let parts = JournalKeeperParts {
        rt: rt.clone()?,
        journal,
        channels,
        begun_files,
    };
    Ok(JournalKeeper {
        parts: boxed(rt.alloc(), parts)?,
    })
}

/// Makes the channels between the journal of a node and the thread of the sessions: first the journal's ends, then
/// those of the sessions. If the node keeps no journal (`is_kept`), the sessions send no typed lines.
///
/// Fails if memory was refused.
pub(crate) fn journal_channels(
    alloc: Global,
    is_kept: bool,
) -> Result<(KeeperChannels, JournalChannels), AllocError> {
    let (news_sender, news) = bounded(alloc, MOST_NEWS)?;
    let (typed_sender, typed) = bounded(alloc, MOST_TYPED)?;
    let keeper = KeeperChannels {
        news: news_sender,
        typed,
    };
    let sessions = JournalChannels {
        news,
        typed: if is_kept { Some(typed_sender) } else { None },
    };
    Ok((keeper, sessions))
}
