//! Finds out whether the log of a store lost something in its middle, and which salts an empty log has.
//!
//! `store_copy.rt` asks the first before a start opens the store, which refuses to start then. It keeps the salts of an
//! empty log with the sum of the file: as long as the log has these and is empty, the file should have that sum.
//!
//! The log is a write-ahead log of SQLite (its "Database File Format", section 4). The header has the word with which
//! it begins (at byte 0), the size of a page (8), two salts (16) and two sums (24). Each frame has the number of its
//! page (0), a word that is not zero if a save ends with it (4), the salts of the header (8), two sums (16), and a page
//! (24).

ghost use Rattle.std.specs.Prelude.{◌≡◌, ◌≤◌, take, drop, length};
ghost use Rattle.smi_disks.specs.LogCheck as spec;

use smi_base::u32_at;
use sqlite_wal::checksum_of;
use std::marker::Model;

/// How many bytes the header of a log has.
const HEADER: usize = 32;

/// How many bytes stand before the page in a frame.
const FRAME_HEADER: usize = 24;

/// The word with which a log begins whose sums are of words with the lowest byte first.
const LOW_FIRST: u32 = 0x377f_0682;

/// The word with which a log begins whose sums are of words with the highest byte first.
const HIGH_FIRST: u32 = 0x377f_0683;

/// A sum as the log has it: of each frame, going on from the one before.
type Sum = (u32, u32);

/// What is known of a log after some of its frames.
#[derive(Clone, Copy, PartialEq, Eq)]
pub(crate) enum LogWalk {
    /// Each frame goes on from the one before.
    Sound,
    /// A frame does not go on from the one before. So ends a save that a crash broke off.
    Torn,
    /// After that frame a save has ended, which may be the one that had it.
    Ended,
    /// After the end of that save a frame goes on: another save was begun, so the one with the bad frame was on the
    /// disk.
    Damaged,
}

/// Frames of a log that are still to be read.
#[derive(Drop)]
struct LogReading<'a> {
    known: LogWalk,
    /// The sum in the frame before.
    before: Sum,
    rest: &'a [u8],
}

impl<'a> Model for LogReading<'a> {
    ghost use Rattle.smi_disks.specs.LogCheck.{LogReadingState};

    ghost Value = { LogReadingState };

    ghost view = { λ r. record { known = r.known; before = r.before; rest = r.rest.now } };
}

/// Returns the two words in the eight bytes from `at` on, or zeros if there are fewer bytes. Sums and salts lie so.
fn sum_at(bytes: &[u8], at: usize) -> Sum
    requires { at ≤ FRAME_HEADER }
    ensures { result ≡ spec.sum_at bytes.now at }
{
    if bytes.len() < at + 8 {
        (0, 0)
    } else {
        (u32_at(bytes, at), u32_at(bytes, at + 4))
    }
}

/// Returns the bytes up to a place, and those from there on.
fn cut_at(bytes: &[u8], place: usize) -> (&[u8], &[u8])
    ensures front { result.0.now ≡ take place bytes.now }
    ensures back { result.1.now ≡ drop place bytes.now }
{
    if place < bytes.len() {
        bytes.split_at(place)
    } else {
        (bytes, &[])
    }
}

/// Returns the sum of a frame that follows one with the sum `before`.
fn frame_sum(is_high_first: bool, before: Sum, frame: &[u8]) -> Sum
    ensures { result ≡ spec.frame_sum is_high_first before frame.now }
{
    let (front, _) = cut_at(frame, 8);
    let (_, content) = cut_at(frame, FRAME_HEADER);
    checksum_of(
        is_high_first,
        checksum_of(is_high_first, before, front),
        content,
    )
}

/// Returns true if the words of a log's sums have the highest byte first.
fn is_high_first(head: &[u8]) -> bool
    requires { HEADER ≤ length head.now }
    ensures { result ≡ spec.is_high_first head.now }
{
    u32_at(head, 0) == HIGH_FIRST
}

/// Returns true if a log has this header.
fn is_header(head: &[u8]) -> bool
    requires { HEADER ≤ length head.now }
    ensures { result ≡ spec.is_header head.now }
{
    let (front, _) = cut_at(head, FRAME_HEADER);
    (u32_at(head, 0) == LOW_FIRST || u32_at(head, 0) == HIGH_FIRST)
        && checksum_of(is_high_first(head), (0, 0), front) == sum_at(head, FRAME_HEADER)
}

/// Returns true if a frame goes on from one with the sum `before`, in a log with this header.
fn is_linked(head: &[u8], before: Sum, frame: &[u8]) -> bool
    requires { HEADER ≤ length head.now }
    ensures { result ≡ spec.is_linked head.now before frame.now }
{
    frame.len() >= FRAME_HEADER
        && u32_at(frame, 0) != 0
        && sum_at(frame, 8) == sum_at(head, 16)
        && frame_sum(is_high_first(head), before, frame) == sum_at(frame, 16)
}

/// Returns true if a save ends with a frame.
fn ends_save(frame: &[u8]) -> bool
    ensures { result ≡ spec.ends_save frame.now }
{
    frame.len() >= FRAME_HEADER && u32_at(frame, 4) != 0
}

/// Returns what is known after another frame: whether it goes on from the one before, and whether a save ends with it.
fn known_after(known: LogWalk, is_linked: bool, ends_save: bool) -> LogWalk
    ensures { result ≡ spec.known_after known is_linked ends_save }
{
    match known {
        LogWalk::Sound if is_linked => LogWalk::Sound,
        LogWalk::Sound => LogWalk::Torn,
        LogWalk::Torn if is_linked && ends_save => LogWalk::Ended,
        LogWalk::Torn => LogWalk::Torn,
        LogWalk::Ended if !is_linked => LogWalk::Ended,
        LogWalk::Ended | LogWalk::Damaged => LogWalk::Damaged,
    }
}

/// Returns how many bytes each frame of a log has that has this header.
fn frame_size(head: &[u8]) -> usize
    requires { HEADER ≤ length head.now }
    ensures { result ≡ spec.frame_size head.now }
{
    u32_at(head, 8) as usize + FRAME_HEADER
}

/// Reads the next frame, of this many bytes. The one after it is held against the sum that this one has, right or
/// wrong, so that what follows a bad frame is seen too.
fn read_frame<'a>(head: &[u8], size: usize, reading: &LogReading<'a>) -> LogReading<'a>
    requires { HEADER ≤ length head.now }
    ensures { result ≡ spec.frame_read head.now size reading.now }
{
    let (frame, rest) = cut_at(reading.rest, size);
    let is_linked = is_linked(head, reading.before, frame);
    LogReading {
        known: known_after(reading.known, is_linked, ends_save(frame)),
        before: sum_at(frame, 16),
        rest,
    }
}

/// Returns what is known of a log with this header by all of its frames.
#[tactic(auto, using(crate::proofs::Frames::frames_next))]
fn walk(head: &[u8], frames: &[u8]) -> LogWalk
    requires { HEADER ≤ length head.now }
    ensures { result ≡ spec.walk head.now frames.now }
{
    let size = frame_size(head);
    let mut reading = LogReading {
        known: LogWalk::Sound,
        before: sum_at(head, FRAME_HEADER),
        rest: frames,
    };
    for _ in 0..frames.len() / size {
        reading = read_frame(head, size, &reading);
    }
    reading.known
}

/// Returns the salts in a header, which each frame has too.
fn salts_in(head: &[u8]) -> [u8; 8]
    requires { HEADER ≤ length head.now }
    ensures { result ≡ spec.salts_in head.now }
{
    let mut salts = [0; 8];
    salts.copy_from_slice(&head[16..24]);
    salts
}

/// Returns the salts of a log that has a header and after it nothing that goes on from there, or None of any other log.
pub(crate) fn salts_of_empty(log: &[u8]) -> Option<[u8; 8]>
    ensures { result ≡ spec.salts_of_empty log.now }
{
    if log.len() < HEADER {
        return None;
    }
    let (head, frames) = log.split_at(HEADER);
    let (frame, _) = cut_at(frames, frame_size(head));
    if !is_header(head) || is_linked(head, sum_at(head, FRAME_HEADER), frame) {
        return None;
    }
    Some(salts_in(head))
}

/// Returns true if a log lost something in its middle: a frame in it does not go on from the one before, though a save
/// follows that was begun after that of the frame. A save is begun once the one before is on the disk, so no crash
/// leaves such a log, and the first save after a start puts zeros in the place of what a crash left. SQLite would take
/// the log as ended before that frame, and drop that save and all later ones without a word.
///
/// Damage in the header of a log is not found. Nor is it in the last two saves, or in the sum of the last frame of the
/// one before them.
pub fn is_damaged(log: &[u8]) -> bool
    ensures { result ≡ spec.is_damaged log.now }
{
    if log.len() < HEADER {
        return false;
    }
    let (head, frames) = log.split_at(HEADER);
    is_header(head) && walk(head, frames) == LogWalk::Damaged
}
