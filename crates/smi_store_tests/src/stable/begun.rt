//! New files get short pages, and any other file is left alone.

use super::disks::{FusedFiles, OnDisks, back, disk, found};
use smi_stable::{PAGE_BYTES, SavedRow, Stable, StoreFault, begin};
use smi_testkit::{BOOT, key};
use sqlite::Files;
use std::alloc::Global;
use std::io;
use std::test::Fail;

/// What is at some places of a file that was begun, by SQLite's "Database File Format": the header's string, the
/// size of a page, a log ahead of the file, the three fractions, one page, schema format 4, UTF-8; and a page of a
/// table that has no cells.
const FIELDS: [(usize, &[u8]); 9] = [
    (0, b"SQLite format 3\0"),
    (16, &[2, 0]),
    (18, &[2, 2]),
    (20, &[0, 64, 32, 32]),
    (24, &[0, 0, 0, 0, 0, 0, 0, 1]),
    (44, &[0, 0, 0, 4]),
    (56, &[0, 0, 0, 1]),
    (92, &[0, 0, 0, 0]),
    (100, &[13, 0, 0, 0, 0, 2, 0, 0]),
];

fn is_begun(bytes: &[u8]) -> bool {
    let has_fields = FIELDS.iter().all(|(at, field)| bytes.get(*at..*at + field.len())
        == Some(*field));
    has_fields && bytes.len() == 512
}

fn begun(files: &mut FusedFiles) -> io::Result<bool> {
    if !files.may_be_used() {
        return Err(io::Error::other("the files may not be used"));
    }
    begin(files)
}

fn files(alloc: Global, log: &[u8], db: &[u8], calls: u64) -> Result<FusedFiles, Fail> {
    Ok(Files {
        log: disk(alloc, log, u64::MAX)?,
        db: disk(alloc, db, calls)?,
    })
}

/// Returns what a stop may leave of a page: as many bytes of it, with zeros at every such place.
fn torn(page: &[u8], length: usize, zeros: usize) -> [u8; PAGE_BYTES] {
    let mut bytes = [0; PAGE_BYTES];
    for place in 0..length.min(page.len()).min(PAGE_BYTES) {
        if zeros == 0 || place % zeros != 0 {
            bytes[place] = page[place];
        }
    }
    bytes
}

/// Returns whether files are begun, and the file is what it should be then.
fn told_of(files: &mut FusedFiles, db: &[u8]) -> Option<bool> {
    let told = begun(files).ok()?;
    let bytes = files.db.inner().bytes();
    let is_so = if told { is_begun(bytes) } else { bytes == db };
    if is_so { Some(told) } else { None }
}

fn becomes(alloc: Global, log: &[u8], db: &[u8]) -> Result<Option<bool>, Fail> {
    let mut files = files(alloc, log, db, u64::MAX)?;
    Ok(told_of(&mut files, db))
}

/// Returns what a file is begun with.
fn first_page(alloc: Global) -> Result<[u8; PAGE_BYTES], Fail> {
    let mut files = files(alloc, &[], &[], u64::MAX)?;
    let told = told_of(&mut files, &[]);
    let page = torn(files.db.inner().bytes(), PAGE_BYTES, 0);
    if told == Some(true) {
        Ok(page)
    } else {
        Err("a new file is not begun")?
    }
}

#[test]
fn new_files_alone_are_begun(rt: HostRuntime) -> Result<(), Fail> {
    let alloc = rt.alloc();
    let page = &first_page(alloc)?;
    let mut other = *page;
    other[511] = 1;
    let empty: &[u8] = &[];
    for (log, db, wanted) in [
        (empty, empty, true),
        (empty, page, true),
        (empty, &[0], true),
        (empty, &[0; 511], true),
        (empty, &torn(page, 100, 0), true),
        (empty, &torn(page, PAGE_BYTES, 3), true),
        (empty, &other, false),
        (empty, b"a text", false),
        (empty, &[0; 513], false),
        (&[0], empty, false),
        (&[1], page, false),
    ] {
        assert_eq!(rt; becomes(alloc, log, db)?, Some(wanted));
    }
    Ok(())
}

fn is_row(row: Option<&SavedRow>) -> bool {
    row.is_some_and(|row| row.key == key(1, 0, 0) && row.bytes.as_slice() == BOOT)
}

fn save_times<S: Stable>(store: &mut S, saves: u8) -> Result<(), StoreFault> {
    for _ in 0..saves {
        store.save(key(1, 0, 0), BOOT)?;
    }
    Ok(())
}

/// Returns how many bytes of a log are written: zeros follow them.
fn written(log: &[u8]) -> usize {
    log.iter()
        .rposition(|byte| *byte != 0)
        .map_or(0, |last| last + 1)
}

/// Saves a row this many times in files that were begun. Returns how many bytes of the log are then written, and
/// whether the row is found again.
fn keeps_a_row<S: OnDisks<Disks = FusedFiles>>(
    alloc: Global,
    files: FusedFiles,
    saves: u8,
) -> Result<(usize, bool), Fail> {
    match S::open(alloc, files) {
        Ok(store) => {
            let mut store = store;
            let saved = save_times(&mut store, saves);
            let files = store.close();
            let length = written(files.log.inner().bytes());
            let list = found::<S>(alloc, back(files))?;
            saved?;
            Ok((length, list.len() == 1 && is_row(list.first())))
        }
        Err(_) => Err("the files are not opened")?,
    }
}

/// Returns how many bytes of the log are written after this many saves of a row in a file that was begun, if it is
/// found again.
fn log_after<S: OnDisks<Disks = FusedFiles>>(
    alloc: Global,
    saves: u8,
) -> Result<Option<usize>, Fail> {
    let mut files = files(alloc, &[], &[], u64::MAX)?;
    if !begun(&mut files)? {
        return Ok(None);
    }
    let (length, is_there) = keeps_a_row::<S>(alloc, files, saves)?;
    Ok(if is_there { Some(length) } else { None })
}

/// Returns whether a second save adds the page of the rows to the log, after the 24 bytes of its frame.
pub(super) fn adds_one_short_page<S: OnDisks<Disks = FusedFiles>>(
    alloc: Global,
) -> Result<bool, Fail> {
    match (log_after::<S>(alloc, 1)?, log_after::<S>(alloc, 2)?) {
        (Some(once), Some(twice)) => Ok(twice.checked_sub(once) == Some(24 + 512)),
        _ => Ok(false),
    }
}

/// Begins a file that stops after this many calls, and once more after the machine is back. Returns whether the first
/// try was refused, and whether the store then keeps a row.
fn begun_again<S: OnDisks<Disks = FusedFiles>>(
    alloc: Global,
    calls: u64,
) -> Result<(bool, bool), Fail> {
    let mut files = files(alloc, &[], &[], calls)?;
    let is_refused = begun(&mut files).is_err();
    let mut files = back(files);
    let is_whole = begun(&mut files)? && is_begun(files.db.inner().bytes());
    let (_, is_there) = keeps_a_row::<S>(alloc, files, 1)?;
    Ok((is_refused, is_whole && is_there))
}

/// Returns whether a file that stops after each call in turn keeps a row once it is begun again, and more than two
/// tries were refused.
pub(super) fn is_begun_after_a_stop<S: OnDisks<Disks = FusedFiles>>(
    alloc: Global,
) -> Result<bool, Fail> {
    for calls in 0..100u64 {
        let (is_refused, is_there) = begun_again::<S>(alloc, calls)?;
        if !is_there {
            return Ok(false);
        }
        if !is_refused {
            return Ok(calls > 2);
        }
    }
    Ok(false)
}
