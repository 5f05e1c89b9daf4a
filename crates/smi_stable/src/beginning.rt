//! The first page of a new file.

ghost use Rattle.std.specs.Prelude.{◌≡◌, ◌≤◌, ◌⊎◌, ℕ, List, length, true, false, [], IfOk, IfErr, OnOk, IsTrue};
ghost use Rattle.sqlite_disk.specs.Disk.{Follows, MoreFaults, Only};
ghost use Rattle.sqlite_wal.specs.Reads.{AreClean};
ghost use Rattle.smi_stable.specs.Beginning.{first_bytes, is_part_of, is_unbegun, BegunFrom, LeftAlone, MayHoldRows};
ghost use Rattle.smi_stable.specs.Beginning.{PartlyBegun};

use sqlite_disk::{Disk, Files};
use std::io;

/// How many bytes a page of a new file has: the fewest that SQLite knows.
pub const PAGE_BYTES: usize = 512;

/// What SQLite writes at the beginning of a database that has one page, no tables, and a log that is written ahead;
/// zeros follow. The first 100 bytes are the header of section 1.3 of SQLite's "Database File Format", the others begin
/// a page of a table without cells.
const HEAD: [u8; 108] = [
    83, 81, 76, 105, 116, 101, 32, 102, 111, 114, 109, 97, 116, 32, 51, 0, 2, 0, 2, 2, 0, 64, 32,
    32, 0, 0, 0, 0, 0, 0, 0, 1, 0, 0, 0, 0, 0, 0, 0, 0, 0, 0, 0, 1, 0, 0, 0, 4, 0, 0, 0, 0, 0, 0,
    0, 0, 0, 0, 0, 1, 0, 0, 0, 0, 0, 0, 0, 0, 0, 0, 0, 0, 0, 0, 0, 0, 0, 0, 0, 0, 0, 0, 0, 0, 0, 0,
    0, 0, 0, 0, 0, 0, 0, 0, 0, 0, 0, 46, 118, 136, 13, 0, 0, 0, 0, 2, 0, 0,
];

fn first_page() -> [u8; PAGE_BYTES]
    ensures { result ≡ first_bytes }
{
    let mut page = [0; PAGE_BYTES];
    page[..HEAD.len()].copy_from_slice(&HEAD);
    page
}

/// Whether each byte of a file is zero or that of a page at its place.
fn is_part_of(bytes: &[u8], page: &[u8]) -> bool
    ensures { result ≡ is_part_of bytes.now page.now }
{
    let [byte, more @ ..] = bytes else {
        return true;
    };
    let [own, rest @ ..] = page else {
        return false;
    };
    (*byte == 0 || *byte == *own) && is_part_of(more, rest)
}

/// Returns true if a file of as many bytes as there is room for holds nothing but zeros and bytes of its first page.
fn is_unbegun<D: Disk>(db: &mut D, room: &mut [u8]) -> io::Result<bool>
    requires { IsTrue (D.Disk.is_usable db.old) }
    ensures part { IfOk result (λ is_so. IsTrue (D.Disk.is_clean db.new)
        → length (D.Disk.seen db.old) ≡ length room.old → is_so ≡ is_unbegun (D.Disk.seen db.old)) }
    ensures seen { D.Disk.seen db.new ≡ D.Disk.seen db.old }
    ensures clean { IsTrue (D.Disk.is_clean db.new) → IsTrue (D.Disk.is_clean db.old) }
    ensures usable { IsTrue (D.Disk.is_usable db.new) }
    ensures fault { IfErr result (λ _. (IsTrue (D.Disk.is_clean db.old)
        → length room.old ≤ length (D.Disk.seen db.old)) → MoreFaults (D.Disk.faults db.old) (D.Disk.faults db.new)) }
    ensures counted { OnOk result (D.Disk.faults db.new ≡ D.Disk.faults db.old) }
    ensures crash { (c : List ℕ) → D.Disk.may_leave db.new c → D.Disk.may_leave db.old c }
{
    db.read_at(0, room)?;
    Ok(is_part_of(room, &first_page()))
}

/// Writes the first page into a file, which then holds nothing else, and hands it to the device.
fn write_first_page<D: Disk>(db: &mut D) -> io::Result<()>
    requires { IsTrue (D.Disk.is_usable db.old) }
    ensures written { OnOk result (D.Disk.seen db.new ≡ first_bytes) }
    ensures kept { OnOk result (Only first_bytes (D.Disk.may_leave db.new)) }
    ensures clean { IsTrue (D.Disk.is_clean db.new) → IsTrue (D.Disk.is_clean db.old) }
    ensures fault { IfErr result (λ _. MoreFaults (D.Disk.faults db.old) (D.Disk.faults db.new)) }
    ensures crash { Follows BegunFrom (D.Disk.may_leave db.old) (D.Disk.may_leave db.new) }
    ensures mixed { IsTrue (D.Disk.is_mixing db.old)
        → Follows PartlyBegun (D.Disk.may_leave db.old) (D.Disk.may_leave db.new) }
{
    db.write_at(0, &first_page())?;
    db.set_len(PAGE_BYTES)?;
    db.sync()
}

/// Begins a new file, which holds nothing and has an empty log beside it: writes its first page and hands it to the
/// device. Tells whether it did.
///
/// Any other file is left alone, whatever is told, and at each moment in between. What a stop or a full disk leaves of
/// the page counts as nothing, so that the file is begun at the next try.
///
/// # Errors
///
/// What the disk answers, where one of its calls failed. A file that was to be begun may then hold a part of the page.
pub fn begin<D: Disk>(files: &mut Files<D>) -> io::Result<bool>
    requires log { IsTrue (D.Disk.is_usable files.old.log) }
    requires db { IsTrue (D.Disk.is_usable files.old.db) }
    ensures log { LeftAlone D.Disk.seen D.Disk.may_leave files.old.log files.new.log }
    ensures left { AreClean D.Disk files.new.log files.new.db
        → MayHoldRows (D.Disk.seen files.old.log) (D.Disk.seen files.old.db)
        → LeftAlone D.Disk.seen D.Disk.may_leave files.old.db files.new.db }
    ensures kept { IfOk result (λ is_begun. is_begun ≡ false
        → LeftAlone D.Disk.seen D.Disk.may_leave files.old.db files.new.db) }
    ensures new { IfOk result (λ is_begun. is_begun ≡ true → AreClean D.Disk files.new.log files.new.db
        → (D.Disk.seen files.old.log ≡ []) × (is_unbegun (D.Disk.seen files.old.db) ≡ true)) }
    ensures other { IfOk result (λ is_begun. is_begun ≡ false → AreClean D.Disk files.new.log files.new.db
        → D.Disk.seen files.old.log ≡ [] → is_unbegun (D.Disk.seen files.old.db) ≡ false) }
    ensures begun { IfOk result (λ is_begun. is_begun ≡ true → (D.Disk.seen files.new.db ≡ first_bytes)
        × Only first_bytes (D.Disk.may_leave files.new.db)) }
    ensures fault { IfErr result (λ _. AreClean D.Disk files.new.log files.new.db
        → MoreFaults (D.Disk.faults files.old.log) (D.Disk.faults files.new.log)
        ⊎ MoreFaults (D.Disk.faults files.old.db) (D.Disk.faults files.new.db)) }
    ensures crash { Follows BegunFrom (D.Disk.may_leave files.old.db) (D.Disk.may_leave files.new.db) }
{
    if files.log.len()? > 0 {
        return Ok(false);
    }
    let length = files.db.len()?;
    if length > PAGE_BYTES {
        return Ok(false);
    }
    let mut room = [0; PAGE_BYTES];
    if !is_unbegun(&mut files.db, &mut room[..length])? {
        return Ok(false);
    }
    write_first_page(&mut files.db)?;
    Ok(true)
}
