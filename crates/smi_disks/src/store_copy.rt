//! Compares the file of a store with what it was when its log had been copied into it.
//!
//! What it was is a [`StoreCopy`], which is no copy but a note: a sum of the file, and the salts of the log. The file
//! `STORE-sum` has its 40 bytes (docs/FORMATS.md, "The sum of a store").

ghost use Rattle.std.specs.Prelude.{◌≡◌, OnOk};
ghost use Rattle.sha2.specs.Sha256.{sha256};
ghost use Rattle.smi_disks.specs.StoreCopy as spec;

use crate::log_check::{is_damaged, salts_of_empty};
use sha2::{Digest, Sha256};
use std::alloc::AllocError;

/// How many bytes the note of a copy has.
pub const COPY_BYTES: usize = 40;

/// How many of them are the salts of the log.
const SALT_BYTES: usize = 8;

/// What the file of a store was when its log had been copied into it.
#[derive(Clone, Copy, PartialEq, Eq)]
pub struct StoreCopy {
    /// The salts in the header of its log. A log gets other ones each time that it is copied.
    pub salts: [u8; SALT_BYTES],
    /// The SHA-256 (FIPS 180-4) of its file.
    pub sum: [u8; 32],
}

/// What is seen of the files of a store that nobody has open.
#[derive(Clone, Copy, PartialEq, Eq)]
pub enum StoreHealth {
    /// Nothing is amiss, as far as it can be seen.
    Sound,
    /// Its log lost something in its middle.
    DamagedLog,
    /// Its file is not what it was when its log had been copied into it.
    DamagedFile,
}

/// Returns the sum of a file.
fn sum_of(file: &[u8]) -> [u8; 32]
    ensures { result ≡ sha256 file.now }
{
    let mut hasher = Sha256::new();
    hasher.update(file);
    hasher.finalize()
}

impl StoreCopy {
    ghost use Rattle.std.specs.Prelude.{◌≡◌, ◌≢◌, length, IfSome, None};
    ghost use Rattle.smi_disks.specs.StoreCopy as spec;

    /// Returns what a store is now, by its file and its log, or None if its log has something that is not copied, or
    /// has no sound header.
    pub fn of_files(file: &[u8], log: &[u8]) -> Option<StoreCopy>
        ensures { result ≡ spec.copy_of file.now log.now }
    {
        match salts_of_empty(log) {
            Some(salts) => Some(StoreCopy {
                salts,
                sum: sum_of(file),
            }),
            None => None,
        }
    }

    /// Returns the note in these bytes, or None if they are not [`COPY_BYTES`].
    pub fn of(bytes: &[u8]) -> Option<StoreCopy>
        ensures found { IfSome result (λ copy. bytes.now ≡ spec.copy_bytes copy) }
        ensures none { result ≡ None → length bytes.now ≢ COPY_BYTES }
    {
        if bytes.len() != COPY_BYTES {
            return None;
        }
        let (front, rest) = bytes.split_at(SALT_BYTES);
        let mut salts = [0; SALT_BYTES];
        salts.copy_from_slice(front);
        let mut sum = [0; 32];
        sum.copy_from_slice(rest);
        Some(StoreCopy { salts, sum })
    }

    /// Returns true if nothing was logged since the note, and the file has another sum. If the log has other salts, or
    /// none, nothing can be told, and it returns false.
    fn differs(&self, file: &[u8], log: &[u8]) -> bool
        ensures { result ≡ spec.differs self.now file.now log.now }
    {
        match salts_of_empty(log) {
            Some(salts) => salts == self.salts && sum_of(file) != self.sum,
            None => false,
        }
    }
}

/// Puts the bytes of a note into a text, in place of what was there (docs/FORMATS.md, "The sum of a store").
///
/// Its error is that memory was refused.
pub fn spell_copy(text: &mut Vec<u8>, copy: &StoreCopy) -> Result<(), AllocError>
    ensures { OnOk result (text.new.items ≡ spec.copy_bytes copy.now) }
{
    text.clear();
    text.extend_from_slice(&copy.salts)?;
    text.extend_from_slice(&copy.sum)
}

/// Returns what is seen of the files of a store: by its log alone, and by the note of when its log was copied into its
/// file, if it has one.
pub fn health(copy: Option<StoreCopy>, file: &[u8], log: &[u8]) -> StoreHealth
    ensures { result ≡ spec.health copy file.now log.now }
{
    if is_damaged(log) {
        return StoreHealth::DamagedLog;
    }
    match copy {
        Some(copy) if copy.differs(file, log) => StoreHealth::DamagedFile,
        _ => StoreHealth::Sound,
    }
}
