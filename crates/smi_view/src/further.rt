//! Which of two records of a domain has come further.

ghost use Rattle.std.specs.Prelude.{◌≡◌};
ghost use Rattle.smi_grant.specs.Rank.{place_of};
ghost use Rattle.smi_view.specs.Newest.{is_further};

use smi_grant::{Phase, Record};

/// Returns the place of a record's last command in its grant: busy with it, and then settled.
fn place_of(record: &Record) -> u32
    ensures { result ≡ place_of record.now.phase record.now.last }
{
    match record.phase {
        Phase::Settled => 2 * record.last + 1,
        Phase::Busy => 2 * record.last,
    }
}

/// Returns true if a record has come further than another one of its domain: its epoch is greater, or the same and
/// its last command is later, or the same and settled if the other is busy. (docs/PROTOCOL.md, "The record".)
pub fn is_further(record: &Record, other: &Record) -> bool
    ensures { result ≡ is_further record.now other.now }
{
    record.epoch > other.epoch
        || (record.epoch == other.epoch && place_of(record) > place_of(other))
}
