//! `smi answer`: the keeper of one domain (`keeper.rt`) over a reader and a writer.
//! `crates/smi_program/src/commands.rt` gives it standard input and output. docs/FORMATS.md, "Datagrams", fixes the
//! bytes, and docs/PROTOCOL.md, "One domain on its own", the answers.

ghost use Rattle.std.specs.Prelude.{◌≡◌, ◌≢◌, ◌≤◌, ◌<◌, ◌+◌, ◌*◌, ◌++◌, List, ℕ, OnOk, IfSome, None, Some, Err, take};
ghost use Rattle.std.specs.Prelude.{drop, length};
ghost use Rattle.std.specs.Io.KnownBytes.{Appends};
ghost use Rattle.smi_grant.specs.Record.{fresh};
ghost use Rattle.smi_message.specs.declared.refusal.DatagramRefusal.{DatagramRefusal};
ghost use Rattle.smi_commands.specs.Keeper.{answer_to};
ghost use Rattle.smi_commands.specs.Answer.{AnswersWhole, IsDone, answers, ending, first_fault, pieces};

use crate::keeper::Keeper;
use smi_base::write_whole;
use smi_message::{Bad, DatagramRefusal};
use std::io::{ErrorKind, Read, Write};

/// The most reads that an input may take. The bound is there so that the loop ends: a reader that gives no end is
/// answered as one that fails. With one byte a read it is 4 GiB of input.
const MOST_READS: u64 = 1 << 32;

/// How many bytes are read, and answered, at once. It has to be more than the 44 bytes of a datagram; contracts have it
/// as 65536.
const BLOCK: usize = 64 * 1024;

/// How the answering ended.
#[derive(Clone, Copy, Debug, PartialEq, Eq)]
pub enum Answered {
    /// All of the input is answered.
    Ended,
    /// All before the datagram of this number, counted from 1, is answered. It is refused for this reason, 1 to 9
    /// (docs/NUMBERS.md, "Refused datagrams").
    Refused(u64, u16),
    /// A read failed. What was read before it is answered.
    ReadFault,
    /// A write or a flush failed. A prefix of the answers is written.
    WriteFault,
    /// Memory for a buffer of the caller's was refused. Nothing is read or written. `answer` never returns it.
    Memory,
}

/// How far the datagrams of some bytes are answered.
#[derive(Clone, Copy)]
struct Progress {
    /// How many datagrams are answered.
    count: usize,
    /// Why the next one is refused. None if fewer than 44 bytes follow.
    refusal: Option<DatagramRefusal>,
}

/// Answers each 44 bytes, which are a datagram, in turn, up to the first refusal. The answers go to the front of
/// `told`, 44 bytes each. Fewer than 44 bytes at the end are not answered: the caller puts them before the next bytes.
fn answer_each(keeper: &mut Keeper, bytes: &[u8], told: &mut [u8; BLOCK]) -> Progress
    requires room { length bytes.now ≤ 65536 }
    ensures within { result.count * 44 ≤ length bytes.now }
    // Whatever is read later: these answers come first, and the others are as after them.
    ensures answered { (later : List ℕ) → answers keeper.old (pieces (bytes.now ++ later))
        ≡ take (result.count * 44) told.new ++ answers keeper.new
        (pieces (drop (result.count * 44) bytes.now ++ later)) }
    ensures front { (later : List ℕ) → answers keeper.old (pieces (take (result.count * 44) bytes.now ++ later))
        ≡ take (result.count * 44) told.new ++ answers keeper.new (pieces later) }
    ensures ending { (later : List ℕ) (k : ℕ) → ending k keeper.old (pieces (bytes.now ++ later))
        ≡ ending (k + result.count) keeper.new (pieces (drop (result.count * 44) bytes.now ++ later)) }
    ensures whole { result.refusal ≡ None → length bytes.now < result.count * 44 + 44 }
    ensures refused { (refusal : DatagramRefusal) → result.refusal ≡ Some refusal
        → (result.count * 44 + 44 ≤ length bytes.now)
        × (answer_to keeper.new (take 44 (drop (result.count * 44) bytes.now)) ≡ Err refusal) }
{
    let most = bytes.len() / 44;
    'pieces: for count in 0..most {
        let from = count * 44;
        match keeper.answer(&bytes[from..from + 44]) {
            Ok(answer) => told[from..from + 44].copy_from_slice(&answer),
            Err(refusal) => {
                return Progress {
                    count,
                    refusal: Some(refusal),
                };
            }
        }
    }
    Progress {
        count: most,
        refusal: None,
    }
}

/// Answers each 44 bytes of a reader by the record as it is afterwards, up to the first refusal. A reader that gives no
/// end in 2^32 reads is answered as one that fails.
fn answer_all<R: Read, W: Write>(reader: &mut R, writer: &mut W) -> Answered
    ensures done { IfSome (R.remaining reader.old) (λ input. IsDone result →
        (result ≡ ending 0 fresh (pieces input))
        × Appends (W.contents writer.old) (W.contents writer.new) (answers fresh (pieces input))) }
    ensures front { IfSome (R.remaining reader.old) (λ input. (front rest : List ℕ) ×
        (answers fresh (pieces input) ≡ front ++ rest)
        × Appends (W.contents writer.old) (W.contents writer.new) front) }
    ensures read { IfSome (R.remaining reader.old) (λ input. result ≡ Answered.ReadFault
        → IfSome (R.remaining reader.new) (λ left. AnswersWhole input left (W.contents writer.old)
        (W.contents writer.new))) }
    // It takes no memory.
    ensures memory { result ≢ Answered.Memory }
{
    let mut keeper = Keeper::new();
    // Bytes that were read, and the answers to them.
    let mut block = [0; BLOCK];
    let mut told = [0; BLOCK];
    // How many bytes at the beginning of the block are not answered yet.
    let mut rest = 0;
    let mut count: u64 = 0;
    'reads: for _ in 0..MOST_READS {
        let end = match reader.read(&mut block[rest..]) {
            Ok(0) => {
                // A last datagram that is too short.
                if rest != 0 {
                    return Answered::Refused(count + 1, Bad::Length.code());
                }
                return Answered::Ended;
            }
            Ok(n) => rest + n,
            Err(e) => {
                // A read that a signal interrupts is made again.
                if e.kind() != ErrorKind::Interrupted {
                    return Answered::ReadFault;
                }
                rest
            }
        };
        let progress = answer_each(&mut keeper, &block[..end], &mut told);
        let answered = progress.count * 44;
        let Ok(()) = write_whole(writer, &told[..answered]) else {
            return Answered::WriteFault;
        };
        count += progress.count as u64;
        if let Some(refusal) = progress.refusal {
            return Answered::Refused(count + 1, refusal.code());
        }
        // Fewer than 44 bytes are left, so there is room for the next read.
        block.copy_within(answered..end, 0);
        rest = end - answered;
    }
    Answered::ReadFault
}

/// Answers each 44 bytes of a reader by the record as it is afterwards, up to the first refusal, and flushes what it
/// wrote.
///
/// The domain is domain 1 of tree 17, kept by station 1. It begins fresh and is on its own. Refusals are those of
/// docs/PROTOCOL.md, "Refusals", and a rest under 44 bytes is refused 1. A reader that gives no end in 2^32 reads is
/// answered as one that fails. A write or flush that fails is returned also if a datagram was refused before it.
pub fn answer<R: Read, W: Write>(reader: &mut R, writer: &mut W) -> Answered
    // If it reaches the end or a refusal, all the answers are written, and nothing else.
    ensures done { IfSome (R.remaining reader.old) (λ input. IsDone result →
        (result ≡ ending 0 fresh (pieces input))
        × Appends (W.contents writer.old) (W.contents writer.new) (answers fresh (pieces input))) }
    // In any case a front of them is written, and nothing else.
    ensures front { IfSome (R.remaining reader.old) (λ input. (front rest : List ℕ) ×
        (answers fresh (pieces input) ≡ front ++ rest)
        × Appends (W.contents writer.old) (W.contents writer.new) front) }
    // If a read failed, what was read before it is answered, up to the last whole datagram.
    ensures read { IfSome (R.remaining reader.old) (λ input. result ≡ Answered.ReadFault
        → IfSome (R.remaining reader.new) (λ left. AnswersWhole input left (W.contents writer.old)
        (W.contents writer.new))) }
    // It takes no memory.
    ensures memory { result ≢ Answered.Memory }
{
    let answered = answer_all(reader, writer);
    match writer.flush() {
        Ok(()) => answered,
        Err(_) => unflushed(answered),
    }
}

/// Returns how the answering ended if the flush failed: with the fault that came first, or else with that of the flush.
fn unflushed(answered: Answered) -> Answered
    ensures first { result ≡ first_fault answered }
    ensures read { result ≡ Answered.ReadFault → answered ≡ Answered.ReadFault }
    ensures not_done { IsDone result → ⊥ }
    ensures memory { answered ≢ Answered.Memory → result ≢ Answered.Memory }
{
    match answered {
        Answered::Ended | Answered::Refused(..) => Answered::WriteFault,
        fault => fault,
    }
}
