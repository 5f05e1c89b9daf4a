use crate::{Holder, LAST_NUMBER};
use std::marker::Model;

/// The greatest epoch of a domain.
pub const LAST_EPOCH: u64 = 1 << 62;

/// Whether a command is at work in a domain: the phase of its record.
#[derive(Clone, Copy, Debug, PartialEq, Eq)]
pub enum Phase {
    Settled,
    Busy,
}

impl Phase {
    ghost use Rattle.std.specs.Prelude.{◌≡◌};
    ghost use Rattle.smi_grant.specs.Record.{phase_number, phase_of};

    /// Returns the number of the phase in datagrams and rows: 0 settled, 1 busy.
    pub fn number(self) -> u8
        ensures { result ≡ phase_number self }
    {
        match self {
            Phase::Settled => 0,
            Phase::Busy => 1,
        }
    }

    /// Returns the phase of this number, if there is one.
    pub fn from_number(number: u8) -> Option<Phase>
        ensures { result ≡ phase_of number }
    {
        match number {
            0 => Some(Phase::Settled),
            1 => Some(Phase::Busy),
            _ => None,
        }
    }
}

/// What the keeper of a domain knows of its grant.
///
/// Every record is lawful: its epoch is at most [`LAST_EPOCH`], and even exactly when nobody holds
/// the domain; `last` is at most [`LAST_NUMBER`]; a free domain has run nothing; if nothing has
/// run, it is settled with outcome 0; a busy domain has outcome 0. (docs/PROTOCOL.md, "The record".)
#[derive(Clone, Copy, Debug, PartialEq, Eq)]
pub struct Record {
    /// How often the domain has changed hands.
    pub epoch: u64,
    pub holder: Holder,
    /// The number of the last command that ran under this grant, 0 for none.
    pub last: u32,
    pub phase: Phase,
    /// How that command ended, 0 if it was done or is not settled.
    pub outcome: u16,
}

impl Model for Record {
    ghost use Rattle.smi_grant.specs.Record.{Standing, IsRecord};

    ghost Value = { Standing };

    ghost view = { λ r. record {
      epoch = r.epoch;
      holder = r.holder;
      last = r.last;
      phase = r.phase;
      outcome = r.outcome;
    } };

    ghost invariant = { λ r. IsRecord
        (record { epoch = r.epoch; holder = r.holder; last = r.last; phase = r.phase; outcome = r.outcome }) };

    ghost inverse = { λ s. record {
      epoch = s.epoch;
      holder = s.holder;
      last = s.last;
      phase = s.phase;
      outcome = s.outcome;
    } };
}

impl Record {
    ghost use Rattle.std.specs.Prelude.{◌≡◌};
    ghost use Rattle.smi_grant.specs.Record.{fresh, standing, checked};

    /// Returns the record of a domain that nobody has held yet.
    pub const fn fresh() -> Record
        ensures { result ≡ fresh }
    {
        Record {
            epoch: 0,
            holder: Holder::Free,
            last: 0,
            phase: Phase::Settled,
            outcome: 0,
        }
    }

    /// Returns the record of these values, if they are lawful together.
    pub fn checked(
        epoch: u64,
        holder: Holder,
        last: u32,
        phase: Phase,
        outcome: u16,
    ) -> Option<Record>
        ensures { result ≡ checked (standing epoch holder last phase outcome) }
    {
        let is_free = holder == Holder::Free;
        if epoch > LAST_EPOCH || last > LAST_NUMBER || is_free != (epoch % 2 == 0) {
            return None;
        }
        let is_settled = phase == Phase::Settled;
        if is_free && last != 0 {
            return None;
        }
        if last == 0 && !(is_settled && outcome == 0) {
            return None;
        }
        if !is_settled && outcome != 0 {
            return None;
        }
        Some(Record {
            epoch,
            holder,
            last,
            phase,
            outcome,
        })
    }
}

ghost use Rattle.std.specs.Prelude.{◌≡◌};
ghost use Rattle.smi_grant.specs.Record as spec;

/// Returns true if a settled command may have ended so: 0 to 7 or 9 (docs/PROTOCOL.md, "Outcomes").
pub fn is_outcome(outcome: u16) -> bool
    ensures { result ≡ spec.is_outcome outcome }
{
    outcome <= 7 || outcome == 9
}
