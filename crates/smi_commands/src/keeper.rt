//! The keeper of one domain on its own, for `smi answer`: its record, and what it answers to a datagram. `answer.rt`
//! feeds it. docs/PROTOCOL.md, "One domain on its own", fixes what it does; the rules of the record are those of
//! `smi_grant`, as at every station.

ghost use Rattle.std.specs.Prelude.{◌≡◌, ◌≤◌, true, MatchResult, Ok, Err};
ghost use Rattle.smi_base.specs.declared.trees.TheConstants.{MOST_STATIONS};
ghost use Rattle.smi_message.specs.Message.{is_body, tell};
ghost use Rattle.smi_commands.specs.Keeper as spec;

use smi_grant::{Command, Holder, LAST_NUMBER, Outcome, Record, Verdict};
use smi_message::{Body, Datagram, DatagramRefusal, decode, encode};
use std::marker::Model;

/// The number of the domain's tree. A datagram of another one is refused. docs/PROTOCOL.md, "One domain on its own",
/// fixes it, and the next two.
const TREE: u16 = 17;

/// The number of the station that keeps the domain. A datagram to another one is refused.
const STATION: u16 = 1;

/// The number of the domain. It has no parent, no children and no devices, and accepts every action.
const DOMAIN: u16 = 1;

/// The keeper of the domain, which remembers its record: one that a `TELL` can have.
#[derive(Drop)]
pub struct Keeper {
    record: Record,
}

impl Model for Keeper {
    ghost use Rattle.std.specs.Prelude.{◌≡◌, true};
    ghost use Rattle.smi_grant.specs.Record.{Standing};
    ghost use Rattle.smi_commands.specs.Tellable.{is_tellable};

    ghost Value = { Standing };

    ghost view = { λ k. k.record };

    ghost invariant = { λ k. is_tellable k.record ≡ true };
}

impl Keeper {
    ghost use Rattle.smi_grant.specs.Record.{fresh};

    /// Returns the keeper of a domain that nobody has held yet.
    pub fn new() -> Keeper
        ensures { result ≡ fresh }
    {
        Keeper {
            record: Record::fresh(),
        }
    }

    /// Returns what the keeper answers to 44 bytes: a `TELL` with the record as it is afterwards. A refusal changes
    /// nothing, and names the first test that the bytes fail.
    #[tactic(auto, unfolding(crate::specs::Keeper::answer_to))]
    pub fn answer(&mut self, bytes: &[u8]) -> Result<[u8; 44], DatagramRefusal>
        ensures { MatchResult result
            (λ told. spec.answer_to self.old bytes.now ≡ Ok (self.new, told))
            (λ refusal. (spec.answer_to self.old bytes.now ≡ Err refusal) × (self.new ≡ self.old)) }
    {
        let datagram = match decode(bytes) {
            Ok(datagram) => datagram,
            Err(bad) => return Err(DatagramRefusal::Bad(bad)),
        };
        self.hear(&datagram)?;
        Ok(encode(&self.tell(datagram.from)))
    }

    /// Updates the record as a datagram asks. Returns a refusal, and changes nothing, if the datagram is of another
    /// tree, for another station, or asks what a single domain is not asked.
    #[tactic(auto, unfolding(crate::specs::Keeper::heard_after))]
    fn hear(&mut self, datagram: &Datagram) -> Result<(), DatagramRefusal>
        ensures { MatchResult result
            (λ _. spec.heard_after self.old datagram.now ≡ Ok self.new)
            (λ refusal. (spec.heard_after self.old datagram.now ≡ Err refusal) × (self.new ≡ self.old)) }
    {
        if datagram.tree != TREE {
            return Err(DatagramRefusal::OtherTree);
        }
        if datagram.to != STATION {
            return Err(DatagramRefusal::OtherStation);
        }
        self.record = said_after(&self.record, &datagram.body)?;
        Ok(())
    }

    /// Returns the `TELL` of the record to a station.
    fn tell(&self, to: u16) -> Datagram
        requires { (1 ≤ to) × (to ≤ MOST_STATIONS) }
        ensures { result ≡ tell STATION to TREE DOMAIN self.now }
    {
        Datagram::tell(STATION, to, TREE, DOMAIN, self.record)
    }
}

/// Returns the record after what a datagram says, if that is about the domain and comes from an operator. Returns a
/// refusal if not.
#[tactic(auto, unfolding(crate::specs::Keeper::said_after))]
fn said_after(current: &Record, body: &Body) -> Result<Record, DatagramRefusal>
    requires { is_body body.now ≡ true }
    ensures { result ≡ spec.said_after current.now body.now }
{
    match *body {
        Body::Ask(DOMAIN) => Ok(*current),
        Body::Take {
            domain: DOMAIN,
            holder: Holder::Operator(number),
            seen,
        } => {
            let verdict = smi_grant::take(current, Holder::Operator(number), seen);
            Ok(after(verdict, current))
        }
        Body::Drop {
            domain: DOMAIN,
            holder: Holder::Operator(number),
            epoch,
        } => {
            let verdict = smi_grant::drop_grant(current, Holder::Operator(number), epoch);
            Ok(after(verdict, current))
        }
        Body::Run {
            domain: DOMAIN,
            holder: Holder::Operator(operator),
            epoch,
            number,
            command,
        } => {
            let holder = Holder::Operator(operator);
            Ok(run_after(current, holder, epoch, number, command))
        }
        // Another domain, a holder that is a domain, or a kind that a keeper is not asked.
        _ => Err(DatagramRefusal::Unknown),
    }
}

/// Returns the record after a verdict: the new one, or the present one if it stays.
fn after(verdict: Verdict, current: &Record) -> Record
    ensures { result ≡ spec.after verdict current.now }
{
    match verdict {
        Verdict::New(next) => next,
        Verdict::Same => *current,
    }
}

/// Returns the record after a command. A command that may not run now changes nothing.
fn run_after(current: &Record, holder: Holder, epoch: u64, number: u32, command: Command) -> Record
    requires held { spec.is_operator holder ≡ true }
    requires number { number ≤ LAST_NUMBER }
    ensures { result ≡ spec.run_after current.now holder epoch number command }
{
    if smi_grant::admit(current, holder, epoch, number) {
        after(
            // `false`: with no children the command has ended at once.
            smi_grant::start(current, false, outcome_of(command)),
            current,
        )
    } else {
        *current
    }
}

/// Returns the outcome of a command: 0 for `do`, and 2 for the others, because no domain is below this one.
fn outcome_of(command: Command) -> u16
    ensures { result ≡ spec.outcome_of command }
{
    match command {
        Command::Do(_) => Outcome::Done.code(),
        _ => Outcome::NotBelow.code(),
    }
}
