//! Reads a datagram from its bytes: the place of each number, what the fields of each kind say, and which ranges they
//! have.

ghost use Rattle.std.specs.Prelude.{◌≡◌, IfOk, Ok, Some, length, true};
ghost use Rattle.smi_base.specs.Between.{is_between};
ghost use Rattle.smi_message.specs.Kinds as spec;
ghost use Rattle.smi_message.specs.Layout.{fields_at};
ghost use Rattle.smi_message.specs.Message.{Message, is_message};
ghost use Rattle.smi_message.specs.Message as message;
ghost use Rattle.smi_message.specs.Spelling.{spelling, reading, message_at, message_where};

use crate::{Bad, Body, Datagram};
use smi_base::{
    LAST_BOOT, LAST_SEQUENCE, MOST_DOMAINS, MOST_OBJECTS, MOST_STATES, MOST_STATIONS, u16_at,
    u32_at, u64_at,
};
use smi_grant::{Command, Holder, LAST_EPOCH, LAST_NUMBER, Phase, Record, Version, is_outcome};
use std::marker::Model;

/// Reads the datagram that the bytes spell. A refusal names the first test that they fail.
#[inline(always)]
pub fn decode(bytes: &[u8]) -> Result<Datagram, Bad>
    // What is read is spelled so.
    ensures found { IfOk result (λ d. bytes.now ≡ spelling d) }
    // What is spelled so is read.
    ensures only { (m : Message) → is_message m ≡ true → bytes.now ≡ spelling m → result ≡ Ok m }
    ensures exact { result ≡ reading bytes.now }
{
    tested(bytes)
}

#[inline(always)]
fn tested(bytes: &[u8]) -> Result<Datagram, Bad>
    ensures { result ≡ reading bytes.now }
{
    if bytes.len() != 44 {
        return Err(Bad::Length);
    }
    if bytes[0] != b'S' || bytes[1] != b'M' {
        return Err(Bad::Magic);
    }
    match (bytes[2], bytes[3]) {
        (1, 1..=8) | (2, 4) => datagram_at(&Spelled::new(bytes)),
        (1 | 2, _) => Err(Bad::Kind),
        _ => Err(Bad::Layout),
    }
}

/// Returns the datagram of these fields, or the first of the last two tests that fails.
///
/// What a keeper hears most is inlined; the rest is apart, since a function that would grow very large is not inlined.
#[tactic(auto, unfolding(crate::specs::Spelling::message_at, crate::specs::Kinds::body_at))]
#[inline(always)]
fn datagram_at(f: &Spelled<'_>) -> Result<Datagram, Bad>
    ensures { result ≡ message_at f.now }
{
    match f.kind() {
        2 => checked(f, take_at(f)),
        3 => checked(f, drop_at(f)),
        4 => checked(f, run_at(f)),
        _ => other_at(f),
    }
}

/// Returns the same of the other kinds.
#[tactic(auto, unfolding(crate::specs::Spelling::message_at, crate::specs::Kinds::body_at))]
#[inline(never)]
fn other_at(f: &Spelled<'_>) -> Result<Datagram, Bad>
    requires { (f.now.kind ≡ 2 → ⊥) × (f.now.kind ≡ 3 → ⊥) × (f.now.kind ≡ 4 → ⊥) }
    ensures { result ≡ message_at f.now }
{
    match f.kind() {
        1 => checked(f, Some(Body::Ask(f.subject()))),
        5 => checked(f, tell_at(f)),
        6 => checked(
            f,
            Some(Body::Watch {
                object: f.subject(),
                boot: f.echo(),
            }),
        ),
        7 => checked(f, Some(state_at(f))),
        _ => checked(
            f,
            Some(Body::Unwatch {
                object: f.subject(),
                boot: f.echo(),
            }),
        ),
    }
}

/// Tests what is left to test if the fields say this. Inlined, it tests only what this kind has.
#[inline(always)]
fn checked(f: &Spelled<'_>, said: Option<Body>) -> Result<Datagram, Bad>
    ensures { result ≡ message_where f.now said }
{
    let Some(body) = said else {
        return Err(Bad::Range);
    };
    if !is_addressed(f) || !is_body(&body) {
        return Err(Bad::Range);
    }
    if !is_rest_zero(f) {
        return Err(Bad::Unused);
    }
    Ok(Datagram {
        from: f.from(),
        to: f.to(),
        tree: f.tree(),
        body,
    })
}

fn is_addressed(f: &Spelled<'_>) -> bool
    ensures { result ≡ message.is_addressed f.now.from f.now.to f.now.tree }
{
    1 <= f.from()
        && f.from() <= MOST_STATIONS
        && 1 <= f.to()
        && f.to() <= MOST_STATIONS
        && 1 <= f.tree()
}

// ---- what the fields say, if they say anything: ranges are tested afterwards

fn holder_at(f: &Spelled<'_>) -> Option<Holder>
    ensures { result ≡ spec.holder_at f.now }
{
    Holder::from_kind(f.holder_kind(), f.holder())
}

fn take_at(f: &Spelled<'_>) -> Option<Body>
    ensures { result ≡ spec.take_at f.now }
{
    match holder_at(f) {
        Some(holder) => Some(Body::Take {
            domain: f.subject(),
            holder,
            seen: f.epoch(),
        }),
        None => None,
    }
}

fn drop_at(f: &Spelled<'_>) -> Option<Body>
    ensures { result ≡ spec.drop_at f.now }
{
    match holder_at(f) {
        Some(holder) => Some(Body::Drop {
            domain: f.subject(),
            holder,
            epoch: f.epoch(),
        }),
        None => None,
    }
}

fn command_at(f: &Spelled<'_>) -> Option<Command>
    ensures { result ≡ spec.command_at f.now }
{
    match Command::from_verb(f.code(), f.argument()) {
        Some(command) if layout_of(command) == f.layout() => Some(command),
        _ => None,
    }
}

fn run_at(f: &Spelled<'_>) -> Option<Body>
    ensures { result ≡ spec.run_at f.now }
{
    let holder = holder_at(f)?;
    let command = command_at(f)?;
    Some(Body::Run {
        domain: f.subject(),
        holder,
        epoch: f.epoch(),
        number: f.number(),
        command,
    })
}

fn told_at(f: &Spelled<'_>) -> Option<Record>
    ensures { result ≡ spec.told_at f.now }
{
    let holder = holder_at(f)?;
    let phase = Phase::from_number(f.phase())?;
    Record::checked(f.epoch(), holder, f.number(), phase, f.code())
}

fn tell_at(f: &Spelled<'_>) -> Option<Body>
    ensures { result ≡ spec.tell_at f.now }
{
    match told_at(f) {
        Some(told) => Some(Body::Tell {
            domain: f.subject(),
            told,
        }),
        None => None,
    }
}

fn state_at(f: &Spelled<'_>) -> Body
    ensures { result ≡ spec.state_at f.now }
{
    let version = Version {
        boot: f.boot(),
        sequence: f.sequence(),
    };
    Body::State {
        object: f.subject(),
        boot: f.echo(),
        version,
        state: f.code(),
    }
}

/// Returns the layout in which a command is said.
pub(crate) fn layout_of(command: Command) -> u8
    ensures { result ≡ spec.layout_of command }
{
    match command {
        Command::Do(_) | Command::Include(_) | Command::Exclude(_) => 1,
        Command::Manual(_) | Command::Ignore(_) => 2,
    }
}

// ---- ranges

fn is_between(low: u32, high: u32, number: u32) -> bool
    ensures { result ≡ is_between low high number }
{
    low <= number && number <= high
}

/// Returns true if a datagram may say this.
#[inline(always)]
fn is_body(body: &Body) -> bool
    ensures { result ≡ message.is_body body.now }
{
    match *body {
        Body::Ask(domain) => is_domain(domain),
        Body::Take {
            domain,
            holder,
            seen,
        } => { is_domain(domain) && is_party(holder) && seen <= LAST_EPOCH }
        Body::Drop {
            domain,
            holder,
            epoch,
        } => { is_domain(domain) && is_party(holder) && is_grant_epoch(epoch) }
        Body::Run {
            domain,
            holder,
            epoch,
            number,
            command,
        } => {
            is_domain(domain)
                && is_party(holder)
                && is_grant_epoch(epoch)
                && is_between(1, LAST_NUMBER, number)
                && command.is_in_range()
        }
        Body::Tell { domain, told } => {
            is_domain(domain) && told.holder.is_in_range() && is_outcome(told.outcome)
        }
        Body::Watch { object, boot: echo } | Body::Unwatch { object, boot: echo } => is_object(
            object,
        ) && is_boot(echo),
        Body::State {
            object,
            boot: echo,
            version,
            state,
        } => {
            is_object(object)
                && is_boot(echo)
                && is_version(version)
                && is_between(1, u32::from(MOST_STATES), u32::from(state))
        }
    }
}

fn is_domain(number: u16) -> bool
    ensures { result ≡ message.is_domain number }
{
    1 <= number && number <= MOST_DOMAINS
}

fn is_object(number: u16) -> bool
    ensures { result ≡ message.is_object number }
{
    1 <= number && number <= MOST_OBJECTS
}

fn is_boot(number: u32) -> bool
    ensures { result ≡ message.is_boot number }
{
    1 <= number && number <= LAST_BOOT
}

fn is_version(version: Version) -> bool
    ensures { result ≡ message.is_version version }
{
    is_boot(version.boot) && version.sequence <= LAST_SEQUENCE
}

fn is_party(holder: Holder) -> bool
    ensures { result ≡ message.is_party holder }
{
    holder != Holder::Free && holder.is_in_range()
}

fn is_grant_epoch(epoch: u64) -> bool
    ensures { result ≡ message.is_grant_epoch epoch }
{
    epoch <= LAST_EPOCH && epoch % 2 == 1
}

// ---- the fields that a kind does not use

/// Returns true if the fields that the kind does not use are zero.
#[inline(always)]
fn is_rest_zero(f: &Spelled<'_>) -> bool
    ensures { result ≡ spec.is_rest_zero f.now }
{
    is_grant_zero(f) && is_command_zero(f) && is_watch_zero(f)
}

#[inline(always)]
fn is_grant_zero(f: &Spelled<'_>) -> bool
    ensures { result ≡ spec.is_grant_zero f.now }
{
    let is_used = 2 <= f.kind() && f.kind() <= 5;
    is_used || f.holder_kind() == 0 && f.holder() == 0 && f.epoch() == 0
}

#[inline(always)]
fn is_command_zero(f: &Spelled<'_>) -> bool
    ensures { result ≡ spec.is_command_zero f.now }
{
    match f.kind() {
        4 => f.phase() == 0,
        5 => f.argument() == 0,
        7 => f.phase() == 0 && f.number() == 0 && f.argument() == 0,
        _ => f.phase() == 0 && f.code() == 0 && f.number() == 0 && f.argument() == 0,
    }
}

#[inline(always)]
fn is_watch_zero(f: &Spelled<'_>) -> bool
    ensures { result ≡ spec.is_watch_zero f.now }
{
    match f.kind() {
        7 => true,
        6 | 8 => f.boot() == 0 && f.sequence() == 0,
        _ => f.echo() == 0 && f.boot() == 0 && f.sequence() == 0,
    }
}

// ---- the place of each number

/// The fields of 44 bytes, each of them read when it is asked for.
#[derive(Drop)]
struct Spelled<'a> {
    bytes: &'a [u8],
}

impl<'a> Model for Spelled<'a> {
    ghost use Rattle.std.specs.Prelude.{◌≡◌, length};
    ghost use Rattle.smi_message.specs.Layout.{fields_at};
    ghost use Rattle.smi_message.specs.declared.fields.Fields.{Fields};

    ghost Value = { Fields };

    ghost view = { λ f. fields_at f.bytes.now };

    ghost invariant = { λ f. length f.bytes.now ≡ 44 };
}

impl<'a> Spelled<'a> {
    ghost use Rattle.std.specs.Prelude.{◌≡◌, length};
    ghost use Rattle.smi_message.specs.Layout.{fields_at};

    fn new(bytes: &'a [u8]) -> Spelled<'a>
        requires { length bytes.now ≡ 44 }
        ensures { result ≡ fields_at bytes.now }
    {
        Spelled { bytes }
    }

    #[inline(always)]
    fn layout(&self) -> u8
        ensures { result ≡ self.now.layout }
    {
        self.bytes[2]
    }

    #[inline(always)]
    fn kind(&self) -> u8
        ensures { result ≡ self.now.kind }
    {
        self.bytes[3]
    }

    #[inline(always)]
    fn from(&self) -> u16
        ensures { result ≡ self.now.from }
    {
        u16_at(self.bytes, 4)
    }

    #[inline(always)]
    fn to(&self) -> u16
        ensures { result ≡ self.now.to }
    {
        u16_at(self.bytes, 6)
    }

    #[inline(always)]
    fn subject(&self) -> u16
        ensures { result ≡ self.now.subject }
    {
        u16_at(self.bytes, 8)
    }

    #[inline(always)]
    fn holder_kind(&self) -> u8
        ensures { result ≡ self.now.holder_kind }
    {
        self.bytes[10]
    }

    #[inline(always)]
    fn phase(&self) -> u8
        ensures { result ≡ self.now.phase }
    {
        self.bytes[11]
    }

    #[inline(always)]
    fn holder(&self) -> u16
        ensures { result ≡ self.now.holder }
    {
        u16_at(self.bytes, 12)
    }

    #[inline(always)]
    fn code(&self) -> u16
        ensures { result ≡ self.now.code }
    {
        u16_at(self.bytes, 14)
    }

    #[inline(always)]
    fn epoch(&self) -> u64
        ensures { result ≡ self.now.epoch }
    {
        u64_at(self.bytes, 16)
    }

    #[inline(always)]
    fn number(&self) -> u32
        ensures { result ≡ self.now.number }
    {
        u32_at(self.bytes, 24)
    }

    #[inline(always)]
    fn argument(&self) -> u16
        ensures { result ≡ self.now.argument }
    {
        u16_at(self.bytes, 28)
    }

    #[inline(always)]
    fn tree(&self) -> u16
        ensures { result ≡ self.now.tree }
    {
        u16_at(self.bytes, 30)
    }

    #[inline(always)]
    fn echo(&self) -> u32
        ensures { result ≡ self.now.echo }
    {
        u32_at(self.bytes, 32)
    }

    #[inline(always)]
    fn boot(&self) -> u32
        ensures { result ≡ self.now.boot }
    {
        u32_at(self.bytes, 36)
    }

    #[inline(always)]
    fn sequence(&self) -> u32
        ensures { result ≡ self.now.sequence }
    {
        u32_at(self.bytes, 40)
    }
}
