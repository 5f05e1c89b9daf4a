//! What is at the places of a row, whatever its values.

ghost use Rattle.std.specs.Prelude.{◌≡◌, ◌≤◌, ◌+◌, ◌*◌, true, length, if◌then◌else◌, nat_le, Some, None, option_map};
ghost use Rattle.std.specs.Prelude.{◌++◌};
ghost use Rattle.smi_rows.specs.Reading as spec;

use crate::mode::Mode;
use crate::row::StoredLink;
use crate::schema::Schema;
use smi_base::{u16_at, u32_at, u64_at};
use smi_command::{Link, Pending};
use smi_grant::{Command, Holder, Phase, Record};

/// How many bytes a link takes that has at most one pending command.
const LINK: usize = 20;

/// The form of a link with several pending commands.
const SEVERAL: u8 = 5;

/// How many commands may follow the oldest of a link.
const MOST_OTHERS: u16 = 7;

fn has_lists(schema: Schema) -> bool
    ensures { result ≡ spec.has_lists schema }
{
    schema.most_pending() > 1
}

/// Returns how many bytes the link at the beginning takes, if there are as many.
pub(crate) fn link_size(schema: Schema, b: &[u8]) -> Option<usize>
    ensures { result ≡ (if nat_le (spec.size_at schema b.now) (length b.now) then Some (spec.size_at schema b.now)
        else None) }
{
    if b.len() < LINK {
        return None;
    }
    if b[2] != SEVERAL || !has_lists(schema) {
        return Some(LINK);
    }
    if b.len() < LINK + 2 {
        return None;
    }
    let size = LINK + 2 + 4 * usize::from(u16_at(b, LINK));
    if size <= b.len() { Some(size) } else { None }
}

/// Returns how many bytes the link at the beginning takes.
pub(crate) fn size_at(schema: Schema, b: &[u8]) -> usize
    requires { spec.size_at schema b.now ≤ length b.now }
    ensures size { result ≡ spec.size_at schema b.now }
    ensures within { result ≤ length b.now }
{
    if b[2] == SEVERAL && has_lists(schema) {
        LINK + 2 + 4 * usize::from(u16_at(b, LINK))
    } else {
        LINK
    }
}

/// Returns true if the bytes are this many links, and nothing else.
pub(crate) fn are_cut(schema: Schema, count: u16, links: &[u8]) -> bool
    ensures { result ≡ spec.are_cut schema count links.now }
{
    let mut rest = links;
    for i in 0..count {
        match link_size(schema, rest) {
            Some(size) => rest = &rest[size..],
            None => return false,
        }
    }
    rest.is_empty()
}

/// Returns the link at the beginning.
pub(crate) fn link_at(schema: Schema, b: &[u8]) -> Option<StoredLink>
    requires { spec.size_at schema b.now ≤ length b.now }
    ensures { result ≡ spec.link_at schema b.now }
{
    let mode = Mode::from_number(b[3])?;
    let link = grant_at(schema, b)?;
    Some(StoredLink {
        domain: u16_at(b, 0),
        link,
        mode,
    })
}

fn grant_at(schema: Schema, b: &[u8]) -> Option<Link>
    requires { spec.size_at schema b.now ≤ length b.now }
    ensures { result ≡ spec.grant_at schema b.now }
{
    let epoch = u64_at(b, 4);
    match b[2] {
        0 => Some(Link::Out(epoch)),
        1 => Some(Link::Taking(epoch)),
        2 => Some(held_at(b, Pending::new())),
        3 => Some(held_at(b, only_at(b)?)),
        4 => Some(Link::Dropping(epoch)),
        5 if has_lists(schema) => Some(held_at(b, several_at(b)?)),
        _ => None,
    }
}

fn held_at(b: &[u8], pending: Pending) -> Link
    requires { 20 ≤ length b.now }
    ensures { result ≡ spec.held_at b.now pending }
{
    Link::Held {
        epoch: u64_at(b, 4),
        number: u32_at(b, 12),
        pending,
    }
}

fn only_at(b: &[u8]) -> Option<Pending>
    requires { 20 ≤ length b.now }
    ensures { result ≡ spec.only_at b.now }
{
    let mut pending = Pending::new();
    pending.push(command_at(&b[16..])?);
    Some(pending)
}

fn several_at(b: &[u8]) -> Option<Pending>
    requires { 22 + 4 * spec.others_at b.now ≤ length b.now }
    ensures { result ≡ spec.several_at b.now }
{
    let others = u16_at(b, LINK);
    if others > MOST_OTHERS {
        return None;
    }
    let oldest = only_at(b)?;
    with_commands(oldest, others, &b[LINK + 2..])
}

/// Returns the pending commands, and after them this many of the bytes.
fn with_commands(oldest: Pending, others: u16, b: &[u8]) -> Option<Pending>
    requires room { length oldest + others ≤ 8 }
    requires whole { 4 * others ≤ length b.now }
    ensures { result ≡ option_map (λ more. oldest ++ more) (spec.commands_at others b.now) }
{
    let mut pending = oldest;
    let mut rest = b;
    for i in 0..others {
        pending.push(command_at(rest)?);
        rest = &rest[4..];
    }
    Some(pending)
}

fn command_at(b: &[u8]) -> Option<Command>
    requires { 4 ≤ length b.now }
    ensures { result ≡ spec.command_at b.now }
{
    Command::from_verb(u16_at(b, 0), u16_at(b, 2))
}

/// Returns the record in a domain's row.
pub(crate) fn standing_at(b: &[u8]) -> Option<Record>
    requires { 20 ≤ length b.now }
    ensures { result ≡ spec.standing_at b.now }
{
    let holder = Holder::from_kind(b[1], u16_at(b, 2))?;
    let phase = Phase::from_number(b[16])?;
    Record::checked(u64_at(b, 4), holder, u32_at(b, 12), phase, u16_at(b, 18))
}
