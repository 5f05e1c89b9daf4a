//! What is told of entries that do not fit, in words.

use smi_audit::{Contradiction, Need};
use smi_grant::{Command, Holder, Version};
use smi_protocol::{Entry, Line};
use smi_schedule::{names, spell};
use smi_tree::Tree;
use std::alloc::Global;
use std::io::{self, Write};

/// Writes a name, or the number if the tree has no such thing.
fn write_called<W: Write>(out: &mut W, name: Option<&[u8]>, number: u16) -> io::Result<()> {
    match name {
        Some(name) => out.write_all(name),
        None => write!(out, "{number}"),
    }
}

/// Writes a station's name.
pub(crate) fn write_station<W: Write>(out: &mut W, tree: &Tree, station: u16) -> io::Result<()> {
    write_called(out, names::station(tree, station), station)
}

/// Writes a domain's name.
pub(crate) fn write_domain<W: Write>(out: &mut W, tree: &Tree, domain: u16) -> io::Result<()> {
    write_called(out, names::domain(tree, domain), domain)
}

fn write_holder<W: Write>(out: &mut W, tree: &Tree, holder: Holder) -> io::Result<()> {
    match holder {
        Holder::Free => out.write_all(b"free"),
        Holder::Operator(number) => write_called(out, names::operator(tree, number), number),
        Holder::Domain(number) => write_domain(out, tree, number),
    }
}

fn write_command<W: Write>(out: &mut W, tree: &Tree, command: Command) -> io::Result<()> {
    let (verb, target): (&[u8], u16) = match command {
        Command::Do(action) => {
            out.write_all(b"do ")?;
            return write_called(out, names::action(tree, action), action);
        }
        Command::Include(target) => (b"include ", target),
        Command::Exclude(target) => (b"exclude ", target),
        Command::Manual(target) => (b"manual ", target),
        Command::Ignore(target) => (b"ignore ", target),
    };
    out.write_all(verb)?;
    write_domain(out, tree, target)
}

fn write_version<W: Write>(out: &mut W, version: Version) -> io::Result<()> {
    write!(out, "{}.{}", version.boot, version.sequence)
}

/// Writes an entry as a trace has it, without its line feed.
pub(crate) fn write_entry<W: Write>(
    out: &mut W,
    alloc: Global,
    tree: &Tree,
    entry: &Entry,
) -> io::Result<()> {
    let mut text = Vec::new(alloc);
    spell(&mut text, tree, &Line::Entry(*entry))?;
    let _ = text.pop();
    out.write_all(text.as_slice())
}

/// Writes a word, a holder, a domain and an epoch.
fn write_link<W: Write>(
    out: &mut W,
    tree: &Tree,
    word: &[u8],
    holder: Holder,
    domain: u16,
) -> io::Result<()> {
    out.write_all(word)?;
    write_holder(out, tree, holder)?;
    out.write_all(b" ")?;
    write_domain(out, tree, domain)
}

/// Writes the entry that is waited for.
pub(crate) fn write_need<W: Write>(out: &mut W, tree: &Tree, need: Need) -> io::Result<()> {
    match need {
        Need::Granted {
            domain,
            epoch,
            holder,
        } => {
            out.write_all(b"granted ")?;
            write_domain(out, tree, domain)?;
            write!(out, " {epoch} ")?;
            write_holder(out, tree, holder)
        }
        Need::Learned {
            holder,
            domain,
            epoch,
        } => {
            write_link(out, tree, b"learned ", holder, domain)?;
            write!(out, " {epoch}")
        }
        Need::LetGo {
            holder,
            domain,
            epoch,
        } => {
            write_link(out, tree, b"letgo ", holder, domain)?;
            write!(out, " {epoch}")
        }
        Need::Ordered {
            operator,
            domain,
            epoch,
            number,
        } => {
            write_link(out, tree, b"ordered ", Holder::Operator(operator), domain)?;
            write!(out, " {epoch} {number}")
        }
        Need::Ran { domain } => {
            out.write_all(b"a run of ")?;
            write_domain(out, tree, domain)?;
            out.write_all(b" that is handed on")
        }
        Need::Settled {
            domain,
            epoch,
            number,
        } => {
            out.write_all(b"settled ")?;
            write_domain(out, tree, domain)?;
            write!(out, " {epoch} {number}")
        }
        Need::Passed(shown) => {
            out.write_all(b"passed ")?;
            write_called(out, names::object(tree, shown.object), shown.object)?;
            out.write_all(b" ")?;
            write_version(out, shown.version)?;
            out.write_all(b" ")?;
            write_called(out, names::state(tree, shown.state), shown.state)
        }
    }
}

/// Writes who holds a domain since an epoch.
fn write_hold<W: Write>(out: &mut W, tree: &Tree, epoch: u64, holder: Holder) -> io::Result<()> {
    if holder == Holder::Free {
        return write!(out, "it is free since epoch {epoch}");
    }
    write_holder(out, tree, holder)?;
    write!(out, " holds it since epoch {epoch}")
}

/// Writes why an entry can never fit, in the words that follow it.
pub(crate) fn write_contradiction<W: Write>(
    out: &mut W,
    tree: &Tree,
    why: Contradiction,
) -> io::Result<()> {
    match why {
        Contradiction::Epoch { epoch, holder } => {
            out.write_all(b"while ")?;
            write_hold(out, tree, epoch, holder)
        }
        Contradiction::Parity => {
            out.write_all(b"but grants have odd epochs, and their ends even ones")
        }
        Contradiction::Stranger => out.write_all(b"but the tree lets it hold no such domain"),
        Contradiction::NotHeld { epoch, holder } => {
            out.write_all(b"without holding it: ")?;
            write_hold(out, tree, epoch, holder)
        }
        Contradiction::LearnedBefore => out.write_all(b"which was learned before"),
        Contradiction::Number { expected } => write!(out, "where number {expected} is due"),
        Contradiction::Command { ordered } => {
            out.write_all(b"but under this number was ordered: ")?;
            write_command(out, tree, ordered)
        }
        Contradiction::LetGo { holder } => {
            out.write_all(b"after it was let go by ")?;
            write_holder(out, tree, holder)
        }
        Contradiction::Unbacked { domain } => {
            out.write_all(b"which is no command that is handed on by ")?;
            write_domain(out, tree, domain)
        }
        Contradiction::NotAtWork { epoch, ran } => {
            write!(out, "but it is not at work: {ran} ran under epoch {epoch}")
        }
        Contradiction::Version { newest } => {
            out.write_all(b"after version ")?;
            write_version(out, newest)
        }
        Contradiction::State { newest } => {
            out.write_all(b"which it did not pass so: its newest version is ")?;
            write_version(out, newest)
        }
        Contradiction::Boot { last } => write!(out, "after boot {last}"),
    }
}
