//! What a station has loaded, or what stands: the block that a file begins with.
//!
//! Clauses say how each line reads. That a block has a line for each domain and each link is tested alone: an audit
//! compares each block with the lines before it.

ghost use Rattle.std.specs.Prelude.{◌≡◌, ◌++◌, OnOk};
ghost use Rattle.smi_journal.specs.Blocks.{held_text, known_text, shown_text, stands_text};

use crate::line::{JournalWord, action, domain, holder, mode, object, phase, push_line, state};
use crate::step::LineContext;
use smi_command::{Link, Pending};
use smi_grant::{Command, Holder, Record, Shown};
use smi_rows::Mode;
use smi_tree::Tree;
use std::alloc::AllocError;

/// What a journal asks of a station for a block.
///
/// A function over a station is expensive to prove, and these are all that is asked.
pub trait StationState {
    /// Returns the boot of the station.
    fn boot(&self) -> u32;

    /// Returns the operators of the station, by number.
    fn operators(&self) -> &[u16];

    /// Returns the record of a domain that it keeps.
    fn record(&self, domain: u16) -> Option<Record>;

    /// Returns the link of one of its holders to a domain.
    fn link(&self, holder: Holder, domain: u16) -> Option<Link>;

    /// Returns the mode in which a domain that it keeps holds a child.
    fn mode(&self, child: u16) -> Option<Mode>;

    /// Returns the newest state of an object that it keeps.
    fn current(&self, object: u16) -> Option<Shown>;
}

/// A link that is told: whose it is, and to which domain.
#[derive(Clone, Copy)]
struct LinkEnds {
    holder: Holder,
    domain: u16,
}

/// A held link's grant: its epoch, how many commands were issued under it, and the mode of the child.
#[derive(Clone, Copy)]
struct HeldGrant {
    epoch: u64,
    number: u32,
    mode: Mode,
}

/// Adds the line of how a domain stands: its epoch, its holder, the last command that ran, and how that stands.
fn push_stands(
    text: &mut Vec<u8>,
    context: LineContext<'_>,
    number: u16,
    record: &Record,
) -> Result<(), AllocError>
    ensures { OnOk result (text.new.items ≡ text.old.items
        ++ stands_text context.entry.tree.now context.entry.prefix.now number «record».now) }
{
    let words = [
        domain(context.tree, number),
        JournalWord::Number(record.epoch),
        holder(context.tree, record.holder),
        JournalWord::Number(u64::from(record.last)),
        phase(record.phase),
        JournalWord::Number(u64::from(record.outcome)),
    ];
    push_line(text, context.prefix, b"stands", &words)
}

/// Adds the line of a link that is not held, and knows of an epoch.
fn push_known<'a>(
    text: &mut Vec<u8>,
    context: LineContext<'a>,
    ends: LinkEnds,
    word: &'a [u8],
    epoch: u64,
) -> Result<(), AllocError>
    ensures { OnOk result (text.new.items ≡ text.old.items
        ++ known_text context.entry.tree.now context.entry.prefix.now ends.holder ends.domain word.now epoch) }
{
    let words = [
        holder(context.tree, ends.holder),
        domain(context.tree, ends.domain),
        JournalWord::Text(word),
        JournalWord::Number(epoch),
    ];
    push_line(text, context.prefix, b"link", &words)
}

/// Returns the two words of a command: what is to be done, and the action or the domain.
fn command_words(tree: &Tree, command: Command) -> [JournalWord<'_>; 2] {
    match command {
        Command::Do(number) => [JournalWord::Text(b"do"), action(tree, number)],
        Command::Include(target) => [JournalWord::Text(b"include"), domain(tree, target)],
        Command::Exclude(target) => [JournalWord::Text(b"exclude"), domain(tree, target)],
        Command::Manual(target) => [JournalWord::Text(b"manual"), domain(tree, target)],
        Command::Ignore(target) => [JournalWord::Text(b"ignore"), domain(tree, target)],
    }
}

/// Adds the lines of the commands of a held link whose end the holder has not heard of, the oldest first.
fn push_pending(
    text: &mut Vec<u8>,
    context: LineContext<'_>,
    ends: LinkEnds,
    grant: HeldGrant,
    pending: &Pending,
) -> Result<(), AllocError> {
    let mut number = pending.base(grant.number);
    for command in pending.as_slice() {
        number = number.saturating_add(1);
        let [verb, target] = command_words(context.tree, *command);
        let words = [
            holder(context.tree, ends.holder),
            domain(context.tree, ends.domain),
            JournalWord::Number(grant.epoch),
            JournalWord::Number(u64::from(number)),
            verb,
            target,
        ];
        push_line(text, context.prefix, b"pending", &words)?;
    }
    Ok(())
}

/// Adds the line of a link that is held, without its commands.
fn push_grant(
    text: &mut Vec<u8>,
    context: LineContext<'_>,
    ends: LinkEnds,
    grant: HeldGrant,
) -> Result<(), AllocError>
    ensures { OnOk result (text.new.items ≡ text.old.items ++ held_text context.entry.tree.now context.entry.prefix.now
        ends.holder ends.domain grant.epoch grant.number grant.mode) }
{
    let words = [
        holder(context.tree, ends.holder),
        domain(context.tree, ends.domain),
        JournalWord::Text(b"held"),
        JournalWord::Number(grant.epoch),
        JournalWord::Number(u64::from(grant.number)),
        mode(grant.mode),
    ];
    push_line(text, context.prefix, b"link", &words)
}

/// Adds the lines of a link that is held.
fn push_held(
    text: &mut Vec<u8>,
    context: LineContext<'_>,
    ends: LinkEnds,
    grant: HeldGrant,
    pending: &Pending,
) -> Result<(), AllocError> {
    push_grant(text, context, ends, grant)?;
    push_pending(text, context, ends, grant, pending)
}

/// Adds the lines of a link, unless it never knew a grant.
fn push_link<T: StationState>(
    text: &mut Vec<u8>,
    context: LineContext<'_>,
    station: &T,
    ends: LinkEnds,
) -> Result<(), AllocError> {
    let Some(link) = station.link(ends.holder, ends.domain) else {
        return Ok(());
    };
    match &link {
        Link::Out(0) => Ok(()),
        Link::Out(epoch) => push_known(text, context, ends, b"out", *epoch),
        Link::Taking(epoch) => push_known(text, context, ends, b"taking", *epoch),
        Link::Dropping(epoch) => push_known(text, context, ends, b"dropping", *epoch),
        Link::Held {
            epoch,
            number,
            pending,
        } => {
            let mode = match ends.holder {
                Holder::Domain(_) => station.mode(ends.domain).unwrap_or(Mode::Included),
                Holder::Operator(_) | Holder::Free => Mode::Included,
            };
            let grant = HeldGrant {
                epoch: *epoch,
                number: *number,
                mode,
            };
            push_held(text, context, ends, grant, pending)
        }
    }
}

/// Adds the lines of the domains that a station keeps and that were ever granted.
fn push_domains<T: StationState>(
    text: &mut Vec<u8>,
    context: LineContext<'_>,
    station: &T,
) -> Result<(), AllocError> {
    for number in 1..=context.tree.domain_count() {
        if let Some(record) = station.record(number) {
            if record.epoch > 0 {
                push_stands(text, context, number, &record)?;
            }
        }
    }
    Ok(())
}

/// Adds the lines of the links of a station's operators.
fn push_operators<T: StationState>(
    text: &mut Vec<u8>,
    context: LineContext<'_>,
    station: &T,
) -> Result<(), AllocError> {
    for operator in station.operators() {
        for number in 1..=context.tree.domain_count() {
            let ends = LinkEnds {
                holder: Holder::Operator(*operator),
                domain: number,
            };
            push_link(text, context, station, ends)?;
        }
    }
    Ok(())
}

/// Adds the lines of the links of a station's domains to their children.
fn push_children<T: StationState>(
    text: &mut Vec<u8>,
    context: LineContext<'_>,
    station: &T,
) -> Result<(), AllocError> {
    for number in 1..=context.tree.domain_count() {
        for child in context.tree.children(number) {
            let ends = LinkEnds {
                holder: Holder::Domain(number),
                domain: *child,
            };
            push_link(text, context, station, ends)?;
        }
    }
    Ok(())
}

/// Adds the lines of a block: how the station's domains stand, and the links of its operators and domains.
pub(crate) fn push_block<T: StationState>(
    text: &mut Vec<u8>,
    context: LineContext<'_>,
    station: &T,
) -> Result<(), AllocError> {
    push_domains(text, context, station)?;
    push_operators(text, context, station)?;
    push_children(text, context, station)
}

/// Adds the line of a state, with this first word.
fn push_state<'a>(
    text: &mut Vec<u8>,
    context: LineContext<'a>,
    first: &'a [u8],
    shown: Shown,
) -> Result<(), AllocError>
    ensures { OnOk result (text.new.items ≡ text.old.items
        ++ shown_text context.entry.tree.now context.entry.prefix.now first.now shown) }
{
    let words = [
        object(context.tree, shown.object),
        JournalWord::Version(shown.version),
        state(context.tree, shown.state),
    ];
    push_line(text, context.prefix, first, &words)
}

/// Adds a line for the newest state of each object that a station keeps, with this first word.
pub(crate) fn push_states<T: StationState>(
    text: &mut Vec<u8>,
    context: LineContext<'_>,
    station: &T,
    first: &[u8],
) -> Result<(), AllocError> {
    for number in 1..=context.tree.object_count() {
        if let Some(shown) = station.current(number) {
            push_state(text, context, first, shown)?;
        }
    }
    Ok(())
}
