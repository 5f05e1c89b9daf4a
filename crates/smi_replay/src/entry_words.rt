//! The entries that the words of a line say.

use crate::fault::LineFault;
use crate::resolve::{
    action, command, device, domain, holder, mode, object, operator, phase, shown, shown_by, state,
    station,
};
use crate::word::{
    cut_word, five_words, four_words, next_word, number, number_16, number_32, six_words,
    three_words, two_words,
};
use smi_grant::{LAST_EPOCH, Record};
use smi_protocol::{Entry, Order, Told};
use smi_tree::Tree;

/// The word that a line of an entry begins with.
#[derive(Clone, Copy)]
pub(crate) enum EntryWord {
    Booted,
    Granted,
    Freed,
    Ordered,
    Ran,
    Learned,
    LetGo,
    Mode,
    Settled,
    Showed,
    Passed,
    Told,
}

impl EntryWord {
    pub(crate) fn read(word: &[u8]) -> Option<EntryWord> {
        match word {
            b"booted" => Some(EntryWord::Booted),
            b"granted" => Some(EntryWord::Granted),
            b"freed" => Some(EntryWord::Freed),
            b"ordered" => Some(EntryWord::Ordered),
            b"ran" => Some(EntryWord::Ran),
            b"learned" => Some(EntryWord::Learned),
            b"letgo" => Some(EntryWord::LetGo),
            b"mode" => Some(EntryWord::Mode),
            b"settled" => Some(EntryWord::Settled),
            b"showed" => Some(EntryWord::Showed),
            b"passed" => Some(EntryWord::Passed),
            b"told" => Some(EntryWord::Told),
            _ => None,
        }
    }
}

/// Returns the epoch that a word stands for.
pub(crate) fn epoch(word: &[u8]) -> Result<u64, LineFault> {
    number(word, LAST_EPOCH)
}

fn ordered(tree: &Tree, rest: Option<&[u8]>) -> Result<Entry, LineFault> {
    let (who, what, grant, count, verb, about) = six_words(rest)?;
    Ok(Entry::Ordered {
        epoch: epoch(grant)?,
        number: number_32(count)?,
        operator: operator(tree, who)?,
        domain: domain(tree, what)?,
        command: command(tree, verb, about)?,
    })
}

fn ran(tree: &Tree, rest: Option<&[u8]>) -> Result<Entry, LineFault> {
    let (what, grant, count, verb, about) = five_words(rest)?;
    Ok(Entry::Ran {
        epoch: epoch(grant)?,
        number: number_32(count)?,
        domain: domain(tree, what)?,
        command: command(tree, verb, about)?,
    })
}

fn settled(tree: &Tree, rest: Option<&[u8]>) -> Result<Entry, LineFault> {
    let (what, grant, count, outcome) = four_words(rest)?;
    Ok(Entry::Settled {
        epoch: epoch(grant)?,
        number: number_32(count)?,
        outcome: number_16(outcome)?,
        domain: domain(tree, what)?,
    })
}

/// Returns the order of a verb that is about one thing.
fn order_of_one(tree: &Tree, verb: &[u8], about: &[u8]) -> Result<Option<Order>, LineFault> {
    match verb {
        b"take" => Ok(Some(Order::Take(domain(tree, about)?))),
        b"drop" => Ok(Some(Order::Drop(domain(tree, about)?))),
        b"ask" => Ok(Some(Order::Ask(domain(tree, about)?))),
        b"watch" => Ok(Some(Order::Watch(object(tree, about)?))),
        b"unwatch" => Ok(Some(Order::Unwatch(object(tree, about)?))),
        _ => Ok(None),
    }
}

/// Returns the order of a verb that is about two things.
fn order_of_two(tree: &Tree, verb: &[u8], about: &[u8], other: &[u8]) -> Result<Order, LineFault> {
    match verb {
        b"do" => Ok(Order::Do(domain(tree, about)?, action(tree, other)?)),
        b"include" => Ok(Order::Include(domain(tree, about)?, domain(tree, other)?)),
        b"exclude" => Ok(Order::Exclude(domain(tree, about)?, domain(tree, other)?)),
        b"manual" => Ok(Order::Manual(domain(tree, about)?, domain(tree, other)?)),
        b"ignore" => Ok(Order::Ignore(domain(tree, about)?, domain(tree, other)?)),
        b"report" => Ok(Order::Report(device(tree, about)?, state(tree, other)?)),
        _ => Err(LineFault::Malformed),
    }
}

/// Returns the record that five words say, if it is lawful.
pub(crate) fn record(
    tree: &Tree,
    who: &[u8],
    grant: &[u8],
    last: &[u8],
    how: &[u8],
    outcome: &[u8],
) -> Result<Record, LineFault> {
    let grant = epoch(grant)?;
    let last = number_32(last)?;
    let outcome = number_16(outcome)?;
    let phase = phase(how)?;
    let who = holder(tree, who)?;
    Record::checked(grant, who, last, phase, outcome).ok_or(LineFault::Malformed)
}

/// Returns the record that a text says.
fn recorded(tree: &Tree, text: &[u8]) -> Result<Record, LineFault> {
    let (who, grant, last, how, outcome) = five_words(Some(text))?;
    record(tree, who, grant, last, how, outcome)
}

/// Returns how an order ended by the words after it: a code, or the record that was asked for.
fn told_of(tree: &Tree, order: Order, rest: &[u8]) -> Result<Told, LineFault> {
    let (first, more) = cut_word(rest);
    match more {
        None => Ok(Told {
            order,
            code: number_16(first)?,
            asked: None,
        }),
        Some(_) => Ok(Told {
            order,
            code: 0,
            asked: Some(recorded(tree, rest)?),
        }),
    }
}

fn told(tree: &Tree, rest: Option<&[u8]>) -> Result<Entry, LineFault> {
    let rest = rest.ok_or(LineFault::WordCount)?;
    let (who, rest) = next_word(rest)?;
    let (verb, rest) = next_word(rest)?;
    let (about, rest) = next_word(rest)?;
    let operator = operator(tree, who)?;
    if let Some(order) = order_of_one(tree, verb, about)? {
        return Ok(Entry::Told {
            operator,
            told: told_of(tree, order, rest)?,
        });
    }
    let (other, rest) = next_word(rest)?;
    let order = order_of_two(tree, verb, about, other)?;
    Ok(Entry::Told {
        operator,
        told: told_of(tree, order, rest)?,
    })
}

fn granted(tree: &Tree, rest: Option<&[u8]>) -> Result<Entry, LineFault> {
    let (what, grant, who) = three_words(rest)?;
    Ok(Entry::Granted {
        epoch: epoch(grant)?,
        domain: domain(tree, what)?,
        holder: holder(tree, who)?,
    })
}

fn learned(tree: &Tree, rest: Option<&[u8]>) -> Result<Entry, LineFault> {
    let (who, what, grant) = three_words(rest)?;
    Ok(Entry::Learned {
        epoch: epoch(grant)?,
        holder: holder(tree, who)?,
        domain: domain(tree, what)?,
    })
}

fn let_go(tree: &Tree, rest: Option<&[u8]>) -> Result<Entry, LineFault> {
    let (who, what, grant) = three_words(rest)?;
    Ok(Entry::LetGo {
        epoch: epoch(grant)?,
        holder: holder(tree, who)?,
        domain: domain(tree, what)?,
    })
}

fn showed(tree: &Tree, rest: Option<&[u8]>) -> Result<Entry, LineFault> {
    let (who, what, version, state) = four_words(rest)?;
    Ok(Entry::Showed {
        shown: shown(tree, what, version, state)?,
        station: station(tree, who)?,
    })
}

/// Returns the entry that the words after a line's first word say.
pub(crate) fn entry_of(
    tree: &Tree,
    word: EntryWord,
    rest: Option<&[u8]>,
) -> Result<Entry, LineFault> {
    match word {
        EntryWord::Booted => {
            let (who, boot) = two_words(rest)?;
            Ok(Entry::Booted {
                boot: number_32(boot)?,
                station: station(tree, who)?,
            })
        }
        EntryWord::Granted => granted(tree, rest),
        EntryWord::Freed => {
            let (what, grant) = two_words(rest)?;
            Ok(Entry::Freed {
                epoch: epoch(grant)?,
                domain: domain(tree, what)?,
            })
        }
        EntryWord::Ordered => ordered(tree, rest),
        EntryWord::Ran => ran(tree, rest),
        EntryWord::Learned => learned(tree, rest),
        EntryWord::LetGo => let_go(tree, rest),
        EntryWord::Mode => {
            let (what, how) = two_words(rest)?;
            Ok(Entry::InMode {
                mode: mode(how)?,
                domain: domain(tree, what)?,
            })
        }
        EntryWord::Settled => settled(tree, rest),
        EntryWord::Showed => showed(tree, rest),
        EntryWord::Passed => Ok(Entry::Passed(shown_by(tree, rest)?)),
        EntryWord::Told => told(tree, rest),
    }
}
