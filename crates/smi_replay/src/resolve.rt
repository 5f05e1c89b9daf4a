//! What the tree has by the words of a line. A word that begins with a digit is the number of what it does not have.

use crate::fault::LineFault;
use crate::word::{number_16, number_32, three_words};
use smi_grant::{Command, Holder, Phase, Shown, Version};
use smi_rows::Mode;
use smi_tree::Tree;

/// Returns true if a word begins with a digit.
fn is_number(word: &[u8]) -> bool {
    match word.first() {
        Some(byte) => b'0' <= *byte && *byte <= b'9',
        None => false,
    }
}

fn is_name_byte(byte: u8) -> bool {
    (b'A' <= byte && byte <= b'Z') || (b'0' <= byte && byte <= b'9') || byte == b'_'
}

/// Returns true if a word has the bytes of a name alone, and at least one.
fn is_name(word: &[u8]) -> bool {
    if word.is_empty() {
        return false;
    }
    for byte in word {
        if !is_name_byte(*byte) {
            return false;
        }
    }
    true
}

/// Returns the number that was found under a word's name, or that the word is.
fn found_or_number(found: Option<u16>, word: &[u8]) -> Result<u16, LineFault> {
    match found {
        Some(number) => Ok(number),
        None if is_number(word) => number_16(word),
        None if is_name(word) => Err(LineFault::UnknownName),
        None => Err(LineFault::Malformed),
    }
}

pub(crate) fn station(tree: &Tree, word: &[u8]) -> Result<u16, LineFault> {
    found_or_number(tree.station_named(word), word)
}

pub(crate) fn operator(tree: &Tree, word: &[u8]) -> Result<u16, LineFault> {
    found_or_number(tree.operator_named(word), word)
}

pub(crate) fn domain(tree: &Tree, word: &[u8]) -> Result<u16, LineFault> {
    found_or_number(tree.domain_named(word), word)
}

pub(crate) fn device(tree: &Tree, word: &[u8]) -> Result<u16, LineFault> {
    found_or_number(tree.device_named(word), word)
}

pub(crate) fn object(tree: &Tree, word: &[u8]) -> Result<u16, LineFault> {
    found_or_number(tree.object_named(word), word)
}

pub(crate) fn state(tree: &Tree, word: &[u8]) -> Result<u16, LineFault> {
    found_or_number(tree.state_named(word), word)
}

pub(crate) fn action(tree: &Tree, word: &[u8]) -> Result<u16, LineFault> {
    found_or_number(tree.action_named(word), word)
}

/// Returns the holder that a word names: nobody, an operator or a domain. A number is an operator's.
pub(crate) fn holder(tree: &Tree, word: &[u8]) -> Result<Holder, LineFault> {
    if word == b"free".as_slice() {
        return Ok(Holder::Free);
    }
    match tree.domain_named(word) {
        Some(domain) => Ok(Holder::Domain(domain)),
        None => Ok(Holder::Operator(operator(tree, word)?)),
    }
}

/// Returns the version that a word stands for, as `1.7`.
fn version(word: &[u8]) -> Result<Version, LineFault> {
    for (place, byte) in word.iter().enumerate() {
        if *byte == b'.' {
            let (boot, rest) = word.split_at(place);
            return Ok(Version {
                boot: number_32(boot)?,
                sequence: number_32(&rest[1..])?,
            });
        }
    }
    Err(LineFault::Malformed)
}

/// Returns the state of an object that three words say.
pub(crate) fn shown(
    tree: &Tree,
    what: &[u8],
    which: &[u8],
    how: &[u8],
) -> Result<Shown, LineFault> {
    Ok(Shown {
        version: version(which)?,
        object: object(tree, what)?,
        state: state(tree, how)?,
    })
}

/// Returns the state of an object that a text says.
pub(crate) fn shown_by(tree: &Tree, text: Option<&[u8]>) -> Result<Shown, LineFault> {
    let (what, which, how) = three_words(text)?;
    shown(tree, what, which, how)
}

/// Returns the command that a verb and what it is about say.
pub(crate) fn command(tree: &Tree, verb: &[u8], about: &[u8]) -> Result<Command, LineFault> {
    match verb {
        b"do" => Ok(Command::Do(action(tree, about)?)),
        b"include" => Ok(Command::Include(domain(tree, about)?)),
        b"exclude" => Ok(Command::Exclude(domain(tree, about)?)),
        b"manual" => Ok(Command::Manual(domain(tree, about)?)),
        b"ignore" => Ok(Command::Ignore(domain(tree, about)?)),
        _ => Err(LineFault::Malformed),
    }
}

pub(crate) fn mode(word: &[u8]) -> Result<Mode, LineFault> {
    match word {
        b"included" => Ok(Mode::Included),
        b"manual" => Ok(Mode::Manual),
        b"ignored" => Ok(Mode::Ignored),
        _ => Err(LineFault::Malformed),
    }
}

pub(crate) fn phase(word: &[u8]) -> Result<Phase, LineFault> {
    match word {
        b"settled" => Ok(Phase::Settled),
        b"busy" => Ok(Phase::Busy),
        _ => Err(LineFault::Malformed),
    }
}
