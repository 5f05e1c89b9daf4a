//! Numbers, and the addresses of stations.

ghost use Rattle.std.specs.Prelude.{◌≡◌, ◌≤◌, ◌<◌, MatchOption, OnSome, option_map};
ghost use Rattle.std.specs.List.{list_all};
ghost use Rattle.smi_tree.specs.Name.{is_digit};
ghost use Rattle.smi_tree.specs.Number.{decimal, is_number, number_within, part_before, address_of};

use crate::text::{Separator, length_before};

/// The address of a station: four parts of a host, and a port from 1.
#[derive(Clone, Copy, PartialEq, Eq)]
pub struct Address {
    pub host: [u8; 4],
    pub port: u16,
}

/// Returns true if a word is one to ten decimal digits.
fn is_number(word: &[u8]) -> bool
    ensures { result ≡ is_number word.now }
{
    1 <= word.len() && word.len() <= 10 && has_digits_alone(word)
}

fn has_digits_alone(word: &[u8]) -> bool
    ensures { result ≡ list_all is_digit word.now }
{
    word.iter().all(|byte| is_digit(*byte))
}

pub(crate) fn is_digit(byte: u8) -> bool
    ensures { result ≡ is_digit byte }
{
    b'0' <= byte && byte <= b'9'
}

/// Returns the number that a word stands for, if it is one of this range.
pub fn number_within(least: u64, most: u64, word: &[u8]) -> Option<u64>
    ensures { result ≡ number_within least most word.now }
{
    if !is_number(word) {
        return None;
    }
    let mut value = 0;
    for digit in word {
        value = 10 * value + u64::from(*digit - b'0');
    }
    if least <= value && value <= most {
        Some(value)
    } else {
        None
    }
}

/// Returns a number up to 255 before a mark, and what follows the mark.
fn part_before(mark: Separator, text: &[u8]) -> Option<(u8, &[u8])>
    ensures { option_map (λ part. (part.0, part.1.now)) result ≡ part_before mark text.now }
{
    let end = length_before(text, mark);
    if end == text.len() {
        return None;
    }
    let (before, _) = text.split_at(end);
    let (_, after) = text.split_at(end + 1);
    let part = number_within(0, 255, before)?;
    Some((part as u8, after))
}

impl Address {
    ghost use Rattle.std.specs.Prelude.{◌≡◌};
    ghost use Rattle.smi_tree.specs.Number.{address_of};

    /// Returns the address that a word stands for, as `127.0.0.1:9001`.
    #[tactic(auto, unfolding(crate::specs::Number::address_of))]
    pub(crate) fn read(word: &[u8]) -> Option<Address>
        ensures { result ≡ address_of word.now }
    {
        let (first, rest) = part_before(Separator::Dot, word)?;
        let (second, rest) = part_before(Separator::Dot, rest)?;
        let (third, rest) = part_before(Separator::Dot, rest)?;
        let (fourth, rest) = part_before(Separator::Colon, rest)?;
        let port = number_within(1, 65_535, rest)?;
        Some(Address {
            host: [first, second, third, fourth],
            port: port as u16,
        })
    }
}
