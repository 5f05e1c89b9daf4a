//! What one line of a tree file declares.

use crate::fault::Fault;
use crate::name::Name;
use crate::number::{Address, number_within};
use crate::text::{Word, first_word, is_same_text};

/// The word that a line begins with.
#[derive(Clone, Copy)]
pub(crate) enum Keyword {
    Tree,
    State,
    Action,
    Station,
    Operator,
    DeviceClass,
    Move,
    UnitClass,
    Accept,
    Any,
    All,
    Domain,
    Device,
}

/// What a class is for.
#[derive(Clone, Copy, PartialEq, Eq)]
pub enum ClassKind {
    Device,
    Unit,
}

/// How many members a rule asks to be in its state.
#[derive(Clone, Copy, PartialEq, Eq)]
pub enum Quantifier {
    /// Some member.
    Any,
    /// Every member, of which there is at least one.
    All,
}

/// What one line declares, with its names as they are written.
#[derive(Drop)]
pub(crate) enum Declaration<'a> {
    Tree(u16),
    State(Name<'a>),
    Action(Name<'a>),
    Station {
        name: Name<'a>,
        address: Address,
    },
    Operator {
        name: Name<'a>,
        station: Name<'a>,
    },
    Class {
        kind: ClassKind,
        name: Name<'a>,
        first: Name<'a>,
    },
    Move {
        class: Name<'a>,
        from: Name<'a>,
        action: Name<'a>,
        to: Name<'a>,
    },
    Accept {
        class: Name<'a>,
        action: Name<'a>,
    },
    Rule {
        quantifier: Quantifier,
        class: Name<'a>,
        state: Name<'a>,
        target: Name<'a>,
    },
    Domain {
        name: Name<'a>,
        station: Name<'a>,
        class: Name<'a>,
        parent: Option<Name<'a>>,
    },
    Device {
        name: Name<'a>,
        domain: Name<'a>,
        class: Name<'a>,
    },
}

ghost use Rattle.std.specs.Prelude.{◌≡◌};
ghost use Rattle.smi_tree.specs.Fault.{Gives};
ghost use Rattle.smi_tree.specs.Text.{words};
ghost use Rattle.smi_tree.specs.Declaration.{
  one,
  two,
  three,
  four,
  name,
  one_name,
  two_names,
  three_names,
  four_names,
  tree_line,
  station_line,
  parent,
  domain_line,
  class_line,
  rule_line,
};

/// Returns the one word of a text. With none, or with more, its count of words is wrong.
#[inline(always)]
pub fn one_word(text: &[u8]) -> Result<Word<'_>, Fault>
    ensures { Gives (λ word. word) result (one (words text.now)) }
{
    let Some((word, rest)) = first_word(text) else {
        return Err(Fault::WordCount);
    };
    match first_word(rest) {
        None => Ok(word),
        Some(_) => Err(Fault::WordCount),
    }
}

#[inline(always)]
fn two(text: &[u8]) -> Result<(Word<'_>, Word<'_>), Fault>
    ensures { Gives (λ words. (words.0, words.1)) result (two (words text.now)) }
{
    let Some((first, rest)) = first_word(text) else {
        return Err(Fault::WordCount);
    };
    let second = one_word(rest)?;
    Ok((first, second))
}

#[inline(always)]
fn three(text: &[u8]) -> Result<(Word<'_>, Word<'_>, Word<'_>), Fault>
    ensures { Gives (λ words. (words.0, words.1, words.2)) result (three (words text.now)) }
{
    let Some((first, rest)) = first_word(text) else {
        return Err(Fault::WordCount);
    };
    let (second, third) = two(rest)?;
    Ok((first, second, third))
}

#[inline(always)]
fn four(text: &[u8]) -> Result<(Word<'_>, Word<'_>, Word<'_>, Word<'_>), Fault>
    ensures { Gives (λ words. (words.0, words.1, words.2, words.3)) result (four (words text.now)) }
{
    let Some((first, rest)) = first_word(text) else {
        return Err(Fault::WordCount);
    };
    let (second, third, fourth) = three(rest)?;
    Ok((first, second, third, fourth))
}

impl Keyword {
    ghost use Rattle.std.specs.Prelude.{◌≡◌};
    ghost use Rattle.smi_tree.specs.Declaration.{keyword_of};

    pub(crate) fn read(word: &[u8]) -> Option<Keyword>
        ensures { result ≡ keyword_of word.now }
    {
        // One test each, because a match of thirteen texts is expensive to prove.
        if is_same_text(word, b"tree") {
            Some(Keyword::Tree)
        } else if is_same_text(word, b"state") {
            Some(Keyword::State)
        } else if is_same_text(word, b"action") {
            Some(Keyword::Action)
        } else if is_same_text(word, b"station") {
            Some(Keyword::Station)
        } else if is_same_text(word, b"operator") {
            Some(Keyword::Operator)
        } else if is_same_text(word, b"devclass") {
            Some(Keyword::DeviceClass)
        } else if is_same_text(word, b"move") {
            Some(Keyword::Move)
        } else if is_same_text(word, b"unitclass") {
            Some(Keyword::UnitClass)
        } else if is_same_text(word, b"accept") {
            Some(Keyword::Accept)
        } else if is_same_text(word, b"any") {
            Some(Keyword::Any)
        } else if is_same_text(word, b"all") {
            Some(Keyword::All)
        } else if is_same_text(word, b"domain") {
            Some(Keyword::Domain)
        } else if is_same_text(word, b"device") {
            Some(Keyword::Device)
        } else {
            None
        }
    }
}

#[inline(always)]
fn name(word: Word<'_>) -> Result<Name<'_>, Fault>
    ensures { result ≡ name word.entry }
{
    Name::read(word).ok_or(Fault::Malformed)
}

/// Returns the one word of a text, if it is well formed as a name.
#[inline(always)]
#[tactic(auto, unfolding(crate::specs::Declaration::one_name))]
pub fn one_name(text: &[u8]) -> Result<Name<'_>, Fault>
    ensures { result ≡ one_name (words text.now) }
{
    let word = one_word(text)?;
    name(word)
}

/// Returns the two words of a text, if both are well formed as names; their count is tested first.
#[inline(always)]
#[tactic(auto, unfolding(crate::specs::Declaration::two_names))]
pub fn two_names(text: &[u8]) -> Result<(Name<'_>, Name<'_>), Fault>
    ensures { result ≡ two_names (words text.now) }
{
    let (first, second) = two(text)?;
    let first = name(first)?;
    let second = name(second)?;
    Ok((first, second))
}

#[inline(always)]
#[tactic(auto, unfolding(crate::specs::Declaration::three_names))]
fn three_names(text: &[u8]) -> Result<(Name<'_>, Name<'_>, Name<'_>), Fault>
    ensures { result ≡ three_names (words text.now) }
{
    let (first, second, third) = three(text)?;
    let first = name(first)?;
    let second = name(second)?;
    let third = name(third)?;
    Ok((first, second, third))
}

#[inline(always)]
#[tactic(auto, unfolding(crate::specs::Declaration::four_names))]
fn four_names(text: &[u8]) -> Result<(Name<'_>, Name<'_>, Name<'_>, Name<'_>), Fault>
    ensures { result ≡ four_names (words text.now) }
{
    let (first, second, third, fourth) = four(text)?;
    let first = name(first)?;
    let second = name(second)?;
    let third = name(third)?;
    let fourth = name(fourth)?;
    Ok((first, second, third, fourth))
}

#[tactic(auto, unfolding(crate::specs::Declaration::tree_line))]
fn tree_line(text: &[u8]) -> Result<Declaration<'_>, Fault>
    ensures { result ≡ tree_line (words text.now) }
{
    let word = one_word(text)?;
    let number = number_within(1, 65_535, word.text()).ok_or(Fault::Malformed)?;
    Ok(Declaration::Tree(number as u16))
}

#[tactic(auto, unfolding(crate::specs::Declaration::station_line))]
fn station_line(text: &[u8]) -> Result<Declaration<'_>, Fault>
    ensures { result ≡ station_line (words text.now) }
{
    let (own, address) = two(text)?;
    let name = name(own)?;
    let address = Address::read(address.text()).ok_or(Fault::BadAddress)?;
    Ok(Declaration::Station { name, address })
}

/// Returns the parent that a word names, none if it is a dash.
#[tactic(auto, unfolding(crate::specs::Declaration::parent))]
fn parent(word: Word<'_>) -> Result<Option<Name<'_>>, Fault>
    ensures { result ≡ parent word.entry }
{
    match word.text() {
        b"-" => Ok(None),
        _ => Ok(Some(name(word)?)),
    }
}

#[tactic(auto, unfolding(crate::specs::Declaration::domain_line))]
fn domain_line(text: &[u8]) -> Result<Declaration<'_>, Fault>
    ensures { result ≡ domain_line (words text.now) }
{
    let (own, station, class, above) = four(text)?;
    let own = name(own)?;
    let station = name(station)?;
    let class = name(class)?;
    let parent = parent(above)?;
    Ok(Declaration::Domain {
        name: own,
        station,
        class,
        parent,
    })
}

fn class_line(kind: ClassKind, text: &[u8]) -> Result<Declaration<'_>, Fault>
    ensures { result ≡ class_line kind (words text.now) }
{
    let (name, first) = two_names(text)?;
    Ok(Declaration::Class { kind, name, first })
}

fn rule_line(quantifier: Quantifier, text: &[u8]) -> Result<Declaration<'_>, Fault>
    ensures { result ≡ rule_line quantifier (words text.now) }
{
    let (class, state, target) = three_names(text)?;
    Ok(Declaration::Rule {
        quantifier,
        class,
        state,
        target,
    })
}

impl<'a> Declaration<'a> {
    ghost use Rattle.std.specs.Prelude.{◌≡◌};
    ghost use Rattle.smi_tree.specs.Text.{words};
    ghost use Rattle.smi_tree.specs.Declaration.{declaration_of};

    /// What the words after a keyword declare.
    ///
    /// The count of words is tested first, and then each word from left to right.
    // Not inlined, because its answer would be copied twice, which takes longer than the call.
    #[inline(never)]
    pub(crate) fn read(keyword: Keyword, text: &'a [u8]) -> Result<Declaration<'a>, Fault>
        ensures { result ≡ declaration_of keyword (words text.now) }
    {
        match keyword {
            Keyword::Tree => tree_line(text),
            Keyword::State => Ok(Declaration::State(one_name(text)?)),
            Keyword::Action => Ok(Declaration::Action(one_name(text)?)),
            Keyword::Station => station_line(text),
            Keyword::Operator => {
                let (name, station) = two_names(text)?;
                Ok(Declaration::Operator { name, station })
            }
            Keyword::DeviceClass => class_line(ClassKind::Device, text),
            Keyword::Move => {
                let (class, from, action, to) = four_names(text)?;
                Ok(Declaration::Move {
                    class,
                    from,
                    action,
                    to,
                })
            }
            Keyword::UnitClass => class_line(ClassKind::Unit, text),
            Keyword::Accept => {
                let (class, action) = two_names(text)?;
                Ok(Declaration::Accept { class, action })
            }
            Keyword::Any => rule_line(Quantifier::Any, text),
            Keyword::All => rule_line(Quantifier::All, text),
            Keyword::Domain => domain_line(text),
            Keyword::Device => {
                let (name, domain, class) = three_names(text)?;
                Ok(Declaration::Device {
                    name,
                    domain,
                    class,
                })
            }
        }
    }
}
