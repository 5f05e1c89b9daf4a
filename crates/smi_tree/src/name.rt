//! Names: as they are read, and as they are kept.

ghost use Rattle.std.specs.Prelude.{nat_eq, [], ◌∷◌};
ghost use Rattle.std.specs.Str.{bytes_eq};
ghost use Rattle.std.specs.Cmp.{partial_equiv_from_equiv};
ghost use Rattle.std.specs.Cmp.Lexicographic.{nat_list_eq_equiv};
ghost use Rattle.std.specs.Cmp.Rules.{hashing};
ghost use Rattle.std.proofs.Common.{rules};

use crate::text::{Word, is_same_text};
use arrayvec::ArrayVec;
use indexmap::Equivalent;
use smi_base::MOST_BYTES_OF_A_NAME;
use std::hash::{Hash, Hasher};
use std::marker::Model;

/// A name as a file has it.
#[derive(Drop)]
pub struct Name<'a> {
    text: &'a [u8],
}

impl<'a> Model for Name<'a> {
    ghost use Rattle.std.specs.Prelude.{ℕ, List, length, ◌≡◌, ◌≤◌, true};
    ghost use Rattle.smi_base.specs.declared.trees.TheConstants.{MOST_BYTES_OF_A_NAME};
    ghost use Rattle.smi_tree.specs.Name.{is_name};

    ghost Value = { List ℕ };

    ghost view = { λ n. n.text.now };

    ghost invariant = { λ n. (length n.text.now ≤ MOST_BYTES_OF_A_NAME) × (is_name n.text.now ≡ true) };
}

/// A text that is looked up among names.
#[derive(Drop)]
pub(crate) struct Sought<'a> {
    text: &'a [u8],
}

impl<'a> Model for Sought<'a> {
    ghost use Rattle.std.specs.Prelude.{ℕ, List};

    ghost Value = { List ℕ };

    ghost view = { λ s. s.text.now };
}

/// A name that is kept, in the value itself.
#[derive(Drop)]
pub(crate) struct NameBuf {
    text: ArrayVec<u8, MOST_BYTES_OF_A_NAME>,
}

impl Model for NameBuf {
    ghost use Rattle.std.specs.Prelude.{ℕ, List};

    ghost Value = { List ℕ };

    ghost view = { λ n. n.text.items };
}

impl<'a> PartialEq for Sought<'a> {
    ghost eq = { bytes_eq };

    ghost laws = { partial_equiv_from_equiv nat_list_eq_equiv };

    fn eq(&self, other: &Sought<'a>) -> bool {
        self.text == other.text
    }
}

impl<'a> Eq for Sought<'a> {
    ghost laws = { nat_list_eq_equiv };
}

impl<'a> Hash for Sought<'a> {
    ghost hash_input = { λ n. n ∷ [] };

    ghost respects_eq = { Prim.search (hashing, rules) };

    fn hash<H: Hasher>(&self, state: &mut H) {
        state.write(self.text);
    }
}

impl PartialEq for NameBuf {
    ghost eq = { bytes_eq };

    ghost laws = { partial_equiv_from_equiv nat_list_eq_equiv };

    fn eq(&self, other: &NameBuf) -> bool {
        self.text() == other.text()
    }
}

impl Eq for NameBuf {
    ghost laws = { nat_list_eq_equiv };
}

impl Hash for NameBuf {
    ghost hash_input = { λ n. n ∷ [] };

    ghost respects_eq = { Prim.search (hashing, rules) };

    fn hash<H: Hasher>(&self, state: &mut H) {
        state.write(self.text());
    }
}

impl<'a, 'b> Equivalent<NameBuf> for &'b Sought<'a> {
    ghost equivalent = { λ sought. bytes_eq sought.now };

    ghost respects_hash = { Prim.search (hashing, rules) };

    ghost respects_eq = { λ sought. nat_list_eq_equiv.congr sought.now };

    fn equivalent(&self, key: &NameBuf) -> bool {
        self.text == key.text()
    }
}

impl<'a> Sought<'a> {
    ghost use Rattle.std.specs.Prelude.{◌≡◌};

    pub(crate) fn of(text: &'a [u8]) -> Sought<'a>
        ensures { result ≡ text.now }
    {
        Sought { text }
    }
}

impl<'a> Name<'a> {
    ghost use Rattle.std.specs.Prelude.{◌≡◌, true};
    ghost use Rattle.std.specs.Str.{bytes_eq};
    ghost use Rattle.smi_tree.specs.Name.{name_of, is_name};

    /// Returns the name that a word is, if it is one: 1 to 16 bytes of `A` to `Z`, `0` to `9` and `_`, the
    /// first a letter.
    #[inline(always)]
    pub fn read(word: Word<'a>) -> Option<Name<'a>>
        ensures { result ≡ name_of word.entry }
    {
        if is_name(&word) {
            Some(Name { text: word.text() })
        } else {
            None
        }
    }

    /// Returns its bytes.
    #[inline(always)]
    pub fn text(&self) -> &'a [u8]
        ensures { result.now ≡ self.now }
    {
        self.text
    }

    /// Returns the same text, to be looked up.
    #[inline(always)]
    pub(crate) fn sought(&self) -> Sought<'a>
        ensures { result ≡ self.now }
    {
        Sought { text: self.text }
    }

    /// Returns true if a kept name is the same.
    #[inline(always)]
    pub(crate) fn is_same(&self, kept: &NameBuf) -> bool
        ensures { result ≡ bytes_eq self.now kept.now }
    {
        is_same_text(self.text, kept.text())
    }

    /// Returns the same name, to be kept.
    pub(crate) fn to_owned(&self) -> NameBuf
        ensures same { result ≡ self.now }
        ensures well_formed { is_name self.now ≡ true }
    {
        let mut text = ArrayVec::new();
        // A name has at most as many bytes as that has room for.
        let _ = text.try_extend_from_slice(self.text);
        NameBuf { text }
    }
}

impl NameBuf {
    ghost use Rattle.std.specs.Prelude.{◌≡◌};

    /// Returns the bytes of the name.
    #[inline(always)]
    pub(crate) fn text(&self) -> &[u8]
        ensures { result.now ≡ self.now }
    {
        self.text.as_slice()
    }
}

ghost use Rattle.std.specs.Prelude.{◌≡◌};
ghost use Rattle.smi_tree.specs.Name.{is_name, is_name_byte, is_letter, begins_with_letter};

/// Returns true if a word is well formed as a name.
#[inline(always)]
fn is_name(word: &Word) -> bool
    ensures { result ≡ is_name word.now }
{
    word.text().len() <= MOST_BYTES_OF_A_NAME
        && begins_with_letter(word.text())
        && word.has_name_bytes_alone()
}

fn begins_with_letter(word: &[u8]) -> bool
    ensures { result ≡ begins_with_letter word.now }
{
    match word {
        [first, ..] => is_letter(*first),
        [] => false,
    }
}

/// Whether each byte, by its number, is one of a name's.
const IS_NAME_BYTE: [bool; 256] = [
    false, false, false, false, false, false, false, false, false, false, false, false, false,
    false, false, false, false, false, false, false, false, false, false, false, false, false,
    false, false, false, false, false, false, false, false, false, false, false, false, false,
    false, false, false, false, false, false, false, false, false, true, true, true, true, true,
    true, true, true, true, true, false, false, false, false, false, false, false, true, true,
    true, true, true, true, true, true, true, true, true, true, true, true, true, true, true, true,
    true, true, true, true, true, true, true, true, false, false, false, false, true, false, false,
    false, false, false, false, false, false, false, false, false, false, false, false, false,
    false, false, false, false, false, false, false, false, false, false, false, false, false,
    false, false, false, false, false, false, false, false, false, false, false, false, false,
    false, false, false, false, false, false, false, false, false, false, false, false, false,
    false, false, false, false, false, false, false, false, false, false, false, false, false,
    false, false, false, false, false, false, false, false, false, false, false, false, false,
    false, false, false, false, false, false, false, false, false, false, false, false, false,
    false, false, false, false, false, false, false, false, false, false, false, false, false,
    false, false, false, false, false, false, false, false, false, false, false, false, false,
    false, false, false, false, false, false, false, false, false, false, false, false, false,
    false, false, false, false, false, false, false, false, false, false, false, false, false,
    false, false, false, false, false, false, false, false, false, false, false, false, false,
    false, false,
];

pub(crate) fn is_name_byte(byte: u8) -> bool
    ensures { result ≡ is_name_byte byte }
{
    IS_NAME_BYTE[usize::from(byte)]
}

fn is_letter(byte: u8) -> bool
    ensures { result ≡ is_letter byte }
{
    b'A' <= byte && byte <= b'Z'
}
