//! The tag of a line, a word that its client chose and by which it knows the answers to it: `@17 order ANN take DCS`.
//! `service.rt` splits a tag from each line. docs/FORMATS.md, "Lines with a tag", fixes its form, which
//! `tools/lunskaf.py` and the relay of a screen rely on.

ghost use Rattle.std.specs.Prelude.{◌≡◌, ◌∷◌, Some, None, IfSome, option_map, if◌then◌else◌};
ghost use Rattle.std.specs.Char.{is_ascii_graphic};
ghost use Rattle.std.specs.List.{list_all};
ghost use Rattle.smi_tree.specs.Text.{words};
ghost use Rattle.smi_session.specs.Tag.{is_tag, tag_of, tag_text};

use smi_tree::first_word;

/// The most bytes of a tag, from docs/FORMATS.md, "Lines with a tag". `MOST_DIGITS` in
/// `crates/smi_web/src/order_line.rt` has to be no more, because the numbers of a page's orders are tags here.
const MOST: usize = 16;

/// A tag chosen by the client: 1 to 16 printable bytes, no spaces.
#[derive(Clone, Copy)]
pub struct Tag {
    /// The bytes of the tag, and zeros after them.
    bytes: [u8; MOST],
    /// How many of them are the tag's.
    count: usize,
}

/// Returns true if all bytes are printable ASCII and none is a space.
fn are_printable(text: &[u8]) -> bool
    ensures { result ≡ list_all is_ascii_graphic text.now }
{
    text.iter().all(|byte| byte.is_ascii_graphic())
}

/// Returns true if bytes can be a tag.
fn is_tag(text: &[u8]) -> bool
    ensures { result ≡ is_tag text.now }
{
    !text.is_empty() && text.len() <= MOST && are_printable(text)
}

impl Tag {
    /// Returns the tag of these bytes. None if they can't be one.
    fn of(text: &[u8]) -> Option<Tag>
        ensures { option_map tag_text result ≡ (if is_tag text.now then Some text.now else None) }
    {
        if !is_tag(text) {
            return None;
        }
        let mut bytes = [0u8; MOST];
        bytes[..text.len()].copy_from_slice(text);
        Some(Tag {
            bytes,
            count: text.len(),
        })
    }

    /// Returns its bytes.
    pub fn text(&self) -> &[u8]
        ensures { result.now ≡ tag_text self.now }
    {
        let (text, _) = self.bytes.split_at(self.count.min(MOST));
        text
    }
}

/// Returns the tag of a line and what follows it. None if the first word is no `@` with a tag after it.
pub fn tagged(line: &[u8]) -> Option<(Tag, &[u8])>
    ensures tag { option_map (λ r. tag_text r.0) result ≡ tag_of (words line.now) }
    ensures rest { IfSome result (λ r. words line.now ≡ (64 ∷ tag_text r.0) ∷ words r.1.now) }
{
    let (first, rest) = first_word(line)?;
    match first.text() {
        [b'@', text @ ..] => Some((Tag::of(text)?, rest)),
        _ => None,
    }
}

/// A line that is handled, split at its tag.
#[derive(Clone, Copy)]
pub(crate) struct TaggedLine<'a> {
    /// The number of the line in its session, from 1.
    pub(crate) number: u64,
    /// Its tag. None if it has none.
    pub(crate) tag: Option<Tag>,
    /// The line without its tag.
    pub(crate) text: &'a [u8],
}
