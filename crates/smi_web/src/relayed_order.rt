//! An order that was given from a page, and what became of it. `order_relay.rt` makes one of each line that is an order
//! (`is_order_line`), so neither the order nor the name has a line feed: what is sent of an order is one line, and a
//! remark before it if there is a name. docs/FORMATS.md, "Orders from the page", fixes both.

ghost use Rattle.std.specs.Prelude.{◌≡◌, ◌++◌, drop, IfOk, OnOk, option_map};
ghost use Rattle.smi_web.specs.RelayedOrder as spec;

use crate::order_line::{name_in, order_in};
use bytes::Bytes;
use smi_history::{is_all_plain, put, shared};
use std::alloc::{AllocError, Global};
use std::io::Write;

/// An order that was given from a page.
#[derive(Drop)]
pub struct RelayedOrder {
    /// Its number, from 1 at each start of the screen, which no other order has.
    pub number: u64,
    /// The tag of its line and of its answer, with a space after it: `@7 `.
    pub tag: Bytes,
    /// The order as it was given, without ` # NAME`.
    pub line: Bytes,
    /// Who has given it, if the page said so. Nobody checks it.
    pub name: Option<Bytes>,
    /// When it was given, in milliseconds since the screen began.
    pub given: u64,
    /// What the console answered. None until it has.
    pub answer: Option<Reply>,
}

/// What the console answered to an order, and when.
#[derive(Drop)]
pub struct Reply {
    /// The answer without the tag, or `?` if it was no plain text.
    pub text: Bytes,
    /// When it came, in milliseconds since the screen began.
    pub at: u64,
}

/// Returns the tag of the order of this number, with a space after it: `@7 `.
fn tag_of(alloc: Global, number: u64) -> Result<Bytes, AllocError>
    ensures { IfOk result (λ tag. tag ≡ spec.tag_of number) }
{
    let mut text = Vec::from_slice(alloc, b"@")?;
    // Writing into a Vec fails only if memory is refused.
    write!(text, "{number}").map_err(|_| AllocError)?;
    text.extend_from_slice(b" ")?;
    shared(text)
}

/// Returns a copy of a name, if there is one.
fn copied(alloc: Global, name: Option<&[u8]>) -> Result<Option<Bytes>, AllocError>
    ensures { IfOk result (λ copy. copy ≡ option_map (λ n. n.now) name.entry) }
{
    match name {
        Some(name) => Ok(Some(shared(Vec::from_slice(alloc, name)?)?)),
        None => Ok(None),
    }
}

/// Appends the remark that says who has given the order with a tag: `# @7 name MARIA`, with a line feed. Appends
/// nothing if that is not known. The tag ends with a space.
#[tactic(auto, unfolding(crate::specs::RelayedOrder::remark_of))]
fn put_remark(text: &mut Vec<u8>, tag: &[u8], name: &Option<Bytes>) -> Result<(), AllocError>
    ensures { OnOk result (text.new.items ≡ text.old.items ++ spec.remark_of tag.now name.now) }
{
    match name {
        Some(name) => {
            put(text, b"# ")?;
            put(text, tag)?;
            put(text, b"name ")?;
            put(text, name.as_slice())?;
            put(text, b"\n")
        }
        None => Ok(()),
    }
}

/// Returns a text if it is plain, and `?` if not, because nothing is escaped in JSON.
fn said(text: &[u8]) -> &[u8]
    ensures { result.now ≡ spec.said text.now }
{
    if is_all_plain(text) { text } else { b"?" }
}

/// Returns a line without its first `count` bytes.
fn behind(line: &[u8], count: usize) -> &[u8]
    ensures { result.now ≡ drop count line.now }
{
    if count <= line.len() {
        &line[count..]
    } else {
        &[]
    }
}

impl RelayedOrder {
    ghost use Rattle.std.specs.Prelude.{◌≡◌, IfOk};
    ghost use Rattle.smi_web.specs.RelayedOrder as spec;

    /// Makes the order of this number, whose line was given at the time `now`.
    pub(crate) fn new(
        alloc: Global,
        number: u64,
        line: &[u8],
        now: u64,
    ) -> Result<RelayedOrder, AllocError>
        ensures { IfOk result (λ order. order ≡ spec.order_of number line.now now) }
    {
        Ok(RelayedOrder {
            number,
            tag: tag_of(alloc, number)?,
            line: shared(Vec::from_slice(alloc, order_in(line))?)?,
            name: copied(alloc, name_in(line))?,
            given: now,
            answer: None,
        })
    }

    /// Returns what is sent to the console: the remark if it has a name, and its line after its tag.
    pub(crate) fn sent(&self, alloc: Global) -> Result<Vec<u8>, AllocError>
        ensures { IfOk result (λ text. text.items ≡ spec.sent_of self.now) }
    {
        let mut text = Vec::new(alloc);
        put_remark(&mut text, self.tag.as_slice(), &self.name)?;
        put(&mut text, self.tag.as_slice())?;
        put(&mut text, self.line.as_slice())?;
        put(&mut text, b"\n")?;
        Ok(text)
    }

    /// Returns true if it has no answer yet, and was given on the present connection with the console: `first` is the
    /// number of the first order of that connection.
    pub(crate) fn is_waiting(&self, first: u64) -> bool
        ensures { result ≡ spec.is_waiting first self.now }
    {
        self.answer.is_none() && first <= self.number
    }

    /// Returns true if it waits, and a line of the console begins with its tag.
    pub(crate) fn is_answered_by(&self, first: u64, line: &[u8]) -> bool
        ensures { result ≡ spec.is_answered_by first line.now self.now }
    {
        self.is_waiting(first) && line.starts_with(self.tag.as_slice())
    }

    /// Returns the answer that a line of the console is, which came at the time `now`.
    pub(crate) fn answer_by(
        &self,
        alloc: Global,
        line: &[u8],
        now: u64,
    ) -> Result<Reply, AllocError>
        ensures { IfOk result (λ answer. answer ≡ spec.answer_by self.now line.now now) }
    {
        let text = said(behind(line, self.tag.len()));
        Ok(Reply {
            text: shared(Vec::from_slice(alloc, text)?)?,
            at: now,
        })
    }
}
