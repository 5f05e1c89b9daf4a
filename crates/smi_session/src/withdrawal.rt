//! Withdraws orders: the line `withdraw TAG` takes back the order that the same session gave with this tag, if no seat
//! has it yet. `service.rt` calls `withdraw`. docs/FORMATS.md, "Lines with a tag", fixes the replies, which a screen's
//! relay passes on to its page.

ghost use Rattle.std.specs.Prelude.{◌≡◌, OnOk};
ghost use Rattle.smi_tree.specs.Text.{words};
ghost use Rattle.smi_session.specs.Withdrawal as spec;

use crate::request::behind_first;
use crate::service::SessionService;
use crate::session::Session;
use crate::state_reader::StateReader;
use crate::tag::TaggedLine;
use smi_tree::first_word;
use std::alloc::AllocError;

/// What becomes of an order that a session wants to take back.
#[derive(Clone, Copy)]
pub enum Withdrawal {
    /// It waited for a seat, and is not given any more. Nothing was sent of it.
    Withdrawn,
    /// It was given to a seat already, and goes on.
    Begun,
    /// No order of the session that is not answered has this tag.
    Unknown,
}

/// Returns the tag that a line names after its first word, without an `@`; nothing if it names none.
fn named_tag(text: &[u8]) -> &[u8]
    ensures { result.now ≡ spec.named_tag (words text.now) }
{
    match first_word(behind_first(text)) {
        Some((tag, _)) => tag.text(),
        None => &[],
    }
}

/// Returns the word with which the reply to `withdraw` begins.
fn word_of(withdrawal: Withdrawal) -> &'static [u8]
    ensures { result.now ≡ spec.word_of withdrawal }
{
    match withdrawal {
        Withdrawal::Withdrawn => b"withdrawn",
        Withdrawal::Begun => b"begun",
        Withdrawal::Unknown => b"unknown",
    }
}

/// Writes the reply to the line of an order that was taken back, in place of what the text had: `@OTHER withdrawn`.
fn write_withdrawn(text: &mut Vec<u8>, tag: &[u8]) -> Result<(), AllocError>
    ensures { OnOk result (text.new.items ≡ spec.withdrawn_text tag.now) }
{
    text.clear();
    text.push(b'@')?;
    text.extend_from_slice(tag)?;
    text.push(b' ')?;
    text.extend_from_slice(b"withdrawn\n")
}

/// Writes the reply to the line that takes an order back, in place of what the text had: `withdrawn OTHER`.
fn write_withdrawal(
    text: &mut Vec<u8>,
    withdrawal: Withdrawal,
    tag: &[u8],
) -> Result<(), AllocError>
    ensures { OnOk result (text.new.items ≡ spec.withdrawal_text withdrawal tag.now) }
{
    text.clear();
    text.extend_from_slice(word_of(withdrawal))?;
    text.push(b' ')?;
    text.extend_from_slice(tag)?;
    text.push(b'\n')?;
    Ok(())
}

/// Pushes the reply to the order of this tag, if it is withdrawn. Pushes nothing otherwise, because that order is
/// answered later.
fn tell_order(
    text: &mut Vec<u8>,
    session: &mut Session,
    withdrawal: Withdrawal,
    tag: &[u8],
) -> Result<(), AllocError>
    ensures { OnOk result (session.new ≡ spec.told_of withdrawal tag.now session.old) }
{
    match withdrawal {
        Withdrawal::Withdrawn => {
            write_withdrawn(text, tag)?;
            session.push_reply(None, text.as_slice())
        }
        Withdrawal::Begun | Withdrawal::Unknown => Ok(()),
    }
}

impl<G: StateReader + Drop> SessionService<G> {
    ghost use Rattle.std.specs.Prelude.{◌≡◌, OnErr, OnOk};
    ghost use Rattle.smi_tree.specs.Text.{words};
    ghost use Rattle.smi_session.specs.Withdrawal.{Withdraws, named_tag};

    /// Takes back the order whose tag a line names, if it waits for a seat. Pushes a reply to that order's line, and
    /// one to the line that asked for it.
    ///
    /// Fails if memory is refused to the session's output. Then the order waits as before.
    pub(crate) fn withdraw(
        &mut self,
        session: &mut Session,
        line: TaggedLine<'_>,
    ) -> Result<(), AllocError>
        ensures ok { OnOk result (Withdraws line.entry.tag (named_tag (words line.entry.text.now)) self.old.seats
            session.old self.new.seats session.new) }
        ensures err { OnErr result (self.new.seats ≡ self.old.seats) }
        ensures rest { self.new ≡ record self.old { seats = self.new.seats } }
    {
        let named = named_tag(line.text);
        let withdrawal = self.seats.withdrawal_of(session, named);
        // Both replies come before the order is removed, because they may fail.
        tell_order(&mut self.text, session, withdrawal, named)?;
        write_withdrawal(&mut self.text, withdrawal, named)?;
        session.push_reply(line.tag, self.text.as_slice())?;
        self.seats.take_back(session, named);
        Ok(())
    }
}
