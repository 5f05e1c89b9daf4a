//! What a schedule line says, with its names as they are written.

ghost use Rattle.std.specs.Prelude.{◌≡◌};
ghost use Rattle.smi_tree.specs.Fault.{Gives};
ghost use Rattle.smi_tree.specs.Text.{words};
ghost use Rattle.smi_schedule.specs.Said as spec;

use crate::words::{DeedWord, LineWord, OrderWord, moment_of, plan_of};
use smi_protocol::Moment;
use smi_rows::Plan;
use smi_tree::{Fault, Name, Word, first_word, number_within, one_name, one_word, two_names};

/// The greatest number that is written with ten digits.
const MOST: u64 = 9_999_999_999;

/// An order. After a domain comes an action, or another domain.
#[derive(Drop)]
pub(crate) enum SaidOrder<'a> {
    Take(Name<'a>),
    Drop(Name<'a>),
    Ask(Name<'a>),
    Do(Name<'a>, Name<'a>),
    Include(Name<'a>, Name<'a>),
    Exclude(Name<'a>, Name<'a>),
    Manual(Name<'a>, Name<'a>),
    Ignore(Name<'a>, Name<'a>),
    Watch(Name<'a>),
    Unwatch(Name<'a>),
}

/// A deed: of an operator, of a device in a state, or of a station.
#[derive(Drop)]
pub(crate) enum SaidDeed<'a> {
    Deliver(u64),
    Recent(u64),
    Order(Name<'a>, SaidOrder<'a>),
    Report(Name<'a>, Name<'a>),
    Tick(Name<'a>),
}

/// A line, with the station that it names.
#[derive(Drop)]
pub(crate) enum Said<'a> {
    Do(SaidDeed<'a>),
    Restart(Name<'a>),
    Stop(Name<'a>, Moment, SaidDeed<'a>),
    Fail(Name<'a>, Plan, SaidDeed<'a>),
}

/// Returns the first word of a text and what follows it; with none, the line has too few words.
fn next_word(text: &[u8]) -> Result<(Word<'_>, &[u8]), Fault>
    ensures { Gives (λ cut. (cut.0, words cut.1.now)) result (spec.next_word (words text.now)) }
{
    first_word(text).ok_or(Fault::WordCount)
}

fn name(word: Word<'_>) -> Result<Name<'_>, Fault>
    ensures { result ≡ spec.name word.entry }
{
    Name::read(word).ok_or(Fault::Malformed)
}

/// Returns the one word of a text, if it is a number from `least` on.
fn one_number(least: u64, text: &[u8]) -> Result<u64, Fault>
    ensures { result ≡ spec.one_number least (words text.now) }
{
    let word = one_word(text)?;
    number_within(least, MOST, word.text()).ok_or(Fault::Malformed)
}

/// Returns what the words after an order's word say.
fn order_of(word: OrderWord, text: &[u8]) -> Result<SaidOrder<'_>, Fault>
    ensures { result ≡ spec.order_of word (words text.now) }
{
    match word {
        OrderWord::Take => Ok(SaidOrder::Take(one_name(text)?)),
        OrderWord::Drop => Ok(SaidOrder::Drop(one_name(text)?)),
        OrderWord::Ask => Ok(SaidOrder::Ask(one_name(text)?)),
        OrderWord::Do => {
            let (domain, action) = two_names(text)?;
            Ok(SaidOrder::Do(domain, action))
        }
        OrderWord::Include => {
            let (domain, target) = two_names(text)?;
            Ok(SaidOrder::Include(domain, target))
        }
        OrderWord::Exclude => {
            let (domain, target) = two_names(text)?;
            Ok(SaidOrder::Exclude(domain, target))
        }
        OrderWord::Manual => {
            let (domain, target) = two_names(text)?;
            Ok(SaidOrder::Manual(domain, target))
        }
        OrderWord::Ignore => {
            let (domain, target) = two_names(text)?;
            Ok(SaidOrder::Ignore(domain, target))
        }
        OrderWord::Watch => Ok(SaidOrder::Watch(one_name(text)?)),
        OrderWord::Unwatch => Ok(SaidOrder::Unwatch(one_name(text)?)),
    }
}

/// Returns an operator, what is ordered, and of what.
#[tactic(auto, unfolding(crate::specs::Said::order_line))]
fn order_line(text: &[u8]) -> Result<SaidDeed<'_>, Fault>
    ensures { result ≡ spec.order_line (words text.now) }
{
    let (operator, rest) = next_word(text)?;
    let (word, rest) = next_word(rest)?;
    let word = OrderWord::read(word.text()).ok_or(Fault::UnknownWord)?;
    let order = order_of(word, rest)?;
    let operator = name(operator)?;
    Ok(SaidDeed::Order(operator, order))
}

/// Returns what the words after a deed's word say.
fn deed_of(word: DeedWord, text: &[u8]) -> Result<SaidDeed<'_>, Fault>
    ensures { result ≡ spec.deed_of word (words text.now) }
{
    match word {
        DeedWord::Deliver => Ok(SaidDeed::Deliver(one_number(1, text)?)),
        DeedWord::Recent => Ok(SaidDeed::Recent(one_number(0, text)?)),
        DeedWord::Order => order_line(text),
        DeedWord::Report => {
            let (device, state) = two_names(text)?;
            Ok(SaidDeed::Report(device, state))
        }
        DeedWord::Tick => Ok(SaidDeed::Tick(one_name(text)?)),
    }
}

/// Returns a deed inside a line.
#[tactic(auto, unfolding(crate::specs::Said::deed_in))]
fn deed_in(text: &[u8]) -> Result<SaidDeed<'_>, Fault>
    ensures { result ≡ spec.deed_in (words text.now) }
{
    let (word, rest) = next_word(text)?;
    let word = DeedWord::read(word.text()).ok_or(Fault::UnknownWord)?;
    deed_of(word, rest)
}

/// Returns a station, the moment at which it stops, and in which deed.
#[tactic(auto, unfolding(crate::specs::Said::stop_line))]
fn stop_line(text: &[u8]) -> Result<Said<'_>, Fault>
    ensures { result ≡ spec.stop_line (words text.now) }
{
    let (station, rest) = next_word(text)?;
    let (moment, rest) = next_word(rest)?;
    let moment = moment_of(moment.text()).ok_or(Fault::UnknownWord)?;
    let deed = deed_in(rest)?;
    let station = name(station)?;
    Ok(Said::Stop(station, moment, deed))
}

/// Returns a station, how its save fails, and in which deed.
#[tactic(auto, unfolding(crate::specs::Said::fail_line))]
fn fail_line(text: &[u8]) -> Result<Said<'_>, Fault>
    ensures { result ≡ spec.fail_line (words text.now) }
{
    let (station, rest) = next_word(text)?;
    let (plan, rest) = next_word(rest)?;
    let plan = plan_of(plan.text()).ok_or(Fault::UnknownWord)?;
    let deed = deed_in(rest)?;
    let station = name(station)?;
    Ok(Said::Fail(station, plan, deed))
}

/// Returns what the words after a line's first word say.
///
/// The words that a line says by itself are tested first, then the count of its words, then its names and numbers.
pub(crate) fn said_of(word: LineWord, text: &[u8]) -> Result<Said<'_>, Fault>
    ensures { result ≡ spec.said_of word (words text.now) }
{
    match word {
        LineWord::Do(word) => Ok(Said::Do(deed_of(word, text)?)),
        LineWord::Restart => Ok(Said::Restart(one_name(text)?)),
        LineWord::Stop => stop_line(text),
        LineWord::Fail => fail_line(text),
    }
}
