//! Parses the query of a request for the history, and writes the entries that it asks for as lines of JSON.
//! `crates/smi_web/src/service.rt` calls it for `GET /api/history`, and `routing.rt` there refuses a query that is not
//! well formed. docs/FORMATS.md, "The history of a screen", fixes query and answer, which
//! `crates/smi_program/page/past` reads.

ghost use Rattle.std.specs.Prelude.{◌≡◌, ◌++◌, OnOk, option_map};
ghost use Rattle.smi_history.specs.Query as spec;

use crate::history::{History, HistoryEntry, MOST_TOLD};
use crate::parts::{has_word, value_of};
use crate::text::{put, put_number};
use smi_tree::number_within;
use std::alloc::AllocError;
use std::marker::Model;

/// The greatest number and the last second that a query may have: ten digits, as docs/FORMATS.md, "The history of a
/// screen", says.
const MOST_NUMBER: u64 = 9_999_999_999;

/// Which entries a query asks for: those that pass all of its tests.
#[derive(Drop)]
pub struct HistoryQuery<'a> {
    /// Asks for entries after the one of this number. If it is None, `from` says where to begin: at the first entry of
    /// that second, or, if `from` is 0 too, with the newest 10,000.
    pub after: Option<u64>,
    /// Asks for entries that have this word, as the name of an object or an operator. None asks for all.
    pub object: Option<&'a [u8]>,
    /// Asks for entries from this second on, counted since 1970. 0 if the query has none.
    pub from: u64,
    /// Asks for entries up to the end of this second, counted since 1970. `MOST_NUMBER` if the query has none.
    pub to: u64,
}

impl<'a> Model for HistoryQuery<'a> {
    ghost use Rattle.std.specs.Prelude.{option_map};
    ghost use Rattle.smi_history.specs.Query.{QueryState};

    ghost Value = { QueryState };

    ghost view = { λ q. record {
      after = q.after;
      object = option_map (λ word. word.now) q.object;
      from = q.from;
      to = q.to;
    } };
}

/// Returns the number that a word of a query is, or `number` if the query has no such word. None if the word is no
/// number of up to ten digits.
fn number_or(number: u64, word: Option<&[u8]>) -> Option<u64>
    ensures { result ≡ spec.number_or number (option_map (λ word. word.now) word.entry) }
{
    match word {
        Some(word) => number_within(0, MOST_NUMBER, word),
        None => Some(number),
    }
}

/// Returns the number that a word of a query is, or `Some(None)` if the query has no such word. None if the word is no
/// number of up to ten digits.
fn number_if_any(word: Option<&[u8]>) -> Option<Option<u64>>
    ensures { result ≡ spec.number_if_any (option_map (λ word. word.now) word.entry) }
{
    match word {
        Some(word) => match number_within(0, MOST_NUMBER, word) {
            Some(number) => Some(Some(number)),
            None => None,
        },
        None => Some(None),
    }
}

/// Returns what a query asks for: `object=TRK&from=1790000000&to=1790003600&after=17`, of which each part may be left
/// out. Other parts are ignored. None if a number in it is no number of up to ten digits.
pub fn query_in(text: &[u8]) -> Option<HistoryQuery<'_>>
    ensures { result ≡ spec.query_in text.now }
{
    let after = number_if_any(value_of(b"after=", text))?;
    let from = number_or(0, value_of(b"from=", text))?;
    let to = number_or(MOST_NUMBER, value_of(b"to=", text))?;
    Some(HistoryQuery {
        after,
        object: value_of(b"object=", text),
        from,
        to,
    })
}

/// Returns true if a text has the word that is asked for.
fn is_about(text: &[u8], object: Option<&[u8]>) -> bool
    ensures { result ≡ spec.is_about text.now (option_map (λ word. word.now) object.entry) }
{
    match object {
        Some(word) => has_word(text, word),
        None => true,
    }
}

/// Returns true if a time, in milliseconds since 1970, is in one of the seconds that are asked for.
fn is_then(query: &HistoryQuery<'_>, at: u64) -> bool
    ensures { result ≡ spec.is_then query.now at }
{
    query.from <= at / 1_000 && at / 1_000 <= query.to
}

/// Returns true if an entry is asked for.
fn is_asked(query: &HistoryQuery<'_>, entry: &HistoryEntry) -> bool
    ensures { result ≡ spec.is_asked query.now entry.now }
{
    is_then(query, entry.note.at) && is_about(entry.note.text.as_slice(), query.object)
}

/// Appends an entry as a line of JSON: `{"number":17,"at":1790000000123,"text":"board TRK 1.6 READY"}`. Nothing is
/// escaped: the texts of entries are plain.
#[tactic(auto, unfolding(crate::specs::Query::entry_line))]
fn put_entry(text: &mut Vec<u8>, entry: &HistoryEntry) -> Result<(), AllocError>
    ensures { OnOk result (text.new.items ≡ text.old.items ++ spec.entry_line entry.now) }
{
    put_number(text, b"{\"number\":", entry.number)?;
    put_number(text, b",\"at\":", entry.note.at)?;
    put(text, b",\"text\":\"")?;
    put(text, entry.note.text.as_slice())?;
    put(text, b"\"}\n")
}

/// Appends the line of an entry, if it is asked for.
#[tactic(auto, unfolding(crate::specs::Query::asked_line))]
fn put_asked(
    text: &mut Vec<u8>,
    query: &HistoryQuery<'_>,
    entry: &HistoryEntry,
) -> Result<(), AllocError>
    ensures { OnOk result (text.new.items ≡ text.old.items ++ spec.asked_line query.now entry.now) }
{
    if is_asked(query, entry) {
        put_entry(text, entry)
    } else {
        Ok(())
    }
}

impl History {
    ghost use Rattle.std.specs.Prelude.{◌≡◌, ◌++◌, OnOk, IfOk};
    ghost use Rattle.std.specs.List.{flat_map};
    ghost use Rattle.smi_history.specs.History.{piece};
    ghost use Rattle.smi_history.specs.Query as spec;

    /// Returns the number after which a query without `after` is looked for: before the first entry of this second, or
    /// before the newest 10,000 if the second is 0.
    fn usual_start(&self, second: u64) -> u64
        ensures { result ≡ spec.usual_start self.now second }
    {
        if second == 0 {
            self.count()
                .saturating_sub(MOST_TOLD as u64)
                .max(self.dropped())
        } else {
            self.dropped()
                .saturating_add(self.count_before(second) as u64)
        }
    }

    /// Returns the number after which entries are looked through for a query.
    fn start_of(&self, query: &HistoryQuery<'_>) -> u64
        ensures { result ≡ spec.start_of self.now query.now }
    {
        match query.after {
            Some(after) => after.max(self.dropped()),
            None => self.usual_start(query.from),
        }
    }

    /// Appends the entries that a query asks for, of the 10,000 that are looked through after this number.
    fn put_entries(
        &self,
        text: &mut Vec<u8>,
        query: &HistoryQuery<'_>,
        first: u64,
    ) -> Result<(), AllocError>
        ensures { OnOk result (text.new.items ≡ text.old.items
            ++ flat_map (spec.asked_line query.now) (piece self.now first)) }
    {
        for entry in self.piece(first) {
            put_asked(text, query, entry)?;
        }
        Ok(())
    }

    /// Appends the first line of an answer, as
    /// `{"count":131,"saved":120,"after":0,"upto":10000,"oldest":1790000000123}`: how many entries there were so far,
    /// up to which they are saved, after which number and up to which they are looked through, and when the oldest is
    /// from that is kept. `upto` may be more than `count`.
    #[tactic(auto, unfolding(crate::specs::Query::head_line))]
    fn put_head(&self, text: &mut Vec<u8>, first: u64) -> Result<(), AllocError>
        ensures { OnOk result (text.new.items ≡ text.old.items ++ spec.head_line self.now first) }
    {
        put_number(text, b"{\"count\":", self.count())?;
        put_number(text, b",\"saved\":", self.saved())?;
        put_number(text, b",\"after\":", first)?;
        put_number(text, b",\"upto\":", first.saturating_add(MOST_TOLD as u64))?;
        put_number(text, b",\"oldest\":", self.oldest())?;
        put(text, b"}\n")
    }

    /// Writes the entries that a query asks for, each as a line of JSON, after a first line that says which were looked
    /// through. These are 10,000 at most, so that no answer is larger than some megabytes. The next request asks for
    /// those after them.
    ///
    /// Fails only if memory is refused (tested, not proved).
    pub fn write(&self, query: &HistoryQuery<'_>) -> Result<Vec<u8>, AllocError>
        ensures { IfOk result (λ text. text.items ≡ spec.history_text self.now query.now) }
    {
        let first = self.start_of(query);
        let mut text = Vec::new(self.alloc());
        self.put_head(&mut text, first)?;
        self.put_entries(&mut text, query, first)?;
        Ok(text)
    }
}
