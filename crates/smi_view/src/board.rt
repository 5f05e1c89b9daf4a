//! The end of a board that a station's thread writes.

ghost use Rattle.std.specs.Prelude.{◌≡◌, ◌↔◌, ◌<◌, ◌+◌, ◌^◌, [], ◌∷◌, ◌++◌, drop, fold, length, All, Some, IfOk};
ghost use Rattle.std.specs.Prelude.{IsTrue, OnErr, OnOk};
ghost use mathlib.Core.List.{IsPrefix};
ghost use Rattle.std.specs.Prelude.{MatchResult};
ghost use Rattle.left_right.specs.Sides.{view};
ghost use Rattle.smi_view.specs.declared.page.CopyMeaning.{CopyMeaning};
ghost use Rattle.smi_view.specs.Entries.{entries_of};
ghost use Rattle.smi_view.specs.Pages.{name_of, page_of, turned};
ghost use Rattle.smi_view.specs.Shows.{HasSeenNothing, IsRefused};

use crate::glance::{Glance, News};
use crate::growth::BoardGrowth;
use crate::history::{BoardId, NewBoard, RowCounter, Rows};
use crate::page::HistoryId;
use crate::rule::{Finds, OneHistory, TellsHistory};
use crate::sheet::{BoardCopy, MarkedRow};
use left_right::Absorb;
use left_right::writer::Writer;
use smi_grant::Shown;
use std::alloc::{AllocError, Global};
use std::collections::VecDeque;
use std::marker::Model;
use std::sync::Wait;

pub(crate) type BoardWriter = Writer<BoardCopy, MarkedRow, Option<HistoryId>, OneHistory>;

/// The end of a board that one thread writes.
///
/// Contracts see it as two lists: all rows that were published, and those that were put since; and as how
/// often it was refused what it asked for, memory or the count of one more row. It is ended by
/// [`Board::close`].
pub struct Board<J: BoardId> {
    writer: BoardWriter,
    /// What was put and not handed to the writer yet.
    waiting: VecDeque<MarkedRow>,
    counter: RowCounter<J>,
    /// All that was put.
    rows: Rows<J>,
    /// No rows, as at the opening.
    none: Rows<J>,
    growth: BoardGrowth,
}

impl<J: BoardId> Model for Board<J> {
    ghost use Rattle.std.specs.Prelude.{◌≡◌, [], ◌++◌, drop, fold, length, Some};
    ghost use Rattle.left_right.specs.Sides.{view as known_at};
    ghost use Rattle.smi_view.specs.Shows.{BoardShows};
    ghost use Rattle.smi_view.specs.Pages.{name_of, page_of, turned, page};

    ghost Value = { BoardShows };

    ghost view = { λ b. record {
      publications = b.writer.desk.shown.value.mark.seen.log;
      pending = drop (length b.writer.desk.shown.value.mark.seen.log) b.rows;
      refusals = b.growth.count;
    } };

    ghost invariant = { λ b. (fold turned (page_of b.writer.desk.shown.value)
        (drop b.writer.behind b.writer.log.items ++ b.waiting.items) ≡ page (name_of J.book) b.rows)
        × (b.writer.desk.shown.value.mark.seen.book ≡ J.book)
        × (b.writer.desk.shown.value.mark.seen.log ++ drop (length b.writer.desk.shown.value.mark.seen.log) b.rows
        ≡ b.rows) × (known_at b.writer.desk.place ≡ Some (name_of J.book)) × (b.none ≡ []) };
}

/// Hands what waits to the writer, the oldest first.
fn hand_over(
    growth: &mut BoardGrowth,
    writer: &mut BoardWriter,
    waiting: &mut VecDeque<MarkedRow>,
) -> Result<(), AllocError>
    ensures desk { writer.new.desk ≡ writer.old.desk }
    ensures entries { drop writer.new.behind writer.new.log.items ++ waiting.new.items
        ≡ drop writer.old.behind writer.old.log.items ++ waiting.old.items }
    ensures all { OnOk result (waiting.new.items ≡ []) }
    ensures grown { OnOk result (growth.new.count ≡ growth.old.count) }
    ensures refused { OnErr result (IsRefused growth.old.count growth.new.count) }
{
    while let Some(entry) = waiting.pop_front() {
        if let Err(entry) = growth.append(writer, entry) {
            waiting.push_front_reserved(entry);
            return Err(AllocError);
        }
    }
    Ok(())
}

/// Shows readers all that the writer has, or leaves what they see.
pub(crate) fn publish<R: Wait>(rt: &R, writer: BoardWriter) -> (BoardWriter, Result<(), AllocError>)
    requires entries { let next : CopyMeaning = fold turned (page_of writer.desk.shown.value)
        (drop writer.behind writer.log.items) in next.entries ≡ entries_of next.rows }
    requires name { let next : CopyMeaning = fold turned (page_of writer.desk.shown.value)
        (drop writer.behind writer.log.items) in next.name ≡ name_of writer.desk.shown.value.mark.seen.book }
    ensures values { MatchResult result.1 (λ _.
        (page_of result.0.desk.shown.value ≡ fold turned (page_of writer.desk.shown.value)
        (drop writer.behind writer.log.items)) × (drop result.0.behind result.0.log.items ≡ []))
        (λ _. (result.0.desk.shown.value ≡ writer.desk.shown.value)
        × (drop result.0.behind result.0.log.items ≡ drop writer.behind writer.log.items)) }
    ensures name { MatchResult result.1 (λ _. view result.0.desk.place
        ≡ Some (name_of result.0.desk.shown.value.mark.seen.book))
        (λ _. view result.0.desk.place ≡ view writer.desk.place) }
{
    writer.publish_as::<Finds, R>(rt)
}

impl<J: BoardId> Board<J> {
    /// Puts the row of an object after those that are pending.
    ///
    /// It fails only if the board was refused memory, or its history the count of one more row, and
    /// changes nothing then.
    pub fn put(&mut self, shown: Shown) -> Result<(), AllocError>
        ensures publications { self.new.publications ≡ self.old.publications }
        ensures ok { OnOk result (self.new.pending ≡ self.old.pending ++ shown ∷ []) }
        ensures err { OnErr result (self.new.pending ≡ self.old.pending) }
        ensures grown { OnOk result (self.new.refusals ≡ self.old.refusals) }
        ensures refused { OnErr result (IsRefused self.old.refusals self.new.refusals) }
    {
        self.growth.reserve(&mut self.waiting)?;
        let rows = self.growth.with(&self.rows, &self.counter, shown)?;
        let entry = MarkedRow {
            row: shown,
            mark: rows.mark(),
        };
        self.waiting.push_back_reserved(entry);
        self.rows = rows;
        Ok(())
    }

    /// Publishes what is pending, all at once.
    ///
    /// It fails only if the board was refused memory, and changes nothing then. It waits for the readings
    /// of an earlier publication to end.
    pub fn publish<R: Wait>(&mut self, rt: &R) -> Result<(), AllocError>
        ensures published { OnOk result (self.new.publications ≡ self.old.publications ++ self.old.pending) }
        ensures emptied { OnOk result (self.new.pending ≡ []) }
        ensures unpublished { OnErr result (self.new.publications ≡ self.old.publications) }
        ensures kept { OnErr result (self.new.pending ≡ self.old.pending) }
        ensures grown { OnOk result (self.new.refusals ≡ self.old.refusals) }
        ensures refused { OnErr result (IsRefused self.old.refusals self.new.refusals) }
    {
        hand_over(&mut self.growth, &mut self.writer, &mut self.waiting)?;
        self.growth.publish(rt, &mut self.writer)
    }

    /// Returns what was published so far, for a glance to learn in its thread.
    pub fn tell(&self) -> News<J>
        ensures { result ≡ self.now.publications }
    {
        News {
            rows: self.writer.published().mark.rows::<J>(),
        }
    }

    /// Returns true if a glance has seen nothing but the beginning of what was published: it has, at any time.
    pub fn meet(&self, glance: &Glance<J>) -> bool
        ensures { IsTrue result ↔ IsPrefix glance.now.seen self.now.publications }
    {
        self.tell().meet(glance)
    }

    /// Returns a glance that has seen nothing and was told nothing.
    ///
    /// It fails only if memory ran out, or if as many glances are out as the board has room
    /// for; tests alone see that.
    fn glance(&mut self) -> Result<Glance<J>, AllocError>
        ensures board { self.new ≡ self.old }
        ensures new { IfOk result HasSeenNothing }
    {
        let mut reader = self.writer.factory().reader()?;
        reader.learn::<TellsHistory>(self.writer.tell::<TellsHistory>());
        Ok(Glance {
            reader,
            seen: self.none.again(),
            told: self.none.again(),
        })
    }

    fn glances(&mut self, alloc: Global, count: usize) -> Result<Vec<Glance<J>>, AllocError>
        ensures board { self.new ≡ self.old }
        ensures all { IfOk result (λ glances. length glances.items ≡ count) }
        ensures new { IfOk result (λ glances. All HasSeenNothing glances.items) }
    {
        let mut glances = Vec::new(alloc);
        for _ in 0..count {
            glances.push(self.glance()?)?;
        }
        Ok(glances)
    }

    /// Ends the board, and answers what it had published: what is pending is lost. Glances of it give no
    /// reading from then on. It waits for readings to end.
    pub fn close<R: Wait>(self, rt: &R) -> News<J>
        ensures { result ≡ self.publications }
    {
        let Board {
            writer,
            waiting: _waiting,
            counter: _counter,
            rows: _rows,
            none: _none,
            growth: _growth,
        } = self;
        let last = writer.take(rt);
        News {
            rows: last.mark.rows::<J>(),
        }
    }
}

/// Opens a board with no publications and nothing pending, and this many glances of it, one for each reading
/// thread, which have seen nothing and were told nothing.
///
/// It fails only if memory ran out, which tests alone see.
pub fn open_board<J: BoardId, R: Wait>(
    rt: &R,
    alloc: Global,
    blank: NewBoard,
    glances: usize,
) -> Result<(Board<J>, Vec<Glance<J>>), AllocError>
    requires id { blank.seen.book ≡ J.book }
    requires some { 0 < glances }
    requires few { glances < 2 ^ 32 }
    ensures publications { IfOk result (λ ends. ends.0.publications ≡ []) }
    ensures pending { IfOk result (λ ends. ends.0.pending ≡ []) }
    ensures refusals { IfOk result (λ ends. ends.0.refusals ≡ 0) }
    ensures glances { IfOk result (λ ends. length ends.1.items ≡ glances) }
    ensures new { IfOk result (λ ends. All HasSeenNothing ends.1.items) }
{
    let mut board = open_writer::<J, R>(rt, alloc, blank, glances)?;
    match board.glances(alloc, glances) {
        Ok(made) => Ok((board, made)),
        Err(_) => {
            let _ = board.close(rt);
            Err(AllocError)
        }
    }
}

/// Returns a board with room for this many glances.
fn open_writer<J: BoardId, R: Wait>(
    rt: &R,
    alloc: Global,
    blank: NewBoard,
    glances: usize,
) -> Result<Board<J>, AllocError>
    requires id { blank.seen.book ≡ J.book }
    requires some { 0 < glances }
    requires few { glances < 2 ^ 32 }
    ensures publications { IfOk result (λ board. board.publications ≡ []) }
    ensures pending { IfOk result (λ board. board.pending ≡ []) }
    ensures refusals { IfOk result (λ board. board.refusals ≡ 0) }
{
    let (counter, rows) = blank.named::<J>();
    let first = BoardCopy::new(alloc, rows.mark());
    let second = BoardCopy::new(alloc, rows.mark());
    let writer = Writer::new(alloc, first, second, glances)?;
    // Publishing nothing lets the writer know which history it is.
    let (writer, done) = publish(rt, writer);
    if done.is_err() {
        writer.take(rt);
        return Err(AllocError);
    }
    let none = rows.again();
    Ok(Board {
        writer,
        waiting: VecDeque::new(alloc),
        counter,
        rows,
        none,
        growth: BoardGrowth::new(),
    })
}
