//! The rows that were put on a board.
//!
//! They exist in contracts alone. What threads carry is how many rows they know of, with the knowledge
//! that these begin all that were ever put; so of two such counts the smaller one is of rows that begin
//! the others. No list of rows is kept, sent or compared when the program runs.

ghost use Rattle.std.specs.Prelude.{◌≡◌, ◌↔◌, [], ◌∷◌, ◌++◌, length, IsTrue, IfSome, MatchBool};
ghost use mathlib.Core.List.{IsPrefix};
ghost use Rattle.smi_view.specs.History.{counter_of};

use logbook::{Gain, Offer, Plain, Play, Rule, Seen, Start, Word};
use smi_grant::Shown;
use std::marker::{Brand, Model, PhantomData};

/// The rule of a history: one word counts its rows.
pub struct Counted;

impl Rule<Shown, u64> for Counted {
    ghost use Rattle.std.specs.Prelude.{[]};
    ghost use base.Fml.{ftrue};
    ghost use Rattle.smi_view.specs.History.{IsCounted};

    ghost holds = { IsCounted };

    ghost first = { [] };

    ghost hinted = { λ n rows. Unit {0} };

    ghost shows = { λ rows. [] };

    ghost keeps = { λ names rows. ftrue };

    ghost moves = { λ ask before after answer. Unit {0} };
}

/// Nothing is traded at a step.
pub struct Nothing;

impl Gain<Shown, u64> for Nothing {
    ghost use base.Fml.{ftrue};

    ghost after = { λ names about answer. ftrue };
}

/// The step that adds a row.
pub struct Extend;

impl Play<Shown, u64> for Extend {
    ghost use Rattle.smi_view.specs.History.{Extends};

    ghost then = { Extends };
}

impl Plain<Shown, Shown, u64> for Extend {
    ghost use Rattle.std.specs.Prelude.{None};

    ghost ask = { λ row. row };

    ghost state = { λ row. None };
}

/// Which board it is, in contracts alone: all ends of one board have the same.
pub trait BoardId {
    ghost use Rattle.logbook.specs.Pages.{Book};

    ghost book: { Book };
}

impl BoardId for Brand {
    ghost book = { record { number = 0; log_name = 0; cells_name = 0 } };
}

/// The history of a board that has not been opened yet.
pub struct NewBoard {
    counter: Word<Shown, u64, Counted>,
    seen: Seen<Shown, u64, Counted>,
    pub ghost empty: { seen.log ≡ [] },
    pub ghost counter_is: { counter ≡ counter_of seen.book },
}

impl NewBoard {
    /// Returns a history with no rows, for one board.
    pub fn new() -> NewBoard {
        let (seen, mut first, _second) = Seen::open(Start::alone(), 0, 0);
        NewBoard {
            counter: Word::tracked(0, &mut first),
            seen,
        }
    }

    pub(crate) fn named<J: BoardId>(self) -> (RowCounter<J>, Rows<J>)
        requires { self.seen.book ≡ J.book }
        ensures { result.1 ≡ [] }
    {
        let NewBoard { counter, seen } = self;
        (
            RowCounter {
                counter,
                of: PhantomData,
            },
            Rows {
                count: 0,
                seen,
                of: PhantomData,
            },
        )
    }
}

/// The word that counts all rows that were put on a board.
#[derive(Drop)]
pub(crate) struct RowCounter<J: BoardId> {
    counter: Word<Shown, u64, Counted>,
    of: PhantomData<J>,
    ghost counter_is: { counter ≡ counter_of J.book },
}

/// Rows with which the history of a board begins.
#[derive(Drop)]
pub struct Rows<J: BoardId> {
    count: u64,
    seen: Seen<Shown, u64, Counted>,
    of: PhantomData<J>,
}

impl<J: BoardId> Model for Rows<J> {
    ghost use Rattle.std.specs.Prelude.{◌≡◌, List, length};
    ghost use Rattle.smi_grant.specs.declared.state.Shown.{Shown};

    ghost Value = { List Shown };

    ghost view = { λ r. r.seen.log };

    ghost invariant = { λ r. (r.count ≡ length r.seen.log) × (r.seen.book ≡ J.book) };
}

impl<J: BoardId> Rows<J> {
    /// Returns a copy.
    pub(crate) fn again(&self) -> Rows<J>
        ensures { result ≡ self.now }
    {
        Rows {
            count: self.count,
            seen: self.seen.again(),
            of: PhantomData,
        }
    }

    /// Returns true if these are the beginning of others.
    pub(crate) fn begin(&self, others: &Rows<J>) -> bool
        ensures begin { IsTrue result ↔ IsPrefix self.now others.now }
        ensures follow { MatchBool result (Unit {0}) (IsPrefix others.now self.now) }
    {
        let mut both = self.seen.again();
        both.learn(&others.seen);
        self.count <= others.count
    }

    /// Returns these rows and one more; none if more were put already.
    pub(crate) fn with(&self, counter: &RowCounter<J>, row: Shown) -> Option<Rows<J>>
        ensures { IfSome result (λ rows. rows ≡ self.now ++ row ∷ []) }
    {
        if self.count == u64::MAX {
            return None;
        }
        let count = self.count + 1;
        let mut seen = self.seen.again();
        let mut offer: Offer<Shown, u64, Counted, Nothing> = seen.plain::<Nothing, Shown, Extend>(
            &row,
        );
        let mut pen = seen.no_pen();
        let found = counter
            .counter
            .compare_exchange::<Extend, Nothing>(
                self.count, count, &mut seen, &mut offer, &mut pen,
            );
        if found != self.count {
            return None;
        }
        Some(Rows {
            count,
            seen,
            of: PhantomData,
        })
    }

    /// Returns the same rows, for a copy of the board.
    pub(crate) fn mark(&self) -> HistoryMark
        ensures rows { result.seen.log ≡ self.now }
        ensures book { result.seen.book ≡ J.book }
    {
        HistoryMark {
            count: self.count,
            seen: self.seen.again(),
        }
    }
}

/// Rows with which the history of some board begins. The copies of a board have no type parameter, so
/// which board it is, a mark's value says and not its type.
#[derive(Drop)]
pub struct HistoryMark {
    count: u64,
    pub(crate) seen: Seen<Shown, u64, Counted>,
    ghost counted: { count ≡ length seen.log },
}

impl HistoryMark {
    /// Returns a copy.
    pub(crate) fn again(&self) -> HistoryMark
        ensures { result ≡ self.now }
    {
        HistoryMark {
            count: self.count,
            seen: self.seen.again(),
        }
    }

    /// Returns the same rows, as those of a board.
    pub(crate) fn rows<J: BoardId>(&self) -> Rows<J>
        requires { self.now.seen.book ≡ J.book }
        ensures { result ≡ self.now.seen.log }
    {
        Rows {
            count: self.count,
            seen: self.seen.again(),
            of: PhantomData,
        }
    }
}
