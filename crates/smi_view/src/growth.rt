//! What a board takes memory for, and how often it was refused.

ghost use Rattle.std.specs.Prelude.{◌≡◌, ◌∷◌, ◌++◌, [], drop, fold, IfOk, OnErr, OnOk, MatchResult, Some};
ghost use Rattle.left_right.specs.Sides.{view};
ghost use Rattle.smi_view.specs.declared.page.CopyMeaning.{CopyMeaning};
ghost use Rattle.smi_view.specs.Entries.{entries_of};
ghost use Rattle.smi_view.specs.Pages.{name_of, page_of, turned};

use crate::board::{BoardWriter, publish};
use crate::history::{BoardId, RowCounter, Rows};
use crate::sheet::MarkedRow;
use core::mem::replace_with;
use smi_grant::Shown;
use std::alloc::AllocError;
use std::collections::VecDeque;
use std::marker::Model;
use std::sync::Wait;

/// How often a board was refused memory, or its history the count of one more row. Nothing else counts.
#[derive(Drop)]
pub(crate) struct BoardGrowth {
    refusals: u64,
}

impl Model for BoardGrowth {
    ghost use Rattle.smi_view.specs.Shows.{Refusals};

    ghost Value = { Refusals };

    ghost view = { λ g. record { count = g.refusals } };
}

impl BoardGrowth {
    ghost use Rattle.std.specs.Prelude.{◌<◌};
    ghost use Rattle.std.proofs.Common.{deque_capacity, deque_len};
    ghost use Rattle.smi_view.specs.Shows.{IsRefused};

    /// Returns a count of nothing refused.
    pub(crate) fn new() -> BoardGrowth
        ensures { result.count ≡ 0 }
    {
        BoardGrowth { refusals: 0 }
    }

    /// Counts one refusal more.
    fn raise(&mut self)
        ensures { IsRefused self.old.count self.new.count }
    {
        self.refusals = self.refusals.saturating_add(1);
    }

    /// Makes room for one more entry that waits.
    pub(crate) fn reserve(&mut self, waiting: &mut VecDeque<MarkedRow>) -> Result<(), AllocError>
        ensures unchanged { waiting.new.items ≡ waiting.old.items }
        ensures grown { OnOk result (self.new.count ≡ self.old.count) }
        ensures refused { OnErr result (IsRefused self.old.count self.new.count) }
        ensures room { OnOk result (deque_len waiting.new < deque_capacity waiting.new) }
    {
        if waiting.reserve(1).is_err() {
            self.raise();
            return Err(AllocError);
        }
        Ok(())
    }

    /// Returns rows and one more.
    pub(crate) fn with<J: BoardId>(
        &mut self,
        rows: &Rows<J>,
        counter: &RowCounter<J>,
        row: Shown,
    ) -> Result<Rows<J>, AllocError>
        ensures more { IfOk result (λ more. more ≡ rows.now ++ row ∷ []) }
        ensures grown { OnOk result (self.new.count ≡ self.old.count) }
        ensures refused { OnErr result (IsRefused self.old.count self.new.count) }
    {
        match rows.with(counter, row) {
            Some(more) => Ok(more),
            None => {
                self.raise();
                Err(AllocError)
            }
        }
    }

    /// Hands an entry to a writer, or gives it back.
    pub(crate) fn append(
        &mut self,
        writer: &mut BoardWriter,
        entry: MarkedRow,
    ) -> Result<(), MarkedRow>
        ensures desk { writer.new.desk ≡ writer.old.desk }
        ensures pending { MatchResult result (λ _. drop writer.new.behind writer.new.log.items
            ≡ drop writer.old.behind writer.old.log.items ++ entry ∷ [])
            (λ x. (x ≡ entry) × (drop writer.new.behind writer.new.log.items
            ≡ drop writer.old.behind writer.old.log.items)) }
        ensures grown { OnOk result (self.new.count ≡ self.old.count) }
        ensures refused { OnErr result (IsRefused self.old.count self.new.count) }
    {
        match writer.append(entry) {
            Ok(()) => Ok(()),
            Err(entry) => {
                self.raise();
                Err(entry)
            }
        }
    }

    /// Shows readers all that a writer has.
    pub(crate) fn publish<R: Wait>(
        &mut self,
        rt: &R,
        writer: &mut BoardWriter,
    ) -> Result<(), AllocError>
        requires entries { let next : CopyMeaning = fold turned (page_of writer.old.desk.shown.value)
            (drop writer.old.behind writer.old.log.items) in next.entries ≡ entries_of next.rows }
        requires name { let next : CopyMeaning = fold turned (page_of writer.old.desk.shown.value)
            (drop writer.old.behind writer.old.log.items) in
            next.name ≡ name_of writer.old.desk.shown.value.mark.seen.book }
        ensures page { OnOk result (page_of writer.new.desk.shown.value
            ≡ fold turned (page_of writer.old.desk.shown.value) (drop writer.old.behind writer.old.log.items)) }
        ensures emptied { OnOk result (drop writer.new.behind writer.new.log.items ≡ []) }
        ensures name { OnOk result (view writer.new.desk.place
            ≡ Some (name_of writer.new.desk.shown.value.mark.seen.book)) }
        ensures unpublished { OnErr result (writer.new.desk.shown.value ≡ writer.old.desk.shown.value) }
        ensures kept { OnErr result (drop writer.new.behind writer.new.log.items
            ≡ drop writer.old.behind writer.old.log.items) }
        ensures same { OnErr result (view writer.new.desk.place ≡ view writer.old.desk.place) }
        ensures grown { OnOk result (self.new.count ≡ self.old.count) }
        ensures refused { OnErr result (IsRefused self.old.count self.new.count) }
    {
        match replace_with(writer, rt, |writer, rt| publish(rt, writer)) {
            Ok(()) => Ok(()),
            Err(_) => {
                self.raise();
                Err(AllocError)
            }
        }
    }
}
