use crate::cell::{Cell, Spot};
use crate::lists::Lists;
use std::marker::Model;

/// The cells of one object's list that are still to come, each with its place.
#[derive(Drop)]
pub(crate) struct Steps<'a> {
    pub(crate) lists: &'a Lists,
    pub(crate) next: Option<Spot>,
}

impl<'a> Model for Steps<'a> {
    ghost use Rattle.std.specs.Prelude.{List};
    ghost use Rattle.smi_watchers.specs.declared.cell.Cell.{Cell};
    ghost use Rattle.smi_watchers.specs.declared.cell.Spot.{Spot};
    ghost use Rattle.smi_watchers.specs.Walked.{Chain, walked, steps_from};

    ghost Value = { List (Spot × Cell) };

    ghost view = { λ w. steps_from w.lists.now w.next };

    ghost invariant = { λ w. Chain w.lists.now w.next (walked w.lists.now w.next) };
}

impl<'a> Iterator for Steps<'a> {
    ghost use Rattle.std.specs.Iterator.{YieldsFirst, item_count};

    type Item = (Spot, Cell);

    ghost next_gives = { YieldsFirst (λ s. s) };

    ghost remaining = { item_count (λ s. s) };

    fn next(&mut self) -> Option<(Spot, Cell)> {
        let place = self.next?;
        let cell = self.lists.cell(place);
        self.next = cell.by_object.after;
        Some((place, cell))
    }
}
