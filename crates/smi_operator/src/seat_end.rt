//! The station's end of one seat.

ghost use Rattle.std.specs.Prelude.{◌≡◌, ◌<◌, ◌≤◌, ◌+◌, ◌++◌, ◌∷◌, [], length, true, slice_get, Some, IfSome, IfNone};
ghost use Rattle.std.specs.Prelude.{option_map};
ghost use mathlib.Core.List.{IsPrefix};
ghost use Rattle.smi_operator.specs.Working.{IsPlaceOf, begun, ending, may_join, ended_at, newest_marked, newest_of};
ghost use Rattle.smi_operator.specs.Working.{handed_out, still_in_work};
ghost use Rattle.smi_operator.specs.Sides.{given, answered, left, room, SameEnd};

use crate::ends::SeatEnd;
use crate::handing::hand_out;
use crate::work::{Ending, Work, WorkSlot, end_at, mark_newest, may_join, place_in_work};
use smi_grant::Record;
use smi_protocol::{Mark, Order};

impl SeatEnd {
    /// Takes the next order into work, if it may join those that are and a place for its answer is free.
    pub(crate) fn next(&mut self) -> Option<Order>
        ensures ring { SameEnd self.old self.new }
        ensures may { IfSome result (λ o. may_join self.old.work.items o ≡ true) }
        ensures work { IfSome result (λ o. self.new.work.items ≡ self.old.work.items ++ begun o ∷ []) }
        ensures given { IfSome result (λ o. given self.new ≡ given self.old ++ o ∷ []) }
        ensures none { IfNone result ((self.new.work.items ≡ self.old.work.items) × (given self.new ≡ given self.old)) }
        ensures answered { answered self.new ≡ answered self.old }
        ensures left { IfSome result (λ o. IsPrefix (left self.old) (o ∷ left self.new)) }
        ensures none_left { IfNone result (IsPrefix (left self.old) (left self.new)) }
        ensures room { room self.old ≤ room self.new }
        ensures succeeds { IfSome (slice_get (left self.old) 0)
            (λ o. may_join self.old.work.items o ≡ true → length self.old.work.items < room self.old
            → result ≡ Some o) }
    {
        if self.orders.slots() == 0 || self.answers.slots() <= self.work.len() {
            return None;
        }
        let order = *self.orders.peek_known();
        if !may_join(self.work.as_slice(), order) {
            return None;
        }
        let order = self.orders.pop_known();
        self.work.push(WorkSlot::begun(order));
        Some(order)
    }

    /// Ends the order at this place, unless it had ended. What can be handed out, is.
    pub(crate) fn answer_at(&mut self, place: usize, code: u16, asked: Option<Record>)
        requires { place < length self.old.work.items }
        ensures ring { SameEnd self.old self.new }
        ensures work { self.new.work.items ≡ still_in_work (ended_at self.old.work.items place (ending code asked)) }
        ensures answered { answered self.new ≡ answered self.old
            ++ handed_out (ended_at self.old.work.items place (ending code asked)) }
        ensures given { given self.new ≡ given self.old }
        ensures left { left self.new ≡ left self.old }
        ensures room { room self.new + length (handed_out (ended_at self.old.work.items place (ending code asked)))
            ≡ room self.old }
    {
        end_at(self.work.as_mut_slice(), place, Ending { code, asked });
        hand_out(&mut self.work, &mut self.answers);
    }

    /// Notes which command the newest order in work became.
    pub(crate) fn mark(&mut self, mark: Mark)
        requires { 0 < length self.old.work.items }
        ensures ring { SameEnd self.old self.new }
        ensures work { self.new.work.items ≡ newest_marked self.old.work.items mark }
        ensures answered { answered self.new ≡ answered self.old }
        ensures given { given self.new ≡ given self.old }
        ensures left { left self.new ≡ left self.old }
        ensures room { room self.new ≡ room self.old }
    {
        mark_newest(self.work.as_mut_slice(), mark);
    }

    /// Returns the order in work at this place.
    pub(crate) fn in_work(&self, place: usize) -> Option<Work>
        ensures { result ≡ option_map (λ e. e.work) (slice_get self.now.work.items place) }
    {
        let entry = self.work.as_slice().get(place)?;
        Some(entry.work)
    }

    /// Returns the place of the newest order in work.
    pub(crate) fn newest(&self) -> Option<usize>
        ensures { result ≡ newest_of self.now.work.items }
    {
        self.work.len().checked_sub(1)
    }

    /// Returns the place of the oldest order in work that an answer is of.
    pub(crate) fn place_of(&self, order: Order, mark: Option<Mark>) -> Option<usize>
        ensures { IsPlaceOf order mark self.now.work.items result }
    {
        place_in_work(self.work.as_slice(), order, mark)
    }
}
