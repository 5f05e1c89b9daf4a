//! The operator's end of a seat.

ghost use Rattle.std.specs.Prelude.{◌≡◌, ◌<◌, [], ◌∷◌, ◌++◌, length, IfSome, IfNone, IfErr, OnOk, IsOk};
ghost use Rattle.smi_operator.specs.Sides.{submitted, told_to, SameSeat, Keeps};

use crate::ends::{Finished, Seat};
use rtrb::PushError;
use smi_protocol::{Order, Told};

impl Seat {
    /// Submits an order, or gives it back where sixteen wait already. A seat's first sixteen orders
    /// are always taken.
    pub fn submit(&mut self, order: Order) -> Result<(), Order>
        ensures seat { SameSeat self.old self.new }
        ensures ok { OnOk result (submitted self.new ≡ submitted self.old ++ order ∷ []) }
        ensures full { IfErr result (λ back. (back ≡ order) × (submitted self.new ≡ submitted self.old)) }
        ensures succeeds { length (submitted self.old) < 16 → IsOk result }
        ensures told { told_to self.new ≡ told_to self.old }
    {
        match self.orders.push(order) {
            Ok(()) => Ok(()),
            Err(PushError::Full(back)) => Err(back),
        }
    }

    /// Takes the next answer, if there is one.
    pub fn told(&mut self) -> Option<Told>
        ensures seat { SameSeat self.old self.new }
        ensures some { IfSome result (λ t. told_to self.new ≡ told_to self.old ++ t ∷ []) }
        ensures none { IfNone result (told_to self.new ≡ told_to self.old) }
        ensures submitted { submitted self.new ≡ submitted self.old }
    {
        match self.answers.pop() {
            Ok(told) => Some(told),
            Err(_) => None,
        }
    }

    /// Ends the seat. No more orders come.
    pub fn finish(self) -> Finished
        ensures { Keeps self result }
    {
        let Seat { orders, answers } = self;
        Finished { orders, answers }
    }
}
