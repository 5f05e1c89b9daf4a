//! The desk, at which a station serves its seats.

ghost use Rattle.std.specs.Prelude.{◌≡◌, ◌<◌, length, IsTrue, IfSome, Some, slice_get, option_map, true};
ghost use Rattle.smi_operator.specs.Working.{IsPlaceOf, may_join, newest_of};
ghost use Rattle.smi_operator.specs.Sides.{Steps, Gives, Answers, Marks, seat_end, seat_count, work_of, left, room};
ghost use Rattle.smi_operator.specs.Sides.{IsEndedAt, Met, Stays};

use crate::ends::{Desk, Finished};
use crate::work::Work;
use smi_grant::Record;
use smi_protocol::{Mark, Order};

impl Desk {
    /// Returns how many seats the desk has. Their numbers begin at 0.
    pub fn seat_count(&self) -> usize
        ensures { result ≡ seat_count self.now }
    {
        self.seat_ends.len()
    }

    /// Gives the next order of a seat, which is then in work.
    ///
    /// Returns none if the seat submitted none, if no place for its answer is free, or if it may not
    /// join the orders in work: all have to be commands on one domain, and eight at most.
    pub fn next(&mut self, seat: usize) -> Option<Order>
        requires { seat < seat_count self.old }
        ensures step { Steps self.old self.new seat (Gives result) }
        ensures succeeds { IfSome (seat_end self.old seat)
            (λ p. IfSome (slice_get (left p) 0) (λ o. may_join (work_of p) o ≡ true → length (work_of p) < room p
            → result ≡ Some o)) }
    {
        self.seat_ends[seat].next()
    }

    /// Ends the order of a seat that is in work at this place, the oldest at 0, with a code, and a record where
    /// it asked for one. An order that had ended stays unchanged.
    ///
    /// The seat is told once all its older orders have ended too; until then the order stays in work.
    pub fn answer(&mut self, seat: usize, place: usize, code: u16, asked: Option<Record>)
        requires seat { seat < seat_count self.old }
        requires work { IfSome (seat_end self.old seat) (λ p. place < length (work_of p)) }
        ensures { Steps self.old self.new seat (Answers place code asked) }
    {
        self.seat_ends[seat].answer_at(place, code, asked);
    }

    /// Notes which command the newest order in work of a seat became.
    pub fn mark(&mut self, seat: usize, domain: u16, epoch: u64, number: u32)
        requires seat { seat < seat_count self.old }
        requires work { IfSome (seat_end self.old seat) (λ p. 0 < length (work_of p)) }
        ensures { Steps self.old self.new seat (Marks (record { domain = domain; epoch = epoch; number = number })) }
    {
        self.seat_ends[seat].mark(Mark {
            domain,
            epoch,
            number,
        });
    }

    /// Returns the order of a seat that is in work at this place, the oldest at 0, and the command that it became.
    pub fn in_work(&self, seat: usize, place: usize) -> Option<Work>
        requires { seat < seat_count self.now }
        ensures { IfSome (seat_end self.now seat) (λ p. result
            ≡ option_map (λ e. e.work) (slice_get (work_of p) place)) }
    {
        self.seat_ends[seat].in_work(place)
    }

    /// Returns the place of a seat's newest order in work, the oldest at 0; none if none is in work.
    pub fn newest(&self, seat: usize) -> Option<usize>
        requires { seat < seat_count self.now }
        ensures { IfSome (seat_end self.now seat) (λ p. result ≡ newest_of (work_of p)) }
    {
        self.seat_ends[seat].newest()
    }

    /// Returns the place of the order in work of a seat that an answer is of, the oldest such: of an issued command the
    /// order that became this command, of any other answer an order that is the same.
    pub fn place_of(&self, seat: usize, order: Order, mark: Option<Mark>) -> Option<usize>
        requires { seat < seat_count self.now }
        ensures { IfSome (seat_end self.now seat) (λ p. IsPlaceOf order mark (work_of p) result) }
    {
        self.seat_ends[seat].place_of(order, mark)
    }

    /// Compares the lists of a seat that has ended with those of the desk: the orders given begin those submitted,
    /// and what the seat was told begins what was answered. It is always so.
    ///
    /// From then on the desk has seen every order that is left, and knows which places are free: what is left follows
    /// without another meeting.
    pub fn meet(&mut self, seat: usize, finished: &mut Finished) -> bool
        requires seat { seat < seat_count self.old }
        requires ended { IsEndedAt finished.old self.old seat }
        ensures met { IfSome (seat_end self.new seat) (Met finished.new) }
        ensures is_met { IsTrue result }
        ensures step { Steps self.old self.new seat (Stays finished.old finished.new) }
        ensures ended { IsEndedAt finished.new self.new seat }
    {
        self.seat_ends[seat].meet(finished)
    }
}
