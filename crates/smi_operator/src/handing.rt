//! Hands answers out in the order in which their orders were given.

ghost use Rattle.std.specs.Prelude.{◌≡◌, ◌≤◌, ◌+◌, ◌++◌, length};
ghost use Rattle.rtrb.specs.Ring.{sent, known_free, SameProducer};
ghost use Rattle.smi_operator.specs.Working.{first_told, handed_out, still_in_work};

use crate::work::{MOST_WORK, WorkSlot};
use arrayvec::ArrayVec;
use rtrb::Producer;
use smi_protocol::Told;

/// Returns the answer of the oldest order, if it has ended.
fn first_told(work: &[WorkSlot]) -> Option<Told>
    ensures { result ≡ first_told work.now }
{
    work.first()?.told_if_ended()
}

/// Hands out the answers of the oldest orders, up to one that has not ended.
pub(crate) fn hand_out(work: &mut ArrayVec<WorkSlot, MOST_WORK>, answers: &mut Producer<Told>)
    requires { length work.old.items ≤ known_free answers.old }
    ensures ring { SameProducer answers.old answers.new }
    ensures sent { sent answers.new ≡ sent answers.old ++ handed_out work.old.items }
    ensures work { work.new.items ≡ still_in_work work.old.items }
    ensures room { length work.new.items ≤ known_free answers.new }
    ensures used { known_free answers.new + length (handed_out work.old.items) ≡ known_free answers.old }
{
    while let Some(told) = first_told(work.as_slice()) {
        answers.push_reserved(told);
        work.remove(0);
    }
}
