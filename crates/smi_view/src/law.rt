//! What follows for a reader of a board.

ghost use Rattle.std.specs.Prelude.{IfOk, IfSome};
ghost use Rattle.smi_view.specs.Rising.{IsReadAfter, IsRising};

use crate::board::Board;
use crate::glance::{Glance, NoReading};
use crate::history::BoardId;
use smi_grant::Shown;

/// Reads an object twice, and answers both readings; none if the board had not published what was read.
///
/// If the versions of each object rise in what was published, as those that a station shows do, the second reading
/// is no older than the first.
pub fn readings_rise<J: BoardId>(
    board: &Board<J>,
    glance: &mut Glance<J>,
    object: u16,
) -> Result<Option<(Option<Shown>, Option<Shown>)>, NoReading>
    ensures { IsRising board.now.publications
        → IfOk result (λ found. IfSome found (λ both. IsReadAfter both.0 both.1)) }
{
    let first = glance.read(object)?;
    let second = glance.read(object)?;
    if board.meet(glance) {
        Ok(Some((first, second)))
    } else {
        Ok(None)
    }
}
