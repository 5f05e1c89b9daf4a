//! The seats of a station whose operators have several each.

ghost use Rattle.std.specs.Prelude.{◌≡◌, IfOk};
ghost use Rattle.smi_operator.specs.Lanes.{by_seat};

use std::alloc::{AllocError, Global};

/// How many seats an operator has if one order is not to hold up another: so many wait side by side.
pub const LANES: usize = 7;

/// Returns the operators by seat: each of them seven times, in their order.
///
/// Its error is that memory was refused.
pub fn operators_by_seat(alloc: Global, operators: &[u16]) -> Result<Vec<u16>, AllocError>
    ensures { IfOk result (λ r. r.items ≡ by_seat operators.now) }
{
    let mut seats = Vec::new(alloc);
    for operator in operators {
        let it = *operator;
        seats.extend_from_slice(&[it, it, it, it, it, it, it])?;
    }
    Ok(seats)
}
