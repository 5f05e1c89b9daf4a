//! Publishes what a step shows.

ghost use Rattle.std.specs.Prelude.{OnErr, OnOk};
ghost use Rattle.smi_node.specs.Shown.{Publishes, Refuses};

use smi_grant::Shown;
use smi_view::{Board, BoardId};
use std::alloc::AllocError;
use std::sync::Wait;

/// Puts the state that a step showed, if any, on the board and publishes it.
///
/// It fails only if the board was refused memory: nothing was published then.
pub(crate) fn publish<J: BoardId, R: Wait>(
    rt: &R,
    board: &mut Board<J>,
    shown: Option<Shown>,
) -> Result<(), AllocError>
    ensures published { OnOk result (Publishes shown board.old board.new) }
    ensures refused { OnErr result (Refuses shown board.old board.new) }
{
    let Some(shown) = shown else {
        return Ok(());
    };
    match board.put(shown) {
        Ok(()) => board.publish(rt),
        Err(fault) => Err(fault),
    }
}
