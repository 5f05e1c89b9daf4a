//! A law of the boards of nodes.

ghost use Rattle.std.specs.Prelude.{ℕ, Option};
ghost use Rattle.smi_grant.specs.declared.state.Shown.{Shown};
ghost use Rattle.smi_node.specs.Rising.{IsBlank, IsRisen};

use smi_view::{Board, BoardId};

/// States that a board on which nothing was put goes back of no object, whatever its station was shown. So each board
/// of a node goes back of none (`rises` of [`serve`]), and of two readings the later is no older (`readings_rise` of
/// `smi_view`).
///
/// [`serve`]: crate::serve
pub fn blank_boards_are_risen<J: BoardId>(board: &Board<J>)
    ensures { IsBlank board.now → (shown : ℕ → Option Shown) → IsRisen shown board.now }
{
    let _ = board;
}
