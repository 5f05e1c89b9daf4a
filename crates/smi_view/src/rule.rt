//! The rule of the two copies: the map of each has the last rows of what its mark says, and the mark is
//! of the history that each thread knows of.

ghost use Rattle.std.specs.Prelude.{None};
ghost use Rattle.smi_view.specs.Pages.{Keeps, Finds};

use crate::page::HistoryId;
use crate::sheet::BoardCopy;
use atomic_table::{Join, Split};
use crossbeam_utils::rule::{Outcome, Protocol};

/// The rule that every step on a board keeps.
pub struct OneHistory;

impl Protocol<BoardCopy, Option<HistoryId>> for OneHistory {
    ghost holds = { Keeps };

    ghost first = { None };
}

/// What a reading and a publication show: which history it is.
pub struct Finds;

impl Outcome<BoardCopy, Option<HistoryId>> for Finds {
    ghost then = { Finds };
}

/// What the writer tells a new glance, and this learns: which history it is.
pub struct TellsHistory;

impl Split<Option<HistoryId>> for TellsHistory {
    ghost left = { λ v. v };

    ghost right = { λ v. v };
}

impl Join<Option<HistoryId>> for TellsHistory {
    ghost both = { λ v w. w };

    ghost spent = { None };
}
