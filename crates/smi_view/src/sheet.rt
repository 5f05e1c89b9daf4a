//! One copy of the board, and what it takes in.

ghost use Rattle.std.specs.Prelude.{◌≡◌, []};
ghost use Rattle.smi_view.specs.Entries.{entries_of};
ghost use Rattle.smi_view.specs.Rows.{last_row};
ghost use Rattle.smi_view.specs.Pages.{page_of, turned};

use crate::history::HistoryMark;
use crate::page::CopyMeaning;
use left_right::Absorb;
use smi_grant::Shown;
use std::alloc::{AllocError, Global};
use std::collections::BTreeMap;

/// A row, with the rows that end with it.
#[derive(Drop)]
pub struct MarkedRow {
    pub(crate) row: Shown,
    pub(crate) mark: HistoryMark,
}

/// The last row of each object, and which rows these are of.
#[derive(Drop)]
pub struct BoardCopy {
    last: BTreeMap<u16, Shown>,
    pub(crate) mark: HistoryMark,
}

impl BoardCopy {
    /// Returns a copy with no row of any object.
    pub(crate) fn new(alloc: Global, mark: HistoryMark) -> BoardCopy
        ensures entries { result.last.entries ≡ [] }
        ensures mark { result.mark ≡ mark }
    {
        BoardCopy {
            last: BTreeMap::new(alloc),
            mark,
        }
    }

    /// Returns the last row of an object.
    pub(crate) fn shown(&self, object: u16) -> Option<Shown>
        requires { self.now.last.entries ≡ entries_of self.now.mark.seen.log }
        ensures { result ≡ last_row object self.now.mark.seen.log }
    {
        self.last.get(&object).copied()
    }
}

impl Absorb<MarkedRow> for BoardCopy {
    type State = CopyMeaning;

    ghost state = { page_of };

    ghost applied = { turned };

    fn absorb_first(
        &mut self,
        operation: &MarkedRow,
        _other: &BoardCopy,
    ) -> Result<(), AllocError> {
        let BoardCopy { last, mark } = self;
        let Ok(_) = last.insert(operation.row.object, operation.row) else {
            return Err(AllocError);
        };
        *mark = operation.mark.again();
        Ok(())
    }
}
