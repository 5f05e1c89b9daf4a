//! Reads what the board of a station shows, for the line `show`. `service.rt` has one, and `smi_console` gives it a
//! `Glance`, the reader's end of a board (docs/PROTOCOL.md, "The board").

ghost use Rattle.std.specs.Prelude.{◌≡◌, ◌⊎◌, None};
ghost use mathlib.Core.List.{IsPrefix};
ghost use Rattle.smi_view.specs.Rows.{last_row};

use smi_grant::Shown;
use smi_view::{BoardId, Glance};

/// A reader of a station's board.
///
/// Contracts see what a glance of that board has seen and was told. The service is over any such reader, because a
/// function that names the board of its glance is expensive to prove.
pub trait StateReader {
    ghost use Rattle.smi_view.specs.Shows.{GlanceShows};

    ghost shows: { Self → GlanceShows };

    /// Returns the state that the board shows of an object, by its number from 1. None if it shows none, or gave no
    /// reading.
    fn shown(&mut self, object: u16) -> Option<Shown>
        ensures shown { (result ≡ None) ⊎ (result ≡ last_row object (shows self.new).seen) }
        ensures rises { IsPrefix (shows self.old).seen (shows self.new).seen };
}

impl<J: BoardId> StateReader for Glance<J> {
    ghost shows = { λ g. g };

    fn shown(&mut self, object: u16) -> Option<Shown> {
        match self.read(object) {
            Ok(shown) => shown,
            // A board that gave no reading is told as one that shows nothing: `board TPC none`.
            Err(_) => None,
        }
    }
}
