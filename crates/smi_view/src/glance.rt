//! The end of a board that a thread reads.

ghost use Rattle.std.specs.Prelude.{◌≡◌, IfOk, OnOk, OnErr, Some, IfSome};
ghost use mathlib.Core.List.{IsPrefix};
ghost use Rattle.smi_view.specs.Rows.{last_row};
ghost use Rattle.smi_view.specs.Pages.{name_of};
ghost use Rattle.left_right.specs.Sides.{view};

use crate::history::{BoardId, Rows};
use crate::page::HistoryId;
use crate::rule::{Finds, OneHistory};
use crate::sheet::BoardCopy;
use core::mem::replace_with;
use left_right::reader::Reader;
use smi_grant::Shown;
use std::marker::Model;
use thiserror::Error;

pub(crate) type BoardReader = Reader<BoardCopy, Option<HistoryId>, OneHistory>;

/// The board gave no reading: it is closed, or its copy could not be held.
#[derive(Clone, Copy, Debug, PartialEq, Eq, Error)]
#[error("the board is closed, or gives no reading now")]
pub struct NoReading;

/// What a board had published when this was told, for a glance of that board to learn. It is one number,
/// and may go to another thread by any channel.
///
/// Contracts see it as that list of rows.
#[derive(Drop)]
pub struct News<J: BoardId> {
    pub(crate) rows: Rows<J>,
}

impl<J: BoardId> Model for News<J> {
    ghost use Rattle.std.specs.Prelude.{List};
    ghost use Rattle.smi_grant.specs.declared.state.Shown.{Shown};

    ghost Value = { List Shown };

    ghost view = { λ n. n.rows };
}

/// The end of a board that one thread reads, with what that thread has seen of it and was told.
///
/// Contracts see it as these two lists: the publications that its last reading was of, and the longest
/// that it was told.
#[derive(Drop)]
pub struct Glance<J: BoardId> {
    pub(crate) reader: BoardReader,
    pub(crate) seen: Rows<J>,
    pub(crate) told: Rows<J>,
}

impl<J: BoardId> Model for Glance<J> {
    ghost use Rattle.std.specs.Prelude.{◌≡◌, Some};
    ghost use Rattle.left_right.specs.Sides.{view as known_at};
    ghost use Rattle.smi_view.specs.Pages.{name_of};
    ghost use Rattle.smi_view.specs.Shows.{GlanceShows};

    ghost Value = { GlanceShows };

    ghost view = { λ g. record { seen = g.seen; told = g.told } };

    ghost invariant = { λ g. known_at g.reader.place ≡ Some (name_of J.book) };
}

impl<J: BoardId> News<J> {
    ghost use Rattle.std.specs.Prelude.{◌↔◌, IsTrue};

    /// Returns true if a glance of that board has seen nothing but the beginning of these publications. It may have
    /// seen more, if they were told before its last reading.
    pub fn meet(&self, glance: &Glance<J>) -> bool
        ensures { IsTrue result ↔ IsPrefix glance.now.seen self.now }
    {
        glance.seen.begin(&self.rows)
    }
}

/// Returns a reading of an object, and the rows that it is of, if these begin with what was seen and told.
fn look<J: BoardId>(
    reader: BoardReader,
    object: u16,
    seen: &Rows<J>,
    told: &Rows<J>,
) -> (BoardReader, Option<(Rows<J>, Option<Shown>)>)
    requires { view reader.place ≡ Some (name_of J.book) }
    ensures view { view result.0.place ≡ Some (name_of J.book) }
    ensures seen { IfSome result.1 (λ r. IsPrefix seen.now r.0) }
    ensures told { IfSome result.1 (λ r. IsPrefix told.now r.0) }
    ensures row { IfSome result.1 (λ r. r.1 ≡ last_row object r.0) }
{
    match reader.enter_as::<Finds>() {
        Ok(reading) => {
            let sheet = reading.get();
            let rows = sheet.mark.rows::<J>();
            let shown = sheet.shown(object);
            let reader = reading.leave();
            if seen.begin(&rows) && told.begin(&rows) {
                (reader, Some((rows, shown)))
            } else {
                (reader, None)
            }
        }
        Err(reader) => (reader, None),
    }
}

impl<J: BoardId> Glance<J> {
    /// Returns the last row of an object among some of the publications, which begin with all that this glance has
    /// seen and was told; none if they have no row of it. They are what it has seen from then on.
    ///
    /// `NoReading` changes nothing.
    pub fn read(&mut self, object: u16) -> Result<Option<Shown>, NoReading>
        ensures row { IfOk result (λ shown. shown ≡ last_row object self.new.seen) }
        ensures seen { OnOk result (IsPrefix self.old.seen self.new.seen) }
        ensures covers { OnOk result (IsPrefix self.old.told self.new.seen) }
        ensures told { self.new.told ≡ self.old.told }
        ensures err { OnErr result (self.new.seen ≡ self.old.seen) }
    {
        let Glance { reader, seen, told } = self;
        let found = replace_with(
            reader,
            (object, &*seen, &*told),
            |reader, (object, seen, told)| look(reader, object, seen, told),
        );
        let Some((rows, shown)) = found else {
            return Err(NoReading);
        };
        *seen = rows;
        Ok(shown)
    }

    /// Has no reading from now on have less than what was told.
    pub fn learn(&mut self, news: News<J>)
        ensures news { IsPrefix news self.new.told }
        ensures told { IsPrefix self.old.told self.new.told }
        ensures seen { self.new.seen ≡ self.old.seen }
    {
        let News { rows } = news;
        if self.told.begin(&rows) {
            self.told = rows;
        }
    }
}
