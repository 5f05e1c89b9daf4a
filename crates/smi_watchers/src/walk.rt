use crate::steps::Steps;
use crate::watcher::Watcher;
use std::marker::Model;

/// The watchers of one object in the order of their list, from [`Watchers::walk`](crate::Watchers::walk).
///
/// Contracts see the list of those that are still to come.
#[derive(Drop)]
pub struct Walk<'a> {
    pub(crate) steps: Steps<'a>,
}

impl<'a> Model for Walk<'a> {
    ghost use Rattle.std.specs.Prelude.{List, map};
    ghost use Rattle.smi_watchers.specs.declared.watcher.Watcher.{Watcher};
    ghost use Rattle.smi_watchers.specs.Kept.{watcher_in};

    ghost Value = { List Watcher };

    ghost view = { λ w. map watcher_in w.steps };
}

impl<'a> Iterator for Walk<'a> {
    ghost use Rattle.std.specs.Iterator.{YieldsFirst, item_count};

    type Item = Watcher;

    ghost next_gives = { YieldsFirst (λ s. s) };

    ghost remaining = { item_count (λ s. s) };

    fn next(&mut self) -> Option<Watcher> {
        let (_, cell) = self.steps.next()?;
        Some(Watcher {
            station: cell.station,
            echo: cell.echo,
        })
    }
}
