//! What a journal was told, and what it wrote, as contracts alone see it.

use smi_station_output::Out;
use std::marker::Model;
use std::snapshot::Snapshot;

/// One thing that a journal did.
#[derive(Drop)]
pub enum Noting {
    /// It began a file with this text.
    Begins {
        opening: Snapshot<Vec<u8>>,
    },
    /// It was told a step, and wrote each entry of it with this prefix, after what was typed before.
    Writes {
        typed: Snapshot<Vec<u8>>,
        prefix: Snapshot<Vec<u8>>,
        handed: Snapshot<Out>,
    },
    /// It was told a step, and keeps the same until it writes the next one.
    Keeps {
        typed: Snapshot<Vec<u8>>,
        prefix: Snapshot<Vec<u8>>,
        handed: Snapshot<Out>,
    },
    /// It was told a step that has left nothing to write.
    Skips {
        handed: Snapshot<Out>,
    },
    /// It was told a step that is written nowhere, or in part in a file that has ended by that.
    Loses {
        handed: Snapshot<Out>,
    },
}

/// What a journal did last. It remembers what came before that only as contracts see it, so it takes no more room than
/// the first.
#[derive(Drop)]
pub(crate) struct NotingChain {
    pub(crate) before: Option<Snapshot<NotingChain>>,
    pub(crate) newest: Noting,
}

impl Model for NotingChain {
    ghost use Rattle.std.specs.Prelude.{List, [], ◌∷◌, length, option_map, unwrap_or};
    ghost use Rattle.std.proofs.Common.{arith};
    ghost use Rattle.smi_journal.specs.declared.notes.Noting.{Noting};

    ghost Value = { List Noting };

    ghost view = { λ c. c.newest ∷ unwrap_or (option_map (λ earlier. earlier.value) c.before) [] };

    ghost size = { λ notings. length notings };

    ghost size_decreases = { λ a h. Prim.grind (arith) };
}
