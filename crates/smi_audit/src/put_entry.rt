//! What was put into journals, as contracts alone see it.

use smi_protocol::Entry;
use std::marker::Model;
use std::snapshot::Snapshot;

/// An entry that was put into the journal of a number. It remembers those before it only as contracts see them, so it
/// takes no more room than the first.
#[derive(Drop)]
pub(crate) struct PutEntry {
    pub(crate) before: Option<Snapshot<PutEntry>>,
    pub(crate) number: usize,
    pub(crate) entry: Entry,
}

impl Model for PutEntry {
    ghost use Rattle.std.specs.Prelude.{ℕ, List, [], ◌∷◌, length, option_map, unwrap_or};
    ghost use Rattle.std.proofs.Common.{arith};
    ghost use Rattle.smi_protocol.specs.declared.Entry.{Entry};

    ghost Value = { List (ℕ × Entry) };

    ghost view = { λ p. (p.number, p.entry) ∷ unwrap_or (option_map (λ earlier. earlier.value) p.before) [] };

    ghost size = { λ puts. length puts };

    ghost size_decreases = { λ a h. Prim.grind (arith) };
}
