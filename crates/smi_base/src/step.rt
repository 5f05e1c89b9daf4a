use std::marker::Model;
use std::snapshot::Snapshot;

/// One step of a count. It remembers the step before it, if there is one, only as contracts see it,
/// which is how many steps came before that one. So it has no more bytes than the first.
#[derive(Drop)]
pub(crate) struct Step {
    pub(crate) before: Option<Snapshot<Step>>,
}

impl Model for Step {
    ghost use Rattle.std.specs.Prelude.{ℕ, ◌+◌, option_map, unwrap_or};
    ghost use Rattle.std.proofs.Common.{arith};

    ghost Value = { ℕ };

    ghost view = { λ s. unwrap_or (option_map (λ earlier. earlier.value + 1) s.before) 0 };

    ghost size = { λ n. n };

    ghost size_decreases = { λ a h. Prim.grind (arith) };
}
