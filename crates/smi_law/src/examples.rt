//! What the definitions say of one small case, as laws: each function does nothing, and its clauses are examples.

ghost use Rattle.std.specs.Prelude.{◌≡◌, [], ◌∷◌, false};
ghost use Rattle.smi_protocol.specs.examples.WorkedTree.{worked_tree, ANN, DCS};
ghost use Rattle.smi_law.specs.Answered.{entries_left, told_about};
ghost use Rattle.smi_law.specs.Example.{asked_again, busy_alone, lost_take, stopped_alone, taken};
ghost use Rattle.smi_law.specs.Rest.{Each, IsAtRest, led};
ghost use Rattle.smi_law.specs.UnderWay.{under_way};

/// Shows that a lost take is made good. A tick sends it again, it comes, and so does its answer: nothing is under way
/// any more, and the operator was told once.
pub fn lost_take_is_made_good()
    ensures waits { under_way worked_tree lost_take ≡ 1 }
    ensures allowed { Each false worked_tree lost_take asked_again }
    ensures rests { under_way worked_tree (led worked_tree lost_take asked_again) ≡ 0 }
    ensures told { told_about ANN DCS (entries_left worked_tree lost_take asked_again) ≡ taken ∷ [] }
{}

/// Tells which worlds are not at rest: one with a take under way, one with a domain at work though no holder waits for
/// it, and one with a station that has stopped.
pub fn these_are_not_at_rest()
    ensures waiting { IsAtRest worked_tree lost_take → ⊥ }
    ensures working { IsAtRest worked_tree busy_alone → ⊥ }
    ensures stopped { IsAtRest worked_tree stopped_alone → ⊥ }
{}
