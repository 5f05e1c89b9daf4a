//! Traces that no safe world leaves, as laws: each function does nothing, and its clause says that a short trace
//! of the worked tree (specs/NotSafe.antt) is not safe. `Safe` without one of its conditions would let one through.

ghost use Rattle.smi_law.specs.NotSafe as trace;
ghost use Rattle.smi_law.specs.NotSafe.{IsNotSafe};

/// Tells which grants are wrong: granted while it is held, granted at an even epoch, freed while its holder has not
/// let go, let go of without being held, learned of twice, granted to a domain that is not the parent or to an
/// operator that the tree does not have, and held by two.
pub fn grants_may_go_wrong()
    ensures granted_twice { IsNotSafe trace.granted_twice }
    ensures even_epoch { IsNotSafe trace.granted_at_an_even_epoch }
    ensures freed_before_let_go { IsNotSafe trace.freed_before_let_go }
    ensures not_held { IsNotSafe trace.let_go_before_learned }
    ensures learned_twice { IsNotSafe trace.learned_twice }
    ensures granted_to_no_parent { IsNotSafe trace.granted_to_no_parent }
    ensures granted_to_a_stranger { IsNotSafe trace.granted_to_a_stranger }
    ensures two_commanders { IsNotSafe trace.two_commanders }
{}

/// Tells which runs are wrong: not ordered, ordered twice under one number, handed on to a manual child, under a parent
/// that was released, whose command has ended or that does not hand the action on, of a holder that has let go, before
/// their turn, and twice.
pub fn runs_may_go_wrong()
    ensures not_ordered { IsNotSafe trace.run_not_ordered }
    ensures ordered_twice { IsNotSafe trace.ordered_twice }
    ensures manual_child { IsNotSafe trace.through_a_manual_child }
    ensures released_parent { IsNotSafe trace.run_under_a_released_parent }
    ensures ended_parent { IsNotSafe trace.run_after_its_parents_end }
    ensures not_handed_on { IsNotSafe trace.run_of_what_is_not_handed_on }
    ensures let_go { IsNotSafe trace.run_after_letting_go }
    ensures out_of_order { IsNotSafe trace.out_of_order }
    ensures twice { IsNotSafe trace.run_twice }
{}

/// Tells which states are wrong: never passed through, shown twice, older than what was shown before, since the last
/// start or before it, and a version of an object that goes back.
pub fn states_may_go_wrong()
    ensures not_passed { IsNotSafe trace.shown_but_not_passed }
    ensures twice { IsNotSafe trace.shown_twice }
    ensures older { IsNotSafe trace.older_than_shown_before }
    ensures older_after_a_start { IsNotSafe trace.older_after_a_start }
    ensures goes_back { IsNotSafe trace.version_that_goes_back }
{}
