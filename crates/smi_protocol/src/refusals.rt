//! Each refusal of an order or a report, and each code with which a command can end, as laws: each
//! function does nothing, and its clauses are examples. Codes: docs/PROTOCOL.md, "Orders" and
//! "Outcomes".

ghost use Rattle.std.specs.Prelude.{◌≡◌, [], ◌∷◌};
ghost use Rattle.smi_grant.specs.declared.Command.TheVariants as command;
ghost use Rattle.smi_command.specs.declared.Link.TheVariants.{Out, Taking, Held, Dropping};
ghost use Rattle.smi_rows.specs.declared.Mode.TheVariants as mode;
ghost use Rattle.smi_protocol.specs.Happening.{Orders, Reports};
ghost use Rattle.smi_protocol.specs.Opening.{first_opened};
ghost use Rattle.smi_protocol.specs.Step.{after};
ghost use Rattle.smi_protocol.specs.declared.event.Heard.TheVariants.{Refused};
ghost use Rattle.smi_protocol.specs.declared.order.Order.TheVariants.{Take, Drop, Do, Include, Exclude, Manual};
ghost use Rattle.smi_protocol.specs.declared.order.Order.TheVariants.{Ignore, Ask, Watch, Unwatch};
ghost use Rattle.smi_protocol.specs.examples.WorkedTree.{worked_tree, A, B, ANN, BOB, DCS, TPC, HV};
ghost use Rattle.smi_protocol.specs.examples.WideTree.{deep_tree, SEC};
ghost use Rattle.smi_protocol.specs.examples.Orders.{linked, told_at_once, outcomes, pending};

/// Shows 26: the operator is another station's, or the tree does not have what the order names.
pub fn orders_of_what_is_not_here()
    ensures operator { (after worked_tree A (first_opened worked_tree A) (Orders BOB (Take DCS))).heard ≡ Refused 26 }
    ensures domain { told_at_once worked_tree (linked worked_tree (Out 0)) (Take 3) ≡ 26 ∷ [] }
    ensures no_domain { told_at_once worked_tree (linked worked_tree (Out 0)) (Ask 0) ≡ 26 ∷ [] }
    ensures action { told_at_once worked_tree (linked worked_tree (Held 1 0 [])) (Do DCS 4) ≡ 26 ∷ [] }
    ensures target { told_at_once worked_tree (linked worked_tree (Held 1 0 [])) (Include DCS 3) ≡ 26 ∷ [] }
    ensures object { told_at_once worked_tree (linked worked_tree (Out 0)) (Watch 4) ≡ 26 ∷ [] }
    ensures before_all { told_at_once worked_tree (linked worked_tree (Out 0)) (Exclude DCS 3) ≡ 26 ∷ [] }
{}

/// Shows 26: the device is kept by another station, or the tree does not have it or its state.
pub fn reports_of_what_is_not_here()
    ensures kept_by_another { (after worked_tree A (first_opened worked_tree A) (Reports 1 2)).heard ≡ Refused 26 }
    ensures device { (after worked_tree B (first_opened worked_tree B) (Reports 2 2)).heard ≡ Refused 26 }
    ensures no_device { (after worked_tree B (first_opened worked_tree B) (Reports 0 2)).heard ≡ Refused 26 }
    ensures state { (after worked_tree B (first_opened worked_tree B) (Reports 1 5)).heard ≡ Refused 26 }
{}

/// Shows 21: the domain is not held.
pub fn orders_without_a_grant()
    ensures out { told_at_once worked_tree (linked worked_tree (Out 0)) (Drop DCS) ≡ 21 ∷ [] }
    ensures taking { told_at_once worked_tree (linked worked_tree (Taking 0)) (Do DCS 1) ≡ 21 ∷ [] }
    ensures dropping { told_at_once worked_tree (linked worked_tree (Dropping 1)) (Manual DCS TPC) ≡ 21 ∷ [] }
    ensures dropped { told_at_once worked_tree (linked worked_tree (Dropping 1)) (Drop DCS) ≡ 21 ∷ [] }
{}

/// Shows 22: eight commands are pending, or one if the domain is to be given back.
pub fn orders_while_commands_are_pending()
    ensures ninth { told_at_once worked_tree (linked worked_tree (Held 1 8 (pending 8))) (Do DCS 1) ≡ 22 ∷ [] }
    ensures drop { told_at_once worked_tree (linked worked_tree (Held 1 8 (pending 8))) (Drop DCS) ≡ 22 ∷ [] }
    ensures drop_with_one { told_at_once worked_tree (linked worked_tree (Held 1 1 (pending 1))) (Drop DCS) ≡ 22 ∷ [] }
    ensures eighth { told_at_once worked_tree (linked worked_tree (Held 1 7 (pending 7))) (Do DCS 1) ≡ [] }
    ensures before_24 { told_at_once worked_tree (linked worked_tree (Held 1 1000000 (pending 8))) (Do DCS 1) ≡ 22
        ∷ [] }
{}

/// Shows 23: the take is under way or over. 24: the numbers of the grant are used up.
pub fn orders_out_of_turn()
    ensures taking { told_at_once worked_tree (linked worked_tree (Taking 0)) (Take DCS) ≡ 23 ∷ [] }
    ensures held { told_at_once worked_tree (linked worked_tree (Held 1 0 [])) (Take DCS) ≡ 23 ∷ [] }
    ensures dropping { told_at_once worked_tree (linked worked_tree (Dropping 1)) (Take DCS) ≡ 23 ∷ [] }
    ensures numbers { told_at_once worked_tree (linked worked_tree (Held 1 1000000 [])) (Ignore DCS TPC) ≡ 24 ∷ [] }
    ensures last_number { told_at_once worked_tree (linked worked_tree (Held 1 999999 [])) (Do DCS 1) ≡ [] }
{}

/// Shows 1 to 4, 6 and 7, if the command ends at once.
#[tactic(auto, unfolding(smi_tree::specs::Hierarchy::ancestors))]
pub fn outcomes_at_once()
    ensures not_accepted { outcomes worked_tree (Out 0) mode.Included (command.Do 3) ≡ 1 ∷ [] }
    ensures not_below { outcomes worked_tree (Out 0) mode.Included (command.Include DCS) ≡ 2 ∷ [] }
    ensures included_already { outcomes worked_tree (Held 1 0 []) mode.Included (command.Include TPC) ≡ 3 ∷ [] }
    ensures manual_already { outcomes worked_tree (Held 1 0 []) mode.Manual (command.Manual TPC) ≡ 3 ∷ [] }
    ensures not_held { outcomes worked_tree (Out 0) mode.Included (command.Exclude TPC) ≡ 4 ∷ [] }
    ensures no_mode { outcomes worked_tree (Out 0) mode.Included (command.Ignore TPC) ≡ 4 ∷ [] }
    ensures no_further { outcomes deep_tree (Out 0) mode.Included (command.Include SEC) ≡ 6 ∷ [] }
    ensures not_through_manual { outcomes deep_tree (Held 1 0 []) mode.Manual (command.Include SEC) ≡ 6 ∷ [] }
    ensures numbers { outcomes worked_tree (Held 1 1000000 []) mode.Included (command.Do 1) ≡ 7 ∷ [] }
    ensures done { outcomes worked_tree (Out 0) mode.Included (command.Do 1) ≡ 0 ∷ [] }
{}
