//! The worked examples of docs/EXAMPLES.md that go through several steps, as laws: each function does nothing, and its
//! clause says that the schedule over examples/worked.tree makes, line by line, the trace that the example says.

ghost use Rattle.std.specs.Prelude.{◌≡◌, [], ◌∷◌, ◌++◌, map, option_map, Some, Ok};
ghost use Rattle.smi_grant.specs.declared.Command.TheVariants as command;
ghost use Rattle.smi_tree.specs.File.{tree_of};
ghost use Rattle.smi_tree.specs.Lawful.{IsTree};
ghost use Rattle.smi_rows.specs.Store.{saved};
ghost use Rattle.smi_protocol.specs.Happening.{answer, answer_asked, answer_command, mark};
ghost use Rattle.smi_protocol.specs.Opening.{first_opened, opening_entries};
ghost use Rattle.smi_protocol.specs.Played.{Makes, outcome_after, shown_of};
ghost use Rattle.smi_protocol.specs.Schedule.{trace_of};
ghost use Rattle.smi_protocol.specs.declared.item.Deed.TheVariants as deed;
ghost use Rattle.smi_protocol.specs.SavedRows.{key};
ghost use Rattle.smi_protocol.specs.declared.entry.Entry.TheVariants.{Booted};
ghost use Rattle.smi_protocol.specs.declared.order.Order.TheVariants.{Do, Take};
ghost use Rattle.smi_protocol.specs.examples.WorkedTree.{worked_file, worked_tree, A, B, BOB, DCS, TPC, HV, OFF};
ghost use Rattle.smi_protocol.specs.examples.WorkedTree.{CONFIGURE, START};
ghost use Rattle.smi_protocol.specs.examples.Words.{passed};
ghost use Rattle.smi_protocol.specs.examples.Grants as grants;
ghost use Rattle.smi_protocol.specs.examples.Commands as commands;
ghost use Rattle.smi_protocol.specs.examples.Failing as failing;

/// States that the tree of all examples is what the file examples/worked.tree says, and that it is a tree.
pub fn worked_file()
    ensures read { tree_of worked_file ≡ Ok worked_tree }
    ensures tree { IsTree worked_tree }
{}

/// Shows how the stations begin.
pub fn opening()
    ensures first { opening_entries worked_tree A (first_opened worked_tree A) ≡ Booted A 1 ∷ passed DCS 1 0 OFF ∷ [] }
    ensures second { opening_entries worked_tree B (first_opened worked_tree B) ≡ Booted B 1 ∷ passed TPC 1 0 OFF
        ∷ passed HV 1 0 OFF ∷ [] }
{}

/// Shows that the keeper stops after the save of a grant, and answers the take when it comes again.
pub fn saved_but_not_told()
    ensures { Makes worked_tree grants.saved_but_not_told }
{}

/// Shows a take, a drop, and the old take once more.
#[tactic(auto, unfolding(smi_tree::specs::Hierarchy::ancestors))]
pub fn take_and_drop()
    ensures { Makes worked_tree grants.take_and_drop }
{}

/// Shows a record that ends a take and answers a question: what the link tells comes before what was asked.
#[tactic(auto, unfolding(smi_tree::specs::Hierarchy::ancestors))]
pub fn take_and_question()
    ensures played { Makes worked_tree grants.take_and_question }
    ensures answers { option_map (λ o. o.out.answers)
        (outcome_after worked_tree grants.taking_and_asking (deed.Deliver 3))
        ≡ Some (answer BOB (Take TPC) 0 ∷ answer_asked BOB TPC grants.held_by_BOB ∷ []) }
{}

/// Shows that the take that comes first is granted, and that the other is told who has it.
#[tactic(auto, unfolding(smi_tree::specs::Hierarchy::ancestors))]
pub fn two_operators()
    ensures { Makes worked_tree grants.two_operators }
{}

/// Shows that a child that another holds is not included, and is once it is free.
#[tactic(auto, unfolding(smi_tree::specs::Hierarchy::ancestors))]
pub fn included_once_free()
    ensures { Makes worked_tree grants.included_once_free }
{}

/// Shows an action that is not accepted, and a target that is not below.
#[tactic(auto, unfolding(smi_tree::specs::Hierarchy::ancestors))]
pub fn refused_commands()
    ensures { Makes worked_tree grants.refused_commands }
{}

/// Shows that a command goes through the hierarchy.
#[tactic(auto, unfolding(smi_tree::specs::Hierarchy::ancestors))]
pub fn configured()
    ensures { Makes worked_tree commands.configured }
{}

/// Shows that there is no drop while a command is pending.
#[tactic(auto, unfolding(smi_tree::specs::Hierarchy::ancestors))]
pub fn no_drop_while_pending()
    ensures { Makes worked_tree commands.no_drop_while_pending }
{}

/// Shows that a repeated command runs once, before and after a restart.
#[tactic(auto, unfolding(smi_tree::specs::Hierarchy::ancestors))]
pub fn repeated_run()
    ensures { Makes worked_tree commands.repeated_run }
{}

/// Shows that the keeper stops after the save of a run, and that the run is over.
#[tactic(auto, unfolding(smi_tree::specs::Hierarchy::ancestors))]
pub fn stopped_after_run()
    ensures { Makes worked_tree commands.stopped_after_run }
{}

/// Shows that a state that answers an earlier boot is not shown.
#[tactic(auto, unfolding(smi_tree::specs::Hierarchy::ancestors))]
pub fn watcher_restarts()
    ensures { Makes worked_tree commands.watcher_restarts }
{}

/// Shows that the states of a keeper that was started again are newer than all before.
#[tactic(auto, unfolding(smi_tree::specs::Hierarchy::ancestors))]
pub fn keeper_restarts()
    ensures { Makes worked_tree commands.keeper_restarts }
{}

/// Shows that a manual child is sent no commands.
#[tactic(auto, unfolding(smi_tree::specs::Hierarchy::ancestors))]
pub fn manual()
    ensures { Makes worked_tree commands.manual }
{}

/// Shows that an ignored child is sent commands, and that its state does not count.
#[tactic(auto, unfolding(smi_tree::specs::Hierarchy::ancestors))]
pub fn ignored()
    ensures { Makes worked_tree commands.ignored }
{}

/// Shows that two commands pending run in their order, and that the outcome of the first was not seen.
#[tactic(auto, unfolding(smi_tree::specs::Hierarchy::ancestors))]
pub fn two_pending()
    ensures { Makes worked_tree commands.two_pending }
{}

/// Shows eight pending commands: a ninth and a drop are refused, and all run in their order.
#[tactic(auto, unfolding(smi_tree::specs::Hierarchy::ancestors))]
pub fn eight_pending()
    ensures { Makes worked_tree commands.eight_pending }
{}

/// Shows that what is told of two commands that were pending says which command of which grant each was; what is
/// issued says the same.
#[tactic(auto, unfolding(smi_tree::specs::Hierarchy::ancestors))]
pub fn marks_of_two_pending()
    ensures answers { option_map (λ o. o.out.answers) (outcome_after worked_tree commands.both_run (deed.Deliver 7))
        ≡ Some (answer_command BOB TPC 1 1 (command.Do CONFIGURE) 8
        ∷ answer_command BOB TPC 1 2 (command.Do START) 0 ∷ []) }
    ensures marks { option_map (λ o. map (λ a. a.mark) o.out.answers)
        (outcome_after worked_tree commands.both_run (deed.Deliver 7))
        ≡ Some (Some (mark TPC 1 1) ∷ Some (mark TPC 1 2) ∷ []) }
    ensures issued { option_map (λ o. o.out.issued)
        (outcome_after worked_tree commands.one_ordered (deed.Order BOB (Do TPC START)))
        ≡ Some (Some (mark TPC 1 2)) }
{}

/// Shows the rows that are saved: of DCS when it is granted, and of BOB when he has taken TPC and when two commands
/// are pending.
pub fn saved_rows()
    ensures granted { option_map (λ o. o.saved) (outcome_after worked_tree grants.asked_for_DCS (deed.Deliver 1))
        ≡ Some (Some (saved (key A DCS 0)
        (0x02 ∷ 0x01 ∷ 0x00 ∷ 0x02 ∷ 0 ∷ 0 ∷ 0 ∷ 0 ∷ 0 ∷ 0 ∷ 0 ∷ 0x01 ∷ 0 ∷ 0 ∷ 0 ∷ 0 ∷ 0
        ∷ 0 ∷ 0 ∷ 0 ∷ 0 ∷ 0 ∷ 0 ∷ 0 ∷ []))) }
    ensures held { option_map (λ o. o.saved) (outcome_after worked_tree grants.granted (deed.Deliver 2))
        ≡ Some (Some (saved (key B 0 BOB)
        (0x03 ∷ 0 ∷ 0 ∷ 0x01 ∷ 0 ∷ 0x02 ∷ 0x02 ∷ 0 ∷ 0 ∷ 0 ∷ 0 ∷ 0 ∷ 0 ∷ 0 ∷ 0 ∷ 0x01 ∷ 0
        ∷ 0 ∷ 0 ∷ 0 ∷ 0 ∷ 0 ∷ 0 ∷ 0 ∷ []))) }
    ensures two_pending { option_map (λ o. o.saved) (outcome_after worked_tree commands.one_ordered
        (deed.Order BOB (Do TPC START)))
        ≡ Some (Some (saved (key B 0 BOB)
        (0x03 ∷ 0 ∷ 0 ∷ 0x01 ∷ 0 ∷ 0x02 ∷ 0x05 ∷ 0 ∷ 0 ∷ 0 ∷ 0 ∷ 0 ∷ 0 ∷ 0 ∷ 0 ∷ 0x01 ∷ 0
        ∷ 0 ∷ 0 ∷ 0x02 ∷ 0 ∷ 0x01 ∷ 0 ∷ 0x01 ∷ 0 ∷ 0x01 ∷ 0 ∷ 0x01 ∷ 0 ∷ 0x02 ∷ []))) }
{}

/// Shows an empty schedule: all stations start.
pub fn empty_schedule()
    ensures { map shown_of (trace_of worked_tree []) ≡ failing.opening_shown }
{}

/// Shows a row that is not saved, and one of which nobody knows whether it was.
pub fn saves_that_fail()
    ensures not_saved { Makes worked_tree failing.not_saved }
    ensures saved_unknown { Makes worked_tree failing.saved_unknown }
    ensures not_saved_unknown { Makes worked_tree failing.not_saved_unknown }
    ensures order_not_saved { Makes worked_tree failing.order_not_saved }
{}
