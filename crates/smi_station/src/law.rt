//! What a caller can count on if a process ends in the middle of a step: the function does nothing.

ghost use Rattle.std.specs.Prelude.{◌⊎◌, ℕ, Result};
ghost use Rattle.smi_tree.specs.Hierarchy.{Hierarchy};
ghost use Rattle.smi_tree.specs.Lawful.{IsBetween, IsTree};
ghost use Rattle.smi_tree.specs.Lookups.{station_count};
ghost use Rattle.smi_rows.specs.Store.{IsSame, Rows};
ghost use Rattle.smi_protocol.specs.Display.{Station};
ghost use Rattle.smi_protocol.specs.Loading.{Opens};
ghost use Rattle.smi_protocol.specs.Step.{after_event};
ghost use Rattle.smi_protocol.specs.declared.event.Event.{Event};
ghost use Rattle.smi_protocol.specs.declared.fault.OpenFault.{OpenFault};
ghost use Rattle.smi_station_grants.specs.Change.{with_saved};
ghost use Rattle.smi_station_grants.specs.Stored.{IsStored, Restarts};

/// States what follows if a station whose rows say all that it keeps makes a step, and its process ends at any moment
/// of that. The rows that are then found are those of before or of after the step (the clause `crash` of what a step
/// leaves, specs/Leaving.antt), and a station that opens on them is the one of before or the one of after the step,
/// one boot later. Nothing of a step is half kept.
pub fn a_stopped_step_restarts()
    ensures { (h : Hierarchy) (number : ℕ) (s : Station) (e : Event) (before found : Rows)
        (r : Result Station OpenFault) → IsTree h → IsBetween 1 (station_count h) number
        → IsStored h number s.grants before
        → IsSame found before ⊎ IsSame found (with_saved (after_event h number s e).saved before)
        → Opens h number found r
        → Restarts h number s.grants r ⊎ Restarts h number (after_event h number s e).station.grants r }
{}
