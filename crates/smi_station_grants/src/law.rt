//! What a caller can count on of [`migrate`], and of the rows that a station has saved: the other functions do nothing.

ghost use Rattle.std.specs.Prelude.{◌≡◌, ◌≢◌, ℕ, IfOk, None, OnOk, Ok, Err, Result, option_map};
ghost use Rattle.smi_message.specs.Message.{last_boot};
ghost use Rattle.smi_tree.specs.Hierarchy.{Hierarchy};
ghost use Rattle.smi_tree.specs.Lawful.{IsBetween, IsTree};
ghost use Rattle.smi_tree.specs.Lookups.{station_count};
ghost use Rattle.smi_rows.specs.Store.{IsSame, Rows};
ghost use Rattle.smi_protocol.specs.Display.{Station};
ghost use Rattle.smi_protocol.specs.Grants.{Grants, no_grants};
ghost use Rattle.smi_protocol.specs.GrantsOf.{grant_step};
ghost use Rattle.smi_protocol.specs.Happening.{Happening};
ghost use Rattle.smi_protocol.specs.Loading.{AllRead, Opens, grants_in};
ghost use Rattle.smi_protocol.specs.Opening.{opened};
ghost use Rattle.smi_protocol.specs.Refusals.{refusal_of};
ghost use Rattle.smi_protocol.specs.SavedRows.{saved_row};
ghost use Rattle.smi_protocol.specs.Sound.{IsSayable, IsSound};
ghost use Rattle.smi_protocol.specs.Step.{after, after_event};
ghost use Rattle.smi_protocol.specs.declared.event.Event.{Event};
ghost use Rattle.smi_protocol.specs.declared.fault.OpenFault.{OpenFault};
ghost use Rattle.smi_protocol.specs.declared.fault.OpenFault.TheVariants.{BootsSpent};
ghost use Rattle.smi_station_grants.specs.Change.{with_saved};
ghost use Rattle.smi_station_grants.specs.Migrating.{IsPartly, in_newest};
ghost use Rattle.smi_station_grants.specs.Starting.{after_start};
ghost use Rattle.smi_station_grants.specs.Stored.{IsStored, Restarts, no_rows};

use crate::migration::migrate;
use smi_protocol::OpenFault;
use smi_rows::Stable;
use smi_tree::Tree;
use std::alloc::Global;

/// Migrates twice: rows are saved again once, a second time there is nothing to do, and they stay as the first time
/// left them.
pub fn migrated_rows_stay<S: Stable>(
    alloc: Global,
    tree: &Tree,
    number: u16,
    store: &mut S,
) -> Result<u32, OpenFault>
    ensures none { S.is_honest store.new → IfOk result (λ n. n ≡ 0) }
    ensures rows { S.is_honest store.new → OnOk
        result (IsSame (S.rows store.new) (in_newest tree.now number (S.rows store.old))) }
    ensures honest { S.is_honest store.new → S.is_honest store.old }
{
    migrate(alloc, tree, number, store)?;
    migrate(alloc, tree, number, store)
}

/// States that the rows of a station say all that it keeps, and nothing else: from the beginning, if there are none,
/// at each start, after each step with the row that it saves, whatever comes, and wherever a migration stops
/// (specs/Stored.antt). The tables of the grants are the same at every number and holder, and not only at those of
/// the station. A step that is refused saves nothing and changes nothing. What rows say is sound, so that is no
/// premise.
pub fn rows_say_what_is_kept()
    ensures begins { (h : Hierarchy) (number : ℕ) → IsStored h number no_grants no_rows }
    ensures reads { (h : Hierarchy) (number : ℕ) (rows : Rows) → AllRead h number rows
        → IsStored h number (grants_in h number rows) rows }
    ensures opens { (h : Hierarchy) (number : ℕ) (rows : Rows) (s : Station) → Opens h number rows (Ok s)
        → IsStored h number s.grants (after_start h number rows) }
    ensures starts { (h : Hierarchy) (number : ℕ) (g : Grants) (rows : Rows) → IsBetween 1 (station_count h) number
        → g.boot ≢ last_boot → IsStored h number g rows →
        IsStored h number (opened h number g).grants (after_start h number rows) }
    ensures stays { (h : Hierarchy) (number : ℕ) (g : Grants) (rows : Rows) (what : Happening) → IsTree h
        → IsSayable what → refusal_of h number g what ≡ None → IsStored h number g rows →
        IsStored h number (grant_step h number g what).grants
        (with_saved (option_map (saved_row h number (grant_step h number g what).grants)
        (grant_step h number g what).row) rows) }
    ensures steps { (h : Hierarchy) (number : ℕ) (s : Station) (rows : Rows) (what : Happening) → IsTree h
        → IsSayable what → IsStored h number s.grants rows →
        IsStored h number (after h number s what).station.grants (with_saved (after h number s what).saved rows) }
    ensures events { (h : Hierarchy) (number : ℕ) (s : Station) (rows : Rows) (e : Event) → IsTree h
        → IsStored h number s.grants rows →
        IsStored h number (after_event h number s e).station.grants (with_saved (after_event h number s e).saved rows) }
    ensures migrates { (h : Hierarchy) (number : ℕ) (g : Grants) (before after : Rows)
        → IsPartly h number before after → IsStored h number g before → IsStored h number g after }
    ensures sound { (h : Hierarchy) (number : ℕ) (g : Grants) (rows : Rows) → IsStored h number g rows → IsSound h g }
{}

/// States that a station that starts on rows that say what it kept is restarted with exactly that, one boot later,
/// unless its boots are spent. It ends in nothing else but a fault of the store, or out of memory.
pub fn stored_grants_restart()
    ensures restarts { (h : Hierarchy) (number : ℕ) (g : Grants) (rows : Rows) → IsBetween 1 (station_count h) number
        → IsStored h number g rows → g.boot ≢ last_boot → Opens h number rows (Ok (opened h number g)) }
    ensures spent { (h : Hierarchy) (number : ℕ) (g : Grants) (rows : Rows) → IsBetween 1 (station_count h) number
        → IsStored h number g rows → g.boot ≡ last_boot → Opens h number rows (Err BootsSpent) }
    ensures only { (h : Hierarchy) (number : ℕ) (g : Grants) (rows : Rows) → IsBetween 1 (station_count h) number
        → IsStored h number g rows → (r : Result Station OpenFault) → Opens h number rows r → Restarts h number g r }
{}
