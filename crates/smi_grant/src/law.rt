//! What holds of every record that a keeper makes.

ghost use Rattle.std.specs.Prelude.{ℕ, Bool, ◌≡◌};
ghost use Rattle.smi_grant.specs.declared.holder.Holder.{Holder};
ghost use Rattle.smi_grant.specs.Record.{Standing};
ghost use Rattle.smi_grant.specs.Keeper.{take_after, drop_after, started, settled};
ghost use Rattle.smi_grant.specs.Rank.{RanksBelow};

use crate::{Phase, Verdict};

/// States that each new record ranks above the one that it follows, so a record that was left never comes back.
pub fn ranks_rise()
    ensures taken { (r s : Standing) (h : Holder) (seen : ℕ) →
        take_after r h seen ≡ Verdict.New s → RanksBelow r s }
    ensures dropped { (r s : Standing) (h : Holder) (e : ℕ) →
        drop_after r h e ≡ Verdict.New s → RanksBelow r s }
    ensures started { (r : Standing) (busy : Bool) (x : ℕ) →
        r.phase ≡ Phase.Settled → RanksBelow r (started r busy x) }
    ensures settled { (r : Standing) (x : ℕ) →
        r.phase ≡ Phase.Busy → RanksBelow r (settled r x) }
{}
