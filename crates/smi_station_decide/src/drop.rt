//! A drop: the domain becomes free, if the holder has the grant of that epoch and nothing is at work.

ghost use Rattle.std.specs.Prelude.{◌≡◌, ◌≤◌, false, ℕ, None};
ghost use Rattle.smi_grant.specs.Holder.{is_free};
ghost use Rattle.smi_grant.specs.Keeper.{drop_after};
ghost use Rattle.smi_grant.specs.declared.Holder as grant_holder;
ghost use Rattle.smi_protocol.specs.Grants.{Grants};
ghost use Rattle.smi_protocol.specs.Keeping as keeping;
ghost use Rattle.smi_protocol.specs.Keeping.{drop_comes};
ghost use Rattle.smi_protocol.specs.Sound.{IsSound};
ghost use Rattle.smi_station_decide.specs.Handing.{with_step};
ghost use Rattle.smi_station_decide.specs.Plans.{handed_by, Plans};
ghost use Rattle.smi_station_grants.specs.Change.{runs};
ghost use Rattle.smi_station_grants.specs.GrantTable.{grants_of};
ghost use Rattle.smi_tree.specs.Hierarchy.{Hierarchy};
ghost use Rattle.smi_tree.specs.Lawful.{IsBetween};
ghost use Rattle.smi_tree.specs.Lookups.{domain_count, station_count};

use crate::record::{record_after, send_record};
use crate::take::handed_by;
use smi_grant::{Holder, drop_grant};
use smi_protocol::Entry;
use smi_station_grants::{Change, GrantTable};
use smi_station_output::{Entries, Out};

/// Handles a drop: its sender is told the domain's record after it.
pub fn decide_drop(
    out: &mut Out,
    kept: &GrantTable<'_>,
    from: u16,
    domain: u16,
    holder: Holder,
    epoch: u64,
) -> Change
    requires sound { IsSound kept.now.tree (grants_of kept.now) }
    requires from { IsBetween 1 (station_count kept.now.tree) from }
    requires domain { IsBetween 1 (domain_count kept.now.tree) domain }
    requires party { is_free holder ≡ false }
    ensures plan { Plans kept.now.tree kept.now.number (grants_of kept.now)
        (keeping.drop_comes kept.now.tree kept.now.number (grants_of kept.now) from domain holder epoch) result }
    ensures sent { out.new ≡ with_step out.old
        (keeping.drop_comes kept.now.tree kept.now.number (grants_of kept.now) from domain holder epoch) }
    ensures quiet { runs result ≡ None }
{
    let change = drop_comes(kept, domain, holder, epoch);
    let standing = record_after(kept, &change, domain);
    send_record(out, kept, from, domain, standing);
    out.set_entries(freed(domain, &change));
    change
}

/// Returns what a drop with this change leaves: the domain becomes free, if it does.
fn freed(domain: u16, change: &Change) -> Entries
    ensures { (h : Hierarchy) (number : ℕ) (g : Grants) (from : ℕ) (holder : grant_holder.Holder) (epoch : ℕ)
        → change.now ≡ handed_by domain (drop_after (g.records domain) holder epoch)
        → result ≡ (keeping.drop_comes h number g from domain holder epoch).entries }
{
    let freed = match *change {
        Change::HolderChanged { record: free, .. } => Some(Entry::Freed {
            domain,
            epoch: free.epoch,
        }),
        _ => None,
    };
    Entries::one(freed)
}

/// Decides a drop.
fn drop_comes(kept: &GrantTable<'_>, domain: u16, holder: Holder, epoch: u64) -> Change
    requires least { 1 ≤ domain }
    requires most { domain ≤ domain_count kept.now.tree }
    requires party { is_free holder ≡ false }
    ensures plan { (from : ℕ) → Plans kept.now.tree kept.now.number (grants_of kept.now)
        (drop_comes kept.now.tree kept.now.number (grants_of kept.now) from domain holder epoch) result }
    ensures change { result ≡ handed_by domain (drop_after ((grants_of kept.now).records domain) holder epoch) }
    ensures quiet { runs result ≡ None }
{
    handed_by(domain, drop_grant(&kept.record(domain), holder, epoch))
}
