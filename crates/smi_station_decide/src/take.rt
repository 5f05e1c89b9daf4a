//! A take: the keeper grants the domain, if it is free and the holder has seen its epoch.

ghost use Rattle.std.specs.Prelude.{◌≡◌, ◌≤◌, false, true, ℕ, None};
ghost use Rattle.smi_grant.specs.Holder as holder_spec;
ghost use Rattle.smi_grant.specs.Holder.{is_free};
ghost use Rattle.smi_grant.specs.Keeper.{take_after};
ghost use Rattle.smi_protocol.specs.Grants.{Grants};
ghost use Rattle.smi_protocol.specs.Keeping as keeping;
ghost use Rattle.smi_protocol.specs.Keeping.{take_comes};
ghost use Rattle.smi_protocol.specs.Sound.{IsSound};
ghost use Rattle.smi_station_decide.specs.Handing.{with_step};
ghost use Rattle.smi_station_decide.specs.Plans.{handed_by, Plans};
ghost use Rattle.smi_station_grants.specs.Change.{runs};
ghost use Rattle.smi_station_grants.specs.GrantTable.{grants_of};
ghost use Rattle.smi_tree.specs.Hierarchy.{Hierarchy};
ghost use Rattle.smi_tree.specs.Lawful.{IsBetween};
ghost use Rattle.smi_tree.specs.Lookups.{domain_count, station_count};
ghost use Rattle.smi_tree.specs.Roles as roles;

use crate::record::{record_after, send_record};
use smi_grant::{Holder, Verdict, take};
use smi_protocol::Entry;
use smi_station_grants::{Change, GrantTable};
use smi_station_output::{Entries, Out};

/// Handles a take: its sender is told the domain's record after it.
pub fn decide_take(
    out: &mut Out,
    kept: &GrantTable<'_>,
    from: u16,
    domain: u16,
    holder: Holder,
    seen: u64,
) -> Change
    requires sound { IsSound kept.now.tree (grants_of kept.now) }
    requires from { IsBetween 1 (station_count kept.now.tree) from }
    requires domain { IsBetween 1 (domain_count kept.now.tree) domain }
    requires party { is_free holder ≡ false }
    requires holder { holder_spec.is_in_range holder ≡ true }
    requires may_hold { roles.is_holder_of kept.now.tree domain holder ≡ true }
    ensures plan { Plans kept.now.tree kept.now.number (grants_of kept.now)
        (keeping.take_comes kept.now.tree kept.now.number (grants_of kept.now) from domain holder seen) result }
    ensures sent { out.new ≡ with_step out.old
        (keeping.take_comes kept.now.tree kept.now.number (grants_of kept.now) from domain holder seen) }
    ensures quiet { runs result ≡ None }
{
    let change = take_comes(kept, domain, holder, seen);
    let standing = record_after(kept, &change, domain);
    send_record(out, kept, from, domain, standing);
    out.set_entries(granted(domain, holder, &change));
    change
}

/// Returns what a take with this change leaves: the domain is granted, if it is.
fn granted(domain: u16, holder: Holder, change: &Change) -> Entries
    ensures { (h : Hierarchy) (number : ℕ) (g : Grants) (from seen : ℕ)
        → change.now ≡ handed_by domain (take_after (g.records domain) holder seen)
        → result ≡ (keeping.take_comes h number g from domain holder seen).entries }
{
    let granted = match *change {
        Change::HolderChanged {
            record: standing,
            ..
        } => Some(Entry::Granted {
            domain,
            epoch: standing.epoch,
            holder,
        }),
        _ => None,
    };
    Entries::one(granted)
}

/// Decides a take.
fn take_comes(kept: &GrantTable<'_>, domain: u16, holder: Holder, seen: u64) -> Change
    requires least { 1 ≤ domain }
    requires most { domain ≤ domain_count kept.now.tree }
    requires party { is_free holder ≡ false }
    ensures plan { (from : ℕ) → Plans kept.now.tree kept.now.number (grants_of kept.now)
        (take_comes kept.now.tree kept.now.number (grants_of kept.now) from domain holder seen) result }
    ensures change { result ≡ handed_by domain (take_after ((grants_of kept.now).records domain) holder seen) }
    ensures quiet { runs result ≡ None }
{
    handed_by(domain, take(&kept.record(domain), holder, seen))
}

/// Returns a verdict as a change.
pub(crate) fn handed_by(domain: u16, verdict: Verdict) -> Change
    ensures change { result ≡ handed_by domain verdict }
    ensures quiet { runs result ≡ None }
{
    match verdict {
        Verdict::New(standing) => Change::HolderChanged {
            domain,
            record: standing,
        },
        Verdict::Same => Change::Nothing,
    }
}
