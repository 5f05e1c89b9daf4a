//! The record of a domain after a change, and who is told it.

ghost use Rattle.std.specs.Prelude.{◌≡◌, ◌∷◌, [], false, true};
ghost use Rattle.smi_grant.specs.Record as record_spec;
ghost use Rattle.smi_protocol.specs.Keeping as keeping;
ghost use Rattle.smi_protocol.specs.Messages.{tells};
ghost use Rattle.smi_protocol.specs.Sound.{IsSound};
ghost use Rattle.smi_rows.specs.Ranges.{is_standing};
ghost use Rattle.smi_station_decide.specs.Handing.{with_step};
ghost use Rattle.smi_station_grants.specs.Change.{changed};
ghost use Rattle.smi_station_grants.specs.GrantTable.{grants_of};
ghost use Rattle.smi_station_output.specs.Out.{sent_after};
ghost use Rattle.smi_tree.specs.Lawful.{IsBetween};
ghost use Rattle.smi_tree.specs.Lookups.{domain_count, station_count};

use smi_grant::{Phase, Record};
use smi_station_grants::{Change, GrantTable, PlannedView};
use smi_station_output::{Out, tell};

/// Returns whether nothing is at work.
pub(crate) fn is_settled(phase: Phase) -> bool
    ensures { result ≡ record_spec.is_settled phase }
{
    match phase {
        Phase::Settled => true,
        Phase::Busy => false,
    }
}

/// Returns the record of a domain after a change that is still to come.
pub(crate) fn record_after(kept: &GrantTable<'_>, change: &Change, domain: u16) -> Record
    ensures { result ≡ (changed kept.now.tree (grants_of kept.now) change.now).records domain }
{
    let after = PlannedView::of(kept, change);
    after.record(domain)
}

/// Sends a station the domain's record.
pub(crate) fn send_record(out: &mut Out, kept: &GrantTable<'_>, to: u16, domain: u16, told: Record)
    requires to { IsBetween 1 (station_count kept.now.tree) to }
    requires domain { IsBetween 1 (domain_count kept.now.tree) domain }
    requires told { is_standing told ≡ true }
    ensures { out.new
        ≡ record out.old {
          datagrams = sent_after out.old.datagrams
              (tells kept.now.tree kept.now.number to domain told ∷ []);
        } }
{
    let datagram = tell(kept.tree(), kept.number(), to, domain, told);
    out.send(datagram);
}

/// Handles a question about a domain: its sender is told the record.
pub fn answer_ask(out: &mut Out, kept: &GrantTable<'_>, from: u16, domain: u16)
    requires sound { IsSound kept.now.tree (grants_of kept.now) }
    requires from { IsBetween 1 (station_count kept.now.tree) from }
    requires domain { IsBetween 1 (domain_count kept.now.tree) domain }
    ensures { out.new
        ≡ with_step out.old (keeping.answered kept.now.tree kept.now.number (grants_of kept.now) from domain) }
{
    send_record(out, kept, from, domain, kept.record(domain));
}
