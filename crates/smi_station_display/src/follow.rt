//! What a domain's objects newly show, and who is told.

ghost use Rattle.std.specs.Prelude.{◌≡◌};
ghost use Rattle.smi_protocol.specs.Showing.{is_spent};

use crate::displayed::Displayed;
use crate::members::Members;
use smi_base::LAST_SEQUENCE;
use smi_grant::Shown;
use smi_publish::Changes;
use smi_station_grants::GrantTable;
use smi_station_output::Out;

/// Returns true if one of these objects has reached the last sequence, after which its station stops.
fn is_spent(changes: &[Shown]) -> bool
    ensures { result ≡ is_spent changes.now }
{
    changes
        .iter()
        .any(|shown| shown.version.sequence == LAST_SEQUENCE)
}

impl<'a> Displayed<'a> {
    ghost use Rattle.std.specs.Prelude.{◌≡◌, ◌≤◌, ◌<◌, ◌++◌, length};
    ghost use Rattle.std.specs.List.{AllByRecursion, flat_map};
    ghost use Rattle.smi_station_grants.specs.GrantTable.{grants_of};
    ghost use Rattle.smi_station_output.specs.Out.{sent_after};
    ghost use Rattle.smi_protocol.specs.Messages.{if_any};
    ghost use Rattle.smi_protocol.specs.Showing.{is_spent, members_of, shown_to_all};
    ghost use Rattle.smi_protocol.specs.SoundDisplay.{IsShown};
    ghost use Rattle.smi_publish.specs.Published.{HasRoom, change_at, most_changes};
    ghost use Rattle.smi_tree.specs.Lookups.{domain_count};
    ghost use Rattle.smi_station_display.specs.Displayed.{display_of};
    ghost use Rattle.smi_station_display.specs.Following.{followed_at};
    ghost use Rattle.smi_station_display.specs.Listening.{KeepsTheRest};

    /// Evaluates the unit again if its members differ from these, and sends STATE for each changed object to its
    /// watchers. Returns true if one of the objects has reached the last sequence.
    pub fn publish_changes(
        &mut self,
        out: &mut Out,
        kept: &GrantTable<'_>,
        domain: u16,
        before: &Members,
        changes: &mut Changes,
    ) -> bool
        requires least { 1 ≤ domain }
        requires most { domain ≤ domain_count self.old.tree }
        requires room { HasRoom (display_of self.old).conditions domain }
        requires few { length changes.old < most_changes }
        requires shown { AllByRecursion (IsShown self.old.tree) changes.old }
        ensures display { display_of self.new ≡ record
            (display_of self.old) { conditions = followed_at self.old (grants_of kept.now) before.now domain } }
        ensures changes { changes.new ≡ changes.old
            ++ if_any (change_at self.old.published.boot (display_of self.old).conditions
            (display_of self.new).conditions domain) }
        ensures sent { out.new
            ≡ record out.old {
              datagrams = sent_after out.old.datagrams
                  (flat_map (shown_to_all self.old.tree self.old.number self.old.watchers) changes.new);
            } }
        ensures spent { result ≡ is_spent changes.new }
        ensures rest { KeepsTheRest self.old self.new }
    {
        let after = self.members(kept, domain);
        match self.follow(domain, before, &after) {
            Some(shown) => changes.push(shown),
            None => {}
        }
        self.send_changes(out, changes.as_slice());
        is_spent(changes.as_slice())
    }
}
