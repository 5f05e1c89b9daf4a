//! What a holder's link is due, as it is sent.

ghost use Rattle.std.specs.Prelude.{◌≡◌, true, ℕ, All, IfSome, map};
ghost use Rattle.smi_command.specs.Link.{due_of};
ghost use Rattle.smi_message.specs.Message.{is_party};
ghost use Rattle.smi_protocol.specs.Messages as messages;
ghost use Rattle.smi_station_output.specs.Out.{is_due, sent_after};
ghost use Rattle.smi_tree.specs.Lawful.{IsBetween};
ghost use Rattle.smi_tree.specs.Lookups.{domain_count, station_count};

use smi_command::{Due, Link, MOST_PENDING, due};
use smi_grant::Holder;
use smi_station_output::{Out, request};
use smi_tree::Tree;

/// Sends all that a holder's link is due, the oldest command first.
pub(crate) fn send_due(
    out: &mut Out,
    tree: &Tree,
    number: u16,
    holder: Holder,
    domain: u16,
    link: &Link,
)
    requires number { IsBetween 1 (station_count tree.now) number }
    requires domain { IsBetween 1 (domain_count tree.now) domain }
    requires holder { is_party holder ≡ true }
    requires link { (i : ℕ) → IfSome (due_of link.now i) (λ due. is_due due ≡ true) }
    ensures { out.new
        ≡ record out.old {
          datagrams = sent_after out.old.datagrams
              (messages.requests_due tree.now number holder domain link.now);
        } }
{
    for i in 0..MOST_PENDING {
        send_if_due(out, tree, number, holder, domain, due(link, i));
    }
}

/// Sends what a holder's link is due, if anything.
pub(crate) fn send_if_due(
    out: &mut Out,
    tree: &Tree,
    number: u16,
    holder: Holder,
    domain: u16,
    what: Option<Due>,
)
    requires number { IsBetween 1 (station_count tree.now) number }
    requires domain { IsBetween 1 (domain_count tree.now) domain }
    requires holder { is_party holder ≡ true }
    requires due { IfSome what (λ due. is_due due ≡ true) }
    ensures { out.new
        ≡ record out.old {
          datagrams = sent_after out.old.datagrams
              (map (messages.requests tree.now number holder domain) (messages.if_any what));
        } }
{
    match what {
        Some(what) => out.send(request(tree, number, holder, domain, what)),
        None => {}
    }
}
