//! An operator's order: what its link becomes, or why it is refused.

ghost use Rattle.std.specs.Prelude.{◌≡◌, ℕ, IfOk, IfSome, length, true};
ghost use Rattle.smi_command.specs.Link.{due_of};
ghost use Rattle.smi_rows.specs.Known.{pending_of};
ghost use Rattle.smi_message.specs.Message.{is_party};
ghost use Rattle.smi_tree.specs.Lawful.{IsBetween};
ghost use Rattle.smi_tree.specs.Lookups.{domain_count, operator_station_of, station_count};
ghost use Rattle.smi_tree.specs.Roles.{is_number};
ghost use Rattle.smi_protocol.specs.Happening.{Orders};
ghost use Rattle.smi_protocol.specs.Messages as messages;
ghost use Rattle.smi_protocol.specs.Messages.{if_any};
ghost use Rattle.smi_protocol.specs.Ordering as ordering;
ghost use Rattle.smi_protocol.specs.Refusals.{refusal_of};
ghost use Rattle.smi_protocol.specs.Sound.{IsSound};
ghost use Rattle.smi_station_grants.specs.GrantTable.{grants_of};
ghost use Rattle.smi_station_output.specs.Out.{is_due, sent_after};
ghost use Rattle.smi_station_decide.specs.Decided as spec;
ghost use Rattle.smi_station_decide.specs.Decided.{IsObeyable, refused_by, step_of};
ghost use Rattle.smi_station_decide.specs.Handing.{with_step};
ghost use Rattle.smi_station_decide.specs.Plans.{Plans};

use crate::check::is_order_here;
use crate::due::send_if_due;
use smi_base::MOST_LINKS;
use smi_command::{Link, begin_drop, begin_take, due, issue};
use smi_grant::{Command, Holder};
use smi_protocol::{Entry, Mark, Order, OrderCode, Request};
use smi_station_grants::{Change, GrantTable};
use smi_station_output::{Entries, Out};
use smi_tree::Tree;

/// What an order that is not refused does to the grants, decided before anything changes.
#[derive(Clone, Copy)]
pub enum DecidedOrder {
    /// Nothing: the order asks or watches.
    Unlinked,
    /// The operator's link to the domain becomes this one, by the command, if the order is one.
    Linked {
        domain: u16,
        command: Option<Command>,
        link: Link,
    },
}

impl DecidedOrder {
    ghost use Rattle.std.specs.Prelude.{◌≡◌, ℕ, is_some};
    ghost use Rattle.smi_tree.specs.Hierarchy.{Hierarchy};
    ghost use Rattle.smi_protocol.specs.Grants.{Grants};
    ghost use Rattle.smi_station_decide.specs.Decided.{step_of};

    /// Returns whether obeying the order saves a row.
    pub fn has_row(&self) -> bool
        ensures { (h : Hierarchy) (number : ℕ) (g : Grants) (o : ℕ)
            → result ≡ is_some (step_of h number g o self.now).row }
    {
        match self {
            DecidedOrder::Unlinked => false,
            DecidedOrder::Linked { .. } => true,
        }
    }
}

/// Decides an order of an operator, before anything is saved or sent.
///
/// Its error is the code of the refusal: 26 before all others if the station has not the operator, or the tree not what
/// the order names; 21 to 25 if the operator's link refuses it.
pub fn decide_order(
    kept: &GrantTable<'_>,
    operator: u16,
    order: &Order,
) -> Result<DecidedOrder, u16>
    ensures decided { result
        ≡ spec.decided kept.now.tree kept.now.number (grants_of kept.now) operator order.now }
    ensures refused { refused_by result
        ≡ refusal_of kept.now.tree kept.now.number (grants_of kept.now) (Orders operator order.now) }
    ensures step { IfOk result (λ decided. step_of kept.now.tree kept.now.number (grants_of kept.now) operator decided
        ≡ ordering.order_comes kept.now.tree kept.now.number (grants_of kept.now) operator order.now) }
    ensures obeyable { IsSound kept.now.tree (grants_of kept.now)
        → IfOk result (IsObeyable kept.now.tree kept.now.number operator) }
{
    let _tree = kept.tree();
    if is_order_here(kept.tree(), kept.number(), operator, order) {
        decide_by_link(kept, operator, order)
    } else {
        Err(OrderCode::NotHere.code())
    }
}

/// Decides an order of what is here, by the operator's link.
fn decide_by_link(kept: &GrantTable<'_>, operator: u16, order: &Order) -> Result<DecidedOrder, u16>
    requires { is_number (operator_station_of kept.now.tree operator) kept.now.number ≡ true }
    ensures { result ≡ spec.decided_by_link kept.now.tree (grants_of kept.now) operator order.now }
{
    let holder = Holder::Operator(operator);
    match order.request() {
        Request::Take(domain) => linked(domain, None, take_link(kept, operator, domain)),
        Request::Drop(domain) => linked(domain, None, begin_drop(&kept.link(holder, domain))),
        Request::Command(domain, command) => {
            linked(
                domain,
                Some(command),
                issue(&kept.link(holder, domain), command),
            )
        }
        Request::Ask(_) | Request::Watch(_) | Request::Unwatch(_) | Request::Report(_, _) => {
            Ok(DecidedOrder::Unlinked)
        }
    }
}

/// Begins a take, if a further link of the operator may be in use.
fn take_link(kept: &GrantTable<'_>, operator: u16, domain: u16) -> Result<Link, u16>
    requires { is_number (operator_station_of kept.now.tree operator) kept.now.number ≡ true }
    ensures { result ≡ spec.taken kept.now.tree (grants_of kept.now) operator domain }
{
    match begin_take(&kept.link(Holder::Operator(operator), domain)) {
        Ok(_) if kept.links_in_use(operator) >= MOST_LINKS => Err(OrderCode::LinksInUse.code()),
        taken => taken,
    }
}

/// Returns what the link becomes, as a decided order.
fn linked(
    domain: u16,
    command: Option<Command>,
    link: Result<Link, u16>,
) -> Result<DecidedOrder, u16>
    ensures { result ≡ spec.linked domain command link }
{
    match link {
        Ok(link) => Ok(DecidedOrder::Linked {
            domain,
            command,
            link,
        }),
        Err(code) => Err(code),
    }
}

/// Obeys a decided order: the link's newest request is sent, and the command that it issues is noted.
pub fn obey(out: &mut Out, kept: &GrantTable<'_>, operator: u16, decided: &DecidedOrder) -> Change
    requires obeyable { IsObeyable kept.now.tree kept.now.number operator decided.now }
    ensures plan { Plans kept.now.tree kept.now.number (grants_of kept.now)
        (step_of kept.now.tree kept.now.number (grants_of kept.now) operator decided.now) result }
    ensures sent { out.new ≡ with_step out.old
        (step_of kept.now.tree kept.now.number (grants_of kept.now) operator decided.now) }
{
    let tree = kept.tree();
    match *decided {
        DecidedOrder::Unlinked => Change::Nothing,
        DecidedOrder::Linked {
            domain,
            command,
            link,
        } => {
            let holder = Holder::Operator(operator);
            send_newest(out, tree, kept.number(), holder, domain, &link);
            out.set_entries(Entries::one(ordered(operator, domain, command, &link)));
            match issued(domain, command, &link) {
                Some(mark) => out.issue(mark),
                None => {}
            }
            Change::Linked {
                operator,
                domain,
                link,
            }
        }
    }
}

/// Sends the newest that a holder's link is due.
fn send_newest(out: &mut Out, tree: &Tree, number: u16, holder: Holder, domain: u16, link: &Link)
    requires number { IsBetween 1 (station_count tree.now) number }
    requires domain { IsBetween 1 (domain_count tree.now) domain }
    requires holder { is_party holder ≡ true }
    requires link { (i : ℕ) → IfSome (due_of link.now i) (λ due. is_due due ≡ true) }
    ensures { out.new
        ≡ record out.old {
          datagrams = sent_after out.old.datagrams
              (messages.request_newest tree.now number holder domain link.now);
        } }
{
    let newest = pending_count(link).saturating_sub(1);
    send_if_due(out, tree, number, holder, domain, due(link, newest));
}

/// Returns how many commands of a link are pending.
fn pending_count(link: &Link) -> usize
    ensures { result ≡ length (pending_of link.now) }
{
    match link {
        Link::Held { pending, .. } => pending.len(),
        Link::Out(_) | Link::Taking(_) | Link::Dropping(_) => 0,
    }
}

/// Returns that a command has its number, or that a grant is given up.
fn ordered(operator: u16, domain: u16, command: Option<Command>, link: &Link) -> Option<Entry>
    ensures { if_any result ≡ ordering.order_entries operator domain command link.now }
{
    match (command, link) {
        (Some(command), Link::Held { epoch, number, .. }) => Some(Entry::Ordered {
            operator,
            domain,
            epoch: *epoch,
            number: *number,
            command,
        }),
        (None, Link::Dropping(epoch)) => Some(Entry::LetGo {
            holder: Holder::Operator(operator),
            domain,
            epoch: *epoch,
        }),
        _ => None,
    }
}

/// Returns which command of which grant was issued, if one was.
fn issued(domain: u16, command: Option<Command>, link: &Link) -> Option<Mark>
    ensures { result ≡ ordering.issued_by domain command link.now }
{
    match (command, link) {
        (Some(_), Link::Held { epoch, number, .. }) => Some(Mark {
            domain,
            epoch: *epoch,
            number: *number,
        }),
        _ => None,
    }
}
