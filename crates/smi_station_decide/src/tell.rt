//! A told record: the first holder here whose link it changes hears it.

ghost use Rattle.std.specs.Prelude.{◌≡◌, ◌≤◌, true, ◌<◌, length};
ghost use Rattle.std.specs.Prelude.{option_and_then, slice_get, unwrap_or, false, find, None};
ghost use Rattle.smi_grant.specs.Holder.{is_free};
ghost use Rattle.smi_grant.specs.Keeper as keeper;
ghost use Rattle.smi_grant.specs.Record as record_spec;
ghost use Rattle.smi_grant.specs.Record.{is_record, is_outcome, is_settled};
ghost use Rattle.smi_grant.specs.declared.Holder.TheVariants.{Domain};
ghost use Rattle.smi_protocol.specs.GrantStep.{waits_for_children};
ghost use Rattle.smi_protocol.specs.Grants.{with_link};
ghost use Rattle.smi_protocol.specs.Happening as happening;
ghost use Rattle.smi_protocol.specs.Happening.{answer, answer_command};
ghost use Rattle.smi_protocol.specs.Hearing as hearing;
ghost use Rattle.smi_protocol.specs.Hearing.{listener, operator_told, parent_told};
ghost use Rattle.smi_protocol.specs.Messages.{if_any};
ghost use Rattle.smi_protocol.specs.Sound.{IsSound};
ghost use Rattle.smi_rows.specs.Ranges.{is_standing};
ghost use Rattle.smi_station_decide.specs.Handing.{with_step, answer_at, told_end};
ghost use Rattle.smi_station_decide.specs.Leaving.{came_to_rest};
ghost use Rattle.smi_station_decide.specs.Plans.{MayOrder, Plans};
ghost use Rattle.smi_station_grants.specs.Change.{runs};
ghost use Rattle.smi_station_grants.specs.GrantTable.{grants_of};
ghost use Rattle.smi_station_output.specs.Out.{answered_after, most_answers, sent_after};
ghost use Rattle.smi_tree.specs.Lawful.{IsBetween};
ghost use Rattle.smi_tree.specs.Lookups.{domain_count, station_count, parent_of};
ghost use Rattle.smi_tree.specs.Roles.{holder_station, is_parent};

use crate::due::send_due;
use crate::record::{is_settled, record_after, send_record};
use smi_command::{Link, LinkHeard, Settlement, Settlements, told};
use smi_grant::{Command, Holder, Record, Verdict, settle};
use smi_protocol::{Answer, Entry, Mark, Order, Told};
use smi_station_grants::{Change, GrantTable};
use smi_station_output::{Entries, Out};
use smi_tree::{holder_station, is_keeper};

/// Decides a record that is told: the first holder here whose link it changes hears it, if there is one.
pub fn decide_tell(out: &mut Out, kept: &GrantTable<'_>, domain: u16, news: &Record) -> Change
    requires sound { IsSound kept.now.tree (grants_of kept.now) }
    requires domain { IsBetween 1 (domain_count kept.now.tree) domain }
    requires news { is_record news.now ≡ true }
    requires outcome { is_outcome news.now.outcome ≡ true }
    requires room { length out.old.answers ≡ 0 }
    ensures plan { Plans kept.now.tree kept.now.number (grants_of kept.now)
        (hearing.tell_comes kept.now.tree kept.now.number (grants_of kept.now) domain news.now) result }
    ensures sent { out.new ≡ with_step out.old
        (hearing.tell_comes kept.now.tree kept.now.number (grants_of kept.now) domain news.now) }
    ensures few { length out.new.answers ≤ 8 }
    ensures quiet { runs result ≡ None }
{
    let _tree = kept.tree();
    match listener(kept, domain, news) {
        Some(Holder::Operator(operator)) => tell_operator(out, kept, operator, domain, news),
        Some(Holder::Domain(parent)) => tell_parent(out, kept, parent, domain, news),
        Some(Holder::Free) => Change::Nothing,
        None => Change::Nothing,
    }
}

// ---- who listens

/// Returns the first holder here whose link a record changes: an operator of the station, by number, or else the
/// domain's parent.
fn listener(kept: &GrantTable<'_>, domain: u16, news: &Record) -> Option<Holder>
    ensures { result ≡ listener kept.now.tree kept.now.number (grants_of kept.now) domain news.now }
{
    let tree = kept.tree();
    let operators = tree.operators(kept.number());
    for operator in operators {
        let holder = Holder::Operator(*operator);
        if hears(&kept.link(holder, domain), holder, news) {
            return Some(holder);
        }
    }
    listening_parent(kept, domain, news)
}

/// Returns the parent of a domain, if it is kept here and the record changes its link.
fn listening_parent(kept: &GrantTable<'_>, domain: u16, news: &Record) -> Option<Holder>
    ensures { result ≡ find (λ who. hearing.hears ((grants_of kept.now).links who domain) who news.now)
        (hearing.parent_here kept.now.tree kept.now.number (parent_of kept.now.tree domain)) }
{
    let parent = kept.tree().parent(domain)?;
    let holder = Holder::Domain(parent);
    if is_keeper(kept.tree(), kept.number(), parent)
        && hears(&kept.link(holder, domain), holder, news)
    {
        Some(holder)
    } else {
        None
    }
}

/// Returns true if a record changes the link of this holder.
fn hears(link: &Link, holder: Holder, news: &Record) -> bool
    requires { is_free holder ≡ false }
    ensures { result ≡ hearing.hears link.now holder news.now }
{
    let (_, heard) = told(link, holder, news);
    match holder {
        Holder::Domain(_) => is_heard(&heard) && !is_ahead(link, news),
        _ => is_heard(&heard),
    }
}

/// Returns true if a record that was told has changed the link.
fn is_heard(heard: &LinkHeard) -> bool
    ensures { result ≡ hearing.is_heard heard.now }
{
    match heard {
        LinkHeard::Unchanged => false,
        LinkHeard::Renewed | LinkHeard::Settled(_) => true,
    }
}

/// Returns true if a record shows more commands of the link's grant than the link has issued.
fn is_ahead(link: &Link, news: &Record) -> bool
    ensures { result ≡ hearing.is_ahead link.now news.now }
{
    match link {
        Link::Held { epoch, number, .. } => news.epoch == *epoch && *number < news.last,
        _ => false,
    }
}

// ---- at an operator's link

/// Tells an operator's link a record that it listens to: what it is due now is sent, and what has settled is
/// answered.
fn tell_operator(
    out: &mut Out,
    kept: &GrantTable<'_>,
    operator: u16,
    domain: u16,
    news: &Record,
) -> Change
    requires operator { MayOrder kept.now.tree kept.now.number operator domain }
    requires sound { IsSound kept.now.tree (grants_of kept.now) }
    requires news { is_record news.now ≡ true }
    requires room { length out.old.answers ≡ 0 }
    ensures plan { Plans kept.now.tree kept.now.number (grants_of kept.now)
        (hearing.operator_told kept.now.tree kept.now.number (grants_of kept.now) operator domain news.now) result }
    ensures sent { out.new ≡ with_step out.old
        (hearing.operator_told kept.now.tree kept.now.number (grants_of kept.now) operator domain news.now) }
    ensures few { length out.new.answers ≤ 8 }
{
    let holder = Holder::Operator(operator);
    let old = kept.link(holder, domain);
    let (link, heard) = told(&old, holder, news);
    send_due(out, kept.tree(), kept.number(), holder, domain, &link);
    answer_heard(out, operator, domain, &old, &heard);
    out.set_entries(Entries::one(learned(holder, domain, &old, &link)));
    operator_told(kept, operator, domain, news)
}

/// Tells an operator's link a record.
fn operator_told(kept: &GrantTable<'_>, operator: u16, domain: u16, news: &Record) -> Change
    requires { MayOrder kept.now.tree kept.now.number operator domain }
    ensures { Plans kept.now.tree kept.now.number (grants_of kept.now)
        (operator_told kept.now.tree kept.now.number (grants_of kept.now) operator domain news.now) result }
{
    let holder = Holder::Operator(operator);
    let (link, _) = told(&kept.link(holder, domain), holder, news);
    Change::Linked {
        operator,
        domain,
        link,
    }
}

/// Answers what has settled with a record, if anything.
fn answer_heard(out: &mut Out, operator: u16, domain: u16, link: &Link, heard: &LinkHeard)
    requires room { length out.old.answers ≡ 0 }
    ensures answers { out.new
        ≡ record out.old {
          answers = answered_after out.old.answers
              (hearing.answers_of operator domain link.now (hearing.settlements_in heard.now));
        } }
    ensures few { length out.new.answers ≤ 8 }
{
    match heard {
        LinkHeard::Settled(settlements) => send_answers(out, operator, domain, link, settlements),
        LinkHeard::Unchanged => {}
        LinkHeard::Renewed => {}
    }
}

/// Answers what has settled, one after the other.
fn send_answers(out: &mut Out, operator: u16, domain: u16, link: &Link, settlements: &Settlements)
    requires room { length out.old.answers ≡ 0 }
    ensures answers { out.new
        ≡ record out.old {
          answers = answered_after out.old.answers
              (hearing.answers_of operator domain link.now settlements.now);
        } }
    ensures few { length out.new.answers ≤ 8 }
{
    for i in 0..settlements.len() {
        send_if_any(out, answer_for(operator, domain, link, settlements, i));
    }
}

/// Adds an answer, if there is one.
fn send_if_any(out: &mut Out, answer: Option<Answer>)
    requires { length out.old.answers < most_answers }
    ensures { out.new ≡ record out.old { answers = answered_after out.old.answers (if_any answer) } }
{
    match answer {
        Some(answer) => out.answer(answer),
        None => {}
    }
}

/// Returns what is answered for the settlement at a place, if there is one.
fn answer_for(
    operator: u16,
    domain: u16,
    link: &Link,
    settlements: &Settlements,
    i: usize,
) -> Option<Answer>
    ensures { result ≡ option_and_then (answer_at operator domain link.now i) (slice_get settlements.now i) }
{
    let settlement = settlements.get(i)?;
    answer_at(operator, domain, link, i, settlement)
}

/// Returns what is answered for the settlement at a place: the order is read off the link as it was.
fn answer_at(
    operator: u16,
    domain: u16,
    link: &Link,
    i: usize,
    settlement: Settlement,
) -> Option<Answer>
    ensures { result ≡ answer_at operator domain link.now i settlement }
{
    match *link {
        Link::Taking(_) => Some(ended(operator, Order::Take(domain), settlement.code)),
        Link::Dropping(_) => Some(ended(operator, Order::Drop(domain), settlement.code)),
        Link::Held { epoch, pending, .. } => {
            let command = pending.get(i)?;
            Some(settled(
                operator,
                domain,
                epoch,
                settlement.number,
                command,
                settlement.code,
            ))
        }
        Link::Out(_) => None,
    }
}

/// Tells an operator the code of an order to take or to drop a domain.
fn ended(operator: u16, order: Order, code: u16) -> Answer
    ensures { result ≡ answer operator order code }
{
    Answer {
        operator,
        told: Told {
            order,
            code,
            asked: None,
        },
        mark: None,
    }
}

/// Tells an operator the code of a command that was issued.
fn settled(
    operator: u16,
    domain: u16,
    epoch: u64,
    number: u32,
    command: Command,
    code: u16,
) -> Answer
    ensures { result ≡ answer_command operator domain epoch number command code }
{
    Answer {
        operator,
        told: Told {
            order: order_of(domain, command),
            code,
            asked: None,
        },
        mark: Some(Mark {
            domain,
            epoch,
            number,
        }),
    }
}

/// Returns the order that gives a command to a domain.
fn order_of(domain: u16, command: Command) -> Order
    ensures { result ≡ happening.order_of domain command }
{
    match command {
        Command::Do(action) => Order::Do(domain, action),
        Command::Include(target) => Order::Include(domain, target),
        Command::Exclude(target) => Order::Exclude(domain, target),
        Command::Manual(target) => Order::Manual(domain, target),
        Command::Ignore(target) => Order::Ignore(domain, target),
    }
}

/// Returns that a take is granted.
fn learned(holder: Holder, domain: u16, old: &Link, new: &Link) -> Option<Entry>
    ensures { if_any result ≡ hearing.learned holder domain old.now new.now }
{
    match (old, new) {
        (Link::Taking(_), Link::Held { epoch, .. }) => Some(Entry::Learned {
            holder,
            domain,
            epoch: *epoch,
        }),
        _ => None,
    }
}

// ---- at a domain's link to a child

/// Tells a domain's link to a child a record that it listens to: if its command ends with it, its holder is told
/// so, and what the link is due now is sent.
fn tell_parent(
    out: &mut Out,
    kept: &GrantTable<'_>,
    parent: u16,
    child: u16,
    news: &Record,
) -> Change
    requires sound { IsSound kept.now.tree (grants_of kept.now) }
    requires parent { IsBetween 1 (domain_count kept.now.tree) parent }
    requires child { is_parent kept.now.tree child parent ≡ true }
    requires news { is_record news.now ≡ true }
    requires outcome { is_outcome news.now.outcome ≡ true }
    requires hears { hearing.hears ((grants_of kept.now).links (Domain parent) child) (Domain parent) news.now ≡ true }
    ensures plan { Plans kept.now.tree kept.now.number (grants_of kept.now)
        (hearing.parent_told kept.now.tree kept.now.number (grants_of kept.now) parent child news.now) result }
    ensures sent { out.new ≡ with_step out.old
        (hearing.parent_told kept.now.tree kept.now.number (grants_of kept.now) parent child news.now) }
    ensures quiet { runs result ≡ None }
{
    let tree = kept.tree();
    let holder = Holder::Domain(parent);
    let change = parent_told(kept, parent, child, news);
    let standing = record_after(kept, &change, parent);
    send_end(out, kept, parent, standing);
    let old = kept.link(holder, child);
    let (link, _) = told(&old, holder, news);
    send_due(out, tree, kept.number(), holder, child, &link);
    out.set_entries(Entries::two(
        learned(holder, child, &old, &link),
        rested(parent, kept.record(parent), standing),
    ));
    change
}

/// Tells a parent's link to a child a record.
fn parent_told(kept: &GrantTable<'_>, parent: u16, child: u16, news: &Record) -> Change
    requires least { 1 ≤ parent }
    requires most { parent ≤ domain_count kept.now.tree }
    requires child { is_parent kept.now.tree child parent ≡ true }
    ensures quiet { runs result ≡ None }
    ensures plan { Plans kept.now.tree kept.now.number (grants_of kept.now)
        (parent_told kept.now.tree kept.now.number (grants_of kept.now) parent child news.now) result }
{
    let holder = Holder::Domain(parent);
    let (link, heard) = told(&kept.link(holder, child), holder, news);
    let code = gathered_with(kept.gathered(parent), &heard);
    let standing = kept.record(parent);
    if ends(kept, parent, child, &link) {
        Change::ChildReported {
            parent,
            child,
            link,
            record: settled_record(&standing, code),
            code: 0,
        }
    } else {
        Change::ChildReported {
            parent,
            child,
            link,
            record: standing,
            code,
        }
    }
}

/// Returns true if the command of a domain ends that has this link to one of its children.
fn ends(kept: &GrantTable<'_>, domain: u16, child: u16, link: &Link) -> bool
    requires least { 1 ≤ domain }
    requires most { domain ≤ domain_count kept.now.tree }
    ensures { result ≡ hearing.ends kept.now.tree (with_link (grants_of kept.now) (Domain domain) child link.now)
        domain }
{
    !is_settled(kept.record(domain).phase) && !waits_with(kept, domain, child, link)
}

/// Returns true if a domain with this link to one of its children waits for that child.
fn waits_with(kept: &GrantTable<'_>, domain: u16, child: u16, link: &Link) -> bool
    requires least { 1 ≤ domain }
    requires most { domain ≤ domain_count kept.now.tree }
    ensures { result ≡ waits_for_children kept.now.tree
        (with_link (grants_of kept.now) (Domain domain) child link.now) domain }
{
    let holder = Holder::Domain(domain);
    let children = kept.tree().children(domain);
    for other in children {
        let waits = if *other == child {
            link.is_unsettled()
        } else {
            kept.link(holder, *other).is_unsettled()
        };
        if waits {
            return true;
        }
    }
    false
}

/// Returns the largest code, of this one and those with which commands have settled.
fn gathered_with(code: u16, heard: &LinkHeard) -> u16
    ensures { result ≡ hearing.gathered_with code (hearing.settlements_in heard.now) }
{
    let LinkHeard::Settled(settlements) = heard else {
        return code;
    };
    let mut largest = code;
    for i in 0..settlements.len() {
        if let Some(settlement) = settlements.get(i) {
            largest = largest.max(settlement.code);
        }
    }
    largest
}

/// Returns the record of a domain whose command has ended.
fn settled_record(standing: &Record, code: u16) -> Record
    requires { is_settled standing.now.phase ≡ false }
    ensures { result ≡ keeper.settled standing.now code }
{
    match settle(standing, code) {
        Verdict::New(settled) => settled,
        Verdict::Same => *standing,
    }
}

/// Tells the domain's holder this record, if the domain's command ends with it.
fn send_end(out: &mut Out, kept: &GrantTable<'_>, domain: u16, standing: Record)
    requires domain { IsBetween 1 (domain_count kept.now.tree) domain }
    requires told { is_standing standing ≡ true }
    requires to { record_spec.is_settled ((grants_of kept.now).records domain).phase ≡ false
        → IsBetween 1 (station_count kept.now.tree) (unwrap_or (holder_station kept.now.tree standing.holder) 0) }
    ensures { out.new
        ≡ record out.old {
          datagrams = sent_after out.old.datagrams
              (told_end kept.now.tree kept.now.number domain ((grants_of kept.now).records domain) standing);
        } }
{
    if !is_settled(kept.record(domain).phase) && is_settled(standing.phase) {
        send_record(
            out,
            kept,
            holder_station(kept.tree(), standing.holder).unwrap_or(0),
            domain,
            standing,
        );
    }
}

/// Returns that the command of a domain has ended, if it has with this record of it.
fn rested(domain: u16, old: Record, new: Record) -> Option<Entry>
    ensures { if_any result ≡ came_to_rest domain old new }
{
    if !is_settled(old.phase) && is_settled(new.phase) {
        Some(Entry::Settled {
            domain,
            epoch: new.epoch,
            number: new.last,
            outcome: new.outcome,
        })
    } else {
        None
    }
}
