//! A command: it begins at its domain, if the domain's record admits it, and reaches the children once.

ghost use Rattle.std.specs.List.{flat_map};
ghost use Rattle.std.specs.Prelude.{◌≡◌, ◌<◌, false, true, if◌then◌else◌, ◌≤◌, IfNone};
ghost use Rattle.std.specs.Prelude.{IfOk, IfSome, None, OnErr, Some, ◌++◌, ◌∷◌, All, OnOk, is_some};
ghost use Rattle.smi_command.specs.Link.{is_held};
ghost use Rattle.smi_grant.specs.Holder.{is_free};
ghost use Rattle.smi_grant.specs.Keeper as keeper;
ghost use Rattle.smi_grant.specs.Outcome.{outcome_code};
ghost use Rattle.smi_grant.specs.Record.{is_settled, last_number};
ghost use Rattle.smi_grant.specs.declared.Command.{Command};
ghost use Rattle.smi_protocol.specs.Children as spec;
ghost use Rattle.smi_protocol.specs.Children.{code_at_domain, own_code};
ghost use Rattle.smi_protocol.specs.GrantStep.{waits_for_children};
ghost use Rattle.smi_protocol.specs.Grants.{Grants};
ghost use Rattle.smi_protocol.specs.Keeping as keeping;
ghost use Rattle.smi_protocol.specs.Keeping.{commanded};
ghost use Rattle.smi_protocol.specs.Messages.{if_any};
ghost use Rattle.smi_protocol.specs.Sound.{IsCommand, IsSound};
ghost use Rattle.smi_protocol.specs.declared.entry.Entry.TheVariants as entry;
ghost use Rattle.smi_station_decide.specs.Asked.{MayBeAsked};
ghost use Rattle.smi_station_decide.specs.Begun.{Begins};
ghost use Rattle.smi_station_decide.specs.Handing.{with_step};
ghost use Rattle.smi_station_decide.specs.Leaving.{at_rest};
ghost use Rattle.smi_station_decide.specs.Plans.{Plans};
ghost use Rattle.smi_station_grants.specs.Change.{changed, runs};
ghost use Rattle.smi_station_grants.specs.Children.{meant};
ghost use Rattle.smi_station_grants.specs.Commanded.{AreSo};
ghost use Rattle.smi_station_grants.specs.GrantTable.{grants_of};
ghost use Rattle.smi_station_output.specs.Out.{sent_after};
ghost use Rattle.smi_tree.specs.Hierarchy.{Hierarchy};
ghost use Rattle.smi_tree.specs.Lawful.{IsBetween};
ghost use Rattle.smi_tree.specs.Lookups.{domain_count, station_count};

use crate::due::send_due;
use crate::record::{answer_ask, is_settled, send_record};
use smi_command::{Link, begin_drop, begin_take, issue};
use smi_grant::{Command, Holder, Outcome, Record, Verdict, admit, start};
use smi_protocol::Entry;
use smi_rows::Mode;
use smi_station_grants::{
    Change, ChildChange, CommandedChild, CommandedChildren, GrantTable, link_after,
};
use smi_station_output::{Entries, Out};
use smi_tree::Tree;
use std::alloc::AllocError;

/// A command that begins at a domain: the domain's record with it, the code that the domain has then gathered, and what
/// the command does to its children.
#[derive(Drop)]
pub struct BegunCommand {
    pub standing: Record,
    pub code: u16,
    pub children: CommandedChildren,
}

/// The result of a command: whether a child has to answer, the largest of the codes with which it begins, the domain's
/// own and its children's, and what it does to these.
#[derive(Drop)]
struct CommandEffect {
    is_busy: bool,
    code: u16,
    children: CommandedChildren,
}

// ---- what is decided and handed out

/// Handles a command: its sender is told the domain's record after it, and if it runs, the children's links
/// that it has changed are asked for what they are due.
///
/// Its error is that memory was refused for a command that runs; then nothing is handed out.
pub fn decide_run(
    out: &mut Out,
    kept: &GrantTable<'_>,
    from: u16,
    domain: u16,
    holder: Holder,
    epoch: u64,
    number: u32,
    command: Command,
) -> Result<Change, AllocError>
    requires sound { IsSound kept.now.tree (grants_of kept.now) }
    requires from { IsBetween 1 (station_count kept.now.tree) from }
    requires domain { IsBetween 1 (domain_count kept.now.tree) domain }
    requires party { is_free holder ≡ false }
    requires number { number ≤ last_number }
    requires command { IsCommand kept.now.tree command }
    ensures plan { IfOk result (Plans kept.now.tree kept.now.number (grants_of kept.now)
        (keeping.run_comes kept.now.tree kept.now.number (grants_of kept.now) from domain holder epoch number
        command)) }
    ensures sent { OnOk result (out.new ≡ with_step out.old
        (keeping.run_comes kept.now.tree kept.now.number (grants_of kept.now) from domain holder epoch number
        command)) }
    // It runs exactly if the record admits it.
    ensures runs { IfOk result (λ change. runs change
        ≡ (if keeper.admits ((grants_of kept.now).records domain) holder epoch number then Some (domain, command)
        else None)) }
    ensures memory { OnErr result (is_some
        (keeping.run_comes kept.now.tree kept.now.number (grants_of kept.now) from domain holder epoch number
        command).row ≡ true) }
    ensures unchanged { OnErr result (out.new ≡ out.old) }
{
    let _tree = kept.tree();
    match run_comes(kept, domain, holder, epoch, number, command)? {
        Some(begun) => {
            out.set_entries(ran(
                &begun.children,
                domain,
                epoch,
                number,
                command,
                begun.standing,
            ));
            send_record(out, kept, from, domain, begun.standing);
            send_to_children(out, kept, domain, &begun.children);
            Ok(Change::Ran {
                domain,
                command,
                record: begun.standing,
                code: begun.code,
                children: begun.children,
            })
        }
        None => {
            answer_ask(out, kept, from, domain);
            Ok(Change::Nothing)
        }
    }
}

/// Decides a command. If the domain's record admits it, it begins; else nothing comes of it.
///
/// Its error is that memory was refused for a command that the record admits.
fn run_comes(
    kept: &GrantTable<'_>,
    domain: u16,
    holder: Holder,
    epoch: u64,
    number: u32,
    command: Command,
) -> Result<Option<BegunCommand>, AllocError>
    requires least { 1 ≤ domain }
    requires most { domain ≤ domain_count kept.now.tree }
    requires party { is_free holder ≡ false }
    requires number { number ≤ last_number }
    ensures begins { IfOk result (λ begun. IfSome begun (Begins kept.now.tree (grants_of kept.now) domain holder
        epoch number command)) }
    ensures refused { IfOk result (λ begun. IfNone begun
        (keeper.admits ((grants_of kept.now).records domain) holder epoch number ≡ false)) }
    ensures memory { OnErr result
        (keeper.admits ((grants_of kept.now).records domain) holder epoch number ≡ true) }
{
    let standing = kept.record(domain);
    if !admit(&standing, holder, epoch, number) {
        return Ok(None);
    }
    let effect = command_effect(kept, domain, command)?;
    Ok(Some(BegunCommand {
        standing: started(&standing, effect.is_busy, effect.code),
        code: gathered_at_first(effect.is_busy, effect.code),
        children: effect.children,
    }))
}

/// Returns the result of a command of a domain, by one look at each of its children.
///
/// Its error is that memory was refused.
fn command_effect(
    kept: &GrantTable<'_>,
    domain: u16,
    command: Command,
) -> Result<CommandEffect, AllocError>
    requires least { 1 ≤ domain }
    requires most { domain ≤ domain_count kept.now.tree }
    ensures busy { IfOk result (λ effect. effect.is_busy
        ≡ waits_for_children kept.now.tree (commanded kept.now.tree (grants_of kept.now) domain command) domain) }
    ensures code { IfOk result (λ effect. effect.code
        ≡ own_code kept.now.tree (grants_of kept.now) domain command) }
    ensures children { IfOk result (λ effect. AreSo kept.now.tree (grants_of kept.now) domain command
        effect.children) }
{
    let tree = kept.tree();
    let mut is_busy = false;
    let mut code = code_at_domain(tree, domain, command);
    let children = tree.children(domain);
    let mut known = Vec::with_capacity(kept.alloc(), children.len())?;
    for child in children {
        let link = kept.link(Holder::Domain(domain), *child);
        let change = child_change(tree, domain, command, *child, &link, kept.mode(*child));
        is_busy |= link_after(&change, &link).is_unsettled();
        code = code.max(code_of(&change));
        known.push(CommandedChild {
            child: *child,
            change,
        })?;
    }
    Ok(CommandEffect {
        is_busy,
        code,
        children: CommandedChildren::of_list(known),
    })
}

/// Sends what the children's links are due that a command has changed, by child.
fn send_to_children(out: &mut Out, kept: &GrantTable<'_>, domain: u16, known: &CommandedChildren)
    requires domain { IsBetween 1 (domain_count kept.now.tree) domain }
    requires asked { All (MayBeAsked kept.now.tree) known.now }
    ensures { out.new
        ≡ record out.old {
          datagrams = sent_after out.old.datagrams
              (flat_map (λ x. keeping.child_request kept.now.tree kept.now.number domain x.child (meant x.change))
              known.now);
        } }
{
    for one in known.as_slice() {
        if let ChildChange::Relinked(link) = one.change {
            send_due(
                out,
                kept.tree(),
                kept.number(),
                Holder::Domain(domain),
                one.child,
                &link,
            );
        }
    }
}

// ---- at one child

/// Returns what a command of a domain does to a child.
fn child_change(
    tree: &Tree,
    domain: u16,
    command: Command,
    child: u16,
    link: &Link,
    mode: Mode,
) -> ChildChange
    ensures { meant result ≡ spec.child_change tree.now domain command child link.now mode }
{
    match command {
        Command::Do(action) => {
            if tree.accepts(domain, action) {
                handed_on(Outcome::Done, command, link, mode)
            } else {
                ChildChange::Stays(Outcome::Done)
            }
        }
        Command::Include(target)
        | Command::Exclude(target)
        | Command::Manual(target)
        | Command::Ignore(target) => targeted(tree, target, command, child, link, mode),
    }
}

fn targeted(
    tree: &Tree,
    target: u16,
    command: Command,
    child: u16,
    link: &Link,
    mode: Mode,
) -> ChildChange
    ensures { meant result ≡ spec.targeted tree.now target command child link.now mode }
{
    if target == child {
        aimed_at(command, link, mode)
    } else if tree.is_below(target, child) {
        handed_on(Outcome::NotHandedOn, command, link, mode)
    } else {
        ChildChange::Stays(Outcome::Done)
    }
}

fn aimed_at(command: Command, link: &Link, mode: Mode) -> ChildChange
    ensures { meant result ≡ spec.aimed_at command link.now mode }
{
    match command {
        Command::Do(_) => ChildChange::Stays(Outcome::Done),
        Command::Include(_) => {
            if link.is_held() {
                comes_into(Mode::Included, mode)
            } else {
                relinked_or(Outcome::Done, begin_take(link))
            }
        }
        Command::Exclude(_) => relinked_or(Outcome::ChildNotHeld, begin_drop(link)),
        Command::Manual(_) => comes_into_held(Mode::Manual, link, mode),
        Command::Ignore(_) => comes_into_held(Mode::Ignored, link, mode),
    }
}

fn comes_into_held(new: Mode, link: &Link, mode: Mode) -> ChildChange
    ensures { meant result ≡ (if is_held link.now then spec.comes_into new mode else spec.Stays 4) }
{
    if link.is_held() {
        comes_into(new, mode)
    } else {
        ChildChange::Stays(Outcome::ChildNotHeld)
    }
}

fn comes_into(new: Mode, old: Mode) -> ChildChange
    ensures { meant result ≡ spec.comes_into new old }
{
    if new == old {
        ChildChange::Stays(Outcome::InThatMode)
    } else {
        ChildChange::ComesInto(new)
    }
}

fn handed_on(otherwise: Outcome, command: Command, link: &Link, mode: Mode) -> ChildChange
    ensures { meant result ≡ spec.handed_on (outcome_code otherwise) command link.now mode }
{
    if link.is_held() && mode != Mode::Manual {
        relinked_or(Outcome::ChildNumbersUsed, issue(link, command))
    } else {
        ChildChange::Stays(otherwise)
    }
}

fn relinked_or(otherwise: Outcome, link: Result<Link, u16>) -> ChildChange
    ensures { meant result ≡ spec.relinked_or (outcome_code otherwise) link }
{
    match link {
        Ok(link) => ChildChange::Relinked(link),
        Err(_) => ChildChange::Stays(otherwise),
    }
}

/// Returns the code of the outcome that comes of one child.
fn code_of(change: &ChildChange) -> u16
    ensures { result ≡ spec.code_of (meant change.now) }
{
    match change {
        ChildChange::Stays(outcome) => outcome.code(),
        ChildChange::Relinked(_) | ChildChange::ComesInto(_) => Outcome::Done.code(),
    }
}

// ---- at the domain

/// Returns the code of a command at its domain, whatever becomes of it at the children.
fn code_at_domain(tree: &Tree, domain: u16, command: Command) -> u16
    ensures { result ≡ code_at_domain tree.now domain command }
{
    let (holds, otherwise) = match command {
        Command::Do(action) => (tree.accepts(domain, action), Outcome::NotAccepted),
        Command::Include(target)
        | Command::Exclude(target)
        | Command::Manual(target)
        | Command::Ignore(target) => (tree.is_below(target, domain), Outcome::NotBelow),
    };
    if holds {
        Outcome::Done.code()
    } else {
        otherwise.code()
    }
}

/// Returns what a domain has gathered when a command begins: the command's own code while it is busy.
fn gathered_at_first(busy: bool, own: u16) -> u16
    ensures { result ≡ (if busy then own else 0) }
{
    if busy { own } else { 0 }
}

/// Returns the record of a domain at which the next command has begun.
fn started(standing: &Record, busy: bool, code: u16) -> Record
    requires held { is_free standing.now.holder ≡ false }
    requires settled { is_settled standing.now.phase ≡ true }
    requires room { standing.now.last < last_number }
    ensures { result ≡ keeper.started standing.now busy code }
{
    match start(standing, busy, code) {
        Verdict::New(started) => started,
        Verdict::Same => *standing,
    }
}

// ---- what a command leaves in a trace

/// Returns the entries of a command that runs: that it has run, what becomes of its target, and that it has ended, if
/// it has with this record of its domain.
fn ran(
    known: &CommandedChildren,
    domain: u16,
    epoch: u64,
    number: u32,
    command: Command,
    standing: Record,
) -> Entries
    ensures { (h : Hierarchy) (g : Grants) → AreSo h g domain command known.now
        → result ≡ entry.Ran domain epoch number command ∷ keeping.child_entries h g domain command
        ++ at_rest domain epoch number standing }
{
    let ran = Entry::Ran {
        domain,
        epoch,
        number,
        command,
    };
    Entries::three(
        ran,
        of_child(known, domain, command),
        ended(domain, epoch, number, standing),
    )
}

/// Returns what a command leaves of the child that it is about.
fn of_child(known: &CommandedChildren, domain: u16, command: Command) -> Option<Entry>
    ensures { (h : Hierarchy) (g : Grants) → AreSo h g domain command known.now
        → if_any result ≡ keeping.child_entries h g domain command }
{
    match command {
        Command::Do(_) => None,
        Command::Include(target) => at_target(known, domain, target),
        Command::Exclude(target) => at_target(known, domain, target),
        Command::Manual(target) => at_target(known, domain, target),
        Command::Ignore(target) => at_target(known, domain, target),
    }
}

/// Returns what becomes of a command's target, if it is a child of the domain.
fn at_target(known: &CommandedChildren, domain: u16, target: u16) -> Option<Entry>
    ensures { (h : Hierarchy) (g : Grants) (c : Command) → AreSo h g domain c known.now
        → if_any result ≡ keeping.entries_at h g domain c target }
{
    match known.of(target) {
        Some(change) => child_changed(domain, target, &change),
        None => None,
    }
}

/// Returns that a child is let go, or comes into a mode.
fn child_changed(domain: u16, child: u16, change: &ChildChange) -> Option<Entry>
    ensures { if_any result ≡ keeping.let_go_of domain child (meant change.now)
        ++ keeping.mode_changed child (meant change.now) }
{
    match *change {
        ChildChange::Relinked(Link::Dropping(epoch)) => Some(Entry::LetGo {
            holder: Holder::Domain(domain),
            domain: child,
            epoch,
        }),
        ChildChange::ComesInto(mode) => Some(Entry::InMode {
            domain: child,
            mode,
        }),
        _ => None,
    }
}

/// Returns that a command has ended, if it has with this record of its domain.
fn ended(domain: u16, epoch: u64, number: u32, standing: Record) -> Option<Entry>
    ensures { if_any result ≡ at_rest domain epoch number standing }
{
    if is_settled(standing.phase) {
        Some(Entry::Settled {
            domain,
            epoch,
            number,
            outcome: standing.outcome,
        })
    } else {
        None
    }
}
