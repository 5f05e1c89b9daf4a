//! Writes what sessions are told: how their orders ended, and the answers to queries. `service.rt` calls `answer_query`
//! and `write_told`. docs/FORMATS.md, "A node's lines" and "Lines with a tag", fixes every line; `tools/lunskaf.py` and
//! a screen's relay read them. The text of each answer but `counts` and `help` is proved to be `Answers`
//! (`specs/Reply`).

ghost use Rattle.std.specs.Prelude.{◌≡◌, OnOk, IfOk, codes, length, option_map};
ghost use Rattle.smi_tree.specs.Hierarchy.{entry};
ghost use Rattle.smi_session.specs.Reply as spec;
ghost use Rattle.smi_session.specs.Service.{ending_text, replaced_text, told_by};
ghost use Rattle.smi_session.specs.Session.{OnlyReplies};
ghost use Rattle.smi_tree.specs.Text.{words};

use crate::mode::{ChildState, write_mode};
use crate::query::{Query, numbers_in};
use crate::request::behind_first;
use crate::seat_queue::SeatQueue;
use crate::seat_table::SeatTable;
use crate::service::SessionService;
use crate::session::{Deferred, Session};
use crate::state_reader::StateReader;
use crate::station_event::{object_name, push_called};
use crate::subscription::{Subscription, subscription_in};
use crate::tag::{Tag, TaggedLine};
use smi_node::REPLACED;
use smi_protocol::{Entry, Line, Order, Told};
use smi_schedule::{spell, spell_board, spell_report, spell_waiting};
use smi_tree::Tree;
use smi_view::{Picture, Sight};
use std::alloc::AllocError;
use std::collections::VecDeque;
use std::io::Write;
use std::time::Instant;

/// The reply to `version`: the version of the program. It has to be that of CHANGELOG.md, of `specs/Reply`, and of
/// `write_tree` in `crates/smi_web/src/tree_json.rt`.
const VERSION: &[u8] = b"version 0.9\n";

/// The reply to `help`: each line that a client may type, with a line feed. A line that is added to docs/FORMATS.md, "A
/// node's lines", belongs here too; nothing proves that.
const HELP: [&str; 17] = [
    "help order OPERATOR take|drop|ask DOMAIN\n",
    "help order OPERATOR do DOMAIN ACTION\n",
    "help order OPERATOR include|exclude|manual|ignore DOMAIN CHILD\n",
    "help order OPERATOR watch|unwatch OBJECT\n",
    "help report DEVICE STATE\n",
    "help will DEVICE STATE -- the node reports this state when the connection ends\n",
    "help show OBJECT -- the last state that the station took of an object that it watches\n",
    "help states -- the newest state of each object that the station keeps or watches\n",
    "help follow [OBJECT ..] -- these states and each later one, of some objects or of all\n",
    "help actions [DEVICE ..] -- each action that is done at some devices from now on, or at all\n",
    "help actions --with numbers [DEVICE ..] -- the same, with domain, epoch and number of the command\n",
    "help modes -- how the domains of this node have their children: included, manual, ignored or out\n",
    "help under way -- the orders that are not answered yet, with their seconds\n",
    "help withdraw TAG -- an order of this connection that waits for a seat ends as withdrawn\n",
    "help counts -- what this node has counted since it began\n",
    "help version -- the version of this node's program\n",
    "help @TAG LINE -- any of these at once, its answers behind the tag\n",
];

/// Returns the name of an operator by its number, from 1. None if the tree has no such operator.
fn operator_name(tree: &Tree, number: u16) -> Option<&[u8]>
    ensures { option_map (λ n. n.now) result ≡ entry tree.now.operator_names number }
{
    if 1 <= number && number <= tree.operator_count() {
        Some(tree.operator_name(number))
    } else {
        None
    }
}

/// Writes the answer to a question that a newer one of its operator has replaced, in place of what the text had:
/// `replaced ANN ask TPC`, with a line feed.
fn write_replaced(
    text: &mut Vec<u8>,
    tree: &Tree,
    operator: u16,
    domain: u16,
) -> Result<(), AllocError>
    ensures { OnOk result (text.new.items ≡ replaced_text tree.now operator domain) }
{
    text.clear();
    text.extend_from_slice(b"replaced")?;
    push_called(text, operator_name(tree, operator), operator)?;
    text.extend_from_slice(b" ask")?;
    push_called(text, object_name(tree, domain), domain)?;
    text.push(b'\n')?;
    Ok(())
}

/// Writes how an order of an operator ended, in place of what the text had: `told ANN take DCS 0`, with a line feed.
fn write_ending(
    text: &mut Vec<u8>,
    tree: &Tree,
    operator: u16,
    told: Told,
) -> Result<(), AllocError>
    ensures { OnOk result (text.new.items ≡ ending_text tree.now operator told) }
{
    match told.order {
        Order::Ask(domain) if told.code == REPLACED => write_replaced(text, tree, operator, domain),
        _ => spell(text, tree, &Line::Entry(Entry::Told { operator, told })),
    }
}

/// Writes how an order ended, in place of what the text had: `told ANN take DCS 0`; or of a report, which is nobody's,
/// a line as `told report DEVICE STATE CODE`.
///
/// Fails if memory is refused.
pub(crate) fn write_told(
    text: &mut Vec<u8>,
    tree: &Tree,
    operator: Option<u16>,
    told: Told,
) -> Result<(), AllocError>
    ensures { OnOk result (text.new.items ≡ told_by tree.now operator told) }
{
    match operator {
        Some(operator) => write_ending(text, tree, operator, told),
        None => spell_report(text, tree, &told),
    }
}

/// Returns how many whole seconds have passed since an order was given, or 0 if the clock could not be read.
fn seconds_since(now: Option<Instant>, since: Option<Instant>) -> u64
    ensures { result ≡ spec.seconds_since now since }
{
    match (now, since) {
        (Some(now), Some(since)) => now.duration_since(since).as_secs(),
        _ => 0,
    }
}

/// Pushes the last line of a list to a session: what was listed, and how many lines that were, as `states 12`.
fn push_count(
    text: &mut Vec<u8>,
    session: &mut Session,
    tag: Option<Tag>,
    what: &[u8],
    count: usize,
) -> Result<(), AllocError>
    ensures told { OnOk result (session.new ≡ spec.with_count tag what.now count session.old) }
    ensures only { OnlyReplies session.old session.new }
{
    text.clear();
    text.extend_from_slice(what)?;
    match writeln!(text, " {count}") {
        Ok(()) => session.push_reply(tag, text.as_slice()),
        // Writing into a Vec fails only if memory is refused.
        Err(_) => Err(AllocError),
    }
}

/// Pushes the version of the program to a session.
fn push_version(session: &mut Session, tag: Option<Tag>) -> Result<(), AllocError>
    ensures { OnOk result (session.new ≡ spec.with_version tag session.old) }
{
    session.push_reply(tag, VERSION)
}

/// Appends ` dropped N` to the line of `counts`. Appends nothing if the system does not tell how many it has dropped.
fn push_drops(text: &mut Vec<u8>, drops: Option<u64>) -> Result<(), AllocError> {
    match drops {
        Some(drops) => {
            // Takes the line feed off, so that the number is in the same line.
            let _ = text.pop();
            // Writing into a Vec fails only if memory is refused.
            writeln!(text, " dropped {drops}").map_err(|_| AllocError)
        }
        None => Ok(()),
    }
}

/// Pushes a line `way OPERATOR ORDER SECONDS` for each order that is pending at an operator's seat. `listed` is the
/// operator and the queue of the seat.
fn push_pending(
    text: &mut Vec<u8>,
    tree: &Tree,
    now: Option<Instant>,
    session: &mut Session,
    tag: Option<Tag>,
    listed: (u16, &SeatQueue),
) -> Result<(), AllocError>
    ensures { OnOk result (session.new ≡ spec.with_pending tree.now tag now listed.entry.0
        listed.entry.1.now.pending session.old) }
{
    let (operator, queue) = listed;
    for pending in queue.pending().iter() {
        let seconds = seconds_since(now, pending.since);
        spell_waiting(text, tree, operator, pending.order, seconds)?;
        session.push_reply(tag, text.as_slice())?;
    }
    Ok(())
}

/// Pushes a line for each order that is pending at a queue, and returns how many these are. Of the queue for reports it
/// pushes none, and returns 0.
fn push_queue(
    text: &mut Vec<u8>,
    tree: &Tree,
    now: Option<Instant>,
    session: &mut Session,
    tag: Option<Tag>,
    queue: &SeatQueue,
) -> Result<usize, AllocError>
    ensures told { OnOk result (session.new
        ≡ spec.with_queue_of tree.now tag now queue.now.operator queue.now.pending session.old) }
    ensures count { IfOk result (λ count. count ≡ spec.listed_in queue.now.operator queue.now.pending) }
{
    let Some(operator) = queue.operator() else {
        return Ok(0);
    };
    push_pending(text, tree, now, session, tag, (operator, queue))?;
    Ok(queue.pending().len())
}

/// Pushes a line for each order that is pending at these queues, and returns how many these are.
fn push_queues(
    text: &mut Vec<u8>,
    tree: &Tree,
    now: Option<Instant>,
    session: &mut Session,
    tag: Option<Tag>,
    queues: &[SeatQueue],
) -> Result<usize, AllocError>
    ensures told { OnOk result (session.new ≡ spec.with_queues tree.now tag now queues.now session.old) }
    ensures count { IfOk result (λ count. count ≡ spec.listed_beside 0 queues.now) }
{
    let mut count: usize = 0;
    for queue in queues {
        let more = push_queue(text, tree, now, session, tag, queue)?;
        count = count.saturating_add(more);
    }
    Ok(count)
}

/// Pushes the line of an order that waits for a seat, and returns 1. Of a report it pushes none, and returns 0.
fn push_held_one(
    text: &mut Vec<u8>,
    tree: &Tree,
    now: Option<Instant>,
    session: &mut Session,
    tag: Option<Tag>,
    held: Deferred,
) -> Result<usize, AllocError>
    ensures told { OnOk result (session.new ≡ spec.with_held_one tree.now tag now held session.old) }
    ensures count { IfOk result (λ count. count ≡ spec.one_if_listed held) }
{
    let Deferred { operator, pending } = held;
    match operator {
        Some(operator) => {
            let seconds = seconds_since(now, pending.since);
            spell_waiting(text, tree, operator, pending.order, seconds)?;
            session.push_reply(tag, text.as_slice())?;
            Ok(1)
        }
        None => Ok(0),
    }
}

/// Pushes a line for each order that waits for a seat. `listed` is a count so far and these orders; returns the count
/// with theirs added.
fn push_held(
    text: &mut Vec<u8>,
    tree: &Tree,
    now: Option<Instant>,
    session: &mut Session,
    tag: Option<Tag>,
    listed: (usize, &VecDeque<Deferred>),
) -> Result<usize, AllocError>
    ensures told { OnOk result (session.new ≡ spec.with_held tree.now tag now listed.entry.1.now.items session.old) }
    ensures count { IfOk result (λ count. count ≡ spec.held_beside listed.entry.0 listed.entry.1.now.items) }
{
    let (count, held) = listed;
    let mut count = count;
    for it in held.iter() {
        let more = push_held_one(text, tree, now, session, tag, *it)?;
        count = count.saturating_add(more);
    }
    Ok(count)
}

/// Pushes the answer to `under way`: a line for each order of an operator that is not answered yet, and at the end how
/// many they are.
fn push_under_way(
    text: &mut Vec<u8>,
    tree: &Tree,
    now: Option<Instant>,
    session: &mut Session,
    tag: Option<Tag>,
    seats: &SeatTable,
) -> Result<(), AllocError>
    ensures { OnOk result (session.new ≡ spec.with_under_way tree.now tag now seats.now session.old) }
{
    let count = push_queues(text, tree, now, session, tag, seats.queues())?;
    let count = push_held(text, tree, now, session, tag, (count, seats.held()))?;
    push_count(text, session, tag, b"under way", count)
}

/// Pushes the newest state of an object, as `board TPC 1.7 READY`, and returns 1. Returns 0 if no state of it is known.
fn push_state(
    text: &mut Vec<u8>,
    tree: &Tree,
    session: &mut Session,
    tag: Option<Tag>,
    object: u16,
    seen: Option<Sight>,
) -> Result<usize, AllocError>
    ensures told { OnOk result (session.new ≡ spec.with_state tree.now tag object seen session.old) }
    ensures count { IfOk result (λ count. count ≡ spec.one_if_seen seen) }
{
    match seen {
        Some(seen) => {
            spell_board(text, tree, object, Some(seen.shown))?;
            session.push_reply(tag, text.as_slice())?;
            Ok(1)
        }
        None => Ok(0),
    }
}

/// Pushes the answer to `states`: the newest state of each object by number, and at the end how many they are.
fn push_states(
    text: &mut Vec<u8>,
    tree: &Tree,
    picture: &Picture,
    session: &mut Session,
    tag: Option<Tag>,
) -> Result<(), AllocError>
    ensures { OnOk result (session.new
        ≡ spec.with_count tag (codes "states") (spec.states_known picture.now (spec.objects tree.now))
        (spec.with_states tree.now tag picture.now (spec.objects tree.now) session.old)) }
{
    let mut count: usize = 0;
    for place in 0..tree.object_count() {
        let object = place + 1;
        let seen = picture.object(usize::from(object));
        count += push_state(text, tree, session, tag, object, seen)?;
    }
    push_count(text, session, tag, b"states", count)
}

/// Pushes the newest state of each object that the session follows, after the tag of its `follow`.
fn push_followed(
    text: &mut Vec<u8>,
    tree: &Tree,
    picture: &Picture,
    session: &mut Session,
) -> Result<(), AllocError>
    ensures { OnOk result (session.new ≡ spec.with_followed tree.now picture.now (spec.objects tree.now) session.old) }
{
    for place in 0..tree.object_count() {
        let object = place + 1;
        if let Some(tag) = session.state_tag(object) {
            let seen = picture.object(usize::from(object));
            // `follow` prints no count.
            let _ = push_state(text, tree, session, tag, object, seen)?;
        }
    }
    Ok(())
}

/// Pushes the answer to `modes`: a line for each child, and at the end how many they are.
fn push_modes(
    text: &mut Vec<u8>,
    tree: &Tree,
    session: &mut Session,
    tag: Option<Tag>,
    states: &[ChildState],
) -> Result<(), AllocError>
    ensures { OnOk result (session.new ≡ spec.with_count tag (codes "modes") (length states.now)
        (spec.with_modes tree.now tag states.now session.old)) }
{
    for state in states {
        write_mode(text, tree, *state)?;
        session.push_reply(tag, text.as_slice())?;
    }
    push_count(text, session, tag, b"modes", states.len())
}

/// Pushes the answer to `help`: the lines of `HELP`, and at the end how many they are.
fn push_help(text: &mut Vec<u8>, session: &mut Session, tag: Option<Tag>) -> Result<(), AllocError>
    ensures { OnlyReplies session.old session.new }
{
    for line in HELP.iter() {
        session.push_reply(tag, line.as_bytes())?;
    }
    push_count(text, session, tag, b"help", HELP.len())
}

/// Returns how many devices a subscription to actions names: all of the tree if it names none.
fn followed_count(tree: &Tree, subscription: &Subscription) -> usize
    ensures { result ≡ spec.followed_count tree.now subscription.now.objects }
{
    match &subscription.objects {
        Some(objects) => objects.len(),
        None => usize::from(tree.device_count()),
    }
}

impl<G: StateReader + Drop> SessionService<G> {
    ghost use Rattle.std.specs.Prelude.{◌≡◌, OnOk};
    ghost use Rattle.smi_tree.specs.Text.{words};
    ghost use Rattle.smi_session.specs.Reply.{Answers};

    /// Pushes the answer to a query to the session that asked. `follow` and `actions` also subscribe the session.
    ///
    /// Fails if memory is refused to the session's output.
    pub(crate) fn answer_query(
        &mut self,
        tree: &Tree,
        now: Option<Instant>,
        session: &mut Session,
        line: TaggedLine<'_>,
        query: Query,
    ) -> Result<(), AllocError>
        ensures told { OnOk result (Answers tree.now now line.entry.tag (words line.entry.text.now) query self.old
            session.old session.new) }
        ensures same { self.new ≡ self.old }
    {
        let (text, tag) = (&mut self.text, line.tag);
        match query {
            Query::Counts => {
                self.counts.spell(text)?;
                push_drops(text, self.drops)?;
                session.push_reply(tag, text.as_slice())
            }
            Query::UnderWay => push_under_way(text, tree, now, session, tag, &self.seats),
            Query::Modes => push_modes(text, tree, session, tag, self.modes.as_slice()),
            Query::States => push_states(text, tree, &self.picture, session, tag),
            Query::Version => push_version(session, tag),
            Query::Help => push_help(text, session, tag),
            Query::Follow => {
                let names = behind_first(line.text);
                let subscription = subscription_in(self.alloc, tree, tag, false, names)?;
                session.follow_states(subscription);
                push_followed(text, tree, &self.picture, session)
            }
            Query::Actions => {
                let (has_numbers, names) = numbers_in(behind_first(line.text));
                let subscription = subscription_in(self.alloc, tree, tag, has_numbers, names)?;
                let count = followed_count(tree, &subscription);
                session.follow_actions(subscription);
                push_count(text, session, tag, b"actions", count)
            }
        }
    }
}
