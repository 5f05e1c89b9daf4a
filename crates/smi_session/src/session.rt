//! A session: a client that types lines, what of its lines still waits, and what is to be sent to it. `smi_console` has
//! one for each connection and one for the standard input; `service.rt` handles their lines. Its limits are promised in
//! docs/FORMATS.md, "Lines with a tag" and "Connections".

ghost use Rattle.std.specs.Prelude.{◌≡◌, ◌==◌, ◌<◌, IfSome, length};
ghost use Rattle.std.specs.List.{position};

use crate::request::SessionRequest;
use crate::seat_queue::PendingOrder;
use crate::subscription::Subscription;
use crate::tag::Tag;
use crate::trust::{Trust, is_strange};
use crate::will::DeviceWill;
use std::alloc::{AllocError, Global};
use std::collections::VecDeque;
use std::marker::Model;

/// The most lines without a tag that wait for the answer of the one before. Then no further line is taken from the
/// session. docs/FORMATS.md, "Lines with a tag", and `has_room` (`specs/Session`) have the number too.
const MOST_WAITING: usize = 64;

/// The most bytes of output that a session may have unsent, 64 KiB. `smi_console` ends a connection that has more, and
/// counts a standard output that has more as one that can't be written (docs/FORMATS.md, "Connections").
pub const MOST_UNSENT: usize = 64 * 1024;

/// No further line of a session is taken while it has more than this many bytes unsent. It is less than `MOST_UNSENT`,
/// so that a client which types faster than it reads is held up, and not ended, for the answers to its own lines.
/// `has_room` (`specs/Session`) has the number too.
const MANY_UNSENT: usize = 16 * 1024;

/// How a session is answered.
#[derive(Clone, Copy)]
pub enum ReplyStyle {
    /// For a script, at the standard input: a fault goes to the errors, by its code alone. Only a line with a tag may
    /// be a query.
    Script,
    /// For a person, at a connection: a fault is told in words, among the answers. Any line may be a query.
    Human,
}

/// A line with its number, from 1.
///
/// Contracts see both.
#[derive(Drop)]
pub struct NumberedLine {
    /// The number of the line in its session, from 1. Its fault is told with it.
    pub(crate) number: u64,
    /// The line without its line feed and the carriage return before that.
    pub(crate) line: Vec<u8>,
}

impl Model for NumberedLine {
    ghost use Rattle.smi_session.specs.Session.{LineAt};

    ghost Value = { LineAt };

    ghost view = { λ n. record { number = n.number; line = n.line.items } };
}

/// An order that waits for a seat, in the table of seats or with its session.
#[derive(Clone, Copy)]
pub struct Deferred {
    /// The operator who orders. None for a report.
    pub operator: Option<u16>,
    /// The order, and who gave it.
    pub pending: PendingOrder,
}

/// A session: a connection or the standard input, its waiting lines, and what is to be sent to it.
///
/// Contracts see all of it.
#[derive(Drop)]
pub struct Session {
    /// Its number, which no other session of the node has: 0 for the standard input, from 1000 on for connections.
    number: u64,
    /// How it is answered.
    style: ReplyStyle,
    /// Whether its lines have shown it to be a client.
    trust: Trust,
    /// How many lines it has typed, skipped and refused ones too. So it is the number of the last one.
    lines: u64,
    /// The lines without a tag that wait for the answer of the one before, the oldest first.
    waiting: VecDeque<NumberedLine>,
    /// True while an order of a line without a tag is not answered.
    is_busy: bool,
    /// An order for which the table of seats has no room. No further line is taken while there is one.
    deferred: Option<Deferred>,
    /// What its newest `follow` asked for. None if it follows no states.
    states: Option<Subscription>,
    /// What its newest `actions` asked for. None if it is told of no actions.
    actions: Option<Subscription>,
    /// What the node reports when the session ends, one state for each device.
    wills: Vec<DeviceWill>,
    /// The text that is to be sent and was not sent yet: replies and events.
    output: Vec<u8>,
    /// The faults that are to be printed on standard error. Only a script's session has any.
    errors: Vec<u8>,
}

impl Model for Session {
    ghost use Rattle.smi_session.specs.Session.{SessionState};

    ghost Value = { SessionState };

    ghost view = { λ s. record {
      number = s.number;
      style = s.style;
      trust = s.trust;
      lines = s.lines;
      waiting = s.waiting.items;
      is_busy = s.is_busy;
      deferred = s.deferred;
      states = s.states;
      actions = s.actions;
      wills = s.wills.items;
      output = s.output.items;
      errors = s.errors.items;
    } };
}

/// Returns the index of a device's will among these. None if the device has none.
#[tactic(auto, using(crate::proofs::Willing::within_of))]
fn place_of_will(wills: &[DeviceWill], device: u16) -> Option<usize>
    ensures place { result ≡ position (λ other. other.device == device) wills.now }
    ensures within { IfSome result (λ place. place < length wills.now) }
{
    wills.iter().position(|other| other.device == device)
}

impl Session {
    ghost use Rattle.std.specs.Prelude.{◌≡◌, ◌++◌, ◌∷◌, ◌||◌, ◌&&◌, [], None, Some, true, false, drop, is_some};
    ghost use Rattle.std.specs.Prelude.{is_none, option_map, IfOk, OnOk, OnErr, MatchOption};
    ghost use Rattle.smi_session.specs.Session.{OnlyReplies, beginning, counted, ending, has_room, is_idle, is_refused};
    ghost use Rattle.smi_session.specs.Session.{may_go_on, new_session, next_line, waits, with_error, with_reply};
    ghost use Rattle.smi_session.specs.Session.{wants_numbers, with_will};
    ghost use Rattle.smi_session.specs.Subscription.{tag_for};
    ghost use Rattle.smi_session.specs.Trust.{admitted, judged};
    ghost use Rattle.smi_session.specs.Withdrawal.{has_deferred};
    ghost use Rattle.smi_tree.specs.Text.{words};

    /// Makes a session of this number, which no other session may have, that has typed nothing.
    ///
    /// Fails if memory is refused. No clause names `alloc`, from which memory comes.
    pub fn new(alloc: Global, number: u64, style: ReplyStyle) -> Result<Session, AllocError>
        ensures { IfOk result (λ s. s ≡ new_session number style) }
    {
        Ok(Session {
            number,
            style,
            trust: Trust::New,
            lines: 0,
            waiting: VecDeque::new(alloc),
            is_busy: false,
            deferred: None,
            states: None,
            actions: None,
            wills: Vec::new(alloc),
            output: Vec::new(alloc),
            errors: Vec::new(alloc),
        })
    }

    /// Returns its number.
    pub fn number(&self) -> u64
        ensures { result ≡ self.now.number }
    {
        self.number
    }

    /// Returns how it is answered.
    pub fn style(&self) -> ReplyStyle
        ensures { result ≡ self.now.style }
    {
        self.style
    }

    /// Returns true if the session is refused: no line of it is read any more, and its caller closes it.
    pub fn is_refused(&self) -> bool
        ensures { result ≡ is_refused self.now.trust }
    {
        match self.trust {
            Trust::New | Trust::Accepted => false,
            Trust::Refused => true,
        }
    }

    /// Accepts the session if a line of it asks something. A line without words and a comment ask nothing.
    pub(crate) fn admit(&mut self, request: Option<SessionRequest>)
        ensures { self.new ≡ admitted request self.old }
    {
        if request.is_some() {
            self.trust = Trust::Accepted;
        }
    }

    /// Refuses the session if it has asked nothing yet, and this faulty line is one that no client begins with. A
    /// browser sends such a line, the head of its request, before anything that a page wrote.
    pub(crate) fn judge(&mut self, has_tag: bool, text: &[u8])
        ensures { self.new ≡ judged has_tag (words text.now) self.old }
    {
        match self.trust {
            Trust::New if is_strange(self.style, has_tag, text) => {
                self.trust = Trust::Refused;
            }
            Trust::New | Trust::Accepted | Trust::Refused => {}
        }
    }

    /// Returns true if a further line of it may be taken.
    pub fn has_room(&self) -> bool
        ensures { result ≡ has_room self.now }
    {
        !self.is_refused()
            && self.deferred.is_none()
            && self.waiting.len() < MOST_WAITING
            && self.output.len() <= MANY_UNSENT
    }

    /// Returns true if none of its lines waits, and no order of a line without a tag is pending.
    pub fn is_idle(&self) -> bool
        ensures { result ≡ is_idle self.now }
    {
        !self.is_busy && self.deferred.is_none() && self.waiting.is_empty()
    }

    /// Returns true if it subscribes to states or to actions.
    pub fn has_subscription(&self) -> bool
        ensures { result ≡ (is_some self.now.states || is_some self.now.actions) }
    {
        self.states.is_some() || self.actions.is_some()
    }

    /// Returns the text that is to be sent to it and was not sent yet.
    pub fn output(&self) -> &[u8]
        ensures { result.now ≡ self.now.output }
    {
        self.output.as_slice()
    }

    /// Drops the first `count` bytes of the output, or all if there are no more. The caller does so once they were
    /// sent.
    pub fn consume(&mut self, count: usize)
        ensures { self.new ≡ record self.old { output = drop count self.old.output } }
    {
        if count >= self.output.len() {
            self.output.clear();
        } else {
            // The drained bytes are dropped: they were sent.
            let _ = self.output.drain(..count);
        }
    }

    /// Returns the faults of its lines that are to be printed on standard error.
    pub fn errors(&self) -> &[u8]
        ensures { result.now ≡ self.now.errors }
    {
        self.errors.as_slice()
    }

    /// Drops these faults. The caller does so once they were printed.
    pub fn clear_errors(&mut self)
        ensures { self.new ≡ record self.old { errors = [] } }
    {
        self.errors.clear();
    }

    /// Counts a line, and returns its number, from 1.
    pub(crate) fn count_line(&mut self) -> u64
        ensures number { result ≡ next_line self.old }
        ensures counted { self.new ≡ counted self.old }
    {
        self.lines = self.lines.saturating_add(1);
        self.lines
    }

    /// Puts a line without a tag at the end of those that wait.
    ///
    /// Fails if memory is refused.
    pub(crate) fn wait(&mut self, number: u64, line: Vec<u8>) -> Result<(), AllocError>
        ensures waits { OnOk result (self.new ≡ waits number line.items self.old) }
        ensures err { OnErr result (self.new ≡ self.old) }
    {
        match self.waiting.push_back(NumberedLine { number, line }) {
            Ok(()) => Ok(()),
            // The error hands the line back, which is dropped here.
            Err(_) => Err(AllocError),
        }
    }

    /// Takes the first waiting line. None if there is none, it may not be handled yet, or the session is refused.
    pub(crate) fn next_waiting(&mut self) -> Option<NumberedLine>
        ensures { MatchOption result ((self.new ≡ self.old) × (may_go_on self.old ≡ false))
            (λ line. (may_go_on self.old ≡ true) × (self.old ≡ record self.new { waiting = line ∷ self.new.waiting })) }
    {
        if self.is_refused() || self.is_busy || self.deferred.is_some() {
            None
        } else {
            self.waiting.pop_front()
        }
    }

    /// Notes that the order of a line is pending. The session is busy then, if the line has no tag.
    pub(crate) fn begin(&mut self, tag: Option<Tag>)
        ensures { self.new ≡ beginning tag self.old }
    {
        self.is_busy = self.is_busy || tag.is_none();
    }

    /// Notes that the order of a line is answered. The session is not busy any more, if the line has no tag.
    pub(crate) fn end(&mut self, tag: Option<Tag>)
        ensures { self.new ≡ ending tag self.old }
    {
        self.is_busy = self.is_busy && tag.is_some();
    }

    /// Keeps an order for which the table of seats has no room, until `give_deferred` takes it. It must keep none yet:
    /// the caller takes no line while `has_room` is false.
    pub(crate) fn defer(&mut self, order: Deferred)
        ensures { self.new ≡ record self.old { deferred = Some order } }
    {
        self.deferred = Some(order);
    }

    /// Returns true if it keeps an order of this tag.
    pub(crate) fn has_deferred(&self, tag: &[u8]) -> bool
        ensures { result ≡ has_deferred tag.now self.now }
    {
        match &self.deferred {
            Some(order) => order.pending.is_of(self.number, tag),
            None => false,
        }
    }

    /// Takes the order that it keeps, if any.
    pub(crate) fn take_deferred(&mut self) -> Option<Deferred>
        ensures deferred { result ≡ self.old.deferred }
        ensures taken { self.new ≡ record self.old { deferred = None } }
    {
        let deferred = self.deferred;
        self.deferred = None;
        deferred
    }

    /// Subscribes it to states, in place of its subscription before.
    pub(crate) fn follow_states(&mut self, subscription: Subscription)
        ensures { self.new ≡ record self.old { states = Some subscription } }
    {
        self.states = Some(subscription);
    }

    /// Subscribes it to actions, in place of its subscription before.
    pub(crate) fn follow_actions(&mut self, subscription: Subscription)
        ensures { self.new ≡ record self.old { actions = Some subscription } }
    {
        self.actions = Some(subscription);
    }

    /// Returns what the node reports when the session ends: one state for each device.
    pub fn wills(&self) -> &[DeviceWill]
        ensures { result.now ≡ self.now.wills }
    {
        self.wills.as_slice()
    }

    /// Sets what the node reports of a device when the session ends, in place of what was set of this device before.
    ///
    /// Fails if memory is refused.
    pub(crate) fn set_will(&mut self, will: DeviceWill) -> Result<(), AllocError>
        ensures set { OnOk result (self.new ≡ with_will will self.old) }
        ensures err { OnErr result (self.new ≡ self.old) }
    {
        match place_of_will(self.wills.as_slice(), will.device) {
            Some(place) => {
                self.wills[place] = will;
                Ok(())
            }
            None => match self.wills.push(will) {
                Ok(()) => Ok(()),
                // The error hands the will back, which is dropped here.
                Err(_) => Err(AllocError),
            },
        }
    }

    /// Returns true if it asked for the domain, epoch and number of the command with each action.
    pub(crate) fn wants_numbers(&self) -> bool
        ensures { result ≡ wants_numbers self.now }
    {
        match &self.actions {
            Some(subscription) => subscription.has_numbers,
            None => false,
        }
    }

    /// Returns Some if it follows this object, with the tag of its `follow`, which is None if that line had none.
    /// Returns None if it does not follow the object.
    pub(crate) fn state_tag(&self, object: u16) -> Option<Option<Tag>>
        ensures { result ≡ tag_for self.now.states object }
    {
        match &self.states {
            Some(subscription) if subscription.includes(object) => Some(subscription.tag),
            _ => None,
        }
    }

    /// Returns Some if it asked for actions at this object, with the tag of its `actions`, which is None if that line
    /// had none. Returns None if it did not ask for these.
    pub(crate) fn action_tag(&self, object: u16) -> Option<Option<Tag>>
        ensures { result ≡ tag_for self.now.actions object }
    {
        match &self.actions {
            Some(subscription) if subscription.includes(object) => Some(subscription.tag),
            _ => None,
        }
    }

    /// Returns Some if it asked for any actions, with the tag of its `actions`, which is None if that line had none.
    /// Returns None if it asked for no actions.
    pub(crate) fn any_action_tag(&self) -> Option<Option<Tag>>
        ensures { result ≡ option_map (λ s. s.tag) self.now.actions }
    {
        match &self.actions {
            Some(subscription) => Some(subscription.tag),
            None => None,
        }
    }

    /// Appends a text to the output, after the tag if there is one, as `@17 told ANN take DCS 0`.
    ///
    /// Fails if memory is refused. Then a part of the text may be in the output.
    pub(crate) fn push_reply(&mut self, tag: Option<Tag>, text: &[u8]) -> Result<(), AllocError>
        ensures pushed { OnOk result (self.new ≡ with_reply tag text.now self.old) }
        ensures err { OnErr result (OnlyReplies self.old self.new) }
    {
        if let Some(tag) = tag {
            self.output.push(b'@')?;
            self.output.extend_from_slice(tag.text())?;
            self.output.push(b' ')?;
        }
        self.output.extend_from_slice(text)
    }

    /// Appends the line of a fault to those that are to be printed on standard error.
    ///
    /// Fails if memory is refused.
    pub(crate) fn push_error(&mut self, text: &[u8]) -> Result<(), AllocError>
        ensures pushed { OnOk result (self.new ≡ with_error text.now self.old) }
        ensures err { OnErr result (self.new ≡ self.old) }
    {
        self.errors.extend_from_slice(text)
    }
}
