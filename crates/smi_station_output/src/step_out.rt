use crate::entries::Entries;
use smi_base::MOST_SENT;
use smi_grant::Shown;
use smi_message::{Body, Datagram};
use smi_protocol::{Answer, Mark, Order, Told};
use smi_publish::Changes;
use std::marker::Model;

/// How many answers one step gives at most.
pub const MOST_ANSWERS: usize = 16;

/// What a step hands out. The lists lie in the value itself, so it takes no memory; contracts see the lists.
#[derive(Drop)]
pub struct Out {
    datagrams: [Datagram; MOST_SENT],
    sent: usize,
    answers: [Answer; MOST_ANSWERS],
    answered: usize,
    issued: Option<Mark>,
    shown: Option<Shown>,
    kept: Entries,
    passed: Changes,
}

impl Model for Out {
    ghost use Rattle.std.specs.Prelude.{take};
    ghost use Rattle.smi_protocol.specs.Step as step;
    ghost use Rattle.smi_protocol.specs.Ticking.{most_sent};
    ghost use Rattle.smi_station_output.specs.Out.{IsStored, most_answers};

    ghost Value = { step.Out };

    ghost view = { λ o. record {
      datagrams = take o.sent o.datagrams;
      answers = take o.answered o.answers;
      issued = o.issued;
      shown = o.shown;
      kept = o.kept;
      passed = o.passed;
    } };

    ghost invariant = { λ o. IsStored most_sent o.datagrams o.sent × IsStored most_answers o.answers o.answered };
}

impl Out {
    ghost use Rattle.std.specs.Prelude.{◌≡◌, ◌<◌, ◌≤◌, ◌++◌, ◌∷◌, [], length, Some};
    ghost use Rattle.smi_protocol.specs.Ticking.{most_sent};
    ghost use Rattle.smi_protocol.specs.Step.{nothing_out};
    ghost use Rattle.smi_station_output.specs.Out.{kept_after, most_answers, sent_after};

    /// Returns an output with nothing in it.
    pub fn new() -> Out
        ensures { result ≡ nothing_out }
    {
        let datagram = Datagram {
            from: 1,
            to: 1,
            tree: 1,
            body: Body::Ask(1),
        };
        let answer = Answer {
            operator: 0,
            told: Told {
                order: Order::Ask(0),
                code: 0,
                asked: None,
            },
            mark: None,
        };
        Out {
            datagrams: [datagram; MOST_SENT],
            sent: 0,
            answers: [answer; MOST_ANSWERS],
            answered: 0,
            issued: None,
            shown: None,
            kept: Entries::new(),
            passed: Changes::new(),
        }
    }

    /// Returns the datagrams to send, in their order, each to its receiver.
    pub fn datagrams(&self) -> &[Datagram]
        ensures value { result.now ≡ self.now.datagrams }
        ensures few { length result.now ≤ most_sent }
    {
        &self.datagrams[..self.sent]
    }

    /// Returns the answers to tell, in their order.
    pub fn answers(&self) -> &[Answer]
        ensures { result.now ≡ self.now.answers }
    {
        &self.answers[..self.answered]
    }

    /// Returns the command that was issued, if one was.
    pub fn issued(&self) -> Option<Mark>
        ensures { result ≡ self.now.issued }
    {
        self.issued
    }

    /// Returns the state that was shown, if one was.
    pub fn shown(&self) -> Option<Shown>
        ensures { result ≡ self.now.shown }
    {
        self.shown
    }

    /// Returns what the save of the step leaves in a trace.
    pub fn entries(&self) -> &Entries
        ensures { result.now ≡ self.now.kept }
    {
        &self.kept
    }

    /// Returns the states that objects of the station pass through: devices by number, then the unit.
    pub fn transitions(&self) -> &Changes
        ensures { result.now ≡ self.now.passed }
    {
        &self.passed
    }

    /// Takes away all that was handed out.
    pub fn clear(&mut self)
        ensures { self.new ≡ nothing_out }
    {
        self.clear_but_entries();
        self.kept.clear();
    }

    /// Takes away all that was handed out, but what the save leaves.
    pub fn clear_but_entries(&mut self)
        ensures { self.new ≡ record nothing_out { kept = self.old.kept } }
    {
        self.sent = 0;
        self.answered = 0;
        self.issued = None;
        self.shown = None;
        self.passed.clear();
    }

    /// Adds a datagram, unless there are 64.
    pub fn send(&mut self, datagram: Datagram)
        ensures { self.new ≡ record self.old { datagrams = sent_after self.old.datagrams (datagram ∷ []) } }
    {
        if self.sent < MOST_SENT {
            self.datagrams[self.sent] = datagram;
            self.sent += 1;
        }
    }

    /// Adds an answer.
    pub fn answer(&mut self, answer: Answer)
        requires { length self.old.answers < most_answers }
        ensures { self.new ≡ record self.old { answers = self.old.answers ++ answer ∷ [] } }
    {
        self.answers[self.answered] = answer;
        self.answered += 1;
    }

    /// Sets the command that was issued.
    pub fn issue(&mut self, mark: Mark)
        ensures { self.new ≡ record self.old { issued = Some mark } }
    {
        self.issued = Some(mark);
    }

    /// Sets the state that was shown.
    pub fn show(&mut self, shown: Shown)
        ensures { self.new ≡ record self.old { shown = Some shown } }
    {
        self.shown = Some(shown);
    }

    /// Sets what the save of the step leaves, if it leaves anything.
    pub fn set_entries(&mut self, entries: Entries)
        ensures { self.new ≡ record self.old { kept = kept_after entries self.old.kept } }
    {
        self.kept.renew(entries);
    }

    /// Sets the states that objects of the station pass through.
    pub fn set_transitions(&mut self, passed: Changes)
        ensures { self.new ≡ record self.old { passed = passed } }
    {
        self.passed = passed;
    }
}
