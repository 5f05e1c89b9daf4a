//! What the operators of a station ask about and watch, and what they are answered.

ghost use Rattle.std.specs.Prelude.{◌≡◌};

use crate::displayed::Displayed;
use smi_grant::Record;
use smi_protocol::{Answer, Order, Request, Told};
use smi_station_grants::entry_of;
use smi_station_output::{Out, ask, object_home, unwatch, watch};

/// Answers an operator with the code of an order.
fn answered(operator: u16, order: Order, code: u16) -> Answer
    ensures { result ≡ answer operator order code }
{
    Answer {
        operator,
        told: Told {
            order,
            code,
            asked: None,
        },
        mark: None,
    }
}

/// Answers an operator who asked with the record.
fn answered_with(operator: u16, domain: u16, news: &Record) -> Answer
    ensures { result ≡ answer_asked operator domain news.now }
{
    Answer {
        operator,
        told: Told {
            order: Order::Ask(domain),
            code: 0,
            asked: Some(*news),
        },
        mark: None,
    }
}

ghost use Rattle.smi_protocol.specs.Happening.{answer, answer_asked};

impl<'a> Displayed<'a> {
    ghost use Rattle.std.specs.Prelude.{◌≡◌, ◌≤◌, ◌<◌, ◌+◌, true, filter, length, map};
    ghost use Rattle.smi_station_output.specs.Out.{answered_after, most_answers, with_notice};
    ghost use Rattle.smi_protocol.specs.Happening.{answer_asked};
    ghost use Rattle.smi_protocol.specs.Opening.{object_count};
    ghost use Rattle.smi_protocol.specs.Refusals.{is_order_here};
    ghost use Rattle.smi_protocol.specs.Watching.{has_asked, order_noticed, record_comes};
    ghost use Rattle.smi_protocol.specs.declared.Order.TheVariants.{Ask, Watch, Unwatch};
    ghost use Rattle.smi_tree.specs.Lawful.{IsBetween};
    ghost use Rattle.smi_tree.specs.Lookups.{domain_count, operator_count, operators_of};
    ghost use Rattle.smi_station_display.specs.Displayed.{display_of};
    ghost use Rattle.smi_station_display.specs.Listening.{KeepsTheRest, forgotten};

    /// Handles a question of an operator about a domain: one that it has not been answered yet is open no longer.
    fn ask(&mut self, out: &mut Out, operator: u16, domain: u16)
        requires operator { IsBetween 1 (operator_count self.old.tree) operator }
        requires domain { IsBetween 1 (domain_count self.old.tree) domain }
        ensures display { display_of self.new
            ≡ (order_noticed self.old.tree self.old.number self.old.published.boot (display_of self.old) operator
            (Ask domain)).display }
        ensures sent { out.new ≡ with_notice out.old
            (order_noticed self.old.tree self.old.number self.old.published.boot (display_of self.old) operator
            (Ask domain)) }
        ensures rest { KeepsTheRest self.old self.new }
    {
        self.asks[usize::from(operator) - 1] = Some(domain);
        out.send(ask(self.tree, self.number, domain));
    }

    /// Has an operator's object be watched.
    fn watch(&mut self, out: &mut Out, operator: u16, object: u16)
        requires object { IsBetween 1 (object_count self.old.tree) object }
        requires room { length out.old.answers < most_answers }
        ensures display { display_of self.new
            ≡ (order_noticed self.old.tree self.old.number self.old.published.boot (display_of self.old) operator
            (Watch object)).display }
        ensures sent { out.new ≡ with_notice out.old
            (order_noticed self.old.tree self.old.number self.old.published.boot (display_of self.old) operator
            (Watch object)) }
        ensures rest { KeepsTheRest self.old self.new }
    {
        self.named[usize::from(object) - 1] = true;
        out.send(watch(self.tree, self.number, self.publisher.boot(), object));
        out.answer(answered(operator, Order::Watch(object), 0));
    }

    /// Ends an operator's watch of an object; the unit of a child stays watched.
    fn unwatch(&mut self, out: &mut Out, operator: u16, object: u16)
        requires object { IsBetween 1 (object_count self.old.tree) object }
        requires room { length out.old.answers < most_answers }
        ensures display { display_of self.new
            ≡ (order_noticed self.old.tree self.old.number self.old.published.boot (display_of self.old) operator
            (Unwatch object)).display }
        ensures sent { out.new ≡ with_notice out.old
            (order_noticed self.old.tree self.old.number self.old.published.boot (display_of self.old) operator
            (Unwatch object)) }
        ensures rest { KeepsTheRest self.old self.new }
    {
        let told = answered(operator, Order::Unwatch(object), 0);
        if self.is_child_unit(object) {
            out.answer(told);
            return;
        }
        self.named[usize::from(object) - 1] = false;
        let to = object_home(self.tree, object);
        out.send(unwatch(self.tree, self.number, self.publisher.boot(), to, object));
        out.answer(told);
    }

    /// Handles an order of an operator of the station: one to ask or to watch; the others leave the display alone.
    pub fn order_comes(&mut self, out: &mut Out, operator: u16, order: &Order)
        requires here { is_order_here self.old.tree self.old.number operator order.now ≡ true }
        requires room { length out.old.answers < most_answers }
        ensures display { display_of self.new
            ≡ (order_noticed self.old.tree self.old.number self.old.published.boot (display_of self.old) operator
            order.now).display }
        ensures sent { out.new ≡ with_notice out.old
            (order_noticed self.old.tree self.old.number self.old.published.boot (display_of self.old) operator
            order.now) }
        ensures rest { KeepsTheRest self.old self.new }
    {
        let _tree = self.tree();
        match order.request() {
            Request::Ask(domain) => self.ask(out, operator, domain),
            Request::Watch(object) => self.watch(out, operator, object),
            Request::Unwatch(object) => self.unwatch(out, operator, object),
            Request::Take(_) | Request::Drop(_) | Request::Command(_, _) | Request::Report(_, _) =>
                {}
        }
    }

    /// Handles a record that is told: those who have asked about the domain are answered, and ask no more.
    pub fn record_comes(&mut self, out: &mut Out, domain: u16, news: &Record)
        requires room { length out.old.answers + 8 ≤ most_answers }
        ensures display { display_of self.new
            ≡ (record_comes self.old.tree self.old.number (display_of self.old) domain news.now).display }
        ensures sent { out.new ≡ with_notice out.old
            (record_comes self.old.tree self.old.number (display_of self.old) domain news.now) }
        ensures rest { KeepsTheRest self.old self.new }
    {
        self.answer_askers(out, domain, news);
        self.forget_questions(domain);
    }

    /// Answers those who have asked about the domain.
    fn answer_askers(&self, out: &mut Out, domain: u16, news: &Record)
        requires room { length out.old.answers + 8 ≤ most_answers }
        ensures { out.new
            ≡ record out.old {
              answers = answered_after out.old.answers
                  (map (λ o. answer_asked o domain news.now)
                  (filter (has_asked (display_of self.now) domain) (operators_of self.now.tree self.now.number)));
            } }
    {
        let operators = self.tree.operators(self.number);
        for operator in operators {
            if entry_of(&self.asks, *operator, None) == Some(domain) {
                out.answer(answered_with(*operator, domain, news));
            }
        }
    }

    /// Forgets all questions about the domain.
    fn forget_questions(&mut self, domain: u16)
        ensures { self.new ≡ record self.old { asks = map (forgotten domain) self.old.asks } }
    {
        for asked in self.asks.iter_mut() {
            if *asked == Some(domain) {
                *asked = None;
            }
        }
    }
}
