//! What a tick sends again, in the order of its places.

ghost use Rattle.std.specs.Prelude.{◌≡◌};
ghost use Rattle.smi_protocol.specs.Ticking as ticking;

use crate::displayed::Displayed;
use crate::resend::Resend;
use smi_command::{Due, Link, MOST_PENDING, due};
use smi_grant::Holder;
use smi_protocol::ResendCursor;
use smi_station_grants::{GrantTable, entry_of};
use smi_station_output::{Out, ask, request, watch};
use smi_tree::is_keeper;

/// Returns the number of a place: 0 of a take and a drop, its own of a command.
fn number_of(due: Due) -> u32
    ensures { result ≡ ticking.number_of_due due }
{
    match due {
        Due::Take(_) | Due::Drop(_) => 0,
        Due::Run { number, .. } => number,
    }
}

impl<'a> Displayed<'a> {
    ghost use Rattle.std.specs.Prelude.{◌≡◌, ◌+◌, true, map, IfSome};
    ghost use Rattle.std.specs.List.{flat_map, range_with_len};
    ghost use Rattle.smi_command.specs.Pending.{most_pending};
    ghost use Rattle.smi_grant.specs.declared.Holder.TheVariants.{Operator, Domain};
    ghost use Rattle.smi_station_grants.specs.GrantTable.{grants_of};
    ghost use Rattle.smi_station_output.specs.Out.{is_due};
    ghost use Rattle.smi_protocol.specs.Messages.{if_any, requests};
    ghost use Rattle.smi_protocol.specs.Opening.{object_count};
    ghost use Rattle.smi_protocol.specs.Sound.{IsLink, IsSound};
    ghost use Rattle.smi_protocol.specs.Ticking.{domains_of, owed, owed_question, owed_to_child, owed_to_domain};
    ghost use Rattle.smi_protocol.specs.Ticking.{owed_watch};
    ghost use Rattle.smi_protocol.specs.declared.ResendCursor.TheVariants as place;
    ghost use Rattle.smi_tree.specs.Lawful.{IsBetween};
    ghost use Rattle.smi_tree.specs.Lookups.{domain_count, operator_count, operators_of, parent_of};
    ghost use Rattle.smi_station_display.specs.Displayed.{display_of};
    ghost use Rattle.smi_station_display.specs.Sweeping.{child_owed, domain_owed, offered, sweeping};

    /// Offers what a parent's link to a child is due, if anything.
    fn offer_due_of_child(
        &self,
        sweep: &mut Resend,
        out: &mut Out,
        parent: u16,
        child: u16,
        what: Option<Due>,
    )
        requires parent { IsBetween 1 (domain_count self.now.tree) parent }
        requires child { IsBetween 1 (domain_count self.now.tree) child }
        requires due { IfSome what (λ due. is_due due ≡ true) }
        ensures { sweeping sweep.new out.new ≡ offered (sweeping sweep.old out.old)
            (map (λ due. owed (place.Child child) (requests self.now.tree self.now.number (Domain parent) child due))
            (if_any what)) }
    {
        match what {
            Some(what) => {
                let datagram = request(self.tree, self.number, Holder::Domain(parent), child, what);
                sweep.send_if_due(out, ResendCursor::Child(child), datagram);
            }
            None => {}
        }
    }

    /// Offers all that a parent's link to a child is due.
    fn offer_to_child(
        &self,
        sweep: &mut Resend,
        out: &mut Out,
        parent: u16,
        child: u16,
        link: &Link,
    )
        requires parent { IsBetween 1 (domain_count self.now.tree) parent }
        requires child { IsBetween 1 (domain_count self.now.tree) child }
        requires link { IsLink self.now.tree most_pending link.now }
        ensures { sweeping sweep.new out.new ≡ offered (sweeping sweep.old out.old)
            (child_owed self.now.tree self.now.number parent child link.now) }
    {
        if !link.is_unsettled() {
            return;
        }
        for i in 0..MOST_PENDING {
            self.offer_due_of_child(sweep, out, parent, child, due(link, i));
        }
    }

    /// Offers what an operator's link to a domain is due, if anything.
    fn offer_due_of_operator(
        &self,
        sweep: &mut Resend,
        out: &mut Out,
        operator: u16,
        domain: u16,
        what: Option<Due>,
    )
        requires operator { IsBetween 1 (operator_count self.now.tree) operator }
        requires domain { IsBetween 1 (domain_count self.now.tree) domain }
        requires due { IfSome what (λ due. is_due due ≡ true) }
        ensures { sweeping sweep.new out.new ≡ offered (sweeping sweep.old out.old)
            (map (λ due. owed (place.Link operator domain (ticking.number_of_due due))
            (requests self.now.tree self.now.number (Operator operator) domain due)) (if_any what)) }
    {
        match what {
            Some(what) => {
                let datagram = request(
                    self.tree,
                    self.number,
                    Holder::Operator(operator),
                    domain,
                    what,
                );
                let cursor = ResendCursor::Link {
                    operator,
                    domain,
                    number: number_of(what),
                };
                sweep.send_if_due(out, cursor, datagram);
            }
            None => {}
        }
    }

    /// Offers all that an operator's link to a domain is due.
    fn offer_to_domain(
        &self,
        sweep: &mut Resend,
        out: &mut Out,
        operator: u16,
        domain: u16,
        link: &Link,
    )
        requires operator { IsBetween 1 (operator_count self.now.tree) operator }
        requires domain { IsBetween 1 (domain_count self.now.tree) domain }
        requires link { IsLink self.now.tree most_pending link.now }
        ensures { sweeping sweep.new out.new ≡ offered (sweeping sweep.old out.old)
            (domain_owed self.now.tree self.now.number operator domain link.now) }
    {
        if !link.is_unsettled() {
            return;
        }
        for i in 0..MOST_PENDING {
            self.offer_due_of_operator(sweep, out, operator, domain, due(link, i));
        }
    }

    /// Offers what the domain above a child asks of it, if it is kept here.
    fn offer_child(&self, sweep: &mut Resend, out: &mut Out, kept: &GrantTable<'_>, child: u16)
        requires tree { kept.now.tree ≡ self.now.tree }
        requires sound { IsSound self.now.tree (grants_of kept.now) }
        requires child { IsBetween 1 (domain_count self.now.tree) child }
        ensures { sweeping sweep.new out.new ≡ offered (sweeping sweep.old out.old)
            (owed_to_child self.now.tree self.now.number (grants_of kept.now) child (parent_of self.now.tree child)) }
    {
        match self.tree.parent(child) {
            Some(parent) => {
                if is_keeper(self.tree, self.number, parent) {
                    let link = kept.link(Holder::Domain(parent), child);
                    self.offer_to_child(sweep, out, parent, child, &link);
                }
            }
            None => {}
        }
    }

    /// Offers what the domains of the station ask of their children.
    fn offer_children(&self, sweep: &mut Resend, out: &mut Out, kept: &GrantTable<'_>)
        requires tree { kept.now.tree ≡ self.now.tree }
        requires sound { IsSound self.now.tree (grants_of kept.now) }
        ensures { sweeping sweep.new out.new ≡ offered (sweeping sweep.old out.old)
            (flat_map (λ x. owed_to_child self.now.tree self.now.number (grants_of kept.now) x
            (parent_of self.now.tree x)) (domains_of self.now.tree)) }
    {
        for place in 0..self.tree.domain_count() {
            self.offer_child(sweep, out, kept, place + 1);
        }
    }

    /// Offers what an operator asks of domains.
    fn offer_links(&self, sweep: &mut Resend, out: &mut Out, kept: &GrantTable<'_>, operator: u16)
        requires tree { kept.now.tree ≡ self.now.tree }
        requires sound { IsSound self.now.tree (grants_of kept.now) }
        requires operator { IsBetween 1 (operator_count self.now.tree) operator }
        ensures { sweeping sweep.new out.new ≡ offered (sweeping sweep.old out.old)
            (flat_map (owed_to_domain self.now.tree self.now.number (grants_of kept.now) operator)
            (domains_of self.now.tree)) }
    {
        for place in 0..self.tree.domain_count() {
            let link = kept.link(Holder::Operator(operator), place + 1);
            self.offer_to_domain(sweep, out, operator, place + 1, &link);
        }
    }

    /// Offers what the operators of the station ask of domains.
    fn offer_orders(&self, sweep: &mut Resend, out: &mut Out, kept: &GrantTable<'_>)
        requires tree { kept.now.tree ≡ self.now.tree }
        requires sound { IsSound self.now.tree (grants_of kept.now) }
        ensures { sweeping sweep.new out.new ≡ offered (sweeping sweep.old out.old)
            (flat_map (λ o. flat_map (owed_to_domain self.now.tree self.now.number (grants_of kept.now) o)
            (domains_of self.now.tree)) (operators_of self.now.tree self.now.number)) }
    {
        let operators = self.tree.operators(self.number);
        for operator in operators {
            self.offer_links(sweep, out, kept, *operator);
        }
    }

    /// Offers the open question of an operator, if there is one.
    fn offer_question(&self, sweep: &mut Resend, out: &mut Out, operator: u16)
        ensures { sweeping sweep.new out.new ≡ offered (sweeping sweep.old out.old)
            (owed_question self.now.tree self.now.number operator ((display_of self.now).asks operator)) }
    {
        match entry_of(&self.asks, operator, None) {
            Some(domain) => {
                let datagram = ask(self.tree, self.number, domain);
                sweep.send_if_due(out, ResendCursor::Ask(operator), datagram);
            }
            None => {}
        }
    }

    /// Offers the open questions of the station's operators.
    fn offer_questions(&self, sweep: &mut Resend, out: &mut Out)
        ensures { sweeping sweep.new out.new ≡ offered (sweeping sweep.old out.old)
            (flat_map (λ o. owed_question self.now.tree self.now.number o ((display_of self.now).asks o))
            (operators_of self.now.tree self.now.number)) }
    {
        let operators = self.tree.operators(self.number);
        for operator in operators {
            self.offer_question(sweep, out, *operator);
        }
    }

    /// Offers the watch of an object, if the station watches it.
    fn offer_watch(&self, sweep: &mut Resend, out: &mut Out, object: u16)
        requires object { IsBetween 1 (object_count self.now.tree) object }
        ensures { sweeping sweep.new out.new ≡ offered (sweeping sweep.old out.old)
            (owed_watch self.now.tree self.now.number self.now.published.boot (display_of self.now) object) }
    {
        if self.is_watched(object) {
            let datagram = watch(self.tree, self.number, self.publisher.boot(), object);
            sweep.send_if_due(out, ResendCursor::Watch(object), datagram);
        }
    }

    /// Offers the objects that the station watches.
    fn offer_watches(&self, sweep: &mut Resend, out: &mut Out)
        ensures { sweeping sweep.new out.new ≡ offered (sweeping sweep.old out.old)
            (flat_map (owed_watch self.now.tree self.now.number self.now.published.boot (display_of self.now))
            (range_with_len 1 (object_count self.now.tree))) }
    {
        for place in 0..self.tree.object_count() {
            self.offer_watch(sweep, out, place + 1);
        }
    }
}

impl<'a> Displayed<'a> {
    ghost use Rattle.std.specs.Prelude.{◌≡◌};
    ghost use Rattle.smi_station_grants.specs.GrantTable.{grants_of};
    ghost use Rattle.smi_station_output.specs.Out.{with_notice};
    ghost use Rattle.smi_protocol.specs.Sound.{IsSound};
    ghost use Rattle.smi_protocol.specs.Ticking.{all_owed, tick_noticed};
    ghost use Rattle.smi_station_display.specs.Displayed.{display_of};
    ghost use Rattle.smi_station_display.specs.Listening.{KeepsTheRest};
    ghost use Rattle.smi_station_display.specs.Sweeping.{offered, sweeping};

    /// Sends what is due from the remembered place on, as much as one step sends.
    pub fn tick(&mut self, out: &mut Out, kept: &GrantTable<'_>)
        requires tree { kept.now.tree ≡ self.old.tree }
        requires boot { kept.now.boot ≡ self.old.published.boot }
        requires sound { IsSound self.old.tree (grants_of kept.now) }
        ensures display { display_of self.new
            ≡ (tick_noticed self.old.tree self.old.number (grants_of kept.now) (display_of self.old)).display }
        ensures sent { out.new ≡ with_notice out.old
            (tick_noticed self.old.tree self.old.number (grants_of kept.now) (display_of self.old)) }
        ensures rest { KeepsTheRest self.old self.new }
    {
        let mut sweep = Resend::from(self.place);
        self.offer_all(&mut sweep, out, kept);
        self.place = sweep.place_after(self.tree);
    }

    /// Offers all that is due.
    fn offer_all(&self, sweep: &mut Resend, out: &mut Out, kept: &GrantTable<'_>)
        requires tree { kept.now.tree ≡ self.now.tree }
        requires boot { kept.now.boot ≡ self.now.published.boot }
        requires sound { IsSound self.now.tree (grants_of kept.now) }
        ensures { sweeping sweep.new out.new ≡ offered (sweeping sweep.old out.old)
            (all_owed self.now.tree self.now.number (grants_of kept.now) (display_of self.now)) }
    {
        self.offer_children(sweep, out, kept);
        self.offer_orders(sweep, out, kept);
        self.offer_questions(sweep, out);
        self.offer_watches(sweep, out);
    }
}
