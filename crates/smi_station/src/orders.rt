//! An order that reaches a station: it is refused, or what it asks of the grants is planned, saved and made, and the
//! display follows.

ghost use Rattle.std.specs.Prelude.{◌≡◌, true, false, is_some, ℕ, None, IfOk, IfSome, OnOk, OnErr};
ghost use Rattle.smi_protocol.specs.Ordering.{order_comes};
ghost use Rattle.smi_station_decide.specs.Decided.{IsObeyable, step_of};
ghost use Rattle.smi_station_display.specs.Displayed.{display_of};
ghost use Rattle.smi_station_grants.specs.GrantTable.{grants_of};
ghost use Rattle.smi_station_grants.specs.Save.{IfMemory};
ghost use Rattle.smi_protocol.specs.Happening.{Orders, answer};
ghost use Rattle.smi_protocol.specs.Refusals.{refusal_of};
ghost use Rattle.smi_protocol.specs.SoundDisplay.{MayChange};
ghost use Rattle.smi_protocol.specs.Step.{accepted, nothing_out, ordered_or_reported};
ghost use Rattle.smi_protocol.specs.declared.Order.TheVariants.{Report};
ghost use Rattle.smi_station.specs.Core.{AreHalves, station_with};
ghost use Rattle.smi_station_grants.specs.Leaving.{Leaves};

use crate::datagrams::apply_change;
use crate::station::Core;
use smi_protocol::{Answer, Heard, Order, Request, StepFault, Told};
use smi_rows::Stable;
use smi_station_decide::{DecidedOrder, decide_order, obey};
use smi_station_display::Displayed;
use smi_station_grants::GrantTable;
use smi_station_output::Out;

/// A report of a device's state.
#[derive(Clone, Copy)]
pub(crate) struct Reported {
    device: u16,
    state: u16,
}

/// Returns the report that an order holds, if it holds one.
pub(crate) fn reported_in(order: &Order) -> Option<Reported>
    ensures report { IfSome result (λ reported. order.now ≡ Report reported.device reported.state) }
    ensures other { (operator : ℕ) → result ≡ None
        → ordered_or_reported operator order.now ≡ Orders operator order.now }
{
    match order.request() {
        Request::Report(device, state) => Some(Reported { device, state }),
        Request::Take(_)
        | Request::Drop(_)
        | Request::Command(_, _)
        | Request::Ask(_)
        | Request::Watch(_)
        | Request::Unwatch(_) => None,
    }
}

/// Answers an operator why its order was refused.
fn refusal(operator: u16, order: &Order, code: u16) -> Answer
    ensures { result ≡ answer operator order.now code }
{
    Answer {
        operator,
        told: Told {
            order: *order,
            code,
            asked: None,
        },
        mark: None,
    }
}

impl<'a> Core<'a> {
    ghost use Rattle.std.specs.Prelude.{◌≡◌, true, false, is_some, OnErr};
    ghost use Rattle.smi_station_grants.specs.Save.{IfMemory};
    ghost use Rattle.smi_protocol.specs.Happening.{Orders};
    ghost use Rattle.smi_protocol.specs.Step.{after, nothing_out, ordered_or_reported};
    ghost use Rattle.smi_station.specs.Core.{Steps, number_of, station_of, tree_of};
    ghost use Rattle.smi_station_grants.specs.Leaving.{Leaves};

    /// Handles an order of an operator.
    pub(crate) fn order<S: Stable>(
        &mut self,
        store: &mut S,
        out: &mut Out,
        operator: u16,
        order: &Order,
    ) -> Result<Heard, StepFault>
        requires runs { self.old.is_stopped ≡ false }
        requires empty { out.old ≡ nothing_out }
        ensures step { Steps self.old self.new (after (tree_of self.old) (number_of self.old) (station_of self.old)
            (ordered_or_reported operator order.now)) out.new result }
        ensures store { Leaves S.is_honest S.is_open S.rows S.may_find S.saves S.failures S.doubts store.old store.new
            result
            (after (tree_of self.old) (number_of self.old) (station_of self.old)
            (ordered_or_reported operator order.now)).saved }
        ensures memory { IfMemory result (is_some
            (after (tree_of self.old) (number_of self.old) (station_of self.old)
            (ordered_or_reported operator order.now)).saved ≡ true) }
        ensures unchanged { OnErr result (self.new ≡ self.old) }
    {
        match reported_in(order) {
            Some(reported) => self.report(out, reported.device, reported.state),
            None => self.obey_or_refuse(store, out, operator, order),
        }
    }

    /// Handles an order of an operator that is no report.
    fn obey_or_refuse<S: Stable>(
        &mut self,
        store: &mut S,
        out: &mut Out,
        operator: u16,
        order: &Order,
    ) -> Result<Heard, StepFault>
        requires runs { self.old.is_stopped ≡ false }
        requires empty { out.old ≡ nothing_out }
        ensures step { Steps self.old self.new (after (tree_of self.old) (number_of self.old) (station_of self.old)
            (Orders operator order.now)) out.new result }
        ensures store { Leaves S.is_honest S.is_open S.rows S.may_find S.saves S.failures S.doubts store.old store.new
            result
            (after (tree_of self.old) (number_of self.old) (station_of self.old) (Orders operator order.now)).saved }
        ensures memory { IfMemory result (is_some
            (after (tree_of self.old) (number_of self.old) (station_of self.old) (Orders operator order.now)).saved
            ≡ true) }
        ensures unchanged { OnErr result (self.new ≡ self.old) }
    {
        match decide_order(&self.kept, operator, order) {
            Err(code) => {
                out.answer(refusal(operator, order, code));
                Ok(Heard::Refused(code))
            }
            Ok(decided) => accept_order(
                &mut self.kept,
                &mut self.display,
                store,
                out,
                operator,
                order,
                &decided,
            ),
        }
    }
}

/// Handles an order of an operator of the station that is not refused, with what was decided of it.
fn accept_order<S: Stable>(
    kept: &mut GrantTable<'_>,
    display: &mut Displayed<'_>,
    store: &mut S,
    out: &mut Out,
    operator: u16,
    what: &Order,
    decided: &DecidedOrder,
) -> Result<Heard, StepFault>
    requires halves { AreHalves kept.old display.old }
    requires room { MayChange (display_of display.old) }
    requires accepted { refusal_of kept.old.tree kept.old.number (grants_of kept.old) (Orders operator what.now)
        ≡ None }
    requires decided { step_of kept.old.tree kept.old.number (grants_of kept.old) operator decided.now
        ≡ order_comes kept.old.tree kept.old.number (grants_of kept.old) operator what.now }
    requires obeyable { IsObeyable kept.old.tree kept.old.number operator decided.now }
    requires empty { out.old ≡ nothing_out }
    ensures station { OnOk result (station_with kept.new display.new false
        ≡ (accepted kept.old.tree kept.old.number (station_with kept.old display.old false)
        (Orders operator what.now)).station) }
    ensures heard { IfOk result (λ heard. heard
        ≡ (accepted kept.old.tree kept.old.number (station_with kept.old display.old false)
        (Orders operator what.now)).heard) }
    ensures out { OnOk
        result (out.new
        ≡ (accepted kept.old.tree kept.old.number (station_with kept.old display.old false)
        (Orders operator what.now)).out) }
    ensures store { Leaves S.is_honest S.is_open S.rows S.may_find S.saves S.failures S.doubts store.old store.new
        result
        (accepted kept.old.tree kept.old.number (station_with kept.old display.old false)
        (Orders operator what.now)).saved }
    ensures memory { IfMemory result (is_some
        (accepted kept.old.tree kept.old.number (station_with kept.old display.old false)
        (Orders operator what.now)).saved ≡ true) }
    ensures halves { OnOk result (AreHalves kept.new display.new) }
    ensures same { OnOk result ((kept.new.tree ≡ kept.old.tree) × (kept.new.number ≡ kept.old.number)) }
    ensures room { OnOk result (MayChange (display_of display.new)) }
    ensures unchanged { OnErr result ((kept.new ≡ kept.old) × (display.new ≡ display.old)) }
    ensures cleared { OnErr result (out.new ≡ nothing_out) }
{
    let _tree = kept.tree();
    let change = obey(out, kept, operator, decided);
    match apply_change(kept, store, out, &change) {
        Ok(heard) => {
            display.order_comes(out, operator, what);
            Ok(heard)
        }
        Err(fault) => Err(fault),
    }
}
