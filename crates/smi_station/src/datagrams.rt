//! A datagram that reaches a station: it is refused, or what it asks of the grants is planned, saved and made, and
//! the display follows.

ghost use Rattle.std.specs.Prelude.{◌≡◌, ◌≤◌, true, false, is_some, length, None, IfOk, IfSome, OnOk, OnErr};
ghost use Rattle.smi_message.specs.declared.Body.TheVariants.{Watch};
ghost use Rattle.smi_protocol.specs.GrantStep.{GrantStep};
ghost use Rattle.smi_protocol.specs.GrantsOf.{datagram_comes};
ghost use Rattle.smi_protocol.specs.Happening.{Comes};
ghost use Rattle.smi_protocol.specs.Refusals.{refusal_of_message};
ghost use Rattle.smi_protocol.specs.Sound.{IsSound};
ghost use Rattle.smi_protocol.specs.SoundDisplay.{MayChange};
ghost use Rattle.smi_protocol.specs.Step.{accepted, heard_of, nothing_out};
ghost use Rattle.smi_station_grants.specs.Change.{IsChange};
ghost use Rattle.smi_station_grants.specs.GrantTable.{grants_of};
ghost use Rattle.smi_station_decide.specs.Plans.{Plans};
ghost use Rattle.smi_station_grants.specs.Save.{IfMemory};
ghost use Rattle.smi_station_display.specs.Displayed.{display_of};
ghost use Rattle.smi_station_decide.specs.Handing.{with_step};
ghost use Rattle.smi_station.specs.Core.{AreHalves, same_or_memory, station_with};
ghost use Rattle.smi_station_grants.specs.Leaving.{Leaves};
ghost use Rattle.smi_station.specs.Making.{row_of};
ghost use Rattle.smi_station.specs.Stirring.{action_in, action_of, is_watch};

use crate::display_update::update_display;
use crate::object_update::{snapshot_before, update_objects};
use crate::station::Core;
use smi_message::{Body, Datagram};
use smi_protocol::{Heard, StepFault};
use smi_rows::Stable;
use smi_station_decide::{
    answer_ask, check_datagram, decide_drop, decide_run, decide_take, decide_tell,
};
use smi_station_display::Displayed;
use smi_station_grants::{Change, GrantTable, save_and_apply};
use smi_station_output::Out;
use std::alloc::AllocError;

/// A watch: of which object, since which boot of the station that watches.
#[derive(Clone, Copy)]
struct WatchAsked {
    object: u16,
    echo: u32,
}

/// Returns the watch that a datagram is, if it is one.
fn watched_in(body: &Body) -> Option<WatchAsked>
    ensures watch { IfSome result (λ watched. body.now ≡ Watch watched.object watched.echo) }
    ensures other { result ≡ None → is_watch body.now ≡ false }
{
    match *body {
        Body::Watch { object, boot: echo } => Some(WatchAsked { object, echo }),
        Body::Ask(_) => None,
        Body::Take { .. } => None,
        Body::Drop { .. } => None,
        Body::Run { .. } => None,
        Body::Tell { .. } => None,
        Body::State { .. } => None,
        Body::Unwatch { .. } => None,
    }
}

impl<'a> Core<'a> {
    ghost use Rattle.std.specs.Prelude.{◌≡◌, true, false, None, IfErr, OnErr};
    ghost use Rattle.smi_station_grants.specs.Save.{IfMemory};
    ghost use Rattle.smi_message.specs.declared.Body.TheVariants.{Watch};
    ghost use Rattle.smi_protocol.specs.Happening.{Comes};
    ghost use Rattle.smi_protocol.specs.Refusals.{refusal_of_message};
    ghost use Rattle.smi_protocol.specs.Step.{accepted, after, nothing_out};
    ghost use Rattle.smi_protocol.specs.declared.event.StepFault.TheVariants.{Memory};
    ghost use Rattle.smi_station.specs.Core.{Steps, number_of, station_of, tree_of};
    ghost use Rattle.smi_station_grants.specs.Leaving.{Leaves};
    ghost use Rattle.smi_station.specs.Wanting.{adds, adds_taken, wants_memory};

    /// Handles a datagram.
    pub(crate) fn datagram<S: Stable>(
        &mut self,
        store: &mut S,
        out: &mut Out,
        datagram: &Datagram,
    ) -> Result<Heard, StepFault>
        requires runs { self.old.is_stopped ≡ false }
        requires empty { out.old ≡ nothing_out }
        ensures step { Steps self.old self.new (after (tree_of self.old) (number_of self.old) (station_of self.old)
            (Comes datagram.now)) out.new result }
        ensures store { Leaves S.is_honest S.is_open S.rows S.may_find S.saves S.failures S.doubts store.old store.new
            result
            (after (tree_of self.old) (number_of self.old) (station_of self.old) (Comes datagram.now)).saved }
        ensures memory { IfMemory result (wants_memory
            (after (tree_of self.old) (number_of self.old) (station_of self.old) (Comes datagram.now)).saved
            (adds_taken (tree_of self.old) (number_of self.old) (station_of self.old).display datagram.now) ≡ true) }
        ensures unchanged { OnErr result (self.new ≡ self.old) }
    {
        match check_datagram(self.kept.tree(), self.kept.number(), datagram) {
            Some(code) => Ok(Heard::Refused(code)),
            None => self.accept(store, out, datagram),
        }
    }

    /// Handles a datagram that is not refused.
    fn accept<S: Stable>(
        &mut self,
        store: &mut S,
        out: &mut Out,
        datagram: &Datagram,
    ) -> Result<Heard, StepFault>
        requires runs { self.old.is_stopped ≡ false }
        requires accepted { refusal_of_message (tree_of self.old) (number_of self.old) datagram.now ≡ None }
        requires empty { out.old ≡ nothing_out }
        ensures step { Steps self.old self.new (accepted (tree_of self.old) (number_of self.old)
            (station_of self.old) (Comes datagram.now)) out.new result }
        ensures store { Leaves S.is_honest S.is_open S.rows S.may_find S.saves S.failures S.doubts store.old store.new
            result
            (accepted (tree_of self.old) (number_of self.old) (station_of self.old) (Comes datagram.now)).saved }
        ensures memory { IfMemory result (wants_memory
            (accepted (tree_of self.old) (number_of self.old) (station_of self.old) (Comes datagram.now)).saved
            (adds (station_of self.old).display datagram.now.from datagram.now.body) ≡ true) }
        ensures unchanged { OnErr result (self.new ≡ self.old) }
    {
        match watched_in(&datagram.body) {
            Some(watched) => self.watch(out, datagram, watched),
            None => hear(
                &mut self.kept,
                &mut self.display,
                &mut self.is_stopped,
                store,
                out,
                datagram,
            ),
        }
    }

    /// Handles a watch that is not refused.
    fn watch(
        &mut self,
        out: &mut Out,
        datagram: &Datagram,
        watched: WatchAsked,
    ) -> Result<Heard, StepFault>
        requires runs { self.old.is_stopped ≡ false }
        requires accepted { refusal_of_message (tree_of self.old) (number_of self.old) datagram.now ≡ None }
        requires body { datagram.now.body ≡ Watch watched.object watched.echo }
        requires empty { out.old ≡ nothing_out }
        ensures step { Steps self.old self.new (accepted (tree_of self.old) (number_of self.old)
            (station_of self.old) (Comes datagram.now)) out.new result }
        ensures unchanged { OnErr result (self.new ≡ self.old) }
        ensures fault { IfErr result (λ fault. fault ≡ Memory) }
        ensures memory { OnErr result (adds (station_of self.old).display datagram.now.from datagram.now.body ≡ true) }
    {
        let done = self
            .display
            .watch_comes(out, datagram.from, watched.object, watched.echo);
        same_or_memory(done)
    }
}

/// Returns what a watch does to the store: it saves nothing, and memory may run out for it.
fn same_or_memory(done: Result<(), AllocError>) -> Result<Heard, StepFault>
    ensures { result ≡ same_or_memory done }
{
    match done {
        Ok(()) => Ok(Heard::Same),
        Err(_) => Err(StepFault::Memory),
    }
}

/// Handles a datagram that is not refused, but for a watch. The station stops if one of its objects has reached the
/// last sequence.
fn hear<S: Stable>(
    kept: &mut GrantTable<'_>,
    display: &mut Displayed<'_>,
    is_stopped: &mut bool,
    store: &mut S,
    out: &mut Out,
    datagram: &Datagram,
) -> Result<Heard, StepFault>
    requires halves { AreHalves kept.old display.old }
    requires room { MayChange (display_of display.old) }
    requires runs { is_stopped.old ≡ false }
    requires accepted { refusal_of_message kept.old.tree kept.old.number datagram.now ≡ None }
    requires other { is_watch datagram.now.body ≡ false }
    requires empty { out.old ≡ nothing_out }
    ensures station { OnOk result (station_with kept.new display.new is_stopped.new
        ≡ (accepted kept.old.tree kept.old.number (station_with kept.old display.old false)
        (Comes datagram.now)).station) }
    ensures heard { IfOk result (λ heard. heard
        ≡ (accepted kept.old.tree kept.old.number (station_with kept.old display.old false)
        (Comes datagram.now)).heard) }
    ensures out { OnOk
        result (out.new
        ≡ (accepted kept.old.tree kept.old.number (station_with kept.old display.old false) (Comes datagram.now)).out) }
    ensures store { Leaves S.is_honest S.is_open S.rows S.may_find S.saves S.failures S.doubts store.old store.new
        result
        (accepted kept.old.tree kept.old.number (station_with kept.old display.old false) (Comes datagram.now)).saved }
    ensures memory { IfMemory result (is_some
        (accepted kept.old.tree kept.old.number (station_with kept.old display.old false) (Comes datagram.now)).saved
        ≡ true) }
    ensures halves { OnOk result (AreHalves kept.new display.new) }
    ensures same { OnOk result ((kept.new.tree ≡ kept.old.tree) × (kept.new.number ≡ kept.old.number)) }
    ensures room { OnOk result (is_stopped.new ≡ false → MayChange (display_of display.new)) }
    ensures unchanged { OnErr result ((kept.new ≡ kept.old) × (display.new ≡ display.old)) }
    ensures runs { OnErr result (is_stopped.new ≡ false) }
    ensures cleared { OnErr result (out.new ≡ nothing_out) }
{
    let (_tree, _from) = (kept.tree(), datagram.from);
    let Ok(change) = plan(out, kept, datagram) else {
        return Err(StepFault::Memory);
    };
    let found = snapshot_before(display, kept, datagram, &change);
    match apply_change(kept, store, out, &change) {
        Ok(heard) => {
            update_display(display, out, datagram);
            *is_stopped = update_objects(display, kept, out, &found);
            Ok(heard)
        }
        Err(fault) => Err(fault),
    }
}

/// Returns the change of the grants that a datagram asks for, and what is sent and answered for it. A watch, an
/// unwatch and a state ask for none.
///
/// Its error is that memory was refused for a change that saves a row; then nothing is handed out.
pub(crate) fn plan(
    out: &mut Out,
    kept: &GrantTable<'_>,
    datagram: &Datagram,
) -> Result<Change, AllocError>
    requires sound { IsSound kept.now.tree (grants_of kept.now) }
    requires accepted { refusal_of_message kept.now.tree kept.now.number datagram.now ≡ None }
    requires empty { out.old ≡ nothing_out }
    ensures plan { IfOk result (Plans kept.now.tree kept.now.number (grants_of kept.now)
        (datagram_comes kept.now.tree kept.now.number (grants_of kept.now) datagram.now.from datagram.now.body)) }
    ensures sent { OnOk result (out.new ≡ with_step nothing_out
        (datagram_comes kept.now.tree kept.now.number (grants_of kept.now) datagram.now.from datagram.now.body)) }
    // The change has the action that the datagram makes the devices of its domain do.
    ensures action { IfOk result (λ change. action_in kept.now.tree change
        ≡ action_of kept.now.tree (grants_of kept.now) datagram.now.body) }
    ensures few { length out.new.answers ≤ 8 }
    ensures memory { OnErr result (is_some
        (datagram_comes kept.now.tree kept.now.number (grants_of kept.now) datagram.now.from datagram.now.body).row
        ≡ true) }
    ensures unchanged { OnErr result (out.new ≡ nothing_out) }
{
    let _tree = kept.tree();
    let from = datagram.from;
    match datagram.body {
        Body::Ask(domain) => {
            answer_ask(out, kept, from, domain);
            Ok(Change::Nothing)
        }
        Body::Take {
            domain,
            holder,
            seen,
        } => Ok(decide_take(out, kept, from, domain, holder, seen)),
        Body::Drop {
            domain,
            holder,
            epoch,
        } => Ok(decide_drop(out, kept, from, domain, holder, epoch)),
        Body::Run {
            domain,
            holder,
            epoch,
            number,
            command,
        } => decide_run(out, kept, from, domain, holder, epoch, number, command),
        Body::Tell { domain, told: news } => Ok(decide_tell(out, kept, domain, &news)),
        Body::Watch { .. } => Ok(Change::Nothing),
        Body::State { .. } => Ok(Change::Nothing),
        Body::Unwatch { .. } => Ok(Change::Nothing),
    }
}

/// Saves a change and then makes it. A fault leaves the grants unchanged, and nothing is handed out.
pub(crate) fn apply_change<S: Stable>(
    kept: &mut GrantTable<'_>,
    store: &mut S,
    out: &mut Out,
    change: &Change,
) -> Result<Heard, StepFault>
    requires { IsChange kept.old.tree kept.old.number (grants_of kept.old) change.now }
    ensures grants { (step : GrantStep) → Plans kept.old.tree kept.old.number (grants_of kept.old) step change.now
        → OnOk result (grants_of kept.new ≡ step.grants) }
    ensures heard { (step : GrantStep) → Plans kept.old.tree kept.old.number (grants_of kept.old) step change.now
        → IfOk result (λ heard. heard ≡ heard_of (row_of kept.old.tree kept.old.number step)) }
    ensures store { (step : GrantStep) → Plans kept.old.tree kept.old.number (grants_of kept.old) step change.now
        → Leaves S.is_honest S.is_open S.rows S.may_find S.saves S.failures S.doubts store.old store.new result
        (row_of kept.old.tree kept.old.number step) }
    ensures memory { (step : GrantStep) → Plans kept.old.tree kept.old.number (grants_of kept.old) step change.now
        → IfMemory result (is_some (row_of kept.old.tree kept.old.number step) ≡ true) }
    ensures same { OnOk result ((kept.new.tree ≡ kept.old.tree) × (kept.new.number ≡ kept.old.number)
        × (kept.new.boot ≡ kept.old.boot)) }
    ensures unchanged { OnErr result (kept.new ≡ kept.old) }
    ensures out { OnOk result (out.new ≡ out.old) }
    ensures cleared { OnErr result (out.new ≡ nothing_out) }
{
    let made = save_and_apply(kept, store, change);
    if made.is_err() {
        out.clear();
    }
    made
}
