//! A station, what it keeps, and its steps.

ghost use Rattle.std.specs.Prelude.{◌≡◌};
ghost use Rattle.smi_station.specs.Core.{is_stopped_by};

use crate::start::start;
use smi_command::Link;
use smi_grant::{Holder, Record, Shown};
use smi_message::decode;
use smi_protocol::{Event, Heard, OpenFault, StepFault};
use smi_rows::{Mode, Stable};
use smi_station_display::Displayed;
use smi_station_grants::GrantTable;
use smi_station_output::Out;
use smi_tree::Tree;
use std::alloc::Global;
use std::marker::Model;

/// The half of the grants, the half of the display, and whether the station has stopped.
#[derive(Drop)]
pub(crate) struct Core<'a> {
    pub(crate) kept: GrantTable<'a>,
    pub(crate) display: Displayed<'a>,
    pub(crate) is_stopped: bool,
}

impl<'a> Model for Core<'a> {
    ghost use Rattle.smi_station.specs.Core as core;

    ghost Value = { core.Core };

    ghost view = { λ c. record { kept = c.kept; displayed = c.display; is_stopped = c.is_stopped } };

    ghost invariant = { λ c. core.IsCore (record { kept = c.kept; displayed = c.display; is_stopped = c.is_stopped }) };
}

/// A station: its part of the control hierarchy, and the store of its rows. Contracts see what it keeps, and the
/// store.
#[derive(Drop)]
pub struct Station<'a, S> {
    pub(crate) core: Core<'a>,
    pub(crate) store: S,
}

impl<'a, S> Model for Station<'a, S> {
    ghost use Rattle.smi_station.specs.Readers.{Whole};

    ghost Value = { Whole S };

    ghost view = { λ s. record { core = s.core; store = s.store } };
}

impl<'a, S> Station<'a, S> {
    ghost use Rattle.std.specs.Prelude.{◌≡◌};
    ghost use Rattle.smi_station.specs.Core.{station_of};
    ghost use Rattle.smi_station.specs.Readers.{current_of, link_in, mode_in, operators_in, record_in};
    ghost use Rattle.smi_station.specs.Lending.{LendsStore};
    ghost use Rattle.std.specs.Borrow.{sem};

    /// Returns how often the station has started, 1 to 4,000,000,000.
    pub fn boot(&self) -> u32
        ensures { result ≡ (station_of self.now.core).grants.boot }
    {
        self.core.boot()
    }

    /// Returns true if the station has stopped: a save was left unsure, or an object has reached its last sequence. It
    /// then makes no step until it is opened again.
    pub fn is_stopped(&self) -> bool
        ensures { result ≡ (station_of self.now.core).is_stopped }
    {
        self.core.is_stopped()
    }

    /// Returns the operators of the station, by number.
    pub fn operators(&self) -> &'a [u16]
        ensures { result.now ≡ operators_in self.now.core }
    {
        self.core.operators()
    }

    /// Returns the record of a domain, by its number from 1, None if the station does not keep it.
    pub fn record(&self, domain: u16) -> Option<Record>
        ensures { result ≡ record_in self.now.core domain }
    {
        self.core.record(domain)
    }

    /// Returns the link of a holder to a domain, by its number from 1. None if the holder is of another station, or may
    /// not hold the domain.
    pub fn link(&self, holder: Holder, domain: u16) -> Option<Link>
        ensures { result ≡ link_in self.now.core holder domain }
    {
        self.core.link(holder, domain)
    }

    /// Returns the mode in which a domain is held by the one above it, None if the station does not keep that one.
    pub fn mode(&self, domain: u16) -> Option<Mode>
        ensures { result ≡ mode_in self.now.core domain }
    {
        self.core.mode(domain)
    }

    /// Returns what an object shows, None if the station does not keep it. Units have the numbers of their domains, and
    /// devices follow.
    pub fn current(&self, object: u16) -> Option<Shown>
        ensures { result ≡ current_of (station_of self.now.core) object }
    {
        self.core.current(object)
    }

    /// Returns what it keeps of grants.
    pub fn grants(&self) -> &GrantTable<'a>
        ensures { result.now ≡ self.now.core.kept }
    {
        &self.core.kept
    }

    /// Returns the store of its rows. The caller must leave the rows as they are.
    pub fn stable_mut(&mut self) -> &mut S
        ensures* given_back { sem 𝓛 (LendsStore S.row self.entry result) }
        ensures lent { result.now ≡ self.old.store }
    {
        &mut self.store
    }

    /// Gives the station up for the store of its rows.
    pub fn into_stable(self) -> S
        ensures { result ≡ self.entry.store }
    {
        let Station { core: _, store } = self;
        store
    }
}

impl<'a, S: Stable> Station<'a, S> {
    ghost use Rattle.std.specs.Prelude.{◌≤◌, ◌<◌, ◌+◌, ◌⊎◌, IfErr, IfOk, OnOk};
    ghost use Rattle.smi_rows.specs.Store.{Rows, IsSame};
    ghost use Rattle.smi_protocol.specs.Loading.{IsStation, Opens};
    ghost use Rattle.smi_station_grants.specs.Starting.{IfCertain, IfInDoubt, IfStoreFailed, IfStoreUnfailed};
    ghost use Rattle.smi_station_grants.specs.Starting.{IfUnchanged, IsToldAsMemory, after_start};
    ghost use Rattle.smi_station.specs.Core.{IsOf, IsStoredIn, begun};
    ghost use Rattle.smi_station.specs.Readers.{core_in, store_in};
    ghost use Rattle.std.specs.Prelude.{◌≡◌, true, false, Err};
    ghost use Rattle.smi_station_grants.specs.Save.{IfKept, IfMemory, IfStopped};
    ghost use Rattle.smi_protocol.specs.Step.{after_event, nothing_out};
    ghost use Rattle.smi_protocol.specs.declared.event.StepFault.TheVariants.{Stopped};
    ghost use Rattle.smi_station.specs.Core.{MaySendAll, Steps, number_of, station_of, tree_of};
    ghost use Rattle.smi_station_grants.specs.Leaving.{Leaves};
    ghost use Rattle.smi_station.specs.Wanting.{adds_by, wants_memory};

    /// Opens a station on the store of its rows, by its number in the tree. It is what the rows mean, one boot later,
    /// and the raised boot is saved. All memory is taken and all rows are read before that. Rows of other stations
    /// are left alone.
    ///
    /// A fault gives the store back. They are found in this order: `NoSuchStation`, if the tree has no such station;
    /// `Row`, with the least key whose row is refused and the code of the test that it fails; `BootsSpent`, if the
    /// station has started 4,000,000,000 times. `Store` (the store failed) and `Memory` (memory was refused) can come
    /// at any point. That `Memory` means a refused allocation is tested, not proved. After each the rows are as before,
    /// but after an unsure save the boot may be one higher. The store failed if `Store` is answered, and in no other
    /// case.
    pub fn open(
        alloc: Global,
        tree: &'a Tree,
        number: u16,
        store: S,
    ) -> Result<Station<'a, S>, (OpenFault, S)>
        ensures opens { S.is_honest (store_in result) → Opens tree.now number (S.rows store) (begun (core_in result)) }
        ensures of { IfOk (core_in result) (IsOf tree.now number) }
        // Whatever the store is, it is given back as it was where the tree has no such station.
        ensures stranger { IsStation tree.now number false
            → (core_in result ≡ Err OpenFault.NoSuchStation) × (store_in result ≡ store) }
        // They then say all that the station keeps.
        ensures stored { S.is_honest (store_in result) → IfOk (core_in result) (IsStoredIn (S.rows (store_in result))) }
        ensures saved { S.is_honest (store_in result)
            → OnOk result (S.is_open (store_in result)
            × IsSame (S.rows (store_in result)) (after_start tree.now number (S.rows store))) }
        ensures kept { S.is_honest (store_in result) → S.is_open store
            → IfUnchanged (core_in result) (S.is_open (store_in result)
            × IsSame (S.rows (store_in result)) (S.rows store)) }
        ensures unsure { S.is_honest (store_in result) → S.is_open store → S.is_open (store_in result)
            → IfInDoubt (core_in result) (IsSame (S.rows (store_in result)) (S.rows store)
            ⊎ IsSame (S.rows (store_in result)) (after_start tree.now number (S.rows store))) }
        // A stop at any moment leaves the boot as before or one higher.
        ensures crash { S.is_honest (store_in result) → S.is_open store → (r : Rows) → S.may_find (store_in result) r
            → IsSame r (S.rows store) ⊎ IsSame r (after_start tree.now number (S.rows store)) }
        ensures honest { S.is_honest (store_in result) → S.is_honest store }
        ensures saves { S.saves (store_in result) ≤ S.saves store + 1 }
        ensures failures { S.failures store ≤ S.failures (store_in result) }
        ensures cause { IfStoreFailed (core_in result) (S.failures store < S.failures (store_in result)) }
        ensures calm { IfStoreUnfailed (core_in result) (S.failures (store_in result) ≡ S.failures store) }
        ensures doubt { IfInDoubt (core_in result) (S.doubts store < S.doubts (store_in result)) }
        ensures sure { IfCertain (core_in result) (S.doubts (store_in result) ≡ S.doubts store) }
        ensures fault { IfErr (core_in result) IsToldAsMemory }
    {
        let mut store = store;
        match start(alloc, tree, number, &mut store) {
            Ok(core) => Ok(Station { core, store }),
            Err(fault) => Err((fault, store)),
        }
    }

    /// Makes the step of an event: of bytes, an order, a report, or a tick. `out` then holds what the step hands out,
    /// and nothing of an earlier one.
    ///
    /// A step saves before it changes anything and before anything is handed out. After `NotStored` (the store answered
    /// `Device`) and `Memory` (memory was refused to the station or the store) the station and its rows are unchanged.
    /// `Memory` comes only if a row is saved or a watch adds an entry, so ticks, reports and refusals never answer it.
    /// `Stopped` is answered by a station that has stopped, before all other tests, and if the store answered `Unsure`:
    /// the station has then stopped, and its rows are as before or as after the step. The store failed if `NotStored`
    /// is answered, or `Stopped` by a station that ran, and in no other case. That memory was refused if `Memory` is
    /// answered is tested, not proved. After each of the three nothing is handed out. A stop at any moment of a step
    /// leaves the rows as before or as after it.
    pub fn step(&mut self, event: Event<'_>, out: &mut Out) -> Result<Heard, StepFault>
        ensures step { self.old.core.is_stopped ≡ false
            → Steps self.old.core self.new.core (after_event (tree_of self.old.core) (number_of self.old.core)
            (station_of self.old.core) event.entry) out.new result }
        ensures store { self.old.core.is_stopped ≡ false
            → Leaves S.is_honest S.is_open S.rows S.may_find S.saves S.failures S.doubts self.old.store self.new.store
            result
            (after_event (tree_of self.old.core) (number_of self.old.core) (station_of self.old.core)
            event.entry).saved }
        // Memory is wanted for a row that is saved, or for a new watcher, and for nothing else.
        ensures memory { self.old.core.is_stopped ≡ false → IfMemory result (wants_memory
            (after_event (tree_of self.old.core) (number_of self.old.core) (station_of self.old.core)
            event.entry).saved (adds_by (tree_of self.old.core) (number_of self.old.core)
            (station_of self.old.core).display event.entry) ≡ true) }
        // Rows that said all that the station kept do so after the step.
        ensures stored { self.old.core.is_stopped ≡ false → S.is_honest self.new.store → S.is_open self.old.store
            → IsStoredIn (S.rows self.old.store) self.old.core
            → OnOk result (IsStoredIn (S.rows self.new.store) self.new.core) }
        // Each datagram is one that the station may send, now and at any time until its next step.
        ensures may_send { self.old.core.is_stopped ≡ false → OnOk result (MaySendAll self.new.core out.new.datagrams) }
        ensures kept { IfKept result (self.new.core ≡ self.old.core) }
        ensures stops { IfStopped result (self.new.core ≡ record self.old.core { is_stopped = true }) }
        ensures stopped { self.old.core.is_stopped ≡ true
            → (result ≡ Err Stopped) × (out.new ≡ nothing_out) × (self.new.store ≡ self.old.store) }
    {
        let _tree = self.core.tree();
        self.core.step(&mut self.store, event, out)
    }
}

/// Returns true if a step has stopped its station.
fn is_stopped_by(heard: &Result<Heard, StepFault>) -> bool
    ensures { result ≡ is_stopped_by heard.now }
{
    match heard {
        Err(StepFault::Stopped) => true,
        _ => false,
    }
}

impl<'a> Core<'a> {
    ghost use Rattle.std.specs.Prelude.{◌≡◌, true, false, Err, OnErr, OnOk};
    ghost use Rattle.smi_station_grants.specs.Save.{IfKept, IfMemory, IfStopped};
    ghost use Rattle.smi_message.specs.Spelling.{reading};
    ghost use Rattle.smi_protocol.specs.Step.{after_event, after_reading, nothing_out};
    ghost use Rattle.smi_protocol.specs.declared.event.StepFault.TheVariants.{Stopped};
    ghost use Rattle.smi_station.specs.Core.{MaySendAll, Steps, number_of, station_of, tree_of};
    ghost use Rattle.smi_station_grants.specs.Leaving.{Leaves};
    ghost use Rattle.smi_station.specs.Wanting.{adds_by, adds_read, wants_memory};

    /// Makes the step of an event. A station that has stopped makes none.
    fn step<S: Stable>(
        &mut self,
        store: &mut S,
        event: Event<'_>,
        out: &mut Out,
    ) -> Result<Heard, StepFault>
        ensures step { self.old.is_stopped ≡ false
            → Steps self.old self.new (after_event (tree_of self.old) (number_of self.old) (station_of self.old)
            event.entry) out.new result }
        ensures store { self.old.is_stopped ≡ false
            → Leaves S.is_honest S.is_open S.rows S.may_find S.saves S.failures S.doubts store.old store.new result
            (after_event (tree_of self.old) (number_of self.old) (station_of self.old) event.entry).saved }
        ensures memory { self.old.is_stopped ≡ false → IfMemory result (wants_memory
            (after_event (tree_of self.old) (number_of self.old) (station_of self.old) event.entry).saved
            (adds_by (tree_of self.old) (number_of self.old) (station_of self.old).display event.entry) ≡ true) }
        ensures may_send { self.old.is_stopped ≡ false → OnOk result (MaySendAll self.new out.new.datagrams) }
        ensures kept { IfKept result (self.new ≡ self.old) }
        ensures stops { IfStopped result (self.new ≡ record self.old { is_stopped = true }) }
        ensures stopped { self.old.is_stopped ≡ true
            → (result ≡ Err Stopped) × (out.new ≡ nothing_out) × (store.new ≡ store.old) }
    {
        out.clear();
        if self.is_stopped {
            return Err(StepFault::Stopped);
        }
        let heard = self.step_running(store, event, out);
        if is_stopped_by(&heard) {
            self.is_stopped = true;
        }
        heard
    }

    /// Makes the step of an event at a station that runs.
    fn step_running<S: Stable>(
        &mut self,
        store: &mut S,
        event: Event<'_>,
        out: &mut Out,
    ) -> Result<Heard, StepFault>
        requires runs { self.old.is_stopped ≡ false }
        requires empty { out.old ≡ nothing_out }
        ensures step { Steps self.old self.new (after_event (tree_of self.old) (number_of self.old)
            (station_of self.old) event.entry) out.new result }
        ensures store { Leaves S.is_honest S.is_open S.rows S.may_find S.saves S.failures S.doubts store.old store.new
            result
            (after_event (tree_of self.old) (number_of self.old) (station_of self.old) event.entry).saved }
        ensures memory { IfMemory result (wants_memory
            (after_event (tree_of self.old) (number_of self.old) (station_of self.old) event.entry).saved
            (adds_by (tree_of self.old) (number_of self.old) (station_of self.old).display event.entry) ≡ true) }
        ensures may_send { OnOk result (MaySendAll self.new out.new.datagrams) }
        ensures unchanged { OnErr result (self.new ≡ self.old) }
    {
        let _tree = self.kept.tree();
        match event {
            Event::Datagram(bytes) => self.read(store, out, bytes),
            Event::Order(operator, order) => self.order(store, out, operator, &order),
            Event::Report(device, state) => self.report(out, device, state),
            Event::Tick => self.tick(out),
        }
    }

    /// Reads the bytes of a datagram and hears it.
    fn read<S: Stable>(
        &mut self,
        store: &mut S,
        out: &mut Out,
        bytes: &[u8],
    ) -> Result<Heard, StepFault>
        requires runs { self.old.is_stopped ≡ false }
        requires empty { out.old ≡ nothing_out }
        ensures step { Steps self.old self.new (after_reading (tree_of self.old) (number_of self.old)
            (station_of self.old) (reading bytes.now)) out.new result }
        ensures store { Leaves S.is_honest S.is_open S.rows S.may_find S.saves S.failures S.doubts store.old store.new
            result
            (after_reading (tree_of self.old) (number_of self.old) (station_of self.old) (reading bytes.now)).saved }
        ensures memory { IfMemory result (wants_memory
            (after_reading (tree_of self.old) (number_of self.old) (station_of self.old) (reading bytes.now)).saved
            (adds_read (tree_of self.old) (number_of self.old) (station_of self.old).display (reading bytes.now))
            ≡ true) }
        ensures unchanged { OnErr result (self.new ≡ self.old) }
    {
        match decode(bytes) {
            Ok(datagram) => self.datagram(store, out, &datagram),
            Err(bad) => Ok(Heard::Refused(bad.code())),
        }
    }
}
