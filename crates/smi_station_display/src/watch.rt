//! Handles watches and unwatches that come, and states that are told.

ghost use Rattle.std.specs.Prelude.{◌≡◌, ◌≤◌, length, not, IfOk, OnOk, OnErr};
ghost use Rattle.smi_base.specs.declared.trees.TheConstants.{MOST_STATIONS};
ghost use Rattle.smi_protocol.specs.Watching as watching;
ghost use Rattle.smi_watchers.specs.Watching.{answer_in, listed};
ghost use Rattle.smi_watchers.specs.declared.answer.WatchAnswer.TheVariants.{Added};
ghost use Rattle.smi_station_display.specs.Listening.{before_by};

use crate::displayed::Displayed;
use smi_grant::Shown;
use smi_station_grants::entry_of;
use smi_station_output::{Out, show, unwatch};
use smi_tree::is_child_unit;
use smi_view::Acceptance;
use smi_watchers::{WatchFault, Watchers};
use std::alloc::AllocError;

/// Puts a station into the list of an object, and first takes it out of all if it was started again. Returns whether
/// there was room for it.
fn listen(
    watchers: &mut Watchers,
    is_newer: bool,
    object: u16,
    from: u16,
    echo: u32,
) -> Result<bool, AllocError>
    requires object_least { 1 ≤ object }
    requires object_most { object ≤ length watchers.old.lists }
    requires from_least { 1 ≤ from }
    requires from_most { from ≤ MOST_STATIONS }
    ensures lists { OnOk result (watchers.new.lists
        ≡ watching.lists_after (before_by is_newer watchers.old.lists from) object from echo) }
    ensures room { IfOk result (λ room. room ≡ not
        (watching.is_full (before_by is_newer watchers.old.lists from) object from)) }
    ensures err { OnErr result (watchers.new ≡ watchers.old) }
    ensures memory { OnErr result
        (answer_in (listed (before_by is_newer watchers.old.lists from) object) from echo ≡ Added) }
    ensures objects { length watchers.new.lists ≡ length watchers.old.lists }
{
    if is_newer {
        return match watchers.renew(object, from, echo) {
            Ok(_) => Ok(true),
            Err(WatchFault::Full) => Ok(false),
            Err(WatchFault::Memory) => Err(AllocError),
        };
    }
    match watchers.watch(object, from, echo) {
        Ok(_) => Ok(true),
        Err(WatchFault::Full) => Ok(false),
        Err(WatchFault::Memory) => Err(AllocError),
    }
}

impl<'a> Displayed<'a> {
    ghost use Rattle.std.specs.Prelude.{◌≡◌, ◌≤◌, true, map, OnOk, OnErr};
    ghost use Rattle.smi_message.specs.Message.{is_boot};
    ghost use Rattle.smi_station_output.specs.Out.{sent_after, with_notice};
    ghost use Rattle.smi_protocol.specs.Messages.{if_any, shows};
    ghost use Rattle.smi_protocol.specs.Opening.{object_count};
    ghost use Rattle.smi_protocol.specs.Watching.{is_watched, state_comes, unwatch_comes, watch_comes};
    ghost use Rattle.smi_tree.specs.Roles.{is_child_unit, is_kept_by};
    ghost use Rattle.smi_publish.specs.Published.{shown_at};
    ghost use Rattle.smi_tree.specs.Lookups.{station_count};
    ghost use Rattle.smi_station_display.specs.Displayed.{display_of};
    ghost use Rattle.smi_station_display.specs.Listening.{KeepsTheRest, adds_watcher};

    /// Returns true if an object is the unit of a child of a domain that the station keeps.
    pub(crate) fn is_child_unit(&self, object: u16) -> bool
        ensures { result ≡ is_child_unit self.now.tree self.now.number object }
    {
        is_child_unit(self.tree, self.number, object)
    }

    /// Returns true if the station watches an object.
    pub(crate) fn is_watched(&self, object: u16) -> bool
        ensures { result ≡ is_watched self.now.tree self.now.number (display_of self.now) object }
    {
        entry_of(&self.named, object, false) || self.is_child_unit(object)
    }

    /// Sends what an object shows to a station that watches it.
    fn send_current(&self, out: &mut Out, to: u16, echo: u32, object: u16)
        requires to_least { 1 ≤ to }
        requires to_most { to ≤ station_count self.now.tree }
        requires echo { is_boot echo ≡ true }
        ensures { out.new
            ≡ record out.old {
              datagrams = sent_after out.old.datagrams
                  (map (shows self.now.tree self.now.number to echo)
                  (if_any (shown_at self.now.published.boot (display_of self.now).conditions object)));
            } }
    {
        match self.publisher.current(object) {
            Some(shown) => out.send(show(self.tree, self.number, to, echo, shown)),
            None => {}
        }
    }

    /// Handles the request of a station to be shown an object of this one.
    ///
    /// Its error is that the memory for one more watcher was refused, if its station is not in the object's list or
    /// was started again; nothing has changed then.
    pub fn watch_comes(
        &mut self,
        out: &mut Out,
        from: u16,
        object: u16,
        echo: u32,
    ) -> Result<(), AllocError>
        requires from_least { 1 ≤ from }
        requires from_most { from ≤ station_count self.old.tree }
        requires object { is_kept_by self.old.tree self.old.number object ≡ true }
        requires echo { is_boot echo ≡ true }
        ensures display { OnOk result (display_of self.new
            ≡ (watch_comes self.old.tree self.old.number self.old.published.boot (display_of self.old) from object
            echo).display) }
        ensures sent { OnOk result (out.new ≡ with_notice out.old
            (watch_comes self.old.tree self.old.number self.old.published.boot (display_of self.old) from object
            echo)) }
        ensures rest { KeepsTheRest self.old self.new }
        ensures err { OnErr result (self.new ≡ self.old) }
        ensures memory { OnErr result (adds_watcher (display_of self.old) from object echo ≡ true) }
        ensures unsent { OnErr result (out.new ≡ out.old) }
    {
        let newest = entry_of(&self.echoes, from, 0);
        if echo < newest {
            return Ok(());
        }
        let room = listen(&mut self.watchers, newest < echo, object, from, echo)?;
        self.echoes[usize::from(from) - 1] = echo;
        if room {
            self.send_current(out, from, echo, object);
        }
        Ok(())
    }

    /// Handles the request of a station to be shown an object of this one no longer.
    pub fn unwatch_comes(&mut self, from: u16, object: u16, echo: u32)
        requires from_least { 1 ≤ from }
        requires from_most { from ≤ station_count self.old.tree }
        requires object { is_kept_by self.old.tree self.old.number object ≡ true }
        ensures display { display_of self.new ≡ (unwatch_comes (display_of self.old) from object echo).display }
        ensures rest { KeepsTheRest self.old self.new }
    {
        self.watchers.unwatch(object, from, echo);
    }

    /// Handles what a station tells of an object of its own.
    pub fn state_comes(&mut self, out: &mut Out, from: u16, echo: u32, told: Shown)
        requires from_least { 1 ≤ from }
        requires from_most { from ≤ station_count self.old.tree }
        requires object_least { 1 ≤ told.object }
        requires object_most { told.object ≤ object_count self.old.tree }
        ensures display { display_of self.new
            ≡ (state_comes self.old.tree self.old.number self.old.published.boot (display_of self.old) from echo
            told).display }
        ensures sent { out.new ≡ with_notice out.old
            (state_comes self.old.tree self.old.number self.old.published.boot (display_of self.old) from echo told) }
        ensures rest { KeepsTheRest self.old self.new }
    {
        let boot = self.publisher.boot();
        if echo != boot {
            return;
        }
        if !self.is_watched(told.object) {
            out.send(unwatch(self.tree, self.number, boot, from, told.object));
            return;
        }
        match self.view.accept(echo, told) {
            Acceptance::Accepted => out.show(told),
            Acceptance::OtherBoot | Acceptance::NotNewer => {}
        }
    }
}
