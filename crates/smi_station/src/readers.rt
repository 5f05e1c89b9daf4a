//! What a station tells of itself.

use crate::station::Core;
use smi_command::Link;
use smi_grant::{Holder, Record, Shown};
use smi_rows::Mode;
use smi_station_decide::speaks_for;
use smi_tree::{Tree, has_domain, is_child_unit, is_keeper};

impl<'a> Core<'a> {
    ghost use Rattle.std.specs.Prelude.{◌≡◌};
    ghost use Rattle.smi_tree.specs.Lawful.{IsTree};
    ghost use Rattle.smi_station.specs.Core.{number_of, station_of, tree_of};
    ghost use Rattle.smi_station.specs.Readers.{current_of, link_in, mode_in, operators_in, record_in};

    /// Returns the tree of the station.
    pub(crate) fn tree(&self) -> &'a Tree
        ensures value { result.now ≡ tree_of self.now }
        ensures lawful { IsTree (tree_of self.now) }
    {
        self.kept.tree()
    }

    /// Returns the operators of the station.
    pub(crate) fn operators(&self) -> &'a [u16]
        ensures { result.now ≡ operators_in self.now }
    {
        let tree = self.kept.tree();
        tree.operators(self.kept.number())
    }

    /// Returns how often the station has started.
    pub(crate) fn boot(&self) -> u32
        ensures { result ≡ (station_of self.now).grants.boot }
    {
        self.display.boot()
    }

    /// Returns true if the station has stopped.
    pub(crate) fn is_stopped(&self) -> bool
        ensures { result ≡ (station_of self.now).is_stopped }
    {
        self.is_stopped
    }

    /// Returns the record of a domain that the station keeps.
    pub(crate) fn record(&self, domain: u16) -> Option<Record>
        ensures { result ≡ record_in self.now domain }
    {
        if is_keeper(self.kept.tree(), self.kept.number(), domain) {
            Some(self.kept.record(domain))
        } else {
            None
        }
    }

    /// Returns the link to a domain of a holder that may hold it, if the station speaks for the holder.
    pub(crate) fn link(&self, holder: Holder, domain: u16) -> Option<Link>
        ensures { result ≡ link_in self.now holder domain }
    {
        let tree = self.kept.tree();
        if has_domain(tree, domain) && speaks_for(tree, self.kept.number(), domain, holder) {
            Some(self.kept.link(holder, domain))
        } else {
            None
        }
    }

    /// Returns the mode in which a domain of the station holds this child.
    pub(crate) fn mode(&self, domain: u16) -> Option<Mode>
        ensures { result ≡ mode_in self.now domain }
    {
        if is_child_unit(self.kept.tree(), self.kept.number(), domain) {
            Some(self.kept.mode(domain))
        } else {
            None
        }
    }

    /// Returns what an object of the station shows.
    pub(crate) fn current(&self, object: u16) -> Option<Shown>
        ensures { result ≡ current_of (station_of self.now) object }
    {
        self.display.current(object)
    }
}
