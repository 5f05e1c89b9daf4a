//! What a journal asks of a station, answered by stations.

use crate::block::StationState;
use smi_command::Link;
use smi_grant::{Holder, Record, Shown};
use smi_rows::Mode;
use smi_station::Station;

impl<'a, S> StationState for Station<'a, S> {
    fn boot(&self) -> u32 {
        Station::boot(self)
    }

    fn operators(&self) -> &[u16] {
        Station::operators(self)
    }

    fn record(&self, domain: u16) -> Option<Record> {
        Station::record(self, domain)
    }

    fn link(&self, holder: Holder, domain: u16) -> Option<Link> {
        Station::link(self, holder, domain)
    }

    fn mode(&self, child: u16) -> Option<Mode> {
        Station::mode(self, child)
    }

    fn current(&self, object: u16) -> Option<Shown> {
        Station::current(self, object)
    }
}
