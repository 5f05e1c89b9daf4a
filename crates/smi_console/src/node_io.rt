//! Holds the station's side of a node while the threads of its consoles are not started yet.
//!
//! `setup` builds it, starts the threads, and then turns it into the `station_loop` that serves the station. The
//! console's side is `ConsoleParts` of `threads`.

use crate::station_loop::StationLoop;
use smi_link::DatagramLink;
use smi_node::{NodeStats, StepObserver};
use smi_operator::Desk;
use smi_session::boxed;
use std::alloc::{AllocError, Global};
use std::sync::Arc;

/// The fields of a [`NodeIo`].
#[derive(Drop)]
struct NodeIoParts<L: Drop> {
    /// The link to the other stations.
    link: L,
    /// The station's end of all seats, whose other ends the sessions have.
    desk: Box<Desk>,
    /// The counters that the station's thread raises, and that sessions read for `counts`.
    stats: Arc<NodeStats, Global>,
}

/// The link of a station, the desk of its seats, and the statistics that both sides share.
#[derive(Drop)]
pub(crate) struct NodeIo<L: Drop> {
    // In a box, because each function that drops the parts themselves is expensive to prove.
    parts: Box<NodeIoParts<L>>,
}

impl<L: DatagramLink + Drop> NodeIo<L> {
    /// Makes the station's side of this link, this desk and these statistics. Fails if memory was refused.
    pub(crate) fn new(
        alloc: Global,
        link: L,
        desk: Box<Desk>,
        stats: Arc<NodeStats, Global>,
    ) -> Result<NodeIo<L>, AllocError> {
        let parts = NodeIoParts { link, desk, stats };
        let parts = boxed(alloc, parts)?;
        Ok(NodeIo { parts })
    }

    /// Turns it into the loop that serves the station, before this observer. Fails if memory was refused.
    pub(crate) fn into_service<V: StepObserver + Drop>(
        self,
        alloc: Global,
        observer: V,
    ) -> Result<StationLoop<L, V>, AllocError> {
        let NodeIoParts { link, desk, stats } = Box::into_inner(self.parts);
        StationLoop::new(alloc, link, desk, stats, observer)
    }
}
