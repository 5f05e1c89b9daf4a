//! The texts that a screen serves, as they were at one moment. `crates/smi_screen/src/web_server.rt` renews them five
//! times a second, so that a request only hands a text out and many clients cost little more than one. `service.rt`
//! serves them. docs/FORMATS.md, "The screen", fixes the texts.

ghost use Rattle.std.specs.Prelude.{◌≡◌, IfOk};
ghost use Rattle.smi_web.specs.Snapshot.{version_of};

use crate::acknowledgements::Acknowledgements;
use crate::changes_json::write_changes;
use crate::metrics::{ScreenFigures, write_metrics};
use crate::order_relay::OrderRelay;
use crate::orders_json::write_orders;
use crate::picture_json::write_picture;
use crate::tree_json::write_tree;
use bytes::Bytes;
use smi_history::shared;
use smi_tree::Tree;
use smi_view::Picture;
use std::alloc::{AllocError, Global};
use std::io::Write;

/// The texts that are served. A copy of a text shares its bytes.
#[derive(Drop)]
pub struct Snapshot {
    /// The query of a client that has this picture already: `after=310`.
    pub version: Bytes,
    /// The page, with its key if orders may be given.
    pub page: Bytes,
    /// The tree as JSON. It stays the same while the screen runs.
    pub tree: Bytes,
    /// The picture as JSON.
    pub picture: Bytes,
    /// The time of the picture, in milliseconds since the screen began.
    pub now: u64,
    /// What has changed in the picture in the two seconds before it, as JSON.
    pub changes: Bytes,
    /// The metrics of the picture, in Prometheus' text format.
    pub metrics: Bytes,
    /// The orders of the page, the modes and the acknowledged alarms, as JSON. It is empty until `renew_orders`, and
    /// stays so if orders may not be given.
    pub orders: Bytes,
}

/// Returns the query of a client that has the picture of this number: `after=310`.
fn version_of(alloc: Global, number: u64) -> Result<Bytes, AllocError>
    ensures { IfOk result (λ bytes. bytes ≡ version_of number) }
{
    let mut text = Vec::from_slice(alloc, b"after=")?;
    // Writing into a Vec fails only if memory is refused.
    write!(text, "{number}").map_err(|_| AllocError)?;
    shared(text)
}

impl Snapshot {
    ghost use Rattle.std.specs.Prelude.{◌≡◌, IfOk, OnErr, OnOk};
    ghost use Rattle.smi_web.specs.Snapshot.{no_figures, snapshot_of, renewed, with_orders};

    /// Makes the first snapshot, of a page, a tree and a picture, at time 0 and before anything was counted.
    ///
    /// Fails only if memory is refused (tested, not proved). No clause names `alloc`, from which memory comes.
    pub fn first(
        alloc: Global,
        page: Bytes,
        tree: &Tree,
        picture: &Picture,
    ) -> Result<Snapshot, AllocError>
        ensures { IfOk result (λ snapshot. snapshot ≡ snapshot_of page tree.now picture.now no_figures) }
    {
        let shape = shared(write_tree(alloc, tree)?)?;
        let scene = shared(write_picture(alloc, tree, picture, 0, 0)?)?;
        let changes = shared(write_changes(alloc, tree, picture, 0, 0)?)?;
        let figures = ScreenFigures {
            number: 0,
            now: 0,
            foreign: 0,
        };
        let metrics = shared(write_metrics(alloc, tree, picture, figures)?)?;
        Ok(Snapshot {
            version: version_of(alloc, 0)?,
            page,
            tree: shape,
            picture: scene,
            now: 0,
            changes,
            metrics,
            orders: Bytes::from_static(b""),
        })
    }

    /// Renews the texts of the picture, with the figures of its screen. The page, the tree and the orders stay.
    ///
    /// Fails only if memory is refused (tested, not proved), and changes nothing then. No clause names `alloc`, from
    /// which memory comes.
    pub fn renew(
        &mut self,
        alloc: Global,
        tree: &Tree,
        picture: &Picture,
        figures: ScreenFigures,
    ) -> Result<(), AllocError>
        ensures ok { OnOk result (self.new ≡ renewed self.old tree.now picture.now figures) }
        ensures err { OnErr result (self.new ≡ self.old) }
    {
        let ScreenFigures { number, now, .. } = figures;
        let scene = shared(write_picture(alloc, tree, picture, number, now)?)?;
        let changes = shared(write_changes(alloc, tree, picture, number, now)?)?;
        let metrics = shared(write_metrics(alloc, tree, picture, figures)?)?;
        self.version = version_of(alloc, number)?;
        self.picture = scene;
        self.now = now;
        self.changes = changes;
        self.metrics = metrics;
        Ok(())
    }

    /// Renews the text of the orders of this relay and the acknowledged alarms, as they are at the time `now`. All else
    /// stays.
    ///
    /// Fails only if memory is refused (tested, not proved), and changes nothing then. No clause names `alloc`, from
    /// which memory comes.
    pub fn renew_orders(
        &mut self,
        alloc: Global,
        relay: &OrderRelay,
        acknowledged: &Acknowledgements,
        now: u64,
    ) -> Result<(), AllocError>
        ensures ok { OnOk result (self.new ≡ with_orders self.old relay.now acknowledged.now now) }
        ensures err { OnErr result (self.new ≡ self.old) }
    {
        self.orders = shared(write_orders(alloc, relay, acknowledged, now)?)?;
        Ok(())
    }
}
