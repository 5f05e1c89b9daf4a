//! Schedules played on stations over two stores side by side, one in memory and another, and beside the world of
//! `smi_world`.
//!
//! After each item the stations over both stores have heard, handed out and saved the same, byte for byte. The world
//! has left what they have handed out, and each of them tells of itself what the entries say.

use crate::stable::disks::{FusedFiles, OnDisks};
use smi_protocol::Item;
use smi_schedule::{draw_schedule, read_schedule};
use smi_tree::Tree;
use std::alloc::Global;
use std::test::Fail;
use store::Closing;

mod left;
mod playing;
mod side;
mod store;
pub(crate) mod streamed;
mod turn;
pub(crate) mod wide;

/// Over the worked tree: grants that are taken, handed on and let go, each mode, watches, reports, stops and failures.
const SCHEDULE: &[u8] =
    b"order ANN take DCS\ndeliver 1\ndeliver 2\norder ANN watch TPC\ndeliver 3\nstop A after order ANN include DCS TPC\ntick A\ndeliver 5\nfail B device recent 0\nstop B after recent 0\nrecent 1\nrecent 0\nfail A before recent 0\nreport HV OFF\nrestart A\nrestart B\nfail B after order BOB take TPC\nrestart B\ntick B\ntick A\nrecent 2\nrecent 1\nrecent 0\nstop A after deliver 9\nstop A before tick A\nfail A after order ANN do DCS CONFIGURE\nrestart A\ntick A\nrecent 2\nrecent 0\norder BOB take TPC\nrecent 0\nrecent 0\norder BOB do TPC CONFIGURE\norder BOB do TPC START\nrecent 1\nrecent 1\nrecent 0\nreport HV ERROR\norder ANN unwatch TPC\norder BOB ask TPC\nrecent 0\nrecent 0\norder BOB drop TPC\nrecent 0\nrecent 0\norder ANN include DCS TPC\ntick A\nrecent 0\nrecent 0\norder ANN manual DCS TPC\nrecent 0\norder ANN ignore DCS TPC\nrecent 0\norder ANN exclude DCS TPC\nrecent 0\n";

fn are_made<S: OnDisks<Disks = FusedFiles>>(
    alloc: Global,
    tree: &Tree,
    items: &[Item],
) -> Result<bool, Fail> {
    Ok(playing::are_played::<Closing<S>>(alloc, tree, items)?)
}

/// Returns whether the items of a written schedule are played so over the worked tree.
pub(crate) fn is_written_played<S: OnDisks<Disks = FusedFiles>>(
    alloc: Global,
    tree: &Tree,
) -> Result<bool, Fail> {
    let items = read_schedule(alloc, tree, SCHEDULE)?;
    are_made::<S>(alloc, tree, items.as_slice())
}

/// Returns whether this many items that a seed draws are played so.
pub(crate) fn are_drawn_played<S: OnDisks<Disks = FusedFiles>>(
    alloc: Global,
    tree: &Tree,
    seed: u64,
    count: u32,
) -> Result<bool, Fail> {
    let items = draw_schedule(alloc, tree, seed, count)?;
    are_made::<S>(alloc, tree, items.as_slice())
}
