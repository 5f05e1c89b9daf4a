//! Builds the parts of a screen before its web server listens: the picture, the web service, the console for orders,
//! and the history with its file.
//!
//! `screen` calls [`build_parts`] once, and makes the web server of what it returns. The service answers from the
//! picture and the history, so a screen that starts again shows its past at once, and its picture is empty.

ghost use Rattle.std.specs.Prelude.{IfErr};
ghost use Rattle.smi_screen.specs.Ending.{IsOfStart};

use crate::console::NodeConsole;
use crate::history_file::HistoryFile;
use crate::screen::{Ended, OrderSetup, ScreenSetup, error_of};
use bytes::Bytes;
use smi_history::{History, USUAL_DAYS};
use smi_tree::Tree;
use smi_view::Picture;
use smi_web::{Acknowledgements, OrderRelay, PageOrders, Snapshot, WebService};
use std::alloc::Global;
use std::fs::Files;
use std::mem::replace;
use std::time::Clock;

/// The parts of a screen.
#[derive(Drop)]
pub(crate) struct ScreenParts {
    /// What its station has seen: nothing yet.
    pub(crate) picture: Picture,
    /// The service that answers requests.
    pub(crate) service: WebService,
    /// The console that orders go to. None if the page may give none.
    pub(crate) console: Option<NodeConsole>,
    /// The file of the history. None if the history ends with the screen.
    pub(crate) history_file: Option<HistoryFile>,
}

/// A history and its file, if it has one.
#[derive(Drop)]
struct KeptHistory {
    history: History,
    file: Option<HistoryFile>,
}

/// Returns the history of a screen, whose entries are kept for this many days: the one in the file of a path, or an
/// empty one if there is no path or no file. Fails with `History` if the file can't be read or written.
fn kept_history<R: Clock + Files + AllocGlobal>(
    rt: &R,
    path: &Option<String>,
    days: Option<u64>,
) -> Result<KeptHistory, Ended>
    ensures { IfErr result IsOfStart }
{
    let Some(path) = path else {
        let mut history = History::new(rt.alloc());
        history.keep_days(days.unwrap_or(USUAL_DAYS));
        return Ok(KeptHistory {
            history,
            file: None,
        });
    };
    match HistoryFile::open(rt, path.as_str(), days.unwrap_or(USUAL_DAYS)) {
        Ok((file, history)) => Ok(KeptHistory {
            history,
            file: Some(file),
        }),
        Err(e) => Err(error_of(e, Ended::History)),
    }
}

/// Makes what the service needs to take orders, and the console that they go to. Nobody has given an order yet.
fn order_parts(alloc: Global, orders: OrderSetup) -> (PageOrders, NodeConsole) {
    let OrderSetup {
        console,
        key,
        origin,
        tree,
    } = orders;
    let orders = PageOrders {
        tree,
        key,
        origin,
        relay: OrderRelay::new(alloc),
        acknowledged: Acknowledgements::new(alloc),
        time: 0,
    };
    (orders, NodeConsole::new(alloc, console))
}

/// Makes the parts of a screen of these values, and of the hosts and the orders of the setup, which it takes out of it.
fn parts_with(
    alloc: Global,
    setup: &mut ScreenSetup,
    picture: Picture,
    snapshot: Snapshot,
    kept: KeptHistory,
) -> ScreenParts {
    let KeptHistory { history, file } = kept;
    let hosts = replace(&mut setup.hosts, Vec::new(alloc));
    let (orders, console) = match replace(&mut setup.orders, None) {
        Some(orders) => {
            let (orders, console) = order_parts(alloc, orders);
            (Some(orders), Some(console))
        }
        None => (None, None),
    };
    ScreenParts {
        picture,
        service: WebService {
            hosts,
            snapshot,
            orders,
            history,
        },
        console,
        history_file: file,
    }
}

/// Makes the parts of a screen that has seen nothing but what its history tells. It takes the page, the hosts and the
/// orders out of the setup.
///
/// They are in a box, because each function that drops them itself is expensive to prove.
pub(crate) fn build_parts<R: Clock + Files + AllocGlobal>(
    rt: &R,
    tree: &Tree,
    setup: &mut ScreenSetup,
) -> Result<Box<ScreenParts>, Ended>
    ensures { IfErr result IsOfStart }
{
    let alloc = rt.alloc();
    let kept = kept_history(rt, &setup.history, setup.history_days)?;
    let picture = Picture::new(alloc, tree.object_count(), tree.domain_count())?;
    let page = replace(&mut setup.page, Bytes::from_static(b""));
    let snapshot = Snapshot::first(alloc, page, tree, &picture)?;
    let Ok(parts) = Box::new(alloc, parts_with(alloc, setup, picture, snapshot, kept)) else {
        return Err(Ended::Memory);
    };
    let mut parts = parts;
    parts.service.renew_orders(alloc)?;
    Ok(parts)
}
