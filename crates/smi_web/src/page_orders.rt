//! What a page may do but look: the orders that it may give, and the alarms that it may acknowledge. `service.rt` has
//! one if the screen was started with `--orders`, and `crates/smi_screen/src/screen_parts.rt` makes it. The key here is
//! what keeps other pages from giving orders (docs/FORMATS.md, "Orders from the page").

ghost use Rattle.std.specs.Prelude.{◌≡◌, OnErr, OnOk};

use crate::acknowledgements::Acknowledgements;
use crate::order_relay::OrderRelay;
use bytes::Bytes;
use smi_tree::Tree;
use std::alloc::AllocError;

/// The orders that a page has given, the alarms that were acknowledged, and how the page is known.
#[derive(Drop)]
pub struct PageOrders {
    /// The tree, of which the operators in orders and all names in alarms have to be.
    pub tree: Tree,
    /// What a request from the page has to have as its `Authorization`, as `Bearer 0123..`. The key is in the page and
    /// in no other; with `--token` the token takes its place and is not in the page.
    pub key: Bytes,
    /// The origin of the page at a proxy, as `https://NAME` (`--origin`). None if there is no proxy.
    pub origin: Option<Bytes>,
    /// The orders, and the connection with the console as far as this crate knows it.
    pub relay: OrderRelay,
    /// The alarms that were acknowledged.
    pub acknowledged: Acknowledgements,
    /// The time now, in milliseconds since the screen began. The web server sets it at each turn.
    pub time: u64,
}

impl PageOrders {
    ghost use Rattle.smi_web.specs.Answers.{noted_by, ordered};

    /// Gives an order at the time now, if there is room.
    ///
    /// Fails only if memory is refused (tested, not proved), and changes nothing then.
    pub fn give(&mut self, line: &[u8]) -> Result<(), AllocError>
        ensures ok { OnOk result (self.new ≡ ordered self.old line.now) }
        ensures err { OnErr result (self.new ≡ self.old) }
    {
        self.relay.give(line, self.time)
    }

    /// Adds the acknowledgement of an alarm at the time now.
    ///
    /// Fails only if memory is refused (tested, not proved), and changes nothing then.
    pub fn acknowledge(&mut self, line: &[u8]) -> Result<(), AllocError>
        ensures ok { OnOk result (self.new ≡ noted_by self.old line.now) }
        ensures err { OnErr result (self.new ≡ self.old) }
    {
        self.acknowledged.acknowledge(line, self.time)
    }
}
