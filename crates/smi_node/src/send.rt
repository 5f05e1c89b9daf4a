//! Sends the datagrams of a step.

ghost use Rattle.std.specs.Prelude.{◌≡◌};
ghost use Rattle.smi_node.specs.Linked.{Sends, SendsOne, shown_by};

use crate::stats::{NodeStats, count_send};
use smi_link::DatagramLink;
use smi_message::{Datagram, encode};

/// Sends a datagram to its receiver, and counts it. One that the link does not take is lost.
fn send_one<L: DatagramLink>(link: &mut L, datagram: &Datagram, stats: Option<&NodeStats>)
    ensures { SendsOne datagram.now (shown_by L.received L.handed L.failures L.receives link.old)
        (shown_by L.received L.handed L.failures L.receives link.new) }
{
    count_send(stats, link.send(datagram.to, &encode(datagram)));
}

/// Sends datagrams one after the other, each to its receiver, and counts them. One that the link does not take is lost.
pub(crate) fn send_all<L: DatagramLink>(
    link: &mut L,
    datagrams: &[Datagram],
    stats: Option<&NodeStats>,
)
    ensures { Sends datagrams.now (shown_by L.received L.handed L.failures L.receives link.old)
        (shown_by L.received L.handed L.failures L.receives link.new) }
{
    for datagram in datagrams {
        send_one(link, datagram, stats);
    }
}
