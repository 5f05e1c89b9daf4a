//! The datagrams of a station.

ghost use Rattle.std.specs.Prelude.{◌≡◌, ◌≤◌, ◌+◌, true};
ghost use Rattle.smi_grant.specs.Holder.{is_in_range};
ghost use Rattle.smi_grant.specs.Record.{is_outcome};
ghost use Rattle.smi_message.specs.Message.{is_boot, is_party, is_version};
ghost use Rattle.smi_tree.specs.Lookups.{station_count, domain_count, device_count, state_count};
ghost use Rattle.smi_protocol.specs.Messages as messages;
ghost use Rattle.smi_station_output.specs.Out.{is_due};

use smi_command::Due;
use smi_grant::{Holder, Record, Shown};
use smi_message::{Body, Datagram};
use smi_tree::Tree;

/// Returns the datagram in which the keeper tells a domain's record.
pub fn tell(tree: &Tree, number: u16, to: u16, domain: u16, told: Record) -> Datagram
    requires from { (1 ≤ number) × (number ≤ station_count tree.now) }
    requires to { (1 ≤ to) × (to ≤ station_count tree.now) }
    requires domain { (1 ≤ domain) × (domain ≤ domain_count tree.now) }
    requires holder { is_in_range told.holder ≡ true }
    requires outcome { is_outcome told.outcome ≡ true }
    ensures { result ≡ messages.tells tree.now number to domain told }
{
    let _counts = (tree.station_count(), tree.domain_count());
    Datagram::tell(number, to, tree.number(), domain, told)
}

/// Returns what is due, as a datagram says it.
fn body_of(holder: Holder, domain: u16, due: Due) -> Body
    ensures { result ≡ messages.request domain holder due }
{
    match due {
        Due::Take(seen) => Body::Take {
            domain,
            holder,
            seen,
        },
        Due::Drop(epoch) => Body::Drop {
            domain,
            holder,
            epoch,
        },
        Due::Run {
            epoch,
            number,
            command,
        } => Body::Run {
            domain,
            holder,
            epoch,
            number,
            command,
        },
    }
}

/// Returns the datagram in which a holder asks the domain's keeper for what is due.
pub fn request(tree: &Tree, number: u16, holder: Holder, domain: u16, due: Due) -> Datagram
    requires from { (1 ≤ number) × (number ≤ station_count tree.now) }
    requires domain { (1 ≤ domain) × (domain ≤ domain_count tree.now) }
    requires holder { is_party holder ≡ true }
    requires due { is_due due ≡ true }
    ensures { result ≡ messages.requests tree.now number holder domain due }
{
    let to = tree.domain(domain).station;
    let body = body_of(holder, domain, due);
    Datagram {
        from: number,
        to,
        tree: tree.number(),
        body,
    }
}

/// Returns the datagram in which a station asks about a domain.
pub fn ask(tree: &Tree, number: u16, domain: u16) -> Datagram
    requires from { (1 ≤ number) × (number ≤ station_count tree.now) }
    requires domain { (1 ≤ domain) × (domain ≤ domain_count tree.now) }
    ensures { result ≡ messages.asks_about tree.now number domain }
{
    let to = tree.domain(domain).station;
    Datagram {
        from: number,
        to,
        tree: tree.number(),
        body: Body::Ask(domain),
    }
}

/// Returns the station of an object.
pub fn object_home(tree: &Tree, object: u16) -> u16
    requires least { 1 ≤ object }
    requires most { object ≤ domain_count tree.now + device_count tree.now }
    ensures home { result ≡ messages.object_home tree.now object }
    ensures least { 1 ≤ result }
    ensures most { result ≤ station_count tree.now }
{
    let _tree = tree.number();
    let domains = tree.domain_count();
    if object <= domains {
        return tree.domain(object).station;
    }
    let device = tree.device(object - domains);
    tree.domain(device.domain).station
}

/// Returns the datagram in which a station watches an object, since this boot.
pub fn watch(tree: &Tree, number: u16, boot: u32, object: u16) -> Datagram
    requires from { (1 ≤ number) × (number ≤ station_count tree.now) }
    requires boot { is_boot boot ≡ true }
    requires least { 1 ≤ object }
    requires most { object ≤ domain_count tree.now + device_count tree.now }
    ensures { result ≡ messages.watches tree.now number boot object }
{
    let to = object_home(tree, object);
    Datagram {
        from: number,
        to,
        tree: tree.number(),
        body: Body::Watch { object, boot },
    }
}

/// Returns the datagram in which a station does not watch an object, in this boot.
pub fn unwatch(tree: &Tree, number: u16, boot: u32, to: u16, object: u16) -> Datagram
    requires from { (1 ≤ number) × (number ≤ station_count tree.now) }
    requires to { (1 ≤ to) × (to ≤ station_count tree.now) }
    requires boot { is_boot boot ≡ true }
    requires least { 1 ≤ object }
    requires most { object ≤ domain_count tree.now + device_count tree.now }
    ensures { result ≡ messages.unwatches tree.now number boot to object }
{
    Datagram {
        from: number,
        to,
        tree: tree.number(),
        body: Body::Unwatch { object, boot },
    }
}

/// Returns the datagram that tells what an object shows to one who watches it, since its boot of this number.
pub fn show(tree: &Tree, number: u16, to: u16, echo: u32, shown: Shown) -> Datagram
    requires from { (1 ≤ number) × (number ≤ station_count tree.now) }
    requires to { (1 ≤ to) × (to ≤ station_count tree.now) }
    requires echo { is_boot echo ≡ true }
    requires least { 1 ≤ shown.object }
    requires most { shown.object ≤ domain_count tree.now + device_count tree.now }
    requires version { is_version shown.version ≡ true }
    requires state { (1 ≤ shown.state) × (shown.state ≤ state_count tree.now) }
    ensures { result ≡ messages.shows tree.now number to echo shown }
{
    Datagram {
        from: number,
        to,
        tree: tree.number(),
        body: Body::State {
            object: shown.object,
            boot: echo,
            version: shown.version,
            state: shown.state,
        },
    }
}
