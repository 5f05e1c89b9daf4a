//! Decides which answer a request gets: `service.rt` calls `route_request`, and fills in the answer of the route. Who
//! may give orders is decided here: a wrong test here lets other pages order. docs/FORMATS.md, "The screen" and "Orders
//! from the page", fixes the tests and their order.

ghost use Rattle.std.specs.Prelude.{◌≡◌, bytes_eq, map, option_map};
ghost use Rattle.std.specs.List.{list_any};
ghost use Rattle.smi_web.specs.Answers as spec;

use crate::acknowledgements::is_acknowledgement;
use crate::changes_json::changes_since;
use crate::order_relay::Admission;
use crate::page_orders::PageOrders;
use bytes::Bytes;
use smi_history::query_in;
use smi_tree::number_within;
use std::marker::Model;

/// The parts of a request that its route depends on.
#[derive(Drop)]
pub struct RequestParts<'a> {
    /// Its method, as `GET`.
    pub method: &'a [u8],
    /// The value of its first `Host`. None if it has none.
    pub host: Option<&'a [u8]>,
    /// True if its target names a host itself, as a request to a proxy does.
    pub is_absolute: bool,
    /// The path of its target, as `/api/picture`.
    pub path: &'a [u8],
    /// What follows the `?` of its target. None if there is no `?`.
    pub query: Option<&'a [u8]>,
    /// The value of its first `Origin`, by which a browser says whose page asks. None if it has none.
    pub origin: Option<&'a [u8]>,
    /// The value of its first `Authorization`, which has to be the key of the page. None if it has none.
    pub key: Option<&'a [u8]>,
    /// Its body: an order, or an acknowledgement.
    pub body: &'a [u8],
}

impl<'a> Model for RequestParts<'a> {
    ghost use Rattle.std.specs.Prelude.{option_map};
    ghost use Rattle.smi_web.specs.Parts.{PartsState};

    ghost Value = { PartsState };

    ghost view = { λ q. record {
      method = q.method.now;
      host = option_map (λ h. h.now) q.host;
      is_absolute = q.is_absolute;
      path = q.path.now;
      query = option_map (λ h. h.now) q.query;
      origin = option_map (λ h. h.now) q.origin;
      key = option_map (λ h. h.now) q.key;
      body = q.body.now;
    } };
}

/// The greatest time that a query may have, in milliseconds since the screen began: about 31 years. A greater one gets
/// the whole picture.
const MOST_TIME: u64 = 999_999_999_999;

/// The route of a request: which answer it gets.
#[derive(Clone, Copy, PartialEq, Eq)]
pub enum Route {
    /// The page.
    Page,
    /// The tree as JSON.
    Tree,
    /// The whole picture as JSON.
    Picture,
    /// What has changed in the picture since the one that the client has.
    Changes,
    /// The metrics for Prometheus.
    Metrics,
    /// That the screen runs.
    Health,
    /// Nothing, with status 204, because the client has the newest picture.
    Unchanged,
    /// What became of the orders that were given.
    Orders,
    /// What this screen has seen: the entries that the query asks for.
    History,
    /// A refusal: the query for the history is not well formed.
    NoQuery,
    /// A refusal: there is no such page.
    NotFound,
    /// A refusal: the method is one that this screen does not have at that path.
    Change,
    /// That the order is on its way. `service.rt` gives it to the relay.
    Given,
    /// That the alarm is acknowledged. `service.rt` adds it.
    Acknowledged,
    /// A refusal: what is acknowledged is no alarm, or by no operator of the tree.
    NoAlarm,
    /// A refusal: the request has no key, or comes from another page than the one that is served here.
    ForeignOrigin,
    /// A refusal: the order is none.
    NoOrder,
    /// A refusal: there is no connection with the console.
    ConsoleDown,
    /// A refusal: too many orders wait.
    QueueFull,
    /// A refusal: the request names another host, as it does if another name was made to lead to this address.
    WrongHost,
}

/// Returns true if there is a text and it is this word.
fn is_text(text: Option<&[u8]>, word: &[u8]) -> bool
    ensures { result ≡ spec.is_text (option_map (λ t. t.now) text.entry) word.now }
{
    match text {
        Some(text) => text == word,
        None => false,
    }
}

/// Returns true if a host is one of these.
fn is_among(hosts: &[Vec<u8>], host: &[u8]) -> bool
    ensures { result ≡ list_any (λ ours. bytes_eq ours.items host.now) hosts.now }
{
    hosts.iter().any(|ours| ours.as_slice() == host)
}

/// Returns true if there is a host and it is one of these.
#[tactic(auto, using(crate::proofs::Hosts::any_of_map))]
fn is_ours(hosts: &[Vec<u8>], host: Option<&[u8]>) -> bool
    ensures { result ≡ spec.is_ours (map (λ h. h.items) hosts.now) (option_map (λ h. h.now) host.entry) }
{
    match host {
        Some(host) => is_among(hosts, host),
        None => false,
    }
}

/// Returns true if a method only reads.
fn reads_only(method: &[u8]) -> bool
    ensures { result ≡ spec.reads_only method.now }
{
    method == b"GET".as_slice() || method == b"HEAD".as_slice()
}

/// Returns what a request has after the `?` of its target, or an empty text.
pub(crate) fn query_text(query: Option<&[u8]>) -> &[u8]
    ensures { result.now ≡ spec.query_text (option_map (λ q. q.now) query.entry) }
{
    match query {
        Some(query) => query,
        None => b"",
    }
}

/// Returns the route of a request for the history.
fn history_route(query: Option<&[u8]>) -> Route
    ensures { result ≡ spec.history_route (option_map (λ q. q.now) query.entry) }
{
    match query_in(query_text(query)) {
        Some(_) => Route::History,
        None => Route::NoQuery,
    }
}

/// Returns the time of a query that is `since=TIME`. None if it is not that, or the time is no number.
fn time_in(query: &[u8]) -> Option<u64>
    ensures { result ≡ spec.time_in query.now }
{
    if query.starts_with(b"since=") {
        number_within(0, MOST_TIME, &query[b"since=".len()..])
    } else {
        None
    }
}

/// Returns the route for a client that has the picture of this time. `now` is the time of the newest picture.
fn route_since(time: u64, now: u64) -> Route
    ensures { result ≡ spec.route_since time now }
{
    if time == now {
        Route::Unchanged
    } else if changes_since(now) <= time && time < now {
        Route::Changes
    } else {
        Route::Picture
    }
}

/// Returns the route of a request for the picture. `version` is the query of a client that has the newest picture, as
/// `after=310`, and `now` the time of that picture.
fn picture_route(query: Option<&[u8]>, version: &[u8], now: u64) -> Route
    ensures { result ≡ spec.picture_route (option_map (λ q. q.now) query.entry) version.now now }
{
    if is_text(query, version) {
        return Route::Unchanged;
    }
    match time_in(query_text(query)) {
        Some(time) => route_since(time, now),
        None => Route::Picture,
    }
}

/// Returns the route of a request that only reads, by its path. Orders are only there if `has_orders`.
fn place_route(
    path: &[u8],
    query: Option<&[u8]>,
    version: &[u8],
    now: u64,
    has_orders: bool,
) -> Route
    ensures { result ≡ spec.place_route path.now (option_map (λ q. q.now) query.entry) version.now now has_orders }
{
    if path == b"/".as_slice() {
        return Route::Page;
    }
    if path == b"/api/tree".as_slice() {
        return Route::Tree;
    }
    if path == b"/api/picture".as_slice() {
        return picture_route(query, version, now);
    }
    if path == b"/api/history".as_slice() {
        return history_route(query);
    }
    if path == b"/metrics".as_slice() {
        return Route::Metrics;
    }
    if path == b"/healthz".as_slice() {
        return Route::Health;
    }
    if has_orders && path == b"/api/orders".as_slice() {
        return Route::Orders;
    }
    Route::NotFound
}

/// Returns true if a page of this host asks: the origin is `http://` and the host. A browser says where a page came
/// from, and no page can say otherwise.
fn is_own_page(host: Option<&[u8]>, origin: Option<&[u8]>) -> bool
    ensures { result ≡ spec.is_own_page (option_map (λ h. h.now) host.entry) (option_map (λ o. o.now) origin.entry) }
{
    match (host, origin) {
        (Some(host), Some(origin)) => {
            origin.starts_with(b"http://") && &origin[b"http://".len()..] == host
        }
        _ => false,
    }
}

/// Returns true if the page asks that a proxy serves: the origin is that of the proxy.
fn is_proxied_page(proxy: &Option<Bytes>, origin: Option<&[u8]>) -> bool
    ensures { result ≡ spec.is_proxied_page proxy.now (option_map (λ o. o.now) origin.entry) }
{
    match proxy {
        Some(ours) => is_text(origin, ours.as_slice()),
        None => false,
    }
}

/// Returns true if the page asks that was served with this key, from its own address or under the origin of a proxy.
/// Both tests keep other pages out: a browser sends neither a header of a page's choice nor a false `Origin` for one.
fn is_trusted(key: &[u8], proxy: &Option<Bytes>, parts: &RequestParts<'_>) -> bool
    ensures { result ≡ spec.is_trusted key.now proxy.now parts.now }
{
    is_text(parts.key, key)
        && (is_own_page(parts.host, parts.origin) || is_proxied_page(proxy, parts.origin))
}

/// Returns the route of an order that the relay admits or does not.
fn route_by(admission: Admission) -> Route
    ensures { result ≡ spec.route_by admission }
{
    match admission {
        Admission::Accepted => Route::Given,
        Admission::NoOrder => Route::NoOrder,
        Admission::ConsoleDown => Route::ConsoleDown,
        Admission::QueueFull => Route::QueueFull,
    }
}

/// Returns true if the path of a request is that of orders.
fn is_at_orders(parts: &RequestParts<'_>) -> bool
    ensures { result ≡ spec.is_at_orders parts.now }
{
    parts.path == b"/api/orders".as_slice()
}

/// Returns true if the path of a request is that of alarms.
fn is_at_alarms(parts: &RequestParts<'_>) -> bool
    ensures { result ≡ spec.is_at_alarms parts.now }
{
    parts.path == b"/api/alarms".as_slice()
}

/// Returns true if a request is a POST of an order or of an acknowledgement.
fn is_posted(parts: &RequestParts<'_>) -> bool
    ensures { result ≡ spec.is_posted parts.now }
{
    parts.method == b"POST".as_slice() && (is_at_orders(parts) || is_at_alarms(parts))
}

/// Returns the route of a POST that comes from the page itself.
fn page_route(orders: &PageOrders, parts: &RequestParts<'_>) -> Route
    ensures { result ≡ spec.page_route orders.now parts.now }
{
    if is_at_orders(parts) {
        route_by(orders.relay.admission(&orders.tree, parts.body))
    } else if is_acknowledgement(&orders.tree, parts.body) {
        Route::Acknowledged
    } else {
        Route::NoAlarm
    }
}

/// Returns the route of a request that does not only read, if orders may be given.
fn posted_route(orders: &PageOrders, parts: &RequestParts<'_>) -> Route
    ensures { result ≡ spec.posted_route orders.now parts.now }
{
    if !is_posted(parts) {
        return Route::Change;
    }
    if !is_trusted(orders.key.as_slice(), &orders.origin, parts) {
        return Route::ForeignOrigin;
    }
    page_route(orders, parts)
}

/// Returns the route of a request that does not only read. Without `--orders` it is refused.
fn change_route(orders: &Option<PageOrders>, parts: &RequestParts<'_>) -> Route
    ensures { result ≡ spec.change_route orders.now parts.now }
{
    match orders {
        Some(orders) => posted_route(orders, parts),
        None => Route::Change,
    }
}

/// Returns the route of a request, by these tests in their order: the host, the method, the path. Of a POST it then
/// tests who asks, and then whether the body is an order that can be sent, or an acknowledgement.
///
/// `hosts` are the hosts that are answered. `version` is the query of a client that has the newest picture, as
/// `after=310`, and `now` the time of that picture, in milliseconds since the screen began. A client that names either
/// has the newest picture. One that names a time of the two seconds before is told what has changed.
pub fn route_request(
    hosts: &[Vec<u8>],
    version: &[u8],
    now: u64,
    orders: &Option<PageOrders>,
    parts: &RequestParts<'_>,
) -> Route
    ensures { result ≡ spec.route_request (map (λ h. h.items) hosts.now) version.now now orders.now parts.now }
{
    if parts.is_absolute || !is_ours(hosts, parts.host) {
        return Route::WrongHost;
    }
    if !reads_only(parts.method) {
        return change_route(orders, parts);
    }
    place_route(parts.path, parts.query, version, now, orders.is_some())
}
