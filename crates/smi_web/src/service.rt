//! Answers HTTP requests from a snapshot, and carries out the two kinds that change something: orders and
//! acknowledgements. `crates/smi_screen/src/http_listener.rt` calls it for each request, by the `Service` trait of the
//! HTTP server, and `web_server.rt` there renews what it serves. docs/FORMATS.md, "The screen", fixes statuses, headers
//! and bodies.

ghost use Rattle.std.specs.Prelude.{◌≡◌, ◌++◌, ◌∷◌, [], codes, option_map, IfOk, IsTrue, OnErr, OnOk};
ghost use Rattle.http_header.specs.FieldValue.{is_visible_text};
ghost use Rattle.http_header.specs.FieldName.{is_header_name};
ghost use Rattle.http_server.specs.Response.{IsBlank, fields_of};
ghost use Rattle.smi_web.specs.Answers.{Answers, history_told, left_by, looked_by, of_type, orders_told};
ghost use Rattle.smi_web.specs.Answers.{origin_headers, own_headers, told_of};
ghost use Rattle.smi_web.specs.Answers.{page_headers, plain, security_headers, with_headers};
ghost use Rattle.smi_web.specs.declared.routing.Route.TheVariants as route_to;
ghost use Rattle.smi_web.specs.Parts.{parts_of, field_of};

use crate::order_notes::notes_of_page;
use crate::page_orders::PageOrders;
use crate::routing::{RequestParts, Route, query_text, route_request};
use crate::snapshot::Snapshot;
use bytes::Bytes;
use http::{HeaderName, HeaderValue, Request, StatusCode, header};
use http_server::{Response, Service};
use smi_history::{History, LookTime, query_in, shared};
use smi_tree::Tree;
use smi_view::Picture;
use std::alloc::{AllocError, Global};

/// The HTTP service of a screen.
#[derive(Drop)]
pub struct WebService {
    /// The hosts that it answers to (docs/FORMATS.md, "The screen"). A request for any other is refused.
    pub hosts: Vec<Vec<u8>>,
    /// The texts that are served.
    pub snapshot: Snapshot,
    /// The orders of its page. None if the screen was started without `--orders`.
    pub orders: Option<PageOrders>,
    /// What the screen has seen, and what was ordered from its page.
    pub history: History,
}

/// The content security policy of the page: it may run what is in it and ask its own host, and no page may frame it.
const CSP: &str =
    "default-src 'none'; script-src 'unsafe-inline'; style-src 'unsafe-inline'; connect-src 'self'; img-src data:; base-uri 'none'; form-action 'none'; frame-ancestors 'none'";

/// The media type of the page.
const HTML: &str = "text/html; charset=utf-8";

/// The media type of the tree, the picture, its changes and the orders.
const JSON: &str = "application/json";

/// The media type of the history: a JSON value on each line.
const JSON_LINES: &str = "application/x-ndjson";

/// The media type of Prometheus' text format, with the version of that format.
const METRICS: &str = "text/plain; version=0.0.4; charset=utf-8";

/// The media type of short answers in words.
const PLAIN: &str = "text/plain; charset=utf-8";

/// Returns the first value of a header of a request. None if it has none.
fn field_of(request: &Request<Bytes>, name: HeaderName) -> Option<&[u8]>
    ensures { option_map (λ v. v.now) result ≡ field_of request.now name }
{
    match request.headers().get(name) {
        Some(value) => Some(value.as_bytes()),
        None => None,
    }
}

/// Returns the parts of a request that its route depends on.
fn parts_of(request: &Request<Bytes>) -> RequestParts<'_>
    ensures { result ≡ parts_of request.now }
{
    let uri = request.uri();
    let query = match uri.query() {
        Some(query) => Some(query.as_bytes()),
        None => None,
    };
    RequestParts {
        method: request.method().as_str().as_bytes(),
        host: field_of(request, header::HOST),
        is_absolute: uri.authority().is_some(),
        path: uri.path().as_bytes(),
        query,
        origin: field_of(request, header::ORIGIN),
        key: field_of(request, header::AUTHORIZATION),
        body: request.body().as_slice(),
    }
}

/// Adds a header to an answer.
fn add(response: &mut Response, name: HeaderName, value: &'static str) -> Result<(), AllocError>
    requires { IsTrue (is_visible_text value.now) }
    ensures status { response.new.status ≡ response.old.status }
    ensures headers { OnOk result (fields_of response.new ≡ fields_of response.old ++ (name, value.now) ∷ []) }
    ensures body { response.new.body ≡ response.old.body }
{
    response.add_header(name, HeaderValue::from_static(value))
}

/// Adds a header whose name the `http` crate does not have.
fn add_named(
    response: &mut Response,
    name: &'static str,
    value: &'static str,
) -> Result<(), AllocError>
    requires name { IsTrue (is_header_name name.now) }
    requires value { IsTrue (is_visible_text value.now) }
    ensures status { response.new.status ≡ response.old.status }
    ensures headers { OnOk result (fields_of response.new ≡ fields_of response.old ++ (name.now, value.now) ∷ []) }
    ensures body { response.new.body ≡ response.old.body }
{
    add(response, HeaderName::from_static(name), value)
}

/// Adds the headers that keep an answer out of caches and frames, and say what a page may do.
fn add_page_headers(response: &mut Response) -> Result<(), AllocError>
    ensures status { response.new.status ≡ response.old.status }
    ensures headers { OnOk result (fields_of response.new ≡ with_headers (fields_of response.old) page_headers) }
    ensures body { response.new.body ≡ response.old.body }
{
    add(response, header::CACHE_CONTROL, "no-store")?;
    add(response, header::X_CONTENT_TYPE_OPTIONS, "nosniff")?;
    add(response, header::X_FRAME_OPTIONS, "DENY")?;
    add(response, header::REFERRER_POLICY, "no-referrer")?;
    add(response, header::CONTENT_SECURITY_POLICY, CSP)
}

/// Adds the headers that keep other pages away: none of them may load an answer, or have the page's window at hand.
fn add_origin_headers(response: &mut Response) -> Result<(), AllocError>
    ensures status { response.new.status ≡ response.old.status }
    ensures headers { OnOk result (fields_of response.new ≡ with_headers (fields_of response.old) origin_headers) }
    ensures body { response.new.body ≡ response.old.body }
{
    add_named(response, "cross-origin-opener-policy", "same-origin")?;
    add_named(response, "cross-origin-resource-policy", "same-origin")
}

/// Adds the headers that every answer has. docs/FORMATS.md, "The screen", promises what they do.
fn add_security_headers(response: &mut Response) -> Result<(), AllocError>
    ensures status { response.new.status ≡ response.old.status }
    ensures headers { OnOk result (fields_of response.new ≡ with_headers (fields_of response.old) security_headers) }
    ensures body { response.new.body ≡ response.old.body }
{
    add_page_headers(response)?;
    add_origin_headers(response)
}

/// Fills in status, media type and text of an answer.
fn fill(
    response: &mut Response,
    status: StatusCode,
    kind: &'static str,
    text: &Bytes,
) -> Result<(), AllocError>
    requires { IsTrue (is_visible_text kind.now) }
    ensures status { OnOk result (response.new.status ≡ status) }
    ensures headers { OnOk result (fields_of response.new ≡ with_headers (fields_of response.old) (of_type kind.now)) }
    ensures body { OnOk result (response.new.body.items ≡ response.old.body.items ++ text.now) }
{
    response.status = status;
    add(response, header::CONTENT_TYPE, kind)?;
    response.body.push(text.clone()?)
}

/// Fills in status and words of an answer that tells nothing of the detector.
fn fill_plain(
    response: &mut Response,
    status: StatusCode,
    text: &'static str,
) -> Result<(), AllocError>
    ensures status { OnOk result (response.new.status ≡ status) }
    ensures headers { OnOk result (fields_of response.new ≡ with_headers (fields_of response.old) plain) }
    ensures body { OnOk result (response.new.body.items ≡ response.old.body.items ++ text.now) }
{
    let text = Bytes::from_static(text.as_bytes());
    fill(response, status, PLAIN, &text)
}

/// Fills in the refusal of a query for the history that is not well formed.
fn refuse_query(response: &mut Response) -> Result<(), AllocError>
    ensures status { OnOk result (response.new.status ≡ 400) }
    ensures headers { OnOk result (fields_of response.new ≡ with_headers (fields_of response.old) plain) }
    ensures body { OnOk result (response.new.body.items ≡ response.old.body.items
        ++ codes "this is no query: object=NAME&from=SECOND&to=SECOND&after=NUMBER") }
{
    let status = StatusCode::BAD_REQUEST;
    fill_plain(
        response,
        status,
        "this is no query: object=NAME&from=SECOND&to=SECOND&after=NUMBER",
    )
}

/// Fills in the refusal of a method, with the two that only read.
fn refuse_change(response: &mut Response) -> Result<(), AllocError>
    ensures status { OnOk result (response.new.status ≡ 405) }
    ensures headers { OnOk result (fields_of response.new
        ≡ with_headers (fields_of response.old) (own_headers route_to.Change)) }
    ensures body { OnOk result (response.new.body.items ≡ response.old.body.items ++ codes "this screen only shows") }
{
    add(response, header::ALLOW, "GET, HEAD")?;
    let status = StatusCode::METHOD_NOT_ALLOWED;
    fill_plain(response, status, "this screen only shows")
}

impl WebService {
    /// Renews the text that is served of orders, modes and acknowledged alarms. Does nothing if orders may not be
    /// given.
    ///
    /// Fails if memory is refused, and changes nothing then. No clause names `alloc`, from which memory comes.
    pub fn renew_orders(&mut self, alloc: Global) -> Result<(), AllocError>
        ensures ok { OnOk result (self.new ≡ orders_told self.old) }
        ensures err { OnErr result (self.new ≡ self.old) }
    {
        match &self.orders {
            Some(orders) => self
                .snapshot
                .renew_orders(alloc, &orders.relay, &orders.acknowledged, orders.time),
            None => Ok(()),
        }
    }

    /// Adds to the history what is new in a picture, and which orders, answers and acknowledgements are new.
    ///
    /// Fails only if memory is refused (tested, not proved). Some of what was new may be noted nowhere then. No clause
    /// names `alloc`, from which memory comes.
    pub fn look(
        &mut self,
        alloc: Global,
        tree: &Tree,
        picture: &Picture,
        moment: LookTime,
    ) -> Result<(), AllocError>
        ensures ok { OnOk result (self.new ≡ looked_by self.old tree.now picture.now moment) }
    {
        let notes = notes_of_page(alloc, &self.orders, self.history.looked(), moment)?;
        self.history.look(tree, picture, moment)?;
        self.history.note_all(notes)
    }

    /// Returns the text of the history's entries that a query asks for, or an empty one if the query is not well
    /// formed.
    fn history_told(&self, query: Option<&[u8]>) -> Result<Bytes, AllocError>
        ensures { IfOk result (λ told. told ≡ history_told self.now.history (option_map (λ q. q.now) query.entry)) }
    {
        match query_in(query_text(query)) {
            Some(query) => shared(self.history.write(&query)?),
            None => Ok(Bytes::from_static(b"")),
        }
    }

    /// Returns the text of the history if that is the route of a request, and otherwise an empty one.
    fn told(&self, what: Route, query: Option<&[u8]>) -> Result<Bytes, AllocError>
        ensures { IfOk result (λ told. told ≡ told_of self.now what (option_map (λ q. q.now) query.entry)) }
    {
        if what == Route::History {
            self.history_told(query)
        } else {
            Ok(Bytes::from_static(b""))
        }
    }

    /// Gives an order to the relay, if orders may be given.
    fn give(&mut self, line: &[u8]) -> Result<(), AllocError>
        ensures ok { OnOk result (self.new ≡ left_by route_to.Given self.old line.now) }
        ensures err { OnErr result (self.new ≡ self.old) }
    {
        match &mut self.orders {
            Some(orders) => orders.give(line),
            None => Ok(()),
        }
    }

    /// Adds the acknowledgement of an alarm, if orders may be given.
    fn acknowledge(&mut self, line: &[u8]) -> Result<(), AllocError>
        ensures ok { OnOk result (self.new ≡ left_by route_to.Acknowledged self.old line.now) }
        ensures err { OnErr result (self.new ≡ self.old) }
    {
        match &mut self.orders {
            Some(orders) => orders.acknowledge(line),
            None => Ok(()),
        }
    }

    /// Fills in the answer of a route. `told` is the text of the history.
    fn answer(&self, what: Route, told: &Bytes, response: &mut Response) -> Result<(), AllocError>
        requires { IsBlank response.old }
        ensures { OnOk result (Answers self.now.snapshot told.now what response.new) }
    {
        add_security_headers(response)?;
        let snapshot = &self.snapshot;
        match what {
            Route::Page => fill(response, StatusCode::OK, HTML, &snapshot.page),
            Route::Tree => fill(response, StatusCode::OK, JSON, &snapshot.tree),
            Route::Picture => fill(response, StatusCode::OK, JSON, &snapshot.picture),
            Route::Changes => fill(response, StatusCode::OK, JSON, &snapshot.changes),
            Route::Metrics => fill(response, StatusCode::OK, METRICS, &snapshot.metrics),
            Route::Health => fill_plain(response, StatusCode::OK, "ok"),
            Route::Orders => fill(response, StatusCode::OK, JSON, &snapshot.orders),
            Route::History => fill(response, StatusCode::OK, JSON_LINES, told),
            Route::NoQuery => refuse_query(response),
            Route::Unchanged => {
                response.status = StatusCode::NO_CONTENT;
                Ok(())
            }
            Route::NotFound => fill_plain(response, StatusCode::NOT_FOUND, "there is no such page"),
            Route::Change => refuse_change(response),
            Route::WrongHost => {
                let status = StatusCode::MISDIRECTED_REQUEST;
                fill_plain(response, status, "this is another host")
            }
            Route::Given => fill_plain(response, StatusCode::ACCEPTED, "the order is on its way"),
            Route::Acknowledged => fill_plain(response, StatusCode::OK, "acknowledged"),
            Route::NoAlarm => {
                let status = StatusCode::BAD_REQUEST;
                fill_plain(
                    response,
                    status,
                    "this is no alarm of the tree and an operator of it",
                )
            }
            Route::ForeignOrigin => {
                let status = StatusCode::FORBIDDEN;
                fill_plain(response, status, "orders are given from the page alone")
            }
            Route::NoOrder => {
                let status = StatusCode::BAD_REQUEST;
                fill_plain(
                    response,
                    status,
                    "this is no order of an operator of the tree",
                )
            }
            Route::ConsoleDown => {
                let status = StatusCode::SERVICE_UNAVAILABLE;
                fill_plain(response, status, "there is no connection with the console")
            }
            Route::QueueFull => {
                let status = StatusCode::TOO_MANY_REQUESTS;
                fill_plain(response, status, "too many orders wait")
            }
        }
    }
}

impl Service for WebService {
    ghost use Rattle.std.specs.Prelude.{◌≡◌};
    ghost use Rattle.http.specs.Request.{body_of};
    ghost use Rattle.smi_web.specs.Answers.{Answers, route_of, left_by, told_of};
    ghost use Rattle.smi_web.specs.Parts.{parts_of};

    ghost answers = { λ old request response new.
        (new ≡ left_by (route_of old request) old (body_of request))
        × Answers old.snapshot (told_of old (route_of old request) (parts_of request).query)
        (route_of old request) response };

    // The answer is filled in before the order is given, so that an order is not given if there is no memory for its
    // answer.
    fn call(
        &mut self,
        request: &Request<Bytes>,
        response: &mut Response,
    ) -> Result<(), AllocError> {
        let parts = parts_of(request);
        let version = self.snapshot.version.as_slice();
        let now = self.snapshot.now;
        let what = route_request(&self.hosts, version, now, &self.orders, &parts);
        let told = self.told(what, parts.query)?;
        self.answer(what, &told, response)?;
        if what == Route::Given {
            return self.give(request.body().as_slice());
        }
        if what == Route::Acknowledged {
            return self.acknowledge(request.body().as_slice());
        }
        Ok(())
    }
}
