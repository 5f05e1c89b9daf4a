//! Writes the picture as metrics in Prometheus' text format, the answer to `/metrics`. `snapshot.rt` calls
//! `write_metrics`. docs/FORMATS.md, "Figures", fixes the names and labels, on which the alerts and dashboards of a
//! site rest.

ghost use Rattle.std.specs.Prelude.{◌≡◌, ◌++◌, IfOk, OnOk};
ghost use Rattle.smi_web.specs.Metrics.{
  busy_number,
  domains_text,
  metric_text,
  metrics_text,
  object_labels,
  head_text,
  heard_sample,
  held_number,
  in_state_sample,
  kind_label,
  kind_word,
  help_text,
  name_text,
  screen_text,
  seconds_text,
  seen_sample,
  station_label,
  states_text,
  value_text,
  whole_text,
};

use crate::json::{put_quoted, put_text};
use crate::json_list::{Listing, put_listed};
use crate::tree_json::station_of;
use smi_grant::{Holder, Phase};
use smi_history::{put, put_number};
use smi_schedule::names;
use smi_tree::Tree;
use smi_view::{Hearing, Picture, Sight};
use std::alloc::{AllocError, Global};

/// The figures of a screen that are not in its picture.
#[derive(Clone, Copy, PartialEq, Eq)]
pub struct ScreenFigures {
    /// The number of the picture, which is how many the screen has made.
    pub number: u64,
    /// The time of the picture, in milliseconds since the screen began.
    pub now: u64,
    /// How many datagrams the screen's station received from another address than their sender's (`--sources`).
    pub foreign: u64,
}

/// A metric that each domain has which was heard.
#[derive(Clone, Copy, PartialEq, Eq)]
enum Metric {
    /// 1 if somebody holds the domain, 0 if it is free.
    Held,
    /// 1 while the domain works on a command, 0 otherwise.
    Busy,
    /// The epoch of its record: how often it has changed hands.
    Epoch,
    /// The outcome of its last command, 0 if it was done or is not settled.
    Outcome,
    /// How long ago its keeper was last heard, in seconds.
    Age,
}

impl Metric {
    /// Returns the name of a metric.
    fn name(self) -> &'static [u8]
        ensures { result.now ≡ name_text self }
    {
        match self {
            Metric::Held => b"smi_domain_held",
            Metric::Busy => b"smi_domain_busy",
            Metric::Epoch => b"smi_domain_epoch",
            Metric::Outcome => b"smi_domain_outcome",
            Metric::Age => b"smi_domain_heard_age_seconds",
        }
    }

    /// Returns the text of a metric's `# HELP` line.
    fn help(self) -> &'static [u8]
        ensures { result.now ≡ help_text self }
    {
        match self {
            Metric::Held => b"1 where somebody holds the domain, 0 where it is free.",
            Metric::Busy => b"1 while the domain works on a command, else 0.",
            Metric::Epoch => b"How often the domain has changed hands.",
            Metric::Outcome => {
                b"How the last command of the domain ended, 0 where it was done or is not settled."
            }
            Metric::Age => b"How long ago the keeper of the domain was last heard.",
        }
    }
}

/// Returns 1 if a domain has this holder, 0 if it is free.
fn held_number(holder: Holder) -> u64
    ensures { result ≡ held_number holder }
{
    match holder {
        Holder::Free => 0,
        Holder::Operator(_) => 1,
        Holder::Domain(_) => 1,
    }
}

/// Returns 1 while a domain in this phase works on a command, 0 otherwise.
fn busy_number(phase: Phase) -> u64
    ensures { result ≡ busy_number phase }
{
    match phase {
        Phase::Settled => 0,
        Phase::Busy => 1,
    }
}

/// Appends milliseconds as seconds with three decimal places: 1234 as `1.234`.
fn put_seconds(text: &mut Vec<u8>, ms: u64) -> Result<(), AllocError>
    ensures { OnOk result (text.new.items ≡ text.old.items ++ seconds_text ms) }
{
    put_number(text, b"", ms / 1_000)?;
    put_number(text, b".", ms / 100 % 10)?;
    put_number(text, b"", ms / 10 % 10)?;
    put_number(text, b"", ms % 10)
}

/// Appends the value of a metric of a domain of which this was heard. `now` is the time of the picture.
fn put_value(text: &mut Vec<u8>, metric: Metric, now: u64, had: &Hearing) -> Result<(), AllocError>
    ensures { OnOk result (text.new.items ≡ text.old.items ++ value_text metric now had.now) }
{
    let record = &had.record;
    match metric {
        Metric::Held => put_number(text, b"", held_number(record.holder)),
        Metric::Busy => put_number(text, b"", busy_number(record.phase)),
        Metric::Epoch => put_number(text, b"", record.epoch),
        Metric::Outcome => put_number(text, b"", u64::from(record.outcome)),
        Metric::Age => put_seconds(text, now.saturating_sub(had.heard)),
    }
}

/// Appends the `# HELP` and the `# TYPE` line of a metric. `kind` is `gauge` or `counter`.
#[tactic(auto, unfolding(crate::specs::Metrics::head_text))]
fn put_head(text: &mut Vec<u8>, name: &[u8], help: &[u8], kind: &[u8]) -> Result<(), AllocError>
    ensures { OnOk result (text.new.items ≡ text.old.items ++ head_text name.now help.now kind.now) }
{
    put(text, b"# HELP ")?;
    put(text, name)?;
    put(text, b" ")?;
    put(text, help)?;
    put(text, b"\n# TYPE ")?;
    put(text, name)?;
    put(text, b" ")?;
    put(text, kind)?;
    put(text, b"\n")
}

/// Appends a metric of the whole screen: its two lines of comment, and its one sample.
#[tactic(auto, unfolding(crate::specs::Metrics::whole_text))]
fn put_whole(
    text: &mut Vec<u8>,
    name: &[u8],
    help: &[u8],
    kind: &[u8],
    number: u64,
) -> Result<(), AllocError>
    ensures { OnOk result (text.new.items ≡ text.old.items ++ whole_text name.now help.now kind.now number) }
{
    put_head(text, name, help, kind)?;
    put(text, name)?;
    put_number(text, b" ", number)?;
    put(text, b"\n")
}

/// Returns the word for what an object is, by its number: `domain` or `device`.
#[tactic(auto, unfolding(crate::specs::Metrics::kind_word))]
fn kind_of(tree: &Tree, object: u16) -> &'static [u8]
    ensures { result.now ≡ kind_word tree.now object }
{
    if object <= tree.domain_count() {
        b"domain"
    } else {
        b"device"
    }
}

/// Appends the label that says what an object is: `,kind="domain"`.
#[tactic(auto, unfolding(crate::specs::Metrics::kind_label))]
fn put_kind(text: &mut Vec<u8>, tree: &Tree, object: u16) -> Result<(), AllocError>
    ensures { OnOk result (text.new.items ≡ text.old.items ++ kind_label tree.now object) }
{
    put_text(text, b",kind=", kind_of(tree, object))
}

/// Appends the label of a domain's station: `,station="B"`. Appends nothing if the tree has no such domain.
fn put_station(text: &mut Vec<u8>, tree: &Tree, domain: u16) -> Result<(), AllocError>
    ensures { OnOk result (text.new.items ≡ text.old.items ++ station_label tree.now domain) }
{
    match station_of(tree, domain) {
        Some(station) => put_quoted(text, b",station=", names::station(tree, station), station),
        None => Ok(()),
    }
}

/// Appends the front of an object's sample: `smi_object_state{object="TPC",kind="domain"`.
#[tactic(auto, unfolding(crate::specs::Metrics::object_labels))]
fn put_object(text: &mut Vec<u8>, tree: &Tree, object: u16) -> Result<(), AllocError>
    ensures { OnOk result (text.new.items ≡ text.old.items ++ object_labels tree.now object) }
{
    put_quoted(
        text,
        b"smi_object_state{object=",
        names::object(tree, object),
        object,
    )?;
    put_kind(text, tree, object)
}

/// Appends the sample that says in which state an object is.
fn put_state(text: &mut Vec<u8>, tree: &Tree, object: u16, state: u16) -> Result<(), AllocError>
    ensures { OnOk result (text.new.items ≡ text.old.items ++ in_state_sample tree.now object state) }
{
    put_object(text, tree, object)?;
    put_quoted(text, b",state=", names::state(tree, state), state)?;
    put(text, b"} 1\n")
}

/// Appends the sample of an object's state, or nothing if no state was shown.
fn put_seen(
    text: &mut Vec<u8>,
    tree: &Tree,
    object: u16,
    sight: Option<Sight>,
) -> Result<(), AllocError>
    ensures { OnOk result (text.new.items ≡ text.old.items ++ seen_sample tree.now object sight) }
{
    match sight {
        Some(seen) => put_state(text, tree, object, seen.shown.state),
        None => Ok(()),
    }
}

/// Appends the sample of a domain's metric, or nothing if the domain was never heard.
fn put_heard(
    text: &mut Vec<u8>,
    tree: &Tree,
    metric: Metric,
    now: u64,
    domain: u16,
    hearing: &Option<Hearing>,
) -> Result<(), AllocError>
    ensures { OnOk result (text.new.items ≡ text.old.items ++ heard_sample tree.now metric now domain hearing.now) }
{
    let Some(had) = hearing else {
        return Ok(());
    };
    put(text, metric.name())?;
    put_quoted(text, b"{domain=", names::domain(tree, domain), domain)?;
    put_station(text, tree, domain)?;
    put(text, b"} ")?;
    put_value(text, metric, now, had)?;
    put(text, b"\n")
}

/// Lists the samples of all objects' states.
#[derive(Clone, Copy)]
struct States<'a> {
    tree: &'a Tree,
    picture: &'a Picture,
}

impl<'a> Listing for States<'a> {
    ghost use Rattle.smi_web.specs.Metrics.{state_sample};

    ghost text = { λ s x. state_sample s.tree.now s.picture.now x };

    fn put(&self, into: &mut Vec<u8>, number: u16) -> Result<(), AllocError> {
        let sight = self.picture.object(usize::from(number));
        put_seen(into, self.tree, number, sight)
    }
}

/// Lists the samples of one metric of all domains.
#[derive(Clone, Copy)]
struct Metrics<'a> {
    tree: &'a Tree,
    picture: &'a Picture,
    metric: Metric,
    now: u64,
}

impl<'a> Listing for Metrics<'a> {
    ghost use Rattle.smi_web.specs.Metrics.{metric_sample};

    ghost text = { λ s d. metric_sample s.tree.now s.picture.now s.metric s.now d };

    fn put(&self, into: &mut Vec<u8>, number: u16) -> Result<(), AllocError> {
        let hearing = self.picture.domain(number);
        put_heard(into, self.tree, self.metric, self.now, number, &hearing)
    }
}

/// Appends a metric of the domains, with its samples.
#[tactic(auto, unfolding(crate::specs::Metrics::metric_text))]
fn put_metric(
    text: &mut Vec<u8>,
    tree: &Tree,
    picture: &Picture,
    metric: Metric,
    // The time of the picture, in milliseconds since the screen began.
    now: u64,
) -> Result<(), AllocError>
    ensures { OnOk result (text.new.items ≡ text.old.items ++ metric_text tree.now picture.now metric now) }
{
    put_head(text, metric.name(), metric.help(), b"gauge")?;
    let metrics = Metrics {
        tree,
        picture,
        metric,
        now,
    };
    put_listed(text, b"", &metrics, tree.domain_count())
}

/// Appends the three metrics of the whole screen.
fn put_screen(text: &mut Vec<u8>, tree: &Tree, figures: ScreenFigures) -> Result<(), AllocError>
    ensures { OnOk result (text.new.items ≡ text.old.items ++ screen_text tree.now figures) }
{
    put_whole(
        text,
        b"smi_screen_frames_total",
        b"How many pictures the screen has made.",
        b"counter",
        figures.number,
    )?;
    put_whole(
        text,
        b"smi_screen_foreign_datagrams_total",
        b"How many datagrams came to the screen from foreign sources.",
        b"counter",
        figures.foreign,
    )?;
    put_whole(
        text,
        b"smi_screen_domains",
        b"How many domains the tree has.",
        b"gauge",
        u64::from(tree.domain_count()),
    )?;
    Ok(())
}

/// Appends the metric of the objects' states, with its samples.
fn put_states(text: &mut Vec<u8>, tree: &Tree, picture: &Picture) -> Result<(), AllocError>
    ensures { OnOk result (text.new.items ≡ text.old.items ++ states_text tree.now picture.now) }
{
    put_head(
        text,
        b"smi_object_state",
        b"1 for the state in which a unit or a device is.",
        b"gauge",
    )?;
    put_listed(text, b"", &States { tree, picture }, tree.object_count())?;
    Ok(())
}

/// Appends all metrics of the domains.
fn put_metrics(
    text: &mut Vec<u8>,
    tree: &Tree,
    picture: &Picture,
    now: u64,
) -> Result<(), AllocError>
    ensures { OnOk result (text.new.items ≡ text.old.items ++ domains_text tree.now picture.now now) }
{
    put_metric(text, tree, picture, Metric::Held, now)?;
    put_metric(text, tree, picture, Metric::Busy, now)?;
    put_metric(text, tree, picture, Metric::Epoch, now)?;
    put_metric(text, tree, picture, Metric::Outcome, now)?;
    put_metric(text, tree, picture, Metric::Age, now)?;
    Ok(())
}

/// Writes all metrics of a picture, with the figures of its screen.
///
/// Fails only if memory is refused (tested, not proved). No clause names `alloc`, from which memory comes.
pub fn write_metrics(
    alloc: Global,
    tree: &Tree,
    picture: &Picture,
    figures: ScreenFigures,
) -> Result<Vec<u8>, AllocError>
    ensures { IfOk result (λ text. text.items ≡ metrics_text tree.now picture.now figures) }
{
    let mut text = Vec::new(alloc);
    put_screen(&mut text, tree, figures)?;
    put_states(&mut text, tree, picture)?;
    put_metrics(&mut text, tree, picture, figures.now)?;
    Ok(text)
}
