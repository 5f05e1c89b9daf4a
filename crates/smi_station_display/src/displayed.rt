use smi_grant::Shown;
use smi_protocol::ResendCursor;
use smi_publish::Publisher;
use smi_tree::Tree;
use smi_view::View;
use smi_watchers::Watchers;
use std::alloc::{AllocError, Global};
use std::marker::Model;

/// What a station keeps of states and of watching. Contracts speak of it as the display that its tables hold.
#[derive(Drop)]
pub struct Displayed<'a> {
    pub(crate) tree: &'a Tree,
    pub(crate) number: u16,
    pub(crate) publisher: Publisher,
    pub(crate) view: View,
    pub(crate) named: Vec<bool>,
    pub(crate) echoes: Vec<u32>,
    pub(crate) watchers: Watchers,
    pub(crate) place: ResendCursor,
    pub(crate) asks: Vec<Option<u16>>,
}

impl<'a> Model for Displayed<'a> {
    ghost use Rattle.smi_station_display.specs.Displayed as displayed;

    ghost Value = { displayed.Displayed };

    ghost view = { λ s. record {
      tree = s.tree.now;
      number = s.number;
      published = s.publisher;
      views = s.view;
      named = s.named.items;
      echoes = s.echoes.items;
      watchers = s.watchers.lists;
      place = s.place;
      asks = s.asks.items;
    } };

    ghost invariant = { λ s. displayed.IsDisplayed (record {
      tree = s.tree.now;
      number = s.number;
      published = s.publisher;
      views = s.view;
      named = s.named.items;
      echoes = s.echoes.items;
      watchers = s.watchers.lists;
      place = s.place;
      asks = s.asks.items;
    }) };
}

impl<'a> Displayed<'a> {
    ghost use Rattle.std.specs.Prelude.{◌≡◌, ◌≤◌, true, IfOk};
    ghost use Rattle.smi_message.specs.Message.{is_boot};
    ghost use Rattle.smi_protocol.specs.Display.{Display};
    ghost use Rattle.smi_protocol.specs.Opening.{first_display};
    ghost use Rattle.smi_protocol.specs.SoundDisplay.{MayChange};
    ghost use Rattle.smi_publish.specs.Published.{shown_at};
    ghost use Rattle.smi_tree.specs.Lookups.{station_count};
    ghost use Rattle.smi_station_display.specs.Displayed.{display_of, IsDisplayed};

    /// Returns a station at its start, in this boot: its objects are in their first states, and nothing was heard of
    /// anyone.
    ///
    /// It fails only if memory ran out, which tests alone see.
    pub fn new(
        alloc: Global,
        tree: &'a Tree,
        number: u16,
        boot: u32,
    ) -> Result<Displayed<'a>, AllocError>
        requires least { 1 ≤ number }
        requires most { number ≤ station_count tree.now }
        requires boot { is_boot boot ≡ true }
        ensures display { IfOk result (λ s. display_of s ≡ first_display tree.now number) }
        ensures tree { IfOk result (λ s. s.tree ≡ tree.now) }
        ensures number { IfOk result (λ s. s.number ≡ number) }
        ensures boot { IfOk result (λ s. s.published.boot ≡ boot) }
    {
        let objects = tree.object_count();
        let mut named = Vec::new(alloc);
        for _ in 0..objects {
            named.push(false)?;
        }
        let mut echoes = Vec::new(alloc);
        for _ in 0..tree.station_count() {
            echoes.push(0)?;
        }
        let mut asks = Vec::new(alloc);
        for _ in 0..tree.operator_count() {
            asks.push(None)?;
        }
        let publisher = Publisher::new(alloc, tree, number, boot)?;
        let view = View::new(alloc, objects, boot)?;
        let watchers = Watchers::new(alloc, objects)?;
        Ok(Displayed {
            tree,
            number,
            publisher,
            view,
            named,
            echoes,
            watchers,
            place: ResendCursor::Child(1),
            asks,
        })
    }

    /// Returns the tree that the tables are about.
    pub fn tree(&self) -> &'a Tree
        ensures value { result.now ≡ self.now.tree }
        ensures displayed { IsDisplayed self.now }
    {
        self.tree
    }

    /// Returns the station's number.
    pub fn number(&self) -> u16
        ensures value { result ≡ self.now.number }
    {
        self.number
    }

    /// Returns the station's boot.
    pub fn boot(&self) -> u32
        ensures value { result ≡ self.now.published.boot }
    {
        self.publisher.boot()
    }

    /// Returns what an object shows, if the station keeps it.
    pub fn current(&self, object: u16) -> Option<Shown>
        ensures { result ≡ shown_at self.now.published.boot (display_of self.now).conditions object }
    {
        self.publisher.current(object)
    }
}
