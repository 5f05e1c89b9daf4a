//! The world.

ghost use Rattle.std.specs.Prelude.{◌≡◌, ◌⊎◌, length, true, false, Err, OnErr, OnOk};
ghost use Rattle.smi_tree.specs.Lookups.{station_count};
ghost use Rattle.smi_protocol.specs.Schedule as schedule;
ghost use Rattle.smi_protocol.specs.Schedule.{World as Defined};
ghost use Rattle.smi_schedule.specs.Naming.{has_item as names};

use crate::left::Left;
use crate::naming::has_item;
use crate::opening::first_posts;
use crate::post::Post;
use crate::turning::turn;
use smi_base::MOST_SENT;
use smi_message::Datagram;
use smi_protocol::Item;
use smi_tree::Tree;
use std::alloc::{AllocError, Global};
use std::marker::Model;
use thiserror::Error;

/// All stations of a tree, and every datagram that was sent. It is at each moment a world that can be reached, so
/// that what it leaves is safe.
#[derive(Drop)]
pub struct World<'a> {
    tree: &'a Tree,
    posts: Vec<Post<'a>>,
    sent: Vec<Datagram>,
}

impl<'a> Model for World<'a> {
    ghost use Rattle.smi_world.specs.Posts.{Held, IsReached};

    ghost Value = { Held };

    ghost view = { λ w. record { tree = w.tree.now; posts = w.posts.items; sent = w.sent.items } };

    ghost invariant = { λ w. IsReached (record { tree = w.tree.now; posts = w.posts.items; sent = w.sent.items }) };
}

/// Why an item was not made.
#[derive(Clone, Copy, Debug, PartialEq, Eq, Error)]
pub enum ActFault {
    /// The tree does not have a station, operator or device that the item names. Nothing has changed.
    #[error("the item names what the tree does not have")]
    NoSuch,
    /// Out of memory. Nothing has changed, but that a station which had stopped after its save stays stopped.
    #[error("out of memory")]
    Memory,
}

/// Makes an item.
fn act_at(
    alloc: Global,
    tree: &Tree,
    posts: &mut Vec<Post<'_>>,
    sent: &mut Vec<Datagram>,
    item: &Item,
    left: &mut Left,
) -> Result<(), AllocError>
    requires has { names tree.now item.now ≡ true }
    requires count { length posts.old.items ≡ station_count tree.now }
    ensures makes { (w : Defined) → IsAt (held tree.now posts.old.items sent.old.items) w
        → OnOk result (IsMade (held tree.now posts.new.items sent.new.items) left.new w
        (schedule.turn tree.now w item.now)) }
    ensures halts { (w : Defined) → IsAt (held tree.now posts.old.items sent.old.items) w
        → OnErr result (IsAt (held tree.now posts.new.items sent.new.items) w
        ⊎ Halted tree.now posts.new.items w item.now × (sent.new.items ≡ sent.old.items)) }
    ensures count { length posts.new.items ≡ length posts.old.items }
{
    sent.reserve(MOST_SENT)?;
    left.before = sent.len() as u64;
    turn(alloc, tree, posts, sent, item, left)?;
    sent.extend_from_slice(left.out.datagrams())
}

ghost use Rattle.smi_world.specs.Posts.{IsAt, IsMade, held};
ghost use Rattle.smi_world.specs.Tasks.{Halted};

impl<'a> World<'a> {
    ghost use Rattle.std.specs.Prelude.{◌≡◌, ◌⊎◌, true, false, Err, IfOk, OnErr, OnOk};
    ghost use Rattle.smi_protocol.specs.Schedule as schedule;
    ghost use Rattle.smi_protocol.specs.Schedule.{World as Defined, first_world};
    ghost use Rattle.smi_world.specs.declared.world.ActFault.TheVariants as fault;
    ghost use Rattle.smi_schedule.specs.Naming.{has_item as names};
    ghost use Rattle.smi_world.specs.Posts.{IsAt, IsMade, IsReached};
    ghost use Rattle.smi_world.specs.Tasks.{IsUnmade};
    ghost use Rattle.std.specs.Prelude.{length};

    /// Starts all stations of the tree for the first time. Out of memory is answered only if an allocation was
    /// refused, which tests alone see.
    pub fn new(alloc: Global, tree: &'a Tree) -> Result<World<'a>, AllocError>
        ensures opens { IfOk result (λ world. IsAt world (first_world tree.now)) }
        ensures tree { IfOk result (λ world. world.tree ≡ tree.now) }
    {
        match first_posts(alloc, tree) {
            Ok(posts) => Ok(World {
                tree,
                posts,
                sent: Vec::new(alloc),
            }),
            Err(refused) => Err(refused),
        }
    }

    /// Returns the tree whose stations these are. The world is one that some run reaches, so all that is true of
    /// every such world is true of it: each record and each link that claims a grant of it, each `RUN` that was sent,
    /// each busy domain and each `STATE` with a present echo (`links_know_their_records`, `commands_are_handed_on`
    /// and `states_are_safe` of `smi_law`).
    pub fn tree(&self) -> &'a Tree
        ensures tree { result.now ≡ self.now.tree }
        ensures reached { IsReached self.now }
    {
        self.tree
    }

    /// Makes an item; what it leaves is in `left` then.
    pub fn act(&mut self, alloc: Global, item: &Item, left: &mut Left) -> Result<(), ActFault>
        ensures makes { (w : Defined) → IsAt self.old w
            → OnOk result (IsMade self.new left.new w (schedule.turn self.old.tree w item.now)) }
        ensures names { names self.old.tree item.now ≡ false → result ≡ Err fault.NoSuch }
        ensures unmade { (w : Defined) → IsAt self.old w → OnErr result (IsUnmade self.new w item.now) }
        ensures no_such { result ≡ Err fault.NoSuch → (names self.old.tree item.now ≡ false) × (self.new ≡ self.old) }
        ensures tree { self.new.tree ≡ self.old.tree }
    {
        let World { tree, posts, sent } = self;
        let _stations = tree.station_count();
        if !has_item(tree, item) {
            return Err(ActFault::NoSuch);
        }
        match act_at(alloc, tree, posts, sent, item, left) {
            Ok(()) => Ok(()),
            Err(_) => Err(ActFault::Memory),
        }
    }

    /// Returns the stations, by number.
    pub(crate) fn posts(&self) -> &[Post<'a>]
        ensures { result.now ≡ self.now.posts }
    {
        self.posts.as_slice()
    }

    /// Returns how many datagrams were sent.
    pub(crate) fn sent_count(&self) -> u64
        ensures { result ≡ length self.now.sent }
    {
        self.sent.len() as u64
    }
}
