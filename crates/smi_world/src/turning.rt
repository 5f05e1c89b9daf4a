//! What an item makes of the stations of a world.

ghost use Rattle.std.specs.Prelude.{◌≡◌, ◌⊎◌, ℕ, length, true, OnErr, OnOk};
ghost use Rattle.smi_tree.specs.Hierarchy.{Hierarchy};
ghost use Rattle.smi_tree.specs.Lookups.{station_count};
ghost use Rattle.smi_protocol.specs.Display.{Station as Defined};
ghost use Rattle.smi_protocol.specs.Schedule as schedule;
ghost use Rattle.smi_protocol.specs.Schedule.{World};
ghost use Rattle.smi_schedule.specs.Naming.{has_item};
ghost use Rattle.smi_world.specs.Posts.{ArePosts, IsPost, Makes};
ghost use Rattle.smi_world.specs.Tasks.{Halted, IsHalted, Turned, act_of};

use crate::acting::{arrive, restart, stop_after};
use crate::failing::fail;
use crate::left::Left;
use crate::post::Post;
use crate::task::{Doing, task_of};
use smi_message::Datagram;
use smi_protocol::Item;
use smi_tree::Tree;
use std::alloc::{AllocError, Global};

/// Has a station make its part. If memory runs out for its start after a stop, it stays stopped.
fn make_part(
    alloc: Global,
    post: &mut Post<'_>,
    doing: &Doing,
    left: &mut Left,
) -> Result<(), AllocError>
    ensures makes { (h : Hierarchy) (number : ℕ) (s : Defined) → IsPost h number post.old s
        → OnOk result (Makes h number post.new left.new (act_of h number doing.now s)) }
    ensures halts { (h : Hierarchy) (number : ℕ) (s : Defined) → IsPost h number post.old s
        → OnErr result (IsPost h number post.new s ⊎ IsHalted h number post.new doing.now s) }
    ensures before { left.new.before ≡ left.old.before }
{
    match doing {
        Doing::Come(what) => arrive(post, what, left),
        Doing::Start => restart(alloc, post, left),
        Doing::StopAfter(what) => stop_after(alloc, post, what, left),
        Doing::Fail(how, what) => fail(post, *how, what, left),
    }
}

/// Makes what an item makes of the stations. After `AllocError` they are as before, but that a station which had
/// stopped after its save stays stopped.
pub(crate) fn turn(
    alloc: Global,
    tree: &Tree,
    posts: &mut Vec<Post<'_>>,
    sent: &[Datagram],
    item: &Item,
    left: &mut Left,
) -> Result<(), AllocError>
    requires has { has_item tree.now item.now ≡ true }
    requires count { length posts.old.items ≡ station_count tree.now }
    ensures makes { (w : World) → ArePosts tree.now 1 posts.old.items w.stations → w.sent ≡ sent.now
        → OnOk result (Turned tree.now posts.new.items left.new (schedule.turn tree.now w item.now)) }
    ensures halts { (w : World) → ArePosts tree.now 1 posts.old.items w.stations → w.sent ≡ sent.now
        → OnErr result (ArePosts tree.now 1 posts.new.items w.stations ⊎ Halted tree.now posts.new.items w item.now) }
    ensures count { length posts.new.items ≡ length posts.old.items }
    ensures before { left.new.before ≡ left.old.before }
{
    match task_of(tree, sent, item) {
        Some(task) => {
            let post = &mut posts[usize::from(task.station) - 1];
            make_part(alloc, post, &task.doing, left)
        }
        None => {
            left.clear();
            Ok(())
        }
    }
}
