//! The opening of a world: all its stations start, by number.

ghost use Rattle.std.specs.Prelude.{◌≡◌, ◌≤◌, ◌++◌, length, IfOk, OnOk};
ghost use Rattle.smi_tree.specs.Lookups.{station_count};
ghost use Rattle.smi_protocol.specs.Schedule.{opening_lines};
ghost use Rattle.smi_protocol.specs.Opening.{first_opened};
ghost use Rattle.smi_world.specs.Posts.{ArePosts, IsPost};

use crate::left::push_start;
use crate::post::Post;
use smi_protocol::Line;
use smi_rows::MemoryStable;
use smi_station::Station;
use smi_tree::Tree;
use std::alloc::{AllocError, Global};

/// Starts a station for the first time.
fn first_post<'a>(alloc: Global, tree: &'a Tree, number: u16) -> Result<Post<'a>, AllocError>
    requires least { 1 ≤ number }
    requires most { number ≤ station_count tree.now }
    ensures { IfOk result (λ post. IsPost tree.now number post (first_opened tree.now number)) }
{
    match Station::open(alloc, tree, number, MemoryStable::new(alloc)) {
        Ok(station) => Ok(Post {
            station,
            is_down: false,
        }),
        Err(_) => Err(AllocError),
    }
}

/// Starts all stations for the first time.
pub(crate) fn first_posts<'a>(alloc: Global, tree: &'a Tree) -> Result<Vec<Post<'a>>, AllocError>
    ensures posts { IfOk result (λ posts. ArePosts tree.now 1 posts.items (first_opened tree.now)) }
    ensures count { IfOk result (λ posts. length posts.items ≡ station_count tree.now) }
{
    let count = tree.station_count();
    let mut posts = Vec::new(alloc);
    for number in 0..count {
        posts.push(first_post(alloc, tree, number + 1)?)?;
    }
    Ok(posts)
}

/// Adds the lines of the opening: each station, by number, and what its objects show.
pub fn push_opening(lines: &mut Vec<Line>, tree: &Tree) -> Result<(), AllocError>
    ensures { OnOk result (lines.new.items ≡ lines.old.items ++ opening_lines tree.now) }
{
    let count = tree.station_count();
    for number in 0..count {
        push_start(lines, tree, number + 1, 1)?;
    }
    Ok(())
}
