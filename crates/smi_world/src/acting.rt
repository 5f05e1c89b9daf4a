//! What an item makes of one station.

ghost use Rattle.std.specs.Prelude.{◌≡◌, ◌⊎◌, ◌||◌, ℕ, false, OnErr, OnOk};
ghost use Rattle.smi_protocol.specs.Opening.{saved_only};
ghost use Rattle.smi_tree.specs.Hierarchy.{Hierarchy};
ghost use Rattle.smi_protocol.specs.Display.{Station as Defined};
ghost use Rattle.smi_world.specs.Coming.{happening};
ghost use Rattle.smi_world.specs.Posts.{IsPost, Makes};
ghost use Rattle.smi_world.specs.Turning.{restart_act, step_act, stop_act};

use crate::coming::Coming;
use crate::left::Left;
use crate::post::Post;
use crate::stepping::make;
use smi_protocol::OpenFault;
use std::alloc::{AllocError, Global};

/// Returns true if the station makes no step.
pub(crate) fn is_stopped(post: &Post<'_>) -> bool
    ensures { result ≡ (post.now.station.core.is_stopped || post.now.is_down) }
{
    post.station.is_stopped() || post.is_down
}

/// Has something reach the station.
pub(crate) fn arrive(post: &mut Post<'_>, what: &Coming, left: &mut Left) -> Result<(), AllocError>
    ensures makes { (h : Hierarchy) (number : ℕ) (s : Defined) → IsPost h number post.old s
        → OnOk result (Makes h number post.new left.new (step_act h number (happening what.now) s)) }
    ensures same { (h : Hierarchy) (number : ℕ) (s : Defined) → IsPost h number post.old s
        → OnErr result (IsPost h number post.new s) }
    ensures before { left.new.before ≡ left.old.before }
{
    if is_stopped(post) {
        left.clear();
        return Ok(());
    }
    make(&mut post.station, what, left)
}

/// Starts the station again, after its save has left what it has; if its boots are spent, it stops.
fn start_again(alloc: Global, post: &mut Post<'_>, left: &mut Left) -> Result<(), AllocError>
    ensures makes { (h : Hierarchy) (number : ℕ) (s : Defined) → IsPost h number post.old s
        → OnOk result (Makes h number post.new left.new (restart_act h number left.old.out.kept s)) }
    ensures same { (h : Hierarchy) (number : ℕ) (s : Defined) → IsPost h number post.old s
        → OnErr result (IsPost h number post.new s) }
    ensures before { left.new.before ≡ left.old.before }
{
    left.station = post.station.grants().number();
    left.out.clear_but_entries();
    match post.station.restart(alloc) {
        Ok(()) => {
            post.is_down = false;
            left.started = Some(post.station.boot());
            Ok(())
        }
        Err(OpenFault::BootsSpent) => {
            post.is_down = true;
            left.started = None;
            Ok(())
        }
        Err(_) => Err(AllocError),
    }
}

/// Starts the station again.
pub(crate) fn restart(alloc: Global, post: &mut Post<'_>, left: &mut Left) -> Result<(), AllocError>
    ensures makes { (h : Hierarchy) (number : ℕ) (s : Defined) → IsPost h number post.old s
        → OnOk result (Makes h number post.new left.new (restart_act h number [] s)) }
    ensures same { (h : Hierarchy) (number : ℕ) (s : Defined) → IsPost h number post.old s
        → OnErr result (IsPost h number post.new s) }
    ensures before { left.new.before ≡ left.old.before }
{
    left.out.clear();
    start_again(alloc, post, left)
}

ghost use Rattle.std.specs.Prelude.{[]};

/// Stops the station after its save, and starts it again. If memory runs out for the start, it stays stopped.
pub(crate) fn stop_after(
    alloc: Global,
    post: &mut Post<'_>,
    what: &Coming,
    left: &mut Left,
) -> Result<(), AllocError>
    ensures makes { (h : Hierarchy) (number : ℕ) (s : Defined) → IsPost h number post.old s
        → OnOk result (Makes h number post.new left.new (stop_act h number (happening what.now) s)) }
    ensures halts { (h : Hierarchy) (number : ℕ) (s : Defined) → IsPost h number post.old s
        → OnErr result (IsPost h number post.new s ⊎ (s.is_stopped ≡ false)
        × IsPost h number post.new (saved_only h number s (happening what.now))) }
    ensures before { left.new.before ≡ left.old.before }
{
    if is_stopped(post) {
        return restart(alloc, post, left);
    }
    make(&mut post.station, what, left)?;
    post.is_down = true;
    start_again(alloc, post, left)
}
