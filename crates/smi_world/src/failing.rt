//! The save of an item fails.

ghost use Rattle.std.specs.Prelude.{◌≡◌, ℕ, false, OnErr, OnOk};
ghost use Rattle.smi_tree.specs.Hierarchy.{Hierarchy};
ghost use Rattle.smi_protocol.specs.Display.{Station as Defined};
ghost use Rattle.smi_world.specs.Coming.{happening};
ghost use Rattle.smi_world.specs.Posts.{IsPost, Makes};
ghost use Rattle.smi_world.specs.Turning.{fail_act, failed_act};

use crate::acting::{arrive, is_stopped};
use crate::coming::Coming;
use crate::left::Left;
use crate::post::Post;
use crate::stepping::{make, would_save};
use smi_rows::Plan;
use smi_station_output::Out;
use std::alloc::AllocError;

/// Answers an order whose row was not saved.
fn tell_not_stored(what: &Coming, out: &mut Out)
    requires { out.old ≡ nothing_out }
    ensures told { told_entries out.new.answers ≡ not_stored (happening what.now) }
    ensures sends { out.new.datagrams ≡ [] }
    ensures shown { out.new.shown ≡ None }
    ensures kept { out.new.kept ≡ [] }
    ensures passed { out.new.passed ≡ [] }
{
    if let Coming::Order(operator, order) = what {
        if let Request::Report(_, _) = order.request() {
            return;
        }
        out.answer(Answer {
            operator: *operator,
            told: Told {
                order: *order,
                code: OrderCode::NotStored.code(),
                asked: None,
            },
            mark: None,
        });
    }
}

ghost use Rattle.std.specs.Prelude.{None, []};
ghost use Rattle.smi_protocol.specs.Schedule.{not_stored};
ghost use Rattle.smi_protocol.specs.Happening.{told_entries};
ghost use Rattle.smi_protocol.specs.Step.{nothing_out};

use smi_protocol::{Answer, OrderCode, Request, Told};

/// Leaves the row as before, and answers the order so.
fn fail_at_device(post: &Post<'_>, what: &Coming, left: &mut Left)
    ensures makes { (h : Hierarchy) (number : ℕ) (s : Defined) → IsPost h number post.now s
        → Makes h number post.now left.new (failed_act h number Device (happening what.now) s) }
    ensures before { left.new.before ≡ left.old.before }
{
    left.clear();
    tell_not_stored(what, &mut left.out);
}

ghost use Rattle.smi_rows.specs.declared.Plan.TheVariants.{After, Before, Device};

/// Stops the station: nobody knows whether the row was saved, and it was not.
fn fail_before(post: &mut Post<'_>, what: &Coming, left: &mut Left)
    ensures makes { (h : Hierarchy) (number : ℕ) (s : Defined) → IsPost h number post.old s
        → Makes h number post.new left.new (failed_act h number Before (happening what.now) s) }
    ensures before { left.new.before ≡ left.old.before }
{
    left.clear();
    post.is_down = true;
}

/// Stops the station, and leaves what the save leaves: nobody knows whether the row was saved, and it was.
fn fail_after(post: &mut Post<'_>, what: &Coming, left: &mut Left) -> Result<(), AllocError>
    requires runs { (post.old.station.core.is_stopped || post.old.is_down) ≡ false }
    ensures makes { (h : Hierarchy) (number : ℕ) (s : Defined) → IsPost h number post.old s
        → OnOk result (Makes h number post.new left.new (failed_act h number After (happening what.now) s)) }
    ensures same { (h : Hierarchy) (number : ℕ) (s : Defined) → IsPost h number post.old s
        → OnErr result (IsPost h number post.new s) }
    ensures before { left.new.before ≡ left.old.before }
{
    make(&mut post.station, what, left)?;
    left.started = None;
    left.out.clear_but_entries();
    post.is_down = true;
    Ok(())
}

ghost use Rattle.std.specs.Prelude.{◌||◌};

/// Has the save of an event of a station that runs fail so.
fn fail_save(
    post: &mut Post<'_>,
    how: Plan,
    what: &Coming,
    left: &mut Left,
) -> Result<(), AllocError>
    requires runs { (post.old.station.core.is_stopped || post.old.is_down) ≡ false }
    ensures makes { (h : Hierarchy) (number : ℕ) (s : Defined) → IsPost h number post.old s
        → OnOk result (Makes h number post.new left.new (failed_act h number how (happening what.now) s)) }
    ensures same { (h : Hierarchy) (number : ℕ) (s : Defined) → IsPost h number post.old s
        → OnErr result (IsPost h number post.new s) }
    ensures before { left.new.before ≡ left.old.before }
{
    match how {
        Plan::Device => {
            fail_at_device(post, what, left);
            Ok(())
        }
        Plan::Before => {
            fail_before(post, what, left);
            Ok(())
        }
        Plan::After => fail_after(post, what, left),
    }
}

/// Has something reach the station, and the save of its step fail so. A step that saves nothing can't fail.
pub(crate) fn fail(
    post: &mut Post<'_>,
    how: Plan,
    what: &Coming,
    left: &mut Left,
) -> Result<(), AllocError>
    ensures makes { (h : Hierarchy) (number : ℕ) (s : Defined) → IsPost h number post.old s
        → OnOk result (Makes h number post.new left.new (fail_act h number how (happening what.now) s)) }
    ensures same { (h : Hierarchy) (number : ℕ) (s : Defined) → IsPost h number post.old s
        → OnErr result (IsPost h number post.new s) }
    ensures before { left.new.before ≡ left.old.before }
{
    if is_stopped(post) {
        left.clear();
        return Ok(());
    }
    if would_save(&post.station, what, &mut left.out) {
        fail_save(post, how, what, left)
    } else {
        arrive(post, what, left)
    }
}
