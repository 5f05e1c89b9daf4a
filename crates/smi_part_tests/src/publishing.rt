//! What the objects of the worked tree show.

ghost use Rattle.std.specs.Prelude.{◌≡◌, ℕ, IfOk};
ghost use Rattle.smi_tree.specs.Lookups.{domain_count};
ghost use Rattle.smi_publish.specs.Published.{HasRoom, conditions_of};

use smi_grant::{Shown, Version};
use smi_publish::{Changes, Publisher};
use smi_testkit::WORKED;
use smi_tree::{Tree, TreeFault};
use std::alloc::Global;
use std::process::Abort;
use std::test::Fail;

fn shown(object: u16, boot: u32, sequence: u32, state: u16) -> Shown {
    Shown {
        object,
        version: Version { boot, sequence },
        state,
    }
}

/// Returns the worked tree.
fn worked<R: Abort>(rt: &R, alloc: Global) -> Result<Tree, TreeFault>
    ensures { IfOk result (λ tree. domain_count tree ≡ 2) }
{
    let tree = Tree::read(alloc, WORKED)?;
    assert!(rt; tree.domain_count() == 2);
    Ok(tree)
}

fn starts<R: Abort>(rt: &R, publisher: &Publisher) {
    assert_eq!(rt; publisher.current(1), None);
    assert_eq!(rt; publisher.current(2), Some(shown(2, 1, 0, 1)));
    assert_eq!(rt; publisher.current(3), Some(shown(3, 1, 0, 1)));
}

fn moves<R: Abort>(rt: &R, tree: &Tree, publisher: &mut Publisher)
    requires tree { domain_count tree.now ≡ 2 }
    requires room { (object : ℕ) → HasRoom (conditions_of publisher.old) object }
{
    let changes = publisher.run_action(tree, 2, 1);
    assert!(rt; changes.as_slice() == [shown(3, 1, 1, 2)].as_slice());
    assert_eq!(rt; publisher.current(3), Some(shown(3, 1, 1, 2)));
}

fn follows<R: Abort>(rt: &R, tree: &Tree, publisher: &mut Publisher)
    requires { (object : ℕ) → HasRoom (conditions_of publisher.old) object }
{
    assert_eq!(rt; publisher.evaluate(tree, 2, &[2]), Some(shown(2, 1, 1, 2)));
    assert!(rt; publisher.has_room(2));
    assert_eq!(rt; publisher.evaluate(tree, 2, &[2]), None);
}

fn shows_both<R: Abort>(rt: &R, tree: &Tree, publisher: &mut Publisher)
    requires tree { domain_count tree.now ≡ 2 }
    requires room { (object : ℕ) → HasRoom (conditions_of publisher.old) object }
{
    let mut changes = publisher.run_action(tree, 2, 1);
    assert!(rt; publisher.has_room(2));
    if let Some(unit) = publisher.evaluate(tree, 2, &[2]) {
        changes.push(unit);
    }
    assert_eq!(rt; changes.len(), 2);
    assert!(rt; changes.as_slice() == [shown(3, 1, 1, 2), shown(2, 1, 1, 2)].as_slice());
}

fn is_told<R: Abort>(rt: &R, tree: &Tree, publisher: &mut Publisher)
    requires tree { domain_count tree.now ≡ 2 }
    requires room { (object : ℕ) → HasRoom (conditions_of publisher.old) object }
{
    assert!(rt; !publisher.run_action(tree, 2, 1).is_empty());
    assert!(rt; publisher.has_room(3));
    assert_eq!(rt; publisher.report(3, 4), Some(shown(3, 1, 2, 4)));
    assert!(rt; publisher.has_room(3));
    assert_eq!(rt; publisher.report(3, 4), None);
    assert_eq!(rt; publisher.current(3), Some(shown(3, 1, 2, 4)));
}

fn waits_for_its_child<R: Abort>(rt: &R, tree: &Tree, publisher: &mut Publisher)
    requires { (object : ℕ) → HasRoom (conditions_of publisher.old) object }
{
    assert_eq!(rt; publisher.evaluate(tree, 1, &[0]), None);
    assert!(rt; publisher.has_room(1));
    assert_eq!(rt; publisher.evaluate(tree, 1, &[2]), Some(shown(1, 2, 1, 2)));
}

fn shows_nothing<R: Abort>(rt: &R, tree: &Tree, publisher: &mut Publisher)
    requires tree { domain_count tree.now ≡ 2 }
    requires room { (object : ℕ) → HasRoom (conditions_of publisher.old) object }
{
    assert!(rt; publisher.run_action(tree, 1, 1).is_empty());
    assert!(rt; Changes::new().is_empty());
}

fn stays_away<R: Abort>(rt: &R, publisher: &mut Publisher)
    requires { (object : ℕ) → HasRoom (conditions_of publisher.old) object }
{
    assert_eq!(rt; publisher.report(3, 2), None);
    assert_eq!(rt; publisher.current(3), None);
}

/// Tries each case, over what its station publishes after a start.
fn each_case<R: Abort>(rt: &R, alloc: Global, tree: &Tree) -> Result<(), Fail>
    requires { domain_count tree.now ≡ 2 }
{
    starts(rt, &Publisher::new(alloc, tree, 2, 1)?);
    moves(rt, tree, &mut Publisher::new(alloc, tree, 2, 1)?);
    follows(rt, tree, &mut Publisher::new(alloc, tree, 2, 1)?);
    shows_both(rt, tree, &mut Publisher::new(alloc, tree, 2, 1)?);
    is_told(rt, tree, &mut Publisher::new(alloc, tree, 2, 1)?);
    waits_for_its_child(rt, tree, &mut Publisher::new(alloc, tree, 1, 2)?);
    shows_nothing(rt, tree, &mut Publisher::new(alloc, tree, 1, 2)?);
    stays_away(rt, &mut Publisher::new(alloc, tree, 1, 2)?);
    Ok(())
}

// One function owns the tree, and drops it in one place, because each place is expensive to prove.
#[test]
fn the_worked_tree(rt: HostRuntime) -> Result<(), Fail> {
    let tree = worked(&rt, rt.alloc())?;
    each_case(&rt, rt.alloc(), &tree)
}
