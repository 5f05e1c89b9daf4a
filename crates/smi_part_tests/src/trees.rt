//! What a file declares, and each of its faults, by files that were written by hand.

use smi_testkit::WORKED;
use smi_tree::{Address, Device, Domain, Tree, TreeFault};
use std::alloc::Global;
use std::process::Abort;
use std::test::Fail;

/// Eleven lines that further lines can follow.
const BEGUN: &[u8] =
    b"tree 1\nstate S\nstate T\naction A\nstation P 10.0.0.1:1\noperator O P\ndevclass D S\nmove D S A T\nunitclass U S\naccept U A\ndomain M P U -\n";

/// Returns the fault of a file, (0, 0) if it has none.
fn fault_of(alloc: Global, bytes: &[u8]) -> Result<(u64, u16), TreeFault> {
    match Tree::read(alloc, bytes) {
        Ok(_) => Ok((0, 0)),
        Err(TreeFault::Line(line, code)) => Ok((line, code)),
        Err(TreeFault::Memory) => Err(TreeFault::Memory),
    }
}

/// Returns the fault of one more line after those of `BEGUN`.
fn fault_behind(alloc: Global, line: &[u8]) -> Result<(u64, u16), TreeFault> {
    let mut bytes = Vec::from_slice(alloc, BEGUN)?;
    bytes.extend_from_slice(line)?;
    fault_of(alloc, &bytes)
}

fn has_the_counts(tree: &Tree) -> bool {
    tree.number() == 17
        && (tree.state_count(), tree.action_count()) == (4, 3)
        && (tree.station_count(), tree.operator_count()) == (2, 2)
        && (
            tree.domain_count(),
            tree.device_count(),
            tree.object_count(),
        ) == (2, 1, 3)
}

fn finds_the_names(tree: &Tree) -> bool {
    tree.state_named(b"ERROR") == Some(4)
        && tree.action_named(b"START") == Some(2)
        && tree.station_named(b"B") == Some(2)
        && tree.operator_named(b"ANN") == Some(1)
        && tree.domain_named(b"DCS") == Some(1)
        && tree.device_named(b"HV") == Some(1)
        && tree.object_named(b"HV") == Some(3)
        && tree.object_named(b"ANN").is_none()
}

fn has_the_names(tree: &Tree) -> bool {
    if tree.state_count() < 2 || tree.action_count() < 3 || tree.station_count() < 2 {
        return false;
    }
    tree.state_name(2) == b"READY".as_slice()
        && tree.action_name(3) == b"STOP".as_slice()
        && tree.station_name(1) == b"A".as_slice()
}

fn has_the_names_of_objects(tree: &Tree) -> bool {
    if tree.operator_count() < 2 || tree.domain_count() < 2 || tree.device_count() < 1 {
        return false;
    }
    tree.operator_name(2) == b"BOB".as_slice()
        && tree.domain_name(2) == b"TPC".as_slice()
        && tree.device_name(1) == b"HV".as_slice()
        && tree.object_name(3) == b"HV".as_slice()
}

fn has_the_stations(tree: &Tree) -> bool {
    if tree.station_count() < 2 || tree.operator_count() < 2 {
        return false;
    }
    let lower = Address {
        host: [127, 0, 0, 1],
        port: 9002,
    };
    tree.address(2) == lower && tree.operators(1) == [1].as_slice() && tree.operator_station(2) == 2
}

fn has_the_domains(tree: &Tree) -> bool {
    if tree.domain_count() < 2 || tree.device_count() < 1 {
        return false;
    }
    let lower = Domain {
        station: 2,
        class: 2,
        parent: Some(1),
    };
    let device = Device {
        domain: 2,
        class: 1,
    };
    tree.domain(2) == lower
        && tree.children(1) == [2].as_slice()
        && tree.devices(2) == [1].as_slice()
        && tree.device(1) == device
}

fn has_the_ways(tree: &Tree) -> bool {
    tree.parent(1).is_none()
        && tree.is_below(2, 1)
        && !tree.is_below(1, 1)
        && !tree.is_below(1, 2)
        && tree.child_towards(1, 2) == Some(2)
}

fn has_the_classes(tree: &Tree) -> bool {
    tree.accepts(2, 1)
        && !tree.accepts(2, 3)
        && tree.first_state(3) == Some(1)
        && tree.moved(1, 1, 1) == 2
        && tree.moved(1, 2, 2) == 3
        && tree.moved(1, 2, 1) == 2
        && tree.moved(1, 3, 3) == 3
}

fn is_the_worked_tree<R: Abort>(rt: &R, tree: &Tree) {
    assert!(rt; has_the_counts(tree));
    assert!(rt; finds_the_names(tree));
    assert!(rt; has_the_names(tree));
    assert!(rt; has_the_names_of_objects(tree));
    assert!(rt; has_the_stations(tree));
    assert!(rt; has_the_domains(tree));
    assert!(rt; has_the_ways(tree));
    assert!(rt; has_the_classes(tree));
}

fn goes_by_its_rules<R: Abort>(rt: &R, tree: &Tree) {
    assert_eq!(rt; tree.unit_state(1, 1, &[2]), 2);
    assert_eq!(rt; tree.unit_state(1, 1, &[2, 3]), 1);
    assert_eq!(rt; tree.unit_state(1, 1, &[3, 4]), 4, "any before all");
    assert_eq!(rt; tree.unit_state(1, 2, &[]), 2, "all of nobody");
    assert_eq!(rt; tree.unit_state(1, 3, &[2, 0]), 3, "one is not known");
}

// One function owns the tree, and drops it in one place, because each place is expensive to prove.
#[test]
fn the_worked_file(rt: HostRuntime) -> Result<(), Fail> {
    let tree = Tree::read(rt.alloc(), WORKED)?;
    is_the_worked_tree(&rt, &tree);
    goes_by_its_rules(&rt, &tree);
    Ok(())
}

/// Lines after those of `BEGUN`, and the fault of each.
const BEHIND: [(&[u8], (u64, u16)); 41] = [
    (b"", (0, 0)),
    (b"\n# a comment\n \t\n", (0, 0)),
    (b"station Q 1.2.3.004:65535\r\n", (0, 0)),
    (b"stat S", (12, 1)),
    (b"state", (12, 2)),
    (b"state X Y", (12, 2)),
    (b"state x", (12, 3)),
    (b"state 1X", (12, 3)),
    (b"state ABCDEFGHIJKLMNOP", (0, 0)),
    (b"state ABCDEFGHIJKLMNOPQ", (12, 3)),
    (b"state X\r", (12, 3)),
    (b"state S", (12, 4)),
    (b"action A", (12, 4)),
    (b"station P 1.2.3.4:5", (12, 4)),
    (b"devclass U S", (12, 4)),
    (b"operator M P", (12, 4)),
    (b"device O M D", (12, 4)),
    (b"domain O P U -", (12, 4)),
    (b"move D S A S", (12, 4)),
    (b"accept U A", (12, 4)),
    (b"operator N Q", (12, 5)),
    (b"devclass E X", (12, 5)),
    (b"domain N P U O", (12, 5)),
    (b"device N O D", (12, 5)),
    (b"tree 2", (12, 7)),
    (b"station Q 1.2.3:5", (12, 8)),
    (b"station Q 1.2.3.256:5", (12, 8)),
    (b"station Q 1.2.3.4:0", (12, 8)),
    (b"station Q 1.2.3.4:00000000005", (12, 8)),
    (b"move U S A T", (12, 9)),
    (b"accept D A", (12, 9)),
    (b"any D S T", (12, 9)),
    (b"domain N P D M", (12, 9)),
    (b"device N M U", (12, 9)),
    // Two faults in one line: the one that is tested first.
    (b"tree", (12, 7)),
    (b"stat", (12, 1)),
    (b"state x y", (12, 2)),
    (b"station x 1.2.3:4", (12, 3)),
    (b"station P 1.2.3:4", (12, 8)),
    (b"operator O Q", (12, 5)),
    (b"device O M U", (12, 4)),
];

/// Whole files, and the fault of each.
const WHOLE: [(&[u8], (u64, u16)); 8] = [
    (b"", (0, 12)),
    (b"# nothing\n", (0, 12)),
    (b"state S\n", (1, 7)),
    (b"\n\nstat\n", (3, 7)),
    (b"tree 0\n", (1, 3)),
    (b"tree 65536\n", (1, 3)),
    (b"tree 00000065535\n", (1, 3)),
    (
        b"tree 1\nstate S\naction A\nstation P 1.2.3.4:5\noperator O P\n",
        (0, 12),
    ),
];

#[test]
fn each_fault_behind_other_lines(rt: HostRuntime) -> Result<(), Fail> {
    for (line, want) in BEHIND {
        assert_eq!(rt; fault_behind(rt.alloc(), line)?, want, "{line:?}");
    }
    Ok(())
}

#[test]
fn each_fault_of_a_whole_file(rt: HostRuntime) -> Result<(), Fail> {
    for (bytes, want) in WHOLE {
        assert_eq!(rt; fault_of(rt.alloc(), bytes)?, want, "{bytes:?}");
    }
    Ok(())
}
