//! What lines say, each fault of a line, whole schedules, and what words pick.

use smi_protocol::{Deed, Item, Moment, Order};
use smi_rows::Plan;
use smi_schedule::{Drawer, ScheduleFault, draw_schedule, item_of, read_item, read_schedule};
use smi_testkit::WORKED;
use smi_tree::{Fault, Tree};
use std::alloc::{AllocError, Global};
use std::process::Abort;
use std::test::Fail;

const ITEMS: [(&[u8], Item); 14] = [
    (b"deliver 1", Item::Do(Deed::Deliver(1))),
    (
        b"deliver 9999999999",
        Item::Do(Deed::Deliver(9_999_999_999)),
    ),
    (b"recent 0", Item::Do(Deed::Recent(0))),
    (b"recent 0000000015", Item::Do(Deed::Recent(15))),
    (b"tick A", Item::Do(Deed::Tick(1))),
    (b"report HV READY", Item::Do(Deed::Report(1, 2))),
    (b"restart B", Item::Restart(2)),
    (
        b"stop A after deliver 1",
        Item::Stop(1, Moment::After, Deed::Deliver(1)),
    ),
    (
        b"stop B before tick A",
        Item::Stop(2, Moment::Before, Deed::Tick(1)),
    ),
    (
        b"stop A before order ANN watch TPC",
        Item::Stop(1, Moment::Before, Deed::Order(1, Order::Watch(2))),
    ),
    (
        b"fail B device deliver 1",
        Item::Fail(2, Plan::Device, Deed::Deliver(1)),
    ),
    (
        b"fail B after deliver 1",
        Item::Fail(2, Plan::After, Deed::Deliver(1)),
    ),
    (
        b"fail A before recent 3",
        Item::Fail(1, Plan::Before, Deed::Recent(3)),
    ),
    (
        b"fail B device order BOB take TPC",
        Item::Fail(2, Plan::Device, Deed::Order(2, Order::Take(2))),
    ),
];

/// What an operator orders, 1 ANN and 2 BOB.
const ORDERS: [(&[u8], u16, Order); 12] = [
    (b"order BOB take TPC", 2, Order::Take(2)),
    (b"order BOB drop TPC", 2, Order::Drop(2)),
    (b"order ANN ask DCS", 1, Order::Ask(1)),
    (b"order ANN do DCS CONFIGURE", 1, Order::Do(1, 1)),
    (b"order BOB do TPC STOP", 2, Order::Do(2, 3)),
    (b"order ANN include DCS TPC", 1, Order::Include(1, 2)),
    (b"order BOB exclude TPC DCS", 2, Order::Exclude(2, 1)),
    (b"order ANN manual DCS TPC", 1, Order::Manual(1, 2)),
    (b"order ANN ignore DCS TPC", 1, Order::Ignore(1, 2)),
    (b"order BOB watch HV", 2, Order::Watch(3)),
    (b"order BOB unwatch DCS", 2, Order::Unwatch(1)),
    (b"\t order\tBOB  take TPC ", 2, Order::Take(2)),
];

const SKIPPED: [&[u8]; 5] = [b"", b" \t ", b"# tick A", b"  #", b"#tick A"];

const UNKNOWN_WORDS: [&[u8]; 18] = [
    b"delivr 1",
    b"tree 17",
    b"Tick A",
    b"order ANN grab",
    b"order ANN report HV READY",
    b"stop A during",
    b"stop A device tick A",
    b"stop A before tack A",
    b"stop A before restart B",
    b"stop A before stop B after tick A",
    b"stop A before fail B device tick A",
    b"stop A before order ANN grab",
    b"fail B sometimes tick A",
    b"fail B device restart B",
    b"fail B device stop B after tick A",
    b"fail B device fail A device tick A",
    // The station and the operator are not well formed either.
    b"stop a during tick",
    b"stop a before order b grab",
];

const WORD_COUNTS: [&[u8]; 14] = [
    b"deliver",
    b"deliver 1 2",
    b"tick A B",
    b"restart",
    b"report HV",
    b"order",
    b"order ANN",
    b"order ANN take",
    b"order ANN do DCS",
    b"stop A",
    b"stop A before",
    b"stop A before order ANN",
    b"fail",
    // The operator is not well formed either.
    b"order ann take",
];

const MALFORMED: [&[u8]; 10] = [
    b"deliver 0",
    b"deliver +1",
    b"deliver 00000000001",
    b"recent x",
    b"tick a",
    b"tick A\r",
    b"order ANN take 1DCS",
    // Another name of the line is not known either.
    b"stop a before tick C",
    b"stop C before deliver x",
    b"order CAT take dcs",
];

const UNKNOWN_NAMES: [&[u8]; 6] = [
    b"tick C",
    b"report TPC READY",
    b"report HV CONFIGURE",
    b"order A take DCS",
    b"order ANN take HV",
    b"order ANN do DCS READY",
];

fn lines_say_items<R: Abort>(rt: &R, tree: &Tree) {
    for (line, item) in ITEMS {
        assert_eq!(rt; read_item(tree, line), Ok(Some(item)), "{line:?}");
    }
}

fn lines_say_orders<R: Abort>(rt: &R, tree: &Tree) {
    for (line, operator, order) in ORDERS {
        let item = Item::Do(Deed::Order(operator, order));
        assert_eq!(rt; read_item(tree, line), Ok(Some(item)), "{line:?}");
    }
}

fn lines_are_skipped<R: Abort>(rt: &R, tree: &Tree) {
    for line in SKIPPED {
        assert_eq!(rt; read_item(tree, line), Ok(None), "{line:?}");
    }
}

fn lines_have<R: Abort>(rt: &R, tree: &Tree, fault: Fault, lines: &[&[u8]]) {
    for line in lines {
        assert_eq!(rt; read_item(tree, line), Err(fault), "{line:?}");
    }
}

fn lines_have_faults<R: Abort>(rt: &R, tree: &Tree) {
    lines_have(rt, tree, Fault::UnknownWord, &UNKNOWN_WORDS);
    lines_have(rt, tree, Fault::WordCount, &WORD_COUNTS);
    lines_have(rt, tree, Fault::Malformed, &MALFORMED);
    lines_have(rt, tree, Fault::UnknownName, &UNKNOWN_NAMES);
}

/// Returns a line with blanks after it, of this many bytes.
fn long_line(alloc: Global, line: &[u8], length: usize) -> Result<Vec<u8>, AllocError> {
    let mut long = vec![in alloc; b' '; length]?;
    for (place, byte) in line.iter().enumerate() {
        if let Some(cell) = long.get_mut(place) {
            *cell = *byte;
        }
    }
    Ok(long)
}

fn lines_are_too_long<R: Abort>(rt: &R, alloc: Global, tree: &Tree) -> Result<(), AllocError> {
    let table: [&[u8]; 3] = [b"tick A", b"delivr 1", b"#"];
    for line in table {
        let short = long_line(alloc, line, 200)?;
        assert_eq!(rt; read_item(tree, short.as_slice()), read_item(tree, line));
        let long = long_line(alloc, line, 201)?;
        assert_eq!(rt; read_item(tree, long.as_slice()), Err(Fault::LineTooLong));
    }
    Ok(())
}

// One function owns the tree, and drops it in one place, because each place is expensive to prove.
#[test]
fn lines(rt: HostRuntime) -> Result<(), Fail> {
    let tree = Tree::read(rt.alloc(), WORKED)?;
    lines_say_items(&rt, &tree);
    lines_say_orders(&rt, &tree);
    lines_are_skipped(&rt, &tree);
    lines_have_faults(&rt, &tree);
    let tried = lines_are_too_long(&rt, rt.alloc(), &tree);
    drop(tree);
    Ok(tried?)
}

const TAKE: Item = Item::Do(Deed::Order(2, Order::Take(2)));

const DROP: Item = Item::Do(Deed::Order(2, Order::Drop(2)));

const DELIVER: Item = Item::Do(Deed::Deliver(1));

const SCHEDULES: [(&[u8], &[Item]); 6] = [
    (b"", &[]),
    (b"\n\n# nothing\n", &[]),
    (
        b"order BOB take TPC\ndeliver 1\norder BOB drop TPC\n",
        &[TAKE, DELIVER, DROP],
    ),
    (
        b"order BOB take TPC\ndeliver 1\norder BOB drop TPC",
        &[TAKE, DELIVER, DROP],
    ),
    (
        b"order BOB take TPC\r\ndeliver 1\r\norder BOB drop TPC\r\n",
        &[TAKE, DELIVER, DROP],
    ),
    (
        b"\n# first\norder BOB take TPC\n\n\tdeliver 1",
        &[TAKE, DELIVER],
    ),
];

/// The line of the fault, and its number.
const FAULTY: [(&[u8], u64, u16); 7] = [
    (b"order BOB take TPC\ndelivr 1\n", 2, 1),
    (b"order BOB take TPC\n\n# a\ndeliver 1 2\ndelivr 1\n", 4, 2),
    (b"deliver 1\ndeliver 0", 2, 3),
    (b"deliver 1\r", 1, 3),
    (b"deliver 1\r\r\n", 1, 3),
    (b"deliver\x0b1\n", 1, 1),
    (b"tick A\ntick B\ntick C\n", 3, 5),
];

fn schedules_have_items<R: Abort>(rt: &R, alloc: Global, tree: &Tree) -> Result<(), ScheduleFault> {
    for (bytes, want) in SCHEDULES {
        let items = read_schedule(alloc, tree, bytes)?;
        assert_eq!(rt; items.as_slice(), want, "{bytes:?}");
    }
    Ok(())
}

/// Returns the line and the number of a schedule's fault.
fn fault_of(alloc: Global, tree: &Tree, bytes: &[u8]) -> Option<ScheduleFault> {
    match read_schedule(alloc, tree, bytes) {
        Ok(_) => None,
        Err(fault) => Some(fault),
    }
}

fn schedules_have_faults<R: Abort>(rt: &R, alloc: Global, tree: &Tree) {
    for (bytes, line, code) in FAULTY {
        assert_eq!(rt;
            fault_of(alloc, tree, bytes),
            Some(ScheduleFault::Line(line, code)),
            "{bytes:?}"
        );
    }
}

fn schedules_are_too_long<R: Abort>(rt: &R, alloc: Global, tree: &Tree) -> Result<(), AllocError> {
    let mut bytes = vec![in alloc; b'\n'; 262_144]?;
    assert_eq!(rt; fault_of(alloc, tree, bytes.as_slice()), None);
    bytes.push(b'\n')?;
    assert_eq!(rt;
        fault_of(alloc, tree, bytes.as_slice()),
        Some(ScheduleFault::Line(0, 11))
    );
    Ok(())
}

fn schedules_are_read<R: Abort>(rt: &R, alloc: Global, tree: &Tree) -> Result<(), Fail> {
    schedules_have_items(rt, alloc, tree)?;
    schedules_have_faults(rt, alloc, tree);
    schedules_are_too_long(rt, alloc, tree)?;
    Ok(())
}

#[test]
fn schedules(rt: HostRuntime) -> Result<(), Fail> {
    let tree = Tree::read(rt.alloc(), WORKED)?;
    let tried = schedules_are_read(&rt, rt.alloc(), &tree);
    drop(tree);
    Ok(tried?)
}

const PICKED: [(u32, Item); 10] = [
    (31, Item::Restart(2)),
    (11, Item::Do(Deed::Report(1, 1))),
    (8_203, Item::Do(Deed::Report(1, 2))),
    (24, Item::Do(Deed::Deliver(2))),
    (65_528, Item::Do(Deed::Deliver(4096))),
    (65_544, Item::Do(Deed::Deliver(1))),
    (0, Item::Do(Deed::Recent(0))),
    (247, Item::Do(Deed::Recent(15))),
    (9, Item::Do(Deed::Tick(1))),
    (26, Item::Do(Deed::Tick(2))),
];

/// What operators order.
const PICKED_ORDERS: [(u32, u16, Order); 8] = [
    (529_436, 2, Order::Do(2, 2)),
    (12, 1, Order::Take(1)),
    (4_637, 2, Order::Drop(2)),
    (1_550, 1, Order::Do(1, 1)),
    (526_348, 1, Order::Include(1, 2)),
    (2_572, 1, Order::Exclude(1, 1)),
    (3_084, 1, Order::Ask(1)),
    (3_596, 1, Order::Watch(1)),
];

fn words_pick_items<R: Abort>(rt: &R, tree: &Tree) {
    for (word, item) in PICKED {
        assert_eq!(rt; item_of(tree, word), item, "{word}");
    }
    for (word, operator, order) in PICKED_ORDERS {
        assert_eq!(rt;
            item_of(tree, word),
            Item::Do(Deed::Order(operator, order)),
            "{word}"
        );
    }
}

/// The items of the words of seed 1, which were worked out by hand from the generator's definition: 0x33a70be6,
/// 0x7dbcf3ee, 0xcadf4751, 0x11ac71c0, 0xf8ffee3b, 0x291f2ee8.
const FIRST: [Item; 6] = [
    Item::Do(Deed::Recent(14)),
    Item::Do(Deed::Order(1, Order::Drop(2))),
    Item::Do(Deed::Recent(5)),
    Item::Do(Deed::Recent(12)),
    Item::Do(Deed::Report(1, 4)),
    Item::Do(Deed::Deliver(751)),
];

fn a_drawer_draws_items<R: Abort>(rt: &R, tree: &Tree) {
    let mut drawer = Drawer::new(1);
    for item in FIRST {
        assert_eq!(rt; drawer.draw(tree), item);
    }
}

fn schedules_are_drawn<R: Abort>(rt: &R, alloc: Global, tree: &Tree) -> Result<(), AllocError> {
    let first = draw_schedule(alloc, tree, 1, 6)?;
    assert_eq!(rt; first.as_slice(), FIRST.as_slice());
    let many = draw_schedule(alloc, tree, 1, 1000)?;
    assert_eq!(rt; many.len(), 1000);
    Ok(())
}

#[test]
fn drawn(rt: HostRuntime) -> Result<(), Fail> {
    let tree = Tree::read(rt.alloc(), WORKED)?;
    words_pick_items(&rt, &tree);
    a_drawer_draws_items(&rt, &tree);
    let drawn = schedules_are_drawn(&rt, rt.alloc(), &tree);
    drop(tree);
    Ok(drawn?)
}
