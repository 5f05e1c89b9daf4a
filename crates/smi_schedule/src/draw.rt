//! Drawn schedules: one item for each word of a generator.

ghost use Rattle.std.specs.Prelude.{◌≡◌, ◌≤◌, IfOk};
ghost use Rattle.smi_schedule.specs.Drawn as spec;

use rand_core::SeedableRng;
use rand_core::utils::NextWord;
use rand_pcg::Lcg64Xsh32;
use smi_protocol::{Deed, Item, Order};
use smi_tree::Tree;
use std::alloc::{AllocError, Global};
use std::marker::Model;

/// Returns the number from 1 to `count` that a part of a word picks.
fn pick(part: u32, count: u16) -> u16
    requires { 1 ≤ count }
    ensures { result ≡ spec.pick part count }
{
    1 + (part % u32::from(count)) as u16
}

/// Returns the order that a word picks.
fn order_of(tree: &Tree, word: u32) -> Order
    ensures { result ≡ spec.order_of tree.now word }
{
    let domain = pick(word / 4096, tree.domain_count());
    let action = pick(word / 524_288, tree.action_count());
    let target = pick(word / 524_288, tree.domain_count());
    match word / 512 % 8 {
        0 => Order::Take(domain),
        1 => Order::Drop(domain),
        2 | 3 => Order::Do(domain, action),
        4 => Order::Include(domain, target),
        5 => Order::Exclude(domain, target),
        6 => Order::Ask(domain),
        _ => Order::Watch(domain),
    }
}

/// Returns the report that a word picks, a tick if the tree has no devices.
fn report_of(tree: &Tree, word: u32) -> Deed
    ensures { result ≡ spec.report_of tree.now word }
{
    if tree.device_count() == 0 {
        return Deed::Tick(1);
    }
    let device = pick(word / 16, tree.device_count());
    let state = pick(word / 8192, tree.state_count());
    Deed::Report(device, state)
}

/// Returns the item that a word picks.
///
/// The last four bits say what happens, and the others which datagram, station, operator, device or order
/// (docs/FORMATS.md, "Drawn schedules"). It takes no memory.
pub fn item_of(tree: &Tree, word: u32) -> Item
    ensures { result ≡ spec.item_of tree.now word }
{
    let rest = word / 16;
    match word % 16 {
        0..=7 => Item::Do(Deed::Recent(u64::from(rest % 16))),
        8 => Item::Do(Deed::Deliver(1 + u64::from(rest % 4096))),
        9 | 10 => Item::Do(Deed::Tick(pick(rest, tree.station_count()))),
        11 => Item::Do(report_of(tree, word)),
        12..=14 => {
            let operator = pick(rest, tree.operator_count());
            Item::Do(Deed::Order(operator, order_of(tree, word)))
        }
        _ => Item::Restart(pick(rest, tree.station_count())),
    }
}

/// Draws items one after the other, the same ones for the same seed and tree.
#[derive(Drop)]
pub struct Drawer {
    words: Lcg64Xsh32,
}

impl Model for Drawer {
    ghost use Rattle.rand_pcg.specs.Lcg.{Lcg};

    ghost Value = { Lcg };

    ghost view = { λ d. d.words };
}

impl Drawer {
    ghost use Rattle.std.specs.Prelude.{◌≡◌};
    ghost use Rattle.smi_schedule.specs.Drawn as spec;

    /// Returns a drawer for a seed, any number.
    pub fn new(seed: u64) -> Drawer
        ensures { result ≡ spec.seeded seed }
    {
        Drawer {
            words: Lcg64Xsh32::seed_from_u64(seed),
        }
    }

    /// Draws the next item: it takes one word. It takes no memory.
    pub fn draw(&mut self, tree: &Tree) -> Item
        ensures item { result ≡ spec.item_of tree.now (spec.word_of self.old) }
        ensures after { self.new ≡ spec.word_taken self.old }
    {
        item_of(tree, self.words.next_word())
    }
}

/// Returns the first items that a seed draws, this many. Out of memory is answered only if an allocation was refused,
/// which tests alone see.
pub fn draw_schedule(
    alloc: Global,
    tree: &Tree,
    seed: u64,
    steps: u32,
) -> Result<Vec<Item>, AllocError>
    ensures { IfOk result (λ items. items.items ≡ spec.schedule_drawn tree.now seed steps) }
{
    let mut drawer = Drawer::new(seed);
    let mut items = Vec::new(alloc);
    for _ in 0..steps {
        items.push(drawer.draw(tree))?;
    }
    Ok(items)
}
