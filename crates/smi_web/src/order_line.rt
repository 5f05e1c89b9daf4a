//! Tests whether the body of a page's POST is an order, and splits it into the order and the name of who gives it.
//! `order_relay.rt` and `relayed_order.rt` call it. docs/FORMATS.md, "Orders from the page", fixes the line. Whatever
//! it accepts is sent to a node's console, so it must accept no second line and nothing else that a console would do.

ghost use Rattle.std.specs.Prelude.{◌≡◌, ◌≤◌, ◌<◌, length, IfSome, option_map};
ghost use Rattle.std.specs.List.{list_all};
ghost use Rattle.smi_web.specs.OrderLine as spec;

use smi_history::{is_all_plain, rest_of};
use smi_protocol::{Deed, Item};
use smi_schedule::read_item;
use smi_tree::{Fault, Tree};

/// The most digits of the number in `withdraw N`. It has to be no more than the sixteen bytes that a tag has at the
/// console (`MOST` in `crates/smi_session/src/tag.rt`).
const MOST_DIGITS: usize = 16;

/// The most bytes of the name of who gives an order (docs/FORMATS.md, "Orders from the page").
const MOST_IN_A_NAME: usize = 32;

/// Returns true if a byte is a decimal digit.
fn is_digit(byte: u8) -> bool
    ensures { result ≡ spec.is_digit byte }
{
    b'0' <= byte && byte <= b'9'
}

/// Returns true if an item of a schedule is an operator's order.
fn is_order(item: Result<Option<Item>, Fault>) -> bool
    ensures { result ≡ spec.is_order item }
{
    matches!(item, Ok(Some(Item::Do(Deed::Order(_, _)))))
}

/// Returns true if all bytes of a text are decimal digits.
fn is_all_digits(text: &[u8]) -> bool
    ensures { result ≡ list_all spec.is_digit text.now }
{
    text.iter().all(|byte| is_digit(*byte))
}

/// Returns true if a text is the number of an order: one to sixteen digits.
fn is_number(text: &[u8]) -> bool
    ensures { result ≡ spec.is_number text.now }
{
    1 <= text.len() && text.len() <= MOST_DIGITS && is_all_digits(text)
}

/// Returns true if a line withdraws an order: `withdraw N`, where N is the number in the order's tag.
fn is_withdrawal(line: &[u8]) -> bool
    ensures { result ≡ spec.is_withdrawal line.now }
{
    match rest_of(b"withdraw ", line) {
        Some(number) => is_number(number),
        None => false,
    }
}

/// Returns the index of the first `#` of a text.
fn mark_in(text: &[u8]) -> Option<usize>
    ensures place { result ≡ spec.mark_in text.now }
    ensures within { IfSome result (λ i. i < length text.now) }
{
    text.iter().position(|byte| *byte == b'#')
}

/// Returns the order in a line, without ` # NAME`.
pub(crate) fn order_in(line: &[u8]) -> &[u8]
    ensures order { result.now ≡ spec.order_in line.now }
    ensures within { length result.now ≤ length line.now }
{
    match mark_in(line) {
        // The byte before the `#` goes too: `name_in` tests that it is a space.
        Some(place) => &line[..place.saturating_sub(1)],
        None => line,
    }
}

/// Returns NAME of a line that ends with ` # NAME`. None if the line has no ` # ` there.
pub(crate) fn name_in(line: &[u8]) -> Option<&[u8]>
    ensures { option_map (λ name. name.now) result ≡ spec.name_in line.now }
{
    let behind = &line[order_in(line).len()..];
    rest_of(b" # ", behind)
}

/// Returns true if a text is a name: 1 to 32 bytes without `#`. `is_order_line` tests that they are plain.
fn is_name(text: &[u8]) -> bool
    ensures { result ≡ spec.is_name text.now }
{
    1 <= text.len() && text.len() <= MOST_IN_A_NAME && mark_in(text).is_none()
}

/// Returns true if what follows the order in a line is ` # ` and a name, or nothing.
fn ends_well(line: &[u8]) -> bool
    ensures { result ≡ spec.ends_well line.now }
{
    match name_in(line) {
        Some(name) => is_name(name),
        None => mark_in(line).is_none(),
    }
}

/// Returns true if a text is an order of an operator of the tree, as a node's console takes it, or `withdraw N`.
fn is_order_alone(tree: &Tree, order: &[u8]) -> bool
    ensures { result ≡ spec.is_order_alone tree.now order.now }
{
    is_withdrawal(order) || is_order(read_item(tree, order))
}

/// Returns true if a line may be given by a page: an order of an operator of the tree, as a node's console takes it, or
/// `withdraw N`. After either may come ` # NAME`. The line is one line of plain text.
pub fn is_order_line(tree: &Tree, line: &[u8]) -> bool
    ensures { result ≡ spec.is_order_line tree.now line.now }
{
    is_all_plain(line) && ends_well(line) && is_order_alone(tree, order_in(line))
}
