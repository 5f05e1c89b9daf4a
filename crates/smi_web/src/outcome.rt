//! Finds the code with which an order ended in the console's answer, and says in words what it means, for the page of a
//! screen. `orders_json.rt` calls it. docs/NUMBERS.md, "How an order ends", fixes the codes, and begins each meaning
//! with these words; `tools/lunskaf.py` says them too.

ghost use Rattle.std.specs.Prelude.{◌≡◌};
ghost use Rattle.smi_web.specs.Outcome as spec;

use smi_history::rest_of;
use smi_tree::number_within;

/// The most that a code is: codes have two digits at most.
const MOST_CODE: u64 = 99;

/// Returns the code with which an order was answered. To the line `order ANN take DCS` the answer `told ANN take DCS 0`
/// has code 0. None if anything else was answered, as a record to an `ask`, or if the line is `withdraw N`.
pub fn code_of(line: &[u8], answer: &[u8]) -> Option<u64>
    ensures { result ≡ spec.code_of line.now answer.now }
{
    let order = rest_of(b"order ", line)?;
    let told = rest_of(b"told ", answer)?;
    let code = rest_of(b" ", rest_of(order, told)?)?;
    number_within(0, MOST_CODE, code)
}

/// Returns what a code means, in words (docs/NUMBERS.md, "How an order ends").
pub fn words_of(code: u64) -> &'static [u8]
    ensures { result.now ≡ spec.words_of code }
{
    match code {
        0 => b"done",
        1 => b"a domain on the way does not accept the action",
        2 => b"the target is not below the domain",
        3 => b"the child is held and in that mode already",
        4 => b"the child is not held",
        5 => b"another one holds the domain",
        6 => b"a child on the way is not held or is manual",
        7 => b"a million commands were given to a child under one grant",
        8 => b"ended, and how was not seen",
        9 => b"the domain's epochs are used up",
        21 => b"the operator does not hold the domain",
        22 => b"a command on the domain is not answered yet",
        23 => b"the operator holds the domain already, or takes it or gives it back",
        24 => b"a million commands were given under this grant",
        25 => b"the operator holds or waits for sixteen domains",
        26 => b"nothing of that name is there",
        31 => b"the store did not save it",
        32 => b"the station has stopped",
        33 => b"the node is out of memory",
        _ => b"unknown",
    }
}
