//! The rows of the table as saved rows.

ghost use Rattle.std.specs.Prelude.{◌≡◌, ℕ, IfOk, pos, List};
ghost use Rattle.sqlite.specs.declared.types.Value.TheVariants.{Int};
ghost use Rattle.sqlite.specs.Order.{column};
ghost use Rattle.smi_rows.specs.declared.key.Key.{Key};
ghost use Rattle.smi_stable.specs.SqlListing.{listed_at};
ghost use Rattle.smi_stable.specs.SqlShown.{IsShownAs};
ghost use Rattle.smi_rows.specs.Store.{found_in};

use crate::statement::fault_of;
use smi_rows::{Key, SavedRow, StoreFault};
use sqlite::Row;

/// The number in a column, if it is one that a key can have.
fn number_at(row: &Row, at: usize) -> Result<u16, StoreFault>
    ensures { IfOk result (λ n. column row.now at ≡ Int (pos n)) }
{
    let number: i64 = match row.get(at) {
        Ok(number) => number,
        Err(error) => return Err(fault_of(error)),
    };
    if 0 <= number && number <= 65535 {
        Ok(number as u16)
    } else {
        Err(StoreFault::Unsure)
    }
}

/// The key and the bytes of a row.
fn saved_row(row: &Row) -> Result<SavedRow, StoreFault>
    ensures { IfOk result (IsShownAs row.now) }
{
    let station = number_at(row, 0)?;
    let domain = number_at(row, 1)?;
    let operator = number_at(row, 2)?;
    let bytes: Vec<u8> = match row.get(3) {
        Ok(bytes) => bytes,
        Err(error) => return Err(fault_of(error)),
    };
    Ok(SavedRow {
        key: Key {
            station,
            domain,
            operator,
        },
        bytes,
    })
}

/// The saved rows, each key with the bytes that the table has under it.
pub(crate) fn saved_rows(rows: &Vec<Row>) -> Result<Vec<SavedRow>, StoreFault>
    ensures { IfOk result (λ list. (k : Key) → found_in list.items k
        ≡ listed_at (pos k.station) (pos k.domain) (pos k.operator) rows.now.items) }
{
    let mut list = Vec::new(*rows.allocator());
    for row in rows {
        let saved = saved_row(row)?;
        match list.push(saved) {
            Ok(()) => {}
            Err(_) => return Err(StoreFault::Memory),
        }
    }
    Ok(list)
}
