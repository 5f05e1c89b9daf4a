//! Whether the schema of a file is that of the stable rows.
ghost use Rattle.std.specs.Prelude.{◌≡◌, ◌↔◌, [], ◌∷◌, IsTrue, None, false};
ghost use Rattle.sqlite_value.specs.Keys.{plain};
ghost use Rattle.smi_stable.specs.SqlTable.{stable_schema, stable_table, stable_columns, key_index, column};
ghost use Rattle.smi_stable.specs.SqlTable.{no_schema};

use sqlite_items::Items;
use sqlite_schema::code::Terms;
use sqlite_schema::schema::{Column, Index, Kind, Schema, Table};
use sqlite_value::keys::{Collation, Order};
use sqlite_value::value::Value;

fn is_bare(terms: &Terms) -> bool
    ensures { IsTrue result ↔ (terms.now ≡ []) }
{
    terms.roots.is_empty()
}

fn is_column(it: &Column, name: &[u8], kind: Kind) -> bool
    ensures { IsTrue result ↔ (it.now ≡ column name.now kind) }
{
    it.name.as_slice() == name
        && it.kind == kind
        && it.is_strict
        && it.not_null
        && matches!(it.default, Value::Null)
        && it.collation == Collation::Binary
}

pub(crate) fn is_empty(schema: &Schema) -> bool
    ensures { IsTrue result ↔ (schema.now ≡ no_schema) }
{
    schema.tables.is_empty() && schema.indexes.is_empty() && schema.views.is_empty()
}

fn is_index(it: &Index) -> bool
    ensures { IsTrue result ↔ (it.now ≡ key_index) }
{
    it.name.as_slice() == b"sqlite_autoindex_stable_rows_1".as_slice()
        && it.tree == 1
        && it.table == 0
        && it.columns.as_slice() == [1, 2, 3].as_slice()
        && it.order.digits == 0
        && it.is_unique
}

fn has_columns(columns: &[Column]) -> bool
    ensures { IsTrue result ↔ (columns.now ≡ stable_columns) }
{
    match columns {
        [station, domain, operator, bytes] => {
            is_column(station, b"station", Kind::Integer)
                && is_column(domain, b"domain", Kind::Integer)
                && is_column(operator, b"operator", Kind::Integer)
                && is_column(bytes, b"bytes", Kind::Blob)
        }
        _ => false,
    }
}

fn is_key(places: &Items<usize>) -> bool
    ensures { IsTrue result ↔ (places.now ≡ 1 ∷ 2 ∷ 3 ∷ []) }
{
    places.as_slice() == [1, 2, 3].as_slice()
}

fn is_one_key(uniques: &[Items<usize>]) -> bool
    ensures { IsTrue result ↔ (uniques.now ≡ (1 ∷ 2 ∷ 3 ∷ []) ∷ []) }
{
    match uniques {
        [only] => is_key(only),
        _ => false,
    }
}

fn is_one_order(orders: &[Order]) -> bool
    ensures { IsTrue result ↔ (orders.now ≡ plain ∷ []) }
{
    match orders {
        [only] => only.digits == 0,
        _ => false,
    }
}

fn has_keys(it: &Table) -> bool
    ensures { IsTrue result ↔ ((it.now.key ≡ None) × (it.now.primary ≡ 1 ∷ 2 ∷ 3 ∷ [])
        × (it.now.uniques ≡ (1 ∷ 2 ∷ 3 ∷ []) ∷ []) × (it.now.orders ≡ plain ∷ [])) }
{
    it.key.is_none()
        && is_key(&it.primary)
        && is_one_key(it.uniques.as_slice())
        && is_one_order(it.orders.as_slice())
}

fn is_plain(it: &Table) -> bool
    ensures { IsTrue result ↔ ((it.now.checks ≡ []) × (it.now.references ≡ []) × (it.now.computed ≡ [])
        × (it.now.stamps.places ≡ []) × (it.now.stamps.terms ≡ []) × (it.now.stamps.formats ≡ [])
        × (it.now.is_counted ≡ false)) }
{
    is_bare(&it.checks)
        && it.references.is_empty()
        && it.computed.is_empty()
        && it.stamps.places.is_empty()
        && is_bare(&it.stamps.terms)
        && it.stamps.formats.is_empty()
        && !it.is_counted
}

fn is_table(it: &Table) -> bool
    ensures { IsTrue result ↔ (it.now ≡ stable_table) }
{
    it.name.as_slice() == b"stable_rows".as_slice()
        && it.tree == 0
        && has_columns(it.columns.as_slice())
        && has_keys(it)
        && is_plain(it)
}

fn is_one_table(tables: &[Table]) -> bool
    ensures { IsTrue result ↔ (tables.now ≡ stable_table ∷ []) }
{
    match tables {
        [only] => is_table(only),
        _ => false,
    }
}

fn is_one_index(indexes: &[Index]) -> bool
    ensures { IsTrue result ↔ (indexes.now ≡ key_index ∷ []) }
{
    match indexes {
        [only] => is_index(only),
        _ => false,
    }
}

pub(crate) fn is_stable(schema: &Schema) -> bool
    ensures { IsTrue result ↔ (schema.now ≡ stable_schema) }
{
    is_one_table(schema.tables.as_slice())
        && is_one_index(schema.indexes.as_slice())
        && schema.views.is_empty()
}
