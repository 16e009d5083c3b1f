// What is wrong with a row against the store, part by part (schema.rs: `validate_row`): 28 to 31, 34, 33.
ghost use Rattle.std.specs.Prelude.{◌≡◌, true, ◌&&◌, ◌+◌, ◌≤◌, ◌<◌, length};
ghost use Rattle.values.specs.Cell.{name_width, cell_width};
ghost use Rattle.values.specs.Value.{same};
ghost use Rattle.values.specs.Meaning.{text_bytes, Packed, meaning, Proper};
ghost use Rattle.rules.specs.State.{same_name, has_row, key_of};
ghost use Rattle.rules.specs.Layout.{parse};
ghost use Rattle.rules.specs.Rows.{missing, taken, exists, cell_fault, cells_fault};
ghost use Rattle.laid.specs.Store.{LaidStore};
ghost use Rattle.laid.specs.Column.{column_of, ProperColumn};
ghost use Rattle.checks.specs.Faults.{broken_rule};
ghost use Rattle.laid.specs.Row.{cells_of, table_in, KeyColumn, FullRow};
ghost use Rattle.laid.specs.Entered.{entries_in};
ghost use Rattle.checks.specs.Asked.{table_with, indexed_at, UniqueIndexed, bytes_of_value, other_at, kind_fault, place_fault};

use areas::search;
use laid::catalog::Column;
use laid::{catalog, entry, layout, row};
use rules::answer::Refusal;
use rules::profile::Profile;
use values::value::{Cell, Text, Value};
use values::{cell, value};

// Whether two values are equal.
pub fn is_same(v: Value, w: Value) -> bool
    requires { Proper v × Proper w }
    ensures { result ≡ same (meaning v) (meaning w) }
{
    value::compare(v, w).is_eq()
}

// Whether a reference to a table is to the row itself.
fn is_itself(target: Text, name: Text, v: Value, key: Value) -> bool
    requires { Packed target × Packed name × Proper v × Proper key }
    ensures { result ≡ (same_name (text_bytes target) (text_bytes name) && same (meaning v) (meaning key)) }
{
    value::compare_texts(target, name).is_eq() && is_same(v, key)
}

// Whether a row of the table has the key.
pub fn is_stored(s: &[u8], p: Profile, places: usize, name: Text, at: usize, key: Value) -> bool
    requires { LaidStore p places s.now × KeyColumn p places s.now (text_bytes name) at × Packed name × Proper key }
    ensures { result ≡ has_row (parse p places s.now).rows (text_bytes name) (meaning key) }
{
    row::find_row(s, p, places, name, at, key).is_some()
}

// 30: whether the row that a value refers to is missing. NULL passes, and the row's own key in its own table.
fn is_missing(
    s: &[u8],
    p: Profile,
    places: usize,
    name: Text,
    key: Value,
    c: Column,
    v: Value,
) -> bool
    requires { LaidStore p places s.now × Packed name × Proper key × ProperColumn c × Proper v }
    ensures { result ≡ missing (parse p places s.now).rows (table_with (text_bytes name) 0) (meaning key) (column_of c).reference (meaning v) }
{
    let Some(target) = c.reference else {
        return false;
    };
    if value::is_null(v) || is_itself(target, name, v, key) {
        return false;
    }
    let Some(i) = catalog::get_table(s, p, places, target) else {
        return true;
    };
    let column = catalog::key_column(layout::table_record(s, p, places, i));
    !is_stored(s, p, places, target, column, v)
}

// Whether an index entry's record is of this table, column and value.
#[tactic(auto, using(crate::proofs::Checking::record_parts))]
pub fn is_of(rec: &[u8], name: Text, column: u8, v: Value) -> bool
    requires { (name_width + 1 + cell_width ≤ length rec.now) × Packed name × Proper v }
    ensures { result ≡ bytes_of_value rec.now (text_bytes name) column (meaning v) }
{
    search::compare_named(rec, name).is_eq()
        && rec[search::ENTRY_COLUMN] == column
        && is_same(cell::read_cell(&rec[search::ENTRY_VALUE..]).value, v)
}

// Whether the index entry at place i is of this table, column and value, and of another row than `key`'s.
fn is_other(
    s: &[u8],
    p: Profile,
    places: usize,
    i: usize,
    name: Text,
    column: u8,
    v: Value,
    update: bool,
    key: Value,
) -> bool
    requires { LaidStore p places s.now × Packed name × Proper v × Proper key }
    ensures { result ≡ other_at (entries_in p places s.now) i (text_bytes name) column (meaning v) update (meaning key) }
{
    if layout::entry_count(s) <= i {
        return false;
    }
    let rec = layout::entry_record(s, p, places, i);
    is_of(rec, name, column, v)
        && !(update && is_same(cell::read_cell(&rec[search::ENTRY_KEY..]).value, key))
}

// Whether another row has the value; an update ignores its own row, so two entries decide.
pub fn is_taken(
    s: &[u8],
    p: Profile,
    places: usize,
    name: Text,
    column: u8,
    v: Value,
    update: bool,
    key: Value,
) -> bool
    requires laid_store { LaidStore p places s.now × Packed name × Proper v × Proper key }
    requires column_value { indexed_at (parse p places s.now).tables (text_bytes name) column ≡ true }
    ensures { result ≡ taken (parse p places s.now).rows (table_with (text_bytes name) 0) update (meaning key) column (meaning v) }
{
    let i = entry::entry_rank(s, p, places, name, column, v, Value::Null);
    is_other(s, p, places, i, name, column, v, update, key)
        || is_other(s, p, places, i + 1, name, column, v, update, key)
}

// 31: whether another row has the value of a unique column.
fn is_repeated(
    s: &[u8],
    p: Profile,
    places: usize,
    name: Text,
    at: usize,
    key: Value,
    c: Column,
    v: Value,
    column: usize,
    update: bool,
) -> bool
    requires laid_store { LaidStore p places s.now × Packed name × Proper key × Proper v × (column < 256) }
    requires unique_indexed { UniqueIndexed (parse p places s.now).tables (text_bytes name) at column c.unique }
    ensures { result ≡ exists (parse p places s.now).rows (table_with (text_bytes name) at) update (meaning key) column (column_of c) (meaning v) }
{
    c.unique
        && column != at
        && !value::is_undefined(v)
        && is_taken(s, p, places, name, column as u8, v, update, key)
}

// 28, 29.
#[tactic(auto, unfolding(crate::specs::Asked::kind_fault, rules::specs::Schema::first))]
fn kind_fault(c: Column, v: Value) -> Result<(), Refusal>
    ensures { broken_rule result ≡ kind_fault (column_of c) (meaning v) }
{
    if value::is_null(v) {
        if !c.nullable {
            return Err(Refusal::NullNotAllowed);
        }
    } else if value::datatype(v) != c.kind {
        return Err(Refusal::WrongKind);
    }
    Ok(())
}

// 28 to 31 of one cell.
#[tactic(auto, using(crate::proofs::Checking::missing_named), unfolding(crate::specs::Asked::kind_fault, rules::specs::Rows::cell_fault, rules::specs::Schema::first))]
fn cell_fault(
    s: &[u8],
    p: Profile,
    places: usize,
    name: Text,
    at: usize,
    key: Value,
    c: Column,
    v: Value,
    column: usize,
    update: bool,
) -> Result<(), Refusal>
    requires laid_store { LaidStore p places s.now × Packed name × Proper key × ProperColumn c × Proper v × (column < 256) }
    requires unique_indexed { UniqueIndexed (parse p places s.now).tables (text_bytes name) at column c.unique }
    ensures { broken_rule result ≡ cell_fault (parse p places s.now).rows (table_with (text_bytes name) at) update (meaning key) column (column_of c) (meaning v) }
{
    kind_fault(c, v)?;
    if is_missing(s, p, places, name, key, c, v) {
        return Err(Refusal::TargetMissing);
    }
    if is_repeated(s, p, places, name, at, key, c, v, column, update) {
        return Err(Refusal::ValueExists);
    }
    Ok(())
}

// 28 to 31 of each column in turn.
pub fn cells_fault(
    s: &[u8],
    p: Profile,
    places: usize,
    t: usize,
    row: &[Cell],
    update: bool,
) -> Result<(), Refusal>
    requires { LaidStore p places s.now × FullRow p places s.now t row.now }
    ensures { broken_rule result ≡ cells_fault (parse p places s.now).rows (table_in p places s.now t) update (key_of (table_in p places s.now t) (cells_of row.now)) 0 (table_in p places s.now t).columns (cells_of row.now) }
{
    let rec = layout::table_record(s, p, places, t);
    let name = cell::read_name(rec);
    let at = catalog::key_column(rec);
    let key = row[at].value;
    for j in 0..catalog::column_count(rec) {
        let c = catalog::read_column(rec, p, j);
        cell_fault(s, p, places, name, at, key, c, row[j].value, j, update)?;
    }
    Ok(())
}

// 34, 33: whether the row is there, or has a place.
#[tactic(auto, unfolding(crate::specs::Asked::place_fault, rules::specs::Schema::first))]
pub fn place_fault(
    s: &[u8],
    p: Profile,
    places: usize,
    stored: bool,
    update: bool,
) -> Result<(), Refusal>
    requires { LaidStore p places s.now }
    ensures { broken_rule result ≡ place_fault places (parse p places s.now).rows stored update }
{
    if update {
        if !stored {
            return Err(Refusal::RowAbsent);
        }
    } else if places <= layout::row_count(s) {
        return Err(Refusal::RowsFull);
    }
    Ok(())
}
