// Delete's reference test (local.rs: the nested iterators of `delete`): the first table by name, column and row by key that refers to one of the keys.
ghost use Rattle.std.specs.Prelude.{◌≡◌, ◌&&◌, ◌<◌, length, IfSome};
ghost use Rattle.values.specs.Basic.{any};
ghost use Rattle.values.specs.Meaning.{text_bytes, Packed, meaning, Proper};
ghost use Rattle.rules.specs.Request.{ProperCarried};
ghost use Rattle.rules.specs.Layout.{parse};
ghost use Rattle.rules.specs.Rows.{refers_to, row_referenced};
ghost use Rattle.laid.specs.Store.{LaidStore};
ghost use Rattle.laid.specs.Column.{column_of, ProperColumn};
ghost use Rattle.laid.specs.Row.{row_in, table_in, column_in, RowOf};
ghost use Rattle.checks.specs.Keys.{values_of};
ghost use Rattle.walks.specs.Referring.{shown, counts, referrer_of};

use super::walk;
use checks::keys::Values;
use checks::{keys, row_fault};
use laid::catalog::Column;
use laid::{catalog, layout, row};
use rules::answer::Carried;
use rules::profile::Profile;
use values::value::{Text, Value};
use values::{cell, value};

// Whether a search shows a row of the table at place t with the value in column j; true where none can tell.
fn is_shown(s: &[u8], p: Profile, places: usize, t: usize, j: usize, v: Value) -> bool
    requires { LaidStore p places s.now × (t < length (parse p places s.now).tables) × (j < length (table_in p places s.now t).columns) × Proper v }
    ensures { result ≡ shown (parse p places s.now).rows (table_in p places s.now t) j (column_in p places s.now t j) (meaning v) }
{
    let rec = layout::table_record(s, p, places, t);
    let name = cell::read_name(rec);
    if catalog::read_column(rec, p, j).index {
        return row_fault::is_taken(s, p, places, name, j as u8, v, false, Value::Null);
    }
    if j == catalog::key_column(rec) {
        return row_fault::is_stored(s, p, places, name, j, v);
    }
    true
}

// The same for any of the values.
fn is_any_shown(s: &[u8], p: Profile, places: usize, t: usize, j: usize, values: Values<'_>) -> bool
    requires { LaidStore p places s.now × (t < length (parse p places s.now).tables) × (j < length (table_in p places s.now t).columns) }
    ensures { result ≡ any (shown (parse p places s.now).rows (table_in p places s.now t) j (column_in p places s.now t j)) (values_of values.entry) }
{
    for cell in values {
        if is_shown(s, p, places, t, j, cell.value) {
            return true;
        }
    }
    false
}

// Whether a column refers to the table `name`.
fn refers_to(c: Column, name: Text) -> bool
    requires { ProperColumn c × Packed name }
    ensures { result ≡ refers_to (text_bytes name) (column_of c) }
{
    match c.reference {
        Some(to) => value::compare_texts(name, to).is_eq(),
        None => false,
    }
}

// Whether column j of the table at place t refers to `name` and a search shows one of the keys in it.
fn is_searched(
    s: &[u8],
    p: Profile,
    places: usize,
    t: usize,
    j: usize,
    name: Text,
    values: Values<'_>,
) -> bool
    requires { LaidStore p places s.now × (t < length (parse p places s.now).tables) × (j < length (table_in p places s.now t).columns) × Packed name }
    ensures { result ≡ (refers_to (text_bytes name) (column_in p places s.now t j) && any (shown (parse p places s.now).rows (table_in p places s.now t) j (column_in p places s.now t j)) (values_of values.entry)) }
{
    let c = catalog::read_column(layout::table_record(s, p, places, t), p, j);
    refers_to(c, name) && is_any_shown(s, p, places, t, j, values)
}

// Whether the row at place k of the table at place t holds one of the keys in column j, and, in the keys' own table, is not itself being deleted.
fn is_referring(
    s: &[u8],
    p: Profile,
    places: usize,
    t: usize,
    k: usize,
    j: usize,
    own: bool,
    values: Values<'_>,
) -> bool
    requires { LaidStore p places s.now × RowOf p places s.now t k × (j < length (table_in p places s.now t).columns) }
    ensures { result ≡ counts (values_of values.entry) j own (row_in p places s.now k) }
{
    let v = row::cell_at(s, p, places, k, j).value;
    if !keys::is_among(values, v) {
        return false;
    }
    if !own {
        return true;
    }
    let column = catalog::key_column(layout::table_record(s, p, places, t));
    !keys::is_among(values, row::cell_at(s, p, places, k, column).value)
}

// 32: tables by name, columns rising, smallest key. A column is passed over where a search shows none of the keys.
pub fn row_references(
    s: &[u8],
    p: Profile,
    places: usize,
    name: Text,
    values: Values<'_>,
) -> Option<Carried>
    requires { LaidStore p places s.now × Packed name }
    ensures { (referrer_of result ≡ row_referenced (parse p places s.now).rows (text_bytes name) (values_of values.entry) (parse p places s.now).tables) × IfSome result ProperCarried }
{
    'search: {
        for t in 0..layout::table_count(s) {
            let rec = layout::table_record(s, p, places, t);
            let table = cell::read_name(rec);
            let own = value::compare_texts(table, name).is_eq();
            for j in 0..catalog::column_count(rec) {
                if is_searched(s, p, places, t, j, name, values) {
                    let rows = walk::scan(s, p, places, table);
                    for k in rows.from..rows.to {
                        if is_referring(s, p, places, t, k, j, own, values) {
                            let column = catalog::key_column(rec);
                            let key = row::cell_at(s, p, places, k, column).value;
                            break 'search Some(Carried { table, column, key });
                        }
                    }
                }
            }
        }
        None
    }
}
