// The test of the references: each that is not NULL names a stored row.
ghost use Rattle.std.specs.Prelude.{◌≡◌, length};
ghost use Rattle.values.specs.Meaning.{text_bytes, Packed, meaning, Proper};
ghost use Rattle.rules.specs.Profile.{row_width};
ghost use Rattle.rules.specs.State.{has_row};
ghost use Rattle.rules.specs.Layout.{read_table, read_row, parse};
ghost use Rattle.rules.specs.Sound as Sound;
ghost use Rattle.rules.specs.Sound.{every, every_cell, references_held};
ghost use Rattle.sound.specs.Tested.{cells_in, Tabled};
ghost use Rattle.laid.specs.Column.{column_of, ProperColumn};
ghost use Rattle.laid.specs.Catalog.{TableBytes};

use super::row_test;
use areas::search;
use laid::catalog::Column;
use laid::{catalog, layout, row};
use rules::profile::Profile;
use values::value::{Text, Value};
use values::{cell, value};

// Whether a table has a row with this key.
#[tactic(auto, using(crate::proofs::Walks::searching))]
fn has_row(s: &[u8], p: Profile, places: usize, name: Text, key: Value) -> bool
    requires { Tabled p places s.now × Packed name × Proper key }
    ensures { result ≡ has_row (parse p places s.now).rows (text_bytes name) (meaning key) }
{
    let Some(rec) = row_test::table_of(s, p, places, name) else {
        return false;
    };
    let at = row_test::key_at(rec, p);
    let count = layout::row_count(s);
    let rows = &s[layout::rows_at(p)..];
    let i = search::keyed_before(rows, count, layout::row_width(p), name, at, key);
    i < count && search::compare_keyed(layout::row_record(s, p, places, i), name, at, key).is_eq()
}

// Whether a column's reference that is not NULL names a stored row.
fn is_held(s: &[u8], p: Profile, places: usize, c: Column, v: Value) -> bool
    requires { Tabled p places s.now × ProperColumn c × Proper v }
    ensures { result ≡ Sound.held (parse p places s.now).rows (column_of c).reference (meaning v) }
{
    let Some(target) = c.reference else {
        return true;
    };
    value::is_null(v) || has_row(s, p, places, target, v)
}

// Whether each of a row's references that is not NULL names a stored row.
#[tactic(auto, using(crate::proofs::Walks::cells))]
fn are_held(s: &[u8], p: Profile, places: usize, row: &[u8], rec: &[u8]) -> bool
    requires { Tabled p places s.now × TableBytes p rec.now × (length row.now ≡ row_width p) }
    ensures { result ≡ every_cell (λ i c v. Sound.held (parse p places s.now).rows c.reference v) 0 (read_table p rec.now).columns (cells_in (length (read_table p rec.now).columns) row.now) }
{
    for i in 0..catalog::column_count(rec) {
        let c = catalog::read_column(rec, p, i);
        if !is_held(s, p, places, c, row::cell_in(row, p, i).value) {
            return false;
        }
    }
    true
}

// The same of a row, with its table.
#[tactic(auto, using(crate::proofs::Walks::key))]
fn is_linked(s: &[u8], p: Profile, places: usize, row: &[u8]) -> bool
    requires { Tabled p places s.now × (length row.now ≡ row_width p) }
    ensures { result ≡ references_held (parse p places s.now).tables (parse p places s.now).rows (read_row p (parse p places s.now).tables row.now) }
{
    let Some(rec) = row_test::table_of(s, p, places, cell::read_name(row)) else {
        return false;
    };
    are_held(s, p, places, row, rec)
}

// Whether every row's references that are not NULL name stored rows.
#[tactic(auto, using(crate::proofs::Walks::walk))]
pub fn are_linked(s: &[u8], p: Profile, places: usize) -> bool
    requires { Tabled p places s.now }
    ensures { result ≡ every (references_held (parse p places s.now).tables (parse p places s.now).rows) (parse p places s.now).rows }
{
    for i in 0..layout::row_count(s) {
        if !is_linked(s, p, places, layout::row_record(s, p, places, i)) {
            return false;
        }
    }
    true
}
