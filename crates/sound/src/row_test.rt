// The test of the rows: each is a record that fits its table, and they are sorted by table and key.
ghost use Rattle.std.specs.Prelude.{◌≡◌, true, ◌+◌, ◌*◌, ◌≤◌, ◌<◌, length, drop, MatchOption};
ghost use Rattle.std.proofs.Math.Option.{none};
ghost use Rattle.values.specs.Basic.{is_lt};
ghost use Rattle.values.specs.Meaning.{text_bytes, Packed, meaning};
ghost use Rattle.values.specs.Cell.{is_cell};
ghost use Rattle.areas.specs.Records.{records};
ghost use Rattle.rules.specs.Profile.{row_width};
ghost use Rattle.rules.specs.State.{cmp_row, table_named};
ghost use Rattle.rules.specs.Layout.{lists, read_table, read_row, parse};
ghost use Rattle.rules.specs.Sound.{every, sorted, every_cell};
ghost use Rattle.laid.specs.Store.{Coded};
ghost use Rattle.sound.specs.Tested.{Schemed, Here, fitting, cells_in, fits_table, is_row, rowed};
ghost use Rattle.laid.specs.Column.{column_of};
ghost use Rattle.laid.specs.Catalog.{TableBytes};

use areas::search;
use laid::catalog::Column;
use laid::{catalog, layout, row};
use rules::profile::Profile;
use values::value::{Text, Value};
use values::{bytes, cell, value};

// Whether the first `count` cells of a row's record are cells.
#[tactic(auto, using(crate::proofs::Walks::parts))]
fn are_cells(row: &[u8], p: Profile, count: usize) -> bool
    requires { Coded p × (length row.now ≡ row_width p) × (count ≤ p.columns) }
    ensures { result ≡ every is_cell (records 26 count (drop 25 row.now)) }
{
    for i in 0..count {
        let from = cell::NAME_WIDTH + i * cell::CELL_WIDTH;
        if !cell::is_cell(&row[from..from + cell::CELL_WIDTH]) {
            return false;
        }
    }
    true
}

// The kinds and NULLs of a cell.
fn is_fitting(c: Column, v: Value) -> bool
    ensures { result ≡ fitting 0 (column_of c) (meaning v) }
{
    if value::is_null(v) {
        c.nullable
    } else {
        value::datatype(v) == c.kind
    }
}

// Whether each cell has its column's kind, and NULLs are allowed.
#[tactic(auto, using(crate::proofs::Walks::cells))]
fn are_fitting(row: &[u8], rec: &[u8], p: Profile) -> bool
    requires { TableBytes p rec.now × (length row.now ≡ row_width p) }
    ensures { result ≡ every_cell fitting 0 (read_table p rec.now).columns (cells_in (length (read_table p rec.now).columns) row.now) }
{
    for i in 0..catalog::column_count(rec) {
        let v = row::cell_in(row, p, i).value;
        if !is_fitting(catalog::read_column(rec, p, i), v) {
            return false;
        }
    }
    true
}

// Where the key's cell stands in a row's record of a table.
#[tactic(auto, using(crate::proofs::Walks::key))]
pub fn key_at(rec: &[u8], p: Profile) -> usize
    requires { TableBytes p rec.now × ((read_table p rec.now).key < length (read_table p rec.now).columns) }
    ensures { (result ≡ 25 + (read_table p rec.now).key * 26) × (result + 26 ≤ row_width p) }
{
    cell::NAME_WIDTH + catalog::key_column(rec) * cell::CELL_WIDTH
}

// Whether what follows the name fits the table.
#[tactic(auto, using(crate::proofs::Rowing::fitted), unfolding(rules::specs::Sound::all))]
fn fits_table(row: &[u8], rec: &[u8], p: Profile) -> bool
    requires { TableBytes p rec.now × ((read_table p rec.now).key < length (read_table p rec.now).columns) × (length row.now ≡ row_width p) }
    ensures { result ≡ fits_table (read_table p rec.now) row.now }
{
    let count = catalog::column_count(rec);
    are_cells(row, p, count)
        && bytes::all_zero(&row[cell::NAME_WIDTH + count * cell::CELL_WIDTH..])
        && are_fitting(row, rec, p)
        && !value::is_undefined(cell::read_cell(&row[key_at(rec, p)..]).value)
}

// The record of the table with this name.
pub fn table_of(s: &[u8], p: Profile, places: usize, name: Text) -> Option<&[u8]>
    requires { Schemed p places s.now × Packed name }
    ensures { MatchOption result (table_named (parse p places s.now).tables (text_bytes name) ≡ none) (λ rec. Here p places s.now (text_bytes name) rec.now) }
{
    let i = catalog::get_table(s, p, places, name)?;
    Some(layout::table_record(s, p, places, i))
}

// Whether the bytes are a row's record, and the row fits its table.
#[tactic(auto, using(crate::proofs::Walks::key))]
pub fn is_row(s: &[u8], p: Profile, places: usize, row: &[u8]) -> bool
    requires { Schemed p places s.now × (length row.now ≡ row_width p) }
    ensures { result ≡ is_row p (parse p places s.now).tables row.now }
{
    let Some(rec) = table_of(s, p, places, cell::read_name(row)) else {
        return false;
    };
    cell::is_name_cell(&row[0..cell::NAME_WIDTH]) && fits_table(row, rec, p)
}

// Whether every row is a row's record that fits its table.
#[tactic(auto, using(crate::proofs::Walks::walk))]
pub fn are_rows(s: &[u8], p: Profile, places: usize) -> bool
    requires { Schemed p places s.now }
    ensures { result ≡ every (is_row p (parse p places s.now).tables) (lists p places s.now).rows }
{
    for i in 0..layout::row_count(s) {
        if !is_row(s, p, places, layout::row_record(s, p, places, i)) {
            return false;
        }
    }
    true
}

// Whether a row comes before another by table and key.
#[tactic(auto, using(crate::proofs::Walks::key))]
fn is_row_before(s: &[u8], p: Profile, places: usize, a: &[u8], b: &[u8]) -> bool
    requires { Schemed p places s.now × (length a.now ≡ row_width p) × (length b.now ≡ row_width p) × (is_row p (parse p places s.now).tables b.now ≡ true) }
    ensures { result ≡ is_lt (cmp_row (read_row p (parse p places s.now).tables a.now) (read_row p (parse p places s.now).tables b.now)) }
{
    let name = cell::read_name(b);
    let Some(rec) = table_of(s, p, places, name) else {
        unreachable!();
    };
    let at = key_at(rec, p);
    search::compare_keyed(a, name, at, cell::read_cell(&b[at..]).value).is_lt()
}

// Whether the rows are sorted by table and key.
#[tactic(auto, using(crate::proofs::Walks::rising))]
pub fn are_rows_sorted(s: &[u8], p: Profile, places: usize) -> bool
    requires { Schemed p places s.now × (every (is_row p (parse p places s.now).tables) (lists p places s.now).rows ≡ true) }
    ensures { result ≡ sorted cmp_row (parse p places s.now).rows }
{
    for i in 1..layout::row_count(s) {
        let a = layout::row_record(s, p, places, i - 1);
        let b = layout::row_record(s, p, places, i);
        if !is_row_before(s, p, places, a, b) {
            return false;
        }
    }
    true
}

// Whether the rows are rows' records that fit their tables, sorted by table and key.
#[tactic(auto, unfolding(crate::specs::Tested::rowed, rules::specs::Sound::all))]
pub fn is_rowed(s: &[u8], p: Profile, places: usize) -> bool
    requires { Schemed p places s.now }
    ensures { result ≡ rowed p places s.now }
{
    are_rows(s, p, places) && are_rows_sorted(s, p, places)
}
