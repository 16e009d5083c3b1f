// The test of the index: its entries are sorted, those of the rows and no others, and alone where the column is unique.
ghost use Rattle.std.specs.Prelude.{◌≡◌, not, ◌&&◌, cond, ◌≤◌, length};
ghost use Rattle.values.specs.Value.{is_undefined};
ghost use Rattle.values.specs.Basic.{is_lt};
ghost use Rattle.values.specs.Meaning.{text_bytes, Packed, meaning, Proper};
ghost use Rattle.values.specs.Cell.{read_name};
ghost use Rattle.rules.specs.Profile.{row_width, entry_width};
ghost use Rattle.rules.specs.Index.{cmp_entry, entries_of, indexed_count};
ghost use Rattle.rules.specs.Layout.{lists, read_table, read_row, read_entry, parse};
ghost use Rattle.rules.specs.Sound.{every, sorted, every_cell};
ghost use Rattle.laid.specs.Store.{Coded, Inside};
ghost use Rattle.sound.specs.Tested.{Here, cells_in, Tabled, is_entry, entries_wanted, stands, followed, in_group, entered_as, entered_cell, entered_row, Filed, index_tested};
ghost use Rattle.laid.specs.Column.{column_of};
ghost use Rattle.laid.specs.Catalog.{TableBytes};
ghost use Rattle.laid.specs.Entered.{entries_in, entry_of};

use super::row_test;
use areas::search;
use laid::catalog::Column;
use laid::{catalog, layout, row};
use rules::profile::Profile;
use values::value::{Text, Value};
use values::{cell, value};

// Whether the bytes are an index entry's record.
#[tactic(auto, using(crate::proofs::RecordPieces::entry_pieces), unfolding(rules::specs::Profile::entry_width, rules::specs::Sound::all))]
fn is_entry(rec: &[u8], p: Profile) -> bool
    requires { Coded p × (length rec.now ≡ entry_width p) }
    ensures { result ≡ is_entry p rec.now }
{
    cell::is_name_cell(&rec[0..cell::NAME_WIDTH])
        && cell::is_cell(&rec[search::ENTRY_VALUE..search::ENTRY_KEY])
        && cell::is_cell(&rec[search::ENTRY_KEY..search::ENTRY_END])
}

// Whether every index entry is an entry's record.
#[tactic(auto, using(crate::proofs::Walks::walk))]
pub fn are_entries(s: &[u8], p: Profile, places: usize) -> bool
    requires { Inside p places s.now }
    ensures { result ≡ every (is_entry p) (lists p places s.now).entries }
{
    for i in 0..layout::entry_count(s) {
        if !is_entry(layout::entry_record(s, p, places, i), p) {
            return false;
        }
    }
    true
}

// Whether an index entry comes before another.
#[tactic(auto, using(crate::proofs::Asking::entered_order), unfolding(rules::specs::Profile::entry_width))]
fn is_entry_before(a: &[u8], b: &[u8], p: Profile) -> bool
    requires { Coded p × (length a.now ≡ entry_width p) × (length b.now ≡ entry_width p) }
    ensures { result ≡ is_lt (cmp_entry (read_entry p a.now) (read_entry p b.now)) }
{
    let name = cell::read_name(b);
    let v = cell::read_cell(&b[search::ENTRY_VALUE..search::ENTRY_KEY]).value;
    let key = cell::read_cell(&b[search::ENTRY_KEY..search::ENTRY_END]).value;
    search::compare_entered(a, name, b[search::ENTRY_COLUMN], v, key).is_lt()
}

// Whether the index entries are sorted.
#[tactic(auto, using(crate::proofs::Walks::rising))]
pub fn are_entries_sorted(s: &[u8], p: Profile, places: usize) -> bool
    requires { Inside p places s.now }
    ensures { result ≡ sorted cmp_entry (entries_in p places s.now) }
{
    for i in 1..layout::entry_count(s) {
        let a = layout::entry_record(s, p, places, i - 1);
        let b = layout::entry_record(s, p, places, i);
        if !is_entry_before(a, b, p) {
            return false;
        }
    }
    true
}

// How many columns of a table are indexed.
#[tactic(auto, using(crate::proofs::Linking::counted))]
fn indexed_columns(rec: &[u8], p: Profile) -> usize
    requires { TableBytes p rec.now }
    ensures { (result ≡ indexed_count (read_table p rec.now).columns) × (result ≤ 255) }
{
    let mut n = 0;
    for i in 0..catalog::column_count(rec) {
        n += usize::from(catalog::read_column(rec, p, i).index);
    }
    n
}

// How many index entries a row has.
#[tactic(auto, using(crate::proofs::Walks::key))]
fn row_entries(s: &[u8], p: Profile, places: usize, row: &[u8]) -> usize
    requires { Tabled p places s.now × (length row.now ≡ row_width p) }
    ensures { (result ≡ length (entries_of (parse p places s.now).tables (read_row p (parse p places s.now).tables row.now))) × (result ≤ 255) }
{
    let Some(rec) = row_test::table_of(s, p, places, cell::read_name(row)) else {
        return 0;
    };
    indexed_columns(rec, p)
}

// How many index entries the rows have.
#[tactic(auto, using(crate::proofs::Linking::wanted))]
pub fn all_entries(s: &[u8], p: Profile, places: usize) -> usize
    requires { Tabled p places s.now }
    ensures { result ≡ entries_wanted (parse p places s.now).tables (parse p places s.now).rows }
{
    let mut n = 0;
    for i in 0..layout::row_count(s) {
        n += row_entries(s, p, places, layout::row_record(s, p, places, i));
    }
    n
}

// Whether an index entry has this table, column and value.
#[tactic(auto, using(crate::proofs::EntryTests::grouped))]
fn is_alike(rec: &[u8], p: Profile, name: Text, column: u8, v: Value) -> bool
    requires { Coded p × (length rec.now ≡ entry_width p) × Packed name × Proper v }
    ensures { result ≡ in_group (text_bytes name) column (meaning v) (read_entry p rec.now) }
{
    let w = cell::read_cell(&rec[search::ENTRY_VALUE..search::ENTRY_KEY]).value;
    search::compare_named(rec, name).is_eq()
        && rec[search::ENTRY_COLUMN] == column
        && value::compare(w, v).is_eq()
}

// Whether an entry stands in the index, and alone where that is asked.
#[tactic(auto, using(crate::proofs::Walks::searching))]
fn is_entered(
    s: &[u8],
    p: Profile,
    places: usize,
    name: Text,
    column: u8,
    v: Value,
    key: Value,
    alone: bool,
) -> bool
    requires { Filed p places s.now × Packed name × Proper v × Proper key }
    ensures { result ≡ (stands (entries_in p places s.now) (entry_of name column v key) && not (alone && followed (entries_in p places s.now) (entry_of name column v key))) }
{
    let count = layout::entry_count(s);
    let width = layout::entry_width(p);
    let entries = &s[layout::entries_at(p, places)..];
    let i = search::entered_before(entries, count, width, name, column, v, key);
    if count <= i {
        return false;
    }
    let found = layout::entry_record(s, p, places, i);
    if search::compare_entered(found, name, column, v, key).is_ne() {
        return false;
    }
    let next = i + 1;
    if !alone || count <= next {
        return true;
    }
    !is_alike(layout::entry_record(s, p, places, next), p, name, column, v)
}

// Whether the entry of a row's cell in an indexed column stands in the index, and alone where the column is unique and the value defined.
#[tactic(auto, unfolding(crate::specs::Tested::entered_as))]
fn is_cell_entered(
    s: &[u8],
    p: Profile,
    places: usize,
    c: Column,
    name: Text,
    column: u8,
    v: Value,
    key: Value,
) -> bool
    requires { Filed p places s.now × Packed name × Proper v × Proper key }
    ensures { result ≡ entered_as (entries_in p places s.now) (column_of c) (meaning v) (entry_of name column v key) }
{
    let alone = c.unique && !value::is_undefined(v);
    !c.index || is_entered(s, p, places, name, column, v, key, alone)
}

// Whether each of a row's entries stands in the index.
#[tactic(auto, using(crate::proofs::Walks::cells))]
fn are_cells_entered(s: &[u8], p: Profile, places: usize, row: &[u8], rec: &[u8]) -> bool
    requires { Filed p places s.now × Here p places s.now (read_name row.now) rec.now × (length row.now ≡ row_width p) }
    ensures { result ≡ every_cell (entered_cell (entries_in p places s.now) (read_row p (parse p places s.now).tables row.now)) 0 (read_table p rec.now).columns (cells_in (length (read_table p rec.now).columns) row.now) }
{
    let name = cell::read_name(row);
    let key = cell::read_cell(&row[row_test::key_at(rec, p)..]).value;
    for i in 0..rec[layout::TABLE_COUNT] {
        let j = usize::from(i);
        let c = catalog::read_column(rec, p, j);
        let v = row::cell_in(row, p, j).value;
        if !is_cell_entered(s, p, places, c, name, i, v, key) {
            return false;
        }
    }
    true
}

// The same of a row, with its table.
#[tactic(auto, using(crate::proofs::Walks::key))]
fn is_row_entered(s: &[u8], p: Profile, places: usize, row: &[u8]) -> bool
    requires { Filed p places s.now × (length row.now ≡ row_width p) }
    ensures { result ≡ entered_row (parse p places s.now).tables (entries_in p places s.now) (read_row p (parse p places s.now).tables row.now) }
{
    let Some(rec) = row_test::table_of(s, p, places, cell::read_name(row)) else {
        return false;
    };
    are_cells_entered(s, p, places, row, rec)
}

// Whether every row's entries stand in the index.
#[tactic(auto, using(crate::proofs::Walks::walk))]
pub fn are_entered(s: &[u8], p: Profile, places: usize) -> bool
    requires { Filed p places s.now }
    ensures { result ≡ every (entered_row (parse p places s.now).tables (entries_in p places s.now)) (parse p places s.now).rows }
{
    for i in 0..layout::row_count(s) {
        if !is_row_entered(s, p, places, layout::row_record(s, p, places, i)) {
            return false;
        }
    }
    true
}

// Whether the index is sorted, the entries of the rows and no others, and those alone that have to be.
#[tactic(auto, using(crate::proofs::Walks::indexing), unfolding(crate::specs::Tested::index_tested, rules::specs::Sound::all))]
pub fn is_indexed(s: &[u8], p: Profile, places: usize) -> bool
    requires { Tabled p places s.now }
    ensures { result ≡ index_tested p places s.now }
{
    are_entries(s, p, places)
        && are_entries_sorted(s, p, places)
        && layout::entry_count(s) == all_entries(s, p, places)
        && are_entered(s, p, places)
}
