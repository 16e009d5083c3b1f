// The three changes of a row, through which every write goes: a row added, replaced, removed, with its index entries put in and taken out one by
// one. They need a store that is laid out, and no more.
ghost use Rattle.std.specs.Prelude.{◌≡◌, true, false, cond, ◌++◌, ◌+◌, ◌*◌, ◌≤◌, ◌<◌, length, drop};
ghost use Rattle.values.specs.Value.{same};
ghost use Rattle.values.specs.Cell.{name_width, cell_width};
ghost use Rattle.rules.specs.Profile.{row_width};
ghost use Rattle.values.specs.Meaning.{text_bytes, Packed, meaning};
ghost use Rattle.rules.specs.State.{row_of};
ghost use Rattle.rules.specs.Layout.{image, parse, lists, Laid};
ghost use Rattle.rules.specs.Step.{added, removed, replaced, apply};
ghost use Rattle.laid.specs.Store.{Coded, LaidStore};
ghost use Rattle.laid.specs.Entered.{Entered, entries_in, entry_of, ProperEntry, entry_in, entry_added, entry_removed, entry_exchanged, entry_bytes, row_bytes};
ghost use Rattle.laid.specs.Row.{cells_of, ProperRow, row_in, table_in, Addable, RowOf, Replaceable};

use areas::{area, search};
use laid::layout::{ENTRIES_BYTES, ENTRIES_COUNT, ROWS_BYTES, ROWS_COUNT};
use laid::{catalog, entry, layout, row};
use rules::profile::Profile;
use values::value::{Cell, Text, Value};
use values::{cell, value};

// A row's name and cells, written through its part of the store.
fn write_row(part: &mut [u8], p: Profile, name: Text, row: &[Cell])
    requires { Coded p × (length part.old ≡ row_width p) × Packed name × ProperRow row.now × (length row.now ≤ p.columns) }
    ensures { part.new ≡ row_bytes (text_bytes name) (cells_of row.now) ++ drop (name_width + length row.now * cell_width) part.old }
{
    cell::write_name(&mut part[..cell::NAME_WIDTH], name);
    for (j, cell) in row.iter().enumerate() {
        let from = cell::NAME_WIDTH + j * p.cell;
        cell::write_cell(&mut part[from..from + cell::CELL_WIDTH], *cell);
    }
}

// An index entry, written through its part of the store.
fn write_entry(part: &mut [u8], name: Text, column: u8, v: Value, key: Value)
    requires { (length part.old ≡ name_width + 1 + cell_width + cell_width) × ProperEntry name v key }
    ensures { part.new ≡ entry_bytes (entry_of name column v key) }
{
    cell::write_name(&mut part[..cell::NAME_WIDTH], name);
    part[search::ENTRY_COLUMN] = column;
    cell::write_cell(
        &mut part[search::ENTRY_VALUE..search::ENTRY_KEY],
        Cell { value: v },
    );
    cell::write_cell(
        &mut part[search::ENTRY_KEY..search::ENTRY_END],
        Cell { value: key },
    );
}

// Puts an index entry in at its place.
fn add_entry(s: &mut [u8], p: Profile, places: usize, name: Text, column: u8, v: Value, key: Value)
    requires { Entered p places s.old × ProperEntry name v key × (length (entries_in p places s.old) < p.entries * places) }
    ensures { Laid p places s.new (entry_added p places (entry_of name column v key) s.old) }
{
    let i = entry::entry_rank(s, p, places, name, column, v, key);
    let from = layout::entries_at(p, places);
    let width = layout::entry_width(p);
    let most = p.entries * places;
    area::open_counted(s, ENTRIES_COUNT, ENTRIES_BYTES, from, most, width, i);
    let at = from + i * width;
    write_entry(&mut s[at..at + width], name, column, v, key);
}

// Takes an index entry out.
fn remove_entry(
    s: &mut [u8],
    p: Profile,
    places: usize,
    name: Text,
    column: u8,
    v: Value,
    key: Value,
)
    requires { Entered p places s.old × ProperEntry name v key × (entry_in p places (entry_of name column v key) s.old ≡ true) }
    ensures { Laid p places s.new (entry_removed p places (entry_of name column v key) s.old) }
{
    let i = entry::entry_rank(s, p, places, name, column, v, key);
    let from = layout::entries_at(p, places);
    let width = layout::entry_width(p);
    let most = p.entries * places;
    area::close_counted(s, ENTRIES_COUNT, ENTRIES_BYTES, from, most, width, i, 1);
}

// The entry of a value that changed: the old one out, the new one in.
fn exchange(
    s: &mut [u8],
    p: Profile,
    places: usize,
    name: Text,
    column: u8,
    old: Value,
    new: Value,
    key: Value,
)
    requires { Entered p places s.old × ProperEntry name old key × ProperEntry name new key × (same (meaning old) (meaning new) ≡ false → entry_in p places (entry_of name column old key) s.old ≡ true) }
    ensures { Laid p places s.new (cond (same (meaning old) (meaning new)) (lists p places s.old) (entry_exchanged p places (entry_of name column old key) (entry_of name column new key) s.old)) }
{
    if !value::compare(old, new).is_eq() {
        remove_entry(s, p, places, name, column, old, key);
        add_entry(s, p, places, name, column, new, key);
    }
}

// Adds a row to the table at place t: its index entries, then its record.
pub fn add_row(s: &mut [u8], p: Profile, places: usize, t: usize, row: &[Cell])
    requires { LaidStore p places s.old × ProperRow row.now × Addable p places s.old t (cells_of row.now) }
    ensures { s.new ≡ image p places (apply (added (row_of (table_in p places s.old t) (cells_of row.now))) (parse p places s.old)) }
{
    let table = layout::table_record(s, p, places, t);
    let name = cell::read_name(table);
    let column = catalog::key_column(table);
    let key = row[column].value;
    let i = row::rank_of(s, p, places, name, column, key);
    for (j, cell) in row.iter().enumerate() {
        let c = catalog::read_column(layout::table_record(s, p, places, t), p, j);
        if c.index {
            add_entry(s, p, places, name, j as u8, cell.value, key);
        }
    }
    let from = layout::rows_at(p);
    let width = layout::row_width(p);
    area::open_counted(s, ROWS_COUNT, ROWS_BYTES, from, places, width, i);
    let at = from + i * width;
    write_row(&mut s[at..at + width], p, name, row);
}

// Takes the row at place i of the table at place t out.
pub fn remove_row(s: &mut [u8], p: Profile, places: usize, t: usize, i: usize)
    requires { LaidStore p places s.old × RowOf p places s.old t i }
    ensures { s.new ≡ image p places (apply (removed (row_in p places s.old i)) (parse p places s.old)) }
{
    let table = layout::table_record(s, p, places, t);
    let name = cell::read_name(table);
    let column = catalog::key_column(table);
    let count = catalog::column_count(table);
    let key = row::cell_at(s, p, places, i, column).value;
    for j in 0..count {
        let c = catalog::read_column(layout::table_record(s, p, places, t), p, j);
        if c.index {
            let v = row::cell_in(layout::row_record(s, p, places, i), p, j).value;
            remove_entry(s, p, places, name, j as u8, v, key);
        }
    }
    area::close_counted(
        s,
        ROWS_COUNT,
        ROWS_BYTES,
        layout::rows_at(p),
        places,
        layout::row_width(p),
        i,
        1,
    );
}

// Puts a row with the same key in place of the one at place i of the table at place t.
pub fn replace_row(s: &mut [u8], p: Profile, places: usize, t: usize, i: usize, row: &[Cell])
    requires { LaidStore p places s.old × ProperRow row.now × Replaceable p places s.old t i (cells_of row.now) }
    ensures { s.new ≡ image p places (apply (replaced (row_in p places s.old i) (row_of (table_in p places s.old t) (cells_of row.now))) (parse p places s.old)) }
{
    let table = layout::table_record(s, p, places, t);
    let name = cell::read_name(table);
    let column = catalog::key_column(table);
    let key = row[column].value;
    for (j, cell) in row.iter().enumerate() {
        let c = catalog::read_column(layout::table_record(s, p, places, t), p, j);
        if c.index {
            let old = row::cell_in(layout::row_record(s, p, places, i), p, j).value;
            let new = cell.value;
            exchange(s, p, places, name, j as u8, old, new, key);
        }
    }
    let width = layout::row_width(p);
    let at = layout::rows_at(p) + i * width;
    write_row(&mut s[at..at + width], p, name, row);
}
