// Stored schemas: a table record's columns, and the place of a table (local.rs: `get_table`).
ghost use Rattle.std.specs.Prelude.{◌≡◌, ◌+◌, ◌≤◌, ◌<◌, length, get_or, drop, IfSome};
ghost use Rattle.std.proofs.Math.Option.{map};
ghost use Rattle.values.specs.Basic.{only_if};
ghost use Rattle.values.specs.Cell.{name_width, cell_width, read_name, read_value};
ghost use Rattle.values.specs.Meaning.{text_bytes, Packed, held, ProperCell, option_of};
ghost use Rattle.rules.specs.State.{is_named};
ghost use Rattle.rules.specs.Layout.{bit, read_column, read_table, parse};
ghost use Rattle.rules.specs.Schema.{key_kind};
ghost use Rattle.laid.specs.Column.{column_at, ColumnRead};
ghost use Rattle.laid.specs.Catalog.{TableBytes, Catalog, place_of, found_at};

use super::layout;
use areas::{area, search};
use rules::profile::Profile;
use values::cell;
use values::value::{Cell, Text};

#[derive(Clone, Copy)]
pub struct Column {
    pub name: Text,
    pub kind: u8,
    pub nullable: bool,
    pub unique: bool,
    pub index: bool,
    pub default: Option<Cell>,
    pub reference: Option<Text>,
}

// Whether a flag is set.
fn flag(flags: u8, k: u8) -> bool
    requires { 0 < k }
    ensures { result ≡ bit k flags }
{
    flags / k % 2 == 1
}

// The bytes of column i of a table record.
fn column_record(rec: &[u8], p: Profile, i: usize) -> &[u8]
    requires { TableBytes p rec.now × (i < p.columns) }
    ensures long { length result.now ≡ name_width + 2 + cell_width + name_width }
    ensures read { read_column p result.now ≡ column_at p rec.now i }
{
    area::record_at(rec, layout::TABLE_COLUMNS, layout::column_width(p), i)
}

// The default in a column's bytes, if it has one.
fn default_in(col: &[u8]) -> Option<Cell>
    requires { name_width + 2 + cell_width ≤ length col.now }
    ensures { (map held (option_of result) ≡ only_if (bit 2 (get_or col.now 26 0)) (read_value (drop 27 col.now))) × IfSome result ProperCell }
{
    if flag(col[layout::COLUMN_FLAGS], layout::DEFAULTED) {
        Some(cell::read_cell(&col[layout::COLUMN_DEFAULT..]))
    } else {
        None
    }
}

// The table that a column's bytes refer to, if they do.
fn reference_in(col: &[u8]) -> Option<Text>
    requires { name_width + 2 + cell_width + name_width ≤ length col.now }
    ensures { (map text_bytes (option_of result) ≡ only_if (bit 16 (get_or col.now 26 0)) (read_name (drop 53 col.now))) × IfSome result Packed }
{
    if flag(col[layout::COLUMN_FLAGS], layout::REFERENCES) {
        Some(cell::read_name(&col[layout::COLUMN_REFERENCE..]))
    } else {
        None
    }
}

// Column i of a table record. It is inlined, so that a caller pays for the parts alone that it looks at.
#[inline(always)]
pub fn read_column(rec: &[u8], p: Profile, i: usize) -> Column
    requires { TableBytes p rec.now × (i < p.columns) }
    ensures { ColumnRead p rec.now i result }
{
    let col = column_record(rec, p, i);
    let flags = col[layout::COLUMN_FLAGS];
    Column {
        name: cell::read_name(col),
        kind: col[layout::COLUMN_KIND],
        nullable: flag(flags, layout::NULLABLE),
        unique: flag(flags, layout::UNIQUE),
        index: flag(flags, layout::INDEXED),
        default: default_in(col),
        reference: reference_in(col),
    }
}

// The kind of the key column, 0 where that is out of range.
pub fn key_kind(rec: &[u8], p: Profile) -> u8
    requires { TableBytes p rec.now }
    ensures { result ≡ key_kind (read_table p rec.now) }
{
    let key = key_column(rec);
    if column_count(rec) <= key {
        return 0;
    }
    column_record(rec, p, key)[layout::COLUMN_KIND]
}

// The place of the table with this name (local.rs: `get_table`).
pub fn get_table(s: &[u8], p: Profile, places: usize, name: Text) -> Option<usize>
    requires { Catalog p places s.now × Packed name }
    ensures { found_at result ≡ place_of (is_named (text_bytes name)) (parse p places s.now).tables }
{
    let count = layout::table_count(s);
    let width = layout::schema_width(p);
    let i = search::named_before(&s[layout::HEADER_WIDTH..], count, width, name);
    let found = i < count
        && search::compare_named(layout::table_record(s, p, places, i), name).is_eq();
    found.then_some(i)
}

// The key column of a table record.
pub fn key_column(rec: &[u8]) -> usize
    requires { 26 ≤ length rec.now }
    ensures { result ≡ get_or rec.now name_width 0 }
{
    usize::from(rec[layout::TABLE_KEY])
}

// How many columns a table record has.
pub fn column_count(rec: &[u8]) -> usize
    requires { 27 ≤ length rec.now }
    ensures { result ≡ get_or rec.now (name_width + 1) 0 }
{
    usize::from(rec[layout::TABLE_COUNT])
}
