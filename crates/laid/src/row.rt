// Rows by place: a row in flight, a row's cells in the store, the place of a key.
ghost use Rattle.std.specs.Prelude.{◌≡◌, ◌+◌, ◌*◌, ◌<◌, [], ◌∷◌, ◌++◌, length, drop};
ghost use Rattle.values.specs.Cell.{name_width, read_value};
ghost use Rattle.rules.specs.Profile.{row_width};
ghost use Rattle.values.specs.Basic.{is_lt};
ghost use Rattle.values.specs.Meaning.{text_bytes, Packed, meaning, Proper, held, ProperCell};
ghost use Rattle.areas.specs.Sorted.{count_of};
ghost use Rattle.rules.specs.State.{cmp_row, is_row, cell_at};
ghost use Rattle.rules.specs.Layout.{parse};
ghost use Rattle.laid.specs.Store.{Coded, LaidStore};
ghost use Rattle.laid.specs.Catalog.{place_of, found_at};
ghost use Rattle.laid.specs.Row.{in_flight, row_in, KeyColumn, keyed};

use super::layout;
use areas::search;
use rules::profile::Profile;
use std::ops::DerefSlice;
use values::cell;
use values::value::{Cell, Text, Value};

// A row in flight has room for so many cells: document 01's columns.
pub const CELLS_MOST: usize = 8;

// The values of a row on their way into the store: the first `count` of the cells. It is lent as a slice.
#[derive(Clone, Copy)]
pub struct Row {
    pub cells: [Cell; CELLS_MOST],
    pub count: usize,
}

impl Row {
    // No value yet.
    pub fn new() -> Row
        ensures { (in_flight result ≡ []) × (result.count ≡ length (in_flight result)) }
    {
        Row {
            cells: [Cell { value: Value::Null }; CELLS_MOST],
            count: 0,
        }
    }

    // A value more, behind the others.
    pub fn push(&mut self, cell: Cell)
        requires { length (in_flight self.old) < 8 }
        ensures { (in_flight self.new ≡ in_flight self.old ++ cell ∷ []) × (self.new.count ≡ length (in_flight self.new)) }
    {
        self.cells[self.count] = cell;
        self.count += 1;
    }
}

impl DerefSlice for Row {
    type Elem = Cell;

    ghost deref_gives = { λ v xs. xs ≡ in_flight v };

    fn deref(&self) -> &[Cell] {
        &self.cells[..self.count.min(CELLS_MOST)]
    }
}

// Cell j of a row's record.
pub fn cell_in(rec: &[u8], p: Profile, j: usize) -> Cell
    requires { Coded p × (length rec.now ≡ row_width p) × (j < p.columns) }
    ensures { (held result ≡ read_value (drop (name_width + j * p.cell) rec.now)) × ProperCell result }
{
    let from = cell::NAME_WIDTH + j * p.cell;
    cell::read_cell(&rec[from..])
}

// Cell j of the row at place i.
pub fn cell_at(s: &[u8], p: Profile, places: usize, i: usize, j: usize) -> Cell
    requires { LaidStore p places s.now × (i < length (parse p places s.now).rows) × (j < length (row_in p places s.now i).cells) }
    ensures { (held result ≡ cell_at (row_in p places s.now i).cells j) × ProperCell result }
{
    cell_in(layout::row_record(s, p, places, i), p, j)
}

// How many rows are before the key of a table whose key column is `column`.
pub fn rank_of(s: &[u8], p: Profile, places: usize, name: Text, column: usize, key: Value) -> usize
    requires { LaidStore p places s.now × KeyColumn p places s.now (text_bytes name) column × Packed name × Proper key }
    ensures { result ≡ count_of (λ x. is_lt (cmp_row x (keyed (text_bytes name) (meaning key)))) (parse p places s.now).rows }
{
    let from = layout::rows_at(p);
    let at = cell::NAME_WIDTH + column * p.cell;
    search::keyed_before(
        &s[from..],
        layout::row_count(s),
        layout::row_width(p),
        name,
        at,
        key,
    )
}

// The place of the row with this key.
pub fn find_row(
    s: &[u8],
    p: Profile,
    places: usize,
    name: Text,
    column: usize,
    key: Value,
) -> Option<usize>
    requires { LaidStore p places s.now × KeyColumn p places s.now (text_bytes name) column × Packed name × Proper key }
    ensures { found_at result ≡ place_of (is_row (text_bytes name) (meaning key)) (parse p places s.now).rows }
{
    let i = rank_of(s, p, places, name, column, key);
    let at = cell::NAME_WIDTH + column * p.cell;
    let found = i < layout::row_count(s)
        && search::compare_keyed(layout::row_record(s, p, places, i), name, at, key).is_eq();
    found.then_some(i)
}
