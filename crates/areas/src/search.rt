// How many records of a sorted area are before a probe, by halving: one search for all orders.
ghost use Prim.Native.Nat.{Ordering as Three};
ghost use Rattle.std.specs.Prelude.{◌≡◌, ℕ, List, ◌+◌, ◌*◌, ◌≤◌, length, drop};
ghost use Rattle.values.specs.Basic.{is_lt};
ghost use Rattle.values.specs.Value.{cmp_value};
ghost use Rattle.values.specs.Meaning.{text_bytes, Packed, meaning, Proper, ordering};
ghost use Rattle.values.specs.Cell.{name_width, cell_width, read_value};
ghost use Rattle.areas.specs.Records.{records};
ghost use Rattle.areas.specs.Sorted.{count_of};
ghost use Rattle.areas.specs.Search.{cmp_named, cmp_keyed, cmp_content, cmp_entered, SearchIn, ComparesEach, ComparesBy};

use std::cmp::Ordering;
use values::value::{Text, Value};
use values::{cell, value};

// An index entry's record: the table's name, the column's number, the value, the row's key.
pub const ENTRY_COLUMN: usize = cell::NAME_WIDTH;

pub const ENTRY_VALUE: usize = ENTRY_COLUMN + 1;

pub const ENTRY_KEY: usize = ENTRY_VALUE + cell::CELL_WIDTH;

pub const ENTRY_END: usize = ENTRY_KEY + cell::CELL_WIDTH;

// A record that starts with a name.
pub fn compare_named(rec: &[u8], name: Text) -> Ordering
    requires { (name_width ≤ length rec.now) × Packed name }
    ensures { ordering result ≡ cmp_named rec.now (text_bytes name) }
{
    value::compare_texts(cell::read_name(rec), name)
}

// The value cell at `at`.
fn compare_cell(rec: &[u8], at: usize, v: Value) -> Ordering
    requires { (at + cell_width ≤ length rec.now) × Proper v }
    ensures { ordering result ≡ cmp_value (read_value (drop at rec.now)) (meaning v) }
{
    value::compare(cell::read_cell(&rec[at..]).value, v)
}

// A record that starts with a name and has a value cell at `at`.
pub fn compare_keyed(rec: &[u8], name: Text, at: usize, key: Value) -> Ordering
    requires { (name_width ≤ length rec.now) × (at + cell_width ≤ length rec.now) × Packed name × Proper key }
    ensures { ordering result ≡ cmp_keyed at rec.now (text_bytes name) (meaning key) }
{
    compare_named(rec, name).then_with(|| compare_cell(rec, at, key))
}

// What follows the name of an index entry: a number and two value cells.
fn compare_content(rec: &[u8], column: u8, v: Value, key: Value) -> Ordering
    requires { (name_width + 1 + cell_width + cell_width ≤ length rec.now) × Proper v × Proper key }
    ensures { ordering result ≡ cmp_content cell_width rec.now column (meaning v) (meaning key) }
{
    rec[ENTRY_COLUMN]
        .cmp(&column)
        .then_with(|| compare_cell(rec, ENTRY_VALUE, v))
        .then_with(|| compare_cell(rec, ENTRY_KEY, key))
}

// A record of a name, a number and two value cells.
pub fn compare_entered(rec: &[u8], name: Text, column: u8, v: Value, key: Value) -> Ordering
    requires { (name_width + 1 + cell_width + cell_width ≤ length rec.now) × Packed name × Proper v × Proper key }
    ensures { ordering result ≡ cmp_entered cell_width rec.now (text_bytes name) column (meaning v) (meaning key) }
{
    compare_named(rec, name).then_with(|| compare_content(rec, column, v, key))
}

// How many of the `count` records come before what `compare` compares each with, by halving.
fn count_before<F: Fn(&[u8]) -> Ordering>(
    area: &[u8],
    count: usize,
    width: usize,
    compare: F,
) -> usize
    requires inside { count * width ≤ length area.now }
    requires callable { ComparesEach F.Fn width compare }
    ensures { (cmp : List ℕ → Three) → ComparesBy F.Fn width compare cmp → SearchIn (λ r. is_lt (cmp r)) area.now count width → result ≡ count_of (λ x. is_lt (cmp x)) (records width count area.now) }
{
    let mut lo = 0;
    let mut hi = count;
    while lo < hi {
        let mid = lo + (hi - lo) / 2;
        let start = mid * width;
        if compare(&area[start..start + width]).is_lt() {
            lo = mid + 1;
        } else {
            hi = mid;
        }
    }
    lo
}

// How many of the `count` records have a name before `name`.
pub fn named_before(area: &[u8], count: usize, width: usize, name: Text) -> usize
    requires name_width_le_width { (name_width ≤ width) × Packed name }
    requires search_in { SearchIn (λ r. is_lt (cmp_named r (text_bytes name))) area.now count width }
    ensures { result ≡ count_of (λ x. is_lt (cmp_named x (text_bytes name))) (records width count area.now) }
{
    count_before(area, count, width, |rec| compare_named(rec, name))
}

// How many of the `count` records have a name and, at `at`, a value before `name` and `key`.
pub fn keyed_before(
    area: &[u8],
    count: usize,
    width: usize,
    name: Text,
    at: usize,
    key: Value,
) -> usize
    requires name_width_le_width { (name_width ≤ width) × (at + cell_width ≤ width) × Packed name × Proper key }
    requires search_in { SearchIn (λ r. is_lt (cmp_keyed at r (text_bytes name) (meaning key))) area.now count width }
    ensures { result ≡ count_of (λ x. is_lt (cmp_keyed at x (text_bytes name) (meaning key))) (records width count area.now) }
{
    count_before(area, count, width, |rec| compare_keyed(rec, name, at, key))
}

// How many of the `count` index entries are before `name`, `column`, `v` and `key`.
pub fn entered_before(
    area: &[u8],
    count: usize,
    width: usize,
    name: Text,
    column: u8,
    v: Value,
    key: Value,
) -> usize
    requires cell_width_bound { (name_width + 1 + cell_width + cell_width ≤ width) × Packed name × Proper v × Proper key }
    requires search_in { SearchIn (λ r. is_lt (cmp_entered cell_width r (text_bytes name) column (meaning v) (meaning key))) area.now count width }
    ensures { result ≡ count_of (λ x. is_lt (cmp_entered cell_width x (text_bytes name) column (meaning v) (meaning key))) (records width count area.now) }
{
    count_before(
        area,
        count,
        width,
        |rec| compare_entered(rec, name, column, v, key),
    )
}
