// A table's rows by place (local.rs: `scan`), and the keys of an indexed value, one after the other.
ghost use Rattle.std.specs.Prelude.{◌≡◌, true, [], ◌∷◌, ℕ, ◌+◌, length, drop, IfSome};
ghost use Rattle.std.proofs.Math.Option.{map};
ghost use Rattle.values.specs.Meaning.{text_bytes, Packed, meaning, Proper, ProperCell};
ghost use Rattle.rules.specs.State.{of_table};
ghost use Rattle.rules.specs.Layout.{parse};
ghost use Rattle.laid.specs.Store.{LaidStore};
ghost use Rattle.laid.specs.Entered.{entry_of};
ghost use Rattle.laid.specs.Catalog.{place_of, found_at};
ghost use Rattle.checks.specs.Asked.{indexed_at};
ghost use Rattle.checks.specs.Keys.{values_of};
ghost use Rattle.walks.specs.Spans.{Spans};
ghost use Rattle.walks.specs.Looked.{keys_with, next_with, least_of, next_of, FirstBehind};

use areas::search;
use checks::keys::Values;
use checks::row_fault;
use laid::{entry, layout, run};
use rules::profile::Profile;
use values::value::{Cell, Text, Value};
use values::{cell, value};

// The places of a table's rows: from the first on, before the last.
#[derive(Clone, Copy)]
pub struct Span {
    pub from: usize,
    pub to: usize,
}

// The places of a table's rows; an unknown table has none.
pub fn scan(s: &[u8], p: Profile, places: usize, name: Text) -> Span
    requires { LaidStore p places s.now × Packed name }
    ensures { Spans (parse p places s.now).rows (text_bytes name) result }
{
    let count = layout::row_count(s);
    let width = layout::row_width(p);
    let rows = &s[layout::rows_at(p)..];
    let from = search::named_before(rows, count, width, name);
    let to = from + run::run_from(rows, width, count, from, name);
    Span { from, to }
}

// The place of the first row of a table at place `from` or behind it.
pub fn next_row(s: &[u8], p: Profile, places: usize, name: Text, from: usize) -> Option<usize>
    requires { LaidStore p places s.now × Packed name }
    ensures { found_at result ≡ map (λ (i : ℕ). from + i) (place_of (of_table (text_bytes name)) (drop from (parse p places s.now).rows)) }
{
    let count = layout::row_count(s);
    let width = layout::row_width(p);
    let rows = &s[layout::rows_at(p)..];
    let i = from.max(search::named_before(rows, count, width, name));
    if count <= i {
        return None;
    }
    if !search::compare_named(layout::row_record(s, p, places, i), name).is_eq() {
        return None;
    }
    Some(i)
}

// The place of the first index entry behind one.
fn entry_behind(
    s: &[u8],
    p: Profile,
    places: usize,
    name: Text,
    column: u8,
    v: Value,
    key: Value,
) -> usize
    requires { LaidStore p places s.now × Packed name × Proper v × Proper key }
    ensures { FirstBehind p places s.now (entry_of name column v key) result }
{
    let i = entry::entry_rank(s, p, places, name, column, v, key);
    if layout::entry_count(s) <= i {
        return i;
    }
    let rec = layout::entry_record(s, p, places, i);
    if search::compare_entered(rec, name, column, v, key).is_eq() {
        i + 1
    } else {
        i
    }
}

// The first key behind `after` in the index entries of one value.
fn next_entered(
    s: &[u8],
    p: Profile,
    places: usize,
    name: Text,
    column: u8,
    v: Value,
    after: Value,
) -> Option<Cell>
    requires { LaidStore p places s.now × Packed name × Proper v × Proper after × (indexed_at (parse p places s.now).tables (text_bytes name) column ≡ true) }
    ensures { (next_of result ≡ next_with (parse p places s.now).rows (text_bytes name) column (meaning v ∷ []) (meaning after)) × IfSome result ProperCell }
{
    let i = entry_behind(s, p, places, name, column, v, after);
    if layout::entry_count(s) <= i {
        return None;
    }
    let rec = layout::entry_record(s, p, places, i);
    if !row_fault::is_of(rec, name, column, v) {
        return None;
    }
    Some(cell::read_cell(&rec[search::ENTRY_KEY..]))
}

// The smaller of two keys, or the one that is there.
fn least(a: Option<Cell>, b: Option<Cell>) -> Option<Cell>
    requires { IfSome a ProperCell × IfSome b ProperCell }
    ensures { (next_of result ≡ least_of (next_of a) (next_of b)) × IfSome result ProperCell }
{
    match (a, b) {
        (None, _) => b,
        (_, None) => a,
        (Some(x), Some(y)) => {
            if value::compare(y.value, x.value).is_lt() {
                b
            } else {
                a
            }
        }
    }
}

// The first key behind `after` of the rows that have one of the values in an indexed column.
pub fn next_key(
    s: &[u8],
    p: Profile,
    places: usize,
    name: Text,
    column: u8,
    values: Values<'_>,
    after: Value,
) -> Option<Cell>
    requires { LaidStore p places s.now × Packed name × Proper after × (indexed_at (parse p places s.now).tables (text_bytes name) column ≡ true) }
    ensures { (next_of result ≡ next_with (parse p places s.now).rows (text_bytes name) column (values_of values.entry) (meaning after)) × IfSome result ProperCell }
{
    let mut best = None;
    for cell in values {
        best = least(
            best,
            next_entered(s, p, places, name, column, cell.value, after),
        );
    }
    best
}

// How many rows have one of the values in an indexed column.
pub fn key_count(
    s: &[u8],
    p: Profile,
    places: usize,
    name: Text,
    column: u8,
    values: Values<'_>,
) -> usize
    requires { LaidStore p places s.now × Packed name × (indexed_at (parse p places s.now).tables (text_bytes name) column ≡ true) }
    ensures { result ≡ length (keys_with (parse p places s.now).rows (text_bytes name) column (values_of values.entry)) }
{
    let mut n = 0;
    let mut last = Value::Null;
    while let Some(key) = next_key(s, p, places, name, column, values, last) {
        last = key.value;
        n += 1;
    }
    n
}
