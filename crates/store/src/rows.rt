// Writes of rows (local.rs: `insert`, `update`, `delete`): one full row, one pair, a request's keys. While a batch is open, what stood at a key is noted
// before the row is changed.
ghost use Rattle.std.specs.Prelude.{◌≡◌, true, not, [], ◌∷◌, ◌<◌, length};
ghost use Rattle.values.specs.Meaning.{text_bytes, Packed, meaning, Proper};
ghost use Rattle.values.specs.Basic.{is_nil};
ghost use Rattle.rules.specs.Layout.{parse};
ghost use Rattle.rules.specs.Pages.{books_of};
ghost use Rattle.rules.specs.Step.{numbered, put_fault, insert_row, delete as deleted, same_key, other_key, pair};
ghost use Rattle.laid.specs.Row.{cells_of, table_in, FullRow};
ghost use Rattle.journal.specs.Books.{LaidBooks, Booked, Settled};
ghost use Rattle.checks.specs.Faults.{fault_of};
ghost use Rattle.rules.specs.Schema.{at};
ghost use Rattle.checks.specs.Keys.{values_of};
ghost use Rattle.store.specs.Removed.{removals_in, Removes, RoomFor, pair_of};

use super::{noting, removals, schema};
use changes::change;
use checks::keys::Values;
use checks::row_fault;
use checks::schema_fault::Fault;
use journal::page;
use laid::{catalog, layout, row};
use rules::answer::{Answer, Refusal, Refused};
use rules::profile::Profile;
use values::cell;
use values::value::{Cell, Text, Value};
use walks::referrer;

// Why a row, the request's number n, is not put over the one with its key in the table at place t: its own checks, 43.
fn put_fault(
    s: &[u8],
    p: Profile,
    places: usize,
    j: &[u8],
    t: usize,
    n: usize,
    row: &[Cell],
) -> Result<(), Fault>
    requires { Booked p places s.now j.now × FullRow p places s.now t row.now }
    ensures { fault_of result ≡ at n (put_fault p places (table_in p places s.now t) (books_of p places s.now j.now) true (cells_of row.now)) }
{
    let own = schema::validate_row(s, p, places, t, row, true);
    own.map_err(|kind| Fault { kind, at: n })?;
    if !page::has_places(j, p, 1) {
        return Err(Fault {
            kind: Refusal::JournalFull,
            at: n,
        });
    }
    Ok(())
}

// Adds a full row, the request's row number n, to the table at place t: 26, 27; each column 28 to 31; 33; 43.
pub fn insert(
    s: &mut [u8],
    p: Profile,
    places: usize,
    j: &mut [u8],
    t: usize,
    n: usize,
    row: &[Cell],
) -> Answer
    requires { Booked p places s.old j.old × FullRow p places s.old t row.now }
    ensures { Settled p places (numbered n (insert_row p places (table_in p places s.old t) (books_of p places s.old j.old) (cells_of row.now))) s.old j.old s.new j.new result }
{
    // answered here and not by `put_fault`, so that an edit can change this answer alone
    if let Err(kind) = schema::validate_row(s, p, places, t, row, false) {
        let refused = Refused::new(kind, n);
        return Err(refused);
    }
    if !page::has_places(j, p, 1) {
        return Err(Refused::new(Refusal::JournalFull, n));
    }
    noting::note_new(s, p, places, j, t, row);
    change::add_row(s, p, places, t, row);
    Ok(1)
}

// Takes out the row with the key of the table at place t, if there is one.
fn remove_key(s: &mut [u8], p: Profile, places: usize, j: &mut [u8], t: usize, key: Value) -> bool
    requires { LaidBooks p places s.old j.old × (t < length (parse p places s.old).tables) × Proper key × RoomFor p places s.old j.old t (meaning key ∷ []) }
    ensures { Removes p places s.old j.old t (meaning key ∷ []) s.new j.new × (result ≡ not (is_nil (removals_in p places s.old t (meaning key ∷ [])))) }
{
    let rec = layout::table_record(s, p, places, t);
    let name = cell::read_name(rec);
    let column = catalog::key_column(rec);
    let Some(i) = row::find_row(s, p, places, name, column, key) else {
        return false;
    };
    noting::note_stored(s, p, places, j, i);
    change::remove_row(s, p, places, t, i);
    true
}

// Removes each key's row of the table at place t in turn; an absent or repeated key removes nothing. Returns how many keys there are.
fn remove_keys(
    s: &mut [u8],
    p: Profile,
    places: usize,
    j: &mut [u8],
    t: usize,
    values: Values<'_>,
) -> usize
    requires { LaidBooks p places s.old j.old × (t < length (parse p places s.old).tables) × RoomFor p places s.old j.old t (values_of values) }
    ensures { Removes p places s.old j.old t (values_of values.entry) s.new j.new × (result ≡ length (values_of values.entry)) }
{
    let mut keys = 0;
    for cell in values {
        remove_key(s, p, places, j, t, cell.value);
        keys += 1;
    }
    keys
}

// Removes the rows with the keys: 2; 32, 43, tested before anything is removed.
pub fn delete(
    s: &mut [u8],
    p: Profile,
    places: usize,
    j: &mut [u8],
    name: Text,
    values: Values<'_>,
) -> Answer
    requires { Booked p places s.old j.old × Packed name }
    ensures { Settled p places (deleted (books_of p places s.old j.old) (text_bytes name) (values_of values.entry)) s.old j.old s.new j.new result }
{
    let Some(t) = catalog::get_table(s, p, places, name) else {
        return Err(Refused::new(Refusal::UnknownTable, 0));
    };
    if let Some(carried) = referrer::row_references(s, p, places, name, values) {
        return Err(Refused::carrying(Refusal::RowReferenced, 0, carried));
    }
    if removals::lacks_places(s, p, places, j, t, values) {
        return Err(Refused::new(Refusal::JournalFull, 0));
    }
    Ok(remove_keys(s, p, places, j, t, values))
}

// A row in place of the stored one with its key: 26; each column 28 to 31; 34; 43.
fn same_key(
    s: &mut [u8],
    p: Profile,
    places: usize,
    j: &mut [u8],
    t: usize,
    n: usize,
    row: &[Cell],
) -> Answer
    requires { Booked p places s.old j.old × FullRow p places s.old t row.now }
    ensures { Settled p places (numbered n (same_key p places (table_in p places s.old t) (books_of p places s.old j.old) (cells_of row.now))) s.old j.old s.new j.new result }
{
    put_fault(s, p, places, j, t, n, row)?;
    let rec = layout::table_record(s, p, places, t);
    let name = cell::read_name(rec);
    let column = catalog::key_column(rec);
    let key = row[column].value;
    let i = row::find_row(s, p, places, name, column, key).unwrap();
    noting::note_stored(s, p, places, j, i);
    change::replace_row(s, p, places, t, i, row);
    Ok(1)
}

// A delete of the old key, the one that stands in a record, and then an insert: 32, 43; after it what refuses an insert, with GONE where a row went.
fn other_key(
    s: &mut [u8],
    p: Profile,
    places: usize,
    j: &mut [u8],
    t: usize,
    n: usize,
    old_key: Values<'_>,
    old: Value,
    row: &[Cell],
) -> Answer
    requires { Booked p places s.old j.old × FullRow p places s.old t row.now × Proper old × (values_of old_key ≡ meaning old ∷ []) }
    ensures { Settled p places (numbered n (other_key p places (table_in p places s.old t) (books_of p places s.old j.old) (pair_of old row.now))) s.old j.old s.new j.new result }
{
    let name = cell::read_name(layout::table_record(s, p, places, t));
    if let Some(carried) = referrer::row_references(s, p, places, name, old_key) {
        return Err(Refused::carrying(Refusal::RowReferenced, n, carried));
    }
    if removals::lacks_places(s, p, places, j, t, old_key) {
        return Err(Refused::new(Refusal::JournalFull, n));
    }
    let gone = remove_key(s, p, places, j, t, old);
    insert(s, p, places, j, t, n, row).map_err(|f| f.with_gone(gone))
}

// One pair, the request's pair number n, of an update of the table at place t: the row in place of the old one, or, where the key differs, a delete and then an insert.
pub fn update(
    s: &mut [u8],
    p: Profile,
    places: usize,
    j: &mut [u8],
    t: usize,
    n: usize,
    values: Values<'_>,
    old: Value,
    row: &[Cell],
) -> Answer
    requires { Booked p places s.old j.old × FullRow p places s.old t row.now × Proper old × (values_of values ≡ meaning old ∷ []) }
    ensures { Settled p places (numbered n (pair p places (table_in p places s.old t) (books_of p places s.old j.old) (pair_of old row.now))) s.old j.old s.new j.new result }
{
    let column = catalog::key_column(layout::table_record(s, p, places, t));
    if row_fault::is_same(old, row[column].value) {
        same_key(s, p, places, j, t, n, row)
    } else {
        other_key(s, p, places, j, t, n, values, old, row)
    }
}
