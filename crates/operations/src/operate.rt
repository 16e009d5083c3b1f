// A request carried out: each operation reads its operands where they stand in the record, and calls the store.
ghost use Rattle.std.specs.Prelude.{◌≡◌, true, false, map, ◌<◌, length};
ghost use Rattle.std.proofs.Math.Option.{none};
ghost use Rattle.values.specs.Meaning.{text_bytes, Packed};
ghost use Rattle.rules.specs.Layout.{parse};
ghost use Rattle.rules.specs.Pages.{books_of};
ghost use Rattle.rules.specs.Request.{Delete, Get};
ghost use Rattle.rules.specs.Rows.{fills_fault, full_row, size_fault};
ghost use Rattle.rules.specs.Step.{in_turn, insert_row, pair, found};
ghost use Rattle.laid.specs.Store.{LaidStore};
ghost use Rattle.laid.specs.Row.{table_in};
ghost use Rattle.journal.specs.Books.{Booked, Settled};
ghost use Rattle.checks.specs.Keys.{values_of};
ghost use Rattle.records.specs.Reading.{times};
ghost use Rattle.mapping.specs.Got.{is_got};
ghost use Rattle.records.specs.Record.{values_at, drop_at, insert_at, pair_at, update_at, keys_at, lookup_at, scan_at, operands_at, request_of};
ghost use Rattle.mapping.specs.Mapped.{map_of, MapIn, rows_at, pairs_at};
ghost use Rattle.operations.specs.Counted.{Counted};
ghost use Rattle.operations.specs.Told.{Acted, Replied, reads, outcome_of};

use super::{batch, create};
use checks::keys::Values;
use forms::read;
use journal::page;
use laid::{catalog, layout};
use mapping::executor::Map;
use mapping::{executor, update};
use records::record;
use rules::answer::{Answer, Refusal, Refused};
use rules::profile::Profile;
use store::{local, reads, rows};
use values::value::Text;
use walks::walk;

// The values behind a count byte.
fn counted(rec: &[u8], at: usize) -> Values<'_>
    requires { at < length rec.now }
    ensures { Counted rec.now at result }
{
    Values {
        bytes: rec,
        at: at + 1,
        count: record::byte_of(rec, at) as usize,
    }
}

// 2: name, if-exists byte. 44; 2 unless if-exists, 20.
fn drop(s: &mut [u8], p: Profile, places: usize, j: &[u8], rec: &[u8], at: usize) -> Answer
    requires { Booked p places s.old j.now × (is_got (drop_at rec.now at) ≡ true) }
    ensures { Acted p places (drop_at rec.now at) s.old j.now s.new j.now result }
{
    let Ok((name, next)) = read::name_at(rec, at) else {
        unreachable!();
    };
    let open = page::is_open(j);
    if open {
        return Err(Refused::new(Refusal::InsideBatch, 0));
    }
    let lenient = record::byte_of(rec, next) == 1;
    local::drop_table(s, p, places, name, lenient)
}

// The n rows from `at` on, mapped and put in row by row, each against the store as the earlier ones left it.
fn insert_rows(
    s: &mut [u8],
    p: Profile,
    places: usize,
    j: &mut [u8],
    t: usize,
    rec: &[u8],
    m: Option<Map>,
    at: usize,
    n: usize,
) -> Answer
    requires booked { Booked p places s.old j.old × (t < length (parse p places s.old).tables) × MapIn rec.now m × (is_got (times (values_at rec.now) n at) ≡ true) }
    requires at_value { fills_fault (table_in p places s.old t) (map_of rec.now m) 0 (rows_at rec.now n at) ≡ none }
    ensures { Settled p places (in_turn (insert_row p places (table_in p places s.old t)) (books_of p places s.old j.old) 0 (map (full_row (table_in p places s.old t) (map_of rec.now m)) (rows_at rec.now n at))) s.old j.old s.new j.new result }
{
    let mut q = at;
    for i in 0..n {
        let table = layout::table_record(s, p, places, t);
        let Some(row) = executor::fill(table, p, rec, m, counted(rec, q)) else {
            unreachable!();
        };
        rows::insert(s, p, places, j, t, i, &row)?;
        let Ok(end) = record::values_end(rec, q) else {
            unreachable!();
        };
        q = end;
    }
    Ok(n)
}

// 3: table, map, row count, rows. 2; 24; each row 21, 22, 23; then row by row.
fn insert(s: &mut [u8], p: Profile, places: usize, j: &mut [u8], rec: &[u8], at: usize) -> Answer
    requires { Booked p places s.old j.old × (is_got (insert_at rec.now at) ≡ true) }
    ensures { Acted p places (insert_at rec.now at) s.old j.old s.new j.new result }
{
    let Ok((name, next)) = read::name_at(rec, at) else {
        unreachable!();
    };
    let Ok(q) = record::map_end(rec, next) else {
        unreachable!();
    };
    let Some(t) = catalog::get_table(s, p, places, name) else {
        return Err(Refused::new(Refusal::UnknownTable, 0));
    };
    let m = executor::read_map(rec, next);
    let table = layout::table_record(s, p, places, t);
    if executor::is_bad_map(rec, m, catalog::column_count(table)) {
        return Err(Refused::new(Refusal::MapColumn, 0));
    }
    let n = record::byte_of(rec, q) as usize;
    let from = q + 1;
    if let Err(f) = executor::fills_fault(table, p, rec, m, from, n) {
        return Err(Refused::new(f.kind, f.at));
    }
    insert_rows(s, p, places, j, t, rec, m, from, n)
}

// The n pairs from `at` on, pair by pair.
fn update_pairs(
    s: &mut [u8],
    p: Profile,
    places: usize,
    j: &mut [u8],
    t: usize,
    rec: &[u8],
    at: usize,
    n: usize,
) -> Answer
    requires booked { Booked p places s.old j.old × (t < length (parse p places s.old).tables) × (is_got (times (pair_at rec.now) n at) ≡ true) }
    requires at_value { size_fault (table_in p places s.old t) 0 (pairs_at rec.now n at) ≡ none }
    ensures { Settled p places (in_turn (pair p places (table_in p places s.old t)) (books_of p places s.old j.old) 0 (pairs_at rec.now n at)) s.old j.old s.new j.new result }
{
    let mut q = at;
    for k in 0..n {
        let Ok((old, next)) = read::value_at(rec, q) else {
            unreachable!();
        };
        let row = update::read_row(counted(rec, next));
        let key = Values {
            bytes: rec,
            at: q,
            count: 1,
        };
        rows::update(s, p, places, j, t, k, key, old.value, &row)?;
        let Ok(end) = record::values_end(rec, next) else {
            unreachable!();
        };
        q = end;
    }
    Ok(n)
}

// 4: table, pair count, pairs. 2; 35; 25; then pair by pair.
fn update(s: &mut [u8], p: Profile, places: usize, j: &mut [u8], rec: &[u8], at: usize) -> Answer
    requires { Booked p places s.old j.old × (is_got (update_at rec.now at) ≡ true) }
    ensures { Acted p places (update_at rec.now at) s.old j.old s.new j.new result }
{
    let Ok((name, next)) = read::name_at(rec, at) else {
        unreachable!();
    };
    let Some(t) = catalog::get_table(s, p, places, name) else {
        return Err(Refused::new(Refusal::UnknownTable, 0));
    };
    let n = record::byte_of(rec, next) as usize;
    let from = next + 1;
    update::rising_fault(rec, from, n)?;
    update::size_fault(layout::table_record(s, p, places, t), p, rec, from, n)?;
    update_pairs(s, p, places, j, t, rec, from, n)
}

// 5: table, keys.
fn delete(s: &mut [u8], p: Profile, places: usize, j: &mut [u8], rec: &[u8], at: usize) -> Answer
    requires { Booked p places s.old j.old × (is_got (keys_at rec.now Delete at) ≡ true) }
    ensures { Acted p places (keys_at rec.now Delete at) s.old j.old s.new j.new result }
{
    let Ok((name, next)) = read::name_at(rec, at) else {
        unreachable!();
    };
    rows::delete(s, p, places, j, name, counted(rec, next))
}

// How many of the keys name a stored row, repeats counted.
fn found_count(s: &[u8], p: Profile, places: usize, name: Text, values: Values<'_>) -> usize
    requires { LaidStore p places s.now × Packed name }
    ensures { result ≡ length (found (parse p places s.now).rows (text_bytes name) (values_of values.entry)) }
{
    let mut n: usize = 0;
    for cell in values {
        if reads::get(s, p, places, name, cell.value).is_some() {
            n += 1;
        }
    }
    n
}

// 6: table, keys.
fn get(s: &[u8], p: Profile, places: usize, rec: &[u8], at: usize) -> Answer
    requires { LaidStore p places s.now × (is_got (keys_at rec.now Get at) ≡ true) }
    ensures { Replied p places (keys_at rec.now Get at) s.now result }
{
    let Ok((name, next)) = read::name_at(rec, at) else {
        unreachable!();
    };
    Ok(found_count(s, p, places, name, counted(rec, next)))
}

// 7: table, column number, values.
fn lookup(s: &[u8], p: Profile, places: usize, rec: &[u8], at: usize) -> Answer
    requires { LaidStore p places s.now × (is_got (lookup_at rec.now at) ≡ true) }
    ensures { Replied p places (lookup_at rec.now at) s.now result }
{
    let Ok((name, next)) = read::name_at(rec, at) else {
        unreachable!();
    };
    let column = record::byte_of(rec, next);
    reads::lookup_index(s, p, places, name, column, counted(rec, next + 1))
}

// 8: table.
fn scan(s: &[u8], p: Profile, places: usize, rec: &[u8], at: usize) -> Answer
    requires { LaidStore p places s.now × (is_got (scan_at rec.now at) ≡ true) }
    ensures { Replied p places (scan_at rec.now at) s.now result }
{
    let Ok((name, _)) = read::name_at(rec, at) else {
        unreachable!();
    };
    let rows = walk::scan(s, p, places, name);
    Ok(rows.to - rows.from)
}

// The operations that write, and those of a batch.
pub fn write(s: &mut [u8], p: Profile, places: usize, j: &mut [u8], rec: &[u8], k: u8) -> Answer
    requires { Booked p places s.old j.old × (reads k ≡ false) × (is_got (operands_at rec.now p k 2) ≡ true) }
    ensures { Acted p places (operands_at rec.now p k 2) s.old j.old s.new j.new result }
{
    match k {
        1 => create::create(s, p, places, j, rec, 2),
        2 => drop(s, p, places, j, rec, 2),
        3 => insert(s, p, places, j, rec, 2),
        4 => update(s, p, places, j, rec, 2),
        5 => delete(s, p, places, j, rec, 2),
        12 => batch::open(j),
        13 => batch::keep(j),
        14 => batch::back(s, p, places, j),
        _ => unreachable!(),
    }
}

// Whether an operation only reads.
#[tactic(auto, unfolding(crate::specs::Told::reads))]
pub fn is_read(k: u8) -> bool
    ensures { result ≡ reads k }
{
    matches!(k, 6..=9)
}

// The operations that read.
pub fn ask(s: &[u8], p: Profile, places: usize, rec: &[u8], k: u8) -> Answer
    requires { LaidStore p places s.now × (reads k ≡ true) × (is_got (operands_at rec.now p k 2) ≡ true) }
    ensures { Replied p places (operands_at rec.now p k 2) s.now result }
{
    match k {
        6 => get(s, p, places, rec, 2),
        7 => lookup(s, p, places, rec, 2),
        8 => scan(s, p, places, rec, 2),
        9 => Ok(layout::table_count(s)),
        _ => unreachable!(),
    }
}

// The request that a record's bytes say, from the version byte on, carried out; a broken record is 1 and changes nothing.
pub fn execute(s: &mut [u8], p: Profile, places: usize, j: &mut [u8], rec: &[u8]) -> Answer
    requires { Booked p places s.old j.old }
    ensures { Settled p places (outcome_of p places (books_of p places s.old j.old) (request_of rec.now p)) s.old j.old s.new j.new result }
{
    if record::walk(rec, p).is_err() {
        return Err(Refused::new(Refusal::RecordBroken, 0));
    }
    let k = record::byte_of(rec, 1);
    if is_read(k) {
        return ask(s, p, places, rec, k);
    }
    write(s, p, places, j, rec, k)
}
