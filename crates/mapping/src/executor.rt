// Operation 3 (executor.rs: `insert`): the mapping of given values to columns. All rows are mapped before any is written: 24; each row 21, 22, 23.
ghost use Rattle.std.specs.Prelude.{◌≡◌, true, ◌≤◌, length, IfSome};
ghost use Rattle.std.proofs.Math.Option.{none};
ghost use Rattle.values.specs.Meaning.{ProperCell};
ghost use Rattle.rules.specs.Layout.{read_table};
ghost use Rattle.rules.specs.Rows.{bad_map, mapped, given, fill as filled, fill_fault, fills_fault};
ghost use Rattle.laid.specs.Catalog.{TableBytes};
ghost use Rattle.checks.specs.Faults.{broken_rule, fault_of};
ghost use Rattle.laid.specs.Row.{in_flight, ProperRow};
ghost use Rattle.checks.specs.Keys.{values_of};
ghost use Rattle.records.specs.Reading.{times};
ghost use Rattle.mapping.specs.Got.{is_got, got_or};
ghost use Rattle.records.specs.Record.{values_at, map_at};
ghost use Rattle.mapping.specs.Mapped.{map_of, MapIn, given_of, filled_of, rows_at};

use checks::keys::Values;
use checks::schema_fault::Fault;
use laid::catalog;
use laid::row::Row;
use records::record;
use rules::answer::Refusal;
use rules::profile::Profile;
use values::value::Cell;

// The map of an insert: where its column numbers stand.
#[derive(Clone, Copy, PartialEq, Eq, Debug)]
pub struct Map {
    pub at: usize,
    pub count: usize,
}

// The map at a position.
pub fn read_map(rec: &[u8], at: usize) -> Option<Map>
    requires { is_got (map_at rec.now at) ≡ true }
    ensures { (map_of rec.now result ≡ got_or none (map_at rec.now at)) × MapIn rec.now result }
{
    if record::byte_of(rec, at) != 1 {
        return None;
    }
    Some(Map {
        at: at + 2,
        count: record::byte_of(rec, at + 1) as usize,
    })
}

// 24: a map column out of range or twice.
#[tactic(auto, unfolding(crate::specs::Mapped::map_of))]
pub fn is_bad_map(rec: &[u8], m: Option<Map>, columns: usize) -> bool
    requires { MapIn rec.now m }
    ensures { result ≡ bad_map columns (map_of rec.now m) }
{
    let Some(m) = m else {
        return false;
    };
    let named = &rec[m.at..m.at + m.count];
    for (i, x) in named.iter().enumerate() {
        if columns <= *x as usize || named[i + 1..].contains(x) {
            return true;
        }
    }
    false
}

// The value that a map gives column j: that beside the first j among the map's column numbers.
fn mapped_value(named: &[u8], values: Values<'_>, j: usize) -> Option<Cell>
    ensures { (given_of result ≡ mapped named.now (values_of values.entry) j) × IfSome result ProperCell }
{
    for (x, cell) in named.iter().zip(values) {
        if *x as usize == j {
            return Some(cell);
        }
    }
    None
}

// The value given to column j.
#[tactic(auto, unfolding(crate::specs::Mapped::map_of))]
fn given_value(rec: &[u8], m: Option<Map>, mut values: Values<'_>, j: usize) -> Option<Cell>
    requires { MapIn rec.now m }
    ensures { (given_of result ≡ given (map_of rec.now m) (values_of values.entry) j) × IfSome result ProperCell }
{
    match m {
        Some(m) => mapped_value(&rec[m.at..m.at + m.count], values, j),
        None => values.nth(j),
    }
}

// The full row of a table record from given values and defaults; none where a column has neither.
pub fn fill(table: &[u8], p: Profile, rec: &[u8], m: Option<Map>, values: Values<'_>) -> Option<Row>
    requires { TableBytes p table.now × (p.columns ≤ 8) × MapIn rec.now m }
    ensures { (filled_of result ≡ filled (given (map_of rec.now m) (values_of values.entry)) 0 (read_table p table.now).columns) × IfSome result (λ r. ProperRow (in_flight r) × (r.count ≤ 8)) }
{
    let mut row = Row::new();
    for j in 0..catalog::column_count(table) {
        let cell = match given_value(rec, m, values, j) {
            Some(cell) => cell,
            None => catalog::read_column(table, p, j).default?,
        };
        row.push(cell);
    }
    Some(row)
}

// 21, 22, 23 of the row of these values.
fn fill_fault(
    table: &[u8],
    p: Profile,
    rec: &[u8],
    m: Option<Map>,
    values: Values<'_>,
) -> Result<(), Refusal>
    requires { TableBytes p table.now × (p.columns ≤ 8) × MapIn rec.now m × (length (values_of values) ≡ values.count) }
    ensures { broken_rule result ≡ fill_fault (read_table p table.now) (map_of rec.now m) (values_of values.entry) }
{
    if catalog::column_count(table) < values.count {
        return Err(Refusal::TooManyValues);
    }
    if m.is_some_and(|m| m.count != values.count) {
        return Err(Refusal::MapCount);
    }
    match fill(table, p, rec, m, values) {
        Some(_) => Ok(()),
        None => Err(Refusal::NoDefault),
    }
}

// 21, 22, 23 of n rows from `at` on, row by row.
pub fn fills_fault(
    table: &[u8],
    p: Profile,
    rec: &[u8],
    m: Option<Map>,
    at: usize,
    n: usize,
) -> Result<(), Fault>
    requires { TableBytes p table.now × (p.columns ≤ 8) × MapIn rec.now m × (is_got (times (values_at rec.now) n at) ≡ true) }
    ensures { fault_of result ≡ fills_fault (read_table p table.now) (map_of rec.now m) 0 (rows_at rec.now n at) }
{
    let mut q = at;
    for i in 0..n {
        let count = record::byte_of(rec, q) as usize;
        let values = Values {
            bytes: rec,
            at: q + 1,
            count,
        };
        fill_fault(table, p, rec, m, values).map_err(|kind| Fault { kind, at: i })?;
        let Ok(end) = record::values_end(rec, q) else {
            unreachable!();
        };
        q = end;
    }
    Ok(())
}
