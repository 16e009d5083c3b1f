// Operation 4: what is wrong with the pairs before any is carried out, and a pair's row.
ghost use Rattle.std.specs.Prelude.{◌≡◌, true, ◌≤◌, length};
ghost use Rattle.rules.specs.Layout.{read_table};
ghost use Rattle.rules.specs.Rows.{rising_fault, size_fault};
ghost use Rattle.laid.specs.Catalog.{TableBytes};
ghost use Rattle.checks.specs.Faults.{fault_of};
ghost use Rattle.laid.specs.Row.{in_flight, cells_of, ProperRow};
ghost use Rattle.checks.specs.Keys.{values_of};
ghost use Rattle.records.specs.Reading.{times};
ghost use Rattle.mapping.specs.Got.{is_got};
ghost use Rattle.records.specs.Record.{pair_at};
ghost use Rattle.mapping.specs.Mapped.{pairs_at};

use checks::keys::Values;
use checks::schema_fault::Fault;
use forms::read;
use laid::catalog;
use laid::row::Row;
use records::record;
use rules::answer::Refusal;
use rules::profile::Profile;
use values::value;

// 35: old keys not strictly rising, over all pairs.
pub fn rising_fault(rec: &[u8], at: usize, n: usize) -> Result<(), Fault>
    requires { is_got (times (pair_at rec.now) n at) ≡ true }
    ensures { fault_of result ≡ rising_fault 0 (pairs_at rec.now n at) }
{
    let mut q = at;
    let mut last = None;
    for i in 0..n {
        let Ok((key, next)) = read::value_at(rec, q) else {
            unreachable!();
        };
        if let Some(before) = last
            && !value::compare(before, key.value).is_lt()
        {
            return Err(Fault {
                kind: Refusal::KeysNotRising,
                at: i,
            });
        }
        last = Some(key.value);
        let Ok(end) = record::values_end(rec, next) else {
            unreachable!();
        };
        q = end;
    }
    Ok(())
}

// 25: a row of another size than the table's, over all pairs.
pub fn size_fault(table: &[u8], p: Profile, rec: &[u8], at: usize, n: usize) -> Result<(), Fault>
    requires { TableBytes p table.now × (is_got (times (pair_at rec.now) n at) ≡ true) }
    ensures { fault_of result ≡ size_fault (read_table p table.now) 0 (pairs_at rec.now n at) }
{
    let columns = catalog::column_count(table);
    let mut q = at;
    for i in 0..n {
        let Ok(row) = record::value_end(rec, q) else {
            unreachable!();
        };
        if record::byte_of(rec, row) as usize != columns {
            return Err(Fault {
                kind: Refusal::RowSize,
                at: i,
            });
        }
        let Ok(end) = record::values_end(rec, row) else {
            unreachable!();
        };
        q = end;
    }
    Ok(())
}

// The row of these values.
pub fn read_row(values: Values<'_>) -> Row
    requires { (values.count ≤ 8) × (length (values_of values) ≡ values.count) }
    ensures { (cells_of (in_flight result) ≡ values_of values.entry) × ProperRow (in_flight result) × (length (in_flight result) ≡ values.entry.count) × (result.count ≡ values.entry.count) }
{
    let mut row = Row::new();
    for cell in values {
        row.push(cell);
    }
    row
}
