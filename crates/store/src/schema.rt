// What is wrong with a schema against the catalog (schema.rs: `Table::validate`, 4 to 18), and with a row against the store (`validate_row`: 26, 27, each
// column 28 to 31, 34, 33).
ghost use Rattle.std.specs.Prelude.{◌≡◌};
ghost use Rattle.rules.specs.Layout.{read_table, parse};
ghost use Rattle.rules.specs.Rows.{row_fault};
ghost use Rattle.laid.specs.Store.{Store};
ghost use Rattle.laid.specs.Catalog.{TableBytes, Catalog};
ghost use Rattle.checks.specs.Faults.{broken_rule, fault_of};
ghost use Rattle.laid.specs.Row.{cells_of, table_in, FullRow};
ghost use Rattle.rules.specs.Schema.{schema_fault};

use checks::schema_fault::Fault;
use checks::{row_fault, schema_fault};
use laid::{catalog, layout};
use rules::answer::Refusal;
use rules::profile::Profile;
use values::value::Cell;
use values::{cell, value};

// What is wrong with a schema against the catalog: 4 to 6, each column in turn 7 to 17, 18.
pub fn validate(s: &[u8], p: Profile, places: usize, rec: &[u8]) -> Result<(), Fault>
    requires { Catalog p places s.now × TableBytes p rec.now }
    ensures { fault_of result ≡ schema_fault (parse p places s.now).tables (read_table p rec.now) }
{
    if rec[0] == 0 {
        return Err(Fault {
            kind: Refusal::EmptyTableName,
            at: 0,
        });
    }
    let count = catalog::column_count(rec);
    if count == 0 {
        return Err(Fault {
            kind: Refusal::NoColumns,
            at: 0,
        });
    }
    if count <= catalog::key_column(rec) {
        return Err(Fault {
            kind: Refusal::KeyColumnOutOfRange,
            at: 0,
        });
    }
    schema_fault::columns_fault(s, p, places, rec)?;
    schema_fault::repeat_fault(rec, p)
}

// A full row of the table at place t: 26, 27; each column 28 to 31; 34; 33.
pub fn validate_row(
    s: &[u8],
    p: Profile,
    places: usize,
    t: usize,
    row: &[Cell],
    update: bool,
) -> Result<(), Refusal>
    requires { Store p places s.now × FullRow p places s.now t row.now }
    ensures { broken_rule result ≡ row_fault p places (parse p places s.now) (table_in p places s.now t) update (cells_of row.now) }
{
    let rec = layout::table_record(s, p, places, t);
    let at = catalog::key_column(rec);
    let key = row[at].value;
    if value::is_undefined(key) {
        return Err(Refusal::KeyUndefined);
    }
    let stored = row_fault::is_stored(s, p, places, cell::read_name(rec), at, key);
    if stored && !update {
        return Err(Refusal::KeyExists);
    }
    row_fault::cells_fault(s, p, places, t, row, update)?;
    row_fault::place_fault(s, p, places, stored, update)
}
