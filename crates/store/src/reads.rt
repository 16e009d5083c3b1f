// Reads of rows (local.rs: `get`, `lookup_index`, `scan`): a row by key, a table's rows by place, the keys of an indexed value.
ghost use Rattle.std.specs.Prelude.{◌≡◌, ◌<◌, length};
ghost use Rattle.values.specs.Meaning.{text_bytes, Packed, meaning, Proper};
ghost use Rattle.rules.specs.State.{is_row};
ghost use Rattle.rules.specs.Layout.{parse};
ghost use Rattle.rules.specs.Request.{said};
ghost use Rattle.rules.specs.Step.{is_indexed, lookup};
ghost use Rattle.laid.specs.Store.{LaidStore};
ghost use Rattle.laid.specs.Catalog.{place_of, found_at};
ghost use Rattle.laid.specs.Row.{table_in};
ghost use Rattle.checks.specs.Keys.{values_of};

use checks::keys::Values;
use laid::{catalog, layout, row};
use rules::answer::{Answer, Refusal, Refused};
use rules::profile::Profile;
use values::value::{Text, Value};
use walks::walk;
pub use walks::walk::scan;

// The place of the row with this key; an unknown table has no rows.
pub fn get(s: &[u8], p: Profile, places: usize, name: Text, key: Value) -> Option<usize>
    requires { LaidStore p places s.now × Packed name × Proper key }
    ensures { found_at result ≡ place_of (is_row (text_bytes name) (meaning key)) (parse p places s.now).rows }
{
    let t = catalog::get_table(s, p, places, name)?;
    let column = catalog::key_column(layout::table_record(s, p, places, t));
    row::find_row(s, p, places, name, column, key)
}

// Whether a column of the table at place t is indexed; a column out of range is not.
pub fn is_indexed(s: &[u8], p: Profile, places: usize, t: usize, column: usize) -> bool
    requires { LaidStore p places s.now × (t < length (parse p places s.now).tables) }
    ensures { result ≡ is_indexed (table_in p places s.now t) column }
{
    let rec = layout::table_record(s, p, places, t);
    column < catalog::column_count(rec) && catalog::read_column(rec, p, column).index
}

// Lookup's answer: 2; 37; the number of keys.
pub fn lookup_index(
    s: &[u8],
    p: Profile,
    places: usize,
    name: Text,
    column: u8,
    values: Values<'_>,
) -> Answer
    requires { LaidStore p places s.now × Packed name }
    ensures { said result ≡ (lookup (parse p places s.now) (text_bytes name) column (values_of values.entry)).reply }
{
    let Some(t) = catalog::get_table(s, p, places, name) else {
        return Err(Refused::new(Refusal::UnknownTable, 0));
    };
    if !is_indexed(s, p, places, t, usize::from(column)) {
        return Err(Refused::new(Refusal::NotIndexed, 0));
    }
    Ok(walk::key_count(s, p, places, name, column, values))
}
