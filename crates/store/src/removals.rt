// How many rows go with a request's keys, and whether an open batch has a place for each.
ghost use Rattle.std.specs.Prelude.{◌≡◌, not, ◌&&◌, ◌<◌, length};
ghost use Rattle.values.specs.Value.{among};
ghost use Rattle.values.specs.Meaning.{text_bytes, Packed, meaning, Proper};
ghost use Rattle.rules.specs.State.{has_row};
ghost use Rattle.rules.specs.Journal.{lacks};
ghost use Rattle.rules.specs.Layout.{parse};
ghost use Rattle.rules.specs.Pages.{books_of};
ghost use Rattle.laid.specs.Store.{LaidStore};
ghost use Rattle.laid.specs.Row.{KeyColumn};
ghost use Rattle.journal.specs.Books.{LaidBooks};
ghost use Rattle.checks.specs.Keys.{values_of};
ghost use Rattle.store.specs.Removed.{removals_in};

use checks::keys::Values;
use checks::{keys, row_fault};
use journal::page;
use laid::{catalog, layout};
use rules::profile::Profile;
use values::cell;
use values::value::{Text, Value};

// Whether a row of the table has the key, and the key is not among those values.
fn is_counted(
    s: &[u8],
    p: Profile,
    places: usize,
    name: Text,
    column: usize,
    values: Values<'_>,
    key: Value,
) -> bool
    requires { LaidStore p places s.now × KeyColumn p places s.now (text_bytes name) column × Packed name × Proper key }
    ensures { result ≡ (not (among (meaning key) (values_of values.entry)) && has_row (parse p places s.now).rows (text_bytes name) (meaning key)) }
{
    !keys::is_among(values, key) && row_fault::is_stored(s, p, places, name, column, key)
}

// How many rows of the table at place t go with the keys: a stored row counts with the last of its keys.
fn removal_count(s: &[u8], p: Profile, places: usize, t: usize, values: Values<'_>) -> usize
    requires { LaidStore p places s.now × (t < length (parse p places s.now).tables) }
    ensures { result ≡ length (removals_in p places s.now t (values_of values.entry)) }
{
    let rec = layout::table_record(s, p, places, t);
    let name = cell::read_name(rec);
    let column = catalog::key_column(rec);
    let mut keys = values;
    let mut rows = 0;
    while let Some(cell) = keys.next() {
        if is_counted(s, p, places, name, column, keys, cell.value) {
            rows += 1;
        }
    }
    rows
}

// 43: whether the open batch has fewer places than rows go. A place for each key is enough, without a count of the rows.
pub fn lacks_places(
    s: &[u8],
    p: Profile,
    places: usize,
    j: &[u8],
    t: usize,
    values: Values<'_>,
) -> bool
    requires { LaidBooks p places s.now j.now × (t < length (parse p places s.now).tables) }
    ensures { result ≡ lacks (books_of p places s.now j.now).journal (length (removals_in p places s.now t (values_of values.entry))) }
{
    !page::has_places(j, p, values.count)
        && !page::has_places(j, p, removal_count(s, p, places, t, values))
}
