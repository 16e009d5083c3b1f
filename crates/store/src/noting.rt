// What stands at a key, noted in an open batch before the row there is changed.
ghost use Rattle.std.specs.Prelude.{◌<◌, length};
ghost use Rattle.rules.specs.State.{key_of};
ghost use Rattle.rules.specs.Journal.{absent, stood};
ghost use Rattle.rules.specs.Layout.{parse};
ghost use Rattle.laid.specs.Store.{LaidStore};
ghost use Rattle.laid.specs.Row.{cells_of, row_in, table_in, FullRow};
ghost use Rattle.journal.specs.Page.{Roomy, Noted};

use journal::page;
use laid::{catalog, layout};
use rules::profile::Profile;
use values::cell;
use values::value::Cell;

// That no row has the key of a row of the table at place t.
pub fn note_new(s: &[u8], p: Profile, places: usize, j: &mut [u8], t: usize, row: &[Cell])
    requires { LaidStore p places s.now × FullRow p places s.now t row.now × Roomy p j.old }
    ensures { Noted p (absent (table_in p places s.now t).name (key_of (table_in p places s.now t) (cells_of row.now))) j.old j.new }
{
    let rec = layout::table_record(s, p, places, t);
    let key = row[catalog::key_column(rec)].value;
    page::note_absent(j, p, cell::read_name(rec), key);
}

// The row at place i.
pub fn note_stored(s: &[u8], p: Profile, places: usize, j: &mut [u8], i: usize)
    requires { LaidStore p places s.now × (i < length (parse p places s.now).rows) × Roomy p j.old }
    ensures { Noted p (stood (row_in p places s.now i)) j.old j.new }
{
    page::note_row(j, p, layout::row_record(s, p, places, i));
}
