// The records of one table, which stand together in an area: how many they are, and a dropped table's rows and index entries taken out all at once.
ghost use Rattle.std.specs.Prelude.{◌≡◌, ◌*◌, ◌≤◌, length, drop};
ghost use Rattle.values.specs.Basic.{is_lt};
ghost use Rattle.values.specs.Meaning.{text_bytes, Packed};
ghost use Rattle.values.specs.Cell.{name_width};
ghost use Rattle.areas.specs.Records.{records};
ghost use Rattle.areas.specs.Sorted.{count_of};
ghost use Rattle.areas.specs.Search.{cmp_named, SearchIn};
ghost use Rattle.rules.specs.Layout.{Rows, Entries};
ghost use Rattle.laid.specs.Catalog.{run_from, RunIn, RunOut};

use super::layout;
use super::layout::{ENTRIES_BYTES, ENTRIES_COUNT, ROWS_BYTES, ROWS_COUNT};
use areas::{area, search};
use rules::profile::Profile;
use values::value::Text;

// How many of the `count` records from place `at` on start with `name`.
pub fn run_from(area: &[u8], width: usize, count: usize, at: usize, name: Text) -> usize
    requires { (name_width ≤ width) × (count * width ≤ length area.now) × (at ≤ count) × Packed name }
    ensures { result ≡ run_from (text_bytes name) (drop at (records width count area.now)) }
{
    for end in at..count {
        let from = end * width;
        if !search::compare_named(&area[from..from + width], name).is_eq() {
            return end - at;
        }
    }
    count - at
}

// Where the records that start with `name` begin among the `count` records, and how many they are.
fn run_of(area: &[u8], width: usize, count: usize, name: Text) -> (usize, usize)
    requires name_width_le_width { (name_width ≤ width) × Packed name }
    requires search_in { SearchIn (λ r. is_lt (cmp_named r (text_bytes name))) area.now count width }
    ensures { (result.0 ≡ count_of (λ x. is_lt (cmp_named x (text_bytes name))) (records width count area.now)) × (result.1 ≡ run_from (text_bytes name) (drop result.0 (records width count area.now))) }
{
    let i = search::named_before(area, count, width, name);
    (i, run_from(area, width, count, i, name))
}

// Takes a table's rows out, all at once.
pub fn drop_rows(s: &mut [u8], p: Profile, places: usize, name: Text)
    requires { RunIn p places Rows (text_bytes name) s.old × Packed name }
    ensures { RunOut p places Rows (text_bytes name) s.old s.new }
{
    let from = layout::rows_at(p);
    let width = layout::row_width(p);
    let count = area::count_at(s, ROWS_COUNT, ROWS_BYTES);
    let (i, n) = run_of(&s[from..], width, count, name);
    area::close_counted(s, ROWS_COUNT, ROWS_BYTES, from, places, width, i, n);
}

// Takes a table's index entries out, all at once.
pub fn drop_entries(s: &mut [u8], p: Profile, places: usize, name: Text)
    requires { RunIn p places Entries (text_bytes name) s.old × Packed name }
    ensures { RunOut p places Entries (text_bytes name) s.old s.new }
{
    let from = layout::entries_at(p, places);
    let width = layout::entry_width(p);
    let most = p.entries * places;
    let count = area::count_at(s, ENTRIES_COUNT, ENTRIES_BYTES);
    let (i, n) = run_of(&s[from..], width, count, name);
    area::close_counted(s, ENTRIES_COUNT, ENTRIES_BYTES, from, most, width, i, n);
}
