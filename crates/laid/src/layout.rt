// Where things stand in a store: widths and offsets of a profile, the header's counts, records by place.
#![tactic(auto, unfolding(rules::specs::Profile::column_width, rules::specs::Profile::schema_width, rules::specs::Profile::row_width, rules::specs::Profile::entry_width, rules::specs::Profile::rows_at, rules::specs::Profile::entries_at, rules::specs::Profile::place_width, rules::specs::Profile::store_length))]

ghost use Rattle.std.specs.Prelude.{◌≡◌, [], ◌≤◌, ◌<◌, length, get_or};
ghost use Rattle.areas.specs.Counted.{count_at};
ghost use Rattle.rules.specs.Profile.{header_width, column_width, schema_width, row_width, entry_width, rows_at, entries_at, place_width, store_length, places_most, Known};
ghost use Rattle.rules.specs.Layout.{tables_count, rows_count, entries_count, lists};
ghost use Rattle.laid.specs.Store.{Inside};

use areas::{area, search};
use rules::profile::Profile;
use values::cell;

// The header: the store's length, the version, and the counts of tables, rows and index entries, each of so many bytes.
pub const LENGTH_BYTES: usize = 4;

pub const VERSION: usize = LENGTH_BYTES;

pub const TABLES_COUNT: usize = VERSION + 1;

pub const TABLES_BYTES: usize = 1;

pub const ROWS_COUNT: usize = TABLES_COUNT + TABLES_BYTES;

pub const ROWS_BYTES: usize = 2;

pub const ENTRIES_COUNT: usize = ROWS_COUNT + ROWS_BYTES;

pub const ENTRIES_BYTES: usize = 4;

pub const HEADER_WIDTH: usize = ENTRIES_COUNT + ENTRIES_BYTES;

// A table's record: its name, the key column, how many columns, the columns.
pub const TABLE_KEY: usize = cell::NAME_WIDTH;

pub const TABLE_COUNT: usize = TABLE_KEY + 1;

pub const TABLE_COLUMNS: usize = TABLE_COUNT + 1;

// A column in it: its name, the kind's number, the flags, the default, the table referred to.
pub const COLUMN_KIND: usize = cell::NAME_WIDTH;

pub const COLUMN_FLAGS: usize = COLUMN_KIND + 1;

pub const COLUMN_DEFAULT: usize = COLUMN_FLAGS + 1;

pub const COLUMN_REFERENCE: usize = COLUMN_DEFAULT + cell::CELL_WIDTH;

pub const COLUMN_END: usize = COLUMN_REFERENCE + cell::NAME_WIDTH;

// The flags of a column.
pub const NULLABLE: u8 = 1;

pub const DEFAULTED: u8 = 2;

pub const UNIQUE: u8 = 4;

pub const INDEXED: u8 = 8;

pub const REFERENCES: u8 = 16;

pub const FLAGS_MOST: u8 = 31;

// What a column has besides its default.
const COLUMN_REST: usize = COLUMN_DEFAULT + cell::NAME_WIDTH;

pub fn column_width(p: Profile) -> usize
    requires { Known p }
    ensures { result ≡ column_width p }
{
    COLUMN_REST + p.cell
}

pub fn schema_width(p: Profile) -> usize
    requires { Known p }
    ensures { result ≡ schema_width p }
{
    TABLE_COLUMNS + p.columns * column_width(p)
}

pub fn row_width(p: Profile) -> usize
    requires { Known p }
    ensures { result ≡ row_width p }
{
    cell::NAME_WIDTH + p.columns * p.cell
}

pub fn entry_width(p: Profile) -> usize
    requires { Known p }
    ensures { result ≡ entry_width p }
{
    search::ENTRY_VALUE + p.cell + p.cell
}

// Where the rows start.
pub fn rows_at(p: Profile) -> usize
    requires { Known p }
    ensures { result ≡ rows_at p }
{
    HEADER_WIDTH + p.tables * schema_width(p)
}

// Where the index entries of a store with this many row places start.
pub fn entries_at(p: Profile, places: usize) -> usize
    requires { Known p × (places ≤ places_most) }
    ensures { result ≡ entries_at p places }
{
    rows_at(p) + places * row_width(p)
}

// Bytes for each row place: a row and its index entries.
pub fn place_width(p: Profile) -> usize
    requires { Known p }
    ensures { result ≡ place_width p }
{
    row_width(p) + p.entries * entry_width(p)
}

pub fn store_length(p: Profile, places: usize) -> usize
    requires { Known p × (places ≤ places_most) }
    ensures { result ≡ store_length p places }
{
    entries_at(p, places) + p.entries * places * entry_width(p)
}

pub fn table_count(s: &[u8]) -> usize
    requires { header_width ≤ length s.now }
    ensures { result ≡ count_at tables_count 1 s.now }
{
    area::count_at(s, TABLES_COUNT, TABLES_BYTES)
}

pub fn row_count(s: &[u8]) -> usize
    requires { header_width ≤ length s.now }
    ensures { result ≡ count_at rows_count 2 s.now }
{
    area::count_at(s, ROWS_COUNT, ROWS_BYTES)
}

pub fn entry_count(s: &[u8]) -> usize
    requires { header_width ≤ length s.now }
    ensures { result ≡ count_at entries_count 4 s.now }
{
    area::count_at(s, ENTRIES_COUNT, ENTRIES_BYTES)
}

// The record of the table at place i.
pub fn table_record(s: &[u8], p: Profile, places: usize, i: usize) -> &[u8]
    requires inside { Inside p places s.now }
    requires i_in_bounds { i < length (lists p places s.now).schemas }
    ensures { result.now ≡ get_or (lists p places s.now).schemas i [] }
{
    area::record_at(s, HEADER_WIDTH, schema_width(p), i)
}

// The record of the row at place i.
pub fn row_record(s: &[u8], p: Profile, places: usize, i: usize) -> &[u8]
    requires inside { Inside p places s.now }
    requires i_in_bounds { i < length (lists p places s.now).rows }
    ensures { result.now ≡ get_or (lists p places s.now).rows i [] }
{
    area::record_at(s, rows_at(p), row_width(p), i)
}

// The record of the index entry at place i.
pub fn entry_record(s: &[u8], p: Profile, places: usize, i: usize) -> &[u8]
    requires inside { Inside p places s.now }
    requires i_in_bounds { i < length (lists p places s.now).entries }
    ensures { result.now ≡ get_or (lists p places s.now).entries i [] }
{
    area::record_at(s, entries_at(p, places), entry_width(p), i)
}
