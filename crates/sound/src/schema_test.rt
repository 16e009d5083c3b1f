// The test of the schemas: each is a table's record, they are sorted by name, and each passes 4 to 18.
ghost use Rattle.std.specs.Prelude.{◌≡◌, cond, ◌≤◌, length, drop};
ghost use Rattle.values.specs.Bytes.{zeros};
ghost use Rattle.values.specs.Basic.{is_lt, is_none};
ghost use Rattle.values.specs.Area.{part};
ghost use Rattle.values.specs.Cell.{name_width, cell_width, is_name_cell, is_cell};
ghost use Rattle.areas.specs.Records.{records};
ghost use Rattle.rules.specs.Profile.{column_width, schema_width};
ghost use Rattle.rules.specs.State.{cmp_table};
ghost use Rattle.rules.specs.Schema.{schema_fault};
ghost use Rattle.rules.specs.Layout.{lists, read_table, parse};
ghost use Rattle.rules.specs.Sound.{every, sorted, faultless};
ghost use Rattle.laid.specs.Store.{Coded, Inside};
ghost use Rattle.sound.specs.Tested.{is_column, is_table, cataloged};
ghost use Rattle.laid.specs.Catalog.{TableBytes, Catalog};

use areas::search;
use laid::{catalog, layout};
use rules::profile::Profile;
use store::schema;
use values::{bytes, cell};

// A default where its flag is set, zeros where not.
fn is_default(part: &[u8], set: bool) -> bool
    requires { length part.now ≡ cell_width }
    ensures { result ≡ cond set (is_cell part.now) (zeros part.now) }
{
    if set {
        cell::is_cell(part)
    } else {
        bytes::all_zero(part)
    }
}

// A reference where its flag is set, zeros where not.
fn is_reference(part: &[u8], set: bool) -> bool
    requires { length part.now ≡ name_width }
    ensures { result ≡ cond set (is_name_cell part.now) (zeros part.now) }
{
    if set {
        cell::is_name_cell(part)
    } else {
        bytes::all_zero(part)
    }
}

// Whether the bytes are a column's.
#[tactic(auto, using(crate::proofs::RecordPieces::column_pieces), unfolding(rules::specs::Profile::column_width, rules::specs::Sound::all))]
fn is_column(col: &[u8], p: Profile) -> bool
    requires { Coded p × (length col.now ≡ column_width p) }
    ensures { result ≡ is_column p col.now }
{
    let flags = col[layout::COLUMN_FLAGS];
    cell::is_name_cell(&col[0..cell::NAME_WIDTH])
        && flags <= layout::FLAGS_MOST
        && is_default(
            &col[layout::COLUMN_DEFAULT..layout::COLUMN_REFERENCE],
            flags / layout::DEFAULTED % 2 == 1,
        )
        && is_reference(
            &col[layout::COLUMN_REFERENCE..layout::COLUMN_END],
            flags / layout::REFERENCES % 2 == 1,
        )
        && matches!(col[layout::COLUMN_KIND], 1..=4)
}

// Whether the first `count` columns of a table's record are columns.
#[tactic(auto, using(crate::proofs::Walks::parts))]
fn are_columns(rec: &[u8], p: Profile, count: usize) -> bool
    requires { Coded p × (length rec.now ≡ schema_width p) × (count ≤ p.columns) }
    ensures { result ≡ every (is_column p) (records (column_width p) count (drop 27 rec.now)) }
{
    let width = layout::column_width(p);
    for i in 0..count {
        let from = layout::TABLE_COLUMNS + i * width;
        if !is_column(&rec[from..from + width], p) {
            return false;
        }
    }
    true
}

// Whether the bytes are a table's record.
#[tactic(auto, using(crate::proofs::Asking::table_tests), unfolding(rules::specs::Profile::schema_width, rules::specs::Sound::all))]
fn is_table(rec: &[u8], p: Profile) -> bool
    requires { Coded p × (length rec.now ≡ schema_width p) }
    ensures { result ≡ is_table p rec.now }
{
    let count = catalog::column_count(rec);
    cell::is_name_cell(&rec[0..cell::NAME_WIDTH])
        && count <= p.columns
        && are_columns(rec, p, count)
        && bytes::all_zero(&rec[layout::TABLE_COLUMNS + count * layout::column_width(p)..])
}

// Whether every schema is a table's record.
#[tactic(auto, using(crate::proofs::Walks::walk))]
pub fn are_tables(s: &[u8], p: Profile, places: usize) -> bool
    requires { Inside p places s.now }
    ensures { result ≡ every (is_table p) (lists p places s.now).schemas }
{
    for i in 0..layout::table_count(s) {
        if !is_table(layout::table_record(s, p, places, i), p) {
            return false;
        }
    }
    true
}

// Whether a table's record comes before another by name.
#[tactic(auto, using(crate::proofs::Asking::named_order))]
fn is_table_before(a: &[u8], b: &[u8], p: Profile) -> bool
    requires { (name_width ≤ length a.now) × (name_width ≤ length b.now) }
    ensures { result ≡ is_lt (cmp_table (read_table p a.now) (read_table p b.now)) }
{
    search::compare_named(a, cell::read_name(b)).is_lt()
}

// Whether the tables are sorted by name.
#[tactic(auto, using(crate::proofs::Walks::rising), unfolding(rules::specs::Profile::schema_width))]
pub fn are_tables_sorted(s: &[u8], p: Profile, places: usize) -> bool
    requires { Inside p places s.now }
    ensures { result ≡ sorted cmp_table (parse p places s.now).tables }
{
    for i in 1..layout::table_count(s) {
        let a = layout::table_record(s, p, places, i - 1);
        let b = layout::table_record(s, p, places, i);
        if !is_table_before(a, b, p) {
            return false;
        }
    }
    true
}

// Whether the schemas are tables' records, sorted by name.
#[tactic(auto, unfolding(crate::specs::Tested::cataloged, rules::specs::Sound::all))]
pub fn is_cataloged(s: &[u8], p: Profile, places: usize) -> bool
    requires { Inside p places s.now }
    ensures { result ≡ cataloged p places s.now }
{
    are_tables(s, p, places) && are_tables_sorted(s, p, places)
}

// Whether a schema passes 4 to 18.
fn is_faultless(s: &[u8], p: Profile, places: usize, rec: &[u8]) -> bool
    requires { Catalog p places s.now × TableBytes p rec.now }
    ensures { result ≡ is_none (schema_fault (parse p places s.now).tables (read_table p rec.now)) }
{
    schema::validate(s, p, places, rec).is_ok()
}

// Whether every schema passes 4 to 18.
#[tactic(auto, using(crate::proofs::Walks::walk), unfolding(rules::specs::Sound::faultless))]
pub fn are_faultless(s: &[u8], p: Profile, places: usize) -> bool
    requires { Catalog p places s.now }
    ensures { result ≡ faultless (parse p places s.now).tables }
{
    for i in 0..layout::table_count(s) {
        if !is_faultless(s, p, places, layout::table_record(s, p, places, i)) {
            return false;
        }
    }
    true
}
