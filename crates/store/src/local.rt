// The catalog (local.rs: `create_table`, `drop_table`, `get_table`, `list_tables`, `table_references`).
ghost use Rattle.std.specs.Prelude.{◌≡◌, ◌<◌, length, IfSome};
ghost use Rattle.values.specs.Meaning.{text_bytes, Packed};
ghost use Rattle.rules.specs.Layout.{read_table, parse};
ghost use Rattle.rules.specs.Rows.{first_reference, table_referenced};
ghost use Rattle.rules.specs.Request.{ProperCarried};
ghost use Rattle.rules.specs.Step.{create, drop as dropped};
ghost use Rattle.laid.specs.Store.{Store, Stored};
ghost use Rattle.laid.specs.Catalog.{TableBytes, Catalog, found_at, TableName};
ghost use Rattle.store.specs.Referenced.{reference_of};

use super::schema;
use areas::{area, search};
pub use laid::catalog::get_table;
use laid::layout::{HEADER_WIDTH, TABLES_BYTES, TABLES_COUNT};
use laid::{catalog, layout, run};
use rules::answer::{Answer, Carried, Refusal, Refused};
use rules::profile::Profile;
use values::value::{Text, Value};
use values::{cell, value};

// The name of the table at place i (local.rs: `list_tables`).
pub fn name_at(s: &[u8], p: Profile, places: usize, i: usize) -> Text
    requires { Catalog p places s.now × (i < length (parse p places s.now).tables) }
    ensures { TableName p places s.now i result }
{
    cell::read_name(layout::table_record(s, p, places, i))
}

// Puts a schema into the catalog: 3; 4 to 18; 19.
pub fn create_table(s: &mut [u8], p: Profile, places: usize, rec: &[u8]) -> Answer
    requires { Store p places s.old × TableBytes p rec.now }
    ensures { Stored p places (create p (parse p places s.old) (read_table p rec.now)) s.old s.new result }
{
    let name = cell::read_name(rec);
    if catalog::get_table(s, p, places, name).is_some() {
        return Err(Refused::new(Refusal::TableExists, 0));
    }
    schema::validate(s, p, places, rec)?;
    let count = layout::table_count(s);
    if p.tables <= count {
        return Err(Refused::new(Refusal::TablesFull, 0));
    }
    let width = layout::schema_width(p);
    let i = search::named_before(&s[HEADER_WIDTH..], count, width, name);
    area::open_counted(
        s,
        TABLES_COUNT,
        TABLES_BYTES,
        HEADER_WIDTH,
        p.tables,
        width,
        i,
    );
    area::write_record(s, HEADER_WIDTH, i, rec);
    Ok(0)
}

// The first column of a table record that references `name`.
fn first_reference(rec: &[u8], p: Profile, name: Text) -> Option<usize>
    requires { TableBytes p rec.now × Packed name }
    ensures { found_at result ≡ first_reference (text_bytes name) 0 (read_table p rec.now).columns }
{
    for j in 0..catalog::column_count(rec) {
        if let Some(target) = catalog::read_column(rec, p, j).reference {
            if value::compare_texts(name, target).is_eq() {
                return Some(j);
            }
        }
    }
    None
}

// 20: the first other table by name that references `name`, even an empty one.
pub fn table_references(s: &[u8], p: Profile, places: usize, name: Text) -> Option<Carried>
    requires { Catalog p places s.now × Packed name }
    ensures { (reference_of result ≡ table_referenced (text_bytes name) (parse p places s.now).tables) × IfSome result ProperCarried }
{
    for i in 0..layout::table_count(s) {
        let rec = layout::table_record(s, p, places, i);
        if search::compare_named(rec, name).is_eq() {
            continue;
        }
        if let Some(column) = first_reference(rec, p, name) {
            return Some(Carried {
                table: cell::read_name(rec),
                column,
                key: Value::Null,
            });
        }
    }
    None
}

// Takes a table out of the catalog: 2 unless `lenient` (if-exists), 20; its rows and index entries go with it.
pub fn drop_table(s: &mut [u8], p: Profile, places: usize, name: Text, lenient: bool) -> Answer
    requires { Store p places s.old × Packed name }
    ensures { Stored p places (dropped (parse p places s.old) (text_bytes name) lenient) s.old s.new result }
{
    let Some(i) = catalog::get_table(s, p, places, name) else {
        return if lenient {
            Ok(0)
        } else {
            Err(Refused::new(Refusal::UnknownTable, 0))
        };
    };
    if let Some(carried) = table_references(s, p, places, name) {
        return Err(Refused::carrying(Refusal::TableReferenced, 0, carried));
    }
    run::drop_entries(s, p, places, name);
    run::drop_rows(s, p, places, name);
    area::close_counted(
        s,
        TABLES_COUNT,
        TABLES_BYTES,
        HEADER_WIDTH,
        p.tables,
        layout::schema_width(p),
        i,
        1,
    );
    Ok(1)
}
