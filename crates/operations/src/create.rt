// Operation 1: the schema that a create says, written as a table record, and put into the catalog.
ghost use Rattle.std.specs.Prelude.{◌≡◌, true, length};
ghost use Rattle.values.specs.Bytes.{zeros};
ghost use Rattle.rules.specs.Profile.{column_width, schema_width};
ghost use Rattle.rules.specs.Layout.{column_record, table_record};
ghost use Rattle.laid.specs.Store.{Coded};
ghost use Rattle.journal.specs.Books.{Booked};
ghost use Rattle.std.specs.declared.result.Result.TheVariants.{Ok};
ghost use Rattle.mapping.specs.Got.{is_got};
ghost use Rattle.records.specs.Record.{column_at, create_at};
ghost use Rattle.records.specs.Walked.{walked_as};
ghost use Rattle.operations.specs.Told.{Acted};
ghost use Rattle.operations.specs.Created.{column_of, table_of};

use forms::read;
use journal::page;
use laid::layout;
use records::record;
use rules::answer::{Answer, Refusal, Refused};
use rules::profile::Profile;
use store::local;
use values::cell;

// Writes the column at a position over zeros; returns where it ends.
fn write_column(part: &mut [u8], p: Profile, rec: &[u8], at: usize) -> usize
    requires { Coded p × (length part.old ≡ column_width p) × (zeros part.old ≡ true) × (is_got (column_at rec.now at) ≡ true) }
    ensures { (part.new ≡ column_record p (column_of (column_at rec.now at))) × (Ok result ≡ walked_as (column_at rec.now at)) }
{
    let Ok((name, next)) = read::name_at(rec, at) else {
        unreachable!();
    };
    let flags = record::byte_of(rec, next + 1);
    cell::write_name(&mut part[0..cell::NAME_WIDTH], name);
    part[layout::COLUMN_KIND] = record::byte_of(rec, next);
    part[layout::COLUMN_FLAGS] = flags;
    let mut end = next + 2;
    if flags / layout::DEFAULTED % 2 == 1 {
        let Ok((default, e)) = read::value_at(rec, end) else {
            unreachable!();
        };
        cell::write_cell(
            &mut part[layout::COLUMN_DEFAULT..layout::COLUMN_REFERENCE],
            default,
        );
        end = e;
    }
    if flags / layout::REFERENCES % 2 == 1 {
        let Ok((target, e)) = read::name_at(rec, end) else {
            unreachable!();
        };
        cell::write_name(
            &mut part[layout::COLUMN_REFERENCE..layout::COLUMN_END],
            target,
        );
        end = e;
    }
    end
}

// Writes the table record that a create says over zeros.
fn write_schema(out: &mut [u8], p: Profile, rec: &[u8], at: usize)
    requires { Coded p × (length out.old ≡ schema_width p) × (zeros out.old ≡ true) × (is_got (create_at rec.now p at) ≡ true) }
    ensures { out.new ≡ table_record p (table_of (create_at rec.now p at)) }
{
    let Ok((name, next)) = read::name_at(rec, at) else {
        unreachable!();
    };
    cell::write_name(&mut out[0..cell::NAME_WIDTH], name);
    out[layout::TABLE_KEY] = record::byte_of(rec, next);
    let count = record::byte_of(rec, next + 1);
    out[layout::TABLE_COUNT] = count;
    let width = layout::column_width(p);
    let mut from = layout::TABLE_COLUMNS;
    let mut q = next + 2;
    for _ in 0..count {
        let to = from + width;
        q = write_column(&mut out[from..to], p, rec, q);
        from = to;
    }
}

// 44; 3; 4 to 18; 19.
pub fn create(s: &mut [u8], p: Profile, places: usize, j: &[u8], rec: &[u8], at: usize) -> Answer
    requires { Booked p places s.old j.now × (is_got (create_at rec.now p at) ≡ true) }
    ensures { Acted p places (create_at rec.now p at) s.old j.now s.new j.now result }
{
    if page::is_open(j) {
        return Err(Refused::new(Refusal::InsideBatch, 0));
    }
    let mut room = [0u8; 651];
    let width = layout::schema_width(p);
    write_schema(&mut room[0..width], p, rec, at);
    local::create_table(s, p, places, &room[0..width])
}
