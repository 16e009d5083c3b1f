// The lines of a request: one after the other from a place on, made from the store and the record when they are asked for; row lines first, then the
// answer. Whole lines, as many as fit.
ghost use Rattle.std.specs.Prelude.{◌≡◌, true, ◌≤◌, ◌<◌, length};
ghost use Rattle.values.specs.Value.{null};
ghost use Rattle.forms.specs.Print.{Front};
ghost use Rattle.values.specs.Meaning.{text_bytes, Packed, meaning, Proper, held, ProperCell};
ghost use Rattle.rules.specs.Layout.{parse};
ghost use Rattle.rules.specs.Request.{Get, Lookup, Scan, Names};
ghost use Rattle.laid.specs.Store.{LaidStore, Store};
ghost use Rattle.laid.specs.Row.{row_in};
ghost use Rattle.checks.specs.Keys.{values_of};
ghost use Rattle.mapping.specs.Got.{is_got, got_or};
ghost use Rattle.records.specs.Record.{request_of};
ghost use Rattle.requests.specs.Lines.{row_line, row_most};
ghost use Rattle.requests.specs.Places.{Lined, Replies, Shows};

use super::line;
use checks::keys::Values;
use forms::read;
use laid::{catalog, layout};
use records::record;
use rules::answer::Answer;
use rules::profile::Profile;
use store::{local, reads};
use values::value::{Cell, Text, Value};
use walks::walk;

// Where a request's lines go on: of get the number of keys passed, of scan and list a place in the store; of lookup the last key.
#[derive(Clone, Copy)]
struct Place {
    at: usize,
    key: Cell,
}

// How many bytes a line took, and the place behind it.
#[derive(Clone, Copy)]
struct Step {
    count: usize,
    place: Place,
}

// How many bytes were written, how many row lines of the request are now written in all, and whether all is written, the answer too.
#[derive(Clone, Copy)]
pub struct Put {
    pub written: usize,
    pub lines: usize,
    pub done: bool,
}

// The key of a place that its number says.
const NO_KEY: Cell = Cell { value: Value::Null };

// The line of the row at place i of the store.
fn put_stored(s: &[u8], p: Profile, places: usize, name: Text, i: usize, out: &mut [u8]) -> usize
    requires { LaidStore p places s.now × (p.columns ≤ 8) × (i < length (parse p places s.now).rows) × Packed name × ((row_in p places s.now i).table ≡ text_bytes name) × (row_most ≤ length out.old) }
    ensures { Front (row_line (row_in p places s.now i).cells) out.old out.new result × (result ≤ row_most) }
{
    let t = catalog::get_table(s, p, places, name).unwrap();
    let columns = catalog::column_count(layout::table_record(s, p, places, t));
    line::put_row(s, p, places, i, columns, out)
}

// Get, `passed` of its keys passed: the row of the next key that is stored.
fn put_got(
    s: &[u8],
    p: Profile,
    places: usize,
    name: Text,
    values: Values<'_>,
    passed: usize,
    out: &mut [u8],
) -> Option<Step>
    requires { LaidStore p places s.now × (p.columns ≤ 8) × Packed name × (row_most ≤ length out.old) }
    ensures { Lined (parse p places s.now) (Get (text_bytes name) (values_of values.entry)) passed null out.old out.new result }
{
    for (k, cell) in values.enumerate().skip(passed) {
        if let Some(i) = reads::get(s, p, places, name, cell.value) {
            return Some(Step {
                count: put_stored(s, p, places, name, i, out),
                place: Place {
                    at: k + 1,
                    key: NO_KEY,
                },
            });
        }
    }
    None
}

// Scan: the next row of the table at place `from` of the store or behind it.
fn put_scanned(
    s: &[u8],
    p: Profile,
    places: usize,
    name: Text,
    from: usize,
    out: &mut [u8],
) -> Option<Step>
    requires { LaidStore p places s.now × (p.columns ≤ 8) × Packed name × (row_most ≤ length out.old) }
    ensures { Lined (parse p places s.now) (Scan (text_bytes name)) from null out.old out.new result }
{
    let i = walk::next_row(s, p, places, name, from)?;
    Some(Step {
        count: put_stored(s, p, places, name, i, out),
        place: Place {
            at: i + 1,
            key: NO_KEY,
        },
    })
}

// Lookup: the next key behind `after`, where the column is indexed.
fn put_looked(
    s: &[u8],
    p: Profile,
    places: usize,
    name: Text,
    column: u8,
    values: Values<'_>,
    after: Value,
    out: &mut [u8],
) -> Option<Step>
    requires { LaidStore p places s.now × Packed name × Proper after × (row_most ≤ length out.old) }
    ensures { Lined (parse p places s.now) (Lookup (text_bytes name) column (values_of values.entry)) 0 (meaning after) out.old out.new result }
{
    let t = catalog::get_table(s, p, places, name)?;
    if !reads::is_indexed(s, p, places, t, column as usize) {
        return None;
    }
    let key = walk::next_key(s, p, places, name, column, values, after)?;
    Some(Step {
        count: line::put_single(out, key),
        place: Place { at: 0, key },
    })
}

// List: the name of the table at place i.
fn put_named(s: &[u8], p: Profile, places: usize, i: usize, out: &mut [u8]) -> Option<Step>
    requires { LaidStore p places s.now × (row_most ≤ length out.old) }
    ensures { Lined (parse p places s.now) Names i null out.old out.new result }
{
    if layout::table_count(s) <= i {
        return None;
    }
    let value = Value::Text(local::name_at(s, p, places, i));
    Some(Step {
        count: line::put_single(out, Cell { value }),
        place: Place {
            at: i + 1,
            key: NO_KEY,
        },
    })
}

// The next line of the request that a record says.
fn put_next(
    s: &[u8],
    p: Profile,
    places: usize,
    rec: &[u8],
    from: Place,
    out: &mut [u8],
) -> Option<Step>
    requires { LaidStore p places s.now × (p.columns ≤ 8) × ProperCell from.key × (row_most ≤ length out.old) × (is_got (request_of rec.now p) ≡ true) }
    ensures { Lined (parse p places s.now) (got_or Names (request_of rec.now p)) from.at (held from.key) out.old out.new result }
{
    let operation = record::byte_of(rec, 1);
    if operation == 9 {
        return put_named(s, p, places, from.at, out);
    }
    let (name, next) = read::name_at(rec, 2).ok()?;
    match operation {
        6 => {
            let values = Values {
                bytes: rec,
                at: next + 1,
                count: record::byte_of(rec, next) as usize,
            };
            put_got(s, p, places, name, values, from.at, out)
        }
        7 => {
            let column = record::byte_of(rec, next);
            let values = Values {
                bytes: rec,
                at: next + 2,
                count: record::byte_of(rec, next + 1) as usize,
            };
            put_looked(s, p, places, name, column, values, from.key.value, out)
        }
        8 => put_scanned(s, p, places, name, from.at, out),
        _ => None,
    }
}

// Writes the lines of the request that a record says, `from` of its row lines being written already, and behind the last row line the answer: whole
// lines, as many as fit.
pub fn put_lines(
    s: &[u8],
    p: Profile,
    places: usize,
    rec: &[u8],
    a: Answer,
    from: usize,
    out: &mut [u8],
) -> Put
    requires store { Store p places s.now × (p.columns ≤ 8) × (is_got (request_of rec.now p) ≡ true) }
    requires replies { Replies p places (parse p places s.now) (request_of rec.now p) a }
    ensures { Shows p places (parse p places s.now) (request_of rec.now p) from out.old out.new result }
{
    let mut line = [0u8; line::ROW_MOST];
    let mut written = 0;
    let mut lines = 0;
    let mut place = Place { at: 0, key: NO_KEY };
    while let Some(step) = put_next(s, p, places, rec, place, &mut line) {
        let n = step.count;
        place = step.place;
        if from <= lines {
            if out.len() - written < n {
                return Put {
                    written,
                    lines,
                    done: false,
                };
            }
            out[written..written + n].copy_from_slice(&line[..n]);
            written += n;
        }
        lines += 1;
    }
    let n = line::put_answer(&mut line, a);
    if out.len() - written < n {
        return Put {
            written,
            lines,
            done: false,
        };
    }
    out[written..written + n].copy_from_slice(&line[..n]);
    Put {
        written: written + n,
        lines,
        done: true,
    }
}
