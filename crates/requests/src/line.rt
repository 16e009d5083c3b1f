// Single lines: an answer, `ok N` or `no CODE AT GONE`; a row, `row` and its values.
ghost use Rattle.std.specs.Prelude.{◌≡◌, [], ◌∷◌, ◌++◌, ◌+◌, ◌≤◌, ◌<◌, length, take};
ghost use Rattle.forms.specs.Print.{decimal, Front};
ghost use Rattle.values.specs.Meaning.{held, ProperCell};
ghost use Rattle.rules.specs.Layout.{parse};
ghost use Rattle.rules.specs.Refusal.{RecordBroken};
ghost use Rattle.rules.specs.Request.{said, no};
ghost use Rattle.laid.specs.Store.{LaidStore};
ghost use Rattle.laid.specs.Row.{row_in};
ghost use Rattle.requests.specs.Lines.{space, newline, row_line, row_most, answer_line, answer_most};

use forms::print;
use laid::row;
use rules::answer;
use rules::answer::Answer;
use rules::profile::Profile;
use values::value::Cell;

// The longest line of an answer, and of a row.
pub const ANSWER_MOST: usize = 66;

pub const ROW_MOST: usize = 412;

// A space and a number from a position on; returns where they end.
fn put_spaced(out: &mut [u8], from: usize, m: u64) -> usize
    requires { from + 21 ≤ length out.old }
    ensures { Front (take from out.old ++ (space ∷ decimal m)) out.old out.new result × (result ≤ from + 21) }
{
    out[from] = b' ';
    let at = from + 1;
    at + print::put_decimal(&mut out[at..], m)
}

// The same, and a newline.
fn put_last(out: &mut [u8], from: usize, m: u64) -> usize
    requires { from + 22 ≤ length out.old }
    ensures { Front (take from out.old ++ (space ∷ (decimal m ++ (newline ∷ [])))) out.old out.new result × (result ≤ from + 22) }
{
    let n = put_spaced(out, from, m);
    out[n] = b'\n';
    n + 1
}

// Writes the answer's line at the front of a buffer, and returns how many bytes that took.
pub fn put_answer(out: &mut [u8], a: Answer) -> usize
    requires { answer_most ≤ length out.old }
    ensures { Front (answer_line (said a)) out.old out.new result × (result ≤ answer_most) }
{
    match a {
        Ok(count) => {
            out[..2].copy_from_slice(b"ok");
            put_last(out, 2, count as u64)
        }
        Err(f) => {
            out[..2].copy_from_slice(b"no");
            let n = put_spaced(out, 2, answer::number(f.kind));
            let m = put_spaced(out, n, f.at as u64);
            put_last(out, m, u64::from(f.gone))
        }
    }
}

// The line of a broken record: `no 1 0 0`, which is known without its parts.
pub fn put_broken(out: &mut [u8]) -> usize
    requires { answer_most ≤ length out.old }
    ensures { Front (answer_line (no RecordBroken 0)) out.old out.new result }
{
    let text = b"no 1 0 0\n";
    out[..text.len()].copy_from_slice(text);
    text.len()
}

// A line of one value.
pub fn put_single(out: &mut [u8], c: Cell) -> usize
    requires { (row_most ≤ length out.old) × ProperCell c }
    ensures { Front (row_line (held c ∷ [])) out.old out.new result × (result ≤ row_most) }
{
    out[..4].copy_from_slice(b"row ");
    let n = 4 + print::print_value(&mut out[4..], c);
    out[n] = b'\n';
    n + 1
}

// The line of the row at place i of a table with `columns` columns.
pub fn put_row(
    s: &[u8],
    p: Profile,
    places: usize,
    i: usize,
    columns: usize,
    out: &mut [u8],
) -> usize
    requires { LaidStore p places s.now × (i < length (parse p places s.now).rows) × (columns ≡ length (row_in p places s.now i).cells) × (columns ≤ 8) × (row_most ≤ length out.old) }
    ensures { Front (row_line (row_in p places s.now i).cells) out.old out.new result × (result ≤ row_most) }
{
    out[..3].copy_from_slice(b"row");
    let mut n = 3;
    for j in 0..columns {
        out[n] = b' ';
        let from = n + 1;
        n = from + print::print_value(&mut out[from..], row::cell_at(s, p, places, i, j));
    }
    out[n] = b'\n';
    n + 1
}
