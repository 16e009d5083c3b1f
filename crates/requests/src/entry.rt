// The entries: one record over a lent store and its journal, and many records over both tested once. They take any bytes whatever.
ghost use Rattle.std.specs.Prelude.{◌≡◌, true, ◌≤◌, length};
ghost use Rattle.forms.specs.Print.{Front};
ghost use Rattle.rules.specs.Profile.{full};
ghost use Rattle.rules.specs.Request.{said};
ghost use Rattle.journal.specs.Books.{Booked};
ghost use Rattle.records.specs.Record.{request_of};
ghost use Rattle.requests.specs.Lines.{row_most, answer_line};
ghost use Rattle.requests.specs.Stream.{whole_of, Lent, Answered, Runs, Many};

use super::lines::Put;
use super::{line, lines};
use operations::operate;
use records::frame::Framed;
use records::{frame, record};
use rules::answer::{Answer, Refusal, Refused};
use rules::profile;
use rules::profile::Profile;
use sound::{fresh, journal_test};

// Why a run came to its end.
#[derive(Clone, Copy)]
pub enum Halt {
    // the output has no room for the next line, or none for the longest one to begin a record
    Full,
    // more bytes are needed
    Waiting,
    // the input is at its end
    Stopped,
    // the store or its journal is not sound
    Unsound,
}

// How far a run came: bytes of the input passed, bytes to pass over in what follows it, records answered, bytes written, and how many row lines of
// the next record are written.
#[derive(Clone, Copy)]
pub struct Ran {
    pub halt: Halt,
    pub taken: usize,
    pub skip: usize,
    pub count: usize,
    pub written: usize,
    pub lines: usize,
}

// One record, its two length bytes included, over a lent store and its journal: 38; 1; the request's own answer.
pub fn one(s: &mut [u8], j: &mut [u8], rec: &[u8]) -> Answer
    ensures { Lent full (whole_of full rec.now) s.old j.old s.new j.new result }
{
    if !journal_test::are_sound(s, j) {
        return Err(Refused::new(Refusal::StoreUnsound, 0));
    }
    let places = fresh::places_of(s, profile::FULL);
    match frame::next_record(rec, true) {
        Framed::Whole(n) if n == rec.len() => {
            operate::execute(s, profile::FULL, places, j, &rec[2..])
        }
        _ => Err(Refused::new(Refusal::RecordBroken, 0)),
    }
}

// A line for an answer that has no row lines.
fn put_only(out: &mut [u8], a: Answer) -> Put
    requires { row_most ≤ length out.old }
    ensures { Front (answer_line (said a)) out.old out.new result.written × (result.lines ≡ 0) × (result.done ≡ true) }
{
    Put {
        written: line::put_answer(out, a),
        lines: 0,
        done: true,
    }
}

// The request that a record says, from the version byte on, carried out and its lines written, `from` of its row lines being written already. Where
// not all of them fit, it was a read, and can be asked again.
fn answer_record(
    s: &mut [u8],
    p: Profile,
    places: usize,
    j: &mut [u8],
    rec: &[u8],
    from: usize,
    out: &mut [u8],
) -> Put
    requires { Booked p places s.old j.old × (row_most ≤ length out.old) }
    ensures { Answered p places (request_of rec.now p) from s.old j.old s.new j.new out.old out.new result }
{
    if record::walk(rec, p).is_err() {
        return put_only(out, Err(Refused::new(Refusal::RecordBroken, 0)));
    }
    let k = record::byte_of(rec, 1);
    if operate::is_read(k) {
        let a = operate::ask(s, p, places, rec, k);
        return lines::put_lines(s, p, places, rec, a, from, out);
    }
    let a = operate::write(s, p, places, j, rec, k);
    put_only(out, a)
}

// The records of an input one after the other over a store and a journal that are known to be sound and stay so, `from` row lines of the first being
// written already: for whoever has tested both and lent them to nobody else since.
pub fn run(
    s: &mut [u8],
    p: Profile,
    places: usize,
    j: &mut [u8],
    input: &[u8],
    ended: bool,
    from: usize,
    out: &mut [u8],
) -> Ran
    requires { Booked p places s.old j.old }
    ensures { Runs p places input.now ended from s.old j.old s.new j.new out.old out.new result }
{
    let mut taken = 0;
    let mut skip = 0;
    let mut count = 0;
    let mut written = 0;
    let mut lines = from;
    let halt = loop {
        if out.len() - written < line::ROW_MOST {
            break Halt::Full;
        }
        match frame::next_record(&input[taken..], ended) {
            Framed::Whole(n) => {
                let end = taken + n;
                let rec = &input[taken + 2..end];
                let put = answer_record(s, p, places, j, rec, lines, &mut out[written..]);
                written += put.written;
                lines = put.lines;
                if !put.done {
                    break Halt::Full;
                }
                taken = end;
            }
            Framed::Skip(n) => {
                written += line::put_broken(&mut out[written..]);
                let left = input.len() - taken;
                if left < n {
                    skip = n - left;
                    taken = input.len();
                } else {
                    taken += n;
                }
            }
            Framed::More => break Halt::Waiting,
            Framed::Cut => {
                written += line::put_broken(&mut out[written..]);
                taken = input.len();
            }
            Framed::Done => break Halt::Stopped,
        }
        count += 1;
        lines = 0;
    };
    Ran {
        halt,
        taken,
        skip,
        count,
        written,
        lines,
    }
}

// Many records over a lent store and its journal, tested once: 38 once, or each record's lines, `from` row lines of the first being written already.
// `ended` says that the input has no more bytes than these.
pub fn many(
    s: &mut [u8],
    j: &mut [u8],
    input: &[u8],
    ended: bool,
    from: usize,
    out: &mut [u8],
) -> Ran
    ensures { Many full input.now ended from s.old j.old s.new j.new out.old out.new result }
{
    if !journal_test::are_sound(s, j) {
        let mut written = 0;
        if line::ANSWER_MOST <= out.len() {
            written = line::put_answer(out, Err(Refused::new(Refusal::StoreUnsound, 0)));
        }
        return Ran {
            halt: Halt::Unsound,
            taken: 0,
            skip: 0,
            count: 0,
            written,
            lines: from,
        };
    }
    let places = fresh::places_of(s, profile::FULL);
    run(s, profile::FULL, places, j, input, ended, from, out)
}
