// Records from one file, answered in lines to another over a lent store and its journal. Only reading, writing and keeping a log stand outside what is proved of
// bytes: `flow` has the rest.
#![tactic(auto)]

pub mod flow; // what stands between two reads, and one turn: over slices alone

ghost use Rattle.std.specs.Prelude.{◌≡◌, ◌<◌, ◌≤◌, true, false, length};
ghost use Rattle.rules.specs.Profile.{full};
ghost use Rattle.journal.specs.Books.{Booked};
ghost use Rattle.requests.specs.Lines.{row_most};
ghost use Rattle.serve.specs.Buffers.{lent};
ghost use Rattle.serve.specs.Course.{record_most, TakenIn, Rested, Course, Served};

use flow::Flow;
use requests::entry::Halt;
use requests::line;
use rules::answer::{Refusal, Refused};
use rules::profile;
use rules::profile::Profile;
use sound::{fresh, journal_test};
use std::fs::File;
use std::io;
use std::io::{Read, Seek, Write};

// How it came to an end.
#[derive(Clone, Copy)]
pub enum End {
    // every record of the input is answered
    Whole,
    // the store or its journal is not sound: 38 was said and nothing was read
    Unsound,
    // the input could not be read on
    Unread(io::Error),
    // the answers could not be written on
    Unwritten(io::Error),
    // the log could not be kept: what came in last is not carried out
    Unlogged(io::Error),
}

// What was done: records answered and bytes read; and of the input's last bytes how many are no whole record yet, or how many are missing of a
// record of bad length.
#[derive(Clone, Copy)]
pub struct Report {
    pub end: End,
    pub records: u64,
    pub bytes: u64,
    pub torn: usize,
    pub missing: usize,
}

// What stands when a piece came in, how many bytes that were, and whether the log has them.
#[derive(Clone, Copy)]
struct Taken {
    flow: Flow,
    count: usize,
    kept: Result<(), End>,
}

// What stands behind the records at hand, how many they were, and how it is over unless more bytes are needed.
#[derive(Clone, Copy)]
struct Rest {
    flow: Flow,
    records: u64,
    end: Option<End>,
}

// What can't be appended whole is cut off again, where it began.
fn append(log: &mut File, piece: &[u8]) -> io::Result<()> {
    let at = log.stream_position();
    let kept = log.write_all(piece).and_then(|()| log.sync_data());
    if kept.is_err()
        && let Ok(end) = at
    {
        let _ = log.set_len(end);
    }
    kept
}

// Appends what came in to the log, where there is one, and waits until the disk has it.
fn keep_log(log: &mut Option<File>, piece: &[u8]) -> io::Result<()> {
    match log {
        Some(file) => append(file, piece),
        None => Ok(()),
    }
}

// Answers all the records at hand, turn by turn.
fn answer_all<O: Write>(
    s: &mut [u8],
    p: Profile,
    places: usize,
    j: &mut [u8],
    input: &mut [u8],
    out: &mut [u8],
    to: &mut O,
    f: Flow,
) -> Rest
    requires booked { Booked p places s.old j.old }
    requires have_in_bounds { f.have ≤ length input.old }
    requires row_most_in_bounds { row_most ≤ length out.old }
    ensures { Rested p places f (lent s.old j.old) (lent s.new j.new) input.old input.new result }
{
    let mut flow = f;
    let mut records: u64 = 0;
    let end = loop {
        let t = flow::take_turn(s, p, places, j, input, out, flow);
        flow = t.flow;
        records = records.wrapping_add(t.ran.count as u64);
        if let Err(e) = to.write_all(&out[..t.ran.written]) {
            break Some(End::Unwritten(e));
        }
        match t.ran.halt {
            Halt::Full => {}
            Halt::Waiting => break None,
            Halt::Stopped => break Some(End::Whole),
            // both are known to be sound
            Halt::Unsound => unreachable!(),
        }
    };
    Rest { flow, records, end }
}

fn told(end: End, records: u64, bytes: u64, f: Flow) -> Report
    ensures { (result.end ≡ end) × (result.torn ≡ f.have) × (result.missing ≡ f.skip) }
{
    Report {
        end,
        records,
        bytes,
        torn: f.have,
        missing: f.skip,
    }
}

// Reads once behind the bytes at hand, where there is room, and appends what came in to the log.
fn take_in<I: Read>(from: &mut I, log: &mut Option<File>, input: &mut [u8], f: Flow) -> Taken
    requires { f.have < length input.old }
    ensures { TakenIn f input.old input.new result }
{
    match from.read(&mut input[f.have..]) {
        Err(e) => Taken {
            flow: flow::arrived(f, 0, input),
            count: 0,
            kept: Err(End::Unread(e)),
        },
        Ok(n) => Taken {
            flow: flow::arrived(f, n, input),
            count: n,
            kept: keep_log(log, &input[f.have..f.have + n]).map_err(End::Unlogged),
        },
    }
}

// Reads the input on, piece by piece, and answers what is at hand. `last` says that nothing follows the input's end, so that a record cut off there is
// answered. Nothing says that a file ends, so the reads are counted up to a number that no run reaches.
fn run<I: Read, O: Write>(
    s: &mut [u8],
    p: Profile,
    places: usize,
    j: &mut [u8],
    input: &mut [u8],
    out: &mut [u8],
    from: &mut I,
    to: &mut O,
    log: &mut Option<File>,
    last: bool,
) -> Report
    requires booked { Booked p places s.old j.old }
    requires record_most_in_bounds { record_most ≤ length input.old }
    requires row_most_in_bounds { row_most ≤ length out.old }
    ensures { Course p places (lent s.old j.old) (lent s.new j.new) last result }
{
    let mut f = flow::start();
    let mut records: u64 = 0;
    let mut bytes: u64 = 0;
    for _ in 0..u64::MAX {
        let taken = take_in(from, log, input, f);
        if let Err(end) = taken.kept {
            return told(end, records, bytes, f);
        }
        if taken.flow.ended && !last {
            return told(End::Whole, records, bytes, f);
        }
        bytes = bytes.wrapping_add(taken.count as u64);
        let rest = answer_all(s, p, places, j, input, out, to, taken.flow);
        records = records.wrapping_add(rest.records);
        f = rest.flow;
        if let Some(end) = rest.end {
            return told(end, records, bytes, f);
        }
    }
    let never = io::Error::from(io::ErrorKind::Other);
    told(End::Unread(never), records, bytes, f)
}

// Tests both once, and runs the input over them; 38 where one is not sound.
fn over<I: Read, O: Write>(
    s: &mut [u8],
    j: &mut [u8],
    from: &mut I,
    to: &mut O,
    log: &mut Option<File>,
    last: bool,
) -> Report
    ensures { Served full (lent s.old j.old) (lent s.new j.new) last result }
{
    let mut input = [0u8; 65536];
    let mut out = [0u8; 65536];
    if !journal_test::are_sound(s, j) {
        let n = line::put_answer(&mut out, Err(Refused::new(Refusal::StoreUnsound, 0)));
        let _ = to.write_all(&out[..n]);
        return told(End::Unsound, 0, 0, flow::start());
    }
    let places = fresh::places_of(s, profile::FULL);
    run(
        s,
        profile::FULL,
        places,
        j,
        &mut input,
        &mut out,
        from,
        to,
        log,
        last,
    )
}

// Answers the records that come from one file in lines to the other. Each piece of the input is appended to the log, if there is one, and on the disk
// before a record in it is carried out and answered.
pub fn serve<I: Read, O: Write>(
    s: &mut [u8],
    j: &mut [u8],
    from: &mut I,
    to: &mut O,
    log: &mut Option<File>,
) -> Report
    ensures { Served full (lent s.old j.old) (lent s.new j.new) true result }
{
    over(s, j, from, to, log, true)
}

// Carries the records of a log out again, without a word: a batch that was open is open again. Where it ends in the middle of a record, the report says
// so.
pub fn replay<I: Read>(s: &mut [u8], j: &mut [u8], log: &mut I) -> Report
    ensures { Served full (lent s.old j.old) (lent s.new j.new) false result }
{
    over(s, j, log, &mut io::sink(), &mut None, false)
}
