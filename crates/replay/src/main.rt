// Runs recorded streams and holds lines and final bytes against those that were recorded: `replay LIST..`. A list has, for each case, the number of
// the journal's places, which is 0 where no batch comes, and of row places, two bytes each; the records, the lines, the store at the end, and where
// the journal has places its bytes at the end, each of these after its length.
#![tactic(auto)]

ghost use Rattle.std.specs.Prelude.{◌≡◌, ◌≤◌, length};

use requests::entry;
use requests::entry::Halt;
use sound::fresh;
use std::env;
use std::fs::File;
use std::io::Read;
use std::rt::Files;
use values::bytes;

// The number that the next four bytes of a file spell; 0 at its end.
fn four<F: Read>(from: &mut F) -> usize {
    let mut s = [0u8; 4];
    match from.read_exact(&mut s) {
        Ok(()) => bytes::get(&s) as usize,
        Err(_) => 0,
    }
}

// The next part of a file, after its length, at the front of a buffer; returns how long it is, 0 where it does not fit.
fn part<F: Read>(from: &mut F, out: &mut [u8]) -> usize
    ensures { (length out.new ≡ length out.old) × (result ≤ length out.old) }
{
    let n = four(from);
    if out.len() < n {
        return 0;
    }
    match from.read_exact(&mut out[..n]) {
        Ok(()) => n,
        Err(_) => 0,
    }
}

// Whether the records over a fresh store and the zeros of a journal give the lines and leave the bytes.
fn agrees(
    store: &mut [u8],
    journal: &mut [u8],
    records: &[u8],
    lines: &[u8],
    after: &[u8],
    left: &[u8],
) -> bool {
    if fresh::fresh(store).is_err() {
        return false;
    }
    let mut out = [0u8; 65536];
    let r = entry::many(store, journal, records, true, 0, &mut out);
    matches!(r.halt, Halt::Stopped)
        && out.get(..r.written) == Some(lines)
        && *store == *after
        && *journal == *left
}

// Room for a store with 70 row places.
fn room() -> [u8; 64958]
    ensures { 64958 ≡ length result }
{
    [0; 64958]
}

// The zeros of a journal with 70 places.
fn pages() -> [u8; 16383]
    ensures { 16383 ≡ length result }
{
    [0; 16383]
}

// One case with R row places, 1 to 70, and J places of the journal, 0 to 70. Where J is 0, one with a single place is lent and stays zeros.
fn case<F: Read>(from: &mut F, places: usize, batch: usize) -> bool
    requires places_bound { places ≤ 70 }
    requires batch_bound { batch ≤ 70 }
{
    let mut store = room();
    let mut after = room();
    let mut journal = pages();
    let mut left = pages();
    let mut records = [0u8; 65536];
    let mut lines = [0u8; 65536];
    let n = part(from, &mut records);
    let m = part(from, &mut lines);
    let k = part(from, &mut after);
    let size = 10428 + 779 * places;
    let pages = 3 + 234 * batch.max(1);
    let l = if batch == 0 {
        pages
    } else {
        part(from, &mut left)
    };
    agrees(
        &mut store[..size],
        &mut journal[..pages],
        &records[..n],
        &lines[..m],
        &after[..k],
        &left[..l],
    )
}

#[derive(Clone, Copy)]
struct Tally {
    agree: u64,
    differ: u64,
}

// All cases of a list.
fn all_cases<F: Read>(from: &mut F) -> Tally {
    let mut t = Tally {
        agree: 0,
        differ: 0,
    };
    for _ in 0..1000000u64 {
        let sizes = four(from);
        let batch = sizes / 65536;
        let places = sizes % 65536;
        if places < 1 || 70 < places || 70 < batch {
            return t;
        }
        if case(from, places, batch) {
            t.agree += 1;
        } else {
            t.differ += 1;
        }
    }
    t
}

// The list of a name.
fn replay<R: Files + Print + Eprint>(rt: &R, path: &str) {
    match File::open(rt, path) {
        Ok(mut list) => {
            let Tally { agree, differ } = all_cases(&mut list);
            let _told = println!(rt; "{path} agree {agree} differ {differ}");
        }
        Err(e) => {
            let _told = eprintln!(rt; "{path}: {e}");
        }
    }
}

fn main(rt: HostRuntime) {
    match env::args(&rt) {
        Ok(words) => {
            for path in words.skip(1) {
                replay(&rt, &path);
            }
        }
        Err(e) => {
            let _told = eprintln!(rt; "replay: the names of the lists can't be read: {e}");
        }
    }
}
