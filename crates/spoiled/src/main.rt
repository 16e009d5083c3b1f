// Tests lent stores for soundness: a list from standard input has one sound store and then cases, each some changed bytes and the verdict that it
// must get. Shows a line for each case whose verdict is another, and at the end how many were sound, how many not, and how many were wrong.
#![tactic(auto)]

ghost use Rattle.std.specs.Prelude.{◌≡◌, ◌≤◌, length};

use areas::area;
use sound::soundness;
use std::io;
use std::io::{Read, Write};

// The number in the four bytes at a position, 0 where they run past the end.
fn four(s: &[u8], at: usize) -> usize {
    if s.len() < 4 || s.len() - 4 < at {
        return 0;
    }
    area::count_at(s, at, 4)
}

// Makes the changes of a case: each an offset of four bytes and a byte.
fn change(s: &mut [u8], changes: &[u8]) {
    for piece in changes.chunks_exact(5) {
        let offset = four(piece, 0);
        if offset < s.len() {
            s[offset] = piece[4];
        }
    }
}

// A word and a number.
fn say<W: Write>(out: &mut W, word: &str, n: u64) -> io::Result<()> {
    writeln!(out, "{word} {n}")
}

#[derive(Clone, Copy)]
struct Tally {
    sound: u64,
    unsound: u64,
    wrong: u64,
}

// The verdict on one case, counted.
fn judged<W: Write>(
    out: &mut W,
    s: &[u8],
    expected: bool,
    number: u64,
    t: Tally,
) -> io::Result<Tally> {
    let found = soundness::is_sound(s);
    let mut next = t;
    if found != expected {
        say(out, "wrong verdict on case", number)?;
        next.wrong = t.wrong.saturating_add(1);
    }
    if found {
        next.sound = t.sound.saturating_add(1);
    } else {
        next.unsound = t.unsound.saturating_add(1);
    }
    Ok(next)
}

// One case: the store of a list with changes.
fn spoil(s: &mut [u8], list: &[u8], changes: &[u8]) {
    if let Some(store) = list.get(4..4 + s.len()) {
        s.copy_from_slice(store);
        change(s, changes);
    }
}

// All cases of a list, its store made anew for each in a slice of its length.
fn all_cases<W: Write>(out: &mut W, list: &[u8], s: &mut [u8]) -> io::Result<Tally> {
    let mut t = Tally {
        sound: 0,
        unsound: 0,
        wrong: 0,
    };
    let n = s.len();
    if 65536 < n {
        return Ok(t);
    }
    let mut at = 4 + n;
    let mut number: u64 = 0;
    while at < list.len() {
        let count = four(list, at);
        if 65536 < count {
            return Ok(t);
        }
        let end = at + 4 + 5 * count;
        if list.len() <= end {
            return Ok(t);
        }
        spoil(s, list, &list[at + 4..end]);
        t = judged(out, s, list[end] == 1, number, t)?;
        number = number.saturating_add(1);
        at = end + 1;
    }
    Ok(t)
}

// The cases of a list, and how many were what.
fn run<W: Write>(out: &mut W, list: &[u8]) -> io::Result<()> {
    let size = four(list, 0);
    if 16384 < size {
        return Ok(());
    }
    let mut room = [0u8; 16384];
    let t = all_cases(out, list, &mut room[..size])?;
    say(out, "sound", t.sound)?;
    say(out, "not sound", t.unsound)?;
    say(out, "wrong verdicts", t.wrong)
}

// Reads a file to its end, as far as there is room and it can be read, and answers how many bytes that are.
fn read_full<F: Read>(from: &mut F, s: &mut [u8]) -> usize
    ensures count { result ≤ length s.new }
    ensures length { length s.new ≡ length s.old }
{
    let mut count = 0;
    while count < s.len() {
        match from.read(&mut s[count..]) {
            Ok(0) | Err(_) => return count,
            Ok(n) => count += n,
        }
    }
    count
}

fn main(rt: HostRuntime) {
    let mut list = [0u8; 65536];
    let n = read_full(&mut rt.stdin(), &mut list);
    let _ = run(&mut rt.stdout(), &list[..n]);
}
