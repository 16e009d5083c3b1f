// Reads records from standard input into a fresh store with 70 row places, and a journal with 8,192, and writes their lines to standard output.
// `kiosk LOG` keeps the records: it begins with those that LOG has, and what comes in is appended and on the disk before it is carried out and
// answered. A batch that LOG leaves open is open again.
//
// Where something was not done, the last line on standard error begins with `kiosk: not done:`, for a script to test. Where LOG was not
// empty, a line says what was taken over.
#![tactic(auto)]

mod log; // the file that the records are kept in
mod search; // whether a record begins in a file

use files::say;
use serve::End;
use sound::fresh;
use std::fs::File;
use std::io;
use std::io::{IsTerminal, Read};
use std::rt::Files;

// Answers what comes in, and says why where it stops before the input's end.
fn answer<R: Print + Eprint, I: Read + IsTerminal>(
    rt: &R,
    s: &mut [u8],
    j: &mut [u8],
    from: &mut I,
    log: &mut Option<File>,
    name: &str,
) {
    if from.is_terminal() {
        let _said = eprintln!(rt;
            "kiosk: waits for records, which are bytes and no text, from this terminal"
        );
    }
    let report = serve::serve(s, j, from, &mut io::writer(rt), log);
    match report.end {
        End::Whole => {}
        End::Unread(e) => {
            say::complain(rt, "standard input", e);
            say::tell_undone(rt, "kiosk", "", "the input is not read to its end");
        }
        End::Unlogged(e) => {
            say::complain(rt, name, e);
            say::tell_undone(
                rt,
                "kiosk",
                name,
                " does not have what came in last, which is not carried out",
            );
        }
        End::Unwritten(e) => {
            say::complain(rt, "standard output", e);
            say::tell_undone(rt, "kiosk", "", "not every answer is written");
        }
        // never: both are fresh, or what a log left
        End::Unsound => {
            say::tell_undone(rt, "kiosk", "", "not every answer is written");
        }
    }
}

// Answers over the records that a log has.
fn answer_with_log<R: Files<File = File> + Print + Eprint, I: Read + IsTerminal>(
    rt: &R,
    s: &mut [u8],
    j: &mut [u8],
    from: &mut I,
    name: &str,
) {
    let Some(mut log) = log::open(rt, name) else {
        say::tell_undone(rt, "kiosk", name, " is as it was, and nothing is answered");
        return;
    };
    if !log::take_over(rt, s, j, &mut log, name) {
        say::tell_undone(
            rt,
            "kiosk",
            name,
            " is not taken over, and nothing is answered",
        );
        return;
    }
    drop(log);
    match say::or_complain(rt, name, log::open_end(rt, name)) {
        Some(end) => answer(rt, s, j, from, &mut Some(end), name),
        None => say::tell_undone(
            rt,
            "kiosk",
            name,
            " can't be added to, and nothing is answered",
        ),
    }
}

const USAGE: &str = "usage: kiosk [LOG] < RECORDS
Answers records from standard input, which are bytes, over a store with 70 row places; a batch has 8192.
With LOG the records are kept there, and those that it has are carried out first: an open batch stays open.
Where something is not done, the last line on standard error begins with 'kiosk: not done:'.";

// Over a fresh store and the zeros of a journal, with a log or without one. The journal's type says its length: of a new array lent as a
// slice the prover would count the zeros, for which it lacks the stack.
fn begin<R: Files<File = File> + Print + Eprint, I: Read + IsTerminal>(
    rt: &R,
    s: &mut [u8],
    journal: &mut [u8; 1916931],
    from: &mut I,
    names: &[String],
) {
    match names.first() {
        None => answer(rt, s, journal, from, &mut None, ""),
        Some(name) => {
            if files::is_name(name) {
                answer_with_log(rt, s, journal, from, name);
            } else {
                say::tell_undone(rt, "kiosk", "", "the name of LOG is empty or too long");
            }
        }
    }
}

// With the names that are given.
fn run<R: Files<File = File> + Print + Eprint, I: Read + IsTerminal>(
    rt: &R,
    from: &mut I,
    names: &[String],
) {
    if files::asks_help(names) {
        let _told = rt.println(USAGE);
        return;
    }
    if 1 < names.len() {
        let _told = rt.eprintln(USAGE);
        say::tell_undone(rt, "kiosk", "", "there is more than one name");
        return;
    }
    let mut store = [0u8; 64958];
    let _empty = fresh::fresh(&mut store);
    let mut journal = [0u8; 1916931];
    begin(rt, &mut store, &mut journal, from, names);
}

fn main(rt: HostRuntime) {
    let held = files::hold_standard(&rt);
    match files::names(&rt) {
        Ok(names) => run(&rt, &mut rt.stdin(), &names),
        Err(e) => say::tell_undone(&rt, "kiosk", "", files::no_names(e)),
    }
    drop(held);
}
