// Runs files of records over lent stores and their journals: `lent STORE JOURNAL RECORDS STORE_AFTER JOURNAL_AFTER` reads the first three, writes
// the lines to standard output, and the bytes of store and journal afterwards take the places of the last two files, whole or not at all. More
// fives of files may follow.
//
// Nothing is on standard error where all went well. Else its last line begins with `lent: not done:` and names the last two files, for a script
// to test; where one of them is replaced and the other is not, it says which.
#![tactic(auto)]

mod keep; // two files replaced whole

use files::say;
use keep::{After, Kept};
use serve::End;
use std::fs::File;
use std::io;
use std::io::Read;
use std::rt::Files;

// The five names of a case.
#[derive(Clone, Copy)]
struct Case<'a> {
    store: &'a str,
    journal: &'a str,
    records: &'a str,
    store_after: &'a str,
    journal_after: &'a str,
}

// Says why not every record is answered, and answers whether all are.
fn is_whole(rt: &impl Eprint, end: End, case: &Case<'_>) -> bool {
    match end {
        End::Whole => {
            return true;
        }
        End::Unsound => {
            say::complain(
                rt,
                case.store,
                "this is no sound store, or its journal is not sound",
            );
        }
        End::Unread(e) => {
            say::complain(rt, case.records, e);
        }
        End::Unwritten(e) | End::Unlogged(e) => {
            say::complain(rt, "standard output", e);
        }
    }
    false
}

// The records of an open file over store and journal, which then take the places of the last two. Whether both can be kept is tried before anything
// is answered.
fn run<R: Files + Print + Eprint + AllocGlobal, F: Read>(
    rt: &R,
    s: &mut [u8],
    j: &mut [u8],
    from: &mut F,
    case: &Case<'_>,
) -> Kept {
    let Some(folders) = keep::prepare(
        rt,
        &After {
            name: case.store_after,
            bytes: s,
        },
        &After {
            name: case.journal_after,
            bytes: j,
        },
    ) else {
        return Kept::No;
    };
    let report = serve::serve(s, j, from, &mut io::writer(rt), &mut None);
    if !is_whole(rt, report.end, case) {
        return Kept::No;
    }
    keep::replace(
        rt,
        &folders,
        &After {
            name: case.store_after,
            bytes: s,
        },
        &After {
            name: case.journal_after,
            bytes: j,
        },
    )
}

// Opens a file for reading, or says why it can't be.
fn open<R: Files + Eprint>(rt: &R, name: &str) -> Option<R::File> {
    say::or_complain(rt, name, File::open(rt, name))
}

// The bytes of two open files as store and journal, read into slices, and the records over them.
fn take<R: Files + Print + Eprint + AllocGlobal>(
    rt: &R,
    file: &mut R::File,
    s: &mut [u8],
    page: &mut R::File,
    j: &mut [u8],
    case: &Case<'_>,
) -> Kept {
    let Some(n) = say::or_complain(rt, case.store, files::load(file, s)) else {
        return Kept::No;
    };
    let Some(m) = say::or_complain(rt, case.journal, files::load(page, j)) else {
        return Kept::No;
    };
    let Some(mut from) = open(rt, case.records) else {
        return Kept::No;
    };
    run(rt, &mut s[0..n], &mut j[0..m], &mut from, case)
}

// The same in rooms with a byte more than the largest store and the largest journal have, so that a longer file is neither. Their types say their
// lengths: of a new array lent as a slice the prover would count the zeros, for which it lacks the stack.
fn lend<R: Files + Print + Eprint + AllocGlobal>(
    rt: &R,
    file: &mut R::File,
    room: &mut [u8; 3201213],
    page: &mut R::File,
    pages: &mut [u8; 1916932],
    case: &Case<'_>,
) -> Kept {
    take(rt, file, room, page, pages, case)
}

// A case, carried out.
fn carry_out<R: Files + Print + Eprint + AllocGlobal>(rt: &R, case: &Case<'_>) -> Kept {
    let Some(mut file) = open(rt, case.store) else {
        return Kept::No;
    };
    let Some(mut page) = open(rt, case.journal) else {
        return Kept::No;
    };
    let mut room = [0u8; 3201213];
    let mut pages = [0u8; 1916932];
    lend(rt, &mut file, &mut room, &mut page, &mut pages, case)
}

// The last line where it was not done: what is with the one file, and with the other.
fn tell(rt: &impl Eprint, one: &str, and: &str, other: &str, what: &str) {
    let _said = eprintln!(rt; "lent: not done: {one}{and}{other}{what}");
}

fn tell_kept(rt: &impl Eprint, kept: Kept, case: &Case<'_>) {
    let Case {
        store_after,
        journal_after,
        ..
    } = *case;
    match kept {
        Kept::Yes => {}
        Kept::No => {
            tell(rt, store_after, " and ", journal_after, " are as they were");
        }
        Kept::StoreOnly => {
            tell(
                rt,
                store_after,
                " is replaced, but ",
                journal_after,
                " is as it was: they are no longer of one run",
            );
        }
        Kept::JournalOnly => {
            tell(
                rt,
                journal_after,
                " is replaced, but ",
                store_after,
                " is as it was: they are no longer of one run",
            );
        }
        Kept::Unsure => {
            tell(
                rt,
                store_after,
                " and ",
                journal_after,
                " are replaced, but a power cut could still bring an old one back",
            );
        }
    }
}

// A case, and what is said of it, if its names are names.
fn run_case<R: Files + Print + Eprint + AllocGlobal>(rt: &R, case: &Case<'_>) {
    if !files::is_name(case.store)
        || !files::is_name(case.journal)
        || !files::is_name(case.records)
        || !files::is_name(case.store_after)
        || !files::is_name(case.journal_after)
    {
        say::tell_undone(rt, "lent", "", "a name is empty or too long");
        return;
    }
    tell_kept(rt, carry_out(rt, case), case);
}

const USAGE: &str = "usage: lent STORE JOURNAL RECORDS STORE_AFTER JOURNAL_AFTER [five more ..]
Runs the records in RECORDS over the store in STORE and its journal in JOURNAL, writes their answers to
standard output, and store and journal afterwards to STORE_AFTER and JOURNAL_AFTER, which may be STORE and
JOURNAL. A journal with no batch open is zeros: 3 bytes and 234 for each of 1 to 8192 places.
Both are replaced whole or stay as they were; then, or where one is replaced without the other, the last
line on standard error begins with 'lent: not done:'.";

// The cases of names, five by five.
fn run_all<R: Files + Print + Eprint + AllocGlobal>(rt: &R, names: &[String]) {
    if files::asks_help(names) {
        let _told = rt.println(USAGE);
        return;
    }
    if names.len() == 0 || names.len() % 5 != 0 {
        let _told = rt.eprintln(USAGE);
        say::tell_undone(
            rt,
            "lent",
            "",
            "the names are not STORE JOURNAL RECORDS STORE_AFTER JOURNAL_AFTER, once or more often",
        );
        return;
    }
    for five in names.chunks_exact(5) {
        let case = Case {
            store: &five[0],
            journal: &five[1],
            records: &five[2],
            store_after: &five[3],
            journal_after: &five[4],
        };
        run_case(rt, &case);
    }
}

fn main(rt: HostRuntime) {
    let held = files::hold_standard(&rt);
    match files::names(&rt) {
        Ok(names) => run_all(&rt, &names),
        Err(e) => say::tell_undone(&rt, "lent", "", files::no_names(e)),
    }
    drop(held);
}
