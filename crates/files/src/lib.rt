// What the programs ask of files beyond `std`: that nothing is lost by a wrong name or a stop, and that what was not done is said.
#![tactic(auto)]

pub mod path; // the folder that a file stands in; links
pub mod say; // lines on standard error

ghost use Rattle.std.specs.Prelude.{◌≡◌, ◌<◌, ◌≤◌, ◌↔◌, length, IfOk, IsTrue};

use std::fs::{File, OpenFile};
use std::io;
use std::io::Read;
use std::os::fd::AsRawFd;
use std::rt::{Env, Files};

// The number of standard error, the last of the three.
const LAST: i32 = 2;

// What holds the numbers of standard input, output and error.
#[derive(Drop)]
pub struct Held {
    first: Option<File>,
    second: Option<File>,
    third: Option<File>,
}

// Takes the numbers of standard input, output and error where the program was started without them: a file that is opened later would get
// such a number, and answers or messages would go into it. A folder can be neither read nor written, so that a use of the number fails. They are
// held until the answer is let go.
pub fn hold_standard(rt: &impl Files<File = File>) -> Held {
    Held {
        first: hold(rt),
        second: hold(rt),
        third: hold(rt),
    }
}

fn hold(rt: &impl Files<File = File>) -> Option<File> {
    File::open(rt, "/")
        .ok()
        .filter(|folder| folder.as_raw_fd() <= LAST)
}

// The names that a program is given, without its own.
pub fn names<R: Env + AllocGlobal>(rt: &R) -> io::Result<Vec<String>> {
    let names = std::env::args(rt)?.skip(1).collect(rt.alloc())?;
    Ok(names)
}

// Why the names can't be had.
pub fn no_names(e: io::Error) -> &'static str {
    if e.kind() == io::ErrorKind::InvalidData {
        "a name is no UTF-8 text"
    } else {
        "there is no room for the names"
    }
}

// Whether the first argument asks for help.
pub fn asks_help(names: &[String]) -> bool {
    names
        .first()
        .is_some_and(|name| name.as_str() == "-h" || name.as_str() == "--help")
}

// The most bytes that a name has.
const NAME_MOST: usize = 4096;

// Whether a name is neither empty nor too long.
pub fn is_name(name: &str) -> bool
    ensures { IsTrue result ↔ ((0 < length name.now) × (length name.now ≤ 4096)) }
{
    0 < name.len() && name.len() <= NAME_MOST
}

// Whether an open file is one whose bytes a disk keeps: a pipe, a terminal and a device such as /dev/null can't be brought to the disk.
pub fn is_kept<F: OpenFile>(file: &F) -> bool {
    file.sync_all().is_ok()
}

// Reads a file to its end, as far as there is room, and answers how many bytes it put at the slice's front.
pub fn load<F: Read>(from: &mut F, s: &mut [u8]) -> io::Result<usize>
    ensures count { IfOk result (λ n. n ≤ length s.new) }
    ensures length { length s.new ≡ length s.old }
{
    let mut count = 0;
    while count < s.len() {
        let n = from.read(&mut s[count..])?;
        if n == 0 {
            return Ok(count);
        }
        count += n;
    }
    Ok(count)
}
