// The files that are to hold store and journal afterwards: each written as a new file beside the old one, and once both are on the disk they take
// its name one after the other.
ghost use Rattle.std.specs.Prelude.{◌≡◌, ◌≤◌, length, IfSome};
ghost use Rattle.arrayvec.specs.ArrayString.{array_string_len};
ghost use Rattle.lent.specs.Names.{new_name, IsNewName};

use arrayvec::ArrayString;
use files::{path, say};
use std::fs::{OpenFile, OpenOptions};
use std::io::{ErrorKind, Write};
use std::rt::Files;
use std::{fs, io};

// Whether both are kept: under their names and on the disk, not at all, one without the other, or under their names and perhaps not on the disk.
#[derive(Clone, Copy)]
pub enum Kept {
    Yes,
    No,
    StoreOnly,
    JournalOnly,
    Unsure,
}

// A file that is to be: its name, and the bytes that it is to have.
#[derive(Clone, Copy)]
pub struct After<'n, 'b> {
    pub name: &'n str,
    pub bytes: &'b [u8],
}

// The same of two files of which one goes first.
#[derive(Clone, Copy)]
enum InTurn {
    Both,
    Neither,
    First,
    Unsure,
}

// A name with room for what is put behind it.
type Name = ArrayString<4096>;

// A new file, its name, and which of the names to try it is.
#[derive(Drop)]
struct New<F> {
    file: F,
    name: Name,
    number: u8,
}

// The longest name that leaves room for what is put behind it.
const LONGEST: usize = 4090;

// The k-th name to try for a new file: AFTER.new, then AFTER.new1 to AFTER.new9.
fn put_name(after: &str, k: u8) -> Name
    requires after_len_bound { length after.now ≤ 4090 }
    requires k_bound { k ≤ 9 }
    ensures room { array_string_len result ≤ 4095 }
    ensures text { result.bytes ≡ new_name after.now k }
{
    let mut name = ArrayString::new();
    name.push_str(after);
    name.push_str(".new");
    if 0 < k {
        name.push(char::from(b'0' + k));
    }
    name
}

// Makes the k-th file to try. One that stands there already is left alone.
fn make_one<R: Files>(rt: &R, name: &str) -> io::Result<R::File> {
    OpenOptions::new()
        .write(true)
        .create_new(true)
        .open(rt, name)
}

// Makes a file beside AFTER. One that stands there already is left alone, whosever it is, and the next name is tried.
fn make<R: Files + Eprint>(rt: &R, after: &str) -> Option<New<R::File>>
    requires { length after.now ≤ 4090 }
    ensures room { IfSome result (λ new. (array_string_len new.name ≤ 4095) × (new.number ≤ 9)) }
    ensures text { IfSome result (λ new. new.name.bytes ≡ new_name after.now new.number) }
{
    for number in 0..10 {
        let name = put_name(after, number);
        match make_one(rt, name.as_str()) {
            Ok(file) => {
                return Some(New { file, name, number });
            }
            Err(e) => {
                if e.kind() != ErrorKind::AlreadyExists {
                    say::complain(rt, name.as_str(), e);
                    return None;
                }
            }
        }
    }
    say::complain(
        rt,
        after,
        "ten files beside it with .new at their ends are in the way",
    );
    None
}

// Brings the bytes into the file and onto the disk.
fn put<F: Write + OpenFile>(file: &mut F, s: &[u8]) -> io::Result<()> {
    file.write_all(s)?;
    file.sync_all()
}

// Removes a new file.
fn remove(rt: &impl Files, name: &str) {
    let _removed = fs::remove_file(rt, name);
}

// Writes bytes to a new file beside AFTER, and answers its name, or none once the cause is said and no such file is left.
fn write<R: Files + Eprint>(rt: &R, after: &After<'_, '_>) -> Option<Name>
    ensures room { IfSome result (λ name. array_string_len name ≤ 4095) }
    ensures text { IfSome result (λ name. IsNewName after.now.name.now name.bytes) }
{
    if LONGEST < after.name.len() {
        say::complain(rt, after.name, "this name is too long");
        return None;
    }
    let New {
        mut file,
        name,
        number: _,
    } = make(rt, after.name)?;
    match put(&mut file, after.bytes) {
        Ok(()) => Some(name),
        Err(e) => {
            say::complain(rt, name.as_str(), e);
            drop(file);
            remove(rt, name.as_str());
            None
        }
    }
}

// Opens a file for reading and writing as it is. A pipe is opened for both ways, so that nobody is waited for.
fn open_update<R: Files>(rt: &R, path: &str) -> io::Result<R::File> {
    OpenOptions::new().read(true).write(true).open(rt, path)
}

// Whether another file may take AFTER's name: none has it, or a file that this user may write and a disk keeps. A link, a device and a pipe
// stay what they are.
fn may_replace<R: Files + Eprint>(rt: &R, after: &str) -> bool {
    if path::is_link(rt, after) {
        say::complain(
            rt,
            after,
            "this is a link; name the file that it stands for",
        );
        return false;
    }
    match open_update(rt, after) {
        Ok(old) => {
            let kept = files::is_kept(&old);
            if !kept {
                say::complain(rt, after, "this is no plain file");
            }
            kept
        }
        Err(e) => {
            if e.kind() == ErrorKind::NotFound {
                return true;
            }
            say::complain(rt, after, e);
            false
        }
    }
}

// Whether anything has this name.
fn is_there<R: Files>(rt: &R, path: &str) -> bool {
    match open_update(rt, path) {
        Ok(_) => true,
        Err(e) => e.kind() != ErrorKind::NotFound,
    }
}

// Whether a new file beside one name stands beside the other too, and goes with it.
fn goes_with<R: Files + Eprint>(rt: &R, one: &str, other: &str) -> bool
    requires one_len_bound { length one.now ≤ 4090 }
    requires other_len_bound { length other.now ≤ 4090 }
{
    let Some(New { file, name, number }) = make(rt, one) else {
        return false;
    };
    drop(file);
    let beside = put_name(other, number);
    let there = is_there(rt, beside.as_str());
    remove(rt, name.as_str());
    there && !is_there(rt, beside.as_str())
}

// Whether two names stand for one file, made or not, however the folders in them are written.
pub fn are_one<R: Files + Eprint>(rt: &R, one: &str, other: &str) -> bool {
    if LONGEST < one.len() || LONGEST < other.len() {
        return false;
    }
    goes_with(rt, one, other)
}

// Whether there is room for new files with as many bytes beside both: they are made and removed again. Neither may stand where the other is to go.
fn have_room<R: Files + Eprint>(rt: &R, store: &After<'_, '_>, journal: &After<'_, '_>) -> bool {
    let store_there = is_there(rt, store.name);
    let journal_there = is_there(rt, journal.name);
    let Some(name) = write(rt, store) else {
        return false;
    };
    let next = write(rt, journal);
    let free = is_there(rt, store.name) == store_there
        && is_there(rt, journal.name) == journal_there;
    remove(rt, name.as_str());
    let Some(next) = next else {
        return false;
    };
    remove(rt, next.as_str());
    if !free {
        say::complain(
            rt,
            journal.name,
            "this name or the store's is that of the new file beside the other",
        );
    }
    free
}

// The folders of both files, open.
#[derive(Drop)]
pub struct Folders<F> {
    store: F,
    journal: F,
}

// Whether both files can be kept in their folders. Else the cause is said.
fn is_ready<R: Files + Eprint>(
    rt: &R,
    folders: &Folders<R::File>,
    store: &After<'_, '_>,
    journal: &After<'_, '_>,
) -> bool {
    if are_one(rt, store.name, journal.name) {
        say::complain(rt, journal.name, "this is to hold the store");
        return false;
    }
    have_room(rt, store, journal)
        && settle(rt, store.name, &folders.store)
        && settle(rt, journal.name, &folders.journal)
}

// Tries whether both can be kept, and answers their folders, or none once the cause is said.
pub fn prepare<R: Files + Eprint>(
    rt: &R,
    store: &After<'_, '_>,
    journal: &After<'_, '_>,
) -> Option<Folders<R::File>> {
    if !may_replace(rt, store.name) || !may_replace(rt, journal.name) {
        return None;
    }
    let store_folder = path::open_folder(rt, store.name);
    let journal_folder = path::open_folder(rt, journal.name);
    let folders = Folders {
        store: store_folder?,
        journal: journal_folder?,
    };
    if is_ready(rt, &folders, store, journal) {
        Some(folders)
    } else {
        None
    }
}

// A new file takes AFTER's name, or is removed once the cause is said.
fn put_in_place<R: Files + Eprint>(rt: &R, new: &str, after: &str) -> bool {
    let named = say::or_complain(rt, after, fs::rename(rt, new, after)).is_some();
    if !named {
        remove(rt, new);
    }
    named
}

// Whether the folder of a file that got its name is on the disk.
fn settle<F: OpenFile>(rt: &impl Eprint, after: &str, folder: &F) -> bool {
    say::or_complain(rt, after, folder.sync_all()).is_some()
}

// Puts bytes in the place of two files, the second once the first is on the disk.
fn put_in_turn<R: Files + Eprint>(
    rt: &R,
    first: &After<'_, '_>,
    folder: &R::File,
    second: &After<'_, '_>,
    other: &R::File,
) -> InTurn {
    let Some(name) = write(rt, first) else {
        return InTurn::Neither;
    };
    let Some(next) = write(rt, second) else {
        remove(rt, name.as_str());
        return InTurn::Neither;
    };
    if !put_in_place(rt, name.as_str(), first.name) {
        remove(rt, next.as_str());
        return InTurn::Neither;
    }
    let settled = settle(rt, first.name, folder);
    if !put_in_place(rt, next.as_str(), second.name) {
        return InTurn::First;
    }
    if !settle(rt, second.name, other) || !settled {
        return InTurn::Unsure;
    }
    InTurn::Both
}

fn is_open(j: &[u8]) -> bool {
    0 < j.len() && j[0] != 0
}

// Puts the store and its journal in the places of the two files. A power cut between the two leaves one new and one old, so the order counts. While a
// batch is open the journal goes first: its places hold what stood at the opening, and taken back over the older store they lead there too. Once
// none is open the store goes first: a batch that was taken back is then taken back once more, and that changes nothing.
pub fn replace<R: Files + Eprint>(
    rt: &R,
    folders: &Folders<R::File>,
    store: &After<'_, '_>,
    journal: &After<'_, '_>,
) -> Kept {
    let open = is_open(journal.bytes);
    let put = if open {
        put_in_turn(rt, journal, &folders.journal, store, &folders.store)
    } else {
        put_in_turn(rt, store, &folders.store, journal, &folders.journal)
    };
    match put {
        InTurn::Both => Kept::Yes,
        InTurn::Neither => Kept::No,
        InTurn::First => {
            if open {
                Kept::JournalOnly
            } else {
                Kept::StoreOnly
            }
        }
        InTurn::Unsure => Kept::Unsure,
    }
}
