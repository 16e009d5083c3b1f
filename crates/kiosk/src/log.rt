// The log of a kiosk: every record that came in, as it came. Carried out again over a fresh store and journal, it
// gives those that were left.
use crate::search;
use crate::search::Seen;
use files::{path, say};
use serve::{End, Report};
use std::fs::{File, OpenFile, OpenOptions};
use std::io;
use std::io::{ErrorKind, Read, Seek, SeekFrom, Write};
use std::rt::Files;

// Whether a file may be the log of a kiosk: it is empty, or a record begins in it. Any other, say a text or a store under a wrong name, is
// neither cut nor added to.
fn is_log<F: Read + Seek>(rt: &impl Eprint, log: &mut F, name: &str) -> bool {
    if let Ok(0) = log.seek(SeekFrom::End(0)) {
        return true;
    }
    let _start = log.rewind();
    match say::or_complain(rt, name, search::search(log)) {
        Some(Seen::Record) => {
            let _start = log.rewind();
            true
        }
        Some(_) => {
            say::complain(
                rt,
                name,
                "this is no log of a kiosk: no record begins in it",
            );
            false
        }
        None => false,
    }
}

// Brings the folder that the log stands in to the disk, so that a log that was made is there after a power cut.
fn sync_folder<R: Files + Eprint>(rt: &R, name: &str) -> bool {
    let Some(folder) = path::open_folder(rt, name) else {
        return false;
    };
    say::or_complain(rt, name, folder.sync_all()).is_some()
}

fn open_update<R: Files>(rt: &R, name: &str) -> io::Result<R::File> {
    OpenOptions::new().read(true).write(true).open(rt, name)
}

// Makes the log. One that stands there meanwhile is left alone.
fn make<R: Files>(rt: &R, name: &str) -> io::Result<()> {
    match OpenOptions::new()
        .write(true)
        .create_new(true)
        .open(rt, name)
    {
        Ok(_made) => Ok(()),
        Err(e) if e.kind() == ErrorKind::AlreadyExists => Ok(()),
        Err(e) => Err(e),
    }
}

// Opens the log, or makes it where it is missing.
fn open_or_make<R: Files>(rt: &R, name: &str) -> io::Result<R::File> {
    match open_update(rt, name) {
        Err(e) if e.kind() == ErrorKind::NotFound => {
            make(rt, name)?;
            open_update(rt, name)
        }
        opened => opened,
    }
}

// Opens the log, its position at its start. None is open once it is said why it is no log to go on with.
pub fn open<R: Files + Eprint>(rt: &R, name: &str) -> Option<R::File> {
    if !sync_folder(rt, name) {
        return None;
    }
    let mut log = say::or_complain(rt, name, open_or_make(rt, name))?;
    if !files::is_kept(&log) {
        say::complain(rt, name, "this is no plain file");
        return None;
    }
    if !sync_folder(rt, name) || !is_log(rt, &mut log, name) {
        return None;
    }
    Some(log)
}

// Cuts off what is behind the log's last whole record.
fn cut<F: OpenFile + Seek>(log: &mut F, whole: u64) -> io::Result<()> {
    log.set_len(whole)?;
    log.seek(SeekFrom::End(0))?;
    log.sync_data()
}

// Adds zeros for what is missing of a record of bad length, so that the next one is read where it begins.
fn fill<F: OpenFile + Write>(log: &mut F, missing: usize) -> io::Result<()> {
    let zeros = [0u8; 65536];
    if zeros.len() < missing {
        return Err(io::Error::from(ErrorKind::InvalidData));
    }
    log.write_all(&zeros[..missing])?;
    log.sync_data()
}

// How many bytes the whole records of a log have.
fn whole_bytes(r: Report) -> u64 {
    r.bytes.wrapping_sub(r.torn as u64)
}

// Makes the log's end a place where a record may begin.
fn mend<F: OpenFile + Write + Seek>(log: &mut F, r: Report) -> io::Result<()> {
    if 0 < r.torn {
        return cut(log, whole_bytes(r));
    }
    if 0 < r.missing {
        return fill(log, r.missing);
    }
    Ok(())
}

fn tell_number(rt: &impl Eprint, what: &str, n: u64) {
    let _said = eprint!(rt; "{what}{n}");
}

// Says what was taken over, and what was done to the log's end.
fn tell(rt: &impl Eprint, name: &str, r: Report) {
    let _said = eprint!(rt; "kiosk: {name}");
    tell_number(rt, ": records taken over: ", r.records);
    tell_number(rt, ", bytes: ", whole_bytes(r));
    if 0 < r.torn {
        tell_number(rt, ", torn bytes cut off: ", r.torn as u64);
    }
    if 0 < r.missing {
        tell_number(rt, ", missing bytes filled with zeros: ", r.missing as u64);
    }
    let _said = eprintln!(rt);
}

// Carries the records of the log out again over a fresh store and journal, and makes it fit to go on with. What was taken over is said.
pub fn take_over<F: OpenFile + Read + Write + Seek>(
    rt: &impl Eprint,
    s: &mut [u8],
    j: &mut [u8],
    log: &mut F,
    name: &str,
) -> bool {
    let report = serve::replay(s, j, log);
    match report.end {
        End::Whole => {}
        // never: both are fresh
        End::Unsound => {
            say::complain(rt, name, "it is carried out over no sound store");
            return false;
        }
        End::Unread(e) | End::Unwritten(e) | End::Unlogged(e) => {
            say::complain(rt, name, e);
            return false;
        }
    }
    if say::or_complain(rt, name, mend(log, report)).is_none() {
        return false;
    }
    if 0 < report.bytes {
        tell(rt, name, report);
    }
    true
}

// Opens the log once more, to append to it: what a second kiosk appends to the same log is then not written over.
pub fn open_end<R: Files>(rt: &R, name: &str) -> io::Result<R::File> {
    let mut log = OpenOptions::new().append(true).open(rt, name)?;
    log.seek(SeekFrom::End(0))?;
    Ok(log)
}
