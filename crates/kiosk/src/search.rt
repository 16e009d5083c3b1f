// Whether a record begins anywhere in a file.
use records::frame;
use records::frame::Framed;
use std::io;
use std::io::{Read, Seek, SeekFrom};
use values::bytes;

// What stands at a place of a file: what can begin a record, something else, or its end.
#[derive(Clone, Copy)]
pub enum Seen {
    Record,
    Other,
    End,
}

// Whether the bytes, four or the fewer that a file ends with, can begin a record: no bad length, version byte 1, operation 1 to 15.
fn can_begin(head: &[u8]) -> bool {
    let n = head.len();
    if n < 2 {
        return n == 1 && head[0] <= 16;
    }
    if matches!(frame::next_record(head, false), Framed::Skip(_)) {
        return false;
    }
    if n == 2 {
        return true;
    }
    if head[2] != 1 {
        return false;
    }
    n == 3 || 0 < head[3] && head[3] <= 15
}

// Goes on from behind four bytes, of which the first two are the length of what follows them, to the next record.
fn pass<F: Seek>(log: &mut F, size: u64) {
    if size <= 65535 {
        let _length = log.seek(SeekFrom::Current(-2));
        let _next = log.seek(SeekFrom::Current(size as i64));
    }
}

// Looks at one record, and goes on to the next.
fn look<F: Read + Seek>(log: &mut F) -> io::Result<Seen> {
    let mut head = [0u8; 4];
    let n = log.read(&mut head)?;
    if can_begin(&head[..n]) {
        return Ok(Seen::Record);
    }
    if n < 4 {
        return Ok(Seen::End);
    }
    pass(log, bytes::get(&head[..2]));
    Ok(Seen::Other)
}

// What is found in a file that is searched from its start for what can begin a record. No log begins with as many broken records as are
// counted down here.
pub fn search<F: Read + Seek>(log: &mut F) -> io::Result<Seen> {
    for _ in 0..65536 {
        match look(log)? {
            Seen::Other => {}
            seen => return Ok(seen),
        }
    }
    Ok(Seen::End)
}
