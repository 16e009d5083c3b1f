// The journal's bytes: zeros while no batch is open; else a byte 1, how many places are in use, and the places.
ghost use Rattle.std.specs.Prelude.{◌≡◌, ◌∷◌, ◌+◌, ◌*◌, ◌≤◌, length, replicate, set};
ghost use Rattle.values.specs.Area.{with_record};
ghost use Rattle.values.specs.Meaning.{text_bytes, Packed, meaning, Proper};
ghost use Rattle.areas.specs.Counted.{count_at};
ghost use Rattle.rules.specs.Profile.{row_width, Known};
ghost use Rattle.rules.specs.Journal.{absent};
ghost use Rattle.rules.specs.Pages.{used_at, journal_header, event_width, journal_places, event_record};
ghost use Rattle.journal.specs.Page.{Paging, Paged, Roomy, opens, has_places, with_place, Spacious, Opened};

use areas::area;
use laid::layout;
use rules::profile::Profile;
use values::cell;
use values::value::{Cell, Text, Value};

// The header: whether a batch is open, and how many places are in use.
pub const USED_COUNT: usize = 1;

pub const USED_BYTES: usize = 2;

pub const HEADER_WIDTH: usize = USED_COUNT + USED_BYTES;

// A place starts with a byte: nothing stood at the key, or a row did.
pub const NOTHING: u8 = 1;

pub const A_ROW: u8 = 2;

// Behind it a table's name, and then the key's cell or the row's cells.
pub const PLACE_NAME: usize = 1;

pub const PLACE_KEY: usize = PLACE_NAME + cell::NAME_WIDTH;

pub const KEY_END: usize = PLACE_KEY + cell::CELL_WIDTH;

pub fn event_width(p: Profile) -> usize
    requires { Known p }
    ensures { result ≡ event_width p }
{
    PLACE_NAME + layout::row_width(p)
}

// How many places a journal has.
pub fn places_of(j: &[u8], p: Profile) -> usize
    requires { Known p × (journal_header ≤ length j.now) }
    ensures { result ≡ journal_places p j.now }
{
    (j.len() - HEADER_WIDTH) / event_width(p)
}

pub fn is_open(j: &[u8]) -> bool
    requires { 1 ≤ length j.now }
    ensures { result ≡ opens j.now }
{
    j[0] != 0
}

// How many places are in use.
pub fn used(j: &[u8]) -> usize
    requires { journal_header ≤ length j.now }
    ensures { result ≡ count_at used_at 2 j.now }
{
    area::count_at(j, USED_COUNT, USED_BYTES)
}

// Whether no batch is open, or the open one has n more places.
pub fn has_places(j: &[u8], p: Profile, n: usize) -> bool
    requires { Paged p j.now }
    ensures { result ≡ has_places p n j.now }
{
    !is_open(j) || n <= places_of(j, p) - used(j)
}

// A batch begins: no place is in use.
pub fn open(j: &mut [u8])
    requires { 1 ≤ length j.old }
    ensures { j.new ≡ set j.old 0 1 }
{
    j[0] = 1;
}

// A batch is over.
pub fn close(j: &mut [u8])
    ensures { j.new ≡ replicate (length j.old) 0 }
{
    j.fill(0);
}

// A row, written over a place.
fn fill_row(part: &mut [u8], rec: &[u8])
    requires { length part.old ≡ 1 + length rec.now }
    ensures { part.new ≡ 2 ∷ rec.now }
{
    part[0] = A_ROW;
    part[PLACE_NAME..].copy_from_slice(rec);
}

// That nothing stood at a key, written over a place.
fn fill_absent(part: &mut [u8], p: Profile, name: Text, key: Value)
    requires { Paging p × (length part.old ≡ event_width p) × Packed name × Proper key }
    ensures { part.new ≡ event_record p (absent (text_bytes name) (meaning key)) }
{
    part[0] = NOTHING;
    cell::write_name(&mut part[PLACE_NAME..PLACE_KEY], name);
    cell::write_cell(&mut part[PLACE_KEY..KEY_END], Cell { value: key });
    part[KEY_END..].fill(0);
}

// A row at place i.
pub fn put_row(j: &mut [u8], p: Profile, i: usize, rec: &[u8])
    requires { Known p × (length rec.now ≡ row_width p) × (journal_header + i * event_width p + event_width p ≤ length j.old) }
    ensures { j.new ≡ with_record journal_header i (2 ∷ rec.now) j.old }
{
    let width = event_width(p);
    let start = HEADER_WIDTH + i * width;
    fill_row(&mut j[start..start + width], rec);
}

// Nothing at place i.
pub fn put_absent(j: &mut [u8], p: Profile, i: usize, name: Text, key: Value)
    requires { Paging p × (journal_header + i * event_width p + event_width p ≤ length j.old) × Packed name × Proper key }
    ensures { j.new ≡ with_record journal_header i (event_record p (absent (text_bytes name) (meaning key))) j.old }
{
    let width = event_width(p);
    let start = HEADER_WIDTH + i * width;
    fill_absent(&mut j[start..start + width], p, name, key);
}

// One more place in use, of zeros; returns its number.
fn next_place(j: &mut [u8], p: Profile) -> usize
    requires { Spacious p j.old }
    ensures { Opened p j.old result j.new }
{
    let i = used(j);
    let places = places_of(j, p);
    let width = event_width(p);
    area::open_counted(j, USED_COUNT, USED_BYTES, HEADER_WIDTH, places, width, i);
    i
}

// Notes, while a batch is open, that a row stood at its key.
pub fn note_row(j: &mut [u8], p: Profile, rec: &[u8])
    requires { Roomy p j.old × (length rec.now ≡ row_width p) }
    ensures { j.new ≡ with_place p (2 ∷ rec.now) j.old }
{
    if !is_open(j) {
        return;
    }
    let i = next_place(j, p);
    put_row(j, p, i, rec);
}

// Notes, while a batch is open, that nothing stood at a key.
pub fn note_absent(j: &mut [u8], p: Profile, name: Text, key: Value)
    requires { Roomy p j.old × Packed name × Proper key }
    ensures { j.new ≡ with_place p (event_record p (absent (text_bytes name) (meaning key))) j.old }
{
    if !is_open(j) {
        return;
    }
    let i = next_place(j, p);
    put_absent(j, p, i, name, key);
}
