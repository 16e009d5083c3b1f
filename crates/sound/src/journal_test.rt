// The test of a lent journal beside a sound store: its layout, each place, and that the open batch can be taken back to a sound store.
ghost use Rattle.std.specs.Prelude.{◌≡◌, true, ◌&&◌, ◌≤◌, eqb, length};
ghost use Rattle.areas.specs.Counted.{count_at};
ghost use Rattle.rules.specs.Profile.{full, Known, Indexed};
ghost use Rattle.rules.specs.Layout.{parse};
ghost use Rattle.rules.specs.Sound.{every, sound};
ghost use Rattle.rules.specs.Pages.{used_at, event_width, journal_places, right_journal, sound_books};
ghost use Rattle.laid.specs.Store.{Coded, Store};
ghost use Rattle.journal.specs.Page.{Paging};
ghost use Rattle.journal.specs.Turn.{Batch};
ghost use Rattle.sound.specs.Tested.{Schemed};
ghost use Rattle.sound.specs.Journal.{journal_laid, is_event, is_absent, pages_in, taken_back, sound_journal};

use super::{fresh, row_test, soundness};
use journal::{back, page, turn};
use laid::catalog;
use rules::profile;
use rules::profile::Profile;
use values::{bytes, cell};

// Places at the most.
const PLACES_MOST: usize = 8192;

// 1 to 8,192 places, and the exact length.
#[tactic(auto, using(crate::proofs::JournalVerdict::lengths), unfolding(rules::specs::Pages::right_journal, rules::specs::Pages::journal_length, rules::specs::Sound::all))]
fn right_journal(j: &[u8], p: Profile) -> bool
    requires { Known p }
    ensures { result ≡ right_journal p j.now }
{
    if j.len() < page::HEADER_WIDTH {
        return false;
    }
    let places = page::places_of(j, p);
    (1..=PLACES_MOST).contains(&places)
        && j.len() == page::HEADER_WIDTH + places * page::event_width(p)
}

// The header of an open journal is right, and what is unused is zero.
#[tactic(auto, using(crate::proofs::JournalAsked::header), unfolding(crate::specs::Journal::journal_laid, rules::specs::Sound::all))]
fn is_journal_laid(j: &[u8], p: Profile) -> bool
    requires { Known p × (right_journal p j.now ≡ true) }
    ensures { result ≡ journal_laid p j.now }
{
    let count = page::used(j);
    if j[0] != 1 || page::places_of(j, p) < count {
        return false;
    }
    let used = page::HEADER_WIDTH + count * page::event_width(p);
    bytes::all_zero(&j[used..])
}

// Whether the bytes are a place at whose key nothing stood, of a stored table.
fn is_absent(s: &[u8], p: Profile, places: usize, rec: &[u8]) -> bool
    requires { Schemed p places s.now × (52 ≤ length rec.now) }
    ensures { result ≡ is_absent (parse p places s.now).tables rec.now }
{
    rec[0] == page::NOTHING
        && cell::is_name_cell(&rec[page::PLACE_NAME..page::PLACE_KEY])
        && cell::is_cell(&rec[page::PLACE_KEY..page::KEY_END])
        && bytes::all_zero(&rec[page::KEY_END..])
        && catalog::get_table(s, p, places, cell::read_name(&rec[page::PLACE_NAME..])).is_some()
}

// Whether the bytes are a place's, of a stored table.
#[tactic(auto, using(crate::proofs::PlacePieces::places))]
fn is_event(s: &[u8], p: Profile, places: usize, rec: &[u8]) -> bool
    requires { Schemed p places s.now × (length rec.now ≡ event_width p) }
    ensures { result ≡ is_event p (parse p places s.now).tables rec.now }
{
    if rec[0] == page::A_ROW {
        row_test::is_row(s, p, places, &rec[page::PLACE_NAME..])
    } else {
        is_absent(s, p, places, rec)
    }
}

// Whether every place in use is one.
#[tactic(auto, using(crate::proofs::JournalAsked::pages))]
fn are_events(s: &[u8], p: Profile, places: usize, j: &[u8]) -> bool
    requires { Schemed p places s.now × (right_journal p j.now ≡ true) × (count_at used_at 2 j.now ≤ journal_places p j.now) }
    ensures { result ≡ every (is_event p (parse p places s.now).tables) (pages_in p j.now) }
{
    for i in 0..page::used(j) {
        if !is_event(s, p, places, turn::place_at(j, p, i)) {
            return false;
        }
    }
    true
}

// All places are taken back, and the store is sound.
fn is_well(s: &[u8], p: Profile, i: usize) -> bool
    requires { Coded p × Indexed p }
    ensures { result ≡ (eqb i 0 && sound p s.now) }
{
    i == 0 && soundness::is_sound_of(s, p)
}

// Whether the open batch can be taken back to a sound store. Every byte is as it was.
fn is_backed(s: &mut [u8], p: Profile, places: usize, j: &mut [u8]) -> bool
    requires { Batch p places s.old j.old × (1 ≤ places) }
    ensures { (result ≡ taken_back p places s.old j.old) × (s.new ≡ s.old) × (j.new ≡ j.old) }
{
    let i = back::unwind(s, p, places, j);
    let well = is_well(s, p, i);
    back::rewind(s, p, places, j, i);
    well
}

// Whether the journal beside a sound store is sound. Every byte of both is as it was.
pub fn is_sound_journal(s: &mut [u8], p: Profile, places: usize, j: &mut [u8]) -> bool
    requires { Store p places s.old × Paging p }
    ensures { (result ≡ sound_journal p places s.old j.old) × (s.new ≡ s.old) × (j.new ≡ j.old) }
{
    if !right_journal(j, p) {
        return false;
    }
    if !page::is_open(j) {
        return bytes::all_zero(j);
    }
    is_journal_laid(j, p) && are_events(s, p, places, j) && is_backed(s, p, places, j)
}

// Whether both buffers are a sound store of document 01 and its journal. Every byte is as it was.
pub fn are_sound(s: &mut [u8], j: &mut [u8]) -> bool
    ensures { (result ≡ sound_books full s.old j.old) × (s.new ≡ s.old) × (j.new ≡ j.old) }
{
    if !soundness::is_sound(s) {
        return false;
    }
    let places = fresh::places_of(s, profile::FULL);
    is_sound_journal(s, profile::FULL, places, j)
}
