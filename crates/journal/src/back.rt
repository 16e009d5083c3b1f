// Places turned one after the other: a batch taken back, from the last place to the first, and put forth again.
ghost use Rattle.std.specs.Prelude.{◌≡◌, true, eqb, get_or};
ghost use Rattle.journal.specs.Turn.{page_at, Batch, PlaceIn};
ghost use Rattle.journal.specs.Back.{taken, fits, Unwinds, Rewindable, Rewinds};

use super::{page, turn};
use laid::{layout, row};
use rules::profile::Profile;

// Whether the store has a row with the key of place i, at which a row stood.
fn is_taken(s: &[u8], p: Profile, places: usize, j: &[u8], i: usize) -> bool
    requires { PlaceIn p places s.now j.now i × (eqb (get_or (page_at p j.now i) 0 0) 2 ≡ true) }
    ensures { result ≡ taken p places s.now j.now i }
{
    let at = turn::named_at(s, p, places, j, i);
    let key = row::cell_in(turn::content_at(j, p, i), p, at.column).value;
    row::find_row(s, p, places, at.name, at.column, key).is_some()
}

// Whether the store has room for what stood at the key of place i.
pub fn can_turn(s: &[u8], p: Profile, places: usize, j: &[u8], i: usize) -> bool
    requires { PlaceIn p places s.now j.now i }
    ensures { result ≡ fits p places s.now j.now i }
{
    !turn::is_row_at(j, p, i) || layout::row_count(s) < places || is_taken(s, p, places, j, i)
}

// Takes back from the last place on, as far as there is room; returns the first place that is taken back.
pub fn unwind(s: &mut [u8], p: Profile, places: usize, j: &mut [u8]) -> usize
    requires { Batch p places s.old j.old }
    ensures { Unwinds p places s.old j.old result s.new j.new }
{
    let count = page::used(j);
    for i in (0..count).rev() {
        if !can_turn(s, p, places, j, i) {
            return i + 1;
        }
        turn::turn(s, p, places, j, i);
    }
    0
}

// Puts forth again, from place `from` to the last.
pub fn rewind(s: &mut [u8], p: Profile, places: usize, j: &mut [u8], from: usize)
    requires { Rewindable p places s.old j.old from }
    ensures { Rewinds p places s.old j.old from s.new j.new }
{
    let count = page::used(j);
    for i in from..count {
        turn::turn(s, p, places, j, i);
    }
}
