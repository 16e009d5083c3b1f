// A fresh store in a lent buffer, and which lengths a store has.
ghost use Rattle.std.specs.Prelude.{◌≡◌};
ghost use Rattle.rules.specs.Profile.{full};
ghost use Rattle.rules.specs.Layout.{places_of};
ghost use Rattle.rules.specs.Sound.{right_length};
ghost use Rattle.laid.specs.Store.{Coded};
ghost use Rattle.sound.specs.Fresh.{Freshened};

use laid::layout;
use rules::answer::{Answer, Refusal, Refused};
use rules::profile;
use rules::profile::Profile;
use values::bytes;

// Row places at the most.
const PLACES_MOST: usize = 4096;

// How many row places a buffer has, if it is a store's.
#[tactic(auto, using(crate::proofs::Lengths::lengths), unfolding(rules::specs::Layout::places_of))]
pub fn places_of(s: &[u8], p: Profile) -> usize
    requires { Coded p }
    ensures { result ≡ places_of p s.now }
{
    s.len().saturating_sub(layout::rows_at(p)) / layout::place_width(p)
}

// 1 to 4,096 row places, and the exact length.
#[tactic(auto, unfolding(rules::specs::Sound::right_length, rules::specs::Sound::all))]
pub fn right_length(s: &[u8], p: Profile) -> bool
    requires { Coded p }
    ensures { result ≡ right_length p s.now }
{
    let places = places_of(s, p);
    (1..=PLACES_MOST).contains(&places) && s.len() == layout::store_length(p, places)
}

// Makes the buffer an empty store of its kind; 38 and unchanged where its length is no store's.
pub fn fresh_of(s: &mut [u8], p: Profile) -> Answer
    requires { Coded p }
    ensures { Freshened p s.old s.new result }
{
    if !right_length(s, p) {
        return Err(Refused::new(Refusal::StoreUnsound, 0));
    }
    let n = s.len();
    s.fill(0);
    bytes::put(&mut s[0..layout::LENGTH_BYTES], n as u64);
    s[layout::VERSION] = p.version;
    Ok(0)
}

// An empty store of document 01.
pub fn fresh(s: &mut [u8]) -> Answer
    ensures { Freshened full s.old s.new result }
{
    fresh_of(s, profile::FULL)
}
