// Whether any lent bytes are a sound store: each test after the other.
ghost use Rattle.std.specs.Prelude.{◌≡◌};
ghost use Rattle.rules.specs.Profile.{full, Indexed};
ghost use Rattle.rules.specs.Sound.{sound};
ghost use Rattle.laid.specs.Store.{Coded};

use super::{fresh, index_test, layout_test, reference_test, row_test, schema_test};
use rules::profile;
use rules::profile::Profile;

// Whether the bytes are a sound store.
pub fn is_sound_of(s: &[u8], p: Profile) -> bool
    requires { Coded p × Indexed p }
    ensures { result ≡ sound p s.now }
{
    if !fresh::right_length(s, p) {
        return false;
    }
    let places = fresh::places_of(s, p);
    layout_test::is_laid_out(s, p, places)
        && schema_test::is_cataloged(s, p, places)
        && schema_test::are_faultless(s, p, places)
        && row_test::is_rowed(s, p, places)
        && reference_test::are_linked(s, p, places)
        && index_test::is_indexed(s, p, places)
}

// Whether the bytes are a sound store of document 01.
pub fn is_sound(s: &[u8]) -> bool
    ensures { result ≡ sound full s.now }
{
    is_sound_of(s, profile::FULL)
}
