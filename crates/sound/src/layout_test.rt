// The test of the layout: the header is right, and what is unused is zero.
ghost use Rattle.std.specs.Prelude.{◌≡◌, ◌+◌, ◌*◌, ◌≤◌, length, drop};
ghost use Rattle.values.specs.Bytes.{zeros};
ghost use Rattle.values.specs.Area.{part};
ghost use Rattle.rules.specs.Profile.{store_length, places_most};
ghost use Rattle.laid.specs.Store.{Coded};
ghost use Rattle.sound.specs.Tested.{headed, laid_out};

use areas::area;
use laid::layout;
use rules::profile::Profile;
use values::bytes;

// The length and the version are told, and the counts are within their areas.
#[tactic(auto, using(crate::proofs::Headers::header), unfolding(crate::specs::Tested::headed, areas::specs::Counted::count_at, rules::specs::Sound::all))]
fn is_headed(s: &[u8], p: Profile, places: usize) -> bool
    requires { Coded p × (places ≤ places_most) × (length s.now ≡ store_length p places) }
    ensures { result ≡ headed p places s.now }
{
    area::count_at(s, 0, layout::LENGTH_BYTES) == layout::store_length(p, places)
        && s[layout::VERSION] == p.version
        && layout::table_count(s) <= p.tables
        && layout::row_count(s) <= places
        && layout::entry_count(s) <= p.entries * places
}

// The bytes of an area behind its `count` records are zero.
#[tactic(auto, using(crate::proofs::Headers::part_rest), unfolding(values::specs::Area::part))]
fn is_spare(s: &[u8], from: usize, width: usize, places: usize, count: usize) -> bool
    requires { (count ≤ places) × (from + places * width ≤ length s.now) }
    ensures { result ≡ zeros (drop (count * width) (part from (from + places * width) s.now)) }
{
    let area = &s[from..from + places * width];
    bytes::all_zero(&area[count * width..])
}

// The header is right, and what is unused is zero.
#[tactic(auto, using(crate::proofs::Headers::spares), unfolding(crate::specs::Tested::laid_out, crate::specs::Tested::headed, rules::specs::Sound::all))]
pub fn is_laid_out(s: &[u8], p: Profile, places: usize) -> bool
    requires { Coded p × (places ≤ places_most) × (length s.now ≡ store_length p places) }
    ensures { result ≡ laid_out p places s.now }
{
    is_headed(s, p, places)
        && is_spare(
            s,
            layout::HEADER_WIDTH,
            layout::schema_width(p),
            p.tables,
            layout::table_count(s),
        )
        && is_spare(
            s,
            layout::rows_at(p),
            layout::row_width(p),
            places,
            layout::row_count(s),
        )
        && is_spare(
            s,
            layout::entries_at(p, places),
            layout::entry_width(p),
            p.entries * places,
            layout::entry_count(s),
        )
}
