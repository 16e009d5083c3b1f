// Index entries by place.
ghost use Rattle.std.specs.Prelude.{◌≡◌};
ghost use Rattle.laid.specs.Entered.{Entered, entry_of, ProperEntry, entry_rank};

use super::layout;
use areas::search;
use rules::profile::Profile;
use values::value::{Text, Value};

// How many index entries are before one.
pub fn entry_rank(
    s: &[u8],
    p: Profile,
    places: usize,
    name: Text,
    column: u8,
    v: Value,
    key: Value,
) -> usize
    requires { Entered p places s.now × ProperEntry name v key }
    ensures { result ≡ entry_rank p places (entry_of name column v key) s.now }
{
    let from = layout::entries_at(p, places);
    search::entered_before(
        &s[from..],
        layout::entry_count(s),
        layout::entry_width(p),
        name,
        column,
        v,
        key,
    )
}
