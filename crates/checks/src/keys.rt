// Values as they stand in a request's bytes: read in place by the cursor, nothing is copied out.
ghost use Rattle.std.specs.Prelude.{◌≡◌};
ghost use Rattle.std.specs.Iterator.{item_count};
ghost use Rattle.values.specs.Value.{among};
ghost use Rattle.values.specs.Meaning.{meaning, Proper};
ghost use Rattle.checks.specs.Keys.{values_of, FirstValue};

use super::row_fault;
use forms::read;
use values::value::{Cell, Value};

// The values from a position of a record on: so many, or as many as can be read.
#[derive(Clone, Copy)]
pub struct Values<'a> {
    pub bytes: &'a [u8],
    pub at: usize,
    pub count: usize,
}

impl<'a> Iterator for Values<'a> {
    type Item = Cell;

    ghost next_gives = { FirstValue };

    ghost remaining = { item_count values_of };

    fn next(&mut self) -> Option<Cell> {
        if self.count == 0 {
            return None;
        }
        let (cell, end) = read::value_at(self.bytes, self.at).ok()?;
        self.at = end;
        self.count -= 1;
        Some(cell)
    }
}

// Whether a value is among those.
pub fn is_among(values: Values<'_>, v: Value) -> bool
    requires { Proper v }
    ensures { result ≡ among (meaning v) (values_of values.entry) }
{
    for cell in values {
        if row_fault::is_same(v, cell.value) {
            return true;
        }
    }
    false
}
