// Names and values in a record: what stands at a position and where it ends, or the offset of the first byte that could not be accepted.
ghost use Rattle.std.specs.Prelude.{ℕ, ◌≡◌, ◌≤◌, length};
ghost use Rattle.values.specs.Value.{Value as Meant, boolean};
ghost use Rattle.forms.specs.Read.{boolean_at, eight_at, read_as, NameRead, CellRead};

use values::value::{Cell, Text, Value};
use values::{bytes, cell, value};

// A record breaks here: the offset of the first byte that could not be accepted.
#[derive(Clone, Copy, PartialEq, Eq, Debug)]
pub struct Broken {
    pub at: usize,
}

// A length byte and bytes.
#[tactic(auto, unfolding(crate::specs::Read::name_at))]
pub fn name_at(s: &[u8], at: usize) -> Result<(Text, usize), Broken>
    ensures { NameRead s.now at result }
{
    if s.len() <= at {
        return Err(Broken { at });
    }
    let n = usize::from(s[at]);
    if cell::TEXT_MOST < n {
        return Err(Broken { at });
    }
    let start = at + 1;
    if s.len() - start < n {
        return Err(Broken { at: s.len() });
    }
    let end = start + n;
    Ok((cell::text_of(&s[start..end]), end))
}

#[tactic(auto, unfolding(crate::specs::Read::boolean_at))]
fn boolean_at(s: &[u8], at: usize) -> Result<(bool, usize), Broken>
    ensures { read_as boolean result ≡ boolean_at s.now at }
{
    if s.len() <= at || 1 < s[at] {
        return Err(Broken { at });
    }
    Ok((s[at] == 1, at + 1))
}

// Eight bytes as a word.
#[tactic(auto, unfolding(crate::specs::Read::eight_at))]
fn word_at(s: &[u8], at: usize) -> Result<(u64, usize), Broken>
    requires { at ≤ length s.now }
    ensures { (v : ℕ → Meant) → read_as v result ≡ eight_at s.now at v }
{
    if s.len() - at < 8 {
        Err(Broken { at: s.len() })
    } else {
        Ok((bytes::get(&s[at..at + 8]), at + 8))
    }
}

// A kind byte and its content; minus zero and NaNs are normalised in this reading.
#[tactic(auto, unfolding(crate::specs::Read::value_at, crate::specs::Read::content_at, values::specs::Meaning::meaning, values::specs::Meaning::Proper))]
pub fn value_at(s: &[u8], at: usize) -> Result<(Cell, usize), Broken>
    ensures { CellRead s.now at result }
{
    if s.len() <= at {
        return Err(Broken { at });
    }
    let start = at + 1;
    let (value, end) = match s[at] {
        0 => (Value::Null, start),
        1 => {
            let (b, end) = boolean_at(s, start)?;
            (Value::Boolean(b), end)
        }
        2 => {
            let (bits, end) = word_at(s, start)?;
            (Value::Integer(value::integer_of(bits)), end)
        }
        3 => {
            let (bits, end) = word_at(s, start)?;
            (Value::Float(value::float_of(bits)), end)
        }
        4 => {
            let (text, end) = name_at(s, start)?;
            (Value::Text(text), end)
        }
        _ => return Err(Broken { at }),
    };
    Ok((Cell { value }, end))
}
