// Name cells of 25 bytes and value cells of 26: written, read, and told from other bytes.
ghost use Rattle.std.specs.Prelude.{◌≡◌, [], ◌∷◌, ◌≤◌, length, take, drop, replicate};
ghost use Rattle.values.specs.Bytes.{be, pad};
ghost use Rattle.values.specs.Value.{text_most};
ghost use Rattle.values.specs.Meaning.{text_bytes, Packed, held, ProperCell};
ghost use Rattle.values.specs.Cell.{name_width, name_cell, read_name, is_name_cell, cell_width, value_cell, read_value, is_cell};

use super::value::{Cell, Text, Value};
use super::{bytes, value};

// A text's bytes at the most.
pub const TEXT_MOST: usize = 24;

// A name's cell: its length, and a text's bytes.
pub const NAME_WIDTH: usize = TEXT_MOST + 1;

// A value's cell: the kind's number, and its content.
pub const CELL_WIDTH: usize = NAME_WIDTH + 1;

// The bytes of s as a text.
pub fn text_of(s: &[u8]) -> Text
    requires { length s.now ≤ text_most }
    ensures { (text_bytes result ≡ s.now) × Packed result }
{
    let mut padded = [0; TEXT_MOST];
    padded[..s.len()].copy_from_slice(s);
    Text {
        a: bytes::get(&padded[..8]),
        b: bytes::get(&padded[8..16]),
        c: bytes::get(&padded[16..]),
        len: s.len() as u8,
    }
}

pub fn write_name(out: &mut [u8], t: Text)
    requires { (length out.old ≡ name_width) × Packed t }
    ensures { out.new ≡ name_cell (text_bytes t) }
{
    out[0] = t.len;
    bytes::put(&mut out[1..9], t.a);
    bytes::put(&mut out[9..17], t.b);
    bytes::put(&mut out[17..NAME_WIDTH], t.c);
}

// The name at the front of s: a length above 24 counts as 24, and bytes past the length are not looked at.
pub fn read_name(s: &[u8]) -> Text
    requires { name_width ≤ length s.now }
    ensures { (text_bytes result ≡ read_name s.now) × Packed result }
{
    let n = TEXT_MOST.min(usize::from(s[0]));
    text_of(&s[1..n + 1])
}

// Whether the bytes are a name's cell: they are those of the cell of what they are read as.
pub fn is_name_cell(s: &[u8]) -> bool
    requires { length s.now ≡ name_width }
    ensures { result ≡ is_name_cell s.now }
{
    let mut own = [0; NAME_WIDTH];
    write_name(&mut own, read_name(s));
    bytes::same_bytes(&own, s)
}

// A kind and eight bytes of content.
fn write_word(out: &mut [u8], kind: u8, w: u64)
    requires { length out.old ≡ cell_width }
    ensures { out.new ≡ kind ∷ 0 ∷ be 8 w (replicate 16 0) }
{
    out[0] = kind;
    out[1] = 0;
    bytes::put(&mut out[2..10], w);
    bytes::clear(out, 10, CELL_WIDTH);
}

pub fn write_cell(out: &mut [u8], c: Cell)
    requires { (length out.old ≡ cell_width) × ProperCell c }
    ensures { out.new ≡ value_cell cell_width (held c) }
{
    match c.value {
        Value::Null => write_word(out, 0, 0),
        Value::Boolean(b) => write_word(out, 1, u64::from(b) << 56),
        Value::Integer(z) => write_word(out, 2, value::integer_bits(z)),
        Value::Float(x) => write_word(out, 3, value::float_bits(x)),
        Value::Text(t) => {
            out[0] = 4;
            write_name(&mut out[1..CELL_WIDTH], t)
        }
    }
}

// The value at the front of s, normalised. Bytes that are no cell are read too: `is_cell` tells them.
pub fn read_cell(s: &[u8]) -> Cell
    requires { cell_width ≤ length s.now }
    ensures { (held result ≡ read_value s.now) × ProperCell result }
{
    let value = match s[0] {
        0 => Value::Null,
        1 => Value::Boolean(s[2] == 1),
        2 => Value::Integer(value::integer_of(bytes::get(&s[2..10]))),
        3 => Value::Float(value::float_of(bytes::get(&s[2..10]))),
        _ => Value::Text(read_name(&s[1..CELL_WIDTH])),
    };
    Cell { value }
}

// Whether the bytes are a value's cell: they are those of the cell of what they are read as.
pub fn is_cell(s: &[u8]) -> bool
    requires { length s.now ≡ cell_width }
    ensures { result ≡ is_cell s.now }
{
    let mut own = [0; CELL_WIDTH];
    write_cell(&mut own, read_cell(s));
    bytes::same_bytes(&own, s)
}
