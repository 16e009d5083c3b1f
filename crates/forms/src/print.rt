// A value as a `row` line prints it, into the front of a lent buffer.
ghost use Rattle.std.specs.Prelude.{◌≡◌, [], ◌∷◌, ◌+◌, ◌*◌, ◌<◌, ◌≤◌, max, length};
ghost use Rattle.std.specs.Float.{binary64};
ghost use Rattle.std.specs.Float.Ieee.{to_bits};
ghost use Rattle.values.specs.Value.{float, text};
ghost use Rattle.values.specs.Meaning.{text_bytes, Packed, held, ProperCell};
ghost use Rattle.forms.specs.Print.{digits, count, decimal, signed_decimal, hex_digit, hex, printed, print_most, Front};

use values::value::{Cell, Text, Value};
use values::{bytes, cell, value};

// How many decimal digits m has, at least one.
fn digit_count(m: u64) -> usize
    ensures digits { result ≡ max 1 (count 20 m) }
    ensures bound { result ≤ 20 }
{
    let mut n: usize = 0;
    let mut rest = m;
    while 0 < rest {
        rest /= 10;
        n += 1;
    }
    n.max(1)
}

// Fills out with the last digits of m.
fn put_digits(out: &mut [u8], m: u64)
    ensures { out.new ≡ digits (length out.old) m [] }
{
    let mut rest = m;
    for i in (0..out.len()).rev() {
        out[i] = b'0' + (rest % 10) as u8;
        rest /= 10;
    }
}

// Writes m in decimal, and returns how many bytes that took.
pub fn put_decimal(out: &mut [u8], m: u64) -> usize
    requires { 20 ≤ length out.old }
    ensures { Front (decimal m) out.old out.new result × (result ≤ 20) }
{
    let n = digit_count(m);
    put_digits(&mut out[..n], m);
    n
}

// Decimal digits with a minus sign if below zero.
fn put_integer(out: &mut [u8], z: i64) -> usize
    requires { print_most ≤ length out.old }
    ensures { Front (signed_decimal z) out.old out.new result }
{
    if 0 <= z {
        return put_decimal(out, z.unsigned_abs());
    }
    out[0] = b'-';
    put_decimal(&mut out[1..], z.unsigned_abs()) + 1
}

fn hex_digit(d: u8) -> u8
    requires { d < 16 }
    ensures { result ≡ hex_digit d }
{
    if d < 10 { b'0' + d } else { b'a' + (d - 10) }
}

// Fills out with two digits for each byte of s.
fn put_hex(out: &mut [u8], s: &[u8])
    requires { length out.old ≡ 2 * length s.now }
    ensures { out.new ≡ hex s.now }
{
    for (i, byte) in s.iter().enumerate() {
        out[2 * i] = hex_digit(byte / 16);
        out[2 * i + 1] = hex_digit(byte % 16);
    }
}

// Bytes as they are.
fn put_bytes(out: &mut [u8], s: &[u8]) -> usize
    requires { length s.now ≤ length out.old }
    ensures { Front s.now out.old out.new result }
{
    out[..s.len()].copy_from_slice(s);
    s.len()
}

// A letter, a colon and two digits for each byte of s.
fn put_tagged(out: &mut [u8], letter: u8, s: &[u8]) -> usize
    requires { 2 + 2 * length s.now ≤ length out.old }
    ensures { Front (letter ∷ 58 ∷ hex s.now) out.old out.new result }
{
    out[0] = letter;
    out[1] = b':';
    let end = 2 + 2 * s.len();
    put_hex(&mut out[2..end], s);
    end
}

// `f:` and the 16 digits of the normalised bits.
fn put_float(out: &mut [u8], x: f64) -> usize
    requires { print_most ≤ length out.old }
    ensures { Front (printed (float (to_bits binary64 x))) out.old out.new result × (result ≤ print_most) }
{
    let mut bits = [0; 8];
    bytes::put(&mut bits, value::float_bits(x));
    put_tagged(out, b'f', &bits)
}

// `t:` and the digits of the bytes.
fn put_text(out: &mut [u8], t: Text) -> usize
    requires { (print_most ≤ length out.old) × Packed t }
    ensures { Front (printed (text (text_bytes t))) out.old out.new result × (result ≤ print_most) }
{
    let mut own = [0; cell::NAME_WIDTH];
    cell::write_name(&mut own, t);
    let end = usize::from(t.len) + 1;
    put_tagged(out, b't', &own[1..end])
}

// Writes the value, and returns how many bytes that took.
pub fn print_value(out: &mut [u8], c: Cell) -> usize
    requires { (print_most ≤ length out.old) × ProperCell c }
    ensures { Front (printed (held c)) out.old out.new result × (result ≤ print_most) }
{
    match c.value {
        Value::Null => put_bytes(out, b"NULL"),
        Value::Boolean(true) => put_bytes(out, b"true"),
        Value::Boolean(false) => put_bytes(out, b"false"),
        Value::Integer(z) => put_integer(out, z),
        Value::Float(x) => put_float(out, x),
        Value::Text(t) => put_text(out, t),
    }
}
