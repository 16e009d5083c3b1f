// Texts and values (value.rs: `Value`, `DataType`, `datatype`, `is_undefined`), their equality and order.
ghost use Rattle.std.specs.Prelude.{◌≡◌, cond, T};
ghost use Prim.Native.Nat.{compare};
ghost use Rattle.std.specs.Float.Ieee as Ieee;
ghost use Rattle.std.specs.Float.{binary64};
ghost use Rattle.std.specs.Float.Ieee.{to_bits};
ghost use Rattle.std.specs.Int.{w64};
ghost use Rattle.std.proofs.Common.{of_z, to_z};
ghost use Rattle.values.specs.Basic.{cmp_bytes, cmpℤ};
ghost use Rattle.values.specs.Value.{cmp_value, kind_of, is_null, is_undefined, normal_bits, signed_bits};
ghost use Rattle.values.specs.Meaning.{text_bytes, Packed, meaning, Proper, ordering};

use std::cmp::Ordering;

// A text of at most 24 bytes: three words, the highest byte first, zeros past the length. A name is one too.
#[derive(Clone, Copy, PartialEq, Eq, PartialOrd, Ord)]
pub struct Text {
    pub a: u64,
    pub b: u64,
    pub c: u64,
    pub len: u8,
}

#[derive(Clone, Copy, Default)]
pub enum Value {
    #[default]
    Null,
    Boolean(bool),
    Integer(i64),
    Float(f64),
    Text(Text),
}

// What readers give, writers and printers take and rows in flight hold.
#[derive(Clone, Copy, Default)]
pub struct Cell {
    pub value: Value,
}

// The kind's number: NULL 0, boolean 1, integer 2, float 3, text 4.
#[tactic(auto, unfolding(crate::specs::Meaning::meaning))]
pub fn datatype(v: Value) -> u8
    ensures { result ≡ kind_of (meaning v) }
{
    match v {
        Value::Null => 0,
        Value::Boolean(_) => 1,
        Value::Integer(_) => 2,
        Value::Float(_) => 3,
        Value::Text(_) => 4,
    }
}

#[tactic(auto, unfolding(crate::specs::Meaning::meaning))]
pub fn is_null(v: Value) -> bool
    ensures { result ≡ is_null (meaning v) }
{
    matches!(v, Value::Null)
}

// NULL or NaN.
#[tactic(auto, unfolding(crate::specs::Meaning::meaning, crate::specs::Meaning::Proper))]
pub fn is_undefined(v: Value) -> bool
    requires { Proper v }
    ensures { result ≡ is_undefined (meaning v) }
{
    match v {
        Value::Null => true,
        Value::Float(x) => x.is_nan(),
        _ => false,
    }
}

// Two's complement.
pub fn integer_bits(z: i64) -> u64
    ensures { result ≡ of_z w64 z }
{
    z.cast_unsigned()
}

pub fn integer_of(w: u64) -> i64
    ensures { result ≡ to_z w64 w }
{
    w.cast_signed()
}

// A float's bits, normalised.
pub fn float_bits(x: f64) -> u64
    ensures { result ≡ normal_bits (to_bits binary64 x) }
{
    if x.is_nan() {
        return 0x7FF8000000000000;
    }
    let w = x.to_bits();
    if w == 0x8000000000000000 { 0 } else { w }
}

// The float of a word, normalised.
pub fn float_of(w: u64) -> f64
    ensures { (to_bits binary64 result ≡ normal_bits w) × T (Ieee.fits binary64 result) }
{
    if w == 0x8000000000000000 {
        return 0.0;
    }
    if 0x7FF0000000000000 < w % 0x8000000000000000 {
        return f64::NAN;
    }
    f64::from_bits(w)
}

// Names are compared here and nowhere else.
pub fn compare_texts(x: Text, y: Text) -> Ordering
    requires { Packed x × Packed y }
    ensures { ordering result ≡ cmp_bytes (text_bytes x) (text_bytes y) }
{
    x.cmp(&y)
}

// A float's normalised bits with the sign bit as a sign: this puts floats in their order, NaN last.
fn signed_bits(x: f64) -> i64
    ensures { result ≡ signed_bits (normal_bits (to_bits binary64 x)) }
{
    let b = float_bits(x);
    if b < 0x8000000000000000 {
        b as i64
    } else {
        -1 - ((b - 0x8000000000000000) as i64)
    }
}

// 01's order of values. Values of one kind are compared by their content.
pub fn compare(v: Value, w: Value) -> Ordering
    requires { Proper v × Proper w }
    ensures { ordering result ≡ cmp_value (meaning v) (meaning w) }
{
    match (v, w) {
        (Value::Boolean(x), Value::Boolean(y)) => x.cmp(&y),
        (Value::Integer(x), Value::Integer(y)) => x.cmp(&y),
        (Value::Float(x), Value::Float(y)) => signed_bits(x).cmp(&signed_bits(y)),
        (Value::Text(x), Value::Text(y)) => compare_texts(x, y),
        _ => datatype(v).cmp(&datatype(w)),
    }
}
