// Whether a record's bytes, from the version byte on, say a request, and else the offset of the first byte that could not be accepted. Nothing is
// built: the bytes are walked in place.
ghost use Rattle.std.specs.Prelude.{◌≡◌, ℕ, get_or};
ghost use Rattle.forms.specs.Read.{name_at, value_at};
ghost use Rattle.rules.specs.Request.{Delete};
ghost use Rattle.records.specs.Reading.{byte_at, byte_from};
ghost use Rattle.records.specs.Record.{values_at, column_at, create_at, drop_at, map_at, columns_at, insert_at, pair_at, update_at, keys_at, lookup_at, scan_at, operands_at, request_of};
ghost use Rattle.records.specs.Walked.{Walked, walked_as, EndsAs, in_a_row};

use super::reader;
use forms::read::Broken;
use rules::profile::Profile;

// The byte at a position, 0 past the end.
pub fn byte_of(s: &[u8], at: usize) -> u8
    ensures { result ≡ get_or s.now at 0 }
{
    s.get(at).copied().unwrap_or(0)
}

#[tactic(auto, unfolding(crate::specs::Walked::walked_as, crate::specs::Reading::byte_at))]
fn byte_end(s: &[u8], at: usize) -> Result<usize, Broken>
    ensures { result ≡ walked_as (byte_at s.now at) }
{
    if at < s.len() {
        Ok(at + 1)
    } else {
        Err(Broken { at })
    }
}

// A byte from low to high.
#[tactic(auto, unfolding(crate::specs::Walked::walked_as, crate::specs::Reading::byte_from, crate::specs::Reading::byte_at, crate::specs::Reading::and_then))]
fn byte_within(s: &[u8], low: usize, high: usize, at: usize) -> Result<usize, Broken>
    ensures { result ≡ walked_as (byte_from low high s.now at) }
{
    match s.get(at) {
        Some(&b) if low <= b as usize && b as usize <= high => Ok(at + 1),
        _ => Err(Broken { at }),
    }
}

#[tactic(auto, unfolding(crate::specs::Walked::walked_as))]
fn name_end(s: &[u8], at: usize) -> Result<usize, Broken>
    ensures { result ≡ walked_as (name_at s.now at) }
{
    reader::name_at(s, at).map(|(_, next)| next)
}

#[tactic(auto, unfolding(crate::specs::Walked::walked_as))]
pub fn value_end(s: &[u8], at: usize) -> Result<usize, Broken>
    ensures { result ≡ walked_as (value_at s.now at) }
{
    reader::value_at(s, at).map(|(_, next)| next)
}

// n readings in a row, each of which ends where `end` says.
fn times<F: Fn(usize) -> Result<usize, Broken>>(end: F, n: u8, at: usize) -> Result<usize, Broken>
    requires { F.IsAlwaysCallable end }
    ensures { (walk : ℕ → Walked) → EndsAs (F.post end) walk → result ≡ in_a_row walk n at }
{
    let mut next = at;
    for _ in 0..n {
        next = end(next)?;
    }
    Ok(next)
}

// A count byte and as many values.
#[tactic(auto, using(crate::proofs::Walking::stop), unfolding(crate::specs::Record::values_at))]
pub fn values_end(s: &[u8], at: usize) -> Result<usize, Broken>
    ensures { result ≡ walked_as (values_at s.now at) }
{
    let a = byte_end(s, at)?;
    times(|x| value_end(s, x), byte_of(s, at), a)
}

// Name, kind, flags, default, reference name.
#[tactic(auto, using(crate::proofs::Walking::stop), unfolding(crate::specs::Record::column_at))]
fn column_end(s: &[u8], at: usize) -> Result<usize, Broken>
    ensures { result ≡ walked_as (column_at s.now at) }
{
    let a = name_end(s, at)?;
    let b = byte_within(s, 1, 4, a)?;
    let c = byte_within(s, 0, 31, b)?;
    let flags = byte_of(s, b);
    let d = if flags / 2 % 2 == 1 {
        value_end(s, c)?
    } else {
        c
    };
    if flags / 16 % 2 == 1 {
        name_end(s, d)
    } else {
        Ok(d)
    }
}

// 1: name, key column, column count, columns.
#[tactic(auto, using(crate::proofs::Walking::stop), unfolding(crate::specs::Record::create_at))]
fn create_end(s: &[u8], p: Profile, at: usize) -> Result<usize, Broken>
    ensures { result ≡ walked_as (create_at s.now p at) }
{
    let a = name_end(s, at)?;
    let b = byte_end(s, a)?;
    let c = byte_within(s, 0, p.columns, b)?;
    times(|x| column_end(s, x), byte_of(s, b), c)
}

// 2: name, if-exists byte.
#[tactic(auto, using(crate::proofs::Walking::stop), unfolding(crate::specs::Record::drop_at))]
fn drop_end(s: &[u8], at: usize) -> Result<usize, Broken>
    ensures { result ≡ walked_as (drop_at s.now at) }
{
    let a = name_end(s, at)?;
    byte_within(s, 0, 1, a)
}

// A count byte and as many column numbers.
#[tactic(auto, using(crate::proofs::Walking::stop), unfolding(crate::specs::Record::columns_at))]
fn map_columns_end(s: &[u8], at: usize) -> Result<usize, Broken>
    ensures { result ≡ walked_as (columns_at s.now at) }
{
    let a = byte_end(s, at)?;
    times(|x| byte_end(s, x), byte_of(s, at), a)
}

// A map byte, and the map if there is one.
#[tactic(auto, using(crate::proofs::Walking::stop), unfolding(crate::specs::Record::map_at))]
pub fn map_end(s: &[u8], at: usize) -> Result<usize, Broken>
    ensures { result ≡ walked_as (map_at s.now at) }
{
    let a = byte_within(s, 0, 1, at)?;
    if byte_of(s, at) == 1 {
        map_columns_end(s, a)
    } else {
        Ok(a)
    }
}

// 3: table, map, row count, rows.
#[tactic(auto, using(crate::proofs::Walking::stop), unfolding(crate::specs::Record::insert_at))]
fn insert_end(s: &[u8], at: usize) -> Result<usize, Broken>
    ensures { result ≡ walked_as (insert_at s.now at) }
{
    let a = name_end(s, at)?;
    let b = map_end(s, a)?;
    let c = byte_end(s, b)?;
    times(|x| values_end(s, x), byte_of(s, b), c)
}

// An old key and a row.
#[tactic(auto, using(crate::proofs::Walking::stop), unfolding(crate::specs::Record::pair_at))]
fn pair_end(s: &[u8], at: usize) -> Result<usize, Broken>
    ensures { result ≡ walked_as (pair_at s.now at) }
{
    let a = value_end(s, at)?;
    values_end(s, a)
}

// 4: table, pair count, pairs.
#[tactic(auto, using(crate::proofs::Walking::stop), unfolding(crate::specs::Record::update_at))]
fn update_end(s: &[u8], at: usize) -> Result<usize, Broken>
    ensures { result ≡ walked_as (update_at s.now at) }
{
    let a = name_end(s, at)?;
    let b = byte_end(s, a)?;
    times(|x| pair_end(s, x), byte_of(s, a), b)
}

// 5 and 6: table, keys.
#[tactic(auto, using(crate::proofs::Walking::stop), unfolding(crate::specs::Record::keys_at))]
fn keys_end(s: &[u8], at: usize) -> Result<usize, Broken>
    ensures { result ≡ walked_as (keys_at s.now Delete at) }
{
    let a = name_end(s, at)?;
    values_end(s, a)
}

// 7: table, column number, values.
#[tactic(auto, using(crate::proofs::Walking::stop), unfolding(crate::specs::Record::lookup_at))]
fn lookup_end(s: &[u8], at: usize) -> Result<usize, Broken>
    ensures { result ≡ walked_as (lookup_at s.now at) }
{
    let a = name_end(s, at)?;
    let b = byte_end(s, a)?;
    values_end(s, b)
}

// 8: table.
#[tactic(auto, using(crate::proofs::Walking::stop), unfolding(crate::specs::Record::scan_at))]
fn scan_end(s: &[u8], at: usize) -> Result<usize, Broken>
    ensures { result ≡ walked_as (scan_at s.now at) }
{
    name_end(s, at)
}

// The operands of operation k.
#[tactic(auto, using(crate::proofs::Walking::keys_alike), unfolding(crate::specs::Record::operands_at, crate::specs::Walked::walked_as))]
fn operands_end(s: &[u8], p: Profile, k: u8, at: usize) -> Result<usize, Broken>
    ensures { result ≡ walked_as (operands_at s.now p k at) }
{
    match k {
        1 => create_end(s, p, at),
        2 => drop_end(s, at),
        3 => insert_end(s, at),
        4 => update_end(s, at),
        5 | 6 => keys_end(s, at),
        7 => lookup_end(s, at),
        8 => scan_end(s, at),
        9 | 12 | 13 | 14 => Ok(at),
        _ => Err(Broken { at: 1 }),
    }
}

// Where the request ends that a record's bytes say: with them; or where it breaks.
#[tactic(auto, using(crate::proofs::Walking::stop), unfolding(crate::specs::Record::request_of))]
pub fn walk(s: &[u8], p: Profile) -> Result<usize, Broken>
    ensures { result ≡ walked_as (request_of s.now p) }
{
    let a = byte_within(s, 1, 1, 0)?;
    let b = byte_end(s, a)?;
    let end = operands_end(s, p, byte_of(s, a), b)?;
    if end < s.len() {
        return Err(Broken { at: end });
    }
    Ok(end)
}
