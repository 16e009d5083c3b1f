// Areas of records of one width in a lent slice of bytes: a place opened and closed, a record lent and written.
ghost use Rattle.std.specs.Prelude.{◌≡◌, ◌+◌, ◌-◌, ◌*◌, ◌≤◌, length, replicate};
ghost use Rattle.values.specs.Area.{Room, Place, closed, inserted, Spare, Taken, inserted_at, removed_at, record_at, with_record};
ghost use Rattle.areas.specs.Counted.{count_at, Grows, Shrinks, grown, shrunk};

use values::bytes;

// Puts `width` zeros in at `at`; what stood from there to `used` moves up.
pub fn open_place(area: &mut [u8], at: usize, used: usize, width: usize)
    requires { Room area.old at used width }
    ensures { area.new ≡ inserted at used (replicate width 0) area.old }
{
    area.copy_within(at..used, at + width);
    bytes::clear(area, at, at + width);
}

// Takes the place of `width` bytes at `at` out, and leaves zeros after what is used.
pub fn close_place(area: &mut [u8], at: usize, used: usize, width: usize)
    requires { Place area.old at used width }
    ensures { area.new ≡ closed at used width area.old }
{
    area.copy_within(at + width..used, at);
    bytes::clear(area, used - width, used);
}

// Puts a record of zeros in at place `at` of the `count` records that start at `from`.
pub fn open_at(s: &mut [u8], from: usize, places: usize, width: usize, count: usize, at: usize)
    requires { Spare s.old from places count at width }
    ensures { s.new ≡ inserted_at from places count at (replicate width 0) s.old }
{
    let end = from + places * width;
    open_place(&mut s[from..end], at * width, count * width, width);
}

// Takes `run` records out, from place `at` on, of the `count` records that start at `from`.
pub fn close_at(
    s: &mut [u8],
    from: usize,
    places: usize,
    width: usize,
    count: usize,
    at: usize,
    run: usize,
)
    requires { Taken s.old from places width count at run }
    ensures { s.new ≡ removed_at from places width count at run s.old }
{
    let end = from + places * width;
    close_place(&mut s[from..end], at * width, count * width, run * width);
}

// The number in the k bytes at `cat`.
pub fn count_at(s: &[u8], cat: usize, k: usize) -> usize
    requires { (k ≤ 8) × (cat + k ≤ length s.now) }
    ensures { result ≡ count_at cat k s.now }
{
    bytes::get(&s[cat..cat + k]) as usize
}

// Puts a record of zeros in at place `at` of the records that start at `from`; the k bytes at `cat` count them.
pub fn open_counted(
    s: &mut [u8],
    cat: usize,
    k: usize,
    from: usize,
    places: usize,
    width: usize,
    at: usize,
)
    requires { Grows s.old cat k from places at width }
    ensures { s.new ≡ grown cat k from places at (replicate width 0) s.old }
{
    let n = count_at(s, cat, k);
    open_at(s, from, places, width, n, at);
    bytes::put(&mut s[cat..cat + k], (n + 1) as u64);
}

// Takes `run` records out, from place `at` on; the k bytes at `cat` count them.
pub fn close_counted(
    s: &mut [u8],
    cat: usize,
    k: usize,
    from: usize,
    places: usize,
    width: usize,
    at: usize,
    run: usize,
)
    requires { Shrinks s.old cat k from places width at run }
    ensures { s.new ≡ shrunk cat k from places width at run s.old }
{
    let n = count_at(s, cat, k);
    close_at(s, from, places, width, n, at, run);
    bytes::put(&mut s[cat..cat + k], (n - run) as u64);
}

// The record at place `at` of those that start at `from`.
pub fn record_at(s: &[u8], from: usize, width: usize, at: usize) -> &[u8]
    requires { from + at * width + width ≤ length s.now }
    ensures { result.now ≡ record_at from width at s.now }
{
    let start = from + at * width;
    &s[start..start + width]
}

// Writes a record over the one at place `at`.
pub fn write_record(s: &mut [u8], from: usize, at: usize, rec: &[u8])
    requires { from + at * length rec.now + length rec.now ≤ length s.old }
    ensures { s.new ≡ with_record from at rec.now s.old }
{
    let start = from + at * rec.len();
    s[start..start + rec.len()].copy_from_slice(rec);
}
