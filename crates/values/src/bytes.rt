// Numbers as bytes, the highest first; bytes compared, and cleared.
ghost use Rattle.std.specs.Prelude.{◌≡◌, [], ◌≤◌, length};
ghost use Rattle.values.specs.Bytes.{be, num, leqb, zeros};
ghost use Rattle.values.specs.Area.{cleared};

// Writes w into the whole of out.
pub fn put(out: &mut [u8], w: u64)
    ensures { out.new ≡ be (length out.old) w [] }
{
    let mut rest = w;
    for i in (0..out.len()).rev() {
        out[i] = (rest % 256) as u8;
        rest /= 256;
    }
}

// The number that the bytes of s spell.
pub fn get(s: &[u8]) -> u64
    requires { length s.now ≤ 8 }
    ensures { result ≡ num 0 s.now }
{
    let mut w: u64 = 0;
    for byte in s {
        w = w * 256 + u64::from(*byte);
    }
    w
}

// Whether two slices have the same bytes.
pub fn same_bytes(a: &[u8], b: &[u8]) -> bool
    ensures { result ≡ leqb a.now b.now }
{
    a == b
}

// Whether every byte is zero.
pub fn all_zero(s: &[u8]) -> bool
    ensures { result ≡ zeros s.now }
{
    s.iter().all(|&byte| byte == 0)
}

// Zeros from `from` to `to`.
pub fn clear(s: &mut [u8], from: usize, to: usize)
    requires { (from ≤ to) × (to ≤ length s.old) }
    ensures { s.new ≡ cleared from to s.old }
{
    s[from..to].fill(0);
}
