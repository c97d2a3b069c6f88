// Little-endian numbers: one writer and one reader for every width.

ghost use Rattle.std.specs.Prelude.{◌≡◌, ◌≤◌, length, take};
ghost use Rattle.numbers.specs.LittleEndian.{le_bytes, le_value};
ghost use Rattle.numbers.specs.Parts.{front};

// Writes x in n bytes, low byte first, at the front of s.
pub fn put(s: &mut [u8], n: usize, x: u64)
    requires { n ≤ length s.old }
    ensures { s.new ≡ front (le_bytes n x) s.old }
{
    let mut rest = x;
    for b in &mut s[..n] {
        *b = (rest % 256) as u8;
        rest >>= 8;
    }
}

// The number that the first n bytes of s say.
pub fn get(s: &[u8], n: usize) -> u64
    requires n_in_bounds { n ≤ length s.now }
    requires n_bound { n ≤ 8 }
    ensures { result ≡ le_value (take n s.now) }
{
    let mut v: u64 = 0;
    for b in s[..n].iter().rev() {
        v = (v << 8) + *b as u64;
    }
    v
}
