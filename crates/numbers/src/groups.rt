// Groups of seven bits, low group first, top bit set on all but the last, shortest form only.

ghost use Rattle.std.specs.Prelude.{◌≡◌, ◌≤◌, length};
ghost use Rattle.numbers.specs.Parts.{front};
ghost use Rattle.numbers.specs.Groups.{groups_of, number_in};

// The number that stands in s at `at`, with the position after it. The groups so far say v; the next one counts from bit `shift` on.
pub fn decode(s: &[u8], at: usize) -> Option<(u64, usize)>
    ensures { result ≡ number_in 10 s.now at }
{
    let mut v: u64 = 0;
    let mut shift: u64 = 0;
    for i in at..s.len() {
        let b = s[i];
        if shift == 63 {
            if b == 1 {
                return Some((v + (1 << 63), i + 1));
            }
            return None;
        }
        if b < 128 {
            if b == 0 && 0 < shift {
                return None;
            }
            return Some((v + ((b as u64) << shift), i + 1));
        }
        v += ((b - 128) as u64) << shift;
        shift += 7;
    }
    None
}

// Writes x at the front of s, and answers how many bytes it took.
pub fn encode(s: &mut [u8], x: u64) -> usize
    requires { 10 ≤ length s.old }
    ensures counts { result ≡ length (groups_of 10 x) }
    ensures writes { s.new ≡ front (groups_of 10 x) s.old }
{
    let mut rest = x;
    let mut i: usize = 0;
    while 128 <= rest {
        s[i] = (rest % 128 + 128) as u8;
        rest >>= 7;
        i += 1;
    }
    s[i] = rest as u8;
    i + 1
}
