// The CRC-32 of IEEE 802.3, four bytes at a time by tables, in one call or over several parts.

#![tactic(auto)]

ghost use Rattle.std.specs.Prelude.{◌≡◌};
ghost use Rattle.std.specs.Int.Bits.{bit_xor};
ghost use Rattle.numbers.specs.LittleEndian.{le_bytes};
ghost use Rattle.checksum.specs.Checksum.{shifts, crc_from, crc32, object_sum};

use numbers::little_endian;

mod table;

use table::half_out;

// The register before the first byte.
const START: u32 = 0xffff_ffff;

// Four bytes out: what a table says of each half byte, and what stands above them.
fn out(w: u64) -> u32
    ensures { result ≡ shifts 32 w }
{
    half_out(7, w)
        ^ half_out(6, w >> 4)
        ^ half_out(5, w >> 8)
        ^ half_out(4, w >> 12)
        ^ half_out(3, w >> 16)
        ^ half_out(2, w >> 20)
        ^ half_out(1, w >> 24)
        ^ half_out(0, w >> 28)
        ^ ((w >> 32) as u32)
}

// The register after four bytes, which say v, and what stands above them.
fn four(r: u32, v: u64) -> u32
    ensures { result ≡ shifts 32 (bit_xor r v) }
{
    out((r as u64) ^ v)
}

// The register after eight bytes, which say v.
fn eight(r: u32, v: u64) -> u32
    ensures { result ≡ shifts 64 (bit_xor r v) }
{
    out(four(r, v) as u64)
}

// The register after one byte.
fn one(r: u32, b: u8) -> u32
    ensures { result ≡ shifts 8 (bit_xor r b) }
{
    let w = (r as u64) ^ (b as u64);
    half_out(1, w) ^ half_out(0, w >> 4) ^ ((w >> 8) as u32)
}

// The register after the bytes of s.
pub fn feed(r: u32, s: &[u8]) -> u32
    ensures { result ≡ crc_from r s.now }
{
    let mut x = r;
    let mut rest = s;
    while let Some((word, more)) = rest.split_at_checked(8) {
        x = eight(x, little_endian::get(word, 8));
        rest = more;
    }
    if let Some((word, more)) = rest.split_at_checked(4) {
        x = four(x, little_endian::get(word, 4));
        rest = more;
    }
    for b in rest {
        x = one(x, *b);
    }
    x
}

// The register after n bytes of v, low byte first.
pub fn feed_number(r: u32, n: usize, v: u64) -> u32
    ensures { result ≡ crc_from r (le_bytes n v) }
{
    if n == 8 {
        return eight(r, v);
    }
    let mut x = r;
    let mut rest = v;
    for _i in 0..n {
        x = one(x, (rest % 256) as u8);
        rest >>= 8;
    }
    x
}

// The checksum of an object: over length, id, body.
pub fn object_sum(id: u64, body: &[u8]) -> u32
    ensures { result ≡ object_sum id body.now }
{
    let a = feed_number(START, 8, body.len() as u64);
    let b = feed_number(a, 8, id);
    !feed(b, body)
}

// The checksum of a list of bytes.
pub fn sum(s: &[u8]) -> u32
    ensures { result ≡ crc32 s.now }
{
    !feed(START, s)
}
