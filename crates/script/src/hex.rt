// Bytes as hex pairs, both ways.
ghost use Rattle.std.specs.Prelude.{◌≡◌, ◌+◌, ◌*◌, ◌/◌, ◌≤◌, ◌<◌, length};
ghost use Rattle.std.specs.List.{list_all};
ghost use Rattle.numbers.specs.Parts.{front};
ghost use Rattle.script.specs.Hex.{is_hex_digit, is_hex, nibble_of, bytes_of, glyph_of, text_of};

#[tactic(auto, unfolding(crate::specs::Hex::is_hex_digit))]
pub fn is_digit(b: u8) -> bool
    ensures { result ≡ is_hex_digit b }
{
    b.is_ascii_hexdigit()
}

// What a digit of either case says; of another byte something below 16.
#[tactic(auto, unfolding(crate::specs::Hex::nibble_of))]
pub fn nibble(b: u8) -> u8
    ensures answers { result ≡ nibble_of b }
    ensures fits { result < 16 }
{
    if b <= b'9' {
        return b % 16;
    }
    (b % 16 + 9) % 16
}

fn all_digits(word: &[u8]) -> bool
    ensures { result ≡ list_all is_hex_digit word.now }
{
    word.iter().all(|b| is_digit(*b))
}

pub fn is_hex(word: &[u8]) -> bool
    ensures { result ≡ is_hex word.now }
{
    word.len() % 2 == 0 && all_digits(word)
}

fn pair(a: u8, b: u8) -> u8
    ensures { result ≡ nibble_of a * 16 + nibble_of b }
{
    nibble(a) * 16 + nibble(b)
}

// The bytes that pairs of digits say, at the front of out.
pub fn put_bytes(word: &[u8], out: &mut [u8])
    requires { length word.now / 2 ≤ length out.old }
    ensures { out.new ≡ front (bytes_of word.now) out.old }
{
    for (k, b) in out[..word.len() / 2].iter_mut().enumerate() {
        *b = pair(word[k * 2], word[k * 2 + 1]);
    }
}

#[tactic(auto, unfolding(crate::specs::Hex::glyph_of))]
pub fn glyph(n: u8) -> u8
    requires { n < 16 }
    ensures { result ≡ glyph_of n }
{
    if n < 10 { b'0' + n } else { b'a' - 10 + n }
}

// The pairs of digits of bytes, at the front of out.
pub fn put_text(bytes: &[u8], out: &mut [u8])
    requires { length bytes.now * 2 ≤ length out.old }
    ensures { out.new ≡ front (text_of bytes.now) out.old }
{
    for (k, b) in bytes.iter().enumerate() {
        out[k * 2] = glyph(*b / 16);
        out[k * 2 + 1] = glyph(*b % 16);
    }
}
