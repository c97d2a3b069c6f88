// A byte looked for in a part of a slice, and bytes copied into the front of one.

#![tactic(auto)]

ghost use Rattle.std.specs.Prelude.{◌≡◌, ◌==◌, ◌+◌, ◌≤◌, length, position};
ghost use Rattle.numbers.specs.Parts.{front};
ghost use Rattle.byte_parts.specs.Bytes.{slice, index_of};

// Copies `from` over the front of `to`, from the first byte on; what is behind it stays.
pub fn copy(from: &[u8], to: &mut [u8])
    requires { length from.now ≤ length to.old }
    ensures { to.new ≡ front from.now to.old }
{
    // Kept: a loop, since the library's copy of a slice becomes a call of the host's memmove, which may store in another order.
    for i in 0..from.len() {
        to[i] = from[i];
    }
}

// Where `byte` first stands.
fn place(s: &[u8], byte: u8) -> Option<usize>
    ensures { result ≡ position (λ b. b == byte) s.now }
{
    s.iter().position(|b| *b == byte)
}

// Where `byte` first stands in s[from..to], or `to`.
pub fn find(s: &[u8], from: usize, to: usize, byte: u8) -> usize
    requires within { to ≤ length s.now }
    requires ordered { from ≤ to }
    ensures finds { result ≡ from + index_of byte (slice from to s.now) }
    ensures bounded { result ≤ to }
{
    match place(&s[from..to], byte) {
        Some(i) => from + i,
        None => to,
    }
}
