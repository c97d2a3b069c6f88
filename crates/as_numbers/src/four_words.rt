// Four numbers in four lent words, as the claim record and the counts are.
ghost use Rattle.std.specs.Prelude.{◌≡◌, [], ◌∷◌, length};

pub fn put_four(words: &mut [u64], a: u64, b: u64, c: u64, d: u64)
    requires { length words.old ≡ 4 }
    ensures { words.new ≡ a ∷ b ∷ c ∷ d ∷ [] }
{
    words.copy_from_slice(&[a, b, c, d]);
}
