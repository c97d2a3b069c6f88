// The claim record as four lent words.
ghost use Rattle.std.specs.Prelude.{◌≡◌, length};
ghost use Rattle.as_numbers.specs.ClaimWords.{claims_in};

use crate::four_words::put_four;
use rules::Claims;

// The claim record that the words hold.
pub fn claims_in(words: &[u64]) -> Claims
    requires { length words.now ≡ 4 }
    ensures { result ≡ claims_in words.now }
{
    Claims {
        a: words[0],
        b: words[1],
        c: words[2],
        d: words[3],
    }
}

// The words of a claim record, in the place of what stood there.
pub fn put_claims(words: &mut [u64], c: Claims)
    requires { length words.old ≡ 4 }
    ensures { claims_in words.new ≡ c }
{
    put_four(words, c.a, c.b, c.c, c.d);
}
