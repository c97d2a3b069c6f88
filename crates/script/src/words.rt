// Words of a line, and the number that a word says.
ghost use Rattle.std.specs.Prelude.{◌≡◌, ◌+◌, ◌≤◌, length, drop};
ghost use Rattle.std.specs.Bool.{beq};
ghost use Rattle.std.specs.List.{take_while};
ghost use Rattle.script.specs.Words.{is_blank, run_of, words_of, none, next_word};
ghost use Rattle.script.specs.Decimal.{number_of, longer_by};

// Where a word stands; start and end are the same where there is none.
#[derive(Clone, Copy)]
pub struct Word {
    pub start: usize,
    pub end: usize,
}

#[tactic(auto, unfolding(crate::specs::Words::is_blank))]
pub fn is_blank(b: u8) -> bool
    ensures { result ≡ is_blank b }
{
    matches!(b, b' ' | b'\t' | b'\r')
}

// How many bytes at the front are all blank, or all not.
fn run(text: &[u8], blank: bool) -> usize
    ensures { result ≡ length (take_while (λ b. beq (is_blank b) blank) text.now) }
{
    text.iter().take_while(|b| is_blank(**b) == blank).count()
}

// The end of the run of bytes from `from` on that are all blank, or all not.
fn run_end(text: &[u8], from: usize, blank: bool) -> usize
    requires { from ≤ length text.now }
    ensures answers { result ≡ from + run_of blank (drop from text.now) }
    ensures within { (from ≤ result) × (result ≤ length text.now) }
{
    from + run(&text[from..], blank)
}

pub fn next_word(text: &[u8], from: usize) -> Word
    requires { from ≤ length text.now }
    ensures within { (from ≤ result.start) × (result.start ≤ result.end) × (result.end ≤ length text.now) }
    ensures answers { result ≡ next_word text.now from }
{
    let start = run_end(text, from, true);
    let end = run_end(text, start, false);
    Word {
        start: start,
        end: end,
    }
}

// No word follows.
pub fn no_more(text: &[u8], from: usize) -> bool
    requires { from ≤ length text.now }
    ensures { result ≡ none (words_of (drop from text.now)) }
{
    let word = next_word(text, from);
    word.start == word.end
}

// One digit more behind n.
#[tactic(auto, unfolding(crate::specs::Decimal::longer_by))]
fn longer(n: u64, b: u8) -> Option<u64>
    ensures { result ≡ longer_by n b }
{
    if !b.is_ascii_digit() {
        return None;
    }
    n.checked_mul(10)?.checked_add(u64::from(b - b'0'))
}

// The number that a word's digits say, if it has 64 bits.
pub fn number(word: &[u8]) -> Option<u64>
    ensures { result ≡ number_of word.now }
{
    if word.is_empty() {
        return None;
    }
    let mut n: u64 = 0;
    for b in word {
        n = longer(n, *b)?;
    }
    Some(n)
}
