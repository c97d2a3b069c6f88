// The console's script: a line as a keyword, numbers and bytes; bytes as text.

#![tactic(auto)]

ghost use Rattle.std.specs.Prelude.{◌≡◌, true, false, ◌≤◌, length, drop, MatchOption};
ghost use Rattle.numbers.specs.Choice.{pick};
ghost use Rattle.numbers.specs.Parts.{front};
ghost use Rattle.script.specs.declared.Keyword.TheVariants.{Blank, Bad};
ghost use Rattle.script.specs.Shapes.{shape_of};
ghost use Rattle.script.specs.Words.{words_of};
ghost use Rattle.script.specs.Asked.{bare, numbered, Behind, says_bytes, ended_by, asked_in, asked_by, order_for};

pub mod hex;
pub mod names;
pub mod words;

// A line's first word. Blank: a comment alone; Bad: a line that is no command, an empty one too.
#[derive(Clone, Copy)]
pub enum Keyword {
    Blank,
    Bad,
    Settings,
    Heap,
    Table,
    Poke,
    Entry,
    State,
    Record,
    Claims,
    Reopen,
    Write,
    Claim,
    Release,
    Prune,
    Read,
    Through,
    Plan,
    Rewrite,
    Maintain,
    Counts,
    Unsynced,
    Sync,
    Check,
    Salvage,
    Load,
    Store,
    Cas,
    Max,
    List,
    Dump,
    Bytes,
    Help,
}

// What follows a keyword: so many numbers, then a word of hex pairs or none.
#[derive(Clone, Copy)]
pub struct Shape {
    pub numbers: usize,
    pub bytes: bool,
}

// A line taken apart. `length`: how many bytes its hex pairs gave.
#[derive(Clone, Copy)]
pub struct Order {
    pub keyword: Keyword,
    pub numbers: [u64; 9],
    pub length: usize,
}

// The numbers of a line, and the position after them.
#[derive(Clone, Copy)]
struct Numbers {
    values: [u64; 9],
    next: usize,
}

#[tactic(auto, unfolding(crate::specs::Shapes::shape_of))]
pub fn shape_of(keyword: Keyword) -> Shape
    ensures answers { result ≡ shape_of keyword }
    ensures fits { result.numbers ≤ 9 }
{
    match keyword {
        Keyword::Settings => Shape {
            numbers: 6,
            bytes: false,
        },
        Keyword::Heap
        | Keyword::Table
        | Keyword::Claim
        | Keyword::Release
        | Keyword::Read
        | Keyword::Check
        | Keyword::Load => Shape {
            numbers: 1,
            bytes: false,
        },
        Keyword::Store | Keyword::Max | Keyword::Bytes => Shape {
            numbers: 2,
            bytes: false,
        },
        Keyword::Entry | Keyword::Rewrite | Keyword::Cas => Shape {
            numbers: 3,
            bytes: false,
        },
        Keyword::Claims => Shape {
            numbers: 4,
            bytes: false,
        },
        Keyword::Record => Shape {
            numbers: 8,
            bytes: false,
        },
        Keyword::State => Shape {
            numbers: 9,
            bytes: false,
        },
        Keyword::Poke | Keyword::Through => Shape {
            numbers: 1,
            bytes: true,
        },
        Keyword::Write => Shape {
            numbers: 0,
            bytes: true,
        },
        _ => Shape {
            numbers: 0,
            bytes: false,
        },
    }
}

#[tactic(auto, unfolding(crate::specs::Asked::order_for))]
fn no_order(keyword: Keyword) -> Order
    ensures { result ≡ order_for (bare keyword) }
{
    Order {
        keyword: keyword,
        numbers: [0u64; 9],
        length: 0,
    }
}

// `n` numbers from `from` on, a word each; none where one is missing or wrong.
fn numbers_from(text: &[u8], from: usize, n: usize) -> Option<Numbers>
    requires from_in_bounds { from ≤ length text.now }
    requires n_bound { n ≤ 9 }
    ensures { MatchOption result
        (numbered n (words_of (drop from text.now)) ≡ false)
        (λ r. Behind n (words_of (drop from text.now)) text.now r.values r.next) }
{
    let mut values = [0u64; 9];
    let mut at = from;
    for value in &mut values[..n] {
        let word = words::next_word(text, at);
        *value = words::number(&text[word.start..word.end])?;
        at = word.end;
    }
    Some(Numbers {
        values: values,
        next: at,
    })
}

// Hex pairs that fit the room, or `-` for none.
#[tactic(auto, unfolding(crate::specs::Asked::says_bytes))]
fn says_bytes(word: &[u8], room: usize) -> bool
    ensures { result ≡ says_bytes room word.now }
{
    names::same(word, b"-") || word.len() / 2 <= room && hex::is_hex(word)
}

// The order, unless another word follows.
fn ended(keyword: Keyword, numbers: [u64; 9], text: &[u8], from: usize) -> Order
    requires { from ≤ length text.now }
    ensures { result ≡ order_for (ended_by 0 false keyword numbers (words_of (drop from text.now))) }
{
    if !words::no_more(text, from) {
        return no_order(Keyword::Bad);
    }
    Order {
        keyword: keyword,
        numbers: numbers,
        length: 0,
    }
}

// The order, where one word of bytes follows. It is written when nothing is left to refuse.
fn with_bytes(
    keyword: Keyword,
    numbers: [u64; 9],
    text: &[u8],
    from: usize,
    bytes: &mut [u8],
) -> Order
    requires { from ≤ length text.now }
    ensures answers { result
        ≡ order_for (ended_by (length bytes.old) true keyword numbers (words_of (drop from text.now))) }
    ensures writes { bytes.new ≡ front
        (ended_by (length bytes.old) true keyword numbers (words_of (drop from text.now))).bytes
        bytes.old }
{
    let word = words::next_word(text, from);
    let start = word.start;
    let end = word.end;
    if start == end {
        return no_order(Keyword::Bad);
    }
    if !says_bytes(&text[start..end], bytes.len()) {
        return no_order(Keyword::Bad);
    }
    if !words::no_more(text, end) {
        return no_order(Keyword::Bad);
    }
    hex::put_bytes(&text[start..end], bytes);
    let digits = end - start;
    Order {
        keyword: keyword,
        numbers: numbers,
        length: digits / 2,
    }
}

// A line without a word.
fn wordless(comment: bool) -> Order
    ensures { result ≡ order_for (bare (pick comment Blank Bad)) }
{
    if comment {
        return no_order(Keyword::Blank);
    }
    no_order(Keyword::Bad)
}

// A line without its comment, if it has one.
fn order_in(text: &[u8], comment: bool, bytes: &mut [u8]) -> Order
    ensures answers { result ≡ order_for (asked_in (length bytes.old) comment (words_of text.now)) }
    ensures writes { bytes.new
        ≡ front (asked_in (length bytes.old) comment (words_of text.now)).bytes bytes.old }
{
    let first = words::next_word(text, 0);
    let start = first.start;
    let end = first.end;
    if start == end {
        return wordless(comment);
    }
    let keyword = names::keyword_of(&text[start..end]);
    let shape = shape_of(keyword);
    let Some(numbers) = numbers_from(text, end, shape.numbers) else {
        return no_order(Keyword::Bad);
    };
    if shape.bytes {
        return with_bytes(keyword, numbers.values, text, numbers.next, bytes);
    }
    ended(keyword, numbers.values, text, numbers.next)
}

// What a line asks for. Its bytes, if it has any, come to stand at the front of `bytes`.
pub fn order_of(line: &[u8], bytes: &mut [u8]) -> Order
    ensures answers { result ≡ order_for (asked_by (length bytes.old) line.now) }
    ensures writes { bytes.new
        ≡ front (asked_by (length bytes.old) line.now).bytes bytes.old }
    ensures fits { result.length ≤ length bytes.new }
{
    let end = byte_parts::find(line, 0, line.len(), b'#');
    order_in(&line[0..end], end < line.len(), bytes)
}
