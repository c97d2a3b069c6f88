// Request P4: a search by halving beside one from the front, in the same tables: whether they answer the same, and at how many places each
// looks. With a line on standard input, `halving ENTRIES ROUNDS` or `front ENTRIES ROUNDS`, one of them alone, for a clock outside
// (tests/halving.py).

#![tactic(auto)]

mod from_front;

ghost use Rattle.std.specs.Prelude.{◌≡◌, ◌*◌, ◌<◌, ◌≤◌, length};
ghost use Rattle.location_table.specs.Tables.{Formed};

use location_table::{Searched, capacity, formed, search, set_pair};
use script::words::{Word, next_word, number};
use std::io;

// So many ids are sought in a round.
const SOUGHT: u64 = 1000;

const MOST_ENTRIES: u64 = 65536;

// At how many places a search looked: the most for one id, and all.
#[derive(Clone, Copy, Default)]
struct Looks {
    most: u64,
    all: u64,
}

// Both searches, and how often they answered otherwise.
#[derive(Clone, Copy, Default)]
struct Beside {
    halving: Looks,
    front: Looks,
    apart: u64,
}

fn table_words() -> [u64; 131072]
    ensures { 131072 ≡ length result }
{
    [0u64; 131072]
}

// Every place used: odd ids are there, even ones are not.
fn fill(table: &mut [u64]) {
    for k in 0..capacity(table) {
        let id = 2 * k as u64 + 1;
        set_pair(table, k, id, id);
    }
}

// The jth id sought: from below the least to above the greatest.
fn sought(entries: u64, j: u64) -> u64
    requires { (entries ≤ 65536) × (j < 1000) }
{
    2 * entries * j / 999
}

fn with_look(looks: Looks, looked: u64) -> Looks {
    Looks {
        most: looks.most.max(looked),
        all: looks.all.wrapping_add(looked),
    }
}

// One id more.
fn sought_by_both(table: &[u64], id: u64, b: Beside) -> Beside
    requires { Formed table.now }
{
    let h = search(table, id);
    let f = from_front::search(table, id);
    Beside {
        halving: with_look(b.halving, h.looked),
        front: with_look(b.front, f.looked),
        apart: b.apart.wrapping_add(u64::from(h.place != f.place)),
    }
}

fn all_sought(table: &[u64], entries: u64) -> Beside
    requires { Formed table.now × (entries ≤ 65536) }
{
    let mut b = Beside::default();
    for j in 0..SOUGHT {
        b = sought_by_both(table, sought(entries, j), b);
    }
    b
}

fn say(rt: &impl Print, word: &[u8], n: u64) -> io::Result<()> {
    rt.write_all(word)?;
    print!(rt; "{n}")
}

fn say_looks(rt: &impl Print, word: &[u8], looks: Looks) -> io::Result<()> {
    say(rt, word, looks.most)?;
    say(rt, b" at most, ", looks.all)?;
    rt.write_all(b" in all")
}

fn say_beside(rt: &impl Print, entries: u64, b: Beside) -> io::Result<()> {
    say(rt, b"", entries)?;
    say_looks(rt, b" entries, 1000 ids sought: by halving ", b.halving)?;
    say_looks(rt, b"; from the front ", b.front)?;
    say(rt, b"; answers that differ: ", b.apart)?;
    rt.write_all(b"\n")
}

fn compare(rt: &impl Print, table: &[u64], entries: u64) -> io::Result<()>
    requires { entries ≤ 65536 }
{
    if !formed(table) {
        return rt.write_all(b"not in form\n");
    }
    say_beside(rt, entries, all_sought(table, entries))
}

fn compare_in(rt: &impl Print, words: &mut [u64], entries: usize) -> io::Result<()>
    requires { (entries ≤ 65536) × (length words.old ≡ 131072) }
{
    let end = 2 * entries;
    fill(&mut words[0..end]);
    compare(rt, &words[0..end], entries as u64)
}

fn all_sizes(rt: &impl Print, words: &mut [u64]) -> io::Result<()>
    requires { length words.old ≡ 131072 }
{
    compare_in(rt, words, 1000)?;
    compare_in(rt, words, 4096)?;
    compare_in(rt, words, 16384)?;
    compare_in(rt, words, 40000)?;
    compare_in(rt, words, 65536)
}

// ---- one search alone, for a clock outside
fn round<F: Fn(u64) -> Searched>(look: &F, entries: u64) -> u64
    requires callable { F.IsAlwaysCallable look.now }
    requires few { entries ≤ 65536 }
{
    let mut all: u64 = 0;
    for j in 0..SOUGHT {
        all = all.wrapping_add(look(sought(entries, j)).looked);
    }
    all
}

fn rounds<F: Fn(u64) -> Searched>(look: &F, entries: u64, n: u64) -> u64
    requires callable { F.IsAlwaysCallable look.now }
    requires few { entries ≤ 65536 }
{
    let mut all: u64 = 0;
    for _ in 0..n {
        all = all.wrapping_add(round(look, entries));
    }
    all
}

fn run_rounds(rt: &impl Print, table: &[u64], entries: u64, halving: bool, n: u64) -> io::Result<()>
    requires { entries ≤ 65536 }
{
    if !formed(table) {
        return rt.write_all(b"not in form\n");
    }
    let places = if halving {
        rounds(&|id| search(table, id), entries, n)
    } else {
        rounds(&|id| from_front::search(table, id), entries, n)
    };
    say(rt, b"", places)?;
    rt.write_all(b" places\n")
}

// The number that a word says, 0 for none.
fn number_in(text: &[u8], w: Word) -> u64
    requires { (w.start ≤ w.end) × (w.end ≤ length text.now) }
{
    let start = w.start;
    let end = w.end;
    match number(&text[start..end]) {
        Some(n) => n,
        None => 0,
    }
}

fn alone(rt: &impl Print, words: &mut [u64], line: &[u8]) -> io::Result<()>
    requires { (length words.old ≡ 131072) × (0 < length line.now) }
{
    let kind = next_word(line, 0);
    let size = next_word(line, kind.end);
    let times = next_word(line, size.end);
    let entries = number_in(line, size);
    if MOST_ENTRIES < entries {
        return Ok(());
    }
    let end = 2 * entries as usize;
    fill(&mut words[0..end]);
    run_rounds(
        rt,
        &words[0..end],
        entries,
        line[0] == b'h',
        number_in(line, times),
    )
}

fn main(rt: HostRuntime) -> io::Result<()> {
    let mut words = table_words();
    let mut line = standard_input::buffer();
    let n = standard_input::read_full(&rt, &mut line);
    if n == 0 {
        return all_sizes(&rt, &mut words);
    }
    alone(&rt, &mut words, &line[..n])
}
