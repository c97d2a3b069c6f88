// A plan as the words of C's struct (include/marble.h): mark, count, files, bytes, the number and generation foretold; then for each of
// 1, 2 and 3 how many slots, and 256 places for them.

#![tactic(auto)]

ghost use Rattle.std.specs.Prelude.{◌≡◌, ◌+◌, ◌<◌, ◌≤◌, length};
ghost use Rattle.numbers.specs.Parts.{put_at};
ghost use Rattle.rules.specs.Base.{padded};
ghost use Rattle.rules.specs.TwoCalls.{counted};
ghost use Rattle.gc_candidates.specs.Plan.{planned};
ghost use Rattle.plan_words.specs.PlanWords.{foretold_number, foretold_generation, head_words, group_words, plan_words};

use as_numbers::answers::refusal_number;
use gc_course::Halt;
use gc_plan::PlanValues;

// The slots of a generation, ascending, their number before them, zeros behind them.
fn put_group(slots: &[u64], generation: u64, words: &mut [u64])
    requires { length slots.now < length words.old }
    ensures { words.new
        ≡ padded (length words.old) (counted (planned slots.now generation)) }
{
    words.fill(0);
    let mut n: usize = 0;
    for (i, taken) in slots.iter().enumerate() {
        if *taken == generation {
            n += 1;
            words[n] = i as u64;
        }
    }
    words[0] = n as u64;
}

// The same in 257 words from a place on.
fn put_group_at(slots: &[u64], generation: u64, words: &mut [u64], at: usize)
    requires slots_len { length slots.now ≡ 256 }
    requires at_in_bounds { at + 257 ≤ length words.old }
    ensures { words.new
        ≡ put_at words.old at (group_words (planned slots.now generation)) }
{
    let end = at + 257;
    put_group(slots, generation, &mut words[at..end]);
}

// 0 where nothing is foretold.
fn foretold_number(foretold: Option<Halt>) -> u64
    ensures { result ≡ foretold_number foretold }
{
    match foretold {
        None => 0,
        Some(halt) => refusal_number(halt.refusal),
    }
}

// 0 where nothing is foretold.
fn foretold_generation(foretold: Option<Halt>) -> u64
    ensures { result ≡ foretold_generation foretold }
{
    match foretold {
        None => 0,
        Some(halt) => halt.generation,
    }
}

// The six numbers before the groups.
fn put_head(
    mark: u64,
    count: u64,
    files: u64,
    bytes: u64,
    foretold: Option<Halt>,
    words: &mut [u64],
)
    requires { length words.old ≡ 777 }
    ensures { words.new ≡ put_at words.old 0 (head_words mark count files bytes foretold) }
{
    let refusal = foretold_number(foretold);
    let generation = foretold_generation(foretold);
    words[..6].copy_from_slice(&[mark, count, files, bytes, refusal, generation]);
}

// All of it.
pub fn put_plan(p: PlanValues, words: &mut [u64])
    requires { length words.old ≡ 777 }
    ensures { words.new ≡ plan_words p }
{
    let slots = p.slots;
    let foretold = p.foretold;
    put_head(p.mark, p.count, p.files, p.bytes, foretold, words);
    put_group_at(&slots, 1, words, 6);
    put_group_at(&slots, 2, words, 263);
    put_group_at(&slots, 3, words, 520);
}
