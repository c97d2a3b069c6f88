// An enum answer as the paper's number, 0 for success, and its values.
ghost use Rattle.std.specs.Prelude.{◌≡◌, [], ◌∷◌, length, Ok};
ghost use Rattle.rules.specs.Refusal.{number_of};
ghost use Rattle.rules.specs.World.{answer_given, read_given, maintain_given, rewrite_given, counts_given, compare_given};
ghost use Rattle.rules.specs.World.{loaded_given, load_given, greater_given};
ghost use Rattle.as_numbers.specs.Numbered.{numbered};
ghost use Rattle.as_numbers.specs.Shown.{given, shown, stop_shown};

use crate::four_words::put_four;
use rules::{Compared, Counts, Loaded, Lookup, Refusal, Stopped};

// The table "No. | Condition": the refusals stand in the order of their numbers, from 1 on.
pub fn refusal_number(r: Refusal) -> u64
    ensures { result ≡ number_of r }
{
    r as u64 + 1
}

// The number of an answer without values.
pub fn number(a: Result<(), Refusal>) -> u64
    ensures { numbered result ≡ answer_given a }
{
    match a {
        Ok(()) => 0,
        Err(r) => refusal_number(r),
    }
}

// Kept: four structs and no array of a const size: theorems speak of `One` and its value, the calls for C of places by their names.
// A number and one place.
#[derive(Clone, Copy)]
pub struct One {
    pub number: u64,
    pub value: u64,
}

// A number and two places.
#[derive(Clone, Copy)]
pub struct Two {
    pub number: u64,
    pub first: u64,
    pub second: u64,
}

// A number and three places.
#[derive(Clone, Copy)]
pub struct Three {
    pub number: u64,
    pub first: u64,
    pub second: u64,
    pub third: u64,
}

// A number and the four counts.
#[derive(Clone, Copy)]
pub struct Four {
    pub number: u64,
    pub counts: Counts,
}

// What a read or a load found of an id, as a number.
pub const NEVER_WRITTEN: u64 = 0;

pub const DELETED: u64 = 1;

pub const OBJECT: u64 = 2;

// The kind, and the raw location or 0.
fn loaded_shown(l: Loaded) -> Two
    ensures { given result.number (result.first ∷ result.second ∷ []) ≡ shown 2 (loaded_given l) }
{
    match l {
        Loaded::At(raw) => Two {
            number: 0,
            first: OBJECT,
            second: raw,
        },
        Loaded::DeletedAt(raw) => Two {
            number: 0,
            first: DELETED,
            second: raw,
        },
        Loaded::Never => Two {
            number: 0,
            first: NEVER_WRITTEN,
            second: 0,
        },
    }
}

// The kind, and the raw location or 0.
pub fn load_shown(a: Result<Loaded, Refusal>) -> Two
    ensures { given result.number (result.first ∷ result.second ∷ []) ≡ shown 2 (load_given a) }
{
    match a {
        Ok(l) => loaded_shown(l),
        Err(r) => Two {
            number: refusal_number(r),
            first: 0,
            second: 0,
        },
    }
}

// A number that a call gives, or 0: of a rewrite the ids moved (request P7).
pub fn rewrite_shown(a: Result<u64, Refusal>) -> One
    ensures { given result.number (result.value ∷ []) ≡ shown 1 (rewrite_given a) }
{
    match a {
        Ok(n) => One {
            number: 0,
            value: n,
        },
        Err(r) => One {
            number: refusal_number(r),
            value: 0,
        },
    }
}

// What a store-if-greater held before, or 0.
pub fn greater_shown(a: Result<Option<u64>, Refusal>) -> One
    ensures { given result.number (result.value ∷ []) ≡ shown 1 (greater_given a) }
{
    rewrite_shown(a.map(|held| held.unwrap_or(0)))
}

// The current location where it differs, or 0.
pub fn compare_shown(a: Result<Compared, Refusal>) -> One
    ensures { given result.number (result.value ∷ []) ≡ shown 1 (compare_given a) }
{
    rewrite_shown(a.map(|compared| match compared {
        Compared::Swapped => 0,
        Compared::Differs(l) => l,
    }))
}

// The kind, and the part's start and length or two zeros.
fn lookup_shown(l: Lookup) -> Three
    ensures { given result.number (result.first ∷ result.second ∷ result.third ∷ []) ≡ shown 3 (read_given (Ok l)) }
{
    match l {
        Lookup::Found(start, size) => Three {
            number: 0,
            first: OBJECT,
            second: start,
            third: size,
        },
        Lookup::Deleted => Three {
            number: 0,
            first: DELETED,
            second: 0,
            third: 0,
        },
        Lookup::NeverWritten => Three {
            number: 0,
            first: NEVER_WRITTEN,
            second: 0,
            third: 0,
        },
    }
}

// The same, or a refusal's number.
pub fn read_shown(a: Result<Lookup, Refusal>) -> Three
    ensures { given result.number (result.first ∷ result.second ∷ result.third ∷ []) ≡ shown 3 (read_given a) }
{
    match a {
        Ok(l) => lookup_shown(l),
        Err(r) => Three {
            number: refusal_number(r),
            first: 0,
            second: 0,
            third: 0,
        },
    }
}

// The generation where maintenance stopped, or 0, and the ids moved.
pub fn maintain_shown(a: Result<u64, Stopped>) -> Two
    ensures { given result.number (result.first ∷ result.second ∷ []) ≡ stop_shown (maintain_given a) }
{
    match a {
        Ok(n) => Two {
            number: 0,
            first: 0,
            second: n,
        },
        Err(
            Stopped {
                refusal: r,
                generation,
                moved: n,
            },
        ) => Two {
            number: refusal_number(r),
            first: generation,
            second: n,
        },
    }
}

// The counts, or four zeros.
pub fn counts_shown(a: Result<Counts, Refusal>) -> Four
    ensures { given result.number (result.counts.files ∷ result.counts.bytes ∷ result.counts.present ∷ result.counts.live ∷ [])
        ≡ shown 4 (counts_given a) }
{
    match a {
        Ok(c) => Four {
            number: 0,
            counts: c,
        },
        Err(r) => Four {
            number: refusal_number(r),
            counts: no_counts(),
        },
    }
}

fn no_counts() -> Counts
    ensures { result.files ∷ result.bytes ∷ result.present ∷ result.live ∷ [] ≡ 0 ∷ 0 ∷ 0 ∷ 0 ∷ [] }
{
    Counts {
        files: 0,
        bytes: 0,
        present: 0,
        live: 0,
    }
}

// The counts into four lent words.
pub fn put_counts(words: &mut [u64], c: Counts)
    requires { length words.old ≡ 4 }
    ensures { words.new ≡ c.files ∷ c.bytes ∷ c.present ∷ c.live ∷ [] }
{
    put_four(words, c.files, c.bytes, c.present, c.live);
}
