// The host's claim record, 256 bits in four words by value, and the calls that go by records alone: claim, release, counts.

#![tactic(auto)]

ghost use Rattle.std.specs.Prelude.{◌≡◌, ◌||◌, [], ◌∷◌, ◌%◌, ◌^◌, leb, length};
ghost use Rattle.rules.specs.Refusal.{◌gives◌, decide, after};
ghost use Rattle.rules.specs.Condition1.{refused1};
ghost use Rattle.rules.specs.FileMap.{is_empty, record_at};
ghost use Rattle.rules.specs.Claims.{no_claims, word_of, with_word, is_claimed, claim_set, claim_cleared, claim_call, release_call};
ghost use Rattle.rules.specs.Counts.{counts_call};
ghost use Rattle.rules.specs.World.{world, slots_of, leaving, answer_given, counts_given};
ghost use Rattle.rules.specs.declared.Claims.{Claims};
ghost use Rattle.rules.specs.declared.FileMap.{FileMap};
ghost use Rattle.rules.specs.declared.Refusal.TheVariants.{Limits, Claim};
ghost use Rattle.limits.specs.Settled.{state_of, bad_files};

use file_map::is_empty;
use limits::{Rest, bad_files, refused_apart, rest_of};
use rules::{Claims, Counts, FileMap, RECORDS, Refusal, Settings, State};

// ---- the bits
// "starts one without claims"
pub fn no_claims() -> Claims
    ensures { result ≡ no_claims }
{
    Claims {
        a: 0,
        b: 0,
        c: 0,
        d: 0,
    }
}

// Word k of the four; 0 past them.
fn word_of(c: Claims, k: u64) -> u64
    ensures { result ≡ word_of c k }
{
    match k {
        0 => c.a,
        1 => c.b,
        2 => c.c,
        3 => c.d,
        _ => 0,
    }
}

// Word k replaced.
fn with_word(c: Claims, k: u64, w: u64) -> Claims
    ensures { result ≡ with_word c k w }
{
    let mut n = c;
    match k {
        0 => n.a = w,
        1 => n.b = w,
        2 => n.c = w,
        3 => n.d = w,
        _ => {}
    }
    n
}

// The slot's bit in its word.
fn bit_of(slot: u64) -> u64
    ensures { result ≡ 2 ^ (slot % 64) }
{
    1 << (slot % 64)
}

pub fn is_claimed(c: Claims, slot: u64) -> bool
    ensures { result ≡ is_claimed c slot }
{
    (word_of(c, slot / 64) >> (slot % 64)) % 2 == 1
}

pub fn with_claim(c: Claims, slot: u64) -> Claims
    ensures { result ≡ claim_set c slot }
{
    let k = slot / 64;
    with_word(c, k, word_of(c, k) | bit_of(slot))
}

pub fn without_claim(c: Claims, slot: u64) -> Claims
    ensures { result ≡ claim_cleared c slot }
{
    let k = slot / 64;
    with_word(c, k, word_of(c, k) & !bit_of(slot))
}

// ---- the calls
// "an empty slot": past the records there is none that is not. Kept by value: lent, the compiled calls copy the file map once more.
fn empty_at(files: FileMap, slot: u64) -> bool
    ensures { result ≡ is_empty (record_at files.records slot) }
{
    if RECORDS as u64 <= slot {
        return true;
    }
    is_empty(files.records[slot as usize])
}

// 1; then 21 for "a slot out of range", or where the slot bars the call: it is empty, or its claim does. `bad` is what was found of the
// state's records.
fn decided(
    s: Settings,
    rest: Rest,
    bad: bool,
    heap: &[u8],
    table: &[u64],
    slot: u64,
    barred: bool,
) -> Result<(), Refusal>
    ensures { (files : FileMap) (c : Claims)
        → bad ≡ bad_files s (length heap.now) table.now files.records
        → let w = world s (state_of rest files) c heap.now table.now in
        result ≡ decide (refused1 w gives Limits ∷ (leb (slots_of w) slot || barred) gives Claim ∷ []) }
{
    if refused_apart(s, heap.len() as u64, table, rest, bad) {
        return Err(Refusal::Limits);
    }
    if heap.len() as u64 / s.slot_bytes <= slot {
        return Err(Refusal::Claim);
    }
    if barred {
        return Err(Refusal::Claim);
    }
    Ok(())
}

// What a claim or a release answers, and the claim record after it.
#[derive(Clone, Copy)]
pub struct ClaimAnswer {
    pub answer: Result<(), Refusal>,
    pub claims: Claims,
}

// The claim record is another one where the call is done, and stays where it is refused.
fn ended(answer: Result<(), Refusal>, before: Claims, next: Claims) -> ClaimAnswer
    ensures answers { result.answer ≡ answer }
    ensures leaves { result.claims ≡ after answer (λ _. before) next }
{
    let claims = match answer {
        Ok(()) => next,
        Err(_) => before,
    };
    ClaimAnswer {
        answer: answer,
        claims: claims,
    }
}

// "21 for a slot out of range, an empty slot, a claimed one (claim)"
pub fn claim(
    s: Settings,
    state: State,
    claims: Claims,
    heap: &[u8],
    table: &[u64],
    slot: u64,
) -> ClaimAnswer
    ensures { leaving (answer_given result.answer)
        (world s state result.claims heap.now table.now)
        ≡ claim_call (world s state claims heap.now table.now) slot }
{
    let bad = bad_files(s, heap.len() as u64, table, state.files);
    let barred = empty_at(state.files, slot) | is_claimed(claims, slot);
    let answer = decided(s, rest_of(state), bad, heap, table, slot, barred);
    ended(answer, claims, with_claim(claims, slot))
}

// "or an unclaimed one (release)"
pub fn release(
    s: Settings,
    state: State,
    claims: Claims,
    heap: &[u8],
    table: &[u64],
    slot: u64,
) -> ClaimAnswer
    ensures { leaving (answer_given result.answer)
        (world s state result.claims heap.now table.now)
        ≡ release_call (world s state claims heap.now table.now) slot }
{
    let bad = bad_files(s, heap.len() as u64, table, state.files);
    let barred = empty_at(state.files, slot) | !is_claimed(claims, slot);
    let answer = decided(s, rest_of(state), bad, heap, table, slot, barred);
    ended(answer, claims, without_claim(claims, slot))
}

// "Files, bytes, present, live, summed over files."
pub fn counts(s: Settings, state: State, heap: &[u8], table: &[u64]) -> Result<Counts, Refusal>
    ensures { (claims : Claims)
        → leaving (counts_given result) (world s state claims heap.now table.now)
        ≡ counts_call (world s state claims heap.now table.now) }
{
    let bad = bad_files(s, heap.len() as u64, table, state.files);
    if refused_apart(s, heap.len() as u64, table, rest_of(state), bad) {
        return Err(Refusal::Limits);
    }
    Ok(file_map::counts(state.files))
}
