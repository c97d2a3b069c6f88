// "a claim is set and cleared in place, slot by slot": claim and release on the host's own claim record, lent.
// The answer is the paper's number, 0 for success, so that a host in C can have it.

#![tactic(auto)]

ghost use Rattle.std.specs.Prelude.{◌≡◌};
ghost use Rattle.rules.specs.Claims.{claim_call, release_call};
ghost use Rattle.rules.specs.World.{world, leaving, answer_given};
ghost use Rattle.as_numbers.specs.Numbered.{numbered};

use as_numbers::answers::number;
use claims::ClaimAnswer;
use rules::{Claims, Settings, State};

// What a call by value left, in the host's record; its number.
fn put(claims: &mut Claims, done: ClaimAnswer) -> u64
    ensures tells { numbered result ≡ answer_given done.answer }
    ensures leaves { claims.new ≡ done.claims }
{
    *claims = done.claims;
    number(done.answer)
}

// "21 for a slot out of range, an empty slot, a claimed one (claim)"
pub fn claim(
    claims: &mut Claims,
    s: Settings,
    state: State,
    heap: &[u8],
    table: &[u64],
    slot: u64,
) -> u64
    ensures { leaving (numbered result)
        (world s state claims.new heap.now table.now)
        ≡ claim_call (world s state claims.old heap.now table.now) slot }
{
    let done = claims::claim(s, state, *claims, heap, table, slot);
    put(claims, done)
}

// "or an unclaimed one (release)"
pub fn release(
    claims: &mut Claims,
    s: Settings,
    state: State,
    heap: &[u8],
    table: &[u64],
    slot: u64,
) -> u64
    ensures { leaving (numbered result)
        (world s state claims.new heap.now table.now)
        ≡ release_call (world s state claims.old heap.now table.now) slot }
{
    let done = claims::release(s, state, *claims, heap, table, slot);
    put(claims, done)
}
