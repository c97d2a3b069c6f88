use crate::show::answer;
use crate::states::{marked_2, settings, store};
use claims::ClaimAnswer;
use rules::{Claims, State};
use std::io;
use test_host::{number, text};

// The call and its slot, the answer, and the four words of the claim record after it.
fn show(rt: &impl Print, word: &[u8], slot: u64, r: ClaimAnswer) -> io::Result<Claims> {
    text(rt, word)?;
    number(rt, slot)?;
    answer(rt, r.answer)?;
    let c = r.claims;
    for w in [c.a, c.b, c.c, c.d] {
        number(rt, w)?;
    }
    text(rt, b"\n")?;
    Ok(c)
}

const HEAP: [u8; 256] = [0; 256];

const TABLE: [u64; 4] = [3, 10, 7, 13];

fn claim(rt: &impl Print, claims: Claims, state: State, slot: u64) -> io::Result<Claims> {
    let r = claims::claim(settings(), state, claims, &HEAP, &TABLE, slot);
    show(rt, b"claim", slot, r)
}

fn release(rt: &impl Print, claims: Claims, state: State, slot: u64) -> io::Result<Claims> {
    let r = claims::release(settings(), state, claims, &HEAP, &TABLE, slot);
    show(rt, b"release", slot, r)
}

// "21 for a slot out of range, an empty slot, a claimed one (claim) or an unclaimed one (release)"; and 1 first: for next position 0,
// then for a mark of 2.
pub fn claims_and_releases(rt: &impl Print) -> io::Result<()> {
    let a = claim(rt, claims::no_claims(), store(), 0)?;
    let b = claim(rt, a, store(), 1)?;
    let c = claim(rt, b, store(), 1)?;
    let d = claim(rt, c, store(), 2)?;
    let e = claim(rt, d, store(), 18446744073709551615)?;
    let f = release(rt, e, store(), 0)?;
    let mut spent = store();
    spent.next_position = 0;
    let g = release(rt, f, spent, 1)?;
    let h = release(rt, g, marked_2(), 1)?;
    let i = release(rt, h, store(), 1)?;
    let j = release(rt, i, store(), 1)?;
    claim(rt, j, marked_2(), 1)?;
    Ok(())
}
