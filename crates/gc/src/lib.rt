// Request P7: "the other rewrites one named generation" (`src/gc.rs`).

#![tactic(auto)]

ghost use Rattle.std.specs.Prelude.{◌≡◌};
ghost use Rattle.rules.specs.TwoCalls.{room_of, notes_left, rewrite_call};
ghost use Rattle.rules.specs.World.{world, leaving, rewrite_given};
ghost use Rattle.as_numbers.specs.StateWords.{state_in};

use as_numbers::state_words::{put_state, state_in};
use gc_course::Request;
use gc_generation::rewrite_generation;
use gc_notes::{clear, too_short};
use gc_words::refused_in;
use rules::{Claims, Refusal, Settings, State};

// What a rewrite answers, and the state after it.
#[derive(Clone, Copy)]
pub struct Rewritten {
    pub answer: Result<u64, Refusal>,
    pub state: State,
}

// "1, then 22 outside 1..3", then the group's own, on the state's words: "It answers ids moved, or the number alone." The lent notes are
// zeros after it, on 1 as they were.
pub fn rewrite_in(
    settings: Settings,
    state: &mut [u64; 1801],
    claims: Claims,
    heap: &mut [u8],
    table: &mut [u64],
    places: &mut [u32],
    pieces: &mut [u32],
    asked: Request,
) -> Result<u64, Refusal>
    ensures leaves { leaving (rewrite_given result)
        (world settings (state_in state.new) claims heap.new table.new)
        ≡ rewrite_call (world settings (state_in state.old) claims heap.old table.old)
        (room_of places.old pieces.old) asked.generation asked.mark asked.count }
    ensures places { places.new ≡ notes_left (rewrite_given result) places.old }
    ensures pieces { pieces.new ≡ notes_left (rewrite_given result) pieces.old }
{
    if refused_in(settings, state, heap, table) {
        return Err(Refusal::Limits);
    }
    if too_short(table, places, pieces) {
        return Err(Refusal::Limits);
    }
    if asked.generation == 0 || 3 < asked.generation {
        clear(places);
        clear(pieces);
        return Err(Refusal::Generation);
    }
    let answer = rewrite_generation(settings, state, claims, heap, table, places, pieces, asked);
    clear(places);
    clear(pieces);
    answer
}

// The same with the state by value.
pub fn rewrite(
    settings: Settings,
    state: State,
    claims: Claims,
    heap: &mut [u8],
    table: &mut [u64],
    places: &mut [u32],
    pieces: &mut [u32],
    asked: Request,
) -> Rewritten
    ensures leaves { leaving (rewrite_given result.answer)
        (world settings result.state claims heap.new table.new)
        ≡ rewrite_call (world settings state claims heap.old table.old)
        (room_of places.old pieces.old) asked.generation asked.mark asked.count }
    ensures places { places.new ≡ notes_left (rewrite_given result.answer) places.old }
    ensures pieces { pieces.new ≡ notes_left (rewrite_given result.answer) pieces.old }
{
    let mut words = [0u64; 1801];
    put_state(&mut words, state);
    let answer = rewrite_in(
        settings, &mut words, claims, heap, table, places, pieces, asked,
    );
    Rewritten {
        answer: answer,
        state: state_in(&words),
    }
}
