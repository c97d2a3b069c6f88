// Request P7's nightly job (`src/gc.rs`): "plan, rewrite 1, 2, 3, then prune, stopping at the first call refused".

#![tactic(auto)]

ghost use Rattle.std.specs.Prelude.{◌≡◌, false, List, ℕ, ◌≤◌, length};
ghost use Rattle.rules.specs.Layout.{capacity_of};
ghost use Rattle.rules.specs.Condition1.{refused1};
ghost use Rattle.rules.specs.Condition1Laws.{Passed};
ghost use Rattle.rules.specs.TwoCalls.{room_of, notes_left, job_of, job_ended, nightly_call};
ghost use Rattle.rules.specs.World.{world, leaving, maintain_given};
ghost use Rattle.as_numbers.specs.StateWords.{state_in};
ghost use Rattle.prune.specs.Labels.{LabelsIn};
ghost use Rattle.gc_course.specs.Runs.{stop_in, standing};
ghost use Rattle.gc_course.specs.Own.{OwnStop};

use as_numbers::state_words::{put_state, state_in};
use gc_course::{Request, is_prune_due};
use gc_generation::rewrite_generation;
use gc_notes::{clear, too_short};
use gc_words::{count_in, refused_in};
use prune::pruned;
use rules::{Claims, Refusal, Settings, State, Stopped};

// What the nightly job answers, and the state after it.
#[derive(Clone, Copy)]
pub struct Maintained {
    pub answer: Result<u64, Stopped>,
    pub state: State,
}

// "rewrite 1, 2, 3", each with the plan's mark and file count. Of the plan no more is taken, and no group is foretold: "one that the plan
// only foretells stops nothing".
fn rewrites(
    settings: Settings,
    state: &mut [u64; 1801],
    claims: Claims,
    heap: &mut [u8],
    table: &mut [u64],
    places: &mut [u32],
    pieces: &mut [u32],
) -> Result<u64, Stopped>
    requires passed_2 { Passed settings (length heap.old) table.old (state_in state.old) }
    requires table_in_bounds { (capacity_of table.old ≤ length places.old) × (capacity_of table.old ≤ length pieces.old) }
    ensures leaves { standing result (world settings (state_in state.new) claims heap.new table.new)
        ≡ job_of (world settings (state_in state.old) claims heap.old table.old)
        (room_of places.old pieces.old) }
    ensures passed { Passed settings (length heap.new) table.new (state_in state.new) }
    ensures own { OwnStop (stop_in result) }
{
    let mark = state[1800];
    let count = count_in(state);
    let mut moved: u64 = 0;
    for generation in 1..=3 {
        let asked = Request {
            generation: generation,
            mark: mark,
            count: count,
        };
        match rewrite_generation(settings, state, claims, heap, table, places, pieces, asked) {
            Ok(ids) => moved += ids,
            Err(refusal) => {
                return Err(Stopped {
                    refusal,
                    generation,
                    moved,
                });
            }
        }
    }
    Ok(moved)
}

// "nothing is pruned. Success prunes and gives the count of ids moved."
fn finish(
    settings: Settings,
    answer: Result<u64, Stopped>,
    state: &mut [u64; 1801],
    claims: Claims,
    heap: &mut [u8],
)
    requires { LabelsIn settings.slot_bytes (state_in state.old).files.records (length heap.old) }
    ensures { (table : List ℕ)
        → refused1 (world settings (state_in state.old) claims heap.old table) ≡ false
        → leaving (maintain_given answer) (world settings (state_in state.new) claims heap.new table)
        ≡ job_ended (stop_in answer) (standing answer (world settings (state_in state.old) claims heap.old table)) }
{
    let was = state_in(state);
    let after = pruned(settings, was, claims, heap, is_prune_due(answer));
    put_state(state, after);
}

// "the nightly job becomes plan, rewrite 1, 2, 3, then prune, stopping at the first call refused", on the state's words. The lent notes are
// zeros after it, on 1 as they were.
pub fn nightly_in(
    settings: Settings,
    state: &mut [u64; 1801],
    claims: Claims,
    heap: &mut [u8],
    table: &mut [u64],
    places: &mut [u32],
    pieces: &mut [u32],
) -> Result<u64, Stopped>
    ensures leaves { leaving (maintain_given result)
        (world settings (state_in state.new) claims heap.new table.new)
        ≡ nightly_call (world settings (state_in state.old) claims heap.old table.old)
        (room_of places.old pieces.old) }
    ensures places { places.new ≡ notes_left (maintain_given result) places.old }
    ensures pieces { pieces.new ≡ notes_left (maintain_given result) pieces.old }
{
    if refused_in(settings, state, heap, table) {
        return Err(Stopped {
            refusal: Refusal::Limits,
            generation: 0,
            moved: 0,
        });
    }
    if too_short(table, places, pieces) {
        return Err(Stopped {
            refusal: Refusal::Limits,
            generation: 0,
            moved: 0,
        });
    }
    let answer = rewrites(settings, state, claims, heap, table, places, pieces);
    clear(places);
    clear(pieces);
    finish(settings, answer, state, claims, heap);
    answer
}

// The same with the state by value.
pub fn nightly(
    settings: Settings,
    state: State,
    claims: Claims,
    heap: &mut [u8],
    table: &mut [u64],
    places: &mut [u32],
    pieces: &mut [u32],
) -> Maintained
    ensures leaves { leaving (maintain_given result.answer)
        (world settings result.state claims heap.new table.new)
        ≡ nightly_call (world settings state claims heap.old table.old)
        (room_of places.old pieces.old) }
    ensures places { places.new ≡ notes_left (maintain_given result.answer) places.old }
    ensures pieces { pieces.new ≡ notes_left (maintain_given result.answer) pieces.old }
{
    let mut words = [0u64; 1801];
    put_state(&mut words, state);
    let answer = nightly_in(settings, &mut words, claims, heap, table, places, pieces);
    Maintained {
        answer: answer,
        state: state_in(&words),
    }
}
