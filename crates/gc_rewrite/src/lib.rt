// One group of maintenance rewritten (`src/gc.rs`): decided first, then the entries of its files are chained and each file is added.

#![tactic(auto)]

ghost use Rattle.std.specs.Prelude.{◌≡◌, ◌≤◌, length, replicate, IfOk};
ghost use Rattle.rules.specs.declared.Claims.{Claims};
ghost use Rattle.rules.specs.Refusal.{decide};
ghost use Rattle.rules.specs.Layout.{table_ids};
ghost use Rattle.rules.specs.Condition1Laws.{Passed};
ghost use Rattle.rules.specs.Maintenance.{rewrite_group};
ghost use Rattle.rules.specs.World.{world};
ghost use Rattle.as_numbers.specs.StateWords.{state_in};
ghost use Rattle.gc_candidates.specs.Plan.{planned};
ghost use Rattle.gc_group.specs.Source.{Ready};
ghost use Rattle.gc_decision.specs.Decisions.{verdict};
ghost use Rattle.gc_decision.specs.Empties.{Listed, empties_in, empty_in};
ghost use Rattle.gc_decision.specs.Splits.{files_in};
ghost use Rattle.gc_chains.specs.Chains.{chains_in};
ghost use Rattle.gc_rewrite.specs.Courses.{course_given};
ghost use Rattle.gc_rewrite.specs.Putting.{Puttable, Chainable, PutAll, Kept};
ghost use Rattle.gc_rewrite.specs.Rewriting.{Filled, group_decision, Decided};

use as_numbers::state_words::{files_in, put_state, state_in};
use gc_chains::{FIRSTS, link};
use gc_decision::{Decision, Room, decide_group};
use gc_group::Group;
use gc_install::{NewFile, add_piece};
use gc_words::empties;
use rules::{RECORDS, Refusal, State};

// The files of a group with these words, in order, each written and added. The lowest empty slot of each is the next of
// a list.
fn put_files(
    group: Group,
    state: State,
    heap: &mut [u8],
    table: &mut [u64],
    places: &[u32],
    links: &[u32],
    words: &[u64],
    frees: &[u64],
) -> State
    requires puttable { Puttable group.settings state heap.old table.old places.now links.now words.now }
    requires generation_bound { group.generation ≤ 255 }
    requires listed { Listed (empties_in group.settings state.files heap.old) frees.now }
    ensures { PutAll group.settings group.generation
        state heap.old table.old
        (chains_in heap.old (table_ids table.old) places.now links.now words.now)
        result heap.new table.new }
{
    let mut after = state;
    for (file, word) in words.iter().enumerate() {
        let new = NewFile {
            first: (word / FIRSTS) as u32,
            generation: group.generation,
            slot: frees[file] as usize,
        };
        let settings = group.settings;
        after = add_piece(settings, after, heap, table, places, links, new);
    }
    after
}

// The same on the state's words, for the files with these numbers: their entries are chained first, in the room of the notes.
fn put_in(
    group: Group,
    state: &mut [u64; 1801],
    heap: &mut [u8],
    table: &mut [u64],
    places: &[u32],
    pieces: &mut [u32],
    order: &mut [u64],
    frees: &[u64],
)
    requires chainable { Chainable group.settings (state_in state.old) heap.old table.old places.now pieces.old order.old }
    requires generation_bound { group.generation ≤ 255 }
    requires listed { Listed (empties_in group.settings (state_in state.old).files heap.old) frees.now }
    ensures { PutAll group.settings group.generation
        (state_in state.old) heap.old table.old
        (files_in heap.old (table_ids table.old) places.now pieces.old order.old)
        (state_in state.new) heap.new table.new }
{
    link(table, places, pieces, order);
    let was = state_in(state);
    let after = put_files(group, was, heap, table, places, pieces, order, frees);
    put_state(state, after);
}

// The group decided by the state's words, with so many empty slots.
fn decided(
    group: Group,
    empty: u64,
    state: &[u64; 1801],
    heap: &[u8],
    plan: &[u64],
    table: &[u64],
    pieces: &mut [u32],
    places: &mut [u32],
) -> Result<Decision, Refusal>
    requires passed { Passed group.settings (length heap.now) table.now (state_in state.now) }
    requires ready { Ready group.settings.slot_bytes (length heap.now) (state_in state.now).files.records
        plan.now group.generation }
    requires filled { Filled (state_in state.now) plan.now group.generation }
    requires empty_value { empty ≡ empty_in group.settings (state_in state.now).files heap.now }
    requires table_in_bounds { (length (table_ids table.now) ≤ length places.old)
        × (length (table_ids table.now) ≤ length pieces.old)
        × (places.old ≡ replicate (length places.old) 0) }
    ensures answers { verdict result ≡ decide (group_decision group.settings
        (state_in state.now) heap.now table.now plan.now group.generation) }
    ensures splits { IfOk result (λ d. Decided group.settings
        (state_in state.now) heap.now table.now plan.now group.generation
        places.new pieces.new d.order d.total) }
{
    let files = files_in(state);
    let room = Room {
        empty: empty,
        base: state[1800],
    };
    decide_group(group, room, heap, files, plan, table, pieces, places)
}

// A group decided, then rewritten: the ids moved. A refusal changes nothing but the notes.
pub fn rewrite_group(
    group: Group,
    state: &mut [u64; 1801],
    heap: &mut [u8],
    table: &mut [u64],
    plan: &[u64],
    places: &mut [u32],
    pieces: &mut [u32],
) -> Result<u64, Refusal>
    requires passed_2 { Passed group.settings (length heap.old) table.old (state_in state.old) }
    requires ready { Ready group.settings.slot_bytes (length heap.old) (state_in state.old).files.records
        plan.now group.generation }
    requires filled { Filled (state_in state.old) plan.now group.generation }
    requires generation_bound { group.generation ≤ 3 }
    requires table_in_bounds { (length (table_ids table.old) ≤ length places.old)
        × (length (table_ids table.old) ≤ length pieces.old)
        × (places.old ≡ replicate (length places.old) 0) }
    ensures leaves { (c : Claims) → course_given group.generation result
        (world group.settings (state_in state.new) c heap.new table.new)
        ≡ rewrite_group group.generation (planned plan.now group.generation) 0
        (world group.settings (state_in state.old) c heap.old table.old) }
    ensures passed { Passed group.settings (length heap.new) table.new (state_in state.new) }
    ensures moved { IfOk result (λ moved. moved ≤ 65536) }
    ensures length { length heap.new ≡ length heap.old }
    ensures keeps { Kept (state_in state.old) (state_in state.new) }
{
    let mut frees = [0u64; RECORDS];
    let empty = empties(group.settings, state, heap, &mut frees);
    let mut decision = decided(group, empty, state, heap, plan, table, pieces, places)?;
    let total = decision.total;
    let files = total.files as usize;
    put_in(
        group,
        state,
        heap,
        table,
        places,
        pieces,
        &mut decision.order[..files],
        &frees,
    );
    Ok(total.entries)
}
