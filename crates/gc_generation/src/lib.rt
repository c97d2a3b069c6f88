// Maintenance (`src/gc.rs`): the group of one generation, by a mark and a file count, rewritten on the state's words.

#![tactic(auto)]

ghost use Rattle.std.specs.Prelude.{◌≡◌, ◌≤◌, ◌<◌, length, IfOk};
ghost use Rattle.rules.specs.Layout.{capacity_of};
ghost use Rattle.rules.specs.Condition1Laws.{Passed};
ghost use Rattle.rules.specs.TwoCalls.{generation_rewritten};
ghost use Rattle.rules.specs.World.{world};
ghost use Rattle.as_numbers.specs.StateWords.{state_in};
ghost use Rattle.gc_rewrite.specs.Courses.{course_given};

use gc_candidates::group_count;
use gc_course::Request;
use gc_group::Group;
use gc_notes::clear;
use gc_rewrite::rewrite_group;
use gc_words::candidates_in;
use rules::{Claims, Refusal, Settings};

// A generation's group as mark and count give it, rewritten; one of too few files is left: "a generation that yields no group succeeds with
// count 0".
pub fn rewrite_generation(
    settings: Settings,
    state: &mut [u64; 1801],
    claims: Claims,
    heap: &mut [u8],
    table: &mut [u64],
    places: &mut [u32],
    pieces: &mut [u32],
    asked: Request,
) -> Result<u64, Refusal>
    requires passed_2 { Passed settings (length heap.old) table.old (state_in state.old) }
    requires table_in_bounds { (capacity_of table.old ≤ length places.old) × (capacity_of table.old ≤ length pieces.old) }
    requires generation_nonzero { (0 < asked.generation) × (asked.generation ≤ 3) }
    ensures leaves { course_given asked.generation result
        (world settings (state_in state.new) claims heap.new table.new)
        ≡ generation_rewritten (world settings (state_in state.old) claims heap.old table.old)
        asked.generation asked.mark asked.count }
    ensures passed { Passed settings (length heap.new) table.new (state_in state.new) }
    ensures moved { IfOk result (λ moved. moved ≤ 65536) }
{
    let candidates = candidates_in(settings, state, claims, asked.mark, asked.count);
    let generation = asked.generation;
    if group_count(&candidates, generation) < settings.min_compaction_files {
        return Ok(0);
    }
    let group = Group {
        settings: settings,
        generation: generation,
    };
    clear(places);
    rewrite_group(group, state, heap, table, &candidates, places, pieces)
}
