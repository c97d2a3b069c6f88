// Reads of the state's words that a plan and a rewrite share: each makes the state, or its files, of the words for itself, so that a
// caller holds the words alone.

#![tactic(auto)]

ghost use Rattle.std.specs.Prelude.{◌≡◌, length};
ghost use Rattle.rules.specs.SettingsLaws.{InRanges, HeapInRange};
ghost use Rattle.rules.specs.FileMap.{file_count};
ghost use Rattle.rules.specs.Condition1.{condition_one};
ghost use Rattle.file_map.specs.Records.{Bounded};
ghost use Rattle.as_numbers.specs.StateWords.{state_in};
ghost use Rattle.gc_candidates.specs.Plan.{plan_of};
ghost use Rattle.gc_decision.specs.Empties.{Listed, empties_in, empty_in};

use as_numbers::state_words::{files_in, state_in};
use gc_candidates::plan;
use gc_decision::empty_slots;
use rules::{Claims, RECORDS, Settings};

// Refusal 1, of the state in its words.
pub fn refused_in(settings: Settings, state: &[u64; 1801], heap: &[u8], table: &[u64]) -> bool
    ensures { result ≡ condition_one settings (length heap.now) table.now (state_in state.now) }
{
    let was = state_in(state);
    let files = was.files;
    let bad = limits::bad_files(settings, heap.len() as u64, table, files);
    limits::refused_apart(
        settings,
        heap.len() as u64,
        table,
        limits::rest_of(was),
        bad,
    )
}

// The mark, "the next position", by the state's words.
pub fn mark_in(state: &[u64; 1801]) -> u64
    ensures { result ≡ (state_in state.now).next_position }
{
    state[1800]
}

// The file count, by the state's words.
pub fn count_in(state: &[u64; 1801]) -> u64
    requires { Bounded (state_in state.now).files.records }
    ensures { result ≡ file_count (state_in state.now).files.records }
{
    let files = files_in(state);
    file_map::counts(files).files
}

// The groups of all generations as mark and count give them, by the state's words.
pub fn candidates_in(
    settings: Settings,
    state: &[u64; 1801],
    claims: Claims,
    mark: u64,
    count: u64,
) -> [u64; RECORDS]
    requires in_ranges { InRanges settings }
    requires bounded { Bounded (state_in state.now).files.records }
    ensures { result ≡ plan_of settings claims mark count (state_in state.now).files.records }
{
    let files = files_in(state);
    plan(settings, claims, files, mark, count)
}

// The empty slots of the heap, by the state's words, and how many.
pub fn empties(settings: Settings, state: &[u64; 1801], heap: &[u8], frees: &mut [u64]) -> u64
    requires in_ranges { InRanges settings }
    requires heap_in_range { HeapInRange settings (length heap.now) }
    requires frees_len { length frees.old ≡ 256 }
    ensures counts { result ≡ empty_in settings (state_in state.now).files heap.now }
    ensures lists { Listed (empties_in settings (state_in state.now).files heap.now) frees.new }
{
    let files = files_in(state);
    empty_slots(settings, files, heap, frees)
}
