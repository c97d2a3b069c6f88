// The candidates of maintenance (`src/gc.rs`), by a mark and a file count, and the groups that they make: a new generation for each slot.

#![tactic(auto)]

ghost use Rattle.std.specs.Prelude.{◌≡◌, ◌<◌, length};
ghost use Rattle.rules.specs.Base.{larger};
ghost use Rattle.rules.specs.SettingsLaws.{InRanges};
ghost use Rattle.rules.specs.Maintenance.{worth_it, new_generation, is_candidate};
ghost use Rattle.file_map.specs.Records.{Small, Bounded};
ghost use Rattle.gc_candidates.specs.Plan.{plan_for, plan_of, planned};

use claims::is_claimed;
use disk_location::masked;
use file_map::is_empty;
use rules::{Claims, FileMap, RECORDS, Record, Settings};
use std::array::from_fn;

// "max(present, 1)"
fn at_least_one(n: u64) -> u64
    ensures answers { result ≡ larger n 1 }
    ensures positive { 0 < result }
{
    n.max(1)
}

// "live × 100 / max(present, 1), rounded down, strictly below the percentage, or both file count ≥ threshold and
// file_size × min_compaction_files < target_file_size"
pub fn worth_it(s: Settings, files: u64, r: Record) -> bool
    requires in_ranges { InRanges s }
    requires small { Small r }
    ensures { result ≡ worth_it s files r }
{
    let share = r.live * 100 / at_least_one(r.label.present_objects);
    if share < s.file_compaction_percent {
        return true;
    }
    if files < s.small_file_cleanup_threshold {
        return false;
    }
    r.label.file_size * s.min_compaction_files < s.target_file_size
}

// "min(g + 1, 3)"
pub fn new_generation(g: u64) -> u64
    ensures { result ≡ new_generation g }
{
    g.min(2) + 1
}

// "unclaimed files with live not 0, and .."; "only files with masked lsn below the mark", the threshold "against that count".
pub fn is_candidate(
    s: Settings,
    claims: Claims,
    mark: u64,
    count: u64,
    slot: u64,
    r: Record,
) -> bool
    requires in_ranges { InRanges s }
    requires small { Small r }
    requires slot_bound { slot < 256 }
    ensures { result ≡ is_candidate s claims mark count slot r }
{
    if is_empty(r) {
        return false;
    }
    if is_claimed(claims, slot) {
        return false;
    }
    if r.live == 0 {
        return false;
    }
    if !worth_it(s, count, r) {
        return false;
    }
    masked(r.label.lsn) < mark
}

// A candidate's new generation; 0 for any other slot.
fn plan_for(s: Settings, claims: Claims, mark: u64, count: u64, slot: u64, r: Record) -> u64
    requires in_ranges { InRanges s }
    requires small { Small r }
    requires slot_bound { slot < 256 }
    ensures { result ≡ plan_for s claims mark count slot r }
{
    if is_candidate(s, claims, mark, count, slot, r) {
        return new_generation(r.label.generation);
    }
    0
}

// The groups of all generations, by a mark and a file count.
pub fn plan(s: Settings, claims: Claims, m: FileMap, mark: u64, count: u64) -> [u64; RECORDS]
    requires in_ranges { InRanges s }
    requires bounded { Bounded m.records }
    ensures { result ≡ plan_of s claims mark count m.records }
{
    from_fn(|slot| plan_for(s, claims, mark, count, slot as u64, m.records[slot]))
}

// How many files a group has.
pub fn group_count(plan: &[u64], generation: u64) -> u64
    ensures { result ≡ length (planned plan.now generation) }
{
    // Kept: a loop; with `filter` and `count` LLVM leaves a function above apart, and a plan copies the file map once more.
    let mut n: u64 = 0;
    for number in plan {
        if *number == generation {
            n += 1;
        }
    }
    n
}
