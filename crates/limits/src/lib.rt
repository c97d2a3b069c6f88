// Refusal 1, "first in every call".

#![tactic(auto)]

ghost use Rattle.std.specs.Prelude.{◌≡◌, false, ◌<◌, ◌≤◌};
ghost use Rattle.rules.specs.declared.FileMap.{FileMap};
ghost use Rattle.rules.specs.Settings.{defaults, in_ranges, heap_in_range};
ghost use Rattle.rules.specs.SettingsLaws.{InRanges};
ghost use Rattle.rules.specs.Condition1Laws.{InLimits};
ghost use Rattle.rules.specs.Condition1.{out_of_range, bad_record, condition_one};
ghost use Rattle.limits.specs.Settled.{state_of, the_states, bad_files};

use file_map::is_empty;
use label_bounds::out_of_bounds;
use location_table::{capacity, in_form, lengths_in_range, within};
use rules::{FileMap, RECORDS, Record, Settings, State};

// "Port's default"; of the percentage, document 02, request P10: "The default of file_compaction_percent becomes 50."
pub fn defaults() -> Settings
    ensures { result ≡ defaults }
{
    Settings {
        slot_bytes: 4096,
        file_compaction_percent: 50,
        min_compaction_files: 2,
        target_file_size: 2048,
        small_file_cleanup_threshold: 64,
        max_object_size: 1024,
    }
}

// The column "Range", for the six settings.
fn in_ranges(s: Settings) -> bool
    ensures { result ≡ in_ranges s }
{
    within(128, 1048576, s.slot_bytes)
        & within(0, 100, s.file_compaction_percent)
        & within(1, 256, s.min_compaction_files)
        & within(1, 1048576, s.target_file_size)
        & within(0, 256, s.small_file_cleanup_threshold)
        & within(1, 1048576, s.max_object_size)
}

// "slots N = heap length / S, exact: 1..256"
fn heap_in_range(s: Settings, heap: u64) -> bool
    requires { InRanges s }
    ensures { result ≡ heap_in_range s heap }
{
    if heap % s.slot_bytes != 0 {
        return false;
    }
    within(1, RECORDS as u64, heap / s.slot_bytes)
}

// "settings or buffer lengths outside the ranges": all of 1 for a reopening. `heap` is the heap's length.
pub fn out_of_range(s: Settings, heap: u64, table: &[u64]) -> bool
    ensures { result ≡ out_of_range s heap table.now }
{
    if !in_ranges(s) {
        return true;
    }
    if !heap_in_range(s, heap) {
        return true;
    }
    !lengths_in_range(table)
}

// What a state holds beside its records.
#[derive(Clone, Copy)]
pub struct Rest {
    pub settings: Settings,
    pub heap_len: u64,
    pub table_len: u64,
    pub next_position: u64,
}

pub fn rest_of(state: State) -> Rest
    ensures { state_of result state.files ≡ state }
{
    let settings = state.settings;
    Rest {
        settings: settings,
        heap_len: state.heap_len,
        table_len: state.table_len,
        next_position: state.next_position,
    }
}

// "lengths or settings not those of the state"
fn the_states(s: Settings, heap: u64, entries: u64, rest: Rest) -> bool
    ensures { result ≡ the_states s heap entries rest }
{
    (s == rest.settings) & (heap == rest.heap_len) & (entries == rest.table_len)
}

// "a non-empty record at slot N or above, outside 8's bounds, or with present over file_size or live over the table's length"; or with a
// synced mark that is neither 0 nor 1
fn bad_record(s: Settings, heap: u64, table: &[u64], slot: u64, r: Record) -> bool
    requires bound { 128 ≤ s.slot_bytes }
    requires slot_bytes_bound { s.slot_bytes ≤ 1048576 }
    ensures { result ≡ bad_record s heap table.now slot r }
{
    if is_empty(r) {
        return false;
    }
    if heap / s.slot_bytes <= slot {
        return true;
    }
    if out_of_bounds(s.slot_bytes, r.label) {
        return true;
    }
    if r.label.file_size < r.label.present_objects {
        return true;
    }
    if (capacity(table) as u64) < r.live {
        return true;
    }
    1 < r.synced
}

// Some record is such, or S is out of its range. Every call asks this before its first branch: there, compiled, it reads the caller's
// records where they stand; behind a branch it would copy them.
pub fn bad_files(s: Settings, heap: u64, table: &[u64], files: FileMap) -> bool
    ensures { result ≡ bad_files s heap table.now files.records }
{
    if !within(128, 1048576, s.slot_bytes) {
        return true;
    }
    for (i, r) in files.records.iter().enumerate() {
        if bad_record(s, heap, table, i as u64, *r) {
            return true;
        }
    }
    false
}

// All of 1 for every other call: `bad` is what was found of the state's records.
pub fn refused_apart(s: Settings, heap: u64, table: &[u64], rest: Rest, bad: bool) -> bool
    ensures answers { (files : FileMap)
        → bad ≡ bad_files s heap table.now files.records
        → result ≡ condition_one s heap table.now (state_of rest files) }
    ensures within { result ≡ false → InLimits s heap table.now }
{
    if out_of_range(s, heap, table) {
        return true;
    }
    if !the_states(s, heap, capacity(table) as u64, rest) {
        return true;
    }
    if !in_form(table) {
        return true;
    }
    if rest.next_position == 0 {
        return true;
    }
    bad
}

// The same of a whole state.
pub fn refused(s: Settings, heap: u64, table: &[u64], state: State) -> bool
    ensures { result ≡ condition_one s heap table.now state }
{
    let files = state.files;
    let bad = bad_files(s, heap, table, files);
    refused_apart(s, heap, table, rest_of(state), bad)
}
