// Reopening (`src/recovery.rs`): the file map and the table from the heap alone, which is only read.

#![tactic(auto)]

ghost use Rattle.std.specs.Prelude.{◌≡◌, false, ◌≤◌, length};
ghost use Rattle.rules.specs.Condition1Laws.{InLimits};
ghost use Rattle.rules.specs.Reopen.{reopen_call};
ghost use Rattle.rules.specs.SlotFile.{views_in};
ghost use Rattle.rules.specs.World.{answer_given, leaving, world};
ghost use Rattle.reopen_tests.specs.Labels.{overlaps};
ghost use Rattle.reopen_tests.specs.Shown.{Surveyed};
ghost use Rattle.recovery.specs.Reopening.{handed_back, leaves, bare, Blank, past_tests, past_slots, past_limits};

use claims::no_claims;
use file_map::{no_files, state_of};
use limits::out_of_range;
use location_table::{capacity, clear};
use rebuild::counts::{next_position, with_live_counts};
use rebuild::table::fill;
use reopen_tests::Labels;
use reopen_tests::over_all::check;
use reopen_tests::slots::survey;
use rules::{Claims, Refusal, Settings, State};

// What a reopening hands back.
#[derive(Clone, Copy)]
pub struct Reopened {
    pub answer: Result<(), Refusal>,
    pub state: State,
    pub claims: Claims,
}

// "an empty file map, no claims and next position 1"
fn given_up(settings: Settings, heap_len: u64, table_len: u64, refusal: Refusal) -> Reopened
    ensures { result ≡ handed_back settings heap_len table_len refusal }
{
    Reopened {
        answer: Err(refusal),
        state: state_of(settings, heap_len, table_len, no_files(), 1),
        claims: no_claims(),
    }
}

// 6, and what an accepted reopening leaves; the table is cleared before.
fn rebuilt(
    settings: Settings,
    heap: &[u8],
    size: usize,
    n: usize,
    slots: Labels,
    table: &mut [u64],
) -> Reopened
    requires { Surveyed n size heap.now slots.labels
        × (size ≤ 1048576)
        × Blank table.old
        × (overlaps slots.labels ≡ false) }
    ensures { leaves settings result heap.now table.new
        ≡ past_tests (bare settings heap.now table.old) (views_in n size heap.now) }
{
    let heap_len = heap.len() as u64;
    let table_len = capacity(table) as u64;
    if !fill(heap, size, n, slots, table) {
        return given_up(settings, heap_len, table_len, Refusal::TableRoom);
    }
    let files = with_live_counts(table, slots);
    Reopened {
        answer: Ok(()),
        state: state_of(settings, heap_len, table_len, files, next_position(slots)),
        claims: no_claims(),
    }
}

// 14 and 15, then the rest, for slots that passed 8 to 13.
fn tested(
    settings: Settings,
    heap: &[u8],
    size: usize,
    n: usize,
    slots: Labels,
    table: &mut [u64],
) -> Reopened
    requires { Surveyed n size heap.now slots.labels × (size ≤ 1048576) × Blank table.old }
    ensures { leaves settings result heap.now table.new
        ≡ past_slots (bare settings heap.now table.old) (views_in n size heap.now) }
{
    match check(heap, size, n, slots) {
        Err(r) => given_up(settings, heap.len() as u64, capacity(table) as u64, r),
        Ok(()) => rebuilt(settings, heap, size, n, slots, table),
    }
}

// All but 1.
fn recovered(settings: Settings, heap: &[u8], table: &mut [u64]) -> Reopened
    requires { InLimits settings (length heap.now) table.old }
    ensures { leaves settings result heap.now table.new
        ≡ past_limits (bare settings heap.now table.old) }
{
    let size = settings.slot_bytes as usize;
    let n = heap.len() / size;
    clear(table);
    match survey(heap, size, n) {
        Err(r) => given_up(settings, heap.len() as u64, capacity(table) as u64, r),
        Ok(slots) => tested(settings, heap, size, n, slots, table),
    }
}

// Refused with 1 it hands everything back as it was; with any other number the table is cleared and no file is known.
pub fn reopen(
    settings: Settings,
    state: State,
    claims: Claims,
    heap: &[u8],
    table: &mut [u64],
) -> Reopened
    ensures { leaving (answer_given result.answer)
        (world settings result.state result.claims heap.now table.new)
        ≡ reopen_call (world settings state claims heap.now table.old) }
{
    if out_of_range(settings, heap.len() as u64, table) {
        return Reopened {
            answer: Err(Refusal::Limits),
            state: state,
            claims: claims,
        };
    }
    recovered(settings, heap, table)
}
