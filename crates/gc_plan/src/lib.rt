// Request P7, "one call plans": which generations, which slots, how many files and bytes would come out before the first refusal, and
// that refusal.

#![tactic(auto)]

ghost use Rattle.std.specs.Prelude.{◌≡◌, ◌*◌, ◌≤◌, length, Ok};
ghost use Rattle.rules.specs.Layout.{table_ids, used_entries, capacity_of};
ghost use Rattle.rules.specs.SettingsLaws.{InRanges};
ghost use Rattle.rules.specs.Condition1Laws.{Passed};
ghost use Rattle.rules.specs.TwoCalls.{room_of, notes_left};
ghost use Rattle.rules.specs.World.{world};
ghost use Rattle.location_table.specs.Tables.{Formed};
ghost use Rattle.as_numbers.specs.StateWords.{state_in};
ghost use Rattle.gc_candidates.specs.Plan.{planned};
ghost use Rattle.gc_group.specs.Source.{source, Ready};
ghost use Rattle.gc_plan.specs.Forecasts.{bytes_by, joined_with, foretold_by, Within, Fits};
ghost use Rattle.gc_plan.specs.Plans.{due_for, due_in, plan_in, no_plan, plan_result, plan_given};

use as_numbers::state_words::{files_in, put_state};
use gc_candidates::group_count;
use gc_course::Halt;
use gc_decision::{Room, decide_group};
use gc_group::Group;
use gc_notes::{clear, too_short};
use gc_split::Totals;
use gc_words::{candidates_in, count_in, empties, mark_in, refused_in};
use rules::{Claims, FileMap, RECORDS, Refusal, Settings, State};

// What a plan gives. `slots` has, for each slot, the generation whose rewrite takes its file, or 0.
#[derive(Clone, Copy)]
pub struct PlanValues {
    pub mark: u64,
    pub count: u64,
    pub files: u64,
    pub bytes: u64,
    pub foretold: Option<Halt>,
    pub slots: [u64; RECORDS],
}

// "`plan` refuses with 1 only": a plan of zeros beside it then.
// Kept: not Result<PlanValues, Refusal>, since the law `plan-laid` has the words of the plan beside a refusal, zeros.
#[derive(Clone, Copy)]
pub struct Planned {
    pub answer: Result<(), Refusal>,
    pub plan: PlanValues,
}

// What is foretold so far: a refusal or none, the files that come out before it and their bytes of file_size; what they leave to the
// next group.
#[derive(Clone, Copy)]
struct Forecast {
    halt: Option<Halt>,
    files: u64,
    bytes: u64,
    room: Room,
}

// The bytes of file_size of a group's files: T, 12, and 16 for each entry.
fn file_bytes(total: Totals) -> u64
    requires { bytes_by total ≤ 1048576 * 256 }
    ensures { result ≡ bytes_by total }
{
    total.positions + 11 * total.files + 16 * total.entries
}

// What is foretold after a group that nothing refuses: "slots used and the base grow from group to group".
fn joined(f: Forecast, total: Totals) -> Forecast
    requires within { Within f }
    requires fits { Fits total f }
    ensures { result ≡ joined_with total f }
{
    let room = f.room;
    let files = total.files;
    let positions = total.positions;
    Forecast {
        halt: None,
        files: f.files + files,
        bytes: f.bytes + file_bytes(total),
        room: Room {
            empty: room.empty - files,
            base: room.base + positions,
        },
    }
}

// A group "on table, records and heap as the plan finds them": nothing more once one is refused; one of too few files is passed over.
fn foretell(
    group: Group,
    m: FileMap,
    heap: &[u8],
    table: &[u64],
    plan: &[u64],
    places: &mut [u32],
    pieces: &mut [u32],
    f: Forecast,
) -> Forecast
    requires in_ranges { InRanges group.settings }
    requires ready { Ready group.settings.slot_bytes (length heap.now) m.records plan.now group.generation }
    requires formed { Formed table.now }
    requires table_len_bound { (length (table_ids table.now) ≤ 65536)
        × (length (table_ids table.now) ≤ length pieces.old)
        × (length (table_ids table.now) ≤ length places.old) }
    requires within { Within f }
    ensures { result ≡ foretold_by group.settings
        (source group.settings.slot_bytes heap.now m.records (used_entries table.now))
        group.generation (planned plan.now group.generation) f f.halt }
{
    if f.halt.is_some() {
        return f;
    }
    let generation = group.generation;
    if group_count(plan, generation) < group.settings.min_compaction_files {
        return f;
    }
    clear(places);
    match decide_group(group, f.room, heap, m, plan, table, pieces, places) {
        Ok(decision) => joined(f, decision.total),
        Err(refusal) => Forecast {
            halt: Some(Halt {
                refusal,
                generation,
            }),
            files: f.files,
            bytes: f.bytes,
            room: f.room,
        },
    }
}

// The same by the state's words.
fn foretell_in(
    group: Group,
    state: &[u64; 1801],
    heap: &[u8],
    table: &[u64],
    plan: &[u64],
    places: &mut [u32],
    pieces: &mut [u32],
    f: Forecast,
) -> Forecast
    requires in_ranges { InRanges group.settings }
    requires ready { Ready group.settings.slot_bytes (length heap.now) (state_in state.now).files.records
        plan.now group.generation }
    requires formed { Formed table.now }
    requires table_len_bound { (length (table_ids table.now) ≤ 65536)
        × (length (table_ids table.now) ≤ length pieces.old)
        × (length (table_ids table.now) ≤ length places.old) }
    requires within { Within f }
    ensures { result ≡ foretold_by group.settings
        (source group.settings.slot_bytes heap.now (state_in state.now).files.records
        (used_entries table.now))
        group.generation (planned plan.now group.generation) f f.halt }
{
    let files = files_in(state);
    foretell(group, files, heap, table, plan, places, pieces, f)
}

// "none where it has fewer files than min_compaction_files": a generation, or 0.
fn due_for(plan: &[u64], least: u64, generation: u64) -> u64
    ensures { result ≡ due_for least plan.now generation }
{
    if group_count(plan, generation) < least {
        return 0;
    }
    generation
}

// For each slot the generation whose rewrite takes its file.
fn due(plan: &[u64], least: u64) -> [u64; RECORDS]
    requires { length plan.now ≡ 256 }
    ensures { result ≡ due_in least plan.now }
{
    let mut slots = [0u64; RECORDS];
    for (i, generation) in plan.iter().enumerate() {
        slots[i] = due_for(plan, least, *generation);
    }
    slots
}

// What a plan gives that is not refused: generations 1, 2 and 3 are foretold one after the other.
fn worked_out(
    settings: Settings,
    state: &[u64; 1801],
    claims: Claims,
    heap: &[u8],
    table: &[u64],
    places: &mut [u32],
    pieces: &mut [u32],
) -> PlanValues
    requires passed { Passed settings (length heap.now) table.now (state_in state.now) }
    requires table_in_bounds { (capacity_of table.now ≤ length places.old) × (capacity_of table.now ≤ length pieces.old) }
    ensures { result ≡ plan_in (world settings (state_in state.now) claims heap.now table.now) }
{
    let mut frees = [0u64; RECORDS];
    let mark = mark_in(state);
    let count = count_in(state);
    let candidates = candidates_in(settings, state, claims, mark, count);
    let mut f = Forecast {
        halt: None,
        files: 0,
        bytes: 0,
        room: Room {
            empty: empties(settings, state, heap, &mut frees),
            base: mark,
        },
    };
    for generation in 1..=3 {
        let group = Group {
            settings: settings,
            generation: generation,
        };
        f = foretell_in(group, state, heap, table, &candidates, places, pieces, f);
    }
    let foretold = f.halt;
    PlanValues {
        mark: mark,
        count: count,
        files: f.files,
        bytes: f.bytes,
        foretold: foretold,
        slots: due(&candidates, settings.min_compaction_files),
    }
}

// Refusal 1 with nothing planned.
fn refused() -> Planned
    ensures { result ≡ no_plan }
{
    Planned {
        answer: Err(Refusal::Limits),
        plan: PlanValues {
            mark: 0,
            count: 0,
            files: 0,
            bytes: 0,
            foretold: None,
            slots: [0u64; RECORDS],
        },
    }
}

// "one call plans", on the state's words: heap, table, state and claims are only read; the lent notes are zeros after it, on 1 as they
// were.
pub fn plan_in(
    settings: Settings,
    state: &[u64; 1801],
    claims: Claims,
    heap: &[u8],
    table: &[u64],
    places: &mut [u32],
    pieces: &mut [u32],
) -> Planned
    ensures answers { result ≡ plan_result
        (world settings (state_in state.now) claims heap.now table.now)
        (room_of places.old pieces.old) }
    ensures places { places.new ≡ notes_left (plan_given result) places.old }
    ensures pieces { pieces.new ≡ notes_left (plan_given result) pieces.old }
{
    if refused_in(settings, state, heap, table) {
        return refused();
    }
    if too_short(table, places, pieces) {
        return refused();
    }
    let worked = worked_out(settings, state, claims, heap, table, places, pieces);
    clear(places);
    clear(pieces);
    Planned {
        answer: Ok(()),
        plan: worked,
    }
}

// The same with the state by value.
pub fn plan(
    settings: Settings,
    state: State,
    claims: Claims,
    heap: &[u8],
    table: &[u64],
    places: &mut [u32],
    pieces: &mut [u32],
) -> Planned
    ensures answers { result ≡ plan_result (world settings state claims heap.now table.now)
        (room_of places.old pieces.old) }
    ensures places { places.new ≡ notes_left (plan_given result) places.old }
    ensures pieces { pieces.new ≡ notes_left (plan_given result) pieces.old }
{
    let mut words = [0u64; 1801];
    put_state(&mut words, state);
    plan_in(settings, &words, claims, heap, table, places, pieces)
}
