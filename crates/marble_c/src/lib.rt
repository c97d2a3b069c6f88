// The public calls for a host in C (include/marble.h). State and claim record are lent as words and changed in place; an answer is the
// paper's number, its values go to out-parameters. The contracts are those of the calls, by the same definitions.

#![tactic(auto)]

ghost use Rattle.std.specs.Prelude.{◌≡◌, [], ◌∷◌, get_or, set, Ok};
ghost use Rattle.rules.specs.declared.Claims.{Claims};
ghost use Rattle.rules.specs.Claims.{claim_call, release_call};
ghost use Rattle.rules.specs.Counts.{counts_call};
ghost use Rattle.rules.specs.Prune.{prune_call};
ghost use Rattle.rules.specs.Read.{read_of, read_call};
ghost use Rattle.rules.specs.Reopen.{reopen_call};
ghost use Rattle.rules.specs.Sync.{unsynced_call, sync_call};
ghost use Rattle.rules.specs.TableCalls.{load_call, store_call, compare_call, greater_call};
ghost use Rattle.rules.specs.TwoCalls.{room_of, notes_left, nightly_call};
ghost use Rattle.rules.specs.World.{world, leaving};
ghost use Rattle.rules.specs.Write.{write_call};
ghost use Rattle.location_table.specs.Tables.{leaving as table_leaving};
ghost use Rattle.faults.specs.Faults.{check_call};
ghost use Rattle.checker.specs.Answers.{check_given};
ghost use Rattle.losses.specs.Salvage.{salvage_call};
ghost use Rattle.salvage.specs.Answers.{salvage_given};
ghost use Rattle.through.specs.Through.{through_given, through_call};
ghost use Rattle.as_numbers.specs.Numbered.{numbered};
ghost use Rattle.as_numbers.specs.Shown.{given, shown, stop_after, shown_table};
ghost use Rattle.as_numbers.specs.StateWords.{state_in};
ghost use Rattle.marble_c.specs.Host.{world_in, plan_shown, shown_after, rewrite_asked};
ghost use Rattle.marble_c.specs.Salvages.{rescue, shown_rescue};
ghost use Rattle.marble_c.specs.Version.{version};

use as_numbers::answers::{
    DELETED, NEVER_WRITTEN, OBJECT, One, compare_shown, counts_shown, greater_shown, load_shown,
    maintain_shown, number, put_counts, read_shown, refusal_number, rewrite_shown,
};
use as_numbers::claim_words::{claims_in, put_claims};
use as_numbers::state_words::{put_state, state_in};
use marble::{Request, ThroughLookup};
use plan_words::put_plan;
use rules::{Lookup, Record, Refusal, Settings};

// The version of this interface, which a host holds against its header's.
#[unsafe(no_mangle)]
pub extern "C" fn marble_version() -> u64
    ensures { result ≡ version }
{
    5000
}

// ---- the store
// "Reopen"
#[unsafe(no_mangle)]
pub extern "C" fn marble_reopen(
    settings: Settings,
    state: &mut [u64; 1801],
    claims: &mut [u64; 4],
    heap: &[u8],
    table: &mut [u64],
) -> u64
    ensures { leaving (numbered result)
        (world_in settings state.new claims.new heap.now table.new)
        ≡ reopen_call (world_in settings state.old claims.old heap.now table.old) }
{
    let done = marble::reopen(settings, state_in(state), claims_in(claims), heap, table);
    put_state(state, done.state);
    put_claims(claims, done.claims);
    number(done.answer)
}

// "Write"
#[unsafe(no_mangle)]
pub extern "C" fn marble_write(
    settings: Settings,
    state: &mut [u64; 1801],
    heap: &mut [u8],
    table: &mut [u64],
    batch: &[u8],
) -> u64
    ensures { (c : Claims) → leaving (numbered result)
        (world settings (state_in state.new) c heap.new table.new)
        ≡ write_call (world settings (state_in state.old) c heap.old table.old)
        batch.now }
{
    let done = marble::write(settings, state_in(state), heap, table, batch);
    put_state(state, done.state);
    number(done.answer)
}

// A read's answer, by the state's words. Both reads go through here, so that `read_answer` has one caller and is compiled into it: with
// two, each call would hand it copies of the state.
fn found(
    settings: Settings,
    state: &[u64; 1801],
    heap: &[u8],
    table: &[u64],
    id: u64,
) -> Result<Lookup, Refusal>
    ensures { (c : Claims) → result ≡ read_of
        (world settings (state_in state.now) c heap.now table.now)
        id }
{
    marble::read_answer(settings, state_in(state), heap, table, id)
}

// "Read": what is there of the id, and an object's part of the heap by its start and length.
#[unsafe(no_mangle)]
pub extern "C" fn marble_read(
    settings: Settings,
    state: &[u64; 1801],
    heap: &[u8],
    table: &[u64],
    id: u64,
    kind: &mut u64,
    offset: &mut u64,
    size: &mut u64,
) -> u64
    ensures { (c : Claims) → given result (kind.new ∷ offset.new ∷ size.new ∷ [])
        ≡ shown 3 (read_call
        (world settings (state_in state.now) c heap.now table.now)
        id).answer }
{
    let read = read_shown(found(settings, state, heap, table, id));
    *kind = read.first;
    *offset = read.second;
    *size = read.third;
    read.number
}

// What is there of the id, whether the part is one of the batch, its start and its length. Places that no value comes to are 0.
fn places_of(found: ThroughLookup) -> [u64; 4]
    ensures { given 0 result ≡ shown 4 (through_given (Ok found)) }
{
    match found {
        ThroughLookup::InBatch(start, size) => [OBJECT, 1, start, size],
        ThroughLookup::InHeap(start, size) => [OBJECT, 0, start, size],
        ThroughLookup::ThroughDeleted => [DELETED, 0, 0, 0],
        ThroughLookup::ThroughNever => [NEVER_WRITTEN, 0, 0, 0],
    }
}

// A read through a batch: its number and four places.
fn through_shown(a: Result<ThroughLookup, Refusal>) -> (u64, [u64; 4])
    ensures { given result.0 result.1 ≡ shown 4 (through_given a) }
{
    match a {
        Ok(found) => (0, places_of(found)),
        Err(r) => (refusal_number(r), [0; 4]),
    }
}

// "a read over a batch buffer and the heap": the kind, whether it is the batch's, and the part by its start and length.
#[unsafe(no_mangle)]
pub extern "C" fn marble_read_through(
    settings: Settings,
    state: &[u64; 1801],
    heap: &[u8],
    table: &[u64],
    batch: &[u8],
    id: u64,
    piece: &mut [u64; 4],
) -> u64
    ensures { (c : Claims) → given result piece.new
        ≡ shown 4 (through_call
        (world settings (state_in state.now) c heap.now table.now)
        batch.now id).answer }
{
    let stored = found(settings, state, heap, table, id);
    let (number, places) = through_shown(through::seen(stored, batch, id));
    *piece = places;
    number
}

// "21 for a slot out of range, an empty slot, a claimed one (claim)"
#[unsafe(no_mangle)]
pub extern "C" fn marble_claim(
    settings: Settings,
    state: &[u64; 1801],
    claims: &mut [u64; 4],
    heap: &[u8],
    table: &[u64],
    slot: u64,
) -> u64
    ensures { leaving (numbered result)
        (world_in settings state.now claims.new heap.now table.now)
        ≡ claim_call (world_in settings state.now claims.old heap.now table.now) slot }
{
    let done = marble::claim(
        settings,
        state_in(state),
        claims_in(claims),
        heap,
        table,
        slot,
    );
    put_claims(claims, done.claims);
    number(done.answer)
}

// "or an unclaimed one (release)"
#[unsafe(no_mangle)]
pub extern "C" fn marble_release(
    settings: Settings,
    state: &[u64; 1801],
    claims: &mut [u64; 4],
    heap: &[u8],
    table: &[u64],
    slot: u64,
) -> u64
    ensures { leaving (numbered result)
        (world_in settings state.now claims.new heap.now table.now)
        ≡ release_call (world_in settings state.now claims.old heap.now table.now) slot }
{
    let done = marble::release(
        settings,
        state_in(state),
        claims_in(claims),
        heap,
        table,
        slot,
    );
    put_claims(claims, done.claims);
    number(done.answer)
}

// "Prune"
#[unsafe(no_mangle)]
pub extern "C" fn marble_prune(
    settings: Settings,
    state: &mut [u64; 1801],
    claims: &[u64; 4],
    heap: &mut [u8],
    table: &[u64],
) -> u64
    ensures { leaving (numbered result)
        (world_in settings state.new claims.now heap.new table.now)
        ≡ prune_call (world_in settings state.old claims.now heap.old table.now) }
{
    let done = marble::prune(settings, state_in(state), claims_in(claims), heap, table);
    put_state(state, done.state);
    number(done.answer)
}

// Request P7, "one call plans": the words of a plan.
#[unsafe(no_mangle)]
pub extern "C" fn marble_plan(
    settings: Settings,
    state: &[u64; 1801],
    claims: &[u64; 4],
    heap: &[u8],
    table: &[u64],
    places: &mut [u32],
    pieces: &mut [u32],
    plan: &mut [u64; 777],
) -> u64
    ensures tells { given result plan.new ≡ plan_shown
        (world_in settings state.now claims.now heap.now table.now)
        (room_of places.old pieces.old) }
    ensures places { places.new ≡ notes_left (numbered result) places.old }
    ensures pieces { pieces.new ≡ notes_left (numbered result) pieces.old }
{
    let done = marble::plan_in(
        settings,
        state,
        claims_in(claims),
        heap,
        table,
        places,
        pieces,
    );
    put_plan(done.plan, plan);
    number(done.answer)
}

// Request P7, "the other rewrites one named generation": asked are generation, mark and count, and the ids moved are told beside them.
#[unsafe(no_mangle)]
pub extern "C" fn marble_rewrite(
    settings: Settings,
    state: &mut [u64; 1801],
    claims: &[u64; 4],
    heap: &mut [u8],
    table: &mut [u64],
    places: &mut [u32],
    pieces: &mut [u32],
    asked: &mut [u64; 4],
) -> u64
    ensures leaves { leaving (given result (get_or asked.new 3 0 ∷ []))
        (world_in settings state.new claims.now heap.new table.new)
        ≡ shown_after 1 (rewrite_asked
        (world_in settings state.old claims.now heap.old table.old)
        (room_of places.old pieces.old) asked.old) }
    ensures asked { asked.new ≡ set asked.old 3 (get_or asked.new 3 0) }
    ensures places { places.new ≡ notes_left (numbered result) places.old }
    ensures pieces { pieces.new ≡ notes_left (numbered result) pieces.old }
{
    let request = Request {
        generation: asked[0],
        mark: asked[1],
        count: asked[2],
    };
    let told = rewrite_shown(marble::rewrite_in(
        settings,
        state,
        claims_in(claims),
        heap,
        table,
        places,
        pieces,
        request,
    ));
    asked[3] = told.value;
    told.number
}

// The nightly job: the generation where it stopped, or 0, and the ids moved.
#[unsafe(no_mangle)]
pub extern "C" fn marble_nightly(
    settings: Settings,
    state: &mut [u64; 1801],
    claims: &[u64; 4],
    heap: &mut [u8],
    table: &mut [u64],
    places: &mut [u32],
    pieces: &mut [u32],
    told: &mut [u64; 2],
) -> u64
    ensures leaves { leaving (given result told.new)
        (world_in settings state.new claims.now heap.new table.new)
        ≡ stop_after (nightly_call
        (world_in settings state.old claims.now heap.old table.old)
        (room_of places.old pieces.old)) }
    ensures places { places.new ≡ notes_left (numbered result) places.old }
    ensures pieces { pieces.new ≡ notes_left (numbered result) pieces.old }
{
    let stopped = maintain_shown(marble::nightly_in(
        settings,
        state,
        claims_in(claims),
        heap,
        table,
        places,
        pieces,
    ));
    *told = [stopped.first, stopped.second];
    stopped.number
}

// "Files, bytes, present, live, summed over files."
#[unsafe(no_mangle)]
pub extern "C" fn marble_counts(
    settings: Settings,
    state: &[u64; 1801],
    heap: &[u8],
    table: &[u64],
    counts: &mut [u64; 4],
) -> u64
    ensures { (c : Claims) → given result counts.new
        ≡ shown 4 (counts_call (world settings (state_in state.now) c heap.now table.now)).answer }
{
    let done = counts_shown(marble::counts(settings, state_in(state), heap, table));
    put_counts(counts, done.counts);
    done.number
}

// "The host lends its list of file records and asks how many aren't synced"
#[unsafe(no_mangle)]
pub extern "C" fn marble_unsynced(records: &[Record], unsynced: &mut u64) -> u64
    ensures { given result (unsynced.new ∷ []) ≡ shown 1 (unsynced_call records.now) }
{
    let was = marks_in_place::unsynced(records);
    *unsynced = was.value;
    was.number
}

// "then has them marked. Sync gives whether any mark changed": 1 for yes, 0 for no.
#[unsafe(no_mangle)]
pub extern "C" fn marble_sync(records: &mut [Record], changed: &mut u64) -> u64
    ensures { (given result (changed.new ∷ []) ≡ shown 1 (sync_call records.old).answer)
        × (records.new ≡ (sync_call records.old).records) }
{
    let done = marks_in_place::sync(records);
    *changed = done.value;
    done.number
}

// How many faults there are, or slots that were given up; or 0.
fn count_shown(a: Result<u64, Refusal>) -> One
    ensures check { given result.number (result.value ∷ []) ≡ shown 1 (check_given a) }
    ensures salvage { given result.number (result.value ∷ []) ≡ shown 1 (salvage_given a) }
{
    match a {
        Ok(n) => One {
            number: 0,
            value: n,
        },
        Err(r) => One {
            number: refusal_number(r),
            value: 0,
        },
    }
}

// "lists everything wrong": four words to a line, and the full number of faults.
#[unsafe(no_mangle)]
pub extern "C" fn marble_check(
    settings: Settings,
    heap: &[u8],
    table: &[u64],
    listing: &mut [u64],
    faults: &mut u64,
) -> u64
    ensures answers { given result (faults.new ∷ []) ≡ shown 1
        (check_call settings heap.now table.now listing.old).answer }
    ensures lists { listing.new
        ≡ (check_call settings heap.now table.now listing.old).listing }
{
    let done = count_shown(marble::check(settings, heap, table, listing));
    *faults = done.value;
    done.number
}

// "empties the slots that make reopening refuse, and says which": two words to a line of the report, and the number of lines.
#[unsafe(no_mangle)]
pub extern "C" fn marble_salvage(
    settings: Settings,
    heap: &mut [u8],
    table: &[u64],
    report: &mut [u64; 512],
    lost: &mut u64,
) -> u64
    ensures { rescue (given result (lost.new ∷ [])) report.new heap.new
        ≡ shown_rescue
        (salvage_call settings heap.old table.now report.old) }
{
    let done = count_shown(marble::salvage(settings, heap, table, report));
    *lost = done.value;
    done.number
}

// ---- the table
// "Load": what is there of the id, and where. A held location is never 0.
#[unsafe(no_mangle)]
pub extern "C" fn marble_load(table: &[u64], id: u64, kind: &mut u64, location: &mut u64) -> u64
    ensures { given result (kind.new ∷ location.new ∷ [])
        ≡ shown 2 (load_call table.now id).answer }
{
    let held = load_shown(marble::load(table, id));
    *kind = held.first;
    *location = held.second;
    held.number
}

// "store"
#[unsafe(no_mangle)]
pub extern "C" fn marble_store(table: &mut [u64], id: u64, location: u64) -> u64
    ensures { table_leaving (numbered result) table.new
        ≡ store_call table.old id location }
{
    number(marble::store(table, id, location))
}

// "A compare that differs stores nothing and gives the current location"
#[unsafe(no_mangle)]
pub extern "C" fn marble_compare_and_store(
    table: &mut [u64],
    id: u64,
    old: u64,
    location: u64,
    current: &mut u64,
) -> u64
    ensures { table_leaving (given result (current.new ∷ [])) table.new
        ≡ shown_table 1 (compare_call table.old id old location) }
{
    let held = compare_shown(marble::compare_and_store(table, id, old, location));
    *current = held.value;
    held.number
}

// "Store-if-greater gives the location held before or nothing"
#[unsafe(no_mangle)]
pub extern "C" fn marble_store_if_greater(
    table: &mut [u64],
    id: u64,
    location: u64,
    held: &mut u64,
) -> u64
    ensures { table_leaving (given result (held.new ∷ [])) table.new
        ≡ shown_table 1 (greater_call table.old id location) }
{
    let was = greater_shown(marble::store_if_greater(table, id, location));
    *held = was.value;
    was.number
}
