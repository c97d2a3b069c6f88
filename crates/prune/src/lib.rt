// Prune: dead files' labels in the heap and their records, both emptied.

#![tactic(auto)]

ghost use Rattle.std.specs.Prelude.{◌≡◌, true, List, [], ◌∷◌, ℕ, ◌+◌, ◌*◌, ◌<◌, ◌≤◌, length, take, Err, Ok};
ghost use Rattle.numbers.specs.Choice.{pick};
ghost use Rattle.rules.specs.FileMap.{empty_record, slots_where};
ghost use Rattle.rules.specs.declared.Refusal.TheVariants.{Limits};
ghost use Rattle.rules.specs.Stores.{made};
ghost use Rattle.rules.specs.Prune.{is_dead, emptied_from, pruned, prune_call};
ghost use Rattle.rules.specs.PruneLaws.{emptying};
ghost use Rattle.rules.specs.World.{world, leaving, answer_given};
ghost use Rattle.stores.specs.Runs.{Made};
ghost use Rattle.prune.specs.Labels.{LabelsIn};

use file_map::{empty, is_empty};
use limits::{bad_files, refused_apart, rest_of};
use rules::{Claims, FileMap, RECORDS, Record, Refusal, Settings, State};

// What a prune answers, and the state after it.
#[derive(Clone, Copy)]
pub struct PruneAnswer {
    pub answer: Result<(), Refusal>,
    pub state: State,
}

// "Every unclaimed file with live 0"
fn is_dead(claims: Claims, slot: u64, r: Record) -> bool
    requires { slot < 256 }
    ensures { result ≡ is_dead claims slot r }
{
    !is_empty(r) & (r.live == 0) & !claims::is_claimed(claims, slot)
}

// ---- the heap: at most `left` stores are made; how many are left of them
// "first label byte set to 0"
fn zero_label(heap: &mut [u8], slot_bytes: u64, slot: u64, left: u64) -> u64
    requires { slot * slot_bytes + 64 ≤ length heap.old }
    ensures { Made left (emptying slot_bytes (slot ∷ [])) heap.old heap.new result }
{
    stores::put_number(heap, (slot * slot_bytes) as usize, 1, 0, left)
}

// ---- both, slot by slot: the records are gone through once
// Where that begins: behind them all where a prune is not due.
// Kept: a place to begin at and no early return, since two ways through the call would meet in a copy of all records.
fn first(due: bool) -> usize
    ensures { result ≡ pick due 0 256 }
{
    if due {
        return 0;
    }
    RECORDS
}

// One store for each dead file, ascending by slot, as far as `left` reaches; every dead file's record emptied. Nothing where it is not due.
pub fn prune_stores(
    heap: &mut [u8],
    slot_bytes: u64,
    claims: Claims,
    files: FileMap,
    left: u64,
    due: bool,
) -> FileMap
    requires { due ≡ true → LabelsIn slot_bytes files.records (length heap.old) }
    ensures records { result.records ≡ pick due (emptied_from claims 0 files.records) files.records }
    ensures heap { heap.new
        ≡ made (take left (pick due (emptying slot_bytes (slots_where (is_dead claims) 0 files.records)) [])) heap.old }
{
    let mut n = files;
    let mut rest = left;
    for i in first(due)..RECORDS {
        if is_dead(claims, i as u64, n.records[i]) {
            rest = zero_label(heap, slot_bytes, i as u64, rest);
            n.records[i] = empty();
        }
    }
    n
}

// ---- the call: 256 stores are enough, for there are no more records
// For a call that has decided refusal 1: the state after it, where a prune is due.
pub fn pruned(settings: Settings, state: State, claims: Claims, heap: &mut [u8], due: bool) -> State
    requires { due ≡ true → LabelsIn settings.slot_bytes state.files.records (length heap.old) }
    ensures { (table : List ℕ) → world settings result claims heap.new table
        ≡ pick due (pruned (world settings state claims heap.old table))
        (world settings state claims heap.old table) }
{
    let files = state.files;
    let next = prune_stores(
        heap,
        settings.slot_bytes,
        claims,
        files,
        RECORDS as u64,
        due,
    );
    let mut after = state;
    after.files = next;
    after
}

fn answer(refused: bool) -> Result<(), Refusal>
    ensures { result ≡ pick refused (Err Limits) (Ok tt) }
{
    if refused {
        return Err(Refusal::Limits);
    }
    Ok(())
}

// "Every unclaimed file with live 0: first label byte set to 0, record emptied. No other heap byte changes."
pub fn prune(
    settings: Settings,
    state: State,
    claims: Claims,
    heap: &mut [u8],
    table: &[u64],
) -> PruneAnswer
    ensures { leaving (answer_given result.answer)
        (world settings result.state claims heap.new table.now)
        ≡ prune_call (world settings state claims heap.old table.now) }
{
    let files = state.files;
    let bad = bad_files(settings, heap.len() as u64, table, files);
    let refused = refused_apart(settings, heap.len() as u64, table, rest_of(state), bad);
    let after = pruned(settings, state, claims, heap, !refused);
    PruneAnswer {
        answer: answer(refused),
        state: after,
    }
}
