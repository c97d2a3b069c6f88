// Request P3, "Let the editor see what it hasn't saved": a read over a batch buffer and the heap.

#![tactic(auto)]

ghost use Rattle.std.specs.Prelude.{◌≡◌, false, ◌≤◌, length, None, Some, Ok};
ghost use Rattle.numbers.specs.Choice.{pick};
ghost use Rattle.rules.specs.declared.Claims.{Claims};
ghost use Rattle.rules.specs.Batch.{batch_in, is_malformed};
ghost use Rattle.rules.specs.Read.{read_of};
ghost use Rattle.rules.specs.World.{World, world};
ghost use Rattle.through.specs.Through.{or_earlier, last_in, as_read, answer_by, through_of, through_part};
ghost use Rattle.through.specs.Pieces.{said_in, refused_first, Within, through_place};

use as_numbers::answers::refusal_number;
use batch::{Operation, operation_at};
use readpath::read_answer;
use rules::{Lookup, Refusal, Settings, State};

// A piece of the batch or of the heap, by its start and length; or that the id is deleted, or never written.
#[derive(Clone, Copy)]
pub enum ThroughLookup {
    InBatch(u64, u64),
    InHeap(u64, u64),
    ThroughDeleted,
    ThroughNever,
}

// The last operation of a batch on an id: a put, by its body's start in the batch and its length; a delete; or none.
// Kept: NoOperation is a variant and no None, since the law last-examples and through_theory's definitions name the three words.
#[derive(Clone, Copy)]
pub enum LastOperation {
    Puts(u64, u64),
    Deletes,
    NoOperation,
}

// What one operation says of an id. A put's body ends where the operation ends, at `next`.
fn said_by(o: Operation, next: usize, id: u64) -> LastOperation
    requires { o.delete ≡ false → o.len ≤ next }
    ensures { result ≡ said_in o next id }
{
    let size = o.len;
    if o.id != id {
        return LastOperation::NoOperation;
    }
    if o.delete {
        return LastOperation::Deletes;
    }
    let start = next - size;
    LastOperation::Puts(start as u64, size as u64)
}

// The later word on an id, or else the earlier.
fn or_earlier(later: LastOperation, earlier: LastOperation) -> LastOperation
    ensures { result ≡ or_earlier later earlier }
{
    match later {
        LastOperation::Puts(_, _) | LastOperation::Deletes => later,
        LastOperation::NoOperation => earlier,
    }
}

// One pass over the batch, to its end: 2 is decided on the whole of it.
fn last_on(batch: &[u8], id: u64) -> Option<LastOperation>
    ensures { result ≡ pick (is_malformed (batch_in batch.now)) None (Some (last_in batch.now id)) }
{
    let mut last = LastOperation::NoOperation;
    let mut at: usize = 0;
    while at < batch.len() {
        let (o, next) = operation_at(batch, at)?;
        last = or_earlier(said_by(o, next, id), last);
        at = next;
    }
    Some(last)
}

// A read's own answer.
fn as_read(stored: Result<Lookup, Refusal>) -> Result<ThroughLookup, Refusal>
    ensures { result ≡ as_read stored }
{
    match stored? {
        Lookup::Found(start, size) => Ok(ThroughLookup::InHeap(start, size)),
        Lookup::Deleted => Ok(ThroughLookup::ThroughDeleted),
        Lookup::NeverWritten => Ok(ThroughLookup::ThroughNever),
    }
}

// Whether a read was refused with 1, which is decided before 2.
fn refused_first(stored: Result<Lookup, Refusal>) -> bool
    ensures { result ≡ refused_first stored }
{
    match stored {
        Ok(_) => false,
        Err(refusal) => refusal_number(refusal) == 1,
    }
}

// "The last operation on the id in the batch decides; with none, the store answers as today."
fn answer_by(
    last: LastOperation,
    stored: Result<ThroughLookup, Refusal>,
) -> Result<ThroughLookup, Refusal>
    ensures { result ≡ answer_by last stored }
{
    match last {
        LastOperation::Puts(start, size) => Ok(ThroughLookup::InBatch(start, size)),
        LastOperation::Deletes => Ok(ThroughLookup::ThroughDeleted),
        LastOperation::NoOperation => stored,
    }
}

// "Refusals: 1, then 2 on a malformed batch, then read's own": what the store's own read gave, seen through a batch.
pub fn seen(
    stored: Result<Lookup, Refusal>,
    batch: &[u8],
    id: u64,
) -> Result<ThroughLookup, Refusal>
    ensures { (w : World) → stored ≡ read_of w id → result ≡ through_of w batch.now id }
{
    if refused_first(stored) {
        return Err(Refusal::Limits);
    }
    let last = last_on(batch, id).ok_or(Refusal::BatchBytes)?;
    answer_by(last, as_read(stored))
}

// "a read over a batch buffer and the heap": which piece it is, in numbers.
pub fn through_answer(
    settings: Settings,
    state: State,
    heap: &[u8],
    table: &[u64],
    batch: &[u8],
    id: u64,
) -> Result<ThroughLookup, Refusal>
    ensures { (c : Claims) → result ≡ through_of
        (world settings state c heap.now table.now)
        batch.now id }
{
    seen(read_answer(settings, state, heap, table, id), batch, id)
}

// The piece that an answer names; an empty part of the heap where it names none.
fn piece<'a>(batch: &'a [u8], heap: &'a [u8], answer: Result<ThroughLookup, Refusal>) -> &'a [u8]
    requires { Within answer (length batch.now) (length heap.now) }
    ensures bytes { result.now ≡ through_part answer batch.now heap.now }
    ensures place { result.ref_ptr ≡ through_place answer batch.entry.ref_ptr heap.entry.ref_ptr }
{
    match answer {
        Ok(ThroughLookup::InBatch(at, size)) => {
            let start = at as usize;
            let end = start + size as usize;
            &batch[start..end]
        }
        Ok(ThroughLookup::InHeap(at, size)) => {
            let start = at as usize;
            let end = start + size as usize;
            &heap[start..end]
        }
        _ => &heap[0..0],
    }
}

// "whose answer is a piece of the batch or a piece of the heap, never a copy"
pub fn through<'a>(
    settings: Settings,
    state: State,
    heap: &'a [u8],
    table: &[u64],
    batch: &'a [u8],
    id: u64,
) -> &'a [u8]
    ensures bytes { (c : Claims) → result.now ≡ through_part
        (through_of (world settings state c heap.now table.now) batch.now id)
        batch.now heap.now }
    ensures place { (c : Claims) → result.ref_ptr ≡ through_place
        (through_of (world settings state c heap.now table.now) batch.now id)
        batch.entry.ref_ptr heap.entry.ref_ptr }
{
    let answer = through_answer(settings, state, heap, table, batch, id);
    piece(batch, heap, answer)
}
