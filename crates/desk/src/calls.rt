// The calls, one function to a command: the call on the lent buffers, its answer as the reply.
ghost use Rattle.std.specs.Prelude.{◌≡◌, length};
ghost use Rattle.rules.specs.Base.{List, ℕ};
ghost use Rattle.rules.specs.Claims.{claim_call, release_call};
ghost use Rattle.rules.specs.Counts.{counts_call};
ghost use Rattle.rules.specs.Prune.{prune_call};
ghost use Rattle.rules.specs.Read.{read_call};
ghost use Rattle.rules.specs.Reopen.{reopen_call};
ghost use Rattle.rules.specs.Sync.{sync_state};
ghost use Rattle.rules.specs.TableCalls.{load_call, store_call, compare_call, greater_call};
ghost use Rattle.rules.specs.TwoCalls.{rewrite_call, nightly_call};
ghost use Rattle.rules.specs.World.{World};
ghost use Rattle.rules.specs.Layout.{Table};
ghost use Rattle.rules.specs.Write.{write_call};
ghost use Rattle.through.specs.Through.{through_call};
ghost use Rattle.desk.specs.Commands.{unsynced_by, salvage_on, salvage_by, notes, plan_on, plan_by};
ghost use Rattle.desk.specs.Desk.{desk, left, called, on_table};
ghost use Rattle.desk.specs.Desk.{plain, found, pieced, moved, counted, marks, located, compared, raised};

use crate::turns::{answered, with_claims, with_state};
use crate::{Bench, Reply, Turn};
use marble::Request;

pub fn reopen(b: Bench, heap: &[u8], table: &mut [u64]) -> Turn
    ensures { left result heap.now table.new
        ≡ called plain reopen_call (desk b heap.now table.old) }
{
    let done = marble::reopen(b.settings, b.state, b.claims, heap, table);
    let answer = done.answer;
    answered(answer, with_claims(with_state(b, done.state), done.claims))
}

pub fn write(b: Bench, heap: &mut [u8], table: &mut [u64], batch: &[u8]) -> Turn
    ensures { left result heap.new table.new
        ≡ called plain (λ (w : World). write_call w batch.now)
        (desk b heap.old table.old) }
{
    let done = marble::write(b.settings, b.state, heap, table, batch);
    let answer = done.answer;
    answered(answer, with_state(b, done.state))
}

pub fn read(b: Bench, heap: &[u8], table: &[u64], id: u64) -> Turn
    ensures { left result heap.now table.now
        ≡ called found (λ (w : World). read_call w id) (desk b heap.now table.now) }
{
    let answer = marble::read_answer(b.settings, b.state, heap, table, id);
    Turn {
        reply: Reply::Read(answer),
        bench: b,
    }
}

// A read through a batch.
pub fn through(b: Bench, heap: &[u8], table: &[u64], batch: &[u8], id: u64) -> Turn
    ensures { left result heap.now table.now
        ≡ called pieced (λ (w : World). through_call w batch.now id)
        (desk b heap.now table.now) }
{
    let answer = marble::through_answer(b.settings, b.state, heap, table, batch, id);
    Turn {
        reply: Reply::Through(answer),
        bench: b,
    }
}

pub fn prune(b: Bench, heap: &mut [u8], table: &[u64]) -> Turn
    ensures { left result heap.new table.now
        ≡ called plain prune_call (desk b heap.old table.now) }
{
    let done = marble::prune(b.settings, b.state, b.claims, heap, table);
    let answer = done.answer;
    answered(answer, with_state(b, done.state))
}

// A place or a piece for each entry of the longest table.
fn notes() -> [u32; 65536]
    ensures { 65536 ≡ length result }
{
    [0u32; 65536]
}

// Request P7, "one call plans": what it gives comes to stand in the words.
pub fn plan(b: Bench, heap: &[u8], table: &[u64], words: &mut [u64; 777]) -> Turn
    ensures leaves { left result heap.now table.now
        ≡ plan_by (desk b heap.now table.now) }
    ensures gives { words.new
        ≡ plan_on (desk b heap.now table.now) }
{
    let mut places = notes();
    let mut pieces = notes();
    let done = marble::plan(
        b.settings,
        b.state,
        b.claims,
        heap,
        table,
        &mut places,
        &mut pieces,
    );
    let answer = done.answer;
    plan_words::put_plan(done.plan, words);
    Turn {
        reply: Reply::Planned(answer),
        bench: b,
    }
}

// Request P7, "the other rewrites one named generation".
pub fn rewrite(b: Bench, heap: &mut [u8], table: &mut [u64], asked: Request) -> Turn
    ensures { left result heap.new table.new
        ≡ called moved (λ (w : World). rewrite_call w notes asked.generation asked.mark asked.count)
        (desk b heap.old table.old) }
{
    let mut places = notes();
    let mut pieces = notes();
    let done = marble::rewrite(
        b.settings,
        b.state,
        b.claims,
        heap,
        table,
        &mut places,
        &mut pieces,
        asked,
    );
    let answer = done.answer;
    Turn {
        reply: Reply::Rewrote(answer),
        bench: with_state(b, done.state),
    }
}

// The nightly job.
pub fn maintain(b: Bench, heap: &mut [u8], table: &mut [u64]) -> Turn
    ensures { left result heap.new table.new
        ≡ called moved (λ (w : World). nightly_call w notes) (desk b heap.old table.old) }
{
    let mut places = notes();
    let mut pieces = notes();
    let done = marble::nightly(
        b.settings,
        b.state,
        b.claims,
        heap,
        table,
        &mut places,
        &mut pieces,
    );
    let answer = done.answer;
    Turn {
        reply: Reply::Maintained(answer),
        bench: with_state(b, done.state),
    }
}

pub fn claim(b: Bench, heap: &[u8], table: &[u64], slot: u64) -> Turn
    ensures { left result heap.now table.now
        ≡ called plain (λ (w : World). claim_call w slot) (desk b heap.now table.now) }
{
    let done = marble::claim(b.settings, b.state, b.claims, heap, table, slot);
    let answer = done.answer;
    answered(answer, with_claims(b, done.claims))
}

pub fn release(b: Bench, heap: &[u8], table: &[u64], slot: u64) -> Turn
    ensures { left result heap.now table.now
        ≡ called plain (λ (w : World). release_call w slot) (desk b heap.now table.now) }
{
    let done = marble::release(b.settings, b.state, b.claims, heap, table, slot);
    let answer = done.answer;
    answered(answer, with_claims(b, done.claims))
}

pub fn counts(b: Bench, heap: &[u8], table: &[u64]) -> Turn
    ensures { left result heap.now table.now
        ≡ called counted counts_call (desk b heap.now table.now) }
{
    let answer = marble::counts(b.settings, b.state, heap, table);
    Turn {
        reply: Reply::Counted(answer),
        bench: b,
    }
}

// Two words to a line of the report: slot, number.
pub fn salvage(b: Bench, heap: &mut [u8], table: &[u64], report: &mut [u64; 512]) -> Turn
    ensures leaves { left result heap.new table.now
        ≡ salvage_by (desk b heap.old table.now) }
    ensures reports { report.new
        ≡ (salvage_on (desk b heap.old table.now) report.old).report }
{
    let answer = marble::salvage(b.settings, heap, table, report);
    Turn {
        reply: Reply::Salvaged(answer),
        bench: b,
    }
}

// Of the state's own records: how many are not synced.
pub fn unsynced(b: Bench) -> Turn
    ensures { (heap table : List ℕ) → left result heap table ≡ unsynced_by (desk b heap table) }
{
    let state = b.state;
    let n = record_marks::unsynced(state.files);
    Turn {
        reply: Reply::Marks(n),
        bench: b,
    }
}

// The state's own records marked.
pub fn sync(b: Bench) -> Turn
    ensures { (heap table : List ℕ) → left result heap table ≡ called marks sync_state (desk b heap table) }
{
    let mut state = b.state;
    let done = record_marks::sync(state.files);
    let after = done.files;
    state.files = after;
    Turn {
        reply: Reply::Marks(done.changed),
        bench: with_state(b, state),
    }
}

pub fn load(b: Bench, table: &[u64], id: u64) -> Turn
    ensures { (heap : List ℕ) → left result heap table.now
        ≡ called located (on_table (λ (t : Table). load_call t id)) (desk b heap table.now) }
{
    let answer = marble::load(table, id);
    Turn {
        reply: Reply::Loaded(answer),
        bench: b,
    }
}

pub fn store(b: Bench, table: &mut [u64], id: u64, raw: u64) -> Turn
    ensures { (heap : List ℕ) → left result heap table.new
        ≡ called plain (on_table (λ (t : Table). store_call t id raw)) (desk b heap table.old) }
{
    answered(marble::store(table, id, raw), b)
}

pub fn cas(b: Bench, table: &mut [u64], id: u64, old: u64, raw: u64) -> Turn
    ensures { (heap : List ℕ) → left result heap table.new
        ≡ called compared (on_table (λ (t : Table). compare_call t id old raw))
        (desk b heap table.old) }
{
    let answer = marble::compare_and_store(table, id, old, raw);
    Turn {
        reply: Reply::Compared(answer),
        bench: b,
    }
}

pub fn max(b: Bench, table: &mut [u64], id: u64, raw: u64) -> Turn
    ensures { (heap : List ℕ) → left result heap table.new
        ≡ called raised (on_table (λ (t : Table). greater_call t id raw)) (desk b heap table.old) }
{
    let answer = marble::store_if_greater(table, id, raw);
    Turn {
        reply: Reply::Raised(answer),
        bench: b,
    }
}
