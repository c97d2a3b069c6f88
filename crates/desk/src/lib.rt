// The desk: what the console's commands are given and change, and one function for each command. A command answers by a reply; what is
// written for a reply is not stated here (crate `bench`).

#![tactic(auto)]

pub mod by_hand;
pub mod calls;
pub mod looks;
mod turns;

ghost use Rattle.std.specs.Prelude.{◌≡◌, ◌≤◌, ltb};
ghost use Rattle.rules.specs.Base.{List, ℕ, pick};
ghost use Rattle.rules.specs.World.{no_state};
ghost use Rattle.desk.specs.Desk.{desk, left, lent_of, on_lent};
ghost use Rattle.desk.specs.Kinds.{Among, at_bench, asking, tabling};
ghost use Rattle.desk.specs.Commands.{fresh_bench, request_from, lent_by, done_by};
ghost use Rattle.desk.specs.Commands.{salvage_on, salvage_by, report_by, plan_on, plan_by, words_by};

use marble::Request;
use rules::{Claims, Compared, Counts, Loaded, Lookup, Refusal, Settings, State, Stopped};
use script::Keyword;
use through::ThroughLookup;
use turns::{bad_line, shown};

// What lies beside the buffers, and how much of each buffer is lent: bytes of the heap, words of the table.
#[derive(Clone, Copy)]
pub struct Bench {
    pub settings: Settings,
    pub state: State,
    pub claims: Claims,
    pub heap_len: usize,
    pub table_words: usize,
}

// Lines that show something and change nothing. Check: with room for so many lines; Bytes: an offset and how many.
#[derive(Clone, Copy)]
pub enum Look {
    Comment,
    Help,
    List,
    Dump,
    Check(u64),
    Bytes(u64, u64),
}

// What a command answers. Marks: how many files are not synced, or whether a mark changed. Planned: what the plan gives stands in words
// of its own.
#[derive(Clone, Copy)]
pub enum Reply {
    BadLine,
    Answered(Result<(), Refusal>),
    Read(Result<Lookup, Refusal>),
    Through(Result<ThroughLookup, Refusal>),
    Planned(Result<(), Refusal>),
    Rewrote(Result<u64, Refusal>),
    Maintained(Result<u64, Stopped>),
    Counted(Result<Counts, Refusal>),
    Marks(u64),
    Loaded(Result<Loaded, Refusal>),
    Compared(Result<Compared, Refusal>),
    Raised(Result<Option<u64>, Refusal>),
    Salvaged(Result<u64, Refusal>),
    Shown(Look),
}

// The reply, and what lies beside the buffers after it.
#[derive(Clone, Copy)]
pub struct Turn {
    pub reply: Reply,
    pub bench: Bench,
}

fn no_settings() -> Settings
    ensures { result ≡ no_state.settings }
{
    Settings {
        slot_bytes: 0,
        file_compaction_percent: 0,
        min_compaction_files: 0,
        target_file_size: 0,
        small_file_cleanup_threshold: 0,
        max_object_size: 0,
    }
}

// The state before the first reopening.
fn no_state() -> State
    ensures { result ≡ no_state }
{
    file_map::state_of(no_settings(), 0, 0, file_map::no_files(), 0)
}

// Before the first command.
pub fn start() -> Bench
    ensures { result ≡ fresh_bench }
{
    Bench {
        settings: marble::defaults(),
        state: no_state(),
        claims: claims::no_claims(),
        heap_len: 65536,
        table_words: 2048,
    }
}

pub fn least(a: usize, b: usize) -> usize
    ensures within { (result ≤ a) × (result ≤ b) }
    ensures answers { result ≡ pick (ltb a b) a b }
{
    a.min(b)
}

// Commands that touch no buffer.
fn at_bench(b: Bench, keyword: Keyword, n: [u64; 9]) -> Turn
    requires { Among at_bench keyword }
    ensures { (bytes heap table : List ℕ)
        → left result heap table ≡ done_by keyword n bytes (desk b heap table) }
{
    match keyword {
        Keyword::Blank => shown(Look::Comment, b),
        Keyword::Bad => bad_line(b),
        Keyword::Settings => by_hand::settings(b, n),
        Keyword::State => by_hand::state(b, n),
        Keyword::Record => by_hand::record(b, n),
        Keyword::Claims => by_hand::claims(b, n),
        Keyword::Unsynced => calls::unsynced(b),
        Keyword::Sync => calls::sync(b),
        Keyword::Check => looks::check(b, n),
        Keyword::List => shown(Look::List, b),
        Keyword::Dump => shown(Look::Dump, b),
        _ => shown(Look::Help, b),
    }
}

// Commands that look at the buffers and change none.
fn asked(b: Bench, keyword: Keyword, n: [u64; 9], heap: &[u8], table: &[u64]) -> Turn
    requires { Among asking keyword }
    ensures { (bytes : List ℕ) → left result heap.now table.now
        ≡ lent_by keyword n bytes (desk b heap.now table.now) }
{
    let x = n[0];
    match keyword {
        Keyword::Claim => calls::claim(b, heap, table, x),
        Keyword::Release => calls::release(b, heap, table, x),
        Keyword::Read => calls::read(b, heap, table, x),
        Keyword::Counts => calls::counts(b, heap, table),
        Keyword::Load => calls::load(b, table, x),
        _ => looks::bytes(b, x, n[1], heap),
    }
}

// Commands that change the table alone.
fn on_table(b: Bench, keyword: Keyword, n: [u64; 9], table: &mut [u64]) -> Turn
    requires { Among tabling keyword }
    ensures { (bytes heap : List ℕ) → left result heap table.new
        ≡ lent_by keyword n bytes (desk b heap table.old) }
{
    let x = n[0];
    let y = n[1];
    let z = n[2];
    match keyword {
        Keyword::Entry => by_hand::entry(b, x, y, z, table),
        Keyword::Store => calls::store(b, table, x, y),
        Keyword::Cas => calls::cas(b, table, x, y, z),
        _ => calls::max(b, table, x, y),
    }
}

// `rewrite G MARK COUNT`
fn request_of(n: [u64; 9]) -> Request
    ensures { result ≡ request_from n }
{
    Request {
        generation: n[0],
        mark: n[1],
        count: n[2],
    }
}

// Commands on the lent parts of the buffers.
fn after_lent(
    b: Bench,
    keyword: Keyword,
    n: [u64; 9],
    bytes: &[u8],
    heap: &mut [u8],
    table: &mut [u64],
) -> Turn
    ensures { left result heap.new table.new
        ≡ lent_by keyword n bytes.now (desk b heap.old table.old) }
{
    match keyword {
        Keyword::Poke => by_hand::poke(b, n[0], bytes, heap),
        Keyword::Reopen => calls::reopen(b, heap, table),
        Keyword::Write => calls::write(b, heap, table, bytes),
        Keyword::Through => calls::through(b, heap, table, bytes, n[0]),
        Keyword::Prune => calls::prune(b, heap, table),
        Keyword::Rewrite => calls::rewrite(b, heap, table, request_of(n)),
        Keyword::Maintain => calls::maintain(b, heap, table),
        Keyword::Entry | Keyword::Store | Keyword::Cas | Keyword::Max => {
            on_table(b, keyword, n, table)
        }
        Keyword::Claim
        | Keyword::Release
        | Keyword::Read
        | Keyword::Counts
        | Keyword::Load
        | Keyword::Bytes => asked(b, keyword, n, heap, table),
        _ => bad_line(b),
    }
}

fn lent(
    b: Bench,
    keyword: Keyword,
    n: [u64; 9],
    bytes: &[u8],
    heap: &mut [u8],
    table: &mut [u64],
) -> Turn
    ensures { left result heap.new table.new
        ≡ on_lent (lent_by keyword n bytes.now) (desk b heap.old table.old) }
{
    let h = least(b.heap_len, heap.len());
    let t = least(b.table_words, table.len());
    after_lent(b, keyword, n, bytes, &mut heap[0..h], &mut table[0..t])
}

// A salvage on the lent parts of the buffers.
fn salvaged(b: Bench, heap: &mut [u8], table: &[u64], report: &mut [u64; 512]) -> Turn
    ensures leaves { left result heap.new table.now
        ≡ on_lent salvage_by (desk b heap.old table.now) }
    ensures reports { report.new
        ≡ (salvage_on (lent_of (desk b heap.old table.now)) report.old).report }
{
    let h = least(b.heap_len, heap.len());
    let t = least(b.table_words, table.len());
    calls::salvage(b, &mut heap[0..h], &table[0..t], report)
}

// A plan on the lent parts of the buffers.
fn planned(b: Bench, heap: &[u8], table: &[u64], words: &mut [u64; 777]) -> Turn
    ensures leaves { left result heap.now table.now
        ≡ on_lent plan_by (desk b heap.now table.now) }
    ensures gives { words.new
        ≡ plan_on (lent_of (desk b heap.now table.now)) }
{
    let h = least(b.heap_len, heap.len());
    let t = least(b.table_words, table.len());
    calls::plan(b, &heap[0..h], &table[0..t], words)
}

// A command: its reply, and the desk after it. A salvage's lines come to stand in the report, what a plan gives in its words.
pub fn after_order(
    b: Bench,
    keyword: Keyword,
    n: [u64; 9],
    bytes: &[u8],
    heap: &mut [u8],
    table: &mut [u64],
    report: &mut [u64; 512],
    plan: &mut [u64; 777],
) -> Turn
    ensures leaves { left result heap.new table.new
        ≡ done_by keyword n bytes.now (desk b heap.old table.old) }
    ensures reports { report.new
        ≡ report_by keyword (desk b heap.old table.old) report.old }
    ensures plans { plan.new
        ≡ words_by keyword (desk b heap.old table.old) plan.old }
{
    match keyword {
        Keyword::Heap => by_hand::heap(b, n[0], heap),
        Keyword::Table => by_hand::table(b, n[0], table),
        Keyword::Blank
        | Keyword::Bad
        | Keyword::Settings
        | Keyword::State
        | Keyword::Record
        | Keyword::Claims
        | Keyword::Unsynced
        | Keyword::Sync
        | Keyword::Check
        | Keyword::List
        | Keyword::Dump
        | Keyword::Help => at_bench(b, keyword, n),
        Keyword::Salvage => salvaged(b, heap, table, report),
        Keyword::Plan => planned(b, heap, table, plan),
        _ => lent(b, keyword, n, bytes, heap, table),
    }
}
