// A line: its order, the command's turn, and what is written for it.
ghost use Rattle.std.specs.Prelude.{◌≡◌, length};
ghost use Rattle.numbers.specs.Parts.{front};
ghost use Rattle.script.specs.Asked.{asked_by};
ghost use Rattle.desk.specs.Desk.{desk};
ghost use Rattle.bench.specs.Lines.{Ran};

use crate::{decoded_bytes, say, show};
use desk::{Bench, Look, Reply, Turn};
use rules::{Compared, Counts, Loaded, Lookup, Refusal};
use std::io;
use through::ThroughLookup;

// ---- what is written for a reply: of that nothing is stated, since the kit's output states nothing
// The part of a buffer that is lent.
fn lent<T>(buffer: &[T], count: usize) -> &[T] {
    &buffer[..count.min(buffer.len())]
}

// The body is read again from the lent parts, which a read leaves alone.
fn read(
    rt: &impl Print,
    answer: Result<Lookup, Refusal>,
    b: Bench,
    heap: &[u8],
    table: &[u64],
    id: u64,
) -> io::Result<()> {
    match answer {
        Ok(Lookup::Found(_, _)) => say::named_bytes(
            rt,
            "ok",
            marble::read(b.settings, b.state, heap, table, id),
        ),
        Ok(Lookup::Deleted) => println!(rt; "deleted"),
        Ok(Lookup::NeverWritten) => println!(rt; "never"),
        Err(r) => say::refused(rt, r),
    }
}

// The batch is taken out of its line again.
fn in_batch(rt: &impl Print, line: &[u8], at: u64, count: u64) -> io::Result<()> {
    let mut decoded = decoded_bytes();
    script::order_of(line, &mut decoded);
    show::bytes(rt, "batch", &decoded, at, count)
}

fn through(
    rt: &impl Print,
    answer: Result<ThroughLookup, Refusal>,
    line: &[u8],
    heap: &[u8],
) -> io::Result<()> {
    match answer {
        Ok(ThroughLookup::InBatch(at, count)) => in_batch(rt, line, at, count),
        Ok(ThroughLookup::InHeap(at, count)) => show::bytes(rt, "heap", heap, at, count),
        Ok(ThroughLookup::ThroughDeleted) => println!(rt; "deleted"),
        Ok(ThroughLookup::ThroughNever) => println!(rt; "never"),
        Err(r) => say::refused(rt, r),
    }
}

fn counted(rt: &impl Print, answer: Result<Counts, Refusal>) -> io::Result<()> {
    match answer {
        Ok(c) => println!(rt; "ok {} {} {} {}", c.files, c.bytes, c.present, c.live),
        Err(r) => say::refused(rt, r),
    }
}

fn loaded(rt: &impl Print, answer: Result<Loaded, Refusal>) -> io::Result<()> {
    match answer {
        Ok(Loaded::At(raw)) => say::named(rt, b"ok", raw),
        Ok(Loaded::DeletedAt(raw)) => say::named(rt, b"deleted", raw),
        Ok(Loaded::Never) => println!(rt; "never"),
        Err(r) => say::refused(rt, r),
    }
}

fn compared(rt: &impl Print, answer: Result<Compared, Refusal>) -> io::Result<()> {
    match answer {
        Ok(Compared::Swapped) => say::ok(rt),
        Ok(Compared::Differs(current)) => say::named(rt, b"differs", current),
        Err(r) => say::refused(rt, r),
    }
}

fn raised(rt: &impl Print, answer: Result<Option<u64>, Refusal>) -> io::Result<()> {
    match answer {
        Ok(Some(raw)) => say::named(rt, b"ok", raw),
        Ok(None) => println!(rt; "ok nothing"),
        Err(r) => say::refused(rt, r),
    }
}

// A comment has no answer: it is for people, and written as it stands.
fn comment(rt: &impl Print, line: &[u8]) -> io::Result<()> {
    let from = byte_parts::find(line, 0, line.len(), b'#');
    rt.write_all(&line[from..])?;
    println!(rt; "")
}

fn shown(
    rt: &impl Print,
    look: Look,
    b: Bench,
    line: &[u8],
    heap: &[u8],
    table: &[u64],
) -> io::Result<()> {
    match look {
        Look::Comment => comment(rt, line),
        Look::Help => say::help(rt),
        Look::List => show::list(rt, b, table),
        Look::Dump => show::dump(rt, b, heap, table),
        Look::Check(room) => show::check(rt, b, heap, table, room),
        Look::Bytes(at, count) => show::bytes(rt, "ok", heap, at, count),
    }
}

// `id`: the first number of the order, the id that was read. `report`: a salvage's lines. `plan`: what a plan gives.
fn written(
    rt: &impl Print,
    turn: Turn,
    id: u64,
    line: &[u8],
    heap: &[u8],
    table: &[u64],
    report: &[u64; 512],
    plan: &[u64; 777],
) -> io::Result<()> {
    let b = turn.bench;
    let heap = lent(heap, b.heap_len);
    let table = lent(table, b.table_words);
    match turn.reply {
        Reply::BadLine => say::bad_line(rt),
        Reply::Answered(answer) => say::answer(rt, answer),
        Reply::Read(answer) => read(rt, answer, b, heap, table, id),
        Reply::Through(answer) => through(rt, answer, line, heap),
        Reply::Planned(answer) => show::planned(rt, answer, plan),
        Reply::Rewrote(answer) => say::rewrote(rt, answer),
        Reply::Maintained(answer) => say::maintained(rt, answer),
        Reply::Counted(answer) => counted(rt, answer),
        Reply::Marks(n) => say::named(rt, b"ok", n),
        Reply::Loaded(answer) => loaded(rt, answer),
        Reply::Compared(answer) => compared(rt, answer),
        Reply::Raised(answer) => raised(rt, answer),
        Reply::Salvaged(answer) => show::salvaged(rt, answer, report),
        Reply::Shown(look) => shown(rt, look, b, line, heap, table),
    }
}

// 256 lines.
fn report_words() -> [u64; 512]
    ensures { 512 ≡ length result }
{
    [0u64; 512]
}

// The words of a plan.
fn plan_words() -> [u64; 777]
    ensures { 777 ≡ length result }
{
    [0u64; 777]
}

// A line's command is done, whether or not its reply can be written.
pub fn after_line(
    rt: &impl Print,
    b: Bench,
    line: &[u8],
    decoded: &mut [u8],
    heap: &mut [u8],
    table: &mut [u64],
) -> (Bench, io::Result<()>)
    ensures runs { Ran (length decoded.old) line.now
        (desk b heap.old table.old)
        (desk result.0 heap.new table.new) }
    ensures decodes { decoded.new
        ≡ front (asked_by (length decoded.old) line.now).bytes decoded.old }
{
    let order = script::order_of(line, decoded);
    let count = order.length;
    let keyword = order.keyword;
    let numbers = order.numbers;
    let mut report = report_words();
    let mut plan = plan_words();
    let turn = desk::after_order(
        b,
        keyword,
        numbers,
        &decoded[..count],
        heap,
        table,
        &mut report,
        &mut plan,
    );
    let said = written(rt, turn, numbers[0], line, heap, table, &report, &plan);
    (turn.bench, said)
}
