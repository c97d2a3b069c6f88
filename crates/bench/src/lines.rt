// Standard input, cut into lines, each answered in its turn.
ghost use Rattle.std.specs.Prelude.{◌≡◌, List, ℕ, ◌≤◌, length};
ghost use Rattle.desk.specs.Desk.{desk};
ghost use Rattle.desk.specs.Commands.{fresh_bench};
ghost use Rattle.bench.specs.Buffer.{held_of};
ghost use Rattle.bench.specs.Input.{FedTo, last_done, line_done, told};

use crate::line_buffer::LineBuffer;
use desk::Bench;
use std::io;

// The first failure of a write stays.
fn note(written: &mut io::Result<()>, said: io::Result<()>) {
    if written.is_ok() {
        *written = said;
    }
}

// A whole line is answered.
fn answered(
    rt: &impl Print,
    written: &mut io::Result<()>,
    b: Bench,
    line: &LineBuffer<'_>,
    decoded: &mut [u8],
    heap: &mut [u8],
    table: &mut [u64],
) -> Bench
    ensures { (text : List ℕ)
        → line.now.line ≡ held_of line.now.cap text
        → desk result heap.new table.new
        ≡ line_done line.now.cap (length decoded.old) text
        (desk b heap.old table.old) }
{
    match line.text() {
        None => {
            note(written, crate::say::bad_line(rt));
            b
        }
        Some(text) => {
            let (after, said) = crate::commands::after_line(rt, b, text, decoded, heap, table);
            note(written, said);
            after
        }
    }
}

// Each line of the input is answered when its end is met; what is behind the last end is held.
fn lines_in(
    rt: &impl Print,
    written: &mut io::Result<()>,
    bench: Bench,
    input: &[u8],
    line: &mut LineBuffer<'_>,
    decoded: &mut [u8],
    heap: &mut [u8],
    table: &mut [u64],
) -> Bench
    ensures cap { line.new.cap ≡ line.old.cap }
    ensures feeds { (text : List ℕ)
        → line.old.line ≡ held_of line.old.cap text
        → FedTo line.old.cap (length decoded.old) input.now text
        (desk bench heap.old table.old)
        line.new.line
        (desk result heap.new table.new) }
{
    let mut b = bench;
    let mut from: usize = 0;
    while from < input.len() {
        let end = byte_parts::find(input, from, input.len(), b'\n');
        line.push_all(&input[from..end]);
        if end < input.len() {
            b = answered(rt, written, b, line, decoded, heap, table);
            line.clear();
        }
        from = end + 1;
    }
    b
}

// The next bytes of standard input: none at its end, or where it cannot be read.
fn read_some(rt: &impl Input, input: &mut [u8]) -> usize
    ensures { result ≤ length input.new }
{
    standard_input::read_some(&mut rt.reader(), input)
}

// A last line without its end counts.
fn finished(
    rt: &impl Print,
    written: &mut io::Result<()>,
    b: Bench,
    line: &LineBuffer<'_>,
    decoded: &mut [u8],
    heap: &mut [u8],
    table: &mut [u64],
) -> Bench
    ensures { (text : List ℕ)
        → line.now.line ≡ held_of line.now.cap text
        → desk result heap.new table.new
        ≡ last_done line.now.cap (length decoded.old) text
        (desk b heap.old table.old) }
{
    if line.is_empty() {
        return b;
    }
    answered(rt, written, b, line, decoded, heap, table)
}

// Some input is told to the desk at the start: which, cannot be stated, since the kit states nothing of the bytes that are read.
// `written`: the first failure of a write, after which the lines go on.
pub fn run_all(
    rt: &(impl Print + Input),
    written: &mut io::Result<()>,
    input: &mut [u8],
    line: &mut [u8],
    decoded: &mut [u8],
    heap: &mut [u8],
    table: &mut [u64],
) -> Bench
    ensures { (bytes : List ℕ)
        × (desk result heap.new table.new
        ≡ told (length line.old) (length decoded.old) bytes
        (desk fresh_bench heap.old table.old)) }
{
    let mut reading = LineBuffer::new(line);
    let mut b = desk::start();
    // A proved loop has to end, and nothing says that the input does: this number of turns no run uses up.
    for _ in 0..u64::MAX {
        let n = read_some(rt, input);
        if n == 0 {
            break;
        }
        b = lines_in(
            rt,
            written,
            b,
            &input[..n],
            &mut reading,
            decoded,
            heap,
            table,
        );
    }
    finished(rt, written, b, &reading, decoded, heap, table)
}
