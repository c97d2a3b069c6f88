// Writes, reads and reopenings on small stores, a call to a line. What it must write (stdout) is what tests/oracle/cases.py,
// the same cases on a model of the paper that shares nothing with this code, writes.

#![tactic(auto)]

mod heaps;
mod host;
mod show;

use heaps::{entry, made};
use rules::State;
use std::io;

fn reads(rt: &impl Print, state: State, heap: &[u8], table: &[u64]) -> io::Result<()> {
    host::read(rt, state, heap, table, 7)?;
    host::read(rt, state, heap, table, 9)?;
    host::read(rt, state, heap, table, 5)
}

// Line P10.
fn p10(rt: &impl Print) -> io::Result<()> {
    let mut heap = [0u8; 512];
    let mut table = [0u64; 8];
    let fresh = host::reopen(rt, &heap, &mut table)?;
    let state = host::write(
        rt,
        fresh,
        &mut heap,
        &mut table,
        b"\x07\x01\x01\x41\x09\x00",
    )?;
    reads(rt, state, &heap, &table)?;
    let again = host::reopen(rt, &heap, &mut table)?;
    host::read(rt, again, &heap, &table, 7)
}

// A batch on a fresh store, then the store reopened and id 7 read.
fn alone(rt: &impl Print, batch: &[u8]) -> io::Result<()> {
    let mut heap = [0u8; 512];
    let mut table = [0u64; 8];
    let fresh = host::fresh(&heap, &mut table);
    host::write(rt, fresh, &mut heap, &mut table, batch)?;
    let state = host::reopen(rt, &heap, &mut table)?;
    host::read(rt, state, &heap, &table, 7)
}

// Three batches, one after the other, from a next position set by hand.
fn three(rt: &impl Print, next: u64, a: &[u8], b: &[u8], c: &[u8]) -> io::Result<()> {
    let mut heap = [0u8; 512];
    let mut table = [0u64; 8];
    let mut state = host::fresh(&heap, &mut table);
    state.next_position = next;
    state = host::write(rt, state, &mut heap, &mut table, a)?;
    state = host::write(rt, state, &mut heap, &mut table, b)?;
    state = host::write(rt, state, &mut heap, &mut table, c)?;
    host::read(rt, state, &heap, &table, 7)?;
    let again = host::reopen(rt, &heap, &mut table)?;
    host::read(rt, again, &heap, &table, 7)
}

// The last operation on an id counts: put and put, put and delete, delete and put, among others.
fn repeated_ids(rt: &impl Print) -> io::Result<()> {
    alone(rt, b"\x07\x01\x01A\x07\x01\x02BC")?;
    alone(rt, b"\x07\x01\x01A\x07\x00")?;
    alone(rt, b"\x07\x00\x07\x01\x01A")?;
    alone(
        rt,
        b"\x07\x01\x01A\x05\x01\x01B\x07\x01\x01C\x05\x00\x03\x00",
    )
}

// Nothing, a delete of an id never put, the greatest id, an empty body.
fn small_batches(rt: &impl Print) -> io::Result<()> {
    alone(rt, b"")?;
    alone(rt, b"\x05\x00")?;
    alone(rt, b"\xff\xff\xff\xff\xff\xff\xff\xff\xff\x01\x00")?;
    alone(rt, b"\x07\x01\x00")?;
    alone(rt, b"\x05\x01\x00\x07\x01\x00\x09\x01\x01A")
}

// Every beginning of a batch, the whole of it last.
fn beginnings(rt: &impl Print, batch: &[u8]) -> io::Result<()> {
    for n in 0..=batch.len() {
        alone(rt, &batch[..n])?;
    }
    Ok(())
}

// Ids 300 (put), 7 (put), 300 (delete).
fn cut_short(rt: &impl Print) -> io::Result<()> {
    beginnings(rt, b"\xac\x02\x01\x02AB\x07\x01\x01C\xac\x02\x00")
}

// Tag 2; a number not in its shortest form; lengths of 2^32, 2^63 and 2^64 - 1; an id and a length over 64 bits.
fn wrong_bytes(rt: &impl Print) -> io::Result<()> {
    alone(rt, b"\x07\x02")?;
    alone(rt, b"\x87\x00\x00")?;
    alone(rt, b"\x07\x01\x81\x00A")?;
    alone(rt, b"\x07\x01\x80\x80\x80\x80\x10A")?;
    alone(rt, b"\x07\x01\x80\x80\x80\x80\x80\x80\x80\x80\x80\x01A")?;
    alone(rt, b"\x07\x01\xff\xff\xff\xff\xff\xff\xff\xff\xff\x01A")?;
    alone(rt, b"\xff\xff\xff\xff\xff\xff\xff\xff\xff\x02\x00")?;
    alone(rt, b"\x07\x01\x80\x80\x80\x80\x80\x80\x80\x80\x80\x02A")
}

// 31 and 32 bytes under a max_object_size of 32; one of 32 that is overridden; one of 32 in front of wrong bytes.
fn object_sizes(rt: &impl Print) -> io::Result<()> {
    alone(rt, b"\x07\x01\x1fABCDEFGHIJKLMNOPQRSTUVWXYZ01234")?;
    alone(rt, b"\x07\x01\x20ABCDEFGHIJKLMNOPQRSTUVWXYZ012345")?;
    alone(rt, b"\x07\x01\x20ABCDEFGHIJKLMNOPQRSTUVWXYZ012345\x07\x00")?;
    alone(rt, b"\x07\x01\x20ABCDEFGHIJKLMNOPQRSTUVWXYZ012345\x07")
}

// A file of 192 bytes fills its slot; one of 193 is too long.
fn slot_room(rt: &impl Print) -> io::Result<()> {
    alone(
        rt,
        b"\x05\x01\x1fABCDEFGHIJKLMNOPQRSTUVWXYZ01234\x07\x01\x1fabcdefghijklmnopqrstuvwxyz56789\x09\x01\x0a0123456789",
    )?;
    alone(
        rt,
        b"\x05\x01\x1fABCDEFGHIJKLMNOPQRSTUVWXYZ01234\x07\x01\x1fabcdefghijklmnopqrstuvwxyz56789\x09\x01\x0b0123456789A",
    )
}

// A third file in two slots; a replaced put, a delete of it, in the second.
fn full_heap(rt: &impl Print) -> io::Result<()> {
    three(
        rt,
        1,
        b"\x07\x01\x01A\x09\x00",
        b"\x07\x01\x01B\x05\x00",
        b"\x07\x00",
    )?;
    three(
        rt,
        1,
        b"\x07\x01\x01A\x09\x00",
        b"\x07\x00\x09\x01\x01C",
        b"",
    )
}

// Four ids in a table of four, then a fifth; five at once; four again.
fn full_table(rt: &impl Print) -> io::Result<()> {
    three(
        rt,
        1,
        b"\x01\x00\x02\x00\x03\x00\x07\x01\x01A",
        b"\x07\x00\x05\x00",
        b"\x07\x00\x02\x01\x01B",
    )?;
    alone(rt, b"\x01\x00\x02\x00\x03\x00\x04\x00\x05\x00")
}

// The last positions: base + T + 1 is 2^62, and one more.
fn positions(rt: &impl Print) -> io::Result<()> {
    three(
        rt,
        4611686018427387882,
        b"\x07\x01\x01A\x09\x00",
        b"\x05\x00",
        b"",
    )?;
    three(
        rt,
        4611686018427387883,
        b"\x07\x01\x01A\x09\x00",
        b"\x05\x00",
        b"",
    )?;
    three(
        rt,
        18446744073709551615,
        b"\x07\x01\x01A\x09\x00",
        b"\x05\x00",
        b"",
    )?;
    three(rt, 0, b"\x07\x01\x01A\x09\x00", b"\x05\x00", b"")
}

// One more than it was, then its complement.
fn one_byte(rt: &impl Print, at: usize) -> io::Result<()> {
    test_host::text(rt, b"byte")?;
    test_host::number(rt, at as u64)?;
    heaps::damaged(rt, at, false)?;
    heaps::damaged(rt, at, true)?;
    test_host::text(rt, b"\n")
}

fn each_byte(rt: &impl Print, start: usize, end: usize) -> io::Result<()> {
    for at in start..end {
        one_byte(rt, at)?;
    }
    Ok(())
}

// The label, the last object byte, which a reopening does not read, the trailer, a byte behind the file.
fn every_byte(rt: &impl Print) -> io::Result<()> {
    each_byte(rt, 0, 64)?;
    each_byte(rt, 84, 130)
}

// Counts of 1, 2 and 3; T is 21: an object past it, at it and at T - 19, a delete past it; an id twice, rising and not, and as object and
// delete of one position.
fn trailers(rt: &impl Print) -> io::Result<()> {
    heaps::one(rt, made(1, 1, entry(7, 0), entry(9, 43)))?;
    heaps::one(rt, made(1, 2, entry(7, 0), entry(9, 43)))?;
    heaps::one(rt, made(1, 3, entry(7, 0), entry(9, 43)))?;
    heaps::one(rt, made(1, 2, entry(7, 0), entry(9, 44)))?;
    heaps::one(rt, made(1, 2, entry(7, 0), entry(7, 42)))?;
    heaps::one(rt, made(1, 2, entry(7, 0), entry(9, 4)))?;
    heaps::one(rt, made(1, 2, entry(7, 0), entry(9, 45)))?;
    heaps::one(rt, made(1, 2, entry(7, 0), entry(7, 2)))?;
    heaps::one(rt, made(1, 2, entry(7, 2), entry(7, 0)))?;
    heaps::one(rt, made(1, 2, entry(7, 2), entry(7, 3)))?;
    heaps::one(rt, made(1, 2, entry(9, 0), entry(7, 2)))
}

// Two files of the same ids, in a table of four.
fn pair(rt: &impl Print, first: u64, second: u64) -> io::Result<()> {
    let mut table = [0u64; 8];
    heaps::two(
        rt,
        made(first, 2, entry(7, 0), entry(9, 43)),
        made(second, 2, entry(5, 1), entry(7, 2)),
        &mut table,
    )
}

// Ranges that meet in one position, that touch, in both orders; the batch bit aside; a rewritten file after a batch file (line P5).
fn overlaps(rt: &impl Print) -> io::Result<()> {
    pair(rt, 1, 1)?;
    pair(rt, 1, 22)?;
    pair(rt, 1, 23)?;
    pair(rt, 23, 1)?;
    pair(rt, 22, 1)?;
    pair(rt, 4611686018427387905, 22)?;
    pair(rt, 4611686018427387905, 23)?;
    pair(rt, 4611686018427388005, 205)?;
    pair(rt, 205, 4611686018427388005)
}

// Three ids in a table of three, then of two.
fn table_room(rt: &impl Print) -> io::Result<()> {
    let mut table = [8u64; 6];
    let f = made(1, 2, entry(7, 0), entry(9, 43));
    let g = made(30, 2, entry(5, 1), entry(7, 2));
    heaps::two(rt, f, g, &mut table)?;
    let mut few = [8u64; 4];
    heaps::two(rt, f, g, &mut few)
}

// Slots empty by their first byte alone: what follows is not looked at, and stays behind a file.
fn stale_bytes(rt: &impl Print) -> io::Result<()> {
    let mut heap = [238u8; 512];
    let mut table = [0u64; 8];
    heap[0] = 0;
    heap[256] = 0;
    let fresh = host::reopen(rt, &heap, &mut table)?;
    host::write(rt, fresh, &mut heap, &mut table, b"\x07\x01\x01A\x09\x00")?;
    let state = host::reopen(rt, &heap, &mut table)?;
    host::read(rt, state, &heap, &table, 7)
}

fn main(rt: HostRuntime) -> io::Result<()> {
    p10(&rt)?;
    repeated_ids(&rt)?;
    small_batches(&rt)?;
    cut_short(&rt)?;
    wrong_bytes(&rt)?;
    object_sizes(&rt)?;
    slot_room(&rt)?;
    full_heap(&rt)?;
    full_table(&rt)?;
    positions(&rt)?;
    every_byte(&rt)?;
    trailers(&rt)?;
    overlaps(&rt)?;
    table_room(&rt)?;
    stale_bytes(&rt)
}
