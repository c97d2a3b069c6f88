// Heaps made by hand for a reopening: files of T 21 with two entries each; the object bytes, which a reopening does not read, stay.
ghost use Rattle.std.specs.Prelude.{◌+◌, ◌≤◌, length};

use crate::{host, show};
use rules::{Entry, Label};
use std::io;

// A file as its label and trailer say: two entries stand there whatever the count.
#[derive(Clone, Copy)]
pub struct TwoEntries {
    pub lsn: u64,
    pub count: u64,
    pub first: Entry,
    pub second: Entry,
}

fn label_of(lsn: u64) -> Label {
    file_map::labelled(lsn, 21, 65, 2, 0)
}

// The number of stores is above what a file takes, so all are made.
fn put(heap: &mut [u8], start: usize, f: TwoEntries)
    requires { start + 129 ≤ length heap.old }
{
    let register = trailer::write::sum_entry(trailer::write::sum_count(f.count), f.first);
    let sum = trailer::write::sum_end(trailer::write::sum_entry(register, f.second));
    trailer::write::put_head(heap, start + 85, sum, f.count, 1000);
    trailer::write::put_entry(heap, start + 97, f.first, 1000);
    trailer::write::put_entry(heap, start + 113, f.second, 1000);
    slot_writer::label::put(heap, start, label_of(f.lsn), 1000);
}

fn show_made(rt: &impl Print, f: TwoEntries) -> io::Result<()> {
    test_host::text(rt, b"file")?;
    test_host::number(rt, f.lsn)?;
    test_host::number(rt, f.count)?;
    test_host::number(rt, f.first.id)?;
    test_host::number(rt, f.first.location)?;
    test_host::number(rt, f.second.id)?;
    test_host::number(rt, f.second.location)?;
    test_host::text(rt, b"\n")
}

pub fn made(lsn: u64, count: u64, first: Entry, second: Entry) -> TwoEntries {
    TwoEntries {
        lsn: lsn,
        count: count,
        first: first,
        second: second,
    }
}

pub fn entry(id: u64, location: u64) -> Entry {
    Entry {
        id: id,
        location: location,
    }
}

pub fn one(rt: &impl Print, f: TwoEntries) -> io::Result<()> {
    let mut heap = [0u8; 512];
    let mut table = [0u64; 8];
    show_made(rt, f)?;
    put(&mut heap, 0, f);
    host::reopen(rt, &heap, &mut table)?;
    Ok(())
}

// The table's length is the caller's.
pub fn two(rt: &impl Print, f: TwoEntries, g: TwoEntries, table: &mut [u64]) -> io::Result<()> {
    let mut heap = [0u8; 512];
    show_made(rt, f)?;
    show_made(rt, g)?;
    put(&mut heap, 0, f);
    put(&mut heap, 256, g);
    host::reopen(rt, &heap, table)?;
    Ok(())
}

fn changed(b: u8, flip: bool) -> u8 {
    if flip { !b } else { b.wrapping_add(1) }
}

fn damage(heap: &mut [u8], at: usize, flip: bool) {
    if at < heap.len() {
        heap[at] = changed(heap[at], flip);
    }
}

// Label and trailer of line P10 with one byte changed.
pub fn damaged(rt: &impl Print, at: usize, flip: bool) -> io::Result<()> {
    let mut heap = [0u8; 512];
    let mut table = [0u64; 8];
    put(
        &mut heap,
        0,
        made(4611686018427387905, 2, entry(7, 0), entry(9, 43)),
    );
    damage(&mut heap, at, flip);
    let r = host::opened(&heap, &mut table);
    let answer = r.answer;
    show::answer(rt, answer)
}
