// One file, that of line P10, written with right and with wrong numbers and cut off after every store: what its slot then shows.

#![tactic(auto)]

ghost use Rattle.std.specs.Prelude.{◌≤◌, ◌<◌, length};

use as_numbers::answers::refusal_number;
use rules::{Entry, Label};
use std::io;
use stored_object::Step;
use test_host::{number, text};

fn end_line(rt: &impl Print) -> io::Result<()> {
    text(rt, b"\n")
}

fn show_label(rt: &impl Print, l: Label) -> io::Result<()> {
    text(rt, b"holds")?;
    number(rt, l.lsn)?;
    number(rt, l.trailer_offset)?;
    number(rt, l.file_size)?;
    number(rt, l.present_objects)?;
    number(rt, l.generation)
}

fn show_slot(rt: &impl Print, slot: &[u8]) -> io::Result<()> {
    match slot_file::slot::check(slot) {
        Ok(None) => text(rt, b"empty")?,
        Err(refusal) => {
            text(rt, b"damaged")?;
            number(rt, refusal_number(refusal))?;
        }
        Ok(Some(l)) => show_label(rt, l)?,
    }
    end_line(rt)
}

fn show_body(rt: &impl Print, file: &[u8], position: u64, id: u64) -> io::Result<()> {
    match stored_object::object::read(file, position, id) {
        Ok((start, size)) => {
            text(rt, b"body")?;
            number(rt, start)?;
            number(rt, size)?;
        }
        Err(refusal) => {
            text(rt, b"refused")?;
            number(rt, refusal_number(refusal))?;
        }
    }
    end_line(rt)
}

fn show_step(rt: &impl Print, objects: &[u8], position: u64) -> io::Result<()> {
    match stored_object::object::step(objects, position) {
        Step::End => text(rt, b"end")?,
        Step::HeaderCut => text(rt, b"cut")?,
        Step::Here(h) => {
            text(rt, b"object")?;
            number(rt, h.id)?;
            number(rt, h.size)?;
            number(rt, h.room)?;
        }
    }
    end_line(rt)
}

fn show_byte(rt: &impl Print, b: u8) -> io::Result<()> {
    print!(rt; "{b:02x}")
}

fn show_bytes(rt: &impl Print, slot: &[u8], n: usize) -> io::Result<()>
    requires { n ≤ length slot.now }
{
    for b in &slot[..n] {
        show_byte(rt, *b)?;
    }
    end_line(rt)
}

// The file of object 7 ("A") and of the delete of 9: 65 bytes behind the label, 129 stores.
fn write_file(heap: &mut [u8], count: u64, raw: u64, l: Label, left: u64) -> u64
    requires { 192 ≤ length heap.old }
{
    let object = Entry { id: 7, location: 0 };
    let delete = Entry {
        id: 9,
        location: raw,
    };
    let register = trailer::write::sum_entry(trailer::write::sum_count(count), object);
    let sum = trailer::write::sum_end(trailer::write::sum_entry(register, delete));
    let a = slot_writer::put_object(heap, 64, 7, b"A", left);
    let b = trailer::write::put_head(heap, 85, sum, count, a);
    let c = trailer::write::put_entry(heap, 97, object, b);
    let d = trailer::write::put_entry(heap, 113, delete, c);
    slot_writer::label::put(heap, 0, l, d)
}

fn p10() -> Label {
    file_map::labelled(4611686018427387905, 21, 65, 2, 0)
}

fn show_written(rt: &impl Print, count: u64, raw: u64, l: Label) -> io::Result<()> {
    let mut heap = [0u8; 192];
    write_file(&mut heap, count, raw, l, 129);
    show_slot(rt, &heap)
}

fn poke(heap: &mut [u8], at: usize, b: u8)
    requires { at < length heap.old }
{
    heap[at] = b;
}

// A body's byte, one of the trailer, one behind the label's numbers, the label's first.
fn changed_by_hand(rt: &impl Print, heap: &mut [u8]) -> io::Result<()>
    requires { 192 ≤ length heap.old }
{
    poke(heap, 84, 66);
    show_slot(rt, heap)?;
    show_body(rt, &heap[64..129], 0, 7)?;
    poke(heap, 128, 1);
    show_slot(rt, heap)?;
    poke(heap, 63, 1);
    show_slot(rt, heap)?;
    poke(heap, 0, 0);
    show_slot(rt, heap)
}

fn show_objects(rt: &impl Print, slot: &[u8]) -> io::Result<()>
    requires { 192 ≤ length slot.now }
{
    show_body(rt, &slot[64..129], 0, 7)?;
    show_body(rt, &slot[64..129], 0, 8)?;
    show_body(rt, &slot[64..129], 21, 7)?;
    show_body(rt, &slot[64..129], 46, 7)?;
    show_body(rt, &slot[64..129], 18446744073709551615, 7)?;
    show_step(rt, &slot[64..85], 0)?;
    show_step(rt, &slot[64..85], 2)?;
    show_step(rt, &slot[64..85], 21)
}

// The whole file, byte for byte, and its objects.
fn whole(rt: &impl Print) -> io::Result<()> {
    let mut heap = [0u8; 192];
    show_slot(rt, &heap)?;
    number(rt, write_file(&mut heap, 2, 43, p10(), 200))?;
    end_line(rt)?;
    show_slot(rt, &heap)?;
    show_bytes(rt, &heap, 129)?;
    show_objects(rt, &heap)?;
    changed_by_hand(rt, &mut heap)
}

fn wrong_numbers(rt: &impl Print) -> io::Result<()> {
    let l = p10();
    show_written(rt, 3, 43, l)?;
    show_written(rt, 2, 45, l)?;
    let mut s = l;
    s.present_objects = 3;
    show_written(rt, 2, 43, s)?;
    s = l;
    s.file_size = 40;
    show_written(rt, 2, 43, s)?;
    s.file_size = 128;
    show_written(rt, 2, 43, s)?;
    s.file_size = 129;
    show_written(rt, 2, 43, s)?;
    s = l;
    s.trailer_offset = 66;
    show_written(rt, 2, 43, s)?;
    s = l;
    s.lsn = 4611686018427387904;
    show_written(rt, 2, 43, s)?;
    s.lsn = 9223372036854775809;
    show_written(rt, 2, 43, s)?;
    s.lsn = 9223372036854775787;
    show_written(rt, 2, 43, s)?;
    s.lsn = 9223372036854775786;
    show_written(rt, 2, 43, s)?;
    s = l;
    s.generation = 255;
    show_written(rt, 2, 43, s)?;
    s.generation = 256;
    show_written(rt, 2, 43, s)
}

// Whether the first k stores leave the slot empty.
fn is_empty_after(k: u64) -> bool {
    let mut heap = [0u8; 192];
    write_file(&mut heap, 2, 43, p10(), k);
    matches!(slot_file::slot::check(&heap), Ok(None))
}

// Power pulled after each of the 129 stores.
fn cut_off(rt: &impl Print) -> io::Result<()> {
    let n = (0..200).filter(|k| is_empty_after(*k)).count();
    text(rt, b"empty after")?;
    number(rt, n as u64)?;
    end_line(rt)
}

// Slots of 192 bytes, one behind the other.
fn show_slots(rt: &impl Print, slots: &[u8]) -> io::Result<()> {
    for slot in slots.chunks_exact(192) {
        show_slot(rt, slot)?;
    }
    Ok(())
}

// Files that the original wrote, damaged copies of each, and entries around T: tests/oracle/slots.py made them,
// with the answers of its model.
fn made_slots(rt: &(impl Print + Input)) -> io::Result<()> {
    let mut slots = standard_input::large_buffer();
    let n = standard_input::read_full(rt, &mut slots);
    show_slots(rt, &slots[..n])
}

fn main(rt: HostRuntime) -> io::Result<()> {
    whole(&rt)?;
    wrong_numbers(&rt)?;
    cut_off(&rt)?;
    made_slots(&rt)
}
