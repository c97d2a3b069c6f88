// Looking: the listing, everything, what is wrong with the heap, what a salvage gave up, what a plan gives, bytes.
ghost use Rattle.std.specs.Prelude.{◌≡◌, length};
ghost use Rattle.rules.specs.Layout.{used_entries};
ghost use Rattle.rules.specs.Listing.{written_in};

use crate::say;
use desk::Bench;
use rules::{Claims, FileMap, RECORDS, Record, Refusal};
use std::io;

// "slot lsn gen present live size"
fn file_line(rt: &impl Print, slot: usize, r: Record) -> io::Result<()> {
    if file_map::is_empty(r) {
        return Ok(());
    }
    println!(rt;
        "{slot} {} {} {} {} {}",
        r.label.lsn, r.label.generation, r.label.present_objects, r.live, r.label.file_size
    )
}

fn file_lines(rt: &impl Print, files: FileMap) -> io::Result<()> {
    for (slot, r) in files.records.iter().enumerate() {
        file_line(rt, slot, *r)?;
    }
    Ok(())
}

// Ids whose load is not never: the entries up to the first location 0.
fn used(table: &[u64]) -> usize
    ensures { result ≡ length (written_in (used_entries table.now)) }
{
    let n = location_table::capacity(table);
    for k in 0..n {
        if location_table::location_at(table, k) == 0 {
            return k;
        }
    }
    n
}

pub fn list(rt: &impl Print, b: Bench, table: &[u64]) -> io::Result<()> {
    println!(rt; "slot lsn gen present live size")?;
    file_lines(rt, b.state.files)?;
    say::named(rt, b"ids", used(table) as u64)
}

fn record_line(rt: &impl Print, slot: usize, r: Record) -> io::Result<()> {
    if file_map::is_empty(r) {
        return Ok(());
    }
    println!(rt;
        "record {slot} {} {} {} {} {} {} {}",
        r.label.lsn,
        r.label.trailer_offset,
        r.label.file_size,
        r.label.present_objects,
        r.label.generation,
        r.live,
        r.synced
    )
}

fn record_lines(rt: &impl Print, files: FileMap) -> io::Result<()> {
    for (slot, r) in files.records.iter().enumerate() {
        record_line(rt, slot, *r)?;
    }
    Ok(())
}

fn claimed_lines(rt: &impl Print, c: Claims) -> io::Result<()> {
    for slot in 0..RECORDS as u64 {
        if claims::is_claimed(c, slot) {
            say::named(rt, b"claimed", slot)?;
        }
    }
    Ok(())
}

fn entry_lines(rt: &impl Print, table: &[u64]) -> io::Result<()> {
    for k in 0..location_table::capacity(table) {
        let id = location_table::id_at(table, k);
        let location = location_table::location_at(table, k);
        if id != 0 || location != 0 {
            println!(rt; "entry {k} {id} {location}")?;
        }
    }
    Ok(())
}

pub fn dump(rt: &impl Print, b: Bench, heap: &[u8], table: &[u64]) -> io::Result<()> {
    say::named(rt, b"next", b.state.next_position)?;
    record_lines(rt, b.state.files)?;
    claimed_lines(rt, b.claims)?;
    entry_lines(rt, table)?;
    println!(rt; "heap {}\nend", checksum::sum(heap))
}

// "fault SLOT NUMBER", and the position of an object where there is one.
fn fault_line(rt: &impl Print, line: &[u64; 4]) -> io::Result<()> {
    let [slot, refusal, placed, position] = *line;
    if placed == 0 {
        println!(rt; "fault {slot} {refusal}")
    } else {
        println!(rt; "fault {slot} {refusal} {position}")
    }
}

// Each line that fits, then how many there are.
fn faults(rt: &impl Print, count: u64, listing: &[u64]) -> io::Result<()> {
    let (lines, _) = listing.as_chunks::<4>();
    for line in lines.iter().take(count as usize) {
        fault_line(rt, line)?;
    }
    say::named(rt, b"ok", count)
}

fn checked(rt: &impl Print, answer: Result<u64, Refusal>, listing: &[u64]) -> io::Result<()> {
    match answer {
        Ok(count) => faults(rt, count, listing),
        Err(r) => say::refused(rt, r),
    }
}

// 4,096 lines.
fn listing_words() -> [u64; 16384]
    ensures { 16384 ≡ length result }
{
    [0u64; 16384]
}

// So many lines are lent.
pub fn check(rt: &impl Print, b: Bench, heap: &[u8], table: &[u64], room: u64) -> io::Result<()> {
    let mut words = listing_words();
    let end = (room as usize).min(4096) * 4;
    let answer = marble::check(b.settings, heap, table, &mut words[..end]);
    checked(rt, answer, &words[..end])
}

// "gave SLOT NUMBER" for each slot given up, then how many there are.
fn losses(rt: &impl Print, count: u64, report: &[u64]) -> io::Result<()> {
    let (lines, _) = report.as_chunks::<2>();
    for line in lines.iter().take(count as usize) {
        let [slot, refusal] = *line;
        println!(rt; "gave {slot} {refusal}")?;
    }
    say::named(rt, b"ok", count)
}

pub fn salvaged(
    rt: &impl Print,
    answer: Result<u64, Refusal>,
    report: &[u64; 512],
) -> io::Result<()> {
    match answer {
        Ok(count) => losses(rt, count, report),
        Err(r) => say::refused(rt, r),
    }
}

// "group G SLOT ..", unless the group is empty: how many slots, then the slots.
fn group_line(rt: &impl Print, generation: u64, group: &[u64; 257]) -> io::Result<()> {
    let count = group[0] as usize;
    if count == 0 {
        return Ok(());
    }
    print!(rt; "group {generation}")?;
    for slot in group[1..].iter().take(count) {
        print!(rt; " {slot}")?;
    }
    println!(rt; "")
}

// "foretold N G", unless both are 0.
fn foretold_line(rt: &impl Print, refusal: u64, generation: u64) -> io::Result<()> {
    if refusal == 0 && generation == 0 {
        return Ok(());
    }
    println!(rt; "foretold {refusal} {generation}")
}

// "ok MARK COUNT FILES BYTES" behind what there is of groups and of a refusal.
fn plan_lines(rt: &impl Print, plan: &[u64; 777]) -> io::Result<()> {
    let (groups, _) = plan[6..].as_chunks::<257>();
    for (i, group) in groups.iter().enumerate() {
        group_line(rt, i as u64 + 1, group)?;
    }
    foretold_line(rt, plan[4], plan[5])?;
    println!(rt; "ok {} {} {} {}", plan[0], plan[1], plan[2], plan[3])
}

pub fn planned(rt: &impl Print, answer: Result<(), Refusal>, plan: &[u64; 777]) -> io::Result<()> {
    match answer {
        Ok(()) => plan_lines(rt, plan),
        Err(r) => say::refused(rt, r),
    }
}

// A word, then bytes of a buffer: the command has seen that they are there.
pub fn bytes(rt: &impl Print, word: &str, buffer: &[u8], at: u64, count: u64) -> io::Result<()> {
    let from = (at as usize).min(buffer.len());
    let n = (count as usize).min(buffer.len() - from);
    say::named_bytes(rt, word, &buffer[from..from + n])
}
