// What the test programs share: a store before its first reopening, and a store on one line.

#![tactic(auto)]

use as_numbers::answers::refusal_number;
use rules::{Claims, FileMap, Record, Refusal, Settings, State};
use std::io;

// What a host has before its first reopening.
pub fn no_state(settings: Settings) -> State {
    file_map::state_of(settings, 0, 0, file_map::no_files(), 0)
}

pub fn no_claims() -> Claims {
    Claims {
        a: 0,
        b: 0,
        c: 0,
        d: 0,
    }
}

pub fn text(rt: &impl Print, s: &[u8]) -> io::Result<()> {
    rt.write_all(s)
}

pub fn number(rt: &impl Print, n: u64) -> io::Result<()> {
    print!(rt; " {n}")
}

pub fn refused(rt: &impl Print, r: Refusal) -> io::Result<()> {
    print!(rt; " refused {}", refusal_number(r))
}

// An empty record shows nothing.
fn file(rt: &impl Print, slot: usize, r: Record) -> io::Result<()> {
    if file_map::is_empty(r) {
        return Ok(());
    }
    print!(rt;
        " file {slot} {} {} {} {} {} {} {}",
        r.label.lsn,
        r.label.trailer_offset,
        r.label.file_size,
        r.label.present_objects,
        r.label.generation,
        r.live,
        r.synced
    )
}

fn files(rt: &impl Print, m: FileMap) -> io::Result<()> {
    for (slot, r) in m.records.iter().enumerate() {
        file(rt, slot, *r)?;
    }
    Ok(())
}

// Every second word, from the first or the next one on.
fn every_second(rt: &impl Print, table: &[u64], from: usize) -> io::Result<()> {
    for word in table.iter().skip(from).step_by(2) {
        number(rt, *word)?;
    }
    Ok(())
}

// Next position, files, table, and the checksum of the whole heap.
pub fn store(rt: &impl Print, state: State, heap: &[u8], table: &[u64]) -> io::Result<()> {
    print!(rt; " next {}", state.next_position)?;
    files(rt, state.files)?;
    text(rt, b" ids")?;
    every_second(rt, table, 0)?;
    text(rt, b" locations")?;
    every_second(rt, table, 1)?;
    println!(rt; " heap {}", checksum::sum(heap))
}
