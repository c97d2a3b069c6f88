// The listing: line P10's batch written to a fresh store, and a line for each of its files.

#![tactic(auto)]

ghost use Rattle.std.specs.Prelude.{◌≡◌, length};

use rules::{FileMap, Record, Settings, State};
use std::io;
use test_host::{no_claims, no_state};

// An empty record has no line.
fn show_file(rt: &impl Print, slot: usize, r: Record) -> io::Result<()> {
    if file_map::is_empty(r) {
        return Ok(());
    }
    println!(rt;
        "{slot} {} {} {} {} {}",
        r.label.lsn, r.label.generation, r.label.present_objects, r.live, r.label.file_size
    )
}

fn show(rt: &impl Print, files: FileMap, used: usize) -> io::Result<()> {
    println!(rt; "slot lsn gen present live size")?;
    for (slot, r) in files.records.iter().enumerate() {
        show_file(rt, slot, *r)?;
    }
    println!(rt; "ids {used}")
}

// A store that refusal 1 bars has no listing.
fn list(
    rt: &impl Print,
    settings: Settings,
    state: State,
    heap: &[u8],
    table: &[u64],
) -> io::Result<()> {
    if marble::refused(settings, heap.len() as u64, table, state) {
        return Ok(());
    }
    show(rt, state.files, location_table::used(table))
}

fn heap_bytes() -> [u8; 4096]
    ensures { 4096 ≡ length result }
{
    [0u8; 4096]
}

fn written(settings: Settings, heap: &mut [u8], table: &mut [u64], batch: &[u8]) -> State {
    let fresh = marble::reopen(settings, no_state(settings), no_claims(), heap, table);
    let opened = fresh.state;
    let after = marble::write(settings, opened, heap, table, batch);
    after.state
}

fn main(rt: HostRuntime) -> io::Result<()> {
    let mut heap = heap_bytes();
    let mut table = [0u64; 8];
    let settings = marble::defaults();
    let state = written(settings, &mut heap, &mut table, b"\x07\x01\x01\x41\x09\x00");
    list(&rt, settings, state, &heap, &table)
}
