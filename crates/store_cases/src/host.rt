// The host of every case: two slots of 256 bytes, objects under 32 bytes, each call shown on a line.
use crate::show;
use recovery::Reopened;
use rules::{Settings, State};
use std::io;
use test_host::{no_claims, no_state};

fn settings() -> Settings {
    Settings {
        slot_bytes: 256,
        file_compaction_percent: 75,
        min_compaction_files: 2,
        target_file_size: 2048,
        small_file_cleanup_threshold: 64,
        max_object_size: 32,
    }
}

// A reopening that is not shown.
pub fn opened(heap: &[u8], table: &mut [u64]) -> Reopened {
    recovery::reopen(settings(), no_state(settings()), no_claims(), heap, table)
}

pub fn fresh(heap: &[u8], table: &mut [u64]) -> State {
    let r = opened(heap, table);
    let state = r.state;
    state
}

pub fn reopen(rt: &impl Print, heap: &[u8], table: &mut [u64]) -> io::Result<State> {
    let r = opened(heap, table);
    let answer = r.answer;
    let state = r.state;
    test_host::text(rt, b"reopen")?;
    show::answer(rt, answer)?;
    test_host::store(rt, state, heap, table)?;
    Ok(state)
}

pub fn write(
    rt: &impl Print,
    state: State,
    heap: &mut [u8],
    table: &mut [u64],
    batch: &[u8],
) -> io::Result<State> {
    let w = writepath::write(settings(), state, heap, table, batch);
    let answer = w.answer;
    let after = w.state;
    test_host::text(rt, b"write ")?;
    show::bytes(rt, batch)?;
    show::answer(rt, answer)?;
    test_host::store(rt, after, heap, table)?;
    Ok(after)
}

pub fn read(rt: &impl Print, state: State, heap: &[u8], table: &[u64], id: u64) -> io::Result<()> {
    let answer = readpath::read_answer(settings(), state, heap, table, id);
    let body = readpath::read(settings(), state, heap, table, id);
    test_host::text(rt, b"read")?;
    test_host::number(rt, id)?;
    show::read(rt, answer, body)?;
    test_host::text(rt, b"\n")
}
