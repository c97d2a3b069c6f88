// The host of every case: eight slots of 1,024 bytes, a table of eight.
use crate::{batches, show};
use rules::{Claims, Settings, State};
use std::io;
use test_host::{no_claims, no_state};

// What is changed by hand before the maintenance: the generations of the first three files and the next position; a heap byte; of the
// second file the record's file_size and the trailer's checksum; the first word of the claims.
#[derive(Clone, Copy)]
pub struct ByHand {
    pub generations: [Option<u64>; 3],
    pub damaged: Option<usize>,
    pub size: Option<u64>,
    pub sum: Option<u32>,
    pub next: Option<u64>,
    pub claimed: u64,
}

// Nothing, and no slot claimed.
pub fn nothing() -> ByHand {
    ByHand {
        generations: [None; 3],
        damaged: None,
        size: None,
        sum: None,
        next: None,
        claimed: 0,
    }
}

pub fn settings(percent: u64, least: u64, target: u64, threshold: u64) -> Settings {
    Settings {
        slot_bytes: 1024,
        file_compaction_percent: percent,
        min_compaction_files: least,
        target_file_size: target,
        small_file_cleanup_threshold: threshold,
        max_object_size: 512,
    }
}

fn claim_words(first: u64) -> Claims {
    let mut claims = no_claims();
    claims.a = first;
    claims
}

pub fn reopened(s: Settings, heap: &[u8], table: &mut [u64]) -> State {
    let r = marble::reopen(s, no_state(s), no_claims(), heap, table);
    let state = r.state;
    state
}

pub fn write(
    s: Settings,
    state: State,
    heap: &mut [u8],
    table: &mut [u64],
    pairs: &[u64],
) -> State {
    let mut batch = [0u8; 2048];
    let end = batches::make(&mut batch, pairs);
    let w = marble::write(s, state, heap, table, &batch[0..end]);
    let after = w.state;
    after
}

// The second file of these cases has its trailer at byte 51, 1,024 + 64 + 51 of the heap.
const SEAL: usize = 1139;

pub fn heap_by_hand(heap: &mut [u8], hand: ByHand) {
    if let Some(at) = hand.damaged {
        if at < heap.len() {
            let byte = heap[at];
            heap[at] = !byte;
        }
    }
    if let Some(sum) = hand.sum {
        for (i, byte) in sum.to_le_bytes().iter().enumerate() {
            batches::byte(heap, SEAL + i, *byte);
        }
    }
}

pub fn state_by_hand(state: State, hand: ByHand) -> State {
    let mut files = state.files;
    for (slot, generation) in hand.generations.iter().enumerate() {
        if let Some(generation) = generation {
            files.records[slot].label.generation = *generation;
        }
    }
    if let Some(size) = hand.size {
        files.records[1].label.file_size = size;
    }
    let mut after = state;
    after.files = files;
    if let Some(next) = hand.next {
        after.next_position = next;
    }
    after
}

pub fn maintain(
    rt: &impl Print,
    s: Settings,
    state: State,
    hand: ByHand,
    heap: &mut [u8],
    table: &mut [u64],
) -> io::Result<State> {
    let mut places = [0u32; 8];
    let mut pieces = [0u32; 8];
    let claims = claim_words(hand.claimed);
    let m = marble::nightly(s, state, claims, heap, table, &mut places, &mut pieces);
    let answer = m.answer;
    let after = m.state;
    show::maintained(rt, answer)?;
    test_host::store(rt, after, heap, table)?;
    show::counted(rt, marble::counts(s, after, heap, table))?;
    Ok(after)
}

pub fn read(
    rt: &impl Print,
    s: Settings,
    state: State,
    heap: &[u8],
    table: &[u64],
    id: u64,
) -> io::Result<()> {
    let body = marble::read(s, state, heap, table, id);
    show::body(rt, id, body)
}
