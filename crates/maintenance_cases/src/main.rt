// Maintenance on small stores: lines P6 to P9, groups, refusals. What it must write (stdout) is what tests/oracle/maintenance.py,
// the same cases on a model of the paper that shares nothing with this code, writes.

#![tactic(auto)]

mod batches;
mod host;
mod show;

use batches::DELETE;
use host::{ByHand, nothing, settings};
use rules::{Settings, State};
use std::io;

// All ids of a case are below 8.
fn reads(rt: &impl Print, s: Settings, state: State, heap: &[u8], table: &[u64]) -> io::Result<()> {
    test_host::text(rt, b"reads")?;
    for id in 1..8 {
        host::read(rt, s, state, heap, table, id)?;
    }
    test_host::text(rt, b"\n")
}

// Four batches on a fresh store, what is done by hand, the maintenance, then a reopening: what each left, and every read before and after.
fn case(
    rt: &impl Print,
    s: Settings,
    hand: ByHand,
    a: &[u64],
    b: &[u64],
    c: &[u64],
    d: &[u64],
) -> io::Result<()> {
    let mut heap = [0u8; 8192];
    let mut table = [0u64; 16];
    let mut state = host::reopened(s, &heap, &mut table);
    state = host::write(s, state, &mut heap, &mut table, a);
    state = host::write(s, state, &mut heap, &mut table, b);
    state = host::write(s, state, &mut heap, &mut table, c);
    state = host::write(s, state, &mut heap, &mut table, d);
    host::heap_by_hand(&mut heap, hand);
    state = host::state_by_hand(state, hand);
    test_host::text(rt, b"before")?;
    test_host::store(rt, state, &heap, &table)?;
    reads(rt, s, state, &heap, &table)?;
    state = host::maintain(rt, s, state, hand, &mut heap, &mut table)?;
    reads(rt, s, state, &heap, &table)?;
    state = host::reopened(s, &heap, &mut table);
    test_host::text(rt, b"reopened")?;
    test_host::store(rt, state, &heap, &table)?;
    reads(rt, s, state, &heap, &table)
}

// "3 live of 4 at 75: no candidate; 2 of 3 (66): a candidate."
fn p6(rt: &impl Print) -> io::Result<()> {
    let s = settings(75, 1, 1024, 256);
    test_host::text(rt, b"P6 3 of 4\n")?;
    case(
        rt,
        s,
        nothing(),
        &[1, 5, 2, 5, 3, 5, 4, 5],
        &[4, 6],
        &[],
        &[],
    )?;
    test_host::text(rt, b"P6 2 of 3\n")?;
    case(rt, s, nothing(), &[1, 5, 2, 5, 3, 5], &[3, 6], &[], &[])
}

// "generations 0, 3, 255 give 1, 3, 3."
fn p7(rt: &impl Print, generation: u64) -> io::Result<()> {
    let mut hand = nothing();
    hand.generations[0] = Some(generation);
    test_host::text(rt, b"P7")?;
    test_host::number(rt, generation)?;
    test_host::text(rt, b"\n")?;
    case(
        rt,
        settings(75, 1, 1024, 256),
        hand,
        &[1, 5, 2, 5, 3, 5],
        &[3, 6],
        &[],
        &[],
    )
}

// "lengths 0, 1, 60, 255, 256: shards 0, 1, 6, 8, 9."
fn p8(rt: &impl Print) -> io::Result<()> {
    test_host::text(rt, b"P8\n")?;
    case(
        rt,
        settings(100, 1, 1024, 256),
        nothing(),
        &[1, 256, 2, 255, 3, 60, 4, 1, 5, 0, 6, 5],
        &[6, 6],
        &[],
        &[],
    )
}

// "target 100, ids 1, 2, 3 of 60 bytes each: files {3}, then {1, 2}."
fn p9(rt: &impl Print) -> io::Result<()> {
    test_host::text(rt, b"P9\n")?;
    case(
        rt,
        settings(100, 1, 100, 256),
        nothing(),
        &[1, 60, 2, 60, 3, 60, 4, 5],
        &[4, 6],
        &[],
        &[],
    )
}

// Three files of three ids each, one of them put again in a fourth; the rest is the caller's.
fn three_files(rt: &impl Print, s: Settings, hand: ByHand, length: u64) -> io::Result<()> {
    case(
        rt,
        s,
        hand,
        &[1, 5, 2, length, 7, 5],
        &[3, 5, 4, DELETE, 7, 6],
        &[5, 5, 6, 5, 7, 7],
        &[7, 8],
    )
}

fn generations() -> ByHand {
    let mut hand = nothing();
    hand.generations = [None, Some(1), Some(2)];
    hand
}

// One group, a delete in it; three groups; three that are too small; the first file claimed; two of a generation, the third alone.
fn groups(rt: &impl Print) -> io::Result<()> {
    test_host::text(rt, b"one group\n")?;
    three_files(rt, settings(75, 2, 1024, 256), nothing(), 5)?;
    test_host::text(rt, b"three groups\n")?;
    three_files(rt, settings(75, 1, 1024, 256), generations(), 5)?;
    test_host::text(rt, b"three skipped\n")?;
    three_files(rt, settings(75, 2, 1024, 256), generations(), 5)?;
    test_host::text(rt, b"claimed\n")?;
    let mut claimed = generations();
    claimed.claimed = 1;
    three_files(rt, settings(75, 1, 1024, 256), claimed, 5)?;
    test_host::text(rt, b"one of two\n")?;
    let mut two = nothing();
    two.generations[2] = Some(1);
    three_files(rt, settings(75, 2, 1024, 256), two, 5)
}

// File count at the threshold, and one below it: every file is full.
fn small_files(rt: &impl Print) -> io::Result<()> {
    test_host::text(rt, b"threshold 4\n")?;
    case(
        rt,
        settings(75, 2, 1024, 4),
        nothing(),
        &[1, 5],
        &[2, 6],
        &[3, 7],
        &[4, DELETE],
    )?;
    test_host::text(rt, b"threshold 5\n")?;
    case(
        rt,
        settings(75, 2, 1024, 5),
        nothing(),
        &[1, 5],
        &[2, 6],
        &[3, 7],
        &[4, DELETE],
    )?;
    test_host::text(rt, b"file size at the target\n")?;
    case(
        rt,
        settings(75, 2, 106, 4),
        nothing(),
        &[1, 5],
        &[2, 6],
        &[3, 7],
        &[4, DELETE],
    )
}

// The body's first byte of the second file, then of the first: 10 in generation 2, and in generation 1; a length (16); a trailer byte (10).
fn damaged(rt: &impl Print) -> io::Result<()> {
    test_host::text(rt, b"10 in the second group\n")?;
    let mut hand = generations();
    hand.damaged = Some(1108);
    three_files(rt, settings(75, 1, 1024, 256), hand, 5)?;
    test_host::text(rt, b"10 in the first group\n")?;
    hand.damaged = Some(84);
    three_files(rt, settings(75, 1, 1024, 256), hand, 5)?;
    test_host::text(rt, b"length\n")?;
    hand.damaged = Some(83);
    three_files(rt, settings(75, 1, 1024, 256), hand, 5)?;
    test_host::text(rt, b"length, small\n")?;
    hand.damaged = Some(76);
    three_files(rt, settings(75, 1, 1024, 256), hand, 5)?;
    test_host::text(rt, b"id\n")?;
    hand.damaged = Some(68);
    three_files(rt, settings(75, 1, 1024, 256), hand, 5)
}

// The second file's trailer, in the second group: 19 bytes of it, as the record says (9); 20, so its checksum is wrong (10); then with a
// checksum made good a count of 252 (11), and a delete entry whose position and lsn together reach 2^63 (20).
fn trailers(rt: &impl Print) -> io::Result<()> {
    test_host::text(rt, b"9 in the second group\n")?;
    let mut hand = generations();
    hand.size = Some(70);
    three_files(rt, settings(75, 1, 1024, 256), hand, 5)?;
    test_host::text(rt, b"trailer of 20 bytes\n")?;
    hand.size = Some(71);
    three_files(rt, settings(75, 1, 1024, 256), hand, 5)?;
    test_host::text(rt, b"11 in the second group\n")?;
    hand.size = None;
    hand.damaged = Some(1143);
    hand.sum = Some(2185209830);
    three_files(rt, settings(75, 1, 1024, 256), hand, 5)?;
    test_host::text(rt, b"20 in the second group\n")?;
    hand.damaged = Some(1182);
    hand.sum = Some(958860330);
    three_files(rt, settings(75, 1, 1024, 256), hand, 5)
}

// Four objects of one shard in a slot of 1,024 bytes; five files for four empty slots; the last positions.
fn refused(rt: &impl Print) -> io::Result<()> {
    test_host::text(rt, b"4\n")?;
    case(
        rt,
        settings(75, 2, 1048576, 1),
        nothing(),
        &[1, 256, 2, 256],
        &[3, 256, 4, 256],
        &[],
        &[],
    )?;
    test_host::text(rt, b"5\n")?;
    case(
        rt,
        settings(100, 1, 1024, 256),
        nothing(),
        &[1, 256, 2, 255, 3, 60, 4, 1, 5, 0, 6, 5],
        &[6, 6],
        &[7, 5],
        &[7, 6],
    )?;
    test_host::text(rt, b"5 in the third group\n")?;
    three_files(rt, settings(75, 1, 1024, 256), generations(), 9)?;
    test_host::text(rt, b"7\n")?;
    let mut hand = generations();
    hand.next = Some(4611686018427387854);
    three_files(rt, settings(75, 1, 1024, 256), hand, 5)?;
    test_host::text(rt, b"7 in the second group\n")?;
    hand.next = Some(4611686018427387853);
    three_files(rt, settings(75, 1, 1024, 256), hand, 5)
}

// Settings that are not the state's: nothing was reopened with slots of 100 bytes.
fn limits(rt: &impl Print) -> io::Result<()> {
    test_host::text(rt, b"1\n")?;
    let mut s = settings(75, 1, 1024, 256);
    s.slot_bytes = 100;
    case(rt, s, nothing(), &[1, 5], &[], &[], &[])
}

fn main(rt: HostRuntime) -> io::Result<()> {
    p6(&rt)?;
    p7(&rt, 0)?;
    p7(&rt, 3)?;
    p7(&rt, 255)?;
    p8(&rt)?;
    p9(&rt)?;
    groups(&rt)?;
    small_files(&rt)?;
    damaged(&rt)?;
    trailers(&rt)?;
    refused(&rt)?;
    limits(&rt)
}
