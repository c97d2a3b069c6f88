// The four table calls and the file lookup on a few cases, an answer to a line.

#![tactic(auto)]

use as_numbers::answers::refusal_number;
use rules::{Compared, FileMap, Loaded, Refusal};
use std::io;

fn say_refused(rt: &impl Print, r: Refusal) -> io::Result<()> {
    println!(rt; "refused {}", refusal_number(r))
}

fn say_answer(rt: &impl Print, a: Result<(), Refusal>) -> io::Result<()> {
    match a {
        Ok(()) => println!(rt; "ok"),
        Err(r) => say_refused(rt, r),
    }
}

fn say_loaded(rt: &impl Print, loaded: Loaded) -> io::Result<()> {
    match loaded {
        Loaded::At(l) => println!(rt; "at {l}"),
        Loaded::DeletedAt(l) => println!(rt; "deleted at {l}"),
        Loaded::Never => println!(rt; "never"),
    }
}

fn say_load(rt: &impl Print, a: Result<Loaded, Refusal>) -> io::Result<()> {
    match a {
        Ok(l) => say_loaded(rt, l),
        Err(r) => say_refused(rt, r),
    }
}

fn say_held(rt: &impl Print, held: Option<u64>) -> io::Result<()> {
    match held {
        Some(l) => println!(rt; "before {l}"),
        None => println!(rt; "nothing before"),
    }
}

fn say_greater(rt: &impl Print, a: Result<Option<u64>, Refusal>) -> io::Result<()> {
    match a {
        Ok(held) => say_held(rt, held),
        Err(r) => say_refused(rt, r),
    }
}

fn say_compare(rt: &impl Print, a: Result<Compared, Refusal>) -> io::Result<()> {
    match a {
        Ok(Compared::Swapped) => println!(rt; "ok"),
        Ok(Compared::Differs(l)) => println!(rt; "differs {l}"),
        Err(r) => say_refused(rt, r),
    }
}

fn say_slot(rt: &impl Print, s: Option<u64>) -> io::Result<()> {
    match s {
        Some(k) => println!(rt; "slot {k}"),
        None => println!(rt; "no file"),
    }
}

// A table of two entries: 20 and 6, an object, a delete, an id never written, a compare that differs, 18, 19, a lower
// location not stored, a delete held before.
fn stores(rt: &impl Print, table: &mut [u64]) -> io::Result<()> {
    say_load(rt, table_calls::load(table, 7))?;
    say_answer(rt, table_calls::store(table, 7, 10))?;
    say_answer(rt, table_calls::store(table, 3, 0))?;
    say_answer(rt, table_calls::store(table, 3, 11))?;
    say_answer(rt, table_calls::store(table, 9, 12))?;
    say_load(rt, table_calls::load(table, 7))?;
    say_load(rt, table_calls::load(table, 3))?;
    say_load(rt, table_calls::load(table, 9))
}

fn compares(rt: &impl Print, table: &mut [u64]) -> io::Result<()> {
    say_compare(rt, table_calls::compare_and_store(table, 7, 10, 14))?;
    say_compare(rt, table_calls::compare_and_store(table, 7, 10, 16))?;
    say_compare(rt, table_calls::compare_and_store(table, 5, 10, 16))?;
    say_compare(rt, table_calls::compare_and_store(table, 7, 0, 16))
}

fn greaters(rt: &impl Print, table: &mut [u64]) -> io::Result<()> {
    say_greater(rt, table_calls::store_if_greater(table, 7, 14))?;
    say_greater(rt, table_calls::store_if_greater(table, 7, 12))?;
    say_greater(rt, table_calls::store_if_greater(table, 7, 20))?;
    say_greater(rt, table_calls::store_if_greater(table, 9, 20))?;
    say_greater(rt, table_calls::store_if_greater(table, 3, 10))?;
    say_load(rt, table_calls::load(table, 7))
}

// A table with a hole is not in form; nor is one of no entries.
fn forms(rt: &impl Print) -> io::Result<()> {
    let table = [3u64, 11, 0, 0, 7, 10];
    say_load(rt, table_calls::load(&table, 7))?;
    say_load(rt, table_calls::load(&table[0..0], 7))
}

// An odd length: refused by each of the four, and the last word stays.
fn odd(rt: &impl Print) -> io::Result<()> {
    let mut table = [3u64, 11, 9];
    say_load(rt, table_calls::load(&table, 3))?;
    say_answer(rt, table_calls::store(&mut table, 3, 12))?;
    say_compare(rt, table_calls::compare_and_store(&mut table, 3, 11, 12))?;
    say_greater(rt, table_calls::store_if_greater(&mut table, 3, 12))?;
    println!(rt; "last word {}", table[2])
}

// A batch file of base 101 in slot 0, the same one in slot 2, a rewritten one of base 205 in slot 1: raw locations
// decide, the lowest slot of equals.
fn files() -> FileMap {
    let batch = file_map::fresh(file_map::labelled(4611686018427388005, 21, 65, 2, 0));
    let rewritten = file_map::fresh(file_map::labelled(205, 21, 65, 2, 1));
    let a = file_map::with_record(file_map::no_files(), 0, batch);
    let b = file_map::with_record(a, 1, rewritten);
    file_map::with_record(b, 2, batch)
}

fn main(rt: HostRuntime) -> io::Result<()> {
    let mut table = [0u64; 4];
    stores(&rt, &mut table)?;
    compares(&rt, &mut table)?;
    greaters(&rt, &mut table)?;
    forms(&rt)?;
    odd(&rt)?;
    let m = files();
    say_slot(&rt, file_map::file_for(m, 409))?;
    say_slot(&rt, file_map::file_for(m, 410))?;
    say_slot(&rt, file_map::file_for(m, 9223372036854776010))
}
