ghost use Rattle.std.specs.Prelude.{◌≡◌, [], ◌∷◌, map, ◌+◌, ◌*◌, ◌≤◌, ◌<◌, length};
ghost use Rattle.rules.specs.Base.{each};
ghost use Rattle.rules.specs.Trailer.{absolute, count_in, entries_in};
ghost use Rattle.rules.specs.SlotFile.{view_in, views_in};
ghost use Rattle.rules.specs.Reopen.{file_of, files_in};
ghost use Rattle.location_table.specs.Tables.{Formed};
ghost use Rattle.reopen_tests.specs.Shown.{Shown, Surveyed};
ghost use Rattle.rebuild.specs.Filled.{replaces, Filled, Placed, rows_of};

use location_table::{capacity, clear, load_in, store_in, used};
use reopen_tests::Labels;
use reopen_tests::slots::no_file;
use rules::Label;
use slot_file::slot::{slot_at, trailer_part};
use table_merge::{absolute, masked_position, merge, to_merge};

// Whether an entry replaces what the table has for its id: "its entry of greatest masked position".
fn replaces(held: Option<u64>, location: u64) -> bool
    ensures { result ≡ replaces held location }
{
    held.is_none_or(|old| masked_position(old) < masked_position(location))
}

// One entry beside those met before; where a new id finds no room the buffer is cleared.
fn meet(table: &mut [u64], id: u64, location: u64) -> bool
    requires formed { Formed table.old }
    requires location_nonzero { 0 < location }
    ensures { Filled table.old
        (record { id = id; location = location } ∷ []) result
        table.new }
{
    if !replaces(load_in(table, id), location) {
        return true;
    }
    if !store_in(table, id, location) {
        clear(table);
        return false;
    }
    true
}

// The entries of one trailer, one by one.
fn one_by_one(trailer: &[u8], lsn: u64, table: &mut [u64]) -> bool
    requires { Formed table.old
        × (12 + 16 * count_in trailer.now ≤ length trailer.now)
        × Placed lsn (entries_in trailer.now) }
    ensures { Filled table.old
        (map (absolute lsn) (entries_in trailer.now)) result
        table.new }
{
    for k in 0..trailer::count(trailer) {
        let e = absolute(trailer::entry(trailer, k), lsn);
        if !meet(table, e.id, e.location) {
            return false;
        }
    }
    true
}

// The entries of one trailer: many new ids that rise are merged.
fn fill_file(trailer: &[u8], lsn: u64, table: &mut [u64]) -> bool
    requires { Formed table.old
        × (12 + 16 * count_in trailer.now ≤ length trailer.now)
        × Placed lsn (entries_in trailer.now) }
    ensures { Filled table.old
        (map (absolute lsn) (entries_in trailer.now)) result
        table.new }
{
    let more = to_merge(table, trailer);
    if more == 0 {
        return one_by_one(trailer, lsn, table);
    }
    let free = capacity(table) - used(table);
    if (free as u64) < more {
        clear(table);
        return false;
    }
    merge(table, trailer, lsn, more, true);
    true
}

// The entries of a slot's file, if there is one.
fn fill_slot(slot: &[u8], l: Label, table: &mut [u64]) -> bool
    requires formed { Formed table.old }
    requires shown { Shown slot.now l }
    ensures { Filled table.old
        (each rows_of (file_of (view_in slot.now))) result
        table.new }
{
    if no_file(l) {
        return true;
    }
    fill_file(trailer_part(slot, l), l.lsn, table)
}

// "Each id maps to its entry of greatest masked position"; without room for all ids the buffer is cleared.
pub fn fill(heap: &[u8], size: usize, n: usize, slots: Labels, table: &mut [u64]) -> bool
    requires formed { Formed table.old }
    requires surveyed { Surveyed n size heap.now slots.labels }
    ensures { Filled table.old
        (each rows_of (files_in (views_in n size heap.now))) result
        table.new }
{
    for k in 0..n {
        if !fill_slot(slot_at(heap, size, k), slots.labels[k], table) {
            return false;
        }
    }
    true
}
