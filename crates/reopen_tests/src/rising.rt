ghost use Rattle.std.specs.Prelude.{◌≡◌, ◌+◌, ◌*◌, ◌≤◌, ◌<◌, length, get_or, drop};
ghost use Rattle.rules.specs.Base.{any};
ghost use Rattle.rules.specs.Trailer.{count_in, entries_in};
ghost use Rattle.rules.specs.SlotFile.{view_in, views_in};
ghost use Rattle.rules.specs.Reopen.{file_of, files_in, not_rising};
ghost use Rattle.rules.specs.Table.{no_entry};
ghost use Rattle.reopen_tests.specs.Ascending.{ascending, repeats, file_falls};
ghost use Rattle.reopen_tests.specs.Shown.{Shown, Surveyed};

use crate::Labels;
use crate::slots::no_file;
use disk_location::RelativeDiskLocation;
use rules::{Entry, Label};
use slot_file::slot::{slot_at, trailer_part};

// Every id is above the one before it, as in the files that this port writes.
pub fn ascending(trailer: &[u8]) -> bool
    requires { 12 + 16 * count_in trailer.now ≤ length trailer.now }
    ensures { result ≡ ascending (entries_in trailer.now) }
{
    let n = trailer::count(trailer);
    if n == 0 {
        return true;
    }
    let mut last = trailer::entry(trailer, 0).id;
    for k in 1..n {
        let id = trailer::entry(trailer, k).id;
        if id <= last {
            return false;
        }
        last = id;
    }
    true
}

// A later entry of the same id that is not above.
fn repeats(e: Entry, d: Entry) -> bool
    ensures { result ≡ repeats e d }
{
    let held = RelativeDiskLocation(e.location);
    let later = RelativeDiskLocation(d.location);
    d.id == e.id && later.position() <= held.position()
}

fn repeated(trailer: &[u8], k: u64) -> bool
    requires k_bound { k < count_in trailer.now }
    requires trailer_in_bounds { 12 + 16 * count_in trailer.now ≤ length trailer.now }
    ensures { result
        ≡ any (repeats (get_or (entries_in trailer.now) k no_entry)) (drop (k + 1) (entries_in trailer.now)) }
{
    let n = trailer::count(trailer);
    let e = trailer::entry(trailer, k);
    for j in k + 1..n {
        if repeats(e, trailer::entry(trailer, j)) {
            return true;
        }
    }
    false
}

// All pairs.
fn some_repeated(trailer: &[u8]) -> bool
    requires { 12 + 16 * count_in trailer.now ≤ length trailer.now }
    ensures { result ≡ not_rising (entries_in trailer.now) }
{
    for k in 0..trailer::count(trailer) {
        if repeated(trailer, k) {
            return true;
        }
    }
    false
}

// "A repeated id in one trailer needs strictly rising positions": pairs are compared only where ids do not ascend.
pub fn falls(trailer: &[u8]) -> bool
    requires { 12 + 16 * count_in trailer.now ≤ length trailer.now }
    ensures { result ≡ not_rising (entries_in trailer.now) }
{
    if ascending(trailer) {
        return false;
    }
    some_repeated(trailer)
}

// Slot's file, if there is one.
fn slot_falls(slot: &[u8], l: Label) -> bool
    requires { Shown slot.now l }
    ensures { result ≡ any file_falls (file_of (view_in slot.now)) }
{
    if no_file(l) {
        return false;
    }
    falls(trailer_part(slot, l))
}

// 15, over the files of all slots.
pub fn not_rising(heap: &[u8], size: usize, n: usize, slots: Labels) -> bool
    requires { Surveyed n size heap.now slots.labels }
    ensures { result ≡ any file_falls (files_in (views_in n size heap.now)) }
{
    for k in 0..n {
        if slot_falls(slot_at(heap, size, k), slots.labels[k]) {
            return true;
        }
    }
    false
}
