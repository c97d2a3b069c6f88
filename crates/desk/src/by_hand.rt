// Commands that change settings, buffers and state by hand.
ghost use Rattle.std.specs.Prelude.{◌≡◌};
ghost use Rattle.rules.specs.Base.{List, ℕ};
ghost use Rattle.desk.specs.Desk.{desk, left, done};
ghost use Rattle.desk.specs.Commands.{settings_from, record_from, claims_from, with_settings, with_state, with_claims, state_from};
ghost use Rattle.desk.specs.Commands.{record_by, heap_by, table_by, poke_by, entry_by};

use crate::turns::{bad_line, done};
use crate::{Bench, Turn};
use rules::{Claims, RECORDS, Record, Settings};

fn settings_of(n: [u64; 9]) -> Settings
    ensures { result ≡ settings_from n }
{
    Settings {
        slot_bytes: n[0],
        file_compaction_percent: n[1],
        min_compaction_files: n[2],
        target_file_size: n[3],
        small_file_cleanup_threshold: n[4],
        max_object_size: n[5],
    }
}

pub fn settings(b: Bench, n: [u64; 9]) -> Turn
    ensures { result ≡ done (with_settings b (settings_from n)) }
{
    let mut next = b;
    let given = settings_of(n);
    next.settings = given;
    done(next)
}

pub fn heap(b: Bench, bytes: u64, heap: &mut [u8]) -> Turn
    ensures { (table : List ℕ)
        → left result heap.new table ≡ heap_by bytes (desk b heap.old table) }
{
    let mut next = b;
    if (heap.len() as u64) < bytes {
        return bad_line(b);
    }
    heap.fill(0);
    next.heap_len = bytes as usize;
    done(next)
}

pub fn table(b: Bench, words: u64, table: &mut [u64]) -> Turn
    ensures { (heap : List ℕ) → left result heap table.new
        ≡ table_by words (desk b heap table.old) }
{
    let mut next = b;
    if (table.len() as u64) < words {
        return bad_line(b);
    }
    location_table::clear(table);
    next.table_words = words as usize;
    done(next)
}

pub fn poke(b: Bench, at: u64, bytes: &[u8], heap: &mut [u8]) -> Turn
    ensures { (table : List ℕ)
        → left result heap.new table ≡ poke_by at bytes.now (desk b heap.old table) }
{
    if heap.len() < bytes.len() {
        return bad_line(b);
    }
    if ((heap.len() - bytes.len()) as u64) < at {
        return bad_line(b);
    }
    let from = at as usize;
    byte_parts::copy(bytes, &mut heap[from..]);
    done(b)
}

pub fn entry(b: Bench, k: u64, id: u64, location: u64, table: &mut [u64]) -> Turn
    ensures { (heap : List ℕ) → left result heap table.new
        ≡ entry_by k id location (desk b heap table.old) }
{
    if (location_table::capacity(table) as u64) <= k {
        return bad_line(b);
    }
    let at = k as usize;
    location_table::set_pair(table, at, id, location);
    done(b)
}

pub fn state(b: Bench, n: [u64; 9]) -> Turn
    ensures { result ≡ done (with_state b (state_from n b.state)) }
{
    let mut next = b;
    let mut s = b.state;
    let given = settings_of(n);
    s.settings = given;
    s.heap_len = n[6];
    s.table_len = n[7];
    s.next_position = n[8];
    next.state = s;
    done(next)
}

fn record_of(n: [u64; 9]) -> Record
    ensures { result ≡ record_from n }
{
    let label = file_map::labelled(n[1], n[2], n[3], n[4], n[5]);
    file_map::recorded(label, n[6], n[7])
}

pub fn record(b: Bench, n: [u64; 9]) -> Turn
    ensures { result ≡ record_by n b }
{
    let mut next = b;
    let slot = n[0];
    if RECORDS as u64 <= slot {
        return bad_line(b);
    }
    if 1 < n[7] {
        return bad_line(b);
    }
    let mut s = b.state;
    let files = s.files;
    let changed = file_map::with_record(files, slot as usize, record_of(n));
    s.files = changed;
    next.state = s;
    done(next)
}

pub fn claims(b: Bench, n: [u64; 9]) -> Turn
    ensures { result ≡ done (with_claims b (claims_from n)) }
{
    let mut next = b;
    let given = Claims {
        a: n[0],
        b: n[1],
        c: n[2],
        d: n[3],
    };
    next.claims = given;
    done(next)
}
